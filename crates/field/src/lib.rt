// Finite fields, symbol fields over them, and their laws.
#![tactic(auto)]

pub mod bit;
mod by_code;
pub mod codes;
mod coordinates;
pub mod hex;
mod images;
pub mod nibble;
pub mod octet;
mod polynomials;
#[cfg(test)]
mod tests;
pub mod word;

ghost use Rattle.std.specs.Prelude.{◌≡◌, ℕ, ◌/◌, ◌%◌, ◌^◌};
ghost use Rattle.linear.specs.Field.{Field, reciprocal};
ghost use Rattle.field.specs.Laws.{Codes, Extension, of_code};

// A finite field. Each element has one code, and the codes are the numbers below the field's size.
pub trait FiniteField: Copy {
    ghost field: { Field Self };

    ghost size: { ℕ };

    ghost code: { Self → ℕ };

    ghost element: { ℕ → Self };

    fn zero() -> Self
        ensures { result ≡ field.zero };

    fn one() -> Self
        ensures { result ≡ field.one };

    fn plus(self, other: Self) -> Self
        ensures { result ≡ field.add self other };

    fn negative(self) -> Self
        ensures { result ≡ field.neg self };

    fn times(self, other: Self) -> Self
        ensures { result ≡ field.mul self other };

    // Absent for zero and only there.
    fn inverse(self) -> Option<Self>
        ensures { result ≡ reciprocal field self };

    fn code(self) -> u32
        ensures { result ≡ code self };

    // Absent exactly from the field's size on.
    fn from_code(n: u32) -> Option<Self>
        ensures { result ≡ of_code size element n };

    ghost codes: { Codes field size code element };
}

// A finite field over a smaller one, its scalars: each symbol has m coordinates, the digits of its code in base q.
pub trait SymbolField: FiniteField {
    type Scalar: FiniteField;

    // the number of scalars, q
    const ORDER: u32;

    // the number of scalars in a symbol, m
    const DEGREE: usize;

    ghost ORDER: { ℕ };

    ghost DEGREE: { ℕ };

    ghost embed: { Self.Scalar → Self };

    ghost coord: { Self → ℕ → Self.Scalar };

    ghost frobenius: { Self → Self };

    // q, by the constant
    fn q() -> u32
        ensures { result ≡ ORDER }
    {
        Self::ORDER
    }

    // m, by the constant
    fn m() -> usize
        ensures { result ≡ DEGREE }
    {
        Self::DEGREE
    }

    // The q-th power.
    fn raise(self) -> Self
        ensures { result ≡ frobenius self };

    // The coordinate at place i, the code's digit there; zero from m on.
    fn coordinate(self, i: usize) -> Self::Scalar
        ensures value { result ≡ coord self i }
        ensures digit { Self.Scalar.FiniteField.code result ≡ Self.FiniteField.code self / ORDER ^ i % ORDER };

    // The symbol of a scalar: it has the scalar's code.
    fn from_scalar(s: Self::Scalar) -> Self
        ensures value { result ≡ embed s }
        ensures code { Self.FiniteField.code result ≡ Self.Scalar.FiniteField.code s };

    ghost extension: { Extension Self.Scalar.FiniteField.field Self.FiniteField.field Self.Scalar.FiniteField.size Self.FiniteField.size ORDER DEGREE Self.Scalar.FiniteField.code Self.FiniteField.code embed coord frobenius };
}
