// Fields whose elements are codes of so many bits: they add by exclusive or of the codes, and multiply by a product of codes.
ghost use Rattle.std.specs.Prelude.{◌≡◌, ◌≢◌, ℕ, ◌^◌, ◌<◌};
ghost use Rattle.binary.specs.Binary.{Binary};
ghost use Rattle.binary.specs.Coded.{Coded};
ghost use Rattle.binary.proofs.Lift.{field_of, field_by_codes};
ghost use Rattle.field.specs.Elements;

use crate::FiniteField;

pub(crate) trait ByCode: Copy {
    // the number of bits of a code
    const BITS: u32;

    ghost BITS: { ℕ };

    ghost coded: { Coded Self (2 ^ BITS) };

    ghost product: { ℕ → ℕ → ℕ };

    // the scalars of the field: the number of bits of a scalar's code, and of scalars in a code
    ghost scalar_bits: { ℕ };

    ghost scalars: { ℕ };

    ghost binary: { Binary BITS scalar_bits scalars product };

    // The element whose code is n modulo 2 ^ BITS.
    fn of(n: u32) -> Self
        ensures { result ≡ coded.make n };

    // The code.
    fn number(self) -> u32
        ensures { result ≡ coded.code self };

    fn product(self, other: Self) -> Self
        ensures { result ≡ coded.make (product (coded.code self) (coded.code other)) };

    // Of an element that is not zero.
    fn reciprocal(self) -> Self
        requires { coded.code self ≢ 0 }
        ensures { product (coded.code self) (coded.code result) ≡ 1 };

    ghost few: { BITS < 32 };
}

impl<T: ByCode> FiniteField for T {
    ghost field = { field_of T.coded T.binary };

    ghost size = { 2 ^ T.BITS };

    ghost code = { T.coded.code };

    ghost element = { T.coded.make };

    ghost codes = { Elements.codes (field_by_codes T.coded T.binary) };

    fn zero() -> T {
        T::of(0)
    }

    fn one() -> T {
        T::of(1)
    }

    fn plus(self, other: T) -> T {
        T::of(self.number() ^ other.number())
    }

    fn negative(self) -> T {
        self // since x + x is zero
    }

    fn times(self, other: T) -> T {
        self.product(other)
    }

    fn inverse(self) -> Option<T> {
        if self.number() == 0 {
            None
        } else {
            Some(self.reciprocal())
        }
    }

    fn code(self) -> u32 {
        self.number()
    }

    fn from_code(n: u32) -> Option<T> {
        (n < 1 << T::BITS).then_some(T::of(n))
    }
}
