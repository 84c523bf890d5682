// Single symbols as rows, held as their codes.
ghost use Rattle.std.specs.Prelude.{◌≡◌};
ghost use Rattle.field.specs.Alphabet.{alphabet, symbol_rows};
ghost use Rattle.field.proofs.Symbols.{symbol_laws};
ghost use Rattle.std.proofs.Common.{rules};

use crate::row::Row;
use field::{FiniteField, SymbolField};
use std::marker::{Model, PhantomData};

// A symbol, held as its code. A contract sees the symbol.
#[derive(Clone, Copy)]
pub(crate) struct CodeRow<F: FiniteField> {
    code: u32,
    of: PhantomData<F>,
}

impl<F: FiniteField> Model for CodeRow<F> {
    ghost use Rattle.std.specs.Prelude.{◌≡◌};

    ghost Value = { F };

    ghost view = { λ r. F.FiniteField.element r.code };

    // the code is that of a symbol
    ghost invariant = { λ r. F.FiniteField.code (F.FiniteField.element r.code) ≡ r.code };

    ghost inverse = { λ a. record { code = F.FiniteField.code a; of = record {} } };
}

impl<F: FiniteField> CodeRow<F> {
    pub(crate) fn new(symbol: F) -> Self
        ensures { result ≡ symbol }
    {
        CodeRow {
            code: symbol.code(),
            of: PhantomData,
        }
    }

    fn symbol(self) -> F
        ensures { result ≡ self }
    {
        F::from_code(self.code).unwrap()
    }
}

impl<F: SymbolField> Row for CodeRow<F> {
    type Scalar = F::Scalar;

    ghost rows = { symbol_rows (alphabet F.Scalar.FiniteField F.SymbolField) };

    ghost laws = { symbol_laws (record { scalar_codes = F.Scalar.FiniteField.codes; codes = F.FiniteField.codes; extension = F.SymbolField.extension }) };

    ghost narrow = { Prim.search rules };

    fn width() -> usize {
        F::DEGREE
    }

    fn plus(self, other: CodeRow<F>) -> CodeRow<F> {
        CodeRow::new(self.symbol().plus(other.symbol()))
    }

    fn scaled(self, scalar: F::Scalar) -> CodeRow<F> {
        CodeRow::new(F::from_scalar(scalar).times(self.symbol()))
    }

    fn coordinate(self, i: usize) -> F::Scalar {
        self.symbol().coordinate(i)
    }
}
