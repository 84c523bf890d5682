// The arithmetic of nibbles.
ghost use Rattle.std.specs.Prelude.{◌^◌};
ghost use Rattle.binary.specs.Products.{nibble_product};
ghost use Rattle.binary.proofs.Lift.{field_by_codes};
ghost use Rattle.binary.proofs.Nibbles.{nibbles_binary, hex_digits_agree};
ghost use Rattle.binary.proofs.Polynomials.{hex_digits_binary};
ghost use Rattle.field.specs.HexDigit.{hex_digits};
ghost use Rattle.field.specs.Nibble.{nibbles};
ghost use Rattle.field.specs.Symbols.{embedding, coordinate, raised};
ghost use Rattle.field.specs.Extensions;
ghost use Rattle.std.proofs.Common.{lit<, lit≤};

use super::Nibble;
use super::products::{product, reciprocal};
use super::raise::raise;
use crate::SymbolField;
use crate::by_code::ByCode;
use crate::coordinates::digit;
use crate::hex::HexDigit;

impl ByCode for Nibble {
    const BITS: u32 = 28;

    ghost BITS = { 28 };

    ghost coded = { nibbles };

    ghost product = { nibble_product };

    ghost scalar_bits = { 4 };

    ghost scalars = { 7 };

    ghost binary = { nibbles_binary };

    ghost few = { lit< tt };

    fn of(n: u32) -> Nibble {
        Nibble {
            code: n & 0xfff_ffff,
        }
    }

    fn number(self) -> u32 {
        self.code
    }

    fn product(self, other: Nibble) -> Nibble {
        product(self, other)
    }

    fn reciprocal(self) -> Nibble {
        reciprocal(self)
    }
}

impl SymbolField for Nibble {
    type Scalar = HexDigit;

    const ORDER: u32 = 16;

    const DEGREE: usize = 7;

    ghost ORDER = { 2 ^ 4 };

    ghost DEGREE = { 7 };

    ghost embed = { embedding hex_digits nibbles };

    ghost coord = { coordinate hex_digits nibbles (2 ^ 4) };

    ghost frobenius = { raised nibbles nibble_product 4 };

    ghost extension = { Extensions.extension hex_digits_binary nibbles_binary (field_by_codes hex_digits hex_digits_binary) (field_by_codes nibbles nibbles_binary) hex_digits_agree
        (lit≤ tt) (lit≤ tt) (lit≤ tt) };

    fn raise(self) -> Nibble {
        raise(self)
    }

    fn coordinate(self, i: usize) -> HexDigit {
        digit(self, Self::DEGREE, i)
    }

    fn from_scalar(s: HexDigit) -> Nibble {
        Nibble::of(s.number())
    }
}
