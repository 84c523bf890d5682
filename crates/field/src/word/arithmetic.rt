// The arithmetic of words.
ghost use Rattle.std.specs.Prelude.{◌^◌};
ghost use Rattle.binary.specs.Products.{word_product};
ghost use Rattle.binary.proofs.Lift.{field_by_codes};
ghost use Rattle.binary.proofs.Polynomials.{words_binary, bits_binary};
ghost use Rattle.binary.proofs.Tests.{computed₂, computing};
ghost use Rattle.field.specs.Bit.{bits};
ghost use Rattle.field.specs.Word.{words};
ghost use Rattle.field.specs.Symbols.{embedding, coordinate, raised};
ghost use Rattle.field.specs.Extensions;
ghost use Rattle.std.proofs.Common.{lit<, lit≤};

use super::Word;
use super::products::{product, reciprocal};
use super::squares::square;
use crate::SymbolField;
use crate::bit::Bit;
use crate::by_code::ByCode;
use crate::coordinates::digit;

impl ByCode for Word {
    const BITS: u32 = 16;

    ghost BITS = { 16 };

    ghost coded = { words };

    ghost product = { word_product };

    ghost scalar_bits = { 1 };

    ghost scalars = { 16 };

    ghost binary = { words_binary };

    ghost few = { lit< tt };

    fn of(n: u32) -> Word {
        Word {
            code: (n & 0xffff) as u16,
        }
    }

    fn number(self) -> u32 {
        self.code as u32
    }

    fn product(self, other: Word) -> Word {
        Word {
            code: product(self.code, other.code),
        }
    }

    fn reciprocal(self) -> Word {
        Word {
            code: reciprocal(self.code),
        }
    }
}

impl SymbolField for Word {
    type Scalar = Bit;

    const ORDER: u32 = 2;

    const DEGREE: usize = 16;

    ghost ORDER = { 2 ^ 1 };

    ghost DEGREE = { 16 };

    ghost embed = { embedding bits words };

    ghost coord = { coordinate bits words (2 ^ 1) };

    ghost frobenius = { raised words word_product 1 };

    ghost extension = { unfold computing in
        Extensions.extension bits_binary words_binary (field_by_codes bits bits_binary) (field_by_codes words words_binary) (computed₂ _ _ 1 1 tt)
        (lit≤ tt) (lit≤ tt) (lit≤ tt) };

    fn raise(self) -> Word {
        Word {
            code: square(self.code),
        }
    }

    fn coordinate(self, i: usize) -> Bit {
        digit(self, Self::DEGREE, i)
    }

    fn from_scalar(s: Bit) -> Word {
        Word::of(s.number())
    }
}
