// The arithmetic of bits.
ghost use Rattle.std.specs.Prelude.{◌≡◌};
ghost use Rattle.binary.specs.Products.{bit_product};
ghost use Rattle.field.specs.Bit.{bits};
ghost use Rattle.binary.proofs.Polynomials.{bits_binary};
ghost use Rattle.std.proofs.Common.{lit<};

use super::Bit;
use crate::by_code::ByCode;

impl ByCode for Bit {
    const BITS: u32 = 1;

    ghost BITS = { 1 };

    ghost coded = { bits };

    ghost product = { bit_product };

    ghost scalar_bits = { 1 };

    ghost scalars = { 1 };

    ghost binary = { bits_binary };

    ghost few = { lit< tt };

    fn of(n: u32) -> Bit {
        Bit {
            code: (n & 1) as u8,
        }
    }

    fn number(self) -> u32 {
        self.code as u32
    }

    fn product(self, other: Bit) -> Bit {
        Bit::of((self.code & other.code) as u32)
    }

    // The only other bit is one.
    fn reciprocal(self) -> Bit {
        self
    }
}
