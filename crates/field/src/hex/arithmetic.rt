// The arithmetic of hex digits: polynomials over the bits modulo x ^ 4 + x + 1.
ghost use Rattle.binary.specs.Products.{hex_product};
ghost use Rattle.field.specs.HexDigit.{hex_digits};
ghost use Rattle.binary.proofs.Polynomials.{hex_digits_binary};
ghost use Rattle.std.proofs.Common.{lit<};

use super::HexDigit;
use crate::by_code::ByCode;
use crate::polynomials;

// x ^ 4, which is x + 1.
const TAIL: u32 = 0x3;

impl ByCode for HexDigit {
    const BITS: u32 = 4;

    ghost BITS = { 4 };

    ghost coded = { hex_digits };

    ghost product = { hex_product };

    ghost scalar_bits = { 1 };

    ghost scalars = { 4 };

    ghost binary = { hex_digits_binary };

    ghost few = { lit< tt };

    fn of(n: u32) -> HexDigit {
        HexDigit {
            code: (n & 15) as u8,
        }
    }

    fn number(self) -> u32 {
        self.code as u32
    }

    fn product(self, other: HexDigit) -> HexDigit {
        HexDigit::of(polynomials::product(4, TAIL, self.number(), other.number()))
    }

    // The power 14.
    fn reciprocal(self) -> HexDigit {
        let square = self.product(self);
        let cube = self.product(square);
        let sixth = cube.product(cube);
        let seventh = self.product(sixth);
        seventh.product(seventh)
    }
}
