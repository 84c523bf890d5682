// The arithmetic of octets: products and inverses by the tables of the powers of 03.
ghost use Rattle.std.specs.Prelude.{◌≡◌, ◌≢◌, ◌^◌};
ghost use Rattle.binary.specs.Products.{octet_product};
ghost use Rattle.binary.proofs.Lift.{field_by_codes};
ghost use Rattle.binary.proofs.Polynomials.{octets_binary, bits_binary};
ghost use Rattle.binary.proofs.Tests.{computed₂, computing};
ghost use Rattle.field.specs.Bit.{bits};
ghost use Rattle.field.specs.Octet.{octets};
ghost use Rattle.field.specs.Symbols.{embedding, coordinate, raised};
ghost use Rattle.field.specs.Extensions;
ghost use Rattle.std.proofs.Common.{lit<, lit≤};

use super::Octet;
use super::tables::{exponent, power_of_three};
use crate::bit::Bit;
use crate::by_code::ByCode;
use crate::coordinates::digit;
use crate::{FiniteField, SymbolField};

// The exponents of two octets add up, modulo 255.
fn product(a: u8, b: u8) -> u8
    ensures { result ≡ octet_product a b }
{
    if a == 0 || b == 0 {
        return 0;
    }
    let sum = exponent(a) as u16 + exponent(b) as u16;
    let turned = if sum < 255 { sum } else { sum - 255 };
    power_of_three(turned as u8)
}

// The exponents of an octet and its inverse add up to 255.
fn reciprocal(a: u8) -> u8
    requires { a ≢ 0 }
    ensures { octet_product a result ≡ 1 }
{
    power_of_three(255 - exponent(a))
}

impl ByCode for Octet {
    const BITS: u32 = 8;

    ghost BITS = { 8 };

    ghost coded = { octets };

    ghost product = { octet_product };

    ghost scalar_bits = { 1 };

    ghost scalars = { 8 };

    ghost binary = { octets_binary };

    ghost few = { lit< tt };

    fn of(n: u32) -> Octet {
        Octet {
            code: (n & 0xff) as u8,
        }
    }

    fn number(self) -> u32 {
        self.code as u32
    }

    fn product(self, other: Octet) -> Octet {
        Octet {
            code: product(self.code, other.code),
        }
    }

    fn reciprocal(self) -> Octet {
        Octet {
            code: reciprocal(self.code),
        }
    }
}

impl SymbolField for Octet {
    type Scalar = Bit;

    const ORDER: u32 = 2;

    const DEGREE: usize = 8;

    ghost ORDER = { 2 ^ 1 };

    ghost DEGREE = { 8 };

    ghost embed = { embedding bits octets };

    ghost coord = { coordinate bits octets (2 ^ 1) };

    ghost frobenius = { raised octets octet_product 1 };

    ghost extension = { unfold computing in
        Extensions.extension bits_binary octets_binary (field_by_codes bits bits_binary) (field_by_codes octets octets_binary) (computed₂ _ _ 1 1 tt)
        (lit≤ tt) (lit≤ tt) (lit≤ tt) };

    fn raise(self) -> Octet {
        self.times(self)
    }

    fn coordinate(self, i: usize) -> Bit {
        digit(self, Self::DEGREE, i)
    }

    fn from_scalar(s: Bit) -> Octet {
        Octet::of(s.number())
    }
}
