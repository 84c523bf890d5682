// The product and the inverse of nibbles: polynomials over the hex digits modulo z ^ 7 + z + 1.
ghost use Rattle.std.specs.Prelude.{◌≡◌, ◌≢◌};
ghost use Rattle.linear.specs.Field.{iterate};
ghost use Rattle.binary.specs.Codes.{pow, product as product-over};
ghost use Rattle.binary.specs.Products.{nibble_product, scale_x, times_z};
ghost use Rattle.field.specs.HexDigit.{hex_digits};

use super::Nibble;
use super::raise::raise;
use crate::by_code::ByCode;
use crate::hex::HexDigit;

// x times each digit of b; x ^ 4 = x + 1.
fn times_x(b: Nibble) -> Nibble
    ensures { result.code ≡ scale_x b.code }
{
    let top = (b.code >> 3) & 0x111_1111;
    Nibble {
        code: ((b.code & 0x777_7777) << 1) ^ (top << 1) ^ top,
    }
}

// z times b; z ^ 7 = z + 1.
fn times_z(b: Nibble) -> Nibble
    ensures { result.code ≡ times_z b.code }
{
    let top = b.code >> 24;
    Nibble {
        code: ((b.code & 0xff_ffff) << 4) ^ (top << 4) ^ top,
    }
}

// The digit d times b.
fn scale(d: HexDigit, b: Nibble) -> Nibble
    ensures { result.code ≡ product-over 4 (iterate scale_x) (hex_digits.code d) b.code }
{
    let digit = d.number();
    let mut sum = 0;
    let mut power = b;
    for i in 0..4u32 {
        if (digit >> i) & 1 == 1 {
            sum ^= power.code;
        }
        power = times_x(power);
    }
    Nibble { code: sum }
}

pub(super) fn product(a: Nibble, b: Nibble) -> Nibble
    ensures { result.code ≡ nibble_product a.code b.code }
{
    let mut sum = 0;
    let mut power = b;
    for i in 0..7u32 {
        sum ^= scale(HexDigit::of(a.code >> (4 * i)), power).code;
        power = times_z(power);
    }
    Nibble { code: sum }
}

// The product of a's other six conjugates, the powers of a with the exponents 16, .., 16 ^ 6.
fn conjugates(a: Nibble) -> Nibble
    ensures { result.code ≡ pow nibble_product a.code 0x1111110 }
{
    let one = raise(a);
    let two = product(one, raise(one));
    let three = product(one, raise(two));
    product(three, raise(raise(raise(three))))
}

// The product of all seven conjugates is a digit, and its inverse times the other six is the inverse of a.
pub(super) fn reciprocal(a: Nibble) -> Nibble
    requires { a.code ≢ 0 }
    ensures { nibble_product a.code result.code ≡ 1 }
{
    let others = conjugates(a);
    let norm = HexDigit::of(product(a, others).code);
    scale(norm.reciprocal(), others)
}
