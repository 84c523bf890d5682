// The product and the inverse of words, by their codes: polynomials over the bits modulo x ^ 16 + x ^ 12 + x ^ 3 + x + 1.
ghost use Rattle.std.specs.Prelude.{◌≡◌, ◌≢◌};
ghost use Rattle.binary.specs.Products.{word_product};

use super::squares::squares;
use crate::polynomials;

// x ^ 16, which is x ^ 12 + x ^ 3 + x + 1.
const TAIL: u32 = 0x100b;

pub(super) fn product(a: u16, b: u16) -> u16
    ensures { result ≡ word_product a b }
{
    polynomials::product(16, TAIL, a as u32, b as u32) as u16
}

// The power 2 ^ 16 - 2; each step's name has the bits of its exponent, all ones.
pub(super) fn reciprocal(a: u16) -> u16
    requires { a ≢ 0 }
    ensures { word_product a result ≡ 1 }
{
    let ones2 = product(a, squares(a, 1));
    let ones4 = product(ones2, squares(ones2, 2));
    let ones8 = product(ones4, squares(ones4, 4));
    let ones12 = product(ones4, squares(ones8, 4));
    let ones14 = product(ones2, squares(ones12, 2));
    let ones15 = product(a, squares(ones14, 1));
    squares(ones15, 1)
}
