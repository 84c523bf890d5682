// The squares of words, by a table of the squares of their digits in base 4.
ghost use Rattle.std.specs.Prelude.{◌≡◌};
ghost use Rattle.binary.specs.Codes.{raise as raised};
ghost use Rattle.binary.specs.Products.{word_product};

use crate::images::image;

// At [i][d], the square of the digit d at the place i.
const SQUARES: [[u32; 4]; 8] = [
    [0x0000, 0x0001, 0x0004, 0x0005],
    [0x0000, 0x0010, 0x0040, 0x0050],
    [0x0000, 0x0100, 0x0400, 0x0500],
    [0x0000, 0x1000, 0x4000, 0x5000],
    [0x0000, 0x100b, 0x402c, 0x5027],
    [0x0000, 0x10bb, 0x42ec, 0x5257],
    [0x0000, 0x1bbb, 0x6eec, 0x7557],
    [0x0000, 0xabbb, 0x8efa, 0x2541],
];

pub(super) fn square(a: u16) -> u16
    ensures { result ≡ raised word_product 1 a }
{
    image(&SQUARES, a as u32) as u16
}

// n squares, one of the other.
pub(super) fn squares(a: u16, n: u32) -> u16
    ensures { result ≡ raised word_product n a }
{
    let mut power = a;
    for _ in 0..n {
        power = square(power);
    }
    power
}
