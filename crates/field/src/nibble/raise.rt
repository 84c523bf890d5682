// The power 16 of nibbles, by a table of the powers of their digits in base 4.
ghost use Rattle.std.specs.Prelude.{◌≡◌};
ghost use Rattle.binary.specs.Codes.{raise as raised};
ghost use Rattle.binary.specs.Products.{nibble_product};

use super::Nibble;
use crate::images::image;

// At [i][d], the power 16 of the digit d at the place i.
const POWERS: [[u32; 4]; 14] = [
    [0x0000000, 0x0000001, 0x0000002, 0x0000003],
    [0x0000000, 0x0000004, 0x0000008, 0x000000c],
    [0x0000000, 0x0010100, 0x0020200, 0x0030300],
    [0x0000000, 0x0040400, 0x0080800, 0x00c0c00],
    [0x0000000, 0x0010110, 0x0020220, 0x0030330],
    [0x0000000, 0x0040440, 0x0080880, 0x00c0cc0],
    [0x0000000, 0x0111110, 0x0222220, 0x0333330],
    [0x0000000, 0x0444440, 0x0888880, 0x0ccccc0],
    [0x0000000, 0x0010010, 0x0020020, 0x0030030],
    [0x0000000, 0x0040040, 0x0080080, 0x00c00c0],
    [0x0000000, 0x1101110, 0x2202220, 0x3303330],
    [0x0000000, 0x4404440, 0x8808880, 0xcc0ccc0],
    [0x0000000, 0x1001010, 0x2002020, 0x3003030],
    [0x0000000, 0x4004040, 0x8008080, 0xc00c0c0],
];

pub(super) fn raise(a: Nibble) -> Nibble
    ensures { result.code ≡ raised nibble_product 4 a.code }
{
    Nibble {
        code: image(&POWERS, a.code),
    }
}
