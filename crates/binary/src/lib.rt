// Fields of characteristic 2 whose elements are codes, as theorems: the definitions stand in specs/.
#![tactic(auto)]

ghost use Rattle.std.specs.Prelude.{◌≡◌, ℕ, ◌/◌, ◌%◌, ◌^◌, ◌<◌};
ghost use Rattle.binary.specs.Binary.{Binary};
ghost use Rattle.binary.specs.Products.{bit_product, hex_product, octet_product, word_product, nibble_product, Modulus};

// The hex digits, octets and words are fields over the bits, the nibbles over the hex digits.
pub fn fields()
    ensures bit { Binary 1 1 1 bit_product }
    ensures hex { Binary 4 1 4 hex_product }
    ensures octet { Binary 8 1 8 octet_product }
    ensures word { Binary 16 1 16 word_product }
    ensures nibble { Binary 28 4 7 nibble_product }
{}

// Which fields they are. With x for the code 2, x ^ 4 = x + 1 in the hex digits, x ^ 8 = x ^ 4 + x ^ 3 + x + 1 in the octets
// and x ^ 16 = x ^ 12 + x ^ 3 + x + 1 in the words. With z for the code 16, z ^ 7 = z + 1 in the nibbles, where x is as in the hex digits.
pub fn moduli()
    ensures hex { Modulus hex_product 2 4 0x3 }
    ensures octet { Modulus octet_product 2 8 0x1b }
    ensures word { Modulus word_product 2 16 0x100b }
    ensures nibble { (Modulus nibble_product 2 4 0x3) × (Modulus nibble_product 16 7 0x11) }
    ensures places { (i : ℕ) → i < 28 → nibble_product (16 ^ (i / 4)) (2 ^ (i % 4)) ≡ 2 ^ i }
{}
