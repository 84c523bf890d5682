// Which field each type is: its values add by exclusive or of their codes, and multiply by the product of codes.
ghost use Rattle.binary.specs.Coded.{ByCodes};
ghost use Rattle.binary.specs.Products.{bit_product, hex_product, octet_product, word_product, nibble_product};
ghost use Rattle.field.specs.Bit.{bits, bit_field};
ghost use Rattle.field.specs.HexDigit.{hex_digits, hex_field};
ghost use Rattle.field.specs.Octet.{octets, octet_field};
ghost use Rattle.field.specs.Word.{words, word_field};
ghost use Rattle.field.specs.Nibble.{nibbles, nibble_field};

pub fn by_codes()
    ensures bit { ByCodes bits bit_product bit_field }
    ensures hex { ByCodes hex_digits hex_product hex_field }
    ensures octet { ByCodes octets octet_product octet_field }
    ensures word { ByCodes words word_product word_field }
    ensures nibble { ByCodes nibbles nibble_product nibble_field }
{}
