// Symbols in a log: codes of a fixed number of capital hex digits, read and written.
ghost use Rattle.std.specs.Prelude.{◌≡◌, ◌<◌, Some};
ghost use Rattle.field.specs.Alphabet.{alphabet};
ghost use Rattle.portal_log.specs.Names.{digits};
ghost use Rattle.portal_log.specs.Numbers.{glyph, hex};
ghost use Rattle.portal_log.specs.Symbols.{symbol};

use crate::digits::hex_value;
use crate::name::LogField;
use field::{FiniteField, SymbolField};
use std::fmt;

// The symbol of a code's text.
pub fn read_symbol<F: LogField>(part: &[u8]) -> Option<F>
    ensures { result ≡ symbol (alphabet F.Scalar.FiniteField F.SymbolField) F.LogField.FIELD_NAME part.now }
{
    if part.len() != F::FIELD_NAME.digits() {
        return None;
    }
    F::from_code(hex_value(part).ok()?)
}

// The capital hex digit of a value.
fn hex_char(digit: u32) -> char
    requires { digit < 16 }
    ensures { result ≡ glyph digit }
{
    char::from_digit(digit, 16).unwrap().to_ascii_uppercase()
}

// A symbol that prints as its code.
#[derive(Clone, Copy)]
pub struct Code<F>(pub F);

impl<F: LogField> fmt::Display for Code<F> {
    ghost output = { λ c. Some (hex (digits F.LogField.FIELD_NAME) (F.FiniteField.code c.0)) };

    fn fmt<W: fmt::Write>(&self, f: &mut fmt::Formatter<W>) -> fmt::Result {
        let code = self.0.code();
        for place in (0..F::FIELD_NAME.digits()).rev() {
            f.write_char(hex_char((code >> (4 * place)) % 16))?;
        }
        Ok(())
    }
}
