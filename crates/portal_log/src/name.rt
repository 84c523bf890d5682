// The fields that a log can be in, by their names.
ghost use Rattle.std.specs.Prelude.{◌≡◌, Some};
ghost use Rattle.portal_log.specs.declared.name.FieldName.{FieldName};
ghost use Rattle.portal_log.specs.Names.{spelled, named, digits};

use field::SymbolField;
use field::nibble::Nibble;
use field::octet::Octet;
use field::word::Word;
use std::fmt;

#[derive(Clone, Copy, PartialEq, Eq, Debug)]
pub enum FieldName {
    Octet,
    Word,
    Nibble,
}

impl FieldName {
    // The field of a name.
    pub fn read(text: &[u8]) -> Option<FieldName>
        ensures { result ≡ named text.now }
    {
        match text {
            b"octet" => Some(FieldName::Octet),
            b"word" => Some(FieldName::Word),
            b"nibble" => Some(FieldName::Nibble),
            _ => None,
        }
    }

    // The name as it stands in a log.
    pub fn text(self) -> &'static str
        ensures { result.now ≡ spelled self }
    {
        match self {
            FieldName::Octet => "octet",
            FieldName::Word => "word",
            FieldName::Nibble => "nibble",
        }
    }

    // How many hex digits a code has.
    pub fn digits(self) -> usize
        ensures { result ≡ digits self }
    {
        match self {
            FieldName::Octet => 2,
            FieldName::Word => 4,
            FieldName::Nibble => 7,
        }
    }
}

// Prints the name.
impl fmt::Display for FieldName {
    ghost output = { λ name. Some (spelled name) };

    fn fmt<W: fmt::Write>(&self, f: &mut fmt::Formatter<W>) -> fmt::Result {
        f.write_str(self.text())
    }
}

// A symbol field that logs can be in.
pub trait LogField: SymbolField {
    const FIELD_NAME: FieldName;

    ghost FIELD_NAME: { FieldName };

    // the field's name, by the constant
    fn name() -> FieldName
        ensures { result ≡ FIELD_NAME }
    {
        Self::FIELD_NAME
    }
}

impl LogField for Octet {
    const FIELD_NAME: FieldName = FieldName::Octet;

    ghost FIELD_NAME = { FieldName.Octet };
}

impl LogField for Word {
    const FIELD_NAME: FieldName = FieldName::Word;

    ghost FIELD_NAME = { FieldName.Word };
}

impl LogField for Nibble {
    const FIELD_NAME: FieldName = FieldName::Nibble;

    ghost FIELD_NAME = { FieldName.Nibble };
}
