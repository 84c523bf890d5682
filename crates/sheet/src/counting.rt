// Counts of a log's lines.
ghost use Rattle.std.specs.Prelude.{◌≡◌};
ghost use Rattle.field.specs.Alphabet.{alphabet};
ghost use Rattle.portal_log.specs.Entries.{log_entries};
ghost use Rattle.sheet.specs.Sheets.{erased, unreadable};

use crate::log::Log;
use field::{FiniteField, SymbolField};
use portal_log::line::Line;
use portal_log::name::LogField;
use portal_log::reader::{Reader, open};

// How many erased slots a log has, and how many lines that cannot be read.
#[derive(Clone, Copy)]
pub(crate) struct Counts {
    pub(crate) erased: usize,
    pub(crate) unreadable: usize,
}

pub(crate) fn count_lines<F: LogField>(log: &Log<'_, F>) -> Counts
    ensures erased { result.erased ≡ erased (log_entries (alphabet F.Scalar.FiniteField F.SymbolField) F.LogField.FIELD_NAME log.now.bytes.now) }
    ensures unreadable { result.unreadable ≡ unreadable (log_entries (alphabet F.Scalar.FiniteField F.SymbolField) F.LogField.FIELD_NAME log.now.bytes.now) }
{
    let (_, lines) = open(log.bytes);
    let reader: Reader<'_, F> = Reader::of(lines);
    let mut erased = 0;
    let mut unreadable = 0;
    for line in reader {
        match line {
            Line::Packet { .. } => {}
            Line::Erased { .. } => erased += 1,
            Line::Unreadable(_) => unreadable += 1,
        }
    }
    Counts { erased, unreadable }
}
