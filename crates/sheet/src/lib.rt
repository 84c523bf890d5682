// The hand-over sheet of a log: which blocks came through, and what was lost on the way.
#![tactic(auto)]

ghost use Rattle.std.specs.Prelude.{◌≡◌, ◌≤◌, length, IfOk, Some, string_bytes};
ghost use Rattle.field.specs.Alphabet.{alphabet};
ghost use Rattle.subspace_code.specs.Encoding.{fits};
ghost use Rattle.portal_log.specs.Text.{lines};
ghost use Rattle.portal_log.specs.Heads.{first_head};
ghost use Rattle.portal_log.specs.Entries.{log_limit};
ghost use Rattle.sheet.specs.Sheets.{SheetFits, IsSheet};

mod counting;
mod log;
mod numbers;
mod writing;

use crate::counting::{Counts, count_lines};
use crate::log::Log;
use crate::numbers::{Numbers, numbers_text};
use crate::writing::refused_text;
use answer::refusal::Refusal;
use field::nibble::Nibble;
use field::octet::Octet;
use field::word::Word;
use field::{FiniteField, SymbolField};
use portal_log::LIMIT;
use portal_log::head::Head;
use portal_log::name::{FieldName, LogField};
use portal_log::reader::open;
use std::alloc::{AllocError, Global};
use subspace_code::parameters::Parameters;

// The sheet of a log in the field F, with its first line's head.
fn sheet_in<F: LogField>(heap: Global, head: Head, log: &[u8]) -> Result<String, AllocError>
    requires short { length log.now ≤ log_limit }
    requires first { first_head (lines log.now) ≡ Some head }
    requires field { head.name ≡ F.LogField.FIELD_NAME }
    ensures { IfOk result (λ t. SheetFits (alphabet F.Scalar.FiniteField F.SymbolField) F.LogField.FIELD_NAME (fits head.k head.l F.SymbolField.DEGREE) head log.now (string_bytes t)) }
{
    let Some(parameters) = Parameters::<F>::new(head.k, head.l) else {
        return refused_text(heap, Refusal::Parameters);
    };
    let log = Log {
        bytes: log,
        parameters,
    };
    let Numbers {
        mut text,
        taken,
        passed,
    } = numbers_text(heap, &log)?;
    let Counts { erased, unreadable } = count_lines(&log);
    writeln!(text, "T,{taken},{passed},{erased},{unreadable}")?;
    Ok(text)
}

// The hand-over sheet of a log: a line for each number with packets taken, and one with totals; or only a refusal.
pub fn sheet(heap: Global, log: &[u8]) -> Result<String, AllocError>
    ensures { IfOk result (λ t. IsSheet log.now (string_bytes t)) }
{
    if log.len() > LIMIT {
        return refused_text(heap, Refusal::LogLong);
    }
    let (Some(head), _) = open(log) else {
        return refused_text(heap, Refusal::LineShape);
    };
    match head.name {
        FieldName::Octet => sheet_in::<Octet>(heap, head, log),
        FieldName::Word => sheet_in::<Word>(heap, head, log),
        FieldName::Nibble => sheet_in::<Nibble>(heap, head, log),
    }
}
