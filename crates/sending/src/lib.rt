// What a sender gives out: the log lines of a block sheet's packets.
#![tactic(auto)]

ghost use Rattle.std.specs.Prelude.{◌≡◌, IfOk, string_bytes};
ghost use Rattle.field.specs.Alphabet.{alphabet};
ghost use Rattle.portal_log.specs.Views.{left_lines};
ghost use Rattle.sending.specs.Blocks.{sent_in, sent_by, sent};

mod block;
mod fault;
mod sender;
pub mod writing;

use crate::sender::Sender;
use crate::writing::{head_line, refusal_line};
use answer::refusal::Refusal;
use field::nibble::Nibble;
use field::octet::Octet;
use field::word::Word;
use field::{FiniteField, SymbolField};
use portal_log::head::Head;
use portal_log::name::{FieldName, LogField};
use portal_log::reader::open;
use portal_log::text::Lines;
use std::alloc::{AllocError, Global};

// What is printed for a sheet in the field F.
fn send_in<F: LogField>(heap: Global, head: Head, lines: Lines<'_>) -> Result<String, AllocError>
    ensures { IfOk result (λ t. string_bytes t ≡ sent_in (alphabet F.Scalar.FiniteField F.SymbolField) F.LogField.FIELD_NAME head (left_lines lines.entry)) }
{
    let Some(sender) = Sender::<F>::of(head) else {
        return refusal_line(heap, Refusal::Parameters, 1);
    };
    let text = head_line(heap, head)?;
    sender.send_blocks(heap, lines, text)
}

// What is printed for a sheet whose first line gives the head.
fn send_by(heap: Global, head: Option<Head>, lines: Lines<'_>) -> Result<String, AllocError>
    ensures { IfOk result (λ t. string_bytes t ≡ sent_by head (left_lines lines.entry)) }
{
    let Some(head) = head else {
        return refusal_line(heap, Refusal::LineShape, 1);
    };
    match head.name {
        FieldName::Octet => send_in::<Octet>(heap, head, lines),
        FieldName::Word => send_in::<Word>(heap, head, lines),
        FieldName::Nibble => send_in::<Nibble>(heap, head, lines),
    }
}

// The log lines that a sender gives out for a block sheet, or the sheet's first refusal.
pub fn send(heap: Global, sheet: &[u8]) -> Result<String, AllocError>
    ensures { IfOk result (λ t. string_bytes t ≡ sent sheet.now) }
{
    let (head, lines) = open(sheet);
    send_by(heap, head, lines)
}
