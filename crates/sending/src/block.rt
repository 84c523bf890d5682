// The lines of a block sheet: a block's number and its message.
ghost use Rattle.std.specs.Prelude.{vec_items};
ghost use Rattle.field.specs.Alphabet.{alphabet};
ghost use Rattle.portal_log.specs.Text.{parts};
ghost use Rattle.sending.specs.Outcomes.{Answers};
ghost use Rattle.sending.specs.Blocks.{message_of, block_of};
ghost use Rattle.portal_log.specs.Views.{left_parts};
ghost use Rattle.sending.specs.Views.{held};

use crate::fault::Fault;
use answer::refusal::Refusal;
use field::{FiniteField, SymbolField};
use portal_log::code::read_symbol;
use portal_log::digits::one_digit;
use portal_log::name::LogField;
use portal_log::text::Parts;
use std::alloc::Global;

#[derive(Drop)]
pub(crate) struct Block<F> {
    pub(crate) number: u8,
    pub(crate) message: Vec<F>,
}

// The symbols of the parts that are left.
fn read_message<F: LogField>(heap: Global, codes: Parts<'_>) -> Result<Vec<F>, Fault>
    ensures { Answers vec_items result (message_of (alphabet F.Scalar.FiniteField F.SymbolField) F.LogField.FIELD_NAME (left_parts codes.entry)) }
{
    let mut message = Vec::new(heap);
    for code in codes {
        let symbol = read_symbol(code).ok_or(Refusal::LineShape)?;
        message.push(symbol)?;
    }
    Ok(message)
}

impl<F: LogField> Block<F> {
    // The block of a line; its number is at most 7.
    pub(crate) fn read(heap: Global, line: &[u8]) -> Result<Block<F>, Fault>
        ensures { Answers held result (block_of (alphabet F.Scalar.FiniteField F.SymbolField) F.LogField.FIELD_NAME (parts line.now)) }
    {
        let mut parts = Parts::of(line);
        let number = parts.next().and_then(one_digit).ok_or(Refusal::LineShape)?;
        let message = read_message(heap, parts)?;
        if number > 7 {
            return Err(Fault::Refused(Refusal::BlockNumber));
        }
        Ok(Block { number, message })
    }
}
