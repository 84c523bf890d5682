// A sender of blocks in one field.
ghost use Rattle.std.specs.Prelude.{◌≡◌, false, IfOk, MatchOption, string_bytes};
ghost use Rattle.field.specs.Alphabet.{alphabet};
ghost use Rattle.subspace_code.specs.Encoding.{fits};
ghost use Rattle.portal_log.specs.Text.{parts};
ghost use Rattle.portal_log.specs.Views.{left_lines};
ghost use Rattle.sending.specs.Outcomes.{and_then, Answers};
ghost use Rattle.sending.specs.Views.{held};
ghost use Rattle.sending.specs.Blocks.{printed, block_of, block_text, blocks_text};

use crate::block::Block;
use crate::fault::Fault;
use crate::writing::{packet_lines, refusal_line};
use field::{FiniteField, SymbolField};
use packet::Packet;
use portal_log::head::Head;
use portal_log::name::LogField;
use portal_log::text::Lines;
use std::alloc::{AllocError, Global};
use subspace_code::encoding::encode;
use subspace_code::parameters::Parameters;

// A sender's blocks are all encoded with the same parameters.
#[derive(Drop)]
pub(crate) struct Sender<F: SymbolField> {
    parameters: Parameters<F>,
}

impl<F: LogField> Sender<F> {
    // Absent where the parameters of the first line do not fit the field.
    pub(crate) fn of(head: Head) -> Option<Sender<F>>
        ensures { MatchOption result (fits head.k head.l F.SymbolField.DEGREE ≡ false) (λ s. (s.parameters.k ≡ head.k) × (s.parameters.l ≡ head.l)) }
    {
        let parameters = Parameters::new(head.k, head.l)?;
        Some(Sender { parameters })
    }

    // The lines of a block's packets.
    fn block_lines(&self, heap: Global, block: &Block<F>) -> Result<String, Fault>
        ensures { Answers string_bytes result (block_text (alphabet F.Scalar.FiniteField F.SymbolField) F.LogField.FIELD_NAME self.now.parameters.k self.now.parameters.l (held block.now)) }
    {
        let Parameters { k, l, .. } = self.parameters;
        let mut packets = vec![in heap; Packet::zero(); l]?;
        encode(k, l, &block.message, &mut packets)?;
        Ok(packet_lines(heap, block.number, &packets)?)
    }

    // The lines that come of a block line.
    fn line_text(&self, heap: Global, line: &[u8]) -> Result<String, Fault>
        ensures { Answers string_bytes result (and_then (block_of (alphabet F.Scalar.FiniteField F.SymbolField) F.LogField.FIELD_NAME (parts line.now)) (block_text (alphabet F.Scalar.FiniteField F.SymbolField) F.LogField.FIELD_NAME self.now.parameters.k self.now.parameters.l)) }
    {
        let block = Block::read(heap, line)?;
        self.block_lines(heap, &block)
    }

    // The text and the lines of all blocks after it; a refusal takes their place.
    pub(crate) fn send_blocks(
        &self,
        heap: Global,
        lines: Lines<'_>,
        mut text: String,
    ) -> Result<String, AllocError>
        ensures { IfOk result (λ t. string_bytes t ≡ printed (string_bytes text) (blocks_text (alphabet F.Scalar.FiniteField F.SymbolField) F.LogField.FIELD_NAME self.now.parameters.k self.now.parameters.l 2 (left_lines lines.entry))) }
    {
        for (i, line) in lines.enumerate() {
            match self.line_text(heap, line.text) {
                Ok(more) => text.push_str(&more)?,
                Err(Fault::Refused(refusal)) => return refusal_line(heap, refusal, i + 2),
                Err(Fault::Memory) => return Err(AllocError),
            }
        }
        Ok(text)
    }
}
