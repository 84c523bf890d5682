// Lines of a log, written.
ghost use Rattle.std.specs.Prelude.{◌≡◌, IfOk, string_bytes};
ghost use Rattle.std.specs.List.{flat_map};
ghost use Rattle.field.specs.Alphabet.{alphabet};
ghost use Rattle.portal_log.specs.Heads.{head_line};
ghost use Rattle.sending.specs.Blocks.{refusal_line, packet_line};

use answer::refusal::Refusal;
use field::{FiniteField, SymbolField};
use packet::Packet;
use portal_log::code::Code;
use portal_log::head::Head;
use portal_log::name::LogField;
use std::alloc::{AllocError, Global};

// A refusal as the whole output, with the number of its line.
pub(crate) fn refusal_line(
    heap: Global,
    refusal: Refusal,
    line: usize,
) -> Result<String, AllocError>
    ensures { IfOk result (λ t. string_bytes t ≡ refusal_line refusal line) }
{
    format!(in heap; "X,{},{line}\n", refusal.number())
}

// The first line of a log.
pub fn head_line(heap: Global, head: Head) -> Result<String, AllocError>
    ensures { IfOk result (λ t. string_bytes t ≡ head_line head) }
{
    format!(in heap; "{head}\n")
}

// The lines of a block's packets.
pub fn packet_lines<F: LogField>(
    heap: Global,
    number: u8,
    packets: &[Packet<F>],
) -> Result<String, AllocError>
    ensures { IfOk result (λ t. string_bytes t ≡ flat_map (packet_line (alphabet F.Scalar.FiniteField F.SymbolField) F.LogField.FIELD_NAME number) packets.now) }
{
    let mut text = String::new(heap);
    for packet in packets {
        let x = Code(packet.x);
        let y = Code(packet.y);
        writeln!(text, "P,{number},{x},{y}")?;
    }
    Ok(text)
}
