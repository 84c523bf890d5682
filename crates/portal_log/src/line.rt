// A line of a log after the first, and the packet of a packet line.
ghost use Rattle.std.specs.Prelude.{◌≡◌, ◌+◌, ◌^◌, ◌<◌, length};
ghost use Rattle.field.specs.Alphabet.{alphabet};
ghost use Rattle.portal_log.specs.Entries.{block_number, packet_at, packet_of, entry};
ghost use Rattle.portal_log.specs.Views.{part_of, shown};

use crate::code::read_symbol;
use crate::digits::one_digit;
use crate::name::LogField;
use crate::text::{Part, four_parts};
use field::{FiniteField, SymbolField};
use packet::Packet;

#[derive(Clone, Copy)]
pub enum Line<'a> {
    // a packet line that can be read
    Packet {
        number: Part<'a>,
        header: Part<'a>,
        payload: Part<'a>,
    },
    // an erased slot
    Erased {
        place: usize,
    },
    // any other line
    Unreadable(Part<'a>),
}

// A block number: one digit, 0 to 7.
fn block_number(text: &[u8]) -> Option<u8>
    ensures { result ≡ block_number text.now }
{
    one_digit(text).filter(|n| *n <= 7)
}

// The number and the packet of a packet line's parts.
pub fn read_packet<F: LogField>(
    number: &[u8],
    header: &[u8],
    payload: &[u8],
) -> Option<(u8, Packet<F>)>
    ensures { result ≡ packet_of (alphabet F.Scalar.FiniteField F.SymbolField) F.LogField.FIELD_NAME number.now header.now payload.now }
{
    let number = block_number(number)?;
    let x = read_symbol(header)?;
    let y = read_symbol(payload)?;
    Some((number, Packet { x, y }))
}

// The packet line at a place, with these texts after its `P`.
fn packet_at<'a>(place: usize, number: &'a [u8], header: &'a [u8], payload: &'a [u8]) -> Line<'a>
    requires { place + 4 + length number.now + length header.now < 2 ^ 64 }
    ensures { shown result ≡ packet_at (record { place = place + 2; text = number.now }) (record { place = place + 3 + length number.now; text = header.now }) (record { place = place + 4 + length number.now + length header.now; text = payload.now }) }
{
    let number = Part {
        text: number,
        place: place + 2,
    };
    let header = Part {
        text: header,
        place: number.place + number.text.len() + 1,
    };
    let payload = Part {
        text: payload,
        place: header.place + header.text.len() + 1,
    };
    Line::Packet {
        number,
        header,
        payload,
    }
}

// What a line after the first is.
pub(crate) fn read_line<F: LogField>(line: Part<'_>) -> Line<'_>
    requires { line.place + length line.text.now < 2 ^ 64 }
    ensures { shown result ≡ entry (alphabet F.Scalar.FiniteField F.SymbolField) F.LogField.FIELD_NAME (part_of line.entry) }
{
    if line.text == b"E,,,".as_slice() {
        return Line::Erased { place: line.place };
    }
    match four_parts(line.text) {
        Some((b"P", number, header, payload))
            if read_packet::<F>(number, header, payload).is_some() => {
            packet_at(line.place, number, header, payload)
        },
        _ => Line::Unreadable(line),
    }
}
