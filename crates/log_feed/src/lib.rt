// The log feed: gives out the packets of one block number in a log.
#![tactic(auto)]

ghost use Rattle.std.specs.Prelude.{◌≡◌, ◌≤◌, length};
ghost use Rattle.portal_log.specs.Entries.{log_limit};
ghost use Rattle.std.specs.Result.{result_map_both};
ghost use Rattle.field.specs.Alphabet.{alphabet};
ghost use Rattle.answer.specs.Refusals.{answered};
ghost use Rattle.portal_log.specs.Views.{shown};
ghost use Rattle.log_feed.specs.Numbered.{names, feed_refusal, with_number, log_packets, Feeding, fed};
ghost use Rattle.log_feed.specs.Lengths.{fed_short};

use answer::refusal::Refusal;
use feed::Feed;
use field::{FiniteField, SymbolField};
use packet::Packet;
use portal_log::LIMIT;
use portal_log::head::Head;
use portal_log::line::{Line, read_packet};
use portal_log::name::LogField;
use portal_log::reader::{Reader, open};
use std::marker::Model;

#[cfg(test)]
mod tests;

// Whether a first line was read, and names the field F.
fn names<F: LogField>(head: Option<Head>) -> bool
    ensures { result ≡ names F.LogField.FIELD_NAME head }
{
    head.is_some_and(|head| head.name == F::FIELD_NAME)
}

// The packet of a packet line with this number.
fn with_number<F: LogField>(number: u8, line: Line<'_>) -> Option<Packet<F>>
    ensures { result ≡ with_number (alphabet F.Scalar.FiniteField F.SymbolField) F.LogField.FIELD_NAME number (shown line.entry) }
{
    let Line::Packet {
        number: part,
        header,
        payload,
    } = line
    else {
        return None;
    };
    let (n, packet) = read_packet(part.text, header.text, payload.text)?;
    (n == number).then_some(packet)
}

// The lines that are left, read for the packets of one number.
#[derive(Drop)]
pub struct LogFeed<'a, F> {
    reader: Reader<'a, F>,
    number: u8,
}

// The log is within its limit.
impl<'a, F> Model for LogFeed<'a, F> {
    ghost Value = { Feeding F };

    ghost view = { λ s. record { reader = s.reader; number = s.number } };

    ghost invariant = { λ s. length s.reader.lines.text.now ≤ log_limit };
}

impl<'a, F: LogField> LogFeed<'a, F> {
    // The packets of a number in a log in the field F; refusals come in the order of their numbers.
    pub fn new(log: &'a [u8], number: u8) -> Result<LogFeed<'a, F>, Refusal>
        ensures { result_map_both (λ s. fed (alphabet F.Scalar.FiniteField F.SymbolField) F.LogField.FIELD_NAME s.number s.reader) (λ e. e) result ≡ answered (feed_refusal F.LogField.FIELD_NAME number log.now) (log_packets (alphabet F.Scalar.FiniteField F.SymbolField) F.LogField.FIELD_NAME number log.now) }
    {
        if number > 7 {
            return Err(Refusal::BlockNumber);
        }
        if log.len() > LIMIT {
            return Err(Refusal::LogLong);
        }
        let (head, lines) = open(log);
        if !names::<F>(head) {
            return Err(Refusal::LineShape);
        }
        let reader = Reader::of(lines);
        Ok(LogFeed { reader, number })
    }
}

impl<'a, F: LogField> Feed for LogFeed<'a, F> {
    type Item = Packet<F>;

    ghost list = { λ s. fed (alphabet F.Scalar.FiniteField F.SymbolField) F.LogField.FIELD_NAME s.number s.reader };

    ghost short = { λ s. fed_short (alphabet F.Scalar.FiniteField F.SymbolField) F.LogField.FIELD_NAME s.number s.reader };

    fn len(&self) -> usize {
        self.reader
            .filter_map(|line| with_number::<F>(self.number, line))
            .count()
    }

    fn next(&mut self) -> Option<Packet<F>> {
        self.reader.find_map(|line| with_number(self.number, line))
    }
}
