// The call of a session that adds a feed's packets.
ghost use Rattle.std.specs.Prelude.{◌≡◌, ◌+◌, ◌≤◌, [], length, take, Err};
ghost use Rattle.linear.specs.Span.{Span, Spans, Sum};
ghost use Rattle.field.specs.Alphabet.{alphabet};
ghost use Rattle.packet.specs.Packets.{packet_rows};
ghost use Rattle.answer.specs.declared.refusal.Refusal.{Refusal as RefusalOf};
ghost use Rattle.collector.specs.Windows.{PacketWindow};
ghost use Rattle.collector.specs.Answers.{kept, DrainAnswer};
ghost use Rattle.collector.specs.Session.{Admitted, Drains};

use super::Session;
use super::checks::LIST_LIMIT;
use crate::adding::add_row;
use crate::window::header_limit;
use answer::refusal::Refusal;
use answer::{Drained, Tally};
use feed::Feed;
use field::{FiniteField, SymbolField};
use packet::Packet;
use subspace_code::parameters::Parameters;

// Adds the packets of a feed to a window, passing over those with a header from q^ℓ on. Answers the dimension, and how many of each.
fn fill<F: SymbolField, D: Feed<Item = Packet<F>>>(
    parameters: &Parameters<F>,
    window: &mut [Packet<F>],
    dimension: usize,
    feed: &mut D,
) -> (usize, Drained)
    requires window { PacketWindow (alphabet F.Scalar.FiniteField F.SymbolField) parameters.now.l dimension window.old }
    requires wide { parameters.now.l + F.SymbolField.DEGREE ≤ length window.old }
    ensures window { PacketWindow (alphabet F.Scalar.FiniteField F.SymbolField) parameters.now.l result.0 window.new }
    ensures spans { Spans (packet_rows (alphabet F.Scalar.FiniteField F.SymbolField)) (take result.0 window.new) (Sum (packet_rows (alphabet F.Scalar.FiniteField F.SymbolField)) (Span (packet_rows (alphabet F.Scalar.FiniteField F.SymbolField)) (take dimension window.old)) (Span (packet_rows (alphabet F.Scalar.FiniteField F.SymbolField)) (kept (alphabet F.Scalar.FiniteField F.SymbolField) parameters.now.l (D.list feed.old)))) }
    ensures gives { DrainAnswer (alphabet F.Scalar.FiniteField F.SymbolField) parameters.now.l (D.list feed.old) result.1 }
    ensures empty { D.list feed.new ≡ [] }
    ensures same { D.lenders feed.new ≡ D.lenders feed.old }
{
    let limit = header_limit(parameters);
    let mut risen = dimension;
    let mut drained = Drained { kept: 0, passed: 0 };
    while let Some(packet) = feed.next() {
        if limit <= packet.x.code() {
            drained.passed += 1;
        } else {
            risen = add_row(window, risen, packet).dimension;
            drained.kept += 1;
        }
    }
    (risen, drained)
}

impl Session {
    // The tally of an open number, past all that refuses `more` packets.
    fn admit<F: SymbolField>(
        &self,
        rows: &[Packet<F>],
        number: u8,
        more: usize,
    ) -> Result<Tally, Refusal>
        ensures { Admitted (alphabet F.Scalar.FiniteField F.SymbolField) self.now rows.now number more result }
    {
        let tally = self.reach(rows, number)?;
        if LIST_LIMIT < tally.taken.saturating_add(more) {
            return Err(Refusal::ListFull);
        }
        Ok(tally)
    }

    // Adds a feed's packets to a number, passing over those with a header from q^ℓ on. The feed is emptied.
    pub fn drain<F: SymbolField, D: Feed<Item = Packet<F>>>(
        &mut self,
        rows: &mut [Packet<F>],
        number: u8,
        feed: &mut D,
    ) -> Result<Drained, Refusal>
        ensures drains { Drains (alphabet F.Scalar.FiniteField F.SymbolField) self.old rows.old number (D.list feed.old) result (D.list feed.new) self.new rows.new }
        ensures refused { (e : RefusalOf) → result ≡ Err e → feed.new ≡ feed.old }
        ensures same { D.lenders feed.new ≡ D.lenders feed.old }
    {
        let tally = self.admit(rows, number, D::len(feed))?;
        let place = self.place::<F>(number);
        let parameters = self.parameters();
        let (dimension, drained) = fill(&parameters, &mut rows[place], tally.dimension, feed);
        self.numbers[number as usize] = Some(Tally {
            taken: tally.taken + drained.kept,
            dimension,
        });
        Ok(drained)
    }
}
