// The calls of a session that add packets.
ghost use Rattle.field.specs.Alphabet.{alphabet};
ghost use Rattle.collector.specs.Session.{Judged, Took};

use super::Session;
use super::checks::LIST_LIMIT;
use crate::adding::add_row;
use crate::window::header_limit;
use answer::refusal::Refusal;
use answer::{Taken, Tally};
use field::{FiniteField, SymbolField};
use packet::Packet;

impl Session {
    // The packet of two codes, with the tally of its number, past all that refuses a take.
    fn judge<F: SymbolField>(
        &self,
        rows: &[Packet<F>],
        number: u8,
        x: u32,
        y: u32,
    ) -> Result<(Tally, Packet<F>), Refusal>
        ensures { Judged (alphabet F.Scalar.FiniteField F.SymbolField) self.now rows.now number x y result }
    {
        let tally = self.reach(rows, number)?;
        let header = F::from_code(x).ok_or(Refusal::Header)?;
        if header_limit::<F>(&self.parameters()) <= x {
            return Err(Refusal::Header);
        }
        let payload = F::from_code(y).ok_or(Refusal::Payload)?;
        if LIST_LIMIT <= tally.taken {
            return Err(Refusal::ListFull);
        }
        let packet = Packet {
            x: header,
            y: payload,
        };
        Ok((tally, packet))
    }

    // Adds the packet of two codes to a number.
    pub fn take<F: SymbolField>(
        &mut self,
        rows: &mut [Packet<F>],
        number: u8,
        x: u32,
        y: u32,
    ) -> Result<Taken, Refusal>
        ensures { Took (alphabet F.Scalar.FiniteField F.SymbolField) self.old rows.old number x y result self.new rows.new }
    {
        let (tally, packet) = self.judge(rows, number, x, y)?;
        let place = self.place::<F>(number);
        let added = add_row(&mut rows[place], tally.dimension, packet);
        self.numbers[number as usize] = Some(Tally {
            taken: tally.taken + 1,
            dimension: added.dimension,
        });
        Ok(added)
    }
}
