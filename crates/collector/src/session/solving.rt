// The call of a session that decodes.
ghost use Rattle.field.specs.Alphabet.{alphabet};
ghost use Rattle.collector.specs.Session.{Solves};

use super::Session;
use crate::decoding::decode;
use answer::Solved;
use answer::refusal::Refusal;
use field::{FiniteField, SymbolField};
use packet::Packet;

impl Session {
    // Writes the message whose codeword space is within ℓ − k of what a number has taken, to the first k places of the output.
    pub fn solve<F: SymbolField>(
        &self,
        rows: &[Packet<F>],
        number: u8,
        output: &mut [F],
    ) -> Result<Solved, Refusal>
        ensures { Solves (alphabet F.Scalar.FiniteField F.SymbolField) self.now rows.now number output.old result output.new }
    {
        let dimension = self.reach(rows, number)?.dimension;
        if output.len() < self.k {
            return Err(Refusal::OutputShort);
        }
        if dimension < self.k {
            return Err(Refusal::DimensionLow(dimension));
        }
        if 2 * self.l < dimension + self.k {
            return Err(Refusal::DimensionHigh(dimension));
        }
        let parameters = self.parameters();
        let place = self.place::<F>(number);
        let window = &rows[place];
        decode(&parameters, &window[0..dimension], output).ok_or(Refusal::NoneNear(dimension))
    }
}
