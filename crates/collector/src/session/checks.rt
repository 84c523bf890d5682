// What calls of a session share: the refusals, each tested in its order, and the zeroing of rows.
ghost use Rattle.std.specs.Prelude.{◌≡◌, ◌+◌, ◌<◌, ◌≤◌, length};
ghost use Rattle.field.specs.Alphabet.{alphabet};
ghost use Rattle.collector.specs.Regions.{zero_rows, Place};
ghost use Rattle.collector.specs.Session.{Allowed, Sized, Looked, Reached};

use super::Session;
use crate::window::is_window;
use answer::Tally;
use answer::refusal::Refusal;
use field::SymbolField;
use packet::Packet;
use std::ops::Range;
use subspace_code::parameters::Parameters;

// No number's list grows longer: `list_limit` in the specs.
pub(crate) const LIST_LIMIT: usize = 10_000;

// How many rows the eight numbers have, past what refuses k, ℓ and the rows.
pub(crate) fn sized<F: SymbolField>(
    k: usize,
    l: usize,
    rows: &[Packet<F>],
) -> Result<usize, Refusal>
    ensures { Sized (alphabet F.Scalar.FiniteField F.SymbolField) k l rows.now result }
{
    let parameters = Parameters::<F>::new(k, l).ok_or(Refusal::Parameters)?;
    let count = 8 * (parameters.l + F::DEGREE);
    if rows.len() < count {
        return Err(Refusal::Rows);
    }
    Ok(count)
}

// Zeroes the rows.
pub(crate) fn clear<F: SymbolField>(rows: &mut [Packet<F>])
    ensures { rows.new ≡ zero_rows (alphabet F.Scalar.FiniteField F.SymbolField) (length rows.old) }
{
    let zero = Packet::zero();
    for row in rows.iter_mut() {
        *row = zero;
    }
}

impl Session {
    // Its k and ℓ, as those of a code over F.
    pub(crate) fn parameters<F: SymbolField>(&self) -> Parameters<F>
        requires { Allowed self.now.k self.now.l F.SymbolField.DEGREE }
        ensures { (result.k ≡ self.now.k) × (result.l ≡ self.now.l) }
    {
        Parameters::new(self.k, self.l).unwrap()
    }

    // Where a number's rows stand.
    pub(crate) fn place<F: SymbolField>(&self, number: u8) -> Range<usize>
        requires { (number < 8) × (self.now.l ≤ F.SymbolField.DEGREE) }
        ensures { Place (self.now.l + F.SymbolField.DEGREE) number result }
    {
        let width = self.l + F::DEGREE;
        let from = number as usize * width;
        from..from + width
    }

    // The record of a number, past the refusals that every call shares.
    pub(crate) fn look<F: SymbolField>(
        &self,
        rows: &[Packet<F>],
        number: u8,
    ) -> Result<Option<Tally>, Refusal>
        ensures { Looked (alphabet F.Scalar.FiniteField F.SymbolField) self.now rows.now number result }
    {
        sized(self.k, self.l, rows)?;
        let record = *self
            .numbers
            .get(number as usize)
            .ok_or(Refusal::BlockNumber)?;
        let dimension = record.map_or(0, |tally| tally.dimension);
        let place = self.place::<F>(number);
        if !is_window(&self.parameters(), &rows[place], dimension) {
            return Err(Refusal::Rows);
        }
        Ok(record)
    }

    // The tally of an open number.
    pub(crate) fn reach<F: SymbolField>(
        &self,
        rows: &[Packet<F>],
        number: u8,
    ) -> Result<Tally, Refusal>
        ensures { Reached (alphabet F.Scalar.FiniteField F.SymbolField) self.now rows.now number result }
    {
        self.look(rows, number)?.ok_or(Refusal::NotOpen)
    }
}
