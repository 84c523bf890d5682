// The calls of a session that add no packet: start, open, tally, close.
ghost use Rattle.std.specs.Prelude.{◌≡◌, Ok};
ghost use Rattle.field.specs.Alphabet.{alphabet};
ghost use Rattle.collector.specs.declared.session.Session.{Session as SessionOf};
ghost use Rattle.collector.specs.Session.{Started, Opened, Tallied, Closed};
ghost use Rattle.collector.specs.Runs.{Faithful};
ghost use Rattle.collector.specs.Laws.{Orderless, Exact};

use super::Session;
use super::checks::{clear, sized};
use answer::Tally;
use answer::refusal::Refusal;
use field::SymbolField;
use packet::Packet;

impl Session {
    // A fresh session: every number shut, and the rows of all eight numbers zero. Whatever list of calls is made on it, its answers
    // are those of the plain machine, and each open number's rows hold the reduced form of what was kept, in whatever order it came.
    pub fn start<F: SymbolField>(
        k: usize,
        l: usize,
        rows: &mut [Packet<F>],
    ) -> Result<Session, Refusal>
        ensures started { Started (alphabet F.Scalar.FiniteField F.SymbolField) k l rows.old result rows.new }
        ensures faithful { (s : SessionOf) → result ≡ Ok s → Faithful (alphabet F.Scalar.FiniteField F.SymbolField) (record { session = s; rows = rows.new }) }
        ensures orderless { (s : SessionOf) → result ≡ Ok s → Orderless (alphabet F.Scalar.FiniteField F.SymbolField) (record { session = s; rows = rows.new }) }
        ensures exact { (s : SessionOf) → result ≡ Ok s → Exact (alphabet F.Scalar.FiniteField F.SymbolField) s.k s.l }
    {
        let count = sized(k, l, rows)?;
        clear(&mut rows[0..count]);
        Ok(Session {
            k,
            l,
            numbers: [None; 8],
        })
    }

    // An open number has taken nothing yet.
    pub fn open<F: SymbolField>(&mut self, rows: &[Packet<F>], number: u8) -> Result<(), Refusal>
        ensures { Opened (alphabet F.Scalar.FiniteField F.SymbolField) self.old rows.now number result self.new }
    {
        if self.look(rows, number)?.is_some() {
            return Err(Refusal::AlreadyOpen);
        }
        self.numbers[number as usize] = Some(Tally {
            taken: 0,
            dimension: 0,
        });
        Ok(())
    }

    // How many packets were taken, and the dimension of what they span.
    pub fn tally<F: SymbolField>(&self, rows: &[Packet<F>], number: u8) -> Result<Tally, Refusal>
        ensures { Tallied (alphabet F.Scalar.FiniteField F.SymbolField) self.now rows.now number result }
    {
        self.reach(rows, number)
    }

    // Shuts a number, and zeroes its rows.
    pub fn close<F: SymbolField>(
        &mut self,
        rows: &mut [Packet<F>],
        number: u8,
    ) -> Result<(), Refusal>
        ensures { Closed (alphabet F.Scalar.FiniteField F.SymbolField) self.old rows.old number result self.new rows.new }
    {
        let _ = self.reach(rows, number)?;
        let place = self.place::<F>(number);
        clear(&mut rows[place]);
        self.numbers[number as usize] = None;
        Ok(())
    }
}
