// The ladder, a feed of its own: so many packets, each one step on from the one before.
ghost use Rattle.std.specs.Prelude.{◌≡◌, ◌≤◌, min};
ghost use Rattle.field.specs.Alphabet.{alphabet};
ghost use Rattle.feed.specs.Feeds.{feed_limit};
ghost use Rattle.bench_feed.specs.Ladders.{ladder, ladder_short};

use feed::{Feed, LIMIT};
use field::SymbolField;
use packet::Packet;

// `rung` is the packet to come next.
#[derive(Drop)]
pub struct Ladder<F> {
    left: usize,
    rung: Packet<F>,
    step: Packet<F>,
    ghost ok: { left ≤ feed_limit },
}

impl<F: SymbolField> Ladder<F> {
    // As many packets as asked for, up to the limit of a feed.
    pub fn new(many: usize, first: Packet<F>, step: Packet<F>) -> Ladder<F>
        ensures { ladder (alphabet F.Scalar.FiniteField F.SymbolField) result.left result.rung result.step ≡ ladder (alphabet F.Scalar.FiniteField F.SymbolField) (min many feed_limit) first step }
    {
        Ladder {
            left: many.min(LIMIT),
            rung: first,
            step,
        }
    }
}

impl<F: SymbolField> Feed for Ladder<F> {
    type Item = Packet<F>;

    ghost list = { λ s. ladder (alphabet F.Scalar.FiniteField F.SymbolField) s.left s.rung s.step };

    ghost short = { λ s. ladder_short (alphabet F.Scalar.FiniteField F.SymbolField) s.left s.rung s.step s.ok };

    fn len(&self) -> usize {
        self.left
    }

    fn next(&mut self) -> Option<Packet<F>> {
        self.left = self.left.checked_sub(1)?;
        let given = self.rung;
        self.rung = given.plus(self.step);
        Some(given)
    }
}
