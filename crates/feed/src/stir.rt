// The stir layer: each packet comes out with a multiple of the one given out before it.
ghost use Rattle.std.specs.Prelude.{◌≡◌};
ghost use Rattle.field.specs.Alphabet.{alphabet};
ghost use Rattle.feed.specs.Layers.{stirred, Stirs};
ghost use Rattle.feed.specs.Lists.{stir_list};
ghost use Rattle.feed.specs.Lengths.{stir_short};

use crate::Feed;
use field::SymbolField;
use packet::Packet;

// `last` is the packet given out last.
#[derive(Drop)]
pub struct Stir<F: SymbolField, D> {
    lower: D,
    scalar: F::Scalar,
    last: Option<Packet<F>>,
}

impl<F: SymbolField, D: Feed<Item = Packet<F>>> Stir<F, D> {
    pub fn new(lower: D, scalar: F::Scalar) -> Stir<F, D>
        ensures list { stir_list (alphabet F.Scalar.FiniteField F.SymbolField) D.list result ≡ stirred (alphabet F.Scalar.FiniteField F.SymbolField) scalar (D.list lower) }
        ensures stirs { Stirs (alphabet F.Scalar.FiniteField F.SymbolField) scalar (D.list lower) (stir_list (alphabet F.Scalar.FiniteField F.SymbolField) D.list result) }
        ensures lower { result.lower ≡ lower }
    {
        Stir {
            lower,
            scalar,
            last: None,
        }
    }
}

impl<F: SymbolField, D: Feed<Item = Packet<F>>> Feed for Stir<F, D> {
    type Item = Packet<F>;

    ghost list = { stir_list (alphabet F.Scalar.FiniteField F.SymbolField) D.Feed.list };

    ghost short = { λ s. stir_short (alphabet F.Scalar.FiniteField F.SymbolField) s.scalar s.last (D.Feed.list s.lower) (D.Feed.short s.lower) };

    ghost lenders = { λ s. D.Feed.lenders s.lower };

    fn len(&self) -> usize {
        self.lower.len()
    }

    fn next(&mut self) -> Option<Packet<F>> {
        let packet = self.lower.next()?;
        let given = self
            .last
            .map_or(packet, |last| packet.plus(last.scaled(self.scalar)));
        self.last = Some(given);
        Some(given)
    }
}
