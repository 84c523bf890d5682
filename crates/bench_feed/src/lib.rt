// What another maker does with feeds: one of its own, and piles of layers that are taken to the end.
#![tactic(auto)]

ghost use Rattle.std.specs.Prelude.{◌≡◌, [], IfOk, OnOk};
ghost use Rattle.field.specs.Alphabet.{alphabet};
ghost use Rattle.feed.specs.Layers.{held, stirred, gapped, joined};

use feed::Feed;
use feed::gap::Gap;
use feed::held::Held;
use feed::join::Join;
use feed::stir::Stir;
use field::SymbolField;
use packet::Packet;
use std::alloc::{AllocError, Global};

pub mod ladder;
#[cfg(test)]
mod tests;

// Every packet of a feed, in order.
pub fn take_all<F: SymbolField, D: Feed<Item = Packet<F>>>(
    heap: Global,
    feed: &mut D,
) -> Result<Vec<Packet<F>>, AllocError>
    ensures took { IfOk result (λ v. v.items ≡ D.list feed.old) }
    ensures empty { OnOk result (D.list feed.new ≡ []) }
    ensures same { D.lenders feed.new ≡ D.lenders feed.old }
{
    let mut taken = Vec::new(heap);
    while let Some(packet) = feed.next() {
        taken.push(packet)?;
    }
    Ok(taken)
}

// Every packet of a pile: a stir over a gap over a join of a feed with held packets.
pub fn take_pile<F: SymbolField, D: Feed<Item = Packet<F>>>(
    heap: Global,
    feed: &mut D,
    packets: &[Packet<F>],
    place: usize,
    scalar: F::Scalar,
) -> Result<Vec<Packet<F>>, AllocError>
    ensures { IfOk result (λ v. v.items ≡ stirred (alphabet F.Scalar.FiniteField F.SymbolField) scalar (gapped place (joined (D.list feed.old) (held packets.now)))) }
{
    let joined = Join::new(feed, Held::new(packets));
    let mut pile = Stir::new(Gap::new(joined, place), scalar);
    take_all(heap, &mut pile)
}
