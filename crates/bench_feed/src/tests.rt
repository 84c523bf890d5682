// A ladder of octets, below layers.
ghost use Rattle.std.specs.Prelude.{◌≡◌, [], OnOk};

use crate::ladder::Ladder;
use crate::{take_all, take_pile};
use feed::Feed;
use feed::stir::Stir;
use field::bit::Bit;
use field::octet::Octet;
use field::{FiniteField, SymbolField};
use packet::Packet;
use std::alloc::{AllocError, Global};
use std::test::Fail;

fn packet<F: FiniteField>(x: u32, y: u32) -> Result<Packet<F>, Fail> {
    Ok(Packet::from_codes(x, y).ok_or("no packet has these codes")?)
}

// Whoever lends a feed to a layer knows that it is empty once the layer is.
fn stir_out<D: Feed<Item = Packet<Octet>>>(
    heap: Global,
    feed: &mut D,
) -> Result<Vec<Packet<Octet>>, AllocError>
    ensures { OnOk result (D.list feed.new ≡ []) }
{
    let mut stir = Stir::new(feed, Bit::one());
    take_all(heap, &mut stir)
}

#[test]
fn lends_a_ladder(rt: HostRuntime) -> Result<(), Fail> {
    let mut ladder: Ladder<Octet> = Ladder::new(3, packet(1, 2)?, packet(4, 4)?);
    let taken = stir_out(rt.alloc(), &mut ladder)?;
    assert_eq!(rt; taken.len(), 3);
    assert_eq!(rt; ladder.len(), 0);
    Ok(())
}

#[test]
fn takes_a_pile(rt: HostRuntime) -> Result<(), Fail> {
    let mut ladder: Ladder<Octet> = Ladder::new(2, packet(1, 2)?, packet(4, 4)?);
    let held = [packet(9, 9)?];
    let taken = take_pile(rt.alloc(), &mut ladder, &held, 0, Bit::one())?;
    assert!(rt; taken.len() == 2);
    assert_eq!(rt; (taken[0].x.code(), taken[0].y.code()), (5, 6));
    assert_eq!(rt; (taken[1].x.code(), taken[1].y.code()), (12, 15));
    Ok(())
}
