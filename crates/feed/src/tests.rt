// Layers over octets, packet by packet.
use crate::Feed;
use crate::gap::Gap;
use crate::held::Held;
use crate::join::Join;
use crate::stir::Stir;
use field::bit::Bit;
use field::octet::Octet;
use field::{FiniteField, SymbolField};
use packet::Packet;
use std::process::Abort;
use std::test::Fail;

fn packet<F: FiniteField>(x: u32, y: u32) -> Result<Packet<F>, Fail> {
    Ok(Packet::from_codes(x, y).ok_or("no packet has these codes")?)
}

fn three() -> Result<[Packet<Octet>; 3], Fail> {
    Ok([packet(1, 2)?, packet(2, 4)?, packet(4, 8)?])
}

// The feed gives the packets with these codes, and ends; `len` counts them down.
fn gives<F: SymbolField, D: Feed<Item = Packet<F>>>(
    rt: &impl Abort,
    feed: &mut D,
    codes: &[(u32, u32)],
) -> Result<(), Fail> {
    for (i, code) in codes.iter().enumerate() {
        assert_eq!(rt; feed.len(), codes.len() - i);
        let next = feed.next().ok_or("no packet")?;
        assert_eq!(rt; (next.x.code(), next.y.code()), *code);
    }
    assert_eq!(rt; feed.len(), 0);
    assert!(rt; feed.next().is_none());
    Ok(())
}

#[test]
fn stirs(rt: HostRuntime) -> Result<(), Fail> {
    let packets = three()?;
    let mut stir = Stir::new(Held::new(&packets), Bit::one());
    gives(&rt, &mut stir, &[(1, 2), (3, 6), (7, 14)])
}

#[test]
fn leaves_a_gap(rt: HostRuntime) -> Result<(), Fail> {
    let packets = three()?;
    gives(
        &rt,
        &mut Gap::new(Held::new(&packets), 0),
        &[(2, 4), (4, 8)],
    )?;
    gives(
        &rt,
        &mut Gap::new(Held::new(&packets), 2),
        &[(1, 2), (2, 4)],
    )?;
    gives(
        &rt,
        &mut Gap::new(Held::new(&packets), 3),
        &[(1, 2), (2, 4), (4, 8)],
    )
}

#[test]
fn joins_in_order(rt: HostRuntime) -> Result<(), Fail> {
    let packets = three()?;
    let more = [packet(9, 9)?];
    gives(
        &rt,
        &mut Join::new(Held::new(&packets), Held::new(&more)),
        &[(1, 2), (2, 4), (4, 8), (9, 9)],
    )?;
    gives(
        &rt,
        &mut Join::new(Held::new(&more), Held::new(&packets)),
        &[(9, 9), (1, 2), (2, 4), (4, 8)],
    )
}

#[test]
fn piles(rt: HostRuntime) -> Result<(), Fail> {
    let packets = three()?;
    let more = [packet(9, 9)?];
    let mut below = Held::new(&more);
    let joined = Join::new(Held::new(&packets), &mut below);
    gives(
        &rt,
        &mut Stir::new(Gap::new(joined, 1), Bit::one()),
        &[(1, 2), (5, 10), (12, 3)],
    )?;
    assert_eq!(rt; below.len(), 0);
    Ok(())
}
