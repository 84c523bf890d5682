// Whole runs: a block is sent, mixed, thinned out and joined by foreign packets, and comes back.
use super::{element, packet};
use collector::session::Session;
use feed::Feed;
use feed::gap::Gap;
use feed::held::Held;
use feed::join::Join;
use feed::stir::Stir;
use field::nibble::Nibble;
use field::octet::Octet;
use field::word::Word;
use field::{FiniteField, SymbolField};
use packet::Packet;
use std::process::Abort;
use std::test::Fail;
use subspace_code::encoding::encode;

// A block of two symbols in six packets, of which one is lost; foreign ones come last, and all are stirred.
fn comes_back<F: SymbolField>(
    rt: &impl Abort,
    block: &[F],
    foreign: &[Packet<F>],
    sent: &mut [Packet<F>],
    rows: &mut [Packet<F>],
    output: &mut [F],
) -> Result<(), Fail> {
    encode(2, 6, block, sent)?;
    let mut session = Session::start(2, 6, rows)?;
    session.open(rows, 3)?;
    let scalar = element(F::ORDER.saturating_sub(1))?;
    let joined = Join::new(Gap::new(Held::new(sent), 2), Held::new(foreign));
    session.drain(rows, 3, &mut Stir::new(joined, scalar))?;
    let solved = session.solve(rows, 3, output)?;
    assert_eq!(rt; (solved.lost, solved.foreign), (1, foreign.len()));
    for (found, symbol) in output.iter().zip(block.iter()) {
        assert_eq!(rt; found.code(), symbol.code());
    }
    Ok(())
}

#[test]
fn octets_come_back(rt: HostRuntime) -> Result<(), Fail> {
    comes_back(
        &rt,
        &[element::<Octet>(0x57)?, element(0x83)?],
        &[packet(0x01, 0x99)?, packet(0x00, 0x10)?],
        &mut [Packet::zero(); 6],
        &mut [Packet::zero(); 112],
        &mut [Octet::zero(); 2],
    )
}

#[test]
fn words_come_back(rt: HostRuntime) -> Result<(), Fail> {
    comes_back(
        &rt,
        &[element::<Word>(0x5701)?, element(0x8302)?],
        &[packet(0x01, 0x99)?, packet(0x00, 0x10)?],
        &mut [Packet::zero(); 6],
        &mut [Packet::zero(); 176],
        &mut [Word::zero(); 2],
    )
}

#[test]
fn nibbles_come_back(rt: HostRuntime) -> Result<(), Fail> {
    comes_back(
        &rt,
        &[element::<Nibble>(0x57)?, element(0x830_0000)?],
        &[packet(0x01, 0x99)?, packet(0x00, 0x10)?],
        &mut [Packet::zero(); 6],
        &mut [Packet::zero(); 104],
        &mut [Nibble::zero(); 2],
    )
}
