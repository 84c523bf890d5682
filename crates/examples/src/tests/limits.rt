// Which packets a number takes, and how many.
use super::{packet, refused, taken};
use answer::{Drained, Taken, Tally};
use collector::session::Session;
use feed::Feed;
use feed::held::Held;
use field::FiniteField;
use field::octet::Octet;
use packet::Packet;
use std::process::Abort;
use std::test::Fail;

#[test]
fn taken_twice(rt: HostRuntime) -> Result<(), Fail> {
    let mut rows = [Packet::<Octet>::zero(); 88];
    let mut session = taken(3, &mut rows, &[])?;
    let (taken, dimension) = (2, 1);
    let first = session.take(&mut rows, 0, 1, 2)?;
    let rose = true;
    assert_eq!(rt; first, Taken { dimension, rose });
    let second = session.take(&mut rows, 0, 1, 2)?;
    let rose = false;
    assert_eq!(rt; second, Taken { dimension, rose });
    assert_eq!(rt; session.tally(&rows, 0)?, Tally { taken, dimension });
    Ok(())
}

// Packets that number 0 does not take, each with its refusal.
fn not_taken(
    rt: &impl Abort,
    session: &mut Session,
    rows: &mut [Packet<Octet>],
    cases: &[(u32, u32, u8)],
) -> Result<(), Fail> {
    for (x, y, number) in cases {
        refused(rt, session.take(rows, 0, *x, *y), *number)?;
    }
    Ok(())
}

#[test]
fn codes_too_large(rt: HostRuntime) -> Result<(), Fail> {
    let mut rows = [Packet::<Octet>::zero(); 88];
    let mut session = taken(3, &mut rows, &[(7, 0xff)])?;
    not_taken(
        &rt,
        &mut session,
        &mut rows,
        &[(8, 0, 6), (8, 0x100, 6), (0, 0x100, 7)],
    )?;
    let feed = [packet(7, 1)?, packet(8, 1)?];
    let drained = session.drain(&mut rows, 0, &mut Held::new(&feed))?;
    let (kept, passed) = (1, 1);
    assert_eq!(rt; drained, Drained { kept, passed });
    assert_eq!(rt; session.tally(&rows, 0)?.taken, 2);
    Ok(())
}

#[test]
fn full_list(rt: HostRuntime) -> Result<(), Fail> {
    let mut rows = [Packet::<Octet>::zero(); 88];
    let mut session = taken(3, &mut rows, &[])?;
    let bad = [packet::<Octet>(8, 1)?; 10_001];
    let mut feed = Held::new(&bad);
    refused(&rt, session.drain(&mut rows, 0, &mut feed), 8)?;
    assert_eq!(rt; feed.len(), 10_001);
    let many = [packet(7, 1)?; 9_999];
    session.drain(&mut rows, 0, &mut Held::new(&many))?;
    session.take(&mut rows, 0, 1, 2)?;
    not_taken(&rt, &mut session, &mut rows, &[(7, 0, 8), (8, 0, 6)])?;
    session.drain(&mut rows, 0, &mut Held::new(&[]))?;
    assert_eq!(rt; session.tally(&rows, 0)?.taken, 10_000);
    Ok(())
}
