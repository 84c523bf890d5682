// The rows that a session works on: reduced forms, rows that it did not leave so, and how many it needs.
use super::{all_refused, packet, refused, same, taken, write};
use collector::session::Session;
use feed::Feed;
use feed::held::Held;
use field::nibble::Nibble;
use field::octet::Octet;
use field::word::Word;
use field::{FiniteField, SymbolField};
use packet::Packet;
use std::process::Abort;
use std::test::Fail;

// The packets leave the reduced form `form`, in the order given and in the other.
fn reduces<F: SymbolField>(
    rt: &impl Abort,
    rows: &mut [Packet<F>],
    packets: &mut [(u32, u32)],
    form: &[(u32, u32)],
) -> Result<(), Fail> {
    for _ in 0..2 {
        packets.reverse();
        let session = taken(3, rows, packets)?;
        assert_eq!(rt; session.tally(rows, 0)?.dimension, form.len());
        same(rt, rows, form);
    }
    Ok(())
}

#[test]
fn reduced_forms(rt: HostRuntime) -> Result<(), Fail> {
    let mut octets = [Packet::<Octet>::zero(); 88];
    reduces(&rt, &mut octets, &mut [(3, 6), (1, 2)], &[(1, 2), (2, 4)])?;
    reduces(
        &rt,
        &mut octets,
        &mut [(1, 2), (2, 4), (4, 8), (0, 1), (0, 2)],
        &[(1, 0), (2, 4), (4, 8), (0, 1), (0, 2)],
    )?;
    reduces(
        &rt,
        &mut [Packet::<Nibble>::zero(); 80],
        &mut [(0x32, 0x07), (0x20, 0x05)],
        &[(0x01, 0x0d), (0x10, 0x0b)],
    )
}

// Once the packets were taken and these rows written over the first, every call refuses the rows.
fn dirtied<F: SymbolField>(
    rt: &impl Abort,
    rows: &mut [Packet<F>],
    none: &[Packet<F>],
    packets: &[(u32, u32)],
    dirt: &[&[(u32, u32)]],
) -> Result<(), Fail> {
    for codes in dirt {
        let mut session = taken(3, rows, packets)?;
        write(rows, codes)?;
        all_refused(rt, &mut session, rows, none, &[0], 2)?;
    }
    Ok(())
}

#[test]
fn dirty_rows(rt: HostRuntime) -> Result<(), Fail> {
    // swapped, a zero row inside, a row after the others, an x code of 08
    let dirt: [&[(u32, u32)]; 5] = [
        &[(2, 4), (1, 2)],
        &[(0, 0), (2, 4)],
        &[(1, 2), (0, 0)],
        &[(1, 2), (2, 4), (4, 0)],
        &[(1, 2), (8, 4)],
    ];
    dirtied(
        &rt,
        &mut [Packet::<Octet>::zero(); 88],
        &[],
        &[(1, 2), (2, 4)],
        &dirt,
    )?;
    // a leading coordinate that is not one
    dirtied(
        &rt,
        &mut [Packet::<Nibble>::zero(); 80],
        &[],
        &[(1, 2)],
        &[&[(2, 4)]],
    )
}

#[test]
fn dirty_rows_of_a_shut_number(rt: HostRuntime) -> Result<(), Fail> {
    let mut rows = [Packet::<Octet>::zero(); 88];
    let mut session = Session::start(1, 3, &mut rows)?;
    rows[21] = packet(0, 1)?;
    all_refused(&rt, &mut session, &mut rows, &[], &[1], 2)?;
    // another number's rows do not matter
    session.open(&rows, 2)?;
    session.take(&mut rows, 2, 1, 2)?;
    session.close(&mut rows, 2)?;
    refused(&rt, session.tally(&rows, 2), 5)
}

#[test]
fn too_few_rows(rt: HostRuntime) -> Result<(), Fail> {
    let mut few = [Packet::<Octet>::zero(); 87];
    let mut rows = [Packet::<Octet>::zero(); 88];
    refused(&rt, Session::start(1, 3, &mut few), 2)?;
    let mut session = Session::start(1, 3, &mut rows)?;
    all_refused(&rt, &mut session, &mut few, &[], &[0, 8, 255], 2)?;
    all_refused(&rt, &mut session, &mut rows, &[], &[8, 255], 3)?;
    Ok(session.open(&rows, 0)?)
}

#[test]
fn later_rows_stay(rt: HostRuntime) -> Result<(), Fail> {
    let mark = packet::<Octet>(0x05, 0xab)?;
    let mut rows = [mark; 89];
    let mut session = Session::start(1, 3, &mut rows)?;
    session.open(&rows, 7)?;
    session.take(&mut rows, 7, 1, 2)?;
    session.drain(&mut rows, 7, &mut Held::new(&[mark; 20]))?;
    session.close(&mut rows, 7)?;
    same(&rt, &rows[87..89], &[(0, 0), (0x05, 0xab)]);
    Ok(())
}

#[test]
fn rows_of_another_field(rt: HostRuntime) -> Result<(), Fail> {
    let mut words = [Packet::<Word>::zero(); 224];
    let mut few = [Packet::<Octet>::zero(); 87];
    let mut rows = [Packet::<Octet>::zero(); 88];
    let mut wide = Session::start(1, 12, &mut words)?;
    all_refused(&rt, &mut wide, &mut rows, &[], &[0], 1)?;
    let mut session = Session::start(1, 3, &mut words)?;
    all_refused(&rt, &mut session, &mut few, &[], &[0], 2)?;
    session.open(&rows, 0)?;
    session.take(&mut rows, 0, 7, 14)?;
    refused(&rt, session.take(&mut rows, 0, 8, 0), 6)?;
    let mut output = [Octet::zero()];
    session.solve(&rows, 0, &mut output)?;
    assert_eq!(rt; output[0].code(), 2);
    Ok(())
}
