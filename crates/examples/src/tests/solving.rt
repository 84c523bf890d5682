// What solve answers and writes, over octets with ℓ = 3 and k = 1.
use super::{element, refused, taken, write};
use answer::Solved;
use answer::refusal::Refusal;
use field::FiniteField;
use field::octet::Octet;
use packet::Packet;
use std::process::Abort;
use std::test::Fail;

// The answer on the packets, and the code that is written; the place after it stays.
fn solves(
    rt: &impl Abort,
    packets: &[(u32, u32)],
    answer: Result<Solved, Refusal>,
    code: u32,
) -> Result<(), Fail> {
    let mut rows = [Packet::<Octet>::zero(); 88];
    let session = taken(3, &mut rows, packets)?;
    let mut output = [element::<Octet>(0xab)?; 2];
    assert_eq!(rt; session.solve(&rows, 0, &mut output), answer);
    assert_eq!(rt; (output[0].code(), output[1].code()), (code, 0xab));
    Ok(())
}

// The answer with these counts.
fn counts(dimension: usize, lost: usize, foreign: usize) -> Result<Solved, Refusal> {
    Ok(Solved {
        dimension,
        lost,
        foreign,
        faults: lost.saturating_add(foreign),
    })
}

#[test]
fn solved(rt: HostRuntime) -> Result<(), Fail> {
    solves(&rt, &[(1, 2)], counts(1, 2, 0), 2)?;
    solves(&rt, &[(1, 2), (2, 4), (4, 9)], counts(3, 1, 1), 2)?;
    solves(
        &rt,
        &[(1, 2), (2, 4), (4, 8), (0, 1), (0, 2)],
        counts(5, 0, 2),
        2,
    )
}

#[test]
fn not_solved(rt: HostRuntime) -> Result<(), Fail> {
    solves(&rt, &[], Err(Refusal::DimensionLow(0)), 0xab)?;
    solves(&rt, &[(1, 2), (2, 5)], Err(Refusal::NoneNear(2)), 0xab)?;
    solves(
        &rt,
        &[(1, 2), (2, 4), (4, 8), (0, 1), (0, 2), (0, 4)],
        Err(Refusal::DimensionHigh(6)),
        0xab,
    )
}

#[test]
fn altered_row(rt: HostRuntime) -> Result<(), Fail> {
    let mut rows = [Packet::<Octet>::zero(); 88];
    let session = taken(3, &mut rows, &[(1, 2)])?;
    write(&mut rows, &[(1, 3)])?;
    let mut output = [Octet::zero()];
    session.solve(&rows, 0, &mut output)?;
    assert_eq!(rt; output[0].code(), 3);
    // no place for the message
    refused(&rt, session.solve(&rows, 0, &mut []), 9)
}
