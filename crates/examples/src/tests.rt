// Tests over the public calls, and what they share. Packets stand by their codes, refusals by their numbers.
mod code;
mod limits;
mod rows;
mod runs;
mod solving;

use answer::refusal::Refusal;
use collector::session::Session;
use feed::held::Held;
use field::{FiniteField, SymbolField};
use packet::Packet;
use std::process::Abort;
use std::test::Fail;

fn element<F: FiniteField>(code: u32) -> Result<F, Fail> {
    Ok(F::from_code(code).ok_or("no element has this code")?)
}

fn packet<F: FiniteField>(x: u32, y: u32) -> Result<Packet<F>, Fail> {
    Ok(Packet::from_codes(x, y).ok_or("no packet has these codes")?)
}

// The first rows have these codes.
fn same<F: SymbolField>(rt: &impl Abort, rows: &[Packet<F>], codes: &[(u32, u32)]) {
    for (row, code) in rows.iter().zip(codes.iter()) {
        assert_eq!(rt; (row.x.code(), row.y.code()), *code);
    }
}

// Writes packets over the first rows.
fn write<F: SymbolField>(rows: &mut [Packet<F>], codes: &[(u32, u32)]) -> Result<(), Fail> {
    for (row, (x, y)) in rows.iter_mut().zip(codes.iter()) {
        *row = packet(*x, *y)?;
    }
    Ok(())
}

// A session for k = 1 whose number 0 has taken the packets.
fn taken<F: SymbolField>(
    l: usize,
    rows: &mut [Packet<F>],
    packets: &[(u32, u32)],
) -> Result<Session, Fail> {
    let mut session = Session::start(1, l, rows)?;
    session.open(rows, 0)?;
    for (x, y) in packets {
        session.take(rows, 0, *x, *y)?;
    }
    Ok(session)
}

fn refused<T: Drop>(rt: &impl Abort, answer: Result<T, Refusal>, number: u8) -> Result<(), Fail> {
    let refusal = answer.err().ok_or("not refused")?;
    assert_eq!(rt; refusal.number(), number);
    Ok(())
}

// Every call on these block numbers is refused with the same refusal; what is drained is `none`, which has no packets.
fn all_refused<F: SymbolField>(
    rt: &impl Abort,
    session: &mut Session,
    rows: &mut [Packet<F>],
    none: &[Packet<F>],
    blocks: &[u8],
    number: u8,
) -> Result<(), Fail> {
    for block in blocks {
        refused(rt, session.open(rows, *block), number)?;
        refused(rt, session.take(rows, *block, 0, 0), number)?;
        refused(
            rt,
            session.drain(rows, *block, &mut Held::new(none)),
            number,
        )?;
        refused(rt, session.solve(rows, *block, &mut []), number)?;
        refused(rt, session.tally(rows, *block), number)?;
        refused(rt, session.close(rows, *block), number)?;
    }
    Ok(())
}
