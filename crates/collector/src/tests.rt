// Reduced forms by row adding alone, over octets and nibbles.
use crate::adding::add_row;
use crate::session::checks::clear;
use field::nibble::Nibble;
use field::octet::Octet;
use field::{FiniteField, SymbolField};
use packet::Packet;
use std::process::Abort;
use std::test::Fail;

// The dimension of the packets; their reduced form is left in the rows, which are 2m at least.
fn reduce<F: SymbolField>(rows: &mut [Packet<F>], packets: &[Packet<F>]) -> usize {
    clear(rows);
    let mut dimension = 0;
    let m = F::DEGREE;
    if rows.len() < m + m {
        return 0;
    }
    for packet in packets {
        dimension = add_row(rows, dimension, *packet).dimension;
    }
    dimension
}

fn packet<F: FiniteField>(x: u32, y: u32) -> Result<Packet<F>, Fail> {
    Ok(Packet::from_codes(x, y).ok_or("no packet has these codes")?)
}

// The packets have the reduced form `form`, in the order given and in the other.
fn reduces<F: SymbolField>(
    rt: &impl Abort,
    rows: &mut [Packet<F>],
    packets: &mut [Packet<F>],
    form: &[(u32, u32)],
) {
    for _ in 0..2 {
        packets.reverse();
        assert_eq!(rt; reduce(rows, packets), form.len());
        for (row, (x, y)) in rows.iter().zip(form.iter()) {
            assert_eq!(rt; row.x.code(), *x);
            assert_eq!(rt; row.y.code(), *y);
        }
    }
}

#[test]
fn reduced_forms(rt: HostRuntime) -> Result<(), Fail> {
    let mut rows = [packet::<Octet>(0, 0)?; 16];
    let mut two = [packet(0x03, 0x06)?, packet(0x01, 0x02)?];
    reduces(&rt, &mut rows, &mut two, &[(0x01, 0x02), (0x02, 0x04)]);
    let mut five = [
        packet(0x01, 0x02)?,
        packet(0x02, 0x04)?,
        packet(0x04, 0x08)?,
        packet(0x00, 0x01)?,
        packet(0x00, 0x02)?,
    ];
    reduces(
        &rt,
        &mut rows,
        &mut five,
        &[
            (0x01, 0x00),
            (0x02, 0x04),
            (0x04, 0x08),
            (0x00, 0x01),
            (0x00, 0x02),
        ],
    );
    Ok(())
}

#[test]
fn reduced_forms_of_nibbles(rt: HostRuntime) -> Result<(), Fail> {
    let mut rows = [packet::<Nibble>(0, 0)?; 14];
    let mut two = [packet(0x32, 0x07)?, packet(0x20, 0x05)?];
    reduces(&rt, &mut rows, &mut two, &[(0x01, 0x0d), (0x10, 0x0b)]);
    Ok(())
}
