// Worked examples of the fields, by codes.
use crate::hex::HexDigit;
use crate::nibble::Nibble;
use crate::octet::Octet;
use crate::word::Word;
use crate::{FiniteField, SymbolField};
use std::test::Fail;

fn element<F: FiniteField>(code: u32) -> Result<F, Fail> {
    Ok(F::from_code(code).ok_or("no element has this code")?)
}

// The code of the product of two codes' elements.
fn product<F: FiniteField>(a: u32, b: u32) -> Result<u32, Fail> {
    let x: F = element(a)?;
    Ok(x.times(element(b)?).code())
}

// The code of the inverse of a code's element.
fn inverse<F: FiniteField>(a: u32) -> Result<u32, Fail> {
    let x: F = element(a)?;
    Ok(x.inverse().ok_or("zero has no inverse")?.code())
}

#[test]
fn products(rt: HostRuntime) -> Result<(), Fail> {
    for (b, expected) in [
        (0x13, 0xfe),
        (0x02, 0xae),
        (0x04, 0x47),
        (0x08, 0x8e),
        (0x10, 0x07),
    ] {
        assert_eq!(rt; product::<Octet>(0x57, b)?, expected);
    }
    assert_eq!(rt; product::<HexDigit>(0x3, 0x6)?, 0xa);
    assert_eq!(rt; product::<Word>(0x8000, 0x0002)?, 0x100b);
    assert_eq!(rt; product::<Nibble>(0x100_0000, 0x000_0010)?, 0x000_0011);
    Ok(())
}

#[test]
fn inverses(rt: HostRuntime) -> Result<(), Fail> {
    assert_eq!(rt; inverse::<HexDigit>(0x3)?, 0xe);
    assert!(rt; Octet::zero().inverse().is_none());
    Ok(())
}

#[test]
fn codes(rt: HostRuntime) {
    assert!(rt; Octet::from_code(0xff).is_some());
    assert!(rt; Octet::from_code(0x100).is_none());
}

#[test]
fn coordinates(rt: HostRuntime) -> Result<(), Fail> {
    let x: Octet = element(0x06)?;
    for (i, bit) in [0, 1, 1, 0, 0, 0, 0, 0].into_iter().enumerate() {
        assert_eq!(rt; x.coordinate(i).code(), bit);
    }
    Ok(())
}

#[test]
fn raises(rt: HostRuntime) -> Result<(), Fail> {
    let z: Nibble = element(0x000_0010)?;
    assert_eq!(rt; z.raise().code(), 0x001_0100);
    Ok(())
}
