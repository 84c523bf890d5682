// Packets by codes: which there are, and what sums of them are.
use crate::Packet;
use field::FiniteField;
use field::octet::Octet;
use std::test::Fail;

fn packet(x: u32, y: u32) -> Result<Packet<Octet>, Fail> {
    Ok(Packet::from_codes(x, y).ok_or("no packet has these codes")?)
}

#[test]
fn codes(rt: HostRuntime) -> Result<(), Fail> {
    let p = packet(0xff, 0x01)?;
    assert_eq!(rt; p.x.code(), 0xff);
    assert_eq!(rt; p.y.code(), 0x01);
    assert_eq!(rt; Packet::<Octet>::from_codes(0x100, 0x01), None);
    assert_eq!(rt; Packet::<Octet>::from_codes(0xff, 0x100), None);
    Ok(())
}

#[test]
fn sums(rt: HostRuntime) -> Result<(), Fail> {
    let p = packet(0x57, 0x13)?;
    assert_eq!(rt; p.plus(packet(0x83, 0x03)?), packet(0xd4, 0x10)?);
    assert_eq!(rt; p.plus(p), Packet::zero());
    Ok(())
}
