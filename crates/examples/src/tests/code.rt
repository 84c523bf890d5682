// Encoding and division over octets.
use super::element;
use answer::refusal::Refusal;
use field::octet::Octet;
use field::{FiniteField, SymbolField};
use packet::Packet;
use std::process::Abort;
use std::test::Fail;
use subspace_code::division::divide;
use subspace_code::encoding::encode;

#[test]
fn encoding(rt: HostRuntime) -> Result<(), Fail> {
    let one: Octet = element(1)?;
    let mark = Packet {
        x: element(0xab)?,
        y: element(0xcd)?,
    };
    let mut output = [mark; 4];
    assert!(rt; encode(2, 3, &[one, one], &mut output).is_ok());
    let sent = [(0x01, 0x00), (0x02, 0x06), (0x04, 0x14), (0xab, 0xcd)];
    for (packet, (x, y)) in output.into_iter().zip(sent) {
        assert_eq!(rt; packet.x.code(), x);
        assert_eq!(rt; packet.y.code(), y);
    }
    Ok(())
}

#[test]
fn encoding_refused(rt: HostRuntime) -> Result<(), Fail> {
    let one: Octet = element(1)?;
    let mut output = [Packet { x: one, y: one }; 3];
    let long = [one, one, one];
    assert_eq!(rt; encode(0, 9, &long, &mut output), Err(Refusal::Parameters));
    assert_eq!(rt; encode(4, 3, &long, &mut output), Err(Refusal::Parameters));
    assert_eq!(rt; encode(2, 9, &long, &mut output), Err(Refusal::Parameters));
    assert_eq!(rt; encode(2, 4, &long, &mut output), Err(Refusal::OutputShort));
    assert_eq!(rt;
        encode(2, 3, &long, &mut output),
        Err(Refusal::MessageLength)
    );
    assert_eq!(rt;
        encode(2, 3, &[one], &mut output),
        Err(Refusal::MessageLength)
    );
    Ok(())
}

// The octets of the codes, and zeros after them.
fn octets(rt: &impl Abort, codes: &[u32]) -> Result<[Octet; 12], Fail> {
    let mut symbols = [Octet::zero(); 12];
    assert!(rt; codes.len() <= symbols.len());
    for (symbol, code) in symbols.iter_mut().zip(codes.iter()) {
        *symbol = element(*code)?;
    }
    Ok(symbols)
}

// The symbols have these codes, and are zero after them.
fn same(rt: &impl Abort, symbols: &[Octet], codes: &[u32]) {
    for (i, symbol) in symbols.iter().enumerate() {
        assert_eq!(rt; symbol.code(), codes.get(i).copied().unwrap_or(0));
    }
}

#[test]
fn division(rt: HostRuntime) -> Result<(), Fail> {
    let rows: [(&[u32], &[u32], &[u32], &[u32], (usize, usize)); 7] = [
        (&[1, 2, 3], &[4, 5], &[0xc7, 0xa0], &[0x30], (2, 1)),
        (&[1, 2], &[4, 5, 6], &[], &[1, 2], (0, 2)),
        (&[1, 2, 3], &[4, 5, 0], &[0xc7, 0xa0], &[0x30], (2, 1)),
        (
            &[0, 0, 0, 0, 0, 0, 0, 0, 0, 1, 2, 3],
            &[4, 0, 0, 0, 0, 0, 0, 0, 0, 5],
            &[0xf6, 0x56, 0xa0],
            &[0xf5, 0x43, 0xb6],
            (3, 3),
        ),
        (&[0, 0x9a], &[0, 1], &[0x80], &[], (1, 0)),
        (&[], &[4, 5], &[], &[], (0, 0)),
        (&[0, 0], &[1], &[], &[], (0, 0)),
    ];
    for (dividend, divisor, quotient, remainder, answer) in rows {
        assert!(rt; dividend.len() <= 12 && divisor.len() <= 12);
        let d = octets(&rt, dividend)?;
        let b = octets(&rt, divisor)?;
        let mut f = [element(0xab)?; 12];
        let mut r = f;
        let answered = divide(&d[0..dividend.len()], &b[0..divisor.len()], &mut f, &mut r);
        assert_eq!(rt; answered, Ok(answer));
        same(&rt, &f, quotient);
        same(&rt, &r, remainder);
    }
    Ok(())
}

#[test]
fn division_in_one_place(rt: HostRuntime) -> Result<(), Fail> {
    let d = octets(&rt, &[5])?;
    let mut f = [element(0xab)?];
    let mut r = f;
    assert_eq!(rt;
        divide(&d[0..4], &[Octet::one()], &mut f, &mut r),
        Ok((1, 0))
    );
    same(&rt, &f, &[5]);
    same(&rt, &r, &[0]);
    Ok(())
}

#[test]
fn division_refused(rt: HostRuntime) -> Result<(), Fail> {
    let d = octets(&rt, &[1, 2, 0, 0])?;
    let zero = [Octet::zero(); 3];
    let mark: Octet = element(0xab)?;
    let mut short = [mark];
    let mut long = [mark; 2];
    let mut other = [mark; 2];
    assert_eq!(rt;
        divide(&d[0..4], &zero, &mut short, &mut long),
        Err(Refusal::OutputShort)
    );
    assert_eq!(rt;
        divide(&d[0..4], &zero, &mut long, &mut short),
        Err(Refusal::OutputShort)
    );
    assert_eq!(rt;
        divide(&d[0..4], &zero, &mut long, &mut other),
        Err(Refusal::DivisorZero)
    );
    assert_eq!(rt;
        divide(&d[0..4], &[], &mut long, &mut other),
        Err(Refusal::DivisorZero)
    );
    same(&rt, &short, &[0xab]);
    same(&rt, &long, &[0xab, 0xab]);
    same(&rt, &other, &[0xab, 0xab]);
    Ok(())
}
