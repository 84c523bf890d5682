// Logs in octets: their feeds, the refusals of making one, and the lines' places.
use crate::LogFeed;
use answer::refusal::Refusal;
use feed::Feed;
use feed::held::Held;
use feed::join::Join;
use field::octet::Octet;
use field::{FiniteField, SymbolField};
use packet::Packet;
use portal_log::line::Line;
use portal_log::reader::{Reader, open};
use std::process::Abort;
use std::test::Fail;

// The feed gives the packets with these codes, and ends; `len` counts them down.
fn gives_all<F: SymbolField, D: Feed<Item = Packet<F>>>(
    rt: &impl Abort,
    feed: &mut D,
    codes: &[(u32, u32)],
) -> Result<(), Fail> {
    for (i, code) in codes.iter().enumerate() {
        assert_eq!(rt; feed.len(), codes.len() - i);
        let next = feed.next().ok_or("no packet")?;
        assert_eq!(rt; (next.x.code(), next.y.code()), *code);
    }
    assert_eq!(rt; feed.len(), 0);
    assert!(rt; feed.next().is_none());
    Ok(())
}

fn gives(rt: &impl Abort, log: &[u8], number: u8, codes: &[(u32, u32)]) -> Result<(), Fail> {
    let mut feed = LogFeed::<Octet>::new(log, number)?;
    gives_all(rt, &mut feed, codes)
}

fn refuses(rt: &impl Abort, log: &[u8], number: u8, refusal: Refusal) -> Result<(), Fail> {
    let given = LogFeed::<Octet>::new(log, number)
        .err()
        .ok_or("a feed was made")?;
    assert_eq!(rt; given, refusal);
    Ok(())
}

#[test]
fn one_number(rt: HostRuntime) -> Result<(), Fail> {
    let log =
        b"L,octet,3,1\nP,0,01,02\nE,,,\nP,0,02,04\nP,5,01,07\nP,0,07,0F\nP,2,08,01\nP,6,01,02\nP,6,02,05\nP,0,0";
    gives(&rt, log, 0, &[(0x01, 0x02), (0x02, 0x04), (0x07, 0x0f)])?;
    gives(&rt, log, 2, &[(0x08, 0x01)])?;
    gives(&rt, log, 6, &[(0x01, 0x02), (0x02, 0x05)])?;
    gives(&rt, log, 7, &[])
}

#[test]
fn odd_lines(rt: HostRuntime) -> Result<(), Fail> {
    let log =
        b"L,octet,3,1\nP,0,01,02\r\nP,8,01,02\nL,octet,3,1\n\xff\x80,\nP,0,0a,02\n\nP,0,FF,FE";
    gives(&rt, log, 0, &[(0xff, 0xfe)])
}

#[test]
fn first_lines(rt: HostRuntime) -> Result<(), Fail> {
    refuses(&rt, b"", 0, Refusal::LineShape)?;
    refuses(&rt, b"L,octet,03,1\n", 0, Refusal::LineShape)?;
    refuses(&rt, b"L,octet,3,1,\n", 0, Refusal::LineShape)?;
    refuses(&rt, b"L,Octet,3,1\n", 0, Refusal::LineShape)?;
    refuses(&rt, b" L,octet,3,1\n", 0, Refusal::LineShape)?;
    refuses(&rt, b"L,octet,3,1\r\n", 0, Refusal::LineShape)?;
    refuses(&rt, b"L,word,3,1\n", 0, Refusal::LineShape)?;
    refuses(&rt, b"", 8, Refusal::BlockNumber)?;
    gives(&rt, b"L,octet,0,99", 0, &[])
}

#[test]
fn longest(rt: HostRuntime) -> Result<(), Fail> {
    let mut log = Vec::new(rt.alloc());
    log.extend_from_slice(b"L,octet,3,1\n")?;
    log.resize(65_527, b'\n')?;
    log.extend_from_slice(b"P,7,01,02")?;
    assert_eq!(rt; log.len(), 65_536);
    gives(&rt, &log, 7, &[(0x01, 0x02)])?;
    log.push(b'\n')?;
    refuses(&rt, &log, 7, Refusal::LogLong)?;
    refuses(&rt, &log, 8, Refusal::BlockNumber)
}

#[test]
fn places(rt: HostRuntime) -> Result<(), Fail> {
    let (_, lines) = open(b"L,octet,3,1\nP,5,01,FF\nE,,,\n\x80");
    let mut reader: Reader<'_, Octet> = Reader::of(lines);
    let Some(
        Line::Packet {
            number,
            header,
            payload,
        },
    ) = reader.next()
    else {
        return Err(Fail::new("no packet line"));
    };
    assert_eq!(rt; (number.place, header.place, payload.place), (14, 16, 19));
    assert_eq!(rt; payload.text, b"FF".as_slice());
    let Some(Line::Erased { place }) = reader.next() else {
        return Err(Fail::new("no erased slot"));
    };
    assert_eq!(rt; place, 22);
    let Some(Line::Unreadable(line)) = reader.next() else {
        return Err(Fail::new("no unreadable line"));
    };
    assert_eq!(rt; line.place, 27);
    assert!(rt; reader.next().is_none());
    Ok(())
}

// The rest of a join of a lent feed with a log's packets, past its first packet.
fn after_lent<D: Feed<Item = Packet<Octet>>>(feed: &mut D, log: &[u8]) -> Result<usize, Refusal> {
    let mut joined = Join::new(feed, LogFeed::new(log, 0)?);
    let _ = joined.next();
    Ok(joined.len())
}

#[test]
fn joins_a_lent_feed(rt: HostRuntime) -> Result<(), Fail> {
    let one = [Packet::zero()];
    let mut lent = Held::new(&one);
    let log = b"L,octet,3,1\nP,0,01,02\nP,0,02,04";
    assert_eq!(rt; after_lent(&mut lent, log), Ok(2));
    assert_eq!(rt; lent.len(), 0);
    Ok(())
}
