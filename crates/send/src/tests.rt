// Block sheets, and what is printed for them.
use sending::send;
use std::alloc::Global;
use std::process::Abort;
use std::test::Fail;

fn prints(rt: &impl Abort, heap: Global, sheet: &[u8], text: &str) -> Result<(), Fail> {
    assert_eq!(rt; send(heap, sheet)?.as_str(), text);
    Ok(())
}

#[test]
fn blocks(rt: HostRuntime) -> Result<(), Fail> {
    let heap = rt.alloc();
    prints(&rt, heap, b"L,octet,8,1\n", "L,octet,8,1\n")?;
    prints(
        &rt,
        heap,
        b"L,octet,3,2\n0,01,01\n7,00,FF",
        "L,octet,3,2\nP,0,01,00\nP,0,02,06\nP,0,04,14\nP,7,01,FF\nP,7,02,D1\nP,7,04,69\n",
    )
}

#[test]
fn other_fields(rt: HostRuntime) -> Result<(), Fail> {
    let heap = rt.alloc();
    prints(
        &rt,
        heap,
        b"L,word,2,1\n3,8000\n",
        "L,word,2,1\nP,3,0001,8000\nP,3,0002,100B\n",
    )?;
    prints(
        &rt,
        heap,
        b"L,nibble,2,1\n0,1000000\n",
        "L,nibble,2,1\nP,0,0000001,1000000\nP,0,0000010,0000011\n",
    )
}

#[test]
fn first_lines(rt: HostRuntime) -> Result<(), Fail> {
    let heap = rt.alloc();
    prints(&rt, heap, b"", "X,15,1\n")?;
    prints(&rt, heap, b"\nL,octet,3,2\n", "X,15,1\n")?;
    prints(&rt, heap, b"L,octets,3,2\n", "X,15,1\n")?;
    prints(&rt, heap, b"L,octet,03,2\n", "X,15,1\n")?;
    prints(&rt, heap, b"L,octet,3,2\r\n", "X,15,1\n")?;
    prints(&rt, heap, b"L,octet,3,0\n", "X,1,1\n")?;
    prints(&rt, heap, b"L,octet,2,3\n", "X,1,1\n")?;
    prints(&rt, heap, b"L,octet,9,3\n9\n", "X,1,1\n")
}

#[test]
fn block_lines(rt: HostRuntime) -> Result<(), Fail> {
    let heap = rt.alloc();
    prints(&rt, heap, b"L,octet,3,2\n\n", "X,15,2\n")?;
    prints(&rt, heap, b"L,octet,3,2\n0,01,0a\n", "X,15,2\n")?;
    prints(&rt, heap, b"L,octet,3,2\n0,01,001\n", "X,15,2\n")?;
    prints(&rt, heap, b"L,octet,3,2\n9,0G\n", "X,15,2\n")?;
    prints(&rt, heap, b"L,octet,3,2\n1,00,00\n8,00\n0,00\n", "X,3,3\n")?;
    prints(&rt, heap, b"L,octet,3,2\n7,00\n8,00,00\n", "X,13,2\n")?;
    prints(&rt, heap, b"L,octet,3,2\n5\n", "X,13,2\n")
}
