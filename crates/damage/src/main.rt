// Reads a log from standard input, and prints what a bad way leaves of it: of each number the first packet is lost, one packet of
// another heading joins in, and a relay sends on sums.
#![tactic(auto)]

ghost use Rattle.std.specs.Prelude.{◌≡◌, [], ◌∷◌, IfOk};
ghost use Rattle.field.specs.Alphabet.{alphabet};
ghost use Rattle.feed.specs.Layers.{held, stirred, gapped, joined};

use bench_feed::take_all;
use feed::Feed;
use feed::gap::Gap;
use feed::held::Held;
use feed::join::Join;
use feed::stir::Stir;
use field::nibble::Nibble;
use field::octet::Octet;
use field::word::Word;
use field::{FiniteField, SymbolField};
use log_feed::LogFeed;
use packet::Packet;
use portal_log::head::Head;
use portal_log::name::{FieldName, LogField};
use portal_log::reader::open;
use sending::writing::{head_line, packet_lines};
use std::alloc::{AllocError, Global};
use std::io;
use std::io::Read;

// What the way leaves of a feed.
fn relayed<F: SymbolField, D: Feed<Item = Packet<F>> + Drop>(
    heap: Global,
    feed: D,
) -> Result<Vec<Packet<F>>, AllocError>
    ensures { IfOk result (λ v. v.items ≡ stirred (alphabet F.Scalar.FiniteField F.SymbolField) F.Scalar.FiniteField.field.one (joined (gapped 0 (D.list feed)) (held (record { x = F.FiniteField.field.one; y = F.FiniteField.field.one } ∷ [])))) }
{
    let mut other = Vec::new(heap);
    other.push(Packet {
        x: F::one(),
        y: F::one(),
    })?;
    let mixed = Join::new(Gap::new(feed, 0), Held::new(&other));
    let mut pile = Stir::new(mixed, F::Scalar::one());
    take_all(heap, &mut pile)
}

// What the way leaves of a number's packets: nothing of none.
fn relayed_number<F: LogField>(
    heap: Global,
    log: &[u8],
    number: u8,
) -> Result<Vec<Packet<F>>, AllocError> {
    match LogFeed::<F>::new(log, number) {
        Ok(feed) if feed.len() > 0 => relayed(heap, feed),
        _ => Ok(Vec::new(heap)),
    }
}

// What the way leaves of a log in the field F.
fn damage_in<F: LogField>(heap: Global, head: Head, log: &[u8]) -> Result<String, AllocError> {
    let mut text = head_line(heap, head)?;
    for number in 0..8 {
        let packets = relayed_number::<F>(heap, log, number)?;
        text.push_str(&packet_lines(heap, number, &packets)?)?;
    }
    Ok(text)
}

// What the way leaves of a log; nothing where its first line cannot be read.
fn damage(heap: Global, log: &[u8]) -> Result<String, AllocError> {
    let (Some(head), _) = open(log) else {
        return Ok(String::new(heap));
    };
    match head.name {
        FieldName::Octet => damage_in::<Octet>(heap, head, log),
        FieldName::Word => damage_in::<Word>(heap, head, log),
        FieldName::Nibble => damage_in::<Nibble>(heap, head, log),
    }
}

fn main(rt: HostRuntime) -> io::Result<()> {
    let heap = rt.alloc();
    let mut log = Vec::new(heap);
    rt.stdin().read_to_end(&mut log)?;
    rt.print(damage(heap, &log)?)
}
