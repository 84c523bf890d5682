// The held feed: lends out the packets of a slice.
ghost use Rattle.std.specs.Prelude.{◌≡◌, ◌≤◌, List, length};
ghost use Rattle.feed.specs.Layers.{held};
ghost use Rattle.packet.specs.declared.Packet.{Packet as PacketOf};
ghost use Rattle.feed.specs.Feeds.{feed_limit};
ghost use Rattle.feed.specs.Lengths.{held_short};

use crate::{Feed, LIMIT};
use field::SymbolField;
use packet::Packet;
use std::marker::Model;

// `packets` are those that are still to come.
#[derive(Drop)]
pub struct Held<'a, F> {
    packets: &'a [Packet<F>],
}

impl<'a, F> Model for Held<'a, F> {
    ghost Value = { List (PacketOf F) };

    ghost view = { λ s. s.packets.now };

    ghost invariant = { λ s. length s.packets.now ≤ feed_limit };
}

impl<'a, F: SymbolField> Held<'a, F> {
    pub fn new(packets: &'a [Packet<F>]) -> Held<'a, F>
        ensures { held result ≡ held packets.now }
    {
        Held {
            packets: &packets[..packets.len().min(LIMIT)],
        }
    }
}

impl<'a, F: SymbolField> Feed for Held<'a, F> {
    type Item = Packet<F>;

    ghost list = { held };

    ghost short = { held_short 0 };

    fn len(&self) -> usize {
        self.packets.len()
    }

    fn next(&mut self) -> Option<Packet<F>> {
        let (packet, rest) = self.packets.split_first()?;
        self.packets = rest;
        Some(*packet)
    }
}
