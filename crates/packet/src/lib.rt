// Packets: what a sender gives out, relays mix and the collector takes.
#![tactic(auto)]

pub mod codes;
pub mod headers;
pub mod rows;
#[cfg(test)]
mod tests;

// A header x and a payload y, symbols of one field.
#[derive(Clone, Copy, PartialEq, Eq, Debug)]
pub struct Packet<F> {
    pub x: F,
    pub y: F,
}
