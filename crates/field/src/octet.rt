// Octets: the field of 256 elements, over the bits.
ghost use Rattle.std.specs.Prelude.{◌^◌, ◌<◌};

pub mod arithmetic;
mod tables;

#[derive(Clone, Copy, PartialEq, Eq, Debug)]
pub struct Octet {
    code: u8,
    ghost ok: { code < 2 ^ 8 },
}
