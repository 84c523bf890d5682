// Bits: the field of two elements.
ghost use Rattle.std.specs.Prelude.{◌^◌, ◌<◌};

pub mod arithmetic;

#[derive(Clone, Copy, PartialEq, Eq, Debug)]
pub struct Bit {
    code: u8,
    ghost ok: { code < 2 ^ 1 },
}
