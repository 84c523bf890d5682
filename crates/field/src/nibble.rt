// Nibbles: the field of 2 ^ 28 elements, over the hex digits.
ghost use Rattle.std.specs.Prelude.{◌^◌, ◌<◌};

pub mod arithmetic;
mod products;
mod raise;

#[derive(Clone, Copy, PartialEq, Eq, Debug)]
pub struct Nibble {
    code: u32,
    ghost ok: { code < 2 ^ 28 },
}
