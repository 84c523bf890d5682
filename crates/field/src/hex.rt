// Hex digits: the field of 16 elements.
ghost use Rattle.std.specs.Prelude.{◌^◌, ◌<◌};

pub mod arithmetic;

#[derive(Clone, Copy, PartialEq, Eq, Debug)]
pub struct HexDigit {
    code: u8,
    ghost ok: { code < 2 ^ 4 },
}
