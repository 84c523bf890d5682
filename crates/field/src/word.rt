// Words: the field of 2 ^ 16 elements, over the bits.
ghost use Rattle.std.specs.Prelude.{◌^◌, ◌<◌};

pub mod arithmetic;
mod products;
mod squares;

#[derive(Clone, Copy, PartialEq, Eq, Debug)]
pub struct Word {
    code: u16,
    ghost ok: { code < 2 ^ 16 },
}
