// Symbols over scalars, both by their codes: a symbol's coordinates are the digits of its code.
ghost use Rattle.std.specs.Prelude.{◌≡◌, ◌*◌, ◌/◌, ◌%◌, ◌^◌};
ghost use Rattle.field.specs.Symbols.{coordinate};

use crate::by_code::ByCode;

// The scalar whose code is the digit at the place i, of m digits; zero from m on.
pub(crate) fn digit<S: ByCode, K: ByCode>(symbol: S, m: usize, i: usize) -> K
    requires { S.BITS ≡ K.BITS * m }
    ensures value { result ≡ coordinate K.coded S.coded (2 ^ K.BITS) symbol i }
    ensures digit { K.coded.code result ≡ S.coded.code symbol / (2 ^ K.BITS) ^ i % 2 ^ K.BITS }
{
    if i < m {
        K::of(symbol.number() >> (K::BITS as usize * i))
    } else {
        K::of(0)
    }
}
