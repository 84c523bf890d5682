// Tests of scalars, by their codes.
ghost use Rattle.std.specs.Prelude.{◌≡◌, true, ◌↔◌};

use field::FiniteField;

pub(crate) fn is_zero<K: FiniteField>(a: K) -> bool
    ensures { (result ≡ true) ↔ (a ≡ K.field.zero) }
{
    a.code() == 0
}

pub(crate) fn is_one<K: FiniteField>(a: K) -> bool
    ensures { (result ≡ true) ↔ (a ≡ K.field.one) }
{
    a.code() == 1
}
