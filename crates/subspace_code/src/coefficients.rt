// Lists of coefficients in slots.
ghost use Rattle.std.specs.Prelude.{◌≡◌, map};
ghost use Rattle.linearized.specs.Polynomials.{counted};
ghost use Rattle.linearized.specs.Coefficients.{Null};

use crate::holding::Holding;
use field::FiniteField;

// The length, counted to the last non-zero coefficient.
pub(crate) fn counted_length<F: FiniteField, H: Holding<F>>(slots: &[H::Slot]) -> usize
    ensures { result ≡ counted F.FiniteField.field (map H.Holding.held slots.now) }
{
    slots
        .iter()
        .rposition(|slot| H::load(*slot).code() != 0)
        .map_or(0, |last| last + 1)
}

// Writes zero to every place.
pub(crate) fn clear<F: FiniteField, H: Holding<F>>(slots: &mut [H::Slot])
    ensures { Null F.FiniteField.field (map H.Holding.held slots.new) }
{
    slots.fill_with(|| H::store(F::zero()));
}
