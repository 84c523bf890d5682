// Values of linearized polynomials, however their coefficients are held.
ghost use Rattle.std.specs.Prelude.{◌≡◌, map};
ghost use Rattle.field.specs.Alphabet.{alphabet};
ghost use Rattle.linearized.specs.Polynomials.{value};

use crate::holding::Holding;
use field::{FiniteField, SymbolField};

// f(x) for the polynomial with these coefficients.
pub fn evaluate<F: SymbolField, H: Holding<F>>(coefficients: &[H::Slot], x: F) -> F
    ensures { result ≡ value (alphabet F.Scalar.FiniteField F.SymbolField) (map H.Holding.held coefficients.now) x }
{
    let mut sum = F::zero();
    let mut power = x;
    for slot in coefficients {
        sum = sum.plus(H::load(*slot).times(power));
        power = power.raise();
    }
    sum
}
