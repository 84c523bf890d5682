// How a coefficient is held: as a symbol, or as the code of one.
ghost use Rattle.std.specs.Prelude.{◌≡◌};
ghost use Rattle.subspace_code.specs.Holding.{held_code};

use field::FiniteField;

// A way to hold symbols of F in slots.
pub trait Holding<F> {
    type Slot: Copy;

    ghost held: { Self.Slot → F };

    fn load(slot: Self::Slot) -> F
        ensures { result ≡ held slot };

    fn store(x: F) -> Self::Slot
        ensures { held result ≡ x };
}

// Slots that are symbols.
pub struct AsSymbols;

// Slots that are codes; a number from the field's size on stands for zero.
pub struct AsCodes;

impl<F: FiniteField> Holding<F> for AsSymbols {
    type Slot = F;

    ghost held = { λ x. x };

    fn load(slot: F) -> F {
        slot
    }

    fn store(x: F) -> F {
        x
    }
}

impl<F: FiniteField> Holding<F> for AsCodes {
    type Slot = u32;

    ghost held = { held_code F.FiniteField };

    fn load(slot: u32) -> F {
        F::from_code(slot).unwrap_or(F::zero())
    }

    fn store(x: F) -> u32 {
        x.code()
    }
}
