// Polynomials of interpolation, their coefficients held as codes.
ghost use Rattle.std.specs.Prelude.{◌≡◌, ℕ, ◌+◌, ◌<◌, ◌≤◌, ◌⊎◌, [], ◌∷◌, length, map};
ghost use Rattle.field.specs.Alphabet.{alphabet};
ghost use Rattle.linearized.specs.Polynomials.{at, value};
ghost use Rattle.linearized.specs.Coefficients.{IsNegative};
ghost use Rattle.subspace_code.specs.Holding.{held_code};
ghost use Rattle.collector.specs.Interpolation.{room, mixed, shifted};

use crate::scalar::is_zero;
use field::{FiniteField, SymbolField};
use std::marker::{Model, PhantomData};
use subspace_code::evaluation::evaluate;
use subspace_code::holding::{AsCodes, Holding};

// Room for a polynomial's coefficients: 32 packets raise the degrees by 32, from 15 together at most.
pub(crate) const PLACES: usize = 48;

// The first codes are those of the coefficients, the codes after them are 0.
#[derive(Drop)]
pub(crate) struct Polynomial<F: SymbolField> {
    codes: [u32; PLACES],
    places: usize,
    of: PhantomData<F>,
}

// A contract sees the list of the coefficients.
impl<F: SymbolField> Model for Polynomial<F> {
    ghost use Rattle.std.specs.Prelude.{◌≡◌, ℕ, ◌≤◌, List, map, take, slice_index_or};
    ghost use Rattle.subspace_code.specs.Holding.{held_code};
    ghost use Rattle.collector.specs.Interpolation.{room};

    ghost Value = { List F };

    ghost view = { λ f. map (held_code F.FiniteField) (take f.places f.codes) };

    ghost invariant = { λ f. (f.places ≤ room) × ((n : ℕ) → f.places ≤ n → slice_index_or f.codes n 0 ≡ 0) };
}

impl<F: SymbolField> Polynomial<F> {
    // Zero, without a coefficient.
    pub(crate) fn zero() -> Self
        ensures { result ≡ [] }
    {
        Polynomial {
            codes: [0; PLACES],
            places: 0,
            of: PhantomData,
        }
    }

    // The variable alone.
    pub(crate) fn variable() -> Self
        ensures { result ≡ F.FiniteField.field.one ∷ [] }
    {
        let mut codes = [0; PLACES];
        codes[0] = AsCodes::store(F::one());
        Polynomial {
            codes,
            places: 1,
            of: PhantomData,
        }
    }

    // The codes of the coefficients.
    pub(crate) fn codes(&self) -> &[u32]
        ensures codes { map (held_code F.FiniteField) result.now ≡ self.now }
        ensures few { length result.now ≤ room }
    {
        &self.codes[..self.places]
    }

    // f(x) for this f.
    pub(crate) fn value(&self, x: F) -> F
        ensures { result ≡ value (alphabet F.Scalar.FiniteField F.SymbolField) self.now x }
    {
        evaluate::<F, AsCodes>(self.codes(), x)
    }

    // a times this polynomial plus b times the other, in place of this one.
    pub(crate) fn mix(&mut self, a: F, other: &Polynomial<F>, b: F)
        ensures mixed { (n : ℕ) → at F.FiniteField.field self.new n ≡ mixed (alphabet F.Scalar.FiniteField F.SymbolField) a self.old b other.now n }
        ensures places { (n : ℕ) → length self.old ≤ n → (b ≡ F.FiniteField.field.zero) ⊎ (length other.now ≤ n) → length self.new ≤ n }
    {
        if !is_zero(b) {
            self.places = self.places.max(other.places);
        }
        for (i, slot) in self.codes[..self.places].iter_mut().enumerate() {
            let left: F = AsCodes::load(*slot);
            let right: F = AsCodes::load(other.codes[i]);
            *slot = AsCodes::store(a.times(left).plus(b.times(right)));
        }
    }

    // raise(f) + c f in place of this f; zero stays without a coefficient.
    pub(crate) fn shift(&mut self, c: F)
        requires { length self.old < room }
        ensures shifted { (n : ℕ) → at F.FiniteField.field self.new n ≡ shifted (alphabet F.Scalar.FiniteField F.SymbolField) c self.old n }
        ensures places { length self.new ≤ length self.old + 1 }
    {
        if self.places == 0 {
            return;
        }
        self.places += 1;
        let mut before = F::zero();
        for slot in self.codes[..self.places].iter_mut() {
            let here: F = AsCodes::load(*slot);
            *slot = AsCodes::store(before.raise().plus(c.times(here)));
            before = here;
        }
    }

    // −f in place of this f.
    pub(crate) fn negate(&mut self)
        ensures { IsNegative F.FiniteField.field self.old self.new }
    {
        for slot in self.codes[..self.places].iter_mut() {
            let here: F = AsCodes::load(*slot);
            *slot = AsCodes::store(here.negative());
        }
    }
}
