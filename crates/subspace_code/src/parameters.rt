// The parameters of a code over F: a message has k symbols, a codeword ℓ packets.
ghost use Rattle.std.specs.Prelude.{◌≡◌, ◌≤◌, false, MatchOption};
ghost use Rattle.subspace_code.specs.Encoding.{fits};

use field::SymbolField;
use std::marker::PhantomData;

// 1 ≤ k ≤ ℓ ≤ m
#[derive(Drop)]
pub struct Parameters<F: SymbolField> {
    pub k: usize,
    pub l: usize,
    of: PhantomData<F>,
    pub ghost some: { 1 ≤ k },
    pub ghost ordered: { k ≤ l },
    pub ghost within: { l ≤ F.SymbolField.DEGREE },
}

impl<F: SymbolField> Parameters<F> {
    // Absent unless 1 ≤ k ≤ ℓ ≤ m.
    pub fn new(k: usize, l: usize) -> Option<Self>
        ensures { MatchOption result (fits k l F.SymbolField.DEGREE ≡ false) (λ p. (p.k ≡ k) × (p.l ≡ l)) }
    {
        if k < 1 || l < k || F::DEGREE < l {
            return None;
        }
        let of = PhantomData;
        Some(Parameters { k, l, of })
    }
}
