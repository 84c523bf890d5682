// Runs each field's arithmetic along a chain of pseudo-random symbols, and prints where it ends.
// Arguments: how many steps, and the name of a field where only one is wanted; an empty name stands for all.
#![tactic(auto)]

ghost use Rattle.std.specs.Prelude.{◌≡◌, ◌^◌};

use field::nibble::Nibble;
use field::octet::Octet;
use field::word::Word;
use field::{FiniteField, SymbolField};
use std::env;

// How many symbols there are.
fn size<F: SymbolField>() -> u32
    ensures { result ≡ F.ORDER ^ F.DEGREE }
{
    F::ORDER.pow(F::DEGREE as u32)
}

// x becomes the raise of x y + y, for one pseudo-random y after the other.
fn chain<F: SymbolField>(steps: u32) -> F {
    let size = size::<F>();
    let mut x = F::one();
    let mut seed: u32 = 1;
    for _ in 0..steps {
        seed = seed.wrapping_mul(1103515245).wrapping_add(12345);
        if let Some(y) = F::from_code((seed >> 4) % size) {
            x = x.times(y).plus(y).raise();
        }
    }
    x
}

// What is wanted of the run: how many steps, and of which field alone.
#[derive(Drop)]
struct Wanted {
    steps: u32,
    only: Option<String>,
}

impl Wanted {
    // The end of the chain and its inverse, by codes; an inverse that is absent prints as 0.
    fn show<F: SymbolField>(&self, rt: &HostRuntime, name: &str) -> anyhow::Result<()> {
        if self.only.as_ref().is_some_and(|only| only.as_str() != name) {
            return Ok(());
        }
        let x: F = chain(self.steps);
        let code = x.code();
        let inverse = x.inverse().map_or(0, |y| y.code());
        println!(rt; "{name} {code} {inverse}")?;
        Ok(())
    }
}

fn main(rt: HostRuntime) -> anyhow::Result<()> {
    let mut wanted = Wanted {
        steps: 1000,
        only: None,
    };
    for word in env::args(&rt)?.skip(1) {
        match word.parse() {
            Ok(n) => wanted.steps = n,
            Err(_) => wanted.only = Some(word).filter(|name| !name.is_empty()),
        }
    }
    wanted.show::<Octet>(&rt, "octet")?;
    wanted.show::<Word>(&rt, "word")?;
    wanted.show::<Nibble>(&rt, "nibble")
}
