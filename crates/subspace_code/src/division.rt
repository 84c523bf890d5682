// Division of linearized polynomials: D = B(f) + R.
ghost use Rattle.std.specs.Prelude.{◌≡◌, ◌+◌, ◌<◌, ◌≤◌, map, length, Err};
ghost use Rattle.linear.specs.Field.{iterate};
ghost use Rattle.field.specs.Alphabet.{alphabet};
ghost use Rattle.linearized.specs.Polynomials.{counted, Divided};
ghost use Rattle.linearized.specs.Coefficients.{Same};
ghost use Rattle.linearized.specs.Division.{DivisionStep};
ghost use Rattle.answer.specs.declared.refusal.Refusal.{Refusal as RefusalOf};
ghost use Rattle.answer.specs.Refusals.{answered};
ghost use Rattle.subspace_code.specs.Dividing.{divide_refusal, Leading, TakenOff, DivideAnswer};

use crate::coefficients::{clear, counted_length};
use crate::holding::{AsSymbols, Holding};
use answer::refusal::Refusal;
use field::{FiniteField, SymbolField};

// A divisor's last non-zero coefficient: its place, its inverse, and how many raises undo as many raises as its place.
#[derive(Clone, Copy)]
struct Lead<F> {
    place: usize,
    inverse: F,
    raises: usize,
}

// x raised n times.
fn raised<F: SymbolField>(x: F, n: usize) -> F
    ensures { result ≡ iterate F.SymbolField.frobenius n x }
{
    let mut power = x;
    for _ in 0..n {
        power = power.raise();
    }
    power
}

// The lead of a divisor that is not zero.
fn lead_of<F: SymbolField, H: Holding<F>>(divisor: &[H::Slot]) -> Lead<F>
    requires { 0 < counted F.FiniteField.field (map H.Holding.held divisor.now) }
    ensures { Leading (alphabet F.Scalar.FiniteField F.SymbolField) (map H.Holding.held divisor.now) result }
{
    let place = counted_length::<F, H>(divisor) - 1;
    let inverse = H::load(divisor[place]).inverse().unwrap();
    let m = F::DEGREE;
    Lead {
        place,
        inverse,
        raises: (m - place % m) % m,
    }
}

// Takes off the remainder what the quotient's coefficient c at p brings to B(f): B_i times c raised i times, at p + i.
fn take_off<F: SymbolField, H: Holding<F>>(
    divisor: &[H::Slot],
    c: F,
    remainder: &mut [H::Slot],
    p: usize,
)
    requires { p + length divisor.now ≤ length remainder.old }
    ensures { TakenOff (alphabet F.Scalar.FiniteField F.SymbolField) (map H.Holding.held divisor.now) (map H.Holding.held remainder.old) (map H.Holding.held remainder.new) c p (length divisor.now) }
{
    let mut power = c;
    for (i, slot) in divisor.iter().enumerate() {
        let product = H::load(*slot).times(power);
        remainder[p + i] = H::store(H::load(remainder[p + i]).plus(product.negative()));
        power = power.raise();
    }
}

// Finds the quotient's coefficient at p, which cancels the top of the remainder.
fn step<F: SymbolField, H: Holding<F>>(
    divisor: &[H::Slot],
    lead: Lead<F>,
    quotient: &mut [H::Slot],
    remainder: &mut [H::Slot],
    p: usize,
)
    requires { (Leading (alphabet F.Scalar.FiniteField F.SymbolField) (map H.Holding.held divisor.now) lead) × ((p < length quotient.old) × (p + lead.place < length remainder.old)) }
    ensures { DivisionStep (alphabet F.Scalar.FiniteField F.SymbolField) (map H.Holding.held divisor.now) (map H.Holding.held quotient.old) (map H.Holding.held remainder.old) (map H.Holding.held quotient.new) (map H.Holding.held remainder.new) lead.place p }
{
    let top = H::load(remainder[p + lead.place]);
    let c = raised(lead.inverse.times(top), lead.raises);
    quotient[p] = H::store(c);
    take_off::<F, H>(&divisor[..=lead.place], c, remainder, p);
}

// Divides the remainder, which holds the dividend at first, by a divisor that is not zero.
fn divide_in_place<F: SymbolField, H: Holding<F>>(
    divisor: &[H::Slot],
    quotient: &mut [H::Slot],
    remainder: &mut [H::Slot],
)
    requires { (0 < counted F.FiniteField.field (map H.Holding.held divisor.now)) × (counted F.FiniteField.field (map H.Holding.held remainder.old) < length quotient.old + counted F.FiniteField.field (map H.Holding.held divisor.now)) }
    ensures { Divided (alphabet F.Scalar.FiniteField F.SymbolField) (map H.Holding.held remainder.old) (map H.Holding.held divisor.now) (map H.Holding.held quotient.new) (map H.Holding.held remainder.new) }
{
    let lead = lead_of::<F, H>(divisor);
    clear::<F, H>(quotient);
    let places = counted_length::<F, H>(remainder).saturating_sub(lead.place);
    for p in (0..places).rev() {
        step::<F, H>(divisor, lead, quotient, remainder, p);
    }
}

// Writes the coefficients to the output, and zero to the places after them.
fn copy<F: FiniteField, H: Holding<F>>(coefficients: &[H::Slot], output: &mut [H::Slot])
    requires { counted F.FiniteField.field (map H.Holding.held coefficients.now) ≤ length output.old }
    ensures { Same F.FiniteField.field (map H.Holding.held output.new) (map H.Holding.held coefficients.now) }
{
    let n = coefficients.len().min(output.len());
    let (front, rest) = output.split_at_mut(n);
    front.copy_from_slice(&coefficients[..n]);
    clear::<F, H>(rest);
}

// The refusals of a division, in the order of their numbers.
fn check(dividend: usize, divisor: usize, quotient: usize, remainder: usize) -> Result<(), Refusal>
    ensures { result ≡ answered (divide_refusal dividend divisor quotient remainder) tt }
{
    if quotient < dividend || remainder < dividend {
        return Err(Refusal::OutputShort);
    }
    if divisor == 0 {
        return Err(Refusal::DivisorZero);
    }
    Ok(())
}

// Divides D by B, however their coefficients are held: f to the quotient, R to the remainder, zero to the rest of both; answers
// the counted lengths of f and R.
pub fn divide_held<F: SymbolField, H: Holding<F>>(
    dividend: &[H::Slot],
    divisor: &[H::Slot],
    quotient: &mut [H::Slot],
    remainder: &mut [H::Slot],
) -> Result<(usize, usize), Refusal>
    ensures answer { DivideAnswer (alphabet F.Scalar.FiniteField F.SymbolField) (map H.Holding.held dividend.now) (map H.Holding.held divisor.now) (map H.Holding.held quotient.old) (map H.Holding.held remainder.old) (map H.Holding.held quotient.new) (map H.Holding.held remainder.new) result }
    ensures refused { (e : RefusalOf) → result ≡ Err e → (quotient.new ≡ quotient.old) × (remainder.new ≡ remainder.old) }
{
    check(
        counted_length::<F, H>(dividend),
        counted_length::<F, H>(divisor),
        quotient.len(),
        remainder.len(),
    )?;
    copy::<F, H>(dividend, remainder);
    divide_in_place::<F, H>(divisor, quotient, remainder);
    let found = counted_length::<F, H>(quotient);
    let left = counted_length::<F, H>(remainder);
    Ok((found, left))
}

// The same of coefficients that are symbols.
pub fn divide<F: SymbolField>(
    dividend: &[F],
    divisor: &[F],
    quotient: &mut [F],
    remainder: &mut [F],
) -> Result<(usize, usize), Refusal>
    ensures { DivideAnswer (alphabet F.Scalar.FiniteField F.SymbolField) dividend.now divisor.now quotient.old remainder.old quotient.new remainder.new result }
{
    divide_held::<F, AsSymbols>(dividend, divisor, quotient, remainder)
}
