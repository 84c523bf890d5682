// The check that rows are a window: reduced, with short headers, and then zeros.
ghost use Rattle.std.specs.Prelude.{◌≡◌, ◌^◌, ◌<◌, ◌≤◌, true, ◌↔◌};
ghost use Rattle.linear.specs.Span.{Each};
ghost use Rattle.linear.specs.Reduced.{Reduced};
ghost use Rattle.field.specs.Alphabet.{alphabet};
ghost use Rattle.collector.specs.Windows.{PacketWindow};

use crate::adding::leading;
use crate::row::Row;
use crate::scalar::{is_one, is_zero};
use field::{FiniteField, SymbolField};
use packet::Packet;
use subspace_code::parameters::Parameters;

// Whether every row is zero at place p.
fn zero_at<R: Row>(rows: &[R], p: usize) -> bool
    ensures { (result ≡ true) ↔ Each (λ v. R.rows.coord v p ≡ R.Scalar.field.zero) rows.now }
{
    rows.iter().all(|row| is_zero(row.coordinate(p)))
}

pub(crate) fn is_reduced<R: Row>(rows: &[R]) -> bool
    ensures { (result ≡ true) ↔ Reduced R.Scalar.field R.rows rows.now }
{
    let mut from = 0;
    for (k, row) in rows.iter().enumerate() {
        let p = leading(*row, 0);
        if p < from || !is_one(row.coordinate(p)) || !zero_at(&rows[..k], p) {
            return false;
        }
        from = p + 1;
    }
    true
}

// Whether every row is zero.
fn all_zero<R: Row>(rows: &[R]) -> bool
    ensures { (result ≡ true) ↔ Each (λ v. v ≡ R.rows.none) rows.now }
{
    let width = R::width();
    rows.iter().all(|row| leading(*row, 0) == width)
}

// q^ℓ.
pub(crate) fn header_limit<F: SymbolField>(parameters: &Parameters<F>) -> u32
    ensures { result ≡ F.SymbolField.ORDER ^ parameters.now.l }
{
    F::ORDER.pow(parameters.l as u32)
}

// Whether the x code of every packet is below the limit.
fn headers_below<F: SymbolField>(packets: &[Packet<F>], limit: u32) -> bool
    ensures { (result ≡ true) ↔ Each (λ p. F.FiniteField.code p.x < limit) packets.now }
{
    packets.iter().all(|packet| packet.x.code() < limit)
}

// Whether the packets are a window of this dimension with x codes below q^ℓ.
pub(crate) fn is_window<F: SymbolField>(
    parameters: &Parameters<F>,
    packets: &[Packet<F>],
    dim: usize,
) -> bool
    ensures { (result ≡ true) ↔ PacketWindow (alphabet F.Scalar.FiniteField F.SymbolField) parameters.now.l dim packets.now }
{
    let Some((first, rest)) = packets.split_at_checked(dim) else {
        return false;
    };
    is_reduced(first) && all_zero(rest) && headers_below(packets, header_limit(parameters))
}
