// Row adding: rows in reduced form, changed in place, at every kind of row.
ghost use Rattle.std.specs.Prelude.{◌≡◌, ◌+◌, ◌<◌, ◌≤◌, ◌++◌, map, length, take, drop};
ghost use Rattle.std.specs.List.{insert as inserted};
ghost use Rattle.linear.specs.Rows.{minus, cleared};
ghost use Rattle.linear.specs.Span.{Span};
ghost use Rattle.linear.specs.Reduced.{Reduced};
ghost use Rattle.collector.specs.Places.{FirstFrom, Remains, Slot};
ghost use Rattle.collector.specs.Windows.{Window, Added};

use crate::row::Row;
use crate::scalar::is_zero;
use answer::Taken;
use field::FiniteField;

// The first place from `from` on at which the row is not zero, or the width.
pub(crate) fn leading<R: Row>(row: R, from: usize) -> usize
    requires { from ≤ R.rows.width }
    ensures { FirstFrom R.Scalar.field R.rows row from result }
{
    let width = R::width();
    (from..width)
        .find(|i| !is_zero(row.coordinate(*i)))
        .unwrap_or(width)
}

// `row` less `c` times `other`.
fn less<R: Row>(row: R, c: R::Scalar, other: R) -> R
    ensures { result ≡ minus R.Scalar.field R.rows row c other }
{
    row.plus(other.scaled(c.negative()))
}

// What is left of `row` when the reduced rows have taken what they lead.
fn remainder<R: Row>(rows: &[R], row: R) -> R
    requires { Reduced R.Scalar.field R.rows rows.now }
    ensures { Remains R.Scalar.field R.rows rows.now row result }
{
    let mut rest = row;
    let mut from = 0;
    for pivot in rows {
        let p = leading(*pivot, from);
        rest = less(rest, rest.coordinate(p), *pivot);
        from = p + 1;
    }
    rest
}

// How many of the reduced rows lead before place p.
fn slot<R: Row>(rows: &[R], p: usize) -> usize
    requires { Reduced R.Scalar.field R.rows rows.now }
    ensures { Slot R.Scalar.field R.rows rows.now p result }
{
    let mut from = 0;
    for (k, row) in rows.iter().enumerate() {
        let q = leading(*row, from);
        if p <= q {
            return k;
        }
        from = q + 1;
    }
    rows.len()
}

// Makes the rows zero at place p, where `unit` is one.
fn clear<R: Row>(rows: &mut [R], p: usize, unit: R)
    ensures { rows.new ≡ map (cleared R.Scalar.field R.rows unit p) rows.old }
{
    for row in rows.iter_mut() {
        *row = less(*row, row.coordinate(p), unit);
    }
}

// Puts `row` at place `at` among the first n rows, over the row after them.
fn insert<R: Copy>(rows: &mut [R], at: usize, n: usize, row: R)
    requires { (at ≤ n) × (n < length rows.old) }
    ensures { rows.new ≡ inserted (take n rows.old) at row ++ drop (n + 1) rows.old }
{
    rows[n] = row;
    rows[at..=n].rotate_right(1);
}

// Adds `row` to the span of a window of dimension `dim`. Answers the dimension, and whether it rose.
pub(crate) fn add_row<R: Row>(rows: &mut [R], dim: usize, row: R) -> Taken
    requires window { Window R.Scalar.field R.rows dim rows.old }
    requires room { (Span R.rows rows.old row → ⊥) → dim < length rows.old }
    ensures added { Added R.Scalar.field R.rows dim row rows.old rows.new result.dimension result.rose }
{
    let reduced = &rows[..dim];
    let rest = remainder(reduced, row);
    let p = leading(rest, 0);
    let Some(inverse) = rest.coordinate(p).inverse() else {
        return Taken {
            dimension: dim,
            rose: false,
        };
    };
    let unit = rest.scaled(inverse);
    let at = slot(reduced, p);
    clear(&mut rows[..at], p, unit);
    insert(rows, at, dim, unit);
    Taken {
        dimension: dim + 1,
        rose: true,
    }
}
