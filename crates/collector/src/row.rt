// Rows, of several kinds: vectors over a field of scalars.
ghost use Rattle.std.specs.Prelude.{◌≡◌, ◌^◌, ◌<◌};
ghost use Rattle.linear.specs.Rows.{Rows, RowLaws};

use field::FiniteField;

// A kind of row.
pub(crate) trait Row: Copy {
    type Scalar: FiniteField;

    ghost rows: { Rows Self.Scalar Self };

    fn width() -> usize
        ensures { result ≡ rows.width };

    fn plus(self, other: Self) -> Self
        ensures { result ≡ rows.plus self other };

    fn scaled(self, scalar: Self::Scalar) -> Self
        ensures { result ≡ rows.times scalar self };

    fn coordinate(self, i: usize) -> Self::Scalar
        ensures { result ≡ rows.coord self i };

    ghost laws: { RowLaws Self.Scalar.field rows };

    ghost narrow: { rows.width < 2 ^ 64 };
}
