// Packets as rows: sum, scalar multiple and coordinates.
ghost use Rattle.std.specs.Prelude.{◌≡◌};
ghost use Rattle.field.specs.Alphabet.{alphabet};
ghost use Rattle.packet.specs.Packets.{packet_zero, packet_sum, packet_multiple, packet_coord};

use crate::Packet;
use field::{FiniteField, SymbolField};

impl<F: SymbolField> Packet<F> {
    pub fn zero() -> Packet<F>
        ensures { result ≡ packet_zero (alphabet F.Scalar.FiniteField F.SymbolField) }
    {
        let zero = F::zero();
        Packet { x: zero, y: zero }
    }

    pub fn plus(self, other: Packet<F>) -> Packet<F>
        ensures { result ≡ packet_sum (alphabet F.Scalar.FiniteField F.SymbolField) self other }
    {
        Packet {
            x: self.x.plus(other.x),
            y: self.y.plus(other.y),
        }
    }

    // Both symbols times the scalar.
    pub fn scaled(self, scalar: F::Scalar) -> Packet<F>
        ensures { result ≡ packet_multiple (alphabet F.Scalar.FiniteField F.SymbolField) scalar self }
    {
        let factor = F::from_scalar(scalar);
        Packet {
            x: factor.times(self.x),
            y: factor.times(self.y),
        }
    }

    // The coordinates of x, then those of y; zero from 2m on.
    pub fn coordinate(self, i: usize) -> F::Scalar
        ensures { result ≡ packet_coord (alphabet F.Scalar.FiniteField F.SymbolField) self i }
    {
        let m = F::DEGREE;
        if i < m {
            self.x.coordinate(i)
        } else {
            self.y.coordinate(i - m)
        }
    }
}
