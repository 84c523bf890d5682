// Packets as rows.
ghost use Rattle.field.specs.Alphabet.{alphabet};
ghost use Rattle.packet.specs.Packets.{packet_rows};
ghost use Rattle.packet.proofs.Packets.{packet_laws};
ghost use Rattle.std.proofs.Common.{rules};

use crate::row::Row;
use field::{FiniteField, SymbolField};
use packet::Packet;

impl<F: SymbolField> Row for Packet<F> {
    type Scalar = F::Scalar;

    ghost rows = { packet_rows (alphabet F.Scalar.FiniteField F.SymbolField) };

    ghost laws = { packet_laws (record { scalar_codes = F.Scalar.FiniteField.codes; codes = F.FiniteField.codes; extension = F.SymbolField.extension }) };

    ghost narrow = { Prim.search rules };

    fn width() -> usize {
        2 * F::DEGREE
    }

    fn plus(self, other: Packet<F>) -> Packet<F> {
        Packet::plus(self, other)
    }

    fn scaled(self, scalar: F::Scalar) -> Packet<F> {
        Packet::scaled(self, scalar)
    }

    fn coordinate(self, i: usize) -> F::Scalar {
        Packet::coordinate(self, i)
    }
}
