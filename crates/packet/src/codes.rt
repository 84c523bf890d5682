// Packets by the codes of their symbols.
ghost use Rattle.std.specs.Prelude.{◌≡◌};
ghost use Rattle.packet.specs.Packets.{packet_of_codes};

use crate::Packet;
use field::FiniteField;

impl<F: FiniteField> Packet<F> {
    // Absent exactly where one of the codes is from the field's size on.
    pub fn from_codes(x: u32, y: u32) -> Option<Packet<F>>
        ensures { result ≡ packet_of_codes F.size F.element x y }
    {
        Some(Packet {
            x: F::from_code(x)?,
            y: F::from_code(y)?,
        })
    }
}
