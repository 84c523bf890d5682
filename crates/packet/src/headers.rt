// Packets with short headers: theory only.
ghost use Rattle.field.specs.Alphabet.{alphabet};
ghost use Rattle.packet.specs.Headers.{HeadersBound};

use field::{FiniteField, SymbolField};

// Packets with x codes below q^ℓ span packets with such codes only, in dimension at most ℓ + m.
pub fn headers_bound<F: SymbolField>()
    ensures { HeadersBound (alphabet F.Scalar.FiniteField F.SymbolField) }
{}
