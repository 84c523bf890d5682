// Decoding: from the packets of a space to the message within the radius, or to none.
ghost use Rattle.std.specs.Prelude.{◌≡◌, ◌+◌, ◌*◌, ◌<◌, ◌≤◌, ◌++◌, length, drop};
ghost use Rattle.linear.specs.Span.{Each, Span, IsDim};
ghost use Rattle.field.specs.Alphabet.{alphabet};
ghost use Rattle.packet.specs.Packets.{packet_rows};
ghost use Rattle.packet.specs.Headers.{HeaderBelow};
ghost use Rattle.collector.specs.Interpolation.{polynomial};
ghost use Rattle.collector.specs.Decoding.{Quotient, Decodes};

use crate::interpolation::{Pair, interpolate};
use crate::measuring::measure;
use crate::polynomial::PLACES;
use answer::Solved;
use field::{FiniteField, SymbolField};
use packet::Packet;
use subspace_code::division::divide_held;
use subspace_code::holding::{AsCodes, Holding};
use subspace_code::parameters::Parameters;

// The quotient of −Qx by Qy for a pair that vanishes on the packets; absent where Qy is zero.
fn quotient<F: SymbolField>(
    parameters: &Parameters<F>,
    packets: &[Packet<F>],
) -> Option<[u32; PLACES]>
    requires { length packets.now ≤ 32 }
    ensures { Quotient (alphabet F.Scalar.FiniteField F.SymbolField) parameters.now.k (length packets.now) (Span (packet_rows (alphabet F.Scalar.FiniteField F.SymbolField)) packets.now) result }
{
    let Pair { mut x, y, .. } = interpolate(parameters, packets);
    x.negate();
    let mut codes = [0; PLACES];
    let mut rest = [0; PLACES];
    divide_held::<F, AsCodes>(x.codes(), y.codes(), &mut codes, &mut rest).ok()?;
    Some(codes)
}

// Writes the symbols of the codes to the first places.
fn write<F: SymbolField>(codes: &[u32], output: &mut [F])
    requires { length codes.now ≤ length output.old }
    ensures { output.new ≡ polynomial (alphabet F.Scalar.FiniteField F.SymbolField) codes.now ++ drop (length codes.now) output.old }
{
    for (i, code) in codes.iter().enumerate() {
        output[i] = AsCodes::load(*code);
    }
}

// The message whose codeword space is within ℓ − k of the space of the packets, to the first k places of the output;
// absent where there is none. The quotient is a message only where its measure says so.
pub(crate) fn decode<F: SymbolField>(
    parameters: &Parameters<F>,
    packets: &[Packet<F>],
    output: &mut [F],
) -> Option<Solved>
    requires reach { length packets.now + parameters.now.k ≤ 2 * parameters.now.l }
    requires headers { Each (HeaderBelow (alphabet F.Scalar.FiniteField F.SymbolField) parameters.now.l) packets.now }
    requires dimension { IsDim (packet_rows (alphabet F.Scalar.FiniteField F.SymbolField)) (Span (packet_rows (alphabet F.Scalar.FiniteField F.SymbolField)) packets.now) (length packets.now) }
    requires room { parameters.now.k ≤ length output.old }
    ensures { Decodes (alphabet F.Scalar.FiniteField F.SymbolField) parameters.now.k parameters.now.l (Span (packet_rows (alphabet F.Scalar.FiniteField F.SymbolField)) packets.now) (length packets.now) output.old output.new result }
{
    let Parameters { k, l, .. } = *parameters;
    let codes = quotient(parameters, packets)?;
    let message = &codes[..k];
    let r = packets.len();
    let foreign = measure(message, packets);
    if r < 2 * foreign + k {
        return None;
    }
    let shared = r - foreign;
    let lost = l - shared;
    write(message, output);
    Some(Solved {
        dimension: r,
        lost,
        foreign,
        faults: lost + foreign,
    })
}
