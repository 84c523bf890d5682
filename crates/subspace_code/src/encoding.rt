// Encoding: a block of k symbols becomes ℓ packets.
ghost use Rattle.std.specs.Prelude.{◌≡◌, ◌≤◌, ◌++◌, length, take, drop, Ok};
ghost use Rattle.linear.specs.Span.{Each};
ghost use Rattle.field.specs.Alphabet.{alphabet};
ghost use Rattle.linearized.specs.Code.{packets, Codeword};
ghost use Rattle.answer.specs.Refusals.{answered};
ghost use Rattle.subspace_code.specs.Encoding.{encode_refusal, encoded};

use crate::evaluation::evaluate;
use crate::holding::AsSymbols;
use crate::parameters::Parameters;
use answer::refusal::Refusal;
use field::{FiniteField, SymbolField};
use packet::Packet;

// What refuses a block past its parameters, in the order of the refusals' numbers.
fn check<F: SymbolField>(
    parameters: &Parameters<F>,
    symbols: usize,
    places: usize,
) -> Result<(), Refusal>
    ensures { result ≡ answered (encode_refusal F.SymbolField.DEGREE parameters.now.k parameters.now.l symbols places) tt }
{
    if places < parameters.l {
        return Err(Refusal::OutputShort);
    }
    if symbols != parameters.k {
        return Err(Refusal::MessageLength);
    }
    Ok(())
}

// Writes the packets of a block, as many as there are places.
fn write_packets<F: SymbolField>(message: &[F], output: &mut [Packet<F>])
    requires { length output.old ≤ F.SymbolField.DEGREE }
    ensures { output.new ≡ packets (alphabet F.Scalar.FiniteField F.SymbolField) (length output.old) message.now }
{
    let q = F::ORDER;
    let mut code: u32 = 1;
    for place in output.iter_mut() {
        let x = F::from_code(code).unwrap();
        let y = evaluate::<F, AsSymbols>(message, x);
        *place = Packet { x, y };
        code *= q;
    }
}

// The packets of a block: (b_i, f(b_i)) for i from 0 to ℓ − 1, to the first ℓ places of the output; later places stay.
pub fn encode<F: SymbolField>(
    k: usize,
    l: usize,
    message: &[F],
    output: &mut [Packet<F>],
) -> Result<(), Refusal>
    ensures answer { result ≡ answered (encode_refusal F.SymbolField.DEGREE k l (length message.now) (length output.old)) tt }
    ensures output { output.new ≡ encoded (alphabet F.Scalar.FiniteField F.SymbolField) (encode_refusal F.SymbolField.DEGREE k l (length message.now) (length output.old)) l message.now output.old }
    ensures codewords { result ≡ Ok tt → Each (Codeword (alphabet F.Scalar.FiniteField F.SymbolField) l message.now) (take l output.new) }
{
    let parameters = Parameters::<F>::new(k, l).ok_or(Refusal::Parameters)?;
    check(&parameters, message.len(), output.len())?;
    write_packets(message, &mut output[..l]);
    Ok(())
}
