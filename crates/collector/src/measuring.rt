// Measuring: the dimension of what a message leaves of the packets taken.
ghost use Rattle.std.specs.Prelude.{◌≡◌, map};
ghost use Rattle.linear.specs.Span.{Span, IsDim};
ghost use Rattle.field.specs.Alphabet.{alphabet, symbol_rows};
ghost use Rattle.linearized.specs.Code.{residual};
ghost use Rattle.collector.specs.Interpolation.{polynomial};

use crate::adding::add_row;
use crate::code_row::CodeRow;
use field::{FiniteField, SymbolField};
use packet::Packet;
use subspace_code::evaluation::evaluate;
use subspace_code::holding::AsCodes;

// As many coordinates as a symbol has at most: symbols span no more dimensions.
const COORDINATES: usize = 16;

// y − f(x), as a row.
fn residual_row<F: SymbolField>(message: &[u32], packet: Packet<F>) -> CodeRow<F>
    ensures { result ≡ residual (alphabet F.Scalar.FiniteField F.SymbolField) (polynomial (alphabet F.Scalar.FiniteField F.SymbolField) message.now) packet }
{
    let value: F = evaluate::<F, AsCodes>(message, packet.x);
    CodeRow::new(packet.y.plus(value.negative()))
}

// The dimension of the residuals y − f(x) of the packets.
pub(crate) fn measure<F: SymbolField>(message: &[u32], packets: &[Packet<F>]) -> usize
    ensures { IsDim (symbol_rows (alphabet F.Scalar.FiniteField F.SymbolField)) (Span (symbol_rows (alphabet F.Scalar.FiniteField F.SymbolField)) (map (residual (alphabet F.Scalar.FiniteField F.SymbolField) (polynomial (alphabet F.Scalar.FiniteField F.SymbolField) message.now)) packets.now)) result }
{
    let mut rows = [CodeRow::new(F::zero()); COORDINATES];
    let mut dimension = 0;
    for packet in packets {
        let row = residual_row(message, *packet);
        dimension = add_row(&mut rows, dimension, row).dimension;
    }
    dimension
}
