// Lines of a sheet, written at the end of a text.
ghost use Rattle.std.specs.Prelude.{◌≡◌, ◌++◌, IfOk, OnOk, Ok, string_bytes};
ghost use Rattle.field.specs.Alphabet.{alphabet};
ghost use Rattle.sheet.specs.Sheets.{refused_text, dimension_of, refused_line, solve_line, number_line};

use answer::refusal::Refusal;
use answer::{Drained, Solved};
use field::{FiniteField, SymbolField};
use portal_log::code::Code;
use portal_log::name::LogField;
use std::alloc::{AllocError, Global};

// The whole sheet of a log that is refused.
pub(crate) fn refused_text(heap: Global, refusal: Refusal) -> Result<String, AllocError>
    ensures { IfOk result (λ t. string_bytes t ≡ refused_text refusal) }
{
    format!(in heap; "X,{}\n", refusal.number())
}

// The dimension that a refusal of solve comes with.
fn dimension_of(refusal: Refusal) -> usize
    ensures { result ≡ dimension_of refusal }
{
    match refusal {
        Refusal::DimensionLow(r) | Refusal::DimensionHigh(r) | Refusal::NoneNear(r) => r,
        _ => 0,
    }
}

// The line of a number whose packets gave no block.
fn write_refused(
    text: &mut String,
    number: u8,
    taken: usize,
    dimension: usize,
    refusal: Refusal,
) -> Result<(), AllocError>
    ensures { OnOk result (string_bytes text.new ≡ string_bytes text.old ++ refused_line number taken dimension refusal) }
{
    writeln!(text, "N,{number},{taken},{dimension},{}", refusal.number())
}

// The line of a number whose packets gave a block.
fn write_solved<F: LogField>(
    text: &mut String,
    number: u8,
    taken: usize,
    solved: Solved,
    message: &[F],
) -> Result<(), AllocError>
    ensures { OnOk result (string_bytes text.new ≡ string_bytes text.old ++ solve_line (alphabet F.Scalar.FiniteField F.SymbolField) F.LogField.FIELD_NAME number taken message.now (Ok solved)) }
{
    let Solved {
        dimension,
        lost,
        foreign,
        faults,
    } = solved;
    write!(
        text,
        "S,{number},{taken},{dimension},{lost},{foreign},{faults}"
    )?;
    for symbol in message {
        write!(text, ",{}", Code(*symbol))?;
    }
    writeln!(text)
}

// The line of a number: none where no packet was taken.
pub(crate) fn write_number<F: LogField>(
    text: &mut String,
    number: u8,
    message: &[F],
    drained: Result<Drained, Refusal>,
    solved: Result<Solved, Refusal>,
) -> Result<(), AllocError>
    ensures { OnOk result (string_bytes text.new ≡ string_bytes text.old ++ number_line (alphabet F.Scalar.FiniteField F.SymbolField) F.LogField.FIELD_NAME number message.now drained solved) }
{
    match (drained, solved) {
        (Err(refusal), _) => write_refused(text, number, 0, 0, refusal),
        (Ok(Drained { kept: 0, .. }), _) => Ok(()),
        (Ok(Drained { kept, .. }), Ok(solved)) => {
            write_solved(text, number, kept, solved, message)
        }
        (Ok(Drained { kept, .. }), Err(refusal)) => {
            write_refused(text, number, kept, dimension_of(refusal), refusal)
        }
    }
}
