// What came of the eight numbers of a log, by a session over the numbers' feeds.
ghost use Rattle.std.specs.Prelude.{◌≡◌, ℕ, ◌+◌, ◌<◌, ◌≤◌, List, length, IfOk, string_bytes};
ghost use Rattle.field.specs.Alphabet.{alphabet};
ghost use Rattle.packet.specs.declared.Packet.{Packet as PacketOf};
ghost use Rattle.collector.specs.Machine.{Machine, shut};
ghost use Rattle.collector.specs.Runs.{Represents};
ghost use Rattle.feed.specs.Feeds.{feed_limit};
ghost use Rattle.log_feed.specs.Numbered.{log_packets};
ghost use Rattle.sheet.specs.Sheets.{NumbersText};
ghost use Rattle.sheet.specs.Outcomes.{taken, passed, Standing, NumberDone};

use crate::log::Log;
use crate::writing::write_number;
use answer::refusal::Refusal;
use answer::{Drained, Solved};
use collector::session::Session;
use feed::Feed;
use field::{FiniteField, SymbolField};
use log_feed::LogFeed;
use packet::Packet;
use portal_log::name::LogField;
use std::alloc::{AllocError, Global};
use subspace_code::parameters::Parameters;

// The lines of all eight numbers, and how many packets were kept and passed over.
#[derive(Drop)]
pub(crate) struct Numbers {
    pub(crate) text: String,
    pub(crate) taken: usize,
    pub(crate) passed: usize,
}

// What came of a number: the answers of drain and solve, and how many packets were kept and passed over.
#[derive(Clone, Copy)]
struct Outcome {
    drained: Result<Drained, Refusal>,
    solved: Result<Solved, Refusal>,
    counted: Drained,
}

// Opens a shut number, drains the log's packets of it and solves it.
fn collect_number<F: LogField>(
    session: &mut Session,
    rows: &mut [Packet<F>],
    log: &Log<'_, F>,
    number: u8,
    message: &mut [F],
) -> Outcome
    requires below { number < 8 }
    requires stands { Standing (alphabet F.Scalar.FiniteField F.SymbolField) number (record { session = session.now; rows = rows.old }) }
    ensures done { (k ℓ : ℕ) (later : List (PacketOf F)) (m : Machine F) → Represents (alphabet F.Scalar.FiniteField F.SymbolField) k ℓ later (record { session = session.entry.now; rows = rows.old }) m → m number ≡ shut → NumberDone (alphabet F.Scalar.FiniteField F.SymbolField) k ℓ later m number (log_packets (alphabet F.Scalar.FiniteField F.SymbolField) F.LogField.FIELD_NAME number log.now.bytes.now) (record { drain = result.drained; output = message.old; written = message.new; solve = result.solved }) (record { session = session.exit.now; rows = rows.new }) }
    ensures taken { result.counted.kept ≡ taken result.drained }
    ensures passed { result.counted.passed ≡ passed (length (log_packets (alphabet F.Scalar.FiniteField F.SymbolField) F.LogField.FIELD_NAME number log.now.bytes.now)) result.drained }
    ensures few { result.counted.kept + result.counted.passed ≤ feed_limit }
{
    let mut feed = LogFeed::<F>::new(log.bytes, number).unwrap();
    session.open(rows, number).unwrap();
    let many = feed.len();
    let drained = session.drain(rows, number, &mut feed);
    let solved = session.solve(rows, number, message);
    let counted = drained.unwrap_or(Drained {
        kept: 0,
        passed: many,
    });
    Outcome {
        drained,
        solved,
        counted,
    }
}

// Runs a session over the packets of each number in a log, and writes down what came of it.
pub(crate) fn numbers_text<F: LogField>(
    heap: Global,
    log: &Log<'_, F>,
) -> Result<Numbers, AllocError>
    ensures { IfOk result (λ n. NumbersText (alphabet F.Scalar.FiniteField F.SymbolField) F.LogField.FIELD_NAME log.now.parameters.k log.now.parameters.l log.now.bytes.now (string_bytes n.text) n.taken n.passed) }
{
    let Parameters { k, l, .. } = log.parameters;
    let mut rows = vec![in heap; Packet::zero(); 8 * (l + F::DEGREE)]?;
    let mut message = vec![in heap; F::zero(); k]?;
    let rows = &mut rows[..];
    let message = &mut message[..];
    let mut session = Session::start(k, l, rows).unwrap();
    let mut text = String::new(heap);
    let mut taken = 0;
    let mut passed = 0;
    for number in 0..8 {
        let outcome = collect_number(&mut session, rows, log, number, message);
        write_number(&mut text, number, message, outcome.drained, outcome.solved)?;
        taken += outcome.counted.kept;
        passed += outcome.counted.passed;
    }
    Ok(Numbers {
        text,
        taken,
        passed,
    })
}
