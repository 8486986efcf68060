//! The input, the answers and the output of `platform_check`, over any reader and writer.
#![tactic(auto)]

ghost use Rattle.std.specs.Prelude.{◌≡◌, ◌≤◌, ℕ, List, IfOk, IsErrOf};
ghost use Rattle.platform_answers.specs.Counts.{reader_of, read_counts, writer_of, write_counts, no_reads, no_writes};
ghost use Rattle.platform_answers.specs.Reading.{IsInput, HasReadFault, MayWantMemory, HadWholeRoom};
ghost use Rattle.platform_answers.specs.Running.{Answers, BreaksOff};

pub mod answering;
pub mod counted;
mod evaluation;
pub mod laws;
mod printing;
pub mod reading;
pub mod writing;

use answering::Answer;
use std::alloc::Global;
use std::io::{Read, Write};

/// The outcome of a run.
#[derive(Clone, Copy, Debug, PartialEq, Eq)]
pub enum Outcome {
    /// The condition is true on the target.
    Match,
    /// The condition is false on the target.
    NoMatch,
    /// The input is not a query: it is too long or not UTF-8, or one of its lines is rejected.
    Refused,
}

/// The reason why a run has no outcome.
#[derive(Clone, Copy, Debug, PartialEq, Eq)]
pub enum RunError {
    Read,
    Write,
    Memory,
}

/// Reads the input to its end, or until it is known to be too long, writes the whole output, and flushes it once.
///
/// The input has at most 1,048,576 bytes of UTF-8 text, and a newline ends a line. Line 1 is a condition as a
/// dependency table of Cargo has it: a target's name, or `cfg(all(unix, target_os = "linux"))`. Line 2 is the name of
/// the target, taken as it is, and each further line is a fact of the target as `rustc --print cfg` prints it, such as
/// `unix` or `target_os="linux"`. A missing line is empty. See [platform specific
/// dependencies](https://doc.rust-lang.org/cargo/reference/specifying-dependencies.html#platform-specific-dependencies)
/// in Cargo's reference.
///
/// The output is a line `condition: ` with the condition in canonical form, a line `match: yes` or `match: no`, and for
/// each warning on the condition a line `warning: ` with its text, those on attributes first. If the input is rejected,
/// because it is too long, is not UTF-8 or has a line that cannot be parsed, the output is one line that says why; the
/// first such line counts.
///
/// Each read has room for 4,096 bytes. An interrupted read or write is repeated.
///
/// # Errors
///
/// Returns `RunError::Read` if a read failed otherwise, or if 1,048,578 reads returned neither the end nor a byte too
/// many. Returns `RunError::Write` if a write failed otherwise or took nothing, if one write more than the output has
/// bytes did not take all of it, or if the flush failed. Returns `RunError::Memory` if an allocation failed, for bytes
/// that were read or once the end was reached. After `Read` and `Memory` nothing was written, and after `Write` a
/// beginning of the output.
pub fn run<R: Read, W: Write>(
    alloc: Global,
    input: &mut counted::Input<R>,
    output: &mut counted::Output<W>,
) -> Result<Outcome, RunError>
    requires unread { read_counts input.old ≡ no_reads }
    requires unwritten { write_counts output.old ≡ no_writes }
    // With an outcome, the input was read to its end or is too long, and the output was written, then flushed once.
    // Interrupted calls were repeated, and nothing failed.
    ensures ran { IfOk result (λ outcome. (bs : List ℕ)
        × IsInput (R.remaining (reader_of input.old)) (R.remaining (reader_of input.new)) (read_counts input.new) bs
        × Answers (W.contents (writer_of output.old)) (W.contents (writer_of output.new)) (write_counts output.new)
        outcome bs) }
    // With `Write`, a beginning of the output was written. A write or the flush failed, or one write more than the
    // output has bytes was made, and more than one of the writes were interrupted.
    ensures write { IsErrOf result RunError.Write → (bs : List ℕ)
        × IsInput (R.remaining (reader_of input.old)) (R.remaining (reader_of input.new)) (read_counts input.new) bs
        × BreaksOff (W.contents (writer_of output.old)) (W.contents (writer_of output.new)) (write_counts output.new)
        bs }
    // With `Read`, a read failed, or the maximum of 1,048,578 reads returned neither the end nor a byte too many.
    ensures read { IsErrOf result RunError.Read → HasReadFault (read_counts input.new) }
    ensures within { (read_counts input.new).reads ≤ 1_048_578 }
    // After `Read` and `Memory` nothing was written.
    ensures read_silent { IsErrOf result RunError.Read → output.new ≡ output.old }
    // Each read has room for 4,096 bytes.
    ensures room { HadWholeRoom (read_counts input.new) }
    // With `Memory`, no read had failed, and some byte or the end had been read.
    ensures memory { IsErrOf result RunError.Memory → MayWantMemory (read_counts input.new) }
    // After `Read` and `Memory` nothing was written.
    ensures memory_silent { IsErrOf result RunError.Memory → output.new ≡ output.old }
{
    let gathered = reading::read_input(alloc, input)?;
    let Ok(Answer { text, outcome }) = answering::answer_to(alloc, gathered) else {
        return Err(RunError::Memory);
    };
    match writing::write_out(output, text.as_bytes()) {
        Ok(()) => Ok(outcome),
        Err(_) => Err(RunError::Write),
    }
}
