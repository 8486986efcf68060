//! Writes the whole output within the limits.
ghost use Rattle.std.specs.Prelude.{◌≡◌, ◌≤◌, ◌+◌, IsErr, OnOk, OnErr, length};
ghost use Rattle.std.specs.Io.KnownBytes.{Appends};
ghost use Rattle.platform_answers.specs.Counts.{writer_of, write_counts, no_writes};
ghost use Rattle.platform_answers.specs.Writing.{failures, HasWriteFault, IsFlushed, IsWithinWrites, WritesBeginning};

use crate::counted;
use crate::counted::is_interrupted;
use std::io::Write;

/// The error of an output that was not taken as a whole, or not flushed.
#[derive(Clone, Copy, Debug, PartialEq, Eq)]
pub struct WriteError;

/// Writes until all is taken, with at most one write more than there are bytes. An interrupted write is repeated.
fn hand_over<W: Write>(output: &mut counted::Output<W>, text: &[u8]) -> Result<(), WriteError>
    requires { write_counts output.old ≡ no_writes }
    ensures written { OnOk result
        (Appends (W.contents (writer_of output.old)) (W.contents (writer_of output.new)) text.now) }
    ensures beginning { OnErr result
        (WritesBeginning (W.contents (writer_of output.old)) (W.contents (writer_of output.new)) text.now) }
    ensures unfailed { OnOk result (failures (write_counts output.new) ≡ 0) }
    ensures fault { IsErr result → HasWriteFault (write_counts output.new) (length text.now) }
    ensures within { (write_counts output.new).writes ≤ length text.now + 1 }
    ensures unflushed { (write_counts output.new).flushes ≡ 0 }
{
    let mut taken = 0usize;
    for _turn in 0..text.len() + 1 {
        if taken == text.len() {
            return Ok(());
        }
        match output.write(&text[taken..]) {
            Ok(0) => return Err(WriteError),
            Ok(n) => taken += n,
            Err(e) => {
                if !is_interrupted(&e) {
                    return Err(WriteError);
                }
            }
        }
    }
    if taken == text.len() {
        return Ok(());
    }
    Err(WriteError)
}

/// Writes all of the text, and flushes once.
///
/// # Errors
///
/// Returns `WriteError` if a write failed other than by an interruption or took nothing, if one write more than the
/// text has bytes did not take all of it, or if the flush failed.
pub fn write_out<W: Write>(output: &mut counted::Output<W>, text: &[u8]) -> Result<(), WriteError>
    requires { write_counts output.old ≡ no_writes }
    ensures written { OnOk result
        (Appends (W.contents (writer_of output.old)) (W.contents (writer_of output.new)) text.now) }
    ensures beginning { OnErr result
        (WritesBeginning (W.contents (writer_of output.old)) (W.contents (writer_of output.new)) text.now) }
    ensures unfailed { OnOk result (failures (write_counts output.new) ≡ 0) }
    ensures flushed { OnOk result (IsFlushed (write_counts output.new)) }
    ensures fault { IsErr result → HasWriteFault (write_counts output.new) (length text.now) }
    ensures within { IsWithinWrites (write_counts output.new) (length text.now) }
{
    hand_over(output, text)?;
    if output.flush().is_err() {
        return Err(WriteError);
    }
    Ok(())
}
