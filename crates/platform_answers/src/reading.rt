//! Reads the whole input within the limits.
ghost use Rattle.std.specs.Prelude.{◌≡◌, ◌≤◌, ℕ, List, IfOk, IsErrOf};
ghost use Rattle.platform_answers.specs.Counts.{reader_of, read_counts, no_reads};
ghost use Rattle.platform_answers.specs.Reading.{IsGathered, IsInput, HasReadFault, MayWantMemory, HadWholeRoom};

use crate::counted::is_interrupted;
use crate::{RunError, counted};
use std::alloc::Global;
use std::io::Read;

/// The maximum number of bytes of an input.
pub const MAX_BYTES: usize = 1_048_576;

/// The maximum number of reads.
pub const MAX_READS: u64 = 1_048_578;

/// The maximum number of bytes of one read.
const PIECE: usize = 4096;

/// The input that was read.
#[derive(Drop)]
pub enum ReadOutcome {
    /// All bytes up to the end.
    Whole(Vec<u8>),
    /// More bytes than an input can have.
    TooLong,
}

/// Reads to the end, or until the input is known to be too long, with room for 4,096 bytes each time. An interrupted
/// read is repeated.
///
/// # Errors
///
/// Returns `RunError::Read` if a read failed otherwise, or if the maximum number of reads returned neither the end nor
/// a byte too many. Returns `RunError::Memory` if there is no memory for the bytes.
pub fn read_input<R: Read>(
    alloc: Global,
    input: &mut counted::Input<R>,
) -> Result<ReadOutcome, RunError>
    requires { read_counts input.old ≡ no_reads }
    ensures brought { IfOk result (λ g. (bs : List ℕ) × IsGathered g bs
        × IsInput (R.remaining (reader_of input.old)) (R.remaining (reader_of input.new)) (read_counts input.new) bs) }
    ensures read { IsErrOf result RunError.Read → HasReadFault (read_counts input.new) }
    ensures within { (read_counts input.new).reads ≤ 1_048_578 }
    ensures memory { IsErrOf result RunError.Memory → MayWantMemory (read_counts input.new) }
    ensures room { HadWholeRoom (read_counts input.new) }
    ensures no_write { IsErrOf result RunError.Write → ⊥ }
{
    let mut bytes = Vec::new(alloc);
    let mut piece = [0u8; PIECE];
    for _turn in 0..MAX_READS {
        match input.read(&mut piece) {
            Ok(0) => return Ok(ReadOutcome::Whole(bytes)),
            Ok(n) => {
                if n > MAX_BYTES - bytes.len() {
                    return Ok(ReadOutcome::TooLong);
                }
                if bytes.extend_from_slice(&piece[..n]).is_err() {
                    return Err(RunError::Memory);
                }
            }
            Err(e) => {
                if !is_interrupted(&e) {
                    return Err(RunError::Read);
                }
            }
        }
    }
    Err(RunError::Read)
}
