//! Inputs, read up to the limit of the option `--limit`.

use cargo_platform::printable_text;
use clap::ArgMatches;
use input_limits::{DEFAULT_LIMIT, InputError, read_file, read_input};
use key_answers::answer::QueryError;
use std::alloc::{AllocError, Global};
use std::io::{self, ErrorKind};
use std::rt::Files;

/// Returns the number of bytes that an input may have.
pub fn limit_of(matches: &ArgMatches<'_>) -> u64 {
    matches.get_one::<u64>("limit").unwrap_or(DEFAULT_LIMIT)
}

/// Returns a message without `FILE: ` and `error: ` at its beginning, and without the line end.
pub fn bare_message<'a>(message: &'a str, file: &str) -> &'a str {
    let message = message.strip_suffix("\n").unwrap_or(message);
    let behind = message.strip_prefix(file).unwrap_or(message);
    let reason = behind.strip_prefix(": ").unwrap_or(behind);
    reason.strip_prefix("error: ").unwrap_or(reason)
}

/// Returns the text of a file that was read up to this limit, or the error that says why there is none.
fn text_read(
    alloc: Global,
    file: &str,
    read: io::Result<String>,
    limit: u64,
) -> Result<String, QueryError> {
    match read {
        Ok(text) => Ok(text),
        Err(error) => {
            if error.kind() == ErrorKind::OutOfMemory {
                return Err(QueryError::Memory(AllocError));
            }
            let unusable = InputError::refused(alloc, printable_text(alloc, file)?, &error, limit)?;
            Err(QueryError::Unusable(unusable.line(alloc)?))
        }
    }
}

/// Reads a file, or standard input if its name is `-`. Fails if it has more bytes than the limit.
pub fn read_input_text<R: Files + Input + AllocGlobal>(
    rt: &R,
    file: &str,
    limit: u64,
) -> Result<String, QueryError> {
    text_read(rt.alloc(), file, read_input(rt, file, limit), limit)
}

/// Reads a file. Fails if it has more bytes than the limit.
pub fn read_file_text<R: Files + AllocGlobal>(
    rt: &R,
    file: &str,
    limit: u64,
) -> Result<String, QueryError> {
    text_read(rt.alloc(), file, read_file(rt, file, limit), limit)
}
