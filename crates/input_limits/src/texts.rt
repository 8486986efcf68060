//! Reads texts up to a limit, so that an endless input is rejected.

ghost use Rattle.std.specs.Prelude.{◌≡◌, ◌≤◌, IfOk, IfErr, IfSome, Some, string_len, string_bytes};
ghost use Rattle.std.specs.IoError.{error_kind};
ghost use Rattle.input_limits.specs.Marks.{IsUnmarked};
ghost use Rattle.input_limits.specs.Refusals.{IsWhyNoText, IsReason};

use std::alloc::{AllocError, Global};
use std::fs::File;
use std::io::{self, ErrorKind, Read};
use std::rt::Files;

/// The greatest number of bytes of an input, unless another limit is given: 64 MiB.
pub const DEFAULT_LIMIT: u64 = 67_108_864;

/// The path that means standard input.
pub const STDIN_PATH: &str = "-";

/// An input that can't be used, and the reason, both as they are printed.
#[derive(Drop)]
pub struct InputError {
    /// The file, or `None` if the reason is about no file.
    pub file: Option<String>,
    pub reason: String,
}

impl InputError {
    /// Creates the error for a file that was read to this limit and rejected. `file` is its name as it is printed.
    pub fn refused(
        alloc: Global,
        file: String,
        error: &io::Error,
        limit: u64,
    ) -> Result<InputError, AllocError>
        ensures file { IfOk result (λ unusable. unusable.file ≡ Some file) }
        ensures reason { IfOk result
            (λ unusable. IsReason (error_kind error.now) limit (string_bytes unusable.reason)) }
    {
        Ok(InputError {
            file: Some(file),
            reason: reason_of(alloc, error, limit)?,
        })
    }

    /// Returns the message, as one line.
    pub fn line(&self, alloc: Global) -> Result<String, AllocError> {
        let reason = self.reason.as_str();
        match &self.file {
            Some(file) => {
                let file = file.as_str();
                format!(in alloc; "{file}: error: {reason}\n")
            }
            None => format!(in alloc; "error: {reason}\n"),
        }
    }
}

/// Returns the bytes as a text. Fails if there are more than the limit, and else if they are not UTF-8.
fn text_of(bytes: Vec<u8>, limit: u64) -> io::Result<String>
    ensures text { IfOk result (λ text. string_bytes text ≡ bytes.items) }
    ensures within { IfOk result (λ text. string_len text ≤ limit) }
    ensures refused { IfErr result (λ e. IsWhyNoText bytes.items limit (error_kind e)) }
{
    if bytes.len() as u64 > limit {
        return Err(io::Error::from(ErrorKind::FileTooLarge));
    }
    match String::from_utf8(bytes) {
        Ok(text) => Ok(text),
        Err(_) => Err(io::Error::from(ErrorKind::InvalidData)),
    }
}

/// Reads the whole text of a reader. Fails if it has more bytes than the limit, is not UTF-8, or can't be read.
pub fn read_text<R: Read + Drop>(alloc: Global, reader: R, limit: u64) -> io::Result<String>
    ensures within { IfOk result (λ text. string_len text ≤ limit) }
    ensures whole { IfOk result (λ text. IfSome (R.remaining reader) (λ left. string_bytes text ≡ left)) }
{
    let limit = limit.min(u64::MAX - 1);
    let mut bytes = Vec::new(alloc);
    let mut start = reader.take(limit + 1);
    let _count = start.read_to_end(&mut bytes)?;
    text_of(bytes, limit)
}

/// Reads the file at a path as `read_text` does.
pub fn read_file<R: Files + AllocGlobal>(rt: &R, path: &str, limit: u64) -> io::Result<String>
    ensures { IfOk result (λ text. string_len text ≤ limit) }
{
    read_text(rt.alloc(), File::open(rt, path)?, limit)
}

/// Reads the file at a path, or standard input if the path is `-`, as `read_text` does.
pub fn read_input<R: Files + Input + AllocGlobal>(
    rt: &R,
    path: &str,
    limit: u64,
) -> io::Result<String>
    ensures { IfOk result (λ text. string_len text ≤ limit) }
{
    if path == STDIN_PATH {
        read_text(rt.alloc(), rt.reader(), limit)
    } else {
        read_file(rt, path, limit)
    }
}

/// Returns the text without a byte order mark, which some editors write before it.
pub fn strip_byte_order_mark(text: &str) -> &str
    ensures { IsUnmarked text.now result.now }
{
    match text.strip_prefix("\u{FEFF}") {
        Some(rest) => rest,
        None => text,
    }
}

/// Returns the reason why a text was rejected that was read to this limit.
pub fn reason_of(alloc: Global, error: &io::Error, limit: u64) -> Result<String, AllocError>
    ensures { IfOk result (λ text. IsReason (error_kind error.now) limit (string_bytes text)) }
{
    match error.kind() {
        ErrorKind::FileTooLarge => {
            format!(in alloc; "it has more than {limit} bytes, which is the limit")
        }
        ErrorKind::InvalidData => String::from_str(alloc, "it is not valid UTF-8"),
        _ => format!(in alloc; "{error}"),
    }
}
