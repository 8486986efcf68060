//! Shows a rejected key with carets under its error.

ghost use Rattle.std.specs.Prelude.{IfOk};
ghost use Rattle.callers.specs.Underline.{IsUnderlined};

use cargo_platform::{Platform, ReadError, laws};
use std::alloc::{AllocError, Global};

/// Returns two lines that show the error of a rejected key, or `None` if the key is a condition.
pub fn underlined(alloc: Global, key: &str) -> Result<Option<String>, AllocError>
    ensures { IfOk result (λ lines. IsUnderlined key.now lines) }
{
    laws::faults_are_in_keys();
    match Platform::from_str(alloc, key) {
        Ok(_platform) => Ok(None),
        Err(ReadError::Parse(error)) => error.snippet_in(alloc, key),
        Err(ReadError::Memory(error)) => Err(error),
    }
}
