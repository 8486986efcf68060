//! A reader with an error type of its own, which has the line of the key.

ghost use Rattle.std.specs.Prelude.{◌≡◌, IfOk, IfErr};
ghost use Rattle.cargo_platform.specs.Trees.{Condition, condition_of};
ghost use Rattle.cargo_platform.specs.Platforms.{IsConditionText};
ghost use Rattle.callers.specs.OwnError.{IsErrorOf};

use cargo_platform::{ParseError, Platform, ReadError};
use std::alloc::{AllocError, Global};
use std::fmt;

/// The reason why a manifest is rejected.
#[derive(Debug, Drop)]
pub enum ManifestError {
    /// The key of a target's table is rejected.
    Key {
        /// The line number of the key.
        line: usize,
        /// The error of the key.
        error: ParseError,
    },
    /// An allocation failed.
    Memory(AllocError),
}

impl fmt::Display for ManifestError {
    ghost use Rattle.callers.specs.OwnError.{print_manifest_error};

    ghost output = { λ e. print_manifest_error e };

    fn fmt<W: fmt::Write>(&self, f: &mut fmt::Formatter<W>) -> fmt::Result {
        match self {
            ManifestError::Key { line, error } => write!(f, "Cargo.toml:{line}: {error}"),
            ManifestError::Memory(error) => write!(f, "{error}"),
        }
    }
}

/// Parses the key in this line. A key is rejected only if it is not a condition.
pub fn read_key(alloc: Global, line: usize, key: &str) -> Result<Platform, ManifestError>
    ensures read { IfOk result (λ p. IsConditionText key.now (condition_of p)) }
    ensures refused { IfErr result (IsErrorOf line key.now) }
{
    match Platform::from_str(alloc, key) {
        Ok(platform) => Ok(platform),
        Err(ReadError::Parse(error)) => Err(ManifestError::Key { line, error }),
        Err(ReadError::Memory(error)) => Err(ManifestError::Memory(error)),
    }
}
