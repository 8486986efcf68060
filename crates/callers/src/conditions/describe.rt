//! Describes a key of a manifest in one line.

ghost use Rattle.std.specs.Prelude.{IfOk, map, string_bytes};
ghost use Rattle.cargo_platform.specs.Trees.{value_of};
ghost use Rattle.cargo_platform.specs.Facts.{fact_set};
ghost use Rattle.callers.specs.Reports.{IsLineOn};

use cargo_platform::{Cfg, Platform, ReadError};
use std::alloc::{AllocError, Global};

/// Returns the canonical form of a key, and whether it is true on a target, given by its name and facts; or the error
/// of the key.
pub fn describe(alloc: Global, key: &str, target: &str, facts: &[Cfg]) -> Result<String, AllocError>
    ensures { IfOk result
        (λ line. IsLineOn key.now target.now (fact_set (map value_of facts.now)) (string_bytes line)) }
{
    match Platform::from_str(alloc, key) {
        Ok(platform) => {
            let applies = platform.matches(target, facts);
            format!(in alloc; "{platform}: {applies}")
        }
        Err(ReadError::Parse(error)) => format!(in alloc; "{error}"),
        Err(ReadError::Memory(error)) => Err(error),
    }
}
