//! Parses keys, unless they are nested too deeply for a stack of 8 MiB.

ghost use Rattle.std.specs.Prelude.{◌≡◌, IfOk, IfErr, IfSome, IfNone, string_bytes};
ghost use Rattle.cargo_platform.specs.Trees.{condition_of};
ghost use Rattle.cargo_platform.specs.Platforms.{IsConditionText};
ghost use Rattle.input_limits.specs.Limits.{IsDeepAt, IsShallow, IsWhyUnread, too_deep_message};

use cargo_platform::{ParseError, Platform, ReadError, nesting_beyond};
use std::alloc::{AllocError, Global};

/// The greatest depth to which the groups of a key may be nested. Matching, printing and comparing need at most 48
/// bytes of stack for a group that members follow, and so less than 5 MB for this depth. A main thread has 8 MiB.
pub const MAX_GROUP_DEPTH: usize = 100_000;

/// Why a key is not accepted as a condition.
#[derive(Drop)]
pub enum KeyError {
    /// Its groups are nested deeper than `MAX_GROUP_DEPTH`, from the parenthesis at this byte on.
    TooDeep(usize),
    /// It is nested no deeper than that, and is not a condition.
    Parse(ParseError),
    Memory(AllocError),
}

/// Returns the byte position of the first parenthesis at which more than `MAX_GROUP_DEPTH` groups of a key are open, or
/// `None` if it is nested no deeper. The parenthesis of `cfg(` does not open a group. The key is read once, without
/// recursion.
pub fn too_deep_at(key: &str) -> Option<usize>
    ensures deep { IfSome result (λ at. IsDeepAt key.now at) }
    ensures shallow { IfNone result (IsShallow key.now) }
{
    nesting_beyond(key, MAX_GROUP_DEPTH + 1)
}

/// Parses a key, which is a target's name or `cfg(..)` around an expression.
///
/// Returns `KeyError::TooDeep` if it is nested deeper than `MAX_GROUP_DEPTH`. Otherwise it returns what
/// `Platform::from_str` returns: the condition, `KeyError::Parse` with the fault, or the failure of an allocation.
pub fn read_key(alloc: Global, key: &str) -> Result<Platform, KeyError>
    ensures condition { IfOk result (λ p. IsConditionText key.now (condition_of p)) }
    ensures shallow { IfOk result (λ _. IsShallow key.now) }
    ensures unread { IfErr result (λ e. IsWhyUnread key.now e) }
{
    match too_deep_at(key) {
        Some(at) => Err(KeyError::TooDeep(at)),
        None => match Platform::from_str(alloc, key) {
            Ok(platform) => Ok(platform),
            Err(ReadError::Parse(error)) => Err(KeyError::Parse(error)),
            Err(ReadError::Memory(refused)) => Err(KeyError::Memory(refused)),
        },
    }
}

/// Returns the message about a key that is nested too deeply from this byte on.
pub fn too_deep_message(alloc: Global, at: usize) -> Result<String, AllocError>
    ensures { IfOk result (λ text. string_bytes text ≡ too_deep_message at) }
{
    format!(in alloc; "nested too deep: more than 100000 groups are open at byte {at}")
}
