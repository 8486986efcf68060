//! Parses a key only if it is not nested too deeply.

ghost use Rattle.std.specs.Prelude.{IfOk, IfSome, IfNone};
ghost use Rattle.cargo_platform.specs.Trees.{condition_of};
ghost use Rattle.cargo_platform.specs.Platforms.{IsConditionText};
ghost use Rattle.cargo_platform.specs.Nesting.{IsNestedWithin, IsNestedBeyond};

use cargo_platform::{Platform, ReadError, nesting_beyond};
use std::alloc::Global;

/// Returns the condition of a key, or `None` if more than `most` of its parentheses are open at once.
pub fn read_within(alloc: Global, key: &str, most: usize) -> Result<Option<Platform>, ReadError>
    ensures condition { IfOk result (λ found. IfSome found (λ p. IsConditionText key.now (condition_of p))) }
    ensures within { IfOk result (λ found. IfSome found (λ _. IsNestedWithin key.now most)) }
    ensures beyond { IfOk result (λ found. IfNone found (IsNestedBeyond key.now most)) }
{
    match nesting_beyond(key, most) {
        Some(_place) => Ok(None),
        None => match Platform::from_str(alloc, key) {
            Ok(platform) => Ok(Some(platform)),
            Err(error) => Err(error),
        },
    }
}
