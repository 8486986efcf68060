//! Conditions that are true on exactly the targets of a set.

ghost use Rattle.std.specs.Prelude.{◌≡◌, IfOk, IfSome};
ghost use Rattle.cargo_platform.specs.Trees.{condition_of};
ghost use Rattle.known_targets.specs.Exact.{HoldsExactly};

use crate::{TargetSet, matching};
use cargo_platform::Platform;
use std::alloc::{AllocError, Global};

/// Returns the condition if it is true on exactly the targets of the set. Fails only if an allocation fails.
pub fn exactly(
    alloc: Global,
    platform: Platform,
    set: TargetSet,
) -> Result<Option<Platform>, AllocError>
    // A condition that is returned is true on each target of the set, and on no other known target.
    ensures { IfOk result (λ p. IfSome p (λ p. HoldsExactly set (condition_of p))) }
{
    let targets = matching(alloc, &platform)?;
    if targets.equals(set) {
        Ok(Some(platform))
    } else {
        Ok(None)
    }
}
