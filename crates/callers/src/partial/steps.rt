//! Reduces a condition in two steps, as more becomes known about a target.

ghost use Rattle.std.specs.Prelude.{◌≡◌, Some, IfOk, map};
ghost use Rattle.cargo_platform.specs.Trees.{value_of, condition_of};
ghost use Rattle.cargo_platform.specs.Facts.{fact_set};
ghost use Rattle.partial_facts.specs.Conditions.{residual_condition};
ghost use Rattle.partial_facts.specs.Partly.{partly_told};

use cargo_platform::{Cfg, Platform};
use partial_facts::{Partial, laws, residual_platform};
use std::alloc::{AllocError, Global};

/// Returns the residual of the condition. The first step knows only facts of the target. The second one also knows the
/// name of the target, and which names and keys have all their facts listed. Both steps together have the same result
/// as the second one alone.
pub fn residual_in_two_steps(
    alloc: Global,
    platform: &Platform,
    name: &str,
    facts: &[Cfg],
    complete: &[&str],
) -> Result<Platform, AllocError>
    ensures { IfOk result (λ r. condition_of r ≡ residual_condition (Some name.now)
        (partly_told (fact_set (map value_of facts.now)) (map (λ t. t.now) complete.now)) (condition_of platform.now)) }
{
    laws::partial_tells_more();
    laws::conditions_left_in_steps();
    let first = Partial {
        facts,
        complete: &[],
    };
    let left = residual_platform(alloc, platform, None, &first)?;
    residual_platform(alloc, &left, Some(name), &Partial { facts, complete })
}
