//! A build planner: many keys over the name and the facts of one target.

ghost use Rattle.std.specs.Prelude.{◌≡◌, IfOk, map};
ghost use Rattle.cargo_platform.specs.Trees.{value_of, condition_of};
ghost use Rattle.cargo_platform.specs.Facts.{fact_set, truth_of_condition};

use cargo_platform::{Cfg, FactIndex, Facts, Platform};
use std::alloc::{AllocError, Global};

/// Returns for each condition whether it is true on the target with this name and these facts. The facts are sorted
/// once.
pub fn plan(
    alloc: Global,
    target: &str,
    facts: &[Cfg],
    conditions: &[Platform],
) -> Result<Vec<bool>, AllocError>
    ensures { IfOk result (λ plan. plan.items
        ≡ map (λ p. truth_of_condition target.now (fact_set (map value_of facts.now)) (condition_of p))
        conditions.now) }
{
    let index = FactIndex::new(alloc, facts)?;
    let mut plan = Vec::new(alloc);
    for condition in conditions {
        plan.push(applies(condition, target, &index))?;
    }
    Ok(plan)
}

/// Returns whether the condition is true on the target.
fn applies<F: Facts>(condition: &Platform, target: &str, facts: &F) -> bool
    ensures { result ≡ truth_of_condition target.now (F.meant facts.now) (condition_of condition.now) }
{
    match condition {
        Platform::Name(name) => name.as_str() == target,
        Platform::Cfg(expression) => expression.matches_in(facts),
    }
}
