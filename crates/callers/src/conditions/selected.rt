//! Evaluates which dependencies a target selects.

ghost use Rattle.std.specs.Prelude.{◌↔◌, IsTrue, IfOk, map};
ghost use Rattle.cargo_platform.specs.Trees.{Condition, condition_of, value_of};
ghost use Rattle.cargo_platform.specs.Platforms.{IsConditionText, IsRefusedCondition};
ghost use Rattle.cargo_platform.specs.Facts.{fact_set, IsTrueCondition};
ghost use Rattle.cargo_platform.specs.Errors.{IfParse, orig_of, fault_in};

use cargo_platform::{Cfg, Platform, ReadError};
use std::alloc::Global;

/// Returns whether a dependency under this key of a manifest is selected for a target, given by its name and facts.
pub fn is_selected(alloc: Global, key: &str, target: &str, facts: &[Cfg]) -> Result<bool, ReadError>
    ensures selected { IfOk result (λ yes. (p : Condition) × IsConditionText key.now p
        × (IsTrue yes ↔ IsTrueCondition target.now (fact_set (map value_of facts.now)) p)) }
    ensures fault { IfParse result (λ e. IsRefusedCondition key.now (orig_of e) (fault_in e)) }
    ensures refused { IfParse result (λ _. (p : Condition) → IsConditionText key.now p → ⊥) }
{
    match Platform::from_str(alloc, key) {
        Ok(platform) => Ok(platform.matches(target, facts)),
        Err(error) => Err(error),
    }
}
