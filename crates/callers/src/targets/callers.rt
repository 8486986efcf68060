//! Callers of `known_targets`, as its users write them.

ghost use Rattle.std.specs.Prelude.{◌<◌, ℕ, IsTrue, IfOk, IfSome, ◌≡◌, ◌↔◌, Some, false};
ghost use Rattle.cargo_platform.specs.Trees.{tree_of, condition_of};
ghost use Rattle.cargo_platform.specs.Facts.{FactSet, truth, IsTrueCondition};
ghost use Rattle.partial_facts.specs.Kleene.{kleene};
ghost use Rattle.partial_facts.specs.Conditions.{kleene_condition};
ghost use Rattle.known_targets.specs.Open.{open_told, IsSameButOpen};
ghost use Rattle.partial_facts.specs.Partly.{names_of};
ghost use Rattle.known_targets.specs.Sets.{place};
ghost use Rattle.known_targets.specs.Table.{target_name, target_facts};

use cargo_platform::{CfgExpr, Platform};
use known_targets::{COUNT, KnownTarget, PartialTarget, possibly_matching};
use partial_facts::decide;
use std::alloc::{AllocError, Global};

/// Returns whether a linter may say that the condition is true on no known target, whichever facts with these names and
/// keys are set: it is decided to be false on each of them.
pub fn holds_nowhere(
    alloc: Global,
    platform: &Platform,
    open_keys: &[&str],
) -> Result<bool, AllocError>
    ensures exact { IfOk result (λ nowhere. IsTrue nowhere ↔ ((k : ℕ) → k < COUNT
        → kleene_condition (Some (target_name k)) (open_told (target_facts k) (names_of open_keys.now))
        (condition_of platform.now) ≡ Some false)) }
    ensures sound { IfOk result (λ nowhere. (k : ℕ) (s : FactSet) → IsTrue nowhere → k < COUNT
        → IsSameButOpen (target_facts k) (names_of open_keys.now) s
        → IsTrueCondition (target_name k) s (condition_of platform.now) → ⊥) }
{
    Ok(possibly_matching(alloc, platform, open_keys)?.is_empty())
}

/// Returns the truth value of the expression on the target under any flags, if it follows from the facts that no flag
/// changes.
pub fn under_any_flags(e: &CfgExpr, target: KnownTarget, open_keys: &[&str]) -> Option<bool>
    ensures exact { result ≡ kleene (open_told (target_facts (place target)) (names_of open_keys.now)) (tree_of e.now) }
    ensures sound { (s : FactSet) → IsSameButOpen (target_facts (place target)) (names_of open_keys.now) s
        → IfSome result (λ b. truth s (tree_of e.now) ≡ b) }
{
    decide(e, &PartialTarget { target, open_keys })
}
