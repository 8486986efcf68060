//! Decides the condition of a dependency, which is the name of a target or an expression.

ghost use Rattle.std.specs.Prelude.{◌≡◌, ◌≤◌, ◌↔◌, ℕ, List, IsTrue, IfSome, IfOk};
ghost use Rattle.std.specs.Option.{option_copied};
ghost use Rattle.cargo_platform.specs.Trees.{condition_of};
ghost use Rattle.cargo_platform.specs.Facts.{FactSet, IsTrueCondition};
ghost use Rattle.cargo_platform.specs.WellFormed.{IsWellFormedCondition};
ghost use Rattle.cargo_platform.specs.Warnings.{condition_values};
ghost use Rattle.partial_facts.specs.Residual.{IsSubsequence};
ghost use Rattle.partial_facts.specs.Conditions.{kleene_condition, residual_condition, condition_literal_truth};
ghost use Rattle.partial_facts.specs.Conditions.{IsLiteralOrOpenCondition, condition_size, condition_depth};

use crate::knowledge::Knowledge;
use crate::residuals::{literal, residual};
use crate::three_valued::decide;
use cargo_platform::Platform;
use std::alloc::{AllocError, Global};

/// Returns whether the condition is true for each possible target, if that follows from what is known, and `None`
/// otherwise. The name of a target is true if it is `name`, which is that of the target. If `name` is `None`, the
/// target may have any name. An expression is decided as by `decide`.
pub fn decide_platform<K: Knowledge>(
    platform: &Platform,
    name: Option<&str>,
    known: &K,
) -> Option<bool>
    // The result is the truth in Kleene's strong logic, by what is known.
    ensures exact { result
        ≡ kleene_condition (option_copied name.entry) (K.told known.now) (condition_of platform.now) }
    // A result other than `None` is the truth on each possible target, whatever its name if none is given.
    ensures sound { (target : List ℕ) (s : FactSet) → IfSome name.entry (λ n. target ≡ n.now) → K.allows known.now s
        → IfSome result (λ b. IsTrueCondition target s (condition_of platform.now) ↔ IsTrue b) }
{
    evaluate_platform(platform, name, known)
}

fn evaluate_platform<K: Knowledge>(
    platform: &Platform,
    name: Option<&str>,
    known: &K,
) -> Option<bool>
    ensures { result ≡ kleene_condition (option_copied name.entry) (K.told known.now) (condition_of platform.now) }
{
    match platform {
        Platform::Name(target) => match name {
            Some(name) => Some(target.as_str() == name),
            None => None,
        },
        Platform::Cfg(e) => decide(e, known),
    }
}

/// Returns what remains of the condition: a condition with the same truth on every possible target.
///
/// The name of a target remains if `name`, the target's, is not given, and is a literal in `cfg(..)` otherwise. An
/// expression becomes what `residual` returns. Fails only if an allocation fails.
pub fn residual_platform<K: Knowledge>(
    alloc: Global,
    platform: &Platform,
    name: Option<&str>,
    known: &K,
) -> Result<Platform, AllocError>
    // The result leaves out what is known, as the definition says.
    ensures exact { IfOk result (λ r.
        condition_of r ≡ residual_condition (option_copied name.entry) (K.told known.now) (condition_of platform.now)) }
    // On each possible target, the residual has the same truth as the whole condition.
    ensures sound { (target : List ℕ) (s : FactSet) → IfSome name.entry (λ n. target ≡ n.now) → K.allows known.now s
        → IfOk result (λ r.
        IsTrueCondition target s (condition_of r) ↔ IsTrueCondition target s (condition_of platform.now)) }
    // The residual is a literal exactly if the whole condition is decided, and has its truth.
    ensures decided { IfOk result (λ r. condition_literal_truth (condition_of r)
        ≡ kleene_condition (option_copied name.entry) (K.told known.now) (condition_of platform.now)) }
    // Otherwise it has only names and pairs that are open, no literal inside, and no group of fewer than two members.
    ensures open { IfOk result (λ r.
        IsLiteralOrOpenCondition (option_copied name.entry) (K.told known.now) (condition_of r)) }
    // Its names and pairs occur in the whole condition, in the same order.
    ensures in_order { IfOk result (λ r.
        IsSubsequence (condition_values (condition_of r)) (condition_values (condition_of platform.now))) }
    // It is well-formed if the whole condition is, and neither larger nor deeper.
    ensures well_formed { IsWellFormedCondition (condition_of platform.now)
        → IfOk result (λ r. IsWellFormedCondition (condition_of r)) }
    ensures no_larger { IfOk result (λ r.
        condition_size (condition_of r) ≤ condition_size (condition_of platform.now)) }
    ensures no_deeper { IfOk result (λ r.
        condition_depth (condition_of r) ≤ condition_depth (condition_of platform.now)) }
{
    reduced_platform(alloc, platform, name, known)
}

fn reduced_platform<K: Knowledge>(
    alloc: Global,
    platform: &Platform,
    name: Option<&str>,
    known: &K,
) -> Result<Platform, AllocError>
    ensures { IfOk result (λ r.
        condition_of r ≡ residual_condition (option_copied name.entry) (K.told known.now) (condition_of platform.now)) }
{
    match platform {
        Platform::Name(target) => match name {
            Some(name) => Ok(Platform::Cfg(literal(target.as_str() == name))),
            None => Ok(Platform::Name(String::from_str(alloc, target)?)),
        },
        Platform::Cfg(e) => Ok(Platform::Cfg(residual(alloc, e, known)?)),
    }
}
