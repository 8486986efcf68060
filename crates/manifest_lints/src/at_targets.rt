//! Decides whether a condition is true on no known target, and whether it is true on every known target.

ghost use Rattle.std.specs.Prelude.{◌≡◌, ◌<◌, ℕ, true, false, IsTrue, IfOk};
ghost use Rattle.cargo_platform.specs.Trees.{condition_of};
ghost use Rattle.partial_facts.specs.Partly.{names_of};
ghost use Rattle.known_targets.specs.Sets.{is_member, place};
ghost use Rattle.known_targets.specs.declared.table.TheConstants.{COUNT};
ghost use Rattle.manifest_lints.specs.AtTargets.{KnowsNothing, SaysNeverFree, IsNeverAt, SaysNeverAt, MayBeIn};
ghost use Rattle.manifest_lints.specs.AtTargets.{SettlesOn};

use crate::deciding::{Decided, MAX_FULLY_SEARCHED_FACTS, is_always, is_never, is_yes};
use cargo_platform::{CfgExpr, Platform};
use exact_answers::FactConstraints;
use known_targets::{PartialTarget, TargetSet, certainly_matching, possibly_matching};
use partial_facts::residual_platform;
use std::alloc::{AllocError, Global};

/// How many open names and keys a condition may have. For a condition that has more, it is not decided whether it is
/// true on no known target, or on every one.
pub const MAX_OPEN_NAMES: usize = 4096;

/// The maximum number of case splits in a search on one target.
pub const MAX_SPLITS_PER_TARGET: u64 = 64;

/// Decides whether a condition never has this truth value, of which nothing is known.
fn never_free<'a>(
    alloc: Global,
    platform: &'a Platform,
    known: &'a FactConstraints<'a>,
    truth: bool,
) -> Result<Decided, AllocError>
    ensures { KnowsNothing known.now → IfOk result (λ d. SaysNeverFree truth d (condition_of platform.now)) }
{
    if truth {
        is_never(alloc, platform, known, MAX_SPLITS_PER_TARGET)
    } else {
        is_always(alloc, platform, known, MAX_SPLITS_PER_TARGET)
    }
}

/// Decides whether a condition never has this truth value on a target, whichever facts with open names and keys are
/// set.
fn never_at(
    alloc: Global,
    platform: &Platform,
    at: PartialTarget<'_>,
    truth: bool,
) -> Result<Decided, AllocError>
    ensures { IfOk result (λ d. SaysNeverAt truth d (names_of at.entry.open_keys.now) (condition_of platform.now)
        (place at.entry.target)) }
{
    let left = residual_platform(alloc, platform, Some(at.target.name()), &at)?;
    let assumed = CfgExpr::True;
    let known = FactConstraints {
        facts: &[],
        complete: &[],
        single: &[],
        assumed: &assumed,
    };
    never_free(alloc, &left, &known, truth)
}

/// Returns whether a condition never has this truth value on these targets, whichever facts with these names and keys
/// are set. Stops at the first target on which it can, or for which that is not known.
fn is_never_on<'a>(
    alloc: Global,
    platform: &Platform,
    open_keys: &'a [&'a str],
    targets: TargetSet,
    truth: bool,
) -> Result<bool, AllocError>
    ensures yes { IfOk result (λ b. IsTrue b → (k : ℕ) → k < COUNT → is_member targets k ≡ true
        → IsNeverAt truth (names_of open_keys.now) (condition_of platform.now) k) }
    ensures no { IfOk result
        (λ b. b ≡ false → MayBeIn truth targets (names_of open_keys.now) (condition_of platform.now)) }
{
    'targets: for target in targets.iter() {
        let at = PartialTarget { target, open_keys };
        let decided = never_at(alloc, platform, at, truth)?;
        if !is_yes(decided) {
            return Ok(false);
        }
    }
    Ok(true)
}

/// Returns whether a condition of so many facts is true on no known target, whichever facts with these names and keys
/// are set.
fn is_nowhere<'a>(
    alloc: Global,
    platform: &Platform,
    open_keys: &'a [&'a str],
    facts: usize,
) -> Result<bool, AllocError>
    ensures { IfOk result (SettlesOn true facts (names_of open_keys.now) (condition_of platform.now)) }
{
    let possible = possibly_matching(alloc, platform, open_keys)?;
    if facts > MAX_FULLY_SEARCHED_FACTS {
        return Ok(possible.is_empty());
    }
    is_never_on(alloc, platform, open_keys, possible, true)
}

/// Returns whether a condition of so many facts is true on every known target, whichever facts with these names and
/// keys are set.
fn is_everywhere<'a>(
    alloc: Global,
    platform: &Platform,
    open_keys: &'a [&'a str],
    facts: usize,
) -> Result<bool, AllocError>
    ensures { IfOk result (SettlesOn false facts (names_of open_keys.now) (condition_of platform.now)) }
{
    let others = certainly_matching(alloc, platform, open_keys)?.complement();
    if facts > MAX_FULLY_SEARCHED_FACTS {
        return Ok(others.is_empty());
    }
    is_never_on(alloc, platform, open_keys, others, false)
}

/// Returns whether a condition of so many facts is true on no known target, and whether it is true on every known
/// target, for all values of the open names and keys. Both are `false` if there are more than `MAX_OPEN_NAMES` of
/// these. With more than `MAX_FULLY_SEARCHED_FACTS` facts, only what each fact says by itself counts. Fails if memory
/// is refused.
#[tactic(auto, using(crate::proofs::AtTargets::settles_none))]
pub fn nowhere_and_everywhere<'a>(
    alloc: Global,
    platform: &Platform,
    open_keys: &'a [&'a str],
    facts: usize,
) -> Result<(bool, bool), AllocError>
    ensures nowhere { IfOk result
        (λ h. SettlesOn true facts (names_of open_keys.now) (condition_of platform.now) h.0) }
    ensures everywhere { IfOk result
        (λ h. SettlesOn false facts (names_of open_keys.now) (condition_of platform.now) h.1) }
{
    if open_keys.len() > MAX_OPEN_NAMES {
        return Ok((false, false));
    }
    let nowhere = is_nowhere(alloc, platform, open_keys, facts)?;
    let everywhere = is_everywhere(alloc, platform, open_keys, facts)?;
    Ok((nowhere, everywhere))
}
