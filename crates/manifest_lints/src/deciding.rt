//! Decides whether a condition is never or always true.

ghost use Rattle.std.specs.Prelude.{◌≡◌, ◌⊎◌, ◌||◌, false, IsTrue, IfOk};
ghost use Rattle.cargo_platform.specs.Trees.{condition_of};
ghost use Rattle.cargo_platform.specs.Nesting.{IsNestedBeyond};
ghost use Rattle.manifest_lints.specs.Truths.{SaysNever, SaysAlways, SaysNeverIs, is_yes, is_unknown};
ghost use Rattle.manifest_lints.specs.Truths.{budget_of, NeedsMoreFor};
ghost use Rattle.manifest_lints.specs.Truths.{IsNever, IsAlways, CanHold, CanFail};

use crate::shown_by_samples::is_shown;
use cargo_platform::{Platform, nesting_beyond};
use exact_answers::{
    FactConstraints, Satisfiability, Validity, always_platform, can_hold_platform,
};
use std::alloc::{AllocError, Global};

/// The maximum number of case splits in a search for a condition of at most `MAX_FULLY_SEARCHED_FACTS` facts. With
/// more facts it is lower.
const SPLITS: u64 = 1024;

/// The maximum number of facts of a condition that is searched with the whole number of case splits, and on each known
/// target.
pub const MAX_FULLY_SEARCHED_FACTS: usize = 64;

/// How deep a condition may be nested that is searched over sets of facts. The members of groups that lie in one
/// another are counted, where each is followed by others. The stack has no room for more.
pub const MAX_NESTING: usize = 20_000;

/// The answer to a question about a condition.
#[derive(Clone, Copy, Debug, PartialEq, Eq, Drop)]
pub enum Decided {
    Yes,
    No,
    Unknown,
}

/// Returns whether the answer is `Yes`.
pub fn is_yes(decided: Decided) -> bool
    ensures { result ≡ is_yes decided }
{
    match decided {
        Decided::Yes => true,
        Decided::No | Decided::Unknown => false,
    }
}

/// Returns whether the answer is `Unknown`.
fn is_unknown(decided: Decided) -> bool
    ensures { result ≡ is_unknown decided }
{
    match decided {
        Decided::Unknown => true,
        Decided::Yes | Decided::No => false,
    }
}

/// Returns whether the condition of a key may be searched over every set of facts. Returns `false` only if more than
/// `MAX_NESTING` parentheses of the key are nested in one another. `levels` is the number of levels of the condition.
pub fn may_search(levels: usize, key: &str) -> bool
    ensures { result ≡ false → IsNestedBeyond key.now MAX_NESTING }
{
    if levels <= MAX_NESTING {
        return true;
    }
    match nesting_beyond(key, MAX_NESTING) {
        Some(_) => false,
        None => true,
    }
}

/// Returns the maximum number of case splits in a search for a condition of so many facts.
pub fn budget_for(facts: usize) -> u64
    ensures { result ≡ budget_of facts }
{
    if facts <= MAX_FULLY_SEARCHED_FACTS {
        return SPLITS;
    }
    (SPLITS * 64 / (facts as u64)).max(8)
}

/// Decides whether a condition is true for no possible target. If that takes too many case splits, some sets of facts
/// are tried. Fails if memory is refused.
pub fn is_never<'a>(
    alloc: Global,
    platform: &'a Platform,
    known: &'a FactConstraints<'a>,
    budget: u64,
) -> Result<Decided, AllocError>
    ensures says { IfOk result (λ d. SaysNever d known.now (condition_of platform.now)) }
    ensures unknown { IfOk result
        (λ d. IsTrue (is_unknown d) → NeedsMoreFor known.now (condition_of platform.now) budget) }
{
    match can_hold_platform(alloc, platform, known, budget)? {
        Satisfiability::No => Ok(Decided::Yes),
        Satisfiability::Yes(_) => Ok(Decided::No),
        Satisfiability::Undecided => unless_shown(alloc, platform, known, true),
    }
}

/// Decides whether a condition is true for each possible target. If that takes too many case splits, some sets of facts
/// are tried. Fails if memory is refused.
pub fn is_always<'a>(
    alloc: Global,
    platform: &'a Platform,
    known: &'a FactConstraints<'a>,
    budget: u64,
) -> Result<Decided, AllocError>
    ensures says { IfOk result (λ d. SaysAlways d known.now (condition_of platform.now)) }
    ensures unknown { IfOk result
        (λ d. IsTrue (is_unknown d) → NeedsMoreFor known.now (condition_of platform.now) budget) }
{
    match always_platform(alloc, platform, known, budget)? {
        Validity::Yes => Ok(Decided::Yes),
        Validity::No(_) => Ok(Decided::No),
        Validity::Undecided => unless_shown(alloc, platform, known, false),
    }
}

/// Decides by some sets of facts whether a condition has this truth value for no possible target.
fn unless_shown(
    alloc: Global,
    platform: &Platform,
    known: &FactConstraints<'_>,
    truth: bool,
) -> Result<Decided, AllocError>
    ensures { IfOk result (λ d. SaysNeverIs truth d known.now (condition_of platform.now)) }
{
    if is_shown(alloc, platform, known, truth)? {
        return Ok(Decided::No);
    }
    Ok(Decided::Unknown)
}

/// Decides whether a condition is never true, and whether it is always true.
fn settled<'a>(
    alloc: Global,
    platform: &'a Platform,
    known: &'a FactConstraints<'a>,
    budget: u64,
) -> Result<(Decided, Decided), AllocError>
    ensures never { IfOk result (λ d. SaysNever d.0 known.now (condition_of platform.now)) }
    ensures always { IfOk result (λ d. SaysAlways d.1 known.now (condition_of platform.now)) }
    ensures unknown_never { IfOk result
        (λ d. IsTrue (is_unknown d.0) → NeedsMoreFor known.now (condition_of platform.now) budget) }
    ensures unknown_always { IfOk result
        (λ d. IsTrue (is_unknown d.1) → NeedsMoreFor known.now (condition_of platform.now) budget) }
{
    let never = is_never(alloc, platform, known, budget)?;
    let always = is_always(alloc, platform, known, budget)?;
    Ok((never, always))
}

/// Returns whether a condition is never true, whether it is always true, and whether one of these answers is not known.
/// Fails if memory is refused.
#[tactic(auto, using(crate::proofs::Verdicts::verdicts))]
pub fn never_and_always<'a>(
    alloc: Global,
    platform: &'a Platform,
    known: &'a FactConstraints<'a>,
    budget: u64,
    may_search: bool,
) -> Result<(bool, bool, bool), AllocError>
    ensures never { IfOk result (λ h. IsTrue h.0 → IsNever known.now (condition_of platform.now)) }
    ensures always { IfOk result (λ h. IsTrue h.1 → IsAlways known.now (condition_of platform.now)) }
    ensures can_hold { IfOk result (λ h. h.0 ≡ false → h.2 ≡ false → CanHold known.now (condition_of platform.now)) }
    ensures can_fail { IfOk result (λ h. h.1 ≡ false → h.2 ≡ false → CanFail known.now (condition_of platform.now)) }
    ensures unknown { IfOk result (λ h. IsTrue h.2
        → (may_search ≡ false) ⊎ NeedsMoreFor known.now (condition_of platform.now) budget) }
{
    if !may_search {
        return Ok((false, false, true));
    }
    let (never, always) = settled(alloc, platform, known, budget)?;
    let unknown = either(is_unknown(never), is_unknown(always));
    Ok((is_yes(never), is_yes(always), unknown))
}

/// Returns whether at least one of two flags is set.
pub fn either(first: bool, second: bool) -> bool
    ensures { result ≡ (first || second) }
{
    first || second
}
