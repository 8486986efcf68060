//! The queries on conditions, which are target names or expressions.

ghost use Rattle.std.specs.Prelude.{◌≡◌, ◌↔◌, true, false, not, [], ◌∷◌, string_bytes, IfOk};
ghost use Rattle.std.specs.Option.{option_copied};
ghost use Rattle.cargo_platform.specs.Trees.{True, False, Expression, tree_of, condition_of};
ghost use Rattle.cargo_platform.specs.Facts.{IsTrueCondition};
ghost use Rattle.exact_answers.specs.Targets.{SaysSatisfiability, SaysValidity};
ghost use Rattle.exact_answers.specs.Inside.Targets.{tree_under, is_name_of, wants, wanted_of, SaysFoundUnder};
ghost use Rattle.exact_answers.specs.Inside.Targets.{with_name, or_undecided, as_can, as_must, SaysTarget};

use crate::expressions::search_both;
use crate::fact_constraints::FactConstraints;
use crate::goal_diagrams::Goal;
use crate::search::Found;
use cargo_platform::{Cfg, CfgExpr, Platform};
use std::alloc::{AllocError, Global};

/// A target that is possible.
#[derive(Drop)]
pub struct PossibleTarget {
    /// Its name. `None` means any name that is not in the conditions of the query.
    pub name: Option<String>,
    /// Its facts.
    pub facts: Vec<Cfg>,
}

/// Whether a condition can be true.
#[derive(Drop)]
pub enum Satisfiability {
    /// It is true on this target.
    Yes(PossibleTarget),
    /// It is true on no possible target.
    No,
    /// The budget of case splits is used up.
    Undecided,
}

/// Whether something is true on each possible target.
#[derive(Drop)]
pub enum Validity {
    /// It is true on each possible target.
    Yes,
    /// It is false on this target.
    No(PossibleTarget),
    /// The budget of case splits is used up.
    Undecided,
}

/// The targets of a search: the possible ones on which both conditions have the wanted truths.
#[derive(Clone, Copy)]
struct Question<'a> {
    known: &'a FactConstraints<'a>,
    first: &'a Platform,
    first_wanted: bool,
    second: &'a Platform,
    second_wanted: bool,
}

/// The result of a search for a target.
#[derive(Drop)]
enum FoundTarget {
    Target(PossibleTarget),
    Nothing,
    Undecided,
}

/// Returns whether the condition is true on some possible target. A target may have any name, and its name implies no
/// facts.
pub fn can_hold_platform<'a>(
    alloc: Global,
    platform: &'a Platform,
    known: &'a FactConstraints<'a>,
    budget: u64,
) -> Result<Satisfiability, AllocError>
    // With `Yes`, the condition is true on the example, which is possible. With `No`, it is false for each name over
    // each possible set.
    //
    // `Undecided` is returned only if the budget is too small. With `n` open pairs in what is queried and assumed,
    // `2^n - 1` splits are enough.
    ensures { IfOk result (λ r. SaysSatisfiability r known.now (condition_of platform.now ∷ []) budget
        (λ name s. IsTrueCondition name s (condition_of platform.now))
        (λ name s. IsTrueCondition name s (condition_of platform.now) → ⊥)) }
{
    let found = search_one_target(alloc, platform, true, known, budget)?;
    Ok(as_can(found))
}

/// Returns whether the condition is true on each possible target.
pub fn always_platform<'a>(
    alloc: Global,
    platform: &'a Platform,
    known: &'a FactConstraints<'a>,
    budget: u64,
) -> Result<Validity, AllocError>
    // With `Yes`, it is so for each name over each possible set of facts. With `No`, it is not so for the example,
    // which is possible.
    //
    // `Undecided` is returned only if the budget is too small. With `n` open pairs in what is queried and assumed,
    // `2^n - 1` splits are enough.
    ensures { IfOk result (λ r. SaysValidity r known.now (condition_of platform.now ∷ []) budget
        (λ name s. IsTrueCondition name s (condition_of platform.now) → ⊥)
        (λ name s. IsTrueCondition name s (condition_of platform.now))) }
{
    let found = search_one_target(alloc, platform, false, known, budget)?;
    Ok(as_must(found))
}

/// Returns whether `b` is true on each possible target on which `a` is.
pub fn implies_platform<'a>(
    alloc: Global,
    a: &'a Platform,
    b: &'a Platform,
    known: &'a FactConstraints<'a>,
    budget: u64,
) -> Result<Validity, AllocError>
    // With `Yes`, it is so for each name over each possible set of facts. With `No`, it is not so for the example,
    // which is possible.
    //
    // `Undecided` is returned only if the budget is too small. With `n` open pairs in what is queried and assumed,
    // `2^n - 1` splits are enough.
    ensures { IfOk result (λ r. SaysValidity r known.now (condition_of a.now ∷ condition_of b.now ∷ []) budget
        (λ name s. IsTrueCondition name s (condition_of a.now) × (IsTrueCondition name s (condition_of b.now) → ⊥))
        (λ name s. IsTrueCondition name s (condition_of a.now) → IsTrueCondition name s (condition_of b.now))) }
{
    let question = Question {
        known,
        first: a,
        first_wanted: true,
        second: b,
        second_wanted: false,
    };
    let found = search_targets(alloc, &question, budget)?;
    Ok(as_must(found))
}

/// Returns whether `a` and `b` are both true on no possible target.
pub fn excludes_platform<'a>(
    alloc: Global,
    a: &'a Platform,
    b: &'a Platform,
    known: &'a FactConstraints<'a>,
    budget: u64,
) -> Result<Validity, AllocError>
    // With `Yes`, it is so for each name over each possible set of facts. With `No`, it is not so for the example,
    // which is possible.
    //
    // `Undecided` is returned only if the budget is too small. With `n` open pairs in what is queried and assumed,
    // `2^n - 1` splits are enough.
    ensures { IfOk result (λ r. SaysValidity r known.now (condition_of a.now ∷ condition_of b.now ∷ []) budget
        (λ name s. IsTrueCondition name s (condition_of a.now) × IsTrueCondition name s (condition_of b.now))
        (λ name s. IsTrueCondition name s (condition_of a.now) → IsTrueCondition name s (condition_of b.now) → ⊥)) }
{
    let question = Question {
        known,
        first: a,
        first_wanted: true,
        second: b,
        second_wanted: true,
    };
    let found = search_targets(alloc, &question, budget)?;
    Ok(as_must(found))
}

/// Returns whether `a` and `b` are true on the same possible targets. Each of the two implications has the budget.
pub fn equivalent_platform<'a>(
    alloc: Global,
    a: &'a Platform,
    b: &'a Platform,
    known: &'a FactConstraints<'a>,
    budget: u64,
) -> Result<Validity, AllocError>
    // With `Yes`, it is so for each name over each possible set of facts. With `No`, it is not so for the example,
    // which is possible.
    //
    // `Undecided` is returned only if the budget is too small. With `n` open pairs in what is queried and assumed,
    // `2^n - 1` splits are enough.
    ensures { IfOk result (λ r. SaysValidity r known.now (condition_of a.now ∷ condition_of b.now ∷ []) budget
        (λ name s. (IsTrueCondition name s (condition_of a.now) ↔ IsTrueCondition name s (condition_of b.now)) → ⊥)
        (λ name s. IsTrueCondition name s (condition_of a.now) ↔ IsTrueCondition name s (condition_of b.now))) }
{
    let first = Question {
        known,
        first: a,
        first_wanted: true,
        second: b,
        second_wanted: false,
    };
    let second = Question {
        known,
        first: a,
        first_wanted: false,
        second: b,
        second_wanted: true,
    };
    match search_targets(alloc, &first, budget)? {
        FoundTarget::Target(target) => Ok(Validity::No(target)),
        FoundTarget::Nothing => {
            let found = search_targets(alloc, &second, budget)?;
            Ok(as_must(found))
        }
        FoundTarget::Undecided => {
            let found = search_targets(alloc, &second, budget)?;
            Ok(as_must(or_undecided(found)))
        }
    }
}

/// Returns the answer of a search for an example.
fn as_can(found: FoundTarget) -> Satisfiability
    ensures { result ≡ as_can found }
{
    match found {
        FoundTarget::Target(target) => Satisfiability::Yes(target),
        FoundTarget::Nothing => Satisfiability::No,
        FoundTarget::Undecided => Satisfiability::Undecided,
    }
}

/// Returns the answer of a search for a counterexample.
fn as_must(found: FoundTarget) -> Validity
    ensures { result ≡ as_must found }
{
    match found {
        FoundTarget::Target(target) => Validity::No(target),
        FoundTarget::Nothing => Validity::Yes,
        FoundTarget::Undecided => Validity::Undecided,
    }
}

/// Searches for a possible target for which the condition is as true as wanted.
fn search_one_target<'a>(
    alloc: Global,
    platform: &'a Platform,
    wanted: bool,
    known: &'a FactConstraints<'a>,
    budget: u64,
) -> Result<FoundTarget, AllocError>
    ensures { IfOk result (λ r. SaysTarget r
        (wants known.now (condition_of platform.now) wanted (Expression True) true) (λ name. Unit {0}) budget) }
{
    let everything = Platform::Cfg(CfgExpr::True);
    let question = Question {
        known,
        first: platform,
        first_wanted: wanted,
        second: &everything,
        second_wanted: true,
    };
    search_targets(alloc, &question, budget)
}

/// Searches for a target: first by the names that the conditions name, and then among all other names.
fn search_targets(
    alloc: Global,
    question: &Question<'_>,
    budget: u64,
) -> Result<FoundTarget, AllocError>
    ensures { IfOk result (λ r. SaysTarget r (wanted_of question.now)
        (λ name. Unit {0}) budget) }
{
    match search_named(alloc, question.first, question, budget)? {
        FoundTarget::Target(target) => Ok(FoundTarget::Target(target)),
        FoundTarget::Nothing => search_further(alloc, question, budget),
        FoundTarget::Undecided => {
            let found = search_further(alloc, question, budget)?;
            Ok(or_undecided(found))
        }
    }
}

/// Searches among the names other than that of the first condition.
fn search_further(
    alloc: Global,
    question: &Question<'_>,
    budget: u64,
) -> Result<FoundTarget, AllocError>
    ensures { IfOk result (λ r. SaysTarget r (wanted_of question.now)
        (λ name. is_name_of (condition_of question.now.first.now) name ≡ false) budget) }
{
    match search_named(alloc, question.second, question, budget)? {
        FoundTarget::Target(target) => Ok(FoundTarget::Target(target)),
        FoundTarget::Nothing => search_unnamed(alloc, question, budget),
        FoundTarget::Undecided => {
            let found = search_unnamed(alloc, question, budget)?;
            Ok(or_undecided(found))
        }
    }
}

/// Searches among the targets that `by` names, if it is a name.
fn search_named(
    alloc: Global,
    by: &Platform,
    question: &Question<'_>,
    budget: u64,
) -> Result<FoundTarget, AllocError>
    ensures { IfOk result (λ r. SaysTarget r (wanted_of question.now)
        (λ name. is_name_of (condition_of by.now) name ≡ true) budget) }
{
    match by {
        Platform::Name(name) => {
            let name = String::from_str(alloc, name.as_str())?;
            search_with_name(alloc, name, question, budget)
        }
        Platform::Cfg(_) => Ok(FoundTarget::Nothing),
    }
}

/// Searches among the targets with this name.
fn search_with_name(
    alloc: Global,
    name: String,
    question: &Question<'_>,
    budget: u64,
) -> Result<FoundTarget, AllocError>
    ensures { IfOk result (λ r. SaysTarget r (wanted_of question.now)
        (λ text. string_bytes name ≡ text) budget) }
{
    let found = search_under(alloc, Some(name.as_str()), question, budget)?;
    Ok(with_name(found, Some(name)))
}

/// Searches among the names that neither condition names.
fn search_unnamed(
    alloc: Global,
    question: &Question<'_>,
    budget: u64,
) -> Result<FoundTarget, AllocError>
    ensures { IfOk result (λ r. SaysTarget r (wanted_of question.now)
        (λ name. (is_name_of (condition_of question.now.first.now) name ≡ false)
        × (is_name_of (condition_of question.now.second.now) name ≡ false)) budget) }
{
    let found = search_under(alloc, None, question, budget)?;
    Ok(with_name(found, None))
}

/// Returns the target with the facts that were found.
fn with_name(found: Found, name: Option<String>) -> FoundTarget
    ensures { result ≡ with_name found name }
{
    match found {
        Found::Facts(facts) => FoundTarget::Target(PossibleTarget { name, facts }),
        Found::Nothing => FoundTarget::Nothing,
        Found::Undecided => FoundTarget::Undecided,
    }
}

/// Returns the result of a search, if another one used up its splits.
fn or_undecided(found: FoundTarget) -> FoundTarget
    ensures { result ≡ or_undecided found }
{
    match found {
        FoundTarget::Target(target) => FoundTarget::Target(target),
        FoundTarget::Nothing | FoundTarget::Undecided => FoundTarget::Undecided,
    }
}

/// Searches for the facts of a possible target with this name, or with `None` of one that neither condition names.
fn search_under(
    alloc: Global,
    name: Option<&str>,
    question: &Question<'_>,
    budget: u64,
) -> Result<Found, AllocError>
    ensures { IfOk result (λ r. SaysFoundUnder r (wanted_of question.now) (option_copied name.entry) budget) }
{
    let yes = CfgExpr::True;
    let no = CfgExpr::False;
    let first = Goal {
        e: under(question.first, name, &yes, &no),
        wanted: question.first_wanted,
    };
    let second = Goal {
        e: under(question.second, name, &yes, &no),
        wanted: question.second_wanted,
    };
    search_both(alloc, first, second, question.known, budget)
}

/// Returns the condition on the facts of a target with this name, or for `None` with a name that is in no condition.
fn under<'a>(
    platform: &'a Platform,
    name: Option<&str>,
    yes: &'a CfgExpr,
    no: &'a CfgExpr,
) -> &'a CfgExpr
    requires yes { tree_of yes.now ≡ True }
    requires no { tree_of no.now ≡ False }
    ensures { tree_of result.now ≡ tree_under (option_copied name.entry) (condition_of platform.now) }
{
    match platform {
        Platform::Name(own) => match name {
            Some(name) => { if own.as_str() == name { yes } else { no } }
            None => no,
        },
        Platform::Cfg(e) => e,
    }
}
