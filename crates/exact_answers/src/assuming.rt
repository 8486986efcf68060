//! A search that leaves out what is assumed at first.

ghost use Rattle.std.specs.Prelude.{◌≡◌, ℕ, map, IfOk, IfSome};
ghost use Rattle.cargo_platform.specs.Trees.{tree_of, value_of};
ghost use Rattle.cargo_platform.specs.Facts.{fact_set, truth};
ghost use Rattle.exact_answers.specs.Goals.{true_as_wanted};
ghost use Rattle.exact_answers.specs.Inside.Paths.{base_of};
ghost use Rattle.exact_answers.specs.Inside.Searches.{Searched, IsMetBy};

use crate::fact_constraints::FactConstraints;
use crate::goal_diagrams::{Goal, matches_wanted};
use crate::path::Path;
use crate::search::{Found, search};
use cargo_platform::{Cfg, CfgExpr};
use std::alloc::{AllocError, Global};

/// The number of case splits before what is assumed counts. Most queries on real manifests take fewer.
const SPLITS: u64 = 6;

/// Returns whether the goal is met over the facts.
fn is_met(goal: &Goal<'_>, facts: &[Cfg]) -> bool
    ensures { result ≡ true_as_wanted goal.now.wanted
        (truth (fact_set (map value_of facts.now)) (tree_of goal.now.e.now)) }
{
    matches_wanted(goal.e.matches(facts), goal.wanted)
}

/// Returns the result of a search for other goals, if it is the result with this goal too: the goal is met over the
/// facts that were found, or nothing was found even without it.
fn with_one_more(found: Found, goal: &Goal<'_>) -> Option<Found>
    ensures same { IfSome result (λ r. r ≡ found) }
    ensures met { IfSome result (IsMetBy goal.now) }
{
    match found {
        Found::Facts(facts) => {
            if is_met(goal, &facts) {
                Some(Found::Facts(facts))
            } else {
                None
            }
        }
        Found::Nothing => Some(Found::Nothing),
        Found::Undecided => None,
    }
}

/// Searches with few splits for a set over which all goals but the first one are met. Returns the result if it is right
/// for all goals. If the first one is met without an assumption, returns `None`, which leaves the goals to the full
/// search.
fn without_first<'a>(
    alloc: Global,
    goals: &[Goal<'a>],
    known: &'a FactConstraints<'a>,
    splits: u64,
) -> Result<Option<Found>, AllocError>
    ensures { IfOk result (λ r. IfSome r (λ found. (budget : ℕ)
        → Searched (base_of known.now) goals.now budget found)) }
{
    let Some((first, others)) = goals.split_first() else {
        return Ok(None);
    };
    if matches!(first.e, CfgExpr::True) {
        return Ok(None);
    }
    let mut path = Path::new(alloc, known);
    let found = search(alloc, others, &mut path, splits)?;
    Ok(with_one_more(found, first))
}

/// Searches for a possible set of facts over which each goal is met. The first goal, which is what is assumed, is
/// passed over at first, for a few splits besides the budget: mostly it is met over the facts that are found for the
/// others.
pub fn search_assuming<'a>(
    alloc: Global,
    goals: &[Goal<'a>],
    known: &'a FactConstraints<'a>,
    budget: u64,
) -> Result<Found, AllocError>
    ensures { IfOk result (λ r. Searched (base_of known.now) goals.now budget r) }
{
    if let Some(found) = without_first(alloc, goals, known, budget.min(SPLITS))? {
        return Ok(found);
    }
    let mut path = Path::new(alloc, known);
    search(alloc, goals, &mut path, budget)
}
