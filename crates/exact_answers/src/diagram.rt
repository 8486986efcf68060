//! Searches that a decision diagram ends.

ghost use Rattle.std.specs.Prelude.{◌≡◌, [], IfOk, OnOk, IfSome};
ghost use Rattle.exact_answers.specs.Goals.{pairs_of};
ghost use Rattle.cargo_platform.specs.Trees.{Trees};
ghost use Rattle.exact_answers.specs.Asking.{some_asks};
ghost use Rattle.exact_answers.specs.Inside.Paths.{base_of};
ghost use Rattle.exact_answers.specs.Inside.Searches.{goal_trees, AreMissed, IsPathOf, SaysEnd};
ghost use Rattle.exact_answers.specs.Inside.Ahead.{AreAmong};

use crate::fact_constraints::FactConstraints;
use crate::goal_diagrams::{Choice, Goal, Outcome, find_choices};
use crate::path::Path;
use crate::search::{GoalsState, next_step};
use cargo_platform::Cfg;
use std::alloc::{AllocError, Global};

/// The result of a diagram on goals.
#[derive(Drop)]
pub enum DiagramResult<'a> {
    /// They are met on this path.
    Met(Path<'a>),
    /// They are met over no possible set of facts.
    Missed,
}

/// The numbers of nodes of the diagrams that are tried one after the other. The table of the first one takes no
/// noticeable time. Of 500 hard pairs of keys with up to 27 facts, each takes fewer than half of the last number.
const MAX_NODES: [usize; 3] = [1_024, 8_192, 131_072];

/// The maximal number of pairs for which a diagram is made. Each of them takes stack, and a diagram of more would
/// mostly be too large.
const MAX_PAIRS: usize = 512;

/// Returns what a diagram of at most this many nodes finds for the goals.
fn outcome_within<'a>(
    alloc: Global,
    goals: &[Goal<'a>],
    pairs: &[&'a Cfg],
    known: &'a FactConstraints<'a>,
    most_nodes: usize,
) -> Result<Outcome, AllocError>
    ensures { IfOk result (λ r. r ≡ Outcome.Nothing → AreMissed (base_of known.now) goals.now []) }
{
    let path = Path::new(alloc, known);
    find_choices(alloc, goals, pairs, &path, known.single, most_nodes)
}

/// Returns what a diagram finds for the goals: a small one, or else a larger one.
fn outcome_of<'a>(
    alloc: Global,
    goals: &[Goal<'a>],
    pairs: &[&'a Cfg],
    known: &'a FactConstraints<'a>,
) -> Result<Outcome, AllocError>
    ensures { IfOk result (λ r. r ≡ Outcome.Nothing → AreMissed (base_of known.now) goals.now []) }
{
    for most_nodes in MAX_NODES {
        match outcome_within(alloc, goals, pairs, known, most_nodes)? {
            Outcome::TooLarge => {}
            Outcome::Way(choices) => return Ok(Outcome::Way(choices)),
            Outcome::Nothing => return Ok(Outcome::Nothing),
        }
    }
    Ok(Outcome::TooLarge)
}

/// Takes the pair with this number, if it is open.
fn take_at<'a>(
    path: &mut Path<'a>,
    pairs: &[&'a Cfg],
    number: usize,
    holds: bool,
) -> Result<(), AllocError>
    ensures { OnOk result ((k : FactConstraints) (es : Trees) → AreAmong (some_asks es) (pairs_of pairs.now)
        → IsPathOf path.old k es → IsPathOf path.new k es) }
{
    if number < pairs.len() {
        path.take(pairs[number], holds)
    } else {
        Ok(())
    }
}

/// Returns the path of these choices. A pair without a choice is taken not to be a fact.
fn path_of<'a>(
    alloc: Global,
    pairs: &[&'a Cfg],
    choices: &[Choice],
    known: &'a FactConstraints<'a>,
) -> Result<Path<'a>, AllocError>
    ensures { IfOk result (λ path. (es : Trees) → AreAmong (some_asks es) (pairs_of pairs.now)
        → IsPathOf path known.now es) }
{
    let mut path = Path::new(alloc, known);
    for choice in choices {
        take_at(&mut path, pairs, choice.number, choice.holds)?;
    }
    for number in 0..pairs.len() {
        take_at(&mut path, pairs, number, false)?;
    }
    Ok(path)
}

/// Returns the path of these choices, if the goals are met on it. This is checked, whoever made the choices.
fn tried<'a>(
    alloc: Global,
    goals: &[Goal<'a>],
    pairs: &[&'a Cfg],
    choices: &[Choice],
    known: &'a FactConstraints<'a>,
) -> Result<Option<DiagramResult<'a>>, AllocError>
    requires { AreAmong (some_asks (goal_trees goals.now)) (pairs_of pairs.now) }
    ensures { IfOk result (λ r. IfSome r (λ end. SaysEnd end known.now goals.now)) }
{
    let path = path_of(alloc, pairs, choices, known)?;
    match next_step(goals, &path) {
        GoalsState::Decided(true) => Ok(Some(DiagramResult::Met(path))),
        GoalsState::Decided(false) | GoalsState::Open(_) => Ok(None),
    }
}

/// Returns the result of a search for the goals, if a diagram decides it. `pairs` are the pairs in the goals.
pub fn search_by_diagram<'a>(
    alloc: Global,
    goals: &[Goal<'a>],
    pairs: &[&'a Cfg],
    known: &'a FactConstraints<'a>,
) -> Result<Option<DiagramResult<'a>>, AllocError>
    requires { AreAmong (some_asks (goal_trees goals.now)) (pairs_of pairs.now) }
    ensures { IfOk result (λ r. IfSome r (λ end. SaysEnd end known.now goals.now)) }
{
    if pairs.len() > MAX_PAIRS {
        return Ok(None);
    }
    match outcome_of(alloc, goals, pairs, known)? {
        Outcome::Way(choices) => tried(alloc, goals, pairs, &choices, known),
        Outcome::Nothing => Ok(Some(DiagramResult::Missed)),
        Outcome::TooLarge => Ok(None),
    }
}
