//! The queries on expressions.

ghost use Rattle.std.specs.Prelude.{◌≡◌, true, false, not, IfOk};
ghost use Rattle.cargo_platform.specs.Trees.{tree_of, tree, none};
ghost use Rattle.cargo_platform.specs.Facts.{truth};
ghost use Rattle.exact_answers.specs.Answers.{SaysCan, SaysMust};
ghost use Rattle.exact_answers.specs.Inside.Searches.{SaysFound};

use crate::assuming::search_assuming;
use crate::fact_constraints::FactConstraints;
use crate::goal_diagrams::Goal;
use crate::path::Path;
use crate::search::{Found, search};
use cargo_platform::{Cfg, CfgExpr};
use std::alloc::{AllocError, Global};

/// Whether an expression can be true.
#[derive(Drop)]
pub enum CanHold {
    /// It is true over these facts, which are possible.
    Yes(Vec<Cfg>),
    /// It is true over no possible set of facts.
    No,
    /// The budget of case splits is used up.
    Undecided,
}

/// Whether something is true over each possible set of facts.
#[derive(Drop)]
pub enum MustHold {
    /// It is true over each possible set of facts.
    Yes,
    /// It is false over these facts, which are possible.
    No(Vec<Cfg>),
    /// The budget of case splits is used up.
    Undecided,
}

/// Returns whether any set of facts is possible. Facts, complete names and keys with one value always leave some set,
/// but what is assumed may be true over none of them. If this returns `No`, so does `can_hold` for each expression, and
/// `always`, `implies`, `excludes` and `equivalent` return `Yes`.
pub fn has_possible_facts<'a>(
    alloc: Global,
    known: &'a FactConstraints<'a>,
    budget: u64,
) -> Result<CanHold, AllocError>
    // `Yes` has a possible set of facts. With `No`, no set is possible.
    //
    // `Undecided` is returned only if the budget is too small. With `n` open pairs in what is queried and assumed,
    // `2^n - 1` splits are enough.
    ensures { IfOk result (λ r. SaysCan r known.now none budget (λ s. Unit {0}) (λ s. ⊥)) }
{
    match search_any(alloc, known, budget)? {
        Found::Facts(facts) => Ok(CanHold::Yes(facts)),
        Found::Nothing => Ok(CanHold::No),
        Found::Undecided => Ok(CanHold::Undecided),
    }
}

/// Returns whether the expression is true over some possible set of facts.
pub fn can_hold<'a>(
    alloc: Global,
    e: &'a CfgExpr,
    known: &'a FactConstraints<'a>,
    budget: u64,
) -> Result<CanHold, AllocError>
    // With `Yes`, the expression is true over the example, which is possible. With `No`, it is false over each possible
    // set.
    //
    // `Undecided` is returned only if the budget is too small. With `n` open pairs in what is queried and assumed,
    // `2^n - 1` splits are enough.
    ensures { IfOk result (λ r. SaysCan r known.now (tree (tree_of e.now) none) budget
        (λ s. truth s (tree_of e.now) ≡ true)
        (λ s. truth s (tree_of e.now) ≡ false)) }
{
    match search_one(alloc, e, true, known, budget)? {
        Found::Facts(facts) => Ok(CanHold::Yes(facts)),
        Found::Nothing => Ok(CanHold::No),
        Found::Undecided => Ok(CanHold::Undecided),
    }
}

/// Returns whether the expression is true over each possible set of facts.
pub fn always<'a>(
    alloc: Global,
    e: &'a CfgExpr,
    known: &'a FactConstraints<'a>,
    budget: u64,
) -> Result<MustHold, AllocError>
    // With `Yes`, it is so over each possible set of facts. With `No`, it is not so over the example, which is
    // possible.
    //
    // `Undecided` is returned only if the budget is too small. With `n` open pairs in what is queried and assumed,
    // `2^n - 1` splits are enough.
    ensures { IfOk result (λ r. SaysMust r known.now (tree (tree_of e.now) none) budget
        (λ s. truth s (tree_of e.now) ≡ false)
        (λ s. truth s (tree_of e.now) ≡ true)) }
{
    match search_one(alloc, e, false, known, budget)? {
        Found::Facts(facts) => Ok(MustHold::No(facts)),
        Found::Nothing => Ok(MustHold::Yes),
        Found::Undecided => Ok(MustHold::Undecided),
    }
}

/// Returns whether `b` is true over each possible set of facts over which `a` is.
pub fn implies<'a>(
    alloc: Global,
    a: &'a CfgExpr,
    b: &'a CfgExpr,
    known: &'a FactConstraints<'a>,
    budget: u64,
) -> Result<MustHold, AllocError>
    // With `Yes`, it is so over each possible set of facts. With `No`, it is not so over the example, which is
    // possible.
    //
    // `Undecided` is returned only if the budget is too small. With `n` open pairs in what is queried and assumed,
    // `2^n - 1` splits are enough.
    ensures { IfOk result (λ r. SaysMust r known.now (tree (tree_of a.now) (tree (tree_of b.now) none)) budget
        (λ s. (truth s (tree_of a.now) ≡ true) × (truth s (tree_of b.now) ≡ false))
        (λ s. truth s (tree_of a.now) ≡ true → truth s (tree_of b.now) ≡ true)) }
{
    match search_counterexample(alloc, a, b, known, budget)? {
        Found::Facts(facts) => Ok(MustHold::No(facts)),
        Found::Nothing => Ok(MustHold::Yes),
        Found::Undecided => Ok(MustHold::Undecided),
    }
}

/// Returns whether `a` and `b` are never both true over a possible set of facts.
pub fn excludes<'a>(
    alloc: Global,
    a: &'a CfgExpr,
    b: &'a CfgExpr,
    known: &'a FactConstraints<'a>,
    budget: u64,
) -> Result<MustHold, AllocError>
    // With `Yes`, it is so over each possible set of facts. With `No`, it is not so over the example, which is
    // possible.
    //
    // `Undecided` is returned only if the budget is too small. With `n` open pairs in what is queried and assumed,
    // `2^n - 1` splits are enough.
    ensures { IfOk result (λ r. SaysMust r known.now (tree (tree_of a.now) (tree (tree_of b.now) none)) budget
        (λ s. (truth s (tree_of a.now) ≡ true) × (truth s (tree_of b.now) ≡ true))
        (λ s. truth s (tree_of a.now) ≡ true → truth s (tree_of b.now) ≡ false)) }
{
    let first = Goal { e: a, wanted: true };
    let second = Goal { e: b, wanted: true };
    match search_both(alloc, first, second, known, budget)? {
        Found::Facts(facts) => Ok(MustHold::No(facts)),
        Found::Nothing => Ok(MustHold::Yes),
        Found::Undecided => Ok(MustHold::Undecided),
    }
}

/// Returns whether `a` and `b` have the same truth over each possible set of facts. Each of the two implications has
/// the budget.
#[tactic(auto, using(crate::proofs::Answering::both_ways, crate::proofs::Spending::other_order))]
pub fn equivalent<'a>(
    alloc: Global,
    a: &'a CfgExpr,
    b: &'a CfgExpr,
    known: &'a FactConstraints<'a>,
    budget: u64,
) -> Result<MustHold, AllocError>
    // With `Yes`, it is so over each possible set of facts. With `No`, it is not so over the example, which is
    // possible.
    //
    // `Undecided` is returned only if the budget is too small. With `n` open pairs in what is queried and assumed,
    // `2^n - 1` splits are enough.
    ensures { IfOk result (λ r. SaysMust r known.now (tree (tree_of a.now) (tree (tree_of b.now) none)) budget
        (λ s. truth s (tree_of a.now) ≡ not (truth s (tree_of b.now)))
        (λ s. truth s (tree_of a.now) ≡ truth s (tree_of b.now))) }
{
    match search_counterexample(alloc, a, b, known, budget)? {
        Found::Facts(facts) => Ok(MustHold::No(facts)),
        Found::Nothing => match search_counterexample(alloc, b, a, known, budget)? {
            Found::Facts(facts) => Ok(MustHold::No(facts)),
            Found::Nothing => Ok(MustHold::Yes),
            Found::Undecided => Ok(MustHold::Undecided),
        },
        Found::Undecided => match search_counterexample(alloc, b, a, known, budget)? {
            Found::Facts(facts) => Ok(MustHold::No(facts)),
            Found::Nothing | Found::Undecided => Ok(MustHold::Undecided),
        },
    }
}

/// Searches for a possible set of facts.
fn search_any<'a>(
    alloc: Global,
    known: &'a FactConstraints<'a>,
    budget: u64,
) -> Result<Found, AllocError>
    ensures { IfOk result (λ r. SaysFound r known.now none budget (λ s. Unit {0}) (λ s. ⊥)) }
{
    let goals = [Goal {
        e: known.assumed,
        wanted: true,
    }];
    let mut path = Path::new(alloc, known);
    search(alloc, &goals, &mut path, budget)
}

/// Searches for a possible set of facts over which the expression has the truth that is wanted.
fn search_one<'a>(
    alloc: Global,
    e: &'a CfgExpr,
    wanted: bool,
    known: &'a FactConstraints<'a>,
    budget: u64,
) -> Result<Found, AllocError>
    ensures { IfOk result (λ r. SaysFound r known.now (tree (tree_of e.now) none) budget
        (λ s. truth s (tree_of e.now) ≡ wanted)
        (λ s. truth s (tree_of e.now) ≡ not wanted)) }
{
    let goals = [
        Goal {
            e: known.assumed,
            wanted: true,
        },
        Goal { e, wanted },
    ];
    search_assuming(alloc, &goals, known, budget)
}

/// Searches for a possible set of facts over which `a` is true and `b` is false.
fn search_counterexample<'a>(
    alloc: Global,
    a: &'a CfgExpr,
    b: &'a CfgExpr,
    known: &'a FactConstraints<'a>,
    budget: u64,
) -> Result<Found, AllocError>
    ensures { IfOk result (λ r. SaysFound r known.now (tree (tree_of a.now) (tree (tree_of b.now) none)) budget
        (λ s. (truth s (tree_of a.now) ≡ true) × (truth s (tree_of b.now) ≡ false))
        (λ s. truth s (tree_of a.now) ≡ true → truth s (tree_of b.now) ≡ true)) }
{
    let first = Goal { e: a, wanted: true };
    let second = Goal {
        e: b,
        wanted: false,
    };
    search_both(alloc, first, second, known, budget)
}

/// Searches for a possible set of facts over which both goals are met.
pub fn search_both<'a>(
    alloc: Global,
    first: Goal<'a>,
    second: Goal<'a>,
    known: &'a FactConstraints<'a>,
    budget: u64,
) -> Result<Found, AllocError>
    ensures { IfOk result (λ r.
        SaysFound r known.now (tree (tree_of first.entry.e.now) (tree (tree_of second.entry.e.now) none)) budget
        (λ s. (truth s (tree_of first.entry.e.now) ≡ first.entry.wanted)
        × (truth s (tree_of second.entry.e.now) ≡ second.entry.wanted))
        (λ s. truth s (tree_of first.entry.e.now) ≡ first.entry.wanted
        → truth s (tree_of second.entry.e.now) ≡ not second.entry.wanted)) }
{
    let goals = [
        Goal {
            e: known.assumed,
            wanted: true,
        },
        first,
        second,
    ];
    search_assuming(alloc, &goals, known, budget)
}
