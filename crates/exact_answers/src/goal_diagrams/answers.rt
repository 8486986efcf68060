//! The query whether goals can be met.

ghost use Rattle.std.specs.Prelude.{◌≡◌, ◌<◌, List, IfOk};
ghost use Rattle.std.specs.Borrow.{Bor};
ghost use Rattle.cargo_platform.specs.declared.cfg.Cfg.{Cfg};
ghost use Rattle.cargo_platform.specs.Facts.{FactSet};
ghost use Rattle.partial_facts.specs.Partly.{names_of};
ghost use Rattle.exact_answers.specs.Diagrams.{nodes_of, places, AreEarlier, IsTable, IsMade};
ghost use Rattle.exact_answers.specs.Goals.{goals_met, HasOneOpenValue, pairs_of, SaysOutcome, IsAsTold};
ghost use Rattle.exact_answers.specs.Inside.Making.{says};

use crate::goal_diagrams::building::{Goal, Query, at_most_one_value, build_goals};
use crate::goal_diagrams::table::{Choice, DiagramError, Table};
use cargo_platform::Cfg;
use partial_facts::Knowledge;
use std::alloc::{AllocError, Global};

/// The result for goals.
#[derive(Drop)]
pub enum Outcome {
    /// Each goal is met over each possible set of facts that agrees with these choices. Pairs are given by their
    /// numbers.
    Way(Vec<Choice>),
    /// Over no possible set of facts is each goal met.
    Nothing,
    /// The diagram would be too large, the goals are nested too deep, or an open pair in them is not among those that
    /// were given.
    TooLarge,
}

/// Returns the result if no diagram could be built.
fn without_diagram(stop: DiagramError) -> Result<Outcome, AllocError>
    ensures { IfOk result (λ r. r ≡ Outcome.TooLarge) }
{
    match stop {
        DiagramError::TooLarge => Ok(Outcome::TooLarge),
        DiagramError::Memory(refused) => Err(refused),
    }
}

/// Returns the place of the sets over which each goal is met and no key in `single` has two values.
fn build_all<K: Knowledge>(
    query: &Query<'_, '_, K>,
    table: &mut Table,
    goals: &[Goal<'_>],
    single: &[&str],
) -> Result<usize, DiagramError>
    requires { IsTable (nodes_of table.old) table.old.joined.items }
    ensures made { IfOk result (IsMade table.old table.new) }
    ensures means { IfOk result (λ place. (s : FactSet) → IsAsTold (K.told query.now.known.now) s
        → HasOneOpenValue (K.told query.now.known.now) (names_of single.now) s
        → says s query.now.pairs.now table.new place ≡ goals_met s goals.now) }
{
    let among = at_most_one_value(query, table, single)?;
    build_goals(query, table, among, goals)
}

/// Returns choices that lead from this place to what is true.
fn choices_from(alloc: Global, table: &Table, place: usize) -> Result<Outcome, AllocError>
    requires table { AreEarlier (nodes_of table.now) }
    requires place { place < places (nodes_of table.now) }
    ensures { IfOk result (λ r. (s : FactSet) (cs : List (Bor Cfg))
        → SaysOutcome r s (pairs_of cs) (says s cs table.now place)) }
{
    if place == 0 {
        return Ok(Outcome::Nothing);
    }
    let choices = table.satisfying_choices(alloc, place)?;
    Ok(Outcome::Way(choices))
}

/// Finds choices over which each goal is met, if there are any, by a diagram whose nodes test these pairs, in this
/// order. A set of facts is possible if `known` allows it, and if no key in `single` has two values in it that are open
/// by `known`.
pub fn find_choices<K: Knowledge>(
    alloc: Global,
    goals: &[Goal<'_>],
    pairs: &[&Cfg],
    known: &K,
    single: &[&str],
    most_nodes: usize,
) -> Result<Outcome, AllocError>
    // With choices, each goal is met over each possible set of facts that agrees with them. With `Nothing`, no possible
    // set meets all goals.
    ensures { IfOk result (λ r. (s : FactSet) → K.allows known.now s
        → HasOneOpenValue (K.told known.now) (names_of single.now) s
        → SaysOutcome r s (pairs_of pairs.now) (goals_met s goals.now)) }
{
    let mut table = Table::new(alloc, most_nodes)?;
    let query = Query { known, pairs };
    match build_all(&query, &mut table, goals, single) {
        Ok(place) => choices_from(alloc, &table, place),
        Err(stop) => without_diagram(stop),
    }
}
