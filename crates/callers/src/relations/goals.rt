//! Tests of the outcomes of goals in `goal_diagrams`. An expression says whether an odd or an even number of names are
//! set, in any order of the names.

use crate::support::expression;
use cargo_platform::{Cfg, ReadError};
use exact_answers::goal_diagrams::{Choice, Goal, Outcome, find_choices};
use partial_facts::OneValued;
use std::alloc::{AllocError, Global};
use std::process::Abort;
use std::test::Fail;

/// An expression that is true if an odd number of three names are set.
const ODD: &str =
    "any(all(a, any(all(b, c), all(not(b), not(c)))), all(not(a), any(all(b, not(c)), all(not(b), c))))";

/// The same expression in another order.
const ODD_TOO: &str =
    "any(all(c, any(all(a, b), all(not(a), not(b)))), all(not(c), any(all(a, not(b)), all(not(a), b))))";

/// Two expressions, of which the first has to be true and the other to have this truth value, and the outcome within a
/// number of nodes. `unix` is a fact, and of the other names only `a`, `b` and `c` can be.
#[derive(Drop)]
struct Row {
    first: &'static str,
    other: &'static str,
    wanted: bool,
    most_nodes: usize,
    outcome: &'static str,
}

const ROWS: [Row; 8] = [
    Row {
        first: ODD,
        other: ODD_TOO,
        wanted: false,
        most_nodes: 100,
        outcome: "nothing",
    },
    Row {
        first: ODD,
        other: ODD_TOO,
        wanted: true,
        most_nodes: 100,
        outcome: "a way",
    },
    Row {
        first: ODD,
        other: ODD_TOO,
        wanted: true,
        most_nodes: 2,
        outcome: "too large",
    },
    Row {
        first: "all()",
        other: "any()",
        wanted: false,
        most_nodes: 100,
        outcome: "a way",
    },
    Row {
        first: "all(a, unix)",
        other: "any(b, not(c))",
        wanted: false,
        most_nodes: 100,
        outcome: "a way",
    },
    Row {
        first: "any(a, b)",
        other: "unix",
        wanted: false,
        most_nodes: 100,
        outcome: "nothing",
    },
    Row {
        first: "target_os = \"one\"",
        other: "target_os = \"two\"",
        wanted: true,
        most_nodes: 100,
        outcome: "nothing",
    },
    Row {
        first: "loom",
        other: "a",
        wanted: true,
        most_nodes: 100,
        outcome: "too large",
    },
];

/// The pairs that nodes decide.
const PAIRS: [&str; 5] = ["a", "b", "c", "target_os = \"one\"", "target_os = \"two\""];

/// Parses names and pairs.
fn values(alloc: Global, texts: &[&str]) -> Result<Vec<Cfg>, AllocError> {
    let mut found = Vec::new(alloc);
    for text in texts {
        match Cfg::from_str(alloc, text) {
            Ok(c) => found.push(c)?,
            Err(ReadError::Memory(refused)) => return Err(refused),
            Err(ReadError::Parse(_fault)) => {}
        }
    }
    Ok(found)
}

/// Returns the outcome of goals within a number of nodes, if `unix` is known to be a fact.
fn found_among(
    alloc: Global,
    goals: &[Goal<'_>],
    pairs: &[Cfg],
    most_nodes: usize,
) -> Result<Outcome, AllocError> {
    let mut asked = Vec::new(alloc);
    for c in pairs {
        asked.push(c)?;
    }
    let told = values(alloc, &["unix"])?;
    let known = OneValued {
        facts: &told,
        complete: &["unix"],
        single: &["target_os"],
    };
    find_choices(alloc, goals, &asked, &known, &["target_os"], most_nodes)
}

/// Returns the facts that a path chooses, and `unix`.
fn chosen_facts(alloc: Global, pairs: &[Cfg], choices: &[Choice]) -> Result<Vec<Cfg>, AllocError> {
    let mut facts = values(alloc, &["unix"])?;
    for choice in choices {
        if let Some(c) = pairs.get(choice.number) {
            if choice.holds {
                facts.push(c.clone(alloc)?)?;
            }
        }
    }
    Ok(facts)
}

/// Returns the outcome of a row. A path counts as one if the expressions have their truth values over its facts.
fn outcome_of(rt: &impl Abort, alloc: Global, row: &Row) -> Result<&'static str, AllocError> {
    let first = expression(rt, alloc, row.first);
    let other = expression(rt, alloc, row.other);
    let goals = [
        Goal {
            e: &first,
            wanted: true,
        },
        Goal {
            e: &other,
            wanted: row.wanted,
        },
    ];
    let pairs = values(alloc, &PAIRS)?;
    let choices = match found_among(alloc, &goals, &pairs, row.most_nodes)? {
        Outcome::Way(choices) => choices,
        Outcome::Nothing => return Ok("nothing"),
        Outcome::TooLarge => return Ok("too large"),
    };
    let facts = chosen_facts(alloc, &pairs, &choices)?;
    if first.matches(&facts) && other.matches(&facts) == row.wanted {
        Ok("a way")
    } else {
        Ok("no way")
    }
}

/// Asserts the outcome of a row.
fn assert_outcome(rt: &impl Abort, outcome: &str, row: &Row) {
    assert!(rt; outcome == row.outcome, "{}, {}", row.first, row.other);
}

#[test]
fn goals_come_to_what_is_told(rt: HostRuntime) -> Result<(), Fail> {
    for row in &ROWS {
        let outcome = outcome_of(&rt, rt.alloc(), row)?;
        assert_outcome(&rt, outcome, row);
    }
    Ok(())
}
