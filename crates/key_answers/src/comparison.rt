//! The line of `compare --json`.

use crate::comparing::{ExactRelations, KnownTargetRelations, RELATIONS};
use crate::json_lines;
use crate::targets::{AllTargets, TargetList, names_of};
use exact_answers::Validity;
use known_targets::TargetSet;
use serde::Serialize;
use std::alloc::{AllocError, Global};

/// Known targets.
#[derive(Drop, Serialize)]
struct Targets {
    /// Their names, or `all`.
    at: TargetList<'static>,
    /// The number of targets.
    targets: usize,
}

/// Whether a relation is true on every possible target.
#[derive(Drop, Serialize)]
struct Verdict<'a> {
    /// One of `yes`, `no` and `undecided`.
    answer: &'static str,
    /// With `no`, the facts of a target on which it is false.
    facts: Option<Vec<String>>,
    /// With `no`, the name of that target. Null means any name that is not one of the keys.
    target: Option<&'a str>,
}

/// The line of `compare --json`: how two keys relate.
#[derive(Drop, Serialize)]
struct Comparison<'a> {
    /// The known targets on which both keys are true.
    both: Targets,
    /// Whether both keys are true on the same targets.
    equivalent: Verdict<'a>,
    /// Whether the keys are never true on the same target.
    excludes: Verdict<'a>,
    /// The known targets on which only the first key is true.
    first_alone: Targets,
    /// Whether the second key implies the first one.
    implied_by: Verdict<'a>,
    /// Whether the first key implies the second one.
    implies: Verdict<'a>,
    /// The relations that are true on all known targets, each one of `implies`, `implied_by`, `equivalent` and
    /// `excludes`.
    known: Vec<&'static str>,
    /// The known targets on which only the second key is true.
    second_alone: Targets,
}

/// Returns known targets, for JSON.
fn targets_of(alloc: Global, targets: TargetSet) -> Result<Targets, AllocError> {
    let at = if targets.equals(TargetSet::all()) {
        TargetList::All(AllTargets::All)
    } else {
        TargetList::Names(names_of(alloc, targets)?)
    };
    Ok(Targets {
        at,
        targets: targets.len(),
    })
}

/// Returns the answer on a relation, for JSON.
fn verdict_of(alloc: Global, answer: &Validity) -> Result<Verdict<'_>, AllocError> {
    let example = match answer {
        Validity::No(example) => example,
        Validity::Yes => return Ok(Verdict::without_example("yes")),
        Validity::Undecided => return Ok(Verdict::without_example("undecided")),
    };
    let mut facts = Vec::new(alloc);
    for fact in &example.facts {
        facts.push(fact.to_string(alloc)?)?;
    }
    Ok(Verdict {
        answer: "no",
        facts: Some(facts),
        target: example.name.as_ref().map(|name: &String| name.as_str()),
    })
}

impl<'a> Verdict<'a> {
    /// Returns an answer without an example.
    fn without_example(answer: &'static str) -> Verdict<'a> {
        Verdict {
            answer,
            facts: None,
            target: None,
        }
    }
}

/// Returns the fields of the relations that are true on all known targets.
fn fields_of(alloc: Global, held: &[bool; 4]) -> Result<Vec<&'static str>, AllocError> {
    let mut fields = Vec::new(alloc);
    for (relation, holds) in RELATIONS.iter().zip(held.iter()) {
        if *holds {
            fields.push(relation.field())?;
        }
    }
    Ok(fields)
}

/// Returns the answers as a line of JSON.
pub fn json_line(
    alloc: Global,
    everywhere: &ExactRelations,
    known: &KnownTargetRelations,
) -> Result<String, AllocError> {
    let comparison = Comparison {
        both: targets_of(alloc, known.both)?,
        equivalent: verdict_of(alloc, everywhere.equivalent())?,
        excludes: verdict_of(alloc, &everywhere.excludes)?,
        first_alone: targets_of(alloc, known.first_alone)?,
        implied_by: verdict_of(alloc, &everywhere.implied_by)?,
        implies: verdict_of(alloc, &everywhere.implies)?,
        known: fields_of(alloc, &known.held)?,
        second_alone: targets_of(alloc, known.second_alone)?,
    };
    let mut text = String::new(alloc);
    json_lines::push_line(&mut text, alloc, &comparison)?;
    Ok(text)
}
