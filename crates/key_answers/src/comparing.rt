//! `compare`: how two keys relate to each other.

use crate::answer::{Answer, QueryError, Status};
use crate::comparison::json_line;
use crate::conditions::read_key;
use crate::printing::format_example;
use crate::work::{KeyPair, case_split_budget};
use cargo_platform::{CfgExpr, Platform};
use exact_answers::{
    FactConstraints, ONE_VALUED, PossibleTarget, Validity, excludes_platform, family_rule,
    implies_platform,
};
use known_targets::{COUNT, TargetSet, matching};
use std::alloc::{AllocError, Global};

/// The relations between two keys, in the order in which they are printed.
#[derive(Clone, Copy, Debug, PartialEq, Eq)]
pub enum Relation {
    Implies,
    ImpliedBy,
    Equivalent,
    Excludes,
}

/// The maximal number of target names in a line.
const SHOWN: usize = 3;

/// All relations, in the order in which they are printed.
pub(crate) const RELATIONS: [Relation; 4] = [
    Relation::Implies,
    Relation::ImpliedBy,
    Relation::Equivalent,
    Relation::Excludes,
];

impl Relation {
    /// Returns the relation's name in text.
    pub fn words(self) -> &'static str {
        match self {
            Relation::Implies => "implies",
            Relation::ImpliedBy => "is implied by",
            Relation::Equivalent => "equivalent",
            Relation::Excludes => "excludes",
        }
    }

    /// Returns the relation's field in JSON.
    pub fn field(self) -> &'static str {
        match self {
            Relation::Implies => "implies",
            Relation::ImpliedBy => "implied_by",
            Relation::Equivalent => "equivalent",
            Relation::Excludes => "excludes",
        }
    }
}

/// The relations between two keys on every possible target, that is, for every possible set of facts.
#[derive(Drop)]
pub struct ExactRelations {
    pub implies: Validity,
    pub implied_by: Validity,
    pub excludes: Validity,
}

impl ExactRelations {
    /// Returns whether each key implies the other one. An example against either shows that they are not equivalent.
    pub fn equivalent(&self) -> &Validity {
        match (&self.implies, &self.implied_by) {
            (Validity::Yes, _) | (Validity::Undecided, Validity::No(_)) => &self.implied_by,
            _ => &self.implies,
        }
    }

    /// Returns the answer on a relation.
    fn on(&self, relation: Relation) -> &Validity {
        match relation {
            Relation::Implies => &self.implies,
            Relation::ImpliedBy => &self.implied_by,
            Relation::Equivalent => self.equivalent(),
            Relation::Excludes => &self.excludes,
        }
    }
}

/// The relations between two keys on the known targets, each with its own facts.
#[derive(Clone, Copy, Drop)]
pub struct KnownTargetRelations {
    /// Whether each relation is true on all known targets, in the order of `RELATIONS`.
    pub held: [bool; 4],
    /// The targets on which both keys are true.
    pub both: TargetSet,
    /// The targets on which the first key is true and the second is false.
    pub first_alone: TargetSet,
    /// The targets on which the second key is true and the first is false.
    pub second_alone: TargetSet,
}

/// Returns how `a` relates to `b` on the known targets.
pub(crate) fn at_known_targets(
    alloc: Global,
    a: &Platform,
    b: &Platform,
) -> Result<KnownTargetRelations, AllocError> {
    let at_a = matching(alloc, a)?;
    let at_b = matching(alloc, b)?;
    let both = at_a.intersection(at_b);
    let first_alone = at_a.intersection(at_b.complement());
    let second_alone = at_b.intersection(at_a.complement());
    let implies = first_alone.is_empty();
    let implied_by = second_alone.is_empty();
    Ok(KnownTargetRelations {
        held: [implies, implied_by, implies && implied_by, both.is_empty()],
        both,
        first_alone,
        second_alone,
    })
}

/// Returns the answer with the facts of its example sorted, each once.
fn tidy(answer: Validity) -> Result<Validity, AllocError> {
    match answer {
        Validity::No(PossibleTarget { name, mut facts }) => {
            facts.sort()?;
            facts.dedup();
            Ok(Validity::No(PossibleTarget { name, facts }))
        }
        other => Ok(other),
    }
}

/// Returns the text for the answer on a relation.
fn told(alloc: Global, answer: &Validity) -> Result<String, AllocError> {
    match answer {
        Validity::Yes => String::from_str(alloc, "yes"),
        Validity::Undecided => String::from_str(alloc, "undecided"),
        Validity::No(example) => {
            let example = format_example(alloc, example)?;
            format!(in alloc; "no, {example}")
        }
    }
}

/// Returns the text for the relations that are true on each known target.
fn told_at_known(alloc: Global, held: &[bool; 4]) -> Result<String, AllocError> {
    let mut text = String::new(alloc);
    for (relation, holds) in RELATIONS.iter().zip(held.iter()) {
        if *holds {
            if !text.is_empty() {
                text.push_str(", ")?;
            }
            text.push_str(relation.words())?;
        }
    }
    if text.is_empty() {
        text.push_str("none")?;
    }
    Ok(text)
}

/// Appends how many targets there are, and the names of the first of them.
fn push_targets(
    text: &mut String,
    alloc: Global,
    label: &str,
    targets: TargetSet,
) -> Result<(), AllocError> {
    let count = targets.len();
    let counted = match count {
        0 => String::from_str(alloc, "none")?,
        1 => String::from_str(alloc, "1 target")?,
        _ => format!(in alloc; "{count} targets")?,
    };
    let counted = counted.as_str();
    let line = format!(in alloc; "    {label}: {counted}")?;
    text.push_str(line.as_str())?;
    let mut shown: usize = 0;
    for target in targets.iter() {
        if shown == SHOWN {
            break;
        }
        let before = if shown == 0 { ": " } else { ", " };
        text.push_str(before)?;
        text.push_str(target.name())?;
        shown = shown.saturating_add(1);
    }
    let more = count.saturating_sub(shown);
    if more > 0 {
        let line = format!(in alloc; " and {more} more")?;
        text.push_str(line.as_str())?;
    }
    text.push_str("\n")
}

/// Returns the lines on the known targets.
fn known_lines(alloc: Global, known: &KnownTargetRelations) -> Result<String, AllocError> {
    let told = told_at_known(alloc, &known.held)?;
    let mut lines = format!(in alloc; "at the {COUNT} known targets: {told}\n")?;
    push_targets(&mut lines, alloc, "both", known.both)?;
    push_targets(&mut lines, alloc, "the first alone", known.first_alone)?;
    push_targets(&mut lines, alloc, "the second alone", known.second_alone)?;
    Ok(lines)
}

/// Returns how `a` relates to `b` on every possible target, within this number of case splits for each search.
fn found_everywhere<'a>(
    alloc: Global,
    a: &'a Platform,
    b: &'a Platform,
    known: &'a FactConstraints<'a>,
    splits: u64,
) -> Result<ExactRelations, AllocError> {
    Ok(ExactRelations {
        implies: tidy(implies_platform(alloc, a, b, known, splits)?)?,
        implied_by: tidy(implies_platform(alloc, b, a, known, splits)?)?,
        excludes: tidy(excludes_platform(alloc, a, b, known, splits)?)?,
    })
}

/// Returns the notes on relations that would take too many case splits.
fn undecided_notes(
    alloc: Global,
    everywhere: &ExactRelations,
    budget: u64,
) -> Result<String, AllocError> {
    let mut errors = String::new(alloc);
    for relation in RELATIONS {
        if matches!(everywhere.on(relation), Validity::Undecided) {
            let words = relation.words();
            let note = format!(in alloc; "note: {words}: {budget} steps are used up\n")?;
            errors.push_str(note.as_str())?;
        }
    }
    Ok(errors)
}

/// Returns the meaning of a group without members.
fn empty_group(e: &CfgExpr) -> Option<&'static str> {
    let (members, meaning) = match e {
        CfgExpr::Any(members) => (members, "it is true on no target"),
        CfgExpr::All(members) => (members, "it is true on every target"),
        CfgExpr::Not(_) | CfgExpr::Value(_) | CfgExpr::True | CfgExpr::False => return None,
    };
    if members.is_empty() {
        Some(meaning)
    } else {
        None
    }
}

/// Returns the note on an empty key, which has no text or is a group without members. It is empty for other keys.
fn empty_note(alloc: Global, place: &str, key: &Platform) -> Result<String, AllocError> {
    let meaning = match key {
        Platform::Cfg(e) => empty_group(e),
        Platform::Name(name) => {
            if name.is_empty() {
                Some("no target has this name")
            } else {
                None
            }
        }
    };
    match meaning {
        Some(meaning) => format!(in alloc; "note: the {place} key is empty: {meaning}\n"),
        None => Ok(String::new(alloc)),
    }
}

/// Returns the answers, one a line: those on the known targets, followed by those on every possible target.
fn lines_of(
    alloc: Global,
    everywhere: &ExactRelations,
    known: &KnownTargetRelations,
) -> Result<String, AllocError> {
    let mut lines = known_lines(alloc, known)?;
    lines.push_str("at the targets of any specification:\n")?;
    for relation in RELATIONS {
        let words = relation.words();
        let told = told(alloc, everywhere.on(relation))?;
        let line = format!(in alloc; "    {words}: {told}\n")?;
        lines.push_str(line.as_str())?;
    }
    Ok(lines)
}

/// Returns how the keys relate, on every possible target and on the known ones.
fn compared(
    alloc: Global,
    keys: &KeyPair<'_>,
    rule: &CfgExpr,
    budget: u64,
    json: bool,
) -> Result<Answer, AllocError> {
    let known = FactConstraints {
        facts: &[],
        complete: &[],
        single: ONE_VALUED,
        assumed: rule,
    };
    let at_known = at_known_targets(alloc, keys.a, keys.b)?;
    let splits = case_split_budget(alloc, keys, budget)?;
    let everywhere = found_everywhere(alloc, keys.a, keys.b, &known, splits)?;
    let mut errors = empty_note(alloc, "first", keys.a)?;
    let second = empty_note(alloc, "second", keys.b)?;
    errors.push_str(second.as_str())?;
    let undecided = undecided_notes(alloc, &everywhere, budget)?;
    errors.push_str(undecided.as_str())?;
    let output = if json {
        json_line(alloc, &everywhere, &at_known)?
    } else {
        lines_of(alloc, &everywhere, &at_known)?
    };
    Ok(Answer {
        output,
        errors,
        status: Status::Fine,
    })
}

/// Returns how two keys relate. Each search may take this number of steps.
pub fn compare(
    alloc: Global,
    first: &str,
    second: &str,
    budget: u64,
    json: bool,
) -> Result<Answer, QueryError> {
    let a = read_key(alloc, first)?;
    let b = read_key(alloc, second)?;
    let rule = family_rule(alloc)?;
    let keys = KeyPair {
        first,
        a: &a,
        second,
        b: &b,
    };
    Ok(compared(alloc, &keys, &rule, budget, json)?)
}
