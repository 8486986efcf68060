//! Exact answers, each compared with the result of trying all sets of facts.

use crate::all_sets::Question;
use crate::row_facts;
use cargo_platform::{Cfg, CfgExpr, Platform};
use exact_answers::{
    CanHold, FactConstraints, MustHold, ONE_VALUED, PossibleTarget, Satisfiability, Validity,
    always, always_platform, can_hold, can_hold_platform, equivalent, equivalent_platform,
    excludes, excludes_platform, family_rule, has_possible_facts, implies, implies_platform,
};
use std::alloc::{AllocError, Global};
use test_rows::Fault;
use test_rows::bars::text_of;
use test_rows::fields::Fields;
use test_rows::forms::{self, word};
use test_rows::texts::{expression, platform};

/// The knowledge about a target in a setting: facts, complete names, keys with one value, and an assumption.
#[derive(Drop)]
struct Held<'a> {
    facts: Vec<Cfg>,
    complete: Vec<&'a str>,
    single: Vec<&'a str>,
    assumed: CfgExpr,
}

impl<'a> Held<'a> {
    fn known(&self) -> FactConstraints<'_> {
        FactConstraints {
            facts: &self.facts,
            complete: &self.complete,
            single: &self.single,
            assumed: &self.assumed,
        }
    }
}

/// Returns the keys with one value: those that are named, where `rustc` stands for those of rustc.
fn keys<'a>(alloc: Global, words: &[&'a str]) -> Result<Vec<&'a str>, Fault> {
    let mut keys = Vec::new(alloc);
    for word in words {
        if *word != "rustc" {
            keys.push(*word).map_err(AllocError::from)?;
            continue;
        }
        for key in ONE_VALUED {
            keys.push(*key).map_err(AllocError::from)?;
        }
    }
    Ok(keys)
}

/// Returns the knowledge that is set under a name.
fn set_under<'a>(alloc: Global, fields: &mut Fields<'a>) -> Result<Held<'a>, Fault> {
    let name = fields.need()?;
    let Some(mut set) = fields.set(name) else {
        return Err(Fault::Row("nothing is set under this name"));
    };
    let facts = row_facts::values(alloc, &mut set)?;
    let complete = set.list(alloc)?;
    let single = keys(alloc, &set.list(alloc)?)?;
    let assumed = assumed(alloc, set.word())?;
    Ok(Held {
        facts,
        complete,
        single,
        assumed,
    })
}

/// Returns the assumption that the last word of a setting gives: the rule of families, a text, or nothing.
fn assumed(alloc: Global, word: Option<&str>) -> Result<CfgExpr, Fault> {
    match word {
        None => Ok(CfgExpr::True),
        Some("family") => Ok(family_rule(alloc)?),
        Some(word) => expression(alloc, &text_of(alloc, word)?),
    }
}

/// Returns the answer to a row. `call` is the kind of the question, and after a `.` how it is asked and printed.
pub fn answer(alloc: Global, call: &str, fields: &mut Fields<'_>) -> Result<String, Fault> {
    let (kind, more) = call.split_once('.').unwrap_or((call, ""));
    let budget = if more == "within" {
        fields.number()?
    } else {
        1000
    };
    let held = set_under(alloc, fields)?;
    let of_keys = matches!(more, "key" | "target");
    let question = question(alloc, kind, of_keys, fields)?;
    answered(alloc, &question, &held.known(), budget, more)
}

fn answered(
    alloc: Global,
    question: &Question<'_>,
    known: &FactConstraints<'_>,
    budget: u64,
    more: &str,
) -> Result<String, Fault> {
    match more {
        "least" => least(alloc, question, known),
        "key" | "target" => {
            let found = of_targets(alloc, question, known)?;
            judged(alloc, question, known, &found, more)
        }
        _ => within(alloc, question, known, budget, more),
    }
}

/// Returns the answer on expressions within a budget.
fn within(
    alloc: Global,
    question: &Question<'_>,
    known: &FactConstraints<'_>,
    budget: u64,
    more: &str,
) -> Result<String, Fault> {
    let found = of_facts(alloc, question, known, budget)?;
    judged(alloc, question, known, &found, more)
}

/// Returns a question. Expressions are asked as conditions, but by the calls for expressions.
fn question<'a>(
    alloc: Global,
    kind: &'a str,
    of_keys: bool,
    fields: &mut Fields<'_>,
) -> Result<Question<'a>, Fault> {
    let counted = match kind {
        "met" => 0,
        "can" | "always" => 1,
        "implies" | "exclude" | "same" => 2,
        _ => return Err(Fault::Row("there is no such question")),
    };
    let first = condition(alloc, counted > 0, of_keys, fields)?;
    let second = condition(alloc, counted > 1, of_keys, fields)?;
    Ok(Question {
        kind,
        first,
        second,
    })
}

fn condition(
    alloc: Global,
    is_there: bool,
    of_keys: bool,
    fields: &mut Fields<'_>,
) -> Result<Platform, Fault> {
    if !is_there {
        return Ok(Platform::Cfg(CfgExpr::True));
    }
    let text = fields.text(alloc)?;
    if of_keys {
        return platform(alloc, &text);
    }
    Ok(Platform::Cfg(expression(alloc, &text)?))
}

/// The target that was found, which is an example or a counterexample, if there is one.
#[derive(Drop)]
enum Found {
    Target(PossibleTarget),
    None,
    Undecided,
}

fn of_facts(
    alloc: Global,
    question: &Question<'_>,
    known: &FactConstraints<'_>,
    budget: u64,
) -> Result<Found, Fault> {
    let (Platform::Cfg(a), Platform::Cfg(b)) = (&question.first, &question.second) else {
        return Err(Fault::Row("the question is on expressions"));
    };
    match question.kind {
        "can" => Ok(example(can_hold(alloc, a, known, budget)?)),
        "met" => Ok(example(has_possible_facts(alloc, known, budget)?)),
        "always" => Ok(counterexample(always(alloc, a, known, budget)?)),
        "implies" => Ok(counterexample(implies(alloc, a, b, known, budget)?)),
        "exclude" => Ok(counterexample(excludes(alloc, a, b, known, budget)?)),
        _ => Ok(counterexample(equivalent(alloc, a, b, known, budget)?)),
    }
}

fn with_facts(facts: Vec<Cfg>) -> Found {
    Found::Target(PossibleTarget { name: None, facts })
}

fn example(answer: CanHold) -> Found {
    match answer {
        CanHold::Yes(facts) => with_facts(facts),
        CanHold::No => Found::None,
        CanHold::Undecided => Found::Undecided,
    }
}

fn counterexample(answer: MustHold) -> Found {
    match answer {
        MustHold::Yes => Found::None,
        MustHold::No(facts) => with_facts(facts),
        MustHold::Undecided => Found::Undecided,
    }
}

fn of_targets(
    alloc: Global,
    question: &Question<'_>,
    known: &FactConstraints<'_>,
) -> Result<Found, Fault> {
    let (a, b) = (&question.first, &question.second);
    let answer = match question.kind {
        "can" => {
            return match can_hold_platform(alloc, a, known, 1000)? {
                Satisfiability::Yes(target) => Ok(Found::Target(target)),
                Satisfiability::No => Ok(Found::None),
                Satisfiability::Undecided => Ok(Found::Undecided),
            };
        }
        "always" => always_platform(alloc, a, known, 1000)?,
        "implies" => implies_platform(alloc, a, b, known, 1000)?,
        "exclude" => excludes_platform(alloc, a, b, known, 1000)?,
        _ => equivalent_platform(alloc, a, b, known, 1000)?,
    };
    match answer {
        Validity::Yes => Ok(Found::None),
        Validity::No(target) => Ok(Found::Target(target)),
        Validity::Undecided => Ok(Found::Undecided),
    }
}

/// Returns the answer, if trying all names and sets has the same result, and the target is possible and such an
/// example.
fn judged(
    alloc: Global,
    question: &Question<'_>,
    known: &FactConstraints<'_>,
    found: &Found,
    more: &str,
) -> Result<String, Fault> {
    let is_right = match found {
        Found::Target(target) => { question.is_found(known, target.name.as_deref(), &target.facts) }
        Found::None => !question.is_met(alloc, known)?,
        Found::Undecided => true,
    };
    if is_right {
        return told(alloc, question.kind, found, more);
    }
    Ok(word(alloc, "trying all sets says otherwise")?)
}

fn told(alloc: Global, kind: &str, found: &Found, more: &str) -> Result<String, Fault> {
    let is_example = matches!(kind, "can" | "met");
    match found {
        Found::Target(target) => match more {
            "set" => Ok(forms::values(alloc, &target.facts)?),
            "target" => shown(alloc, target),
            _ => Ok(forms::yes_or_no(alloc, is_example)?),
        },
        Found::None => Ok(forms::yes_or_no(alloc, !is_example)?),
        Found::Undecided => Ok(word(alloc, "undecided")?),
    }
}

/// Returns the name of the target, or `-`, and its facts.
fn shown(alloc: Global, target: &PossibleTarget) -> Result<String, Fault> {
    let facts = forms::values(alloc, &target.facts)?;
    match &target.name {
        Some(name) => Ok(format!(in alloc; "{name} {facts}")?),
        None => Ok(format!(in alloc; "- {facts}")?),
    }
}

/// Returns the smallest budget that decides the question, and the answer, which the next budgets give too.
fn least(
    alloc: Global,
    question: &Question<'_>,
    known: &FactConstraints<'_>,
) -> Result<String, Fault> {
    let mut before = word(alloc, "undecided")?;
    let mut least = 0u64;
    for budget in 0..20u64 {
        let answer = within(alloc, question, known, budget, "")?;
        if answer == before {
            continue;
        }
        if before.as_str() != "undecided" {
            return Ok(format!(in alloc; "{before}, but {answer} within {budget}")?);
        }
        before = answer;
        least = budget;
    }
    Ok(format!(in alloc; "{before} from {least}")?)
}
