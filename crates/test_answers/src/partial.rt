//! Decisions for a target that is known in part, and residuals.

use crate::all_sets::{over_completions, without};
use crate::row_facts;
use cargo_platform::{Cfg, CfgExpr, Listed, Platform};
use partial_facts::{
    Complete, Knowledge, ONE_VALUED, OneValued, Partial, decide, decide_platform, residual,
    residual_platform,
};
use std::alloc::{AllocError, Global};
use test_rows::Fault;
use test_rows::fields::Fields;
use test_rows::forms::{self, add_other, add_text_of, word};
use test_rows::texts::{expression, platform};

/// Returns the answer to a row whose words are `fields`. `call` is the part of its kind after the dot.
pub fn answer(alloc: Global, call: &str, fields: &mut Fields<'_>) -> Result<String, Fault> {
    match call {
        "expr" => in_part(alloc, fields),
        "single" => with_single(alloc, fields),
        "key" => of_key(alloc, fields),
        "later" => later(alloc, fields),
        "tried" => tried(alloc, fields),
        _ => Err(Fault::Row("there is no such kind")),
    }
}

/// The knowledge about a target in a row: facts, and complete names.
#[derive(Drop)]
struct Held<'a> {
    facts: Vec<Cfg>,
    complete: Vec<&'a str>,
}

impl<'a> Held<'a> {
    fn read(alloc: Global, fields: &mut Fields<'a>) -> Result<Held<'a>, Fault> {
        let facts = row_facts::values(alloc, fields)?;
        let complete = fields.list(alloc)?;
        Ok(Held { facts, complete })
    }

    fn known(&self) -> Partial<'_> {
        Partial {
            facts: &self.facts,
            complete: &self.complete,
        }
    }
}

/// Returns the word for a decision.
fn decision(decided: Option<bool>) -> &'static str {
    match decided {
        Some(true) => "yes",
        Some(false) => "no",
        None => "open",
    }
}

fn decided<K: Knowledge>(e: &CfgExpr, known: &K) -> Option<bool> {
    decide(e, known)
}

/// Returns the residual of an expression, printed.
fn print_left<K: Knowledge>(alloc: Global, e: &CfgExpr, known: &K) -> Result<String, AllocError> {
    forms::printed(alloc, &residual(alloc, e, known)?)
}

/// Returns the decision, and the residual if it is not the decision.
fn left<K: Knowledge>(alloc: Global, e: &CfgExpr, known: &K) -> Result<String, Fault> {
    let decided = decided(e, known);
    let left = print_left(alloc, e, known)?;
    leaves(alloc, decided, &left, "true", "false")
}

fn leaves(
    alloc: Global,
    decided: Option<bool>,
    left: &str,
    always: &str,
    never: &str,
) -> Result<String, Fault> {
    let mut out = word(alloc, decision(decided))?;
    match decided {
        Some(true) => add_other(&mut out, ", but leaves ", left, always)?,
        Some(false) => add_other(&mut out, ", but leaves ", left, never)?,
        None => add_text_of(&mut out, " ", left)?,
    }
    Ok(out)
}

fn in_part(alloc: Global, fields: &mut Fields<'_>) -> Result<String, Fault> {
    let e = expression(alloc, &fields.text(alloc)?)?;
    let held = Held::read(alloc, fields)?;
    left(alloc, &e, &held.known())
}

fn with_single(alloc: Global, fields: &mut Fields<'_>) -> Result<String, Fault> {
    let e = expression(alloc, &fields.text(alloc)?)?;
    let held = Held::read(alloc, fields)?;
    let known = OneValued {
        facts: &held.facts,
        complete: &held.complete,
        single: ONE_VALUED,
    };
    left(alloc, &e, &known)
}

/// Decides in two steps: the residual by the facts and complete names of the first step is decided by those of the
/// second.
fn later(alloc: Global, fields: &mut Fields<'_>) -> Result<String, Fault> {
    let e = expression(alloc, &fields.text(alloc)?)?;
    let first = Held::read(alloc, fields)?;
    let asked = residual(alloc, &e, &first.known())?;
    let second = Held::read(alloc, fields)?;
    Ok(print_left(alloc, &asked, &second.known())?)
}

/// Decides a condition. The name of the target is known, or `-`.
fn of_key(alloc: Global, fields: &mut Fields<'_>) -> Result<String, Fault> {
    let p = platform(alloc, &fields.text(alloc)?)?;
    let name = match fields.need()? {
        "-" => None,
        name => Some(name),
    };
    let held = Held::read(alloc, fields)?;
    key_left(alloc, &p, name, &held.known())
}

fn key_left(
    alloc: Global,
    p: &Platform,
    name: Option<&str>,
    known: &Partial<'_>,
) -> Result<String, Fault> {
    let decided = decide_platform(p, name, known);
    let left = forms::printed(alloc, &residual_platform(alloc, p, name, known)?)?;
    leaves(alloc, decided, &left, "cfg(true)", "cfg(false)")
}

/// Decides an expression, and compares that with its truth value over every completion of the unknown facts. No known
/// fact has the name or key of one of these.
fn tried(alloc: Global, fields: &mut Fields<'_>) -> Result<String, Fault> {
    let e = expression(alloc, &fields.text(alloc)?)?;
    let mut held = Held::read(alloc, fields)?;
    let unknown = row_facts::values(alloc, fields)?;
    held.facts = without(alloc, &held.facts, &unknown)?;
    Ok(word(alloc, beside_trying(alloc, &e, &held.known(), &unknown)?)?)
}

fn beside_trying(
    alloc: Global,
    e: &CfgExpr,
    known: &Partial<'_>,
    unknown: &[Cfg],
) -> Result<&'static str, Fault> {
    let decided = decided(e, known);
    if over_completions(alloc, e, known.facts, unknown)? != decided {
        return Ok("the completions say otherwise");
    }
    let left = residual(alloc, e, known)?;
    if over_completions(alloc, &left, known.facts, unknown)? != decided {
        return Ok("the completions of what is left say otherwise");
    }
    if decide(e, &Complete(&Listed(known.facts))) != Some(e.matches(known.facts)) {
        return Ok("not decided where all is known");
    }
    Ok(decision(decided))
}
