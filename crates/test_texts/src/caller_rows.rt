//! Rows on the callers of the crate `callers`.

use crate::asked;
use callers::conditions::audit::{canonical, is_one_key, record_licence, record_licence_hashed};
use callers::conditions::describe::describe;
use callers::conditions::fixed_key::is_unix;
use callers::conditions::limited::read_within;
use callers::conditions::linter::lint;
use callers::conditions::members::members_of_all;
use callers::conditions::own_error::{ManifestError, read_key};
use callers::conditions::own_facts::System;
use callers::conditions::planner::plan;
use callers::conditions::printed_facts::holds_for;
use callers::conditions::selected::is_selected;
use callers::conditions::underline::underlined;
use cargo_platform::{CfgExpr, FactsError, Platform, ReadError};
use std::alloc::{AllocError, Global};
use std::collections::{BTreeMap, HashMap};
use test_rows::bars::{add_text, barred};
use test_rows::fields::Fields;
use test_rows::forms::{printed, word, yes_or_no};
use test_rows::texts::{expression, platform};
use test_rows::{Fault, made_facts};

/// The line number of keys.
const LINE: usize = 7;

/// A key that is in no row.
const OTHER: &str = "cfg(other)";

/// Returns the answer to a row whose words are `fields`. `call` is the part of its kind after the dot.
pub fn answer(alloc: Global, call: &str, fields: &mut Fields<'_>) -> Result<String, Fault> {
    if call == "unix" {
        return unix(alloc, fields);
    }
    let text = fields.text(alloc)?;
    of_text(alloc, call, &text, fields)
}

/// Returns the answer to a row that begins with a text.
fn of_text(
    alloc: Global,
    call: &str,
    text: &str,
    fields: &mut Fields<'_>,
) -> Result<String, Fault> {
    match call {
        "selects" => selects(alloc, text, fields),
        "holds" => holds(alloc, text, fields),
        "plan" => planned(alloc, text, fields),
        "lint" => linted(alloc, text),
        "canonical" => in_one_form(alloc, text),
        "one" => one(alloc, text, fields),
        "key" => key(alloc, text),
        "describe" => described(alloc, text, fields),
        "underline" => underline(alloc, text),
        "members" => members(alloc, text),
        "within" => within(alloc, text, fields.number()?),
        "system" => of_system(alloc, text, fields),
        _ => Err(Fault::Row("there is no such kind")),
    }
}

fn unix(alloc: Global, fields: &mut Fields<'_>) -> Result<String, Fault> {
    let facts = made_facts::values(alloc, fields)?;
    Ok(yes_or_no(alloc, is_unix(alloc, &facts)?)?)
}

/// Returns whether a key selects a target with these facts.
fn selects(alloc: Global, key: &str, fields: &mut Fields<'_>) -> Result<String, Fault> {
    let target = fields.text(alloc)?;
    let facts = made_facts::values(alloc, fields)?;
    match unless_refused(is_selected(alloc, key, &target, &facts))? {
        Some(holds) => Ok(yes_or_no(alloc, holds)?),
        None => Ok(word(alloc, "refused")?),
    }
}

/// Returns whether an expression is true over facts as rustc prints them.
fn holds(alloc: Global, text: &str, fields: &mut Fields<'_>) -> Result<String, Fault> {
    let e = expression(alloc, text)?;
    held(alloc, holds_for(alloc, &e, &fields.text(alloc)?))
}

fn linted(alloc: Global, key: &str) -> Result<String, Fault> {
    Ok(barred(alloc, &lint(alloc, "Cargo.toml", key)?)?)
}

fn in_one_form(alloc: Global, key: &str) -> Result<String, Fault> {
    match unless_refused(canonical(alloc, key))? {
        Some(text) => Ok(barred(alloc, &text)?),
        None => Ok(word(alloc, "refused")?),
    }
}

fn described(alloc: Global, key: &str, fields: &mut Fields<'_>) -> Result<String, Fault> {
    let target = fields.text(alloc)?;
    let facts = made_facts::values(alloc, fields)?;
    Ok(barred(alloc, &describe(alloc, key, &target, &facts)?)?)
}

fn underline(alloc: Global, key: &str) -> Result<String, Fault> {
    match underlined(alloc, key)? {
        Some(lines) => Ok(barred(alloc, &lines)?),
        None => Ok(word(alloc, "nothing")?),
    }
}

/// Returns the printed key, if it is not nested deeper than `most`.
fn within(alloc: Global, key: &str, most: u64) -> Result<String, Fault> {
    match unless_refused(read_within(alloc, key, most as usize))? {
        Some(Some(platform)) => Ok(barred(alloc, &platform.to_string(alloc)?)?),
        Some(None) => Ok(word(alloc, "too deep")?),
        None => Ok(word(alloc, "refused")?),
    }
}

/// Returns the result, or `None` if the text is rejected.
fn unless_refused<T: Drop>(answer: Result<T, ReadError>) -> Result<Option<T>, Fault> {
    match answer {
        Ok(answer) => Ok(Some(answer)),
        Err(ReadError::Parse(_)) => Ok(None),
        Err(ReadError::Memory(_)) => Err(Fault::Memory),
    }
}

fn held(alloc: Global, answer: Result<bool, FactsError>) -> Result<String, Fault> {
    match answer {
        Ok(holds) => Ok(yes_or_no(alloc, holds)?),
        Err(FactsError::Line { number, .. }) => Ok(format!(in alloc; "refused line {number}")?),
        Err(FactsError::Memory(_)) => Err(Fault::Memory),
    }
}

/// Returns which of the keys, one per line, are true on a target.
fn planned(alloc: Global, lines: &str, fields: &mut Fields<'_>) -> Result<String, Fault> {
    let target = fields.text(alloc)?;
    let facts = made_facts::values(alloc, fields)?;
    let plan = plan(alloc, &target, &facts, &keys(alloc, lines)?)?;
    let mut out = word(alloc, "applies:")?;
    for applies in &plan {
        out.push_str(if *applies { " yes" } else { " no" })?;
    }
    Ok(out)
}

/// Parses keys, one per line.
fn keys(alloc: Global, lines: &str) -> Result<Vec<Platform>, Fault> {
    let mut keys = Vec::new(alloc);
    for line in lines.lines() {
        keys.push(platform(alloc, line)?).map_err(AllocError::from)?;
    }
    Ok(keys)
}

/// The licences under keys, in maps of both kinds.
#[derive(Drop)]
struct Licences {
    sorted: BTreeMap<Platform, String>,
    hashed: HashMap<Platform, String>,
}

impl Licences {
    /// Returns maps with `Zlib` under another key, and then `MIT` under this one.
    fn of(alloc: Global, key: &str) -> Result<Licences, Fault> {
        let mut licences = Licences {
            sorted: BTreeMap::new(alloc),
            hashed: HashMap::new(alloc),
        };
        licences.note(alloc, OTHER, "Zlib")?;
        licences.note(alloc, key, "MIT")?;
        Ok(licences)
    }

    fn note(&mut self, alloc: Global, key: &str, licence: &str) -> Result<(), Fault> {
        record_licence(
            &mut self.sorted,
            platform(alloc, key)?,
            word(alloc, licence)?,
        )?;
        record_licence_hashed(
            &mut self.hashed,
            platform(alloc, key)?,
            word(alloc, licence)?,
        )?;
        Ok(())
    }

    /// Appends the licences under a key.
    fn add(&self, out: &mut String, key: &Platform) -> Result<(), AllocError> {
        add_licence(out, self.sorted.get(key))?;
        add_licence(out, self.hashed.get(key))
    }
}

fn add_licence(out: &mut String, licence: Option<&String>) -> Result<(), AllocError> {
    out.push(' ')?;
    out.push_str(licence.map_or("none", |it| it.as_str()))
}

/// Returns whether two keys are one, and the licences under the second one and under another key, in maps of both
/// kinds, once `MIT` is recorded under the first key, and `Zlib` under that other one.
fn one(alloc: Global, first: &str, fields: &mut Fields<'_>) -> Result<String, Fault> {
    let second = asked::key(alloc, fields)?;
    let licences = Licences::of(alloc, first)?;
    let mut out = yes_or_no(alloc, is_one_key(&platform(alloc, first)?, &second))?;
    licences.add(&mut out, &second)?;
    licences.add(&mut out, &platform(alloc, OTHER)?)?;
    Ok(out)
}

fn key(alloc: Global, key: &str) -> Result<String, Fault> {
    match read_key(alloc, LINE, key) {
        Ok(platform) => Ok(barred(alloc, &printed(alloc, &platform)?)?),
        Err(refusal) => refused(alloc, &refusal),
    }
}

fn refused(alloc: Global, refusal: &ManifestError) -> Result<String, Fault> {
    if let ManifestError::Memory(_) = refusal {
        return Err(Fault::Memory);
    }
    let mut out = word(alloc, "refused ")?;
    add_text(&mut out, &printed(alloc, refusal)?)?;
    Ok(out)
}

/// Returns the members of an `all`, printed.
fn members(alloc: Global, text: &str) -> Result<String, Fault> {
    match members_of_all(expression(alloc, text)?) {
        Some(members) => Ok(in_print(alloc, &members)?),
        None => Ok(word(alloc, "none")?),
    }
}

fn in_print(alloc: Global, members: &[CfgExpr]) -> Result<String, AllocError> {
    let mut out = word(alloc, "members:")?;
    for member in members {
        out.push(' ')?;
        add_text(&mut out, &printed(alloc, member)?)?;
    }
    Ok(out)
}

/// Returns whether an expression is true for a system that is `unix`.
fn of_system(alloc: Global, text: &str, fields: &mut Fields<'_>) -> Result<String, Fault> {
    let system = System {
        name: fields.text(alloc)?,
        is_unix: true,
    };
    Ok(yes_or_no(alloc, expression(alloc, text)?.matches_in(&system))?)
}
