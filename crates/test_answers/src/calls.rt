//! The rule of families, and the names of the targets on which a condition is true if names and keys are open.

use crate::targets::names;
use exact_answers::family_rule;
use known_targets::{certainly_matching, possibly_matching};
use std::alloc::Global;
use test_rows::Fault;
use test_rows::bars::barred;
use test_rows::fields::Fields;
use test_rows::forms::printed;
use test_rows::texts::platform;

/// Returns the answer to a row whose words are `fields`. `call` is the part of its kind after the dot.
pub fn answer(alloc: Global, call: &str, fields: &mut Fields<'_>) -> Result<String, Fault> {
    match call {
        "rule" => rule(alloc),
        "certain" => certain(alloc, fields),
        "possible" => possible(alloc, fields),
        _ => Err(Fault::Row("there is no such kind")),
    }
}

fn rule(alloc: Global) -> Result<String, Fault> {
    let rule = printed(alloc, &family_rule(alloc)?)?;
    Ok(barred(alloc, &rule)?)
}

fn certain(alloc: Global, fields: &mut Fields<'_>) -> Result<String, Fault> {
    let p = platform(alloc, &fields.text(alloc)?)?;
    names(alloc, certainly_matching(alloc, &p, &fields.list(alloc)?)?)
}

fn possible(alloc: Global, fields: &mut Fields<'_>) -> Result<String, Fault> {
    let p = platform(alloc, &fields.text(alloc)?)?;
    names(alloc, possibly_matching(alloc, &p, &fields.list(alloc)?)?)
}
