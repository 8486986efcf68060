//! Copies, and what they print. The copy of a name or pair is printed after a text.

use cargo_platform::{CfgExpr, Platform};
use std::alloc::{AllocError, Global};
use std::fmt::Display;
use test_rows::bars::add_text;
use test_rows::fields::Fields;
use test_rows::forms::{self, add_name, add_value, word};
use test_rows::{Fault, made_facts, texts};

/// Returns the answer to a row whose words are `fields`. `call` is the part of its kind after the dot.
pub fn answer(alloc: Global, call: &str, fields: &mut Fields<'_>) -> Result<String, Fault> {
    match call {
        "name" => name(alloc, fields.need()?),
        "fact" => fact(alloc, fields.need()?),
        "target" => target(alloc, fields),
        "expr" => expression(alloc, fields),
        _ => Err(Fault::Row("there is no such kind")),
    }
}

fn name(alloc: Global, word: &str) -> Result<String, Fault> {
    let copy = made_facts::name(alloc, word)?.clone(alloc)?;
    let mut out = String::new(alloc);
    add_name(&mut out, &copy)?;
    printed(alloc, out, &copy)
}

fn fact(alloc: Global, word: &str) -> Result<String, Fault> {
    let copy = made_facts::value(alloc, word)?.clone(alloc)?;
    let mut out = String::new(alloc);
    add_value(&mut out, &copy)?;
    printed(alloc, out, &copy)
}

fn target(alloc: Global, fields: &mut Fields<'_>) -> Result<String, Fault> {
    let copy = Platform::Name(fields.text(alloc)?).clone(alloc)?;
    printed(alloc, String::new(alloc), &copy)
}

fn expression(alloc: Global, fields: &mut Fields<'_>) -> Result<String, Fault> {
    let is_same = prints_itself(alloc, &fields.text(alloc)?)?;
    let answer = if is_same {
        "prints itself"
    } else {
        "otherwise"
    };
    Ok(word(alloc, answer)?)
}

/// Appends what a copy prints to a text.
fn printed<T: Display>(alloc: Global, mut out: String, copy: &T) -> Result<String, Fault> {
    if !out.is_empty() {
        out.push_str(" prints ")?;
    }
    let mut text = String::from_str(alloc, "held ")?;
    write!(text, "{copy}")?;
    match text.strip_prefix("held ") {
        Some(printed) => add_text(&mut out, printed)?,
        None => out.push_str("over what was held")?,
    }
    Ok(out)
}

/// Returns whether the copy of an expression prints the text that it was parsed from, also for debugging, as a
/// condition and in its JSON. Its levels take no stack of the test program.
fn prints_itself(alloc: Global, text: &str) -> Result<bool, Fault> {
    let copy = texts::expression(alloc, text)?.clone(alloc)?;
    Ok(is_print(alloc, &copy, text)? && is_condition(alloc, copy, text)?)
}

fn is_print(alloc: Global, e: &CfgExpr, text: &str) -> Result<bool, AllocError> {
    let printed = forms::printed(alloc, e)?;
    let debugged = format!(in alloc; "{e:?}")?;
    Ok(printed.as_str() == text && debugged.as_str() == text)
}

fn is_condition(alloc: Global, e: CfgExpr, text: &str) -> Result<bool, AllocError> {
    let json = Platform::Cfg(e).clone(alloc)?.to_json(alloc)?;
    let key = format!(in alloc; "cfg({text})")?;
    Ok(json.as_str() == Some(key.as_str()))
}
