//! The snippets of rejected texts.

use cargo_platform::{CfgExpr, ParseError, Platform, ReadError, printable_excerpt, printable_text};
use std::alloc::Global;
use test_rows::Fault;
use test_rows::bars::{add_text, barred};
use test_rows::fields::Fields;
use test_rows::forms::word;

/// Returns the answer to a row whose words are `fields`. `call` is the part of its kind after the dot.
pub fn answer(alloc: Global, call: &str, fields: &mut Fields<'_>) -> Result<String, Fault> {
    let text = fields.text(alloc)?;
    match call {
        "expr" => of_expression(alloc, &text),
        "key" => of_key(alloc, &text),
        "shown" => shown(alloc, &text),
        _ => Err(Fault::Row("there is no such kind")),
    }
}

/// Returns the error of a text that is known to be rejected.
fn error_of(refusal: Option<ReadError>) -> Result<ParseError, Fault> {
    match refusal {
        Some(ReadError::Parse(error)) => Ok(error),
        Some(ReadError::Memory(_)) => Err(Fault::Memory),
        None => Err(Fault::Row("the text is read")),
    }
}

fn of_expression(alloc: Global, text: &str) -> Result<String, Fault> {
    let error = error_of(CfgExpr::from_str(alloc, text).err())?;
    lines(alloc, error.snippet(alloc)?)
}

/// Returns the lines of the snippet of a key. In another key, the error has none.
fn of_key(alloc: Global, key: &str) -> Result<String, Fault> {
    let error = error_of(Platform::from_str(alloc, key).err())?;
    let mut out = lines(alloc, error.snippet_in(alloc, key)?)?;
    if error.snippet_in(alloc, "unix")?.is_some() {
        out.push_str(", but in any key")?;
    }
    Ok(out)
}

fn lines(alloc: Global, snippet: Option<String>) -> Result<String, Fault> {
    match snippet {
        Some(lines) => Ok(barred(alloc, &lines)?),
        None => Ok(word(alloc, "nothing")?),
    }
}

/// Returns a text as it is displayed as a whole, and its start.
fn shown(alloc: Global, text: &str) -> Result<String, Fault> {
    let mut out = barred(alloc, &printable_text(alloc, text)?)?;
    out.push(' ')?;
    add_text(&mut out, &printable_excerpt(alloc, text)?)?;
    Ok(out)
}
