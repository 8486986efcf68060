//! Texts as licence expressions: what they print, and whether they are satisfied if `a` is allowed, if `b` is, and if
//! both are; or the span and the reason of the error.

use spdx_expressions::{Licence, LicenceExpression, ParseError, ReadError};
use std::alloc::{AllocError, Global};
use test_rows::Fault;
use test_rows::bars::add_text;
use test_rows::fields::Fields;
use test_rows::forms::printed;

/// Returns the answer to a row whose words are `fields`. `call` is the part of its kind after the dot.
pub fn answer(alloc: Global, call: &str, fields: &mut Fields<'_>) -> Result<String, Fault> {
    let text = fields.text(alloc)?;
    match call {
        "expression" => match LicenceExpression::from_str(alloc, &text) {
            Ok(read) => Ok(satisfied(alloc, &read)?),
            Err(ReadError::Parse(fault)) => Ok(refused(alloc, &fault)?),
            Err(ReadError::Memory(_)) => Err(Fault::Memory),
        },
        _ => Err(Fault::Row("there is no such kind")),
    }
}

/// Returns the list of some licences.
fn entries(alloc: Global, texts: &[&str]) -> Result<Vec<Licence>, AllocError> {
    let mut allowed = Vec::new(alloc);
    for text in texts {
        match Licence::from_str(alloc, text) {
            Ok(licence) => allowed.push(licence)?,
            Err(ReadError::Memory(refused)) => return Err(refused),
            Err(ReadError::Parse(_fault)) => {}
        }
    }
    Ok(allowed)
}

/// Returns what an expression prints, and which lists satisfy it.
fn satisfied(alloc: Global, read: &LicenceExpression) -> Result<String, AllocError> {
    let mut out = String::new(alloc);
    add_text(&mut out, &printed(alloc, read)?)?;
    for allowed in [["a", "a"], ["b", "b"], ["a", "b"]] {
        let holds = read.is_satisfied(&entries(alloc, &allowed)?);
        out.push_str(if holds { " yes" } else { " no" })?;
    }
    Ok(out)
}

/// Returns the span and the reason of an error.
fn refused(alloc: Global, fault: &ParseError) -> Result<String, AllocError> {
    let start = fault.span.start;
    let end = fault.span.end;
    let expected = &fault.expected;
    let found = &fault.found;
    format!(in alloc; "refused {start}..{end}: expected {expected}, found {found}")
}
