//! Helpers of several tests.

use spdx_expressions::{Licence, LicenceExpression, ReadError};
use std::alloc::{AllocError, Global};
use std::process::Abort;

/// Formats an error: its position and its message.
fn refusal(alloc: Global, error: &ReadError) -> Result<String, AllocError> {
    match error {
        ReadError::Parse(fault) => {
            let start = fault.span.start;
            let end = fault.span.end;
            let expected = &fault.expected;
            let found = &fault.found;
            format!(in alloc; "{start}..{end}: expected {expected}, found {found}")
        }
        ReadError::Memory(_) => format!(in alloc; "no memory"),
    }
}

/// Returns the canonical text of an expression, or its error.
fn expression(alloc: Global, text: &str) -> Result<String, AllocError> {
    match LicenceExpression::from_str(alloc, text) {
        Ok(read) => format!(in alloc; "{read}"),
        Err(error) => refusal(alloc, &error),
    }
}

/// Returns the canonical text of a licence, or its error.
fn licence(alloc: Global, text: &str) -> Result<String, AllocError> {
    match Licence::from_str(alloc, text) {
        Ok(read) => format!(in alloc; "{read}"),
        Err(error) => refusal(alloc, &error),
    }
}

/// Asserts the result of parsing a text as an expression.
pub fn assert_expression(rt: &impl Abort, alloc: Global, text: &str, wanted: &str) {
    let shown = expression(alloc, text).expect(rt, "memory");
    assert!(rt; shown.as_str() == wanted, "{text}: {shown}");
}

/// Asserts the result of parsing a text as one licence.
pub fn assert_licence(rt: &impl Abort, alloc: Global, text: &str, wanted: &str) {
    let shown = licence(alloc, text).expect(rt, "memory");
    assert!(rt; shown.as_str() == wanted, "{text}: {shown}");
}

/// Returns whether an expression is satisfied if these entries are allowed.
pub fn is_satisfied(rt: &impl Abort, alloc: Global, text: &str, entries: &[&str]) -> bool {
    let mut allowed = Vec::new(alloc);
    for entry in entries {
        let read = Licence::from_str(alloc, entry).expect(rt, "a licence");
        allowed.push(read).expect(rt, "memory");
    }
    let read = LicenceExpression::from_str(alloc, text).expect(rt, "an expression");
    read.is_satisfied(&allowed)
}
