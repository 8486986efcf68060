//! The span and the reason of an error in a licence expression, for text output.

use crate::lines::push;
use cargo_platform::printable_text;
use spdx_expressions::ParseError;
use std::alloc::{AllocError, Global};

/// The maximum number of characters of a text that are shown.
const SHOWN: usize = 100;

/// The maximum number of characters that are shown before the error.
const BEFORE: usize = 40;

/// Formats what was expected and what was found.
pub fn fault_message(alloc: Global, error: &ParseError) -> Result<String, AllocError> {
    let expected = &error.expected;
    let found = &error.found;
    format!(in alloc; "expected {expected}, found {found}")
}

/// Returns the number of characters before the error of a text, and the number of characters in its span.
fn places(error: &ParseError) -> (usize, usize) {
    let mut before: usize = 0;
    let mut inside: usize = 0;
    for (at, _) in error.text.as_str().char_indices() {
        if at < error.span.start {
            before = before.saturating_add(1);
        } else if at < error.span.end {
            inside = inside.saturating_add(1);
        }
    }
    (before, inside)
}

/// Formats the text around its error, and below it carets under the error with what was expected. Both lines are
/// indented.
pub fn fault_lines(alloc: Global, error: &ParseError) -> Result<String, AllocError> {
    let (before, inside) = places(error);
    let first = before.saturating_sub(BEFORE);
    let end = first.saturating_add(SHOWN);
    let mut part = String::new(alloc);
    let mut marks = String::new(alloc);
    let mut place: usize = 0;
    for c in error.text.as_str().chars() {
        if first <= place && place < end {
            part.push(c)?;
            if place < before {
                push(&mut marks, " ")?;
            } else if place < before.saturating_add(inside) {
                push(&mut marks, "^")?;
            }
        }
        place = place.saturating_add(1);
    }
    if inside == 0 {
        push(&mut marks, "^")?;
    }
    let part = printable_text(alloc, part.as_str())?;
    let message = fault_message(alloc, error)?;
    let (left, margin) = if first > 0 { ("..", "  ") } else { ("", "") };
    let right = if end < place { ".." } else { "" };
    format!(in alloc; "    {left}{part}{right}\n    {margin}{marks} {message}\n")
}
