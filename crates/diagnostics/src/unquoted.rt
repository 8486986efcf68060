//! Conditions without quotes in a text that is for that reason not TOML, as in `[target.cfg(unix).dependencies]`, and
//! those with quotes that end at a value, as in `[target."cfg(target_os = "linux")".dependencies]`.

use crate::replacements::quoted_key;
use cargo_platform::printable_excerpt;
use manifests::key_locations::Location;
use std::alloc::{AllocError, Global};
use toml_spans::Span;

/// The name before the parenthesis.
const CFG: &str = "cfg";

/// The beginning of a condition.
const CFG_OPENED: &str = "cfg(";

/// A condition `cfg(..)` that is a key without quotes, or with quotes that end in it.
#[derive(Clone, Copy, Drop)]
pub struct Unquoted {
    /// The place of the key, with its quotes if it has some.
    pub at: Location,
    /// The bytes of the condition.
    condition: Span,
}

/// Returns the number of bytes up to the parenthesis that closes the first one, if that is on the same line. A
/// parenthesis in a string does not count.
fn closed_length(text: &str) -> Option<usize> {
    let mut depth: usize = 0;
    let mut is_in_string = false;
    for (place, c) in text.char_indices() {
        match c {
            '\n' => return None,
            '"' => is_in_string = !is_in_string,
            '(' if !is_in_string => depth = depth.saturating_add(1),
            ')' if !is_in_string => depth = depth.saturating_sub(1),
            _ => {}
        }
        if depth == 0 {
            return Some(place.saturating_add(1));
        }
    }
    None
}

/// Returns whether a key may begin after a text.
fn may_begin(before: &str) -> bool {
    match before.chars().next_back() {
        Some(c) => matches!(c, '[' | '.' | ' ' | '\t' | '\n' | '{' | ','),
        None => true,
    }
}

/// Returns the end of a text from its last line on, without spaces at the front.
fn last_line(text: &str) -> &str {
    let line = match text.rfind('\n') {
        Some(place) => text.get(place.saturating_add(1)..).unwrap_or(""),
        None => text,
    };
    line.trim_start()
}

/// Returns a text up to the bracket that ends a header, if there is one on its first line.
fn header_end(text: &str) -> Option<&str> {
    let line = match text.find('\n') {
        Some(end) => text.get(..end).unwrap_or(""),
        None => text,
    };
    let end = line.find(']')?;
    line.get(..end.saturating_add(1))
}

/// Returns the condition without quotes whose parenthesis is at the place of an error, if there is one.
fn without_quotes(text: &str, error: Location) -> Option<Unquoted> {
    let parenthesis = error.span.start;
    let before = text.get(..parenthesis)?.strip_suffix(CFG)?;
    let behind = text.get(parenthesis..)?;
    if !may_begin(before) || !behind.starts_with('(') {
        return None;
    }
    let end = parenthesis.saturating_add(closed_length(behind)?);
    let span = Span {
        start: before.len(),
        end,
    };
    Some(Unquoted {
        at: Location {
            span,
            line: error.line,
            column: error.column.saturating_sub(CFG.len()),
        },
        condition: span,
    })
}

/// Returns the condition in double quotes in which the place of an error comes after the first double quote.
fn with_quotes(text: &str, error: Location) -> Option<Unquoted> {
    let before = text.get(..error.span.start)?;
    let (before, begun) = before.strip_suffix("\"")?.rsplit_once('"')?;
    if !may_begin(before) || !begun.starts_with(CFG_OPENED) || begun.contains('\n') {
        return None;
    }
    let first = before.len();
    let start = first.saturating_add(1);
    let parenthesis = start.saturating_add(CFG.len());
    let end = parenthesis.saturating_add(closed_length(text.get(parenthesis..)?)?);
    if end <= error.span.start || !text.get(end..)?.starts_with('"') {
        return None;
    }
    Some(Unquoted {
        at: Location {
            span: Span {
                start: first,
                end: end.saturating_add(1),
            },
            line: error.line,
            column: error
                .column
                .saturating_sub(begun.chars().count().saturating_add(2)),
        },
        condition: Span { start, end },
    })
}

impl Unquoted {
    /// Returns the condition because of whose quotes there is an error at a place, if there is one.
    pub fn at(text: &str, error: Location) -> Option<Unquoted> {
        match without_quotes(text, error) {
            Some(found) => Some(found),
            None => with_quotes(text, error),
        }
    }

    /// Returns the condition. Fails if memory is refused.
    pub fn condition(&self, alloc: Global, text: &str) -> Result<String, AllocError> {
        String::from_str(alloc, self.condition.text_in(text).unwrap_or(""))
    }

    /// Returns what to write in place of the condition: the whole header if it is in one, or else the quoted key.
    fn mended(&self, alloc: Global, text: &str) -> Result<String, AllocError> {
        let condition = self.condition(alloc, text)?;
        let quoted = quoted_key(alloc, condition.as_str())?;
        let before = last_line(text.get(..self.at.span.start).unwrap_or(""));
        let behind = text.get(self.at.span.end..).unwrap_or("");
        match header_end(behind) {
            Some(behind) if before.starts_with('[') => {
                let quoted = quoted.as_str();
                format!(in alloc; "{before}{quoted}{behind}")
            }
            _ => Ok(quoted),
        }
    }

    /// Returns what to do. Fails if memory is refused.
    pub fn advice(&self, alloc: Global, text: &str) -> Result<String, AllocError> {
        let mended = self.mended(alloc, text)?;
        let shown = printable_excerpt(alloc, mended.as_str())?;
        format!(in alloc; "quote the key: `{shown}`")
    }
}
