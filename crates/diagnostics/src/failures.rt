//! Diagnostics on what cannot be read or used. They are errors without a lint, so no rule changes their level.

use crate::diagnostic::Diagnostic;
use crate::level_rules::DiagnosticLevel;
use crate::unquoted::Unquoted;
use manifest_lints_findings::Children;
use manifests::key_locations::{Location, SourceMap};
use manifests::reading::SyntaxError;
use std::alloc::{AllocError, Global};
use toml_spans::Span;

/// Returns the diagnostic for a file that cannot be used, or for something that Cargo rejects, with its location if it
/// is known. Fails if memory is refused.
pub fn diagnostic_of_failure(
    alloc: Global,
    message: String,
    at: Option<Location>,
) -> Result<Diagnostic, AllocError> {
    let mut primary = Vec::new(alloc);
    if let Some(at) = at {
        primary.push(at)?;
    }
    Ok(Diagnostic {
        lint: None,
        level: DiagnosticLevel::Error,
        subject: String::new(alloc),
        key: None,
        message,
        children: Children::none(alloc),
        primary,
        label: None,
        key_at: None,
        also_at: Vec::new(alloc),
        suggestion: None,
        span: None,
    })
}

/// Returns the diagnostic on a manifest that is not TOML. If the quotes of a key `cfg(..)` are missing or end in it,
/// the diagnostic suggests quoting it. Fails if an allocation fails.
pub fn diagnostic_of_syntax(alloc: Global, error: &SyntaxError) -> Result<Diagnostic, AllocError> {
    let message = error.message.clone()?;
    let mut diagnostic = diagnostic_of_failure(alloc, message, Some(error.at))?;
    let text = error.text.as_str();
    if let Some(unquoted) = Unquoted::at(text, error.at) {
        diagnostic.key_at = Some(unquoted.at);
        diagnostic.suggestion = Some(unquoted.condition(alloc, text)?);
        diagnostic.children = Children::of_help(alloc, unquoted.advice(alloc, text)?)?;
    }
    Ok(diagnostic)
}

/// Returns the place of a byte of a key, or else that of the key.
fn place_in_key(
    alloc: Global,
    locations: &SourceMap,
    key: &str,
    byte: usize,
) -> Result<Option<Location>, AllocError> {
    let part = Span {
        start: byte,
        end: byte.saturating_add(1),
    };
    match locations.location_of_part(alloc, key, part)? {
        Some(at) => Ok(Some(at)),
        None => locations.location_in_key(alloc, key),
    }
}

/// Returns the diagnostic for a key that cannot be used because of an error at this byte of the key. Fails if memory is
/// refused.
pub fn diagnostic_of_key(
    alloc: Global,
    locations: &SourceMap,
    key: &str,
    byte: usize,
    message: String,
) -> Result<Diagnostic, AllocError> {
    let at = place_in_key(alloc, locations, key, byte)?;
    let mut diagnostic = diagnostic_of_failure(alloc, message, at)?;
    diagnostic.subject = String::from_str(alloc, "target")?;
    diagnostic.key = Some(String::from_str(alloc, key)?);
    diagnostic.span = Some((byte, byte.saturating_add(1)));
    Ok(diagnostic)
}
