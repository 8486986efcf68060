//! Texts of a manifest that a suggestion replaces, and what it replaces them with.

use crate::diagnostic::Diagnostic;
use crate::removals::list_entry_removals;
use manifest_lints_findings::{KeyLint, Lint};
use manifests::key_locations::Location;
use std::alloc::{AllocError, Global};
use toml_spans::Position;

/// A replacement for a name that the text of a manifest spells.
#[derive(Drop)]
pub struct Replacement {
    /// The first place of the name.
    pub at: Location,
    /// Its later places, at which the same text is to be written.
    pub also_at: Vec<Location>,
    /// The text to write there.
    pub text: String,
    /// How sure the replacement is, in the words of rustc.
    pub applicability: &'static str,
}

impl Replacement {
    /// Returns whether a machine can apply the replacement: it keeps the meaning of the manifest.
    pub fn is_sure(&self) -> bool {
        self.applicability == SURE
    }
}

/// The word of rustc for a replacement that a machine can apply.
const SURE: &str = "MachineApplicable";

/// Returns whether a character has to be escaped in a literal string of TOML.
fn needs_escape(c: char) -> bool {
    c == '\'' || c.is_control()
}

/// Appends a character of a basic string of TOML.
fn push_escaped(text: &mut String, alloc: Global, c: char) -> Result<(), AllocError> {
    match c {
        '"' => text.push_str("\\\""),
        '\\' => text.push_str("\\\\"),
        _ if c.is_control() => {
            let code = u32::from(c);
            let escape = format!(in alloc; "\\U{code:08x}")?;
            text.push_str(escape.as_str())
        }
        _ => text.push(c),
    }
}

/// Formats a name as a quoted key of TOML: a literal string, or a basic string if the name has to be escaped. Fails if
/// memory is refused.
pub fn quoted_key(alloc: Global, name: &str) -> Result<String, AllocError> {
    if !name.chars().any(needs_escape) {
        return format!(in alloc; "'{name}'");
    }
    let mut text = String::from_str(alloc, "\"")?;
    for c in name.chars() {
        push_escaped(&mut text, alloc, c)?;
    }
    text.push_str("\"")?;
    Ok(text)
}

/// Returns how sure the suggestions of a lint are: those that keep the meaning of the key, or of a table's name, can be
/// applied by a machine.
fn applicability_of(lint: Option<Lint>) -> &'static str {
    match lint {
        Some(Lint::Key(KeyLint::NotCanonical | KeyLint::ReadOtherwise)) => SURE,
        Some(Lint::Underscored | Lint::UnneededAllow) => SURE,
        _ => "MaybeIncorrect",
    }
}

/// Returns a suggestion as the text of a manifest spells it: a key in quotes, and the name of a table without.
fn spelled(alloc: Global, lint: Option<Lint>, suggestion: &str) -> Result<String, AllocError> {
    match lint {
        Some(Lint::Underscored | Lint::UnneededAllow) => String::from_str(alloc, suggestion),
        _ => quoted_key(alloc, suggestion),
    }
}

/// Returns what is to be deleted of a text to remove the entry of a list at this place.
fn place_of_removal(alloc: Global, text: &str, at: Location) -> Result<Location, AllocError> {
    let removals = list_entry_removals(alloc, text, &[at.span])?;
    let span = removals.first().copied().unwrap_or(at.span);
    let start = Position::START.after(text.get(..span.start).unwrap_or(""));
    Ok(Location {
        span,
        line: start.line,
        column: start.column,
    })
}

/// Returns the replacement that a diagnostic on a manifest with this text suggests, if it suggests one and the place of
/// the name is known. Fails if memory is refused.
pub fn replacement_of(
    alloc: Global,
    text: &str,
    diagnostic: &Diagnostic,
) -> Result<Option<Replacement>, AllocError> {
    match (&diagnostic.suggestion, diagnostic.key_at) {
        (Some(suggestion), Some(at)) => {
            let at = match diagnostic.removed_entry() {
                Some(_) => place_of_removal(alloc, text, at)?,
                None => at,
            };
            Ok(Some(Replacement {
                at,
                also_at: diagnostic.also_at.clone()?,
                text: spelled(alloc, diagnostic.lint, suggestion.as_str())?,
                applicability: applicability_of(diagnostic.lint),
            }))
        }
        _ => Ok(None),
    }
}
