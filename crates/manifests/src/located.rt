//! The places of keys and of their parts, checked against the text.

ghost use Rattle.std.specs.Prelude.{◌≡◌, IfOk, IfSome, string_bytes};
ghost use Rattle.manifests.specs.Located.{IsAtName, IsAtPart};

use crate::key_locations::{Location, SourceMap};
use std::alloc::{AllocError, Global};
use toml_spans::{Position, Span, part_of_name, spells};

/// Returns a place, if the text there spells this name.
fn at_name(
    alloc: Global,
    text: &str,
    at: Location,
    name: &str,
) -> Result<Option<Location>, AllocError>
    ensures { IfOk result (λ found. IfSome found (λ at. IsAtName text.now name.now at)) }
{
    let Some(spelled) = at.span.text_in(text) else {
        return Ok(None);
    };
    if spells(alloc, spelled, name)? {
        return Ok(Some(at));
    }
    Ok(None)
}

/// Returns the place of the part of a name with this span, where `whole` is the place of the name.
fn behind(text: &str, whole: Location, span: Span) -> Location
    ensures { result.span ≡ span }
{
    let before = Span {
        start: whole.span.start,
        end: span.start,
    };
    let start = Position {
        byte: whole.span.start,
        line: whole.line,
        column: whole.column,
    };
    let position = start.after(before.text_in(text).unwrap_or(""));
    Location {
        span,
        line: position.line,
        column: position.column,
    }
}

/// Returns the place of a part of a name, where the place of the name is `whole`.
fn at_part(
    alloc: Global,
    text: &str,
    whole: Location,
    name: &str,
    part: Span,
) -> Result<Option<Location>, AllocError>
    ensures { IfOk result (λ found. IfSome found (λ at. IsAtPart text.now name.now part at)) }
{
    match part_of_name(alloc, text, whole.span, name, part)? {
        Some(span) => Ok(Some(behind(text, whole, span))),
        None => Ok(None),
    }
}

impl SourceMap {
    /// Returns the place of a key of `target`, if it is known and the text there spells the key, which
    /// `location_of_key` does not check. Fails if an allocation fails.
    pub fn location_in_key(&self, alloc: Global, key: &str) -> Result<Option<Location>, AllocError>
        // The place lies in the text, and the text there spells the key.
        ensures { IfOk result (λ found. IfSome found (λ at. IsAtName (string_bytes self.now.text) key.now at)) }
    {
        match self.location_of_key(key) {
            Some(at) => at_name(alloc, self.text.as_str(), at, key),
            None => Ok(None),
        }
    }

    /// Returns the place of a part of a key of `target`, given as a span in the key, in bytes. Returns `None` if the
    /// key has no known place, or an escape spells more than the part. Fails if an allocation fails.
    pub fn location_of_part(
        &self,
        alloc: Global,
        key: &str,
        part: Span,
    ) -> Result<Option<Location>, AllocError>
        // The place lies in the text, and between quotes the text there spells the part.
        ensures { IfOk result (λ found. IfSome found
            (λ at. IsAtPart (string_bytes self.now.text) key.now part at)) }
    {
        match self.location_of_key(key) {
            Some(whole) => at_part(alloc, self.text.as_str(), whole, key, part),
            None => Ok(None),
        }
    }
}
