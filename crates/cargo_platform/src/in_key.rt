//! Finds the place of a fault in the key of a manifest.

ghost use Rattle.std.specs.Prelude.{◌≡◌, IfOk, MatchOption};
ghost use Rattle.cargo_platform.specs.Errors.{fault_in, fault_meant, orig_of, span_in};
ghost use Rattle.cargo_platform.specs.KeySpans.{is_of_name, BeginsIn, IsNotIn, IsSpanInKey, IsSnippetOfKey};
ghost use Rattle.cargo_platform.specs.KeySpans.{further};
ghost use Rattle.cargo_platform.specs.Inside.FurtherSpans.{IsTooFar};

use crate::error::{ParseError, ParseErrorKind};
use crate::platforms::inside_cfg;
use crate::snippet::snippet_at;
use std::alloc::{AllocError, Global};
use std::ops::Range;

impl ParseError {
    /// Returns the bytes of a manifest's key at which the fault lies. A rejected target name is the whole key. The text
    /// of any other error is in the key between `cfg(` and `)`. Returns `None` for a key that does not have this text,
    /// and for an error that `new` made.
    ///
    /// An error does not know which function returned it, so pass the key that `Platform::from_str` rejected.
    pub fn span_in(&self, key: &str) -> Option<Range<usize>>
        // The fault's place in the whole key.
        ensures { IsSpanInKey key.now (orig_of self.now) (fault_in self.now) (span_in self.now) result }
    {
        let span = self.span()?;
        let place = place_in(key, self.orig(), self.kind())?;
        further(span, place)
    }

    /// Returns two lines for people, as `snippet` does, which show the manifest's key and the fault's span in it.
    /// Returns `None` if `span_in` does.
    pub fn snippet_in(&self, alloc: Global, key: &str) -> Result<Option<String>, AllocError>
        // The fault's place in the whole key.
        ensures { IfOk result
            (λ s. IsSnippetOfKey key.now (orig_of self.now) (fault_in self.now) (span_in self.now) s) }
    {
        match self.span_in(key) {
            Some(span) => snippet_at(alloc, key, span, self.kind()),
            None => Ok(None),
        }
    }
}

/// Returns the byte of the key at which the text of an error of this kind begins, if the text is there.
fn place_in(key: &str, text: &str, kind: &ParseErrorKind) -> Option<usize>
    ensures { MatchOption result
        (IsNotIn key.now text.now (fault_meant kind.now))
        (λ place. BeginsIn key.now text.now (fault_meant kind.now) place) }
{
    if is_of_name(kind) {
        return if key == text { Some(0) } else { None };
    }
    let inner = inside_cfg(key)?;
    if inner == text { Some(4) } else { None }
}

/// Returns the span moved by `place` bytes, if its ends fit a `usize`.
pub(crate) fn further(span: Range<usize>, place: usize) -> Option<Range<usize>>
    ensures { MatchOption result (IsTooFar place span) (λ found. found ≡ further place span) }
{
    let start = span.start.checked_add(place)?;
    let end = span.end.checked_add(place)?;
    Some(start..end)
}

/// Returns whether errors of the kind are about target names.
fn is_of_name(kind: &ParseErrorKind) -> bool
    ensures { result ≡ is_of_name (fault_meant kind.now) }
{
    matches!(kind, ParseErrorKind::InvalidTarget(_))
}
