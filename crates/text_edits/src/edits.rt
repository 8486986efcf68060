//! The text after edits.

ghost use Rattle.std.specs.Prelude.{◌≡◌, ◌↔◌, IfOk, IsTrue, string_bytes};
ghost use Rattle.text_edits.specs.Edits.{Edited, Fits};

use std::alloc::{AllocError, Global};

/// A text that replaces the bytes from `start` up to `end`.
#[derive(Drop)]
pub struct Edit {
    pub start: usize,
    /// The byte after the last one.
    pub end: usize,
    pub text: String,
}

/// A text after edits.
#[derive(Drop)]
pub struct EditResult {
    pub text: String,
    /// The number of edits that were left out.
    pub left: usize,
}

/// Returns whether an edit can be applied to a text from a byte on: it begins there or later, does not end before it
/// begins, and both ends are in the text, between characters.
pub(crate) fn fits(text: &str, at: usize, edit: &Edit) -> bool
    ensures { IsTrue result ↔ Fits text.now at edit.now }
{
    at <= edit.start
        && edit.start <= edit.end
        && text.is_char_boundary(edit.start)
        && text.is_char_boundary(edit.end)
}

/// Applies edits to a text, in their order. An edit is left out if it does not fit the text behind the last one that
/// was applied. Fails if an allocation fails.
pub fn apply(alloc: Global, text: &str, edits: &[Edit]) -> Result<EditResult, AllocError>
    ensures { IfOk result (λ it. Edited text.now 0 edits.now (string_bytes it.text) it.left) }
{
    let mut edited = String::new(alloc);
    let mut left: usize = 0;
    let mut at: usize = 0;
    for edit in edits {
        if fits(text, at, edit) {
            edited.push_str(&text[at..edit.start])?;
            edited.push_str(edit.text.as_str())?;
            at = edit.end;
        } else {
            left += 1;
        }
    }
    edited.push_str(&text[at..])?;
    Ok(EditResult { text: edited, left })
}
