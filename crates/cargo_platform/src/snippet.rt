//! Shows in two lines where a text is rejected.

ghost use Rattle.std.specs.Prelude.{◌≡◌, ◌≤◌, ◌+◌, IfOk, length, string_bytes, Some, map};
ghost use Rattle.std.specs.Prelude.{encode_utf8_all, min, nat_le, ◌&&◌};
ghost use Rattle.std.specs.List.{list_all};
ghost use Rattle.std.specs.Str.{chars};
ghost use Rattle.unicode.specs.GeneralCategory.{general_category};
ghost use Rattle.cargo_platform.specs.Errors.{fault_in, fault_meant, orig_of, span_in};
ghost use Rattle.cargo_platform.specs.Print.{print_fault};
ghost use Rattle.cargo_platform.specs.Snippets.{is_mark_category, is_separator_category, is_control_category};
ghost use Rattle.cargo_platform.specs.Snippets.{is_other_category, is_hidden_category, shown, margin, caret_count};
ghost use Rattle.cargo_platform.specs.Snippets.{first_shown, end_shown, shown_part, shown_line};
ghost use Rattle.cargo_platform.specs.Snippets.{carets, dots, shown_fault, lines, lines_by, IsSnippet};

use crate::error::{ParseError, ParseErrorKind};
use std::alloc::{AllocError, Global};
use std::ops::Range;
use unicode::properties::GeneralCategory;

/// A text with more characters than this is cut.
const WIDTH: usize = 100;

/// How many characters before a span, and how many of the span, are shown of a text that is cut.
const PART: usize = 40;

impl ParseError {
    /// Returns two lines for people, with a line end between them and none at the end: `orig`, and carets under the
    /// span of the fault. There is one caret for each character and at least one, with a space and the printed kind
    /// after them. Returns `None` if the error has no span.
    ///
    /// A character is shown as U+FFFD if it is neither the space U+0020 nor in one of the general categories L, N, P
    /// and S. So no text can forge a line, and each character takes one column. Wide letters, and those that are
    /// written from right to left, may still move the carets. Of a text with more than 100 characters, the lines show
    /// up to 40 before the span, the first 40 of a longer span, and 100 in all otherwise, with `..` at each side that
    /// is cut. A text that the kind contains is shown in the same way, and cut from its start on.
    pub fn snippet(&self, alloc: Global) -> Result<Option<String>, AllocError>
        // The text with carets under the span, cut, and with U+FFFD for hidden characters.
        ensures { IfOk result (λ s. IsSnippet (orig_of self.now) (span_in self.now) (fault_in self.now) s) }
    {
        match self.span() {
            Some(span) => snippet_at(alloc, self.orig(), span, self.kind()),
            None => Ok(None),
        }
    }
}

/// Returns the text with U+FFFD in place of each character that is neither the space U+0020 nor in one of the general
/// categories L, N, P and S. So a printed text can't forge a line. Snippets show texts in this form.
pub fn printable_text(alloc: Global, text: &str) -> Result<String, AllocError>
    // The text with U+FFFD for hidden characters.
    ensures { IfOk result (λ s. string_bytes s ≡ encode_utf8_all (map shown (chars text.now))) }
{
    text.chars().map(shown).collect(alloc)
}

/// Returns the text as `printable_text` does, cut after 100 characters, with `..` after them. Snippets show a text that
/// an error contains in this form.
pub fn printable_excerpt(alloc: Global, text: &str) -> Result<String, AllocError>
    // The text with U+FFFD for hidden characters, cut after 100 characters.
    ensures { IfOk result (λ s. string_bytes s ≡ shown_line (chars text.now) 0 0) }
{
    if text.len() <= WIDTH && is_printable_ascii(text) {
        return String::from_str(alloc, text);
    }
    shown_line(alloc, text, size_for(text, 0), 0, 0)
}

/// Returns whether the text consists of printable ASCII characters, which are shown as they are.
fn is_printable_ascii(text: &str) -> bool
    ensures { result ≡ list_all (λ c. nat_le 0x20 c && nat_le c 0x7E) text.now }
{
    text.bytes().all(|byte| matches!(byte, b' '..=b'~'))
}

/// Returns the two lines of a text, or nothing if the span is not within it.
pub(crate) fn snippet_at(
    alloc: Global,
    text: &str,
    span: Range<usize>,
    kind: &ParseErrorKind,
) -> Result<Option<String>, AllocError>
    ensures { IfOk result (λ s. IsSnippet text.now (Some span) (fault_meant kind.now) s) }
{
    let Some(before) = text.get(0..span.start) else {
        return Ok(None);
    };
    let Some(inside) = text.get(span.start..span.end) else {
        return Ok(None);
    };
    let lines = lines(alloc, text, count(before), count(inside), kind)?;
    Ok(Some(lines))
}

/// Returns the two lines of a text with `before` characters before the span and `inside` characters in it.
fn lines(
    alloc: Global,
    text: &str,
    before: usize,
    inside: usize,
    kind: &ParseErrorKind,
) -> Result<String, AllocError>
    ensures { IfOk result (λ s. string_bytes s ≡ lines_by text.now before inside (fault_meant kind.now)) }
{
    let size = size_for(text, before);
    let line = shown_line(alloc, text, size, before, inside)?;
    let first = first_shown(size, before);
    let margin = margin(0 < first);
    let spaces = " ".repeat(alloc, before.saturating_sub(first))?;
    let carets = "^".repeat(alloc, caret_count(size, before, inside))?;
    let kind = shown_kind(alloc, kind)?;
    format!(in alloc; "{line}\n{margin}{spaces}{carets} {kind}")
}

/// Returns the number of characters in the text.
fn count(text: &str) -> usize
    ensures { result ≡ length (chars text.now) }
{
    text.chars().count()
}

/// Returns the number of characters in the text, counted only up to 101 after the start of the span: more of them do
/// not change where the text is cut.
fn size_for(text: &str, before: usize) -> usize
    ensures { result ≡ min (before + 101) (length (chars text.now)) }
{
    match before.checked_add(WIDTH + 1) {
        Some(most) => text.chars().take(most).count(),
        None => count(text),
    }
}

/// Returns the index of the first character that is shown.
fn first_shown(size: usize, before: usize) -> usize
    ensures { result ≡ first_shown size before }
{
    if size <= WIDTH {
        0
    } else {
        before.saturating_sub(PART)
    }
}

/// Returns the index after the last character that is shown.
fn end_shown(size: usize, before: usize, inside: usize) -> usize
    ensures { result ≡ end_shown size before inside }
{
    if size <= WIDTH {
        return size;
    }
    if PART < inside {
        return size.min(before.saturating_add(PART));
    }
    size.min(before.saturating_sub(PART).saturating_add(WIDTH))
}

/// Returns the number of carets.
fn caret_count(size: usize, before: usize, inside: usize) -> usize
    ensures { result ≡ caret_count size before inside }
{
    let shown = inside.min(end_shown(size, before, inside).saturating_sub(before));
    if shown == 0 { 1 } else { shown }
}

/// Returns the mark of a cut.
fn dots(is_cut: bool) -> &'static str
    ensures { result.now ≡ dots is_cut }
{
    if is_cut { ".." } else { "" }
}

/// Returns as many spaces as the mark of a cut has characters.
fn margin(is_cut: bool) -> &'static str
    ensures { result.now ≡ margin is_cut }
{
    if is_cut { "  " } else { "" }
}

/// Returns the text as it is shown, with `before` characters before the span and `inside` characters in it. `size` may
/// be the size of a part that is large enough to decide the cut.
fn shown_line(
    alloc: Global,
    text: &str,
    size: usize,
    before: usize,
    inside: usize,
) -> Result<String, AllocError>
    requires { size ≡ min (before + 101) (length (chars text.now)) }
    ensures { IfOk result (λ s. string_bytes s ≡ shown_line (chars text.now) before inside) }
{
    let first = first_shown(size, before);
    let end = end_shown(size, before, inside);
    let length = end.saturating_sub(first);
    let part: String = text
        .chars()
        .skip(first)
        .take(length)
        .map(shown)
        .collect(alloc)?;
    let left = dots(0 < first);
    let right = dots(end < size);
    format!(in alloc; "{left}{part}{right}")
}

/// Returns the kind, with the text of the user in it as it is shown.
fn shown_kind(alloc: Global, kind: &ParseErrorKind) -> Result<ParseErrorKind, AllocError>
    ensures { IfOk result (λ k. fault_meant k ≡ shown_fault (fault_meant kind.now)) }
{
    Ok(match kind {
        ParseErrorKind::UnterminatedString => ParseErrorKind::UnterminatedString,
        ParseErrorKind::UnexpectedChar(c) => ParseErrorKind::UnexpectedChar(shown(*c)),
        ParseErrorKind::UnexpectedToken { expected, found } => ParseErrorKind::UnexpectedToken {
            expected,
            found,
        },
        ParseErrorKind::IncompleteExpr(expected) => ParseErrorKind::IncompleteExpr(expected),
        ParseErrorKind::UnterminatedExpression(rest) => {
            ParseErrorKind::UnterminatedExpression(printable_excerpt(alloc, rest)?)
        }
        ParseErrorKind::InvalidTarget(message) => {
            ParseErrorKind::InvalidTarget(printable_excerpt(alloc, message)?)
        }
    })
}

/// Returns the character that is shown for `c`.
fn shown(c: char) -> char
    ensures { result ≡ shown c }
{
    if c == ' ' {
        return c;
    }
    if is_hidden_category(GeneralCategory::for_char(c)) {
        '\u{FFFD}'
    } else {
        c
    }
}

/// Returns whether characters of the category are hidden.
fn is_hidden_category(category: GeneralCategory) -> bool
    ensures { result ≡ is_hidden_category category }
{
    is_mark_category(category)
        || is_separator_category(category)
        || is_control_category(category)
        || is_other_category(category)
}

/// Returns whether the category is Mn, Mc or Me.
fn is_mark_category(category: GeneralCategory) -> bool
    ensures { result ≡ is_mark_category category }
{
    matches!(
        category,
        GeneralCategory::NonspacingMark
            | GeneralCategory::SpacingMark
            | GeneralCategory::EnclosingMark
    )
}

/// Returns whether the category is Zs, Zl or Zp.
fn is_separator_category(category: GeneralCategory) -> bool
    ensures { result ≡ is_separator_category category }
{
    matches!(
        category,
        GeneralCategory::SpaceSeparator
            | GeneralCategory::LineSeparator
            | GeneralCategory::ParagraphSeparator
    )
}

/// Returns whether the category is Cc or Cf.
fn is_control_category(category: GeneralCategory) -> bool
    ensures { result ≡ is_control_category category }
{
    matches!(category, GeneralCategory::Control | GeneralCategory::Format)
}

/// Returns whether the category is Cs, Co or Cn.
fn is_other_category(category: GeneralCategory) -> bool
    ensures { result ≡ is_other_category category }
{
    matches!(
        category,
        GeneralCategory::Surrogate | GeneralCategory::PrivateUse | GeneralCategory::Unassigned
    )
}
