//! Lines of a manifest, as they are displayed.

use cargo_platform::printable_text;
use std::alloc::{AllocError, Global};
use unicode_width::UnicodeWidthChar;

/// The number of characters of a line that are displayed at most. With the gutter of one digit, they take 140 columns,
/// as many as rustc uses where there is no terminal.
const WIDTH: usize = 136;

/// The number of characters before a place in a line that is cut.
const BEFORE: usize = 40;

/// The text that stands in place of what is cut from a line.
pub const CUT_MARK: &str = "...";

/// The displayed part of a line.
#[derive(Clone, Copy, Drop)]
pub struct Window {
    /// Its first byte in the text.
    pub start: usize,
    /// The byte after its last one.
    pub end: usize,
    /// True if the line has text before it.
    pub is_cut_before: bool,
    /// True if the line has text after it.
    pub is_cut_after: bool,
}

/// Returns the byte at which the last `limit` characters of a text begin, or its last line if that has fewer.
fn begin_of(text: &str, limit: usize) -> usize {
    let mut begin = text.len();
    let mut count: usize = 0;
    for (place, c) in text.char_indices().rev() {
        if c == '\n' || count >= limit {
            break;
        }
        begin = place;
        count = count.saturating_add(1);
    }
    begin
}

/// Returns the number of bytes of the first `limit` characters of a text, or of its first line if that has fewer.
fn length_of(text: &str, limit: usize) -> usize {
    let mut length: usize = 0;
    let mut count: usize = 0;
    for c in text.chars() {
        if c == '\n' || count >= limit {
            break;
        }
        length = length.saturating_add(c.len_utf8());
        count = count.saturating_add(1);
    }
    length
}

/// Returns the number of characters of a text.
fn count(text: &str) -> usize {
    text.chars().count()
}

/// Returns whether a line ends before a text.
fn ends_line(text: &str) -> bool {
    text.is_empty() || text.starts_with('\n') || text.starts_with("\r\n")
}

/// Returns a line without the carriage return at its end.
fn without_return(line: &str) -> &str {
    line.strip_suffix('\r').unwrap_or(line)
}

impl Window {
    /// Returns the part of a line around a byte of the text, with so many characters before and after it at most.
    fn within(head: &str, tail: &str, before: usize, after: usize) -> Window {
        let start = begin_of(head, before);
        let length = length_of(tail, after);
        let front = head.get(..start).unwrap_or("");
        let back = tail.get(length..).unwrap_or("");
        Window {
            start,
            end: head.len().saturating_add(length),
            is_cut_before: !front.is_empty() && !front.ends_with('\n'),
            is_cut_after: !ends_line(back),
        }
    }

    /// Returns the displayed part of the line that contains a byte of a text.
    pub fn around(text: &str, byte: usize) -> Window {
        let head = text.get(..byte).unwrap_or("");
        let tail = text.get(byte..).unwrap_or("");
        let whole = Window::within(head, tail, WIDTH, WIDTH);
        let line = without_return(text.get(whole.start..whole.end).unwrap_or(""));
        if !whole.is_cut_before && !whole.is_cut_after && count(line) <= WIDTH {
            return whole;
        }
        Window::within(head, tail, BEFORE, WIDTH.saturating_sub(BEFORE))
    }

    /// Returns the displayed part of the line before this one, if this one is not cut before it.
    pub fn line_before(&self, text: &str) -> Option<Window> {
        if self.is_cut_before || self.start == 0 {
            return None;
        }
        let head = text.get(..self.start.saturating_sub(1))?;
        let begin = match head.rfind('\n') {
            Some(place) => place.saturating_add(1),
            None => 0,
        };
        Some(Window::around(text, begin))
    }

    /// Returns the part of the line in the window, as it is printed, with `...` at each side that is cut. Fails if
    /// memory is refused.
    pub fn printable_line(&self, alloc: Global, text: &str) -> Result<String, AllocError> {
        let line = text.get(self.start..self.end).unwrap_or("");
        let line = shown_line(alloc, without_return(line))?;
        let before = if self.is_cut_before { CUT_MARK } else { "" };
        let after = if self.is_cut_after { CUT_MARK } else { "" };
        format!(in alloc; "{before}{line}{after}")
    }

    /// Returns the number of columns before a byte of the text. Fails if memory is refused.
    pub fn columns_before(
        &self,
        alloc: Global,
        text: &str,
        byte: usize,
    ) -> Result<usize, AllocError> {
        let end = byte.min(self.end);
        let before = shown_line(alloc, text.get(self.start..end).unwrap_or(""))?;
        let columns = columns_of(before.as_str());
        if self.is_cut_before {
            return Ok(columns.saturating_add(CUT_MARK.len()));
        }
        Ok(columns)
    }
}

/// Returns a text as it is displayed: a tab as four spaces, and a hidden character as U+FFFD.
fn shown_line(alloc: Global, text: &str) -> Result<String, AllocError> {
    let mut spaced = String::new(alloc);
    for c in text.chars() {
        if c == '\t' {
            spaced.push_str("    ")?;
        } else {
            spaced.push(c)?;
        }
    }
    printable_text(alloc, spaced.as_str())
}

/// Returns the number of columns of a displayed text.
fn columns_of(text: &str) -> usize {
    let mut columns: usize = 0;
    for c in text.chars() {
        columns = columns.saturating_add(c.width().unwrap_or(1));
    }
    columns
}
