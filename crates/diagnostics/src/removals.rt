//! The spans of a text that are deleted to remove entries of its lists.

use std::alloc::{AllocError, Global};
use toml_spans::Span;

/// Entries of a list with nothing but commas and white space between them.
#[derive(Clone, Copy, Drop)]
struct Run {
    start: usize,
    /// The byte after the last entry, or after its comma.
    end: usize,
    /// True if a comma follows the last entry.
    has_comma: bool,
}

/// Returns the byte of a text at an index, or 0 at its end.
fn byte_at(text: &str, index: usize) -> u8 {
    text.as_bytes().get(index).copied().unwrap_or(0)
}

/// Returns whether a byte is white space on a line.
fn is_blank(byte: u8) -> bool {
    byte == b' ' || byte == b'\t'
}

/// Returns whether a byte is white space of TOML.
fn is_space(byte: u8) -> bool {
    is_blank(byte) || byte == b'\n' || byte == b'\r'
}

/// Returns the number of bytes at the front of a text that are white space.
fn spaces_at_front(text: &str) -> usize {
    text.bytes().take_while(|byte| is_space(*byte)).count()
}

/// Returns the number of bytes at the end of a text that are white space.
fn spaces_at_end(text: &str) -> usize {
    text.bytes()
        .rev()
        .take_while(|byte| is_space(*byte))
        .count()
}

/// Returns the number of bytes at the end of a text that are white space on its last line.
fn blanks_at_end(text: &str) -> usize {
    text.bytes()
        .rev()
        .take_while(|byte| is_blank(*byte))
        .count()
}

impl Run {
    /// Returns the run of one entry.
    fn of(text: &str, entry: Span) -> Run {
        let spaces = spaces_at_front(text.get(entry.end..).unwrap_or(""));
        let comma = entry.end.saturating_add(spaces);
        let has_comma = byte_at(text, comma) == b',';
        Run {
            start: entry.start,
            end: if has_comma {
                comma.saturating_add(1)
            } else {
                entry.end
            },
            has_comma,
        }
    }

    /// Returns whether nothing but white space is between it and a later entry.
    fn is_before(self, text: &str, entry: Span) -> bool {
        match text.get(self.end..entry.start) {
            Some(between) => spaces_at_front(between) == between.len(),
            None => false,
        }
    }

    /// Returns the end of the lines that it fills alone, with its comma, if it does.
    fn end_of_lines(self, text: &str, start: usize) -> Option<usize> {
        if start > 0 && byte_at(text, start.saturating_sub(1)) != b'\n' {
            return None;
        }
        let behind = text.get(self.end..).unwrap_or("");
        let (line, _) = behind.split_once('\n')?;
        if spaces_at_front(line) == line.len() {
            Some(self.end.saturating_add(line.len()).saturating_add(1))
        } else {
            None
        }
    }

    /// Returns the span to delete with a comma after the last entry: the whole lines that the entries fill alone, or
    /// else the entries with the white space up to what follows on the line.
    fn before_others(self, text: &str) -> Span {
        let front = text.get(..self.start).unwrap_or("");
        let start = self.start.saturating_sub(blanks_at_end(front));
        if let Some(end) = self.end_of_lines(text, start) {
            return Span { start, end };
        }
        let behind = text.get(self.end..).unwrap_or("");
        let blanks = behind.bytes().take_while(|byte| is_blank(*byte)).count();
        Span {
            start: self.start,
            end: self.end.saturating_add(blanks),
        }
    }

    /// Returns the span to delete without a comma after the last entry: from the comma before the first one, if there
    /// is one.
    fn after_others(self, text: &str) -> Span {
        let front = text.get(..self.start).unwrap_or("");
        let before = self.start.saturating_sub(spaces_at_end(front));
        let comma = before.saturating_sub(1);
        Span {
            start: if byte_at(text, comma) == b',' {
                comma
            } else {
                self.start
            },
            end: self.end,
        }
    }

    /// Returns the span to delete.
    fn deleted(self, text: &str) -> Span {
        if self.has_comma {
            self.before_others(text)
        } else {
            self.after_others(text)
        }
    }
}

/// Returns the spans to delete from a text in order to remove entries of its lists. `entries` are the spans of these
/// entries, in the order of the text.
///
/// The comma after an entry is removed too, or the one before it if there is none after it, and so is the white space
/// between them. If an entry is alone on its lines, these lines are removed. Fails if an allocation fails.
pub fn list_entry_removals(
    alloc: Global,
    text: &str,
    entries: &[Span],
) -> Result<Vec<Span>, AllocError> {
    let mut spans = Vec::new(alloc);
    let mut run: Option<Run> = None;
    for entry in entries {
        let next = Run::of(text, *entry);
        run = match run {
            Some(before) if before.is_before(text, *entry) => Some(Run {
                start: before.start,
                ..next
            }),
            Some(before) => {
                spans.push(before.deleted(text))?;
                Some(next)
            }
            None => Some(next),
        };
    }
    if let Some(last) = run {
        spans.push(last.deleted(text))?;
    }
    Ok(spans)
}
