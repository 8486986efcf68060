//! A unified diff between a text and the text after edits.

use crate::edits::{Edit, fits};
use crate::hunks::{CONTEXT, Hunk, Mark};
use std::alloc::{AllocError, Global};

/// Whole lines that edits change, in bytes of the old and of the new text.
#[derive(Clone, Copy, Drop)]
struct Change {
    start: usize,
    end: usize,
    new_start: usize,
    new_end: usize,
}

/// Returns the first byte of the line of a byte.
fn line_start(text: &str, at: usize) -> usize {
    match text.get(..at).unwrap_or("").rfind('\n') {
        Some(place) => place.saturating_add(1),
        None => 0,
    }
}

/// Returns the byte after the line of a byte.
fn line_end(text: &str, at: usize) -> usize {
    match text.get(at..).unwrap_or("").find('\n') {
        Some(place) => at.saturating_add(place).saturating_add(1),
        None => text.len(),
    }
}

/// Returns whether a text consists of whole lines.
fn is_lines(text: &str) -> bool {
    text.is_empty() || text.ends_with('\n')
}

/// Returns the whole lines that an edit changes: the first byte, and the byte after the last one.
fn changed_lines(text: &str, edit: &Edit) -> (usize, usize) {
    let start = line_start(text, edit.start);
    let replaced = text.get(edit.start..edit.end).unwrap_or("");
    let is_whole = start == edit.start && replaced.ends_with('\n') && is_lines(edit.text.as_str());
    if is_whole {
        return (start, edit.end);
    }
    (start, line_end(text, edit.end))
}

/// Adds a change, joined with the last one if it begins where that ends or before.
fn add_change(changes: &mut Vec<Change>, change: Change) -> Result<(), AllocError> {
    if let Some(last) = changes.last_mut() {
        if change.start <= last.end {
            last.end = change.end;
            last.new_end = change.new_end;
            return Ok(());
        }
    }
    changes.push(change)?;
    Ok(())
}

/// Returns the lines that edits change. Those that can't be applied are left out, as `apply` does.
fn changes_of(alloc: Global, text: &str, edits: &[Edit]) -> Result<Vec<Change>, AllocError> {
    let mut changes = Vec::new(alloc);
    let mut at: usize = 0;
    let mut added: usize = 0;
    let mut removed: usize = 0;
    for edit in edits {
        if fits(text, at, edit) {
            let (start, end) = changed_lines(text, edit);
            let new_start = start.saturating_add(added).saturating_sub(removed);
            added = added.saturating_add(edit.text.len());
            removed = removed.saturating_add(edit.end.saturating_sub(edit.start));
            let new_end = end.saturating_add(added).saturating_sub(removed);
            let change = Change {
                start,
                end,
                new_start,
                new_end,
            };
            add_change(&mut changes, change)?;
            at = edit.end;
        }
    }
    Ok(changes)
}

/// Returns the number of newlines in a text.
fn newlines_in(text: &str) -> usize {
    let mut count: usize = 0;
    for byte in text.bytes() {
        if byte == b'\n' {
            count = count.saturating_add(1);
        }
    }
    count
}

/// Returns the first lines of a text, as many as are context.
fn first_lines(text: &str) -> &str {
    let mut end: usize = 0;
    for _ in 0..CONTEXT {
        end = line_end(text, end);
    }
    text.get(..end).unwrap_or("")
}

/// Returns the last lines of a text that ends with a newline, as many as are context.
fn last_lines(text: &str) -> &str {
    let mut start = text.len();
    for _ in 0..CONTEXT {
        start = line_start(text, start.saturating_sub(1));
    }
    text.get(start..).unwrap_or("")
}

/// A diff that is being written.
#[derive(Drop)]
struct Writer<'a> {
    old: &'a str,
    new: &'a str,
    diff: String,
    /// The last hunk.
    hunk: Hunk,
    /// The byte of the old text after the last change.
    at: usize,
}

impl<'a> Writer<'a> {
    /// Writes the last hunk, and begins another one whose context is the end of the lines between two changes.
    fn begin(&mut self, alloc: Global, between: &str) -> Result<(), AllocError> {
        let (line, new_line) = self.hunk.next_lines();
        if !self.hunk.is_empty() {
            self.hunk.push(Mark::Kept, first_lines(between))?;
        }
        self.hunk.write(alloc, &mut self.diff)?;
        let context = last_lines(between);
        let skipped = newlines_in(between).saturating_sub(newlines_in(context));
        let line = line.saturating_add(skipped);
        let new_line = new_line.saturating_add(skipped);
        self.hunk = Hunk::new(alloc, line, new_line);
        self.hunk.push(Mark::Kept, context)
    }

    /// Adds a change, to the last hunk if their contexts touch.
    fn add(&mut self, alloc: Global, change: Change) -> Result<(), AllocError> {
        let old = self.old;
        let new = self.new;
        let between = old.get(self.at..change.start).unwrap_or("");
        if self.hunk.is_empty() || newlines_in(between) > CONTEXT + CONTEXT {
            self.begin(alloc, between)?;
        } else {
            self.hunk.push(Mark::Kept, between)?;
        }
        let removed = old.get(change.start..change.end).unwrap_or("");
        let added = new.get(change.new_start..change.new_end).unwrap_or("");
        self.hunk.push(Mark::Removed, removed)?;
        self.hunk.push(Mark::Added, added)?;
        self.at = change.end;
        Ok(())
    }
}

/// Returns a unified diff between a text and the text after edits, `new`, as `apply` returns it: of each changed line,
/// with three lines of context. Without a change, the diff is empty. It goes through the texts once. Fails if an
/// allocation fails.
pub fn unified_diff(
    alloc: Global,
    path: &str,
    old: &str,
    new: &str,
    edits: &[Edit],
) -> Result<String, AllocError> {
    let changes = changes_of(alloc, old, edits)?;
    if changes.is_empty() {
        return Ok(String::new(alloc));
    }
    let mut writer = Writer {
        old,
        new,
        diff: format!(in alloc; "--- a/{path}\n+++ b/{path}\n")?,
        hunk: Hunk::new(alloc, 1, 1),
        at: 0,
    };
    for change in &changes {
        writer.add(alloc, *change)?;
    }
    let Writer {
        old,
        new: _,
        mut diff,
        mut hunk,
        at,
    } = writer;
    let rest = old.get(at..).unwrap_or("");
    hunk.push(Mark::Kept, first_lines(rest))?;
    hunk.write(alloc, &mut diff)?;
    Ok(diff)
}
