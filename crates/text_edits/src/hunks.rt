//! Hunks of a unified diff.

use std::alloc::{AllocError, Global};

/// The number of lines of context before and after what is changed.
pub(crate) const CONTEXT: usize = 3;

/// The text that is written after a last line without a newline.
const NO_NEWLINE: &str = "\n\\ No newline at end of file\n";

/// The kind of lines in a hunk.
#[derive(Clone, Copy, PartialEq, Eq, Drop)]
pub(crate) enum Mark {
    Kept,
    Removed,
    Added,
}

/// A hunk of a unified diff.
#[derive(Drop)]
pub(crate) struct Hunk {
    body: String,
    /// The number of its first line in the old text, from 1.
    line: usize,
    /// The number of its lines in the old text.
    count: usize,
    /// The number of its first line in the new text, from 1.
    new_line: usize,
    /// The number of its lines in the new text.
    new_count: usize,
}

/// Returns the number of a first line as a header has it: that of the line before, if there is no line.
fn number_of(line: usize, count: usize) -> usize {
    if count == 0 {
        line.saturating_sub(1)
    } else {
        line
    }
}

impl Hunk {
    /// Returns a hunk without lines that begins at these lines of the old and the new text.
    pub(crate) fn new(alloc: Global, line: usize, new_line: usize) -> Hunk {
        Hunk {
            body: String::new(alloc),
            line,
            count: 0,
            new_line,
            new_count: 0,
        }
    }

    /// Returns whether the hunk has no lines.
    pub(crate) fn is_empty(&self) -> bool {
        self.body.is_empty()
    }

    /// Returns the numbers of the lines after the hunk, in the old and in the new text.
    pub(crate) fn next_lines(&self) -> (usize, usize) {
        (
            self.line.saturating_add(self.count),
            self.new_line.saturating_add(self.new_count),
        )
    }

    /// Counts a line.
    fn count_line(&mut self, mark: Mark) {
        if mark != Mark::Added {
            self.count = self.count.saturating_add(1);
        }
        if mark != Mark::Removed {
            self.new_count = self.new_count.saturating_add(1);
        }
    }

    /// Appends a line. Fails if an allocation fails.
    fn push_line(&mut self, mark: Mark, line: &str) -> Result<(), AllocError> {
        self.count_line(mark);
        self.body.push(match mark {
            Mark::Kept => ' ',
            Mark::Removed => '-',
            Mark::Added => '+',
        })?;
        self.body.push_str(line)?;
        if line.ends_with('\n') {
            return Ok(());
        }
        self.body.push_str(NO_NEWLINE)
    }

    /// Appends lines. Fails if an allocation fails.
    pub(crate) fn push(&mut self, mark: Mark, lines: &str) -> Result<(), AllocError> {
        for line in lines.split_inclusive('\n') {
            self.push_line(mark, line)?;
        }
        Ok(())
    }

    /// Appends the hunk to a diff, unless it has no lines. Fails if an allocation fails.
    pub(crate) fn write(&self, alloc: Global, diff: &mut String) -> Result<(), AllocError> {
        if self.is_empty() {
            return Ok(());
        }
        let count = self.count;
        let line = number_of(self.line, count);
        let new_count = self.new_count;
        let new_line = number_of(self.new_line, new_count);
        let header = format!(in alloc; "@@ -{line},{count} +{new_line},{new_count} @@\n")?;
        diff.push_str(header.as_str())?;
        diff.push_str(self.body.as_str())
    }
}
