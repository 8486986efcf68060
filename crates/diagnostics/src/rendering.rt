//! Diagnostics as rustc prints them for people: the message, the place, and the line of the manifest with marks below.

use crate::diagnostic::{Diagnostic, EmittedDiagnostic, level_word};
use crate::level_rules::DiagnosticLevel;
use crate::source_lines::{CUT_MARK, Window};
use manifest_lints_findings::Children;
use manifests::key_locations::Location;
use std::alloc::{AllocError, Global};

/// A place that is marked.
#[derive(Clone, Copy, Drop)]
struct Mark {
    at: Location,
    is_primary: bool,
    /// The text for the place, or the empty text.
    label: &'static str,
}

/// The marks below a line, and the label that does not fit beside its mark, with its column.
#[derive(Drop)]
struct Rows {
    marks: String,
    /// The number of columns of `marks`.
    columns: usize,
    below: Option<(usize, &'static str)>,
}

/// Formats the name of a level, in colour if `colours` is true.
pub fn coloured(
    alloc: Global,
    level: DiagnosticLevel,
    colours: bool,
) -> Result<String, AllocError> {
    let word = level_word(level);
    if !colours {
        return String::from_str(alloc, word);
    }
    let colour = match level {
        DiagnosticLevel::Error => "31",
        DiagnosticLevel::Warning => "33",
        DiagnosticLevel::Note | DiagnosticLevel::Allowed => "36",
    };
    format!(in alloc; "\x1b[{colour}m{word}\x1b[0m")
}

/// Returns the places of a diagnostic with their labels, in the order of the text.
fn marks_of(alloc: Global, diagnostic: &Diagnostic) -> Result<Vec<Mark>, AllocError> {
    let mut marks = Vec::new(alloc);
    for at in &diagnostic.primary {
        marks.push(Mark {
            at: *at,
            is_primary: true,
            label: "",
        })?;
    }
    if let Some(label) = &diagnostic.label {
        marks.push(Mark {
            at: label.at,
            is_primary: false,
            label: label.text,
        })?;
    }
    marks.sort_by_key(|mark| mark.at.span.start)?;
    Ok(marks)
}

/// Returns the number of columns of the largest line number.
fn gutter_of(alloc: Global, marks: &[Mark]) -> Result<usize, AllocError> {
    let mut largest: usize = 1;
    for mark in marks {
        largest = largest.max(mark.at.line);
    }
    let digits = format!(in alloc; "{largest}")?;
    Ok(digits.len())
}

impl Rows {
    /// Adds spaces up to a column.
    fn pad_to(&mut self, alloc: Global, column: usize) -> Result<(), AllocError> {
        let spaces = " ".repeat(alloc, column.saturating_sub(self.columns))?;
        self.marks.push_str(spaces.as_str())?;
        self.columns = self.columns.max(column);
        Ok(())
    }

    /// Adds the carets or dashes of a mark between two columns, one at least. Marks that overlap earlier ones are left
    /// out.
    fn add(
        &mut self,
        alloc: Global,
        mark: &Mark,
        begin: usize,
        end: usize,
    ) -> Result<(), AllocError> {
        if begin < self.columns {
            return Ok(());
        }
        self.pad_to(alloc, begin)?;
        let width = end.saturating_sub(begin).max(1);
        let sign = if mark.is_primary { "^" } else { "-" };
        let signs = sign.repeat(alloc, width)?;
        self.marks.push_str(signs.as_str())?;
        self.columns = begin.saturating_add(width);
        Ok(())
    }

    /// Adds the label of the last mark, which begins at a column. If the label does not fit before `next`, where
    /// another mark begins, it is put below.
    fn add_label(
        &mut self,
        label: &'static str,
        begin: usize,
        next: Option<usize>,
    ) -> Result<(), AllocError> {
        if label.is_empty() {
            return Ok(());
        }
        let behind = self.columns.saturating_add(label.len()).saturating_add(2);
        if next.is_some_and(|next| next < behind) {
            self.below = Some((begin, label));
            return Ok(());
        }
        self.marks.push_str(" ")?;
        self.marks.push_str(label)?;
        self.columns = behind.saturating_sub(1);
        Ok(())
    }
}

/// Returns the rows below a line with these marks.
fn rows_of(alloc: Global, text: &str, window: &Window, marks: &[Mark]) -> Result<Rows, AllocError> {
    let mut rows = Rows {
        marks: String::new(alloc),
        columns: 0,
        below: None,
    };
    for (index, mark) in marks.iter().enumerate() {
        let begin = window.columns_before(alloc, text, mark.at.span.start)?;
        let end = window.columns_before(alloc, text, mark.at.span.end)?;
        rows.add(alloc, mark, begin, end)?;
        let next = match marks.get(index.saturating_add(1)) {
            Some(next) => Some(window.columns_before(alloc, text, next.at.span.start)?),
            None => None,
        };
        rows.add_label(mark.label, begin, next)?;
    }
    Ok(rows)
}

/// Appends a row: the gutter, and a text if it is not empty.
fn push_row(
    output: &mut String,
    alloc: Global,
    gutter: &str,
    text: &str,
) -> Result<(), AllocError> {
    let row = if text.is_empty() {
        format!(in alloc; "{gutter} |\n")?
    } else {
        format!(in alloc; "{gutter} | {text}\n")?
    };
    output.push_str(row.as_str())
}

/// Returns a line number as it is displayed, right-aligned in the gutter.
fn number_of(alloc: Global, line: usize, width: usize) -> Result<String, AllocError> {
    let number = format!(in alloc; "{line}")?;
    let spaces = " ".repeat(alloc, width.saturating_sub(number.len()))?;
    format!(in alloc; "{spaces}{number}")
}

/// Appends a line of the manifest, and its marks.
fn push_marked(
    output: &mut String,
    alloc: Global,
    text: &str,
    width: usize,
    marks: &[Mark],
) -> Result<(), AllocError> {
    let Some(first) = marks.first() else {
        return Ok(());
    };
    let window = Window::around(text, first.at.span.start);
    let number = number_of(alloc, first.at.line, width)?;
    let gutter = " ".repeat(alloc, width)?;
    let line = window.printable_line(alloc, text)?;
    push_row(output, alloc, number.as_str(), line.as_str())?;
    let rows = rows_of(alloc, text, &window, marks)?;
    push_row(output, alloc, gutter.as_str(), rows.marks.as_str())?;
    if let Some((column, label)) = rows.below {
        let spaces = " ".repeat(alloc, column)?;
        let spaces = spaces.as_str();
        let bar = format!(in alloc; "{spaces}|")?;
        push_row(output, alloc, gutter.as_str(), bar.as_str())?;
        let label = format!(in alloc; "{spaces}{label}")?;
        push_row(output, alloc, gutter.as_str(), label.as_str())?;
    }
    Ok(())
}

/// Appends what is between two marked lines: nothing, the line between them if there is only one, or a row for more.
fn push_between(
    output: &mut String,
    alloc: Global,
    text: &str,
    width: usize,
    before: usize,
    next: &Mark,
) -> Result<(), AllocError> {
    let skipped = next.at.line.saturating_sub(before);
    if skipped < 2 {
        return Ok(());
    }
    let window = Window::around(text, next.at.span.start);
    match window.line_before(text) {
        Some(between) if skipped == 2 => {
            let line = between.printable_line(alloc, text)?;
            let number = number_of(alloc, before.saturating_add(1), width)?;
            push_row(output, alloc, number.as_str(), line.as_str())
        }
        _ => {
            output.push_str(CUT_MARK)?;
            output.push_str("\n")
        }
    }
}

/// Returns the number of marks at the front that are on the line of the first one.
fn marks_on_line(marks: &[Mark]) -> usize {
    let Some(first) = marks.first() else {
        return 0;
    };
    let line = first.at.line;
    marks.iter().take_while(|mark| mark.at.line == line).count()
}

/// Appends the lines of the manifest that have marks.
fn push_lines(
    output: &mut String,
    alloc: Global,
    text: &str,
    width: usize,
    marks: &[Mark],
) -> Result<(), AllocError> {
    let mut rest = marks;
    let mut before: Option<usize> = None;
    for _ in 0..marks.len() {
        let Some(first) = rest.first() else {
            break;
        };
        if let Some(before) = before {
            push_between(output, alloc, text, width, before, first)?;
        }
        before = Some(first.at.line);
        let count = marks_on_line(rest);
        push_marked(output, alloc, text, width, rest.get(..count).unwrap_or(&[]))?;
        rest = rest.get(count..).unwrap_or(&[]);
    }
    Ok(())
}

/// Appends the line with the path, if the diagnostic is about a file, and the line and column of the first place if it
/// is known.
fn push_arrow(
    output: &mut String,
    alloc: Global,
    gutter: &str,
    reported: &EmittedDiagnostic<'_>,
) -> Result<(), AllocError> {
    let Some(path) = reported.file() else {
        return Ok(());
    };
    let arrow = match reported.diagnostic.location() {
        Some(
            Location {
                span: _,
                line,
                column,
            },
        ) => { format!(in alloc; "{gutter}--> {path}:{line}:{column}\n")? }
        None => format!(in alloc; "{gutter}--> {path}\n")?,
    };
    output.push_str(arrow.as_str())
}

/// Appends the helps and the notes, below an empty row.
fn push_children(
    output: &mut String,
    alloc: Global,
    gutter: &str,
    children: &Children,
) -> Result<(), AllocError> {
    if children.helps.is_empty() && children.notes.is_empty() {
        return Ok(());
    }
    push_row(output, alloc, gutter, "")?;
    for help in &children.helps {
        output.push_str(format!(in alloc; "{gutter} = help: {help}\n")?.as_str())?;
    }
    for note in &children.notes {
        output.push_str(format!(in alloc; "{gutter} = note: {note}\n")?.as_str())?;
    }
    Ok(())
}

/// Returns the first line of a diagnostic: the level, the lint if there is one, and the message.
fn head_of(
    alloc: Global,
    reported: &EmittedDiagnostic<'_>,
    colours: bool,
) -> Result<String, AllocError> {
    let level = coloured(alloc, reported.level, colours)?;
    let message = reported.diagnostic.message.as_str();
    match reported.diagnostic.code() {
        Some(lint) => format!(in alloc; "{level}[{lint}]: {message}\n"),
        None => format!(in alloc; "{level}: {message}\n"),
    }
}

/// Appends a diagnostic in the layout of rustc's messages, followed by an empty line. Fails if memory is refused.
pub fn push_rendered(
    output: &mut String,
    alloc: Global,
    reported: &EmittedDiagnostic<'_>,
    colours: bool,
) -> Result<(), AllocError> {
    let diagnostic = reported.diagnostic;
    let head = head_of(alloc, reported, colours)?;
    output.push_str(head.as_str())?;
    let marks = marks_of(alloc, diagnostic)?;
    let width = gutter_of(alloc, &marks)?;
    let gutter = " ".repeat(alloc, width)?;
    let gutter = gutter.as_str();
    push_arrow(output, alloc, gutter, reported)?;
    if !marks.is_empty() {
        push_row(output, alloc, gutter, "")?;
        push_lines(output, alloc, reported.text, width, &marks)?;
    }
    push_children(output, alloc, gutter, &diagnostic.children)?;
    output.push_str("\n")
}
