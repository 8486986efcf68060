//! The output formats of diagnostics.

use crate::cargo_json::push_cargo_message;
use crate::escapes::escaped;
use crate::sarif::{push_notification, push_result, sarif_begin, sarif_end};
use diagnostics::{
    Diagnostic, DiagnosticLevel, EmittedDiagnostic, coloured, end_of, level_word, push_rendered,
};
use key_answers::json_lines;
use manifests::key_locations::Location;
use serde::Serialize;
use std::alloc::{AllocError, Global};

/// The output format of diagnostics.
#[derive(Clone, Copy, Debug, PartialEq, Eq, Drop)]
pub enum Format {
    /// The form in which rustc prints diagnostics for people.
    Human,
    /// One line per diagnostic.
    Short,
    /// One JSON object per diagnostic, each on a line of its own.
    Json,
    /// One message in the form of Cargo's JSON per diagnostic, each on a line of its own.
    CargoJson,
    /// One workflow command of GitHub per diagnostic.
    Github,
    /// One document in the Static Analysis Results Interchange Format (SARIF), 2.1.0.
    Sarif,
}

impl Format {
    /// Returns the format with this name.
    pub fn by_name(name: &str) -> Option<Format> {
        match name {
            "human" => Some(Format::Human),
            "short" => Some(Format::Short),
            "json" => Some(Format::CargoJson),
            "github" => Some(Format::Github),
            "sarif" => Some(Format::Sarif),
            _ => None,
        }
    }
}

/// The output format of diagnostics, and whether it has colours.
#[derive(Clone, Copy, Drop)]
pub struct Style {
    pub format: Format,
    /// True if the names of levels are coloured in the formats for people.
    pub colours: bool,
}

/// A printer of diagnostics.
#[derive(Drop)]
pub struct Printer {
    style: Style,
    /// True if a result of SARIF has been printed.
    has_result: bool,
    /// The notifications of SARIF, which come after the results.
    notifications: String,
}

/// Returns the place of a diagnostic as a line begins with it: the path, line and column, as far as they are known.
fn short_place(alloc: Global, reported: &EmittedDiagnostic<'_>) -> Result<String, AllocError> {
    let Some(path) = reported.file() else {
        return Ok(String::new(alloc));
    };
    match reported.diagnostic.location() {
        Some(
            Location {
                span: _,
                line,
                column,
            },
        ) => format!(in alloc; "{path}:{line}:{column}: "),
        None => format!(in alloc; "{path}: "),
    }
}

/// Returns the message of a diagnostic, and behind it the help to use its suggestion, if it has one.
fn short_message(alloc: Global, diagnostic: &Diagnostic) -> Result<String, AllocError> {
    let message = diagnostic.message.as_str();
    match diagnostic.help_of_suggestion() {
        Some(help) => format!(in alloc; "{message}: help: {help}"),
        None => String::from_str(alloc, message),
    }
}

/// Appends the line of a diagnostic: its place, level and message, and its lint if it has one.
fn push_short(
    text: &mut String,
    alloc: Global,
    reported: &EmittedDiagnostic<'_>,
    colours: bool,
) -> Result<(), AllocError> {
    let place = short_place(alloc, reported)?;
    let level = coloured(alloc, reported.level, colours)?;
    let message = short_message(alloc, reported.diagnostic)?;
    let line = match reported.diagnostic.code() {
        Some(lint) => format!(in alloc; "{place}{level}: {message} [{lint}]\n")?,
        None => format!(in alloc; "{place}{level}: {message}\n")?,
    };
    text.push_str(line.as_str())
}

/// A line of `lint --json`: a diagnostic.
#[derive(Drop, Serialize)]
struct DiagnosticLine<'a> {
    /// The byte after the last one of the first place at fault, in the manifest.
    byte_end: Option<usize>,
    /// The first byte of that place.
    byte_start: Option<usize>,
    /// The name of the lint. Null if a file cannot be used, or Cargo rejects something that no lint is about.
    code: Option<&'a str>,
    /// The column of that place, in characters from 1.
    column: Option<usize>,
    /// What to do. If there is a suggestion, the first text says to use it.
    help: Vec<&'a str>,
    /// The key of `target` that the diagnostic is about.
    key: Option<&'a str>,
    /// One of `error`, `warning`, `note` and `allowed`.
    level: &'static str,
    /// The line of that place.
    line: Option<usize>,
    /// The path of the manifest. Null if the diagnostic is about no file.
    manifest: Option<&'a str>,
    /// What is wrong, in a phrase.
    message: &'a str,
    /// Background.
    notes: Vec<&'a str>,
    /// The span of an error in the key: its first byte, and the byte after its last one.
    span: Option<(usize, usize)>,
    /// A key that can replace it, or a name for the table at this place.
    suggestion: Option<&'a str>,
}

/// Returns an owned text as a borrowed one, if there is one.
fn borrowed(text: &Option<String>) -> Option<&str> {
    match text {
        Some(text) => Some(text.as_str()),
        None => None,
    }
}

/// Returns owned texts as borrowed ones.
fn all_borrowed(alloc: Global, texts: &[String]) -> Result<Vec<&str>, AllocError> {
    let mut borrowed = Vec::new(alloc);
    for text in texts {
        borrowed.push(text.as_str())?;
    }
    Ok(borrowed)
}

/// Appends a diagnostic as a line of JSON.
fn push_json(
    text: &mut String,
    alloc: Global,
    reported: &EmittedDiagnostic<'_>,
) -> Result<(), AllocError> {
    let diagnostic = reported.diagnostic;
    let at = diagnostic.location();
    let line = DiagnosticLine {
        byte_end: at.map(|at| at.span.end),
        byte_start: at.map(|at| at.span.start),
        code: diagnostic.code(),
        column: at.map(|at| at.column),
        help: all_borrowed(alloc, &diagnostic.children.helps)?,
        key: diagnostic.key(),
        level: level_word(reported.level),
        line: at.map(|at| at.line),
        manifest: reported.file(),
        message: diagnostic.message.as_str(),
        notes: all_borrowed(alloc, &diagnostic.children.notes)?,
        span: diagnostic.span,
        suggestion: match diagnostic.removed_entry() {
            Some(_) => None,
            None => borrowed(&diagnostic.suggestion),
        },
    };
    json_lines::push_line(text, alloc, &line)
}

/// Returns the workflow command for a level.
fn command_word(level: DiagnosticLevel) -> &'static str {
    match level {
        DiagnosticLevel::Error => "error",
        DiagnosticLevel::Warning => "warning",
        DiagnosticLevel::Note | DiagnosticLevel::Allowed => "notice",
    }
}

/// Returns the text of the workflow command for a diagnostic.
fn command_body(alloc: Global, diagnostic: &Diagnostic) -> Result<String, AllocError> {
    let paragraph = diagnostic.paragraph(alloc)?;
    escaped(alloc, paragraph.as_str(), false)
}

/// Returns the properties of a workflow command that say where the diagnostic points to: ` file=..`, and the lines and
/// columns if they are known.
fn command_place(alloc: Global, reported: &EmittedDiagnostic<'_>) -> Result<String, AllocError> {
    let Some(path) = reported.file() else {
        return Ok(String::new(alloc));
    };
    let file = escaped(alloc, path, true)?;
    let Some(at) = reported.diagnostic.location() else {
        return format!(in alloc; " file={file}");
    };
    let end = end_of(reported.text, at);
    let Location {
        span: _,
        line,
        column,
    } = at;
    let end_line = end.line;
    let end_column = end.column;
    format!(in alloc;
        " file={file},line={line},endLine={end_line},col={column},endColumn={end_column}"
    )
}

/// Appends the workflow command for a diagnostic, which GitHub shows beside the line in a change.
fn push_command(
    text: &mut String,
    alloc: Global,
    reported: &EmittedDiagnostic<'_>,
) -> Result<(), AllocError> {
    let word = command_word(reported.level);
    let place = command_place(alloc, reported)?;
    let body = command_body(alloc, reported.diagnostic)?;
    let command = match reported.diagnostic.code() {
        Some(code) => format!(in alloc; "::{word}{place},title={code}::{body}\n")?,
        None => format!(in alloc; "::{word}{place}::{body}\n")?,
    };
    text.push_str(command.as_str())
}

impl Printer {
    /// Returns a printer with this style that has printed no diagnostic.
    pub fn new(alloc: Global, style: Style) -> Printer {
        Printer {
            style,
            has_result: false,
            notifications: String::new(alloc),
        }
    }

    /// Returns the text before the first diagnostic. `version` is that of the program. Fails if memory is refused.
    pub fn begin(&self, alloc: Global, version: &str) -> Result<String, AllocError> {
        match self.style.format {
            Format::Sarif => sarif_begin(alloc, version),
            _ => Ok(String::new(alloc)),
        }
    }

    /// Appends a result of SARIF. A diagnostic without a lint is no result, and is kept as a notification.
    fn push_sarif(
        &mut self,
        text: &mut String,
        alloc: Global,
        reported: &EmittedDiagnostic<'_>,
    ) -> Result<(), AllocError> {
        if reported.diagnostic.lint.is_none() {
            return push_notification(&mut self.notifications, alloc, reported);
        }
        let is_first = !self.has_result;
        self.has_result = true;
        push_result(text, alloc, reported, is_first)
    }

    /// Appends a diagnostic. Fails if memory is refused.
    pub fn push(
        &mut self,
        text: &mut String,
        alloc: Global,
        reported: &EmittedDiagnostic<'_>,
    ) -> Result<(), AllocError> {
        match self.style.format {
            Format::Human => push_rendered(text, alloc, reported, self.style.colours),
            Format::Short => push_short(text, alloc, reported, self.style.colours),
            Format::Json => push_json(text, alloc, reported),
            Format::CargoJson => push_cargo_message(text, alloc, reported),
            Format::Github => push_command(text, alloc, reported),
            Format::Sarif => self.push_sarif(text, alloc, reported),
        }
    }

    /// Returns the text after the last diagnostic. Fails if memory is refused.
    pub fn end(&self, alloc: Global) -> Result<String, AllocError> {
        match self.style.format {
            Format::Sarif => sarif_end(alloc, self.notifications.as_str()),
            _ => Ok(String::new(alloc)),
        }
    }
}
