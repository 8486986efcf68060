//! Diagnostics as lines of JSON in the form of
//! [Cargo's](https://doc.rust-lang.org/cargo/reference/external-tools.html), whose messages have the form of
//! [rustc's](https://doc.rust-lang.org/rustc/json.html).

use diagnostics::{
    Diagnostic, EmittedDiagnostic, Replacement, Window, end_of, level_word, push_rendered,
    replacement_of,
};
use key_answers::json_lines;
use manifest_lints_findings::Children;
use manifests::key_locations::Location;
use serde::Serialize;
use std::alloc::{AllocError, Global};

/// A line of `lint --message-format json`: a message of Cargo's.
#[derive(Drop, Serialize)]
struct CompilerMessage {
    /// Always `compiler-message`.
    reason: &'static str,
    /// The path of the manifest. Empty if the diagnostic is about no file.
    package_id: String,
    /// The path of the manifest. Empty if the diagnostic is about no file.
    manifest_path: String,
    target: CargoTarget,
    message: RustcMessage,
}

/// The target of a package. Here it is the manifest itself.
#[derive(Drop, Serialize)]
struct CargoTarget {
    kind: [&'static str; 1],
    crate_types: [&'static str; 1],
    name: &'static str,
    /// The path of the manifest.
    src_path: String,
}

/// A diagnostic in the form of rustc's.
#[derive(Drop, Serialize)]
struct RustcMessage {
    /// Always `diagnostic`.
    #[serde(rename = "$message_type")]
    message_type: &'static str,
    message: String,
    /// The lint. Null if a file cannot be used, or Cargo rejects something that no lint is about.
    code: Option<RustcCode>,
    /// One of `error`, `warning` and `note`.
    level: &'static str,
    spans: Vec<RustcSpan>,
    children: Vec<RustcChild>,
    /// The diagnostic as it is printed for people.
    rendered: String,
}

/// The lint of a diagnostic.
#[derive(Drop, Serialize)]
struct RustcCode {
    /// The name of the lint.
    code: &'static str,
    /// Always null.
    explanation: Option<&'static str>,
}

/// A text that belongs to a diagnostic.
#[derive(Drop, Serialize)]
struct RustcChild {
    message: String,
    /// Always null.
    code: Option<&'static str>,
    /// `help` or `note`.
    level: &'static str,
    /// The places of the key, or of a table's name, with what can replace it.
    spans: Vec<RustcSpan>,
    /// Always empty.
    children: Vec<&'static str>,
    /// Always null.
    rendered: Option<&'static str>,
}

/// A place of a manifest.
#[derive(Drop, Serialize)]
struct RustcSpan {
    file_name: String,
    byte_start: usize,
    byte_end: usize,
    line_start: usize,
    line_end: usize,
    column_start: usize,
    column_end: usize,
    /// False for the place of an earlier key.
    is_primary: bool,
    text: Vec<RustcLine>,
    label: Option<&'static str>,
    suggested_replacement: Option<String>,
    /// `MachineApplicable` if the replacement keeps the meaning, and else `MaybeIncorrect`.
    suggestion_applicability: Option<&'static str>,
    /// Always null.
    expansion: Option<&'static str>,
}

/// The line of a place, or a part of it if it is long, with the columns of the place in that text.
#[derive(Drop, Serialize)]
struct RustcLine {
    text: String,
    highlight_start: usize,
    highlight_end: usize,
}

/// Returns the line of a place.
fn line_of(alloc: Global, text: &str, at: Location) -> Result<RustcLine, AllocError> {
    let window = Window::around(text, at.span.start);
    let line = text.get(window.start..window.end).unwrap_or("");
    let before = text.get(window.start..at.span.start).unwrap_or("");
    let inside = text
        .get(at.span.start..at.span.end.min(window.end))
        .unwrap_or("");
    let start = before.chars().count().saturating_add(1);
    Ok(RustcLine {
        text: String::from_str(alloc, line.strip_suffix('\r').unwrap_or(line))?,
        highlight_start: start,
        highlight_end: start.saturating_add(inside.chars().count()),
    })
}

/// Returns a place of a manifest, with a label if it is that of an earlier key.
fn span_of(
    alloc: Global,
    reported: &EmittedDiagnostic<'_>,
    at: Location,
    label: Option<&'static str>,
) -> Result<RustcSpan, AllocError> {
    let end = end_of(reported.text, at);
    let mut text = Vec::new(alloc);
    text.push(line_of(alloc, reported.text, at)?)?;
    Ok(RustcSpan {
        file_name: String::from_str(alloc, reported.path)?,
        byte_start: at.span.start,
        byte_end: at.span.end,
        line_start: at.line,
        line_end: end.line,
        column_start: at.column,
        column_end: end.column,
        is_primary: label.is_none(),
        text,
        label,
        suggested_replacement: None,
        suggestion_applicability: None,
        expansion: None,
    })
}

/// Returns the places of a diagnostic.
fn spans_of(alloc: Global, reported: &EmittedDiagnostic<'_>) -> Result<Vec<RustcSpan>, AllocError> {
    let mut spans = Vec::new(alloc);
    for at in &reported.diagnostic.primary {
        spans.push(span_of(alloc, reported, *at, None)?)?;
    }
    if let Some(label) = &reported.diagnostic.label {
        spans.push(span_of(alloc, reported, label.at, Some(label.text))?)?;
    }
    Ok(spans)
}

/// Returns a place of what a replacement replaces, with the text to write there.
fn replaced_span(
    alloc: Global,
    reported: &EmittedDiagnostic<'_>,
    at: Location,
    replacement: &Replacement,
) -> Result<RustcSpan, AllocError> {
    let mut span = span_of(alloc, reported, at, None)?;
    span.suggested_replacement = Some(replacement.text.clone()?);
    span.suggestion_applicability = Some(replacement.applicability);
    Ok(span)
}

/// Returns the places of what a replacement replaces, with the text to write there.
fn replaced_spans(
    alloc: Global,
    reported: &EmittedDiagnostic<'_>,
    replacement: &Replacement,
) -> Result<Vec<RustcSpan>, AllocError> {
    let mut spans = Vec::new(alloc);
    spans.push(replaced_span(alloc, reported, replacement.at, replacement)?)?;
    for at in &replacement.also_at {
        spans.push(replaced_span(alloc, reported, *at, replacement)?)?;
    }
    Ok(spans)
}

/// Returns a note or help without places.
fn child_of(
    alloc: Global,
    level: &'static str,
    message: &String,
) -> Result<RustcChild, AllocError> {
    Ok(RustcChild {
        message: message.clone()?,
        code: None,
        level,
        spans: Vec::new(alloc),
        children: Vec::new(alloc),
        rendered: None,
    })
}

/// Returns the helps and the notes of a diagnostic. The first help has the places of what the diagnostic suggests to
/// replace, if it suggests that.
fn children_of(
    alloc: Global,
    reported: &EmittedDiagnostic<'_>,
) -> Result<Vec<RustcChild>, AllocError> {
    let texts: &Children = &reported.diagnostic.children;
    let mut children: Vec<RustcChild> = Vec::new(alloc);
    for help in &texts.helps {
        children.push(child_of(alloc, "help", help)?)?;
    }
    if let Some(replacement) = replacement_of(alloc, reported.text, reported.diagnostic)? {
        if let Some(first) = children.first_mut() {
            first.spans = replaced_spans(alloc, reported, &replacement)?;
        }
    }
    for note in &texts.notes {
        children.push(child_of(alloc, "note", note)?)?;
    }
    Ok(children)
}

/// Returns the lint of a diagnostic, if it has one.
fn code_of(diagnostic: &Diagnostic) -> Option<RustcCode> {
    match diagnostic.code() {
        Some(code) => Some(RustcCode {
            code,
            explanation: None,
        }),
        None => None,
    }
}

/// Returns a diagnostic in the form of rustc's.
fn message_of(alloc: Global, reported: &EmittedDiagnostic<'_>) -> Result<RustcMessage, AllocError> {
    let diagnostic: &Diagnostic = reported.diagnostic;
    let mut rendered = String::new(alloc);
    push_rendered(&mut rendered, alloc, reported, false)?;
    Ok(RustcMessage {
        message_type: "diagnostic",
        message: diagnostic.message.clone()?,
        code: code_of(diagnostic),
        level: level_word(reported.level),
        spans: spans_of(alloc, reported)?,
        children: children_of(alloc, reported)?,
        rendered,
    })
}

/// Returns the message of Cargo's for a diagnostic.
fn cargo_message(
    alloc: Global,
    reported: &EmittedDiagnostic<'_>,
) -> Result<CompilerMessage, AllocError> {
    let message = message_of(alloc, reported)?;
    Ok(CompilerMessage {
        reason: "compiler-message",
        package_id: String::from_str(alloc, reported.path)?,
        manifest_path: String::from_str(alloc, reported.path)?,
        target: CargoTarget {
            kind: ["manifest"],
            crate_types: ["manifest"],
            name: "manifest",
            src_path: String::from_str(alloc, reported.path)?,
        },
        message,
    })
}

/// Appends a diagnostic as a line of JSON in the form of Cargo's. Fails if memory is refused.
pub fn push_cargo_message(
    text: &mut String,
    alloc: Global,
    reported: &EmittedDiagnostic<'_>,
) -> Result<(), AllocError> {
    let message = cargo_message(alloc, reported)?;
    json_lines::push_line(text, alloc, &message)
}
