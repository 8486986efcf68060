//! The errors of `select`: as lines for people, or as one JSON object on each line.

use cargo_platform::ParseError;
use input_limits::InputError;
use key_answers::answer::{Answer, Status};
use key_answers::json_lines;
use serde::Serialize;
use std::alloc::{AllocError, Global};

/// The target of a selection, and the format of its errors.
#[derive(Clone, Copy, Drop)]
pub struct ErrorReporter<'a> {
    /// The name of the target, if it is the only one.
    pub target: Option<&'a str>,
    /// One object a line.
    pub json: bool,
}

/// The reason why a manifest, or another argument of a command line, can't be used.
#[derive(Clone, Copy, Drop)]
pub struct Fault<'a, 'm> {
    /// The path of the manifest as it is printed, or `None` if the error is not about a manifest.
    pub manifest: Option<&'a str>,
    /// The key of `target` that is at fault.
    pub key: Option<&'a str>,
    /// The number of the line on which that key, or what is at fault, first appears.
    pub line: Option<usize>,
    /// Where that key goes wrong, in bytes.
    pub span: Option<(usize, usize)>,
    pub message: &'m str,
}

impl<'a, 'm> Fault<'a, 'm> {
    /// Creates the error for something other than a key.
    pub fn of(manifest: Option<&'a str>, message: &'m str) -> Fault<'a, 'm> {
        Fault {
            manifest,
            key: None,
            line: None,
            span: None,
            message,
        }
    }
}

/// Returns the first byte of the error in a key, and the byte after its last one.
pub(crate) fn span_of(key: &str, error: &ParseError) -> Option<(usize, usize)> {
    let span = error.span_in(key)?;
    Some((span.start, span.end))
}

/// The error, in a line of `select --json`.
#[derive(Drop, Serialize)]
struct Cause<'a> {
    /// The key of `target` that can't be used.
    key: Option<&'a str>,
    /// The line of that key, or of the table, dependency or field that is at fault.
    line: Option<usize>,
    message: &'a str,
    /// Where the key goes wrong: the first byte, and the byte after the last one.
    span: Option<(usize, usize)>,
}

/// A line of `select --json`: what can't be used.
#[derive(Drop, Serialize)]
struct SelectionError<'a> {
    error: Cause<'a>,
    /// The path of the manifest, if one can't be used.
    manifest: Option<&'a str>,
    /// The name of the target, if only one is selected.
    target: Option<&'a str>,
}

impl<'a> ErrorReporter<'a> {
    /// Formats an error as a line of JSON.
    fn json_line(&self, alloc: Global, fault: &Fault<'a, 'a>) -> Result<String, AllocError> {
        let error = Cause {
            key: fault.key,
            line: fault.line,
            message: fault.message,
            span: fault.span,
        };
        let line = SelectionError {
            error,
            manifest: fault.manifest,
            target: self.target,
        };
        let mut text = String::new(alloc);
        json_lines::push_line(&mut text, alloc, &line)?;
        Ok(text)
    }

    /// Returns the answer that reports an error: these lines, or a JSON object.
    pub fn report(
        &self,
        alloc: Global,
        fault: &Fault<'_, '_>,
        lines: &str,
    ) -> Result<Answer, AllocError> {
        if !self.json {
            return Ok(Answer::unusable(alloc, String::from_str(alloc, lines)?));
        }
        Ok(Answer::of(alloc, self.json_line(alloc, fault)?, Status::Unusable))
    }

    /// Returns the answer that reports an error of the command line's arguments, with these lines as its message.
    pub fn report_arguments(&self, alloc: Global, lines: &str) -> Result<Answer, AllocError> {
        let message = lines.strip_prefix("error: ").unwrap_or(lines);
        let message = message.strip_suffix("\n").unwrap_or(message);
        self.report(alloc, &Fault::of(None, message), lines)
    }

    /// Returns the answer that reports an input that can't be used.
    fn report_unusable(&self, alloc: Global, unusable: &InputError) -> Result<Answer, AllocError> {
        let line = unusable.line(alloc)?;
        let file = unusable.file.as_ref().map(|file: &String| file.as_str());
        let fault = Fault::of(file, unusable.reason.as_str());
        self.report(alloc, &fault, line.as_str())
    }

    /// Returns the answer that reports inputs that can't be used, in their order.
    pub fn report_each(
        &self,
        alloc: Global,
        unusable: &[InputError],
    ) -> Result<Answer, AllocError> {
        let mut whole = Answer::of(alloc, String::new(alloc), Status::Fine);
        for it in unusable {
            whole.append(self.report_unusable(alloc, it)?)?;
        }
        Ok(whole)
    }
}
