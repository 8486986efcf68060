//! The values of a policy, and diagnostics with their places.

use crate::keys::{TableKind, Treatment};
use crate::policy::UnusedLevel;
use cargo_platform::printable_excerpt;
use diagnostics::{Diagnostic, DiagnosticLevel, diagnostic_of_failure};
use manifest_lints_findings::near;
use manifests::key_locations::{Location, SourceMap, key_path};
use spdx_expressions::ParseError;
use std::alloc::{AllocError, Global};
use toml::{Table, Value};
use toml_spans::{Position, Span, part_of_name};

/// A reader of a policy.
#[derive(Drop)]
pub struct Reader {
    pub alloc: Global,
    locations: SourceMap,
    diagnostics: Vec<Diagnostic>,
    /// The keys that are ignored, with those of their tables before them.
    ignored: Vec<String>,
}

/// Returns the message for a key that a table does not have.
fn unknown_key(alloc: Global, kind: TableKind, key: &str) -> Result<String, AllocError> {
    let mut names = Vec::new(alloc);
    for (name, _) in kind.keys() {
        names.push(*name)?;
    }
    let shown = printable_excerpt(alloc, key)?;
    match near(key, &names) {
        Some(meant) => format!(in alloc; "unknown key `{shown}`; did you mean `{meant}`?"),
        None => format!(in alloc; "unknown key `{shown}`"),
    }
}

/// Returns a key with those of its tables before it, without indexes.
fn dotted(alloc: Global, path: &[&str], key: &str) -> Result<String, AllocError> {
    let mut text = String::new(alloc);
    for name in path {
        if name.parse::<usize>().is_err() {
            text.push_str(name)?;
            text.push_str(".")?;
        }
    }
    text.push_str(key)?;
    Ok(text)
}

impl Reader {
    /// Returns a reader of a text, which has to be a TOML document. Fails if an allocation fails.
    pub fn new(alloc: Global, text: &str) -> Result<Reader, AllocError> {
        Ok(Reader {
            alloc,
            locations: SourceMap::of_all(alloc, text)?,
            diagnostics: Vec::new(alloc),
            ignored: Vec::new(alloc),
        })
    }

    /// Returns the place of a key or element, or that of the nearest table or array around it.
    pub fn at(&self, path: &[&str]) -> Result<Option<Location>, AllocError> {
        for dropped in 0..path.len() {
            let length = path.len().saturating_sub(dropped);
            let names = key_path(self.alloc, path.get(..length).unwrap_or(&[]))?;
            if let Some(at) = self.locations.location_of_path(names.as_str()) {
                return Ok(Some(at));
            }
        }
        Ok(None)
    }

    /// Adds a diagnostic at a place.
    fn report_at(
        &mut self,
        level: DiagnosticLevel,
        at: Option<Location>,
        message: String,
    ) -> Result<(), AllocError> {
        let mut diagnostic = diagnostic_of_failure(self.alloc, message, at)?;
        diagnostic.level = level;
        self.diagnostics.push(diagnostic)?;
        Ok(())
    }

    /// Adds a diagnostic at the place of a key or element.
    pub fn report(
        &mut self,
        level: DiagnosticLevel,
        path: &[&str],
        message: String,
    ) -> Result<(), AllocError> {
        let at = self.at(path)?;
        self.report_at(level, at, message)
    }

    /// Adds an error with this message at the place of a key or element.
    pub fn reject(&mut self, path: &[&str], message: &str) -> Result<(), AllocError> {
        let message = String::from_str(self.alloc, message)?;
        self.report(DiagnosticLevel::Error, path, message)
    }

    /// Adds the error of a text that is no licence, at the part of it that is wrong.
    pub fn reject_licence(
        &mut self,
        path: &[&str],
        text: &str,
        error: &ParseError,
    ) -> Result<(), AllocError> {
        let expected = &error.expected;
        let found = &error.found;
        let alloc = self.alloc;
        let message = format!(in alloc; "expected {expected}, found {found}")?;
        let at = match self.at(path)? {
            Some(at) => Some(self.part_at(at, text, error.span.start, error.span.end)?),
            None => None,
        };
        self.report_at(DiagnosticLevel::Error, at, message)
    }

    /// Returns the place of a part of a text, given by its bytes, or else that of the text.
    fn part_at(
        &self,
        at: Location,
        text: &str,
        start: usize,
        end: usize,
    ) -> Result<Location, AllocError> {
        let source = self.locations.text.as_str();
        let part = Span { start, end };
        let Some(span) = part_of_name(self.alloc, source, at.span, text, part)? else {
            return Ok(at);
        };
        let front = Span {
            start: at.span.start,
            end: span.start,
        };
        let start = Position {
            byte: at.span.start,
            line: at.line,
            column: at.column,
        };
        let start = start.after(front.text_in(source).unwrap_or(""));
        Ok(Location {
            span,
            line: start.line,
            column: start.column,
        })
    }

    /// Reports the keys that a table does not have, and notes those that are ignored. `path` is that of the table.
    pub fn check_keys(
        &mut self,
        table: &Table,
        kind: TableKind,
        path: &[&str],
    ) -> Result<(), AllocError> {
        for (key, _) in table.iter() {
            let key = key.as_str();
            match kind.treatment(key) {
                Some(Treatment::Used | Treatment::Idle) => {}
                Some(Treatment::Ignored) => self.ignore(path, key)?,
                None => {
                    let message = unknown_key(self.alloc, kind, key)?;
                    let at = self.location_of_key(path, key)?;
                    self.report_at(DiagnosticLevel::Error, at, message)?;
                }
            }
        }
        Ok(())
    }

    /// Returns the place of a key of a table, or of the table.
    fn location_of_key(&self, path: &[&str], key: &str) -> Result<Option<Location>, AllocError> {
        let mut names = Vec::new(self.alloc);
        for name in path {
            names.push(*name)?;
        }
        names.push(key)?;
        self.at(&names)
    }

    /// Notes a key that is ignored, unless it was noted before.
    fn ignore(&mut self, path: &[&str], key: &str) -> Result<(), AllocError> {
        let name = dotted(self.alloc, path, key)?;
        if !self.ignored.iter().any(|it| it.as_str() == name.as_str()) {
            self.ignored.push(name)?;
        }
        Ok(())
    }

    /// Returns the value of the last key of a path in its table, if it is a table. Any other value is an error.
    pub fn table<'t>(
        &mut self,
        table: &'t Table,
        path: &[&str],
    ) -> Result<Option<&'t Table>, AllocError> {
        match value_at(table, path) {
            None => Ok(None),
            Some(Value::Table(found)) => Ok(Some(found)),
            Some(_) => {
                self.reject(path, "expected a table")?;
                Ok(None)
            }
        }
    }

    /// Returns whether the value of the last key of a path is `true`. Any value but a boolean is an error.
    pub fn flag(&mut self, table: &Table, path: &[&str]) -> Result<bool, AllocError> {
        match value_at(table, path) {
            None => Ok(false),
            Some(Value::Boolean(flag)) => Ok(*flag),
            Some(_) => {
                self.reject(path, "expected `true` or `false`")?;
                Ok(false)
            }
        }
    }

    /// Returns the elements of the last key of a path. Any value but an array is an error.
    pub fn elements<'t>(
        &mut self,
        table: &'t Table,
        path: &[&str],
    ) -> Result<&'t [Value], AllocError> {
        match value_at(table, path) {
            None => Ok(&[]),
            Some(Value::Array(elements)) => Ok(elements.as_slice()),
            Some(_) => {
                self.reject(path, "expected an array")?;
                Ok(&[])
            }
        }
    }

    /// Returns the text of the last key of a path. Any other value is an error.
    pub fn text<'t>(
        &mut self,
        table: &'t Table,
        path: &[&str],
    ) -> Result<Option<&'t str>, AllocError> {
        match value_at(table, path) {
            None => Ok(None),
            Some(value) => self.text_of(value, path),
        }
    }

    /// Returns the text that the value at a path is. Any other value is an error.
    pub fn text_of<'t>(
        &mut self,
        value: &'t Value,
        path: &[&str],
    ) -> Result<Option<&'t str>, AllocError> {
        let text = value.as_str();
        if text.is_none() {
            self.reject(path, "expected a string")?;
        }
        Ok(text)
    }

    /// Returns the level that the last key of a path has: `warn` if it has none. Any other value is an error.
    pub fn level(&mut self, table: &Table, path: &[&str]) -> Result<UnusedLevel, AllocError> {
        match self.text(table, path)? {
            None | Some("warn") => Ok(UnusedLevel::Warn),
            Some("allow") => Ok(UnusedLevel::Allow),
            Some("deny") => Ok(UnusedLevel::Deny),
            Some(_) => {
                self.reject(path, "expected `allow`, `warn` or `deny`")?;
                Ok(UnusedLevel::Warn)
            }
        }
    }

    /// Returns the diagnostics, with a note on the keys that are ignored.
    pub fn finish(self) -> Result<Vec<Diagnostic>, AllocError> {
        let mut reader = self;
        if !reader.ignored.is_empty() {
            let alloc = reader.alloc;
            let mut names = String::new(alloc);
            for name in &reader.ignored {
                if !names.is_empty() {
                    names.push_str(", ")?;
                }
                names.push_str("`")?;
                names.push_str(name.as_str())?;
                names.push_str("`")?;
            }
            let message = format!(in alloc; "these keys are ignored: {names}")?;
            reader.report_at(DiagnosticLevel::Note, None, message)?;
        }
        Ok(reader.diagnostics)
    }
}

/// Returns the value of the last key of a path in the table that it is in.
fn value_at<'t>(table: &'t Table, path: &[&str]) -> Option<&'t Value> {
    table.get(path.last().copied()?)
}
