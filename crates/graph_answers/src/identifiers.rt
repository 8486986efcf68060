//! Warnings about identifiers that are not in SPDX's licence list, and notes about deprecated ones.

use crate::lines::push;
use cargo_platform::printable_excerpt;
use licence_policies::{deprecated_message, is_listed, unlisted_messages};
use spdx_expressions::{Licence, LicenceExpression, Part};
use std::alloc::{AllocError, Global};

/// Where a licence is written, for messages about it.
#[derive(Clone, Copy)]
pub enum Place<'a> {
    /// In `--allow`.
    Option,
    /// In this line of this file.
    Line(&'a str, usize),
    /// In the package of this name and version.
    Package(&'a str),
}

impl<'a> Place<'a> {
    /// Formats the place and the level of a message as the start of its line.
    pub fn line_prefix(&self, alloc: Global, level: &str) -> Result<String, AllocError> {
        match self {
            Place::Option => format!(in alloc; "{level}: --allow: "),
            Place::Line(file, number) => format!(in alloc; "{file}:{number}: {level}: "),
            Place::Package(name) => format!(in alloc; "{level}: {name}: "),
        }
    }
}

/// Returns whether all licences of an expression are in SPDX's licence list, or described by a document.
pub fn are_listed(parts: &[Part]) -> bool {
    for part in parts {
        if let Part::Licence(of) = part {
            if !is_listed(of) {
                return false;
            }
        }
    }
    true
}

/// Appends a message of this level.
fn push_message(
    text: &mut String,
    alloc: Global,
    place: Place<'_>,
    level: &str,
    message: &str,
) -> Result<(), AllocError> {
    let start = place.line_prefix(alloc, level)?;
    let line = format!(in alloc; "{start}{message}\n")?;
    push(text, line.as_str())
}

/// Appends a warning for each identifier of a licence that is not in SPDX's licence list.
fn push_unlisted(
    text: &mut String,
    alloc: Global,
    place: Place<'_>,
    of: &Licence,
) -> Result<(), AllocError> {
    for message in &unlisted_messages(alloc, of)? {
        push_message(text, alloc, place, "warning", message.as_str())?;
    }
    Ok(())
}

/// Appends a note if the identifier of a licence is deprecated.
fn push_note(
    text: &mut String,
    alloc: Global,
    place: Place<'_>,
    of: &Licence,
) -> Result<(), AllocError> {
    match deprecated_message(alloc, of)? {
        Some(message) => push_message(text, alloc, place, "note", message.as_str()),
        None => Ok(()),
    }
}

/// Appends the messages about the first licence of an expression that has one: notes on deprecated identifiers if
/// `notes`, and else warnings about those that are not in SPDX's licence list.
fn push_first(
    text: &mut String,
    alloc: Global,
    place: Place<'_>,
    parts: &[Part],
    notes: bool,
) -> Result<(), AllocError> {
    let before = text.len();
    for part in parts {
        if let Part::Licence(of) = part {
            if notes {
                push_note(text, alloc, place, of)?;
            } else {
                push_unlisted(text, alloc, place, of)?;
            }
        }
        if text.len() > before {
            break;
        }
    }
    Ok(())
}

/// Appends a note if the text of an expression has a `/`.
fn push_slash(
    text: &mut String,
    alloc: Global,
    place: Place<'_>,
    license: &str,
    expression: &LicenceExpression,
) -> Result<(), AllocError> {
    if !license.contains('/') {
        return Ok(());
    }
    let expression = format!(in alloc; "{expression}")?;
    let shown = printable_excerpt(alloc, expression.as_str())?;
    let message = format!(in alloc; "`/` is deprecated in licences; write `{shown}`")?;
    push_message(text, alloc, place, "note", message.as_str())
}

/// Messages about the identifiers of licences. There are at most `MOST`, since a search for similar identifiers takes
/// time.
#[derive(Drop)]
pub struct Messages {
    text: String,
    count: usize,
}

/// The number of licences with messages.
const MOST: usize = 20;

impl Messages {
    /// Returns no messages.
    pub fn new(alloc: Global) -> Messages {
        Messages {
            text: String::new(alloc),
            count: 0,
        }
    }

    /// Returns the messages, a line each.
    pub fn text(&self) -> &str {
        self.text.as_str()
    }

    /// Adds the messages about an entry of the list of allowed licences.
    pub fn add_entry(
        &mut self,
        alloc: Global,
        place: Place<'_>,
        of: &Licence,
    ) -> Result<(), AllocError> {
        if self.count >= MOST {
            return Ok(());
        }
        let before = self.text.len();
        push_unlisted(&mut self.text, alloc, place, of)?;
        push_note(&mut self.text, alloc, place, of)?;
        self.count_from(before);
        Ok(())
    }

    /// Adds the messages about the licence of a package: warnings about the first of its licences with an identifier
    /// that is not in SPDX's licence list. If `license`, the text of the expression, is given, also adds a note on the
    /// first licence whose identifier is deprecated, and a note if the text has a `/`.
    pub fn add_package(
        &mut self,
        alloc: Global,
        name: &str,
        license: Option<&str>,
        expression: &LicenceExpression,
    ) -> Result<(), AllocError> {
        if self.count >= MOST {
            return Ok(());
        }
        let place = Place::Package(name);
        let before = self.text.len();
        push_first(&mut self.text, alloc, place, expression.parts(), false)?;
        if let Some(license) = license {
            push_first(&mut self.text, alloc, place, expression.parts(), true)?;
            push_slash(&mut self.text, alloc, place, license, expression)?;
        }
        self.count_from(before);
        Ok(())
    }

    /// Counts a licence if the text was `before` bytes long and is longer now.
    fn count_from(&mut self, before: usize) {
        if self.text.len() > before {
            self.count = self.count.saturating_add(1);
        }
    }
}
