//! Diagnostics on manifests and configurations, with the places they point to.

ghost use Rattle.std.specs.Prelude.{◌↔◌, ◌≡◌};
ghost use Rattle.key_answers.specs.declared.answer.Status.TheVariants.{Fine, Found};
ghost use Rattle.diagnostics.specs.LintLevels.{Fails};

use crate::level_rules::{DiagnosticLevel, RuleInput};
use cargo_platform::printable_excerpt;
use key_answers::answer::Status;
use manifest_lints_findings::{Children, KeyLint, Level, Lint};
use manifests::key_locations::Location;
use std::alloc::{AllocError, Global};
use toml_spans::{Position, Span};

/// A place that a diagnostic points to besides its own, with a text for it.
#[derive(Drop)]
pub struct Label {
    pub at: Location,
    pub text: &'static str,
}

/// A diagnostic on a manifest or configuration.
#[derive(Drop)]
pub struct Diagnostic {
    /// The lint. `None` if a file cannot be used, or Cargo rejects something that no lint is about.
    pub lint: Option<Lint>,
    /// The level if no rule applies.
    pub level: DiagnosticLevel,
    /// The part of the manifest that the diagnostic is about, without the key: `target`, or a table. It is empty if the
    /// diagnostic is about no part.
    pub subject: String,
    /// The key of `target` that it is about, if there is one.
    pub key: Option<String>,
    /// What is wrong, in a phrase. It has one line, and no hidden characters.
    pub message: String,
    /// The notes and helps. If there is a suggestion, the first help is to use it.
    pub children: Children,
    /// The places at fault, in the order of the text.
    pub primary: Vec<Location>,
    /// The place of an earlier key.
    pub label: Option<Label>,
    /// The place of the whole key, or of the name at fault if there is no key, if there is a suggestion and the place
    /// is known.
    pub key_at: Option<Location>,
    /// The later places at which the text spells the same name, as headers of other tables do.
    pub also_at: Vec<Location>,
    /// A text that can replace the whole key, or the name at fault if there is no key. It is empty if the entry of a
    /// list at fault can be removed.
    pub suggestion: Option<String>,
    /// The span of an error in the key, in bytes.
    pub span: Option<(usize, usize)>,
}

impl Diagnostic {
    /// Returns the first place at fault, if it is known.
    pub fn location(&self) -> Option<Location> {
        self.primary.first().copied()
    }

    /// Returns the key of `target` that the diagnostic is about, if there is one.
    pub fn key(&self) -> Option<&str> {
        match &self.key {
            Some(key) => Some(key.as_str()),
            None => None,
        }
    }

    /// Returns what rules see of the diagnostic, or `None` if rules cannot change its level.
    pub fn rule_input(&self) -> Option<RuleInput<'_>> {
        match self.lint {
            Some(lint) => Some(RuleInput {
                lint,
                key: self.key(),
                level: self.level,
            }),
            None => None,
        }
    }

    /// Returns the name of the lint, if the diagnostic is of one.
    pub fn code(&self) -> Option<&'static str> {
        match self.lint {
            Some(lint) => Some(lint.word()),
            None => None,
        }
    }

    /// Returns the subject as it is displayed, with the key if there is one. Fails if memory is refused.
    fn on(&self, alloc: Global) -> Result<String, AllocError> {
        let subject = self.subject.as_str();
        match self.key() {
            Some(key) => {
                let key = printable_excerpt(alloc, key)?;
                format!(in alloc; "{subject}.'{key}'")
            }
            None => String::from_str(alloc, subject),
        }
    }

    /// Formats the diagnostic on one line: the subject, if there is one, and the message. Fails if memory is refused.
    pub fn sentence(&self, alloc: Global) -> Result<String, AllocError> {
        if self.subject.is_empty() {
            return self.message.clone();
        }
        let subject = self.on(alloc)?;
        let message = self.message.as_str();
        format!(in alloc; "{subject}: {message}")
    }

    /// Returns the span of the entry of a list that it suggests to remove, if it suggests that.
    pub fn removed_entry(&self) -> Option<Span> {
        match (self.lint, &self.suggestion) {
            (Some(Lint::UnneededAllow), Some(_)) => Some(self.location()?.span),
            _ => None,
        }
    }

    /// Returns the first help, which is to use the suggestion, if there is a suggestion.
    pub fn help_of_suggestion(&self) -> Option<&str> {
        if self.suggestion.is_none() {
            return None;
        }
        match self.children.helps.first() {
            Some(help) => Some(help.as_str()),
            None => None,
        }
    }

    /// Formats the diagnostic on several lines: the subject and the message, the helps, and the notes. Fails if memory
    /// is refused.
    pub fn paragraph(&self, alloc: Global) -> Result<String, AllocError> {
        let mut text = self.sentence(alloc)?;
        for help in &self.children.helps {
            text.push_str("\nhelp: ")?;
            text.push_str(help.as_str())?;
        }
        for note in &self.children.notes {
            text.push_str("\nnote: ")?;
            text.push_str(note.as_str())?;
        }
        Ok(text)
    }
}

/// A diagnostic as it is printed.
#[derive(Clone, Copy, Drop)]
pub struct EmittedDiagnostic<'a> {
    pub diagnostic: &'a Diagnostic,
    /// The level after the rules.
    pub level: DiagnosticLevel,
    /// The path of the manifest, as it is displayed. It is empty if the diagnostic is about no file.
    pub path: &'a str,
    /// The text of the manifest.
    pub text: &'a str,
}

impl<'a> EmittedDiagnostic<'a> {
    /// Returns the path of the manifest, if the diagnostic is about a file.
    pub fn file(&self) -> Option<&'a str> {
        if self.path.is_empty() {
            None
        } else {
            Some(self.path)
        }
    }
}

/// Returns the position after the last character of a location in a text.
pub fn end_of(text: &str, at: Location) -> Position {
    let start = Position {
        byte: at.span.start,
        line: at.line,
        column: at.column,
    };
    start.after(at.span.text_in(text).unwrap_or(""))
}

/// Returns the level of a diagnostic for a finding of this level, if no rule applies to the diagnostic.
pub fn level_of_finding(level: Level) -> DiagnosticLevel {
    match level {
        Level::Error => DiagnosticLevel::Error,
        Level::Warning => DiagnosticLevel::Warning,
        Level::Note => DiagnosticLevel::Note,
    }
}

/// Returns the level of a diagnostic of this lint if no rule applies to it: `not-canonical` is then allowed.
pub fn default_level(lint: Lint, level: Level) -> DiagnosticLevel {
    match lint {
        Lint::Key(KeyLint::NotCanonical) => DiagnosticLevel::Allowed,
        _ => level_of_finding(level),
    }
}

/// Returns the name of a level.
pub fn level_word(level: DiagnosticLevel) -> &'static str {
    match level {
        DiagnosticLevel::Allowed => "allowed",
        DiagnosticLevel::Note => "note",
        DiagnosticLevel::Warning => "warning",
        DiagnosticLevel::Error => "error",
    }
}

/// Returns the exit status for a diagnostic of this level: `Found` if the level is `fails_from` or a more severe one,
/// and else `Fine`. If `fails_from` is `None`, no diagnostic makes the run fail.
pub fn status_of(level: DiagnosticLevel, fails_from: Option<DiagnosticLevel>) -> Status
    ensures found { (result ≡ Found) ↔ Fails fails_from level }
    ensures fine { (result ≡ Fine) ↔ (Fails fails_from level → ⊥) }
{
    match fails_from {
        Some(least) if least.severity() <= level.severity() => Status::Found,
        _ => Status::Fine,
    }
}
