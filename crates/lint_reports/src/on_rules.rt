//! Diagnostics on the rules in a manifest that are invalid, or that nothing needs.

use crate::codes::{UnknownLint, unknown_subject};
use crate::settings::{
    SETTINGS_BY_NAME, SettingsError, SettingsErrorAt, TOOL, UNDERSCORED_TOOL, is_fact,
};
use cargo_platform::{inside_cfg, printable_excerpt};
use diagnostics::{Diagnostic, Rule, default_level};
use manifest_lints_findings::{Children, Lint, near};
use manifests::key_locations::{Location, SourceMap, key_path};
use std::alloc::{AllocError, Global};

/// The table that contains the table of rules.
const METADATA: &str = "metadata";

/// What is wrong, and what belongs to that.
#[derive(Drop)]
struct Wrong {
    message: String,
    children: Children,
}

impl Wrong {
    /// Returns what is wrong, without notes and helps.
    fn alone(alloc: Global, message: String) -> Wrong {
        Wrong {
            message,
            children: Children::none(alloc),
        }
    }

    /// Returns what is wrong, and that another text may be meant.
    fn or_meant(alloc: Global, message: String, meant: &str) -> Result<Wrong, AllocError> {
        let help = format!(in alloc; "did you mean `{meant}`?")?;
        Ok(Wrong {
            message,
            children: Children::of_help(alloc, help)?,
        })
    }

    /// Returns what is wrong, with a note.
    fn noted(alloc: Global, message: String, note: &str) -> Result<Wrong, AllocError> {
        let note = String::from_str(alloc, note)?;
        Ok(Wrong {
            message,
            children: Children::of_note(alloc, note)?,
        })
    }
}

/// Returns what is wrong with an entry of `known-facts` that is no fact.
fn no_fact(alloc: Global, text: &str) -> Result<Wrong, AllocError> {
    let shown = printable_excerpt(alloc, text)?;
    let message = format!(in alloc; "`{shown}` is not a fact")?;
    match inside_cfg(text) {
        Some(inside) if is_fact(alloc, inside)? => {
            let inside = printable_excerpt(alloc, inside)?;
            Wrong::or_meant(alloc, message, inside.as_str())
        }
        _ => Wrong::noted(
            alloc,
            message,
            "facts are written as `loom` and `backend=\"a\"`",
        ),
    }
}

/// Returns what is wrong with a word that sets nothing.
fn unknown_word(alloc: Global, word: &str) -> Result<Wrong, AllocError> {
    let shown = printable_excerpt(alloc, word)?;
    let message = format!(in alloc; "unknown setting: `{shown}`")?;
    match near(word, &SETTINGS_BY_NAME) {
        Some(meant) => Wrong::or_meant(alloc, message, meant),
        None => Ok(Wrong::alone(alloc, message)),
    }
}

/// Returns what is wrong with the name of a lint in a rule.
fn unknown_code(alloc: Global, word: &str) -> Result<Wrong, AllocError> {
    let UnknownLint { message, help } = unknown_subject(alloc, word)?;
    Ok(Wrong {
        message,
        children: Children::of_help(alloc, help)?,
    })
}

/// Returns the message for an entry of a list that is neither a lint nor a rule for a key.
fn no_entry_message(alloc: Global, word: &str) -> Result<String, AllocError> {
    format!(in alloc;
        "an entry of `{word}` is neither the name of a lint nor a table with `key` and `code`"
    )
}

/// Returns the message for an entry of `known-targets` that is not the name of a target, and has none.
fn no_target_message(alloc: Global) -> Result<String, AllocError> {
    format!(in alloc;
        "an entry of `known-targets` is neither the name of a target nor a table with `name` and `facts`"
    )
}

/// Returns what is wrong in a table of rules.
fn wrong_of(alloc: Global, fault: &SettingsError) -> Result<Wrong, AllocError> {
    let message = match fault {
        SettingsError::NoTable => format!(in alloc; "`{TOOL}` is not a table")?,
        SettingsError::NoList(word) => format!(in alloc; "`{word}` is not a list")?,
        SettingsError::NoEntry(word) => no_entry_message(alloc, word)?,
        SettingsError::NoText(word) => format!(in alloc; "an entry of `{word}` is not a string")?,
        SettingsError::NoRelease(word) => {
            let message = format!(in alloc; "`{word}` is not a release")?;
            let note = "releases are written as `1.84` and `1.84.1`";
            return Wrong::noted(alloc, message, note);
        }
        SettingsError::UnknownCode(word) => return unknown_code(alloc, word.as_str()),
        SettingsError::UnknownWord(word) => return unknown_word(alloc, word.as_str()),
        SettingsError::NoFact(text) => return no_fact(alloc, text.as_str()),
        SettingsError::NoTargetEntry => no_target_message(alloc)?,
        SettingsError::NoFactsOf(reason) => reason.clone()?,
        SettingsError::NoTarget(text) => {
            let text = printable_excerpt(alloc, text.as_str())?;
            format!(in alloc; "`{text}` is not the name of a target")?
        }
        SettingsError::Underscored => {
            let message = format!(in alloc; "the table `{UNDERSCORED_TOOL}` has no effect")?;
            return Wrong::or_meant(alloc, message, TOOL);
        }
    };
    Ok(Wrong::alone(alloc, message))
}

/// Returns the message for a rule that allows nothing that is found. Fails if memory is refused.
fn unneeded_message(alloc: Global, rule: &Rule) -> Result<String, AllocError> {
    let subject = rule.subject.word();
    match &rule.key {
        Some(key) => {
            let key = printable_excerpt(alloc, key.as_str())?;
            format!(in alloc;
                "`{subject}` would not be reported on the key `{key}` without this entry either"
            )
        }
        None => format!(in alloc; "`{subject}` would not be reported without this entry either"),
    }
}

/// Returns the path of a field of the table of rules in a part of a manifest, or of an entry of that field.
fn path_in(
    alloc: Global,
    part: &str,
    field: &str,
    entry: Option<usize>,
) -> Result<String, AllocError> {
    match entry {
        Some(index) => {
            let index = format!(in alloc; "{index}")?;
            key_path(alloc, &[part, METADATA, TOOL, field, index.as_str()])
        }
        None => key_path(alloc, &[part, METADATA, TOOL, field]),
    }
}

/// Returns the place of the whole table of rules in a part of a manifest.
fn at_table(
    alloc: Global,
    locations: &SourceMap,
    part: &str,
) -> Result<Option<Location>, AllocError> {
    let path = key_path(alloc, &[part, METADATA, TOOL])?;
    Ok(locations.location_of_path(path.as_str()))
}

/// Returns the place of an entry of the rules in a part of a manifest, or else of the field, or else of the table.
fn place_in(
    alloc: Global,
    locations: &SourceMap,
    part: &str,
    field: &str,
    entry: Option<usize>,
) -> Result<Option<Location>, AllocError> {
    let path = path_in(alloc, part, field, entry)?;
    if let Some(at) = locations.location_of_path(path.as_str()) {
        return Ok(Some(at));
    }
    let path = path_in(alloc, part, field, None)?;
    if let Some(at) = locations.location_of_path(path.as_str()) {
        return Ok(Some(at));
    }
    at_table(alloc, locations, part)
}

/// Returns a diagnostic on the rules in a part of a manifest, at this place.
fn on_rules(
    alloc: Global,
    lint: Lint,
    part: &str,
    wrong: Wrong,
    at: Option<Location>,
) -> Result<Diagnostic, AllocError> {
    let Wrong { message, children } = wrong;
    let mut primary = Vec::new(alloc);
    if let Some(at) = at {
        primary.push(at)?;
    }
    Ok(Diagnostic {
        lint: Some(lint),
        level: default_level(lint, lint.level()),
        subject: format!(in alloc; "{part}.{METADATA}.{TOOL}")?,
        key: None,
        message,
        children,
        primary,
        label: None,
        key_at: None,
        also_at: Vec::new(alloc),
        suggestion: None,
        span: None,
    })
}

/// Returns the diagnostic on an error in the rules of `part`, `package` or `workspace`. Fails if memory is refused.
pub fn diagnostic_of_fault(
    alloc: Global,
    locations: &SourceMap,
    part: &str,
    it: &SettingsErrorAt,
) -> Result<Diagnostic, AllocError> {
    let wrong = wrong_of(alloc, &it.fault)?;
    let at = match it.fault {
        SettingsError::Underscored => {
            let path = key_path(alloc, &[part, METADATA, UNDERSCORED_TOOL])?;
            locations.location_of_path(path.as_str())
        }
        _ => place_in(alloc, locations, part, it.field.as_str(), it.entry)?,
    };
    on_rules(alloc, Lint::Settings, part, wrong, at)
}

/// Returns the diagnostic on a rule of `part`, `package` or `workspace`, that allows nothing that is found. Fails if
/// memory is refused.
pub fn diagnostic_of_unneeded(
    alloc: Global,
    locations: &SourceMap,
    part: &str,
    rule: &Rule,
) -> Result<Diagnostic, AllocError> {
    let wrong = Wrong {
        message: unneeded_message(alloc, rule)?,
        children: Children::of_help(alloc, String::from_str(alloc, "remove this entry")?)?,
    };
    let path = path_in(alloc, part, rule.setting.word(), rule.entry)?;
    let entry = locations.location_of_path(path.as_str());
    let at = place_in(alloc, locations, part, rule.setting.word(), rule.entry)?;
    let mut diagnostic = on_rules(alloc, Lint::UnneededAllow, part, wrong, at)?;
    if rule.key.is_none() && rule.entry.is_some() && entry.is_some() {
        diagnostic.key_at = entry;
        diagnostic.suggestion = Some(String::new(alloc));
    }
    Ok(diagnostic)
}
