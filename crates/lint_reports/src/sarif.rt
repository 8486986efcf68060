//! Diagnostics in the Static Analysis Results Interchange Format (SARIF), 2.1.0, a standard of OASIS.

use crate::codes::{Explained, all_explained};
use crate::escapes::{braced, uri_of};
use diagnostics::{
    DiagnosticLevel, EmittedDiagnostic, Replacement, end_of, level_word, replacement_of,
};
use key_answers::json_lines;
use manifests::key_locations::Location as Place;
use serde::Serialize;
use std::alloc::{AllocError, Global};

/// The URI of the schema of a document.
const SCHEMA: &str = "https://json.schemastore.org/sarif-2.1.0.json";

/// The page on the keys of `target` and their conditions.
const HELP: &str = "https://doc.rust-lang.org/cargo/reference/specifying-dependencies.html\
                    #platform-specific-dependencies";

/// The document of `lint --message-format sarif`.
#[derive(Drop, Serialize)]
struct SarifLog<'a> {
    #[serde(rename = "$schema")]
    schema: &'static str,
    version: &'static str,
    runs: Vec<Run<'a>>,
}

/// A run of the tool.
#[derive(Drop, Serialize)]
#[serde(rename_all = "camelCase")]
struct Run<'a> {
    tool: Tool<'a>,
    /// Always `unicodeCodePoints`: columns count characters.
    column_kind: &'static str,
    results: Vec<SarifResult>,
    /// Always one.
    invocations: Vec<Invocation>,
}

/// The run of the program.
#[derive(Drop, Serialize)]
#[serde(rename_all = "camelCase")]
struct Invocation {
    /// False if there is a notification.
    execution_successful: bool,
    tool_execution_notifications: Vec<Notification>,
}

/// A file that cannot be read or used, or something that Cargo rejects and no lint is about.
#[derive(Drop, Serialize)]
struct Notification {
    /// Always `error`.
    level: &'static str,
    /// Empty if no file is at fault.
    locations: Vec<Location>,
    message: OwnedMessage,
}

/// The tool.
#[derive(Drop, Serialize)]
struct Tool<'a> {
    driver: Driver<'a>,
}

/// The program that the tool is, with a rule for each lint.
#[derive(Drop, Serialize)]
#[serde(rename_all = "camelCase")]
struct Driver<'a> {
    name: &'static str,
    rules: Vec<Rule<'a>>,
    semantic_version: &'a str,
    version: &'a str,
}

/// A lint.
#[derive(Drop, Serialize)]
#[serde(rename_all = "camelCase")]
struct Rule<'a> {
    default_configuration: Configuration,
    full_description: Message<'a>,
    /// The page of the Cargo book on conditions.
    help_uri: &'a str,
    id: &'a str,
    short_description: Message<'a>,
}

/// The settings of a lint if no rule applies.
#[derive(Drop, Serialize)]
struct Configuration {
    /// One of `error`, `warning`, `note` and `none`.
    level: &'static str,
}

/// A text.
#[derive(Drop, Serialize)]
struct Message<'a> {
    text: &'a str,
}

/// A diagnostic.
#[derive(Drop, Serialize)]
#[serde(rename_all = "camelCase")]
struct SarifResult {
    /// One of `error`, `warning`, `note` and `none`.
    level: &'static str,
    /// Always one.
    locations: Vec<Location>,
    message: OwnedMessage,
    rule_id: &'static str,
    /// The change that the diagnostic suggests, if it suggests one.
    #[serde(skip_serializing_if = "Vec::is_empty")]
    fixes: Vec<Fix>,
}

/// A change of a manifest.
#[derive(Drop, Serialize)]
#[serde(rename_all = "camelCase")]
struct Fix {
    /// What to do.
    description: OwnedMessage,
    artifact_changes: Vec<ArtifactChange>,
}

/// The changes of one manifest.
#[derive(Drop, Serialize)]
#[serde(rename_all = "camelCase")]
struct ArtifactChange {
    artifact_location: ArtifactLocation,
    replacements: Vec<Rewrite>,
}

/// A text that replaces a key.
#[derive(Drop, Serialize)]
#[serde(rename_all = "camelCase")]
struct Rewrite {
    /// The key, with its quotes.
    deleted_region: Region,
    inserted_content: OwnedMessage,
}

/// A text.
#[derive(Drop, Serialize)]
struct OwnedMessage {
    text: String,
}

/// The place of a diagnostic.
#[derive(Drop, Serialize)]
#[serde(rename_all = "camelCase")]
struct Location {
    physical_location: PhysicalLocation,
}

/// A manifest, and the line if it is certain.
#[derive(Drop, Serialize)]
#[serde(rename_all = "camelCase")]
struct PhysicalLocation {
    artifact_location: ArtifactLocation,
    #[serde(skip_serializing_if = "Option::is_none")]
    region: Option<Region>,
}

/// The path of a manifest as a URI reference.
#[derive(Drop, Serialize)]
struct ArtifactLocation {
    uri: String,
}

/// The part of a manifest that is at fault. The end column is that of the character after it.
#[derive(Drop, Serialize)]
#[serde(rename_all = "camelCase")]
struct Region {
    start_line: usize,
    start_column: usize,
    end_line: usize,
    end_column: usize,
}

/// Returns the rule of a lint.
fn rule_of(explained: &Explained) -> Rule<'static> {
    Rule {
        default_configuration: Configuration {
            level: sarif_level(explained.level),
        },
        full_description: Message {
            text: explained.text,
        },
        help_uri: HELP,
        id: explained.lint.word(),
        short_description: Message {
            text: explained.short,
        },
    }
}

/// Returns the text before the first result: the schema, the tool and its rules. It is a document without results, up
/// to where the results begin. `version` is that of the program. Fails if memory is refused.
pub fn sarif_begin(alloc: Global, version: &str) -> Result<String, AllocError> {
    let explained = all_explained(alloc)?;
    let mut rules = Vec::new(alloc);
    for one in &explained {
        rules.push(rule_of(one))?;
    }
    let driver = Driver {
        name: "manifest_check",
        rules,
        semantic_version: version.split(' ').next().unwrap_or(version),
        version,
    };
    let invocation = Invocation {
        execution_successful: true,
        tool_execution_notifications: Vec::new(alloc),
    };
    let run = Run {
        tool: Tool { driver },
        column_kind: "unicodeCodePoints",
        results: Vec::new(alloc),
        invocations: vec![in alloc; invocation]?,
    };
    let log = SarifLog {
        schema: SCHEMA,
        version: "2.1.0",
        runs: vec![in alloc; run]?,
    };
    let mut text = String::new(alloc);
    json_lines::push_line(&mut text, alloc, &log)?;
    let end = sarif_end(alloc, "")?;
    let begin = text.as_str();
    let begin = begin.strip_suffix(end.as_str()).unwrap_or(begin);
    format!(in alloc; "{begin}\n")
}

/// Returns the text after the last result: how the run went, with these notifications. Fails if memory is refused.
pub fn sarif_end(alloc: Global, notifications: &str) -> Result<String, AllocError> {
    let is_successful = notifications.is_empty();
    let notifications = format!(in alloc; "\"toolExecutionNotifications\":[{notifications}]")?;
    format!(in alloc;
        "],\"invocations\":[{{\"executionSuccessful\":{is_successful},{notifications}}}]}}]}}\n"
    )
}

/// Returns the name of a result's level.
fn sarif_level(level: DiagnosticLevel) -> &'static str {
    match level {
        DiagnosticLevel::Allowed => "none",
        level => level_word(level),
    }
}

/// Returns the region of a place.
fn region_at(text: &str, at: Place) -> Region {
    let end = end_of(text, at);
    Region {
        start_line: at.line,
        start_column: at.column,
        end_line: end.line,
        end_column: end.column,
    }
}

/// Returns the first place at fault, if it is known.
fn region_of(reported: &EmittedDiagnostic<'_>) -> Option<Region> {
    let at = reported.diagnostic.location()?;
    Some(region_at(reported.text, at))
}

/// Returns the location of a diagnostic in its manifest, or none if it is about no file.
fn locations_of(
    alloc: Global,
    reported: &EmittedDiagnostic<'_>,
) -> Result<Vec<Location>, AllocError> {
    let mut locations = Vec::new(alloc);
    let uri = uri_of(alloc, reported.path)?;
    if uri.is_empty() {
        return Ok(locations);
    }
    let physical_location = PhysicalLocation {
        artifact_location: ArtifactLocation { uri },
        region: region_of(reported),
    };
    locations.push(Location { physical_location })?;
    Ok(locations)
}

/// Returns the subject, the message, the helps and the notes of a diagnostic.
fn message_of(alloc: Global, reported: &EmittedDiagnostic<'_>) -> Result<OwnedMessage, AllocError> {
    let text = reported.diagnostic.paragraph(alloc)?;
    Ok(OwnedMessage {
        text: braced(alloc, text.as_str())?,
    })
}

/// Returns the change at one of the places of a replacement, with the text to write there.
fn rewrite_at(
    reported: &EmittedDiagnostic<'_>,
    at: Place,
    text: &String,
) -> Result<Rewrite, AllocError> {
    Ok(Rewrite {
        deleted_region: region_at(reported.text, at),
        inserted_content: OwnedMessage {
            text: text.clone()?,
        },
    })
}

/// Returns the change that writes a replacement into a manifest, at each of its places.
fn fix_of(
    alloc: Global,
    reported: &EmittedDiagnostic<'_>,
    replacement: &Replacement,
) -> Result<Fix, AllocError> {
    let mut replacements = Vec::new(alloc);
    replacements.push(rewrite_at(reported, replacement.at, &replacement.text)?)?;
    for at in &replacement.also_at {
        replacements.push(rewrite_at(reported, *at, &replacement.text)?)?;
    }
    let help = reported.diagnostic.help_of_suggestion().unwrap_or("");
    let description = braced(alloc, help)?;
    let change = ArtifactChange {
        artifact_location: ArtifactLocation {
            uri: uri_of(alloc, reported.path)?,
        },
        replacements,
    };
    Ok(Fix {
        description: OwnedMessage { text: description },
        artifact_changes: vec![in alloc; change]?,
    })
}

/// Returns the change that a diagnostic suggests, if it suggests one.
fn fixes_of(alloc: Global, reported: &EmittedDiagnostic<'_>) -> Result<Vec<Fix>, AllocError> {
    let mut fixes = Vec::new(alloc);
    if let Some(replacement) = replacement_of(alloc, reported.text, reported.diagnostic)? {
        fixes.push(fix_of(alloc, reported, &replacement)?)?;
    }
    Ok(fixes)
}

/// Appends the result of a diagnostic on a lint, on a line of its own. Fails if memory is refused.
pub fn push_result(
    text: &mut String,
    alloc: Global,
    reported: &EmittedDiagnostic<'_>,
    is_first: bool,
) -> Result<(), AllocError> {
    let result = SarifResult {
        level: sarif_level(reported.level),
        locations: locations_of(alloc, reported)?,
        message: message_of(alloc, reported)?,
        rule_id: reported.diagnostic.code().unwrap_or(""),
        fixes: fixes_of(alloc, reported)?,
    };
    text.push_str(if is_first { "" } else { "," })?;
    json_lines::push_line(text, alloc, &result)
}

/// Appends the notification of a diagnostic without a lint, on a line of its own. Fails if memory is refused.
pub fn push_notification(
    text: &mut String,
    alloc: Global,
    reported: &EmittedDiagnostic<'_>,
) -> Result<(), AllocError> {
    let notification = Notification {
        level: sarif_level(reported.level),
        locations: locations_of(alloc, reported)?,
        message: message_of(alloc, reported)?,
    };
    let separator = if text.is_empty() { "\n" } else { "," };
    text.push_str(separator)?;
    json_lines::push_line(text, alloc, &notification)
}
