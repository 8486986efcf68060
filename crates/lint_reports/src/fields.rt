//! Fields under the keys of `target` that Cargo does not read in its own configuration.

use cargo_platform::printable_excerpt;
use manifest_lints_findings::{
    Children, Level, Lint, Site, TableDiagnostic, add_top_level_diagnostics, near,
};
use std::alloc::{AllocError, Global};
use toml::{Table, Value};

/// The name of the table that contains the keys.
const TARGET: &str = "target";

/// The field that Cargo reads only under the name of a target.
const OF_NAMES: &str = "rustdocflags";

/// The fields of a key. Under the name of a target, other members are tables for libraries of `links`.
const FIELDS: [&str; 4] = ["linker", "runner", "rustflags", OF_NAMES];

/// The tables that Cargo reads in manifests.
const DEPENDENCIES: [&str; 3] = ["dependencies", "dev-dependencies", "build-dependencies"];

/// The message about a field, and the help.
#[derive(Drop)]
struct Unread {
    level: Level,
    message: String,
    children: Children,
}

impl Unread {
    /// Returns a warning without help.
    fn warning(alloc: Global, message: String) -> Unread {
        Unread {
            level: Level::Warning,
            message,
            children: Children::none(alloc),
        }
    }
}

/// Returns what is wrong with a field that Cargo reads under some keys, or `None` if Cargo reads it under this one.
fn misplaced(alloc: Global, name: &str, is_condition: bool) -> Result<Option<Unread>, AllocError> {
    if name == OF_NAMES && is_condition {
        let message = format!(in alloc; "Cargo reads `{name}` at the name of a target alone")?;
        return Ok(Some(Unread::warning(alloc, message)));
    }
    Ok(None)
}

/// Formats what Cargo does with a field that it reads under no key. `name` is the field as it is displayed.
fn reason_of(
    alloc: Global,
    name: &str,
    is_condition: bool,
    is_table: bool,
) -> Result<String, AllocError> {
    if is_condition {
        format!(in alloc; "Cargo does not read `{name}`")
    } else if is_table {
        format!(in alloc; "Cargo takes `{name}` for a library of `links`")
    } else {
        format!(in alloc; "Cargo rejects `{name}` where it builds for the target")
    }
}

/// Returns what is wrong with a field. Returns `None` if Cargo reads the field, or if no field that Cargo reads has a
/// similar name.
fn unread_at(
    alloc: Global,
    key: &str,
    name: &str,
    value: &Value,
) -> Result<Option<Unread>, AllocError> {
    let is_condition = key.starts_with("cfg(");
    if DEPENDENCIES.contains(&name) {
        let message = format!(in alloc; "Cargo reads `{name}` in Cargo.toml alone")?;
        return Ok(Some(Unread::warning(alloc, message)));
    }
    if FIELDS.iter().any(|field| *field == name) {
        return misplaced(alloc, name, is_condition);
    }
    let Some(meant) = near(name, &FIELDS) else {
        return Ok(None);
    };
    let is_table = value.as_table().is_some();
    let level = if is_condition || is_table {
        Level::Warning
    } else {
        Level::Error
    };
    let name = printable_excerpt(alloc, name)?;
    let reason = reason_of(alloc, name.as_str(), is_condition, is_table)?;
    let help = format!(in alloc; "did you mean `{meant}`?")?;
    Ok(Some(Unread {
        level,
        message: reason,
        children: Children::of_help(alloc, help)?,
    }))
}

/// Returns the diagnostic on a field of a key that is not read.
fn field_of(
    alloc: Global,
    key: &str,
    name: &str,
    unread: Unread,
) -> Result<TableDiagnostic, AllocError> {
    let Unread {
        level,
        message,
        children,
    } = unread;
    Ok(TableDiagnostic {
        lint: Lint::UnreadField,
        level,
        subject: String::from_str(alloc, TARGET)?,
        key: Some(String::from_str(alloc, key)?),
        site: Site::Field(
            String::from_str(alloc, key)?,
            String::from_str(alloc, name)?,
        ),
        message,
        children,
        suggestion: None,
    })
}

/// Adds the diagnostics on the fields of a key that are not read.
fn add_of_key(
    alloc: Global,
    key: &str,
    fields: &Table,
    found: &mut Vec<TableDiagnostic>,
) -> Result<(), AllocError> {
    for (name, value) in fields.iter() {
        if let Some(unread) = unread_at(alloc, key, name.as_str(), value)? {
            found.push(field_of(alloc, key, name.as_str(), unread)?)?;
        }
    }
    Ok(())
}

/// Returns the diagnostics on what Cargo does not read of a
/// [configuration](https://doc.rust-lang.org/cargo/reference/config.html#target): tables that are meant for targets but
/// are defined elsewhere, and fields of keys. Fails if memory is refused.
pub fn wrong_fields(
    alloc: Global,
    configuration: &Table,
) -> Result<Vec<TableDiagnostic>, AllocError> {
    let mut found = Vec::new(alloc);
    add_top_level_diagnostics(alloc, configuration, &mut found)?;
    if let Some(Value::Table(targets)) = configuration.get(TARGET) {
        for (key, value) in targets.iter() {
            if let Some(fields) = value.as_table() {
                add_of_key(alloc, key.as_str(), fields, &mut found)?;
            }
        }
    }
    Ok(found)
}
