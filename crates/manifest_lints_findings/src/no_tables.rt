//! The parts of the value of a key of `target` that are not dependency tables.

ghost use Rattle.std.specs.Prelude.{◌≡◌, IfOk, map, not, string_bytes};
ghost use Rattle.toml.specs.View.{view};
ghost use Rattle.manifest_lints_findings.specs.NoTables.{is_table_name, is_no_table, is_empty_list, no_table_names};

use crate::meant::near;
use crate::wording::quoted;
use std::alloc::{AllocError, Global};
use toml::Value;

/// Returns whether Cargo reads a member of this name in the table of a key.
fn is_table_name(name: &str) -> bool
    ensures { result ≡ is_table_name name.now }
{
    matches!(
        name,
        "dependencies"
            | "dev-dependencies"
            | "dev_dependencies"
            | "build-dependencies"
            | "build_dependencies"
    )
}

/// The names of dependency tables.
const TABLES: [&str; 3] = ["dependencies", "dev-dependencies", "build-dependencies"];

/// Returns whether Cargo reads a member of this name in the table of a key of its own configuration.
fn is_configuration(name: &str) -> bool {
    matches!(name, "linker" | "runner" | "rustflags" | "rustdocflags")
}

/// Returns the name of the dependency table that is meant by another word, or that is one edit away.
fn meant_table(name: &str) -> Option<&'static str> {
    match name {
        "dependency" | "deps" => Some("dependencies"),
        "dev-dependency" | "dev-deps" => Some("dev-dependencies"),
        "build-dependency" | "build-deps" => Some("build-dependencies"),
        _ => near(name, &TABLES),
    }
}

/// Returns the message for a member of this name, which is not a dependency table.
fn other_member(alloc: Global, name: &str) -> Result<String, AllocError> {
    let shown = quoted(alloc, name)?;
    if is_configuration(name) {
        return format!(in alloc; "{shown} belongs into .cargo/config.toml");
    }
    format!(in alloc; "{shown} is not a table of dependencies")
}

/// Suggests a dependency table for each member of a key's value that Cargo ignores, where one is likely. Fails if
/// memory is refused.
pub fn meant_tables(alloc: Global, value: &Value) -> Result<Vec<String>, AllocError> {
    let mut helps = Vec::new(alloc);
    let Some(table) = value.as_table() else {
        return Ok(helps);
    };
    for (name, _) in table.iter() {
        let name = name.as_str();
        if is_table_name(name) || is_configuration(name) {
            continue;
        }
        if let Some(meant) = meant_table(name) {
            let shown = quoted(alloc, name)?;
            helps.push(format!(in alloc; "did you mean `{meant}` in place of {shown}?")?)?;
        }
    }
    Ok(helps)
}

/// Returns the message for a member of this name, which is not a table.
fn no_table(alloc: Global, name: &str) -> Result<String, AllocError> {
    let name = quoted(alloc, name)?;
    format!(in alloc; "{name} is not a table")
}

/// Returns the names of the fields of a key that are not dependency tables. Fails if memory is refused.
pub fn non_table_fields(alloc: Global, value: &Value) -> Result<Vec<String>, AllocError>
    ensures { IfOk result (λ found. map (λ s. string_bytes s) found.items ≡ no_table_names (view value.now)) }
{
    let mut found = Vec::new(alloc);
    let Some(table) = value.as_table() else {
        return Ok(found);
    };
    'members: for (name, member) in table.iter() {
        if !is_table_name(name.as_str()) || member.as_table().is_none() {
            found.push(name.clone()?)?;
        }
    }
    Ok(found)
}

/// Returns the parts of a key's value that are not dependency tables, with a text for each. Fails if memory is refused.
pub fn non_tables(alloc: Global, value: &Value) -> Result<Vec<String>, AllocError>
    ensures { IfOk result (λ found. is_empty_list found.items ≡ not (is_no_table (view value.now))) }
{
    let mut found = Vec::new(alloc);
    let Some(table) = value.as_table() else {
        found.push(String::from_str(alloc, "the key is not a table")?)?;
        return Ok(found);
    };
    'members: for (name, member) in table.iter() {
        let name = name.as_str();
        if !is_table_name(name) {
            found.push(other_member(alloc, name)?)?;
        } else if member.as_table().is_none() {
            found.push(no_table(alloc, name)?)?;
        }
    }
    Ok(found)
}
