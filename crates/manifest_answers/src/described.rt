//! The declaration of a dependency in a manifest: its package, version, source and features.

use manifests::document::Document;
use manifests::{Dependency, table_of};
use std::alloc::{AllocError, Global};
use toml::{Table, Value};

/// Returns the table of dependencies at a key of `target`.
fn below_key<'d>(document: &'d Document, key: &str) -> Option<&'d Table> {
    let targets = document.table.get("target")?.as_table()?;
    targets.get(key)?.as_table()
}

/// Returns the declaration of a dependency: a text, which is its version, or a table.
fn declared_value<'d>(document: &'d Document, dependency: &Dependency<'_>) -> Option<&'d Value> {
    let tables = match dependency.key {
        Some(key) => below_key(document, key)?,
        None => &document.table,
    };
    table_of(tables, dependency.kind)?
        .as_table()?
        .get(dependency.name)
}

/// Returns the text at a field of a declaration.
fn text_at<'d>(declared: Option<&'d Value>, field: &str) -> Option<&'d str> {
    declared?.as_table()?.get(field)?.as_str()
}

/// Returns the version requirement of a declaration.
fn version_of<'d>(declared: Option<&'d Value>) -> Option<&'d str> {
    match declared?.as_str() {
        Some(version) => Some(version),
        None => text_at(declared, "version"),
    }
}

/// Returns the source of a declaration: `workspace`, `git`, `path` or `registry`.
fn source_of(declared: Option<&Value>) -> &'static str {
    let Some(table) = declared.and_then(Value::as_table) else {
        return "registry";
    };
    if table.get("workspace").and_then(Value::as_bool) == Some(true) {
        "workspace"
    } else if table.contains_key("git") {
        "git"
    } else if table.contains_key("path") {
        "path"
    } else {
        "registry"
    }
}

/// Returns the features of a declaration, without values that are not texts.
fn features_of<'d>(alloc: Global, declared: Option<&'d Value>) -> Result<Vec<&'d str>, AllocError> {
    let mut features = Vec::new(alloc);
    let Some(table) = declared.and_then(Value::as_table) else {
        return Ok(features);
    };
    if let Some(Value::Array(listed)) = table.get("features") {
        for feature in listed {
            if let Some(feature) = feature.as_str() {
                features.push(feature)?;
            }
        }
    }
    Ok(features)
}

/// Returns the number of the line on which a key of `target` occurs first.
pub fn first_line_of_key(document: &Document, key: &str) -> Option<usize> {
    let at = document.locations.location_of_key(key)?;
    Some(at.line)
}

/// Returns the number of the line on which the key of a dependency occurs first.
fn line_of(document: &Document, dependency: &Dependency<'_>) -> Option<usize> {
    first_line_of_key(document, dependency.key?)
}

/// The declaration of a dependency in a manifest, beside its name.
#[derive(Drop)]
pub struct Declaration<'d> {
    /// The name of the package, if the dependency is renamed.
    pub package: Option<&'d str>,
    pub version: Option<&'d str>,
    pub source: &'static str,
    pub features: Vec<&'d str>,
    pub line: Option<usize>,
}

impl<'d> Declaration<'d> {
    /// Returns the declaration of this dependency.
    pub fn of(
        alloc: Global,
        document: &'d Document,
        dependency: &Dependency<'_>,
    ) -> Result<Declaration<'d>, AllocError> {
        let declared = declared_value(document, dependency);
        Ok(Declaration {
            package: text_at(declared, "package"),
            version: version_of(declared),
            source: source_of(declared),
            features: features_of(alloc, declared)?,
            line: line_of(document, dependency),
        })
    }
}
