//! The reasons why documents are rejected that have what no answer takes into account.

use crate::lines::format_text;
use cargo_metadata::fields::{list_at, text_at};
use serde_json::Value;
use std::alloc::{AllocError, Global};

/// Returns whether a package has a licence that is neither a text nor null.
fn has_strange_licence(package: &Value) -> bool {
    match package.get("license") {
        Some(found) => !found.is_null() && found.as_str().is_none(),
        None => false,
    }
}

/// Returns whether a kind of a dependency is one on what a package builds.
fn is_of_artifact(kind: &Value) -> bool {
    match kind.get("artifact") {
        Some(found) => !found.is_null(),
        None => false,
    }
}

/// Formats the text at a field. One that is missing is empty.
fn format_field(alloc: Global, value: &Value, field: &str) -> Result<String, AllocError> {
    format_text(alloc, text_at(value, field).unwrap_or(""))
}

/// Returns why a document is rejected, if a licence is no text.
fn licence_reason(alloc: Global, document: &Value) -> Result<Option<String>, AllocError> {
    let packages = list_at(document, "packages").unwrap_or(&[]);
    for i in 0..packages.len() {
        if has_strange_licence(&packages[i]) {
            let name = format_field(alloc, &packages[i], "name")?;
            return Ok(Some(format!(in alloc;
                "packages[{i}].license: expected a string or null (package {name})"
            )?));
        }
    }
    Ok(None)
}

/// Returns the first artifact dependency of a node.
fn first_artifact(node: &Value) -> Option<(usize, &Value)> {
    let dependencies = list_at(node, "deps")?;
    for j in 0..dependencies.len() {
        let kinds = list_at(&dependencies[j], "dep_kinds").unwrap_or(&[]);
        if kinds.iter().any(is_of_artifact) {
            return Some((j, &dependencies[j]));
        }
    }
    None
}

/// Returns why a document is rejected, if it has an artifact dependency: its node, and its package.
fn artifact_reason(alloc: Global, document: &Value) -> Result<Option<String>, AllocError> {
    let Some(resolve) = document.get("resolve") else {
        return Ok(None);
    };
    let nodes = list_at(resolve, "nodes").unwrap_or(&[]);
    for i in 0..nodes.len() {
        if let Some((j, dependency)) = first_artifact(&nodes[i]) {
            let of = format_field(alloc, &nodes[i], "id")?;
            let on = format_field(alloc, dependency, "pkg")?;
            return Ok(Some(format!(in alloc;
                "resolve.nodes[{i}].deps[{j}]: artifact dependencies are not supported: {of} has one on {on}"
            )?));
        }
    }
    Ok(None)
}

/// Returns why a document is rejected: a licence that is no text, or an artifact dependency.
pub fn unsupported_reason(alloc: Global, document: &Value) -> Result<Option<String>, AllocError> {
    match licence_reason(alloc, document)? {
        Some(reason) => Ok(Some(reason)),
        None => artifact_reason(alloc, document),
    }
}
