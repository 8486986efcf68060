//! Errors of documents that cannot be used: the path in the document, the reason, and the package.

ghost use Rattle.std.specs.Prelude.{◌≡◌, false, OnOk};
ghost use Rattle.cargo_metadata.specs.Documents.{is_memory};
ghost use Rattle.cargo_metadata.specs.Refusals.{is_memory as is_memory_of_graph};

use crate::lines::{format_text, push};
use cargo_metadata::graphs::{EdgeError, GraphError};
use cargo_metadata::{ExpectedValue, Metadata, MetadataError, ResolveError};
use cargo_platform::ParseError;
use input_limits::{too_deep_at, too_deep_message};
pub use key_answers::answer::file_error;
use key_answers::printing::invalid_key_message;
use serde_json::Value;
use std::alloc::{AllocError, Global};

/// The command that prints a complete document, as far as it is always the same.
pub(crate) const COMMAND: &str = "cargo metadata --format-version 1";

/// Appends to a reason the package that it is about, if one is known.
fn about(alloc: Global, reason: String, subject: Option<&str>) -> Result<String, AllocError> {
    match subject {
        Some(subject) => {
            let subject = format_text(alloc, subject)?;
            format!(in alloc; "{reason} (package {subject})")
        }
        None => Ok(reason),
    }
}

/// Returns the text in a field of an element of a list.
fn text_in<'a>(list: Option<&'a Value>, index: usize, field: &str) -> Option<&'a str> {
    let items = list?.as_array()?;
    items.get(index)?.get(field)?.as_str()
}

/// Returns the package that a refusal is about: its name, or the id of its node.
fn subject_of<'a>(document: &'a Value, refusal: &MetadataError) -> Option<&'a str> {
    match refusal {
        MetadataError::Package(i, _) => text_in(document.get("packages"), *i, "name"),
        MetadataError::Resolve(ResolveError::Node(i, _)) => {
            let resolve = document.get("resolve")?;
            text_in(resolve.get("nodes"), *i, "id")
        }
        _ => None,
    }
}

/// Adds the command that prints a graph to the reason why a document without one is rejected.
fn with_command(
    alloc: Global,
    reason: String,
    refusal: &MetadataError,
) -> Result<String, AllocError> {
    match refusal {
        MetadataError::Field(wrong) if matches!(wrong.expected, ExpectedValue::Resolve) => {
            format!(in alloc; "{reason}: run `{COMMAND}` without it")
        }
        _ => Ok(reason),
    }
}

/// Formats why a document is not the output of `cargo metadata`. Fails if memory is refused, and if that is what
/// `refusal` reports.
pub fn document_reason(
    alloc: Global,
    document: &Value,
    refusal: &MetadataError,
) -> Result<String, AllocError>
    ensures memory { OnOk result (is_memory refusal.now ≡ false) }
{
    if refusal.is_memory() {
        return Err(AllocError);
    }
    let reason = format!(in alloc; "{refusal}")?;
    let reason = with_command(alloc, reason, refusal)?;
    about(alloc, reason, subject_of(document, refusal))
}

/// Returns the id of a package.
fn id_of_package<'a>(metadata: &Metadata<'a>, i: usize) -> Option<&'a str> {
    Some(metadata.packages.get(i)?.id)
}

/// Returns the id of a node.
fn id_of_node<'a>(metadata: &Metadata<'a>, i: usize) -> Option<&'a str> {
    Some(metadata.nodes.get(i)?.id)
}

/// Returns the id on which a node depends.
fn id_depended_on<'a>(metadata: &Metadata<'a>, i: usize, j: usize) -> Option<&'a str> {
    Some(metadata.nodes.get(i)?.dependencies.get(j)?.on)
}

/// Returns the id that a refusal is about.
fn id_of<'a>(metadata: &Metadata<'a>, refusal: &GraphError) -> Option<&'a str> {
    match refusal {
        GraphError::SamePackage { again, .. } => id_of_package(metadata, *again),
        GraphError::NoPackage(i) => id_of_node(metadata, *i),
        GraphError::SameNode { again, .. } => id_of_node(metadata, *again),
        GraphError::NoMember(i) => metadata.members.get(*i).copied(),
        GraphError::Dependency(i, j, EdgeError::NoNode) => id_depended_on(metadata, *i, *j),
        GraphError::Dependency(i, _, _) => id_of_node(metadata, *i),
        GraphError::Memory(_) => None,
    }
}

/// Returns the text of the condition at these indexes.
fn condition_at<'a>(metadata: &Metadata<'a>, i: usize, j: usize, k: usize) -> Option<&'a str> {
    let dependency = metadata.nodes.get(i)?.dependencies.get(j)?;
    dependency.kinds.get(k)?.condition
}

/// Returns the first condition of a document that is nested too deep: its indexes, and the byte at which the limit is
/// exceeded.
fn first_deep(metadata: &Metadata<'_>) -> Option<((usize, usize, usize), usize)> {
    for (i, node) in metadata.nodes.iter().enumerate() {
        for (j, dependency) in node.dependencies.iter().enumerate() {
            for (k, row) in dependency.kinds.iter().enumerate() {
                let Some(condition) = row.condition else {
                    continue;
                };
                if let Some(at) = too_deep_at(condition) {
                    return Some(((i, j, k), at));
                }
            }
        }
    }
    None
}

/// Formats why the condition at these indexes is refused: at byte `at`, it is nested too deep.
fn deep_reason(
    alloc: Global,
    metadata: &Metadata<'_>,
    places: (usize, usize, usize),
    at: usize,
) -> Result<String, AllocError> {
    let (i, j, k) = places;
    let reason = too_deep_message(alloc, at)?;
    let reason = format!(in alloc;
        "resolve.nodes[{i}].deps[{j}].dep_kinds[{k}].target: the text is {reason}"
    )?;
    about(alloc, reason, id_of_node(metadata, i))
}

/// Returns why a document is rejected, if it has a condition that is nested too deep.
pub(crate) fn depth_reason(
    alloc: Global,
    metadata: &Metadata<'_>,
) -> Result<Option<String>, AllocError> {
    match first_deep(metadata) {
        Some((places, at)) => Ok(Some(deep_reason(alloc, metadata, places, at)?)),
        None => Ok(None),
    }
}

/// Formats the span and the reason of a condition's error as `targets` does, indented and after a line end.
fn fault_lines(alloc: Global, key: &str, error: &ParseError) -> Result<String, AllocError> {
    let whole = invalid_key_message(alloc, key, error)?;
    let mut lines = String::new(alloc);
    if let Some((_, rest)) = whole.as_str().split_once('\n') {
        push(&mut lines, "\n")?;
        push(&mut lines, rest.strip_suffix('\n').unwrap_or(rest))?;
    }
    Ok(lines)
}

/// Formats why the ids or conditions of a document form no graph: one line, and for a refused condition the lines that
/// show its error. Fails if memory is refused, and if that is what `refusal` reports.
pub fn graph_reason(
    alloc: Global,
    metadata: &Metadata<'_>,
    refusal: &GraphError,
) -> Result<String, AllocError>
    ensures memory { OnOk result (is_memory_of_graph refusal.now ≡ false) }
{
    if refusal.is_memory() {
        return Err(AllocError);
    }
    let reason = format!(in alloc; "{refusal}")?;
    let mut reason = about(alloc, reason, id_of(metadata, refusal))?;
    if let GraphError::Dependency(i, j, EdgeError::Condition(k, error)) = refusal {
        if let Some(key) = condition_at(metadata, *i, *j, *k) {
            let lines = fault_lines(alloc, key, error)?;
            push(&mut reason, lines.as_str())?;
        }
    }
    Ok(reason)
}
