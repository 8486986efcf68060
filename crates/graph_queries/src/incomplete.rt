//! The reasons why incomplete documents are rejected: they lack the edge of a dependency that is enabled.

use crate::lines::{format_package, format_text};
use crate::refused::COMMAND;
use cargo_features::Resolved;
use declared_features::{
    DeclaredGraph, MissingEdge, RequestedFeatures, first_filtered_out, first_missing_edge,
};
use std::alloc::{AllocError, Global};

/// Formats the message for an edge that a document lacks, with its package and the name of the dependency in the
/// manifest.
fn format_missing_edge(
    alloc: Global,
    graph: &DeclaredGraph<'_, '_>,
    lacking: &MissingEdge<'_, '_>,
) -> Result<String, AllocError> {
    let package = match graph.linked.described.get(lacking.node) {
        Some(described) => format_package(alloc, described)?,
        None => String::new(alloc),
    };
    let declared = lacking.declared;
    let name = format_text(alloc, declared.rename.unwrap_or(declared.name))?;
    format!(in alloc; "the file is incomplete: {package} has no edge for its dependency {name}")
}

/// Returns why a document is rejected, if `--filter-platform` made it.
pub fn filtered_reason(
    alloc: Global,
    graph: &DeclaredGraph<'_, '_>,
) -> Result<Option<String>, AllocError> {
    let Some(lacking) = first_filtered_out(alloc, graph)? else {
        return Ok(None);
    };
    let lack = format_missing_edge(alloc, graph, &lacking)?;
    let condition = format_text(alloc, lacking.declared.condition.unwrap_or(""))?;
    Ok(Some(format!(in alloc;
        "{lack} where {condition}: run `{COMMAND}` without `--filter-platform`"
    )?))
}

/// Returns why a document is rejected, if it was made with fewer features than the selected ones.
pub fn lacking_reason<'a>(
    alloc: Global,
    graph: &DeclaredGraph<'_, 'a>,
    resolved: &Resolved,
    query: &RequestedFeatures<'a>,
) -> Result<Option<String>, AllocError> {
    let Some(lacking) = first_missing_edge(alloc, graph, resolved, query)? else {
        return Ok(None);
    };
    let lack = format_missing_edge(alloc, graph, &lacking)?;
    Ok(Some(format!(in alloc;
        "{lack}, which the selected features turn on: run `{COMMAND} --all-features`"
    )?))
}
