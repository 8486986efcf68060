//! The dependencies of a package, in the order of the document.

use crate::graph::Graph;
use cargo_metadata::Kind;
use cargo_platform::{Platform, ReadError};
use declared_features::dependency_rows;
use known_targets::TargetSet;
use package_graphs::Kinds;
use std::alloc::{AllocError, Global};

/// A dependency of a package, of one of its kinds.
#[derive(Drop)]
pub struct Edge<'a> {
    pub from: usize,
    pub to: usize,
    /// The index of the dependency among those of the package.
    pub place: usize,
    pub name: Option<&'a str>,
    pub kind: Kind,
    /// The condition, if the dependency has one.
    pub condition: Option<Platform>,
    /// The targets on which the condition is true.
    pub holds: TargetSet,
}

/// Parses a condition, if there is one.
fn read_condition(alloc: Global, text: Option<&str>) -> Result<Option<Platform>, AllocError> {
    let Some(text) = text else {
        return Ok(None);
    };
    match Platform::from_str(alloc, text) {
        Ok(platform) => Ok(Some(platform)),
        Err(ReadError::Memory(refused)) => Err(refused),
        // A graph contains no condition that does not parse.
        Err(ReadError::Parse(_)) => Ok(None),
    }
}

/// Returns the edges of a package, in the order of the document. Fails if memory is refused.
pub fn edges_of<'a>(
    alloc: Global,
    graph: &Graph<'a>,
    from: usize,
) -> Result<Vec<Edge<'a>>, AllocError> {
    let mut edges = Vec::new(alloc);
    for row in &dependency_rows(alloc, &graph.metadata, &graph.linked, from)? {
        edges.push(Edge {
            from,
            to: row.linked.to,
            place: row.index,
            name: row.edge.name,
            kind: row.kind.kind,
            condition: read_condition(alloc, row.kind.condition)?,
            holds: row.linked.holds,
        })?;
    }
    Ok(edges)
}

/// Returns whether these dependency kinds include an edge.
fn is_followed(graph: &Graph<'_>, edge: &Edge<'_>, kinds: Kinds) -> bool {
    let Some(unit) = graph.linked.packages.get(edge.from) else {
        return false;
    };
    match unit.dependencies.get(edge.place) {
        Some(dependency) => kinds.follows(unit.is_root, dependency.kind),
        None => false,
    }
}

/// Returns the edges of a package that a query of these dependency kinds follows. Fails if memory is refused.
pub fn edges_followed<'a>(
    alloc: Global,
    graph: &Graph<'a>,
    from: usize,
    kinds: Kinds,
) -> Result<Vec<Edge<'a>>, AllocError> {
    let mut edges = edges_of(alloc, graph, from)?;
    edges.retain(|edge| is_followed(graph, edge, kinds));
    Ok(edges)
}
