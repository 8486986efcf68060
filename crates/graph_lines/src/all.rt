//! `--show all`: the packages, their dependencies, and the features that are on, in one answer.

use crate::edges::show_edges;
use crate::features::show_features;
use crate::packages::show_packages;
use graph_queries::graph::Graph;
use graph_queries::query::GraphQuery;
use key_answers::answer::Answer;
use std::alloc::{AllocError, Global};

/// Returns the output of `--show all`: that of `packages`, then that of `edges`, and then that of `features`.
pub fn show_all(
    alloc: Global,
    graph: &Graph<'_>,
    query: &GraphQuery<'_>,
) -> Result<Answer, AllocError> {
    let mut answer = show_packages(alloc, graph, query)?;
    answer.append(show_edges(alloc, graph, query)?)?;
    answer.append(show_features(alloc, graph, query)?)?;
    Ok(answer)
}
