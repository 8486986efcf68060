//! The output of `graph --show`: packages, dependencies, classes of targets, dependency paths and resolved features, as
//! text and as lines of JSON.
#![tactic(auto)]

mod all;
mod edges;
mod features;
mod origins;
mod packages;
mod reasons;
mod targets;
mod unified;
mod why;

use all::show_all;
use edges::show_edges;
use features::show_features;
use graph_queries::graph::Graph;
use graph_queries::query::{GraphQuery, Show};
use key_answers::answer::Answer;
pub use packages::package_lines;
use packages::show_packages;
use std::alloc::{AllocError, Global};
use targets::show_targets;
use unified::show_unified;
use why::show_why;

/// Returns the output of `--show` for a graph. Messages name `file` as the source of the graph. Fails if memory is
/// refused.
pub fn show(
    alloc: Global,
    file: &str,
    graph: &Graph<'_>,
    query: &GraphQuery<'_>,
) -> Result<Answer, AllocError> {
    match query.show {
        Show::Packages => show_packages(alloc, graph, query),
        Show::Edges => show_edges(alloc, graph, query),
        Show::Targets => show_targets(alloc, graph, query),
        Show::Why => show_why(alloc, file, graph, query),
        Show::Features => show_features(alloc, graph, query),
        Show::Unified => show_unified(alloc, graph, query),
        Show::All => show_all(alloc, graph, query),
    }
}
