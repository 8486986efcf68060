//! The sides from which a dependency leads, in lines of JSON.

use graph_queries::origins::DependencySides;
use graph_queries::query::GraphQuery;
use graph_queries::sides::side_word;
use key_answers::targets::TargetList;
use known_targets::TargetSet;
use serde::Serialize;
use std::alloc::{AllocError, Global};

/// A side from which a dependency leads, in a line of JSON.
#[derive(Drop, Serialize)]
pub struct Origin<'a> {
    /// The side for which the package that has the dependency is built. One of `target` and `host`.
    from: &'static str,
    /// The side to which the dependency leads from there. One of `target` and `host`.
    to: &'static str,
    /// The number of targets in `at`. Absent if these are all targets of the dependency.
    #[serde(skip_serializing_if = "Option::is_none")]
    targets: Option<usize>,
    /// The selected targets on which the dependency leads from this side. Absent if these are all targets of the
    /// dependency.
    #[serde(skip_serializing_if = "Option::is_none")]
    at: Option<TargetList<'a>>,
}

/// Returns the origins of a dependency that is followed on the targets of `all`, from the sides from which it leads.
pub fn origins_at<'a>(
    alloc: Global,
    leading: &[DependencySides],
    all: TargetSet,
    query: &GraphQuery<'a>,
) -> Result<Vec<Origin<'a>>, AllocError> {
    let mut origins = Vec::new(alloc);
    for from in leading {
        let mut origin = Origin {
            from: side_word(from.from),
            to: side_word(from.to),
            targets: None,
            at: None,
        };
        if !from.targets.equals(all) {
            origin.targets = Some(query.count_of(from.targets));
            origin.at = Some(query.targets_for_json(alloc, from.targets)?);
        }
        origins.push(origin)?;
    }
    Ok(origins)
}
