//! The reasons why packages are left out, as they are printed.

use graph_queries::lines::{format_targets, push};
use graph_queries::query::GraphQuery;
use graph_queries::reasons::Reason;
use key_answers::targets::TargetList;
use known_targets::TargetSet;
use serde::Serialize;
use std::alloc::{AllocError, Global};

/// Formats the reasons why a package is left out, as a part of its line.
pub fn format_reasons(
    alloc: Global,
    reasons: &Option<Vec<(Reason, TargetSet)>>,
    query: &GraphQuery<'_>,
) -> Result<String, AllocError> {
    let mut text = String::new(alloc);
    let Some(reasons) = reasons else {
        return Ok(text);
    };
    for (reason, targets) in reasons {
        let reason = reason.text;
        let targets = format_targets(alloc, *targets, query)?;
        let part = format!(in alloc; "; not at {targets}: {reason}")?;
        push(&mut text, part.as_str())?;
    }
    Ok(text)
}

/// A reason why a package is not in the build on some targets, in a line of JSON.
#[derive(Drop, Serialize)]
pub struct LeftOut<'a> {
    /// One of `weak`, `target`, `side`, `dev`, `several` and `unasked`.
    reason: &'static str,
    /// The number of targets in `at`.
    targets: usize,
    /// The selected targets on which this is the reason.
    at: TargetList<'a>,
}

/// Returns the reasons why a package is left out, for a line of JSON, if features are resolved.
pub fn left_out_of<'a>(
    alloc: Global,
    reasons: &Option<Vec<(Reason, TargetSet)>>,
    query: &GraphQuery<'a>,
) -> Result<Option<Vec<LeftOut<'a>>>, AllocError> {
    let Some(reasons) = reasons else {
        return Ok(None);
    };
    let mut left_out = Vec::new(alloc);
    for (reason, targets) in reasons {
        left_out.push(LeftOut {
            reason: reason.word,
            targets: query.count_of(*targets),
            at: query.targets_for_json(alloc, *targets)?,
        })?;
    }
    Ok(Some(left_out))
}
