//! `--show packages`: the targets on which each package is in the build.

use crate::reasons::{LeftOut, format_reasons, left_out_of};
use cargo_metadata::Metadata;
use cargo_metadata::graphs::Linked;
use graph_queries::graph::Graph;
use graph_queries::lines::{format_targets, push};
use graph_queries::packages::{ReachingKinds, count_present, kinds_reached, name_and_version};
use graph_queries::query::GraphQuery;
use graph_queries::reasons::{Reason, Reasons};
use key_answers::answer::{Answer, Status};
use key_answers::json_lines;
use key_answers::targets::TargetList;
use known_targets::{KnownTarget, TargetSet};
use serde::Serialize;
use std::alloc::{AllocError, Global};

/// A line of `graph --json`: a package.
#[derive(Drop, Serialize)]
struct PackageLine<'g, 'a> {
    /// The name and the version of the package.
    package: String,
    id: &'g str,
    /// The licence expression of the package.
    license: Option<&'g str>,
    /// The number of targets in `at`.
    targets: usize,
    /// The selected targets on which the package is in the build.
    at: TargetList<'a>,
    /// The sides for which the package is built. One of `target`, `host` and `both`. Null if none.
    side: Option<&'static str>,
    /// The dependency kinds through which the package is reached. Each is one of `normal`, `build` and `dev`.
    kinds: Vec<&'static str>,
    /// True if the package is a procedural macro.
    proc_macro: bool,
    /// If features are resolved: the reasons why the package is not in the build on targets on which dependencies lead
    /// to it.
    #[serde(skip_serializing_if = "Option::is_none")]
    left_out: Option<Vec<LeftOut<'a>>>,
}

/// A package, with what is printed beside its targets.
#[derive(Drop)]
struct ListedPackage {
    index: usize,
    /// The dependency kinds through which it is reached, for a line of JSON.
    reached: Option<ReachingKinds>,
    /// If features are resolved: the reasons why the package is left out, each with the selected targets on which it
    /// is.
    left_out: Option<Vec<(Reason, TargetSet)>>,
}

/// Returns the packages, sorted by name, version and id.
fn listed_packages(
    alloc: Global,
    graph: &Graph<'_>,
    query: &GraphQuery<'_>,
) -> Result<Vec<ListedPackage>, AllocError> {
    let reasons = Reasons::of(alloc, graph)?;
    let reached = if query.json {
        kinds_reached(alloc, graph, query)?
    } else {
        Vec::new(alloc)
    };
    let mut listed = Vec::new(alloc);
    for i in &graph.order {
        listed.push(ListedPackage {
            index: *i,
            reached: reached.get(*i).copied(),
            left_out: match &reasons {
                Some(reasons) => Some(reasons.at(alloc, *i, query)?),
                None => None,
            },
        })?;
    }
    Ok(listed)
}

/// Returns the output of `--show packages`.
pub fn show_packages(
    alloc: Global,
    graph: &Graph<'_>,
    query: &GraphQuery<'_>,
) -> Result<Answer, AllocError> {
    let mut answer = Answer::of(alloc, String::new(alloc), Status::Fine);
    for listed in &listed_packages(alloc, graph, query)? {
        if query.json {
            push_object(&mut answer.output, alloc, graph, listed, query)?;
        } else {
            push_line(&mut answer.output, alloc, graph, listed, query)?;
        }
    }
    if !query.json {
        let count = count_present(graph, query);
        let all = graph.order.len();
        let line = format!(in alloc; "{count} of {all} packages\n")?;
        push(&mut answer.errors, line.as_str())?;
    }
    Ok(answer)
}

/// Returns a line of JSON for each package, with the known targets on which it is in the build, as `manifest_check
/// graph --json` prints them. Builds run on `host`, or on the target itself if that is `None`. Fails if memory is
/// refused.
pub fn package_lines<'a>(
    alloc: Global,
    metadata: Metadata<'a>,
    linked: Linked<'a>,
    host: Option<KnownTarget>,
) -> Result<String, AllocError> {
    let query = GraphQuery::for_all_packages(host);
    let graph = Graph::of(alloc, metadata, linked, &query)?;
    let answer = show_packages(alloc, &graph, &query)?;
    Ok(answer.output)
}

/// Appends the line of a package.
fn push_line(
    text: &mut String,
    alloc: Global,
    graph: &Graph<'_>,
    listed: &ListedPackage,
    query: &GraphQuery<'_>,
) -> Result<(), AllocError> {
    let package = graph.format_package(alloc, listed.index)?;
    let built = graph.built(listed.index, query);
    let targets = format_targets(alloc, built.targets(), query)?;
    let reasons = format_reasons(alloc, &listed.left_out, query)?;
    let note = built.sides().note();
    let line = format!(in alloc; "{package}{note}: {targets}{reasons}\n")?;
    push(text, line.as_str())
}

/// Appends the line of JSON for a package.
fn push_object(
    text: &mut String,
    alloc: Global,
    graph: &Graph<'_>,
    listed: &ListedPackage,
    query: &GraphQuery<'_>,
) -> Result<(), AllocError> {
    let Some(described) = graph.described(listed.index) else {
        return Ok(());
    };
    let built = graph.built(listed.index, query);
    let targets = built.targets();
    let line = PackageLine {
        package: name_and_version(alloc, described)?,
        id: described.id,
        license: described.license,
        targets: query.count_of(targets),
        at: query.targets_for_json(alloc, targets)?,
        side: built.sides().word(),
        kinds: match listed.reached {
            Some(reached) => reached.kinds(alloc)?,
            None => Vec::new(alloc),
        },
        proc_macro: described.is_macro,
        left_out: left_out_of(alloc, &listed.left_out, query)?,
    };
    json_lines::push_spaced_line(text, alloc, &line)
}
