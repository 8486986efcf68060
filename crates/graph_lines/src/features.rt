//! `--show features`: the features of each package that are on, and the targets on which they are on.

use graph_queries::ResolvedFeatures;
use graph_queries::graph::Graph;
use graph_queries::lines::{format_targets, format_text, push};
use graph_queries::packages::name_and_version;
use graph_queries::query::GraphQuery;
use graph_queries::sides::{is_selected, side_note, side_word};
use key_answers::answer::{Answer, Status};
use key_answers::json_lines;
use key_answers::targets::TargetList;
use known_targets::TargetSet;
use package_graphs::Side;
use serde::Serialize;
use std::alloc::{AllocError, Global};

/// A line of `graph --show features --json`: a feature that is on.
#[derive(Drop, Serialize)]
struct FeatureLine<'g, 'f, 'a> {
    /// The name and the version of the package.
    package: String,
    /// The id of the package.
    id: &'g str,
    feature: &'f str,
    /// One of `target` and `host`.
    side: &'static str,
    /// The number of targets in `at`.
    targets: usize,
    /// The selected targets on which the feature is on.
    at: TargetList<'a>,
}

/// A feature of a package that is on for a side, with the selected targets on which it is.
#[derive(Clone, Copy, Drop)]
struct On<'f> {
    index: usize,
    name: &'f str,
    side: Side,
    targets: TargetSet,
}

/// Appends the features of a package that are on for a side, if that is selected.
fn push_on<'f>(
    found: &mut Vec<On<'f>>,
    features: &ResolvedFeatures<'f>,
    index: usize,
    side: Side,
    query: &GraphQuery<'_>,
) -> Result<(), AllocError> {
    if !is_selected(query.side, side) {
        return Ok(());
    }
    let Some(manifest) = features.declarations.package_of(index) else {
        return Ok(());
    };
    for i in 0..manifest.features.len() {
        let targets = features.resolution.targets_with_feature(index, side, i);
        let targets = targets.intersection(query.targets);
        if !targets.is_empty() {
            found.push(On {
                index,
                name: manifest.features[i].name,
                side,
                targets,
            })?;
        }
    }
    Ok(())
}

/// Returns the output of `--show features`.
pub fn show_features(
    alloc: Global,
    graph: &Graph<'_>,
    query: &GraphQuery<'_>,
) -> Result<Answer, AllocError> {
    let mut answer = Answer::of(alloc, String::new(alloc), Status::Fine);
    let Some(features) = &graph.features else {
        return Ok(answer);
    };
    for i in &graph.order {
        let mut found = Vec::new(alloc);
        push_on(&mut found, features, *i, Side::Target, query)?;
        push_on(&mut found, features, *i, Side::Host, query)?;
        for on in &found {
            if query.json {
                push_object(&mut answer.output, alloc, graph, on, query)?;
            } else {
                push_line(&mut answer.output, alloc, graph, on, query)?;
            }
        }
    }
    Ok(answer)
}

/// Appends the line of a feature.
fn push_line(
    text: &mut String,
    alloc: Global,
    graph: &Graph<'_>,
    on: &On<'_>,
    query: &GraphQuery<'_>,
) -> Result<(), AllocError> {
    let package = graph.format_package(alloc, on.index)?;
    let name = format_text(alloc, on.name)?;
    let targets = format_targets(alloc, on.targets, query)?;
    let note = side_note(on.side);
    let line = format!(in alloc; "{package} {name}{note}: {targets}\n")?;
    push(text, line.as_str())
}

/// Appends the line of JSON for a feature.
fn push_object(
    text: &mut String,
    alloc: Global,
    graph: &Graph<'_>,
    on: &On<'_>,
    query: &GraphQuery<'_>,
) -> Result<(), AllocError> {
    let Some(described) = graph.described(on.index) else {
        return Ok(());
    };
    let line = FeatureLine {
        package: name_and_version(alloc, described)?,
        id: described.id,
        feature: on.name,
        side: side_word(on.side),
        targets: query.count_of(on.targets),
        at: query.targets_for_json(alloc, on.targets)?,
    };
    json_lines::push_spaced_line(text, alloc, &line)
}
