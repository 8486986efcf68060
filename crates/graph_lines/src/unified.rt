//! `--show unified`: the packages that are built with different features, on different targets or for the host.

use graph_queries::ResolvedFeatures;
use graph_queries::graph::Graph;
use graph_queries::lines::{format_targets, format_text, push};
use graph_queries::packages::name_and_version;
use graph_queries::query::GraphQuery;
use graph_queries::sides::{is_selected, side_note, side_word};
use key_answers::answer::{Answer, Status};
use key_answers::json_lines;
use key_answers::targets::TargetList;
use known_targets::{TargetSet, partition_targets};
use package_graphs::Side;
use serde::Serialize;
use std::alloc::{AllocError, Global};

/// The targets on which a package is built for a side with the same features.
#[derive(Drop)]
struct Built<'a> {
    index: usize,
    side: Side,
    targets: TargetSet,
    features: Vec<&'a str>,
}

/// A line of `graph --show unified --json`: one of several sets of features with which a package is built.
#[derive(Drop, Serialize)]
struct UnifiedLine<'g, 'l, 'f, 'a> {
    /// The name and the version of the package.
    package: String,
    /// The id of the package.
    id: &'g str,
    /// One of `target` and `host`.
    side: &'static str,
    /// The features that are on.
    features: &'l [&'f str],
    /// The number of targets in `at`.
    targets: usize,
    /// The selected targets on which the package is built with these features.
    at: TargetList<'a>,
}

/// Returns the names of the features of a package that are on for a side on some of these targets.
fn names_on<'a>(
    alloc: Global,
    features: &ResolvedFeatures<'a>,
    index: usize,
    side: Side,
    targets: TargetSet,
) -> Result<Vec<&'a str>, AllocError> {
    let mut names = Vec::new(alloc);
    let Some(manifest) = features.declarations.package_of(index) else {
        return Ok(names);
    };
    for i in 0..manifest.features.len() {
        let set = features.resolution.targets_with_feature(index, side, i);
        if !set.intersection(targets).is_empty() {
            names.push(manifest.features[i].name)?;
        }
    }
    Ok(names)
}

/// Returns each set of features with which a package is built for a side, if that is selected, on the selected targets.
fn built_for<'a>(
    alloc: Global,
    features: &ResolvedFeatures<'a>,
    index: usize,
    side: Side,
    query: &GraphQuery<'_>,
) -> Result<Vec<Built<'a>>, AllocError> {
    let mut built = Vec::new(alloc);
    if !is_selected(query.side, side) {
        return Ok(built);
    }
    let count = match features.declarations.package_of(index) {
        Some(manifest) => manifest.features.len(),
        None => 0,
    };
    let mut sets = Vec::new(alloc);
    for i in 0..count {
        sets.push(features.resolution.targets_with_feature(index, side, i))?;
    }
    let used = features.resolution.used_on(index, side);
    for class in partition_targets(alloc, &sets)? {
        let targets = class.intersection(used).intersection(query.targets);
        if !targets.is_empty() {
            built.push(Built {
                index,
                side,
                targets,
                features: names_on(alloc, features, index, side, targets)?,
            })?;
        }
    }
    Ok(built)
}

/// Returns whether all are built with the same features.
fn are_same(built: &[Built<'_>]) -> bool {
    let Some(first) = built.first() else {
        return true;
    };
    for one in built {
        if one.features.as_slice() != first.features.as_slice() {
            return false;
        }
    }
    true
}

/// Returns the output of `--show unified`.
pub fn show_unified(
    alloc: Global,
    graph: &Graph<'_>,
    query: &GraphQuery<'_>,
) -> Result<Answer, AllocError> {
    let mut answer = Answer::of(alloc, String::new(alloc), Status::Fine);
    let Some(features) = &graph.features else {
        return Ok(answer);
    };
    for i in &graph.order {
        let mut built = built_for(alloc, features, *i, Side::Target, query)?;
        for one in built_for(alloc, features, *i, Side::Host, query)? {
            built.push(one)?;
        }
        if are_same(&built) {
            continue;
        }
        for one in &built {
            if query.json {
                push_object(&mut answer.output, alloc, graph, one, query)?;
            } else {
                push_line(&mut answer.output, alloc, graph, one, query)?;
            }
        }
    }
    Ok(answer)
}

/// Appends the line of a package with a set of features.
fn push_line(
    text: &mut String,
    alloc: Global,
    graph: &Graph<'_>,
    built: &Built<'_>,
    query: &GraphQuery<'_>,
) -> Result<(), AllocError> {
    let package = graph.format_package(alloc, built.index)?;
    let targets = format_targets(alloc, built.targets, query)?;
    let note = side_note(built.side);
    let begin = format!(in alloc; "{package}{note}: {targets}:")?;
    push(text, begin.as_str())?;
    if built.features.is_empty() {
        push(text, " no feature")?;
    }
    for name in &built.features {
        let name = format_text(alloc, name)?;
        push(text, " ")?;
        push(text, name.as_str())?;
    }
    push(text, "\n")
}

/// Appends the line of JSON for a package with a set of features.
fn push_object(
    text: &mut String,
    alloc: Global,
    graph: &Graph<'_>,
    built: &Built<'_>,
    query: &GraphQuery<'_>,
) -> Result<(), AllocError> {
    let Some(described) = graph.described(built.index) else {
        return Ok(());
    };
    let line = UnifiedLine {
        package: name_and_version(alloc, described)?,
        id: described.id,
        side: side_word(built.side),
        features: &built.features,
        targets: query.count_of(built.targets),
        at: query.targets_for_json(alloc, built.targets)?,
    };
    json_lines::push_spaced_line(text, alloc, &line)
}
