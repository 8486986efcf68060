//! `--show why`: a shortest dependency path from a root to each package of a name, on each target on which the package
//! is in the build.

use crate::edges::{PathStep, format_kind, step_of};
use cargo_metadata::Package as Described;
use graph_queries::classes::selected_classes;
use graph_queries::edges::{Edge, edges_of};
use graph_queries::graph::Graph;
use graph_queries::lines::{format_target_count, joined_names, push, push_comma};
use graph_queries::packages::name_and_version;
use graph_queries::query::GraphQuery;
use key_answers::answer::{Answer, Status, answer_or_error, file_error};
use key_answers::json_lines;
use key_answers::printing::format_name;
use key_answers::targets::TargetList;
use known_targets::{KnownTarget, TargetSet};
use package_graphs::{Step, shortest_path, shortest_path_on};
use serde::Serialize;
use std::alloc::{AllocError, Global};

/// So many targets that were selected by name are printed by name at most.
const MAX_NAMES: usize = 8;

/// A shortest dependency path, and the targets on which it is found.
#[derive(Drop)]
struct Way {
    targets: TargetSet,
    steps: Vec<Step>,
}

/// The shortest dependency paths to a package, in the order of their first targets.
#[derive(Drop)]
struct Ways {
    index: usize,
    ways: Vec<Way>,
}

/// A line of `graph --show why --json`: a shortest dependency path to a package.
#[derive(Drop, Serialize)]
struct PathLine<'g, 'a> {
    /// The name and the version of the package.
    package: String,
    /// The id of the package.
    id: &'g str,
    /// The number of targets in `at`.
    targets: usize,
    /// The selected targets on which this path is a shortest one.
    at: TargetList<'a>,
    /// The steps of the path, from a root on. Null if no path leads to the package.
    path: Option<Vec<PathStep<'g>>>,
}

/// Returns the steps of a shortest path to a package on a target, for the selected side.
fn shortest_steps(
    alloc: Global,
    graph: &Graph<'_>,
    index: usize,
    target: KnownTarget,
    query: &GraphQuery<'_>,
) -> Result<Option<Vec<Step>>, AllocError> {
    let packages = &graph.linked.packages;
    let (kinds, host) = (query.kinds, query.host);
    match graph.side {
        Some(side) => shortest_path_on(alloc, packages, kinds, host, target, (index, side)),
        None => shortest_path(alloc, packages, kinds, host, target, index),
    }
}

/// Returns the dependency paths to a package.
fn ways_to(
    alloc: Global,
    graph: &Graph<'_>,
    index: usize,
    query: &GraphQuery<'_>,
) -> Result<Ways, AllocError> {
    let mut ways: Vec<Way> = Vec::new(alloc);
    for target in graph.targets_in(index, query).iter() {
        let Some(steps) = shortest_steps(alloc, graph, index, target, query)? else {
            continue;
        };
        let only = TargetSet::only(target);
        let mut is_new = true;
        for way in &mut ways {
            if way.steps.as_slice() == steps.as_slice() {
                way.targets = way.targets.union(only);
                is_new = false;
                break;
            }
        }
        if is_new {
            ways.push(Way {
                targets: only,
                steps,
            })?;
        }
    }
    Ok(Ways { index, ways })
}

/// Returns the output of `--show why`.
pub fn show_why(
    alloc: Global,
    file: &str,
    graph: &Graph<'_>,
    query: &GraphQuery<'_>,
) -> Result<Answer, AllocError> {
    let mut answer = Answer::of(alloc, String::new(alloc), Status::Fine);
    let mut is_known = false;
    let classes = if query.json {
        Vec::new(alloc)
    } else {
        selected_classes(alloc, graph, query)?
    };
    for i in &graph.order {
        match graph.described(*i) {
            Some(described) if described.name == query.of => {}
            _ => continue,
        }
        is_known = true;
        let ways = ways_to(alloc, graph, *i, query)?;
        if query.json {
            push_objects(&mut answer.output, alloc, graph, &ways, query)?;
        } else {
            let lines = lines_of(alloc, graph, &ways, &classes, query)?;
            push(&mut answer.output, lines.as_str())?;
        }
    }
    if is_known {
        return Ok(answer);
    }
    let name = format_name(alloc, query.of)?;
    let reason = format!(in alloc; "no package of the graph is named {name}")?;
    answer_or_error(alloc, Err(file_error(alloc, file, reason.as_str())))
}

/// Returns the edge of a step.
fn edge_of<'a>(
    alloc: Global,
    graph: &Graph<'a>,
    step: &Step,
) -> Result<Option<Edge<'a>>, AllocError> {
    for edge in edges_of(alloc, graph, step.from)? {
        if edge.place == step.dependency {
            return Ok(Some(edge));
        }
    }
    Ok(None)
}

/// Returns the numbers of the classes of some targets, after `part of` if it is not all of these classes.
fn format_classes(
    alloc: Global,
    targets: TargetSet,
    classes: &[TargetSet],
    query: &GraphQuery<'_>,
) -> Result<String, AllocError> {
    let mut numbers = String::new(alloc);
    let mut is_part = false;
    for i in 0..classes.len() {
        let class = classes[i].intersection(query.targets);
        let common = class.intersection(targets);
        if common.is_empty() {
            continue;
        }
        is_part |= !common.equals(class);
        let is_first = numbers.is_empty();
        push_comma(&mut numbers, is_first)?;
        let number = i.saturating_add(1);
        push(&mut numbers, format!(in alloc; "{number}")?.as_str())?;
    }
    let part = if is_part { "part of " } else { "" };
    format!(in alloc; "{part}class {numbers}")
}

/// Returns the targets of a path as they are shown: `all` selected ones, few by name, or how many of which classes.
fn format_path_targets(
    alloc: Global,
    targets: TargetSet,
    classes: &[TargetSet],
    query: &GraphQuery<'_>,
) -> Result<String, AllocError> {
    if query.are_all(targets) {
        return String::from_str(alloc, "all");
    }
    let number = query.count_of(targets);
    let count = format_target_count(alloc, number)?;
    if query.are_named && number <= MAX_NAMES {
        let names = joined_names(alloc, targets, query)?;
        return format!(in alloc; "{count}: {names}");
    }
    let classes = format_classes(alloc, targets, classes, query)?;
    format!(in alloc; "{count}: {classes}")
}

/// Formats the lines of the dependency paths to a package.
fn lines_of(
    alloc: Global,
    graph: &Graph<'_>,
    ways: &Ways,
    classes: &[TargetSet],
    query: &GraphQuery<'_>,
) -> Result<String, AllocError> {
    let package = graph.format_package(alloc, ways.index)?;
    if ways.ways.is_empty() {
        return format!(in alloc; "{package}: nowhere\n");
    }
    let mut text = String::new(alloc);
    for way in &ways.ways {
        let targets = format_path_targets(alloc, way.targets, classes, query)?;
        let line = format!(in alloc; "{package}: {targets}\n")?;
        push(&mut text, line.as_str())?;
        push_path(&mut text, alloc, graph, ways.index, way)?;
    }
    Ok(text)
}

/// Appends the lines of a dependency path, indented: its root, and each step.
fn push_path(
    text: &mut String,
    alloc: Global,
    graph: &Graph<'_>,
    index: usize,
    way: &Way,
) -> Result<(), AllocError> {
    let root = match way.steps.first() {
        Some(step) => step.from,
        None => index,
    };
    let package = graph.format_package(alloc, root)?;
    let line = format!(in alloc; "    {package}, a member of the workspace\n")?;
    push(text, line.as_str())?;
    for step in &way.steps {
        let Some(edge) = edge_of(alloc, graph, step)? else {
            continue;
        };
        let kind = format_kind(alloc, &edge)?;
        let package = graph.format_package(alloc, edge.to)?;
        let line = format!(in alloc; "    -> {package}, {kind}\n")?;
        push(text, line.as_str())?;
    }
    Ok(())
}

/// Returns the steps of a dependency path.
fn path_of<'a>(
    alloc: Global,
    graph: &Graph<'a>,
    way: &Way,
) -> Result<Vec<PathStep<'a>>, AllocError> {
    let mut path = Vec::new(alloc);
    for step in &way.steps {
        if let Some(edge) = edge_of(alloc, graph, step)? {
            path.push(step_of(alloc, graph, &edge)?)?;
        }
    }
    Ok(path)
}

impl<'g, 'a> PathLine<'g, 'a> {
    /// Returns the line for a package with the targets of a path to it, and the path if there is one.
    fn of(
        alloc: Global,
        described: &Described<'g>,
        targets: TargetSet,
        path: Option<Vec<PathStep<'g>>>,
        query: &GraphQuery<'a>,
    ) -> Result<PathLine<'g, 'a>, AllocError> {
        Ok(PathLine {
            package: name_and_version(alloc, described)?,
            id: described.id,
            targets: query.count_of(targets),
            at: query.targets_for_json(alloc, targets)?,
            path,
        })
    }
}

/// Appends a line of JSON for each dependency path to a package, or one without a path if there is none.
fn push_objects(
    text: &mut String,
    alloc: Global,
    graph: &Graph<'_>,
    ways: &Ways,
    query: &GraphQuery<'_>,
) -> Result<(), AllocError> {
    let Some(described) = graph.described(ways.index) else {
        return Ok(());
    };
    if ways.ways.is_empty() {
        let line = PathLine::of(alloc, described, TargetSet::none(), None, query)?;
        return json_lines::push_spaced_line(text, alloc, &line);
    }
    for way in &ways.ways {
        let path = path_of(alloc, graph, way)?;
        let line = PathLine::of(alloc, described, way.targets, Some(path), query)?;
        json_lines::push_spaced_line(text, alloc, &line)?;
    }
    Ok(())
}
