//! `--show targets`: the classes of targets that no package distinguishes, and the packages of each class.

use cargo_platform::printable_text;
use graph_queries::classes::{Class, numbered_classes};
use graph_queries::graph::Graph;
use graph_queries::lines::{format_target_count, joined_names, push, push_comma};
use graph_queries::query::GraphQuery;
use key_answers::answer::{Answer, Status};
use key_answers::json_lines;
use key_answers::targets::TargetList;
use known_targets::TargetSet;
use serde::Serialize;
use std::alloc::{AllocError, Global};

/// A line of `graph --show targets --json`: a class of targets that no package distinguishes.
#[derive(Drop, Serialize)]
struct ClassLine<'g, 'c, 'a> {
    /// The number of the class, from 1 on.
    class: usize,
    /// A condition that is true on exactly these of the selected targets.
    condition: Option<&'c str>,
    /// The number of targets in `at`.
    targets: usize,
    /// The selected targets of the class.
    at: TargetList<'a>,
    /// The ids of the packages that are in the build on the targets of the class.
    packages: Vec<&'g str>,
}

/// Returns the output of `--show targets`.
pub fn show_targets(
    alloc: Global,
    graph: &Graph<'_>,
    query: &GraphQuery<'_>,
) -> Result<Answer, AllocError> {
    let mut answer = Answer::of(alloc, String::new(alloc), Status::Fine);
    let classes = numbered_classes(alloc, graph, query)?;
    for class in &classes {
        if query.json {
            push_object(&mut answer.output, alloc, graph, class, query)?;
        } else {
            push_line(&mut answer.output, alloc, class, query)?;
        }
    }
    if !query.json {
        push_table(&mut answer.output, alloc, graph, &classes)?;
        let count = classes.len();
        let line = format!(in alloc; "{count} classes\n")?;
        push(&mut answer.errors, line.as_str())?;
    }
    Ok(answer)
}

/// Appends the line of a class.
fn push_line(
    text: &mut String,
    alloc: Global,
    class: &Class,
    query: &GraphQuery<'_>,
) -> Result<(), AllocError> {
    let number = class.number;
    let count = format_target_count(alloc, query.count_of(class.targets))?;
    let names = joined_names(alloc, class.targets, query)?;
    let line = match &class.condition {
        Some(condition) => {
            let condition = printable_text(alloc, condition.as_str())?;
            format!(in alloc; "class {number}: {count} where {condition}: {names}\n")?
        }
        None => format!(in alloc; "class {number}: {count}: {names}\n")?,
    };
    push(text, line.as_str())
}

/// Appends a line for each package, with the classes on which it is in the build.
fn push_table(
    text: &mut String,
    alloc: Global,
    graph: &Graph<'_>,
    classes: &[Class],
) -> Result<(), AllocError> {
    for i in &graph.order {
        let package = graph.format_package(alloc, *i)?;
        push(text, package.as_str())?;
        push_classes(text, alloc, graph.targets_of(*i), classes)?;
    }
    Ok(())
}

/// Appends the numbers of the classes on which a package is in the build, and a line end.
fn push_classes(
    text: &mut String,
    alloc: Global,
    targets: TargetSet,
    classes: &[Class],
) -> Result<(), AllocError> {
    let mut count: usize = 0;
    let mut numbers = String::new(alloc);
    for class in classes {
        if class.targets.intersection(targets).is_empty() {
            continue;
        }
        push_comma(&mut numbers, count == 0)?;
        let number = class.number;
        push(&mut numbers, format!(in alloc; "{number}")?.as_str())?;
        count = count.saturating_add(1);
    }
    if count == 0 {
        push(text, ": nowhere\n")
    } else if count == classes.len() {
        push(text, ": all\n")
    } else {
        push(text, ": ")?;
        push(text, numbers.as_str())?;
        push(text, "\n")
    }
}

/// Returns the ids of the packages that are in the build on a target of a class.
fn ids_at<'a>(
    alloc: Global,
    graph: &Graph<'a>,
    targets: TargetSet,
) -> Result<Vec<&'a str>, AllocError> {
    let mut ids = Vec::new(alloc);
    for i in &graph.order {
        if graph.targets_of(*i).intersection(targets).is_empty() {
            continue;
        }
        if let Some(described) = graph.described(*i) {
            ids.push(described.id)?;
        }
    }
    Ok(ids)
}

/// Appends the line of JSON for a class.
fn push_object(
    text: &mut String,
    alloc: Global,
    graph: &Graph<'_>,
    class: &Class,
    query: &GraphQuery<'_>,
) -> Result<(), AllocError> {
    let line = ClassLine {
        class: class.number,
        condition: class.condition.as_ref().map(|text| text.as_str()),
        targets: query.count_of(class.targets),
        at: query.targets_for_json(alloc, class.targets)?,
        packages: ids_at(alloc, graph, class.targets)?,
    };
    json_lines::push_spaced_line(text, alloc, &line)
}
