//! `--show edges`: each dependency that is followed, with its condition and its targets.

use crate::origins::{Origin, origins_at};
use cargo_platform::{CfgExpr, Platform};
use graph_queries::edges::{Edge, edges_followed};
use graph_queries::graph::Graph;
use graph_queries::lines::{format_condition, format_targets, kind_word, push};
use graph_queries::origins::dependency_sides;
use graph_queries::query::GraphQuery;
use key_answers::answer::{Answer, Status};
use key_answers::json_lines;
use key_answers::targets::TargetList;
use selected_targets::ConditionSearch;
use serde::Serialize;
use std::alloc::{AllocError, Global};

/// A step of a dependency path, in a line of JSON: a dependency of one kind.
#[derive(Drop, Serialize)]
pub struct PathStep<'a> {
    /// The id of the package that has the dependency.
    from: Option<&'a str>,
    /// The id of the package that is depended on.
    to: Option<&'a str>,
    name: Option<&'a str>,
    /// One of `normal`, `build` and `dev`.
    kind: &'static str,
    /// The condition in canonical form.
    condition: Option<String>,
}

/// A line of `graph --show edges --json`.
#[derive(Drop, Serialize)]
struct EdgeLine<'g, 'c, 'a> {
    /// The id of the package that has the dependency.
    from: Option<&'g str>,
    /// The id of the package that is depended on.
    to: Option<&'g str>,
    name: Option<&'g str>,
    /// One of `normal`, `build` and `dev`.
    kind: &'static str,
    /// The condition in canonical form.
    condition: Option<String>,
    /// The number of targets in `at`.
    targets: usize,
    /// The selected targets on which the dependency is followed.
    at: TargetList<'a>,
    /// The sides to which the dependency leads. One of `target`, `host` and `both`. Null if none.
    side: Option<&'static str>,
    /// The sides from which the dependency leads, each with the side to which it leads from there.
    sides: Vec<Origin<'a>>,
    /// A shorter condition that is true on the same targets: a fact, `not(..)` of a fact, or the name of a target. If
    /// targets are selected by name, on the same of these and the host: `cfg(all())` for all, and `cfg(any())` for
    /// none.
    simple: Option<String>,
    /// The combined condition of all dependencies of this kind between the two packages. Null if one of them has no
    /// condition.
    group: Option<&'c Group>,
}

/// The condition of several edges.
#[derive(Drop, Serialize)]
#[serde(untagged)]
enum Group {
    Key(String),
    /// Several keys, of which at least one is the name of a target.
    Keys(Vec<String>),
}

/// Returns the output of `--show edges`.
pub fn show_edges(
    alloc: Global,
    graph: &Graph<'_>,
    query: &GraphQuery<'_>,
) -> Result<Answer, AllocError> {
    let mut answer = Answer::of(alloc, String::new(alloc), Status::Fine);
    let finder = ConditionSearch::of(alloc, query.selection(), query.host, Vec::new(alloc))?;
    let mut count: usize = 0;
    for from in &graph.order {
        let edges = edges_followed(alloc, graph, *from, query.kinds)?;
        let groups = Groups::of(alloc, &edges)?;
        for i in 0..edges.len() {
            let edge = &edges[i];
            count = count.saturating_add(1);
            if query.json {
                let mut line = line_of(alloc, graph, edge, &finder, query)?;
                line.group = groups.at(i);
                json_lines::push_spaced_line(&mut answer.output, alloc, &line)?;
            } else {
                push_line(&mut answer.output, alloc, graph, edge, query)?;
            }
        }
    }
    if !query.json {
        let line = format!(in alloc; "{count} edges\n")?;
        push(&mut answer.errors, line.as_str())?;
    }
    Ok(answer)
}

/// Formats the kind and the condition of an edge: `normal`, or `build where cfg(unix)`.
pub fn format_kind(alloc: Global, edge: &Edge<'_>) -> Result<String, AllocError> {
    let word = kind_word(edge.kind);
    match &edge.condition {
        Some(condition) => {
            let condition = format_condition(alloc, condition)?;
            format!(in alloc; "{word} where {condition}")
        }
        None => String::from_str(alloc, word),
    }
}

/// Appends the line of an edge.
fn push_line(
    text: &mut String,
    alloc: Global,
    graph: &Graph<'_>,
    edge: &Edge<'_>,
    query: &GraphQuery<'_>,
) -> Result<(), AllocError> {
    let from = graph.format_package(alloc, edge.from)?;
    let to = graph.format_package(alloc, edge.to)?;
    let kind = format_kind(alloc, edge)?;
    let followed = graph.followed(edge.from, edge.place, query);
    let targets = format_targets(alloc, followed.targets(), query)?;
    let note = followed.sides().note();
    let line = format!(in alloc; "{from} -> {to}, {kind}{note}: {targets}\n")?;
    push(text, line.as_str())
}

/// Returns the canonical form of a condition, if there is one.
fn canonical(alloc: Global, condition: &Option<Platform>) -> Result<Option<String>, AllocError> {
    match condition {
        Some(condition) => Ok(Some(format!(in alloc; "{condition}")?)),
        None => Ok(None),
    }
}

/// Returns an edge as a step of a dependency path.
pub fn step_of<'a>(
    alloc: Global,
    graph: &Graph<'a>,
    edge: &Edge<'a>,
) -> Result<PathStep<'a>, AllocError> {
    Ok(PathStep {
        from: graph.described(edge.from).map(|it| it.id),
        to: graph.described(edge.to).map(|it| it.id),
        name: edge.name,
        kind: kind_word(edge.kind),
        condition: canonical(alloc, &edge.condition)?,
    })
}

/// Returns the line of JSON for an edge, without the condition of its group.
fn line_of<'g, 'c, 'a>(
    alloc: Global,
    graph: &Graph<'g>,
    edge: &Edge<'g>,
    finder: &ConditionSearch<'_>,
    query: &GraphQuery<'a>,
) -> Result<EdgeLine<'g, 'c, 'a>, AllocError> {
    let followed = graph.followed(edge.from, edge.place, query);
    let targets = followed.targets();
    let step = step_of(alloc, graph, edge)?;
    let leading = dependency_sides(alloc, graph, (edge.from, edge.place), followed, query)?;
    Ok(EdgeLine {
        from: step.from,
        to: step.to,
        name: step.name,
        kind: step.kind,
        condition: step.condition,
        targets: query.count_of(targets),
        at: query.targets_for_json(alloc, targets)?,
        side: followed.sides().word(),
        sides: origins_at(alloc, &leading, targets, query)?,
        simple: smaller_condition(alloc, edge, finder)?,
        group: None,
    })
}

/// Returns a shorter condition that is true on the same targets, if a fact, `not(..)` of a fact or the name of a target
/// is one.
fn smaller_condition(
    alloc: Global,
    edge: &Edge<'_>,
    finder: &ConditionSearch<'_>,
) -> Result<Option<String>, AllocError> {
    let Some(condition) = canonical(alloc, &edge.condition)? else {
        return Ok(None);
    };
    match finder.simple(alloc, edge.holds)? {
        Some(found) => {
            let found = format!(in alloc; "{found}")?;
            Ok(if found.len() < condition.len() {
                Some(found)
            } else {
                None
            })
        }
        None => Ok(None),
    }
}

// ---- groups: the edges of one kind between two packages

/// The package and the kind by which edges are grouped, and the index of an edge.
type Member = ((usize, u8), usize);

/// Returns the indexes of the edges, sorted so that those of a group are adjacent.
fn by_group(alloc: Global, edges: &[Edge<'_>]) -> Result<Vec<Member>, AllocError> {
    let mut places = Vec::new(alloc);
    for i in 0..edges.len() {
        places.push(((edges[i].to, edges[i].kind as u8), i))?;
    }
    places.sort()?;
    Ok(places)
}

/// Returns whether the member at this index is the last one of its group.
fn is_last(members: &[Member], at: usize) -> bool {
    match (members.get(at), members.get(at.saturating_add(1))) {
        (Some((group, _)), Some((next, _))) => group != next,
        _ => true,
    }
}

/// The conditions of groups of edges.
#[derive(Drop)]
struct Groups {
    conditions: Vec<Option<Group>>,
    /// For each edge, the index of the condition of its group.
    places: Vec<usize>,
}

impl Groups {
    /// Groups the edges of a package by the package that they lead to and by their kind.
    fn of(alloc: Global, edges: &[Edge<'_>]) -> Result<Groups, AllocError> {
        let mut conditions = Vec::new(alloc);
        let mut places = vec![in alloc; 0; edges.len()]?;
        let members = by_group(alloc, edges)?;
        let mut group = Vec::new(alloc);
        for i in 0..members.len() {
            let edge = members[i].1;
            group.push(edge)?;
            if let Some(place) = places.get_mut(edge) {
                *place = conditions.len();
            }
            if is_last(&members, i) {
                conditions.push(group_of(alloc, edges, &group)?)?;
                group.clear();
            }
        }
        Ok(Groups { conditions, places })
    }

    /// Returns the condition of the group of an edge, if each edge of the group has a condition.
    fn at(&self, edge: usize) -> Option<&Group> {
        self.conditions.get(*self.places.get(edge)?)?.as_ref()
    }
}

/// Returns whether one of the given edges has no condition.
fn has_no_condition(edges: &[Edge<'_>], places: &[usize]) -> bool {
    for place in places {
        if let Some(edge) = edges.get(*place) {
            if edge.condition.is_none() {
                return true;
            }
        }
    }
    false
}

/// Copies the conditions of the given edges.
fn conditions_of(
    alloc: Global,
    edges: &[Edge<'_>],
    places: &[usize],
) -> Result<Vec<Platform>, AllocError> {
    let mut keys = Vec::new(alloc);
    for place in places {
        if let Some(edge) = edges.get(*place) {
            if let Some(condition) = &edge.condition {
                keys.push(condition.clone(alloc)?)?;
            }
        }
    }
    Ok(keys)
}

/// Returns the combined condition of the given edges, if each of them has one.
fn group_of(
    alloc: Global,
    edges: &[Edge<'_>],
    places: &[usize],
) -> Result<Option<Group>, AllocError> {
    if has_no_condition(edges, places) {
        return Ok(None);
    }
    let mut keys = conditions_of(alloc, edges, places)?;
    keys.sort()?;
    keys.dedup();
    Ok(Some(any_of(alloc, keys)?))
}

/// Returns whether a condition is an expression, and not the name of a target.
fn is_expression(condition: &Platform) -> bool {
    matches!(condition, Platform::Cfg(_))
}

/// Returns the only key, the `any(..)` of several expressions, or all keys if one of several is the name of a target.
fn any_of(alloc: Global, keys: Vec<Platform>) -> Result<Group, AllocError> {
    if keys.len() > 1 && !keys.iter().all(is_expression) {
        let mut texts = Vec::new(alloc);
        for key in &keys {
            texts.push(format!(in alloc; "{key}")?)?;
        }
        return Ok(Group::Keys(texts));
    }
    let whole = any_of_expressions(alloc, keys)?;
    Ok(Group::Key(format!(in alloc; "{whole}")?))
}

/// Returns the only key, or the `any(..)` of the expressions.
fn any_of_expressions(alloc: Global, keys: Vec<Platform>) -> Result<Platform, AllocError> {
    let mut keys = keys;
    if keys.len() == 1 {
        if let Some(only) = keys.pop() {
            return Ok(only);
        }
    }
    let mut members = Vec::new(alloc);
    for key in keys {
        if let Platform::Cfg(expression) = key {
            members.push(expression)?;
        }
    }
    Ok(Platform::Cfg(CfgExpr::Any(members)))
}
