//! The classes of targets on which the same packages are in the build.

use crate::edges::edges_of;
use crate::graph::Graph;
use crate::query::GraphQuery;
use cargo_platform::{Cfg, values_of};
use known_targets::{TargetSet, partition_targets};
use selected_targets::ConditionSearch;
use std::alloc::{AllocError, Global};

/// A class of targets on which the same packages are in the build.
#[derive(Drop)]
pub struct Class {
    /// The number of the class, from 1 on.
    pub number: usize,
    /// The selected targets of the class.
    pub targets: TargetSet,
    /// A condition that is true on exactly these of the selected targets, if one was found.
    pub condition: Option<String>,
}

/// Returns the sets of targets of the packages, each once.
fn different_sets(alloc: Global, graph: &Graph<'_>) -> Result<Vec<TargetSet>, AllocError> {
    let mut different: Vec<TargetSet> = Vec::new(alloc);
    for i in 0..graph.linked.packages.len() {
        let set = graph.targets_of(i);
        if !different.contains(&set) {
            different.push(set)?;
        }
    }
    Ok(different)
}

/// Returns the index of the first target of a set, by which sets are sorted.
fn first_of(set: TargetSet) -> usize {
    match set.iter().next() {
        Some(target) => target.index(),
        None => known_targets::COUNT,
    }
}

/// Returns the facts that occur in the conditions of the graph, each once.
fn queried_facts(alloc: Global, graph: &Graph<'_>) -> Result<Vec<Cfg>, AllocError> {
    let mut values = Vec::new(alloc);
    for i in 0..graph.linked.packages.len() {
        for edge in &edges_of(alloc, graph, i)? {
            if let Some(condition) = &edge.condition {
                for value in &values_of(alloc, condition)? {
                    let value: &Cfg = *value;
                    values.push(value.clone(alloc)?)?;
                }
            }
        }
    }
    values.sort()?;
    values.dedup();
    Ok(values)
}

/// Returns the classes in the order of their first targets.
fn sets_of(alloc: Global, graph: &Graph<'_>) -> Result<Vec<TargetSet>, AllocError> {
    let mut sets = partition_targets(alloc, &different_sets(alloc, graph)?)?;
    sets.sort_by_key(|set| first_of(*set))?;
    Ok(sets)
}

/// Returns the classes that contain a selected target, sorted by their first targets. `--show targets` numbers them in
/// this order, from 1 on. A class also contains its targets that are not selected.
pub fn selected_classes(
    alloc: Global,
    graph: &Graph<'_>,
    query: &GraphQuery<'_>,
) -> Result<Vec<TargetSet>, AllocError> {
    let mut sets = sets_of(alloc, graph)?;
    sets.retain(|set| !set.intersection(query.targets).is_empty());
    Ok(sets)
}

/// Returns the text of a condition that is true on exactly these targets, if one is found.
fn condition_of(
    alloc: Global,
    targets: TargetSet,
    finder: &ConditionSearch<'_>,
) -> Result<Option<String>, AllocError> {
    match finder.condition(alloc, targets)? {
        Some(found) => Ok(Some(format!(in alloc; "{found}")?)),
        None => Ok(None),
    }
}

/// Returns the classes that contain a selected target, in the order of [`selected_classes`], each with its number, its
/// selected targets and a condition for them.
pub fn numbered_classes(
    alloc: Global,
    graph: &Graph<'_>,
    query: &GraphQuery<'_>,
) -> Result<Vec<Class>, AllocError> {
    let finder = ConditionSearch::of(alloc, query.selection(), None, queried_facts(alloc, graph)?)?;
    let mut found = Vec::new(alloc);
    for targets in selected_classes(alloc, graph, query)? {
        found.push(Class {
            number: found.len().saturating_add(1),
            condition: condition_of(alloc, targets, &finder)?,
            targets: targets.intersection(query.targets),
        })?;
    }
    Ok(found)
}
