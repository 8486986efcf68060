//! Dependency paths from the roots of a graph to the packages that an audit reports.

use crate::graph::Graph;
use crate::query::GraphQuery;
use known_targets::{KnownTarget, TargetSet};
use licence_audits::PackageFinding;
use package_graphs::{PathQuery, PathTo, Side, Step, shortest_paths};
use std::alloc::{AllocError, Global};

/// The packages on a dependency path, by their indexes, from a root on. It is empty if no path is known.
pub type PathPackages = Vec<usize>;

/// A reported package by its index, and the first target on which it is in the build.
#[derive(Clone, Copy, Drop)]
struct FirstTarget {
    index: usize,
    target: KnownTarget,
}

/// Returns the reported packages that are in the build, each with its first target.
fn first_targets(
    alloc: Global,
    graph: &Graph<'_>,
    findings: &[PackageFinding],
    query: &GraphQuery<'_>,
) -> Result<Vec<FirstTarget>, AllocError> {
    let mut firsts = Vec::new(alloc);
    for one in findings {
        let Some(index) = graph.order.get(one.place).copied() else {
            continue;
        };
        if let Some(target) = graph.targets_in(index, query).iter().next() {
            firsts.push(FirstTarget { index, target })?;
        }
    }
    Ok(firsts)
}

/// Returns whether a step goes along a dependency that is used on a target. Without resolved features, each step of a
/// path does.
fn is_used(graph: &Graph<'_>, step: Step, target: KnownTarget) -> bool {
    let Some(features) = &graph.features else {
        return true;
    };
    let (from, dependency) = (step.from, step.dependency);
    let on_target = features
        .resolution
        .dependency_targets_to(from, dependency, Side::Target);
    let on_host = features
        .resolution
        .dependency_targets_to(from, dependency, Side::Host);
    on_target.union(on_host).contains(target)
}

/// Returns whether all steps go along dependencies that are used on a target.
fn are_used(graph: &Graph<'_>, steps: &[Step], target: KnownTarget) -> bool {
    for step in steps {
        if !is_used(graph, *step, target) {
            return false;
        }
    }
    true
}

/// Returns the packages on a path.
fn packages_on(alloc: Global, path: &PathTo) -> Result<PathPackages, AllocError> {
    let mut packages = Vec::new(alloc);
    for step in &path.steps {
        packages.push(step.from)?;
    }
    packages.push(path.to)?;
    Ok(packages)
}

/// Records the paths to those of the packages whose first target is this one.
fn add_paths(
    alloc: Global,
    graph: &Graph<'_>,
    query: &GraphQuery<'_>,
    (firsts, target): (&[FirstTarget], KnownTarget),
    paths: &mut [PathPackages],
) -> Result<(), AllocError> {
    let mut wanted = Vec::new(alloc);
    for first in firsts {
        if first.target.index() == target.index() {
            wanted.push(first.index)?;
        }
    }
    let query = PathQuery {
        kinds: query.kinds,
        host: query.host,
        at: target,
        side: graph.side,
    };
    for path in &shortest_paths(alloc, &graph.linked.packages, query, &wanted)? {
        if are_used(graph, &path.steps, target) {
            if let Some(slot) = paths.get_mut(path.to) {
                *slot = packages_on(alloc, path)?;
            }
        }
    }
    Ok(())
}

/// Returns for each package of the graph, by its index, the packages on a shortest dependency path to it, if it is
/// reported: on the first target on which it is in the build. With resolved features, there is none if a dependency on
/// that path is not used. Fails if an allocation fails.
pub fn paths_to_reported(
    alloc: Global,
    graph: &Graph<'_>,
    findings: &[PackageFinding],
    query: &GraphQuery<'_>,
) -> Result<Vec<PathPackages>, AllocError> {
    let mut paths: Vec<PathPackages> = Vec::new(alloc);
    for _ in 0..graph.order.len() {
        paths.push(Vec::new(alloc))?;
    }
    let firsts = first_targets(alloc, graph, findings, query)?;
    let mut targets = TargetSet::none();
    for first in &firsts {
        targets = targets.union(TargetSet::only(first.target));
    }
    for target in targets.iter() {
        add_paths(alloc, graph, query, (&firsts, target), &mut paths)?;
    }
    Ok(paths)
}
