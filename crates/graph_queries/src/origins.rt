//! The sides from which a dependency leads. A package that is built for both sides may need the dependency for only one
//! of them, or on different targets for each.

use crate::graph::Graph;
use crate::query::GraphQuery;
use crate::sides::BySide;
use cargo_features::{Claim, Dependency as Declared, Resolved};
use known_targets::{KnownTarget, TargetSet};
use package_graphs::{Dependency, Side};
use std::alloc::{AllocError, Global};

/// The sides between which a dependency leads, with the selected targets on which it does.
#[derive(Clone, Copy, Drop)]
pub struct DependencySides {
    /// The side for which the package that has the dependency is built.
    pub from: Side,
    /// The side to which the dependency leads from there.
    pub to: Side,
    /// The selected targets on which it leads from there.
    pub targets: TargetSet,
}

/// Returns the targets on which the condition of a dependency is true from a side. If it is evaluated on the host,
/// these are all or none.
fn holds_from(side: Side, dependency: &Dependency, host: Option<KnownTarget>) -> TargetSet {
    let Some(host) = host else {
        return dependency.holds;
    };
    if !side.is_evaluated_on_host(dependency.kind) {
        dependency.holds
    } else if dependency.holds.contains(host) {
        TargetSet::all()
    } else {
        TargetSet::none()
    }
}

/// Returns the targets on which a package that is built for the side `from` uses its dependency at an index.
pub(crate) fn dependency_targets_from(
    resolved: &Resolved,
    index: usize,
    place: usize,
    dependency: &Declared,
    from: Side,
) -> TargetSet {
    let build = resolved.build();
    let end = build.destination(resolved.packages(), from, dependency);
    let used = resolved.at(Claim::Used(index, from));
    let targets = used.intersection(end.condition.targets(build.host));
    if !dependency.is_optional {
        return targets;
    }
    let on = resolved.at(Claim::Dependency(index, build.feature_side(from), place));
    targets.intersection(on)
}

/// Returns the targets on which a package that is built for a side needs a dependency. `place` is its index among those
/// of the package.
fn needed_for(
    graph: &Graph<'_>,
    (index, place): (usize, usize),
    dependency: &Dependency,
    side: Side,
    host: Option<KnownTarget>,
) -> TargetSet {
    match &graph.features {
        Some(features) => features
            .resolution
            .dependency_targets_from(index, place, side),
        None => {
            let holds = holds_from(side, dependency, host);
            graph.sets.on_side(index, side).intersection(holds)
        }
    }
}

/// Returns the sides between which a dependency leads, each with its targets. `followed` has the targets on which the
/// dependency is followed, and `place` is its index among those of the package. Fails if memory is refused.
pub fn dependency_sides(
    alloc: Global,
    graph: &Graph<'_>,
    (index, place): (usize, usize),
    followed: BySide,
    query: &GraphQuery<'_>,
) -> Result<Vec<DependencySides>, AllocError> {
    let mut origins = Vec::new(alloc);
    let Some(dependency) = graph.dependency(index, place) else {
        return Ok(origins);
    };
    let to = Side::Target.after(dependency.kind, graph.is_macro(dependency.to));
    // A dependency leads from the host to the host. From the target it leads to `to`.
    let (mut target, mut host) = (followed.target, followed.host);
    if to.is_same(Side::Host) {
        let place = (index, place);
        let needed = needed_for(graph, place, &dependency, Side::Target, query.host);
        target = needed.intersection(followed.host);
        let needed = needed_for(graph, place, &dependency, Side::Host, query.host);
        host = needed.intersection(followed.host);
    }
    for (from, to, targets) in [(Side::Target, to, target), (Side::Host, Side::Host, host)] {
        if !targets.is_empty() {
            origins.push(DependencySides { from, to, targets })?;
        }
    }
    Ok(origins)
}
