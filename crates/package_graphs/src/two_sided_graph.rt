//! The graph of packages on both sides. Each package has a node for the target, and one for the host.

ghost use Rattle.std.specs.Prelude.{◌≡◌, ◌<◌, ◌^◌, IfOk, length};
ghost use Rattle.known_targets.specs.Sets.{is_member};
ghost use Rattle.package_graphs.specs.Graphs.{edge_lists};
ghost use Rattle.package_graphs.specs.Kinds.{is_followed};
ghost use Rattle.package_graphs.specs.Packages.{node_of, side};
ghost use Rattle.package_graphs.specs.Inside.Numbered.{condition_targets, edge_of, edges_on, numbered};
ghost use Rattle.package_graphs.specs.Inside.Numbered.{AreFirst, IsTraversalQuery};

use crate::graph::{Edge, Graph};
use crate::packages::{Dependency, Kinds, Package};
use crate::sides::Side;
use known_targets::{KnownTarget, TargetSet};
use std::alloc::{AllocError, Global};

/// The dependency kinds and the host of a query.
#[derive(Clone, Copy, Drop)]
pub struct TraversalQuery {
    pub kinds: Kinds,
    pub host: Option<KnownTarget>,
    /// All targets, for a dependency that is decided for the host and true there.
    pub always: TargetSet,
    /// No target, for a dependency that is decided for the host and false there.
    pub never: TargetSet,
}

/// Returns the number of a package's node for a side.
pub fn node_of(index: usize, side: Side) -> usize
    requires { index < 2 ^ 62 }
    ensures { result ≡ node_of index side }
{
    match side {
        Side::Target => 2 * index,
        Side::Host => 2 * index + 1,
    }
}

impl TraversalQuery {
    /// Returns the query for these kinds and this host.
    pub fn new(kinds: Kinds, host: Option<KnownTarget>) -> TraversalQuery
        ensures sets { IsTraversalQuery result }
        ensures kinds { result.kinds ≡ kinds }
        ensures host { result.host ≡ host }
    {
        TraversalQuery {
            kinds,
            host,
            always: TargetSet::all(),
            never: TargetSet::none(),
        }
    }

    /// Returns the targets on which the condition of a dependency is true. If it is decided for the host, these are all
    /// targets or none.
    pub fn condition_targets(&self, from: Side, dependency: &Dependency) -> TargetSet
        ensures { result ≡ condition_targets self.now.host self.now.always self.now.never from dependency.now }
    {
        match self.host {
            None => dependency.holds,
            Some(host) => {
                if !from.is_evaluated_on_host(dependency.kind) {
                    dependency.holds
                } else if dependency.holds.contains(host) {
                    self.always
                } else {
                    self.never
                }
            }
        }
    }

    /// Returns the edge of a dependency.
    fn edge_of(&self, packages: &[Package], from: Side, dependency: &Dependency) -> Edge
        requires { dependency.now.to < length packages.now }
        ensures { result ≡ edge_of self.now packages.now from dependency.now }
    {
        let is_macro = packages[dependency.to].is_macro;
        let side = from.after(dependency.kind, is_macro);
        Edge {
            to: node_of(dependency.to, side),
            holds: self.condition_targets(from, dependency),
        }
    }

    /// Returns the edges that begin at a package's node: one for each dependency that is followed to a package.
    fn edges_on(
        &self,
        alloc: Global,
        packages: &[Package],
        unit: &Package,
        from: Side,
    ) -> Result<Vec<Edge>, AllocError>
        ensures { IfOk result (λ edges. edges.items ≡ edges_on self.now packages.now unit.now from) }
    {
        let mut edges = Vec::new(alloc);
        'dependencies: for dependency in &unit.dependencies {
            let is_there = dependency.to < packages.len();
            if is_there && self.kinds.follows(unit.is_root, dependency.kind) {
                edges.push(self.edge_of(packages, from, dependency))?;
            }
        }
        Ok(edges)
    }

    /// Returns the graph of both sides.
    pub fn graph(&self, alloc: Global, packages: &[Package]) -> Result<Graph, AllocError>
        ensures { IfOk result (λ graph. edge_lists graph ≡ numbered self.now packages.now packages.now) }
    {
        let mut graph = Graph::new(alloc, 0)?;
        'packages: for unit in packages {
            graph.push(self.edges_on(alloc, packages, unit, Side::Target)?)?;
            graph.push(self.edges_on(alloc, packages, unit, Side::Host)?)?;
        }
        Ok(graph)
    }

    /// Returns the nodes of the roots.
    pub fn roots(&self, alloc: Global, packages: &[Package]) -> Result<Vec<usize>, AllocError>
        ensures { IfOk result (λ roots. AreFirst self.now packages.now (length packages.now) roots.items) }
    {
        let mut roots = Vec::new(alloc);
        'packages: for i in 0..packages.len() {
            if !packages[i].is_root {
                continue;
            }
            roots.push(node_of(i, Side::new(packages[i].is_macro)))?;
        }
        Ok(roots)
    }
}
