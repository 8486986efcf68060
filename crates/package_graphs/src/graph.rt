//! Graphs, as the edges that begin at each node.

ghost use Rattle.std.specs.Prelude.{◌≡◌, ◌<◌, [], ◌∷◌, ◌++◌, IfOk, OnOk, length, slice_set, replicate};
ghost use Rattle.package_graphs.specs.Graphs.{edge_lists, edges_from};

use known_targets::TargetSet;
use std::alloc::{AllocError, Global};

/// The end of an edge, and the targets of the edge.
#[derive(Clone, Copy, Drop)]
pub struct Edge {
    /// The node that the edge leads to.
    pub to: usize,
    /// The targets on which the condition of the edge is true.
    pub holds: TargetSet,
}

/// Nodes, which are numbers from 0 on, with the edges between them.
#[derive(Drop)]
pub struct Graph {
    nodes: Vec<Vec<Edge>>,
}

impl Graph {
    /// Returns a graph of `count` nodes without edges. Fails only if an allocation fails.
    pub fn new(alloc: Global, count: usize) -> Result<Graph, AllocError>
        ensures { IfOk result (λ graph. edge_lists graph ≡ replicate count []) }
    {
        let mut nodes = Vec::new(alloc);
        'nodes: for _ in 0..count {
            nodes.push(Vec::new(alloc))?;
        }
        Ok(Graph { nodes })
    }

    /// Returns the number of nodes.
    pub fn len(&self) -> usize
        ensures { result ≡ length (edge_lists self.now) }
    {
        self.nodes.len()
    }

    /// Returns the edges that begin at a node.
    pub fn edges_from(&self, from: usize) -> &[Edge]
        requires { from < length (edge_lists self.now) }
        ensures { result.now ≡ edges_from (edge_lists self.now) from }
    {
        &self.nodes[from]
    }

    /// Adds an edge that begins at a node. Fails only if an allocation fails.
    pub fn add_edge(&mut self, from: usize, edge: Edge) -> Result<(), AllocError>
        requires { from < length (edge_lists self.old) }
        ensures { OnOk result (edge_lists self.new
            ≡ slice_set (edge_lists self.old) from (edges_from (edge_lists self.old) from ++ edge ∷ [])) }
    {
        self.nodes[from].push(edge)?;
        Ok(())
    }

    /// Adds a node with the edges that begin at it. Fails only if an allocation fails.
    pub fn push(&mut self, edges: Vec<Edge>) -> Result<(), AllocError>
        ensures { OnOk result (edge_lists self.new ≡ edge_lists self.old ++ edges.items ∷ []) }
    {
        self.nodes.push(edges)?;
        Ok(())
    }
}
