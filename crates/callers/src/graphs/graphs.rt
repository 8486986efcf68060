//! Tests of graphs with cycles, with several edges and with none.

use super::support::{assert_at, targets};
use known_targets::TargetSet;
use package_graphs::{Edge, Graph, reached_targets};
use std::alloc::Global;
use std::process::Abort;

/// Adds an edge on the targets on which the condition is true.
fn edge(rt: &impl Abort, alloc: Global, graph: &mut Graph, from: usize, to: usize, text: &str) {
    let holds = targets(rt, alloc, text);
    if from < graph.len() {
        let added = graph.add_edge(from, Edge { to, holds });
        assert!(rt; added.is_ok());
    }
}

/// Returns the targets of each node.
fn sets(rt: &impl Abort, alloc: Global, graph: &Graph, roots: &[usize]) -> Vec<TargetSet> {
    reached_targets(alloc, graph, roots).expect(rt, "memory")
}

/// Returns the set at an index.
fn at(rt: &impl Abort, sets: &[TargetSet], index: usize) -> TargetSet {
    *sets.get(index).expect(rt, "a node")
}

#[test]
fn conditions_meet_along_a_path(rt: HostRuntime) {
    let alloc = rt.alloc();
    let mut graph = Graph::new(alloc, 5).expect(&rt, "memory");
    edge(&rt, alloc, &mut graph, 0, 1, "cfg(unix)");
    edge(&rt, alloc, &mut graph, 0, 1, "cfg(windows)");
    edge(&rt, alloc, &mut graph, 1, 2, "cfg(target_env = \"gnu\")");
    edge(&rt, alloc, &mut graph, 2, 0, "cfg(all())");
    edge(&rt, alloc, &mut graph, 2, 3, "cfg(unix)");
    let sets = sets(&rt, alloc, &graph, &[0]);
    assert_at(&rt, alloc, at(&rt, &sets, 0), "cfg(all())");
    assert_at(&rt, alloc, at(&rt, &sets, 1), "cfg(any(unix, windows))");
    assert_at(
        &rt,
        alloc,
        at(&rt, &sets, 2),
        "cfg(all(any(unix, windows), target_env = \"gnu\"))",
    );
    assert_at(
        &rt,
        alloc,
        at(&rt, &sets, 3),
        "cfg(all(unix, target_env = \"gnu\"))",
    );
    assert_at(&rt, alloc, at(&rt, &sets, 4), "cfg(any())");
}

#[test]
fn a_cycle_brings_targets_around(rt: HostRuntime) {
    let alloc = rt.alloc();
    let mut graph = Graph::new(alloc, 4).expect(&rt, "memory");
    edge(&rt, alloc, &mut graph, 0, 1, "cfg(unix)");
    edge(&rt, alloc, &mut graph, 1, 2, "cfg(all())");
    edge(&rt, alloc, &mut graph, 2, 1, "cfg(all())");
    edge(&rt, alloc, &mut graph, 3, 2, "cfg(windows)");
    edge(&rt, alloc, &mut graph, 2, 9, "cfg(all())");
    let sets = sets(&rt, alloc, &graph, &[3, 0, 7]);
    assert_at(&rt, alloc, at(&rt, &sets, 1), "cfg(any(unix, windows))");
    assert_at(&rt, alloc, at(&rt, &sets, 2), "cfg(any(unix, windows))");
}
