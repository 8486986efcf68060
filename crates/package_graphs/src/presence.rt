//! The targets on which each node is reached.

ghost use Rattle.std.specs.Prelude.{◌≡◌, ◌<◌, ◌+◌, ◌*◌, ◌≤◌, ◌↔◌, ℕ, true, false, ◌&&◌, ◌||◌, ◌==◌, IsTrue, IfOk};
ghost use Rattle.std.specs.Prelude.{OnOk};
ghost use Rattle.std.specs.Prelude.{length, vec_len, List};
ghost use Rattle.std.specs.VecDeque.{deque_len};
ghost use Rattle.known_targets.specs.Sets.{is_member};
ghost use Rattle.known_targets.specs.declared.table.TheConstants.{COUNT};
ghost use Rattle.package_graphs.specs.Graphs.{edge_lists, edges_from, IsPresent, is_in};
ghost use Rattle.package_graphs.specs.Inside.Spreading.{waits, IsQueue, node_count, missing, AreSound};
ghost use Rattle.package_graphs.specs.Inside.Spreading.{AreCarried};

use crate::graph::{Edge, Graph};
use crate::queue::Queue;
use known_targets::TargetSet;
use std::alloc::{AllocError, Global};

/// Returns for each node the targets on which it is reached: those on which edges lead to it from a root.
///
/// The edges of a node are visited again only after its set has grown. A root that is not a node is ignored, and so is
/// an edge to none. Fails only if an allocation fails.
pub fn reached_targets(
    alloc: Global,
    graph: &Graph,
    roots: &[usize],
) -> Result<Vec<TargetSet>, AllocError>
    // Each node has a set.
    ensures count { IfOk result (λ sets. vec_len sets ≡ length (edge_lists graph.now)) }
    // A target is in the set of a node exactly if edges lead there from a root, and the target is in the set of each of
    // them.
    ensures exact { IfOk result (λ sets. (n k : ℕ) → n < length (edge_lists graph.now) → k < COUNT
        → IsTrue (is_in sets.items n k) ↔ IsPresent (edge_lists graph.now) roots.now k n) }
{
    let mut sets = vec![in alloc; TargetSet::none(); graph.len()]?;
    let mut queue = Queue::new(alloc, graph.len())?;
    'roots: for root in roots {
        if *root >= sets.len() {
            continue;
        }
        add(&mut sets, &mut queue, *root, TargetSet::all())?;
    }
    'nodes: while let Some(node) = queue.next() {
        go_over(graph, node, &mut sets, &mut queue)?;
    }
    Ok(sets)
}

/// Adds targets to the set of a node. If the set grows, the node is queued.
fn add(
    sets: &mut Vec<TargetSet>,
    queue: &mut Queue,
    node: usize,
    more: TargetSet,
) -> Result<(), AllocError>
    requires known { node < vec_len sets.old }
    requires queue { IsQueue queue.old }
    requires count { node_count queue.old ≡ vec_len sets.old }
    ensures queue { OnOk result (IsQueue queue.new) }
    ensures nodes { node_count queue.new ≡ node_count queue.old }
    ensures count { vec_len sets.new ≡ vec_len sets.old }
    ensures sets { OnOk result ((n k : ℕ) → k < COUNT
        → is_in sets.new.items n k ≡ (is_in sets.old.items n k || ((n == node) && is_member more k))) }
    ensures waited { OnOk result ((n : ℕ) → waits queue.new n ≡ false → waits queue.old n ≡ false) }
    ensures same { OnOk result ((n k : ℕ) → k < COUNT → waits queue.new n ≡ false
        → is_in sets.new.items n k ≡ is_in sets.old.items n k) }
    ensures work { OnOk result (2 * missing sets.new.items + deque_len queue.new.nodes
        ≤ 2 * missing sets.old.items + deque_len queue.old.nodes) }
{
    let old = sets[node];
    let all = old.union(more);
    if !all.equals(old) {
        sets[node] = all;
        queue.add(node)?;
    }
    Ok(())
}

/// Returns the targets on which an edge leads on from a node that is reached on these targets.
fn along(from: TargetSet, edge: &Edge) -> TargetSet
    ensures { (k : ℕ) → k < COUNT → is_member result k ≡ (is_member from k && is_member edge.now.holds k) }
{
    from.intersection(edge.holds)
}

/// Visits the edges of a node.
fn go_over(
    graph: &Graph,
    node: usize,
    sets: &mut Vec<TargetSet>,
    queue: &mut Queue,
) -> Result<(), AllocError>
    requires known { node < vec_len sets.old }
    requires graph { length (edge_lists graph.now) ≡ vec_len sets.old }
    requires queue { IsQueue queue.old }
    requires count { node_count queue.old ≡ vec_len sets.old }
    ensures queue { OnOk result (IsQueue queue.new) }
    ensures nodes { node_count queue.new ≡ node_count queue.old }
    ensures count { vec_len sets.new ≡ vec_len sets.old }
    ensures grown { OnOk result ((n k : ℕ) → k < COUNT
        → is_in sets.old.items n k ≡ true → is_in sets.new.items n k ≡ true) }
    ensures waited { OnOk result ((n : ℕ) → waits queue.new n ≡ false → waits queue.old n ≡ false) }
    ensures same { OnOk result ((n k : ℕ) → k < COUNT → waits queue.new n ≡ false
        → is_in sets.new.items n k ≡ is_in sets.old.items n k) }
    ensures carried { OnOk result (waits queue.new node ≡ false
        → AreCarried (edge_lists graph.now) (is_in sets.new.items) node
        (length (edges_from (edge_lists graph.now) node))) }
    ensures sound { OnOk result ((roots : List ℕ) → AreSound (edge_lists graph.now) roots (is_in sets.old.items)
        → AreSound (edge_lists graph.now) roots (is_in sets.new.items)) }
    ensures work { OnOk result (2 * missing sets.new.items + deque_len queue.new.nodes
        ≤ 2 * missing sets.old.items + deque_len queue.old.nodes) }
{
    let edges = graph.edges_from(node);
    'edges: for edge in edges {
        if edge.to >= sets.len() {
            continue;
        }
        let more = along(sets[node], edge);
        add(sets, queue, edge.to, more)?;
    }
    Ok(())
}
