//! A queue of the nodes whose edges have to be visited, each at most once.

ghost use Rattle.std.specs.Prelude.{◌≡◌, ◌<◌, ◌+◌, ◌≤◌, ℕ, true, false, not, ◌&&◌, ◌||◌, ◌==◌, IfOk, OnOk, IfNone};
ghost use Rattle.std.specs.Prelude.{IfSome, [], ◌∷◌, ◌++◌};
ghost use Rattle.std.specs.Prelude.{length};
ghost use Rattle.std.specs.VecDeque.{deque_len};
ghost use Rattle.package_graphs.specs.Inside.Spreading.{waits, queued, IsQueue, node_count};

use std::alloc::{AllocError, Global};
use std::collections::VecDeque;

/// The queued nodes in their order, and for each node whether it is queued.
#[derive(Drop)]
pub struct Queue {
    nodes: VecDeque<usize>,
    waiting: Vec<bool>,
}

impl Queue {
    /// Returns an empty queue for `count` nodes.
    pub fn new(alloc: Global, count: usize) -> Result<Queue, AllocError>
        ensures queue { IfOk result IsQueue }
        ensures count { IfOk result (λ queue. node_count queue ≡ count) }
        ensures waits { IfOk result (λ queue. (n : ℕ) → waits queue n ≡ false) }
    {
        let waiting = vec![in alloc; false; count]?;
        Ok(Queue {
            nodes: VecDeque::new(alloc),
            waiting,
        })
    }

    /// Queues a node behind the others, unless it is queued already.
    pub fn add(&mut self, node: usize) -> Result<(), AllocError>
        requires queue { IsQueue self.old }
        requires known { node < node_count self.old }
        ensures queue { OnOk result (IsQueue self.new) }
        ensures count { node_count self.new ≡ node_count self.old }
        ensures waits { OnOk result ((n : ℕ) → waits self.new n ≡ ((n == node) || waits self.old n)) }
        ensures last { OnOk result (waits self.old node ≡ false → queued self.new ≡ queued self.old ++ node ∷ []) }
        ensures again { OnOk result (waits self.old node ≡ true → queued self.new ≡ queued self.old) }
        ensures work { deque_len self.new.nodes ≤ deque_len self.old.nodes + 1 }
    {
        if !self.waiting[node] {
            self.nodes.push_back(node)?;
            self.waiting[node] = true;
        }
        Ok(())
    }

    /// Removes and returns the node that was queued first.
    pub fn next(&mut self) -> Option<usize>
        requires { IsQueue self.old }
        ensures queue { IsQueue self.new }
        ensures count { node_count self.new ≡ node_count self.old }
        ensures none { IfNone result ((n : ℕ) → waits self.old n ≡ false) }
        ensures same { IfNone result ((n : ℕ) → waits self.new n ≡ waits self.old n) }
        ensures known { IfSome result (λ node. node < node_count self.old) }
        ensures was { IfSome result (λ node. waits self.old node ≡ true) }
        ensures waits { IfSome result (λ node. (n : ℕ) → waits self.new n ≡ (not (n == node) && waits self.old n)) }
        ensures first { IfSome result (λ node. queued self.old ≡ node ∷ queued self.new) }
        ensures work { IfSome result (λ node. deque_len self.new.nodes + 1 ≡ deque_len self.old.nodes) }
    {
        let node = self.nodes.pop_front()?;
        self.waiting[node] = false;
        Some(node)
    }
}
