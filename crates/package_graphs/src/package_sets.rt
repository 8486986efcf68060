//! The targets on which each package is in the build.

ghost use Rattle.std.specs.Prelude.{◌≡◌, ◌<◌, ◌||◌, ◌↔◌, ℕ, None, IsTrue, IfOk, length};
ghost use Rattle.known_targets.specs.Sets.{is_member};
ghost use Rattle.known_targets.specs.declared.table.TheConstants.{COUNT};
ghost use Rattle.package_graphs.specs.Packages.{Sided, IsThere, IsThereOn, is_on, is_at};

use crate::packages::{Kinds, Package};
use crate::presence::reached_targets;
use crate::sides::Side;
use crate::two_sided_graph::{TraversalQuery, node_of};
use known_targets::{KnownTarget, TargetSet};
use std::alloc::{AllocError, Global};

/// For each package, the targets on which it is in the build, for the target and for the host.
#[derive(Drop)]
pub struct PackageTargets {
    sets: Vec<TargetSet>,
}

impl PackageTargets {
    /// Returns the targets on which the package at an index is in the build for this side.
    pub fn on_side(&self, index: usize, side: Side) -> TargetSet
        // The result is the set of the package for the side.
        ensures { (k : ℕ) → k < COUNT → is_member result k ≡ is_on self.now index side k }
    {
        if index > self.sets.len() / 2 {
            return TargetSet::none();
        }
        let node = node_of(index, side);
        if node >= self.sets.len() {
            return TargetSet::none();
        }
        self.sets[node]
    }

    /// Returns the targets on which the package at an index is in the build.
    pub fn on_any_side(&self, index: usize) -> TargetSet
        // The result has the targets of both sides.
        ensures { (k : ℕ) → k < COUNT → is_member result k ≡ is_at self.now index k }
    {
        self.on_side(index, Side::Target)
            .union(self.on_side(index, Side::Host))
    }
}

/// Returns for each package the targets on which it is in the build: those on which dependencies lead to it from a
/// root.
///
/// Without a host, the condition of each dependency is decided for the target. With one, the conditions of what build
/// scripts and procedural macros need are decided for the host. A dependency on no package is ignored. Fails only if an
/// allocation fails.
pub fn package_targets(
    alloc: Global,
    packages: &[Package],
    kinds: Kinds,
    host: Option<KnownTarget>,
) -> Result<PackageTargets, AllocError>
    // A target is in the set of a package, for a side, exactly if dependencies whose conditions are true lead there
    // from a root.
    ensures exact { IfOk result (λ sets. (n : Sided) (k : ℕ) → n.0 < length packages.now → k < COUNT
        → IsTrue (is_on sets n.0 n.1 k) ↔ IsThereOn packages.now kinds host k n) }
    // Without a host, the condition of each dependency is decided for the target.
    ensures without_host { host ≡ None → IfOk result (λ sets. (p k : ℕ) → p < length packages.now → k < COUNT
        → IsTrue (is_at sets p k) ↔ IsThere packages.now kinds k p) }
{
    let traversal = TraversalQuery::new(kinds, host);
    let graph = traversal.graph(alloc, packages)?;
    let roots = traversal.roots(alloc, packages)?;
    Ok(PackageTargets {
        sets: reached_targets(alloc, &graph, &roots)?,
    })
}
