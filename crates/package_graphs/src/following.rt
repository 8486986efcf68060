//! The targets on which a dependency is followed.

ghost use Rattle.std.specs.Prelude.{◌≡◌, ◌<◌, ◌↔◌, ◌&&◌, ℕ, IsTrue};
ghost use Rattle.known_targets.specs.Sets.{is_member};
ghost use Rattle.known_targets.specs.declared.table.TheConstants.{COUNT};
ghost use Rattle.package_graphs.specs.Packages.{is_root, is_macro, is_on, is_same, evaluated_at, side_after};
ghost use Rattle.package_graphs.specs.Following.{IsFollowedAt, IsFollowedTo};
ghost use Rattle.package_graphs.specs.Inside.Numbered.{IsTraversalQuery};

use crate::package_sets::PackageTargets;
use crate::packages::{Dependency, Kinds, Package};
use crate::sides::Side;
use crate::two_sided_graph::TraversalQuery;
use known_targets::{KnownTarget, TargetSet};

/// The arguments of `package_targets`.
#[derive(Clone, Copy)]
pub struct PackageQuery<'a> {
    pub packages: &'a [Package],
    pub kinds: Kinds,
    pub host: Option<KnownTarget>,
}

/// The package to which a dependency has to lead: whether it is a procedural macro, and the side for which it is built.
#[derive(Clone, Copy)]
struct Destination {
    is_macro: bool,
    side: Side,
}

impl PackageTargets {
    /// Returns the targets on which a dependency of the package at index `from` is followed: the package is in the
    /// build, and the condition of the dependency is true. `query` has the arguments with which `package_targets`
    /// returned these sets.
    pub fn followed(
        &self,
        query: PackageQuery<'_>,
        from: usize,
        dependency: &Dependency,
    ) -> TargetSet
        // A target is in the set exactly if the package is in the build for a side, and from there the dependency is
        // followed and its condition is true.
        ensures { (k : ℕ) → k < COUNT → IsTrue (is_member result k)
            ↔ IsFollowedAt self.now query.entry.packages.now query.entry.kinds query.entry.host from dependency.now k }
    {
        if !query
            .kinds
            .follows(is_root(query.packages, from), dependency.kind)
        {
            return TargetSet::none();
        }
        let traversal = TraversalQuery::new(query.kinds, query.host);
        let target = self.along(&traversal, from, Side::Target, dependency);
        target.union(self.along(&traversal, from, Side::Host, dependency))
    }

    /// Returns the targets on which a dependency of the package at index `from` is followed to a package that is built
    /// for the side `to`. `query` has the arguments with which `package_targets` returned these sets.
    pub fn followed_to(
        &self,
        query: PackageQuery<'_>,
        from: usize,
        dependency: &Dependency,
        to: Side,
    ) -> TargetSet
        // A target is in the set exactly if the dependency is followed on it, and leads to a package for the side.
        ensures { (k : ℕ) → k < COUNT → IsTrue (is_member result k)
            ↔ IsFollowedTo self.now query.entry.packages.now query.entry.kinds query.entry.host from dependency.now to
            k }
    {
        if !query
            .kinds
            .follows(is_root(query.packages, from), dependency.kind)
        {
            return TargetSet::none();
        }
        let traversal = TraversalQuery::new(query.kinds, query.host);
        let is_macro = is_macro(query.packages, dependency.to);
        let to = Destination { is_macro, side: to };
        let target = self.along_to(&traversal, (from, Side::Target), dependency, to);
        target.union(self.along_to(&traversal, (from, Side::Host), dependency, to))
    }

    /// Returns the targets on which a package is in the build for a side, and the condition of the dependency is true
    /// from there. `from` is the index of the package and the side. There are none if the dependency leads from that
    /// side to a package for another side than that of `to`.
    fn along_to(
        &self,
        traversal: &TraversalQuery,
        from: (usize, Side),
        dependency: &Dependency,
        to: Destination,
    ) -> TargetSet
        requires { IsTraversalQuery traversal.now }
        ensures { (k : ℕ) → k < COUNT → is_member result k
            ≡ (is_same (side_after from.1 dependency.now.kind to.is_macro) to.side
            && (is_on self.now from.0 from.1 k
            && is_member dependency.now.holds (evaluated_at traversal.now.host k from.1 dependency.now.kind))) }
    {
        let (package, side) = from;
        let leads = side.after(dependency.kind, to.is_macro).is_same(to.side);
        if leads {
            self.along(traversal, package, side, dependency)
        } else {
            TargetSet::none()
        }
    }

    /// Returns the targets on which the package is in the build for this side, and the condition of the dependency is
    /// true from there.
    fn along(
        &self,
        traversal: &TraversalQuery,
        from: usize,
        side: Side,
        dependency: &Dependency,
    ) -> TargetSet
        requires { IsTraversalQuery traversal.now }
        ensures { (k : ℕ) → k < COUNT → is_member result k
            ≡ (is_on self.now from side k
            && is_member dependency.now.holds (evaluated_at traversal.now.host k side dependency.now.kind)) }
    {
        let holds = traversal.condition_targets(side, dependency);
        self.on_side(from, side).intersection(holds)
    }
}

/// Returns whether the package at an index is a root. There is none past the end.
pub fn is_root(packages: &[Package], index: usize) -> bool
    ensures { result ≡ is_root packages.now index }
{
    match packages.get(index) {
        Some(found) => found.is_root,
        None => false,
    }
}

/// Returns whether the package at an index is a procedural macro. There is none past the end.
fn is_macro(packages: &[Package], index: usize) -> bool
    ensures { result ≡ is_macro packages.now index }
{
    match packages.get(index) {
        Some(found) => found.is_macro,
        None => false,
    }
}
