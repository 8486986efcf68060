//! The build for which features are resolved, and where a dependency leads.

ghost use Rattle.std.specs.Prelude.{◌≡◌};
ghost use Rattle.cargo_features.specs.Graphs.{resolver_1, resolver_2};
ghost use Rattle.cargo_features.specs.Destinations.{is_macro, destination, feature_destination, feature_side};
ghost use Rattle.cargo_features.specs.Destinations.{is_counted, begins_on};

use crate::claims::StepTargets;
use crate::packages::{Dependency, Package};
use known_targets::KnownTarget;
use package_graphs::{Kind, Kinds, Side};

/// The options of a build: its host, the dependency kinds that it follows, and which features it keeps apart.
#[derive(Clone, Copy, Drop)]
pub struct BuildOptions {
    /// The dependency kinds that are followed.
    pub kinds: Kinds,
    pub host: KnownTarget,
    /// True if a dependency requests features only on the targets on which its condition is true.
    pub by_target: bool,
    /// True if packages that are built for the host have features of their own.
    pub by_side: bool,
    /// True if the dev-dependencies of roots request features.
    pub with_dev: bool,
}

/// The end of a dependency: the side of its package, and the condition under which it leads there.
#[derive(Clone, Copy, Drop)]
pub struct Destination {
    pub side: Side,
    pub condition: StepTargets,
}

/// Returns whether the package at an index is a procedural macro. There is none past the end.
fn is_macro(packages: &[Package], index: usize) -> bool
    ensures { result ≡ is_macro packages.now index }
{
    match packages.get(index) {
        Some(found) => found.is_macro,
        None => false,
    }
}

impl BuildOptions {
    /// Returns the build of Cargo's resolver 1: a package has the same features everywhere.
    pub fn by_resolver_1(kinds: Kinds, host: KnownTarget) -> BuildOptions
        // The build keeps features apart as the resolver does.
        ensures { result ≡ resolver_1 kinds host }
    {
        BuildOptions {
            kinds,
            host,
            by_target: false,
            by_side: false,
            with_dev: true,
        }
    }

    /// Returns the build of Cargo's resolvers 2 and 3, which keep features apart in the same way (see [feature resolver
    /// version 2](https://doc.rust-lang.org/cargo/reference/features.html#feature-resolver-version-2)).
    pub fn by_resolver_2(kinds: Kinds, host: KnownTarget) -> BuildOptions
        // The build keeps features apart as the resolver does.
        ensures { result ≡ resolver_2 kinds host }
    {
        BuildOptions {
            kinds,
            host,
            by_target: true,
            by_side: true,
            with_dev: kinds.dev,
        }
    }

    /// Returns where a dependency leads from a package on a side that uses it.
    pub fn destination(
        self,
        packages: &[Package],
        from: Side,
        dependency: &Dependency,
    ) -> Destination
        ensures { result ≡ destination packages.now from dependency.now }
    {
        Destination {
            side: from.after(dependency.kind, is_macro(packages, dependency.to)),
            condition: if from.is_evaluated_on_host(dependency.kind) {
                StepTargets::OfHost(dependency.holds)
            } else {
                StepTargets::OfTarget(dependency.holds)
            },
        }
    }

    /// Returns where a dependency leads for the feature resolver.
    pub fn feature_destination(
        self,
        packages: &[Package],
        from: Side,
        dependency: &Dependency,
    ) -> Destination
        ensures { result ≡ feature_destination self packages.now from dependency.now }
    {
        let end = self.destination(packages, from, dependency);
        Destination {
            side: self.feature_side(end.side),
            condition: if self.by_target {
                end.condition
            } else {
                StepTargets::Always
            },
        }
    }

    /// Returns the side for which the features of a package on a side are resolved.
    pub fn feature_side(self, side: Side) -> Side
        ensures { result ≡ feature_side self side }
    {
        if self.by_side { side } else { Side::Target }
    }

    /// Returns whether the feature resolver considers a dependency of a package.
    pub fn considers(self, unit: &Package, dependency: &Dependency) -> bool
        ensures { result ≡ is_counted self unit.now dependency.now }
    {
        match dependency.kind {
            Kind::Normal => true,
            Kind::Build => true,
            Kind::Dev => self.with_dev && unit.is_root,
        }
    }

    /// Returns whether the feature resolver starts with a package on this side.
    pub fn begins_on(self, side: Side, unit: &Package) -> bool
        ensures { result ≡ begins_on self side unit.now }
    {
        match side {
            Side::Target => unit.is_root,
            Side::Host => unit.is_root && (self.by_side && unit.is_macro),
        }
    }
}
