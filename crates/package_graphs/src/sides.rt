//! The sides for which packages are built: the target, and the host on which the build runs.

ghost use Rattle.std.specs.Prelude.{◌≡◌};
ghost use Rattle.package_graphs.specs.Packages.{is_of_host, is_same, side, side_after};

use crate::packages::Kind;

/// The side for which a package is built.
#[derive(Clone, Copy, Drop)]
pub enum Side {
    /// For the target.
    Target,
    /// For the host, on which the build runs.
    Host,
}

impl Side {
    /// Returns the host's side if `is_for_host`, and otherwise the target's.
    pub fn new(is_for_host: bool) -> Side
        ensures { result ≡ side is_for_host }
    {
        if is_for_host {
            Side::Host
        } else {
            Side::Target
        }
    }

    /// Returns whether the condition of a dependency of this kind, of a package on this side, is evaluated on the host.
    /// This is so for everything that the host or a build script needs.
    pub fn is_evaluated_on_host(self, kind: Kind) -> bool
        ensures { result ≡ is_of_host self kind }
    {
        match self {
            Side::Host => true,
            Side::Target => matches!(kind, Kind::Build),
        }
    }

    /// Returns the side for which the package at the end of a dependency is built, given the kind of the dependency and
    /// the side of the package that has it. A procedural macro is built for the host.
    pub fn after(self, kind: Kind, is_macro: bool) -> Side
        // Everything that the host or a build script needs is built for the host, and so is a procedural macro. Other
        // packages are built for the target.
        ensures { result ≡ side_after self kind is_macro }
    {
        Side::new(self.is_evaluated_on_host(kind) || is_macro)
    }

    /// Returns whether both are the same side.
    pub fn is_same(self, other: Side) -> bool
        ensures { result ≡ is_same self other }
    {
        match self {
            Side::Target => matches!(other, Side::Target),
            Side::Host => matches!(other, Side::Host),
        }
    }
}
