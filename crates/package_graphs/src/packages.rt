//! Packages and their dependencies.

ghost use Rattle.std.specs.Prelude.{◌≡◌};
ghost use Rattle.package_graphs.specs.Kinds.{is_followed};

use known_targets::TargetSet;

/// The kind of a dependency: what it is for.
#[derive(Clone, Copy, Drop)]
pub enum Kind {
    /// For the package itself.
    Normal,
    /// For its build script.
    Build,
    /// For its tests, examples and benchmarks.
    Dev,
}

/// The dependency kinds that are followed.
#[derive(Clone, Copy, Drop)]
pub struct Kinds {
    pub normal: bool,
    pub build: bool,
    pub dev: bool,
}

impl Kinds {
    /// Returns whether a dependency of this kind is followed. Dev-dependencies are followed only from roots.
    pub fn follows(self, is_root: bool, kind: Kind) -> bool
        ensures { result ≡ is_followed self is_root kind }
    {
        match kind {
            Kind::Normal => self.normal,
            Kind::Build => self.build,
            Kind::Dev => self.dev && is_root,
        }
    }
}

/// A dependency on another package, with the targets on which its condition is true.
#[derive(Clone, Copy, Drop)]
pub struct Dependency {
    /// The index of the other package.
    pub to: usize,
    pub kind: Kind,
    pub holds: TargetSet,
}

/// A package, which is referred to by its index in a list.
#[derive(Drop)]
pub struct Package {
    /// True if the package is a root.
    pub is_root: bool,
    /// True if the package is a procedural macro.
    pub is_macro: bool,
    pub dependencies: Vec<Dependency>,
}
