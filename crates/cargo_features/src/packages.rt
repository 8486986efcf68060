//! Packages with their declarations and the lists of their features. Indexes stand for names here.

use known_targets::TargetSet;
use package_graphs::Kind;

/// A dependency that a package declares.
#[derive(Drop)]
pub struct Dependency {
    /// The index of the package that is depended on.
    pub to: usize,
    pub kind: Kind,
    pub is_optional: bool,
    /// The targets on which the condition is true.
    pub holds: TargetSet,
    /// The features that the dependency requests of that package, by their indexes there: those that it lists, and
    /// `default` if it uses the default features and the package has such a feature.
    pub features: Vec<usize>,
    /// The feature of the declaring package that has the dependency's name, if there is one.
    pub named: Option<usize>,
}

/// An entry in the list of a feature (see [dependency
/// features](https://doc.rust-lang.org/cargo/reference/features.html#dependency-features)).
#[derive(Clone, Copy, Drop)]
pub enum FeatureValue {
    /// `f`: the feature at this index.
    Feature(usize),
    /// `dep:d`: the dependency at this index.
    Dependency(usize),
    /// `d/g`: the feature at the second index of the dependency's package.
    Strong(usize, usize),
    /// `d?/g`: the same, if the dependency is on.
    Weak(usize, usize),
}

/// A package, which is referred to by its index in a list.
#[derive(Drop)]
pub struct Package {
    /// True if the package is a root.
    pub is_root: bool,
    /// True if the package is a procedural macro.
    pub is_macro: bool,
    pub dependencies: Vec<Dependency>,
    /// The list of each of its features.
    pub features: Vec<Vec<FeatureValue>>,
    /// The features that are requested of the package if it is a root.
    pub requested: Vec<usize>,
}
