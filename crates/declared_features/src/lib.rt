//! The dependencies and features that packages declare in the output of `cargo metadata`, and their translation into
//! the input of the feature resolver, which has indexes in place of names.
#![tactic(auto)]

mod declaring;
mod entries;
mod linking;
mod manifests;
mod missing_edges;
mod name_sets;
mod requested;

pub use declaring::{Declarations, DeclaredGraph, DependencyRow, dependency_rows};
pub use entries::{FeatureEntry, entry_of};
pub use linking::{RequestedFeatures, ResolverInput, resolver_input};
pub use manifests::{
    DeclarationsError, DeclaredDependency, DependencyError, Feature, ManifestError,
    PackageDeclaration,
};
pub use missing_edges::{MissingEdge, first_filtered_out, first_missing_edge};
