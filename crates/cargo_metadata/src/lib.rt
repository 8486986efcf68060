//! The output of [`cargo metadata`](https://doc.rust-lang.org/cargo/commands/cargo-metadata.html) with
//! `--format-version 1`, as far as a graph of packages needs it, and that graph.
#![tactic(auto)]

pub mod fields;
pub mod graphs;
mod indexes;
mod metadata;
mod nodes;
mod packages;
mod refusals;
mod shown;

pub use indexes::Indexes;
pub use metadata::{Metadata, read};
pub use nodes::{Dependency, Kind, KindRow, Node};
pub use packages::Package;
pub use refusals::{
    DependencyError, ExpectedValue, FieldError, MetadataError, NodeError, ResolveError,
};
