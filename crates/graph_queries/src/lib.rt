//! Queries of a graph of packages: the graph of a document, its resolved features, and the packages, dependencies and
//! classes of targets that an answer is about.
#![tactic(auto)]

pub mod classes;
pub mod differences;
pub mod edges;
pub mod graph;
mod incomplete;
pub mod lines;
pub mod origins;
pub mod packages;
pub mod pairs;
pub mod query;
pub mod reading;
pub mod reasons;
pub mod refused;
mod requested;
mod resolving;
pub mod sides;
mod unsupported;

pub use resolving::{Resolution, ResolvedFeatures};
