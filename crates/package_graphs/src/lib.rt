//! Graphs whose edges have conditions, and the targets on which each node is reached.
#![tactic(auto)]

mod following;
mod graph;
pub mod laws;
mod package_sets;
mod packages;
mod paths;
mod presence;
mod queue;
mod sides;
mod two_sided_graph;

pub use following::PackageQuery;
pub use graph::{Edge, Graph};
pub use package_sets::{PackageTargets, package_targets};
pub use packages::{Dependency, Kind, Kinds, Package};
pub use paths::{PathQuery, PathTo, Step, shortest_path, shortest_path_on, shortest_paths};
pub use presence::reached_targets;
pub use sides::Side;
