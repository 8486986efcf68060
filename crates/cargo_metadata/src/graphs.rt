//! The output of `cargo metadata` as a graph of packages: nodes are given by their indexes, and conditions by the
//! targets on which they are true.

mod edges;
mod linking;
mod refusals;
mod shown;

pub use linking::{Linked, link};
pub use refusals::{EdgeError, GraphError};
