//! The reasons why a document is not a graph.

ghost use Rattle.std.specs.Prelude.{◌≡◌};
ghost use Rattle.cargo_metadata.specs.Refusals.{is_memory};

use cargo_platform::ParseError;
use std::alloc::AllocError;

/// The error of a dependency.
#[derive(Debug, Drop)]
pub enum EdgeError {
    /// No node has the id that `pkg` names.
    NoNode,
    /// The condition at this index of `dep_kinds` is rejected, with this error.
    Condition(usize, ParseError),
    Memory(AllocError),
}

/// The reason why a document is not a graph. The ids of packages are checked first, then those of nodes and those of
/// members, and then the dependencies, each in the order of the document.
#[derive(Debug, Drop)]
pub enum GraphError {
    /// A package has the id of an earlier one.
    SamePackage { first: usize, again: usize },
    /// No package has the id of the node at this index.
    NoPackage(usize),
    /// A node has the id of an earlier one.
    SameNode { first: usize, again: usize },
    /// No node has the id of the member at this index.
    NoMember(usize),
    /// The dependency at the second index, of the node at the first, has an error.
    Dependency(usize, usize, EdgeError),
    Memory(AllocError),
}

impl GraphError {
    /// Returns whether an allocation failed, also for a condition.
    pub fn is_memory(&self) -> bool
        ensures { result ≡ is_memory self.now }
    {
        matches!(
            self,
            GraphError::Memory(_) | GraphError::Dependency(_, _, EdgeError::Memory(_))
        )
    }
}
