//! The reasons why a document is rejected, with their positions.

ghost use Rattle.std.specs.Prelude.{◌≡◌};
ghost use Rattle.cargo_metadata.specs.Documents.{is_memory, is_memory_of_node};

use std::alloc::AllocError;

/// The value that is expected in a field.
#[derive(Clone, Copy, Debug, PartialEq, Eq, Drop)]
pub enum ExpectedValue {
    Text,
    List,
    /// The number 1.
    One,
    /// An object. Null means that the document was made with `--no-deps`.
    Resolve,
    /// Null, `build` or `dev`.
    Kind,
    /// A text or null.
    Condition,
    /// `true` or `false`.
    Flag,
    /// An object, each of whose members is a list of texts.
    Features,
}

/// A field without the expected value.
#[derive(Clone, Copy, Debug, PartialEq, Eq, Drop)]
pub struct FieldError {
    pub field: &'static str,
    pub expected: ExpectedValue,
}

/// The reason why a dependency is rejected.
#[derive(Debug, Drop)]
pub enum DependencyError {
    Field(FieldError),
    /// A field of the kind at this index.
    Kind(usize, FieldError),
    Memory(AllocError),
}

/// The reason why a node is rejected.
#[derive(Debug, Drop)]
pub enum NodeError {
    Field(FieldError),
    /// The dependency at this index is rejected.
    Dependency(usize, DependencyError),
    Memory(AllocError),
}

/// The reason why the value of `resolve` is rejected.
#[derive(Debug, Drop)]
pub enum ResolveError {
    Field(FieldError),
    /// The node at this index is rejected.
    Node(usize, NodeError),
    Memory(AllocError),
}

/// The reason why a document is rejected.
#[derive(Debug, Drop)]
pub enum MetadataError {
    /// A field of the document.
    Field(FieldError),
    /// A field of the package at this index.
    Package(usize, FieldError),
    /// The member of the workspace at this index is not a text.
    Member(usize),
    /// The value of `resolve` is rejected.
    Resolve(ResolveError),
    Memory(AllocError),
}

impl MetadataError {
    /// Returns whether an allocation failed, anywhere in the document.
    pub fn is_memory(&self) -> bool
        ensures { result ≡ is_memory self.now }
    {
        match self {
            MetadataError::Memory(_) | MetadataError::Resolve(ResolveError::Memory(_)) => true,
            MetadataError::Resolve(ResolveError::Node(_, wrong)) => wrong.is_memory(),
            _ => false,
        }
    }
}

impl NodeError {
    /// Returns whether an allocation failed, anywhere in the node.
    fn is_memory(&self) -> bool
        ensures { result ≡ is_memory_of_node self.now }
    {
        matches!(
            self,
            NodeError::Memory(_) | NodeError::Dependency(_, DependencyError::Memory(_))
        )
    }
}
