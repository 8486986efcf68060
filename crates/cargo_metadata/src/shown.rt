//! The messages of refusals: the path in the document, and the value that is expected there.

use crate::refusals::{
    DependencyError, ExpectedValue, FieldError, MetadataError, NodeError, ResolveError,
};
use std::fmt::{self, Display, Formatter, Write};

impl Display for ExpectedValue {
    fn fmt<W: Write>(&self, f: &mut Formatter<W>) -> fmt::Result {
        match self {
            ExpectedValue::Text => write!(f, "expected a string"),
            ExpectedValue::List => write!(f, "expected an array"),
            ExpectedValue::One => write!(f, "expected 1"),
            ExpectedValue::Resolve => write!(f, "expected an object; `--no-deps` leaves it out"),
            ExpectedValue::Kind => write!(f, "expected null, \"build\" or \"dev\""),
            ExpectedValue::Condition => write!(f, "expected a string or null"),
            ExpectedValue::Flag => write!(f, "expected true or false"),
            ExpectedValue::Features => write!(f, "expected an object of arrays of strings"),
        }
    }
}

impl Display for FieldError {
    fn fmt<W: Write>(&self, f: &mut Formatter<W>) -> fmt::Result {
        write!(f, "{}: {}", self.field, self.expected)
    }
}

impl Display for DependencyError {
    fn fmt<W: Write>(&self, f: &mut Formatter<W>) -> fmt::Result {
        match self {
            DependencyError::Field(wrong) => write!(f, ".{wrong}"),
            DependencyError::Kind(i, wrong) => write!(f, ".dep_kinds[{i}].{wrong}"),
            DependencyError::Memory(error) => write!(f, ": {error}"),
        }
    }
}

impl Display for NodeError {
    fn fmt<W: Write>(&self, f: &mut Formatter<W>) -> fmt::Result {
        match self {
            NodeError::Field(wrong) => write!(f, ".{wrong}"),
            NodeError::Dependency(i, wrong) => write!(f, ".deps[{i}]{wrong}"),
            NodeError::Memory(error) => write!(f, ": {error}"),
        }
    }
}

impl Display for ResolveError {
    fn fmt<W: Write>(&self, f: &mut Formatter<W>) -> fmt::Result {
        match self {
            ResolveError::Field(wrong) => write!(f, ".{wrong}"),
            ResolveError::Node(i, wrong) => write!(f, ".nodes[{i}]{wrong}"),
            ResolveError::Memory(error) => write!(f, ": {error}"),
        }
    }
}

impl Display for MetadataError {
    fn fmt<W: Write>(&self, f: &mut Formatter<W>) -> fmt::Result {
        match self {
            MetadataError::Field(wrong) => write!(f, "{wrong}"),
            MetadataError::Package(i, wrong) => write!(f, "packages[{i}].{wrong}"),
            MetadataError::Member(i) => write!(
                f,
                "workspace_members[{i}]: {}",
                ExpectedValue::Text
            ),
            MetadataError::Resolve(wrong) => write!(f, "resolve{wrong}"),
            MetadataError::Memory(error) => write!(f, "{error}"),
        }
    }
}
