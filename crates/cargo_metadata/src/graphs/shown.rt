//! The messages of refusals: the path in the document, and the error there. They contain no text of the document.

use super::refusals::{EdgeError, GraphError};
use std::fmt::{self, Display, Formatter, Write};

impl Display for EdgeError {
    fn fmt<W: Write>(&self, f: &mut Formatter<W>) -> fmt::Result {
        match self {
            EdgeError::NoNode => write!(f, ".pkg: no node has this id"),
            EdgeError::Condition(i, _) => { write!(f, ".dep_kinds[{i}].target: invalid condition") }
            EdgeError::Memory(error) => write!(f, ": {error}"),
        }
    }
}

impl Display for GraphError {
    fn fmt<W: Write>(&self, f: &mut Formatter<W>) -> fmt::Result {
        match self {
            GraphError::SamePackage { first, again } => {
                write!(f, "packages[{again}].id: packages[{first}] has this id too")
            }
            GraphError::NoPackage(i) => write!(f, "resolve.nodes[{i}].id: no package has this id"),
            GraphError::SameNode { first, again } => {
                write!(
                    f,
                    "resolve.nodes[{again}].id: resolve.nodes[{first}] has this id too"
                )
            }
            GraphError::NoMember(i) => write!(f, "workspace_members[{i}]: no node has this id"),
            GraphError::Dependency(i, j, wrong) => write!(f, "resolve.nodes[{i}].deps[{j}]{wrong}"),
            GraphError::Memory(error) => write!(f, "{error}"),
        }
    }
}
