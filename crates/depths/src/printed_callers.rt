//! The callers that the pages print, on a key from standard input.

use crate::nests::name;
use callers::conditions::describe::describe;
use callers::conditions::linter::lint;
use callers::conditions::selected::is_selected;
use std::alloc::{AllocError, Global};

/// A function of the crate `callers` that a page prints.
#[derive(Clone, Copy)]
pub enum Caller {
    Describe,
    IsSelected,
    Lint,
}

/// The target, which has `unix` as its only fact.
const TARGET: &str = "x86_64-unknown-linux-gnu";

/// The name of the manifest in warnings.
const MANIFEST: &str = "Cargo.toml";

impl Caller {
    /// Returns the caller with this name.
    pub fn named(name: &str) -> Option<Caller> {
        match name {
            "describe" => Some(Caller::Describe),
            "is_selected" => Some(Caller::IsSelected),
            "lint" => Some(Caller::Lint),
            _ => None,
        }
    }

    /// Returns the caller's answer about a key.
    pub fn answer(self, alloc: Global, key: &str) -> Result<String, AllocError> {
        let facts = vec![in alloc; name(alloc, "unix")?]?;
        match self {
            Caller::Describe => {
                let line = describe(alloc, key, TARGET, &facts)?;
                format!(in alloc; "{line}\n")
            }
            Caller::IsSelected => match is_selected(alloc, key, TARGET, &facts) {
                Ok(answer) => format!(in alloc; "{answer}\n"),
                Err(error) => format!(in alloc; "{error}\n"),
            },
            Caller::Lint => lint(alloc, MANIFEST, key),
        }
    }
}
