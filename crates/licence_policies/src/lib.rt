//! Licence policies: what a `deny.toml` of cargo-deny says of licences, and of the packages and targets that are
//! audited.
//!
//! A function that allocates takes the allocator first and returns a `Result`.
#![tactic(auto)]

mod arguments;
mod graph_table;
mod identifiers;
mod keys;
mod licence_table;
mod package_specs;
mod policy;
mod reader;

pub use arguments::{ExceptionError, exception_of};
pub use identifiers::{deprecated_message, is_listed, unlisted_messages};
pub use policy::{GraphTable, LicenceTable, Policy, PolicySource, UnusedLevel};
