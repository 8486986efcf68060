//! Callers of the library and of the crates above it, as their users write them, and tests over public calls. Each
//! module has the callers of one crate. `README.md` says what each of them shows.
#![tactic(auto)]

pub mod conditions;
pub mod graphs;
pub mod licences;
pub mod manifest_keys;
pub mod metadata;
pub mod partial;
pub mod relations;
#[cfg(test)]
mod support;
pub mod targets;
