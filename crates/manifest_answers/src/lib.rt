//! Answers about manifests and targets, as they are printed.
#![tactic(auto)]

pub mod cargo_refuses;
pub mod deep;
mod dependency_rules;
mod described;
mod each_manifest;
pub mod faults;
pub mod given_targets;
pub mod laws;
pub mod normalizing;
mod opened;
pub mod questions;
pub mod selecting;
