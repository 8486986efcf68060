//! The names of rustc, and the classes of the names and pairs of a condition for rustc and Cargo.
#![tactic(auto)]

pub mod classes;
pub mod key_predicates;
pub mod key_spans;
pub mod laws;
pub mod rustc_names;
pub mod target_features;
