//! Manifests: their dependency tables, the keys of `target` with their places, the names and pairs that are declared as
//! expected, and the dependencies that a target selects.
#![tactic(auto)]

mod declared;
pub mod document;
pub mod dotted_keys;
pub mod key_locations;
pub mod laws;
mod located;
mod parts;
pub mod reading;
pub mod selection;
pub mod tables;

pub use declared::ExpectedCfgs;
pub use selection::{
    Decision, DependencyDecision, SelectError, TargetFacts, decide_condition, select,
};
pub use tables::{
    Dependency, Kind, TargetKey, TargetValue, dependencies, keys_of, table_of, target_keys,
};
