//! The targets that rustc knows: their names and facts, and all of them on which a condition is true, in one walk.
//!
//! The table is what `rustc --print cfg --target NAME` prints for each target of `rustc --print target-list`, with the
//! flags' defaults. `debug_assertions`, `panic` and `target_feature` are changed by profiles and flags.
#![tactic(auto)]

pub mod conditions;
mod known;
mod known_facts;
pub mod laws;
mod listing;
mod matching_targets;
mod members;
mod open_names;
mod partial_target;
mod partition;
mod rows;
mod table;
mod target_set;
mod views;
mod walk;

pub use known::KnownTarget;
pub use known_facts::{KnownFact, all_facts};
pub use matching_targets::{
    certainly_matching, is_known_value, matching, possibly_matching, targets_with_fact,
};
pub use members::Targets;
pub use partial_target::PartialTarget;
pub use partition::partition_targets;
pub use table::{COUNT, RUSTC_VERSION, SET_WORDS};
pub use target_set::TargetSet;
pub use views::names;
