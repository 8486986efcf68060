//! The lints for the keys of `target` in a manifest.
#![tactic(auto)]

mod at_targets;
mod checked_keys;
mod deciding;
mod earlier;
pub mod laws;
mod linting;
mod sample_sets;
mod shown_by_samples;

pub use cargo_platform::values_of;
pub use linting::lint;
pub use manifest_lints_findings::readings::{KeyMeaning, ReadKey};
pub use manifest_lints_findings::{
    Finding, KeyLint, KnownFacts, Level, Report, lint_condition, nearest_target,
};
pub use manifests::document::Document;
