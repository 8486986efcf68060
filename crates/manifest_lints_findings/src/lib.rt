//! The properties of a key of `target` by itself, the lints in one table, and the messages of the diagnostics.
#![tactic(auto)]

mod chosen;
pub mod codes;
pub mod findings;
pub mod known_keys;
pub mod laws;
mod lints;
pub mod making;
mod meant;
mod meant_features;
mod messages;
mod no_tables;
mod notes_and_helps;
mod places;
mod pointing;
pub mod readings;
mod repairing;
mod suggestions;
mod unknown;
mod wording;

pub use codes::{KEY_LINTS, KeyLint, Level};
pub use findings::{Finding, Report};
pub use lints::{LINTS_NOT_ON_KEYS, Lint};
pub use meant::{near, nearest_target};
pub use notes_and_helps::Children;
pub use places::{
    Site, TableDiagnostic, add_top_level_diagnostics, format_table_name, table_diagnostics,
};
pub use pointing::SecondarySpans;
pub use suggestions::KnownFacts;
pub use unknown::lint_condition;
