//! The output of `lint` in each of its formats, and the diagnostics that are not on keys alone.
#![tactic(auto)]

mod cargo_json;
pub mod codes;
mod counts;
mod escapes;
mod fields;
mod formats;
mod formers;
mod on_keys;
mod on_rules;
mod sarif;
mod settings;

pub use counts::Counts;
pub use fields::wrong_fields;
pub use formats::{Format, Printer, Style};
pub use formers::{FormerNames, ToolchainSettings};
pub use on_keys::{diagnostic_of, diagnostic_of_misplaced};
pub use on_rules::{diagnostic_of_fault, diagnostic_of_unneeded};
pub use settings::{CustomTarget, Settings, SettingsError, SettingsErrorAt};
