//! Diagnostics: what is wrong with a text of TOML and where, the level that rules give it, and how it is printed with
//! the lines of the text, as rustc does.
//!
//! Rules have an order, and the last one that applies to a diagnostic decides. They are named as rustc's [lint
//! levels](https://doc.rust-lang.org/rustc/lints/levels.html) are, and `warnings` means, as there, all that are
//! warnings after the rules before.
#![tactic(auto)]

mod diagnostic;
mod failures;
pub mod laws;
mod level_rules;
mod removals;
mod rendering;
mod replacements;
mod source_lines;
mod unquoted;

pub use diagnostic::{
    Diagnostic, EmittedDiagnostic, Label, default_level, end_of, level_word, status_of,
};
pub use failures::{diagnostic_of_failure, diagnostic_of_key, diagnostic_of_syntax};
pub use level_rules::{
    DiagnosticLevel, LintLevel, Rule, RuleInput, Subject, level_after, level_after_all,
};
pub use removals::list_entry_removals;
pub use rendering::{coloured, push_rendered};
pub use replacements::{Replacement, replacement_of};
pub use source_lines::Window;
