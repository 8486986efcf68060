//! Edits of a text by spans: the text after them, and a unified diff between the two.
#![tactic(auto)]

mod diffs;
mod edits;
mod hunks;
pub mod laws;

pub use diffs::unified_diff;
pub use edits::{Edit, EditResult, apply};
