//! The names of targets and facts that earlier releases of rustc knew: from which release on they are unknown, and what
//! that means for a project.
//!
//! The table is made from `table/former.txt`, where each row has its source. A project may name the rustc that builds
//! it, and its `rust-version` is the oldest rustc that may.
#![tactic(auto)]

pub mod laws;
mod releases;
mod rows;
mod table;
mod verdicts;

pub use releases::Release;
pub use rows::{RemovalReleases, current_name, former_fact, former_target, has_former_value};
pub use verdicts::Verdict;
