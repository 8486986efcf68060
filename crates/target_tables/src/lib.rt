//! Parses tables of the targets that some rustc knows: their names and facts, and on which of them a condition is true.
//!
//! A function that allocates takes the allocator first and returns a `Result`.
#![tactic(auto)]

mod blocks;
mod error;
mod reading;
mod table;

pub use error::TableError;
pub use reading::read_table;
pub use table::{TargetRow, TargetTable};
