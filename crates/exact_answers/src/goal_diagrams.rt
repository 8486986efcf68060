//! Decision diagrams over sets of facts, which decide whether expressions can have the wanted truths. A search that
//! splits pair by pair takes long if subproblems repeat; here each is solved once.

mod answers;
mod building;
mod table;

pub use answers::{Outcome, find_choices};
pub use building::{Goal, is_same, matches_wanted};
pub use table::Choice;
