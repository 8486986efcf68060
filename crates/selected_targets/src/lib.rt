//! The targets that a query selects, which are known targets or groups of those of a file, and conditions that are true
//! on exactly some of them.
#![tactic(auto)]

mod condition_search;
mod groups;
mod selected;

pub use condition_search::ConditionSearch;
pub use groups::{Groups, TableSelection, group_targets};
pub use selected::Selection;
