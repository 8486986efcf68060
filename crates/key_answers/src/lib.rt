//! Answers about keys, as they are printed: how two keys relate, and the messages for invalid ones.
#![tactic(auto)]

pub mod answer;
pub mod comparing;
mod comparison;
pub mod conditions;
pub mod json_lines;
mod line_writer;
pub mod printing;
pub mod targets;
mod work;
