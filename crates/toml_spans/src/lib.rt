//! Spans of names in the text of a TOML document, with their lines and columns.
#![tactic(auto)]

mod cursor;
mod names;
mod spans;

pub use cursor::{Cursor, Position};
pub use names::{name_at_front, part_of_name, spells};
pub use spans::Span;
