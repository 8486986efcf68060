//! Callers of `cargo_platform`, whose tests are rows of `test_texts`, and a recursive reader of expressions, with tests
//! that compare the library's reader with it.

pub mod audit;
pub mod describe;
pub mod fixed_key;
pub mod limited;
pub mod linter;
pub mod members;
pub mod own_error;
pub mod own_facts;
pub mod planner;
pub mod printed_facts;
#[cfg(test)]
mod recursive_reader;
pub mod selected;
#[cfg(test)]
mod two_readers;
pub mod underline;
