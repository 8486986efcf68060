//! Callers of `partial_facts`, and their tests. The tests of the library are rows of `test_answers`.

pub mod audit;
pub mod flags;
pub mod planner;
pub mod steps;
pub mod targets;
#[cfg(test)]
mod tests;
