//! Callers of `known_targets`, and their tests. The tests of the library are rows of `test_answers`.

pub mod callers;
#[cfg(test)]
mod tests;
