//! Callers of `exact_answers`, and their tests; and tests of the diagrams below it. Other tests of the library are rows
//! of `test_answers`.

pub mod audit;
#[cfg(test)]
mod goals;
pub mod keys;
pub mod linter;
#[cfg(test)]
mod tests;
