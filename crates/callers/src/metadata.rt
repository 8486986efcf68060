//! A caller of `cargo_metadata`, and tests of that library.

pub mod callers;
#[cfg(test)]
mod read;
#[cfg(test)]
mod refused;
#[cfg(test)]
mod support;
