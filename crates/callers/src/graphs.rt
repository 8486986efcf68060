//! A caller of `package_graphs`, and tests of that library.

pub mod callers;
#[cfg(test)]
mod graphs;
#[cfg(test)]
mod hosts;
#[cfg(test)]
mod support;
