//! A caller of `spdx_expressions`, and tests of that library.

#[cfg(test)]
mod allowed;
pub mod callers;
#[cfg(test)]
mod long;
#[cfg(test)]
mod read;
#[cfg(test)]
mod support;
