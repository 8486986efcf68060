//! Callers of `manifests` and of `manifest_lints`, and their tests.

pub mod reporting;
pub mod selecting;
#[cfg(test)]
mod tests;
