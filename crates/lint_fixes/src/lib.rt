//! The fixes of `lint --fix`: which suggestions are applied to a manifest, and how its file is replaced.
#![tactic(auto)]

mod equality;
mod fixing;
mod replacing;
mod sameness;

pub use fixing::{FixOptions, Fixes, fix_file};
