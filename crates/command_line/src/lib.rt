//! The command line of `manifest_check`, as `clap` reads it.
#![tactic(auto)]

pub mod arguments;
