//! Cargo's configuration, by Cargo's reference ("Configuration"): its files and what they include, the `cfg` facts that
//! flags of rustc add to a target, and the keys of its table `target`.
#![tactic(auto)]

mod environment;
mod files;
mod flagged_facts;
mod flags;
mod includes;
mod sources;
mod target_table;

pub use files::{configuration_beside, is_configuration, manifest_beside};
pub use flagged_facts::{RustflagsFacts, RustflagsTarget, rustflags_facts};
pub use flags::SharedRustflags;
pub use target_table::{explain_unsupported, manifest_with_targets};
