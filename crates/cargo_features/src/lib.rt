//! The features of packages that are on, as Cargo resolves them, and the known targets on which a build then uses each
//! package.
#![tactic(auto)]

mod applying_rules;
mod build;
mod claims;
mod derivation;
pub mod laws;
mod numbers;
mod packages;
mod resolved;
pub mod rule_laws;
mod rules;
mod rules_by_premise;
mod steps;

pub use build::BuildOptions;
pub use claims::{Claim, StepTargets};
pub use derivation::derive_targets;
pub use packages::{Dependency, FeatureValue, Package};
pub use resolved::{Resolved, resolve, used_packages};
pub use rules::Rule;
