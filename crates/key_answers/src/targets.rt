//! Targets in lines of JSON.

use known_targets::TargetSet;
use serde::Serialize;
use std::alloc::{AllocError, Global};

/// Targets by their names, or all selected ones.
#[derive(Drop, Serialize)]
#[serde(untagged)]
pub enum TargetList<'a> {
    All(AllTargets),
    Names(Vec<&'a str>),
}

/// The word for all targets.
#[derive(Clone, Copy, Debug, PartialEq, Eq, Drop, Serialize)]
#[serde(rename_all = "lowercase")]
pub enum AllTargets {
    All,
}

/// Returns the names of known targets.
pub fn names_of(alloc: Global, targets: TargetSet) -> Result<Vec<&'static str>, AllocError> {
    let mut names = Vec::new(alloc);
    for target in targets.iter() {
        names.push(target.name())?;
    }
    Ok(names)
}
