//! Packages that a policy takes out of the graph.

use cargo_metadata::Package as Described;
use cargo_metadata::graphs::Linked;
use known_targets::TargetSet;
use licence_audits::{PackageSpec, Subject};
use semver::{Error, Version};
use std::alloc::{AllocError, Global};

/// Returns a package as a subject of an audit.
pub fn subject_of<'a>(
    alloc: Global,
    described: &Described<'a>,
    is_present: bool,
) -> Result<Subject<'a>, AllocError> {
    let version = match Version::parse(alloc, described.version) {
        Ok(version) => Some(version),
        Err(error) if error == Error::from(AllocError) => return Err(AllocError),
        Err(_) => None,
    };
    Ok(Subject {
        name: described.name,
        version,
        license: described.license,
        is_present,
    })
}

/// Returns for each package whether it is to be taken out.
fn are_excluded(
    alloc: Global,
    packages: &[Described<'_>],
    excluded: &[PackageSpec],
) -> Result<Vec<bool>, AllocError> {
    let mut are_excluded = Vec::new(alloc);
    for described in packages {
        let subject = subject_of(alloc, described, true)?;
        are_excluded.push(excluded.iter().any(|spec| spec.covers(&subject)))?;
    }
    Ok(are_excluded)
}

/// Takes packages out of a graph: none of them is a root, and no dependency on them is followed on any target.
pub fn exclude(
    alloc: Global,
    linked: &mut Linked<'_>,
    excluded: &[PackageSpec],
) -> Result<(), AllocError> {
    if excluded.is_empty() {
        return Ok(());
    }
    let are_excluded = are_excluded(alloc, &linked.described, excluded)?;
    for i in 0..linked.packages.len() {
        let Some(unit) = linked.packages.get_mut(i) else {
            continue;
        };
        if are_excluded.get(i).copied() == Some(true) {
            unit.is_root = false;
        }
        for place in 0..unit.dependencies.len() {
            let Some(dependency) = unit.dependencies.get_mut(place) else {
                continue;
            };
            if are_excluded.get(dependency.to).copied() == Some(true) {
                dependency.holds = TargetSet::none();
            }
        }
    }
    Ok(())
}
