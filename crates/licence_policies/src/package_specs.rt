//! Packages, as a name with a version or a range.

use licence_audits::PackageSpec;
use semver::{Error, VersionReq};
use std::alloc::{AllocError, Global};

/// The reason why a text is no package specification.
#[derive(Drop)]
pub enum SpecError {
    /// There is no name.
    NoName,
    /// The version or the range is none. This is the reason, as the crate `semver` words it.
    NoRange(String),
    Memory(AllocError),
}

impl From<AllocError> for SpecError {
    fn from(refused: AllocError) -> SpecError {
        SpecError::Memory(refused)
    }
}

/// Parses a range of versions, such as `>=1.2, <2`. Fails with the reason if the text is none, or if an allocation
/// fails.
pub fn range_of(alloc: Global, text: &str) -> Result<VersionReq, SpecError> {
    match VersionReq::parse(alloc, text) {
        Ok(range) => Ok(range),
        Err(error) if error == Error::from(AllocError) => Err(SpecError::Memory(AllocError)),
        Err(error) => Err(SpecError::NoRange(format!(in alloc; "{error}")?)),
    }
}

/// Parses the range of exactly the versions with these numbers.
pub fn exact_range_of(alloc: Global, text: &str) -> Result<VersionReq, SpecError> {
    let range = format!(in alloc; "={text}")?;
    range_of(alloc, range.as_str())
}

/// Returns the packages of a name, and of a range if there is one.
pub fn spec_of(
    alloc: Global,
    name: &str,
    versions: Option<VersionReq>,
) -> Result<PackageSpec, SpecError> {
    if name.is_empty() {
        return Err(SpecError::NoName);
    }
    let name = String::from_str(alloc, name)?;
    Ok(PackageSpec { name, versions })
}

/// Parses a package specification of a policy: `NAME`, `NAME@VERSION` for one version, or `NAME:RANGE`.
pub fn spec_in_policy(alloc: Global, text: &str) -> Result<PackageSpec, SpecError> {
    if let Some((name, range)) = text.split_once(':') {
        if !name.contains('@') {
            let range = range_of(alloc, range)?;
            return spec_of(alloc, name, Some(range));
        }
    }
    match text.split_once('@') {
        Some((name, version)) => {
            let range = exact_range_of(alloc, version)?;
            spec_of(alloc, name, Some(range))
        }
        None => spec_of(alloc, text, None),
    }
}
