//! The packages that an audit is about, and what is allowed for some of them alone.

ghost use Rattle.std.specs.Prelude.{◌≡◌};
ghost use Rattle.licence_audits.specs.Exceptions.{has_version, covers, is_free, is_excepted, is_audited};

use semver::{Version, VersionReq};
use spdx_expressions::Licence;

/// A package as an audit sees it.
#[derive(Drop)]
pub struct Subject<'a> {
    pub name: &'a str,
    /// Its version, or `None` if that is not a semantic version.
    pub version: Option<Version>,
    /// The field `license` of its manifest, if there is one.
    pub license: Option<&'a str>,
    /// Whether it is to be audited: it is in the build on a selected target, and not left out.
    pub is_present: bool,
}

/// The packages of one name, or those of its versions that are in a range.
#[derive(Drop)]
pub struct PackageSpec {
    pub name: String,
    /// The range, or `None` for all versions.
    pub versions: Option<VersionReq>,
}

/// An exception: licences that are allowed for some packages only.
#[derive(Drop)]
pub struct Exception {
    pub packages: PackageSpec,
    /// The licences that are allowed for these packages in addition, or `None` if they are not audited.
    pub licences: Option<Vec<Licence>>,
}

/// Returns whether a version is one of a range. Without a range, each version is.
fn has_version(versions: &Option<VersionReq>, version: &Option<Version>) -> bool
    ensures { result ≡ has_version versions.now version.now }
{
    match (versions, version) {
        (None, _) => true,
        (Some(_), None) => false,
        (Some(versions), Some(version)) => versions.matches(version),
    }
}

impl PackageSpec {
    /// Returns whether this is a package that is meant: one of the name, and of a version in the range.
    pub fn covers(&self, subject: &Subject<'_>) -> bool
        ensures { result ≡ covers self.now subject.now }
    {
        self.name.as_str() == subject.name && has_version(&self.versions, &subject.version)
    }
}

impl Exception {
    /// Returns whether a package is not audited because of this exception, which has no list of licences.
    fn frees(&self, subject: &Subject<'_>) -> bool
        ensures { result ≡ is_free self.now subject.now }
    {
        self.licences.is_none() && self.packages.covers(subject)
    }
}

/// Returns whether a package is not audited because of one of the exceptions.
fn is_excepted(exceptions: &[Exception], subject: &Subject<'_>) -> bool
    ensures { result ≡ is_excepted exceptions.now subject.now }
{
    exceptions.iter().any(|exception| exception.frees(subject))
}

/// Returns whether a package is audited: it is in the build, and no exception frees it.
pub(crate) fn is_audited(exceptions: &[Exception], subject: &Subject<'_>) -> bool
    ensures { result ≡ is_audited exceptions.now subject.now }
{
    subject.is_present && !is_excepted(exceptions, subject)
}
