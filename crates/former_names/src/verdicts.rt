//! Decides what it means for a project that rustc no longer knows a name.

ghost use Rattle.std.specs.Prelude.{◌↔◌, IsTrue};
ghost use Rattle.former_names.specs.Verdicts.{IsKnownTo, IsLacking, IsClose, IsVerdict};

use crate::releases::Release;
use crate::rows::RemovalReleases;

/// The consequence of an unknown name for a project.
#[derive(Clone, Copy, Debug, PartialEq, Eq, Drop)]
pub enum Verdict {
    /// The project's rustc knows the name.
    Known,
    /// Some rustc that may build the project does not know the name.
    Gone,
    /// No rustc that may build the project knows the name.
    GoneForAll,
}

impl RemovalReleases {
    /// Returns whether a project names a rustc that is known to have the name.
    fn is_known_to(self, rustc: Option<Release>) -> bool
        ensures { IsTrue result ↔ IsKnownTo self rustc }
    {
        match rustc {
            Some(release) => release.is_at_most(self.last),
            None => false,
        }
    }

    /// Returns whether a release is named, and is the first one that is known to lack the name, or a later one.
    pub fn is_removed_in(self, named: Option<Release>) -> bool
        ensures { IsTrue result ↔ IsLacking self named }
    {
        match named {
            Some(release) => self.gone.is_at_most(release),
            None => false,
        }
    }

    /// Returns whether no minor release is between the two, so that `gone` is exactly the first release without the
    /// name.
    pub fn is_exact(self) -> bool
        ensures { IsTrue result ↔ IsClose self }
    {
        let RemovalReleases { last, gone } = self;
        last.major == gone.major && last.minor < gone.minor && gone.minor - last.minor == 1
    }

    /// Returns what the name means for a project, by the rustc that builds it and by its `rust-version`, if it names
    /// them.
    pub fn verdict(self, rustc: Option<Release>, rust_version: Option<Release>) -> Verdict
        ensures { IsVerdict self rustc rust_version result }
    {
        if self.is_known_to(rustc) {
            return Verdict::Known;
        }
        if self.is_removed_in(rustc) || self.is_removed_in(rust_version) {
            return Verdict::GoneForAll;
        }
        Verdict::Gone
    }
}
