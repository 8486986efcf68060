//! The packages of lock files.

ghost use Rattle.std.specs.Prelude.{◌≡◌, [], ℕ, List, OnOk, find, string_bytes};
ghost use Rattle.std.specs.Option.{option_copied};
ghost use Rattle.cyclonedx.specs.Locks.{group_at, group_with, is_locked};

use std::alloc::{AllocError, Global};
use std::collections::BTreeMap;

/// A package of a lock file, without its name.
#[derive(Drop)]
pub struct LockedPackage {
    pub version: String,
    /// The registry or repository, as the lock file writes it.
    pub source: String,
    /// The SHA-256 of the package's archive in hexadecimal digits, if the lock file has it.
    pub checksum: Option<String>,
}

impl LockedPackage {
    /// Returns whether this is a package with this version and source.
    fn is_of(&self, version: &str, source: &str) -> bool
        ensures { result ≡ is_locked version.now source.now self.now }
    {
        self.version.as_str() == version && self.source.as_str() == source
    }
}

/// The packages of a lock file that come from registries and repositories.
#[derive(Drop)]
pub struct LockFile {
    by_name: BTreeMap<String, Vec<LockedPackage>>,
}

impl LockFile {
    /// Returns a lock file without packages.
    pub fn new(alloc: Global) -> LockFile
        ensures { (name : List ℕ) → group_at result name ≡ [] }
    {
        LockFile {
            by_name: BTreeMap::new(alloc),
        }
    }

    /// Adds a package with this name. Fails if memory is refused.
    pub fn add(&mut self, name: String, locked: LockedPackage) -> Result<(), AllocError>
        // It follows the packages with its name, and those with other names stay.
        ensures { OnOk result
            ((other : List ℕ) → group_at self.new other ≡ group_with self.old (string_bytes name) locked other) }
    {
        self.by_name.entry(name)?.or_default().push(locked)?;
        Ok(())
    }

    /// Returns the first package with this name, version and source.
    pub fn find(&self, name: &str, version: &str, source: &str) -> Option<&LockedPackage>
        // It is the first one with the version and the source among those with the name.
        ensures { option_copied result
            ≡ find (is_locked version.now source.now) (group_at self.now name.now) }
    {
        match self.by_name.get(name) {
            Some(group) => group.iter().find(|locked| locked.is_of(version, source)),
            None => None,
        }
    }
}
