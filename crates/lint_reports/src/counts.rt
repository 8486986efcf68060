//! The numbers of checked files and keys, and of diagnostics.

use diagnostics::DiagnosticLevel;
use std::alloc::{AllocError, Global};

/// The numbers of manifests, configurations and keys that were checked, of files that could not be read, and of
/// diagnostics of each level.
#[derive(Clone, Copy, Drop)]
pub struct Counts {
    manifests: usize,
    configurations: usize,
    unread_manifests: usize,
    unread_configurations: usize,
    keys: usize,
    errors: usize,
    warnings: usize,
    notes: usize,
}

/// Formats a number of things.
fn counted(alloc: Global, count: usize, thing: &str) -> Result<String, AllocError> {
    if count == 1 {
        format!(in alloc; "{count} {thing}")
    } else {
        format!(in alloc; "{count} {thing}s")
    }
}

impl Counts {
    /// Returns counts of zero.
    pub fn none() -> Counts {
        Counts {
            manifests: 0,
            configurations: 0,
            unread_manifests: 0,
            unread_configurations: 0,
            keys: 0,
            errors: 0,
            warnings: 0,
            notes: 0,
        }
    }

    /// Counts a manifest with this number of keys.
    pub fn add_manifest(&mut self, keys: usize) {
        self.manifests = self.manifests.saturating_add(1);
        self.keys = self.keys.saturating_add(keys);
    }

    /// Counts a file of Cargo's configuration with this number of keys.
    pub fn add_configuration(&mut self, keys: usize) {
        self.configurations = self.configurations.saturating_add(1);
        self.keys = self.keys.saturating_add(keys);
    }

    /// Counts a manifest that could not be read.
    pub fn add_unread_manifest(&mut self) {
        self.unread_manifests = self.unread_manifests.saturating_add(1);
    }

    /// Counts a file of Cargo's configuration that could not be read.
    pub fn add_unread_configuration(&mut self) {
        self.unread_configurations = self.unread_configurations.saturating_add(1);
    }

    /// Formats the numbers of files that could not be read, as the end of the summary. Those of which there are none
    /// are left out.
    fn unread(self, alloc: Global) -> Result<String, AllocError> {
        let mut unread = String::new(alloc);
        if self.unread_manifests > 0 {
            let manifests = counted(alloc, self.unread_manifests, "manifest")?;
            let text = format!(in alloc; "; {manifests} could not be read")?;
            unread.push_str(text.as_str())?;
        }
        if self.unread_configurations > 0 {
            let configurations = counted(alloc, self.unread_configurations, "configuration")?;
            let text = format!(in alloc; "; {configurations} could not be read")?;
            unread.push_str(text.as_str())?;
        }
        Ok(unread)
    }

    /// Formats the numbers of checked files. Configurations are left out if there are none.
    fn files(self, alloc: Global) -> Result<String, AllocError> {
        let manifests = counted(alloc, self.manifests, "manifest")?;
        if self.configurations == 0 {
            return Ok(manifests);
        }
        let configurations = counted(alloc, self.configurations, "configuration")?;
        format!(in alloc; "{manifests}, {configurations}")
    }

    /// Counts a diagnostic of this level. Allowed diagnostics are not counted.
    pub fn add(&mut self, level: DiagnosticLevel) {
        match level {
            DiagnosticLevel::Error => self.errors = self.errors.saturating_add(1),
            DiagnosticLevel::Warning => self.warnings = self.warnings.saturating_add(1),
            DiagnosticLevel::Note => self.notes = self.notes.saturating_add(1),
            DiagnosticLevel::Allowed => {}
        }
    }

    /// Formats the numbers of diagnostics of each level.
    fn findings(self, alloc: Global) -> Result<String, AllocError> {
        let errors = counted(alloc, self.errors, "error")?;
        let warnings = counted(alloc, self.warnings, "warning")?;
        let notes = counted(alloc, self.notes, "note")?;
        format!(in alloc; "{errors}, {warnings}, {notes}")
    }

    /// Returns the summary, which is the last line of the output. Fails if memory is refused.
    pub fn line(self, alloc: Global) -> Result<String, AllocError> {
        let files = self.files(alloc)?;
        let keys = counted(alloc, self.keys, "key")?;
        let findings = self.findings(alloc)?;
        let unread = self.unread(alloc)?;
        format!(in alloc; "{files}, {keys} checked: {findings}{unread}\n")
    }
}
