//! The targets of a project, whose facts are in files that `known-targets` in the metadata names.

use crate::limits::{bare_message, read_file_text};
use crate::other_rustc::OtherRustc;
use cargo_platform::printable_text;
use key_answers::answer::QueryError;
use lint_reports::{CustomTarget, Settings};
use manifest_answers::given_targets::GivenTargets;
use std::alloc::{AllocError, Global};
use std::mem;
use std::rt::Files;
use workspaces::{folder_of, join_path};

/// The manifest with settings.
#[derive(Clone, Copy, Drop)]
pub struct ManifestFile<'a> {
    pub path: &'a str,
    /// The number of bytes that a file of facts may have.
    pub limit: u64,
}

impl ManifestFile<'_> {
    /// Reads the facts of a target, and adds it to others. Fails with the reason why it can't be added.
    fn add_target<R: Files + AllocGlobal>(
        self,
        rt: &R,
        target: &CustomTarget,
        given: &mut GivenTargets,
    ) -> Result<(), QueryError> {
        let alloc = rt.alloc();
        let file = join_path(alloc, folder_of(self.path), target.file.as_str())?;
        match read_file_text(rt, file.as_str(), self.limit) {
            Ok(text) => given.add(alloc, target.name.as_str(), text.as_str()),
            Err(QueryError::Unusable(message)) => {
                let shown = printable_text(alloc, file.as_str())?;
                let reason = bare_message(message.as_str(), shown.as_str());
                Err(QueryError::Unusable(String::from_str(alloc, reason)?))
            }
            Err(QueryError::Memory(refused)) => Err(refused.into()),
        }
    }

    /// Returns the targets of the command line, or else the known ones, with those in the settings added. Targets that
    /// can't be added are recorded in the settings. Returns `None` if the settings have no target whose facts are in a
    /// file.
    pub fn add_custom_targets<R: Files + AllocGlobal>(
        self,
        rt: &R,
        settings: &mut Settings,
        other: Option<&OtherRustc>,
    ) -> Result<Option<OtherRustc>, AllocError> {
        let alloc = rt.alloc();
        if settings.custom_targets.is_empty() {
            return Ok(None);
        }
        let mut given = match other {
            Some(other) => other.targets().copy(alloc)?,
            None => GivenTargets::known(alloc)?,
        };
        let is_extended = given.file.as_str().contains(" with ");
        let joined = if is_extended { " and " } else { " with " };
        let targets = mem::replace(&mut settings.custom_targets, Vec::new(alloc));
        for target in &targets {
            match self.add_target(rt, target, &mut given) {
                Ok(()) => {}
                Err(QueryError::Unusable(message)) => {
                    let shown = printable_text(alloc, target.file.as_str())?;
                    let reason = bare_message(message.as_str(), "");
                    let reason = format!(in alloc; "cannot use `{shown}`: {reason}")?;
                    settings.reject_target(alloc, target.entry, reason)?;
                }
                Err(QueryError::Memory(refused)) => return Err(refused),
            }
        }
        settings.custom_targets = targets;
        given.file.push_str(joined)?;
        given.file.push_str("known-targets")?;
        Ok(Some(OtherRustc::of(alloc, given)?))
    }
}
