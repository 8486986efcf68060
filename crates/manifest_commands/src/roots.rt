//! The roots of workspaces, as `lint` meets them: their rules, and what their members inherit.

use crate::other_rustc::OtherRustc;
use crate::project_targets::ManifestFile;
use diagnostics::{LintLevel, Rule, RuleInput};
use former_names::Release;
use input_limits::STDIN_PATH;
use lint_reports::Settings;
use std::alloc::{AllocError, Global};
use std::rt::{Env, Files};
use toml::{Table, Value};
use workspaces::{
    Document, InheritableFields, ManifestCache, inherits_lints, root_of, simplified_path,
};

/// The root of a workspace.
#[derive(Drop)]
pub struct Root {
    /// The path of its manifest.
    pub file: String,
    pub settings: Settings,
    /// The rustc whose targets count for its members, if its settings have targets whose facts are in files.
    pub other: Option<OtherRustc>,
    /// For each rule, whether a diagnostic needs it.
    pub needed: Vec<bool>,
    inheritable: InheritableFields,
    /// True if its manifest is selected too.
    pub is_selected: bool,
    /// True if the last manifest inherits lints from it that can't be read.
    pub hides_lints: bool,
}

/// Returns the table of the manifest of a root, if it has a workspace.
fn table_of(document: Option<&Document>) -> Option<&Table> {
    document?.table_if_mentioned("workspace")
}

/// Returns what the manifest of a root sets for its workspace.
fn settings_in(alloc: Global, document: Option<&Document>) -> Result<Settings, AllocError> {
    match table_of(document) {
        Some(table) => Settings::in_part(alloc, table, "workspace"),
        None => Settings::of(alloc, None),
    }
}

/// Returns the rules of a root, and for each that no diagnostic needs it yet.
fn settings_of(
    alloc: Global,
    document: Option<&Document>,
) -> Result<(Settings, Vec<bool>), AllocError> {
    let settings = settings_in(alloc, document)?;
    let mut needed = Vec::new(alloc);
    for _ in &settings.rules {
        needed.push(false)?;
    }
    Ok((settings, needed))
}

impl Root {
    /// Returns the root of no workspace, without rules.
    pub fn none(alloc: Global) -> Result<Root, AllocError> {
        Root::at(alloc, String::new(alloc), None)
    }

    /// Returns the root with this manifest, or with none.
    fn at(alloc: Global, file: String, document: Option<&Document>) -> Result<Root, AllocError> {
        let (settings, needed) = settings_of(alloc, document)?;
        let inheritable = match document {
            Some(document) => InheritableFields::of(alloc, document)?,
            None => InheritableFields::none(),
        };
        Ok(Root {
            file,
            settings,
            other: None,
            needed,
            inheritable,
            is_selected: false,
            hides_lints: false,
        })
    }

    /// Returns the root to which the manifest at this path belongs, or none if that is `current`.
    pub fn of<R: Files + Env + AllocGlobal>(
        rt: &R,
        documents: &mut ManifestCache,
        path: &str,
        current: &Root,
    ) -> Result<Option<Root>, AllocError> {
        let alloc = rt.alloc();
        let file = if path == STDIN_PATH {
            String::from_str(alloc, STDIN_PATH)?
        } else {
            let file = root_of(rt, documents, path)?;
            simplified_path(alloc, file.as_str())?
        };
        if file.as_str() == current.file.as_str() {
            return Ok(None);
        }
        let document = documents.get(rt, file.as_str())?;
        Ok(Some(Root::at(alloc, file, document)?))
    }

    /// Returns whether there is something to report on its rules: an invalid one or, if `is_whole`, one that is not
    /// needed.
    pub fn has_diagnostics(&self, is_whole: bool) -> bool {
        let mut unneeded = self.settings.rules.iter().zip(&self.needed);
        !self.settings.faults.is_empty()
            || is_whole && unneeded.any(|(rule, is_needed)| is_unneeded(rule, *is_needed))
    }

    /// Reads its settings again after entries that nothing needs were removed from its file, and then their targets, as
    /// `read_targets` does. A rule that is left is needed if it was needed before.
    pub fn read_again<R: Files + AllocGlobal>(
        &mut self,
        rt: &R,
        documents: &mut ManifestCache,
        other: Option<&OtherRustc>,
    ) -> Result<(), AllocError> {
        let alloc = rt.alloc();
        let document = documents.get(rt, self.file.as_str())?;
        let settings = settings_in(alloc, document)?;
        let mut needed = Vec::new(alloc);
        for rule in &settings.rules {
            needed.push(self.needs(rule))?;
        }
        self.settings = settings;
        self.needed = needed;
        self.read_targets(rt, documents.limit, other)
    }

    /// Reads the facts of the targets in its settings. They count in addition to those of the command line, `other`, or
    /// else to the known ones.
    pub fn read_targets<R: Files + AllocGlobal>(
        &mut self,
        rt: &R,
        limit: u64,
        other: Option<&OtherRustc>,
    ) -> Result<(), AllocError> {
        let file = ManifestFile {
            path: self.file.as_str(),
            limit,
        };
        self.other = file.add_custom_targets(rt, &mut self.settings, other)?;
        Ok(())
    }

    /// Returns whether a diagnostic needs a rule of these properties.
    fn needs(&self, rule: &Rule) -> bool {
        let mut rules = self.settings.rules.iter().zip(&self.needed);
        rules.any(|(other, is_needed)| *is_needed && is_same_rule(other, rule))
    }

    /// Returns whether its manifest is the one at a path.
    pub fn is_at(&self, alloc: Global, path: &str) -> Result<bool, AllocError> {
        let path = simplified_path(alloc, path)?;
        Ok(path.as_str() == self.file.as_str())
    }

    /// Returns the lints of a configuration, which belongs to no package.
    pub fn configuration_lints(&self) -> Result<Option<Value>, AllocError> {
        self.inheritable.lints_outside_packages()
    }

    /// Puts the root's lints in place of those of a manifest that inherits lints, and records whether there was a root
    /// to inherit from.
    pub fn put_lints(&mut self, alloc: Global, manifest: &mut Table) -> Result<(), AllocError> {
        self.hides_lints = inherits_lints(manifest) && !self.inheritable.is_workspace;
        self.inheritable.put_lints(alloc, manifest)
    }

    /// Returns the `rust-version` of a manifest's package, its own or the inherited one.
    pub fn rust_version_of(&self, manifest: &Table) -> Option<Release> {
        Release::of(self.inheritable.rust_version_of(manifest)?)
    }

    /// Records which of its rules these diagnostics need.
    pub fn note_needed(&mut self, found: &[RuleInput<'_>]) {
        for (rule, needed) in self.settings.rules.iter().zip(&mut self.needed) {
            if rule.is_needed(found) {
                *needed = true;
            }
        }
    }
}

/// Returns whether two rules set the same for the same diagnostics.
fn is_same_rule(first: &Rule, second: &Rule) -> bool {
    first.setting == second.setting
        && first.subject.word() == second.subject.word()
        && first.key == second.key
}

/// Returns whether the rule is an `allow` that suppresses no diagnostic.
pub fn is_unneeded(rule: &Rule, is_needed: bool) -> bool {
    rule.setting == LintLevel::Allow && !is_needed
}
