//! The members of a workspace: the folders that its globs match, the root's own folder, and those to which path
//! dependencies lead.

use crate::dependencies::{PathDependency, path_dependencies};
use crate::documents::{Document, ManifestCache, real_path};
use crate::folders::candidates;
use crate::manifests::{
    folder_of, is_file, join_manifest_path, join_path, simplified_path, table_in, texts_in,
};
use crate::member_rules::MemberRules;
use crate::patterns::{GlobError, Pattern, PatternError, folder_names};
use cargo_platform::printable_text;
use input_limits::InputError;
use std::alloc::{AllocError, Global};
use std::collections::BTreeSet;
use std::rt::Files;
use toml::Table;

/// Adds an error on a file.
fn push_unusable(
    unusable: &mut Vec<InputError>,
    alloc: Global,
    file: &str,
    reason: &str,
) -> Result<(), AllocError> {
    unusable.push(InputError {
        file: Some(printable_text(alloc, file)?),
        reason: printable_text(alloc, reason)?,
    })?;
    Ok(())
}

/// Returns the message on a text of `members` that is no glob.
fn fault_text(fault: GlobError) -> &'static str {
    match fault {
        GlobError::Stars => "`**` has to be a whole component",
        GlobError::Bracket => "a `[` has no `]`",
    }
}

/// Returns the path from a folder, which has an absolute path, to what an absolute path names in or below it.
fn below<'a>(folder: &str, path: &'a str) -> Option<&'a str> {
    let rest = path.strip_prefix(folder)?;
    if rest.is_empty() || folder.ends_with('/') {
        return Some(rest);
    }
    rest.strip_prefix("/")
}

/// Returns a path or glob as it leads from the root of a workspace, whose real path this is. What is absolute and does
/// not lie in the root's folder stays absolute.
fn from_root(alloc: Global, root: &str, path: &str) -> Result<String, AllocError> {
    if !path.starts_with('/') {
        return String::from_str(alloc, path);
    }
    let path = simplified_path(alloc, path)?;
    match below(root, path.as_str()) {
        Some(path) => String::from_str(alloc, path),
        None => Ok(path),
    }
}

/// Returns paths or globs as they lead from the root of a workspace.
fn all_from_root(alloc: Global, root: &str, paths: &[&str]) -> Result<Vec<String>, AllocError> {
    let mut found = Vec::new(alloc);
    for path in paths {
        found.push(from_root(alloc, root, path)?)?;
    }
    Ok(found)
}

/// Returns the globs that texts of `members` spell. Those that are no glob are added to what can't be used.
fn globs_of(
    alloc: Global,
    file: &str,
    texts: &[String],
    unusable: &mut Vec<InputError>,
) -> Result<Vec<Pattern>, AllocError> {
    let mut globs = Vec::new(alloc);
    for text in texts {
        let text = text.as_str();
        match Pattern::from_str(alloc, text) {
            Ok(pattern) => globs.push(pattern)?,
            Err(PatternError::Memory(refused)) => return Err(refused),
            Err(PatternError::GlobError(fault)) => {
                let fault = fault_text(fault);
                let reason = format!(in alloc; "workspace.members: {text}: {fault}")?;
                push_unusable(unusable, alloc, file, reason.as_str())?;
            }
        }
    }
    Ok(globs)
}

/// Returns, for each path, the pattern that matches its folder and all folders below it.
fn all_below(alloc: Global, paths: &[String]) -> Result<Vec<Pattern>, AllocError> {
    let mut patterns = Vec::new(alloc);
    for path in paths {
        patterns.push(Pattern::below(alloc, path.as_str())?)?;
    }
    Ok(patterns)
}

/// Returns the texts of an array of a root's table `workspace`, as paths that lead from the root.
fn paths_in(
    alloc: Global,
    root: &str,
    workspace: &Table,
    field: &str,
) -> Result<Vec<String>, AllocError> {
    let texts = texts_in(alloc, workspace, field)?;
    all_from_root(alloc, root, &texts)
}

/// Returns the rules of a workspace with these texts of `members` and paths of `exclude`. Texts that are no glob are
/// added to what can't be used.
fn rules_of(
    alloc: Global,
    file: &str,
    texts: &[String],
    excluded: &[String],
    unusable: &mut Vec<InputError>,
) -> Result<MemberRules, AllocError> {
    Ok(MemberRules {
        members: globs_of(alloc, file, texts, unusable)?,
        excluded: all_below(alloc, excluded)?,
        named: all_below(alloc, texts)?,
    })
}

/// Returns a copy of `workspace.dependencies`.
fn shared_dependencies(workspace: &Table) -> Result<Option<Table>, AllocError> {
    match table_in(workspace, "dependencies") {
        Some(dependencies) => Ok(Some(dependencies.clone()?)),
        None => Ok(None),
    }
}

/// Returns the path, from the root on, to which a path dependency of the package in a folder leads.
fn path_from_root(
    alloc: Global,
    root: &str,
    folder: &str,
    dependency: &PathDependency<'_>,
) -> Result<String, AllocError> {
    let path = from_root(alloc, root, dependency.path)?;
    if dependency.is_of_root || dependency.path.starts_with('/') {
        return simplified_path(alloc, path.as_str());
    }
    let path = join_path(alloc, folder, path.as_str())?;
    simplified_path(alloc, path.as_str())
}

/// Returns whether a path leads out of the root's folder.
fn is_outside(path: &str) -> bool {
    path.starts_with("../") || path.starts_with('/') || path == ".."
}

/// Returns the path of the manifest of the member in a folder of the workspace whose root has this manifest.
fn manifest_of(alloc: Global, root: &str, folder: &str) -> Result<String, AllocError> {
    if folder.is_empty() {
        return String::from_str(alloc, root);
    }
    join_manifest_path(alloc, folder_of(root), folder)
}

/// The members of a workspace that have been found so far.
#[derive(Drop)]
struct Members {
    /// The real path of the root's folder.
    root: String,
    rules: MemberRules,
    /// `workspace.dependencies` of the root.
    shared: Option<Table>,
    /// Their folders, from the root on.
    folders: BTreeSet<String>,
    /// Those of the folders whose path dependencies have not been followed yet.
    unfollowed: Vec<String>,
    /// Texts of `members` for which there is no folder, and folders without a manifest.
    missing: Vec<String>,
}

impl Members {
    /// Adds a folder, unless it is present.
    fn add(&mut self, alloc: Global, folder: &str) -> Result<(), AllocError> {
        if !self.folders.contains(folder) {
            let _is_new = self.folders.insert(String::from_str(alloc, folder)?)?;
            self.unfollowed.push(String::from_str(alloc, folder)?)?;
        }
        Ok(())
    }

    /// Returns whether a folder is a member by the globs, of which this one may take it: the others are tried only if
    /// it does not.
    fn is_member(
        &self,
        alloc: Global,
        folder: &str,
        pattern: &Pattern,
    ) -> Result<bool, AllocError> {
        let names = folder_names(alloc, folder)?;
        if !pattern.matches(alloc, &names)? {
            return self.rules.contains(alloc, &names);
        }
        Ok(!self.rules.excludes(alloc, &names)?)
    }

    /// Adds the folders that a glob matches.
    fn add_by_glob<R: Files + AllocGlobal + Clone + Drop>(
        &mut self,
        rt: &R,
        file: &str,
        text: &str,
    ) -> Result<(), AllocError> {
        let alloc = rt.alloc();
        let pattern = match Pattern::from_str(alloc, text) {
            Ok(pattern) => pattern,
            Err(PatternError::GlobError(_)) => return Ok(()),
            Err(PatternError::Memory(refused)) => return Err(refused),
        };
        let folders = candidates(rt, folder_of(file), text, &pattern)?;
        if folders.is_empty() {
            self.missing.push(String::from_str(alloc, text)?)?;
        }
        for folder in &folders {
            if self.is_member(alloc, folder.as_str(), &pattern)? {
                self.add(alloc, folder.as_str())?;
            }
        }
        Ok(())
    }

    /// Adds a folder to which a path dependency leads, if it is in the workspace.
    fn add_inside(&mut self, alloc: Global, path: &str) -> Result<(), AllocError> {
        if is_outside(path) || self.folders.contains(path) {
            return Ok(());
        }
        let names = folder_names(alloc, path)?;
        if !self.rules.excludes(alloc, &names)? {
            self.add(alloc, path)?;
        }
        Ok(())
    }

    /// Adds the folders in the workspace to which path dependencies of the package in a folder lead.
    fn add_dependencies(
        &mut self,
        alloc: Global,
        folder: &str,
        manifest: &Table,
    ) -> Result<(), AllocError> {
        let mut paths = Vec::new(alloc);
        for dependency in &path_dependencies(alloc, manifest, self.shared.as_ref())? {
            paths.push(path_from_root(alloc, self.root.as_str(), folder, dependency)?)?;
        }
        for path in &paths {
            self.add_inside(alloc, path.as_str())?;
        }
        Ok(())
    }

    /// Adds the folders in the workspace to which path dependencies of the members lead, and those of the members
    /// added.
    fn follow<R: Files + AllocGlobal>(
        &mut self,
        rt: &R,
        documents: &mut ManifestCache,
        root: &str,
    ) -> Result<(), AllocError> {
        for _ in 0..u64::MAX {
            let Some(folder) = self.unfollowed.pop() else {
                return Ok(());
            };
            self.follow_one(rt, documents, root, folder.as_str())?;
        }
        Ok(())
    }

    /// Adds the folders in the workspace to which path dependencies of the member in a folder lead. A member without a
    /// manifest is removed.
    fn follow_one<R: Files + AllocGlobal>(
        &mut self,
        rt: &R,
        documents: &mut ManifestCache,
        root: &str,
        folder: &str,
    ) -> Result<(), AllocError> {
        let file = manifest_of(rt.alloc(), root, folder)?;
        match documents.get(rt, file.as_str())? {
            Some(document) => self.add_dependencies(rt.alloc(), folder, &document.table),
            None => self.remove_missing(rt, file.as_str(), folder),
        }
    }

    /// Removes a member whose manifest is not at its path, and adds it to those that are missing.
    fn remove_missing<R: Files + AllocGlobal>(
        &mut self,
        rt: &R,
        file: &str,
        folder: &str,
    ) -> Result<(), AllocError> {
        if is_file(rt, file)? {
            return Ok(());
        }
        let _was_member = self.folders.remove(folder);
        self.missing.push(String::from_str(rt.alloc(), folder)?)?;
        Ok(())
    }

    /// Adds one error for all members that are missing to what can't be used.
    fn report_missing(
        &self,
        alloc: Global,
        file: &str,
        unusable: &mut Vec<InputError>,
    ) -> Result<(), AllocError> {
        if self.missing.is_empty() {
            return Ok(());
        }
        let reason = missing_text(alloc, &self.missing)?;
        push_unusable(unusable, alloc, file, reason.as_str())
    }
}

/// Returns the real path of the folder of a file.
fn real_folder<R: Files + AllocGlobal>(rt: &R, file: &str) -> Result<String, AllocError> {
    let folder = folder_of(file);
    real_path(rt, if folder.is_empty() { "." } else { folder })
}

/// The maximum number of missing members that an error names.
const NAMED: usize = 3;

/// Appends a name to a list, after a comma unless it is the first.
fn push_listed(list: &mut String, name: &str) -> Result<(), AllocError> {
    if !list.is_empty() {
        list.push_str(", ")?;
    }
    list.push_str(name)
}

/// Returns the list of the first missing members.
fn first_missing(alloc: Global, missing: &[String]) -> Result<String, AllocError> {
    let mut list = String::new(alloc);
    for it in missing.get(..NAMED).unwrap_or(missing) {
        push_listed(&mut list, it.as_str())?;
    }
    Ok(list)
}

/// Returns the message on members that are missing.
fn missing_text(alloc: Global, missing: &[String]) -> Result<String, AllocError> {
    let first = first_missing(alloc, missing)?;
    let more = missing.len().saturating_sub(NAMED);
    let text = "no manifest is found for these members of the workspace:";
    if more == 0 {
        return format!(in alloc; "{text} {first}");
    }
    format!(in alloc; "{text} {first} and {more} more")
}

/// Returns the members of the workspace of a root before path dependencies are followed: the root's own package, and
/// the folders that globs take.
fn members_by_globs<R: Files + AllocGlobal + Clone + Drop>(
    rt: &R,
    file: &str,
    root: &Document,
    unusable: &mut Vec<InputError>,
) -> Result<Option<Members>, AllocError> {
    let alloc = rt.alloc();
    let Some(workspace) = root.workspace() else {
        return Ok(None);
    };
    let folder = real_folder(rt, file)?;
    let texts = paths_in(alloc, folder.as_str(), workspace, "members")?;
    let excluded = paths_in(alloc, folder.as_str(), workspace, "exclude")?;
    let mut members = Members {
        root: folder,
        rules: rules_of(alloc, file, &texts, &excluded, unusable)?,
        shared: shared_dependencies(workspace)?,
        folders: BTreeSet::new(alloc),
        unfollowed: Vec::new(alloc),
        missing: Vec::new(alloc),
    };
    for text in &texts {
        members.add_by_glob(rt, file, text.as_str())?;
    }
    if root.table.get("package").is_some() {
        members.add(alloc, "")?;
    }
    Ok(Some(members))
}

/// Returns the folders of the packages of the workspace whose root has the manifest at a path, from the root on: the
/// root's own, those that its globs take, and those in it to which path dependencies lead. Globs that are none are
/// added to what can't be used, and so are all members that are missing, as one error.
///
/// Fails only if an allocation fails.
pub fn members_of<R: Files + AllocGlobal + Clone + Drop>(
    rt: &R,
    documents: &mut ManifestCache,
    file: &str,
    unusable: &mut Vec<InputError>,
) -> Result<BTreeSet<String>, AllocError> {
    let members = match documents.get(rt, file)? {
        Some(root) => members_by_globs(rt, file, root, unusable)?,
        None => None,
    };
    let Some(mut members) = members else {
        return Ok(BTreeSet::new(rt.alloc()));
    };
    members.follow(rt, documents, file)?;
    members.report_missing(rt.alloc(), file, unusable)?;
    Ok(members.folders)
}
