//! The manifests that arguments select: those that are named, or the one in or above the current folder.

use crate::choosing::choose;
use crate::documents::{ManifestCache, RootPlace, real_path};
use crate::manifests::{
    MANIFEST, ancestor_path, folder_of, if_successful, is_file, is_folder, join_manifest_path,
    join_path, parse_table, simplified_from, simplified_path,
};
use crate::members::members_of;
use input_limits::{InputError, STDIN_PATH};
use std::alloc::{AllocError, Global};
use std::collections::BTreeSet;
use std::env;
use std::rt::{Env, Files};

/// The arguments of a command line that select manifests.
#[derive(Drop)]
pub struct ManifestSelection {
    /// Manifests by `--manifest-path`.
    pub paths: Vec<String>,
    /// Manifests, and folders that contain one. If neither list has an entry, the manifest in the current folder or in
    /// the nearest folder above is selected.
    pub manifests: Vec<String>,
    /// The only packages that are selected, if there are any: names or globs of names, each with or without a version.
    pub packages: Vec<String>,
    /// The packages that are left out, and paths or globs of manifests that are left out, or of folders above them.
    pub excluded: Vec<String>,
    /// True if all members of the workspace are selected, also by the manifest of a member.
    pub whole: bool,
    /// True if only the manifests that are named are selected, without the members of their workspaces.
    pub alone: bool,
}

/// The manifests that [`find`] found.
#[derive(Drop)]
pub struct FoundManifests {
    /// The paths of the manifests, each once.
    pub paths: Vec<String>,
    /// The errors for manifests that can't be found.
    pub unusable: Vec<InputError>,
    /// The warnings for the entries of `excluded` that match no manifest, one a line.
    pub warnings: String,
}

impl FoundManifests {
    /// Adds an error.
    pub(crate) fn push(&mut self, reason: String) -> Result<(), AllocError> {
        self.unusable.push(InputError { file: None, reason })?;
        Ok(())
    }
}

/// Returns how many components the path of the current folder has, or 0 if it is not known.
pub fn current_folder_depth<R: Env + AllocGlobal>(rt: &R) -> Result<usize, AllocError> {
    Ok(match if_successful(env::current_dir(rt))? {
        Some(folder) => folder.as_path().components().count(),
        None => 0,
    })
}

/// Returns the path of the manifest in the current folder or in the nearest folder above, if there is one.
fn manifest_above<R: Files + Env + AllocGlobal>(rt: &R) -> Result<Option<String>, AllocError> {
    for count in 0..=current_folder_depth(rt)? {
        let file = ancestor_path(rt.alloc(), count, MANIFEST)?;
        if is_file(rt, file.as_str())? {
            return Ok(Some(file));
        }
    }
    Ok(None)
}

/// Returns the file that an argument names. For a folder, it is the folder's manifest.
fn file_of<R: Files + AllocGlobal>(rt: &R, path: &str) -> Result<String, AllocError> {
    if path != STDIN_PATH && !path.is_empty() && is_folder(rt, path)? {
        let path = path.strip_suffix("/").unwrap_or(path);
        return format!(in rt.alloc(); "{path}/{MANIFEST}");
    }
    String::from_str(rt.alloc(), path)
}

/// Uses a text as that of the manifest that an argument names, which for a folder is the folder's manifest. Returns the
/// path of the manifest.
///
/// Fails only if an allocation fails.
pub fn put_text<R: Files + AllocGlobal>(
    rt: &R,
    documents: &mut ManifestCache,
    path: &str,
    text: String,
) -> Result<String, AllocError> {
    let file = file_of(rt, path)?;
    let table = parse_table(rt.alloc(), text.as_str())?;
    documents.put(rt, file.as_str(), text, table)?;
    Ok(file)
}

/// Returns the manifest of the root, if a manifest is that of a root or names its root.
fn root_by_manifest<R: Files + AllocGlobal>(
    rt: &R,
    documents: &mut ManifestCache,
    file: &str,
) -> Result<Option<String>, AllocError> {
    match documents.root_place(rt, file)? {
        Some(RootPlace::Here) => Ok(Some(String::from_str(rt.alloc(), file)?)),
        Some(RootPlace::At(path)) => {
            let root = join_manifest_path(rt.alloc(), folder_of(file), path.as_str())?;
            Ok(Some(root))
        }
        Some(RootPlace::Unsaid) | None => Ok(None),
    }
}

/// Returns whether a manifest has a table `workspace`.
fn is_root<R: Files + AllocGlobal>(
    rt: &R,
    documents: &mut ManifestCache,
    file: &str,
) -> Result<bool, AllocError> {
    match documents.root_place(rt, file)? {
        Some(RootPlace::Here) => Ok(true),
        _ => Ok(false),
    }
}

/// Returns the path of the manifest `count` folders above a folder.
fn manifest_over(alloc: Global, folder: &str, count: usize) -> Result<String, AllocError> {
    let file = ancestor_path(alloc, count, MANIFEST)?;
    join_path(alloc, folder, file.as_str())
}

/// Returns the nearest manifest above a folder that has a table `workspace`.
fn root_above<R: Files + Env + AllocGlobal>(
    rt: &R,
    documents: &mut ManifestCache,
    folder: &str,
) -> Result<Option<String>, AllocError> {
    let depth = current_folder_depth(rt)?.saturating_add(folder.split('/').count());
    for count in 1..=depth {
        let root = manifest_over(rt.alloc(), folder, count)?;
        if is_root(rt, documents, root.as_str())? {
            return Ok(Some(simplified_path(rt.alloc(), root.as_str())?));
        }
    }
    Ok(None)
}

/// Returns the manifest of the root of the workspace that a manifest belongs to: its own, the one that
/// `package.workspace` names, or the nearest one above with a table `workspace`. If it belongs to no workspace, this is
/// its own path. Manifests that can't be used are skipped.
///
/// Fails only if an allocation fails.
pub fn root_of<R: Files + Env + AllocGlobal>(
    rt: &R,
    documents: &mut ManifestCache,
    file: &str,
) -> Result<String, AllocError> {
    if let Some(root) = root_by_manifest(rt, documents, file)? {
        return Ok(root);
    }
    match root_above(rt, documents, folder_of(file))? {
        Some(root) => Ok(root),
        None => String::from_str(rt.alloc(), file),
    }
}

/// Returns the manifest itself or, if all members or some packages are selected, that of its workspace's root.
fn first_of<R: Files + Env + AllocGlobal>(
    rt: &R,
    documents: &mut ManifestCache,
    selection: &ManifestSelection,
    file: &str,
) -> Result<String, AllocError> {
    if selection.whole || !selection.packages.is_empty() {
        root_of(rt, documents, file)
    } else {
        String::from_str(rt.alloc(), file)
    }
}

/// Returns whether two errors have the same reason, and are about the same file.
fn is_same<R: Files + AllocGlobal>(
    rt: &R,
    first: &InputError,
    second: &InputError,
) -> Result<bool, AllocError> {
    if first.reason.as_str() != second.reason.as_str() {
        return Ok(false);
    }
    match (&first.file, &second.file) {
        (Some(first), Some(second)) => {
            let first = real_path(rt, first.as_str())?;
            let second = real_path(rt, second.as_str())?;
            Ok(first.as_str() == second.as_str())
        }
        (None, None) => Ok(true),
        _ => Ok(false),
    }
}

/// Adds an error, unless it is present: a root that is named in several ways has the same errors each time.
fn add_error<R: Files + AllocGlobal>(
    rt: &R,
    error: InputError,
    found: &mut FoundManifests,
) -> Result<(), AllocError> {
    for other in &found.unusable {
        if is_same(rt, other, &error)? {
            return Ok(());
        }
    }
    found.unusable.push(error)?;
    Ok(())
}

/// Adds the manifests of a root's members, but not the root's own.
fn add_members<R: Files + AllocGlobal + Clone + Drop>(
    rt: &R,
    documents: &mut ManifestCache,
    file: &str,
    found: &mut FoundManifests,
) -> Result<(), AllocError> {
    let mut errors = Vec::new(rt.alloc());
    for folder in &members_of(rt, documents, file, &mut errors)? {
        if !folder.is_empty() {
            let member = join_manifest_path(rt.alloc(), folder_of(file), folder.as_str())?;
            found.paths.push(member)?;
        }
    }
    for error in errors {
        add_error(rt, error, found)?;
    }
    Ok(())
}

/// Adds a manifest and, if it is that of a root, those of the root's members.
fn add_meant<R: Files + Env + AllocGlobal + Clone + Drop>(
    rt: &R,
    documents: &mut ManifestCache,
    selection: &ManifestSelection,
    file: &str,
    found: &mut FoundManifests,
) -> Result<(), AllocError> {
    if file == STDIN_PATH {
        found.paths.push(String::from_str(rt.alloc(), file)?)?;
        return Ok(());
    }
    let file = first_of(rt, documents, selection, file)?;
    found.paths.push(file.clone()?)?;
    if selection.alone {
        return Ok(());
    }
    add_members(rt, documents, file.as_str(), found)
}

/// Adds these manifests, and those of the members of roots.
fn add_all<R: Files + Env + AllocGlobal + Clone + Drop>(
    rt: &R,
    documents: &mut ManifestCache,
    selection: &ManifestSelection,
    named: &[String],
    found: &mut FoundManifests,
) -> Result<(), AllocError> {
    for path in named {
        let file = file_of(rt, path.as_str())?;
        add_meant(rt, documents, selection, file.as_str(), found)?;
    }
    Ok(())
}

/// Adds the manifest in the current folder or in the nearest folder above and, if it is that of a root, those of the
/// root's members. If there is none, this is an error.
fn add_at_hand<R: Files + Env + AllocGlobal + Clone + Drop>(
    rt: &R,
    documents: &mut ManifestCache,
    selection: &ManifestSelection,
    found: &mut FoundManifests,
) -> Result<(), AllocError> {
    let Some(file) = manifest_above(rt)? else {
        let reason = "no `Cargo.toml` is here or in a folder above";
        return found.push(String::from_str(rt.alloc(), reason)?);
    };
    add_meant(rt, documents, selection, file.as_str(), found)
}

/// Returns the paths without those that lead to the manifest of an earlier path.
fn each_once<R: Files + AllocGlobal>(rt: &R, paths: &[String]) -> Result<Vec<String>, AllocError> {
    let mut seen = BTreeSet::new(rt.alloc());
    let mut once = Vec::new(rt.alloc());
    for path in paths {
        let real = real_path(rt, path.as_str())?;
        if seen.insert(real)? {
            once.push(path.clone()?)?;
        }
    }
    Ok(once)
}

/// Returns the path of the current folder, if it is known.
fn current_folder<R: Env + AllocGlobal>(rt: &R) -> Result<String, AllocError> {
    match if_successful(env::current_dir(rt))? {
        Some(folder) => Ok(folder.into_string()),
        None => Ok(String::new(rt.alloc())),
    }
}

/// Returns the paths without the folders that they leave at once, from the folder with this absolute path.
fn nearer_paths(alloc: Global, folder: &str, paths: &[String]) -> Result<Vec<String>, AllocError> {
    let mut found = Vec::new(alloc);
    for path in paths {
        found.push(simplified_from(alloc, folder, path.as_str())?)?;
    }
    Ok(found)
}

/// Returns the paths without those that lead to the manifest of an earlier path, each simplified from the current
/// folder.
fn once_from_here<R: Files + Env + AllocGlobal>(
    rt: &R,
    paths: &[String],
) -> Result<Vec<String>, AllocError> {
    let once = each_once(rt, paths)?;
    let folder = current_folder(rt)?;
    nearer_paths(rt.alloc(), folder.as_str(), &once)
}

/// Finds the selected manifests. Returns each once, in the order of the arguments: the root of a workspace before its
/// members, and these in the order of their paths. The manifests that are read for this stay in `documents`.
///
/// Fails only if an allocation fails.
pub fn find<R: Files + Env + AllocGlobal + Clone + Drop>(
    rt: &R,
    documents: &mut ManifestCache,
    selection: &ManifestSelection,
) -> Result<FoundManifests, AllocError> {
    let alloc = rt.alloc();
    let mut found = FoundManifests {
        paths: Vec::new(alloc),
        unusable: Vec::new(alloc),
        warnings: String::new(alloc),
    };
    if selection.paths.is_empty() && selection.manifests.is_empty() {
        add_at_hand(rt, documents, selection, &mut found)?;
    }
    add_all(rt, documents, selection, &selection.paths, &mut found)?;
    add_all(rt, documents, selection, &selection.manifests, &mut found)?;
    found.paths = once_from_here(rt, &found.paths)?;
    if !selection.packages.is_empty() || !selection.excluded.is_empty() {
        choose(rt, documents, selection, &mut found)?;
    }
    documents.expect_uses(rt, &found.paths)?;
    Ok(found)
}
