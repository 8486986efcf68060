//! The folders below a root that a glob may match.

use crate::components::{Component, FolderName};
use crate::documents::real_path;
use crate::glob_matching::Piece;
use crate::manifests::{if_successful, is_folder, join_path};
use crate::patterns::{Pattern, is_glob, plain_components};
use std::alloc::{AllocError, Global};
use std::fs::{self, DirEntry};
use std::io;
use std::rt::Files;

/// The component after `**` at the end of a glob, which matches at least one folder.
const ANY: &str = "*";

/// Adds the name of an entry of a folder, if the entry can be read.
fn add_name<R: Files + AllocGlobal + Clone + Drop>(
    names: &mut Vec<String>,
    alloc: Global,
    entry: io::Result<DirEntry<R>>,
) -> Result<(), AllocError> {
    if let Some(entry) = if_successful(entry)? {
        names.push(String::from_str(alloc, entry.file_name())?)?;
    }
    Ok(())
}

/// Returns the names in a folder, or none if the folder can't be read.
fn names_in<R: Files + AllocGlobal + Clone + Drop>(
    rt: &R,
    folder: &str,
) -> Result<Vec<String>, AllocError> {
    let alloc = rt.alloc();
    let mut names = Vec::new(alloc);
    let folder = if folder.is_empty() { "." } else { folder };
    if let Some(entries) = if_successful(fs::read_dir(rt, folder))? {
        for entry in entries {
            add_name(&mut names, alloc, entry)?;
        }
    }
    names.sort()?;
    Ok(names)
}

/// Returns the names in the folder at a path below the root.
fn names_below<R: Files + AllocGlobal + Clone + Drop>(
    rt: &R,
    root: &str,
    path: &str,
) -> Result<Vec<String>, AllocError> {
    let folder = join_path(rt.alloc(), root, path)?;
    names_in(rt, folder.as_str())
}

/// Returns whether a folder, and not a link to one, is at a path below the root.
fn is_own_folder<R: Files + AllocGlobal>(
    rt: &R,
    root: &str,
    path: &str,
) -> Result<bool, AllocError> {
    let place = join_path(rt.alloc(), root, path)?;
    match if_successful(fs::symlink_metadata(rt, place.as_str()))? {
        Some(found) => Ok(found.is_dir()),
        None => Ok(false),
    }
}

/// Returns whether a folder is at a path below the root.
fn is_folder_below<R: Files + AllocGlobal>(
    rt: &R,
    root: &str,
    path: &str,
) -> Result<bool, AllocError> {
    let place = join_path(rt.alloc(), root, path)?;
    is_folder(rt, place.as_str())
}

/// Returns the real path of a folder below the root.
fn real_folder<R: Files + AllocGlobal>(
    rt: &R,
    root: &str,
    path: &str,
) -> Result<String, AllocError> {
    let place = join_path(rt.alloc(), root, path)?;
    let place = if place.as_str().is_empty() {
        "."
    } else {
        place.as_str()
    };
    real_path(rt, place)
}

/// Returns whether the folder at the path `lower` is the one at `path`, or one that this one is in.
fn leads_back<R: Files + AllocGlobal>(
    rt: &R,
    root: &str,
    path: &str,
    lower: &str,
) -> Result<bool, AllocError> {
    let holder = real_folder(rt, root, path)?;
    let to = real_folder(rt, root, lower)?;
    let to = to.as_str();
    Ok(match holder.as_str().strip_prefix(to) {
        Some(rest) => rest.is_empty() || rest.starts_with('/') || to.ends_with('/'),
        None => false,
    })
}

/// Adds the folder with a name in the one at a path, if it is there. A link to a folder that the link is in is not
/// added, since it has no end.
fn add_any<R: Files + AllocGlobal>(
    rt: &R,
    root: &str,
    path: &str,
    name: &str,
    found: &mut Vec<String>,
) -> Result<(), AllocError> {
    let lower = join_path(rt.alloc(), path, name)?;
    if !is_folder_below(rt, root, lower.as_str())? {
        return Ok(());
    }
    if is_own_folder(rt, root, lower.as_str())? || !leads_back(rt, root, path, lower.as_str())? {
        found.push(lower)?;
    }
    Ok(())
}

/// Adds the folders below the last ones.
fn add_below<R: Files + AllocGlobal + Clone + Drop>(
    rt: &R,
    root: &str,
    found: &mut Vec<String>,
) -> Result<(), AllocError> {
    for at in 0..u64::MAX {
        let Ok(at) = usize::try_from(at) else {
            return Ok(());
        };
        let Some(path) = found.get(at) else {
            return Ok(());
        };
        let path = path.clone()?;
        for name in &names_below(rt, root, path.as_str())? {
            add_any(rt, root, path.as_str(), name.as_str(), found)?;
        }
    }
    Ok(())
}

/// Adds the folder with a name in the one at a path, if it is there.
fn add_lower<R: Files + AllocGlobal>(
    rt: &R,
    root: &str,
    path: &str,
    name: &str,
    found: &mut Vec<String>,
) -> Result<(), AllocError> {
    let lower = join_path(rt.alloc(), path, name)?;
    if is_folder_below(rt, root, lower.as_str())? {
        found.push(lower)?;
    }
    Ok(())
}

/// Returns whether the component matches a name.
fn matches(alloc: Global, component: &Component, name: &str) -> Result<bool, AllocError> {
    let characters: FolderName = name.chars().collect(alloc)?;
    component.matches(alloc, &characters)
}

/// Adds the folders in a folder whose names the component matches.
fn add_named<R: Files + AllocGlobal + Clone + Drop>(
    rt: &R,
    root: &str,
    path: &str,
    component: &Component,
    found: &mut Vec<String>,
) -> Result<(), AllocError> {
    for name in &names_below(rt, root, path)? {
        if matches(rt.alloc(), component, name.as_str())? {
            add_lower(rt, root, path, name.as_str(), found)?;
        }
    }
    Ok(())
}

/// Returns the folders in these that a component of a glob may match. `text` is the component's text.
fn next_of<R: Files + AllocGlobal + Clone + Drop>(
    rt: &R,
    root: &str,
    folders: &[String],
    text: &str,
    component: &Component,
) -> Result<Vec<String>, AllocError> {
    let mut next = Vec::new(rt.alloc());
    for path in folders {
        if is_glob(text) {
            add_named(rt, root, path.as_str(), component, &mut next)?;
        } else {
            add_lower(rt, root, path.as_str(), text, &mut next)?;
        }
    }
    Ok(next)
}

/// Returns the component at an index in the text of a glob.
fn text_at<'a>(texts: &[&'a str], at: usize) -> &'a str {
    texts.get(at).copied().unwrap_or(ANY)
}

/// Returns the path of the folder at which a glob begins: the root of the file system for an absolute one, and else the
/// root of the workspace.
fn start_of(text: &str) -> &'static str {
    if text.starts_with('/') { "/" } else { "" }
}

/// Returns the paths of the folders that the pattern of this text may match. They begin at the root, or are absolute if
/// the pattern is.
///
/// Fails only if an allocation fails.
pub fn candidates<R: Files + AllocGlobal + Clone + Drop>(
    rt: &R,
    root: &str,
    text: &str,
    pattern: &Pattern,
) -> Result<Vec<String>, AllocError> {
    let alloc = rt.alloc();
    let mut found = Vec::new(alloc);
    found.push(String::from_str(alloc, start_of(text))?)?;
    let texts = plain_components(alloc, text)?;
    for (at, component) in pattern.components.iter().enumerate() {
        if component.is_many() {
            add_below(rt, root, &mut found)?;
        } else {
            found = next_of(rt, root, &found, text_at(&texts, at), component)?;
        }
    }
    Ok(found)
}
