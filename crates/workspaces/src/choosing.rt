//! The packages and folders that arguments choose or leave out, by Cargo's book ("Package ID Specifications": a name,
//! with a version or without; `cargo build --package`: globs) and by the rules of `.gitignore` for paths.

use crate::documents::{ManifestCache, real_path};
use crate::finding::{FoundManifests, ManifestSelection, root_of};
use crate::lint_inheritance::is_inherited;
use crate::manifests::{folder_of, package_name, simplified_path, table_in, text_in};
use crate::patterns::{Pattern, PatternError, folder_names, is_glob};
use cargo_platform::printable_text;
use std::alloc::{AllocError, Global};
use std::rt::{Env, Files};
use toml::Table;

/// A manifest with the name and the version of its package, both empty if they are not known.
#[derive(Drop)]
struct Candidate {
    file: String,
    /// Its real path.
    real: String,
    name: String,
    version: String,
}

/// Returns the version of a manifest's package, if it does not inherit it.
fn own_version(manifest: &Table) -> Option<&str> {
    text_in(table_in(manifest, "package")?, "version")
}

/// Returns whether the package of a manifest inherits its version.
fn inherits_version(manifest: &Table) -> bool {
    match table_in(manifest, "package") {
        Some(package) => is_inherited(table_in(package, "version")),
        None => false,
    }
}

/// Returns the version that a root has for packages to inherit.
fn shared_version(workspace: Option<&Table>) -> Option<&str> {
    text_in(table_in(workspace?, "package")?, "version")
}

/// Returns the version that packages inherit from the root to which the manifest at a path belongs.
fn inherited_version<R: Files + Env + AllocGlobal>(
    rt: &R,
    documents: &mut ManifestCache,
    file: &str,
) -> Result<String, AllocError> {
    let root = root_of(rt, documents, file)?;
    match documents.get(rt, root.as_str())? {
        Some(root) => {
            String::from_str(rt.alloc(), shared_version(root.workspace()).unwrap_or(""))
        }
        None => Ok(String::new(rt.alloc())),
    }
}

/// Returns the name and the version of the package of the manifest at a path, and whether it inherits the version.
fn named_at<R: Files + AllocGlobal>(
    rt: &R,
    documents: &mut ManifestCache,
    file: &str,
) -> Result<(String, String, bool), AllocError> {
    let alloc = rt.alloc();
    match documents.get(rt, file)? {
        Some(document) => {
            let table = &document.table;
            let name = String::from_str(alloc, package_name(table).unwrap_or(""))?;
            let version = String::from_str(alloc, own_version(table).unwrap_or(""))?;
            Ok((name, version, inherits_version(table)))
        }
        None => Ok((String::new(alloc), String::new(alloc), false)),
    }
}

/// Returns the manifest at a path as a candidate.
fn candidate_at<R: Files + Env + AllocGlobal>(
    rt: &R,
    documents: &mut ManifestCache,
    file: &str,
) -> Result<Candidate, AllocError> {
    let (name, own, inherits) = named_at(rt, documents, file)?;
    let version = if inherits {
        inherited_version(rt, documents, file)?
    } else {
        own
    };
    Ok(Candidate {
        file: String::from_str(rt.alloc(), file)?,
        real: real_path(rt, file)?,
        name,
        version,
    })
}

/// Returns the manifests at these paths as candidates.
fn candidates_at<R: Files + Env + AllocGlobal>(
    rt: &R,
    documents: &mut ManifestCache,
    files: &[String],
) -> Result<Vec<Candidate>, AllocError> {
    let mut found = Vec::new(rt.alloc());
    for file in files {
        found.push(candidate_at(rt, documents, file.as_str())?)?;
    }
    Ok(found)
}

/// Returns whether a text is a name, or a glob that matches it. A text that is no glob matches nothing else.
fn matches_name(alloc: Global, text: &str, name: &str) -> Result<bool, AllocError> {
    if !is_glob(text) {
        return Ok(text == name);
    }
    match Pattern::from_str(alloc, text) {
        Ok(pattern) => pattern.matches(alloc, &folder_names(alloc, name)?),
        Err(PatternError::GlobError(_)) => Ok(false),
        Err(PatternError::Memory(refused)) => Err(refused),
    }
}

/// Returns whether a version is one that a text names: the whole version, or its first numbers.
fn is_version(text: &str, version: &str) -> bool {
    match version.strip_prefix(text) {
        Some(rest) => rest.is_empty() || rest.starts_with('.'),
        None => false,
    }
}

/// Returns whether a text means the package of a candidate: NAME, NAME@VERSION, or a glob in place of the name.
fn means(alloc: Global, text: &str, candidate: &Candidate) -> Result<bool, AllocError> {
    let (name, version) = match text.split_once('@') {
        Some((name, version)) => (name, Some(version)),
        None => (text, None),
    };
    let has_version = match version {
        Some(version) => is_version(version, candidate.version.as_str()),
        None => true,
    };
    Ok(has_version && matches_name(alloc, name, candidate.name.as_str())?)
}

/// Returns whether a glob matches a path, or one of a folder above it, by the names of the path.
fn matches_above(alloc: Global, glob: &str, path: &str) -> Result<bool, AllocError> {
    let pattern = match Pattern::from_str(alloc, glob) {
        Ok(pattern) => pattern,
        Err(PatternError::GlobError(_)) => return Ok(false),
        Err(PatternError::Memory(refused)) => return Err(refused),
    };
    let names = folder_names(alloc, path)?;
    for count in 1..=names.len() {
        if pattern.matches(alloc, names.get(..count).unwrap_or(&[]))? {
            return Ok(true);
        }
    }
    Ok(false)
}

/// Returns whether a glob without a slash matches one of the names of a path.
fn matches_some_name(alloc: Global, glob: &str, path: &str) -> Result<bool, AllocError> {
    for name in path.split('/') {
        if !name.is_empty() && matches_name(alloc, glob, name)? {
            return Ok(true);
        }
    }
    Ok(false)
}

/// Returns whether a text means the path of a candidate or a folder above it, as a line of `.gitignore` does: one with
/// a slash before its end begins at the current folder, and another one is the name of any file or folder. With a slash
/// at its end it means only folders. An absolute path is one from the root of the file system on.
fn means_path(alloc: Global, text: &str, candidate: &Candidate) -> Result<bool, AllocError> {
    let (text, is_folder) = match text.strip_suffix("/") {
        Some(text) => (text, true),
        None => (text, false),
    };
    let path = if text.starts_with('/') {
        candidate.real.as_str()
    } else {
        candidate.file.as_str()
    };
    let path = simplified_path(alloc, if is_folder { folder_of(path) } else { path })?;
    if !text.contains('/') {
        return matches_some_name(alloc, text, path.as_str());
    }
    matches_above(alloc, text, path.as_str())
}

/// Returns whether one of the texts means the package of a candidate.
fn some_means(alloc: Global, texts: &[String], candidate: &Candidate) -> Result<bool, AllocError> {
    for text in texts {
        if means(alloc, text.as_str(), candidate)? {
            return Ok(true);
        }
    }
    Ok(false)
}

/// Returns whether a text leaves out a candidate, by its package or by its path.
fn leaves_out(alloc: Global, text: &str, candidate: &Candidate) -> Result<bool, AllocError> {
    Ok(means(alloc, text, candidate)? || means_path(alloc, text, candidate)?)
}

/// Returns whether one of the texts leaves out a candidate.
fn some_leaves_out(
    alloc: Global,
    texts: &[String],
    candidate: &Candidate,
) -> Result<bool, AllocError> {
    for text in texts {
        if leaves_out(alloc, text.as_str(), candidate)? {
            return Ok(true);
        }
    }
    Ok(false)
}

/// Returns the paths of the candidates that are chosen, and not left out.
fn chosen_of(
    alloc: Global,
    selection: &ManifestSelection,
    candidates: &[Candidate],
) -> Result<Vec<String>, AllocError> {
    let mut chosen = Vec::new(alloc);
    for candidate in candidates {
        let is_selected = selection.packages.is_empty()
            || some_means(alloc, &selection.packages, candidate)?;
        if is_selected && !some_leaves_out(alloc, &selection.excluded, candidate)? {
            chosen.push(candidate.file.clone()?)?;
        }
    }
    Ok(chosen)
}

/// Returns whether a text means the package of one of the candidates.
fn means_some(alloc: Global, text: &str, candidates: &[Candidate]) -> Result<bool, AllocError> {
    for candidate in candidates {
        if means(alloc, text, candidate)? {
            return Ok(true);
        }
    }
    Ok(false)
}

/// Returns whether a text leaves out one of the candidates.
fn leaves_out_some(
    alloc: Global,
    text: &str,
    candidates: &[Candidate],
) -> Result<bool, AllocError> {
    for candidate in candidates {
        if leaves_out(alloc, text, candidate)? {
            return Ok(true);
        }
    }
    Ok(false)
}

/// Adds an error for each package that is chosen and no candidate is.
fn add_unknown(
    alloc: Global,
    selection: &ManifestSelection,
    candidates: &[Candidate],
    found: &mut FoundManifests,
) -> Result<(), AllocError> {
    for text in &selection.packages {
        if !means_some(alloc, text.as_str(), candidates)? {
            let text = printable_text(alloc, text.as_str())?;
            let reason = format!(in alloc; "no package of the workspace is named {text}")?;
            found.push(reason)?;
        }
    }
    Ok(())
}

/// Adds a warning for each text that leaves out no candidate.
fn add_unneeded(
    alloc: Global,
    selection: &ManifestSelection,
    candidates: &[Candidate],
    found: &mut FoundManifests,
) -> Result<(), AllocError> {
    for text in &selection.excluded {
        if !leaves_out_some(alloc, text.as_str(), candidates)? {
            let text = printable_text(alloc, text.as_str())?;
            let line = format!(in alloc;
                "warning: --exclude {text}: no package or path matches\n"
            )?;
            found.warnings.push_str(line.as_str())?;
        }
    }
    Ok(())
}

/// Keeps the manifests whose packages are chosen, and removes the others from `found`. What no manifest matches is
/// reported.
///
/// Fails only if an allocation fails.
pub fn choose<R: Files + Env + AllocGlobal>(
    rt: &R,
    documents: &mut ManifestCache,
    selection: &ManifestSelection,
    found: &mut FoundManifests,
) -> Result<(), AllocError> {
    let alloc = rt.alloc();
    let candidates = candidates_at(rt, documents, &found.paths)?;
    let chosen = chosen_of(alloc, selection, &candidates)?;
    add_unknown(alloc, selection, &candidates, found)?;
    add_unneeded(alloc, selection, &candidates, found)?;
    found.paths = chosen;
    Ok(())
}
