//! The configuration files that Cargo reads, and the manifests beside them, by Cargo's reference ("Configuration":
//! "Hierarchical structure").

use crate::environment::variable;
use std::alloc::{AllocError, Global};
use std::rt::{Env, Files};
use workspaces::{
    MANIFEST, ancestor_path, current_folder_depth, folder_of, is_file, join_manifest_path,
    join_path, simplified_path,
};

/// The folder that holds a configuration, beside the manifest of a workspace.
const FOLDER: &str = ".cargo";

/// The names of a configuration. Where both files exist, Cargo reads the first.
const NAMES: [&str; 2] = ["config", "config.toml"];

/// Returns the last component of a path.
fn file_name(path: &str) -> &str {
    match path.rsplit_once('/') {
        Some((_, name)) => name,
        None => path,
    }
}

/// Returns whether a file is a configuration, by its name.
pub fn is_configuration(path: &str) -> bool {
    NAMES.iter().any(|name| *name == file_name(path))
}

/// Returns the configuration in a folder, if the folder holds one.
fn configuration_in<R: Files + AllocGlobal>(
    rt: &R,
    folder: &str,
) -> Result<Option<String>, AllocError> {
    for name in NAMES {
        let file = join_path(rt.alloc(), folder, name)?;
        if is_file(rt, file.as_str())? {
            return Ok(Some(file));
        }
    }
    Ok(None)
}

/// Returns the path of the configuration that Cargo reads beside a manifest, if it exists. There is none beside a
/// manifest whose name is not `Cargo.toml`.
///
/// Fails only if an allocation fails.
pub fn configuration_beside<R: Files + AllocGlobal>(
    rt: &R,
    manifest: &str,
) -> Result<Option<String>, AllocError> {
    if file_name(manifest) != MANIFEST {
        return Ok(None);
    }
    let folder = join_path(rt.alloc(), folder_of(manifest), FOLDER)?;
    configuration_in(rt, folder.as_str())
}

/// Returns the folder of the user's own configuration, if it is known: `CARGO_HOME`, or `.cargo` in `HOME`.
fn cargo_home<R: Env + AllocGlobal>(rt: &R) -> Result<Option<String>, AllocError> {
    if let Some(folder) = variable(rt, "CARGO_HOME")? {
        if !folder.is_empty() {
            return Ok(Some(folder));
        }
    }
    match variable(rt, "HOME")? {
        Some(folder) => Ok(Some(join_path(rt.alloc(), folder.as_str(), FOLDER)?)),
        None => Ok(None),
    }
}

/// Adds the configuration in a folder, if the folder holds one.
fn add_configuration<R: Files + AllocGlobal>(
    rt: &R,
    folder: &str,
    files: &mut Vec<String>,
) -> Result<(), AllocError> {
    if let Some(file) = configuration_in(rt, folder)? {
        files.push(file)?;
    }
    Ok(())
}

/// Adds the configurations of the current folder and of those above it, the nearest first.
fn add_above<R: Files + Env + AllocGlobal>(
    rt: &R,
    files: &mut Vec<String>,
) -> Result<(), AllocError> {
    for count in 0..=current_folder_depth(rt)? {
        let folder = ancestor_path(rt.alloc(), count, FOLDER)?;
        add_configuration(rt, folder.as_str(), files)?;
    }
    Ok(())
}

/// Returns the paths of the configurations that Cargo reads in the current folder, the one with the highest precedence
/// first: that of this folder, those of the folders above from the nearest on, and the user's own. A file that is both
/// above and the user's own occurs twice.
///
/// Fails only if an allocation fails.
pub fn current_configurations<R: Files + Env + AllocGlobal>(
    rt: &R,
) -> Result<Vec<String>, AllocError> {
    let mut files = Vec::new(rt.alloc());
    add_above(rt, &mut files)?;
    if let Some(folder) = cargo_home(rt)? {
        add_configuration(rt, folder.as_str(), &mut files)?;
    }
    Ok(files)
}

/// Returns the path of the manifest beside a configuration, whether or not that file exists.
///
/// Fails only if an allocation fails.
pub fn manifest_beside(alloc: Global, configuration: &str) -> Result<String, AllocError> {
    let file = join_manifest_path(alloc, folder_of(configuration), "..")?;
    simplified_path(alloc, file.as_str())
}
