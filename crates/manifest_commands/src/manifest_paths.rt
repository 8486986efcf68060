//! The manifests that a command line selects.

use cargo_platform::printable_text;
use clap::ArgMatches;
use input_limits::{InputError, STDIN_PATH, read_input};
use manifests::reading::ReadError;
use std::alloc::{AllocError, Global};
use std::rt::{Env, Files};
use workspaces::{FoundManifests, ManifestCache, ManifestSelection, find, put_text};

/// The paths of the selected manifests, and the errors for those that can't be found.
#[derive(Drop)]
pub struct SelectedManifests {
    pub paths: Vec<String>,
    pub unusable: Vec<InputError>,
    /// A warning a line.
    pub warnings: String,
}

impl SelectedManifests {
    /// Returns no manifest, but an error.
    fn unusable(alloc: Global, unusable: InputError) -> Result<SelectedManifests, AllocError> {
        Ok(SelectedManifests {
            paths: Vec::new(alloc),
            unusable: vec![in alloc; unusable]?,
            warnings: String::new(alloc),
        })
    }
}

/// Returns the values of an argument.
fn values(alloc: Global, matches: &ArgMatches<'_>, id: &str) -> Result<Vec<String>, AllocError> {
    let mut found = Vec::new(alloc);
    for value in matches.get_strs(id).unwrap_or(&[]) {
        found.push(String::from_str(alloc, value)?)?;
    }
    Ok(found)
}

/// Removes standard input from the arguments that name manifests.
fn leave_out_input(files: &mut Vec<String>) {
    files.retain(|file| file.as_str() != STDIN_PATH);
}

/// Reads standard input as the manifest at a path, which is put into `documents`. Returns the path of the manifest.
/// Fails if standard input cannot be used.
fn manifest_given<R: Files + Input + AllocGlobal>(
    rt: &R,
    documents: &mut ManifestCache,
    path: &str,
) -> Result<String, ReadError> {
    let alloc = rt.alloc();
    match read_input(rt, STDIN_PATH, documents.limit) {
        Ok(text) => Ok(put_text(rt, documents, path, text)?),
        Err(error) => {
            let path = printable_text(alloc, path)?;
            let refused = InputError::refused(alloc, path, &error, documents.limit)?;
            let reason = refused.reason.as_str();
            let reason = format!(in alloc; "cannot read standard input: {reason}")?;
            Err(ReadError::Input(InputError {
                file: refused.file,
                reason,
            }))
        }
    }
}

/// Returns what the arguments say of manifests.
fn selection_by(alloc: Global, matches: &ArgMatches<'_>) -> Result<ManifestSelection, AllocError> {
    Ok(ManifestSelection {
        paths: values(alloc, matches, "manifest-path")?,
        manifests: values(alloc, matches, "manifest")?,
        packages: values(alloc, matches, "package")?,
        excluded: values(alloc, matches, "exclude")?,
        whole: matches.get_flag("workspace"),
        alone: matches.get_flag("no-workspace"),
    })
}

/// Finds the selected manifests: those that the arguments name, or else the one in the current folder or in the nearest
/// folder above. The root of a workspace selects its members too. With `--stdin-filename`, standard input is the
/// manifest at that path. The manifests that are read for this are kept in `documents`.
pub fn find_manifests<R: Files + Input + Env + AllocGlobal + Clone + Drop>(
    rt: &R,
    documents: &mut ManifestCache,
    matches: &ArgMatches<'_>,
) -> Result<SelectedManifests, AllocError> {
    let alloc = rt.alloc();
    let mut selection = selection_by(alloc, matches)?;
    if let Some(path) = matches.get_str("stdin-filename") {
        match manifest_given(rt, documents, path) {
            Ok(file) => {
                leave_out_input(&mut selection.paths);
                leave_out_input(&mut selection.manifests);
                selection.paths.push(file)?;
            }
            Err(error) => return SelectedManifests::unusable(alloc, error.into_input_error(alloc)?),
        }
    }
    let FoundManifests {
        paths,
        unusable,
        warnings,
    } = find(rt, documents, &selection)?;
    Ok(SelectedManifests {
        paths,
        unusable,
        warnings,
    })
}
