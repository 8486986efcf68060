//! Configuration files in the order in which they are read, with those that they include, by Cargo's reference
//! ("Configuration": `include`).

use crate::files::current_configurations;
use cargo_platform::printable_text;
use key_answers::answer::QueryError;
use manifests::reading::{Manifest, read_manifest};
use std::alloc::{AllocError, Global};
use std::rt::{Env, Files};
use toml::{Table, Value};
use workspaces::{folder_of, is_file, join_path, text_in};

/// The maximum number of configuration files that are read.
pub const MAX_FILES: usize = 1024;

/// Configuration files that are not read yet.
#[derive(Drop)]
pub struct UnreadFiles {
    /// Their paths, the next one last.
    paths: Vec<String>,
}

/// A file that a configuration includes.
#[derive(Clone, Copy, Drop)]
struct Inclusion<'a> {
    path: &'a str,
    /// The file may be missing.
    is_optional: bool,
}

impl UnreadFiles {
    /// Returns the configurations that Cargo reads in the current folder.
    ///
    /// Fails only if an allocation fails.
    pub fn in_current_folder<R: Files + Env + AllocGlobal>(
        rt: &R,
    ) -> Result<UnreadFiles, AllocError> {
        let mut paths = current_configurations(rt)?;
        paths.reverse();
        Ok(UnreadFiles { paths })
    }

    /// Reads the next file, of at most `limit` bytes, and puts the files that it includes in its place: what is in a
    /// file has precedence over what it includes, and there a later file over an earlier one. Returns none where every
    /// file has been read.
    ///
    /// Fails where the file can't be read, is no TOML, or has an `include` that Cargo rejects.
    pub fn read_next<R: Files + Input + AllocGlobal>(
        &mut self,
        rt: &R,
        limit: u64,
    ) -> Result<Option<Manifest>, QueryError> {
        let Some(path) = self.paths.pop() else {
            return Ok(None);
        };
        let configuration = read_configuration(rt, path.as_str(), limit)?;
        self.push_included(rt, path.as_str(), &configuration.document.table)?;
        Ok(Some(configuration))
    }

    /// Returns an error if a file has not been read yet: so many files include each other.
    pub fn reject_rest(&mut self, alloc: Global) -> Result<(), QueryError> {
        match self.paths.pop() {
            Some(path) => Err(rejected_include(alloc, path.as_str(), "files include each other")?),
            None => Ok(()),
        }
    }

    /// Adds the files that the configuration at `path` includes, in their order.
    fn push_included<R: Files + AllocGlobal>(
        &mut self,
        rt: &R,
        path: &str,
        configuration: &Table,
    ) -> Result<(), QueryError> {
        let alloc = rt.alloc();
        let Some(value) = configuration.get("include") else {
            return Ok(());
        };
        let Some(members) = value.as_array() else {
            return Err(rejected_include(alloc, path, "it is not an array")?);
        };
        for member in members {
            match read_inclusion(member) {
                Some(it) if it.path.ends_with(".toml") => self.push(rt, path, it)?,
                _ => return Err(rejected_include(alloc, path, "a member names no file `.toml`")?),
            }
        }
        Ok(())
    }

    /// Adds a file that the configuration at `path` includes, unless it is optional and missing.
    fn push<R: Files + AllocGlobal>(
        &mut self,
        rt: &R,
        path: &str,
        inclusion: Inclusion<'_>,
    ) -> Result<(), AllocError> {
        let folder = if inclusion.path.starts_with('/') {
            ""
        } else {
            folder_of(path)
        };
        let file = join_path(rt.alloc(), folder, inclusion.path)?;
        if !inclusion.is_optional || is_file(rt, file.as_str())? {
            self.paths.push(file)?;
        }
        Ok(())
    }
}

/// Reads the configuration at a path, of at most `limit` bytes.
fn read_configuration<R: Files + Input + AllocGlobal>(
    rt: &R,
    path: &str,
    limit: u64,
) -> Result<Manifest, QueryError> {
    match read_manifest(rt, path, limit) {
        Ok(configuration) => Ok(configuration),
        Err(error) => {
            let unusable = error.into_input_error(rt.alloc())?;
            Err(QueryError::Unusable(unusable.line(rt.alloc())?))
        }
    }
}

/// Returns the error for a configuration whose `include` Cargo rejects.
fn rejected_include(alloc: Global, path: &str, reason: &str) -> Result<QueryError, AllocError> {
    let path = printable_text(alloc, path)?;
    Ok(QueryError::Unusable(format!(in alloc; "{path}: error: include: {reason}\n")?))
}

/// Returns the file that a member of `include` names, if it names one.
fn read_inclusion(member: &Value) -> Option<Inclusion<'_>> {
    match member {
        Value::String(path) => Some(Inclusion {
            path: path.as_str(),
            is_optional: false,
        }),
        Value::Table(fields) => Some(Inclusion {
            path: text_in(fields, "path")?,
            is_optional: is_optional(fields),
        }),
        _ => None,
    }
}

/// Returns whether the fields of a member of `include` say that the file may be missing.
fn is_optional(fields: &Table) -> bool {
    match fields.get("optional") {
        Some(value) => value.as_bool().unwrap_or(false),
        None => false,
    }
}
