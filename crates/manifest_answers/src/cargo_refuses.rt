//! Finds what Cargo rejects in the tables of dependencies of a manifest, and in the fields that it inherits.

use crate::dependency_rules::{CheckedDependency, WorkspaceRoot, rejection_reason};
use cargo_platform::printable_excerpt;
use input_limits::strip_byte_order_mark;
use manifest_lints_findings::{Level, format_table_name, table_diagnostics};
use manifests::dotted_keys::find_dotted_key;
use manifests::key_locations::Location;
use manifests::{Kind, table_of};
use std::alloc::{AllocError, Global};
use toml::{Table, Value};
use toml_parser::{ParseError, dotted_key};
use workspaces::{Document, is_of_2024};

/// The kinds of tables of dependencies.
const KINDS: [Kind; 3] = [Kind::Normal, Kind::Development, Kind::Build];

/// The first table, dependency or field of a manifest that Cargo rejects. Invalid keys of `target` are not included.
#[derive(Drop)]
pub struct Rejected {
    /// The place of the table, dependency or field, if it is known.
    pub at: Option<Location>,
    /// The table, dependency or field, and why it is rejected.
    pub reason: String,
    /// True if a lint reports this error too: Cargo does not accept the name of a table or package at its place, or a
    /// value below a key of `target` is not a table.
    pub is_lint: bool,
}

impl Rejected {
    /// Returns the line of the table, dependency or field, if it is known.
    pub fn line(&self) -> Option<usize> {
        match self.at {
            Some(at) => Some(at.line),
            None => None,
        }
    }

    /// Formats the error of a manifest with this path as a line for people. Fails if an allocation fails.
    pub fn text(&self, alloc: Global, path: &str) -> Result<String, AllocError> {
        let reason = self.reason.as_str();
        match self.line() {
            Some(line) => format!(in alloc; "{path}:{line}: error: {reason}\n"),
            None => format!(in alloc; "{path}: error: {reason}\n"),
        }
    }
}

/// The table, dependency or field that Cargo rejects, and why.
#[derive(Drop)]
struct At {
    /// The keys that lead to it from the top of the manifest.
    path: Vec<String>,
    reason: String,
    is_lint: bool,
}

impl At {
    /// Returns what no lint reports.
    fn of(path: Vec<String>, reason: String) -> At {
        At {
            path,
            reason,
            is_lint: false,
        }
    }
}

/// Returns the keys that lead to the table of a kind, at the top or below a key of `target`.
fn path_of(
    alloc: Global,
    table: &Table,
    kind: Kind,
    key: Option<&str>,
) -> Result<Vec<String>, AllocError> {
    let mut path = Vec::new(alloc);
    if let Some(key) = key {
        path.push(String::from_str(alloc, "target")?)?;
        path.push(String::from_str(alloc, key)?)?;
    }
    let name = if table.contains_key(kind.table_name()) {
        kind.table_name()
    } else {
        kind.old_table_name()
    };
    path.push(String::from_str(alloc, name)?)?;
    Ok(path)
}

/// Returns the message on a dependency, in the table of this name.
fn on_dependency(
    alloc: Global,
    table: &str,
    name: &str,
    reason: &str,
) -> Result<String, AllocError> {
    let name = printable_excerpt(alloc, name)?;
    format!(in alloc; "{table}.{name}: {reason}")
}

/// A table that contains tables of dependencies: the manifest, or the value of a key of `target`.
#[derive(Clone, Copy, Drop)]
struct Place<'m> {
    table: &'m Table,
    key: Option<&'m str>,
    is_of_2024: bool,
}

/// Returns the first dependency of a table of this kind that Cargo rejects.
fn first_in(
    alloc: Global,
    place: Place<'_>,
    members: &Table,
    kind: Kind,
    inheriting: WorkspaceRoot<'_>,
) -> Result<Option<At>, AllocError> {
    for (name, value) in members.iter() {
        let name = name.as_str();
        let ruled = CheckedDependency {
            name,
            value,
            kind,
            is_of_2024: place.is_of_2024,
        };
        if let Some(reason) = rejection_reason(alloc, &ruled, inheriting)? {
            return Ok(Some(at_dependency(alloc, place, name, kind, reason.as_str())?));
        }
    }
    Ok(None)
}

/// Returns what Cargo rejects at a dependency.
fn at_dependency(
    alloc: Global,
    place: Place<'_>,
    name: &str,
    kind: Kind,
    reason: &str,
) -> Result<At, AllocError> {
    let table = format_table_name(alloc, place.key, kind.table_name())?;
    let reason = on_dependency(alloc, table.as_str(), name, reason)?;
    let mut path = path_of(alloc, place.table, kind, place.key)?;
    path.push(String::from_str(alloc, name)?)?;
    Ok(At::of(path, reason))
}

/// Returns the first thing that Cargo rejects in the table of dependencies of this kind.
fn rejected_of_kind(
    alloc: Global,
    place: Place<'_>,
    kind: Kind,
    inheriting: WorkspaceRoot<'_>,
) -> Result<Option<At>, AllocError> {
    let Some(value) = table_of(place.table, kind) else {
        return Ok(None);
    };
    let Some(members) = value.as_table() else {
        let name = format_table_name(alloc, place.key, kind.table_name())?;
        let path = path_of(alloc, place.table, kind, place.key)?;
        let reason = format!(in alloc; "{name} is not a table")?;
        return Ok(Some(At {
            path,
            reason,
            is_lint: place.key.is_some(),
        }));
    };
    first_in(alloc, place, members, kind, inheriting)
}

/// Returns the first thing that Cargo rejects in tables of dependencies, at the top or below a key of `target`.
fn rejected_in(
    alloc: Global,
    place: Place<'_>,
    inheriting: WorkspaceRoot<'_>,
) -> Result<Option<At>, AllocError> {
    for kind in KINDS {
        let found = rejected_of_kind(alloc, place, kind, inheriting)?;
        if found.is_some() {
            return Ok(found);
        }
    }
    Ok(None)
}

/// Returns the first thing that Cargo rejects below a key of `target`.
fn rejected_below(
    alloc: Global,
    manifest: &Table,
    inheriting: WorkspaceRoot<'_>,
) -> Result<Option<At>, AllocError> {
    let Some(Value::Table(targets)) = manifest.get("target") else {
        return Ok(None);
    };
    let is_of_2024 = is_of_2024(manifest);
    for (key, value) in targets.iter() {
        if let Some(table) = value.as_table() {
            let place = Place {
                table,
                key: Some(key.as_str()),
                is_of_2024,
            };
            let found = rejected_in(alloc, place, inheriting)?;
            if found.is_some() {
                return Ok(found);
            }
        }
    }
    Ok(None)
}

/// Returns the keys that the name of a table spells, if it is not cut.
fn keys_of(alloc: Global, subject: &str) -> Result<Vec<String>, AllocError> {
    match dotted_key(alloc, subject) {
        Ok((key, "")) => {
            let mut path = key.path;
            path.push(key.last)?;
            Ok(path)
        }
        Err(ParseError::OutOfMemory) => Err(AllocError),
        Ok(_) | Err(ParseError::At(_, _, _)) => Ok(Vec::new(alloc)),
    }
}

/// Returns the first table or package whose name Cargo does not take where it is.
fn rejected_place(alloc: Global, manifest: &Table) -> Result<Option<At>, AllocError> {
    for it in &table_diagnostics(alloc, manifest)? {
        if it.level == Level::Error {
            let subject = it.subject.as_str();
            let message = it.message.as_str();
            let reason = match it.children.helps.first() {
                Some(help) => format!(in alloc; "{subject}: {message}; {help}")?,
                None => format!(in alloc; "{subject}: {message}")?,
            };
            let path = keys_of(alloc, subject)?;
            return Ok(Some(At {
                path,
                reason,
                is_lint: true,
            }));
        }
    }
    Ok(None)
}

/// Returns whether the package says that it inherits its edition. What is inherited has been put in its place.
fn lacks_edition(manifest: &Table) -> bool {
    match manifest.get("package") {
        Some(Value::Table(package)) => match package.get("edition") {
            Some(edition) => edition.is_table(),
            None => false,
        },
        _ => false,
    }
}

/// Returns the edition of the package, if it says that it inherits one and the root has none.
fn rejected_edition(
    alloc: Global,
    manifest: &Table,
    inheriting: WorkspaceRoot<'_>,
) -> Result<Option<At>, AllocError> {
    if !inheriting.is_known || !lacks_edition(manifest) {
        return Ok(None);
    }
    let mut path = Vec::new(alloc);
    path.push(String::from_str(alloc, "package")?)?;
    path.push(String::from_str(alloc, "edition")?)?;
    let reason = "package.edition: there is no `workspace.package.edition` to inherit";
    Ok(Some(At::of(path, String::from_str(alloc, reason)?)))
}

/// Returns the first thing that Cargo rejects in a manifest.
fn first_rejected(
    alloc: Global,
    manifest: &Table,
    inheriting: WorkspaceRoot<'_>,
) -> Result<Option<At>, AllocError> {
    let found = rejected_edition(alloc, manifest, inheriting)?;
    if found.is_some() {
        return Ok(found);
    }
    let found = rejected_place(alloc, manifest)?;
    if found.is_some() {
        return Ok(found);
    }
    let place = Place {
        table: manifest,
        key: None,
        is_of_2024: is_of_2024(manifest),
    };
    let found = rejected_in(alloc, place, inheriting)?;
    if found.is_some() {
        return Ok(found);
    }
    rejected_below(alloc, manifest, inheriting)
}

/// Returns the first thing that Cargo rejects in a manifest, beside its keys of `target`: a table or package with a
/// name that Cargo does not take there, a table of dependencies that is none, a dependency, and an edition or a
/// dependency that can't be inherited. What is inherited has been put in its place. Returns `None` if there is nothing
/// of this.
///
/// Fails only if an allocation fails.
pub(crate) fn rejected_by_cargo(
    alloc: Global,
    document: &Document,
    inheriting: WorkspaceRoot<'_>,
) -> Result<Option<Rejected>, AllocError> {
    match first_rejected(alloc, &document.table, inheriting)? {
        Some(
            At {
                path,
                reason,
                is_lint,
            },
        ) => {
            let text = strip_byte_order_mark(document.text.as_str());
            let at = find_dotted_key(alloc, text, &path)?;
            Ok(Some(Rejected {
                at,
                reason,
                is_lint,
            }))
        }
        None => Ok(None),
    }
}
