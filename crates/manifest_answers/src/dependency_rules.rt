//! Decides whether Cargo rejects a dependency in a manifest, by Cargo's reference ("Specifying Dependencies").

use cargo_platform::printable_text;
use manifests::Kind;
use semver::VersionReq;
use std::alloc::{AllocError, Global};
use toml::{Table, Value};
use unicode_ident::{is_xid_continue, is_xid_start};
use workspaces::{first_mistyped_addition, first_mistyped_field, inheritance_error};

/// The fields of a dependency that are texts.
const TEXTS: [&str; 9] = [
    "version",
    "path",
    "git",
    "branch",
    "tag",
    "rev",
    "registry",
    "registry-index",
    "package",
];

/// The fields of a dependency that are booleans.
const FLAGS: [&str; 4] = ["optional", "default-features", "default_features", "public"];

/// The fields of a dependency that only count beside `git`.
const REFERENCES: [&str; 3] = ["branch", "tag", "rev"];

/// The fields of a dependency that only count beside `artifact`.
const OF_ARTIFACTS: [&str; 2] = ["lib", "target"];

/// Pairs of fields that exclude each other.
const EXCLUSIVE: [(&str, &str); 4] = [
    ("git", "path"),
    ("git", "registry"),
    ("git", "registry-index"),
    ("registry", "registry-index"),
];

/// The root that a manifest inherits from, as far as that is known.
#[derive(Clone, Copy, Drop)]
pub struct WorkspaceRoot<'w> {
    /// True if the workspace of the manifest was searched.
    pub is_known: bool,
    /// The table `workspace` of its root.
    pub workspace: Option<&'w Table>,
}

impl<'w> WorkspaceRoot<'w> {
    /// Returns the table `workspace.dependencies` of the root.
    fn shared(self) -> Option<&'w Table> {
        self.workspace?.get("dependencies")?.as_table()
    }
}

/// A dependency of a manifest, and what the rules about it depend on.
#[derive(Clone, Copy, Drop)]
pub struct CheckedDependency<'m> {
    pub name: &'m str,
    pub value: &'m Value,
    pub kind: Kind,
    /// True if the package is of the edition 2024.
    pub is_of_2024: bool,
}

/// Returns a message of a fixed text.
fn fixed(alloc: Global, text: &str) -> Result<Option<String>, AllocError> {
    Ok(Some(String::from_str(alloc, text)?))
}

/// Returns the message on an invalid version requirement.
fn bad_version_text(alloc: Global, error: semver::Error) -> Result<String, AllocError> {
    let error = format!(in alloc; "{error}")?;
    let error = printable_text(alloc, error.as_str())?;
    format!(in alloc; "the version requirement is invalid: {error}")
}

/// Returns why Cargo rejects a version requirement, or `None` if it takes it.
fn bad_version(alloc: Global, version: &str) -> Result<Option<String>, AllocError> {
    match VersionReq::parse(alloc, version) {
        Ok(_) => Ok(None),
        Err(error) => {
            if error == semver::Error::from(AllocError) {
                return Err(AllocError);
            }
            Ok(Some(bad_version_text(alloc, error)?))
        }
    }
}

/// Returns whether Cargo takes a text as a name of a package or registry.
fn is_name(text: &str) -> bool {
    let mut characters = text.chars();
    let starts = match characters.next() {
        Some(first) => is_xid_start(first) || first == '_',
        None => false,
    };
    starts && characters.all(|c| is_xid_continue(c) || c == '-')
}

/// Returns the message on a field that has another type than Cargo expects, if there is one.
fn bad_type(
    alloc: Global,
    mistyped: Option<(&'static str, &'static str)>,
) -> Result<Option<String>, AllocError> {
    match mistyped {
        Some((field, wanted)) => Ok(Some(format!(in alloc; "`{field}` is not {wanted}")?)),
        None => Ok(None),
    }
}

/// Returns the message on the first feature that Cargo rejects.
fn bad_features(alloc: Global, table: &Table) -> Result<Option<String>, AllocError> {
    let Some(Value::Array(features)) = table.get("features") else {
        return Ok(None);
    };
    for feature in features {
        let feature = feature.as_str().unwrap_or("");
        if feature.contains('/') {
            return fixed(alloc, "the name of a feature contains `/`");
        }
        if feature.starts_with("dep:") {
            return fixed(alloc, "the name of a feature begins with `dep:`");
        }
    }
    Ok(None)
}

/// Returns the message on the first two fields that exclude each other.
fn bad_pair(alloc: Global, table: &Table) -> Result<Option<String>, AllocError> {
    for (first, second) in EXCLUSIVE {
        if table.contains_key(first) && table.contains_key(second) {
            let message = format!(in alloc; "`{first}` and `{second}` exclude each other")?;
            return Ok(Some(message));
        }
    }
    Ok(None)
}

/// Returns the message on the first field among `branch`, `tag` and `rev` that is not the only one, or has no `git`
/// beside it.
fn bad_reference(alloc: Global, table: &Table) -> Result<Option<String>, AllocError> {
    let mut found: Option<&str> = None;
    for field in REFERENCES {
        if !table.contains_key(field) {
            continue;
        }
        if !table.contains_key("git") {
            return Ok(Some(format!(in alloc; "`{field}` has no `git` beside it")?));
        }
        if let Some(other) = found {
            return Ok(Some(format!(in alloc; "`{other}` and `{field}` exclude each other")?));
        }
        found = Some(field);
    }
    Ok(None)
}

/// Returns the message on the first field that has no effect without another one that is missing.
fn bad_alone(alloc: Global, table: &Table) -> Result<Option<String>, AllocError> {
    for field in OF_ARTIFACTS {
        if table.contains_key(field) && !table.contains_key("artifact") {
            return Ok(Some(format!(in alloc; "`{field}` has no `artifact` beside it")?));
        }
    }
    if table.contains_key("base") && !table.contains_key("path") {
        return fixed(alloc, "`base` has no `path` beside it");
    }
    bad_reference(alloc, table)
}

/// Returns whether a dependency says where its package comes from.
fn has_source(table: &Table) -> bool {
    table.contains_key("version") || table.contains_key("path") || table.contains_key("git")
}

/// Returns the message on a field with a text that Cargo rejects: a version requirement, or a name.
fn bad_text(alloc: Global, table: &Table) -> Result<Option<String>, AllocError> {
    for field in ["package", "registry"] {
        if let Some(Value::String(name)) = table.get(field) {
            if !is_name(name.as_str()) {
                return Ok(Some(format!(in alloc; "`{field}` is not a valid name")?));
            }
        }
    }
    match table.get("version") {
        Some(Value::String(version)) => bad_version(alloc, version.as_str()),
        _ => Ok(None),
    }
}

/// Returns the message on the first thing that Cargo rejects in a table that is a dependency, beside the types of its
/// fields.
fn bad_table(
    alloc: Global,
    ruled: &CheckedDependency<'_>,
    table: &Table,
) -> Result<Option<String>, AllocError> {
    if !has_source(table) {
        return fixed(
            alloc,
            "neither a version nor a path nor a Git repository is given",
        );
    }
    if ruled.kind == Kind::Development
        && table.get("optional").and_then(Value::as_bool) == Some(true)
    {
        return fixed(alloc, "a development dependency can't be optional");
    }
    if ruled.is_of_2024 && table.contains_key("default_features") {
        return fixed(
            alloc,
            "Cargo rejects `default_features` in edition 2024; write `default-features`",
        );
    }
    let found = bad_features(alloc, table)?;
    if found.is_some() {
        return Ok(found);
    }
    let found = bad_pair(alloc, table)?;
    if found.is_some() {
        return Ok(found);
    }
    let found = bad_alone(alloc, table)?;
    if found.is_some() {
        return Ok(found);
    }
    bad_text(alloc, table)
}

/// Returns why Cargo can't inherit a dependency that says `workspace = true`. If the workspace is not known, there is
/// no reason.
fn bad_inherited(
    alloc: Global,
    ruled: &CheckedDependency<'_>,
    table: &Table,
    inheriting: WorkspaceRoot<'_>,
) -> Result<Option<String>, AllocError> {
    if !inheriting.is_known {
        return Ok(None);
    }
    let found = bad_type(alloc, first_mistyped_addition(table))?;
    if found.is_some() {
        return Ok(found);
    }
    match inheritance_error(ruled.name, table, inheriting.shared(), ruled.is_of_2024) {
        Some(reason) => fixed(alloc, reason),
        None => Ok(None),
    }
}

/// Returns the message on the first thing that Cargo rejects in a table that is a dependency.
fn bad_fields(
    alloc: Global,
    ruled: &CheckedDependency<'_>,
    table: &Table,
    inheriting: WorkspaceRoot<'_>,
) -> Result<Option<String>, AllocError> {
    match table.get("workspace").and_then(Value::as_bool) {
        Some(true) => bad_inherited(alloc, ruled, table, inheriting),
        Some(false) => fixed(alloc, "`workspace` can't be false"),
        None => {
            let found = bad_type(alloc, first_mistyped_field(table, &TEXTS, &FLAGS))?;
            if found.is_some() {
                return Ok(found);
            }
            bad_table(alloc, ruled, table)
        }
    }
}

/// Returns why Cargo rejects a dependency, as a phrase. Returns `None` if it takes it. What the root of its workspace
/// declares has been put in place of what it inherits.
///
/// Fails only if an allocation fails.
pub fn rejection_reason(
    alloc: Global,
    ruled: &CheckedDependency<'_>,
    inheriting: WorkspaceRoot<'_>,
) -> Result<Option<String>, AllocError> {
    if !is_name(ruled.name) {
        return fixed(alloc, "this is not a valid name of a package");
    }
    match ruled.value {
        Value::String(version) => bad_version(alloc, version.as_str()),
        Value::Table(table) => bad_fields(alloc, ruled, table, inheriting),
        _ => fixed(alloc, "it is neither a version nor a table"),
    }
}
