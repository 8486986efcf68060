//! The lints and the `rust-version` that packages inherit from the root of their workspace, by Cargo's reference
//! ("Workspaces": the `package` table and the `lints` table).

use crate::documents::Document;
use crate::manifests::{put, table_in, text_in};
use std::alloc::{AllocError, Global};
use toml::{Table, Value};

/// The table of lints, in a package and in the table `workspace`.
const LINTS: &str = "lints";

/// The field with the oldest rustc that builds a package.
const RUST_VERSION: &str = "rust-version";

/// The values of a workspace's root that packages can inherit.
#[derive(Drop)]
pub struct InheritableFields {
    /// The value of `workspace.lints`.
    lints: Option<Value>,
    /// The value of `lints` of the root's own package.
    own_lints: Option<Value>,
    /// The text of `workspace.package.rust-version`.
    rust_version: Option<String>,
    /// The root has a table `workspace`.
    pub is_workspace: bool,
}

/// Copies the value of a field.
fn field_of(table: Option<&Table>, field: &str) -> Result<Option<Value>, AllocError> {
    let Some(table) = table else {
        return Ok(None);
    };
    match table.get(field) {
        Some(value) => Ok(Some(value.clone()?)),
        None => Ok(None),
    }
}

/// Returns the text of `rust-version` in the table `workspace.package`.
fn workspace_rust_version(workspace: Option<&Table>) -> Option<&str> {
    text_in(table_in(workspace?, "package")?, RUST_VERSION)
}

impl InheritableFields {
    /// Returns what there is to inherit without a root.
    pub fn none() -> InheritableFields {
        InheritableFields {
            lints: None,
            own_lints: None,
            rust_version: None,
            is_workspace: false,
        }
    }

    /// Returns what the manifest of a root has for packages to inherit.
    ///
    /// Fails only if an allocation fails.
    pub fn of(alloc: Global, root: &Document) -> Result<InheritableFields, AllocError> {
        let workspace = root.workspace();
        let rust_version = match workspace_rust_version(workspace) {
            Some(text) => Some(String::from_str(alloc, text)?),
            None => None,
        };
        Ok(InheritableFields {
            lints: field_of(workspace, LINTS)?,
            own_lints: field_of(root.table_if_mentioned(LINTS), LINTS)?,
            rust_version,
            is_workspace: workspace.is_some(),
        })
    }

    /// Puts the lints of the root in place of those of a manifest that inherits lints, if the root has any.
    ///
    /// Fails only if an allocation fails.
    pub fn put_lints(&self, alloc: Global, manifest: &mut Table) -> Result<(), AllocError> {
        if inherits_lints(manifest) {
            if let Some(lints) = &self.lints {
                put(alloc, manifest, LINTS, lints.clone()?)?;
            }
        }
        Ok(())
    }

    /// Returns the text of `rust-version` of a manifest's package: its own or, if it says
    /// `rust-version.workspace = true`, the root's.
    pub fn rust_version_of<'a>(&'a self, manifest: &'a Table) -> Option<&'a str> {
        let package = table_in(manifest, "package")?;
        if !is_inherited(table_in(package, RUST_VERSION)) {
            return text_in(package, RUST_VERSION);
        }
        match &self.rust_version {
            Some(text) => Some(text.as_str()),
            None => None,
        }
    }

    /// Returns the lints that hold outside of packages: those of the table `workspace` or, without any, those of the
    /// root's own package.
    ///
    /// Fails only if an allocation fails.
    pub fn lints_outside_packages(&self) -> Result<Option<Value>, AllocError> {
        let lints = match &self.lints {
            Some(lints) => lints,
            None => match &self.own_lints {
                Some(lints) => lints,
                None => return Ok(None),
            },
        };
        Ok(Some(lints.clone()?))
    }
}

/// Returns whether a field says `workspace = true`.
pub(crate) fn is_inherited(field: Option<&Table>) -> bool {
    match field {
        Some(field) => match field.get("workspace") {
            Some(value) => value.as_bool() == Some(true),
            None => false,
        },
        None => false,
    }
}

/// Returns whether a manifest inherits the lints of the root: `lints.workspace = true`.
pub fn inherits_lints(manifest: &Table) -> bool {
    is_inherited(table_in(manifest, LINTS))
}
