//! The folders in which path dependencies of a manifest lie.

use crate::lint_inheritance::is_inherited;
use crate::manifests::{table_in, text_in};
use std::alloc::{AllocError, Global};
use toml::{Table, Value};

/// The names of the tables of dependencies, their former names included.
pub const TABLES: [&str; 5] = [
    "dependencies",
    "dev-dependencies",
    "dev_dependencies",
    "build-dependencies",
    "build_dependencies",
];

/// A folder of a path dependency.
#[derive(Clone, Copy, Drop)]
pub struct PathDependency<'a> {
    pub path: &'a str,
    /// Whether the path begins at the root of the workspace, and not at the manifest's own folder.
    pub is_of_root: bool,
}

/// Returns the path of a dependency, if it has one: its own or, with `workspace = true`, the one in the root's table.
fn path_of<'a>(
    name: &str,
    value: &'a Value,
    shared: Option<&'a Table>,
) -> Option<PathDependency<'a>> {
    let table = value.as_table()?;
    let is_of_root = is_inherited(Some(table));
    let table = if is_of_root {
        table_in(shared?, name)?
    } else {
        table
    };
    let path = text_in(table, "path")?;
    Some(PathDependency { path, is_of_root })
}

/// Adds the path dependencies of the tables in a table.
fn add_of<'a>(
    found: &mut Vec<PathDependency<'a>>,
    table: &'a Table,
    shared: Option<&'a Table>,
) -> Result<(), AllocError> {
    for name in &TABLES {
        if let Some(dependencies) = table_in(table, name) {
            for (name, value) in dependencies.iter() {
                if let Some(path) = path_of(name.as_str(), value, shared) {
                    found.push(path)?;
                }
            }
        }
    }
    Ok(())
}

/// Returns the path dependencies of a manifest, also those under keys of `target`. `shared` is `workspace.dependencies`
/// of the root.
pub fn path_dependencies<'a>(
    alloc: Global,
    manifest: &'a Table,
    shared: Option<&'a Table>,
) -> Result<Vec<PathDependency<'a>>, AllocError> {
    let mut found = Vec::new(alloc);
    add_of(&mut found, manifest, shared)?;
    if let Some(targets) = table_in(manifest, "target") {
        for (_, value) in targets.iter() {
            if let Some(table) = value.as_table() {
                add_of(&mut found, table, shared)?;
            }
        }
    }
    Ok(found)
}
