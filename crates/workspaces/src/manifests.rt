//! Manifests as texts and tables, and paths relative to each other.

ghost use Rattle.std.specs.Prelude.{IfOk};
ghost use Rattle.std.specs.Option.{option_map};
ghost use Rattle.toml.specs.View.{table_view};
ghost use Rattle.workspaces.specs.Documents.{SpellsTable};

use crate::patterns::plain_components;
use input_limits::strip_byte_order_mark;
use std::alloc::{AllocError, Global};
use std::io::ErrorKind;
use std::rt::Files;
use std::{fs, io};
use toml::{Table, Value, table_from_str};

/// The file name of a manifest.
pub const MANIFEST: &str = "Cargo.toml";

/// Returns the path to which a path leads from a folder. An absolute path is returned unchanged. The folder `""` is the
/// current one.
///
/// Fails only if an allocation fails.
pub fn join_path(alloc: Global, folder: &str, path: &str) -> Result<String, AllocError> {
    if folder.is_empty() || path.starts_with('/') {
        return String::from_str(alloc, path);
    }
    if folder.ends_with('/') {
        return format!(in alloc; "{folder}{path}");
    }
    format!(in alloc; "{folder}/{path}")
}

/// Returns the path of the manifest in the folder to which a path leads from another folder.
pub fn join_manifest_path(alloc: Global, folder: &str, path: &str) -> Result<String, AllocError> {
    let folder = join_path(alloc, folder, path)?;
    join_path(alloc, folder.as_str(), MANIFEST)
}

/// Returns the path of a name in the folder that is `count` folders above the current one.
pub fn ancestor_path(alloc: Global, count: usize, path: &str) -> Result<String, AllocError> {
    let mut text = String::new(alloc);
    for _ in 0..count {
        text.push_str("../")?;
    }
    text.push_str(path)?;
    Ok(text)
}

/// Returns the path without redundant components: `.`, empty ones, and `..` with the one before it.
pub fn simplified_path(alloc: Global, path: &str) -> Result<String, AllocError> {
    let mut text = String::new(alloc);
    for component in &plain_components(alloc, path)? {
        if !text.is_empty() || path.starts_with('/') {
            text.push('/')?;
        }
        text.push_str(component)?;
    }
    Ok(text)
}

/// Returns how many components of a path are `..`, before another one comes.
fn steps_up(path: &str) -> usize {
    let mut count: usize = 0;
    for component in path.split('/') {
        if component != ".." {
            break;
        }
        count = count.saturating_add(1);
    }
    count
}

/// Returns how many names at the beginning of two lists are the same.
fn shared_names(first: &[&str], second: &[&str]) -> usize {
    let mut count: usize = 0;
    for (name, other) in first.iter().zip(second) {
        if *name != *other {
            break;
        }
        count = count.saturating_add(1);
    }
    count
}

/// Appends a component to a path.
fn push_component(path: &mut String, component: &str) -> Result<(), AllocError> {
    if !path.is_empty() && !path.ends_with('/') {
        path.push('/')?;
    }
    path.push_str(component)
}

/// Returns the path of these components that begins so many folders above.
fn joined_above(alloc: Global, count: usize, components: &[&str]) -> Result<String, AllocError> {
    let mut path = ancestor_path(alloc, count, "")?;
    for component in components {
        push_component(&mut path, component)?;
    }
    Ok(path)
}

/// Returns a path without the folders that it leaves by `..` and enters again at once. It starts from the folder with
/// the absolute path `folder`.
///
/// Fails only if an allocation fails.
pub fn simplified_from(alloc: Global, folder: &str, path: &str) -> Result<String, AllocError> {
    let up = steps_up(path);
    let names: Vec<&str> = folder.split('/').collect(alloc)?;
    if up == 0 || names.len() < up {
        return String::from_str(alloc, path);
    }
    let components: Vec<&str> = path.split('/').collect(alloc)?;
    let below = components.get(up..).unwrap_or(&[]);
    let left = names.get(names.len().saturating_sub(up)..).unwrap_or(&[]);
    let entered = below.get(..below.len().saturating_sub(1)).unwrap_or(&[]);
    let count = shared_names(left, entered);
    let rest = below.get(count..).unwrap_or(&[]);
    joined_above(alloc, up.saturating_sub(count), rest)
}

/// Returns the folder of a file.
pub fn folder_of(file: &str) -> &str {
    match file.rsplit_once('/') {
        Some(("", _)) => "/",
        Some((folder, _)) => folder,
        None => "",
    }
}

/// Returns what a call on files returned, or `None` if it failed. Fails only if an allocation fails.
pub fn if_successful<T>(given: io::Result<T>) -> Result<Option<T>, AllocError> {
    match given {
        Ok(given) => Ok(Some(given)),
        Err(error) => {
            if error.kind() == ErrorKind::OutOfMemory {
                return Err(AllocError);
            }
            Ok(None)
        }
    }
}

/// Returns whether a folder is at the path.
pub fn is_folder<R: Files + AllocGlobal>(rt: &R, path: &str) -> Result<bool, AllocError> {
    let path = if path.is_empty() { "." } else { path };
    match if_successful(fs::metadata(rt, path))? {
        Some(found) => Ok(found.is_dir()),
        None => Ok(false),
    }
}

/// Returns whether a file is at the path.
pub fn is_file<R: Files + AllocGlobal>(rt: &R, path: &str) -> Result<bool, AllocError> {
    match if_successful(fs::metadata(rt, path))? {
        Some(found) => Ok(found.is_file()),
        None => Ok(false),
    }
}

/// Returns the table of a TOML text, or `None` if the text is not TOML.
pub fn parse_table(alloc: Global, text: &str) -> Result<Option<Table>, AllocError>
    ensures { IfOk result (λ found. SpellsTable text.now (option_map table_view found)) }
{
    match table_from_str(alloc, strip_byte_order_mark(text)) {
        Ok(table) => Ok(Some(table)),
        Err(error) => {
            if error.is_memory() {
                return Err(AllocError);
            }
            Ok(None)
        }
    }
}

/// Returns the table at a key of a table.
pub fn table_in<'a>(table: &'a Table, key: &str) -> Option<&'a Table> {
    match table.get(key) {
        Some(value) => value.as_table(),
        None => None,
    }
}

/// Returns the text at a key of a table.
pub fn text_in<'a>(table: &'a Table, key: &str) -> Option<&'a str> {
    match table.get(key) {
        Some(value) => value.as_str(),
        None => None,
    }
}

/// Puts a value at a key of a table, in place of the one that is there.
pub fn put(alloc: Global, table: &mut Table, key: &str, value: Value) -> Result<(), AllocError> {
    let _before = table.insert(String::from_str(alloc, key)?, value)?;
    Ok(())
}

/// Returns the texts of an array at a key of a table.
pub fn texts_in<'a>(
    alloc: Global,
    table: &'a Table,
    key: &str,
) -> Result<Vec<&'a str>, AllocError> {
    let mut texts = Vec::new(alloc);
    if let Some(Value::Array(values)) = table.get(key) {
        for value in values {
            if let Some(text) = value.as_str() {
                texts.push(text)?;
            }
        }
    }
    Ok(texts)
}

/// Returns the name of the package of a manifest.
pub fn package_name(manifest: &Table) -> Option<&str> {
    text_in(table_in(manifest, "package")?, "name")
}
