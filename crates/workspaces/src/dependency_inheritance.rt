//! The dependencies and the edition that a package inherits from the root of its workspace, by Cargo's reference
//! ("Workspaces": the tables `package` and `dependencies`).

use crate::dependencies::TABLES;
use crate::lint_inheritance::is_inherited;
use crate::manifests::{put, table_in, text_in};
use std::alloc::{AllocError, Global};
use toml::{Table, Value};

/// The fields of a dependency that a package adds to what the root declares.
const FEATURES: &str = "features";

/// The names of the field that says whether a dependency has its default features.
const DEFAULT_FEATURES: [&str; 2] = ["default-features", "default_features"];

/// The fields that are booleans among those that a package adds to a dependency.
const ADDED_FLAGS: [&str; 3] = ["default-features", "default_features", "optional"];

/// The fields that the root's dependencies can't have.
const OWN: [&str; 2] = ["optional", "public"];

/// Returns the value of `default-features`, or of its former name.
fn default_features(table: &Table) -> Option<&Value> {
    let [name, former] = DEFAULT_FEATURES;
    match table.get(name) {
        Some(value) => Some(value),
        None => table.get(former),
    }
}

/// Returns whether a value is true, or false, as this flag says.
fn says(value: Option<&Value>, flag: bool) -> bool {
    match value {
        Some(value) => value.as_bool() == Some(flag),
        None => false,
    }
}

/// Returns whether a value is present that is no boolean.
fn is_no_flag(value: Option<&Value>) -> bool {
    match value {
        Some(value) => value.as_bool().is_none(),
        None => false,
    }
}

/// Returns whether a value is present that is no string.
fn is_no_text(value: Option<&Value>) -> bool {
    match value {
        Some(value) => value.as_str().is_none(),
        None => false,
    }
}

/// Returns whether a value is an array of texts.
fn is_texts(value: &Value) -> bool {
    match value.as_array() {
        Some(values) => values.iter().all(|value| value.as_str().is_some()),
        None => false,
    }
}

/// Returns the first field of a dependency's table that lacks the type Cargo expects, with that type. `texts` are the
/// fields that are strings, and `flags` those that are booleans; `features` is an array of strings.
pub fn first_mistyped_field(
    table: &Table,
    texts: &[&'static str],
    flags: &[&'static str],
) -> Option<(&'static str, &'static str)> {
    for field in texts {
        if is_no_text(table.get(*field)) {
            return Some((field, "a string"));
        }
    }
    for field in flags {
        if is_no_flag(table.get(*field)) {
            return Some((field, "a boolean"));
        }
    }
    match table.get(FEATURES) {
        Some(features) if !is_texts(features) => Some((FEATURES, "an array of strings")),
        _ => None,
    }
}

/// Returns the first field that a package adds to a dependency which it inherits and that has another type than Cargo
/// expects, with the expected type.
pub fn first_mistyped_addition(own: &Table) -> Option<(&'static str, &'static str)> {
    first_mistyped_field(own, &[], &ADDED_FLAGS)
}

/// Returns why Cargo rejects a dependency of the root, which is a table.
fn unshareable(shared: &Table) -> Option<&'static str> {
    let [optional, public] = OWN;
    if says(shared.get(optional), true) {
        return Some(
            "it is optional in `workspace.dependencies`, where no dependency can be optional",
        );
    }
    if says(shared.get(public), true) {
        return Some("it is public in `workspace.dependencies`, where no dependency can be public");
    }
    None
}

/// Returns whether a package turns off default features that the root leaves on.
fn overrides_defaults(own: &Table, shared: &Value) -> bool {
    if !says(default_features(own), false) {
        return false;
    }
    match shared.as_table() {
        Some(shared) => !says(default_features(shared), false),
        None => true,
    }
}

/// Returns why Cargo rejects a dependency with `workspace = true` and these other fields, or `None` if Cargo accepts it.
/// The fields have the types that Cargo expects. `shared` is the table `workspace.dependencies` of the root.
pub fn inheritance_error(
    name: &str,
    own: &Table,
    shared: Option<&Table>,
    is_of_2024: bool,
) -> Option<&'static str> {
    let Some(shared) = shared else {
        return Some("there is no table `workspace.dependencies` from which to inherit it");
    };
    let Some(value) = shared.get(name) else {
        return Some("`workspace.dependencies` does not contain it");
    };
    if is_of_2024 && overrides_defaults(own, value) {
        return Some(
            "`default-features = false` can't override the default features of the workspace",
        );
    }
    unshareable(value.as_table()?)
}

/// Returns what the root declares of a dependency, as a table. The root itself inherits nothing.
fn declared(alloc: Global, shared: &Value) -> Result<Table, AllocError> {
    match shared {
        Value::Table(table) => {
            let mut table = table.clone()?;
            let _unread = table.remove("workspace");
            Ok(table)
        }
        value => {
            let mut table = Table::new(alloc);
            put(alloc, &mut table, "version", value.clone()?)?;
            Ok(table)
        }
    }
}

/// Appends the values of an array.
fn add_values(values: &mut Vec<Value>, array: Option<&Value>) -> Result<(), AllocError> {
    if let Some(Value::Array(array)) = array {
        for value in array {
            values.push(value.clone()?)?;
        }
    }
    Ok(())
}

/// Returns the features of a dependency: those that the root declares, and then those that the package adds.
fn features_of(alloc: Global, declared: &Table, own: &Table) -> Result<Value, AllocError> {
    let mut features = Vec::new(alloc);
    add_values(&mut features, declared.get(FEATURES))?;
    add_values(&mut features, own.get(FEATURES))?;
    Ok(Value::Array(features))
}

/// Returns a dependency that a package inherits: what the root declares, with the features of both, with the default
/// features if one of both asks for them, and optional if the package says so.
fn joined(alloc: Global, own: &Table, shared: &Value) -> Result<Value, AllocError> {
    let mut table = declared(alloc, shared)?;
    if own.get(FEATURES).is_some() {
        let features = features_of(alloc, &table, own)?;
        put(alloc, &mut table, FEATURES, features)?;
    }
    if says(default_features(own), true) {
        put(alloc, &mut table, "default-features", Value::Boolean(true))?;
    }
    if let Some(optional) = own.get("optional") {
        put(alloc, &mut table, "optional", optional.clone()?)?;
    }
    Ok(Value::Table(table))
}

/// Returns the dependency that a package inherits under a name, if it inherits one that Cargo accepts.
fn inherited(
    alloc: Global,
    name: &str,
    value: &Value,
    shared: &Table,
    is_of_2024: bool,
) -> Result<Option<Value>, AllocError> {
    let Some(own) = value.as_table() else {
        return Ok(None);
    };
    if !is_inherited(Some(own)) || first_mistyped_addition(own).is_some() {
        return Ok(None);
    }
    if inheritance_error(name, own, Some(shared), is_of_2024).is_some() {
        return Ok(None);
    }
    match shared.get(name) {
        Some(shared) => Ok(Some(joined(alloc, own, shared)?)),
        None => Ok(None),
    }
}

/// Puts the dependencies that are inherited in place of those of a table that say so.
fn put_each(
    alloc: Global,
    members: &mut Table,
    shared: &Table,
    is_of_2024: bool,
) -> Result<(), AllocError> {
    for (name, value) in members.iter_mut() {
        if let Some(found) = inherited(alloc, name.as_str(), value, shared, is_of_2024)? {
            *value = found;
        }
    }
    Ok(())
}

/// Puts the dependencies that are inherited in place of those that say so, in each table of dependencies.
fn put_in(
    alloc: Global,
    table: &mut Table,
    shared: &Table,
    is_of_2024: bool,
) -> Result<(), AllocError> {
    for name in TABLES {
        if let Some(Value::Table(members)) = table.get_mut(name) {
            put_each(alloc, members, shared, is_of_2024)?;
        }
    }
    Ok(())
}

/// Puts the dependencies that are inherited in place of those that say so, below each key of `target`.
fn put_below(
    alloc: Global,
    targets: &mut Table,
    shared: &Table,
    is_of_2024: bool,
) -> Result<(), AllocError> {
    for (_, value) in targets.iter_mut() {
        if let Value::Table(table) = value {
            put_in(alloc, table, shared, is_of_2024)?;
        }
    }
    Ok(())
}

/// Returns whether the package of a manifest has the edition 2024. An edition that it inherits counts if it has been
/// put in its place.
pub fn is_of_2024(manifest: &Table) -> bool {
    match table_in(manifest, "package") {
        Some(package) => text_in(package, "edition") == Some("2024"),
        None => false,
    }
}

/// Returns the edition that the root has for packages to inherit.
fn shared_edition(workspace: &Table) -> Option<&Value> {
    table_in(workspace, "package")?.get("edition")
}

/// Puts the edition of the root in place of that of a package that inherits it.
fn put_edition(alloc: Global, package: &mut Table, edition: &Value) -> Result<(), AllocError> {
    if is_inherited(table_in(package, "edition")) {
        put(alloc, package, "edition", edition.clone()?)?;
    }
    Ok(())
}

/// Returns whether one of these dependencies says `workspace = true`.
fn some_inherited(members: &Table) -> bool {
    for (_, value) in members.iter() {
        if is_inherited(value.as_table()) {
            return true;
        }
    }
    false
}

/// Returns whether a table of dependencies in a table has one that says `workspace = true`.
fn some_inherited_in(table: &Table) -> bool {
    for name in TABLES {
        if let Some(members) = table_in(table, name) {
            if some_inherited(members) {
                return true;
            }
        }
    }
    false
}

/// Returns whether some dependency below a key of `target` says `workspace = true`.
fn some_inherited_below(manifest: &Table) -> bool {
    let Some(targets) = table_in(manifest, "target") else {
        return false;
    };
    for (_, value) in targets.iter() {
        if let Some(table) = value.as_table() {
            if some_inherited_in(table) {
                return true;
            }
        }
    }
    false
}

/// Returns whether the package of a manifest inherits its edition.
fn inherits_edition(manifest: &Table) -> bool {
    match table_in(manifest, "package") {
        Some(package) => is_inherited(table_in(package, "edition")),
        None => false,
    }
}

/// Returns whether a manifest says that it inherits its edition or a dependency.
pub fn inherits(manifest: &Table) -> bool {
    inherits_edition(manifest) || some_inherited_in(manifest) || some_inherited_below(manifest)
}

/// Puts what a manifest inherits from the table `workspace` of a root in the places that say so: the edition of its
/// package, and its dependencies. What Cargo rejects stays as it is.
///
/// Fails only if an allocation fails.
pub fn put_inherited(
    alloc: Global,
    manifest: &mut Table,
    workspace: &Table,
) -> Result<(), AllocError> {
    if let Some(edition) = shared_edition(workspace) {
        if let Some(Value::Table(package)) = manifest.get_mut("package") {
            put_edition(alloc, package, edition)?;
        }
    }
    let is_of_2024 = is_of_2024(manifest);
    let Some(shared) = table_in(workspace, "dependencies") else {
        return Ok(());
    };
    put_in(alloc, manifest, shared, is_of_2024)?;
    if let Some(Value::Table(targets)) = manifest.get_mut("target") {
        put_below(alloc, targets, shared, is_of_2024)?;
    }
    Ok(())
}
