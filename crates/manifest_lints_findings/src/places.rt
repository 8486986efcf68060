//! Tables that are meant for targets, and that Cargo reads as something else or not at all.

use crate::codes::Level;
use crate::lints::Lint;
use crate::meant::near;
use crate::notes_and_helps::Children;
use cargo_platform::printable_excerpt;
use known_targets::KnownTarget;
use manifests::key_locations::key_path;
use std::alloc::{AllocError, Global};
use toml::{Table, Value};
use toml_spans::Span;

/// The part of a manifest that is at fault.
#[derive(Drop)]
pub enum Site {
    /// The name at this path, as `key_path` writes it.
    Named(String),
    /// A field of a key of `target`: the key, and the field.
    Field(String, String),
    /// The key that the diagnostic is about, or the part of it with this span, in bytes.
    InKey(Option<Span>),
}

/// A diagnostic on a table, or on a part of a table, that Cargo may not read as its author expects.
#[derive(Drop)]
pub struct TableDiagnostic {
    /// The lint.
    pub lint: Lint,
    pub level: Level,
    /// The table, as its header spells it.
    pub subject: String,
    /// The key of `target` that the diagnostic is about, if there is one. `subject` is then the text before the key.
    pub key: Option<String>,
    /// What is at fault.
    pub site: Site,
    /// What is wrong, in a phrase.
    pub message: String,
    /// The notes and helps.
    pub children: Children,
    /// A text that can replace the whole key, or the name at fault if there is no key.
    pub suggestion: Option<&'static str>,
}

/// The name of the table that contains the keys.
const TARGET: &str = "target";

/// The names of a package's dependency tables.
const TABLES: [&str; 3] = ["dependencies", "dev-dependencies", "build-dependencies"];

/// Names with underscores that Cargo knows, and the names to use in place of them.
const UNDERSCORES: [(&str, &str); 2] = [
    ("dev_dependencies", "dev-dependencies"),
    ("build_dependencies", "build-dependencies"),
];

/// Returns whether a key of a table is written as one of `target` is.
fn is_key(key: &str) -> bool {
    key.starts_with("cfg(") || KnownTarget::by_name(key).is_some()
}

/// Returns whether a value is a table that contains a key of `target`.
fn has_keys(value: &Value) -> bool {
    match value.as_table() {
        Some(table) => table.keys().any(|key| is_key(key.as_str())),
        None => false,
    }
}

/// Returns the diagnostic on a table of this name, which Cargo does not read.
fn unread(
    alloc: Global,
    name: &str,
    path: String,
    help: String,
) -> Result<TableDiagnostic, AllocError> {
    let name = printable_excerpt(alloc, name)?;
    Ok(TableDiagnostic {
        lint: Lint::Misplaced,
        level: Level::Warning,
        subject: name,
        key: None,
        site: Site::Named(path),
        message: String::from_str(alloc, "Cargo does not read this table")?,
        children: Children::of_help(alloc, help)?,
        suggestion: None,
    })
}

/// Adds the diagnostic on a table of this name at the top level, which Cargo does not read.
fn add_unread(
    alloc: Global,
    name: &str,
    meant: &str,
    found: &mut Vec<TableDiagnostic>,
) -> Result<(), AllocError> {
    let path = key_path(alloc, &[name])?;
    let meant = printable_excerpt(alloc, meant)?;
    let help = format!(in alloc; "did you mean `{meant}`?")?;
    found.push(unread(alloc, name, path, help)?)?;
    Ok(())
}

/// Adds the diagnostic on a name at the top level, if it is that of a table that Cargo does not read.
fn add_of_name(
    alloc: Global,
    name: &str,
    value: &Value,
    found: &mut Vec<TableDiagnostic>,
) -> Result<(), AllocError> {
    if name.starts_with("cfg(") {
        let meant = format!(in alloc; "target.'{name}'")?;
        return add_unread(alloc, name, meant.as_str(), found);
    }
    if KnownTarget::by_name(name).is_some() && value.is_table() {
        let meant = format!(in alloc; "target.{name}")?;
        return add_unread(alloc, name, meant.as_str(), found);
    }
    if name != "target" && near(name, &["target"]).is_some() && has_keys(value) {
        return add_unread(alloc, name, "target", found);
    }
    Ok(())
}

/// Returns the value of `target` in the table `part` of a manifest.
fn target_in<'a>(manifest: &'a Table, part: &str) -> Option<&'a Value> {
    match manifest.get(part) {
        Some(Value::Table(table)) => table.get("target"),
        _ => None,
    }
}

/// Adds the diagnostic on `target` in the table `part` of a manifest, which Cargo does not read.
fn add_inside(
    alloc: Global,
    part: &str,
    found: &mut Vec<TableDiagnostic>,
) -> Result<(), AllocError> {
    let path = key_path(alloc, &[part, "target"])?;
    let name = format!(in alloc; "{part}.target")?;
    let help = format!(in alloc;
        "move `target` out of `{part}`, to the top level of the manifest"
    )?;
    found.push(unread(alloc, name.as_str(), path, help)?)?;
    Ok(())
}

/// Adds the diagnostics on tables at the top level of a manifest, or of a configuration, that Cargo does not read.
/// Fails if memory is refused.
pub fn add_top_level_diagnostics(
    alloc: Global,
    manifest: &Table,
    found: &mut Vec<TableDiagnostic>,
) -> Result<(), AllocError> {
    for (name, value) in manifest.iter() {
        add_of_name(alloc, name.as_str(), value, found)?;
    }
    if target_in(manifest, "workspace").is_some() {
        add_inside(alloc, "workspace", found)?;
    }
    if let Some(target) = target_in(manifest, "package") {
        if has_keys(target) {
            add_inside(alloc, "package", found)?;
        }
    }
    Ok(())
}

/// A dependency table in which a key of `target` may be defined.
#[derive(Clone, Copy, Drop)]
struct PackageTable<'a> {
    /// The name of the table in `workspace`, or at the top level of the manifest.
    name: &'static str,
    is_of_workspace: bool,
    table: &'a Table,
}

impl<'a> PackageTable<'a> {
    /// Returns the table as its header spells it.
    fn shown(&self, alloc: Global) -> Result<String, AllocError> {
        let name = self.name;
        if self.is_of_workspace {
            return format!(in alloc; "workspace.{name}");
        }
        String::from_str(alloc, name)
    }

    /// Returns the help to write a key of `target` in its place. `workspace.dependencies` is for all packages of the
    /// workspace, and each of them has its own keys.
    fn help_for(&self, alloc: Global, key: &str) -> Result<String, AllocError> {
        let key = printable_excerpt(alloc, key)?;
        let name = self.name;
        if self.is_of_workspace {
            return format!(in alloc; "write `target.'{key}'.{name}` in the manifests of packages");
        }
        format!(in alloc; "did you mean `target.'{key}'.{name}`?")
    }

    /// Returns the diagnostic on one of its members: the key of `target`, or a table `target` that contains it.
    fn diagnostic(
        &self,
        alloc: Global,
        member: &str,
        key: &str,
        level: Level,
    ) -> Result<TableDiagnostic, AllocError> {
        let table = self.shown(alloc)?;
        let shown = printable_excerpt(alloc, member)?;
        let (subject, message) = if member == TARGET {
            let message = "Cargo takes `target` for the name of a package";
            (format!(in alloc; "{table}.{shown}")?, message)
        } else {
            let message = "Cargo rejects this package name";
            (format!(in alloc; "{table}.'{shown}'")?, message)
        };
        Ok(TableDiagnostic {
            lint: Lint::Misplaced,
            level,
            subject,
            key: None,
            site: Site::Named(path_of_member(alloc, self.name, member, self.is_of_workspace)?),
            message: String::from_str(alloc, message)?,
            children: Children::of_help(alloc, self.help_for(alloc, key)?)?,
            suggestion: None,
        })
    }
}

/// Returns the path of a member of the dependency table of this name, at the top level or in `workspace`.
fn path_of_member(
    alloc: Global,
    name: &str,
    member: &str,
    is_of_workspace: bool,
) -> Result<String, AllocError> {
    if is_of_workspace {
        return key_path(alloc, &["workspace", name, member]);
    }
    key_path(alloc, &[name, member])
}

/// Returns whether the table of a dependency says where its package comes from.
fn has_source(dependency: &Table) -> bool {
    for field in ["version", "path", "git", "workspace"] {
        if dependency.get(field).is_some() {
            return true;
        }
    }
    false
}

/// Returns the level of the diagnostic on a table `target` that Cargo takes for a package. Cargo rejects a package
/// without a source, but in `workspace.dependencies` only if a member inherits it.
fn level_of_package(within: &PackageTable<'_>, package: &Table) -> Level {
    if within.is_of_workspace || has_source(package) {
        Level::Warning
    } else {
        Level::Error
    }
}

/// Adds the diagnostic on a table `target` with keys in a dependency table. Cargo takes it for a package.
fn add_as_package(
    alloc: Global,
    within: &PackageTable<'_>,
    package: &Table,
    found: &mut Vec<TableDiagnostic>,
) -> Result<(), AllocError> {
    for (key, _) in package.iter() {
        if is_key(key.as_str()) {
            let level = level_of_package(within, package);
            found.push(within.diagnostic(alloc, TARGET, key.as_str(), level)?)?;
            return Ok(());
        }
    }
    Ok(())
}

/// Adds the diagnostics on keys of `target` in a dependency table, where Cargo takes them for names of packages.
fn add_in_table(
    alloc: Global,
    within: &PackageTable<'_>,
    found: &mut Vec<TableDiagnostic>,
) -> Result<(), AllocError> {
    for (key, _) in within.table.iter() {
        let key = key.as_str();
        if key.starts_with("cfg(") {
            found.push(within.diagnostic(alloc, key, key, Level::Error)?)?;
        }
    }
    match within.table.get(TARGET) {
        Some(Value::Table(package)) => add_as_package(alloc, within, package, found),
        _ => Ok(()),
    }
}

/// Adds the diagnostics on keys of `target` in the dependency tables of the package and of the workspace.
fn add_among_packages(
    alloc: Global,
    manifest: &Table,
    found: &mut Vec<TableDiagnostic>,
) -> Result<(), AllocError> {
    for name in TABLES {
        if let Some(Value::Table(table)) = manifest.get(name) {
            let within = PackageTable {
                name,
                is_of_workspace: false,
                table,
            };
            add_in_table(alloc, &within, found)?;
        }
    }
    let Some(Value::Table(workspace)) = manifest.get("workspace") else {
        return Ok(());
    };
    match workspace.get("dependencies") {
        Some(Value::Table(table)) => {
            let within = PackageTable {
                name: "dependencies",
                is_of_workspace: true,
                table,
            };
            add_in_table(alloc, &within, found)
        }
        _ => Ok(()),
    }
}

/// Returns whether the package declares the edition 2024.
fn is_of_2024(manifest: &Table) -> bool {
    match manifest.get("package") {
        Some(Value::Table(package)) => match package.get("edition") {
            Some(edition) => edition.as_str() == Some("2024"),
            None => false,
        },
        _ => false,
    }
}

/// Returns the message for a name with underscores.
fn underscored_message(is_refused: bool) -> &'static str {
    if is_refused {
        "Cargo rejects this name in edition 2024"
    } else {
        "Cargo warns of this name"
    }
}

/// Returns what to do about a name with underscores. `other` is the name to use in place of it, which another table has
/// if `is_taken`.
fn underscored_help(alloc: Global, other: &str, is_taken: bool) -> Result<String, AllocError> {
    if is_taken {
        format!(in alloc; "move the dependencies into the table `{other}`")
    } else {
        format!(in alloc; "write `{other}`")
    }
}

/// Formats the name of a table as its header spells it: at the top level, or under a key of `target`. Fails if memory
/// is refused.
pub fn format_table_name(
    alloc: Global,
    key: Option<&str>,
    name: &str,
) -> Result<String, AllocError> {
    match key {
        Some(key) => {
            let key = printable_excerpt(alloc, key)?;
            format!(in alloc; "target.'{key}'.{name}")
        }
        None => String::from_str(alloc, name),
    }
}

/// Returns a table at the top level, or under a key of `target`, as the part that is at fault.
fn site_of_table(alloc: Global, key: Option<&str>, name: &str) -> Result<Site, AllocError> {
    match key {
        Some(key) => Ok(Site::Field(
            String::from_str(alloc, key)?,
            String::from_str(alloc, name)?,
        )),
        None => Ok(Site::Named(key_path(alloc, &[name])?)),
    }
}

/// Returns the diagnostic on a table whose name has underscores, the first of these two names. The second one is to be
/// used in place of it, unless another table has that name, which `is_taken` says.
fn underscored(
    alloc: Global,
    key: Option<&str>,
    names: (&str, &'static str),
    is_taken: bool,
    is_refused: bool,
) -> Result<TableDiagnostic, AllocError> {
    let (name, other) = names;
    let help = underscored_help(alloc, other, is_taken)?;
    Ok(TableDiagnostic {
        lint: Lint::Underscored,
        level: if is_refused {
            Level::Error
        } else {
            Level::Warning
        },
        subject: format_table_name(alloc, key, name)?,
        key: None,
        site: site_of_table(alloc, key, name)?,
        message: String::from_str(alloc, underscored_message(is_refused))?,
        children: Children::of_help(alloc, help)?,
        suggestion: if is_taken { None } else { Some(other) },
    })
}

/// Adds the diagnostics on tables with underscores in their names, at the top level or under a key of `target`. Cargo
/// rejects these names from edition 2024 on.
fn add_underscored(
    alloc: Global,
    table: &Table,
    key: Option<&str>,
    is_refused: bool,
    found: &mut Vec<TableDiagnostic>,
) -> Result<(), AllocError> {
    for (name, other) in UNDERSCORES {
        if table.get(name).is_some() {
            let is_taken = table.get(other).is_some();
            found.push(underscored(alloc, key, (name, other), is_taken, is_refused)?)?;
        }
    }
    Ok(())
}

/// Returns the diagnostics on tables of a manifest that are meant for targets but are defined elsewhere, and on tables
/// with underscores in their names. Fails if memory is refused.
pub fn table_diagnostics(
    alloc: Global,
    manifest: &Table,
) -> Result<Vec<TableDiagnostic>, AllocError> {
    let mut found = Vec::new(alloc);
    add_top_level_diagnostics(alloc, manifest, &mut found)?;
    add_among_packages(alloc, manifest, &mut found)?;
    let is_refused = is_of_2024(manifest);
    add_underscored(alloc, manifest, None, is_refused, &mut found)?;
    if let Some(Value::Table(targets)) = manifest.get("target") {
        for (key, value) in targets.iter() {
            if let Some(table) = value.as_table() {
                add_underscored(alloc, table, Some(key.as_str()), is_refused, &mut found)?;
            }
        }
    }
    Ok(found)
}
