//! The tables of a manifest that contain dependencies.

ghost use Rattle.std.specs.Prelude.{◌≡◌, ◌++◌, IfOk, OnOk, map, option_map};
ghost use Rattle.std.specs.Option.{option_copied};
ghost use Rattle.toml.specs.Data.{get_member};
ghost use Rattle.toml.specs.View.{view, table_view};
ghost use Rattle.manifests.specs.Entries.{entry_of};
ghost use Rattle.manifests.specs.Tables.{entries_of, target_of, target_told};
ghost use Rattle.manifests.specs.Tables.{table_name, old_table_name, is_optional};
ghost use Rattle.manifests.specs.Tables.{row_of, table_of, member_rows, kind_rows, rows_of};

use std::alloc::{AllocError, Global};
use toml::{Table, Value};

/// A key of the top-level table `target`, with its value.
#[derive(Clone, Copy, Drop)]
pub struct TargetKey<'a> {
    /// The key, after its escapes are resolved.
    pub key: &'a str,
    /// The value of the key.
    pub value: &'a Value,
}

/// The value of `target` in a manifest.
#[derive(Drop)]
pub enum TargetValue<'a> {
    /// There is none.
    Absent,
    /// A value that is not a table.
    NoTable,
    /// A table with these keys, in the order of their bytes.
    Keys(Vec<TargetKey<'a>>),
}

/// The three kinds of dependencies.
#[derive(Clone, Copy, Debug, PartialEq, Eq, Drop)]
pub enum Kind {
    /// `dependencies`
    Normal,
    /// `dev-dependencies`, or `dev_dependencies`
    Development,
    /// `build-dependencies`, or `build_dependencies`
    Build,
}

/// A dependency in a table.
#[derive(Clone, Copy, Drop)]
pub struct Dependency<'a> {
    /// The name in the table.
    pub name: &'a str,
    /// The kind of the table.
    pub kind: Kind,
    /// The key under `target`, or `None` for a table outside `target`.
    pub key: Option<&'a str>,
    /// True if the dependency has `optional = true`.
    pub optional: bool,
}

impl Kind {
    /// Returns the current name of the table of this kind.
    pub fn table_name(self) -> &'static str
        ensures { result.now ≡ table_name self }
    {
        match self {
            Kind::Normal => "dependencies",
            Kind::Development => "dev-dependencies",
            Kind::Build => "build-dependencies",
        }
    }

    /// Returns the former name of the table of this kind.
    pub fn old_table_name(self) -> &'static str
        ensures { result.now ≡ old_table_name self }
    {
        match self {
            Kind::Normal => "dependencies",
            Kind::Development => "dev_dependencies",
            Kind::Build => "build_dependencies",
        }
    }
}

/// Returns the value at a key of a table.
fn member<'a>(table: &'a Table, key: &str) -> Option<&'a Value>
    ensures { option_map (λ value. view value.now) result ≡ get_member key.now (table_view table.now) }
{
    table.get(key)
}

/// Returns the value of `target`. Fails if an allocation fails.
pub fn target_keys<'a>(alloc: Global, manifest: &'a Table) -> Result<TargetValue<'a>, AllocError>
    ensures { IfOk result (λ found. target_told found ≡ target_of (table_view manifest.now)) }
{
    match member(manifest, "target") {
        None => Ok(TargetValue::Absent),
        Some(value) => match value.as_table() {
            None => Ok(TargetValue::NoTable),
            Some(table) => Ok(TargetValue::Keys(keys_of(alloc, table)?)),
        },
    }
}

/// Returns the keys of a table with their values. Fails if an allocation fails.
pub fn keys_of<'a>(alloc: Global, table: &'a Table) -> Result<Vec<TargetKey<'a>>, AllocError>
    ensures { IfOk result (λ keys. map entry_of keys.items ≡ entries_of (table_view table.now)) }
{
    let mut keys = Vec::new(alloc);
    'members: for (key, value) in table.iter() {
        let key = key.as_str();
        keys.push(TargetKey { key, value })?;
    }
    Ok(keys)
}

/// Returns the dependency table of a kind: the one with the current name or, without it, the one with the former name.
pub fn table_of(table: &Table, kind: Kind) -> Option<&Value>
    ensures { option_map (λ value. view value.now) result ≡ table_of kind (table_view table.now) }
{
    match member(table, kind.table_name()) {
        Some(value) => Some(value),
        None => member(table, kind.old_table_name()),
    }
}

/// Returns the dependencies in a table by kind: `dependencies`, `dev-dependencies`, `build-dependencies`. `key` is the
/// key under `target` that contains the table, if any. Fails if an allocation fails.
pub fn dependencies<'a>(
    alloc: Global,
    table: &'a Table,
    key: Option<&'a str>,
) -> Result<Vec<Dependency<'a>>, AllocError>
    ensures { IfOk result (λ rows. map row_of rows.items ≡ rows_of (option_copied key.entry) (table_view table.now)) }
{
    let mut rows = Vec::new(alloc);
    add_rows(table, Kind::Normal, key, &mut rows)?;
    add_rows(table, Kind::Development, key, &mut rows)?;
    add_rows(table, Kind::Build, key, &mut rows)?;
    Ok(rows)
}

/// Appends the rows of a kind.
fn add_rows<'a>(
    table: &'a Table,
    kind: Kind,
    key: Option<&'a str>,
    rows: &mut Vec<Dependency<'a>>,
) -> Result<(), AllocError>
    ensures { OnOk result (map row_of rows.new.items
        ≡ map row_of rows.old.items ++ kind_rows (option_copied key.entry) (table_view table.now) kind) }
{
    let Some(value) = table_of(table, kind) else {
        return Ok(());
    };
    let Some(members) = value.as_table() else {
        return Ok(());
    };
    add_members(members, kind, key, rows)
}

/// Appends a row for each member.
fn add_members<'a>(
    members: &'a Table,
    kind: Kind,
    key: Option<&'a str>,
    rows: &mut Vec<Dependency<'a>>,
) -> Result<(), AllocError>
    ensures { OnOk result (map row_of rows.new.items
        ≡ map row_of rows.old.items ++ member_rows (option_copied key.entry) kind (table_view members.now)) }
{
    'members: for (name, value) in members.iter() {
        rows.push(Dependency {
            name: name.as_str(),
            kind,
            key,
            optional: is_optional(value),
        })?;
    }
    Ok(())
}

/// Returns whether the value of a dependency has `optional = true`.
fn is_optional(value: &Value) -> bool
    ensures { result ≡ is_optional (view value.now) }
{
    match value.get("optional") {
        Some(value) => value.as_bool() == Some(true),
        None => false,
    }
}
