//! Whether a fixed manifest is the same document but for what was fixed.

ghost use Rattle.std.specs.Prelude.{◌≡◌, ◌⊎◌, true, IfOk, IfSome, IsSome, is_some, option_map, List, ℕ, ◌+◌, Some};
ghost use Rattle.toml.specs.Data.{get_member};
ghost use Rattle.toml.specs.View.{view, items_view, table_view};
ghost use Rattle.lint_fixes.specs.Sameness.{AreSameBut, IsSameBut, IsSameManifest, LacksSome};
ghost use Rattle.lint_fixes.specs.Sameness.{allowed_count, allowed_in, count_items, count_of};
ghost use Rattle.lint_fixes.specs.Sameness.{has_entries, has_members, member_change, member_of, renames_members};
ghost use Rattle.lint_fixes.specs.Sameness.{has_key, table_at};
ghost use Rattle.lint_fixes.specs.Names.{AreOldNames, IsRename, change_at, name_in, old_name};

use crate::equality::is_same_value;
use std::alloc::{AllocError, Global};
use std::collections::BTreeMap;
use toml::{Table, Value};

/// The new names of fixes, by the old ones.
pub type Renames = BTreeMap<String, String>;

/// A place of a manifest, by what fixes may change there.
#[derive(Clone, Copy, Drop)]
enum Place {
    /// The manifest.
    Manifest,
    /// The table `target`.
    Target,
    /// A key of `target`.
    Key,
    /// `package` or `workspace`.
    Part,
    /// The table `metadata` of a part.
    Metadata,
    /// The table of rules in metadata.
    Rules,
    /// The list of lints that rules allow.
    Allowed,
    /// A place at which fixes change nothing.
    Other,
}

impl Place {
    /// Returns whether fixes may change members of a table at this place.
    fn has_members(self) -> bool
        ensures { result ≡ has_members (change_at self) }
    {
        match self {
            Place::Allowed | Place::Other => false,
            _ => true,
        }
    }

    /// Returns whether fixes may remove entries of a list at this place.
    fn has_entries(self) -> bool
        ensures { result ≡ has_entries (change_at self) }
    {
        matches!(self, Place::Allowed)
    }

    /// Returns whether members of a table at this place may have new names.
    fn renames_members(self) -> bool
        ensures { result ≡ renames_members (change_at self) }
    {
        match self {
            Place::Manifest | Place::Target | Place::Key => true,
            _ => false,
        }
    }

    /// Returns the place of a member of a table at this place.
    fn member(self, name: &str) -> Place
        ensures { change_at result ≡ member_of (change_at self) name.now }
    {
        match self {
            Place::Manifest => member_of_manifest(name),
            Place::Target => Place::Key,
            Place::Part if name == "metadata" => Place::Metadata,
            Place::Metadata if name == "manifest-check" => Place::Rules,
            Place::Rules if name == "allow" => Place::Allowed,
            _ => Place::Other,
        }
    }
}

/// Returns the place of a member of a manifest.
fn member_of_manifest(name: &str) -> Place
    ensures { change_at result ≡ member_change name.now }
{
    if name == "target" {
        Place::Target
    } else if name == "package" || name == "workspace" {
        Place::Part
    } else {
        Place::Other
    }
}

/// Returns the member of a table with this name.
fn member_in<'a>(table: &'a Table, name: &str) -> Option<&'a Value>
    ensures { option_map (λ it. view it.now) result ≡ get_member name.now (table_view table.now) }
{
    table.get(name)
}

/// Returns whether a table has a member with this name.
fn has_member(table: &Table, name: &str) -> bool
    ensures { result ≡ is_some (get_member name.now (table_view table.now)) }
{
    member_in(table, name).is_some()
}

/// Returns the name that a member of a table at a place has in the fixed table.
fn new_name<'a>(place: Place, fixed: &Table, renames: &'a Renames, name: &'a str) -> &'a str
    ensures { result.now ≡ name_in (renames_members (change_at place)) (table_view fixed.now) renames.now name.now }
{
    if !place.renames_members() {
        return name;
    }
    if has_member(fixed, name) {
        return name;
    }
    match renames.get(name) {
        Some(to) => to.as_str(),
        None => name,
    }
}

/// Returns whether the entries of a fixed list are those of the list without some.
fn lacks_some(entries: &[Value], fixed: &[Value]) -> bool
    ensures { result ≡ true → LacksSome (items_view entries.now) (items_view fixed.now) }
{
    let mut kept: usize = 0;
    for entry in entries {
        if kept < fixed.len() && is_same_value(entry, &fixed[kept]) {
            kept += 1;
        }
    }
    kept == fixed.len()
}

/// The old names of the members of a fixed table, by the new ones.
type OldNames<'a> = BTreeMap<&'a str, &'a str>;

/// Returns the old names of the members of a fixed table, or `None` if two members of the table have one new name.
fn old_names<'a>(
    alloc: Global,
    place: Place,
    table: &'a Table,
    fixed: &Table,
    renames: &'a Renames,
) -> Result<Option<OldNames<'a>>, AllocError>
    ensures { IfOk result (λ found. IfSome found (AreOldNames
        (name_in (renames_members (change_at place)) (table_view fixed.now) renames.now)
        (table_view table.now))) }
{
    let mut names = BTreeMap::new(alloc);
    for (name, _) in table.iter() {
        let name = name.as_str();
        let new = new_name(place, fixed, renames, name);
        if names.insert(new, name)?.is_some() {
            return Ok(None);
        }
    }
    Ok(Some(names))
}

/// Returns whether each member of a fixed table has an old name.
fn are_named(fixed: &Table, names: &OldNames<'_>) -> bool
    ensures { result ≡ true → (name : List ℕ) →
        IsSome (get_member name (table_view fixed.now)) → IsSome (old_name names.now name) }
{
    for (name, _) in fixed.iter() {
        if !names.contains_key(name.as_str()) {
            return false;
        }
    }
    true
}

/// Returns whether a fixed value is the same as the value but for what fixes may change at its place.
#[cycle(is_same_at)]
fn is_same_at(
    alloc: Global,
    place: Place,
    value: &Value,
    fixed: &Value,
    renames: &Renames,
) -> Result<bool, AllocError>
    ensures { IfOk result (λ is. is ≡ true →
        IsSameBut (change_at place) (IsRename renames.now) (view value.now) (view fixed.now)) }
{
    match (value, fixed) {
        (Value::Table(table), Value::Table(other)) if place.has_members() => {
            have_same_members(alloc, place, table, other, renames)
        }
        (Value::Array(entries), Value::Array(others)) if place.has_entries() => {
            Ok(lacks_some(entries, others))
        }
        _ => Ok(is_same_value(value, fixed)),
    }
}

/// Returns whether the members of a fixed table are those of the table but for what fixes may change at its place.
#[cycle(is_same_at)]
fn have_same_members(
    alloc: Global,
    place: Place,
    table: &Table,
    fixed: &Table,
    renames: &Renames,
) -> Result<bool, AllocError>
    ensures { IfOk result (λ is. is ≡ true →
        AreSameBut (change_at place) (IsRename renames.now) (table_view table.now) (table_view fixed.now)) }
{
    let Some(names) = old_names(alloc, place, table, fixed, renames)? else {
        return Ok(false);
    };
    if !are_named(fixed, &names) {
        return Ok(false);
    }
    for (name, value) in table.iter() {
        let name = name.as_str();
        let Some(other) = member_in(fixed, new_name(place, fixed, renames, name)) else {
            return Ok(false);
        };
        if !is_same_at(alloc, place.member(name), value, other, renames)? {
            return Ok(false);
        }
    }
    Ok(true)
}

/// Returns the table in a table with this name.
fn table_at<'a>(table: &'a Table, name: &str) -> Option<&'a Table>
    ensures { option_map (λ it. table_view it.now) result ≡ table_at name.now (table_view table.now) }
{
    match member_in(table, name) {
        Some(value) => value.as_table(),
        None => None,
    }
}

/// Returns whether `target` of a manifest has a key.
pub fn has_key(manifest: &Table, name: &str) -> bool
    ensures { result ≡ has_key name.now (table_view manifest.now) }
{
    match table_at(manifest, "target") {
        Some(keys) => has_member(keys, name),
        None => false,
    }
}

/// Returns the number of items of a list.
fn length_of(items: &[Value]) -> usize
    ensures { result ≡ count_items (items_view items.now) }
{
    items.len()
}

/// Returns how many items a value has, if it is a list, and otherwise 0.
fn items_in(value: &Value) -> usize
    ensures { result ≡ count_of (Some (view value.now)) }
{
    match value {
        Value::Array(items) => length_of(items),
        _ => 0,
    }
}

/// Returns how many lints the metadata of a part of a manifest allow.
fn allowed_in(manifest: &Table, part: &str) -> usize
    ensures { result ≡ allowed_in part.now (table_view manifest.now) }
{
    let Some(part) = table_at(manifest, part) else {
        return 0;
    };
    let Some(metadata) = table_at(part, "metadata") else {
        return 0;
    };
    let Some(rules) = table_at(metadata, "manifest-check") else {
        return 0;
    };
    match member_in(rules, "allow") {
        Some(allowed) => items_in(allowed),
        None => 0,
    }
}

/// Returns whether the lists of lints that a fixed manifest allows have as many entries less as `removed` says.
fn lacks_as_many(manifest: &Table, fixed: &Table, removed: usize) -> bool
    ensures { result ≡ true → allowed_count (table_view fixed.now) + removed ≡ allowed_count (table_view manifest.now) }
{
    let before = allowed_in(manifest, "package") as u128
        + allowed_in(manifest, "workspace") as u128;
    let after = allowed_in(fixed, "package") as u128 + allowed_in(fixed, "workspace") as u128;
    after + removed as u128 == before
}

/// Returns whether `fixed` differs from `manifest` only by new names of its tables, of the keys of `target` and of the
/// tables below these, and by `removed` entries that are missing in lists of allowed lints. Fails if memory is refused.
pub fn is_same_manifest(
    alloc: Global,
    manifest: &Table,
    fixed: &Table,
    renames: &Renames,
    removed: usize,
) -> Result<bool, AllocError>
    // Fixed is the manifest, but for these new names and entries of lists of allowed lints that are removed.
    ensures same { IfOk result (λ is. is ≡ true →
        IsSameManifest (IsRename renames.now) (table_view manifest.now) (table_view fixed.now)) }
    // It lacks so many of these entries.
    ensures count { IfOk result (λ is. is ≡ true →
        allowed_count (table_view fixed.now) + removed ≡ allowed_count (table_view manifest.now)) }
{
    if !lacks_as_many(manifest, fixed, removed) {
        return Ok(false);
    }
    have_same_members(alloc, Place::Manifest, manifest, fixed, renames)
}
