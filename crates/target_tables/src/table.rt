//! A table of targets, its rows, and those on which a condition is true.

ghost use Rattle.std.specs.Prelude.{◌≡◌, ◌≢◌, ◌<◌, ◌↔◌, ℕ, [], map, length, IsTrue, IfOk, IfSome};
ghost use Rattle.std.specs.Prelude.{string_bytes, IfNone, OnErr};
ghost use Rattle.std.specs.List.{slice_index_or, filter, range_with_len};
ghost use Rattle.cargo_platform.specs.Trees.{value_of, condition_of};
ghost use Rattle.cargo_platform.specs.Facts.{fact_set, truth_of_condition, IsTrueCondition};
ghost use Rattle.target_tables.specs.Rows.{Row, row_of, rows_of, name_at, HasNoRow, IsRowNamed, AreDistinct};
ghost use Rattle.target_tables.specs.Rows.{holds_at};
ghost use Rattle.target_tables.specs.Added.{known_rows, IsAdded};

use cargo_platform::{Cfg, Platform};
use known_targets::TargetSet;
use std::alloc::{AllocError, Global};

/// A target of a table.
#[derive(Debug, Drop)]
pub struct TargetRow {
    pub(crate) name: String,
    pub(crate) facts: Vec<Cfg>,
}

impl TargetRow {
    /// Returns its name.
    pub fn name(&self) -> &str
        ensures { result.now ≡ (row_of self.now).name }
    {
        self.name.as_str()
    }

    /// Returns its facts, in the order of their lines.
    pub fn facts(&self) -> &[Cfg]
        ensures { map value_of result.now ≡ (row_of self.now).facts }
    {
        &self.facts
    }

    /// Returns whether the condition is true on the target, by its name and its facts.
    pub fn matches(&self, platform: &Platform) -> bool
        // It is true exactly if the condition is true on the target.
        ensures truth { result ≡ truth_of_condition (row_of self.now).name (fact_set (row_of self.now).facts)
            (condition_of platform.now) }
        ensures applies { IsTrue result ↔ IsTrueCondition (row_of self.now).name (fact_set (row_of self.now).facts)
            (condition_of platform.now) }
    {
        platform.matches(self.name.as_str(), &self.facts)
    }
}

/// The targets that some rustc knows, and those that are added to them.
#[derive(Debug, Drop)]
pub struct TargetTable {
    pub(crate) rows: Vec<TargetRow>,
}

impl TargetTable {
    /// Returns the table of no targets.
    pub fn new(alloc: Global) -> TargetTable
        // It has no row.
        ensures { rows_of result ≡ [] }
    {
        TargetTable {
            rows: Vec::new(alloc),
        }
    }

    /// Returns the table of the known targets. Fails only if an allocation fails.
    pub fn of_known_targets(alloc: Global) -> Result<TargetTable, AllocError>
        // The rows are exactly the known targets, in their order, each with its name and its facts.
        ensures rows { IfOk result (λ table. rows_of table ≡ known_rows) }
        // No two rows have the same name.
        ensures distinct { IfOk result (λ table. AreDistinct (rows_of table)) }
    {
        let mut rows = Vec::new(alloc);
        'targets: for target in TargetSet::all().iter() {
            let name = String::from_str(alloc, target.name())?;
            let facts = target.facts(alloc)?;
            rows.push(TargetRow { name, facts })?;
        }
        Ok(TargetTable { rows })
    }

    /// Adds the target with this name and these facts after the others, unless a target of the table has its name.
    /// Returns whether it was added. Fails only if an allocation fails, and the table is then unchanged.
    pub fn add(&mut self, alloc: Global, name: &str, facts: Vec<Cfg>) -> Result<bool, AllocError>
        // It is added exactly if no row has the name. The other rows stay as they are.
        ensures added { IfOk result
            (IsAdded (rows_of self.old) name.now (map value_of facts.items) (rows_of self.new)) }
        ensures unchanged { OnErr result (rows_of self.new ≡ rows_of self.old) }
        // If no two rows have the same name, that stays so.
        ensures distinct { AreDistinct (rows_of self.old) → AreDistinct (rows_of self.new) }
    {
        if place_of(&self.rows, name).is_some() {
            return Ok(false);
        }
        let name = String::from_str(alloc, name)?;
        self.rows.push(TargetRow { name, facts })?;
        Ok(true)
    }

    /// Returns the rows, in the order of the text.
    pub fn rows(&self) -> &[TargetRow]
        ensures { map row_of result.now ≡ rows_of self.now }
    {
        &self.rows
    }

    /// Returns the row of the target with this name.
    pub fn by_name(&self, name: &str) -> Option<&TargetRow>
        // The row is one of the table, and has the name. Without an answer no row has it.
        ensures found { IfSome result (λ row. IsRowNamed (rows_of self.now) name.now (row_of row.now)) }
        ensures none { IfNone result (HasNoRow (rows_of self.now) name.now) }
    {
        row_named(&self.rows, name)
    }

    /// Returns the places of the rows on which the condition is true, by their names and facts. Fails only if an
    /// allocation fails.
    pub fn matching(&self, alloc: Global, platform: &Platform) -> Result<Vec<usize>, AllocError>
        // They are the indexes of all rows on which the condition is true, and no others, in order.
        ensures { IfOk result (λ places. places.items
            ≡ filter (holds_at (rows_of self.now) (condition_of platform.now))
            (range_with_len 0 (length (rows_of self.now)))) }
    {
        places_where(alloc, &self.rows, platform)
    }
}

/// Returns the row with this name.
fn row_named<'a>(rows: &'a [TargetRow], name: &str) -> Option<&'a TargetRow>
    ensures found { IfSome result (λ row. IsRowNamed (map row_of rows.now) name.now (row_of row.now)) }
    ensures none { IfNone result (HasNoRow (map row_of rows.now) name.now) }
{
    match place_of(rows, name) {
        Some(place) => Some(&rows[place]),
        None => None,
    }
}

/// Returns the index of the row with this name.
pub(crate) fn place_of(rows: &[TargetRow], name: &str) -> Option<usize>
    ensures found { IfSome result (λ k. name_at (map row_of rows.now) k ≡ name.now) }
    ensures within { IfSome result (λ k. k < length rows.now) }
    ensures none { IfNone result (HasNoRow (map row_of rows.now) name.now) }
{
    'rows: for i in 0..rows.len() {
        if rows[i].name.as_str() == name {
            return Some(i);
        }
    }
    None
}

/// Returns the places of the rows on which the condition is true.
fn places_where(
    alloc: Global,
    rows: &[TargetRow],
    platform: &Platform,
) -> Result<Vec<usize>, AllocError>
    ensures { IfOk result (λ places. places.items
        ≡ filter (holds_at (map row_of rows.now) (condition_of platform.now)) (range_with_len 0 (length rows.now))) }
{
    let mut places = Vec::new(alloc);
    'rows: for i in 0..rows.len() {
        if rows[i].matches(platform) {
            places.push(i)?;
        }
    }
    Ok(places)
}
