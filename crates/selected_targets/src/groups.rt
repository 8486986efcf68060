//! The targets of a file, in groups. Each group is represented by a known target.

use cargo_metadata::Metadata;
use cargo_metadata::graphs::Linked;
use cargo_platform::{Platform, ReadError};
use key_answers::answer::{QueryError, argument_error, file_error};
use key_answers::printing::format_name;
use known_targets::{COUNT, KnownTarget, TargetSet};
use std::alloc::{AllocError, Global};
use target_tables::{TargetRow, TargetTable};

/// The targets of a file, with those that are selected.
#[derive(Drop)]
pub struct TableSelection<'a> {
    /// The name of the file, as it is displayed.
    file: &'a str,
    table: &'a TargetTable,
    /// For each target, whether it is selected.
    is_selected: Vec<bool>,
    /// The index of the host, if one is named.
    host: Option<usize>,
}

/// Returns the message for a name that no target of a file has.
fn no_target(alloc: Global, file: &str, name: &str) -> Result<String, AllocError> {
    let name = format_name(alloc, name)?;
    format!(in alloc; "no target of {file} is named {name}")
}

/// Returns the index of the target with this name.
fn place_of(
    alloc: Global,
    file: &str,
    table: &TargetTable,
    name: &str,
) -> Result<usize, QueryError> {
    let rows = table.rows();
    for i in 0..rows.len() {
        if rows[i].name() == name {
            return Ok(i);
        }
    }
    let text = no_target(alloc, file, name)?;
    Err(argument_error(alloc, text.as_str()))
}

/// Returns for each target whether it has one of these names. If there are no names, all targets are selected.
fn selected_of(
    alloc: Global,
    file: &str,
    table: &TargetTable,
    names: &[&str],
) -> Result<Vec<bool>, QueryError> {
    let mut is_selected = vec![in alloc; names.is_empty(); table.rows().len()]?;
    for name in names {
        let place = place_of(alloc, file, table, name)?;
        if let Some(slot) = is_selected.get_mut(place) {
            *slot = true;
        }
    }
    Ok(is_selected)
}

impl<'a> TableSelection<'a> {
    /// Returns the targets of a file, of which those with one of these names are selected, or all if there are no
    /// names. `file` is displayed in messages.
    ///
    /// # Errors
    ///
    /// Refuses a name, and that of the host, if no target of the file has it. Fails if memory is refused.
    pub fn of(
        alloc: Global,
        file: &'a str,
        table: &'a TargetTable,
        names: &[&str],
        host: Option<&str>,
    ) -> Result<TableSelection<'a>, QueryError> {
        Ok(TableSelection {
            file,
            table,
            is_selected: selected_of(alloc, file, table, names)?,
            host: match host {
                Some(name) => Some(place_of(alloc, file, table, name)?),
                None => None,
            },
        })
    }
}

// ---- conditions

/// A condition of a document, and the targets on which it is true.
#[derive(Drop)]
struct Held<'a> {
    text: &'a str,
    /// For each target of the file, whether the condition is true on it.
    at: Vec<bool>,
    /// The known targets that represent the groups on which it is true.
    set: TargetSet,
}

/// Returns the texts of the conditions of a document, sorted, each once.
fn texts_of<'a>(alloc: Global, metadata: &Metadata<'a>) -> Result<Vec<&'a str>, AllocError> {
    let mut texts = Vec::new(alloc);
    for node in &metadata.nodes {
        for dependency in &node.dependencies {
            for row in &dependency.kinds {
                if let Some(text) = row.condition {
                    texts.push(text)?;
                }
            }
        }
    }
    texts.sort()?;
    texts.dedup();
    Ok(texts)
}

/// Returns for each target of a file whether a condition is true on it.
fn truths_of(
    alloc: Global,
    table: &TargetTable,
    condition: &Platform,
) -> Result<Vec<bool>, AllocError> {
    let mut at = Vec::new(alloc);
    for row in table.rows() {
        at.push(row.matches(condition))?;
    }
    Ok(at)
}

/// Returns for each target of a file whether the condition of this text is true on it.
fn held_at(alloc: Global, table: &TargetTable, text: &str) -> Result<Vec<bool>, AllocError> {
    match Platform::from_str(alloc, text) {
        Ok(condition) => truths_of(alloc, table, &condition),
        Err(ReadError::Memory(refused)) => Err(refused),
        // A graph contains no condition that does not parse.
        Err(ReadError::Parse(_)) => Ok(Vec::new(alloc)),
    }
}

/// Returns the conditions of a document, sorted by their texts.
fn conditions_of<'a>(
    alloc: Global,
    table: &TargetTable,
    metadata: &Metadata<'a>,
) -> Result<Vec<Held<'a>>, AllocError> {
    let mut conditions = Vec::new(alloc);
    for text in texts_of(alloc, metadata)? {
        let at = held_at(alloc, table, text)?;
        let set = TargetSet::none();
        conditions.push(Held { text, at, set })?;
    }
    Ok(conditions)
}

/// Returns the targets on which the condition of this text is true. Without a text, these are all targets.
fn holds_at(conditions: &[Held<'_>], text: Option<&str>) -> TargetSet {
    let Some(text) = text else {
        return TargetSet::all();
    };
    match conditions.binary_search_by(|held| held.text.cmp(text)) {
        Ok(at) => match conditions.get(at) {
            Some(held) => held.set,
            None => TargetSet::none(),
        },
        Err(_) => TargetSet::none(),
    }
}

/// Sets the targets of each dependency of a graph to those of its condition.
fn put_sets(linked: &mut Linked<'_>, metadata: &Metadata<'_>, conditions: &[Held<'_>]) {
    for i in 0..metadata.nodes.len() {
        let Some(unit) = linked.packages.get_mut(i) else {
            continue;
        };
        let mut place: usize = 0;
        for written in &metadata.nodes[i].dependencies {
            for row in &written.kinds {
                if let Some(dependency) = unit.dependencies.get_mut(place) {
                    dependency.holds = holds_at(conditions, row.condition);
                }
                place = place.saturating_add(1);
            }
        }
    }
}

// ---- groups

/// Groups by their numbers, in the order of the groups' first members.
#[derive(Drop)]
struct Numbers {
    /// For each member, the number of its group.
    of: Vec<usize>,
    count: usize,
}

/// Splits each group into the members for which the flag in `at` is false and those for which it is true.
fn parted(alloc: Global, numbers: &Numbers, at: &[bool]) -> Result<Numbers, AllocError> {
    let mut parts: Vec<Option<usize>> = vec![in alloc; None; numbers.count.saturating_mul(2)]?;
    let mut of = Vec::new(alloc);
    let mut count: usize = 0;
    for i in 0..numbers.of.len() {
        let mut place = numbers.of[i].saturating_mul(2);
        if flag_at(at, i) {
            place = place.saturating_add(1);
        }
        let Some(part) = parts.get_mut(place) else {
            continue;
        };
        let number = part.unwrap_or(count);
        if number == count {
            *part = Some(count);
            count = count.saturating_add(1);
        }
        of.push(number)?;
    }
    Ok(Numbers { of, count })
}

/// Returns the flag at an index, or `false` if there is none.
pub fn flag_at(at: &[bool], place: usize) -> bool {
    at.get(place).copied().unwrap_or(false)
}

/// Groups the targets so that those of a group are all selected or none, and each condition has the same truth value on
/// them.
fn numbers_of(
    alloc: Global,
    is_selected: &[bool],
    conditions: &[Held<'_>],
) -> Result<Numbers, AllocError> {
    let of = vec![in alloc; 0; is_selected.len()]?;
    let mut numbers = parted(alloc, &Numbers { of, count: 1 }, is_selected)?;
    for condition in conditions {
        numbers = parted(alloc, &numbers, &condition.at)?;
    }
    Ok(numbers)
}

/// Returns the refusal of a file whose targets form too many groups.
fn too_many(alloc: Global, file: &str, count: usize) -> Result<QueryError, AllocError> {
    let reason = format!(in alloc;
        "the conditions of the graph tell {count} groups of its targets apart, and {COUNT} are the most"
    )?;
    Ok(file_error(alloc, file, reason.as_str()))
}

/// Returns for each target the known target that represents its group. Fails if there are more groups than known
/// targets.
fn places_of(alloc: Global, file: &str, numbers: &Numbers) -> Result<Vec<KnownTarget>, QueryError> {
    let all: Vec<KnownTarget> = TargetSet::all().iter().collect(alloc)?;
    let mut places = Vec::new(alloc);
    for number in &numbers.of {
        match all.get(*number) {
            Some(place) => places.push(*place).map_err(AllocError::from)?,
            None => return Err(too_many(alloc, file, numbers.count)?),
        }
    }
    Ok(places)
}

/// Returns the known targets that represent the targets whose flag is true.
fn set_of(places: &[KnownTarget], at: &[bool]) -> TargetSet {
    let mut set = TargetSet::none();
    for i in 0..places.len() {
        if flag_at(at, i) {
            set = set.union(TargetSet::only(places[i]));
        }
    }
    set
}

/// The targets of a file in groups. The members of a group are in the same sets of targets: they are all selected or
/// none, and each condition of the graph has the same truth value on them.
#[derive(Drop)]
pub struct Groups<'a> {
    selection: TableSelection<'a>,
    /// For each target of the file, the known target that represents its group.
    places: Vec<KnownTarget>,
}

/// Groups the targets of a file by the conditions of a graph, and sets the targets of the graph's dependencies
/// accordingly. Fails if there are more groups than known targets, or if memory is refused.
pub fn group_targets<'a>(
    alloc: Global,
    selection: TableSelection<'a>,
    metadata: &Metadata<'_>,
    linked: &mut Linked<'_>,
) -> Result<Groups<'a>, QueryError> {
    let mut conditions = conditions_of(alloc, selection.table, metadata)?;
    let numbers = numbers_of(alloc, &selection.is_selected, &conditions)?;
    let places = places_of(alloc, selection.file, &numbers)?;
    for condition in &mut conditions {
        condition.set = set_of(&places, &condition.at);
    }
    put_sets(linked, metadata, &conditions);
    Ok(Groups { selection, places })
}

impl<'a> Groups<'a> {
    /// Returns the name of the file, as it is displayed.
    pub fn file(&self) -> &'a str {
        self.selection.file
    }

    /// Returns the selected targets.
    pub fn targets(&self) -> TargetSet {
        set_of(&self.places, &self.selection.is_selected)
    }

    /// Returns the host, if one is named.
    pub fn host(&self) -> Option<KnownTarget> {
        self.places.get(self.selection.host?).copied()
    }

    /// Returns the targets of the file, in its order.
    pub fn rows(&self) -> &'a [TargetRow] {
        self.selection.table.rows()
    }

    /// Returns the known target that represents the target of the file at an index, if that is selected, or if it is
    /// the host and `with_host` is true.
    pub fn representative_of(&self, index: usize, with_host: bool) -> Option<KnownTarget> {
        if flag_at(&self.selection.is_selected, index)
            || (with_host && self.selection.host == Some(index))
        {
            self.places.get(index).copied()
        } else {
            None
        }
    }

    /// Returns the number of targets of the file in a set.
    pub fn count_of(&self, targets: TargetSet) -> usize {
        let mut count: usize = 0;
        for place in &self.places {
            if targets.contains(*place) {
                count = count.saturating_add(1);
            }
        }
        count
    }

    /// Returns the names of the targets in a set, in the order of the file.
    pub fn names(&self, alloc: Global, targets: TargetSet) -> Result<Vec<&'a str>, AllocError> {
        let rows = self.rows();
        let mut names = Vec::new(alloc);
        for i in 0..rows.len() {
            let is_there = match self.places.get(i) {
                Some(place) => targets.contains(*place),
                None => false,
            };
            if is_there {
                names.push(rows[i].name())?;
            }
        }
        Ok(names)
    }
}
