//! `--against`: what has changed since an older output of `cargo metadata`.

use cargo_metadata::Package as Described;
use graph_queries::differences::difference_of;
use graph_queries::graph::{Graph, source_of};
use graph_queries::lines::{format_targets, format_text, push, push_comma};
use graph_queries::pairs::{MatchedPackage, matched_packages};
use graph_queries::query::GraphQuery;
use key_answers::answer::{Answer, QueryError, Status, argument_error};
use key_answers::json_lines;
use key_answers::printing::format_name;
use key_answers::targets::TargetList;
use known_targets::TargetSet;
use serde::Serialize;
use std::alloc::{AllocError, Global};

/// A line of `graph --against --json`: a package that is new, gone or changed.
#[derive(Drop, Serialize)]
struct ChangeLine<'c, 'd, 'a> {
    /// One of `added`, `removed`, `updated` and `changed`.
    change: &'static str,
    name: &'d str,
    /// The version. Null if the package was removed.
    version: Option<&'d str>,
    /// The version before. Null if the package was added.
    old_version: Option<&'d str>,
    /// The number of targets in `at`.
    targets: usize,
    /// The selected targets on which the package is in the build.
    at: TargetList<'a>,
    /// The selected targets on which it is in the build, and was not before.
    gained: TargetList<'a>,
    /// The selected targets on which it was in the build before, and is not.
    lost: TargetList<'a>,
    /// The licence expression of the package.
    license: Option<&'d str>,
    /// The licence expression before.
    old_license: Option<&'d str>,
    /// The registry or repository of the package. Null for a package in a folder.
    source: Option<&'d str>,
    /// The registry or repository before.
    old_source: Option<&'d str>,
    /// If features are resolved: those that are on, and were not before.
    #[serde(skip_serializing_if = "Option::is_none")]
    added_features: Option<&'c [&'d str]>,
    /// If features are resolved: those that were on before, and are not.
    #[serde(skip_serializing_if = "Option::is_none")]
    removed_features: Option<&'c [&'d str]>,
}

/// The kinds of changes, as `--fail-on` names them. The first two mean packages that only one answer has, and the
/// others packages that both have.
const CHANGES: [&str; 7] = [
    "added", "removed", "updated", "targets", "licence", "source", "features",
];

/// For each of `CHANGES`, whether it is meant.
type ChangeKinds = [bool; 7];

/// Returns the message for a word that names no kind of change.
fn no_kind(alloc: Global, word: &str) -> Result<String, AllocError> {
    let shown = format_name(alloc, word)?;
    let kinds = "added, removed, updated, targets, licence, source and features";
    format!(in alloc; "--fail-on names {kinds}, joined by commas, and not {shown}")
}

/// Returns the index of a word in `CHANGES`.
fn place_of(word: &str) -> Option<usize> {
    for i in 0..CHANGES.len() {
        if CHANGES[i] == word {
            return Some(i);
        }
    }
    None
}

/// Parses the kinds of changes that make the run fail. Without `--fail-on`, none does.
pub fn failing_changes(alloc: Global, words: Option<&str>) -> Result<ChangeKinds, QueryError> {
    let mut kinds = [false; 7];
    let Some(words) = words else {
        return Ok(kinds);
    };
    for word in words.split(',') {
        let Some(place) = place_of(word) else {
            let text = no_kind(alloc, word)?;
            return Err(argument_error(alloc, text.as_str()));
        };
        if let Some(kind) = kinds.get_mut(place) {
            *kind = true;
        }
    }
    Ok(kinds)
}

/// A package in one of the answers.
#[derive(Drop)]
struct Present<'d> {
    version: &'d str,
    license: Option<&'d str>,
    source: Option<&'d str>,
    at: TargetSet,
    /// The features that are on, if features are resolved.
    features: Vec<&'d str>,
}

/// Returns the registry or repository of a package, or `None` if the package is in a folder.
fn registry_of<'d>(described: &Described<'d>) -> Option<&'d str> {
    let source = source_of(described.id);
    if source == described.id || source.starts_with("path+") {
        return None;
    }
    Some(source)
}

/// Returns a package as an answer has it, if it is in it.
fn present_in<'d>(
    alloc: Global,
    graph: &Graph<'d>,
    index: Option<usize>,
    query: &GraphQuery<'_>,
) -> Result<Option<Present<'d>>, AllocError> {
    let Some(index) = index else {
        return Ok(None);
    };
    let Some(described) = graph.described(index) else {
        return Ok(None);
    };
    Ok(Some(Present {
        version: described.version,
        license: described.license,
        source: registry_of(described),
        at: graph.targets_in(index, query),
        features: graph.features_on(alloc, index, query)?,
    }))
}

/// Returns whether a list has a text.
fn has_text(texts: &[&str], text: &str) -> bool {
    for it in texts {
        if *it == text {
            return true;
        }
    }
    false
}

/// Returns the texts of the first list that are not in the second one.
fn without<'d>(
    alloc: Global,
    first: &[&'d str],
    second: &[&str],
) -> Result<Vec<&'d str>, AllocError> {
    let mut found = Vec::new(alloc);
    for text in first {
        if !has_text(second, text) {
            found.push(*text)?;
        }
    }
    Ok(found)
}

/// A change of a package, with what differs.
#[derive(Drop)]
struct Change<'d> {
    /// The word for the change.
    word: &'static str,
    name: &'d str,
    old: Option<Present<'d>>,
    new: Option<Present<'d>>,
    gained: TargetSet,
    lost: TargetSet,
    added_features: Vec<&'d str>,
    removed_features: Vec<&'d str>,
}

/// Returns the targets on which a package is in the build.
fn targets_of(present: &Option<Present<'_>>) -> TargetSet {
    match present {
        Some(present) => present.at,
        None => TargetSet::none(),
    }
}

/// Returns the features of a package that are on.
fn features_of<'p, 'd>(present: &'p Option<Present<'d>>) -> &'p [&'d str] {
    match present {
        Some(present) => &present.features,
        None => &[],
    }
}

impl<'d> Change<'d> {
    /// Compares a package in both answers.
    fn of(
        alloc: Global,
        name: &'d str,
        old: Option<Present<'d>>,
        new: Option<Present<'d>>,
    ) -> Result<Change<'d>, AllocError> {
        let targets = difference_of(targets_of(&old), targets_of(&new));
        let added_features = without(alloc, features_of(&new), features_of(&old))?;
        let removed_features = without(alloc, features_of(&old), features_of(&new))?;
        Ok(Change {
            word: "",
            name,
            old,
            new,
            gained: targets.gained,
            lost: targets.lost,
            added_features,
            removed_features,
        })
    }

    /// Returns for each of `CHANGES` whether the change is of it.
    fn kinds(&self) -> ChangeKinds {
        let (Some(old), Some(new)) = (&self.old, &self.new) else {
            let is_new = self.old.is_none();
            return [is_new, !is_new, false, false, false, false, false];
        };
        [
            false,
            false,
            old.version != new.version,
            !self.gained.is_empty() || !self.lost.is_empty(),
            old.license != new.license,
            old.source != new.source,
            !self.added_features.is_empty() || !self.removed_features.is_empty(),
        ]
    }
}

/// Returns the word for a change of these kinds, or `None` if nothing has changed.
fn word_of(kinds: &ChangeKinds) -> Option<&'static str> {
    for (kind, word) in kinds.iter().zip(["added", "removed", "updated"]) {
        if *kind {
            return Some(word);
        }
    }
    if kinds.contains(&true) {
        Some("changed")
    } else {
        None
    }
}

/// Returns whether some kind is in both.
fn have_common(kinds: &ChangeKinds, others: &ChangeKinds) -> bool {
    for (kind, other) in kinds.iter().zip(others) {
        if *kind && *other {
            return true;
        }
    }
    false
}

/// A change as text.
#[derive(Drop)]
struct Row {
    /// The word for the change.
    word: &'static str,
    /// The name and the version or versions of the package.
    package: String,
    targets: String,
    /// The other differences, separated by commas.
    notes: String,
}

/// Appends a note to others.
fn push_note(notes: &mut String, note: &str) -> Result<(), AllocError> {
    push_comma(notes, notes.is_empty())?;
    push(notes, note)
}

/// Appends a note on a text that is another one than before.
fn push_texts(
    notes: &mut String,
    alloc: Global,
    what: &str,
    old: Option<&str>,
    new: Option<&str>,
) -> Result<(), AllocError> {
    let old = format_text(alloc, old.unwrap_or("none"))?;
    let new = format_text(alloc, new.unwrap_or("none"))?;
    let note = format!(in alloc; "{what} {old} -> {new}")?;
    push_note(notes, note.as_str())
}

/// Appends the names of features, each after a sign.
fn push_features(
    notes: &mut String,
    alloc: Global,
    sign: char,
    names: &[&str],
) -> Result<(), AllocError> {
    for name in names {
        let name = format_text(alloc, name)?;
        let note = format!(in alloc; "{sign}{name}")?;
        push_note(notes, note.as_str())?;
    }
    Ok(())
}

/// Appends a note on targets, unless there are none.
fn push_targets(
    notes: &mut String,
    alloc: Global,
    what: &str,
    targets: TargetSet,
    query: &GraphQuery<'_>,
) -> Result<(), AllocError> {
    if targets.is_empty() {
        return Ok(());
    }
    let targets = format_targets(alloc, targets, query)?;
    let note = format!(in alloc; "{what} {targets}")?;
    push_note(notes, note.as_str())
}

/// Returns the notes on what differs in a package that is in both answers.
fn notes_on(
    alloc: Global,
    change: &Change<'_>,
    query: &GraphQuery<'_>,
) -> Result<String, AllocError> {
    let mut notes = String::new(alloc);
    let (Some(old), Some(new)) = (&change.old, &change.new) else {
        return Ok(notes);
    };
    push_targets(&mut notes, alloc, "new on", change.gained, query)?;
    push_targets(&mut notes, alloc, "gone from", change.lost, query)?;
    if old.license != new.license {
        push_texts(&mut notes, alloc, "licence", old.license, new.license)?;
    }
    if old.source != new.source {
        push_texts(&mut notes, alloc, "source", old.source, new.source)?;
    }
    push_features(&mut notes, alloc, '+', &change.added_features)?;
    push_features(&mut notes, alloc, '-', &change.removed_features)?;
    Ok(notes)
}

/// Returns the name of a package with its version, or with both versions if it is updated.
fn package_of(alloc: Global, change: &Change<'_>) -> Result<String, AllocError> {
    let name = format_text(alloc, change.name)?;
    match (&change.old, &change.new) {
        (Some(old), Some(new)) if old.version != new.version => {
            let old = format_text(alloc, old.version)?;
            let new = format_text(alloc, new.version)?;
            format!(in alloc; "{name} {old} -> {new}")
        }
        (_, Some(it)) | (Some(it), None) => {
            let version = format_text(alloc, it.version)?;
            format!(in alloc; "{name} {version}")
        }
        (None, None) => Ok(name),
    }
}

/// Returns a change as text.
fn row_of(alloc: Global, change: &Change<'_>, query: &GraphQuery<'_>) -> Result<Row, AllocError> {
    let targets = match &change.new {
        Some(new) => new.at,
        None => change.lost,
    };
    Ok(Row {
        word: change.word,
        package: package_of(alloc, change)?,
        targets: format_targets(alloc, targets, query)?,
        notes: notes_on(alloc, change, query)?,
    })
}

/// Appends a change as a line of text.
fn push_line(text: &mut String, alloc: Global, row: &Row) -> Result<(), AllocError> {
    let Row {
        word,
        package,
        targets,
        notes,
    } = row;
    let comma = if notes.is_empty() { "" } else { ", " };
    let line = format!(in alloc; "{word} {package}: {targets}{comma}{notes}\n")?;
    push(text, line.as_str())
}

/// Appends a text to a cell of a Markdown table.
fn push_cell(text: &mut String, cell: &str) -> Result<(), AllocError> {
    push(text, " ")?;
    for part in cell.chars() {
        if part == '|' || part == '\\' {
            text.push('\\')?;
        }
        text.push(part)?;
    }
    push(text, " |")
}

/// Appends a change as a row of a Markdown table.
fn push_row(text: &mut String, row: &Row) -> Result<(), AllocError> {
    push(text, "|")?;
    push_cell(text, row.word)?;
    push_cell(text, row.package.as_str())?;
    push_cell(text, row.targets.as_str())?;
    push_cell(text, row.notes.as_str())?;
    push(text, "\n")
}

/// Appends a change as a line of JSON.
fn push_object(
    text: &mut String,
    alloc: Global,
    change: &Change<'_>,
    has_features: bool,
    query: &GraphQuery<'_>,
) -> Result<(), AllocError> {
    let at = targets_of(&change.new);
    let old = change.old.as_ref();
    let new = change.new.as_ref();
    let mut line = ChangeLine {
        change: change.word,
        name: change.name,
        version: new.map(|it| it.version),
        old_version: old.map(|it| it.version),
        targets: query.count_of(at),
        at: query.targets_for_json(alloc, at)?,
        gained: query.targets_for_json(alloc, change.gained)?,
        lost: query.targets_for_json(alloc, change.lost)?,
        license: new.and_then(|it| it.license),
        old_license: old.and_then(|it| it.license),
        source: new.and_then(|it| it.source),
        old_source: old.and_then(|it| it.source),
        added_features: None,
        removed_features: None,
    };
    if has_features {
        line.added_features = Some(&change.added_features);
        line.removed_features = Some(&change.removed_features);
    }
    json_lines::push_spaced_line(text, alloc, &line)
}

/// The head of the Markdown table.
const HEAD: &str = "| change | package | targets | details |\n|---|---|---|---|\n";

/// Returns the change of a pair of packages.
fn change_of<'d>(
    alloc: Global,
    old: &Graph<'d>,
    new: &Graph<'d>,
    pair: &MatchedPackage<'d>,
    query: &GraphQuery<'_>,
) -> Result<Change<'d>, AllocError> {
    let before = present_in(alloc, old, pair.old, query)?;
    let after = present_in(alloc, new, pair.new, query)?;
    Change::of(alloc, pair.name, before, after)
}

/// Appends the line that counts the changes.
fn push_count(text: &mut String, alloc: Global, count: usize) -> Result<(), AllocError> {
    let are = if count == 1 {
        "package is"
    } else {
        "packages are"
    };
    let line = format!(in alloc; "{count} {are} new, gone or changed\n")?;
    push(text, line.as_str())
}

/// Appends a change in the selected format.
fn push_change(
    text: &mut String,
    alloc: Global,
    change: &Change<'_>,
    has_features: bool,
    query: &GraphQuery<'_>,
) -> Result<(), AllocError> {
    if query.json {
        return push_object(text, alloc, change, has_features, query);
    }
    let row = row_of(alloc, change, query)?;
    if !query.markdown {
        return push_line(text, alloc, &row);
    }
    if text.is_empty() {
        push(text, HEAD)?;
    }
    push_row(text, &row)
}

/// Returns the names of the members of the workspace.
fn member_names<'d>(alloc: Global, graph: &Graph<'d>) -> Result<Vec<&'d str>, AllocError> {
    let mut names = Vec::new(alloc);
    for index in &graph.order {
        match (graph.linked.packages.get(*index), graph.described(*index)) {
            (Some(package), Some(described)) if package.is_root => names.push(described.name)?,
            _ => {}
        }
    }
    Ok(names)
}

/// The warning for outputs without a common member.
const OTHERS: &str =
    "warning: no member of the workspace is in both files; are they of the same workspace?\n";

/// Returns whether a member of the old workspace has the name of a member of the new one.
fn have_common_member(alloc: Global, old: &Graph<'_>, new: &Graph<'_>) -> Result<bool, AllocError> {
    let names = member_names(alloc, old)?;
    for name in &member_names(alloc, new)? {
        if has_text(&names, name) {
            return Ok(true);
        }
    }
    Ok(false)
}

/// Returns the output of `--against`: each package that is new, gone or changed, sorted by name and version. The status
/// says whether there is a change of one of the kinds in `failing`.
pub fn show_changes<'d>(
    alloc: Global,
    old: &Graph<'d>,
    new: &Graph<'d>,
    query: &GraphQuery<'_>,
    failing: ChangeKinds,
) -> Result<Answer, AllocError> {
    let mut answer = Answer::of(alloc, String::new(alloc), Status::Fine);
    if !have_common_member(alloc, old, new)? {
        push(&mut answer.errors, OTHERS)?;
    }
    let has_features = new.features.is_some();
    let mut count: usize = 0;
    for pair in &matched_packages(alloc, old, new, query)? {
        let mut change = change_of(alloc, old, new, pair, query)?;
        let kinds = change.kinds();
        let Some(word) = word_of(&kinds) else {
            continue;
        };
        count = count.saturating_add(1);
        if have_common(&kinds, &failing) {
            answer.raise(Status::Found);
        }
        change.word = word;
        push_change(&mut answer.output, alloc, &change, has_features, query)?;
    }
    if !query.json {
        push_count(&mut answer.errors, alloc, count)?;
    }
    Ok(answer)
}
