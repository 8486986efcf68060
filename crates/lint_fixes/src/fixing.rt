//! `lint --fix`: the suggestions of diagnostics, applied to a manifest.

ghost use Rattle.std.specs.Prelude.{◌≡◌, [], true, All, Contains, IfOk, List, ℕ, vec_len};
ghost use Rattle.std.specs.List.{list_all};
ghost use Rattle.toml.specs.View.{table_view};
ghost use Rattle.lint_fixes.specs.Fixing.{AreAmong, IfFixed, IsEditedTo, IsFixOf, IsSameDocument};
ghost use Rattle.lint_fixes.specs.Fixing.{HasNoneOf, LacksReplaced, SpellsItsTable, finds_key, is_replaced};
ghost use Rattle.lint_fixes.specs.Names.{IsRename};
ghost use Rattle.lint_fixes.specs.declared.fixing.Outcome.TheVariants.{Unchanged};

use crate::replacing::{CHANGED, FileChange, text_read, write_change};
use crate::sameness::{Renames, has_key, is_same_manifest};
use cargo_platform::printable_text;
use diagnostics::{Diagnostic, Replacement, list_entry_removals, replacement_of};
use input_limits::strip_byte_order_mark;
use key_answers::answer::{Answer, Status};
use std::alloc::{AllocError, Global};
use std::collections::{BTreeMap, BTreeSet};
use std::rt::Files;
use text_edits::{Edit, apply, unified_diff};
use toml::Table;
use toml_parser::ParseError;
use toml_spans::{Span, name_at_front};
use workspaces::{ManifestCache, parse_table};

/// The options that go with `--fix`.
#[derive(Clone, Copy, Drop)]
pub struct FixOptions {
    /// True if a diff is printed, and nothing is written.
    pub is_dry: bool,
    /// True if suggestions that may change what a manifest means are applied too.
    pub is_unsafe: bool,
    /// True if fixed files are not named.
    pub is_quiet: bool,
}

/// A name to write in place of another one, wherever a manifest spells that.
#[derive(Drop)]
struct Fix {
    from: String,
    to: String,
    /// True for a key of `target`, and false for the name of another table.
    is_key: bool,
    /// The places of the name, the first one first.
    spans: Vec<Span>,
    /// The new name as the manifest spells it.
    text: String,
}

/// The fixes for a manifest.
#[derive(Drop)]
pub struct Fixes {
    fixing: FixOptions,
    /// The text of the manifest.
    text: String,
    fixes: Vec<Fix>,
    /// The spans of entries that are to be removed from their lists.
    removed: Vec<Span>,
}

/// A manifest after fixes.
#[derive(Drop)]
struct FixedText {
    text: String,
    table: Table,
    edits: Vec<Edit>,
    /// The fixes that were applied, except entries that were removed.
    fixes: Vec<Fix>,
    /// The number of fixes that were applied, with these entries.
    count: usize,
}

/// The outcome of the fixes of a manifest.
#[derive(Drop)]
enum Outcome {
    /// There is no fix to apply.
    Unchanged,
    Fixed(FixedText),
    /// The fixes are not applied, for this reason.
    Refused(&'static str),
}

/// Returns the name that a whole text spells, or `None` if it spells none.
fn spelled_name(alloc: Global, text: &str) -> Result<Option<String>, AllocError> {
    match name_at_front(alloc, text) {
        Ok((name, rest)) => Ok(if rest.is_empty() { Some(name) } else { None }),
        Err(ParseError::OutOfMemory) => Err(AllocError),
        Err(ParseError::At(_, _, _)) => Ok(None),
    }
}

/// Returns the name that the text of a manifest spells at a place.
fn name_at(alloc: Global, text: &str, span: Span) -> Result<Option<String>, AllocError> {
    match span.text_in(text) {
        Some(spelled) => spelled_name(alloc, spelled),
        None => Ok(None),
    }
}

/// Returns the places of a replacement, if the text spells this name at each of them.
fn spans_of(
    alloc: Global,
    text: &str,
    replacement: &Replacement,
    from: &str,
) -> Result<Option<Vec<Span>>, AllocError> {
    let mut spans = Vec::new(alloc);
    spans.push(replacement.at.span)?;
    for at in &replacement.also_at {
        match name_at(alloc, text, at.span)? {
            Some(name) if name.as_str() == from => spans.push(at.span)?,
            _ => return Ok(None),
        }
    }
    Ok(Some(spans))
}

impl Fix {
    /// Returns the fix of a replacement in a text, if it replaces a name by a name.
    fn of(
        alloc: Global,
        text: &str,
        replacement: Replacement,
        is_key: bool,
    ) -> Result<Option<Fix>, AllocError> {
        let Some(from) = name_at(alloc, text, replacement.at.span)? else {
            return Ok(None);
        };
        let Some(to) = spelled_name(alloc, replacement.text.as_str())? else {
            return Ok(None);
        };
        match spans_of(alloc, text, &replacement, from.as_str())? {
            Some(spans) => Ok(Some(Fix {
                from,
                to,
                is_key,
                spans,
                text: replacement.text,
            })),
            None => Ok(None),
        }
    }
}

impl Fixes {
    /// Returns no fixes.
    pub fn new(alloc: Global, fixing: FixOptions) -> Fixes {
        Fixes {
            fixing,
            text: String::new(alloc),
            fixes: Vec::new(alloc),
            removed: Vec::new(alloc),
        }
    }

    /// Returns whether there are none.
    fn is_empty(&self) -> bool {
        self.fixes.is_empty() && self.removed.is_empty()
    }

    /// Records the text of the manifest, before the first fix.
    fn note_text(&mut self, alloc: Global, text: &str) -> Result<(), AllocError> {
        if self.is_empty() {
            self.text = String::from_str(alloc, text)?;
        }
        Ok(())
    }

    /// Adds the fix of a diagnostic on a manifest with this text, if it has one that is to be applied.
    pub fn add(
        &mut self,
        alloc: Global,
        text: &str,
        diagnostic: &Diagnostic,
    ) -> Result<(), AllocError> {
        let Some(replacement) = replacement_of(alloc, text, diagnostic)? else {
            return Ok(());
        };
        if !replacement.is_sure() && !self.fixing.is_unsafe {
            return Ok(());
        }
        if let Some(entry) = diagnostic.removed_entry() {
            self.note_text(alloc, text)?;
            self.removed.push(entry)?;
            return Ok(());
        }
        let is_key = diagnostic.key().is_some();
        if let Some(fix) = Fix::of(alloc, text, replacement, is_key)? {
            self.note_text(alloc, text)?;
            self.fixes.push(fix)?;
        }
        Ok(())
    }
}

/// Returns whether a fix replaces no key, or one that `target` of a manifest has.
fn finds_key(manifest: &Table, fix: &Fix) -> bool
    ensures { result ≡ finds_key (table_view manifest.now) fix.now }
{
    !fix.is_key || has_key(manifest, fix.from.as_str())
}

/// Returns whether `target` of a fixed manifest has none of the keys that fixes replace.
fn are_replaced(fixed: &Table, fixes: &[Fix]) -> bool
    ensures { result ≡ list_all (is_replaced (table_view fixed.now)) fixes.now }
{
    fixes
        .iter()
        .all(|fix| !fix.is_key || !has_key(fixed, fix.from.as_str()))
}

/// The places and the keys of the fixes that are chosen so far.
#[derive(Drop)]
struct Taken {
    starts: BTreeSet<usize>,
    keys: BTreeSet<String>,
}

impl Taken {
    /// Records a fix, unless its place is taken, the manifest lacks the key that it replaces, or it gives a key the
    /// name of another key. Returns whether it is recorded.
    fn add(&mut self, manifest: &Table, fix: &Fix) -> Result<bool, AllocError>
        // It replaces a key that the manifest has.
        ensures { IfOk result (λ is. is ≡ true → finds_key (table_view manifest.now) fix.now ≡ true) }
    {
        if !finds_key(manifest, fix) {
            return Ok(false);
        }
        let Some(first) = fix.spans.first() else {
            return Ok(false);
        };
        let to = fix.to.as_str();
        if self.starts.contains(&first.start) {
            return Ok(false);
        }
        if fix.is_key && (has_key(manifest, to) || self.keys.contains(to)) {
            return Ok(false);
        }
        let _is_new = self.starts.insert(first.start)?;
        if fix.is_key {
            let _is_new = self.keys.insert(fix.to.clone()?)?;
        }
        Ok(true)
    }
}

/// Returns the fixes that can be applied together to a manifest: of several at one place the first one, and none that
/// replaces a key of `target` that it lacks, or gives one the name of another key.
fn chosen_fixes(alloc: Global, fixes: Vec<Fix>, manifest: &Table) -> Result<Vec<Fix>, AllocError>
    // Each is one of the fixes.
    ensures among { IfOk result (λ chosen. All (Contains fixes.items) chosen.items) }
    // Each replaces a key that the manifest has, if it replaces a key.
    ensures found { IfOk result (λ chosen. list_all (finds_key (table_view manifest.now)) chosen.items ≡ true) }
{
    let mut taken = Taken {
        starts: BTreeSet::new(alloc),
        keys: BTreeSet::new(alloc),
    };
    let mut chosen = Vec::new(alloc);
    for fix in fixes {
        if taken.add(manifest, &fix)? {
            chosen.push(fix)?;
        }
    }
    Ok(chosen)
}

/// Returns the edit that replaces a span of a text, which has so many bytes before it, by this text.
fn edit_at(span: Span, before: usize, text: String) -> Edit {
    Edit {
        start: span.start.saturating_add(before),
        end: span.end.saturating_add(before),
        text,
    }
}

/// Returns the edits of fixes of a text, and those that remove entries of its lists, in the order of the text, which
/// has so many bytes before it.
fn edits_of(
    alloc: Global,
    text: &str,
    fixes: &[Fix],
    removed: &[Span],
    before: usize,
) -> Result<Vec<Edit>, AllocError> {
    let mut edits: Vec<Edit> = Vec::new(alloc);
    for fix in fixes {
        for span in &fix.spans {
            edits.push(edit_at(*span, before, fix.text.clone()?))?;
        }
    }
    for span in &list_entry_removals(alloc, text, removed)? {
        edits.push(edit_at(*span, before, String::new(alloc)))?;
    }
    edits.sort_by_key(|it| it.start)?;
    Ok(edits)
}

/// Returns the new names of fixes, by the old ones.
fn renames_of(alloc: Global, fixes: &[Fix]) -> Result<Renames, AllocError>
    // Each new name is that of a fix.
    ensures { IfOk result (λ renames. (name new : List ℕ) → IsRename renames name new → IsFixOf fixes.now name new) }
{
    let mut renames = BTreeMap::new(alloc);
    for fix in fixes {
        let from = fix.from.clone()?;
        let to = fix.to.clone()?;
        drop(renames.insert(from, to)?);
    }
    Ok(renames)
}

/// Applies fixes to a text, with or without a byte order mark, unless it is then another document.
fn fixed_text(
    alloc: Global,
    text: &str,
    fixes: Vec<Fix>,
    mut removed: Vec<Span>,
) -> Result<Outcome, AllocError>
    // A fixed text is the text, edited by the recorded edits, of which a diff is printed.
    ensures edited { IfOk result (λ it. IfFixed it (IsEditedTo text.now)) }
    // A fixed text is TOML, and spells the recorded table.
    ensures spelled { IfOk result (λ it. IfFixed it SpellsItsTable) }
    // The recorded fixes are among these.
    ensures among { IfOk result (λ it. IfFixed it (AreAmong fixes.items)) }
    // The recorded table is that of the text, but for names that the recorded fixes give, and as many entries of lists
    // of allowed lints as are to be removed.
    ensures same { IfOk result (λ it. IfFixed it (IsSameDocument text.now (vec_len removed))) }
    // A fixed text has none of the keys that the recorded fixes replace.
    ensures replaced { IfOk result (λ it. IfFixed it LacksReplaced) }
    // A text that has none of the keys that the fixes replace stays as it is.
    ensures unchanged { IfOk result (λ it. HasNoneOf text.now fixes.items → removed.items ≡ [] → it ≡ Unchanged) }
{
    let Some(manifest) = parse_table(alloc, text)? else {
        return Ok(Outcome::Unchanged);
    };
    let fixes = chosen_fixes(alloc, fixes, &manifest)?;
    if fixes.is_empty() && removed.is_empty() {
        return Ok(Outcome::Unchanged);
    }
    let count = removed.len();
    removed.sort_by_key(|span| span.start)?;
    let unmarked = strip_byte_order_mark(text);
    let mark = text.len().saturating_sub(unmarked.len());
    let edits = edits_of(alloc, unmarked, &fixes, &removed, mark)?;
    let fixed = apply(alloc, text, &edits)?.text;
    let Some(table) = parse_table(alloc, fixed.as_str())? else {
        return Ok(Outcome::Refused("the fixed text would not be TOML"));
    };
    let renames = renames_of(alloc, &fixes)?;
    if !is_same_manifest(alloc, &manifest, &table, &renames, count)? {
        return Ok(Outcome::Refused("the fixed text would be another document"));
    }
    if !are_replaced(&table, &fixes) {
        return Ok(Outcome::Refused("a key would not be replaced"));
    }
    let count = fixes.len().saturating_add(count);
    Ok(Outcome::Fixed(FixedText {
        text: fixed,
        table,
        edits,
        fixes,
        count,
    }))
}

/// Formats the line that names a fixed file, as Cargo does.
fn fixed_line(alloc: Global, path: &str, count: usize) -> Result<String, AllocError> {
    let path = printable_text(alloc, path)?;
    let end = if count == 1 { "" } else { "es" };
    format!(in alloc; "       Fixed {path} ({count} fix{end})\n")
}

/// Returns the answer that a file is not fixed, for this reason.
fn not_fixed(alloc: Global, path: &str, reason: &str) -> Result<Answer, AllocError> {
    let path = printable_text(alloc, path)?;
    let line = format!(in alloc; "{path}: error: nothing is fixed: {reason}\n")?;
    Ok(Answer::unusable(alloc, line))
}

/// Returns the diff of a file that would be fixed.
fn diff_of(alloc: Global, path: &str, text: &str, fixed: &FixedText) -> Result<Answer, AllocError> {
    let path = path.strip_prefix("./").unwrap_or(path);
    let diff = unified_diff(alloc, path, text, fixed.text.as_str(), &fixed.edits)?;
    Ok(Answer::of(alloc, diff, Status::Fine))
}

/// Writes a fixed file, and returns the line that names it; or the reason why it is not written.
fn written<R: Files + AllocGlobal>(
    rt: &R,
    path: &str,
    change: &FileChange<'_>,
    count: usize,
) -> Result<Answer, AllocError> {
    let alloc = rt.alloc();
    if let Some(reason) = write_change(rt, path, change)? {
        return not_fixed(alloc, path, reason.as_str());
    }
    let mut answer = Answer::of(alloc, String::new(alloc), Status::Fine);
    answer.errors = fixed_line(alloc, path, count)?;
    Ok(answer)
}

/// Applies fixes to the text of a file: writes it, or prints a diff, and puts what it then contains into `documents`.
fn fix_text<R: Files + AllocGlobal>(
    rt: &R,
    documents: &mut ManifestCache,
    path: &str,
    before: &str,
    fixes: Fixes,
) -> Result<Answer, AllocError> {
    let alloc = rt.alloc();
    let Fixes {
        fixing,
        text: _text,
        fixes,
        removed,
    } = fixes;
    let fixed = match fixed_text(alloc, before, fixes, removed)? {
        Outcome::Unchanged => return Ok(Answer::of(alloc, String::new(alloc), Status::Fine)),
        Outcome::Refused(reason) => return not_fixed(alloc, path, reason),
        Outcome::Fixed(fixed) => fixed,
    };
    let answer = if fixing.is_dry {
        diff_of(alloc, printable_text(alloc, path)?.as_str(), before, &fixed)?
    } else {
        let after = fixed.text.as_str();
        let limit = documents.limit;
        let change = FileChange {
            before,
            after,
            limit,
        };
        written(rt, path, &change, fixed.count)?
    };
    if answer.status != Status::Fine {
        return Ok(answer);
    }
    let FixedText {
        text,
        table,
        edits: _edits,
        fixes: _fixes,
        count: _count,
    } = fixed;
    documents.put(rt, path, text, Some(table))?;
    Ok(answer)
}

/// Applies fixes to the file at a path: writes it, or prints a diff, and puts what it then contains into `documents`. A
/// file that can't be fixed as a whole stays as it is, which is reported.
pub fn fix_file<R: Files + AllocGlobal>(
    rt: &R,
    documents: &mut ManifestCache,
    path: &str,
    fixes: Fixes,
) -> Result<Answer, AllocError> {
    let alloc = rt.alloc();
    if fixes.is_empty() {
        return Ok(Answer::of(alloc, String::new(alloc), Status::Fine));
    }
    let is_quiet = fixes.fixing.is_quiet;
    let mut answer = match text_read(rt, path, documents.limit)? {
        Ok(text) if strip_byte_order_mark(text.as_str()) == fixes.text.as_str() => {
            fix_text(rt, documents, path, text.as_str(), fixes)?
        }
        Ok(_) => not_fixed(alloc, path, CHANGED)?,
        Err(reason) => not_fixed(alloc, path, reason.as_str())?,
    };
    if is_quiet && answer.status == Status::Fine {
        answer.errors = String::new(alloc);
    }
    Ok(answer)
}
