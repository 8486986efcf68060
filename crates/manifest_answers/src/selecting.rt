//! `select`: the dependencies of a manifest that targets select.

use crate::cargo_refuses::Rejected;
use crate::described::{Declaration, first_line_of_key};
use crate::each_manifest::{ManifestQuery, answer_each};
use crate::faults::{ErrorReporter, Fault, span_of};
use crate::given_targets::FactsFrom;
use crate::opened::OpenNames;
use crate::questions::{added_facts, facts_from, unknown_name};
use cargo_platform::{Cfg, ParseError, printable_excerpt};
use key_answers::answer::{Answer, QueryError, Status};
use key_answers::json_lines;
use key_answers::printing::{invalid_key_message, key_reason};
use known_targets::KnownTarget;
use manifest_lints_findings::format_table_name;
use manifests::reading::Manifest;
use manifests::{
    Decision, Dependency, DependencyDecision, Kind, SelectError, TargetFacts, decide_condition,
    select,
};
use serde::Serialize;
use std::alloc::{AllocError, Global};
use std::rt::{Env, Files};
use target_tables::TargetRow;
use workspaces::ManifestCache;

/// Returns the word for a decision.
fn choice_word(decision: &Decision) -> &'static str {
    match decision {
        Decision::Selected => "selected",
        Decision::LeftOut => "left out",
        Decision::Open(_) => "open",
    }
}

/// Returns the condition that remains to be decided, as a key.
fn residual(alloc: Global, decision: &Decision) -> Result<Option<String>, AllocError> {
    match decision {
        Decision::Open(condition) => Ok(Some(condition.to_string(alloc)?)),
        Decision::Selected | Decision::LeftOut => Ok(None),
    }
}

/// The number of characters of a displayed text that are compared: those that are displayed, and one more.
const LOOKED_AT: usize = 101;

/// Returns the part of a displayed text that is compared.
fn looked_at(text: &str) -> &str {
    if text.len() <= LOOKED_AT {
        return text;
    }
    match text.char_indices().nth(LOOKED_AT) {
        Some((end, _)) => text.get(0..end).unwrap_or(text),
        None => text,
    }
}

/// A table of dependencies, as it is displayed.
#[derive(Drop)]
struct ShownTable<'a> {
    kind: Kind,
    /// The part of its key that is compared.
    key: Option<&'a str>,
    shown: String,
}

impl<'a> ShownTable<'a> {
    /// Returns the table that contains a dependency.
    fn of(alloc: Global, dependency: &Dependency<'a>) -> Result<ShownTable<'a>, AllocError> {
        let key = dependency.key.map(looked_at);
        Ok(ShownTable {
            kind: dependency.kind,
            key,
            shown: format_table_name(alloc, key, dependency.kind.table_name())?,
        })
    }

    /// Returns whether a dependency is in a table that is displayed in the same way.
    fn shows_that_of(&self, dependency: &Dependency<'_>) -> bool {
        self.kind == dependency.kind && self.key == dependency.key.map(looked_at)
    }
}

/// Returns whether a text is displayed unchanged, since it is short and has only printable ASCII characters.
fn is_plain(text: &str) -> bool {
    text.len() < LOOKED_AT && text.bytes().all(|byte| byte.is_ascii_graphic())
}

/// Appends a name as it is shown.
fn push_shown(text: &mut String, alloc: Global, name: &str) -> Result<(), AllocError> {
    if is_plain(name) {
        return text.push_str(name);
    }
    text.push_str(printable_excerpt(alloc, name)?.as_str())
}

/// Appends the condition that remains to be decided, as it is printed after the word for the decision.
fn push_residual(text: &mut String, alloc: Global, decision: &Decision) -> Result<(), AllocError> {
    if let Some(key) = residual(alloc, decision)? {
        text.push_str(" where ")?;
        text.push_str(printable_excerpt(alloc, key.as_str())?.as_str())?;
    }
    Ok(())
}

/// The manifest of some lines, and the target that they name.
#[derive(Clone, Copy, Drop)]
struct LinesOn<'p> {
    path: &'p str,
    /// The name of the target, if several are selected.
    target: Option<&'p str>,
}

/// Appends the target of a line, if lines name it.
fn push_target(text: &mut String, alloc: Global, on: LinesOn<'_>) -> Result<(), AllocError> {
    if let Some(target) = on.target {
        text.push_str(" on ")?;
        push_shown(text, alloc, target)?;
    }
    Ok(())
}

/// Appends the line of a dependency in a table that is shown so.
fn push_line(
    text: &mut String,
    alloc: Global,
    on: LinesOn<'_>,
    table: &str,
    row: &DependencyDecision<'_>,
) -> Result<(), AllocError> {
    text.push_str(on.path)?;
    text.push_str(": ")?;
    push_shown(text, alloc, row.dependency.name)?;
    text.push_str(" (")?;
    text.push_str(table)?;
    if row.dependency.optional {
        text.push_str(", optional")?;
    }
    text.push_str(")")?;
    push_target(text, alloc, on)?;
    text.push_str(": ")?;
    text.push_str(choice_word(&row.decision))?;
    push_residual(text, alloc, &row.decision)?;
    text.push_str("\n")
}

/// Appends the lines of dependencies. Most are in the same table as the one before.
fn push_lines(
    text: &mut String,
    alloc: Global,
    on: LinesOn<'_>,
    rows: &[DependencyDecision<'_>],
) -> Result<(), AllocError> {
    let Some(first) = rows.first() else {
        return Ok(());
    };
    let mut table = ShownTable::of(alloc, &first.dependency)?;
    for row in rows {
        if !table.shows_that_of(&row.dependency) {
            table = ShownTable::of(alloc, &row.dependency)?;
        }
        push_line(text, alloc, on, table.shown.as_str(), row)?;
    }
    Ok(())
}

/// A line of `select --json`: a dependency, and whether it is selected.
#[derive(Drop, Serialize)]
struct SelectedDependency<'a> {
    /// One of `selected`, `left out` and `open`.
    choice: &'static str,
    /// The name in the table.
    dependency: &'a str,
    features: Vec<&'a str>,
    /// The key of `target`; null outside of `target`.
    key: Option<&'a str>,
    /// The line on which that key first appears.
    line: Option<usize>,
    /// The path of the manifest.
    manifest: &'a str,
    /// Whether it has `optional = true`.
    optional: bool,
    /// The package's own name.
    package: &'a str,
    /// With `open`, the key that is left to decide.
    residual: Option<String>,
    /// One of `registry`, `git`, `path` and `workspace`.
    source: &'static str,
    /// One of `dependencies`, `dev-dependencies` and `build-dependencies`.
    table: &'static str,
    /// The name of the target.
    target: &'a str,
    version: Option<&'a str>,
}

/// Appends the line of JSON of a dependency.
fn push_object<'a>(
    text: &mut String,
    alloc: Global,
    manifest: &'a Manifest,
    target: &'a str,
    row: &'a DependencyDecision<'a>,
) -> Result<(), AllocError> {
    let dependency = &row.dependency;
    let described = Declaration::of(alloc, &manifest.document, dependency)?;
    let line = SelectedDependency {
        choice: choice_word(&row.decision),
        dependency: dependency.name,
        features: described.features,
        key: dependency.key,
        line: described.line,
        manifest: manifest.path.as_str(),
        optional: dependency.optional,
        package: described.package.unwrap_or(dependency.name),
        residual: residual(alloc, &row.decision)?,
        source: described.source,
        table: dependency.kind.table_name(),
        target,
        version: described.version,
    };
    json_lines::push_line(text, alloc, &line)
}

/// Returns the message for a key that is not a table.
fn no_table_line(alloc: Global, path: &str, key: &str) -> Result<String, AllocError> {
    let key = printable_excerpt(alloc, key)?;
    format!(in alloc; "{path}: error: target.'{key}' is not a table\n")
}

/// Returns the lines for an invalid key.
fn refused_key_lines(
    alloc: Global,
    path: &str,
    key: &str,
    error: &ParseError,
) -> Result<String, AllocError> {
    let fault = invalid_key_message(alloc, key, error)?;
    format!(in alloc; "{path}: {fault}")
}

/// Returns the lines for a manifest from which nothing is selected.
fn refused_lines(alloc: Global, path: &str, error: &SelectError<'_>) -> Result<String, AllocError> {
    match error {
        SelectError::Memory(_) => Err(AllocError),
        SelectError::TargetIsNoTable => format!(in alloc;
            "{path}: error: `target` is not a table\n"
        ),
        SelectError::KeyIsNoTable(key) => no_table_line(alloc, path, key),
        SelectError::Refused(key, error) => refused_key_lines(alloc, path, key, error),
    }
}

/// Returns the message of an error object.
fn refused_message(alloc: Global, error: &SelectError<'_>) -> Result<String, AllocError> {
    match error {
        SelectError::Memory(_) => Err(AllocError),
        SelectError::TargetIsNoTable => String::from_str(alloc, "`target` is not a table"),
        SelectError::KeyIsNoTable(_) => String::from_str(alloc, "it is not a table"),
        SelectError::Refused(key, error) => {
            let reason = key_reason(alloc, key, error)?;
            format!(in alloc; "invalid key: {reason}")
        }
    }
}

/// Returns the invalid key and the span of the error in it, if a key is at fault.
fn key_at_fault<'a>(error: &SelectError<'a>) -> (Option<&'a str>, Option<(usize, usize)>) {
    match error {
        SelectError::Memory(_) | SelectError::TargetIsNoTable => (None, None),
        SelectError::KeyIsNoTable(key) => (Some(*key), None),
        SelectError::Refused(key, error) => (Some(*key), span_of(key, error)),
    }
}

/// Returns the error for which nothing is selected from a manifest, with its message.
fn fault_in<'a, 'm>(
    manifest: &'a Manifest,
    error: &SelectError<'a>,
    message: &'m str,
) -> Fault<'a, 'm> {
    let (key, span) = key_at_fault(error);
    let line = match key {
        Some(key) => first_line_of_key(&manifest.document, key),
        None => None,
    };
    Fault {
        manifest: Some(manifest.path.as_str()),
        key,
        line,
        span,
        message,
    }
}

/// Returns the answer on a manifest from which nothing is selected.
fn refused<'a>(
    alloc: Global,
    errors: &ErrorReporter<'_>,
    manifest: &'a Manifest,
    error: &SelectError<'a>,
) -> Result<Answer, AllocError> {
    let lines = refused_lines(alloc, manifest.path.as_str(), error)?;
    let message = refused_message(alloc, error)?;
    let fault = fault_in(manifest, error, message.as_str());
    errors.report(alloc, &fault, lines.as_str())
}

/// Returns the answer on a manifest that Cargo rejects.
fn answer_on_rejected(
    alloc: Global,
    errors: &ErrorReporter<'_>,
    path: &str,
    rejected: &Rejected,
) -> Result<Answer, AllocError> {
    let text = rejected.text(alloc, path)?;
    let fault = Fault {
        manifest: Some(path),
        key: None,
        line: rejected.line(),
        span: None,
        message: rejected.reason.as_str(),
    };
    errors.report(alloc, &fault, text.as_str())
}

/// The rows of a manifest for a target, which are printed in this format.
#[derive(Clone, Copy, Drop)]
struct RowsOn<'a> {
    manifest: &'a Manifest,
    /// The name of the target.
    target: &'a str,
    errors: ErrorReporter<'a>,
}

/// Appends what is printed of the rows, a line each; objects if JSON is selected.
fn push_rows(
    text: &mut String,
    alloc: Global,
    on: RowsOn<'_>,
    rows: &[DependencyDecision<'_>],
) -> Result<(), AllocError> {
    if on.errors.json {
        for row in rows {
            push_object(text, alloc, on.manifest, on.target, row)?;
        }
        return Ok(());
    }
    let on = LinesOn {
        path: on.manifest.path.as_str(),
        target: if on.errors.target.is_some() {
            None
        } else {
            Some(on.target)
        },
    };
    push_lines(text, alloc, on, rows)
}

/// A selected target, with the facts that are known of it.
#[derive(Drop)]
struct KnownOf {
    name: String,
    facts: Vec<Cfg>,
    added: Vec<Cfg>,
}

/// `select`: the targets and the host, and how the answer is printed.
#[derive(Drop)]
struct Selecting<'a> {
    errors: ErrorReporter<'a>,
    targets: &'a [KnownOf],
    open: &'a [&'a str],
    host: Host<'a>,
    /// The names that are left open.
    opened: OpenNames,
}

impl<'a> Selecting<'a> {
    /// Returns the rows of a manifest for a target.
    fn rows_of<'m>(
        &self,
        alloc: Global,
        manifest: &'m Manifest,
        target: &KnownOf,
    ) -> Result<Vec<DependencyDecision<'m>>, SelectError<'m>> {
        let known = TargetFacts {
            facts: &target.facts,
            added: &target.added,
            open: self.open,
        };
        let table = &manifest.document.table;
        select(
            alloc,
            table,
            target.name.as_str(),
            &known,
            self.host.known(),
        )
    }
}

impl<'a> ManifestQuery for Selecting<'a> {
    fn asks_for_lines(&self) -> bool {
        self.errors.json
    }

    fn add_answer(
        &mut self,
        alloc: Global,
        manifest: &Manifest,
        rejected: &Option<Rejected>,
        whole: &mut Answer,
    ) -> Result<(), AllocError> {
        self.opened.record_uses(alloc, &manifest.document.table)?;
        for target in self.targets {
            let mut rows = match self.rows_of(alloc, manifest, target) {
                Ok(rows) => rows,
                Err(error) => return whole.append(refused(alloc, &self.errors, manifest, &error)?),
            };
            if let Some(rejected) = rejected {
                let path = manifest.path.as_str();
                return whole.append(answer_on_rejected(alloc, &self.errors, path, rejected)?);
            }
            self.host.decide(alloc, &mut rows)?;
            let on = RowsOn {
                manifest,
                target: target.name.as_str(),
                errors: self.errors,
            };
            push_rows(&mut whole.output, alloc, on, &rows)?;
        }
        Ok(())
    }

    fn refuse(
        &mut self,
        alloc: Global,
        path: &str,
        reason: &str,
        line: &str,
    ) -> Result<Answer, AllocError> {
        let fault = Fault::of(Some(path), reason);
        self.errors.report(alloc, &fault, line)
    }
}

/// A selected target.
#[derive(Drop)]
pub struct Target {
    pub name: String,
    /// Facts in addition to its own.
    pub added: Vec<String>,
}

/// The options of `select`, beside its targets.
#[derive(Clone, Copy, Drop)]
pub struct SelectOptions<'a> {
    /// The name of the target, if it is the only one, and the output format.
    pub errors: ErrorReporter<'a>,
    /// The names and keys whose facts are open.
    pub open: &'a [&'a str],
    /// The source of the facts of targets.
    pub facts_from: FactsFrom<'a>,
    /// The name of the host.
    pub host: Option<&'a str>,
}

/// The target that build scripts are built for.
#[derive(Clone, Copy, Drop)]
enum Host<'a> {
    /// Not given.
    Open,
    /// A built-in target.
    Known(KnownTarget),
    /// A target of a file.
    OfFile(&'a TargetRow),
}

impl<'a> Host<'a> {
    /// Returns the host of this name.
    fn of(alloc: Global, name: Option<&str>, from: FactsFrom<'a>) -> Result<Host<'a>, QueryError> {
        let Some(name) = name else {
            return Ok(Host::Open);
        };
        if let FactsFrom::File(given) = from {
            return Ok(Host::OfFile(given.named(alloc, name)?));
        }
        match KnownTarget::by_name(name) {
            Some(host) => Ok(Host::Known(host)),
            None => Err(QueryError::Unusable(unknown_name(alloc, name)?)),
        }
    }

    /// Returns the host, if it is a built-in target.
    fn known(self) -> Option<KnownTarget> {
        match self {
            Host::Known(host) => Some(host),
            Host::Open | Host::OfFile(_) => None,
        }
    }

    /// Decides the build-dependencies that are open by the target of a file.
    fn decide(self, alloc: Global, rows: &mut [DependencyDecision<'_>]) -> Result<(), AllocError> {
        let Host::OfFile(host) = self else {
            return Ok(());
        };
        let known = TargetFacts {
            facts: host.facts(),
            added: &[],
            open: &[],
        };
        for row in rows {
            if row.dependency.kind != Kind::Build {
                continue;
            }
            if let Decision::Open(condition) = &row.decision {
                row.decision = decide_condition(alloc, condition, host.name(), &known)?;
            }
        }
        Ok(())
    }
}

/// Appends the messages about names that are left open and that no key uses.
fn add_unused_names(
    answer: &mut Answer,
    alloc: Global,
    opened: &OpenNames,
) -> Result<(), AllocError> {
    let unused_warnings = opened.unused_warnings(alloc)?;
    answer.errors.push_str(unused_warnings.as_str())
}

/// Returns the facts that are known of a target.
fn known_of(alloc: Global, target: &Target, from: FactsFrom<'_>) -> Result<KnownOf, QueryError> {
    let name = target.name.as_str();
    let facts = facts_from(alloc, name, from)?;
    let texts: Vec<&str> = target
        .added
        .iter()
        .map(|text| text.as_str())
        .collect(alloc)?;
    let added = added_facts(alloc, &texts)?;
    Ok(KnownOf {
        name: String::from_str(alloc, name)?,
        facts,
        added,
    })
}

/// Returns the facts that are known of each target.
fn known_of_each(
    alloc: Global,
    targets: &[Target],
    from: FactsFrom<'_>,
) -> Result<Vec<KnownOf>, QueryError> {
    let mut known = Vec::new(alloc);
    for target in targets {
        let it = known_of(alloc, target, from)?;
        known.push(it).map_err(AllocError::from)?;
    }
    Ok(known)
}

/// Returns the dependencies that each target selects from the manifests at these paths, in the order of the paths, by
/// the facts of the target and of the host. Manifests in the cache are not read again. Manifests that are larger than
/// its limit are rejected.
pub fn select_each<R: Files + Input + Env + AllocGlobal>(
    rt: &R,
    documents: &mut ManifestCache,
    paths: &[&str],
    targets: &[Target],
    selection: &SelectOptions<'_>,
) -> Result<Answer, QueryError> {
    let alloc = rt.alloc();
    let targets = known_of_each(alloc, targets, selection.facts_from)?;
    let host = Host::of(alloc, selection.host, selection.facts_from)?;
    let mut selecting = Selecting {
        errors: selection.errors,
        targets: &targets,
        open: selection.open,
        host,
        opened: OpenNames::new(alloc, selection.open)?,
    };
    let mut answer = answer_each(rt, documents, paths, &mut selecting)?;
    add_unused_names(&mut answer, alloc, &selecting.opened)?;
    Ok(answer)
}
