//! `--allow` and `--policy`: the packages whose licence is not satisfied by a list of allowed licences, and the targets
//! on which they are in the build.

use crate::dependency_paths::paths_to_reported;
use crate::excluded::subject_of;
use crate::faults::{fault_lines, fault_message};
use crate::graph::Graph;
use crate::identifiers::{Messages, Place};
use crate::licence_report::{LicenceReport, counts_line};
use crate::lines::push;
use crate::policies::AuditPolicy;
use crate::query::{GraphArguments, GraphQuery, argument_error};
use crate::unused::report_unused;
use cargo_platform::printable_text;
use key_answers::answer::{Answer, QueryError, Status};
use key_answers::printing::format_name;
use licence_audits::{Exception, Finding, PackageFinding, PackageSpec, Subject, audit};
use licence_policies::{ExceptionError, exception_of};
use spdx_expressions::{Licence, ParseError, ReadError};
use std::alloc::{AllocError, Global};
use std::mem;

/// The allowed licences and the exceptions of an audit. Those of the policy, if there is one, are the first ones.
#[derive(Drop)]
pub struct Audit<'a> {
    pub licences: Vec<Licence>,
    pub exceptions: Vec<Exception>,
    /// The arguments of `--except`.
    pub except: &'a [&'a str],
    /// True if private packages are not audited.
    ignores_private: bool,
    /// Messages about the identifiers of licences.
    messages: Messages,
    pub policy: Option<AuditPolicy>,
}

/// Returns the message for an entry that is not a licence.
fn no_licence(alloc: Global, place: Place<'_>, error: &ParseError) -> Result<String, AllocError> {
    let lines = fault_lines(alloc, error)?;
    let start = place.line_prefix(alloc, "error")?;
    format!(in alloc; "{start}the entry is not a licence\n{lines}")
}

/// Parses an entry as a licence. The message of an error names `place`.
fn licence_of(alloc: Global, place: Place<'_>, entry: &str) -> Result<Licence, QueryError> {
    match Licence::from_str(alloc, entry) {
        Ok(licence) => Ok(licence),
        Err(ReadError::Parse(error)) => Err(QueryError::Unusable(no_licence(
            alloc, place, &error,
        )?)),
        Err(ReadError::Memory(refused)) => Err(QueryError::Memory(refused)),
    }
}

/// Adds an entry to the allowed licences, with what there is to say of its identifiers.
fn add_entry(
    audit: &mut Audit<'_>,
    alloc: Global,
    place: Place<'_>,
    entry: &str,
) -> Result<(), QueryError> {
    let licence = licence_of(alloc, place, entry)?;
    audit.messages.add_entry(alloc, place, &licence)?;
    audit.licences.push(licence).map_err(AllocError::from)?;
    Ok(())
}

/// Adds the entries of `--allow`, which are separated by commas.
fn add_list(audit: &mut Audit<'_>, alloc: Global, list: &str) -> Result<(), QueryError> {
    for entry in list.split(',') {
        add_entry(audit, alloc, Place::Option, entry)?;
    }
    Ok(())
}

/// Adds the entries of a file, one per line. Empty lines and lines that begin with `#` are skipped.
fn add_lines(
    audit: &mut Audit<'_>,
    alloc: Global,
    file: &str,
    text: &str,
) -> Result<(), QueryError> {
    let file = printable_text(alloc, file)?;
    let mut number: usize = 0;
    for line in text.lines() {
        number = number.saturating_add(1);
        let entry = line.trim();
        if entry.is_empty() || entry.starts_with('#') {
            continue;
        }
        add_entry(audit, alloc, Place::Line(file.as_str(), number), entry)?;
    }
    Ok(())
}

/// Returns the message for an argument that is not an exception.
fn no_exception(alloc: Global, word: &str, error: &ExceptionError) -> Result<String, AllocError> {
    let shown = format_name(alloc, word)?;
    match error {
        ExceptionError::NoRange(reason) => {
            let reason = reason.as_str();
            format!(in alloc; "--except: no version or range after `@` in {shown}: {reason}")
        }
        ExceptionError::NoLicence(error) => {
            let message = fault_message(alloc, error)?;
            format!(in alloc; "--except: no licence after `:` in {shown}: {message}")
        }
        ExceptionError::NoName | ExceptionError::Memory(_) => format!(in alloc;
            "--except names NAME, NAME@VERSION or NAME@RANGE, perhaps with :LICENCES, and not {shown}"
        ),
    }
}

/// Parses the exceptions of the arguments.
fn add_exceptions(audit: &mut Audit<'_>, alloc: Global) -> Result<(), QueryError> {
    for word in audit.except {
        match exception_of(alloc, word) {
            Ok(exception) => audit.exceptions.push(exception).map_err(AllocError::from)?,
            Err(ExceptionError::Memory(refused)) => return Err(QueryError::Memory(refused)),
            Err(error) => {
                let text = no_exception(alloc, word, &error)?;
                return Err(argument_error(alloc, text.as_str()));
            }
        }
    }
    Ok(())
}

/// Returns an audit with the licences and exceptions of a policy alone.
fn audit_by<'a>(
    alloc: Global,
    arguments: &GraphArguments<'a>,
    policy: Option<AuditPolicy>,
) -> Audit<'a> {
    let mut audit = Audit {
        licences: Vec::new(alloc),
        exceptions: Vec::new(alloc),
        except: arguments.except,
        ignores_private: arguments.except_private,
        messages: Messages::new(alloc),
        policy: None,
    };
    if let Some(policy) = policy {
        let mut policy = policy;
        audit.licences = mem::replace(&mut policy.table.allowed, Vec::new(alloc));
        audit.exceptions = mem::replace(&mut policy.table.exceptions, Vec::new(alloc));
        audit.ignores_private |= policy.table.ignores_private;
        audit.policy = Some(policy);
    }
    audit
}

/// Returns the message for options that do not go together, if there are any.
fn misplaced(arguments: &GraphArguments<'_>) -> Option<&'static str> {
    let has_list = arguments.allow.is_some()
        || arguments.allow_file.is_some()
        || arguments.policy.is_some();
    if !has_list && (arguments.except_private || !arguments.except.is_empty()) {
        return Some(
            "`--except` and `--except-private` go with `--allow`, `--allow-file` or `--policy`",
        );
    }
    if has_list && arguments.show.is_some() {
        return Some("`--show` does not go with `--allow`, `--allow-file` and `--policy`");
    }
    None
}

impl<'a> Audit<'a> {
    /// Returns the audit that the arguments and the policy describe, if they request one.
    ///
    /// # Errors
    ///
    /// Refuses `--except` without a list of allowed licences, `--show` together with one, an entry that is not a
    /// licence, and an argument that is not an exception. Fails if an allocation fails.
    pub fn of(
        alloc: Global,
        arguments: &GraphArguments<'a>,
        policy: Option<AuditPolicy>,
    ) -> Result<Option<Audit<'a>>, QueryError> {
        if let Some(text) = misplaced(arguments) {
            return Err(argument_error(alloc, text));
        }
        if arguments.allow.is_none() && arguments.allow_file.is_none() && policy.is_none() {
            return Ok(None);
        }
        let mut audit = audit_by(alloc, arguments, policy);
        if let Some(list) = arguments.allow {
            add_list(&mut audit, alloc, list)?;
        }
        if let Some((file, text)) = arguments.allow_file {
            add_lines(&mut audit, alloc, file, text)?;
        }
        add_exceptions(&mut audit, alloc)?;
        Ok(Some(audit))
    }

    /// Returns the packages that the policy takes out of the graph.
    pub fn excluded(&self) -> &[PackageSpec] {
        match &self.policy {
            Some(policy) => policy.excluded.as_slice(),
            None => &[],
        }
    }
}

/// Returns the packages as subjects of an audit, in the order of the graph.
fn subjects_of<'a>(
    alloc: Global,
    graph: &Graph<'a>,
    query: &GraphQuery<'_>,
    by: &Audit<'_>,
) -> Result<Vec<Subject<'a>>, AllocError> {
    let mut subjects = Vec::new(alloc);
    for i in &graph.order {
        let is_present = !graph.targets_in(*i, query).is_empty();
        let subject = match graph.described(*i) {
            Some(described) => {
                let is_ignored = by.ignores_private && described.is_private;
                subject_of(alloc, described, is_present && !is_ignored)?
            }
            None => Subject {
                name: "",
                version: None,
                license: None,
                is_present: false,
            },
        };
        subjects.push(subject)?;
    }
    Ok(subjects)
}

/// Returns the output of an audit. Its status is `Found` if there is something to report.
pub fn show_licences<'a>(
    alloc: Global,
    graph: &Graph<'a>,
    query: &GraphQuery<'a>,
    by: &Audit<'_>,
) -> Result<Answer, AllocError> {
    let subjects = subjects_of(alloc, graph, query, by)?;
    let findings = audit(alloc, &subjects, &by.exceptions, &by.licences)?;
    let mut answer = Answer::of(alloc, String::new(alloc), Status::Fine);
    if let Some(policy) = &by.policy {
        push(&mut answer.errors, policy.messages.as_str())?;
    }
    push(&mut answer.errors, by.messages.text())?;
    report_unused(&mut answer, alloc, by, &subjects)?;
    let messages = messages_on(alloc, graph, &findings, query)?;
    push(&mut answer.errors, messages.text())?;
    if !findings.is_empty() {
        answer.raise(Status::Found);
    }
    let paths = paths_to_reported(alloc, graph, &findings, query)?;
    let reported = LicenceReport {
        graph,
        findings: &findings,
        query,
        paths: &paths,
    };
    if query.json {
        reported.push_objects(&mut answer.output, alloc)?;
        return Ok(answer);
    }
    reported.push_groups(&mut answer.output, alloc)?;
    let line = counts_line(alloc, graph, &findings, &subjects)?;
    push(&mut answer.errors, line.as_str())?;
    Ok(answer)
}

/// Returns the messages about the licences that are not allowed. Notes are left out for JSON, which has both forms of a
/// licence.
fn messages_on(
    alloc: Global,
    graph: &Graph<'_>,
    findings: &[PackageFinding],
    query: &GraphQuery<'_>,
) -> Result<Messages, AllocError> {
    let mut messages = Messages::new(alloc);
    for one in findings {
        let (Some(index), Finding::NotAllowed(expression)) = (
            graph.order.get(one.place),
            &one.finding,
        ) else {
            continue;
        };
        let name = graph.format_package(alloc, *index)?;
        let license = match graph.described(*index) {
            Some(described) if !query.json => described.license,
            _ => None,
        };
        messages.add_package(alloc, name.as_str(), license, expression)?;
    }
    Ok(messages)
}

/// Returns for each package of a graph the finding of an audit about its licence, if there is one.
pub fn findings_in(
    alloc: Global,
    graph: &Graph<'_>,
    query: &GraphQuery<'_>,
    by: &Option<Audit<'_>>,
) -> Result<Vec<Option<&'static str>>, AllocError> {
    let mut reported = vec![in alloc; None; graph.order.len()]?;
    let Some(by) = by else {
        return Ok(reported);
    };
    let subjects = subjects_of(alloc, graph, query, by)?;
    for one in &audit(alloc, &subjects, &by.exceptions, &by.licences)? {
        let Some(index) = graph.order.get(one.place) else {
            continue;
        };
        if let Some(slot) = reported.get_mut(*index) {
            *slot = Some(finding_text(&one.finding));
        }
    }
    Ok(reported)
}

/// Returns what a page says of a licence.
fn finding_text(finding: &Finding) -> &'static str {
    match finding {
        Finding::NotAllowed(_) => "not allowed",
        Finding::Missing => "missing",
        Finding::Refused(_) => "refused",
    }
}
