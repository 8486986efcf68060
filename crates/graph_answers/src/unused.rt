//! Allowed licences and exceptions that no package needs.

use crate::licence_audit::Audit;
use crate::lines::push;
use crate::policies::AuditPolicy;
use cargo_platform::printable_excerpt;
use diagnostics::DiagnosticLevel;
use key_answers::answer::{Answer, Status};
use licence_audits::{Subject, is_unused_entry, is_unused_exception};
use licence_policies::UnusedLevel;
use manifests::key_locations::Location;
use spdx_expressions::Licence;
use std::alloc::{AllocError, Global};
use std::slice;

/// Returns the level of the diagnostic, or `None` if none is reported.
fn lint_level(level: UnusedLevel) -> Option<DiagnosticLevel> {
    match level {
        UnusedLevel::Allow => None,
        UnusedLevel::Warn => Some(DiagnosticLevel::Warning),
        UnusedLevel::Deny => Some(DiagnosticLevel::Error),
    }
}

/// Adds a diagnostic on an entry of a policy to an answer. An error makes the run fail.
fn report_entry(
    answer: &mut Answer,
    alloc: Global,
    policy: &AuditPolicy,
    level: DiagnosticLevel,
    at: Option<Location>,
    message: &str,
) -> Result<(), AllocError> {
    if level == DiagnosticLevel::Error {
        answer.raise(Status::Found);
    }
    let message = String::from_str(alloc, message)?;
    let text = policy.source.render(alloc, level, at, message)?;
    push(&mut answer.errors, text.as_str())
}

/// Adds diagnostics on the allowed licences of a policy that no package has.
fn report_licences(
    answer: &mut Answer,
    alloc: Global,
    policy: &AuditPolicy,
    licences: &[Licence],
    subjects: &[Subject<'_>],
) -> Result<(), AllocError> {
    let Some(level) = lint_level(policy.table.unused_licences) else {
        return Ok(());
    };
    for (licence, at) in licences.iter().zip(policy.table.allowed_at.iter()) {
        if is_unused_entry(alloc, slice::from_ref(licence), subjects)? {
            let message = "no package has this licence";
            report_entry(answer, alloc, policy, level, *at, message)?;
        }
    }
    Ok(())
}

/// Adds diagnostics on the exceptions of a policy that no package needs.
fn report_exceptions(
    answer: &mut Answer,
    alloc: Global,
    policy: &AuditPolicy,
    audit: &Audit<'_>,
    subjects: &[Subject<'_>],
) -> Result<(), AllocError> {
    let Some(level) = lint_level(policy.table.unused_exceptions) else {
        return Ok(());
    };
    for (exception, at) in audit
        .exceptions
        .iter()
        .zip(policy.table.exceptions_at.iter())
    {
        if is_unused_exception(alloc, exception, subjects)? {
            let message = "no package needs this exception";
            report_entry(answer, alloc, policy, level, *at, message)?;
        }
    }
    Ok(())
}

/// Adds a warning for each `--except` that no package needs.
fn report_arguments(
    answer: &mut Answer,
    alloc: Global,
    audit: &Audit<'_>,
    subjects: &[Subject<'_>],
) -> Result<(), AllocError> {
    let of_policy = audit.exceptions.len().saturating_sub(audit.except.len());
    let exceptions = audit.exceptions.get(of_policy..).unwrap_or(&[]);
    for (exception, word) in exceptions.iter().zip(audit.except.iter()) {
        if is_unused_exception(alloc, exception, subjects)? {
            let shown = printable_excerpt(alloc, word)?;
            let line = format!(in alloc; "warning: --except: no package needs `{shown}`\n")?;
            push(&mut answer.errors, line.as_str())?;
        }
    }
    Ok(())
}

/// Adds diagnostics on what no package needs: allowed licences and exceptions of the policy, and exceptions of the
/// arguments.
pub fn report_unused(
    answer: &mut Answer,
    alloc: Global,
    audit: &Audit<'_>,
    subjects: &[Subject<'_>],
) -> Result<(), AllocError> {
    if let Some(policy) = &audit.policy {
        report_licences(answer, alloc, policy, &audit.licences, subjects)?;
        report_exceptions(answer, alloc, policy, audit, subjects)?;
    }
    report_arguments(answer, alloc, audit, subjects)
}
