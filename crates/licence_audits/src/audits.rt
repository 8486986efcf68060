//! Audits many packages.

ghost use Rattle.std.specs.Prelude.{IfOk, map, ◌++◌, option_map};
ghost use Rattle.spdx_expressions.specs.Trees.{term_of};
ghost use Rattle.licence_audits.specs.Audits.{AreFindings, IsFindingOf};
ghost use Rattle.licence_audits.specs.Exceptions.{added};
ghost use Rattle.licence_audits.specs.Findings.{HasFinding};

use crate::additions::{add_copies, added_for};
use crate::findings::{Finding, judge};
use crate::subjects::{Exception, Subject, is_audited};
use spdx_expressions::Licence;
use std::alloc::{AllocError, Global};

/// A problem with the licence of a package.
#[derive(Drop)]
pub struct PackageFinding {
    /// The index of the package among those that were audited.
    pub place: usize,
    pub finding: Finding,
}

/// Audits the packages in their order. Returns what `judge` finds of each package that is in the build and that no
/// exception names. Fails only if an allocation fails.
pub fn audit(
    alloc: Global,
    subjects: &[Subject<'_>],
    exceptions: &[Exception],
    allowed: &[Licence],
) -> Result<Vec<PackageFinding>, AllocError>
    ensures { IfOk result (λ findings. AreFindings (map term_of allowed.now) exceptions.now subjects.now
        findings.items) }
{
    let mut findings = Vec::new(alloc);
    'subjects: for i in 0..subjects.len() {
        let subject = &subjects[i];
        if let Some(found) = audit_of(alloc, subject, exceptions, allowed)? {
            findings.push(PackageFinding {
                place: i,
                finding: found,
            })?;
        }
    }
    Ok(findings)
}

/// Audits one package.
fn audit_of(
    alloc: Global,
    subject: &Subject<'_>,
    exceptions: &[Exception],
    allowed: &[Licence],
) -> Result<Option<Finding>, AllocError>
    ensures { IfOk result (λ found. IsFindingOf (map term_of allowed.now) exceptions.now subject.now found) }
{
    if is_audited(exceptions, subject) {
        judge_with(alloc, subject, exceptions, allowed)
    } else {
        Ok(None)
    }
}

/// Judges the licence of a package by the list of allowed licences and what exceptions add to it.
fn judge_with(
    alloc: Global,
    subject: &Subject<'_>,
    exceptions: &[Exception],
    allowed: &[Licence],
) -> Result<Option<Finding>, AllocError>
    ensures { IfOk result (λ found. HasFinding (added exceptions.now subject.now ++ map term_of allowed.now)
        (option_map (λ text. text.now) subject.now.license) found) }
{
    let mut list = added_for(alloc, exceptions, subject)?;
    if list.is_empty() {
        return judge(alloc, subject.license, allowed);
    }
    add_copies(&mut list, allowed)?;
    judge(alloc, subject.license, &list)
}
