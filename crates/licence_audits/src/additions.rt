//! Adds the licences of exceptions to the list of allowed licences.

ghost use Rattle.std.specs.Prelude.{◌≡◌, IfOk, map, ◌++◌};
ghost use Rattle.spdx_expressions.specs.Trees.{term_of};
ghost use Rattle.licence_audits.specs.Exceptions.{added, added_by};

use crate::subjects::{Exception, Subject};
use spdx_expressions::Licence;
use std::alloc::{AllocError, Global};

/// Returns a copy of a licence.
fn copy_of(licence: &Licence) -> Result<Licence, AllocError>
    ensures { IfOk result (λ copy. term_of copy ≡ term_of licence.now) }
{
    let id = licence.id.clone()?;
    let exception = match &licence.exception {
        Some(exception) => Some(exception.clone()?),
        None => None,
    };
    Ok(Licence {
        id,
        or_later: licence.or_later,
        exception,
    })
}

/// Adds copies of licences to a list.
pub(crate) fn add_copies(list: &mut Vec<Licence>, licences: &[Licence]) -> Result<(), AllocError>
    ensures { IfOk result (λ _. map term_of list.new.items ≡ map term_of list.old.items ++ map term_of licences.now) }
{
    'licences: for licence in licences {
        list.push(copy_of(licence)?)?;
    }
    Ok(())
}

/// Adds to a list what an exception adds for a package.
fn add_for(
    list: &mut Vec<Licence>,
    exception: &Exception,
    subject: &Subject<'_>,
) -> Result<(), AllocError>
    ensures { IfOk result (λ _. map term_of list.new.items
        ≡ map term_of list.old.items ++ added_by exception.now subject.now) }
{
    if !exception.packages.covers(subject) {
        return Ok(());
    }
    match &exception.licences {
        Some(licences) => add_copies(list, licences),
        None => Ok(()),
    }
}

/// Returns what exceptions add for a package to the licences that are allowed.
pub(crate) fn added_for(
    alloc: Global,
    exceptions: &[Exception],
    subject: &Subject<'_>,
) -> Result<Vec<Licence>, AllocError>
    ensures { IfOk result (λ list. map term_of list.items ≡ added exceptions.now subject.now) }
{
    let mut list = Vec::new(alloc);
    'exceptions: for exception in exceptions {
        add_for(&mut list, exception, subject)?;
    }
    Ok(list)
}
