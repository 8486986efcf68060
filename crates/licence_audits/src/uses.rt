//! Which allowed licences and which exceptions packages need.

ghost use Rattle.std.specs.Prelude.{◌≡◌, IfOk, option_map, not};
ghost use Rattle.std.specs.List.{IsAnyAnswer};
ghost use Rattle.licence_audits.specs.Uses.{is_allowed_by, is_use, has_use, IsNaming, Names};
ghost use Rattle.licence_audits.specs.Uses.{NeedsEntry, is_for, NeedsException};

use crate::subjects::{Exception, Subject};
use spdx_expressions::{Licence, LicenceExpression, Part, ReadError};
use std::alloc::{AllocError, Global};

/// Returns whether some entry allows a licence.
fn is_allowed_by(entries: &[Licence], licence: &Licence) -> bool
    ensures { result ≡ is_allowed_by entries.now licence.now }
{
    entries.iter().any(|entry| entry.allows(licence))
}

/// Returns whether a part of an expression is a licence that some entry allows.
fn is_use(entries: &[Licence], part: &Part) -> bool
    ensures { result ≡ is_use entries.now part.now }
{
    match part {
        Part::Licence(licence) => is_allowed_by(entries, licence),
        Part::And | Part::Or | Part::Open | Part::Close => false,
    }
}

/// Returns whether one of the parts of an expression is a licence that some entry allows.
fn has_use(entries: &[Licence], parts: &[Part]) -> bool
    ensures { result ≡ has_use entries.now parts.now }
{
    parts.iter().any(|part| is_use(entries, part))
}

/// Returns whether a text names a licence that some entry allows. A text that is no expression names none.
fn names_in(alloc: Global, entries: &[Licence], text: &str) -> Result<bool, AllocError>
    ensures { IfOk result (λ yes. IsNaming entries.now text.now yes) }
{
    match LicenceExpression::from_str(alloc, text) {
        Ok(expression) => Ok(has_use(entries, expression.parts())),
        Err(ReadError::Parse(_)) => Ok(false),
        Err(ReadError::Memory(error)) => Err(error),
    }
}

/// Returns whether a licence text, if there is one, names a licence that some entry allows.
fn names(alloc: Global, entries: &[Licence], license: Option<&str>) -> Result<bool, AllocError>
    ensures { IfOk result
        (λ yes. Names entries.now (option_map (λ text. text.now) license.entry) yes) }
{
    match license {
        Some(text) => names_in(alloc, entries, text),
        None => Ok(false),
    }
}

/// Returns whether a package that is to be audited has a licence that some entry of a list allows.
fn needs_entry(
    alloc: Global,
    entries: &[Licence],
    subject: &Subject<'_>,
) -> Result<bool, AllocError>
    ensures { IfOk result (λ yes. NeedsEntry entries.now subject.now yes) }
{
    if subject.is_present {
        names(alloc, entries, subject.license)
    } else {
        Ok(false)
    }
}

/// Returns whether an exception is for a package that is to be audited.
fn is_for(exception: &Exception, subject: &Subject<'_>) -> bool
    ensures { result ≡ is_for exception.now subject.now }
{
    subject.is_present && exception.packages.covers(subject)
}

/// Returns whether a package needs an exception: the exception is for it, and has no list of licences, or one that
/// allows a licence of the package.
fn needs_exception(
    alloc: Global,
    exception: &Exception,
    subject: &Subject<'_>,
) -> Result<bool, AllocError>
    ensures { IfOk result (λ yes. NeedsException exception.now subject.now yes) }
{
    if !is_for(exception, subject) {
        return Ok(false);
    }
    match &exception.licences {
        Some(entries) => names(alloc, entries, subject.license),
        None => Ok(true),
    }
}

/// Returns whether an entry of a list is unused: no package that is to be audited has a licence that it allows.
/// `entries` is that entry, or several that are only unused together.
///
/// # Errors
///
/// Fails if an allocation fails.
pub fn is_unused_entry(
    alloc: Global,
    entries: &[Licence],
    subjects: &[Subject<'_>],
) -> Result<bool, AllocError>
    // Each package that is to be audited is one that does not need the entry, or there is one that needs it.
    ensures { IfOk result (λ unused. IsAnyAnswer (NeedsEntry entries.now) subjects.now (not unused)) }
{
    'subjects: for subject in subjects {
        if needs_entry(alloc, entries, subject)? {
            return Ok(false);
        }
    }
    Ok(true)
}

/// Returns whether an exception is unused: no package that is to be audited needs it. An exception without a list is
/// needed by each package that it is for. One with a list is needed by each of these packages that has a licence which
/// the list allows.
///
/// # Errors
///
/// Fails if an allocation fails.
pub fn is_unused_exception(
    alloc: Global,
    exception: &Exception,
    subjects: &[Subject<'_>],
) -> Result<bool, AllocError>
    // No package that is to be audited needs the exception, or there is one that needs it.
    ensures { IfOk result (λ unused. IsAnyAnswer (NeedsException exception.now) subjects.now (not unused)) }
{
    'subjects: for subject in subjects {
        if needs_exception(alloc, exception, subject)? {
            return Ok(false);
        }
    }
    Ok(true)
}
