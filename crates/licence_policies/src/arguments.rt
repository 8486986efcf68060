//! Exceptions as arguments: `NAME`, `NAME@VERSION` or `NAME@RANGE`, and perhaps `:` and licences after it.

use crate::package_specs::{SpecError, exact_range_of, range_of, spec_of};
use licence_audits::Exception;
use semver::VersionReq;
use spdx_expressions::{Licence, ParseError, ReadError};
use std::alloc::{AllocError, Global};

/// The reason why an argument is no exception.
#[derive(Drop)]
pub enum ExceptionError {
    /// There is no name before `@` or `:`.
    NoName,
    /// What is after `@` is neither a version nor a range, for this reason.
    NoRange(String),
    /// One of the licences is none.
    NoLicence(ParseError),
    Memory(AllocError),
}

impl From<AllocError> for ExceptionError {
    fn from(refused: AllocError) -> ExceptionError {
        ExceptionError::Memory(refused)
    }
}

impl From<SpecError> for ExceptionError {
    fn from(error: SpecError) -> ExceptionError {
        match error {
            SpecError::NoName => ExceptionError::NoName,
            SpecError::NoRange(reason) => ExceptionError::NoRange(reason),
            SpecError::Memory(refused) => ExceptionError::Memory(refused),
        }
    }
}

/// Parses what is after `@`: a version, which begins with a digit, or a range.
fn versions_of(alloc: Global, text: &str) -> Result<VersionReq, SpecError> {
    if matches!(text.as_bytes().first(), Some(b'0'..=b'9')) {
        exact_range_of(alloc, text)
    } else {
        range_of(alloc, text)
    }
}

/// Parses licences with commas between them.
fn licences_of(alloc: Global, text: &str) -> Result<Vec<Licence>, ExceptionError> {
    let mut licences = Vec::new(alloc);
    for entry in text.split(',') {
        match Licence::from_str(alloc, entry) {
            Ok(licence) => licences.push(licence).map_err(AllocError::from)?,
            Err(ReadError::Parse(error)) => return Err(ExceptionError::NoLicence(error)),
            Err(ReadError::Memory(refused)) => return Err(ExceptionError::Memory(refused)),
        }
    }
    Ok(licences)
}

/// Parses an exception: the name of packages, perhaps with a version or a range after `@`, and perhaps with licences
/// after `:`, which have commas between them. `1.2` is each version that begins so, and `>=1.2, <2` is a range.
///
/// # Errors
///
/// Fails if there is no name, if the version or range or a licence is none, or if an allocation fails.
pub fn exception_of(alloc: Global, text: &str) -> Result<Exception, ExceptionError> {
    let (packages, licences) = match text.split_once(':') {
        Some((packages, licences)) => (packages, Some(licences_of(alloc, licences)?)),
        None => (text, None),
    };
    let (name, versions) = match packages.split_once('@') {
        Some((name, versions)) => (name, Some(versions_of(alloc, versions)?)),
        None => (packages, None),
    };
    let packages = spec_of(alloc, name, versions)?;
    Ok(Exception { packages, licences })
}
