//! The table `[licenses]`.

use crate::graph_table::packages_of;
use crate::identifiers::{deprecated_message, unlisted_messages};
use crate::keys::TableKind;
use crate::policy::LicenceTable;
use crate::reader::Reader;
use diagnostics::DiagnosticLevel;
use licence_audits::Exception;
use spdx_expressions::{Licence, ReadError};
use std::alloc::AllocError;
use toml::{Table, Value};

/// Reads the table `[licenses]`.
pub fn read_licences(
    policy: &mut LicenceTable,
    reader: &mut Reader,
    licences: &Table,
) -> Result<(), AllocError> {
    reader.check_keys(licences, TableKind::Licenses, &["licenses"])?;
    policy.includes_dev = reader.flag(licences, &["licenses", "include-dev"])?;
    policy.unused_licences = reader.level(licences, &["licenses", "unused-allowed-license"])?;
    policy.unused_exceptions = reader.level(licences, &["licenses", "unused-license-exception"])?;
    if let Some(private) = reader.table(licences, &["licenses", "private"])? {
        reader.check_keys(private, TableKind::Private, &["licenses", "private"])?;
        policy.ignores_private = reader.flag(private, &["licenses", "private", "ignore"])?;
    }
    read_allowed(policy, reader, licences)?;
    read_exceptions(policy, reader, licences)
}

/// Parses the licence that the value at a path is, and reports identifiers that are not in SPDX's licence list. Any
/// other value is an error.
fn licence_of(
    reader: &mut Reader,
    value: &Value,
    path: &[&str],
) -> Result<Option<Licence>, AllocError> {
    let Some(text) = reader.text_of(value, path)? else {
        return Ok(None);
    };
    match Licence::from_str(reader.alloc, text) {
        Ok(licence) => {
            report_identifiers(reader, &licence, path)?;
            Ok(Some(licence))
        }
        Err(ReadError::Parse(error)) => {
            reader.reject_licence(path, text, &error)?;
            Ok(None)
        }
        Err(ReadError::Memory(refused)) => Err(refused),
    }
}

/// Reports the identifiers of a licence that are not in SPDX's licence list, or are deprecated there.
fn report_identifiers(
    reader: &mut Reader,
    licence: &Licence,
    path: &[&str],
) -> Result<(), AllocError> {
    for message in unlisted_messages(reader.alloc, licence)? {
        reader.report(DiagnosticLevel::Warning, path, message)?;
    }
    if let Some(message) = deprecated_message(reader.alloc, licence)? {
        reader.report(DiagnosticLevel::Note, path, message)?;
    }
    Ok(())
}

/// Reads the allowed licences.
fn read_allowed(
    policy: &mut LicenceTable,
    reader: &mut Reader,
    licences: &Table,
) -> Result<(), AllocError> {
    let alloc = reader.alloc;
    let elements = reader.elements(licences, &["licenses", "allow"])?;
    for (index, element) in elements.iter().enumerate() {
        let index = format!(in alloc; "{index}")?;
        let path = ["licenses", "allow", index.as_str()];
        if let Some(licence) = licence_of(reader, element, &path)? {
            let at = reader.at(&path)?;
            policy.allowed.push(licence)?;
            policy.allowed_at.push(at)?;
        }
    }
    Ok(())
}

/// Reads the exceptions.
fn read_exceptions(
    policy: &mut LicenceTable,
    reader: &mut Reader,
    licences: &Table,
) -> Result<(), AllocError> {
    let alloc = reader.alloc;
    let elements = reader.elements(licences, &["licenses", "exceptions"])?;
    for (index, element) in elements.iter().enumerate() {
        let index = format!(in alloc; "{index}")?;
        let path = ["licenses", "exceptions", index.as_str()];
        let Value::Table(table) = element else {
            reader.reject(&path, "expected a table")?;
            continue;
        };
        if let Some(exception) = exception_in(reader, table, index.as_str())? {
            let at = reader.at(&path)?;
            policy.exceptions.push(exception)?;
            policy.exceptions_at.push(at)?;
        }
    }
    Ok(())
}

/// Returns the exception at an index. A table that is none is an error.
fn exception_in(
    reader: &mut Reader,
    table: &Table,
    index: &str,
) -> Result<Option<Exception>, AllocError> {
    let alloc = reader.alloc;
    let path = ["licenses", "exceptions", index];
    reader.check_keys(table, TableKind::Exception, &path)?;
    let packages = packages_of(reader, table, path)?;
    if table.get("allow").is_none() {
        reader.reject(&path, "missing key `allow`")?;
        return Ok(None);
    }
    let mut licences = Vec::new(reader.alloc);
    let elements = reader.elements(table, &["licenses", "exceptions", index, "allow"])?;
    for (place, element) in elements.iter().enumerate() {
        let place = format!(in alloc; "{place}")?;
        let path = ["licenses", "exceptions", index, "allow", place.as_str()];
        if let Some(licence) = licence_of(reader, element, &path)? {
            licences.push(licence)?;
        }
    }
    match packages {
        Some(packages) => Ok(Some(Exception {
            packages,
            licences: Some(licences),
        })),
        None => Ok(None),
    }
}
