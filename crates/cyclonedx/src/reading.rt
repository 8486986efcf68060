//! Lock files, read from TOML.

use crate::lock::{LockFile, LockedPackage};
use std::alloc::{AllocError, Global};
use toml::{Table, Value, table_from_str};

/// What is wrong with the text of a lock file, and where.
#[derive(Drop)]
pub struct LockFileFault {
    pub message: String,
    /// The first byte at fault and the byte after the last one, if they are known.
    pub span: Option<(usize, usize)>,
}

/// The reason why a text was not read as a lock file: its fault, or a failed allocation.
#[derive(Drop)]
pub enum LockFileError {
    Fault(LockFileFault),
    Memory(AllocError),
}

impl From<AllocError> for LockFileError {
    fn from(refused: AllocError) -> LockFileError {
        LockFileError::Memory(refused)
    }
}

/// The newest version of lock files that is known.
const NEWEST: i64 = 4;

/// The header of a package.
const HEADER: &str = "[[package]]";

/// Returns the error with this message at a span.
fn fault(alloc: Global, message: &str, span: Option<(usize, usize)>) -> LockFileError {
    match String::from_str(alloc, message) {
        Ok(message) => LockFileError::Fault(LockFileFault { message, span }),
        Err(refused) => LockFileError::Memory(refused),
    }
}

/// Returns the error for a text that is not TOML, or for memory that was refused.
fn no_toml(alloc: Global, error: &toml::de::Error) -> LockFileError {
    match error.span() {
        Some(span) => fault(alloc, error.message(), Some((span.start, span.end))),
        None => LockFileError::Memory(AllocError),
    }
}

/// Returns the span of the header of the package at an index, if that stands on a line of its own.
fn header_of(text: &str, index: usize) -> Option<(usize, usize)> {
    let mut left = index;
    let mut start: usize = 0;
    for line in text.split('\n') {
        if line.trim_end() == HEADER {
            if left == 0 {
                return Some((start, start.saturating_add(HEADER.len())));
            }
            left = left.saturating_sub(1);
        }
        start = start.saturating_add(line.len()).saturating_add(1);
    }
    None
}

/// Returns the text in a field, if the field is there. Fails if it is not a text.
fn text_in<'a>(package: &'a Value, field: &str) -> Result<Option<&'a str>, ()> {
    match package.get(field) {
        None => Ok(None),
        Some(value) => match value.as_str() {
            Some(text) => Ok(Some(text)),
            None => Err(()),
        },
    }
}

/// Returns whether a text is a SHA-256 in hexadecimal digits.
fn is_checksum(text: &str) -> bool {
    text.len() == 64 && text.bytes().all(|byte| byte.is_ascii_hexdigit())
}

/// A package as the table of a lock file has it.
#[derive(Clone, Copy, Drop)]
struct Entry<'a> {
    name: &'a str,
    version: &'a str,
    source: Option<&'a str>,
    checksum: Option<&'a str>,
}

/// Reads a package. Fails with the reason if a field is missing or not as expected.
fn entry_of<'a>(package: &'a Value) -> Result<Entry<'a>, &'static str> {
    let (Ok(Some(name)), Ok(Some(version))) = (
        text_in(package, "name"),
        text_in(package, "version"),
    ) else {
        return Err("`name` or `version` of this package is missing or is not a string");
    };
    let Ok(source) = text_in(package, "source") else {
        return Err("`source` of this package is not a string");
    };
    let Ok(checksum) = text_in(package, "checksum") else {
        return Err("`checksum` of this package is not a string");
    };
    Ok(Entry {
        name,
        version,
        source,
        checksum,
    })
}

/// Returns the checksum of a package in `metadata`, where the first version of lock files has it.
fn old_checksum<'a>(
    alloc: Global,
    table: &'a Table,
    entry: &Entry<'a>,
    source: &str,
) -> Result<Option<&'a str>, AllocError> {
    let Some(metadata) = table.get("metadata") else {
        return Ok(None);
    };
    let (name, version) = (entry.name, entry.version);
    let key = format!(in alloc; "checksum {name} {version} ({source})")?;
    Ok(match metadata.get(key.as_str()) {
        Some(value) => value.as_str().filter(|text| *text != "<none>"),
        None => None,
    })
}

/// Adds a package, if it comes from a registry or a repository. Fails with the reason if it was added before, or if its
/// checksum is none.
fn add_entry(
    lock: &mut LockFile,
    alloc: Global,
    table: &Table,
    entry: &Entry<'_>,
) -> Result<Result<(), &'static str>, AllocError> {
    let Some(source) = entry.source else {
        return Ok(Ok(()));
    };
    if lock.find(entry.name, entry.version, source).is_some() {
        return Ok(Err("this package appears twice"));
    }
    let checksum = match entry.checksum {
        Some(checksum) => Some(checksum),
        None => old_checksum(alloc, table, entry, source)?,
    };
    let checksum = match checksum {
        Some(text) if !is_checksum(text) => {
            return Ok(Err("`checksum` of this package is not a SHA-256 in hexadecimal digits"));
        }
        Some(text) => Some(String::from_str(alloc, text)?),
        None => None,
    };
    let locked = LockedPackage {
        version: String::from_str(alloc, entry.version)?,
        source: String::from_str(alloc, source)?,
        checksum,
    };
    lock.add(String::from_str(alloc, entry.name)?, locked)?;
    Ok(Ok(()))
}

/// Returns the packages of a lock file's table, whose text is `text`.
fn packages_of(alloc: Global, table: &Table, text: &str) -> Result<LockFile, LockFileError> {
    let mut lock = LockFile::new(alloc);
    let Some(packages) = table.get("package") else {
        return Err(fault(alloc, "the lock file has no `[[package]]`", None));
    };
    let Some(packages) = packages.as_array() else {
        return Err(fault(alloc, "`package` is not an array of tables", None));
    };
    for i in 0..packages.len() {
        let added = match entry_of(&packages[i]) {
            Ok(entry) => add_entry(&mut lock, alloc, table, &entry)?,
            Err(reason) => Err(reason),
        };
        if let Err(reason) = added {
            return Err(fault(alloc, reason, header_of(text, i)));
        }
    }
    Ok(lock)
}

/// Returns whether the version of a lock file's table is known. The first two versions have no field for it.
fn is_known_version(table: &Table) -> bool {
    match table.get("version") {
        Some(version) => version
            .as_integer()
            .is_some_and(|number| 1 <= number && number <= NEWEST),
        None => true,
    }
}

/// Reads a lock file of Cargo, of any of its versions 1 to 4.
///
/// # Errors
///
/// Fails if the text is not TOML, if its version is not known, if a package has no name or version, if a source or a
/// checksum is not a text, if a checksum is not a SHA-256, if two packages have the same name, version and source, and
/// if memory is refused.
pub fn parse_lock_file(alloc: Global, text: &str) -> Result<LockFile, LockFileError> {
    match table_from_str(alloc, text) {
        Ok(table) if is_known_version(&table) => packages_of(alloc, &table, text),
        Ok(_) => Err(fault(alloc, "lock files of this version are not supported", None)),
        Err(error) => Err(no_toml(alloc, &error)),
    }
}
