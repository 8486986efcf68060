//! Files that are replaced as a whole, or stay as they are.

use input_limits::{read_file, reason_of};
use std::alloc::{AllocError, Global};
use std::fs::{self, File, Metadata, OpenFile};
use std::io::{self, ErrorKind, Write};
use std::os::unix::fs::MetadataExt;
use std::rt::Files;
use workspaces::folder_of;

/// The change of a file's text.
#[derive(Clone, Copy, Drop)]
pub struct FileChange<'a> {
    pub before: &'a str,
    pub after: &'a str,
    /// The maximum number of bytes of the file.
    pub limit: u64,
}

/// The error for a file that has changed since it was read.
pub const CHANGED: &str = "the file has changed since it was read";

/// The maximum number of names that are tried for a new file beside another one.
const NAMES: usize = 1000;

/// Creates a file beside the one at a path. Returns its path and the file.
fn create_beside<R: Files + AllocGlobal>(rt: &R, path: &str) -> io::Result<(String, R::File)> {
    let alloc = rt.alloc();
    let folder = folder_of(path);
    let slash = if folder.ends_with('/') { "" } else { "/" };
    let name = match path.rsplit_once('/') {
        Some((_, name)) => name,
        None => path,
    };
    for number in 0..NAMES {
        let beside = format!(in alloc; "{folder}{slash}.{name}.manifest_check-{number:04}")?;
        match File::create_new(rt, beside.as_str()) {
            Ok(file) => return Ok((beside, file)),
            Err(error) => {
                if error.kind() != ErrorKind::AlreadyExists {
                    return Err(error);
                }
            }
        }
    }
    Err(io::Error::from(ErrorKind::AlreadyExists))
}

/// Gives a new file the owner and the permissions of the one that it replaces, and writes its text.
fn fill<R: Files>(
    rt: &R,
    mut file: R::File,
    path: &str,
    replaced: &Metadata,
    text: &str,
) -> io::Result<()> {
    let made = file.metadata()?;
    if made.uid() != replaced.uid() || made.gid() != replaced.gid() {
        // As `sed -i` does: who may not give files away owns the new one.
        let _given = rt.chown(path, Some(replaced.uid()), Some(replaced.gid()));
    }
    file.set_permissions(replaced.permissions())?;
    file.write_all(text.as_bytes())?;
    file.sync_all()
}

/// Replaces the file at a path, which is no link, by one with this text. If this fails, the file stays as it is.
fn replace<R: Files + AllocGlobal>(rt: &R, path: &str, text: &str) -> io::Result<()> {
    let replaced = fs::metadata(rt, path)?;
    if !replaced.is_file() {
        return Err(io::Error::from(ErrorKind::InvalidInput));
    }
    if replaced.permissions().readonly() {
        return Err(io::Error::from(ErrorKind::PermissionDenied));
    }
    let (beside, file) = create_beside(rt, path)?;
    let moved = match fill(rt, file, beside.as_str(), &replaced, text) {
        Ok(()) => rt.rename(beside.as_str(), path),
        Err(error) => Err(error),
    };
    if moved.is_err() {
        let _removed = rt.remove_file(beside.as_str());
    }
    moved
}

/// Writes the change of a file, unless the file has changed since it was read. Returns whether it was written.
fn write<R: Files + AllocGlobal>(rt: &R, path: &str, change: &FileChange<'_>) -> io::Result<bool> {
    let path = fs::canonicalize(rt, path)?.into_string();
    let text = read_file(rt, path.as_str(), change.limit)?;
    if text.as_str() != change.before {
        return Ok(false);
    }
    replace(rt, path.as_str(), change.after)?;
    Ok(true)
}

/// Returns the reason for an error. Fails if memory is refused.
fn reason_for(alloc: Global, error: &io::Error, limit: u64) -> Result<String, AllocError> {
    if error.kind() == ErrorKind::OutOfMemory {
        return Err(AllocError);
    }
    reason_of(alloc, error, limit)
}

/// Returns the text of a file, or the reason why it can't be read. Fails if memory is refused.
pub fn text_read<R: Files + AllocGlobal>(
    rt: &R,
    path: &str,
    limit: u64,
) -> Result<Result<String, String>, AllocError> {
    match read_file(rt, path, limit) {
        Ok(text) => Ok(Ok(text)),
        Err(error) => Ok(Err(reason_for(rt.alloc(), &error, limit)?)),
    }
}

/// Writes the change of a file. If it can't be written, the file stays as it is, and the reason is returned. Fails if
/// memory is refused.
pub fn write_change<R: Files + AllocGlobal>(
    rt: &R,
    path: &str,
    change: &FileChange<'_>,
) -> Result<Option<String>, AllocError> {
    let alloc = rt.alloc();
    match write(rt, path, change) {
        Ok(true) => Ok(None),
        Ok(false) => Ok(Some(String::from_str(alloc, CHANGED)?)),
        Err(error) => Ok(Some(reason_for(alloc, &error, change.limit)?)),
    }
}
