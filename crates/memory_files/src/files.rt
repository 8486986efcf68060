//! Files and folders.

ghost use Rattle.std.specs.Prelude.{◌≡◌, Some, None, IsErr, IfOk, IfSome};
ghost use Rattle.std.specs.Io.{WritesAtMost};
ghost use Rattle.std.specs.Io.KnownBytes.{WriteAppends};
ghost use Rattle.memory_files.specs.Given.{IsGiven};
ghost use Rattle.memory_files.specs.Inside.Entries.{IsGivenEntry};

use crate::paths::plain_path;
use crate::{GivenFile, MemoryRuntime};
use std::alloc::{AllocError, Allocator};
use std::fs::{Metadata, OpenFile, OpenOptions};
use std::io::{self, ErrorKind, Read, Seek, SeekFrom, Write};
use std::path::PathBuf;
use std::rt::Files;

/// The numbers of the errors that Linux returns in such a case, so that messages are the same.
const NOT_FOUND: i32 = 2;

const NOT_A_FOLDER: i32 = 20;

const IS_A_FOLDER: i32 = 21;

const READ_ONLY: i32 = 30;

/// Returns the error of each call that would write.
fn read_only() -> io::Error {
    io::Error::from_raw_os_error(READ_ONLY)
}

/// An open file. It can only be read.
#[derive(Drop)]
pub struct MemoryFile<'a> {
    /// The bytes that are not read yet.
    pub left: &'a [u8],
    /// The number of bytes of the file.
    length: u64,
}

impl Read for MemoryFile<'_> {
    ghost remaining = { λ s. Some s.left.now };

    fn read(&mut self, buf: &mut [u8]) -> io::Result<usize> {
        self.left.read(buf)
    }
}

impl Write for MemoryFile<'_> {
    fn write(&mut self, buf: &[u8]) -> io::Result<usize>
        ensures bound { WritesAtMost result buf.now }
        ensures bytes { WriteAppends None None result buf.now }
        ensures read_only { IsErr result }
    {
        let _ = buf;
        Err(read_only())
    }

    fn flush(&mut self) -> io::Result<()> {
        Ok(())
    }
}

impl Seek for MemoryFile<'_> {
    fn seek(&mut self, _to: SeekFrom) -> io::Result<u64> {
        Err(io::Error::from(ErrorKind::Unsupported))
    }
}

impl OpenFile for MemoryFile<'_> {
    fn metadata(&self) -> io::Result<Metadata> {
        Ok(Metadata::of_file(self.length))
    }

    fn set_len(&self, _size: u64) -> io::Result<()>
        ensures read_only { IsErr result }
    {
        Err(read_only())
    }

    fn sync_all(&self) -> io::Result<()> {
        Ok(())
    }

    fn sync_data(&self) -> io::Result<()> {
        Ok(())
    }
}

/// An open folder. A read returns one name, ended by a NUL.
#[derive(Drop)]
pub struct MemoryFolder {
    /// The names that are not read yet, in reverse.
    names: Vec<String>,
}

impl Read for MemoryFolder {
    fn read(&mut self, buf: &mut [u8]) -> io::Result<usize> {
        let Some(name) = self.names.pop() else {
            return Ok(0);
        };
        let bytes = name.as_bytes();
        let length = bytes.len();
        if length >= buf.len() {
            return Err(io::Error::from(ErrorKind::InvalidFilename));
        }
        buf[..length].copy_from_slice(bytes);
        buf[length] = 0;
        Ok(length + 1)
    }
}

/// The file or folder that a path names.
#[derive(Drop)]
pub(crate) enum Entry<'a> {
    File(&'a [u8]),
    Folder,
}

/// Returns the name of the entry of a folder that is a file or leads to it, if the file is below the folder.
fn name_in<'x>(folder: &str, path: &'x str) -> Option<&'x str> {
    let below = path.strip_prefix(folder)?.strip_prefix('/')?;
    match below.split_once('/') {
        Some((name, _)) => Some(name),
        None => Some(below),
    }
}

/// Returns the bytes of the first of these files that has this path from the root.
fn bytes_at<'a>(files: &'a [GivenFile<'a>], path: &str) -> Option<&'a [u8]>
    ensures given { IfSome result (λ bytes. IsGiven files.now bytes.now) }
{
    'files: for i in 0..files.len() {
        let file = &files[i];
        if file.path.as_str() == path {
            return Some(file.bytes);
        }
    }
    None
}

/// Fails if none of these files is below the folder with this path from the root.
fn check_folder(files: &[GivenFile<'_>], path: &str) -> io::Result<()> {
    let mut error = NOT_FOUND;
    for file in files {
        if name_in(path, file.path.as_str()).is_some() {
            return Ok(());
        }
        if name_in(file.path.as_str(), path).is_some() {
            error = NOT_A_FOLDER;
        }
    }
    Err(io::Error::from_raw_os_error(error))
}

impl<'a> MemoryRuntime<'a> {
    /// Returns what the path names.
    fn entry(&self, path: &str) -> io::Result<Entry<'a>>
        ensures given { IfOk result (λ entry. IsGivenEntry self.now.files.now entry) }
    {
        if path.is_empty() {
            return Err(io::Error::from_raw_os_error(NOT_FOUND));
        }
        let path = plain_path(self.alloc, path)?;
        if path.is_empty() {
            return Ok(Entry::Folder);
        }
        if let Some(bytes) = bytes_at(self.files, path.as_str()) {
            return Ok(Entry::File(bytes));
        }
        check_folder(self.files, path.as_str())?;
        Ok(Entry::Folder)
    }

    /// Returns the names in the folder at a path, each once.
    fn names_in(&self, path: &str) -> Result<Vec<String>, AllocError> {
        let path = plain_path(self.alloc, path)?;
        let mut names: Vec<String> = Vec::new(self.alloc);
        for file in self.files {
            if let Some(name) = name_in(path.as_str(), file.path.as_str()) {
                if !names.iter().any(|it| it.as_str() == name) {
                    names.push(String::from_str(self.alloc, name)?)?;
                }
            }
        }
        Ok(names)
    }
}

impl<'a> Files for MemoryRuntime<'a> {
    type File = MemoryFile<'a>;

    type Dir = MemoryFolder;

    fn open_file(&self, how: &OpenOptions, path: &str) -> io::Result<MemoryFile<'a>>
        ensures given { IfOk result (λ file. IsGiven self.now.files.now file.left.now) }
    {
        how.check()?;
        if how.asks_write() || how.asks_append() || how.asks_create() || how.asks_create_new() {
            return Err(read_only());
        }
        match self.entry(path)? {
            Entry::File(bytes) => Ok(MemoryFile {
                left: bytes,
                length: bytes.len() as u64,
            }),
            Entry::Folder => Err(io::Error::from_raw_os_error(IS_A_FOLDER)),
        }
    }

    fn open_dir(&self, path: &str) -> io::Result<MemoryFolder> {
        match self.entry(path)? {
            Entry::File(_) => Err(io::Error::from_raw_os_error(NOT_A_FOLDER)),
            Entry::Folder => Ok(MemoryFolder {
                names: self.names_in(path)?,
            }),
        }
    }

    fn metadata(&self, path: &str) -> io::Result<Metadata> {
        Ok(match self.entry(path)? {
            Entry::File(bytes) => Metadata::of_file(bytes.len() as u64),
            Entry::Folder => Metadata::of_dir(),
        })
    }

    fn symlink_metadata(&self, path: &str) -> io::Result<Metadata> {
        self.metadata(path)
    }

    fn copy(&self, _from: &str, _to: &str) -> io::Result<u64>
        ensures read_only { IsErr result }
    {
        Err(read_only())
    }

    fn rename(&self, _from: &str, _to: &str) -> io::Result<()>
        ensures read_only { IsErr result }
    {
        Err(read_only())
    }

    fn remove_file(&self, _path: &str) -> io::Result<()>
        ensures read_only { IsErr result }
    {
        Err(read_only())
    }

    fn create_dir(&self, _path: &str) -> io::Result<()>
        ensures read_only { IsErr result }
    {
        Err(read_only())
    }

    fn remove_dir(&self, _path: &str) -> io::Result<()>
        ensures read_only { IsErr result }
    {
        Err(read_only())
    }

    fn remove_dir_all<B: Allocator>(&self, _alloc: B, _path: &str) -> io::Result<()> {
        Err(read_only())
    }

    fn canonicalize<B: Allocator>(&self, alloc: B, path: &str) -> io::Result<PathBuf<B>> {
        let _found = self.entry(path)?;
        let path = plain_path(self.alloc, path)?;
        let text = if path.is_empty() { "/" } else { path.as_str() };
        Ok(PathBuf::from(String::from_str(alloc, text)?))
    }
}
