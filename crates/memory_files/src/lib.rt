//! A runtime that has its files, arguments and standard input in memory, for callers that hand files over as bytes.
//!
//! It has no environment variables, and its current folder is the root. A path that was not handed over is not found,
//! and each call that would write is rejected as on a file system that is read-only.
#![tactic(auto)]

ghost use Rattle.std.specs.Prelude.{◌≡◌, IfOk};

mod environment;
mod files;
mod input;
mod paths;

pub use files::{MemoryFile, MemoryFolder};
use paths::plain_path;
use std::alloc::{AllocError, Global};

/// A file that is handed over.
#[derive(Drop)]
pub struct GivenFile<'a> {
    /// The path from the root, with a slash before each component, and without components that lead nowhere.
    pub path: String,
    pub bytes: &'a [u8],
}

impl<'a> GivenFile<'a> {
    /// Creates a file at a path with these bytes. A relative path begins at the root, which is the current folder.
    pub fn new(alloc: Global, path: &str, bytes: &'a [u8]) -> Result<GivenFile<'a>, AllocError>
        ensures { IfOk result (λ file. file.bytes.now ≡ bytes.now) }
    {
        Ok(GivenFile {
            path: plain_path(alloc, path)?,
            bytes,
        })
    }
}

/// A runtime with the files, the arguments and the standard input that are handed over.
#[derive(Clone, Copy, Drop)]
pub struct MemoryRuntime<'a> {
    pub alloc: Global,
    /// If several files have one path, the first counts.
    pub files: &'a [GivenFile<'a>],
    /// The arguments, the name of the program first.
    pub arguments: &'a [String],
    /// The bytes of standard input.
    pub input: &'a [u8],
}

impl Alloc for MemoryRuntime<'_> {
    type A = Global;

    fn alloc(&self) -> Global {
        self.alloc
    }
}
