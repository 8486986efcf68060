//! Manifests that are read and parsed once, however often they are needed.

use crate::manifests::{if_successful, parse_table, table_in, text_in};
use input_limits::{STDIN_PATH, read_file};
use std::alloc::{AllocError, Global};
use std::collections::BTreeMap;
use std::fs;
use std::rt::Files;
use toml::Table;

/// The name of the table that the manifest of a root has, and of the field by which a member names its root.
const WORKSPACE: &str = "workspace";

/// A manifest that was read and parsed: its text and its table. Unlike `manifests::document::Document`, it has no
/// places of names, since the members of a workspace are found without them.
#[derive(Drop)]
pub struct Document {
    /// The text of the file.
    pub text: String,
    /// The table that the text spells.
    pub table: Table,
}

impl Document {
    /// Returns the table, if this word occurs in the text.
    pub fn table_if_mentioned(&self, word: &str) -> Option<&Table> {
        if self.text.contains(word) {
            Some(&self.table)
        } else {
            None
        }
    }

    /// Returns the table `workspace`, if the manifest is that of a root.
    pub fn workspace(&self) -> Option<&Table> {
        table_in(self.table_if_mentioned(WORKSPACE)?, WORKSPACE)
    }

    /// Copies the document.
    fn copy(&self) -> Result<Document, AllocError> {
        Ok(Document {
            text: self.text.clone()?,
            table: self.table.clone()?,
        })
    }
}

/// What a manifest says about where the root of its workspace is.
#[derive(Drop)]
pub enum RootPlace {
    /// The manifest is that of a root.
    Here,
    /// `package.workspace` has this path.
    At(String),
    /// The manifest does not say.
    Unsaid,
}

impl RootPlace {
    /// Returns what a document says.
    fn of(alloc: Global, document: &Document) -> Result<RootPlace, AllocError> {
        let Some(manifest) = document.table_if_mentioned(WORKSPACE) else {
            return Ok(RootPlace::Unsaid);
        };
        if manifest.get(WORKSPACE).is_some() {
            return Ok(RootPlace::Here);
        }
        match path_of_root(manifest) {
            Some(path) => Ok(RootPlace::At(String::from_str(alloc, path)?)),
            None => Ok(RootPlace::Unsaid),
        }
    }
}

/// Returns the path that `package.workspace` of a manifest has.
fn path_of_root(manifest: &Table) -> Option<&str> {
    text_in(table_in(manifest, "package")?, WORKSPACE)
}

/// A file that has been read.
#[derive(Drop)]
struct ReadFile {
    /// `None` if the file can't be used, or if the document has been taken.
    document: Option<Document>,
    is_taken: bool,
    /// The number of times that the document is still to be taken, as far as that is known.
    uses: usize,
    root: RootPlace,
    /// The text that is used in place of that of the file, if there is one.
    given: Option<String>,
}

impl ReadFile {
    /// Returns the entry for a file that can't be used.
    fn none() -> ReadFile {
        ReadFile {
            document: None,
            is_taken: false,
            uses: 0,
            root: RootPlace::Unsaid,
            given: None,
        }
    }

    /// Returns the entry for a file with this text. `table` is the table of the text, if the text is TOML.
    fn of(alloc: Global, text: String, table: Option<Table>) -> Result<ReadFile, AllocError> {
        let Some(table) = table else {
            return Ok(ReadFile::none());
        };
        let document = Document { text, table };
        let root = RootPlace::of(alloc, &document)?;
        Ok(ReadFile {
            document: Some(document),
            is_taken: false,
            uses: 0,
            root,
            given: None,
        })
    }

    /// Reads a file of at most `limit` bytes.
    fn read<R: Files + AllocGlobal>(
        rt: &R,
        file: &str,
        limit: u64,
    ) -> Result<ReadFile, AllocError> {
        match if_successful(read_file(rt, file, limit))? {
            Some(text) => {
                let table = parse_table(rt.alloc(), text.as_str())?;
                ReadFile::of(rt.alloc(), text, table)
            }
            None => Ok(ReadFile::none()),
        }
    }

    /// Returns whether the document is needed once it has been taken: by the members of its workspace, by another use,
    /// or since the file does not have its text.
    fn stays(&self) -> bool {
        match self.root {
            RootPlace::Here => true,
            _ => self.uses > 0 || self.given.is_some(),
        }
    }

    /// Takes the document out of the cache, or a copy of it if it is still needed.
    fn take(&mut self) -> Result<Option<Document>, AllocError> {
        self.uses = self.uses.saturating_sub(1);
        if self.stays() {
            return match &self.document {
                Some(document) => Ok(Some(document.copy()?)),
                None => Ok(None),
            };
        }
        let document = self.document.take();
        self.is_taken = document.is_some();
        Ok(document)
    }
}

/// Returns the path of a file without links, or the unchanged path if that is not known.
pub(crate) fn real_path<R: Files + AllocGlobal>(rt: &R, file: &str) -> Result<String, AllocError> {
    match if_successful(fs::canonicalize(rt, file))? {
        Some(path) => Ok(path.into_string()),
        None => String::from_str(rt.alloc(), file),
    }
}

/// The manifests that have been read, by the real paths of their files.
#[derive(Drop)]
pub struct ManifestCache {
    /// The maximum number of bytes of a manifest.
    pub limit: u64,
    files: BTreeMap<String, ReadFile>,
}

impl ManifestCache {
    /// Returns no manifests. Those of more bytes than `limit` will not be used.
    pub fn new(alloc: Global, limit: u64) -> ManifestCache {
        ManifestCache {
            limit,
            files: BTreeMap::new(alloc),
        }
    }

    /// Reads the file at a path, unless it has been read. If its document is needed and has been taken, the file is
    /// read anew. Returns its real path.
    fn read<R: Files + AllocGlobal>(
        &mut self,
        rt: &R,
        file: &str,
        needs_document: bool,
    ) -> Result<String, AllocError> {
        let path = real_path(rt, file)?;
        let is_read = match self.files.get(path.as_str()) {
            Some(read) => !needs_document || !read.is_taken,
            None => false,
        };
        if !is_read {
            let read = ReadFile::read(rt, file, self.limit)?;
            let _before = self.files.insert(path.clone()?, read)?;
        }
        Ok(path)
    }

    /// Uses a text as that of the manifest at a path, whether or not the file exists. `table` is what the text spells,
    /// if it is TOML.
    ///
    /// Fails only if an allocation fails.
    pub fn put<R: Files + AllocGlobal>(
        &mut self,
        rt: &R,
        file: &str,
        text: String,
        table: Option<Table>,
    ) -> Result<(), AllocError> {
        let path = real_path(rt, file)?;
        let mut read = ReadFile::of(rt.alloc(), text.clone()?, table)?;
        read.given = Some(text);
        let _before = self.files.insert(path, read)?;
        Ok(())
    }

    /// Returns the text that is used as that of the manifest at a path, if one was given.
    ///
    /// Fails only if an allocation fails.
    pub fn given_text<R: Files + AllocGlobal>(
        &self,
        rt: &R,
        file: &str,
    ) -> Result<Option<&str>, AllocError> {
        let path = real_path(rt, file)?;
        match self.files.get(path.as_str()) {
            Some(read) => Ok(read.given.as_ref().map(|text| text.as_str())),
            None => Ok(None),
        }
    }

    /// Returns the manifest at a path, unless it can't be read, has more bytes than the limit, or is no TOML.
    ///
    /// Fails only if an allocation fails.
    pub fn get<R: Files + AllocGlobal>(
        &mut self,
        rt: &R,
        file: &str,
    ) -> Result<Option<&Document>, AllocError> {
        let path = self.read(rt, file, true)?;
        match self.files.get(path.as_str()) {
            Some(read) => Ok(read.document.as_ref()),
            None => Ok(None),
        }
    }

    /// Returns where the root of the workspace of the manifest at a path is, by that manifest.
    ///
    /// Fails only if an allocation fails.
    pub(crate) fn root_place<R: Files + AllocGlobal>(
        &mut self,
        rt: &R,
        file: &str,
    ) -> Result<Option<&RootPlace>, AllocError> {
        let path = self.read(rt, file, false)?;
        match self.files.get(path.as_str()) {
            Some(read) => Ok(Some(&read.root)),
            None => Ok(None),
        }
    }

    /// Records that the manifests at these paths are to be taken, each as often as it occurs.
    ///
    /// Fails only if an allocation fails.
    pub(crate) fn expect_uses<R: Files + AllocGlobal>(
        &mut self,
        rt: &R,
        files: &[String],
    ) -> Result<(), AllocError> {
        for file in files {
            let path = real_path(rt, file.as_str())?;
            if let Some(read) = self.files.get_mut(path.as_str()) {
                read.uses = read.uses.saturating_add(1);
            }
        }
        Ok(())
    }

    /// Takes the manifest at a path out of the cache, or copies it if it is still needed. Returns `None` if it has not
    /// been read or can't be used, and for standard input, which is never in the cache.
    ///
    /// Fails only if an allocation fails.
    pub fn take<R: Files + AllocGlobal>(
        &mut self,
        rt: &R,
        file: &str,
    ) -> Result<Option<Document>, AllocError> {
        if file == STDIN_PATH {
            return Ok(None);
        }
        let path = real_path(rt, file)?;
        match self.files.get_mut(path.as_str()) {
            Some(read) => read.take(),
            None => Ok(None),
        }
    }
}
