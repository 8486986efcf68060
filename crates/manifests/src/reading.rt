//! The reader of manifests from files, folders and standard input.

use crate::document::Document;
use crate::key_locations::Location;
use cargo_platform::printable_text;
use input_limits::{InputError, STDIN_PATH, read_input, strip_byte_order_mark};
use std::alloc::{AllocError, Global};
use std::fs;
use std::io::ErrorKind;
use std::rt::Files;
use toml::{Table, table_from_str};
use toml_spans::{Position, Span};

/// A manifest that was read from a file and parsed: its document, with the path of the file.
#[derive(Drop)]
pub struct Manifest {
    /// The path as it is displayed. For a folder it is the path of its `Cargo.toml`.
    pub path: String,
    pub document: Document,
}

/// An error in the text of a manifest, which is not TOML.
#[derive(Drop)]
pub struct SyntaxError {
    /// The path of the manifest, as it is displayed.
    pub path: String,
    /// The text, without a byte order mark.
    pub text: String,
    /// The error, as the crate `toml` words it.
    pub message: String,
    /// The place of the error. It may be empty.
    pub at: Location,
}

impl SyntaxError {
    /// Returns the manifest and the error on one line. Fails if an allocation fails.
    fn into_input_error(self, alloc: Global) -> Result<InputError, AllocError> {
        let SyntaxError {
            path,
            text: _,
            message,
            at: Location {
                span: _,
                line,
                column,
            },
        } = self;
        let message = message.as_str();
        let reason = format!(in alloc;
            "TOML parse error at line {line}, column {column}: {message}"
        )?;
        Ok(InputError {
            file: Some(path),
            reason,
        })
    }
}

/// The reason why a manifest cannot be read.
#[derive(Drop)]
pub enum ReadError {
    /// The file cannot be read.
    Input(InputError),
    /// The text of the file is not TOML.
    Syntax(SyntaxError),
    Memory(AllocError),
}

impl ReadError {
    /// Returns the manifest and why it cannot be read, on one line. Fails if an allocation fails or failed.
    pub fn into_input_error(self, alloc: Global) -> Result<InputError, AllocError> {
        match self {
            ReadError::Input(unusable) => Ok(unusable),
            ReadError::Syntax(error) => error.into_input_error(alloc),
            ReadError::Memory(refused) => Err(refused),
        }
    }
}

impl From<AllocError> for ReadError {
    fn from(refused: AllocError) -> ReadError {
        ReadError::Memory(refused)
    }
}

/// Returns the file that a path names. For a folder it is its `Cargo.toml`.
fn file_at<R: Files + AllocGlobal>(rt: &R, path: &str) -> Result<String, AllocError> {
    let alloc = rt.alloc();
    if path != STDIN_PATH {
        if let Ok(found) = fs::metadata(rt, path) {
            if found.is_dir() {
                let path = path.strip_suffix("/").unwrap_or(path);
                return format!(in alloc; "{path}/Cargo.toml");
            }
        }
    }
    String::from_str(alloc, path)
}

/// Returns the place of a span in a text.
pub(crate) fn location_of(text: &str, span: Span) -> Location {
    let start = Position::START.after(text.get(..span.start).unwrap_or(""));
    Location {
        span,
        line: start.line,
        column: start.column,
    }
}

/// Returns the error with this message at a span of a text.
fn syntax_error(
    alloc: Global,
    path: &str,
    text: &str,
    message: &str,
    span: Span,
) -> Result<SyntaxError, AllocError> {
    Ok(SyntaxError {
        path: String::from_str(alloc, path)?,
        text: String::from_str(alloc, text)?,
        message: String::from_str(alloc, message)?,
        at: location_of(text, span),
    })
}

/// Returns the error for a text that is not TOML, or for an allocation that failed.
fn no_toml(alloc: Global, path: &str, text: &str, error: &toml::de::Error) -> ReadError {
    let Some(range) = error.span() else {
        return ReadError::Memory(AllocError);
    };
    let span = Span {
        start: range.start,
        end: range.end,
    };
    match syntax_error(alloc, path, text, error.message(), span) {
        Ok(error) => ReadError::Syntax(error),
        Err(refused) => ReadError::Memory(refused),
    }
}

/// The text of a manifest.
#[derive(Drop)]
pub struct ManifestText {
    /// The path of the manifest, as it is displayed.
    path: String,
    text: String,
}

impl ManifestText {
    /// Returns a text as that of the manifest at a path. `path` is as it is displayed.
    pub fn of(path: String, text: String) -> ManifestText {
        ManifestText { path, text }
    }

    /// Reads the text of the manifest that an argument names. Fails if it cannot be read, has more than `limit` bytes,
    /// or an allocation fails. A longer text is not read to its end.
    pub fn read<R: Files + Input + AllocGlobal>(
        rt: &R,
        path: &str,
        limit: u64,
    ) -> Result<ManifestText, ReadError> {
        let alloc = rt.alloc();
        let file = file_at(rt, path)?;
        let path = printable_text(alloc, file.as_str())?;
        match read_input(rt, file.as_str(), limit) {
            Ok(text) => Ok(ManifestText { path, text }),
            Err(error) => {
                if error.kind() == ErrorKind::OutOfMemory {
                    return Err(ReadError::Memory(AllocError));
                }
                let unusable = InputError::refused(alloc, path, &error, limit)?;
                Err(ReadError::Input(unusable))
            }
        }
    }

    /// Returns the text itself.
    pub fn into_text(self) -> String {
        self.text
    }

    /// Returns the text as Cargo reads it, without a byte order mark.
    fn text(&self) -> &str {
        strip_byte_order_mark(self.text.as_str())
    }

    /// Parses the text as a TOML table. Fails if it is not TOML, or an allocation fails.
    pub fn table(&self, alloc: Global) -> Result<Table, ReadError> {
        match table_from_str(alloc, self.text()) {
            Ok(table) => Ok(table),
            Err(error) => Err(no_toml(alloc, self.path.as_str(), self.text(), &error)),
        }
    }

    /// Returns the manifest with this table and the lines of its keys, for which the text is read once more. Fails if
    /// an allocation fails.
    pub fn with_lines(self, alloc: Global, table: Table) -> Result<Manifest, AllocError> {
        let document = Document::of(alloc, table, self.text())?;
        Ok(Manifest {
            path: self.path,
            document,
        })
    }
}

/// Reads and parses the manifest that an argument names, with the lines of its keys. Fails if it cannot be read, has
/// more than `limit` bytes, is not TOML, or an allocation fails. A longer text is not read to its end.
pub fn read_manifest<R: Files + Input + AllocGlobal>(
    rt: &R,
    path: &str,
    limit: u64,
) -> Result<Manifest, ReadError> {
    let alloc = rt.alloc();
    let text = ManifestText::read(rt, path, limit)?;
    let table = text.table(alloc)?;
    let manifest = text.with_lines(alloc, table)?;
    Ok(manifest)
}
