//! Flags of rustc that the environment and Cargo's configuration set, by Cargo's reference ("Configuration":
//! `build.rustflags`, `target.<triple>.rustflags` and `target.<cfg>.rustflags`).

use crate::environment::variable;
use crate::includes::{MAX_FILES, UnreadFiles};
use crate::sources::{Source, are_joined};
use key_answers::answer::QueryError;
use std::alloc::{AllocError, Global};
use std::rt::{Env, Files};
use toml::{Table, Value};
use workspaces::table_in;

/// The variable whose flags are separated by `SEPARATOR`, a character that no flag has.
const ENCODED_VARIABLE: &str = "CARGO_ENCODED_RUSTFLAGS";

const SEPARATOR: char = '\u{1f}';

/// The variable whose flags are separated by spaces.
const VARIABLE: &str = "RUSTFLAGS";

/// The variable that counts beside `build.rustflags`.
const BUILD_VARIABLE: &str = "CARGO_BUILD_RUSTFLAGS";

/// The field with flags.
const RUSTFLAGS: &str = "rustflags";

/// Flags of rustc that are set in one place: in a variable of the environment, or in a field of a configuration file.
#[derive(Drop)]
pub struct Flags {
    /// The place: the name of a variable, or the path of a field.
    pub place: String,
    pub source: Source,
    /// The key of `target` to which the flags belong, if that is their source.
    pub key: Option<String>,
    pub flags: Vec<String>,
    /// They are one string, and not an array.
    is_string: bool,
}

impl Flags {
    /// Returns whether these are flags of the configuration for a key of `target`, or without a key for `build`.
    fn are_for(&self, key: Option<&str>) -> bool {
        match (&self.key, key) {
            (Some(own), Some(key)) => own.as_str() == key,
            (None, None) => self.source == Source::Build,
            _ => false,
        }
    }
}

/// Returns the source of flags of the configuration for a key of `target`, or without a key for `build`.
fn configured_source(key: Option<&str>) -> Source {
    match key {
        Some(_) => Source::Target,
        None => Source::Build,
    }
}

/// Copies a key.
fn owned_key(alloc: Global, key: Option<&str>) -> Result<Option<String>, AllocError> {
    match key {
        Some(key) => Ok(Some(String::from_str(alloc, key)?)),
        None => Ok(None),
    }
}

/// Returns the parts of a text between separators, trimmed, but for those that are blank.
fn split_flags(alloc: Global, text: &str, separator: char) -> Result<Vec<String>, AllocError> {
    let mut flags = Vec::new(alloc);
    for flag in text.split(separator) {
        if !flag.trim().is_empty() {
            flags.push(String::from_str(alloc, flag.trim())?)?;
        }
    }
    Ok(flags)
}

/// Returns the parts of a text between white space.
fn split_white_space(alloc: Global, text: &str) -> Result<Vec<String>, AllocError> {
    let mut flags = Vec::new(alloc);
    for flag in text.split_whitespace() {
        flags.push(String::from_str(alloc, flag)?)?;
    }
    Ok(flags)
}

/// Returns the flags of `CARGO_ENCODED_RUSTFLAGS` and of `RUSTFLAGS`, of each that is set, even if it is empty.
fn environment_flags<R: Env + AllocGlobal>(rt: &R) -> Result<Vec<Flags>, AllocError> {
    let alloc = rt.alloc();
    let mut found = Vec::new(alloc);
    for (source, name, separator) in [
        (Source::EncodedVariable, ENCODED_VARIABLE, SEPARATOR),
        (Source::Variable, VARIABLE, ' '),
    ] {
        if let Some(text) = variable(rt, name)? {
            found.push(Flags {
                place: String::from_str(alloc, name)?,
                source,
                key: None,
                flags: split_flags(alloc, text.as_str(), separator)?,
                is_string: true,
            })?;
        }
    }
    Ok(found)
}

/// Returns the name of the variable that counts beside `target.<triple>.rustflags`.
fn target_variable(alloc: Global, target: &str) -> Result<String, AllocError> {
    let mut name = String::from_str(alloc, "CARGO_TARGET_")?;
    for letter in target.chars() {
        match letter {
            '-' | '.' => name.push('_')?,
            _ => name.push(letter.to_ascii_uppercase())?,
        }
    }
    name.push_str("_RUSTFLAGS")?;
    Ok(name)
}

/// Adds the flags of a variable that counts beside a field of the configuration, if it is set. The flags of the field
/// count too.
fn add_variable<R: Env + AllocGlobal>(
    rt: &R,
    name: String,
    key: Option<&str>,
    found: &mut Vec<Flags>,
) -> Result<(), AllocError> {
    let alloc = rt.alloc();
    if let Some(text) = variable(rt, name.as_str())? {
        found.push(Flags {
            place: name,
            source: configured_source(key),
            key: owned_key(alloc, key)?,
            flags: split_white_space(alloc, text.as_str())?,
            is_string: true,
        })?;
    }
    Ok(())
}

/// Returns the flags of a value: the parts of a string between white space, or the strings of an array.
fn flags_of_value(alloc: Global, value: &Value) -> Result<Vec<String>, AllocError> {
    match value {
        Value::String(text) => split_white_space(alloc, text.as_str()),
        Value::Array(entries) => {
            let mut flags = Vec::new(alloc);
            for entry in entries {
                if let Some(flag) = entry.as_str() {
                    flags.push(String::from_str(alloc, flag)?)?;
                }
            }
            Ok(flags)
        }
        _ => Ok(Vec::new(alloc)),
    }
}

/// Adds the flags of a table, if it has any, unless those of a file with precedence exclude them.
fn add_table(
    alloc: Global,
    table: &Table,
    key: Option<&str>,
    found: &mut Vec<Flags>,
) -> Result<(), AllocError> {
    let Some(value) = table.get(RUSTFLAGS) else {
        return Ok(());
    };
    let is_string = value.as_str().is_some();
    if found.iter().any(|it| it.are_for(key) && !are_joined(it.is_string, is_string)) {
        return Ok(());
    }
    let place = match key {
        Some(key) if is_path(key) => format!(in alloc; "target.{key}.{RUSTFLAGS}")?,
        Some(key) => format!(in alloc; "target.'{key}'.{RUSTFLAGS}")?,
        None => format!(in alloc; "build.{RUSTFLAGS}")?,
    };
    found.push(Flags {
        place,
        source: configured_source(key),
        key: owned_key(alloc, key)?,
        flags: flags_of_value(alloc, value)?,
        is_string,
    })?;
    Ok(())
}

/// Returns whether a key of `target` is the name of a target with a point, such as `thumbv8m.main-none-eabi`.
fn is_path(key: &str) -> bool {
    key.contains('.') && !key.starts_with("cfg(")
}

/// Adds the flags of the tables that `[target.FIRST.REST]` begins, where `fields` is the table of `FIRST`: those for
/// the target with the name `FIRST.REST`.
fn add_paths(
    alloc: Global,
    first: &str,
    fields: &Table,
    found: &mut Vec<Flags>,
) -> Result<(), AllocError> {
    for (rest, value) in fields.iter() {
        if let Some(inner) = value.as_table() {
            let name = format!(in alloc; "{first}.{rest}")?;
            add_table(alloc, inner, Some(name.as_str()), found)?;
        }
    }
    Ok(())
}

/// Adds the flags of a configuration. Cargo looks up the name of a target as a path of keys, so a name with a point has
/// a table for each of its parts, and a quoted key with a point counts for no target.
fn add_configuration(
    alloc: Global,
    configuration: &Table,
    found: &mut Vec<Flags>,
) -> Result<(), AllocError> {
    if let Some(build) = table_in(configuration, "build") {
        add_table(alloc, build, None, found)?;
    }
    if let Some(targets) = table_in(configuration, "target") {
        for (key, value) in targets.iter() {
            let Some(fields) = value.as_table() else {
                continue;
            };
            if !is_path(key.as_str()) {
                add_table(alloc, fields, Some(key.as_str()), found)?;
                add_paths(alloc, key.as_str(), fields, found)?;
            }
        }
    }
    Ok(())
}

/// Returns the flags of the configuration files that Cargo reads in the current folder, those with precedence first.
fn file_flags<R: Files + Input + Env + AllocGlobal>(
    rt: &R,
    limit: u64,
) -> Result<Vec<Flags>, QueryError> {
    let alloc = rt.alloc();
    let mut found = Vec::new(alloc);
    let mut files = UnreadFiles::in_current_folder(rt)?;
    for _ in 0..MAX_FILES {
        let Some(configuration) = files.read_next(rt, limit)? else {
            return Ok(found);
        };
        add_configuration(alloc, &configuration.document.table, &mut found)?;
    }
    files.reject_rest(alloc)?;
    Ok(found)
}

/// The flags of rustc in the current folder that are read once for all targets. Where some belong to a key of `target`,
/// `Flags::key` is that key. The flags of a variable `CARGO_TARGET_<triple>_RUSTFLAGS` are not among them: `of_target`
/// reads them.
#[derive(Drop)]
pub struct SharedRustflags {
    pub flags: Vec<Flags>,
    /// Whether Cargo's configuration counts, so that no variable excludes it.
    is_configured: bool,
}

impl SharedRustflags {
    /// Reads the rustflags of the environment. Unless these take precedence, it reads those of the configuration files,
    /// which have at most `limit` bytes each, and of the variable `CARGO_BUILD_RUSTFLAGS`.
    ///
    /// Fails where a file can't be used, or includes files that Cargo rejects.
    pub fn read<R: Files + Input + Env + AllocGlobal>(
        rt: &R,
        limit: u64,
    ) -> Result<SharedRustflags, QueryError> {
        let found = environment_flags(rt)?;
        if !found.is_empty() {
            return Ok(SharedRustflags {
                flags: found,
                is_configured: false,
            });
        }
        let mut flags = file_flags(rt, limit)?;
        let name = String::from_str(rt.alloc(), BUILD_VARIABLE)?;
        add_variable(rt, name, None, &mut flags)?;
        Ok(SharedRustflags {
            flags,
            is_configured: true,
        })
    }

    /// Reads the flags of the variable `CARGO_TARGET_<triple>_RUSTFLAGS` of a target, which count in addition to
    /// `target.<triple>.rustflags`. Returns none if it is not set, or if another variable takes precedence.
    pub fn of_target<R: Env + AllocGlobal>(
        &self,
        rt: &R,
        target: &str,
    ) -> Result<Vec<Flags>, AllocError> {
        let mut found = Vec::new(rt.alloc());
        if self.is_configured {
            let name = target_variable(rt.alloc(), target)?;
            add_variable(rt, name, Some(target), &mut found)?;
        }
        Ok(found)
    }
}
