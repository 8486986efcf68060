//! The rules in the metadata of a manifest.

use cargo_platform::{Cfg, Platform, ReadError};
use diagnostics::{LintLevel, Rule, Subject};
use former_names::Release;
use std::alloc::{AllocError, Global};
use toml::{Table, Value};

/// The name of the table of rules.
pub const TOOL: &str = "manifest-check";

/// The settings in the order of their rules: if a lint is in several lists, the last list decides.
const SETTINGS: [LintLevel; 3] = [LintLevel::Allow, LintLevel::Warn, LintLevel::Deny];

/// The list of targets that a project has in addition to those of rustc.
const KNOWN_TARGETS: &str = "known-targets";

/// The list of facts that a project sets by flags of its own.
const KNOWN_FACTS: &str = "known-facts";

/// The field with the release of rustc that builds a project.
const RUSTC: &str = "rustc";

/// An error in a table of rules.
#[derive(Drop)]
pub enum SettingsError {
    /// The value is not a table.
    NoTable,
    /// The value of this field is not a list.
    NoList(&'static str),
    /// An entry of this list is neither a lint nor a table with the texts `key` and `code`.
    NoEntry(&'static str),
    /// An entry of this list is not a text.
    NoText(&'static str),
    /// The value of this field is not a release.
    NoRelease(&'static str),
    /// No lint has this name.
    UnknownCode(String),
    /// No setting has this name.
    UnknownWord(String),
    /// An entry of `known-facts` with this text is no fact.
    NoFact(String),
    /// An entry of `known-targets` is neither a text nor a table with the texts `name` and `facts`.
    NoTargetEntry,
    /// An entry of `known-targets` with this text is no name of a target.
    NoTarget(String),
    /// The file with the facts of a target in `known-targets` can't be used, for this reason.
    NoFactsOf(String),
    /// The name of the table has an underscore.
    Underscored,
}

/// The name of the table of rules with an underscore, under which nothing is read.
pub const UNDERSCORED_TOOL: &str = "manifest_check";

/// The names of all settings in a table of rules.
pub const SETTINGS_BY_NAME: [&str; 6] = [
    "allow",
    "warn",
    "deny",
    KNOWN_TARGETS,
    KNOWN_FACTS,
    RUSTC,
];

/// An error in a table of rules, with its place in the table.
#[derive(Drop)]
pub struct SettingsErrorAt {
    pub fault: SettingsError,
    /// The field that is at fault, or the empty text for the whole table.
    pub field: String,
    /// The index of the entry at fault, if the field is a list.
    pub entry: Option<usize>,
}

/// A target in `known-targets` whose facts are in a file.
#[derive(Drop)]
pub struct CustomTarget {
    pub name: String,
    /// The path of the file, from the folder of the manifest.
    pub file: String,
    /// The index of its entry.
    pub entry: usize,
}

/// The settings in a table of rules.
#[derive(Drop)]
pub struct Settings {
    /// The rules for all keys, and then those for one key: of each, those of `allow`, then of `warn`, then of `deny`.
    pub rules: Vec<Rule>,
    /// The names of known targets, in addition to those of rustc.
    pub targets: Vec<String>,
    /// Those of them whose facts are in files.
    pub custom_targets: Vec<CustomTarget>,
    /// The facts that are declared as known, as `rustc --print cfg` prints them.
    pub facts: Vec<String>,
    /// The release of rustc that builds the project.
    pub rustc: Option<Release>,
    /// The errors in the table.
    pub faults: Vec<SettingsErrorAt>,
}

/// Returns the value of this name in `package.metadata` or `workspace.metadata` of a manifest, if there is one. `part`
/// is `package` or `workspace`.
fn metadata_at<'a>(manifest: &'a Table, part: &str, name: &str) -> Option<&'a Value> {
    let part = manifest.get(part)?.as_table()?;
    part.get("metadata")?.as_table()?.get(name)
}

/// Returns the value for the table of rules in `package.metadata` or `workspace.metadata` of a manifest, if there is
/// one. `part` is `package` or `workspace`.
pub fn settings_at<'a>(manifest: &'a Table, part: &str) -> Option<&'a Value> {
    metadata_at(manifest, part, TOOL)
}

/// Returns whether a text is a fact, as `rustc --print cfg` prints it. Spaces around `=` are ignored. Fails if memory
/// is refused.
pub fn is_fact(alloc: Global, text: &str) -> Result<bool, AllocError> {
    match Cfg::from_str(alloc, text) {
        Ok(_fact) => Ok(true),
        Err(ReadError::Parse(_error)) => Ok(false),
        Err(ReadError::Memory(refused)) => Err(refused),
    }
}

/// Returns whether a text may be the name of a target. Fails if memory is refused.
fn is_target_name(alloc: Global, text: &str) -> Result<bool, AllocError> {
    match Platform::from_str(alloc, text) {
        Ok(Platform::Name(_name)) => Ok(true),
        Ok(Platform::Cfg(_)) | Err(ReadError::Parse(_)) => Ok(false),
        Err(ReadError::Memory(refused)) => Err(refused),
    }
}

/// Returns the text in a member of an entry.
fn text_at<'a>(entry: &'a Table, member: &str) -> Option<&'a str> {
    entry.get(member)?.as_str()
}

/// Returns the entries of the list of this name, and none if there is no list.
fn texts_at<'a>(table: &'a Table, word: &str) -> &'a [Value] {
    match table.get(word) {
        Some(Value::Array(entries)) => entries.as_slice(),
        _ => &[],
    }
}

/// Returns whether a setting has this name.
fn is_word(word: &str) -> bool {
    SETTINGS_BY_NAME.contains(&word)
}

/// Returns the lint that an entry of a list names, and the key if it has one.
fn named_by(entry: &Value) -> Option<(&str, Option<&str>)> {
    match entry {
        Value::String(word) => Some((word.as_str(), None)),
        Value::Table(table) => Some((text_at(table, "code")?, Some(text_at(table, "key")?))),
        _ => None,
    }
}

/// Returns the name in an entry of `known-targets`, and the path of the file with the facts of the target if it has one.
fn target_in(entry: &Value) -> Option<(&str, Option<&str>)> {
    match entry {
        Value::String(name) => Some((name.as_str(), None)),
        Value::Table(table) => Some((text_at(table, "name")?, Some(text_at(table, "facts")?))),
        _ => None,
    }
}

/// Returns the release that a value spells, or `None` if it spells none.
pub fn release_of(value: &Value) -> Option<Release> {
    Release::of(value.as_str()?)
}

impl Settings {
    /// Records an error in a field, of the entry at an index if there is one.
    fn add_fault(
        &mut self,
        alloc: Global,
        field: &str,
        entry: Option<usize>,
        fault: SettingsError,
    ) -> Result<(), AllocError> {
        let field = String::from_str(alloc, field)?;
        self.faults.push(SettingsErrorAt {
            fault,
            field,
            entry,
        })?;
        Ok(())
    }

    /// Adds the rule of the entry at an index: of one that names a key if `of_keys`, and else of one that names none.
    fn add_entry(
        &mut self,
        alloc: Global,
        setting: LintLevel,
        (index, entry): (usize, &Value),
        of_keys: bool,
    ) -> Result<(), AllocError> {
        let Some((word, key)) = named_by(entry) else {
            if !of_keys {
                let fault = SettingsError::NoEntry(setting.word());
                self.add_fault(alloc, setting.word(), Some(index), fault)?;
            }
            return Ok(());
        };
        if key.is_some() != of_keys {
            return Ok(());
        }
        let Some(subject) = Subject::of(word) else {
            let fault = SettingsError::UnknownCode(String::from_str(alloc, word)?);
            return self.add_fault(alloc, setting.word(), Some(index), fault);
        };
        let key = match key {
            Some(key) => Some(String::from_str(alloc, key)?),
            None => None,
        };
        self.rules.push(Rule {
            setting,
            subject,
            key,
            entry: Some(index),
        })?;
        Ok(())
    }

    /// Adds the rules of the lists: those for one key if `of_keys`, and else those for all keys.
    fn add_lists(&mut self, alloc: Global, table: &Table, of_keys: bool) -> Result<(), AllocError> {
        for setting in SETTINGS {
            match table.get(setting.word()) {
                Some(Value::Array(entries)) => {
                    for entry in entries.iter().enumerate() {
                        self.add_entry(alloc, setting, entry, of_keys)?;
                    }
                }
                Some(_) => {
                    if !of_keys {
                        let fault = SettingsError::NoList(setting.word());
                        self.add_fault(alloc, setting.word(), None, fault)?;
                    }
                }
                None => {}
            }
        }
        Ok(())
    }

    /// Returns the texts of a list, and records errors in it.
    fn texts(
        &mut self,
        alloc: Global,
        table: &Table,
        word: &'static str,
    ) -> Result<Vec<String>, AllocError> {
        let mut texts = Vec::new(alloc);
        match table.get(word) {
            Some(Value::Array(entries)) => {
                for (index, entry) in entries.iter().enumerate() {
                    match entry.as_str() {
                        Some(text) => texts.push(String::from_str(alloc, text)?)?,
                        None => self.add_fault(
                            alloc,
                            word,
                            Some(index),
                            SettingsError::NoText(word),
                        )?,
                    }
                }
            }
            Some(_) => self.add_fault(alloc, word, None, SettingsError::NoList(word))?,
            None => {}
        }
        Ok(texts)
    }

    /// Returns the release in a field, and records an error in it.
    fn release(
        &mut self,
        alloc: Global,
        table: &Table,
        word: &'static str,
    ) -> Result<Option<Release>, AllocError> {
        let Some(value) = table.get(word) else {
            return Ok(None);
        };
        let release = release_of(value);
        if release.is_none() {
            self.add_fault(alloc, word, None, SettingsError::NoRelease(word))?;
        }
        Ok(release)
    }

    /// Adds the target of the entry of `known-targets` at an index, or records that it names none.
    fn add_target(&mut self, alloc: Global, index: usize, entry: &Value) -> Result<(), AllocError> {
        let Some((name, file)) = target_in(entry) else {
            return self.add_fault(
                alloc,
                KNOWN_TARGETS,
                Some(index),
                SettingsError::NoTargetEntry,
            );
        };
        let name = String::from_str(alloc, name)?;
        if !is_target_name(alloc, name.as_str())? {
            return self.add_fault(
                alloc,
                KNOWN_TARGETS,
                Some(index),
                SettingsError::NoTarget(name),
            );
        }
        if let Some(file) = file {
            self.custom_targets.push(CustomTarget {
                name: name.clone()?,
                file: String::from_str(alloc, file)?,
                entry: index,
            })?;
        }
        self.targets.push(name)?;
        Ok(())
    }

    /// Adds the targets in `known-targets`.
    fn add_targets(&mut self, alloc: Global, table: &Table) -> Result<(), AllocError> {
        match table.get(KNOWN_TARGETS) {
            Some(Value::Array(entries)) => {
                for (index, entry) in entries.iter().enumerate() {
                    self.add_target(alloc, index, entry)?;
                }
                Ok(())
            }
            Some(_) => {
                self.add_fault(
                    alloc,
                    KNOWN_TARGETS,
                    None,
                    SettingsError::NoList(KNOWN_TARGETS),
                )
            }
            None => Ok(()),
        }
    }

    /// Records that the file of a target in `known-targets`, whose entry has this index, can't be used.
    pub fn reject_target(
        &mut self,
        alloc: Global,
        entry: usize,
        reason: String,
    ) -> Result<(), AllocError> {
        self.add_fault(
            alloc,
            KNOWN_TARGETS,
            Some(entry),
            SettingsError::NoFactsOf(reason),
        )
    }

    /// Records the entries of `known-facts` that are no facts: they have no effect.
    fn add_idle(&mut self, alloc: Global, table: &Table) -> Result<(), AllocError> {
        for (index, text) in texts_at(table, KNOWN_FACTS).iter().enumerate() {
            let text = text.as_str().unwrap_or("a");
            if !is_fact(alloc, text)? {
                let fault = SettingsError::NoFact(String::from_str(alloc, text)?);
                self.add_fault(alloc, KNOWN_FACTS, Some(index), fault)?;
            }
        }
        Ok(())
    }

    /// Reads the settings of a part of a manifest, `package` or `workspace`. Errors in its table of rules are recorded
    /// in `faults`; the call fails only if memory is refused.
    pub fn in_part(alloc: Global, manifest: &Table, part: &str) -> Result<Settings, AllocError> {
        let mut settings = Settings::of(alloc, settings_at(manifest, part))?;
        if metadata_at(manifest, part, UNDERSCORED_TOOL).is_some() {
            settings.add_fault(alloc, "", None, SettingsError::Underscored)?;
        }
        Ok(settings)
    }

    /// Returns whether the settings declare a target of this name as known.
    pub fn knows_target(&self, name: &str) -> bool {
        self.targets.iter().any(|it| it.as_str() == name)
    }

    /// Reads the settings from a table of rules, if there is one. Errors in the table are recorded in
    /// `faults`; the call fails only if memory is refused.
    pub fn of(alloc: Global, value: Option<&Value>) -> Result<Settings, AllocError> {
        let mut settings = Settings {
            rules: Vec::new(alloc),
            targets: Vec::new(alloc),
            custom_targets: Vec::new(alloc),
            facts: Vec::new(alloc),
            rustc: None,
            faults: Vec::new(alloc),
        };
        match value {
            Some(Value::Table(table)) => {
                settings.add_targets(alloc, table)?;
                settings.facts = settings.texts(alloc, table, KNOWN_FACTS)?;
                settings.rustc = settings.release(alloc, table, RUSTC)?;
                settings.add_idle(alloc, table)?;
                settings.add_lists(alloc, table, false)?;
                settings.add_lists(alloc, table, true)?;
                for (word, _) in table.iter() {
                    if !is_word(word.as_str()) {
                        let fault = SettingsError::UnknownWord(word.clone()?);
                        settings.add_fault(alloc, word.as_str(), None, fault)?;
                    }
                }
            }
            Some(_) => settings.add_fault(alloc, "", None, SettingsError::NoTable)?,
            None => {}
        }
        Ok(settings)
    }
}
