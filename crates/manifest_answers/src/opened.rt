//! The names that a command line leaves open, and whether keys use them.

use cargo_platform::{Platform, ReadError, values_of};
use key_answers::printing::format_name;
use manifest_lints_findings::near;
use manifests::{TargetValue, target_keys};
use predicate_classes::rustc_names::name_in;
use std::alloc::{AllocError, Global};
use toml::Table;

/// A name that is left open.
#[derive(Drop)]
struct Opened {
    name: String,
    /// True if a key uses it.
    is_used: bool,
    /// A name in a key that differs from this one by one edit.
    near: Option<String>,
}

impl Opened {
    /// Records that a key uses this name.
    fn note(&mut self, alloc: Global, name: &str) -> Result<(), AllocError> {
        if self.name.as_str() == name {
            self.is_used = true;
        } else if self.near.is_none() && near(self.name.as_str(), &[name]).is_some() {
            self.near = Some(String::from_str(alloc, name)?);
        }
        Ok(())
    }
}

/// The names that are left open.
#[derive(Drop)]
pub struct OpenNames {
    names: Vec<Opened>,
}

impl OpenNames {
    /// Creates the list of these names, none of which is used by a key yet.
    pub fn new(alloc: Global, names: &[&str]) -> Result<OpenNames, AllocError> {
        let mut opened = Vec::new(alloc);
        for name in names {
            opened.push(Opened {
                name: String::from_str(alloc, name)?,
                is_used: false,
                near: None,
            })?;
        }
        Ok(OpenNames { names: opened })
    }

    /// Records that a key uses this name.
    fn note_name(&mut self, alloc: Global, name: &str) -> Result<(), AllocError> {
        for opened in &mut self.names {
            opened.note(alloc, name)?;
        }
        Ok(())
    }

    /// Records the names in a key. An invalid key has none.
    fn note_key(&mut self, alloc: Global, key: &str) -> Result<(), AllocError> {
        match Platform::from_str(alloc, key) {
            Ok(condition) => {
                for fact in &values_of(alloc, &condition)? {
                    self.note_name(alloc, name_in(fact))?;
                }
                Ok(())
            }
            Err(ReadError::Parse(_)) => Ok(()),
            Err(ReadError::Memory(refused)) => Err(refused),
        }
    }

    /// Records which of these names the keys of a manifest use.
    pub fn record_uses(&mut self, alloc: Global, manifest: &Table) -> Result<(), AllocError> {
        if self.names.is_empty() {
            return Ok(());
        }
        if let TargetValue::Keys(keys) = target_keys(alloc, manifest)? {
            for key in &keys {
                self.note_key(alloc, key.key)?;
            }
        }
        Ok(())
    }

    /// Returns the warnings for the names that no key uses, one a line.
    pub fn unused_warnings(&self, alloc: Global) -> Result<String, AllocError> {
        let mut lines = String::new(alloc);
        for opened in &self.names {
            if !opened.is_used {
                let line = unused_line(alloc, opened)?;
                lines.push_str(line.as_str())?;
            }
        }
        Ok(lines)
    }
}

/// Returns the warning for a name that no key uses.
fn unused_line(alloc: Global, opened: &Opened) -> Result<String, AllocError> {
    let name = format_name(alloc, opened.name.as_str())?;
    match &opened.near {
        Some(near) => {
            let near = near.as_str();
            format!(in alloc; "warning: --open {name}: no key has it; did you mean {near}?\n")
        }
        None => format!(in alloc; "warning: --open {name}: no key has it\n"),
    }
}
