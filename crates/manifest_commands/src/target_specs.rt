//! The custom targets that `--target-spec` adds to the known ones, or to those of `--facts-of`.

use crate::limits::{bare_message, read_input_text};
use crate::target_names::ALL_TARGETS;
use cargo_platform::{Platform, printable_text};
use key_answers::answer::QueryError;
use key_answers::conditions::read_key;
use manifest_answers::given_targets::GivenTargets;
use std::alloc::{AllocError, Global};
use std::rt::Files;

/// A value of the option, `NAME=FILE`.
#[derive(Clone, Copy, Drop)]
struct CustomTarget<'a> {
    value: &'a str,
    name: &'a str,
    /// The path of the file with its facts.
    file: &'a str,
}

impl<'a> CustomTarget<'a> {
    /// Returns the target of a value, which is neither the name nor the file of an earlier one.
    fn of(
        alloc: Global,
        value: &'a str,
        earlier: &[CustomTarget<'a>],
    ) -> Result<CustomTarget<'a>, QueryError> {
        let (name, file) = value.split_once('=').unwrap_or(("", ""));
        if name.is_empty() || file.is_empty() {
            return Err(refused(alloc, value, "the value is not NAME=FILE")?);
        }
        if !is_target_name(alloc, name)? {
            return Err(refused(alloc, value, "NAME is not the name of a target")?);
        }
        if earlier.iter().any(|it| it.name == name) {
            return Err(refused(alloc, value, "an earlier --target-spec has this name")?);
        }
        if earlier.iter().any(|it| it.file == file) {
            return Err(refused(alloc, value, "an earlier --target-spec has this file")?);
        }
        Ok(CustomTarget { value, name, file })
    }

    /// Reads the facts of the target, and adds it to others.
    fn add_to<R: Files + Input + AllocGlobal>(
        self,
        rt: &R,
        given: &mut GivenTargets,
        limit: u64,
    ) -> Result<(), QueryError> {
        let text = read_input_text(rt, self.file, limit)?;
        given.add(rt.alloc(), self.name, text.as_str())
    }
}

/// Returns the error of a value.
fn refused(alloc: Global, value: &str, reason: &str) -> Result<QueryError, AllocError> {
    let value = printable_text(alloc, value)?;
    let line = format!(in alloc; "error: --target-spec {value}: {reason}\n")?;
    Ok(QueryError::Unusable(line))
}

/// Returns whether a target can have this name: a key can, `--target` takes it for one target, and it is not the file
/// name of a specification.
fn is_target_name(alloc: Global, name: &str) -> Result<bool, AllocError> {
    if name == ALL_TARGETS || name.ends_with(".json") {
        return Ok(false);
    }
    match read_key(alloc, name) {
        Ok(Platform::Name(_)) => Ok(true),
        Ok(Platform::Cfg(_)) | Err(QueryError::Unusable(_)) => Ok(false),
        Err(QueryError::Memory(refused)) => Err(refused),
    }
}

/// Returns the targets of a file, or else the known ones, with those of these values of `--target-spec`. If there are
/// no values, nothing changes. Fails with a message that names the option and the value if one of them is invalid.
pub fn with_custom_targets<R: Files + Input + AllocGlobal>(
    rt: &R,
    given: Option<GivenTargets>,
    values: &[&str],
    limit: u64,
) -> Result<Option<GivenTargets>, QueryError> {
    if values.is_empty() {
        return Ok(given);
    }
    let alloc = rt.alloc();
    let mut added = Vec::new(alloc);
    for value in values {
        let target = CustomTarget::of(alloc, value, &added)?;
        added.push(target).map_err(AllocError::from)?;
    }
    let mut given = match given {
        Some(given) => given,
        None => GivenTargets::known(alloc)?,
    };
    for target in added {
        match target.add_to(rt, &mut given, limit) {
            Ok(()) => {}
            Err(QueryError::Unusable(message)) => {
                let file = printable_text(alloc, target.file)?;
                let reason = bare_message(message.as_str(), file.as_str());
                return Err(refused(alloc, target.value, reason)?);
            }
            Err(QueryError::Memory(refused)) => return Err(refused.into()),
        }
    }
    given.file.push_str(" with --target-spec")?;
    Ok(Some(given))
}
