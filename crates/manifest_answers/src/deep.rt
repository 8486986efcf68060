//! Keys of a manifest that are nested too deeply.

ghost use Rattle.std.specs.Prelude.{IfOk, IfSome, IfNone, map};
ghost use Rattle.std.specs.List.{All};
ghost use Rattle.toml.specs.View.{table_view};
ghost use Rattle.input_limits.specs.Limits.{IsDeepAt};
ghost use Rattle.manifests.specs.Entries.{entry_of};
ghost use Rattle.manifests.specs.Tables.{target_of};
ghost use Rattle.manifest_answers.specs.Deep.{HasNoDeepKey, IsShallowEntry};

use cargo_platform::printable_excerpt;
use input_limits::{too_deep_at, too_deep_message};
use manifests::reading::Manifest;
use manifests::{TargetKey, TargetValue, target_keys};
use std::alloc::{AllocError, Global};
use toml::Table;

/// A key that is nested too deeply.
#[derive(Drop)]
pub struct DeepKey {
    /// The path of the manifest, with the number of the line on which the key first appears.
    place: String,
    /// The key as it is displayed, and why it is rejected.
    pub reason: String,
    pub key: String,
    /// The byte of the key at which more groups are open than may be.
    pub byte: usize,
    /// Why the key is rejected.
    pub message: String,
}

impl DeepKey {
    /// Formats the key and why it is rejected, on a line of its own.
    pub fn line(&self, alloc: Global) -> Result<String, AllocError> {
        let place = self.place.as_str();
        let reason = self.reason.as_str();
        format!(in alloc; "{place}: error[refused]: {reason}\n")
    }
}

/// Returns the first of the keys that is nested too deeply, and the byte from which on it is.
fn deep_of<'a>(keys: &[TargetKey<'a>]) -> Option<(&'a str, usize)>
    ensures deep { IfSome result (λ found. IsDeepAt found.0.now found.1) }
    ensures shallow { IfNone result (All IsShallowEntry (map entry_of keys.now)) }
{
    'keys: for key in keys {
        if let Some(at) = too_deep_at(key.key) {
            return Some((key.key, at));
        }
    }
    None
}

/// Describes the key of the manifest, which is nested too deeply from this byte on.
fn deep_key(
    alloc: Global,
    manifest: &Manifest,
    key: &str,
    at: usize,
) -> Result<DeepKey, AllocError> {
    let path = manifest.path.as_str();
    let place = match manifest.document.locations.location_of_key(key) {
        Some(at) => {
            let line = at.line;
            format!(in alloc; "{path}:{line}")?
        }
        None => String::from_str(alloc, path)?,
    };
    let shown = printable_excerpt(alloc, key)?;
    let reason = too_deep_message(alloc, at)?;
    let message = format!(in alloc; "the key is {reason}")?;
    Ok(DeepKey {
        place,
        reason: format!(in alloc; "target.'{shown}': {message}")?,
        key: String::from_str(alloc, key)?,
        byte: at,
        message,
    })
}

/// Returns whether some key of the manifest with this table is nested too deeply.
pub(crate) fn has_deep(alloc: Global, manifest: &Table) -> Result<bool, AllocError> {
    match target_keys(alloc, manifest)? {
        TargetValue::Keys(keys) => Ok(deep_of(&keys).is_some()),
        TargetValue::NoTable | TargetValue::Absent => Ok(false),
    }
}

/// Returns the first key of a manifest, in the order of their bytes, that is nested too deeply, or `None` if there is
/// none.
pub fn first_too_deep_key(alloc: Global, manifest: &Manifest) -> Result<Option<DeepKey>, AllocError>
    ensures { IfOk result
        (λ found. IfNone found (HasNoDeepKey (target_of (table_view manifest.now.document.table)))) }
{
    match target_keys(alloc, &manifest.document.table)? {
        TargetValue::Keys(keys) => match deep_of(&keys) {
            Some((key, at)) => Ok(Some(deep_key(alloc, manifest, key, at)?)),
            None => Ok(None),
        },
        TargetValue::NoTable | TargetValue::Absent => Ok(None),
    }
}
