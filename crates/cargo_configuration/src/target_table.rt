//! The table `target` of a configuration, whose keys are those of a manifest, by Cargo's reference ("Configuration":
//! `target`).

use known_targets::KnownTarget;
use manifest_lints_findings::{Children, Finding, KeyLint};
use std::alloc::{AllocError, Global};
use toml::{Table, Value};
use workspaces::put;

/// The message on an unsupported fact in a configuration. Cargo itself warns of these facts in manifests alone.
const UNSUPPORTED: &str =
    "Cargo asks this key by what `rustc --print cfg` prints, which knows no feature, test or profile";

/// Returns whether a table has only the rest of the names of known targets, as the one of `thumbv8m` does in
/// `[target.thumbv8m.main-none-eabi]`. Cargo looks up a name as a path of keys.
fn only_begins_names(alloc: Global, first: &str, fields: &Table) -> Result<bool, AllocError> {
    for (rest, value) in fields.iter() {
        let name = format!(in alloc; "{first}.{rest}")?;
        if value.as_table().is_none() || KnownTarget::by_name(name.as_str()).is_none() {
            return Ok(false);
        }
    }
    Ok(!fields.is_empty())
}

/// Returns the keys of a table, each table among their values empty. A key that only begins names of targets is left
/// out.
fn without_fields(alloc: Global, targets: &Table) -> Result<Table, AllocError> {
    let mut keys = Table::new(alloc);
    for (key, value) in targets.iter() {
        let value = match value {
            Value::Table(fields) => {
                if only_begins_names(alloc, key.as_str(), fields)? {
                    continue;
                }
                Value::Table(Table::new(alloc))
            }
            _ => value.clone()?,
        };
        put(alloc, &mut keys, key.as_str(), value)?;
    }
    Ok(keys)
}

/// Returns a manifest that has the keys of `target` of a configuration, without their fields, and these lints.
///
/// Fails only if an allocation fails.
pub fn manifest_with_targets(
    alloc: Global,
    configuration: &Table,
    lints: Option<Value>,
) -> Result<Table, AllocError> {
    let mut manifest = Table::new(alloc);
    match configuration.get("target") {
        Some(Value::Table(targets)) => {
            let keys = without_fields(alloc, targets)?;
            put(alloc, &mut manifest, "target", Value::Table(keys))?;
        }
        Some(value) => put(alloc, &mut manifest, "target", value.clone()?)?,
        None => {}
    }
    if let Some(lints) = lints {
        put(alloc, &mut manifest, "lints", lints)?;
    }
    Ok(manifest)
}

/// Replaces the messages and notes on unsupported facts, which speak of dependencies, by the message for a
/// configuration.
///
/// Fails only if an allocation fails.
pub fn explain_unsupported(alloc: Global, findings: &mut [Finding]) -> Result<(), AllocError> {
    for finding in findings {
        if finding.code == KeyLint::Unsupported {
            finding.message = String::from_str(alloc, UNSUPPORTED)?;
            finding.children = Children::none(alloc);
        }
    }
    Ok(())
}
