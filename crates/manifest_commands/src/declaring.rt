//! The facts of the setting `known-facts`, added to those that a manifest declares.

use std::alloc::{AllocError, Global};
use toml::{Table, Value};
use workspaces::put;

/// The path of the table in which a manifest declares facts.
const PATH: [&str; 3] = ["lints", "rust", "unexpected_cfgs"];

/// The member of that table with the declarations.
const MEMBER: &str = "check-cfg";

/// Formats the declaration of a fact in the form of `rustc --print cfg`.
fn declaration(alloc: Global, fact: &str) -> Result<String, AllocError> {
    match fact.split_once('=') {
        Some((key, value)) => {
            let key = key.trim();
            let value = value.trim();
            format!(in alloc; "cfg({key}, values({value}))")
        }
        None => format!(in alloc; "cfg({fact})"),
    }
}

/// Returns the declarations of a manifest, followed by those of these facts.
fn declarations(
    alloc: Global,
    declared: Option<&Value>,
    facts: &[String],
) -> Result<Value, AllocError> {
    let mut texts = Vec::new(alloc);
    if let Some(Value::Array(entries)) = declared {
        for entry in entries {
            texts.push(entry.clone()?)?;
        }
    }
    for fact in facts {
        texts.push(Value::String(declaration(alloc, fact.as_str())?))?;
    }
    Ok(Value::Array(texts))
}

/// Copies a table, or returns an empty one if the value is not a table.
fn table_at(alloc: Global, value: Option<&Value>) -> Result<Table, AllocError> {
    match value {
        Some(Value::Table(table)) => table.clone(),
        _ => Ok(Table::new(alloc)),
    }
}

/// Adds facts to those that a manifest declares. Fails only if memory is refused.
pub fn declare(alloc: Global, manifest: &mut Table, facts: &[String]) -> Result<(), AllocError> {
    if facts.is_empty() {
        return Ok(());
    }
    let [lints_name, rust_name, cfgs_name] = PATH;
    let mut lints = table_at(alloc, manifest.get(lints_name))?;
    let mut rust = table_at(alloc, lints.get(rust_name))?;
    let mut cfgs = table_at(alloc, rust.get(cfgs_name))?;
    let texts = declarations(alloc, cfgs.get(MEMBER), facts)?;
    put(alloc, &mut cfgs, MEMBER, texts)?;
    put(alloc, &mut rust, cfgs_name, Value::Table(cfgs))?;
    put(alloc, &mut lints, rust_name, Value::Table(rust))?;
    put(alloc, manifest, lints_name, Value::Table(lints))
}
