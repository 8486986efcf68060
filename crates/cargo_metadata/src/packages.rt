//! The packages of a document.

ghost use Rattle.std.specs.Prelude.{◌≡◌, MatchResult};
ghost use Rattle.serde_json.specs.View.{view};
ghost use Rattle.cargo_metadata.specs.Fields.{IsFirstWrong, fields_of_package};
ghost use Rattle.cargo_metadata.specs.Packages.{IsPackage, is_private, is_macro, has_macro_kind, is_macro_kind};

use crate::fields::{list_at, require_text, text_at};
use crate::refusals::FieldError;
use serde_json::Value;

/// A package.
#[derive(Clone, Copy, Drop)]
pub struct Package<'a> {
    pub id: &'a str,
    pub name: &'a str,
    pub version: &'a str,
    pub license: Option<&'a str>,
    pub license_file: Option<&'a str>,
    /// True if the package can't be published: the list of its registries is empty.
    pub is_private: bool,
    /// True if one of its targets is a procedural macro.
    pub is_macro: bool,
}

/// Reads a package from an object. Fails at the first of its id, name and version that is
/// not a text.
pub fn package_of<'a>(value: &'a Value) -> Result<Package<'a>, FieldError>
    ensures { MatchResult result (λ p. IsPackage (view value.now) p)
        (λ wrong. IsFirstWrong fields_of_package (view value.now) wrong) }
{
    let id = require_text(value, "id")?;
    let name = require_text(value, "name")?;
    let version = require_text(value, "version")?;
    let license = text_at(value, "license");
    let license_file = text_at(value, "license_file");
    let is_private = is_private(value);
    let is_macro = is_macro(value);
    Ok(Package {
        id,
        name,
        version,
        license,
        license_file,
        is_private,
        is_macro,
    })
}

/// Returns whether a package can't be published: the list of its registries is empty. Without a list, it can be
/// published in each registry.
fn is_private(value: &Value) -> bool
    ensures { result ≡ is_private (view value.now) }
{
    match list_at(value, "publish") {
        None => false,
        Some(registries) => registries.is_empty(),
    }
}

/// Returns whether one of a package's targets is a procedural macro.
fn is_macro(value: &Value) -> bool
    ensures { result ≡ is_macro (view value.now) }
{
    let targets = match list_at(value, "targets") {
        None => return false,
        Some(targets) => targets,
    };
    for target in targets {
        if has_macro_kind(target) {
            return true;
        }
    }
    false
}

/// Returns whether one of a target's kinds is that of procedural macros.
fn has_macro_kind(target: &Value) -> bool
    ensures { result ≡ has_macro_kind (view target.now) }
{
    let kinds = match list_at(target, "kind") {
        None => return false,
        Some(kinds) => kinds,
    };
    for kind in kinds {
        if is_macro_kind(kind) {
            return true;
        }
    }
    false
}

/// Returns whether a value is the kind of procedural macros.
fn is_macro_kind(kind: &Value) -> bool
    ensures { result ≡ is_macro_kind (view kind.now) }
{
    match kind.as_str() {
        None => false,
        Some(text) => text == "proc-macro",
    }
}
