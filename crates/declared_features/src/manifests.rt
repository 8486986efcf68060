//! The declarations of packages in a document: their dependencies and features.

ghost use Rattle.std.specs.Prelude.{◌≡◌, ◌++◌, IfOk, IfErr, IfSome, Some, All, MatchResult, option_map, is_some, codes};
ghost use Rattle.std.specs.Option.{option_copied};
ghost use Rattle.serde_json.specs.View.{view};
ghost use Rattle.serde_json.specs.Find.{get, as_array};
ghost use Rattle.cargo_metadata.specs.Fields.{text_at, flag_at, fits, is_texts, Fits, IsFirstWrong};
ghost use Rattle.cargo_metadata.specs.Nodes.{kind_at, condition_at};
ghost use Rattle.cargo_metadata.specs.Rows.{AreRowsAt};
ghost use Rattle.declared_features.specs.Documents.{IsText, IsDeclared, AreEntriesOf, AreFeaturesOf, IsManifest};
ghost use Rattle.declared_features.specs.Documents.{is_library_kind, is_library, library_of};
ghost use Rattle.declared_features.specs.Refusals.{fields_of_subject, fields_of_flags, IsInDeclared, IsInManifest};
ghost use Rattle.declared_features.specs.Refusals.{IsRefused};

use crate::entries::{FeatureEntry, entry_of};
use cargo_metadata::fields::{
    condition_of, field_at, kind_of, list_at, require_flag, require_list, require_text, text_at,
};
use cargo_metadata::{ExpectedValue, FieldError, Kind};
use serde_json::Value;
use std::alloc::{AllocError, Global};
use std::fmt::{self, Display, Formatter, Write};

/// A dependency as a package declares it.
#[derive(Drop)]
pub struct DeclaredDependency<'a> {
    /// The name of the package that is depended on.
    pub name: &'a str,
    /// The name that the declaring package gives it, if it gives one.
    pub rename: Option<&'a str>,
    pub kind: Kind,
    pub is_optional: bool,
    pub uses_default: bool,
    /// The features that the dependency requests.
    pub features: Vec<&'a str>,
    /// The condition as it is written, if there is one.
    pub condition: Option<&'a str>,
}

/// A feature, and the entries that it lists.
#[derive(Drop)]
pub struct Feature<'a> {
    pub name: &'a str,
    pub lists: Vec<FeatureEntry<'a>>,
}

/// The dependencies, features and library that a package declares.
#[derive(Drop)]
pub struct PackageDeclaration<'a> {
    /// The name of the package's library, if it has one.
    pub library: Option<&'a str>,
    pub dependencies: Vec<DeclaredDependency<'a>>,
    /// The features, sorted by name.
    pub features: Vec<Feature<'a>>,
}

/// The reason why a declared dependency is refused.
#[derive(Debug, Drop)]
pub enum DependencyError {
    Field(FieldError),
    /// The feature at this index is not a text.
    Feature(usize),
    Memory(AllocError),
}

/// The reason why the declarations of a package are refused.
#[derive(Debug, Drop)]
pub enum ManifestError {
    Field(FieldError),
    /// The dependency at this index is refused.
    Dependency(usize, DependencyError),
    Memory(AllocError),
}

/// The reason why the declarations of the packages are refused.
#[derive(Debug, Drop)]
pub enum DeclarationsError {
    Field(FieldError),
    /// The declarations of the package at this index are refused.
    Package(usize, ManifestError),
    Memory(AllocError),
}

/// Returns the features that a declared dependency requests.
fn requested_of<'a>(alloc: Global, value: &'a Value) -> Result<Vec<&'a str>, DependencyError>
    ensures features { IfOk result (λ features. AreRowsAt IsText (codes "features") (view value.now) features.items) }
    ensures fault { IfErr result (λ fault. All (Fits (view value.now)) (fields_of_subject ++ fields_of_flags)
        → IsInDeclared (view value.now) fault) }
{
    let items = match require_list(value, "features") {
        Ok(items) => items,
        Err(wrong) => return Err(DependencyError::Field(wrong)),
    };
    let mut features = Vec::new(alloc);
    'features: for i in 0..items.len() {
        let Some(text) = items[i].as_str() else {
            return Err(DependencyError::Feature(i));
        };
        if let Err(error) = features.push(text) {
            return Err(DependencyError::Memory(AllocError::from(error)));
        }
    }
    Ok(features)
}

/// Returns the flags of a declared dependency: whether it is optional, and whether it uses the default features.
fn flags_of(value: &Value) -> Result<(bool, bool), FieldError>
    ensures optional { IfOk result (λ flags. flag_at (codes "optional") (view value.now) ≡ Some flags.0) }
    ensures default { IfOk result (λ flags. flag_at (codes "uses_default_features") (view value.now) ≡ Some flags.1) }
    ensures fault { IfErr result (IsFirstWrong fields_of_flags (view value.now)) }
{
    let is_optional = require_flag(value, "optional")?;
    let uses_default = require_flag(value, "uses_default_features")?;
    Ok((is_optional, uses_default))
}

/// Returns the name, the kind and the condition of a declared dependency.
fn subject_of<'a>(value: &'a Value) -> Result<(&'a str, Kind, Option<&'a str>), FieldError>
    ensures name { IfOk result (λ subject. text_at (codes "name") (view value.now) ≡ Some subject.0.now) }
    ensures kind { IfOk result (λ subject. kind_at (view value.now) ≡ Some subject.1) }
    ensures condition { IfOk result (λ subject. condition_at (view value.now) ≡ Some (option_copied subject.2)) }
    ensures fault { IfErr result (IsFirstWrong fields_of_subject (view value.now)) }
{
    let name = require_text(value, "name")?;
    let kind = kind_of(value)?;
    let condition = condition_of(value)?;
    Ok((name, kind, condition))
}

/// Reads a declared dependency from an object.
fn declared_of<'a>(
    alloc: Global,
    value: &'a Value,
) -> Result<DeclaredDependency<'a>, DependencyError>
    ensures { MatchResult result (λ declared. IsDeclared (view value.now) declared)
        (λ fault. IsInDeclared (view value.now) fault) }
{
    let (name, kind, condition) = match subject_of(value) {
        Ok(subject) => subject,
        Err(wrong) => return Err(DependencyError::Field(wrong)),
    };
    let (is_optional, uses_default) = match flags_of(value) {
        Ok(flags) => flags,
        Err(wrong) => return Err(DependencyError::Field(wrong)),
    };
    let features = requested_of(alloc, value)?;
    let rename = text_at(value, "rename");
    Ok(DeclaredDependency {
        name,
        rename,
        kind,
        is_optional,
        uses_default,
        features,
        condition,
    })
}

/// Returns whether a target's kind is that of a library that other packages can use.
fn is_library_kind(kind: &Value) -> bool
    ensures { result ≡ is_library_kind (view kind.now) }
{
    match kind.as_str() {
        Some(kind) => matches!(
            kind,
            "lib" | "rlib" | "dylib" | "cdylib" | "staticlib" | "proc-macro"
        ),
        None => false,
    }
}

/// Returns whether one of a target's kinds is that of a library that other packages can use.
fn is_library(target: &Value) -> bool
    ensures { result ≡ is_library (view target.now) }
{
    let kinds = match list_at(target, "kind") {
        None => return false,
        Some(kinds) => kinds,
    };
    for kind in kinds {
        if is_library_kind(kind) {
            return true;
        }
    }
    false
}

/// Returns the name of a package's library: that of its first target that is one.
fn library_of<'a>(value: &'a Value) -> Option<&'a str>
    ensures { option_map (λ s. s.now) result ≡ library_of (view value.now) }
{
    let targets = match list_at(value, "targets") {
        None => return None,
        Some(targets) => targets,
    };
    for target in targets {
        if is_library(target) {
            return text_at(target, "name");
        }
    }
    None
}

/// Returns the entries that the texts of a list spell, or `None` if the value is not a list of texts.
fn entries_of<'a>(
    alloc: Global,
    value: &'a Value,
) -> Result<Option<Vec<FeatureEntry<'a>>>, AllocError>
    ensures entries { IfOk result (λ found. IfSome found (λ entries. AreEntriesOf (view value.now) entries.items)) }
    ensures texts { IfOk result (λ found. is_some found ≡ is_texts (as_array (view value.now))) }
{
    let Some(items) = value.as_array() else {
        return Ok(None);
    };
    let mut entries = Vec::new(alloc);
    'items: for i in 0..items.len() {
        match items[i].as_str() {
            Some(text) => entries.push(entry_of(text))?,
            None => return Ok(None),
        }
    }
    Ok(Some(entries))
}

/// Returns the features of a package, or `None` if they are not an object of lists of texts.
fn features_of<'a>(alloc: Global, value: &'a Value) -> Result<Option<Vec<Feature<'a>>>, AllocError>
    ensures features { IfOk result (λ found. IfSome found (λ features. AreFeaturesOf (view value.now) features.items)) }
    ensures fits { IfOk result
        (λ found. is_some found ≡ fits ExpectedValue.Features (get (codes "features") (view value.now))) }
{
    let Some(found) = field_at(value, "features") else {
        return Ok(None);
    };
    let Some(members) = found.as_object() else {
        return Ok(None);
    };
    let mut features = Vec::new(alloc);
    'members: for (name, listed) in members.iter() {
        let Some(lists) = entries_of(alloc, listed)? else {
            return Ok(None);
        };
        features.push(Feature {
            name: name.as_str(),
            lists,
        })?;
    }
    Ok(Some(features))
}

/// Returns the dependencies that a package declares.
fn dependencies_of<'a>(
    alloc: Global,
    value: &'a Value,
) -> Result<Vec<DeclaredDependency<'a>>, ManifestError>
    ensures { MatchResult result
        (λ dependencies. AreRowsAt IsDeclared (codes "dependencies") (view value.now) dependencies.items)
        (λ fault. IsInManifest (view value.now) fault) }
{
    let items = match require_list(value, "dependencies") {
        Ok(items) => items,
        Err(wrong) => return Err(ManifestError::Field(wrong)),
    };
    let mut dependencies = Vec::new(alloc);
    'dependencies: for i in 0..items.len() {
        match declared_of(alloc, &items[i]) {
            Ok(declared) => {
                if let Err(error) = dependencies.push(declared) {
                    return Err(ManifestError::Memory(AllocError::from(error)));
                }
            }
            Err(wrong) => return Err(ManifestError::Dependency(i, wrong)),
        }
    }
    Ok(dependencies)
}

/// Reads the declarations of a package from an object.
fn manifest_of<'a>(alloc: Global, value: &'a Value) -> Result<PackageDeclaration<'a>, ManifestError>
    ensures { MatchResult result (λ manifest. IsManifest (view value.now) manifest)
        (λ fault. IsInManifest (view value.now) fault) }
{
    let dependencies = dependencies_of(alloc, value)?;
    let features = match features_of(alloc, value) {
        Ok(Some(features)) => features,
        Ok(None) => {
            return Err(ManifestError::Field(FieldError {
                field: "features",
                expected: ExpectedValue::Features,
            }));
        }
        Err(error) => return Err(ManifestError::Memory(error)),
    };
    Ok(PackageDeclaration {
        library: library_of(value),
        dependencies,
        features,
    })
}

/// Reads the declarations of each package of a document, the output of `cargo metadata`, in the order of the packages.
///
/// # Errors
///
/// Fails for the first field that lacks a value of the expected type, and if memory is refused.
pub fn read_manifests<'a>(
    alloc: Global,
    document: &'a Value,
) -> Result<Vec<PackageDeclaration<'a>>, DeclarationsError>
    ensures { MatchResult result
        (λ manifests. AreRowsAt IsManifest (codes "packages") (view document.now) manifests.items)
        (λ refusal. IsRefused (view document.now) refusal) }
{
    let items = match require_list(document, "packages") {
        Ok(items) => items,
        Err(wrong) => return Err(DeclarationsError::Field(wrong)),
    };
    let mut manifests = Vec::new(alloc);
    'packages: for i in 0..items.len() {
        match manifest_of(alloc, &items[i]) {
            Ok(manifest) => {
                if let Err(error) = manifests.push(manifest) {
                    return Err(DeclarationsError::Memory(AllocError::from(error)));
                }
            }
            Err(wrong) => return Err(DeclarationsError::Package(i, wrong)),
        }
    }
    Ok(manifests)
}

impl Display for DependencyError {
    fn fmt<W: Write>(&self, f: &mut Formatter<W>) -> fmt::Result {
        match self {
            DependencyError::Field(wrong) => write!(f, ".{wrong}"),
            DependencyError::Feature(i) => write!(f, ".features[{i}]: {}", ExpectedValue::Text),
            DependencyError::Memory(error) => write!(f, ": {error}"),
        }
    }
}

impl Display for ManifestError {
    fn fmt<W: Write>(&self, f: &mut Formatter<W>) -> fmt::Result {
        match self {
            ManifestError::Field(wrong) => write!(f, ".{wrong}"),
            ManifestError::Dependency(i, wrong) => write!(f, ".dependencies[{i}]{wrong}"),
            ManifestError::Memory(error) => write!(f, ": {error}"),
        }
    }
}

impl Display for DeclarationsError {
    fn fmt<W: Write>(&self, f: &mut Formatter<W>) -> fmt::Result {
        match self {
            DeclarationsError::Field(wrong) => write!(f, "{wrong}"),
            DeclarationsError::Package(i, wrong) => write!(f, "packages[{i}]{wrong}"),
            DeclarationsError::Memory(error) => write!(f, "{error}"),
        }
    }
}
