//! Which features are requested of which packages.

ghost use Rattle.std.specs.Prelude.{◌≡◌, ◌-◌, ◌∷◌, [], IfOk, IfSome, IfNone, OnOk, true, All, filter, length, map};
ghost use Rattle.package_graphs.specs.declared.packages.Kind.TheVariants.{Normal};
ghost use Rattle.declared_features.specs.Activation.{is_dev, request_of, IsUnused, IsActivationRoot, IsActive};
ghost use Rattle.declared_features.specs.Entries.{IsEntry};
ghost use Rattle.declared_features.specs.Lists.{HasJust, Adds, MatchesJust};
ghost use Rattle.declared_features.specs.Requested.{without_root, is_concerned, has_default, IsOneOf, IsOfRoot};
ghost use Rattle.declared_features.specs.Requested.{IsOfOther, IsByName, IsRequestedText};
ghost use Rattle.declared_features.specs.Inside.Names.{texts_in};

use crate::entries::{FeatureEntry, entry_of};
use crate::linking::RequestedFeatures;
use cargo_features::{Dependency, Package};
use known_targets::TargetSet;
use package_graphs::{Kind, Package as Unit};
use std::alloc::{AllocError, Global};

/// Returns the text of a feature that is requested of a root, without the root's own name before it.
fn text_requested<'a>(root: &str, text: &'a str) -> &'a str
    ensures { result.now ≡ without_root root.now text.now }
{
    match text.split_once('/') {
        Some((first, feature)) if first == root => feature,
        _ => text,
    }
}

/// Appends a text, if it is requested.
fn push_if<'a>(
    is_requested: bool,
    text: &'a str,
    texts: &mut Vec<&'a str>,
) -> Result<(), AllocError>
    ensures { OnOk result (Adds (texts_in texts.old.items) (texts_in texts.new.items)
        (λ t. (is_requested ≡ true) × (text.now ≡ t))) }
{
    if is_requested {
        texts.push(text)?;
    }
    Ok(())
}

/// Appends names.
fn push_names<'a>(names: &[&'a str], texts: &mut Vec<&'a str>) -> Result<(), AllocError>
    ensures { OnOk result (Adds (texts_in texts.old.items) (texts_in texts.new.items) (IsOneOf names.now)) }
{
    'names: for i in 0..names.len() {
        texts.push(names[i])?;
    }
    Ok(())
}

/// Appends names without the name of a root before them.
fn push_names_of_root<'a>(
    names: &[&'a str],
    called: &str,
    texts: &mut Vec<&'a str>,
) -> Result<(), AllocError>
    ensures { OnOk result
        (Adds (texts_in texts.old.items) (texts_in texts.new.items) (IsOfRoot names.now called.now)) }
{
    'names: for i in 0..names.len() {
        texts.push(text_requested(called, names[i]))?;
    }
    Ok(())
}

/// Appends the names of features that are requested of a package, each of which is behind the name of its package.
fn push_names_of_other<'a>(
    others: &[(&'a str, &'a str)],
    called: &str,
    texts: &mut Vec<&'a str>,
) -> Result<(), AllocError>
    ensures { OnOk result
        (Adds (texts_in texts.old.items) (texts_in texts.new.items) (IsOfOther others.now called.now)) }
{
    'others: for i in 0..others.len() {
        let (name, feature) = others[i];
        push_if(name == called, feature, texts)?;
    }
    Ok(())
}

impl<'a> RequestedFeatures<'a> {
    /// Returns whether features are requested of the package of a node.
    pub fn concerns(&self, node: usize, unit: &Unit) -> bool
        ensures { result ≡ is_concerned self.now node unit.now }
    {
        match self.current {
            Some(current) => unit.is_root || current == node,
            None => unit.is_root,
        }
    }

    /// Returns whether `default` is requested of the package of a node.
    fn has_default(&self, node: usize) -> bool
        ensures { result ≡ has_default self.now node }
    {
        match self.current {
            Some(current) => self.default || current != node,
            None => self.default,
        }
    }

    /// Appends the features that are requested of the package of a node by their names.
    fn push_named(
        &self,
        called: &str,
        node: usize,
        texts: &mut Vec<&'a str>,
    ) -> Result<(), AllocError>
        ensures { OnOk result (Adds (texts_in texts.old.items) (texts_in texts.new.items)
            (IsByName self.now.current self.now called.now node)) }
    {
        let Some(current) = self.current else {
            return push_names_of_root(self.names, called, texts);
        };
        if current == node {
            push_names(self.names, texts)
        } else {
            push_names_of_other(self.of_others, called, texts)
        }
    }

    /// Returns the features that are requested of the package of a node by their names, and `default` if that is
    /// requested.
    fn texts(&self, alloc: Global, called: &str, node: usize) -> Result<Vec<&'a str>, AllocError>
        ensures { IfOk result
            (λ texts. HasJust (texts_in texts.items) (IsRequestedText self.now called.now node)) }
    {
        let mut texts = Vec::new(alloc);
        push_if(self.has_default(node), "default", &mut texts)?;
        self.push_named(called, node, &mut texts)?;
        Ok(texts)
    }

    /// Returns the features that are requested of the package of a node by their names, as entries, and `default` if
    /// that is requested.
    pub fn entries(
        &self,
        alloc: Global,
        called: &str,
        node: usize,
    ) -> Result<Vec<FeatureEntry<'a>>, AllocError>
        ensures { IfOk result
            (λ entries. MatchesJust (IsRequestedText self.now called.now node) IsEntry entries.items) }
    {
        let texts = self.texts(alloc, called, node)?;
        let mut entries = Vec::new(alloc);
        'each: for i in 0..texts.len() {
            let text = texts[i];
            entries.push(entry_of(text))?;
        }
        Ok(entries)
    }
}

/// Returns a dependency that requests these features and that no build uses.
fn unused(
    alloc: Global,
    to: usize,
    kind: Kind,
    features: &[usize],
) -> Result<Dependency, AllocError>
    ensures unused { IfOk result IsUnused }
    ensures request { IfOk result (λ d. request_of d ≡ (to, kind, features.now)) }
{
    let mut requested = Vec::new(alloc);
    'features: for feature in features {
        requested.push(*feature)?;
    }
    Ok(Dependency {
        to,
        kind,
        is_optional: false,
        holds: TargetSet::none(),
        features: requested,
        named: None,
    })
}

/// Returns the dependencies of an activation root: on the package at the index, with its last feature, and a copy of
/// each of its dev-dependencies that no build uses.
fn activating(alloc: Global, index: usize, unit: &Package) -> Result<Vec<Dependency>, AllocError>
    ensures requests { IfOk result (λ ds. map request_of ds.items
        ≡ (index, Normal, (length unit.now.features.items - 1) ∷ [])
        ∷ map request_of (filter (λ d. is_dev d.kind) unit.now.dependencies.items)) }
    ensures unused { IfOk result (λ ds. All IsUnused ds.items) }
{
    let mut dependencies = Vec::new(alloc);
    let last = [unit.features.len().saturating_sub(1)];
    dependencies.push(unused(alloc, index, Kind::Normal, &last)?)?;
    'dependencies: for it in &unit.dependencies {
        if matches!(it.kind, Kind::Dev) {
            dependencies.push(unused(alloc, it.to, it.kind, &it.features)?)?;
        }
    }
    Ok(dependencies)
}

/// Returns a root that makes the package at an index active, with what is requested of it and with its
/// dev-dependencies, if that package is no root. Resolver 1 does so wherever a dependency is true, and a build uses
/// neither.
pub fn activation_root(
    alloc: Global,
    packages: &[Package],
    index: usize,
) -> Result<Option<Package>, AllocError>
    // The root requests the last feature of the package, and what its dev-dependencies request.
    ensures root { IfOk result (λ found. IfSome found (IsActivationRoot packages.now index)) }
    // Without a root, the package is a root itself, or the index is past the end.
    ensures none { IfOk result (λ found. IfNone found (IsActive packages.now index)) }
{
    let Some(unit) = packages.get(index) else {
        return Ok(None);
    };
    if unit.is_root {
        return Ok(None);
    }
    Ok(Some(Package {
        is_root: true,
        is_macro: false,
        dependencies: activating(alloc, index, unit)?,
        features: Vec::new(alloc),
        requested: Vec::new(alloc),
    }))
}
