//! The features that are requested, and the packages that have them. With resolver 1, Cargo gives them to the package
//! of the current directory alone.

use crate::lines::{format_package, format_text};
use crate::reading::Rejected;
use declared_features::{DeclaredGraph, PackageDeclaration, RequestedFeatures};
use key_answers::printing::format_name;
use std::alloc::{AllocError, Global};

/// Splits the requested features at commas and spaces.
pub fn split_features<'a>(alloc: Global, features: &[&'a str]) -> Result<Vec<&'a str>, AllocError> {
    let mut names = Vec::new(alloc);
    for words in features {
        for name in words.split([',', ' ']) {
            if !name.is_empty() {
                names.push(name)?;
            }
        }
    }
    Ok(names)
}

/// Why the package of the current directory is not known.
const NO_CURRENT: &str =
    "resolver 1 gives the features to the package of the current directory, and `resolve.root` names none";

/// Returns the node of the package of the current directory.
pub fn current_node(alloc: Global, graph: &DeclaredGraph<'_, '_>) -> Result<usize, Rejected> {
    if let Some(resolve) = graph.document.get("resolve") {
        if let Some(id) = cargo_metadata::fields::text_at(resolve, "root") {
            for i in 0..graph.metadata.nodes.len() {
                if graph.metadata.nodes[i].id == id {
                    return Ok(i);
                }
            }
        }
    }
    Err(Rejected::Document(String::from_str(alloc, NO_CURRENT)?))
}

/// Returns the root and its feature that a text `root/feature` names, of a root that is not the current package.
fn of_other<'a>(
    graph: &DeclaredGraph<'_, '_>,
    current: usize,
    text: &'a str,
) -> Option<(&'a str, &'a str)> {
    let (first, feature) = text.split_once('/')?;
    let name = first.strip_suffix("?").unwrap_or(first);
    for i in 0..graph.linked.packages.len() {
        if i != current && graph.linked.packages[i].is_root && graph.name(i) == name {
            return Some((name, feature));
        }
    }
    None
}

/// Returns the names of the current package's features, and the features of other roots, each after the name of its
/// root. Without a current package, the names are returned as they are.
pub fn split_by_root<'a>(
    alloc: Global,
    names: Vec<&'a str>,
    current: Option<usize>,
    graph: &DeclaredGraph<'_, '_>,
) -> Result<(Vec<&'a str>, Vec<(&'a str, &'a str)>), AllocError> {
    let mut of_others = Vec::new(alloc);
    let Some(node) = current else {
        return Ok((names, of_others));
    };
    let mut own = Vec::new(alloc);
    for text in &names {
        match of_other(graph, node, text) {
            Some(feature) => of_others.push(feature)?,
            None => own.push(*text)?,
        }
    }
    Ok((own, of_others))
}

/// Returns whether a package has a feature of this name: one of its own, with or without `PACKAGE/` before it, or one
/// with the name of a dependency before it.
fn has_feature(package: Option<&str>, manifest: &PackageDeclaration<'_>, name: &str) -> bool {
    let own = match name.split_once('/') {
        Some((first, feature)) if package == Some(first) => feature,
        Some((first, _)) => {
            let first = first.strip_suffix("?").unwrap_or(first);
            for declared in &manifest.dependencies {
                if declared.rename.unwrap_or(declared.name) == first {
                    return true;
                }
            }
            return false;
        }
        None => name,
    };
    for feature in &manifest.features {
        if feature.name == own {
            return true;
        }
    }
    false
}

/// Returns whether the package of a node has a feature of this name.
fn has(graph: &DeclaredGraph<'_, '_>, node: usize, package: Option<&str>, feature: &str) -> bool {
    match graph.declared.package_of(node) {
        Some(manifest) => has_feature(package, manifest, feature),
        None => false,
    }
}

/// Returns whether some root has a feature.
fn some_root_has(graph: &DeclaredGraph<'_, '_>, feature: &str) -> bool {
    for node in 0..graph.linked.packages.len() {
        if graph.linked.packages[node].is_root
            && has(graph, node, Some(graph.name(node)), feature)
        {
            return true;
        }
    }
    false
}

/// Returns whether a package of this name has a feature.
fn named_has(graph: &DeclaredGraph<'_, '_>, name: &str, feature: &str) -> bool {
    for node in 0..graph.linked.packages.len() {
        if graph.name(node) == name && has(graph, node, None, feature) {
            return true;
        }
    }
    false
}

/// Formats the package of the current directory for text output.
fn format_current(
    alloc: Global,
    graph: &DeclaredGraph<'_, '_>,
    node: usize,
) -> Result<String, AllocError> {
    let Some(described) = graph.linked.described.get(node) else {
        return Ok(String::new(alloc));
    };
    let package = format_package(alloc, described)?;
    format!(in alloc;
        "{package}, the package of the current directory, to which resolver 1 gives the features,"
    )
}

/// Returns the reason why a feature is rejected that its package does not have.
fn no_feature(alloc: Global, package: &str, feature: &str) -> Result<String, AllocError> {
    let feature = format_text(alloc, feature)?;
    format!(in alloc; "{package} has no feature {feature}")
}

/// Returns why a feature is rejected that is requested of the current package or, without one, of the roots, if it does
/// not exist.
fn unknown_reason(
    alloc: Global,
    graph: &DeclaredGraph<'_, '_>,
    current: Option<usize>,
    feature: &str,
) -> Result<Option<String>, AllocError> {
    match current {
        Some(node) if !has(graph, node, None, feature) => {
            let package = format_current(alloc, graph, node)?;
            Ok(Some(no_feature(alloc, package.as_str(), feature)?))
        }
        None if !some_root_has(graph, feature) => {
            let feature = format_name(alloc, feature)?;
            Ok(Some(format!(in alloc; "no root has the feature {feature}")?))
        }
        _ => Ok(None),
    }
}

/// Rejects a requested feature that does not exist.
pub fn reject_unknown(
    alloc: Global,
    graph: &DeclaredGraph<'_, '_>,
    features: &RequestedFeatures<'_>,
) -> Result<(), Rejected> {
    for (root, feature) in features.of_others {
        if !named_has(graph, root, feature) {
            let root = format_text(alloc, root)?;
            return Err(Rejected::Document(no_feature(alloc, root.as_str(), feature)?));
        }
    }
    for name in features.names {
        if let Some(reason) = unknown_reason(alloc, graph, features.current, name)? {
            return Err(Rejected::Document(reason));
        }
    }
    Ok(())
}
