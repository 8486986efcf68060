//! The components of a bill of materials: packages with their package URLs, licences and pages.

use crate::graph::Graph;
use crate::identifiers::are_listed;
use cargo_metadata::Package as Described;
use cargo_metadata::fields::{list_at, text_at};
use cyclonedx::{
    Component, ExternalReference, Hash, LicenceChoice, LicenceName, LockFile, LockedPackage,
    NamedLicence, Property, Source, SpdxExpression, package_url,
};
use serde_json::Value;
use spdx_expressions::{LicenceExpression, ReadError};
use std::alloc::{AllocError, Global};
use std::collections::BTreeMap;

/// A package of a graph, as a bill of materials describes it.
#[derive(Drop)]
pub struct ListedPackage<'a> {
    /// The index of the package in the graph.
    pub index: usize,
    pub described: Described<'a>,
    /// The object of the package in the document, if it is found.
    object: Option<&'a Value>,
    pub purl: String,
    /// The checksum in the lock file, if there is one that has it.
    checksum: Option<String>,
    /// True if the package is a root with a binary.
    is_application: bool,
}

impl<'a> ListedPackage<'a> {
    /// Returns the registry or repository of the package, or `None` if it comes from a folder.
    pub fn source(&self) -> Option<&'a str> {
        text_at(self.object?, "source")
    }

    /// Returns whether the package comes from a registry, and a lock file lacks it.
    pub fn is_lacking_in(&self, lock: &LockFile) -> bool {
        match self.source() {
            Some(source) => Source::of(source).is_registry() && self.locked_in(lock).is_none(),
            None => false,
        }
    }

    /// Returns what a lock file has of the package.
    fn locked_in<'l>(&self, lock: &'l LockFile) -> Option<&'l LockedPackage> {
        lock.find(self.described.name, self.described.version, self.source()?)
    }

    /// Sets the checksum to that of a lock file.
    fn add_checksum(&mut self, lock: &LockFile) -> Result<(), AllocError> {
        if let Some(locked) = self.locked_in(lock) {
            if let Some(checksum) = &locked.checksum {
                self.checksum = Some(checksum.clone()?);
            }
        }
        Ok(())
    }

    /// Returns the checksum as a list.
    fn hashes(&self, alloc: Global) -> Result<Vec<Hash>, AllocError> {
        let mut hashes = Vec::new(alloc);
        if let Some(checksum) = &self.checksum {
            let content = checksum.clone()?;
            hashes.push(Hash {
                alg: "SHA-256",
                content,
            })?;
        }
        Ok(hashes)
    }

    /// Returns the component. `reference` is its name in the document.
    pub fn component(
        &self,
        alloc: Global,
        reference: &str,
        properties: Vec<Property>,
    ) -> Result<Component<'a>, AllocError> {
        let kind = if self.is_application {
            "application"
        } else {
            "library"
        };
        Ok(Component {
            kind,
            reference: String::from_str(alloc, reference)?,
            name: self.described.name,
            version: Some(self.described.version),
            hashes: self.hashes(alloc)?,
            licenses: licences_of(alloc, self.described.license)?,
            purl: Some(self.purl.clone()?),
            references: pages_of(alloc, self.object)?,
            properties,
        })
    }
}

/// Returns the folders of a path.
fn folders_of<'a>(alloc: Global, path: &'a str) -> Result<Vec<&'a str>, AllocError> {
    let separator = if path.contains('/') { '/' } else { '\\' };
    let mut folders = Vec::new(alloc);
    for folder in path.split(separator) {
        folders.push(folder)?;
    }
    Ok(folders)
}

/// Returns how many folders two paths begin with alike.
fn count_shared(first: &[&str], second: &[&str]) -> usize {
    let mut count: usize = 0;
    for (one, other) in first.iter().zip(second.iter()) {
        if *one != *other {
            break;
        }
        count = count.saturating_add(1);
    }
    count
}

/// Returns the path of a package's folder from that of the workspace, with `/` between folders. It is `.` if both are
/// the same.
fn path_from(alloc: Global, workspace: &str, manifest: &str) -> Result<String, AllocError> {
    let from = folders_of(alloc, workspace)?;
    let mut to = folders_of(alloc, manifest)?;
    let _file = to.pop();
    let shared = count_shared(&from, &to);
    let mut path = String::new(alloc);
    for _ in shared..from.len() {
        path.push_str(if path.is_empty() { ".." } else { "/.." })?;
    }
    for i in shared..to.len() {
        if !path.is_empty() {
            path.push_str("/")?;
        }
        path.push_str(to[i])?;
    }
    if path.is_empty() {
        path.push_str(".")?;
    }
    Ok(path)
}

/// Returns the package URL of a package.
fn purl_of(
    alloc: Global,
    graph: &Graph<'_>,
    described: &Described<'_>,
    object: Option<&Value>,
) -> Result<String, AllocError> {
    let (name, version) = (described.name, described.version);
    let Some(object) = object else {
        return package_url(alloc, name, version, &Source::Other);
    };
    if let Some(source) = text_at(object, "source") {
        return package_url(alloc, name, version, &Source::of(source));
    }
    match (graph.workspace, text_at(object, "manifest_path")) {
        (Some(workspace), Some(manifest)) => {
            let path = path_from(alloc, workspace, manifest)?;
            package_url(alloc, name, version, &Source::Folder(path.as_str()))
        }
        _ => package_url(alloc, name, version, &Source::Other),
    }
}

/// Returns whether one of a package's targets is a binary.
fn has_binary(object: &Value) -> bool {
    for target in list_at(object, "targets").unwrap_or(&[]) {
        for kind in list_at(target, "kind").unwrap_or(&[]) {
            if kind.as_str() == Some("bin") {
                return true;
            }
        }
    }
    false
}

/// Returns whether the package at an index is a root.
pub fn is_root(graph: &Graph<'_>, index: usize) -> bool {
    match graph.linked.packages.get(index) {
        Some(unit) => unit.is_root,
        None => false,
    }
}

/// Returns whether a package is a root with a binary.
fn is_application(graph: &Graph<'_>, index: usize, object: Option<&Value>) -> bool {
    match object {
        Some(object) => is_root(graph, index) && has_binary(object),
        None => false,
    }
}

/// Returns the packages of a graph in its order, with their objects in the document and their checksums in the lock
/// file.
pub fn listed_packages<'a>(
    alloc: Global,
    graph: &Graph<'a>,
    document: &'a Value,
    lock: Option<&LockFile>,
) -> Result<Vec<ListedPackage<'a>>, AllocError> {
    let packages = list_at(document, "packages").unwrap_or(&[]);
    let objects = objects_by_id(alloc, packages)?;
    let mut found = Vec::new(alloc);
    for index in &graph.order {
        let Some(described) = graph.described(*index).copied() else {
            continue;
        };
        let object = match objects.get(&described.id) {
            Some(place) => packages.get(*place),
            None => None,
        };
        let mut listed = ListedPackage {
            index: *index,
            described,
            object,
            purl: purl_of(alloc, graph, &described, object)?,
            checksum: None,
            is_application: is_application(graph, *index, object),
        };
        if let Some(lock) = lock {
            listed.add_checksum(lock)?;
        }
        found.push(listed)?;
    }
    Ok(found)
}

/// Returns the indexes of the objects of packages, by their ids.
fn objects_by_id<'a>(
    alloc: Global,
    objects: &'a [Value],
) -> Result<BTreeMap<&'a str, usize>, AllocError> {
    let mut places = BTreeMap::new(alloc);
    for place in 0..objects.len() {
        if let Some(id) = text_at(&objects[place], "id") {
            let _earlier = places.insert(id, place)?;
        }
    }
    Ok(places)
}

/// Returns an SPDX expression in canonical form, if the text is one and SPDX's licence list has all its identifiers.
fn expression_of(alloc: Global, text: &str) -> Result<Option<String>, AllocError> {
    match LicenceExpression::from_str(alloc, text) {
        Ok(expression) => {
            if !are_listed(expression.parts()) {
                return Ok(None);
            }
            Ok(Some(format!(in alloc; "{expression}")?))
        }
        Err(ReadError::Parse(_)) => Ok(None),
        Err(ReadError::Memory(refused)) => Err(refused),
    }
}

/// Returns the licence of a package, if it has one: an expression, or else the text as a name.
fn licences_of<'a>(
    alloc: Global,
    license: Option<&'a str>,
) -> Result<Vec<LicenceChoice<'a>>, AllocError> {
    let mut licences = Vec::new(alloc);
    if let Some(name) = license {
        licences.push(match expression_of(alloc, name)? {
            Some(expression) => LicenceChoice::Expression(SpdxExpression { expression }),
            None => LicenceChoice::Named(NamedLicence {
                license: LicenceName { name },
            }),
        })?;
    }
    Ok(licences)
}

/// Returns whether a text is an address of the web, without characters that an address cannot have.
fn is_address(text: &str) -> bool {
    let is_web = text.starts_with("https://") || text.starts_with("http://");
    is_web && text.bytes().all(|byte| byte.is_ascii_graphic() && !b"\"<>\\^`{|}".contains(&byte))
}

/// Returns the pages of a package: its repository, its home page and its documentation.
fn pages_of<'a>(
    alloc: Global,
    object: Option<&'a Value>,
) -> Result<Vec<ExternalReference<'a>>, AllocError> {
    let mut pages = Vec::new(alloc);
    let Some(object) = object else {
        return Ok(pages);
    };
    let fields = [
        ("vcs", "repository"),
        ("website", "homepage"),
        ("documentation", "documentation"),
    ];
    for (kind, field) in fields {
        if let Some(url) = text_at(object, field) {
            if is_address(url) {
                pages.push(ExternalReference { kind, url })?;
            }
        }
    }
    Ok(pages)
}
