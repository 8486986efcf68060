//! A graph of packages with what each of them declares, and the edges of declared dependencies.

ghost use Rattle.std.specs.Prelude.{◌≡◌, ◌==◌, ◌↔◌, ◌++◌, ℕ, cond, codes, length, map, IsTrue, IfOk, IfErr, OnOk, List};
ghost use Rattle.std.specs.Prelude.{None, is_some, option_map, slice_get};
ghost use Rattle.std.specs.Option.{option_copied};
ghost use Rattle.serde_json.specs.View.{view};
ghost use Rattle.cargo_metadata.specs.Indexes.{index_at};
ghost use Rattle.cargo_metadata.specs.Rows.{AreRowsAt};
ghost use Rattle.declared_features.specs.Documents.{IsManifest};
ghost use Rattle.declared_features.specs.Refusals.{IsRefused};
ghost use Rattle.declared_features.specs.Manifests.{index_of_id, package_index, manifest_at, IsWithoutLibrary};
ghost use Rattle.declared_features.specs.NameSets.{HasJustNames};
ghost use Rattle.declared_features.specs.Rows.{EdgeKind, kinds_by, kinds_at, links_at, AreRowsOf};
ghost use Rattle.declared_features.specs.Edges.{AreSame, IsLike, IsOf, name_at, code_name};

use crate::manifests::{DeclarationsError, DeclaredDependency, PackageDeclaration, read_manifests};
use crate::name_sets::add_name;
use cargo_metadata::graphs::Linked;
use cargo_metadata::{Dependency as Edge, Indexes, KindRow, Metadata, Package};
use package_graphs::Dependency as LinkedEdge;
use serde_json::Value;
use std::alloc::{AllocError, Global};
use std::collections::BTreeSet;

/// The declarations of the packages of a document.
#[derive(Drop)]
pub struct Declarations<'a> {
    /// In the order of the document's packages.
    manifests: Vec<PackageDeclaration<'a>>,
    /// For each node, the index of its package among those of the document.
    package_indexes: Vec<usize>,
}

/// Returns the indexes of the packages by id.
fn indexes_of_ids<'a>(alloc: Global, packages: &[Package<'a>]) -> Result<Indexes<'a>, AllocError>
    ensures { IfOk result (λ ids. (q : List ℕ) → index_at ids q ≡ index_of_id packages.now q) }
{
    let mut ids = Indexes::new(alloc);
    'packages: for i in 0..packages.len() {
        ids.add(packages[i].id, i)?;
    }
    Ok(ids)
}

/// Returns for each node the index of its package, or that after the last one if there is none.
fn package_indexes<'a>(alloc: Global, metadata: &Metadata<'a>) -> Result<Vec<usize>, AllocError>
    ensures { IfOk result (λ indexes. indexes.items
        ≡ map (package_index metadata.now.packages.items) metadata.now.nodes.items) }
{
    let count = metadata.packages.len();
    let ids = indexes_of_ids(alloc, &metadata.packages)?;
    let mut indexes = Vec::new(alloc);
    'nodes: for i in 0..metadata.nodes.len() {
        indexes.push(ids.find(metadata.nodes[i].id).unwrap_or(count))?;
    }
    Ok(indexes)
}

/// Returns the name of the package at an index, if it has no library.
fn name_without_library<'a>(
    metadata: &Metadata<'a>,
    manifest: &PackageDeclaration<'a>,
    index: usize,
) -> Option<&'a str>
    ensures { option_copied result ≡ cond (is_some manifest.now.library) None
        (option_map (λ p. p.name.now) (slice_get metadata.now.packages.items index)) }
{
    if manifest.library.is_some() {
        return None;
    }
    Some(metadata.packages.get(index)?.name)
}

/// Returns the names of the packages without a library.
fn without_library<'a>(
    alloc: Global,
    metadata: &Metadata<'a>,
    manifests: &[PackageDeclaration<'a>],
) -> Result<BTreeSet<&'a str>, AllocError>
    ensures { IfOk result (λ names. HasJustNames names (IsWithoutLibrary metadata.now.packages.items manifests.now)) }
{
    let mut names = BTreeSet::new(alloc);
    'manifests: for i in 0..manifests.len() {
        add_name(name_without_library(metadata, &manifests[i], i), &mut names)?;
    }
    Ok(names)
}

impl<'a> Declarations<'a> {
    /// Reads what the packages of a document declare. `metadata` was read from the same document.
    ///
    /// # Errors
    ///
    /// Fails for the first field that lacks a value of the expected type, and if memory is refused.
    pub fn of(
        alloc: Global,
        document: &'a Value,
        metadata: &Metadata<'a>,
    ) -> Result<Declarations<'a>, DeclarationsError>
        // Each package of the document has a manifest: the dependencies, the features and the library that its object
        // declares.
        ensures manifests { IfOk result
            (λ it. AreRowsAt IsManifest (codes "packages") (view document.now) it.manifests.items) }
        // The manifest of a node is that of the first package with its id.
        ensures packages { IfOk result (λ it. it.package_indexes.items
            ≡ map (package_index metadata.now.packages.items) metadata.now.nodes.items) }
        // Unless memory is refused, an error is the first one of the document. The packages are read in order, and of
        // each first the dependencies in order, and then the features.
        ensures refused { IfErr result (λ refusal. IsRefused (view document.now) refusal) }
    {
        let manifests = read_manifests(alloc, document)?;
        match package_indexes(alloc, metadata) {
            Ok(package_indexes) => Ok(Declarations {
                manifests,
                package_indexes,
            }),
            Err(refused) => Err(DeclarationsError::Memory(refused)),
        }
    }

    /// Returns the number of nodes.
    pub fn node_count(&self) -> usize
        ensures { result ≡ length self.now.package_indexes.items }
    {
        self.package_indexes.len()
    }

    /// Returns what the package of a node declares.
    pub fn package_of(&self, node: usize) -> Option<&PackageDeclaration<'a>>
        // The manifest is that of the package of the node.
        ensures { option_copied result ≡ manifest_at self.now node }
    {
        self.manifests.get(*self.package_indexes.get(node)?)
    }

    /// Returns the names of the packages without a library. Cargo gives no edge to a dependency on such a package.
    pub(crate) fn names_without_library(
        &self,
        alloc: Global,
        metadata: &Metadata<'a>,
    ) -> Result<BTreeSet<&'a str>, AllocError>
        ensures { IfOk result
            (λ names. HasJustNames names (IsWithoutLibrary metadata.now.packages.items self.now.manifests.items)) }
    {
        without_library(alloc, metadata, &self.manifests)
    }
}

/// A document of `cargo metadata`, its graph, and what its packages declare.
#[derive(Clone, Copy, Drop)]
pub struct DeclaredGraph<'m, 'a> {
    pub document: &'a Value,
    pub metadata: &'m Metadata<'a>,
    pub linked: &'m Linked<'a>,
    pub declared: &'m Declarations<'a>,
}

/// A dependency of a node, of one of its kinds.
#[derive(Clone, Copy, Drop)]
pub struct DependencyRow<'m, 'a> {
    pub edge: &'m Edge<'a>,
    pub kind: KindRow<'a>,
    pub linked: LinkedEdge,
    /// The index of the dependency among those of the linked package.
    pub index: usize,
}

impl<'m, 'a> DependencyRow<'m, 'a> {
    /// Returns whether the kind and the condition are those of a declared dependency.
    fn is_like(&self, declared: &DeclaredDependency<'a>) -> bool
        ensures { IsTrue result ↔ IsLike self.now declared.now }
    {
        declared.kind == self.kind.kind && declared.condition == self.kind.condition
    }
}

/// Appends a row for each kind of an edge, as far as there are links.
fn push_rows<'m, 'a>(
    edge: &'m Edge<'a>,
    links: &[LinkedEdge],
    rows: &mut Vec<DependencyRow<'m, 'a>>,
) -> Result<(), AllocError>
    ensures { OnOk result ((kinds : List EdgeKind) → AreRowsOf kinds links.now rows.old.items
        → AreRowsOf (kinds ++ kinds_by edge.now) links.now rows.new.items) }
{
    'kinds: for i in 0..edge.kinds.len() {
        let index = rows.len();
        if index >= links.len() {
            return Ok(());
        }
        let kind = edge.kinds[i];
        let linked = links[index];
        rows.push(DependencyRow {
            edge,
            kind,
            linked,
            index,
        })?;
    }
    Ok(())
}

/// Returns the dependencies of a node, in the order of the document.
pub fn dependency_rows<'m, 'a>(
    alloc: Global,
    metadata: &'m Metadata<'a>,
    linked: &Linked<'a>,
    node: usize,
) -> Result<Vec<DependencyRow<'m, 'a>>, AllocError>
    // Each kind of each dependency of the node has a row, in order, with the edge that the graph has for it.
    ensures { IfOk result
        (λ rows. AreRowsOf (kinds_at metadata.now node) (links_at linked.now node) rows.items) }
{
    let mut rows = Vec::new(alloc);
    if node >= metadata.nodes.len() {
        return Ok(rows);
    }
    if node >= linked.packages.len() {
        return Ok(rows);
    }
    let written = &metadata.nodes[node];
    let unit = &linked.packages[node];
    'edges: for i in 0..written.dependencies.len() {
        push_rows(&written.dependencies[i], &unit.dependencies, &mut rows)?;
    }
    Ok(rows)
}

/// Returns a character of a name as it is in code: `_` for `-`.
fn underscored(character: u8) -> u8
    ensures { result ≡ cond (character == 45) 95 character }
{
    if character == b'-' { b'_' } else { character }
}

/// Returns whether two names are equal if `-` and `_` are taken as the same character.
fn are_same(name: &str, other: &str) -> bool
    // The names are the same with each `-` as `_`.
    ensures { IsTrue result ↔ AreSame name.now other.now }
{
    let left = name.as_bytes();
    let right = other.as_bytes();
    if left.len() != right.len() {
        return false;
    }
    'characters: for i in 0..left.len() {
        if underscored(left[i]) != underscored(right[i]) {
            return false;
        }
    }
    true
}

impl<'m, 'a> DeclaredGraph<'m, 'a> {
    /// Returns the name of the package of a node, or the empty text if there is none.
    pub fn name(&self, node: usize) -> &'a str
        // The name is that of the package of the node.
        ensures { result.now ≡ name_at self.now node }
    {
        match self.linked.described.get(node) {
            Some(described) => described.name,
            None => "",
        }
    }

    /// Returns whether a dependency of a node is a declared one: it has its kind and condition, leads to a package with
    /// the declared name, and has the name by which code refers to it. An edge from a package to itself has the
    /// library's name.
    pub fn is_declared_as(
        &self,
        node: usize,
        row: &DependencyRow<'_, 'a>,
        declared: &DeclaredDependency<'a>,
    ) -> bool
        // The result is true exactly if the edge has the kind and the condition of the declared dependency, leads to a
        // package of its name, and has the name that code uses: as the dependency is renamed, or else the library's
        // name, also in a package that depends on itself. `-` counts as `_`. An edge without a name may have any.
        ensures { IsTrue result ↔ IsOf self.now node row.now declared.now }
    {
        let to = row.linked.to;
        if !row.is_like(declared) || self.name(to) != declared.name {
            return false;
        }
        match row.edge.name {
            Some(name) => are_same(name, self.code_name(node, to, declared)),
            None => true,
        }
    }

    /// Returns the name by which the code of a node refers to a declared dependency on another one.
    fn code_name(&self, node: usize, to: usize, declared: &DeclaredDependency<'a>) -> &'a str
        ensures { result.now ≡ code_name self.now node to declared.now }
    {
        if node != to {
            if let Some(rename) = declared.rename {
                return rename;
            }
        }
        match self.declared.package_of(to) {
            Some(manifest) => manifest.library.unwrap_or(self.name(to)),
            None => self.name(to),
        }
    }
}
