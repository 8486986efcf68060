//! The declarations of packages, translated into the input of the feature resolver: names become indexes.

ghost use Rattle.std.specs.Prelude.{◌≡◌, ◌<◌, ◌-◌, ◌↔◌, ◌∷◌, ℕ, List, [], Some, IfOk, OnOk, cond, length, map};
ghost use Rattle.std.specs.Option.{option_copied};
ghost use Rattle.declared_features.specs.Lists.{HasJust, Adds};
ghost use Rattle.declared_features.specs.Manifests.{feature_index, features_in, features_at};
ghost use Rattle.declared_features.specs.Edges.{name_at};
ghost use Rattle.declared_features.specs.Requested.{is_concerned, IsOneOfAll, AreRequested, HasLast};
ghost use Rattle.declared_features.specs.Activation.{AreActivated};
ghost use Rattle.declared_features.specs.Described.{IsDescribed, AreDescribed, KeepsDescribed};
ghost use Rattle.declared_features.specs.Members.{IsOwn, IsOfDependency, StandsFor, SomeStandsFor, HasListsOf};
ghost use Rattle.declared_features.specs.Requests.{toml_name, IsDefault, IsRequested, IsNamedOf, AreDependenciesOf};
ghost use Rattle.cargo_metadata.specs.Indexes.{index_at};
ghost use Rattle.declared_features.specs.Inside.Names.{index_in, AreNamesOf};

use crate::declaring::{Declarations, DeclaredGraph, DependencyRow, dependency_rows};
use crate::entries::FeatureEntry;
use crate::manifests::{DeclaredDependency, PackageDeclaration};
use crate::requested::activation_root;
use cargo_features::{Dependency, FeatureValue, Package};
use cargo_metadata::Indexes;
use package_graphs::Package as Unit;
use std::alloc::{AllocError, Global};

/// The features that are requested of the roots.
#[derive(Clone, Copy, Drop)]
pub struct RequestedFeatures<'a> {
    /// The requested features by name: `f` of each root that has it, `root/f` of one root, or `d/f` of a dependency
    /// `d`.
    pub names: &'a [&'a str],
    /// True if `default` is requested.
    pub default: bool,
    /// True if all features are requested.
    pub all: bool,
    /// The node of the package of the current directory, which Cargo's resolver 1 makes active. It alone has the names
    /// and `default`, and other roots have their default features. Without one, all roots have them.
    pub current: Option<usize>,
    /// The features that are requested of other roots, each after the name of its root.
    pub of_others: &'a [(&'a str, &'a str)],
}

/// A declared dependency that is in the graph, with the name that its package gives it.
#[derive(Drop)]
struct Named<'a> {
    name: &'a str,
    dependency: Dependency,
    /// The index of the dependency among those of the linked package.
    edge: usize,
}

/// The packages of a graph, as input of the feature resolver.
#[derive(Drop)]
pub struct ResolverInput {
    /// The packages. The last feature of each root has no name: it lists what is requested of the root.
    pub packages: Vec<Package>,
    /// For each dependency of each package, the index among those of the linked package.
    pub edges: Vec<Vec<usize>>,
}

/// The features of the packages of a graph, by name.
#[derive(Drop)]
struct Names<'a> {
    /// For each node, the indexes of its features.
    features: Vec<Indexes<'a>>,
}

/// Returns the indexes of the features of a package by name. A package without a manifest has none.
fn feature_indexes<'a>(
    alloc: Global,
    manifest: Option<&PackageDeclaration<'a>>,
) -> Result<Indexes<'a>, AllocError>
    ensures { IfOk result
        (λ indexes. (q : List ℕ) → index_at indexes q ≡ feature_index (features_in (option_copied manifest.entry)) q) }
{
    let mut indexes = Indexes::new(alloc);
    let Some(manifest) = manifest else {
        return Ok(indexes);
    };
    'features: for i in 0..manifest.features.len() {
        indexes.add(manifest.features[i].name, i)?;
    }
    Ok(indexes)
}

impl<'a> Names<'a> {
    /// Returns the features of the packages of a graph by name.
    fn of(alloc: Global, declarations: &Declarations<'a>) -> Result<Names<'a>, AllocError>
        ensures { IfOk result (λ names. AreNamesOf declarations.now names) }
    {
        let mut features = Vec::new(alloc);
        'nodes: for node in 0..declarations.node_count() {
            let indexes = feature_indexes(alloc, declarations.package_of(node))?;
            features.push(indexes)?;
        }
        Ok(Names { features })
    }

    /// Returns the index of a feature of the package of a node.
    fn feature(&self, node: usize, name: &'a str) -> Option<usize>
        ensures { result ≡ index_in self.now node name.now }
    {
        match self.features.get(node) {
            Some(indexes) => indexes.find(name),
            None => None,
        }
    }
}

/// Appends an index, if there is one.
fn push_index(index: Option<usize>, indexes: &mut Vec<usize>) -> Result<(), AllocError>
    ensures { OnOk result (Adds indexes.old.items indexes.new.items (λ x. index ≡ Some x)) }
{
    match index {
        Some(index) => {
            indexes.push(index)?;
            Ok(())
        }
        None => Ok(()),
    }
}

/// Appends a member, if there is one.
fn push_member(
    member: Option<FeatureValue>,
    members: &mut Vec<FeatureValue>,
) -> Result<(), AllocError>
    ensures { OnOk result (Adds members.old.items members.new.items (λ m. member ≡ Some m)) }
{
    match member {
        Some(member) => {
            members.push(member)?;
            Ok(())
        }
        None => Ok(()),
    }
}

/// Returns the index of the feature `default`, if a declared dependency uses that and the package has it.
fn default_requested<'a>(
    names: &Names<'a>,
    to: usize,
    declared: &DeclaredDependency<'a>,
) -> Option<usize>
    ensures { (index : ℕ) → (result ≡ Some index) ↔ IsDefault (index_in names.now) to declared.now index }
{
    if !declared.uses_default {
        return None;
    }
    names.feature(to, "default")
}

/// Returns the indexes of the features that a declared dependency requests, as far as the package has them.
fn features_requested<'a>(
    alloc: Global,
    names: &Names<'a>,
    to: usize,
    declared: &DeclaredDependency<'a>,
) -> Result<Vec<usize>, AllocError>
    ensures { IfOk result (λ features. HasJust features.items (IsRequested (index_in names.now) to declared.now)) }
{
    let mut features = Vec::new(alloc);
    'features: for i in 0..declared.features.len() {
        let feature = declared.features[i];
        push_index(names.feature(to, feature), &mut features)?;
    }
    push_index(default_requested(names, to, declared), &mut features)?;
    Ok(features)
}

/// Returns the name that a package's manifest gives a dependency.
pub fn toml_name<'a>(declared: &DeclaredDependency<'a>) -> &'a str
    ensures { result.now ≡ toml_name declared.now }
{
    declared.rename.unwrap_or(declared.name)
}

/// Returns the dependency for a declared one of a node and its edge in the graph, with its name.
fn named_of<'a>(
    alloc: Global,
    names: &Names<'a>,
    node: usize,
    row: &DependencyRow<'_, 'a>,
    declared: &DeclaredDependency<'a>,
) -> Result<Named<'a>, AllocError>
    ensures { IfOk result (IsNamedOf (index_in names.now) node row.now declared.now) }
{
    let name = toml_name(declared);
    Ok(Named {
        name,
        dependency: Dependency {
            to: row.linked.to,
            kind: row.linked.kind,
            is_optional: declared.is_optional,
            holds: row.linked.holds,
            features: features_requested(alloc, names, row.linked.to, declared)?,
            named: names.feature(node, name),
        },
        edge: row.index,
    })
}

/// Returns the dependencies that the package of a node declares and that are in the graph.
fn dependencies_of<'a>(
    alloc: Global,
    graph: &DeclaredGraph<'_, 'a>,
    names: &Names<'a>,
    node: usize,
) -> Result<Vec<Named<'a>>, AllocError>
    ensures { IfOk result (λ found. AreDependenciesOf graph.now (index_in names.now) node found.items) }
{
    let mut found = Vec::new(alloc);
    let rows = dependency_rows(alloc, graph.metadata, graph.linked, node)?;
    let Some(manifest) = graph.declared.package_of(node) else {
        return Ok(found);
    };
    'rows: for i in 0..rows.len() {
        'declared: for j in 0..manifest.dependencies.len() {
            let row = &rows[i];
            let declared = &manifest.dependencies[j];
            if graph.is_declared_as(node, row, declared) {
                let named = named_of(alloc, names, node, row, declared)?;
                found.push(named)?;
            }
        }
    }
    Ok(found)
}

/// Appends all features of a package with this many features, if they are requested.
fn push_all(
    are_requested: bool,
    count: usize,
    members: &mut Vec<FeatureValue>,
) -> Result<(), AllocError>
    ensures { OnOk result (Adds members.old.items members.new.items (IsOneOfAll are_requested count)) }
{
    if !are_requested {
        return Ok(());
    }
    'features: for i in 0..count {
        members.push(FeatureValue::Feature(i))?;
    }
    Ok(())
}

/// The package of a node: the names of features, and the dependencies that are in the graph.
#[derive(Clone, Copy, Drop)]
struct Lists<'m, 'a> {
    names: &'m Names<'a>,
    found: &'m [Named<'a>],
    node: usize,
}

impl<'a> Named<'a> {
    /// Returns the member that an entry stands for, of this dependency at an index.
    fn member(&self, names: &Names<'a>, entry: FeatureEntry<'a>, i: usize) -> Option<FeatureValue>
        ensures { (m : FeatureValue) → (result ≡ Some m) ↔ IsOfDependency (index_in names.now) entry.entry i self.now
            m }
    {
        match entry {
            FeatureEntry::Feature(_) => None,
            FeatureEntry::Dependency(name) => {
                if self.name != name {
                    return None;
                }
                Some(FeatureValue::Dependency(i))
            }
            FeatureEntry::Strong(name, feature) => {
                if self.name != name {
                    return None;
                }
                match names.feature(self.dependency.to, feature) {
                    Some(index) => Some(FeatureValue::Strong(i, index)),
                    None => Some(FeatureValue::Dependency(i)),
                }
            }
            FeatureEntry::Weak(name, feature) => {
                if self.name != name {
                    return None;
                }
                match names.feature(self.dependency.to, feature) {
                    Some(index) => Some(FeatureValue::Weak(i, index)),
                    None => None,
                }
            }
        }
    }
}

impl<'m, 'a> Lists<'m, 'a> {
    /// Appends the member that an entry stands for, if it is a feature of the package itself.
    fn push_own(
        &self,
        entry: FeatureEntry<'a>,
        members: &mut Vec<FeatureValue>,
    ) -> Result<(), AllocError>
        ensures { OnOk result (Adds members.old.items members.new.items
            (IsOwn (index_in self.now.names.now) self.now.node entry.entry)) }
    {
        let FeatureEntry::Feature(name) = entry else {
            return Ok(());
        };
        let Some(index) = self.names.feature(self.node, name) else {
            return Ok(());
        };
        members.push(FeatureValue::Feature(index))?;
        Ok(())
    }

    /// Appends the members that an entry stands for.
    fn push_members(
        &self,
        entry: FeatureEntry<'a>,
        members: &mut Vec<FeatureValue>,
    ) -> Result<(), AllocError>
        ensures { OnOk result (Adds members.old.items members.new.items
            (StandsFor (index_in self.now.names.now) self.now.node self.now.found.now entry.entry)) }
    {
        'found: for i in 0..self.found.len() {
            let member = self.found[i].member(self.names, entry, i);
            push_member(member, members)?;
        }
        self.push_own(entry, members)?;
        Ok(())
    }

    /// Returns the members that entries in the list of a feature stand for.
    fn members(
        &self,
        alloc: Global,
        entries: &[FeatureEntry<'a>],
    ) -> Result<Vec<FeatureValue>, AllocError>
        ensures { IfOk result (λ members. HasJust members.items
            (SomeStandsFor (index_in self.now.names.now) self.now.node self.now.found.now entries.now)) }
    {
        let mut members = Vec::new(alloc);
        'entries: for i in 0..entries.len() {
            self.push_members(entries[i], &mut members)?;
        }
        Ok(members)
    }

    /// Returns the members for the features that are requested of a package with this many features.
    fn members_requested(
        &self,
        alloc: Global,
        called: &str,
        count: usize,
        requested: &RequestedFeatures<'a>,
    ) -> Result<Vec<FeatureValue>, AllocError>
        ensures { IfOk result (λ members. AreRequested requested.now called.now
            (index_in self.now.names.now) self.now.node self.now.found.now count members.items) }
    {
        let entries = requested.entries(alloc, called, self.node)?;
        let mut members = self.members(alloc, &entries)?;
        push_all(requested.all, count, &mut members)?;
        Ok(members)
    }

    /// Returns what the features of a package list. A package without a manifest has no features.
    fn of_features(
        &self,
        alloc: Global,
        manifest: Option<&PackageDeclaration<'a>>,
    ) -> Result<Vec<Vec<FeatureValue>>, AllocError>
        ensures count { IfOk result
            (λ features. length features.items ≡ length (features_in (option_copied manifest.entry))) }
        ensures lists { IfOk result (λ features. HasListsOf
            (SomeStandsFor (index_in self.now.names.now) self.now.node self.now.found.now)
            (features_in (option_copied manifest.entry)) features.items) }
    {
        let mut features = Vec::new(alloc);
        let Some(manifest) = manifest else {
            return Ok(features);
        };
        'features: for i in 0..manifest.features.len() {
            let members = self.members(alloc, &manifest.features[i].lists)?;
            features.push(members)?;
        }
        Ok(features)
    }
}

/// Returns dependencies without their names, and for each its index among those of the linked package.
fn unnamed(
    alloc: Global,
    found: Vec<Named<'_>>,
) -> Result<(Vec<Dependency>, Vec<usize>), AllocError>
    ensures dependencies { IfOk result (λ parts. parts.0.items ≡ map (λ one. one.dependency) found.entry.items) }
    ensures edges { IfOk result (λ parts. parts.1.items ≡ map (λ one. one.edge) found.entry.items) }
{
    let mut dependencies = Vec::new(alloc);
    let mut edges = Vec::new(alloc);
    for one in found {
        edges.push(one.edge)?;
        dependencies.push(one.dependency)?;
    }
    Ok((dependencies, edges))
}

/// Returns what the features of the package of a node list. The last feature of a root lists what is requested of it.
fn lists_of<'a>(
    alloc: Global,
    graph: &DeclaredGraph<'_, 'a>,
    lists: &Lists<'_, 'a>,
    unit: &Unit,
    requested: &RequestedFeatures<'a>,
) -> Result<Vec<Vec<FeatureValue>>, AllocError>
    ensures lists { IfOk result (λ features. HasListsOf
        (SomeStandsFor (index_in lists.now.names.now) lists.now.node lists.now.found.now)
        (features_at graph.now.declared.now lists.now.node) features.items) }
    ensures last { IfOk result (λ features. let count = length (features_at graph.now.declared.now lists.now.node) in
        HasLast (is_concerned requested.now lists.now.node unit.now)
        (AreRequested requested.now (name_at graph.now lists.now.node) (index_in lists.now.names.now) lists.now.node
        lists.now.found.now count) count features.items) }
{
    let mut features = lists.of_features(alloc, graph.declared.package_of(lists.node))?;
    if !requested.concerns(lists.node, unit) {
        return Ok(features);
    }
    let package = graph.name(lists.node);
    let count = features.len();
    let members = lists.members_requested(alloc, package, count, requested)?;
    features.push(members)?;
    Ok(features)
}

/// Returns the features that are requested of a package: the last of this many, if it is a root.
fn requests_of_root(alloc: Global, is_root: bool, count: usize) -> Result<Vec<usize>, AllocError>
    ensures { IfOk result (λ requested. requested.items ≡ cond is_root ((count - 1) ∷ []) []) }
{
    let mut requested = Vec::new(alloc);
    if is_root {
        requested.push(count.saturating_sub(1))?;
    }
    Ok(requested)
}

/// Returns the package of a node, as input of the feature resolver, and for each dependency its index among those of
/// the linked package. The last feature of a root lists what is requested of it.
fn described_package<'a>(
    alloc: Global,
    graph: &DeclaredGraph<'_, 'a>,
    names: &Names<'a>,
    node: usize,
    requested: &RequestedFeatures<'a>,
) -> Result<(Package, Vec<usize>), AllocError>
    requires { node < length graph.now.linked.now.packages.items }
    ensures { IfOk result
        (λ described. IsDescribed graph.now requested.now (index_in names.now) node described.0
        described.1.items) }
{
    let unit = &graph.linked.packages[node];
    let found = dependencies_of(alloc, graph, names, node)?;
    let lists = Lists {
        names,
        found: &found,
        node,
    };
    let features = lists_of(alloc, graph, &lists, unit, requested)?;
    let of_root = requests_of_root(alloc, unit.is_root, features.len())?;
    let (dependencies, edges) = unnamed(alloc, found)?;
    let package = Package {
        is_root: unit.is_root,
        is_macro: unit.is_macro,
        dependencies,
        features,
        requested: of_root,
    };
    Ok((package, edges))
}

/// Adds the root that makes the package of the current directory active, if resolver 1 needs one.
fn add_activation_root(
    alloc: Global,
    requested: &RequestedFeatures<'_>,
    described: &mut ResolverInput,
) -> Result<(), AllocError>
    ensures kept { OnOk result (KeepsDescribed described.old described.new) }
    ensures activated { OnOk result
        (AreActivated requested.now.current described.old.packages.items described.new.packages.items) }
{
    let Some(current) = requested.current else {
        return Ok(());
    };
    let Some(package) = activation_root(alloc, &described.packages, current)? else {
        return Ok(());
    };
    described.packages.push(package)?;
    described.edges.push(Vec::new(alloc))?;
    Ok(())
}

/// Returns the packages of a graph, as input of the feature resolver. Fails only if memory is refused.
pub fn resolver_input<'a>(
    alloc: Global,
    graph: &DeclaredGraph<'_, 'a>,
    requested: &RequestedFeatures<'a>,
) -> Result<ResolverInput, AllocError>
    // The package of each node has the dependencies that the document declares and that have edges, and each of its
    // features has the members that the entries of its list stand for. A package of which features are requested has
    // one feature more, whose list has the members that these stand for, and all features if all are requested. A root
    // requests this feature.
    ensures nodes { IfOk result (AreDescribed graph.now requested.now) }
    // Behind the packages of the nodes is an activation root, if the package of the current directory is no root. There
    // are no other packages.
    ensures activated { IfOk result (λ described. (units : List Package)
        × (length units ≡ length graph.now.linked.now.packages.items)
        × AreActivated requested.now.current units described.packages.items) }
{
    let names = Names::of(alloc, graph.declared)?;
    let mut packages = Vec::new(alloc);
    let mut edges = Vec::new(alloc);
    'nodes: for node in 0..graph.linked.packages.len() {
        let (package, its_edges) = described_package(alloc, graph, &names, node, requested)?;
        packages.push(package)?;
        edges.push(its_edges)?;
    }
    let mut described = ResolverInput { packages, edges };
    add_activation_root(alloc, requested, &mut described)?;
    Ok(described)
}
