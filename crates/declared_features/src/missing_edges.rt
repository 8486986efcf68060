//! Declared dependencies that are enabled and have no edge. The document was filtered, or made with too few features.

ghost use Rattle.std.specs.Prelude.{◌≡◌, ◌<◌, ◌↔◌, ℕ, List, Some, Any, IfOk, OnOk, IfSome, IfNone, IsTrue, map, true};
ghost use Rattle.std.specs.Prelude.{All};
ghost use Rattle.std.specs.Prelude.{option_map};
ghost use Rattle.std.specs.Option.{option_copied};
ghost use Rattle.serde_json.specs.View.{view};
ghost use Rattle.cargo_features.specs.Inside.Numbered.{AreNumbers};
ghost use Rattle.declared_features.specs.Manifests.{features_at, dependencies_at};
ghost use Rattle.declared_features.specs.Inside.Newly.{IsNewly};
ghost use Rattle.cargo_metadata.specs.declared.nodes.Kind.TheVariants as Kind;
ghost use Rattle.declared_features.specs.NameSets.{HasName, HasJustNames, AddsNames};
ghost use Rattle.declared_features.specs.MissingEdges.{turned_on_by, TurnOn, listed_features, IsListed, IsTurnedOnIn};
ghost use Rattle.declared_features.specs.MissingEdges.{HasEdge, HasSimilarEdge, IsFirst, IsFirstMissing, IsNoneMissing};
ghost use Rattle.declared_features.specs.MissingEdges.{HasOnlyCondition, IsKept, is_root_at, MayBeFiltered};
ghost use Rattle.declared_features.specs.MissingEdges.{IsFilteredOut, LacksLibrary, HasNoLibrary, IsEnabled};
ghost use Rattle.declared_features.specs.MissingEdges.{IsTurnedOnByFeature};
ghost use Rattle.declared_features.specs.MissingEdges.{IsTurnedOnByRequest, IsTurnedOn, IsNewlyEnabled};
ghost use Rattle.declared_features.specs.Requests.{toml_name};
ghost use Rattle.declared_features.specs.Inside.Keys.{EdgeKey, kind_number, HasKey, IsKeyOf, AddsKeys, HasEdgeWith};

use crate::declaring::{DeclaredGraph, DependencyRow, dependency_rows};
use crate::entries::FeatureEntry;
use crate::linking::{RequestedFeatures, toml_name};
use crate::manifests::{DeclaredDependency, PackageDeclaration};
use crate::name_sets::add_name;
use cargo_features::{Claim, Resolved};
use cargo_metadata::fields::{field_at, list_at};
use cargo_metadata::{Dependency as Edge, Kind, KindRow, Metadata, Node};
use package_graphs::Side;
use serde_json::Value;
use std::alloc::{AllocError, Global};
use std::collections::BTreeSet;

/// A declared dependency that has no edge, and the index of the node whose package declares it.
#[derive(Clone, Copy, Drop)]
pub struct MissingEdge<'m, 'a> {
    pub node: usize,
    pub declared: &'m DeclaredDependency<'a>,
}

/// Returns the dependencies that an entry in the list of a feature turns on: `d` for `dep:d` and `d/f`, none for
/// `d?/f`.
fn turned_on<'a>(entry: FeatureEntry<'a>) -> Option<&'a str>
    ensures { option_copied result ≡ turned_on_by entry.entry }
{
    match entry {
        FeatureEntry::Dependency(name) | FeatureEntry::Strong(name, _) => Some(name),
        FeatureEntry::Feature(_) | FeatureEntry::Weak(_, _) => None,
    }
}

/// Adds the dependencies that entries turn on.
fn add_turned_on<'a>(
    entries: &[FeatureEntry<'a>],
    names: &mut BTreeSet<&'a str>,
) -> Result<(), AllocError>
    ensures { OnOk result (AddsNames names.old names.new (TurnOn entries.now)) }
{
    'entries: for i in 0..entries.len() {
        add_name(turned_on(entries[i]), names)?;
    }
    Ok(())
}

/// Adds the dependencies that entries turn on, if their feature is enabled.
fn add_if<'a>(
    is_enabled: bool,
    entries: &[FeatureEntry<'a>],
    names: &mut BTreeSet<&'a str>,
) -> Result<(), AllocError>
    ensures { OnOk result (AddsNames names.old names.new (λ q. (is_enabled ≡ true) × TurnOn entries.now q)) }
{
    if is_enabled {
        add_turned_on(entries, names)?;
    }
    Ok(())
}

/// Returns the features of a node that are enabled in the document.
fn enabled_features<'a>(document: &'a Value, node: usize) -> Option<&'a [Value]>
    ensures { option_map (λ vs. map view vs.now) result ≡ listed_features (view document.now) node }
{
    let nodes = list_at(field_at(document, "resolve")?, "nodes")?;
    list_at(nodes.get(node)?, "features")
}

/// Returns the names of the features of a node that are enabled in the document.
fn names_of_features<'a>(
    alloc: Global,
    document: &'a Value,
    node: usize,
) -> Result<BTreeSet<&'a str>, AllocError>
    ensures { IfOk result (λ names. HasJustNames names (IsListed (view document.now) node)) }
{
    let mut names = BTreeSet::new(alloc);
    let Some(features) = enabled_features(document, node) else {
        return Ok(names);
    };
    'features: for i in 0..features.len() {
        add_name(features[i].as_str(), &mut names)?;
    }
    Ok(names)
}

/// Returns the dependencies of a node that the features in the document turn on.
fn enabled_in_document<'a>(
    alloc: Global,
    document: &'a Value,
    node: usize,
    manifest: &PackageDeclaration<'a>,
) -> Result<BTreeSet<&'a str>, AllocError>
    ensures { IfOk result
        (λ names. HasJustNames names (IsTurnedOnIn (view document.now) node manifest.now.features.items)) }
{
    let enabled = names_of_features(alloc, document, node)?;
    let mut names = BTreeSet::new(alloc);
    'features: for i in 0..manifest.features.len() {
        let feature = &manifest.features[i];
        add_if(enabled.contains(feature.name), &feature.lists, &mut names)?;
    }
    Ok(names)
}

/// A graph, and the names of its packages without a library.
#[derive(Drop)]
struct Searched<'m, 'a> {
    graph: DeclaredGraph<'m, 'a>,
    without_library: BTreeSet<&'a str>,
}

impl<'m, 'a> Searched<'m, 'a> {
    /// Returns a graph with the names of its packages without a library.
    fn of(alloc: Global, graph: &DeclaredGraph<'m, 'a>) -> Result<Searched<'m, 'a>, AllocError>
        ensures graph { IfOk result (λ searched. searched.graph ≡ graph.now) }
        ensures names { IfOk result
            (λ searched. HasJustNames searched.without_library (LacksLibrary searched.graph)) }
    {
        let without_library = graph.declared.names_without_library(alloc, graph.metadata)?;
        Ok(Searched {
            graph: *graph,
            without_library,
        })
    }

    /// Returns whether Cargo gives no edge to a declared dependency, since its package has no library.
    fn has_no_library(&self, declared: &DeclaredDependency<'a>) -> bool
        requires { HasJustNames self.now.without_library (LacksLibrary self.now.graph) }
        ensures { IsTrue result ↔ HasNoLibrary self.now.graph declared.now }
    {
        self.without_library.contains(declared.name)
    }
}

// ---- a filtered document

/// Returns whether a kind of an edge has a condition.
fn has_condition(row: &KindRow<'_>, condition: &str) -> bool
    ensures { IsTrue result ↔ (option_copied row.now.condition ≡ Some condition.now) }
{
    row.condition == Some(condition)
}

/// Returns whether all kinds of an edge have a condition.
fn are_all_under(kinds: &[KindRow<'_>], condition: &str) -> bool
    ensures { IsTrue result ↔ All (λ row. option_copied row.condition ≡ Some condition.now) kinds.now }
{
    'kinds: for i in 0..kinds.len() {
        if !has_condition(&kinds[i], condition) {
            return false;
        }
    }
    true
}

/// Returns the condition of an edge, if all its kinds have the same one.
fn only_condition<'a>(edge: &Edge<'a>) -> Option<&'a str>
    ensures { (q : List ℕ) → (option_copied result ≡ Some q) ↔ HasOnlyCondition edge.now q }
{
    let condition = edge.kinds.first()?.condition?;
    if are_all_under(&edge.kinds, condition) {
        return Some(condition);
    }
    None
}

/// Adds the conditions that are the only one of some edge of a node.
fn add_kept<'a>(node: &Node<'a>, conditions: &mut BTreeSet<&'a str>) -> Result<(), AllocError>
    ensures { OnOk result (AddsNames conditions.old conditions.new
        (λ q. Any (λ edge. HasOnlyCondition edge q) node.now.dependencies.items)) }
{
    'edges: for i in 0..node.dependencies.len() {
        add_name(only_condition(&node.dependencies[i]), conditions)?;
    }
    Ok(())
}

/// Returns the conditions that are the only one of some edge. A filter that keeps this edge keeps all edges under the
/// same condition.
fn kept_conditions<'a>(
    alloc: Global,
    metadata: &Metadata<'a>,
) -> Result<BTreeSet<&'a str>, AllocError>
    ensures { IfOk result (λ conditions. HasJustNames conditions (IsKept metadata.now)) }
{
    let mut conditions = BTreeSet::new(alloc);
    'nodes: for i in 0..metadata.nodes.len() {
        add_kept(&metadata.nodes[i], &mut conditions)?;
    }
    Ok(conditions)
}

/// The name of an edge's package, its condition and the number of its kind.
type Key<'a> = ((&'a str, &'a str), u8);

/// Returns the number of a kind.
fn number_of(kind: Kind) -> u8
    ensures { result ≡ kind_number kind }
{
    kind as u8
}

/// Adds the key of an edge that has a condition.
fn add_key<'a>(
    graph: &DeclaredGraph<'_, 'a>,
    row: &DependencyRow<'_, 'a>,
    keys: &mut BTreeSet<Key<'a>>,
) -> Result<(), AllocError>
    ensures { OnOk result (AddsKeys keys.old keys.new (IsKeyOf graph.now row.now)) }
{
    let Some(condition) = row.kind.condition else {
        return Ok(());
    };
    let key = (
        (graph.name(row.linked.to), condition),
        number_of(row.kind.kind),
    );
    let _is_new = keys.insert(key)?;
    Ok(())
}

/// Returns the keys of the edges of a node that have a condition.
fn edge_keys<'a>(
    alloc: Global,
    graph: &DeclaredGraph<'_, 'a>,
    node: usize,
) -> Result<BTreeSet<Key<'a>>, AllocError>
    ensures { IfOk result (λ keys. (key : EdgeKey) → HasKey keys key ↔ HasEdgeWith graph.now node key) }
{
    let mut keys = BTreeSet::new(alloc);
    let rows = dependency_rows(alloc, graph.metadata, graph.linked, node)?;
    'rows: for i in 0..rows.len() {
        add_key(graph, &rows[i], &mut keys)?;
    }
    Ok(keys)
}

/// Returns whether the package of a node is a root.
fn is_root(graph: &DeclaredGraph<'_, '_>, node: usize) -> bool
    ensures { result ≡ is_root_at graph.now node }
{
    match graph.linked.packages.get(node) {
        Some(unit) => unit.is_root,
        None => false,
    }
}

/// Returns whether a dependency of a kind is used in a whole document. Only roots have dev-dependencies.
fn is_used(kind: Kind, is_root: bool) -> bool
    ensures { IsTrue result ↔ (kind ≡ Kind.Dev → is_root ≡ true) }
{
    match kind {
        Kind::Dev => is_root,
        Kind::Normal | Kind::Build => true,
    }
}

/// Returns whether a filter, and nothing else, may have left out a dependency of a node. The filter kept edges with
/// these conditions. A dependency on a package without a library has no edge in a whole document either.
fn may_be_filtered<'a>(
    searched: &Searched<'_, 'a>,
    node: usize,
    kept: &BTreeSet<&'a str>,
    declared: &DeclaredDependency<'a>,
) -> bool
    requires kept { HasJustNames kept.now (IsKept searched.now.graph.metadata.now) }
    requires names { HasJustNames searched.now.without_library (LacksLibrary searched.now.graph) }
    ensures { IsTrue result ↔ MayBeFiltered searched.now.graph node declared.now }
{
    let Some(condition) = declared.condition else {
        return false;
    };
    if kept.contains(condition) {
        return false;
    }
    if searched.has_no_library(declared) {
        return false;
    }
    is_used(declared.kind, is_root(&searched.graph, node))
}

/// Returns whether a filter may have left out some dependency that a package declares.
fn may_be_filtered_any<'a>(
    searched: &Searched<'_, 'a>,
    node: usize,
    kept: &BTreeSet<&'a str>,
    declared: &[DeclaredDependency<'a>],
) -> bool
    requires kept { HasJustNames kept.now (IsKept searched.now.graph.metadata.now) }
    requires names { HasJustNames searched.now.without_library (LacksLibrary searched.now.graph) }
    ensures { Any (MayBeFiltered searched.now.graph node) declared.now → IsTrue result }
{
    'declared: for i in 0..declared.len() {
        if may_be_filtered(searched, node, kept, &declared[i]) {
            return true;
        }
    }
    false
}

/// Returns whether a declared dependency is enabled: it is not optional, or this set has its name.
fn is_enabled<'a>(enabled: &BTreeSet<&'a str>, declared: &DeclaredDependency<'a>) -> bool
    ensures { IsTrue result
        ↔ (declared.now.is_optional ≡ true → HasName enabled.now (toml_name declared.now)) }
{
    !declared.is_optional || enabled.contains(toml_name(declared))
}

/// Returns whether these keys of edges have that of a declared dependency, which has a condition.
fn has_key<'a>(keys: &BTreeSet<Key<'a>>, declared: &DeclaredDependency<'a>) -> bool
    ensures { (condition : List ℕ) → option_copied declared.now.condition ≡ Some condition
        → IsTrue result ↔ HasKey keys.now ((declared.now.name.now, condition), declared.now.kind) }
{
    let Some(condition) = declared.condition else {
        return false;
    };
    keys.contains(&((declared.name, condition), number_of(declared.kind)))
}

/// What a document has of a node: the dependencies that its features turn on, and the keys of its edges.
#[derive(Drop)]
struct InDocument<'a> {
    enabled: BTreeSet<&'a str>,
    keys: BTreeSet<Key<'a>>,
}

/// Returns whether a dependency of a node is enabled and a filter left it out. The filter kept edges with these
/// conditions.
fn is_filtered_out<'a>(
    searched: &Searched<'_, 'a>,
    node: usize,
    kept: &BTreeSet<&'a str>,
    found: &InDocument<'a>,
    declared: &DeclaredDependency<'a>,
) -> bool
    requires kept { HasJustNames kept.now (IsKept searched.now.graph.metadata.now) }
    requires names { HasJustNames searched.now.without_library (LacksLibrary searched.now.graph) }
    requires enabled { HasJustNames found.now.enabled
        (IsTurnedOnIn (view searched.now.graph.document.now) node (features_at searched.now.graph.declared.now node)) }
    requires keys { (key : EdgeKey) → HasKey found.now.keys key ↔ HasEdgeWith searched.now.graph node key }
    ensures { IsTrue result ↔ IsFilteredOut searched.now.graph node declared.now }
{
    if !is_enabled(&found.enabled, declared) {
        return false;
    }
    if !may_be_filtered(searched, node, kept, declared) {
        return false;
    }
    !has_key(&found.keys, declared)
}

/// Returns the first dependency of a node that is enabled and that a filter left out. The filter kept edges with these
/// conditions.
fn first_filtered_of<'m, 'a>(
    alloc: Global,
    searched: &Searched<'m, 'a>,
    node: usize,
    kept: &BTreeSet<&'a str>,
) -> Result<Option<&'m DeclaredDependency<'a>>, AllocError>
    requires kept { HasJustNames kept.now (IsKept searched.now.graph.metadata.now) }
    requires names { HasJustNames searched.now.without_library (LacksLibrary searched.now.graph) }
    ensures found { IfOk result (λ found. IfSome found
        (λ d. IsFirst (IsFilteredOut searched.now.graph node)
        (dependencies_at searched.now.graph.declared.now node) d.now)) }
    ensures none { IfOk result (λ found. IfNone found
        (¬ Any (IsFilteredOut searched.now.graph node) (dependencies_at searched.now.graph.declared.now node))) }
{
    let Some(manifest) = searched.graph.declared.package_of(node) else {
        return Ok(None);
    };
    if !may_be_filtered_any(searched, node, kept, &manifest.dependencies) {
        return Ok(None);
    }
    let enabled = enabled_in_document(alloc, searched.graph.document, node, manifest)?;
    let keys = edge_keys(alloc, &searched.graph, node)?;
    let found = InDocument { enabled, keys };
    'declared: for i in 0..manifest.dependencies.len() {
        let declared = &manifest.dependencies[i];
        if is_filtered_out(searched, node, kept, &found, declared) {
            return Ok(Some(declared));
        }
    }
    Ok(None)
}

/// Returns the first dependency that `cargo metadata --filter-platform` left out of a document: one that is enabled,
/// has a condition and has no edge. Fails only if memory is refused.
pub fn first_filtered_out<'m, 'a>(
    alloc: Global,
    graph: &DeclaredGraph<'m, 'a>,
) -> Result<Option<MissingEdge<'m, 'a>>, AllocError>
    // The result is the first dependency, by the order of the document, that is enabled, that a filter may have left
    // out, and that has no edge of its kind and condition to a package of its name. A filter may have left out a
    // dependency whose condition is not the only one of any edge, if its package has a library. A dev-dependency has to
    // be that of a root.
    ensures found { IfOk result (λ found. IfSome found (IsFirstMissing graph.now (IsFilteredOut graph.now))) }
    // Without a result, no package declares a dependency that a filter left out.
    ensures none { IfOk result (λ found. IfNone found (IsNoneMissing graph.now (IsFilteredOut graph.now))) }
{
    let searched = Searched::of(alloc, graph)?;
    let kept = kept_conditions(alloc, searched.graph.metadata)?;
    'nodes: for node in 0..graph.metadata.nodes.len() {
        if let Some(declared) = first_filtered_of(alloc, &searched, node, &kept)? {
            return Ok(Some(MissingEdge { node, declared }));
        }
    }
    Ok(None)
}

// ---- a document that was made with too few features

/// Returns whether a feature of a node is enabled, on some target and side.
fn is_feature_enabled(resolved: &Resolved, node: usize, feature: usize) -> bool
    ensures { AreNumbers resolved.now.packages.items resolved.now.found.numbers
        → IsTrue result ↔ IsEnabled resolved.now node feature }
{
    let target = resolved.at(Claim::Feature(node, Side::Target, feature));
    let host = resolved.at(Claim::Feature(node, Side::Host, feature));
    !target.union(host).is_empty()
}

/// Adds the optional dependencies of a node that the resolved features turn on.
fn add_resolved<'a>(
    graph: &DeclaredGraph<'_, 'a>,
    node: usize,
    resolved: &Resolved,
    names: &mut BTreeSet<&'a str>,
) -> Result<(), AllocError>
    ensures { OnOk result (AreNumbers resolved.now.packages.items resolved.now.found.numbers
        → AddsNames names.old names.new (IsTurnedOnByFeature graph.now resolved.now node)) }
{
    let Some(manifest) = graph.declared.package_of(node) else {
        return Ok(());
    };
    'features: for i in 0..manifest.features.len() {
        let is_enabled = is_feature_enabled(resolved, node, i);
        add_if(is_enabled, &manifest.features[i].lists, names)?;
    }
    Ok(())
}

/// Adds the optional dependencies of a node that the features turn on which are requested of its package, if any are.
fn add_requested<'a>(
    alloc: Global,
    graph: &DeclaredGraph<'_, 'a>,
    node: usize,
    requested: &RequestedFeatures<'a>,
    names: &mut BTreeSet<&'a str>,
) -> Result<(), AllocError>
    ensures { OnOk result (AddsNames names.old names.new (IsTurnedOnByRequest graph.now requested.now node)) }
{
    let Some(unit) = graph.linked.packages.get(node) else {
        return Ok(());
    };
    if !requested.concerns(node, unit) {
        return Ok(());
    }
    let entries = requested.entries(alloc, graph.name(node), node)?;
    add_turned_on(&entries, names)?;
    Ok(())
}

/// Returns the optional dependencies of a node that the resolved or the requested features turn on.
fn enabled_by_features<'a>(
    alloc: Global,
    graph: &DeclaredGraph<'_, 'a>,
    node: usize,
    resolved: &Resolved,
    requested: &RequestedFeatures<'a>,
) -> Result<BTreeSet<&'a str>, AllocError>
    ensures { IfOk result (λ names. AreNumbers resolved.now.packages.items resolved.now.found.numbers
        → HasJustNames names (IsTurnedOn graph.now resolved.now requested.now node)) }
{
    let mut names = BTreeSet::new(alloc);
    add_resolved(graph, node, resolved, &mut names)?;
    add_requested(alloc, graph, node, requested, &mut names)?;
    Ok(names)
}

/// Returns whether a declared dependency of a node has an edge.
fn has_edge<'a>(
    alloc: Global,
    graph: &DeclaredGraph<'_, 'a>,
    node: usize,
    declared: &DeclaredDependency<'a>,
) -> Result<bool, AllocError>
    ensures { IfOk result (λ has. IsTrue has ↔ HasEdge graph.now node declared.now) }
{
    let rows = dependency_rows(alloc, graph.metadata, graph.linked, node)?;
    'rows: for i in 0..rows.len() {
        if graph.is_declared_as(node, &rows[i], declared) {
            return Ok(true);
        }
    }
    Ok(false)
}

/// Returns whether a declared dependency of a node lacks an edge that it has in a whole document.
fn lacks_edge<'a>(
    alloc: Global,
    searched: &Searched<'_, 'a>,
    node: usize,
    declared: &DeclaredDependency<'a>,
) -> Result<bool, AllocError>
    requires { HasJustNames searched.now.without_library (LacksLibrary searched.now.graph) }
    ensures { IfOk result (λ lacks. IsTrue lacks
        ↔ ((¬ HasNoLibrary searched.now.graph declared.now) × ¬ HasEdge searched.now.graph node declared.now)) }
{
    if searched.has_no_library(declared) {
        return Ok(false);
    }
    let has_edge = has_edge(alloc, &searched.graph, node, declared)?;
    Ok(!has_edge)
}

/// Returns whether a declared dependency is optional, is enabled, and was not before.
fn is_newly_enabled<'a>(
    enabled: &BTreeSet<&'a str>,
    before: &BTreeSet<&'a str>,
    declared: &DeclaredDependency<'a>,
) -> bool
    ensures { IsTrue result ↔ IsNewly enabled.now before.now declared.now }
{
    let name = toml_name(declared);
    declared.is_optional && enabled.contains(name) && !before.contains(name)
}

/// The dependencies of a node that features turn on.
#[derive(Drop)]
struct Enabled<'a> {
    by_features: BTreeSet<&'a str>,
    in_document: BTreeSet<&'a str>,
}

/// Returns whether a dependency of a node is enabled by features, was not in the document, and lacks an edge.
fn is_missing<'a>(
    alloc: Global,
    searched: &Searched<'_, 'a>,
    node: usize,
    enabled: &Enabled<'a>,
    declared: &DeclaredDependency<'a>,
) -> Result<bool, AllocError>
    requires { HasJustNames searched.now.without_library (LacksLibrary searched.now.graph) }
    ensures { IfOk result (λ missing. IsTrue missing
        ↔ (IsNewly enabled.now.by_features enabled.now.in_document declared.now
        × (¬ HasNoLibrary searched.now.graph declared.now) × ¬ HasEdge searched.now.graph node declared.now)) }
{
    if !is_newly_enabled(&enabled.by_features, &enabled.in_document, declared) {
        return Ok(false);
    }
    lacks_edge(alloc, searched, node, declared)
}

/// Returns the first dependency of a node that is enabled by features, was not in the document, and lacks an edge.
fn first_missing_of<'m, 'a>(
    alloc: Global,
    searched: &Searched<'m, 'a>,
    node: usize,
    resolved: &Resolved,
    requested: &RequestedFeatures<'a>,
) -> Result<Option<&'m DeclaredDependency<'a>>, AllocError>
    requires { HasJustNames searched.now.without_library (LacksLibrary searched.now.graph) }
    ensures found { IfOk result (λ found. IfSome found
        (λ d. AreNumbers resolved.now.packages.items resolved.now.found.numbers
        → IsFirst (IsNewlyEnabled searched.now.graph resolved.now requested.now node)
        (dependencies_at searched.now.graph.declared.now node) d.now)) }
    ensures none { IfOk result (λ found. IfNone found
        (AreNumbers resolved.now.packages.items resolved.now.found.numbers
        → ¬ Any (IsNewlyEnabled searched.now.graph resolved.now requested.now node)
        (dependencies_at searched.now.graph.declared.now node))) }
{
    let Some(manifest) = searched.graph.declared.package_of(node) else {
        return Ok(None);
    };
    let by_features = enabled_by_features(alloc, &searched.graph, node, resolved, requested)?;
    let in_document = enabled_in_document(alloc, searched.graph.document, node, manifest)?;
    let enabled = Enabled {
        by_features,
        in_document,
    };
    'declared: for i in 0..manifest.dependencies.len() {
        let declared = &manifest.dependencies[i];
        if is_missing(alloc, searched, node, &enabled, declared)? {
            return Ok(Some(declared));
        }
    }
    Ok(None)
}

/// Returns the first dependency that is enabled by the resolved features, was not enabled in the document, and has no
/// edge: the document was made with too few features. Fails only if memory is refused.
pub fn first_missing_edge<'m, 'a>(
    alloc: Global,
    graph: &DeclaredGraph<'m, 'a>,
    resolved: &Resolved,
    requested: &RequestedFeatures<'a>,
) -> Result<Option<MissingEdge<'m, 'a>>, AllocError>
    // If `resolve` returned the features, the result is the first optional dependency, by the order of the document,
    // that these or the requested features turn on, that those in the document do not turn on, and that has a library
    // and no edge.
    ensures found { IfOk result (λ found. IfSome found
        (λ edge. AreNumbers resolved.now.packages.items resolved.now.found.numbers
        → IsFirstMissing graph.now (IsNewlyEnabled graph.now resolved.now requested.now) edge)) }
    // Without a result, no package declares such an optional dependency.
    ensures none { IfOk result (λ found. IfNone found
        (AreNumbers resolved.now.packages.items resolved.now.found.numbers
        → IsNoneMissing graph.now (IsNewlyEnabled graph.now resolved.now requested.now))) }
{
    let searched = Searched::of(alloc, graph)?;
    'nodes: for node in 0..graph.metadata.nodes.len() {
        if let Some(declared) = first_missing_of(alloc, &searched, node, resolved, requested)? {
            return Ok(Some(MissingEdge { node, declared }));
        }
    }
    Ok(None)
}
