//! Which packages of a graph are in a document, and on which of them each one depends.

ghost use Rattle.std.specs.Prelude.{◌≡◌, ℕ, ◌↔◌, Contains, IfOk, map};
ghost use Rattle.std.specs.List.Sorted.{IsStrictlyIncreasing};
ghost use Rattle.cyclonedx.specs.Relations.{is_included, has_place, is_needed, needed_by, reference_at};
ghost use Rattle.cyclonedx.specs.Relations.{IsRelation, AreRelations};

use known_targets::TargetSet;
use serde::Serialize;
use std::alloc::{AllocError, Global};

/// A dependency of a package.
#[derive(Clone, Copy, Drop)]
pub struct Edge {
    /// The index of the package to which it leads.
    pub to: usize,
    /// The selected targets on which it is followed.
    pub at: TargetSet,
}

/// A package of a graph.
#[derive(Drop)]
pub struct Node<'a> {
    /// The reference by which a document names the package.
    pub reference: &'a str,
    /// The selected targets on which it is in the build.
    pub at: TargetSet,
    pub edges: Vec<Edge>,
}

/// The packages on which a package depends.
#[derive(Drop, Serialize)]
pub struct Relation<'a> {
    /// The reference of the package.
    #[serde(rename = "ref")]
    pub reference: &'a str,
    /// The references of the packages on which it depends on a selected target.
    #[serde(rename = "dependsOn")]
    pub depends_on: Vec<&'a str>,
}

impl<'a> Node<'a> {
    /// Returns whether the package is in the build on a selected target.
    pub fn is_included(&self) -> bool
        ensures { result ≡ is_included self.now }
    {
        self.at.len() != 0
    }
}

/// Returns whether the package at an index is in the document.
fn has_place(nodes: &[Node<'_>], place: usize) -> bool
    ensures { result ≡ has_place nodes.now place }
{
    match nodes.get(place) {
        Some(node) => node.is_included(),
        None => false,
    }
}

/// Returns whether a dependency is followed on a selected target, to a package of the document.
fn is_needed(nodes: &[Node<'_>], edge: &Edge) -> bool
    ensures { result ≡ is_needed nodes.now edge.now }
{
    edge.at.len() != 0 && has_place(nodes, edge.to)
}

/// Returns the indexes of the packages to which dependencies lead that are followed, in the order of the dependencies.
fn needed_by(alloc: Global, nodes: &[Node<'_>], edges: &[Edge]) -> Result<Vec<usize>, AllocError>
    ensures { IfOk result (λ places. places.items ≡ needed_by nodes.now edges.now) }
{
    let mut places = Vec::new(alloc);
    for edge in edges {
        if is_needed(nodes, edge) {
            places.push(edge.to)?;
        }
    }
    Ok(places)
}

/// Returns these indexes once each, in order.
fn sorted(places: Vec<usize>) -> Vec<usize>
    ensures same { (k : ℕ) → Contains result.items k ↔ Contains places.items k }
    ensures ordered { IsStrictlyIncreasing result.items }
{
    let mut places = places;
    places.sort_unstable();
    places.dedup();
    places
}

/// Returns the references of the packages at these indexes.
fn references_at<'a>(
    alloc: Global,
    nodes: &[Node<'a>],
    places: &[usize],
) -> Result<Vec<&'a str>, AllocError>
    ensures { IfOk result (λ names. map (λ name. name.now) names.items ≡ map (reference_at nodes.now) places.now) }
{
    let mut names = Vec::new(alloc);
    for place in places {
        names.push(reference_at(nodes, *place))?;
    }
    Ok(names)
}

/// Returns the reference of the package at an index, or the empty text if there is none.
fn reference_at<'a>(nodes: &[Node<'a>], place: usize) -> &'a str
    ensures { result.now ≡ reference_at nodes.now place }
{
    match nodes.get(place) {
        Some(node) => node.reference,
        None => "",
    }
}

/// Returns on which packages of the document a package depends.
fn relation_of<'a>(
    alloc: Global,
    nodes: &[Node<'a>],
    node: &Node<'a>,
) -> Result<Relation<'a>, AllocError>
    ensures { IfOk result (λ relation. IsRelation nodes.now node.now relation) }
{
    let places = sorted(needed_by(alloc, nodes, &node.edges)?);
    let depends_on = references_at(alloc, nodes, &places)?;
    Ok(Relation {
        reference: node.reference,
        depends_on,
    })
}

/// Returns for each package that is in the build on a selected target, in the order of the graph, on which of them it
/// depends. Fails if memory is refused.
pub fn relations_of<'a>(alloc: Global, nodes: &[Node<'a>]) -> Result<Vec<Relation<'a>>, AllocError>
    // There is one for each package in the build, and no other.
    ensures { IfOk result (λ relations. AreRelations nodes.now nodes.now relations.items) }
{
    let mut relations = Vec::new(alloc);
    'nodes: for i in 0..nodes.len() {
        let node = &nodes[i];
        if node.is_included() {
            relations.push(relation_of(alloc, nodes, node)?)?;
        }
    }
    Ok(relations)
}
