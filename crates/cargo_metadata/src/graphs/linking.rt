//! Links a document into a graph of packages.

ghost use Rattle.std.specs.Prelude.{MatchResult};
ghost use Rattle.cargo_metadata.specs.Ids.{package_ids, node_ids};
ghost use Rattle.cargo_metadata.specs.Links.{AreIds, IsLinked};
ghost use Rattle.cargo_metadata.specs.Refusals.{IsUnlinked};
ghost use Rattle.cargo_metadata.specs.Indexes.{AreFound};
ghost use Rattle.cargo_metadata.specs.Inside.Finding.{AreNodesFound, AreMembersFound};

use super::edges::edges_of;
use super::refusals::GraphError;
use crate::indexes::Indexes;
use crate::{Metadata, Package as Described};
use package_graphs::Package;
use std::alloc::{AllocError, Global};

/// The packages of a graph, in the order of the document's nodes.
#[derive(Drop)]
pub struct Linked<'a> {
    /// The packages as the document describes them.
    pub described: Vec<Described<'a>>,
    /// The packages with the indexes that their dependencies lead to, and the targets on which the conditions of these
    /// are true. The roots are the members of the workspace.
    pub packages: Vec<Package>,
}

/// Returns the graph of a document. Fails with its first error, of the ids of packages, of nodes and of members, and
/// then of the nodes' dependencies, and if an allocation fails.
pub fn link<'a>(alloc: Global, metadata: &Metadata<'a>) -> Result<Linked<'a>, GraphError>
    ensures { MatchResult result (λ linked. IsLinked metadata.now linked) (λ refusal. IsUnlinked metadata.now refusal) }
{
    let packages = package_indexes(alloc, metadata)?;
    let (nodes, described) = node_indexes(alloc, &packages, metadata)?;
    let members = member_indexes(alloc, &nodes, metadata)?;
    graph_of(alloc, metadata, described, &nodes, &members)
}

/// Returns the indexes of the packages by id.
fn package_indexes<'a>(alloc: Global, metadata: &Metadata<'a>) -> Result<Indexes<'a>, GraphError>
    ensures { MatchResult result (λ indexes. AreFound indexes (package_ids metadata.now.packages.items))
        (λ refusal. IsUnlinked metadata.now refusal) }
{
    let mut indexes = Indexes::new(alloc);
    'packages: for i in 0..metadata.packages.len() {
        match indexes.add(metadata.packages[i].id, i) {
            Ok(None) => {}
            Ok(Some(first)) => return Err(GraphError::SamePackage { first, again: i }),
            Err(error) => return Err(GraphError::Memory(error)),
        }
    }
    Ok(indexes)
}

/// Returns the indexes of the nodes by id, and the package of each node.
fn node_indexes<'a>(
    alloc: Global,
    packages: &Indexes<'a>,
    metadata: &Metadata<'a>,
) -> Result<(Indexes<'a>, Vec<Described<'a>>), GraphError>
    requires { AreFound packages.now (package_ids metadata.now.packages.items) }
    ensures { MatchResult result (λ found. AreNodesFound metadata.now found.0 found.1.items)
        (λ refusal. IsUnlinked metadata.now refusal) }
{
    let mut indexes = Indexes::new(alloc);
    let mut described = Vec::new(alloc);
    'nodes: for i in 0..metadata.nodes.len() {
        let id = metadata.nodes[i].id;
        let Some(index) = packages.find(id) else {
            return Err(GraphError::NoPackage(i));
        };
        match indexes.add(id, i) {
            Ok(None) => {}
            Ok(Some(first)) => return Err(GraphError::SameNode { first, again: i }),
            Err(error) => return Err(GraphError::Memory(error)),
        }
        if let Err(error) = described.push(metadata.packages[index]) {
            return Err(GraphError::Memory(AllocError::from(error)));
        }
    }
    Ok((indexes, described))
}

/// Returns the indexes of the members by id.
fn member_indexes<'a>(
    alloc: Global,
    nodes: &Indexes<'a>,
    metadata: &Metadata<'a>,
) -> Result<Indexes<'a>, GraphError>
    requires ids { AreIds metadata.now }
    requires nodes { AreFound nodes.now (node_ids metadata.now.nodes.items) }
    ensures { MatchResult result (λ members. AreMembersFound metadata.now members)
        (λ refusal. IsUnlinked metadata.now refusal) }
{
    let mut indexes = Indexes::new(alloc);
    'members: for i in 0..metadata.members.len() {
        let id = metadata.members[i];
        if nodes.find(id).is_none() {
            return Err(GraphError::NoMember(i));
        }
        if let Err(error) = indexes.add(id, i) {
            return Err(GraphError::Memory(error));
        }
    }
    Ok(indexes)
}

/// Returns the graph of the packages that were found.
fn graph_of<'a>(
    alloc: Global,
    metadata: &Metadata<'a>,
    described: Vec<Described<'a>>,
    nodes: &Indexes<'a>,
    members: &Indexes<'a>,
) -> Result<Linked<'a>, GraphError>
    requires ids { AreIds metadata.now }
    requires nodes { AreNodesFound metadata.now nodes.now described.items }
    requires members { AreMembersFound metadata.now members.now }
    ensures { MatchResult result (λ linked. IsLinked metadata.now linked) (λ refusal. IsUnlinked metadata.now refusal) }
{
    let mut packages = Vec::new(alloc);
    'nodes: for i in 0..metadata.nodes.len() {
        let node = &metadata.nodes[i];
        let dependencies = match edges_of(alloc, nodes, node) {
            Ok(dependencies) => dependencies,
            Err((j, wrong)) => return Err(GraphError::Dependency(i, j, wrong)),
        };
        let unit = Package {
            is_root: members.find(node.id).is_some(),
            is_macro: described[i].is_macro,
            dependencies,
        };
        if let Err(error) = packages.push(unit) {
            return Err(GraphError::Memory(AllocError::from(error)));
        }
    }
    Ok(Linked {
        described,
        packages,
    })
}
