//! A whole document.

ghost use Rattle.std.specs.Prelude.{◌≡◌, MatchResult, Some, true, codes};
ghost use Rattle.serde_json.specs.View.{view};
ghost use Rattle.serde_json.specs.Find.{get};
ghost use Rattle.cargo_metadata.specs.Fields.{fits, IsWrong, IsAt};
ghost use Rattle.cargo_metadata.specs.Rows.{AreRowsAt};
ghost use Rattle.cargo_metadata.specs.Packages.{IsPackage};
ghost use Rattle.cargo_metadata.specs.Nodes.{IsNode};
ghost use Rattle.cargo_metadata.specs.Documents.{IsMember, IsInResolve, IsMetadata, IsVersionOne, IsResolve};
ghost use Rattle.cargo_metadata.specs.Documents.{IsRefused, IsFault, IsIn};

use crate::fields::{field_at, require_list};
use crate::nodes::{Node, node_of};
use crate::packages::{Package, package_of};
use crate::refusals::{ExpectedValue, FieldError, MetadataError, ResolveError};
use serde_json::Value;
use std::alloc::{AllocError, Global};

/// The parts of a document that a graph of packages needs.
#[derive(Drop)]
pub struct Metadata<'a> {
    pub packages: Vec<Package<'a>>,
    /// The ids of the workspace's members.
    pub members: Vec<&'a str>,
    pub nodes: Vec<Node<'a>>,
}

/// Reads the parts of a document that a graph of packages needs: the version, then the packages, the members and the
/// nodes. Other fields are ignored. Fails at the first part that is not as expected, and if an allocation fails.
pub fn read<'a>(alloc: Global, document: &'a Value) -> Result<Metadata<'a>, MetadataError>
    ensures { MatchResult result (λ m. IsMetadata (view document.now) m)
        (λ refusal. IsRefused (view document.now) refusal) }
{
    if let Err(wrong) = check_version(document) {
        return Err(MetadataError::Field(wrong));
    }
    let packages = packages_at(alloc, document)?;
    let members = members_at(alloc, document)?;
    let resolve = match resolve_at(document) {
        Ok(resolve) => resolve,
        Err(wrong) => return Err(MetadataError::Field(wrong)),
    };
    match nodes_at(alloc, resolve) {
        Ok(nodes) => Ok(Metadata {
            packages,
            members,
            nodes,
        }),
        Err(refusal) => Err(MetadataError::Resolve(refusal)),
    }
}

/// Checks that the version is 1.
fn check_version(document: &Value) -> Result<(), FieldError>
    ensures { MatchResult result (λ _. IsVersionOne (view document.now))
        (λ wrong. IsWrong (view document.now) wrong × IsAt (codes "version") ExpectedValue.One wrong) }
{
    let wrong = FieldError {
        field: "version",
        expected: ExpectedValue::One,
    };
    let found = match field_at(document, "version") {
        Some(found) => found,
        None => return Err(wrong),
    };
    match found.as_u64() {
        Some(1) => Ok(()),
        _ => Err(wrong),
    }
}

/// Returns the value of `resolve`.
fn resolve_at<'a>(document: &'a Value) -> Result<&'a Value, FieldError>
    ensures { MatchResult result (λ resolve. IsResolve (view document.now) (view resolve.now))
        (λ wrong. IsWrong (view document.now) wrong × IsAt (codes "resolve") ExpectedValue.Resolve wrong) }
{
    let wrong = FieldError {
        field: "resolve",
        expected: ExpectedValue::Resolve,
    };
    let found = match field_at(document, "resolve") {
        Some(found) => found,
        None => return Err(wrong),
    };
    if found.is_object() {
        Ok(found)
    } else {
        Err(wrong)
    }
}

/// Reads the packages.
fn packages_at<'a>(alloc: Global, document: &'a Value) -> Result<Vec<Package<'a>>, MetadataError>
    ensures { MatchResult result (λ ps. AreRowsAt IsPackage (codes "packages") (view document.now) ps.items)
        (λ refusal. IsFault (view document.now) refusal × IsIn (codes "packages", ExpectedValue.List) refusal) }
{
    let items = match require_list(document, "packages") {
        Ok(items) => items,
        Err(wrong) => return Err(MetadataError::Field(wrong)),
    };
    let mut packages = Vec::new(alloc);
    'packages: for i in 0..items.len() {
        let unit = match package_of(&items[i]) {
            Ok(unit) => unit,
            Err(wrong) => return Err(MetadataError::Package(i, wrong)),
        };
        if let Err(error) = packages.push(unit) {
            return Err(MetadataError::Memory(AllocError::from(error)));
        }
    }
    Ok(packages)
}

/// Reads the ids of the workspace's members.
fn members_at<'a>(alloc: Global, document: &'a Value) -> Result<Vec<&'a str>, MetadataError>
    ensures { MatchResult result (λ ms. AreRowsAt IsMember (codes "workspace_members") (view document.now) ms.items)
        (λ refusal. IsFault (view document.now) refusal × IsIn (codes "workspace_members", ExpectedValue.List)
        refusal) }
{
    let items = match require_list(document, "workspace_members") {
        Ok(items) => items,
        Err(wrong) => return Err(MetadataError::Field(wrong)),
    };
    let mut members = Vec::new(alloc);
    'members: for i in 0..items.len() {
        let id = match items[i].as_str() {
            Some(id) => id,
            None => return Err(MetadataError::Member(i)),
        };
        if let Err(error) = members.push(id) {
            return Err(MetadataError::Memory(AllocError::from(error)));
        }
    }
    Ok(members)
}

/// Reads the nodes of the graph.
fn nodes_at<'a>(alloc: Global, resolve: &'a Value) -> Result<Vec<Node<'a>>, ResolveError>
    ensures { MatchResult result (λ ns. AreRowsAt IsNode (codes "nodes") (view resolve.now) ns.items)
        (λ refusal. IsInResolve (view resolve.now) refusal) }
{
    let items = match require_list(resolve, "nodes") {
        Ok(items) => items,
        Err(wrong) => return Err(ResolveError::Field(wrong)),
    };
    let mut nodes = Vec::new(alloc);
    'nodes: for i in 0..items.len() {
        let node = match node_of(alloc, &items[i]) {
            Ok(node) => node,
            Err(wrong) => return Err(ResolveError::Node(i, wrong)),
        };
        if let Err(error) = nodes.push(node) {
            return Err(ResolveError::Memory(AllocError::from(error)));
        }
    }
    Ok(nodes)
}
