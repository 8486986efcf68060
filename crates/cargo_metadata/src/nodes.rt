//! The nodes of a document's graph, and their dependencies.

ghost use Rattle.std.specs.Prelude.{MatchResult};
ghost use Rattle.serde_json.specs.View.{view};
ghost use Rattle.cargo_metadata.specs.Fields.{IsFirstWrong, fields_of_kind};
ghost use Rattle.cargo_metadata.specs.Nodes.{IsKindRow, IsDependency, IsNode, IsInDependency, IsInNode};

use crate::fields::{condition_of, kind_of, require_list, require_text, text_at};
use crate::refusals::{DependencyError, FieldError, NodeError};
use serde_json::Value;
use std::alloc::{AllocError, Global};

/// The kind of a dependency.
#[derive(Clone, Copy, Debug, PartialEq, Eq, Drop)]
pub enum Kind {
    Normal,
    Build,
    Dev,
}

/// A kind of a dependency, with its condition as it is written, if there is one.
#[derive(Clone, Copy, Drop)]
pub struct KindRow<'a> {
    pub kind: Kind,
    pub condition: Option<&'a str>,
}

/// A dependency on the package with an id.
#[derive(Drop)]
pub struct Dependency<'a> {
    pub on: &'a str,
    /// The name by which the node's code refers to the dependency, if the field contains a text.
    pub name: Option<&'a str>,
    pub kinds: Vec<KindRow<'a>>,
}

/// A node, which is identified by the id of its package.
#[derive(Drop)]
pub struct Node<'a> {
    pub id: &'a str,
    pub dependencies: Vec<Dependency<'a>>,
}

/// Reads a kind and its condition from an object. Fails at the first of the two that is not as expected.
fn kind_row<'a>(value: &'a Value) -> Result<KindRow<'a>, FieldError>
    ensures { MatchResult result (λ row. IsKindRow (view value.now) row)
        (λ wrong. IsFirstWrong fields_of_kind (view value.now) wrong) }
{
    let kind = kind_of(value)?;
    let condition = condition_of(value)?;
    Ok(KindRow { kind, condition })
}

/// Reads a dependency from an object.
fn dependency_of<'a>(alloc: Global, value: &'a Value) -> Result<Dependency<'a>, DependencyError>
    ensures { MatchResult result (λ d. IsDependency (view value.now) d)
        (λ wrong. IsInDependency (view value.now) wrong) }
{
    let on = match require_text(value, "pkg") {
        Ok(text) => text,
        Err(wrong) => return Err(DependencyError::Field(wrong)),
    };
    let items = match require_list(value, "dep_kinds") {
        Ok(items) => items,
        Err(wrong) => return Err(DependencyError::Field(wrong)),
    };
    let mut kinds = Vec::new(alloc);
    'kinds: for i in 0..items.len() {
        let row = match kind_row(&items[i]) {
            Ok(row) => row,
            Err(wrong) => return Err(DependencyError::Kind(i, wrong)),
        };
        if let Err(error) = kinds.push(row) {
            return Err(DependencyError::Memory(AllocError::from(error)));
        }
    }
    let name = text_at(value, "name");
    Ok(Dependency { on, name, kinds })
}

/// Reads a node from an object. Fails at the first part that is not as expected, and if an allocation fails.
pub fn node_of<'a>(alloc: Global, value: &'a Value) -> Result<Node<'a>, NodeError>
    ensures { MatchResult result (λ n. IsNode (view value.now) n) (λ wrong. IsInNode (view value.now) wrong) }
{
    let id = match require_text(value, "id") {
        Ok(text) => text,
        Err(wrong) => return Err(NodeError::Field(wrong)),
    };
    let items = match require_list(value, "deps") {
        Ok(items) => items,
        Err(wrong) => return Err(NodeError::Field(wrong)),
    };
    let mut dependencies = Vec::new(alloc);
    'dependencies: for i in 0..items.len() {
        let dependency = match dependency_of(alloc, &items[i]) {
            Ok(dependency) => dependency,
            Err(wrong) => return Err(NodeError::Dependency(i, wrong)),
        };
        if let Err(error) = dependencies.push(dependency) {
            return Err(NodeError::Memory(AllocError::from(error)));
        }
    }
    Ok(Node { id, dependencies })
}
