//! The dependencies of a node, with the indexes that they lead to and the targets on which their conditions are true.

ghost use Rattle.std.specs.Prelude.{◌≡◌, ℕ, List, MatchResult};
ghost use Rattle.cargo_metadata.specs.Links.{HoldsWhere, kind_of, AreEdgesOf};
ghost use Rattle.cargo_metadata.specs.Refusals.{IsInDependency, IsWrongAt};
ghost use Rattle.cargo_metadata.specs.Indexes.{AreFound};
ghost use Rattle.cargo_metadata.specs.Inside.Adding.{IsNoSet, wrong_at, AddsKinds};

use super::refusals::EdgeError;
use crate::indexes::Indexes;
use crate::{Dependency as Written, Kind as WrittenKind, Node};
use cargo_platform::{ParseError, Platform, ReadError};
use known_targets::{TargetSet, matching};
use package_graphs::{Dependency, Kind};
use std::alloc::{AllocError, Global};

/// The reason why a condition has no set of targets.
#[derive(Drop)]
pub enum ConditionError {
    Refused(ParseError),
    Memory(AllocError),
}

/// Returns the targets on which a condition is true. Without a condition, these are all targets.
fn holds_at(alloc: Global, condition: Option<&str>) -> Result<TargetSet, ConditionError>
    ensures { MatchResult result (λ set. HoldsWhere condition.entry set) (λ no_set. IsNoSet condition.entry no_set) }
{
    let Some(text) = condition else {
        return Ok(TargetSet::all());
    };
    let platform = match Platform::from_str(alloc, text) {
        Ok(platform) => platform,
        Err(ReadError::Parse(error)) => return Err(ConditionError::Refused(error)),
        Err(ReadError::Memory(error)) => return Err(ConditionError::Memory(error)),
    };
    match matching(alloc, &platform) {
        Ok(set) => Ok(set),
        Err(error) => Err(ConditionError::Memory(error)),
    }
}

/// Returns the kind of a dependency of a graph.
fn kind_of(kind: WrittenKind) -> Kind
    ensures { result ≡ kind_of kind }
{
    match kind {
        WrittenKind::Normal => Kind::Normal,
        WrittenKind::Build => Kind::Build,
        WrittenKind::Dev => Kind::Dev,
    }
}

/// Returns the error of a dependency whose condition at this index has no set of targets.
fn wrong_at(index: usize, no_set: ConditionError) -> EdgeError
    ensures { result ≡ wrong_at index no_set }
{
    match no_set {
        ConditionError::Refused(error) => EdgeError::Condition(index, error),
        ConditionError::Memory(error) => EdgeError::Memory(error),
    }
}

/// Adds an edge for each kind of a dependency.
fn add_kinds<'a>(
    alloc: Global,
    nodes: &Indexes<'a>,
    written: &Written<'a>,
    edges: &mut Vec<Dependency>,
) -> Result<(), EdgeError>
    ensures { (ids : List (List ℕ)) → AreFound nodes.now ids → MatchResult result
        (λ _. AddsKinds ids written.now edges.old.items edges.new.items)
        (λ wrong. IsInDependency ids wrong written.now) }
{
    let Some(to) = nodes.find(written.on) else {
        return Err(EdgeError::NoNode);
    };
    'kinds: for i in 0..written.kinds.len() {
        let row = written.kinds[i];
        let holds = match holds_at(alloc, row.condition) {
            Ok(holds) => holds,
            Err(no_set) => return Err(wrong_at(i, no_set)),
        };
        let edge = Dependency {
            to,
            kind: kind_of(row.kind),
            holds,
        };
        if let Err(error) = edges.push(edge) {
            return Err(EdgeError::Memory(AllocError::from(error)));
        }
    }
    Ok(())
}

/// Returns the edges of a node. Fails with the index of the first dependency that has an error, and with that error.
pub fn edges_of<'a>(
    alloc: Global,
    nodes: &Indexes<'a>,
    node: &Node<'a>,
) -> Result<Vec<Dependency>, (usize, EdgeError)>
    ensures { (ids : List (List ℕ)) → AreFound nodes.now ids → MatchResult result
        (λ edges. AreEdgesOf ids node.now edges.items)
        (λ wrong. IsWrongAt ids wrong.0 wrong.1 node.now) }
{
    let mut edges = Vec::new(alloc);
    'dependencies: for j in 0..node.dependencies.len() {
        if let Err(wrong) = add_kinds(alloc, nodes, &node.dependencies[j], &mut edges) {
            return Err((j, wrong));
        }
    }
    Ok(edges)
}
