//! Removes from an expression what is known.

ghost use Rattle.std.specs.Prelude.{◌≡◌, ◌≤◌, ◌++◌, [], ◌∷◌, map, IfOk};
ghost use Rattle.cargo_platform.specs.Trees.{tree_of, trees_of};
ghost use Rattle.cargo_platform.specs.Facts.{FactSet, truth};
ghost use Rattle.cargo_platform.specs.WellFormed.{IsWellFormed};
ghost use Rattle.cargo_platform.specs.Warnings.{values};
ghost use Rattle.cargo_platform.specs.Sizes.{size, depth};
ghost use Rattle.partial_facts.specs.Kleene.{kleene};
ghost use Rattle.partial_facts.specs.Residual.{literal, negation, group, residual_tree};
ghost use Rattle.partial_facts.specs.Residual.{literal_truth, IsLiteralOrOpen, IsSubsequence};
ghost use Rattle.partial_facts.specs.Inside.Groups.{grouped};

use crate::knowledge::Knowledge;
use cargo_platform::{Cfg, CfgExpr, Fold, fold_expression};
use std::alloc::{AllocError, Global};
use std::ops::ControlFlow;

/// Returns what remains of the expression: it has the same truth as `e` over each possible set of facts, and contains
/// no name or pair that is known.
///
/// It is a literal if `decide` returns a truth, and otherwise `e` without the members that are known. A group with one
/// remaining member is replaced by that member. The remaining names and pairs are in the order of `e`, with their raw
/// marks. The result is well-formed if `e` is, so that its text can be parsed back. Fails only if an allocation fails.
pub fn residual<K: Knowledge>(alloc: Global, e: &CfgExpr, known: &K) -> Result<CfgExpr, AllocError>
    // The result leaves out what is known, as the definition says.
    ensures exact { IfOk result (λ r. tree_of r ≡ residual_tree (K.told known.now) (tree_of e.now)) }
    // On each possible target, the residual has the same truth as the whole condition.
    ensures sound { (s : FactSet) → K.allows known.now s
        → IfOk result (λ r. truth s (tree_of r) ≡ truth s (tree_of e.now)) }
    // The residual is a literal exactly if the whole condition is decided, and has its truth.
    ensures decided { IfOk result (λ r. literal_truth (tree_of r) ≡ kleene (K.told known.now) (tree_of e.now)) }
    // Otherwise it has only names and pairs that are open, no literal inside, and no group of fewer than two members.
    ensures open { IfOk result (λ r. IsLiteralOrOpen (K.told known.now) (tree_of r)) }
    // Its names and pairs occur in the whole condition, in the same order.
    ensures in_order { IfOk result (λ r. IsSubsequence (values (tree_of r)) (values (tree_of e.now))) }
    // It is well-formed if the whole condition is, and neither larger nor deeper.
    ensures well_formed { IsWellFormed (tree_of e.now) → IfOk result (λ r. IsWellFormed (tree_of r)) }
    ensures no_larger { IfOk result (λ r. size (tree_of r) ≤ size (tree_of e.now)) }
    ensures no_deeper { IfOk result (λ r. depth (tree_of r) ≤ depth (tree_of e.now)) }
{
    fold_expression(alloc, e, &WhatIsLeft { alloc, known })
}

/// Computes the residual of an expression, part by part.
#[derive(Drop)]
struct WhatIsLeft<'a, K> {
    alloc: Global,
    known: &'a K,
}

impl<'a, K: Knowledge> Fold for WhatIsLeft<'a, K> {
    ghost use Rattle.partial_facts.specs.Inside.Reducing.{IsLeftOf};

    type Part = CfgExpr;

    /// The residuals of the members that are not literals.
    type Members = Vec<CfgExpr>;

    ghost makes = { λ r e part. tree_of part ≡ residual_tree (K.told r.known.now) e };

    ghost gathers = { λ r neutral es left. IsLeftOf (K.told r.known.now) neutral es (map tree_of left.items) };

    fn value(&self, c: &Cfg) -> Result<CfgExpr, AllocError> {
        match self.known.tells(c) {
            Some(truth) => Ok(literal(truth)),
            None => Ok(CfgExpr::Value(c.clone(self.alloc)?)),
        }
    }

    fn literal(&self, truth: bool) -> CfgExpr {
        literal(truth)
    }

    fn negation(&self, part: CfgExpr) -> Result<CfgExpr, AllocError> {
        negated(self.alloc, part)
    }

    fn no_members(&self, _neutral: bool) -> Vec<CfgExpr> {
        Vec::new(self.alloc)
    }

    /// Adds a member, unless it is a literal: that is skipped, or it decides the group.
    fn add(
        &self,
        neutral: bool,
        so_far: Vec<CfgExpr>,
        part: CfgExpr,
    ) -> Result<ControlFlow<CfgExpr, Vec<CfgExpr>>, AllocError> {
        match literal_truth(&part) {
            None => Ok(ControlFlow::Continue(with_member(so_far, part)?)),
            Some(truth) => {
                if truth == neutral {
                    Ok(ControlFlow::Continue(so_far))
                } else {
                    Ok(ControlFlow::Break(part))
                }
            }
        }
    }

    fn group(&self, neutral: bool, members: Vec<CfgExpr>) -> CfgExpr {
        group_of(neutral, members)
    }
}

/// Returns the truth of a literal.
fn literal_truth(e: &CfgExpr) -> Option<bool>
    ensures { result ≡ literal_truth (tree_of e.now) }
{
    match e {
        CfgExpr::True => Some(true),
        CfgExpr::False => Some(false),
        _ => None,
    }
}

/// Appends a member. Drops all members if the allocation fails.
fn with_member(mut members: Vec<CfgExpr>, member: CfgExpr) -> Result<Vec<CfgExpr>, AllocError>
    ensures { IfOk result (λ more. map tree_of more.items ≡ map tree_of members.items ++ tree_of member ∷ []) }
{
    members.push(member)?;
    Ok(members)
}

/// Returns the literal with this truth.
pub fn literal(truth: bool) -> CfgExpr
    ensures { tree_of result ≡ literal truth }
{
    if truth { CfgExpr::True } else { CfgExpr::False }
}

/// Returns the negation, which for a literal is the other literal. Drops the expression if the allocation fails.
fn negated(alloc: Global, e: CfgExpr) -> Result<CfgExpr, AllocError>
    ensures { IfOk result (λ r. tree_of r ≡ negation (tree_of e)) }
{
    match &e {
        CfgExpr::True => Ok(CfgExpr::False),
        CfgExpr::False => Ok(CfgExpr::True),
        _ => Ok(CfgExpr::Not(Box::new(alloc, e)?)),
    }
}

/// Returns the group of the members, by its neutral truth, or the only member if there is one.
fn group_of(neutral: bool, mut members: Vec<CfgExpr>) -> CfgExpr
    ensures { tree_of result ≡ group (literal neutral) (grouped neutral) (trees_of (map tree_of members.items)) }
{
    if members.len() > 1 {
        return if neutral {
            CfgExpr::All(members)
        } else {
            CfgExpr::Any(members)
        };
    }
    match members.pop() {
        Some(only) => only,
        None => literal(neutral),
    }
}
