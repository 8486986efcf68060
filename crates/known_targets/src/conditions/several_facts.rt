//! Conditions of several facts that are true on the targets of a set.

ghost use Rattle.std.specs.Prelude.{IfOk, IfSome};
ghost use Rattle.cargo_platform.specs.Trees.{condition_of};
ghost use Rattle.known_targets.specs.Exact.{HoldsExactly};

use super::checked::exactly;
use crate::{COUNT, KnownFact, TargetSet};
use cargo_platform::{CfgExpr, Platform};
use std::alloc::{AllocError, Global};

/// A fact by its index, or `not(..)` of it.
#[derive(Clone, Copy, Drop)]
struct Literal {
    place: usize,
    is_negated: bool,
}

impl Literal {
    /// Returns the targets on which it is true.
    fn targets(self, facts: &[KnownFact]) -> TargetSet {
        match facts.get(self.place) {
            Some(known) if self.is_negated => known.targets.complement(),
            Some(known) => known.targets,
            None => TargetSet::none(),
        }
    }

    /// Returns the literal as an expression.
    fn expression(self, alloc: Global, facts: &[KnownFact]) -> Result<CfgExpr, AllocError> {
        let Some(known) = facts.get(self.place) else {
            return Ok(CfgExpr::False);
        };
        let fact = CfgExpr::Value(known.fact.clone(alloc)?);
        if self.is_negated {
            Ok(CfgExpr::Not(Box::new(alloc, fact)?))
        } else {
            Ok(fact)
        }
    }
}

/// Returns a condition of some of these facts that is true on exactly the targets of the set, if there is one.
///
/// It is an `any(..)` of parts, each an `all(..)` of facts and `not(..)` of facts. A part is made for targets that no
/// part has yet. It takes the fact, or its `not(..)`, that keeps most of these and leaves out most targets outside the
/// set, the first of equals, until none outside is left. Then what is not needed is dropped. Fails only if an
/// allocation fails.
pub fn covering(
    alloc: Global,
    facts: &[KnownFact],
    set: TargetSet,
) -> Result<Option<Platform>, AllocError>
    // A condition that is returned is true on each target of the set, and on no other known target.
    ensures { IfOk result (λ p. IfSome p (λ p. HoldsExactly set (condition_of p))) }
{
    let mut parts = Vec::new(alloc);
    let mut left = set;
    for _ in 0..COUNT {
        if left.is_empty() {
            break;
        }
        let Some(literals) = part_for(alloc, facts, set, left)? else {
            return Ok(None);
        };
        left = left.intersection(held_by(facts, &literals).complement());
        parts.push(part_of(alloc, facts, &literals)?)?;
    }
    let expression = joined(parts);
    exactly(alloc, Platform::Cfg(expression), set)
}

/// Returns the only one of the parts, or the `any(..)` of them.
fn joined(parts: Vec<CfgExpr>) -> CfgExpr {
    let mut parts = parts;
    if parts.len() == 1 {
        if let Some(part) = parts.pop() {
            return part;
        }
    }
    CfgExpr::Any(parts)
}

/// Returns the only one of the literals, or the `all(..)` of them.
fn part_of(
    alloc: Global,
    facts: &[KnownFact],
    literals: &[Literal],
) -> Result<CfgExpr, AllocError> {
    if literals.len() == 1 {
        if let Some(literal) = literals.first() {
            return literal.expression(alloc, facts);
        }
    }
    let mut members = Vec::new(alloc);
    for literal in literals {
        members.push(literal.expression(alloc, facts)?)?;
    }
    Ok(CfgExpr::All(members))
}

/// Returns the targets on which all of the literals are true.
fn held_by(facts: &[KnownFact], literals: &[Literal]) -> TargetSet {
    let mut held = TargetSet::all();
    for literal in literals {
        held = held.intersection(literal.targets(facts));
    }
    held
}

/// Finds literals that are all true on some of the targets that are left, and on none outside the set.
fn part_for(
    alloc: Global,
    facts: &[KnownFact],
    set: TargetSet,
    left: TargetSet,
) -> Result<Option<Vec<Literal>>, AllocError> {
    let outside = set.complement();
    let mut literals = Vec::new(alloc);
    let mut held = TargetSet::all();
    for _ in 0..facts.len() {
        if held.intersection(outside).is_empty() {
            break;
        }
        let kept = held.intersection(left);
        let Some(best) = best_literal(facts, kept, held.intersection(outside)) else {
            return Ok(None);
        };
        literals.push(best)?;
        held = held.intersection(best.targets(facts));
    }
    if !held.intersection(outside).is_empty() {
        return Ok(None);
    }
    Ok(Some(without_needless(alloc, facts, literals, outside)?))
}

/// Returns the literal that keeps most of some targets times leaves out most of others; `None` if none does both.
fn best_literal(facts: &[KnownFact], kept: TargetSet, others: TargetSet) -> Option<Literal> {
    let mut best = None;
    let mut most: usize = 0;
    for place in 0..facts.len() {
        for is_negated in [false, true] {
            let literal = Literal { place, is_negated };
            let targets = literal.targets(facts);
            let left_out = others.intersection(targets.complement());
            if left_out.is_empty() {
                continue;
            }
            let score = kept
                .intersection(targets)
                .len()
                .saturating_mul(left_out.len());
            if score > most {
                most = score;
                best = Some(literal);
            }
        }
    }
    best
}

/// Returns the literals without those that are not needed to leave out these targets, the first ones first.
fn without_needless(
    alloc: Global,
    facts: &[KnownFact],
    literals: Vec<Literal>,
    outside: TargetSet,
) -> Result<Vec<Literal>, AllocError> {
    let mut needed = Vec::new(alloc);
    for i in 0..literals.len() {
        let rest = held_by(facts, &literals[i + 1..]);
        let without = rest.intersection(held_by(facts, &needed));
        if !without.intersection(outside).is_empty() {
            needed.push(literals[i])?;
        }
    }
    Ok(needed)
}
