//! The targets on which an expression is true, in one walk.

ghost use Rattle.std.specs.Prelude.{◌≡◌, ◌<◌, ℕ, IfOk};
ghost use Rattle.cargo_platform.specs.Trees.{Value, value_of, tree_of};
ghost use Rattle.cargo_platform.specs.Facts.{pair_of};
ghost use Rattle.partial_facts.specs.Partly.{is_named, names_of};
ghost use Rattle.known_targets.specs.Bits.{has};
ghost use Rattle.known_targets.specs.Rows.{keys_of};
ghost use Rattle.known_targets.specs.Groups.{both, IsTrueAt, AreBounds};

use crate::open_names::OpenNames;
use crate::rows::{Key, targets_with};
use crate::table::COUNT;
use crate::target_set::TargetSet;
use cargo_platform::{Cfg, CfgExpr, Fold, fold_expression};
use std::alloc::{AllocError, Global};
use std::ops::ControlFlow;

/// Returns the targets on which an expression may be true if `unknown`, and otherwise those on which it is certainly
/// true. A target may have a fact of an open name or key, or lack it.
pub fn true_at(
    alloc: Global,
    keys: &[Key],
    open_keys: &[&str],
    unknown: bool,
    e: &CfgExpr,
) -> Result<TargetSet, AllocError>
    ensures { IfOk result (IsTrueAt (keys_of keys.now) (names_of open_keys.now) unknown (tree_of e.now)) }
{
    let open = OpenNames::new(alloc, open_keys)?;
    let bounds = fold_expression(alloc, e, &AtTargets { keys, open: &open })?;
    Ok(if unknown {
        bounds.possible
    } else {
        bounds.certain
    })
}

/// The targets on which an expression is true whatever the open facts are, and those at which it may be.
#[derive(Clone, Copy, Drop)]
pub struct Bounds {
    pub certain: TargetSet,
    pub possible: TargetSet,
}

/// The targets of the table, whose facts of some names and keys are open.
#[derive(Clone, Copy, Drop)]
struct AtTargets<'t, 'a> {
    keys: &'t [Key],
    open: &'t OpenNames<'a>,
}

impl<'t, 'a> Fold for AtTargets<'t, 'a> {
    ghost use Rattle.cargo_platform.specs.Walk.{list_tree};

    type Part = Bounds;

    /// The bounds of the group so far.
    type Members = Bounds;

    ghost makes = { λ t e bounds. AreBounds (keys_of t.keys.now) (names_of t.open.now.names.now) e bounds };

    ghost gathers = { λ t neutral es bounds.
        AreBounds (keys_of t.keys.now) (names_of t.open.now.names.now) (list_tree neutral es) bounds };

    fn value(&self, c: &Cfg) -> Result<Bounds, AllocError> {
        Ok(told_to_have(self.keys, self.open, c))
    }

    fn literal(&self, truth: bool) -> Bounds {
        all_or_none(truth)
    }

    fn negation(&self, part: Bounds) -> Result<Bounds, AllocError> {
        Ok(Bounds {
            certain: part.possible.complement(),
            possible: part.certain.complement(),
        })
    }

    fn no_members(&self, neutral: bool) -> Bounds {
        all_or_none(neutral)
    }

    fn add(
        &self,
        neutral: bool,
        so_far: Bounds,
        part: Bounds,
    ) -> Result<ControlFlow<Bounds, Bounds>, AllocError> {
        Ok(ControlFlow::Continue(Bounds {
            certain: joined(neutral, so_far.certain, part.certain),
            possible: joined(neutral, so_far.possible, part.possible),
        }))
    }

    fn group(&self, _neutral: bool, members: Bounds) -> Bounds {
        members
    }
}

/// Returns all targets or none, for certain.
fn all_or_none(are_in: bool) -> Bounds
    ensures certain { (k : ℕ) → k < COUNT → has result.certain.words k ≡ are_in }
    ensures possible { (k : ℕ) → k < COUNT → has result.possible.words k ≡ are_in }
{
    let set = if are_in {
        TargetSet::all()
    } else {
        TargetSet::none()
    };
    Bounds {
        certain: set,
        possible: set,
    }
}

/// Returns the targets that have the fact for certain, and those that may have it. If it is open, any target may.
fn told_to_have(keys: &[Key], open: &OpenNames<'_>, c: &Cfg) -> Bounds
    ensures { AreBounds (keys_of keys.now) (names_of open.now.names.now) (Value (value_of c.now)) result }
{
    if open.has(c) {
        return Bounds {
            certain: TargetSet::none(),
            possible: TargetSet::all(),
        };
    }
    let set = targets_with(keys, c);
    Bounds {
        certain: set,
        possible: set,
    }
}

/// Returns whether the name or key is among these.
pub fn is_open(open_keys: &[&str], c: &Cfg) -> bool
    ensures { result ≡ is_named (pair_of (value_of c.now)).name (names_of open_keys.now) }
{
    match c {
        Cfg::Name(name) | Cfg::KeyPair(name, _) => {
            for text in open_keys {
                if name.as_str() == *text {
                    return true;
                }
            }
            false
        }
    }
}

/// Returns the targets on which a group with one more member is true.
fn joined(neutral: bool, so_far: TargetSet, set: TargetSet) -> TargetSet
    ensures { (k : ℕ) → k < COUNT → has result.words k ≡ both neutral (has so_far.words k) (has set.words k) }
{
    if neutral {
        so_far.intersection(set)
    } else {
        so_far.union(set)
    }
}
