//! Decides which dependencies are covered by another one.

ghost use Rattle.std.specs.Prelude.{◌≡◌, true, false, IfOk};
ghost use Rattle.cargo_platform.specs.Trees.{tree_of, tree, none};
ghost use Rattle.cargo_platform.specs.Facts.{truth};
ghost use Rattle.callers.specs.Audits.{SaysCover};

use cargo_platform::{Cfg, CfgExpr};
use exact_answers::{FactConstraints, MustHold, implies};
use std::alloc::{AllocError, Global};

/// The result of comparing a condition with one that is audited already.
#[derive(Drop)]
pub enum Cover {
    /// Whatever selects the first one also selects the audited one.
    Covered,
    /// These facts select only the first one.
    Missed(Vec<Cfg>),
    /// The decision took too many case splits.
    Unclear,
}

/// Decides whether an audit of what `audited` selects covers what `e` selects.
pub fn is_covered<'a>(
    alloc: Global,
    e: &'a CfgExpr,
    audited: &'a CfgExpr,
    known: &'a FactConstraints<'a>,
    budget: u64,
) -> Result<Cover, AllocError>
    ensures { IfOk result (λ r. SaysCover r known.now (tree (tree_of e.now) (tree (tree_of audited.now) none))
        (λ s. (truth s (tree_of e.now) ≡ true) × (truth s (tree_of audited.now) ≡ false))
        (λ s. truth s (tree_of e.now) ≡ true → truth s (tree_of audited.now) ≡ true)) }
{
    match implies(alloc, e, audited, known, budget)? {
        MustHold::Yes => Ok(Cover::Covered),
        MustHold::No(facts) => Ok(Cover::Missed(facts)),
        MustHold::Undecided => Ok(Cover::Unclear),
    }
}
