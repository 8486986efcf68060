//! The truth value of an expression, without using stack for its depth.

ghost use Rattle.std.specs.Prelude.{◌≡◌, IfOk};
ghost use Rattle.cargo_platform.specs.Trees.{tree_of};
ghost use Rattle.cargo_platform.specs.Facts.{truth};

use cargo_platform::{Cfg, CfgExpr, Facts, Fold, fold_expression};
use std::alloc::{AllocError, Global};
use std::ops::ControlFlow;

/// Returns whether the expression is true over the set of facts that the holder represents. The groups around a part
/// are kept in memory. Fails only if an allocation fails.
pub fn is_true<F: Facts>(alloc: Global, e: &CfgExpr, facts: &F) -> Result<bool, AllocError>
    ensures { IfOk result (λ b. b ≡ truth (F.meant facts.now) (tree_of e.now)) }
{
    fold_expression(alloc, e, &Evaluation { facts })
}

/// Evaluates each part of an expression over the facts of a holder.
#[derive(Drop)]
struct Evaluation<'a, F> {
    facts: &'a F,
}

impl<'a, F: Facts> Fold for Evaluation<'a, F> {
    ghost use Rattle.cargo_platform.specs.Walk.{list_tree};

    type Part = bool;

    /// No value is kept for the members so far: each has the neutral truth value.
    type Members = ();

    ghost makes = { λ v e is_true. is_true ≡ truth (F.meant v.facts.now) e };

    ghost gathers = { λ v neutral es so_far. truth (F.meant v.facts.now) (list_tree neutral es) ≡ neutral };

    fn value(&self, c: &Cfg) -> Result<bool, AllocError> {
        Ok(self.facts.holds(c))
    }

    fn literal(&self, truth: bool) -> bool {
        truth
    }

    fn negation(&self, part: bool) -> Result<bool, AllocError> {
        Ok(!part)
    }

    fn no_members(&self, _neutral: bool) {}

    /// Adds a member. The first one without the neutral truth value decides the group.
    #[tactic(auto, using(crate::proofs::Truths::one_more, crate::proofs::Truths::settled))]
    fn add(
        &self,
        neutral: bool,
        _so_far: (),
        part: bool,
    ) -> Result<ControlFlow<bool, ()>, AllocError> {
        if part == neutral {
            Ok(ControlFlow::Continue(()))
        } else {
            Ok(ControlFlow::Break(part))
        }
    }

    fn group(&self, neutral: bool, _members: ()) -> bool {
        neutral
    }
}
