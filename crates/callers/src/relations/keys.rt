//! Decides whether a dependency may move from one key to another.

ghost use Rattle.std.specs.Prelude.{◌≡◌, [], ◌∷◌, IfOk};
ghost use Rattle.cargo_platform.specs.Trees.{condition_of};
ghost use Rattle.cargo_platform.specs.Facts.{IsTrueCondition};
ghost use Rattle.exact_answers.specs.Asking.{NeedsMore};
ghost use Rattle.exact_answers.specs.Targets.{ForEach, IsExample, asked_trees};

use cargo_platform::Platform;
use exact_answers::{FactConstraints, PossibleTarget, Validity, implies_platform};
use std::alloc::{AllocError, Global};

/// Whether a dependency may be moved.
#[derive(Drop)]
pub enum Move {
    /// Each possible target that had it keeps it.
    Safe,
    /// This target loses it.
    Loses(PossibleTarget),
    /// The decision took too many case splits.
    Unclear,
}

/// Decides whether each possible target that selects the key `from` also selects the key `to`.
pub fn may_move<'a>(
    alloc: Global,
    from: &'a Platform,
    to: &'a Platform,
    known: &'a FactConstraints<'a>,
    budget: u64,
) -> Result<Move, AllocError>
    ensures safe { IfOk result (λ r. r ≡ Move.Safe → ForEach known.now
        (λ name s. IsTrueCondition name s (condition_of from.now) → IsTrueCondition name s (condition_of to.now))) }
    ensures loses { IfOk result (λ r. (t : PossibleTarget) → r ≡ Move.Loses t
        → IsExample t known.now (condition_of from.now ∷ condition_of to.now ∷ []) (λ name s.
        IsTrueCondition name s (condition_of from.now) × (IsTrueCondition name s (condition_of to.now) → ⊥))) }
    ensures unclear { IfOk result (λ r. r ≡ Move.Unclear
        → NeedsMore known.now (asked_trees (condition_of from.now ∷ condition_of to.now ∷ [])) budget) }
{
    match implies_platform(alloc, from, to, known, budget)? {
        Validity::Yes => Ok(Move::Safe),
        Validity::No(target) => Ok(Move::Loses(target)),
        Validity::Undecided => Ok(Move::Unclear),
    }
}
