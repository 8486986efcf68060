//! The difference of two sets of targets.

ghost use Rattle.std.specs.Prelude.{◌≡◌, ◌<◌, ◌&&◌, not, ℕ};
ghost use Rattle.known_targets.specs.Sets.{is_member};
ghost use Rattle.known_targets.specs.declared.table.TheConstants.{COUNT};

use known_targets::TargetSet;

/// The targets that are in only one of two sets.
#[derive(Clone, Copy, Drop)]
pub struct Difference {
    /// Those of the second set alone.
    pub gained: TargetSet,
    /// Those of the first set alone.
    pub lost: TargetSet,
}

/// Returns the targets that are in only one of two sets.
pub fn difference_of(old: TargetSet, new: TargetSet) -> Difference
    // A target is gained exactly if it is in the new set and not in the old one.
    ensures gained { (k : ℕ) → k < COUNT → is_member result.gained k ≡ (is_member new k && not (is_member old k)) }
    // A target is lost exactly if it is in the old set and not in the new one.
    ensures lost { (k : ℕ) → k < COUNT → is_member result.lost k ≡ (is_member old k && not (is_member new k)) }
{
    Difference {
        gained: new.intersection(old.complement()),
        lost: old.intersection(new.complement()),
    }
}
