//! The targets of a set, in order.

use crate::known::KnownTarget;
use crate::table::COUNT;
use crate::target_set::TargetSet;

/// The targets of a set, in the order of their names. `TargetSet::iter` makes it.
#[derive(Clone, Drop)]
pub struct Targets {
    set: TargetSet,
    next: usize,
}

impl Targets {
    ghost use Rattle.std.specs.Prelude.{◌≡◌};
    ghost use Rattle.known_targets.specs.Sets.{left, members};

    /// Returns all targets of the set.
    pub(crate) fn new(set: TargetSet) -> Targets
        ensures { left result ≡ members set }
    {
        Targets { set, next: 0 }
    }
}

impl Iterator for Targets {
    type Item = KnownTarget;

    ghost use Rattle.std.specs.Iterator.{YieldsFirstBy, item_count};
    ghost use Rattle.known_targets.specs.Sets.{place, left};

    ghost next_gives = { YieldsFirstBy place left };

    ghost remaining = { item_count left };

    fn next(&mut self) -> Option<KnownTarget> {
        'places: while self.next < COUNT {
            let index = self.next;
            self.next += 1;
            if self.set.has(index) {
                return Some(KnownTarget::at(index));
            }
        }
        None
    }
}
