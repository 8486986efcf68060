//! A known target of which some facts are open.

use crate::known::KnownTarget;
use crate::walk::is_open;
use cargo_platform::{Cfg, Facts};
use partial_facts::Knowledge;

/// A known target whose facts of some names and keys are open, since flags and profiles change them.
///
/// A name in `open_keys` leaves open whether the name alone is a fact, and each value of it as a key. All other facts
/// are known. So `decide` and `residual` of `partial_facts` say what depends on `target_feature`, `panic` or a custom
/// name.
#[derive(Clone, Copy, Drop)]
pub struct PartialTarget<'a> {
    pub target: KnownTarget,
    pub open_keys: &'a [&'a str],
}

impl<'a> Knowledge for PartialTarget<'a> {
    ghost use Rattle.partial_facts.specs.Partly.{names_of};
    ghost use Rattle.known_targets.specs.Sets.{place};
    ghost use Rattle.known_targets.specs.Table.{target_facts};
    ghost use Rattle.known_targets.specs.Open.{open_told, IsSameButOpen, open_possible, open_sound};

    // A partial target allows the sets of facts that differ from the target's only in open facts.
    ghost allows = { λ k s. IsSameButOpen (target_facts (place k.target)) (names_of k.open_keys.now) s };

    ghost example = { λ k. target_facts (place k.target) };

    // It decides each pair that is not open, by whether the target has it.
    ghost told = { λ k p. open_told (target_facts (place k.target)) (names_of k.open_keys.now) p };

    fn tells(&self, c: &Cfg) -> Option<bool> {
        if is_open(self.open_keys, c) {
            None
        } else {
            Some(self.target.holds(c))
        }
    }

    ghost possible = { λ k. open_possible (target_facts (place k.target)) (names_of k.open_keys.now) };

    ghost sound = { λ k s p is. open_sound (target_facts (place k.target)) (names_of k.open_keys.now) s p is };
}
