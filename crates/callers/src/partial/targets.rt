//! The knowledge about a target that is one of several.

ghost use Rattle.std.specs.Prelude.{◌≡◌, ◌∷◌, Contains, IfSome};
ghost use Rattle.cargo_platform.specs.Trees.{tree_of};
ghost use Rattle.cargo_platform.specs.Facts.{FactSet, truth};
ghost use Rattle.partial_facts.specs.Kleene.{kleene};
ghost use Rattle.callers.specs.Targets.{set_of, sets_of, agreed_on};

use cargo_platform::{Cfg, CfgExpr, Facts, Listed};
use partial_facts::{Knowledge, decide};

/// A target that has the facts of `first`, or those of one of `others`.
#[derive(Drop)]
pub struct OneOf<'a> {
    pub first: &'a [Cfg],
    pub others: &'a [&'a [Cfg]],
}

impl<'a> Knowledge for OneOf<'a> {
    ghost use Rattle.callers.specs.Targets.{first_contained, agreed_sound};

    ghost allows = { λ k s. Contains (set_of k.first.now ∷ sets_of k.others.now) s };

    ghost example = { λ k. set_of k.first.now };

    ghost told = { λ k p. agreed_on (set_of k.first.now) (sets_of k.others.now) p };

    fn tells(&self, c: &Cfg) -> Option<bool> {
        let first = Listed(self.first).holds(c);
        for facts in self.others {
            if Listed(facts).holds(c) != first {
                return None;
            }
        }
        Some(first)
    }

    ghost possible = { λ k. first_contained (set_of k.first.now) (sets_of k.others.now) };

    ghost sound = { λ k s p is. agreed_sound (set_of k.first.now) (sets_of k.others.now) s p is };
}

/// Returns the truth value of the condition on all the targets, if it follows from what their facts have in common.
pub fn for_all(e: &CfgExpr, targets: &OneOf<'_>) -> Option<bool>
    ensures exact { result
        ≡ kleene (agreed_on (set_of targets.now.first.now) (sets_of targets.now.others.now)) (tree_of e.now) }
    ensures sound { (s : FactSet) → Contains (set_of targets.now.first.now ∷ sets_of targets.now.others.now) s
        → IfSome result (λ b. truth s (tree_of e.now) ≡ b) }
{
    decide(e, targets)
}
