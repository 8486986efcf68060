//! The knowledge of the facts of a target.

ghost use Rattle.std.specs.Prelude.{◌≡◌, Bool, Option, Some, IfSome};
ghost use Rattle.std.specs.FinSet.{contains};
ghost use Rattle.cargo_platform.specs.Trees.{value_of};
ghost use Rattle.cargo_platform.specs.Facts.{Pair, FactSet, pair_of};

use crate::names::is_named;
use cargo_platform::{Cfg, Facts, Listed};

/// The knowledge of a set of facts.
pub trait Knowledge {
    // The sets of facts that are possible.
    ghost allows: { Self → FactSet → Type 0 };

    // One of the possible sets.
    ghost example: { Self → FactSet };

    // What is known of a pair, if anything.
    ghost told: { Self → Pair → Option Bool };

    /// Returns whether the pair of `c`, which is its name or its key and value without the raw mark, is a fact, or
    /// `None` if that is not known.
    fn tells(&self, c: &Cfg) -> Option<bool>
        // The result is what is known of the pair.
        ensures { result ≡ told self.now (pair_of (value_of c.now)) };

    // At least one set is possible.
    ghost possible: { (k : Self) → allows k (example k) };

    // What is known of a pair is true in each possible set.
    ghost sound: { (k : Self) (s : FactSet) (p : Pair) → allows k s → IfSome (told k p) (λ b. contains s p ≡ b) };
}

/// All facts of a target, which a holder represents: each name and pair is known.
#[derive(Drop)]
pub struct Complete<'a, F>(pub &'a F);

impl<'a, F: Facts> Knowledge for Complete<'a, F> {
    ghost use Rattle.std.specs.Prelude.{refl};
    ghost use Rattle.std.proofs.Common.{ap};

    // It allows only the set of its holder.
    ghost allows = { λ k s. s ≡ F.meant k.0.now };

    ghost example = { λ k. F.meant k.0.now };

    // It decides a pair if all allowed sets agree on it.
    ghost told = { λ k p. Some (contains (F.meant k.0.now) p) };

    fn tells(&self, c: &Cfg) -> Option<bool> {
        Some(self.0.holds(c))
    }

    ghost possible = { λ k. refl };

    ghost sound = { λ k s p is. ap (λ t. contains t p) is };
}

/// The facts of a target as far as they are listed. All facts of a name or key in `complete` are in the list, whether
/// the name alone or the key with a value. For any other name or key there may be more facts.
///
/// So `target_os` in `complete` and `target_os = "linux"` in `facts` rule out `target_os = "windows"`, and `unix` in
/// `complete` alone rules out `unix`. Raw marks play no part.
#[derive(Drop)]
pub struct Partial<'a> {
    pub facts: &'a [Cfg],
    pub complete: &'a [&'a str],
}

impl<'a> Knowledge for Partial<'a> {
    ghost use Rattle.std.specs.Prelude.{map};
    ghost use Rattle.cargo_platform.specs.Facts.{fact_set};
    ghost use Rattle.partial_facts.specs.Partly.{IsPartlyKnown, partly_told, partly_possible, partly_sound};

    // It allows the sets that have the listed facts, and no others of complete names and keys.
    ghost allows = { λ k s. IsPartlyKnown (fact_set (map value_of k.facts.now)) (map (λ t. t.now) k.complete.now) s };

    ghost example = { λ k. fact_set (map value_of k.facts.now) };

    // It decides a pair if all allowed sets agree on it.
    ghost told = { λ k p. partly_told (fact_set (map value_of k.facts.now)) (map (λ t. t.now) k.complete.now) p };

    fn tells(&self, c: &Cfg) -> Option<bool> {
        if Listed(self.facts).holds(c) {
            return Some(true);
        }
        match c {
            Cfg::Name(name) | Cfg::KeyPair(name, _) => {
                if is_named(name, self.complete) {
                    Some(false)
                } else {
                    None
                }
            }
        }
    }

    ghost possible = { λ k. partly_possible (fact_set (map value_of k.facts.now)) (map (λ t. t.now) k.complete.now) };

    ghost sound = { λ k s p is.
        partly_sound (fact_set (map value_of k.facts.now)) (map (λ t. t.now) k.complete.now) s p is };
}
