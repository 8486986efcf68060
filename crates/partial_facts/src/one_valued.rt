//! The facts of a target as far as they are listed, if some keys have at most one value.

ghost use Rattle.cargo_platform.specs.Trees.{value_of};

use crate::knowledge::{Knowledge, Partial};
use crate::names::{has_value, is_named};
use cargo_platform::Cfg;

/// The keys that rustc sets to at most one value. `target_family` is not among them, since some targets have two
/// families.
pub const ONE_VALUED: &[&str] = &[
    "panic",
    "target_abi",
    "target_arch",
    "target_endian",
    "target_env",
    "target_os",
    "target_pointer_width",
    "target_vendor",
];

/// The facts of a target as far as they are listed, as in `Partial`, but a key in `single` has at most one value. If
/// `facts` lists one of its values, it has no other, and if `facts` lists several, it has exactly those.
///
/// So `target_os` in `single` and `target_os = "linux"` in `facts` rule out `target_os = "windows"`, though not the
/// name `target_os` alone. If no `target_os` is listed, each value of it is open. `ONE_VALUED` has rustc's keys. Raw
/// marks play no part.
#[derive(Drop)]
pub struct OneValued<'a> {
    pub facts: &'a [Cfg],
    pub complete: &'a [&'a str],
    pub single: &'a [&'a str],
}

impl<'a> Knowledge for OneValued<'a> {
    ghost use Rattle.std.specs.Prelude.{map};
    ghost use Rattle.cargo_platform.specs.Facts.{fact_set};
    ghost use Rattle.partial_facts.specs.OneValued.{IsOneValued, one_valued_told};
    ghost use Rattle.partial_facts.specs.OneValued.{one_valued_possible, one_valued_sound};

    // It allows the sets that `Partial` does, with at most one value of a key in `single`, or exactly the listed values
    // if several are listed.
    ghost allows = { λ k s. IsOneValued (fact_set (map value_of k.facts.now)) (map (λ t. t.now) k.complete.now)
        (map (λ t. t.now) k.single.now) s };

    ghost example = { λ k. fact_set (map value_of k.facts.now) };

    // It decides a pair if all allowed sets agree on it.
    ghost told = { λ k p. one_valued_told (map value_of k.facts.now) (map (λ t. t.now) k.complete.now)
        (map (λ t. t.now) k.single.now) p };

    fn tells(&self, c: &Cfg) -> Option<bool> {
        let partial = Partial {
            facts: self.facts,
            complete: self.complete,
        };
        match partial.tells(c) {
            Some(holds) => Some(holds),
            None => match c {
                Cfg::KeyPair(key, _) if is_named(key, self.single) && has_value(self.facts, key) =>
                    Some(false),
                _ => None,
            },
        }
    }

    ghost possible = { λ k. one_valued_possible (fact_set (map value_of k.facts.now)) (map (λ t. t.now) k.complete.now)
        (map (λ t. t.now) k.single.now) };

    ghost sound = { λ k s p is. one_valued_sound (map value_of k.facts.now) (map (λ t. t.now) k.complete.now)
        (map (λ t. t.now) k.single.now) s p is };
}
