//! Equality, order and hash of platforms. They compare keys.

ghost use Rattle.std.specs.Prelude.{refl};
ghost use Rattle.std.specs.Cmp.{Equal-is, eq_by_cmp_equiv, on_equiv, on_total, partial_equiv_from_equiv};
ghost use Rattle.std.specs.Cmp.{partial_order_from_total};
ghost use Rattle.std.specs.Ordering.{as_partial_cmp, eq_by_cmp, on};
ghost use Rattle.cargo_platform.specs.Trees.{condition_of};
ghost use Rattle.cargo_platform.specs.Key.{condition_cmp};
ghost use Rattle.cargo_platform.specs.OrderLaws.{condition_total};
ghost use Rattle.cargo_platform.specs.Hashing.{condition_hash, condition_alike};

use crate::Platform;
use std::cmp::Ordering;
use std::hash::{Hash, Hasher};

impl PartialEq for Platform {
    // Equality, order and hash compare keys: values without their raw marks. The order is total.
    ghost eq = { on condition_of (eq_by_cmp condition_cmp) };

    ghost laws = { partial_equiv_from_equiv (on_equiv condition_of (eq_by_cmp_equiv condition_total)) };

    #[tactic(auto, using(crate::proofs::Texts::texts))]
    fn eq(&self, other: &Platform) -> bool {
        match (self, other) {
            (Platform::Name(a), Platform::Name(b)) => a == b,
            (Platform::Cfg(a), Platform::Cfg(b)) => a == b,
            (Platform::Name(_), Platform::Cfg(_)) | (Platform::Cfg(_), Platform::Name(_)) => false,
        }
    }
}

impl Eq for Platform {
    ghost laws = { on_equiv condition_of (eq_by_cmp_equiv condition_total) };
}

impl PartialOrd for Platform {
    ghost partial_cmp = { as_partial_cmp (on condition_of condition_cmp) };

    ghost laws = { partial_order_from_total (on_total condition_of condition_total) };

    fn partial_cmp(&self, other: &Platform) -> Option<Ordering> {
        Some(self.cmp(other))
    }
}

impl Ord for Platform {
    // Equality, order and hash compare keys: values without their raw marks. The order is total.
    ghost cmp = { on condition_of condition_cmp };

    ghost total = { on_total condition_of condition_total };

    ghost matches_partial_cmp = { λ a b. refl };

    ghost matches_eq = { λ a b. refl };

    fn cmp(&self, other: &Platform) -> Ordering {
        match (self, other) {
            (Platform::Name(a), Platform::Name(b)) => a.cmp(b),
            (Platform::Name(_), Platform::Cfg(_)) => Ordering::Less,
            (Platform::Cfg(_), Platform::Name(_)) => Ordering::Greater,
            (Platform::Cfg(a), Platform::Cfg(b)) => a.cmp(b),
        }
    }
}

impl Hash for Platform {
    // Equality, order and hash compare keys: values without their raw marks. The order is total.
    ghost hash_input = { λ p. condition_hash (condition_of p) };

    ghost respects_eq = { λ a b same. condition_alike (condition_of a) (condition_of b)
        ((Equal-is (condition_cmp (condition_of a) (condition_of b))).0 same) };

    fn hash<H: Hasher>(&self, state: &mut H) {
        match self {
            Platform::Name(name) => {
                state.write_u8(0);
                name.hash(state);
            }
            Platform::Cfg(e) => {
                state.write_u8(1);
                e.hash(state);
            }
        }
    }
}
