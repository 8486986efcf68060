//! Equality, order and hash of names and pairs. They compare keys: values without their raw marks.

ghost use Rattle.std.specs.Prelude.{refl};
ghost use Rattle.std.specs.Cmp.{eq_by_cmp_equiv, on_equiv, on_total, partial_equiv_from_equiv};
ghost use Rattle.std.specs.Cmp.{partial_order_from_total, Equal-is};
ghost use Rattle.std.specs.Ordering.{as_partial_cmp, eq_by_cmp, on};
ghost use Rattle.cargo_platform.specs.Trees.{name_of, value_of};
ghost use Rattle.cargo_platform.specs.Key.{name_cmp, value_cmp};
ghost use Rattle.cargo_platform.specs.OrderLaws.{name_total, value_total};
ghost use Rattle.cargo_platform.specs.Hashing.{name_hash, value_hash, name_alike, value_alike};

mod expressions;
mod platforms;

use crate::cfg::{Cfg, Ident};
use std::cmp::Ordering;
use std::hash::{Hash, Hasher};

impl PartialEq for Ident {
    // Equality, order and hash compare keys: values without their raw marks. The order is total.
    ghost eq = { on name_of (eq_by_cmp name_cmp) };

    ghost laws = { partial_equiv_from_equiv (on_equiv name_of (eq_by_cmp_equiv name_total)) };

    #[tactic(auto, using(crate::proofs::Texts::texts))]
    fn eq(&self, other: &Ident) -> bool {
        self.name == other.name
    }
}

impl Eq for Ident {
    ghost laws = { on_equiv name_of (eq_by_cmp_equiv name_total) };
}

impl PartialOrd for Ident {
    ghost partial_cmp = { as_partial_cmp (on name_of name_cmp) };

    ghost laws = { partial_order_from_total (on_total name_of name_total) };

    fn partial_cmp(&self, other: &Ident) -> Option<Ordering> {
        Some(self.cmp(other))
    }
}

impl Ord for Ident {
    // Equality, order and hash compare keys: values without their raw marks. The order is total.
    ghost cmp = { on name_of name_cmp };

    ghost total = { on_total name_of name_total };

    ghost matches_partial_cmp = { λ a b. refl };

    ghost matches_eq = { λ a b. refl };

    fn cmp(&self, other: &Ident) -> Ordering {
        self.name.cmp(&other.name)
    }
}

impl Hash for Ident {
    // Equality, order and hash compare keys: values without their raw marks. The order is total.
    ghost hash_input = { λ i. name_hash (name_of i) };

    ghost respects_eq = { λ a b same. name_alike (name_of a) (name_of b)
        ((Equal-is (name_cmp (name_of a) (name_of b))).0 same) };

    fn hash<H: Hasher>(&self, state: &mut H) {
        self.name.hash(state);
    }
}

impl PartialEq for Cfg {
    // Equality, order and hash compare keys: values without their raw marks. The order is total.
    ghost eq = { on value_of (eq_by_cmp value_cmp) };

    ghost laws = { partial_equiv_from_equiv (on_equiv value_of (eq_by_cmp_equiv value_total)) };

    fn eq(&self, other: &Cfg) -> bool {
        match (self, other) {
            (Cfg::Name(a), Cfg::Name(b)) => a == b,
            (Cfg::KeyPair(j, a), Cfg::KeyPair(k, b)) => a == b && j == k,
            (Cfg::Name(_), Cfg::KeyPair(..)) | (Cfg::KeyPair(..), Cfg::Name(_)) => false,
        }
    }
}

impl Eq for Cfg {
    ghost laws = { on_equiv value_of (eq_by_cmp_equiv value_total) };
}

impl PartialOrd for Cfg {
    ghost partial_cmp = { as_partial_cmp (on value_of value_cmp) };

    ghost laws = { partial_order_from_total (on_total value_of value_total) };

    fn partial_cmp(&self, other: &Cfg) -> Option<Ordering> {
        Some(self.cmp(other))
    }
}

impl Ord for Cfg {
    // Equality, order and hash compare keys: values without their raw marks. The order is total.
    ghost cmp = { on value_of value_cmp };

    ghost total = { on_total value_of value_total };

    ghost matches_partial_cmp = { λ a b. refl };

    ghost matches_eq = { λ a b. refl };

    fn cmp(&self, other: &Cfg) -> Ordering {
        match (self, other) {
            (Cfg::Name(a), Cfg::Name(b)) => a.cmp(b),
            (Cfg::Name(_), Cfg::KeyPair(..)) => Ordering::Less,
            (Cfg::KeyPair(..), Cfg::Name(_)) => Ordering::Greater,
            (Cfg::KeyPair(j, a), Cfg::KeyPair(k, b)) => {
                // Testing texts for equality is faster than ordering them.
                if j == k {
                    return a.cmp(b);
                }
                j.cmp(k)
            }
        }
    }
}

impl Hash for Cfg {
    // Equality, order and hash compare keys: values without their raw marks. The order is total.
    ghost hash_input = { λ c. value_hash (value_of c) };

    ghost respects_eq = { λ a b same. value_alike (value_of a) (value_of b)
        ((Equal-is (value_cmp (value_of a) (value_of b))).0 same) };

    fn hash<H: Hasher>(&self, state: &mut H) {
        match self {
            Cfg::Name(name) => {
                state.write_u8(0);
                name.hash(state);
            }
            Cfg::KeyPair(key, value) => {
                state.write_u8(1);
                key.hash(state);
                value.hash(state);
            }
        }
    }
}
