//! A holder of facts that are not kept in a list.

ghost use Rattle.std.specs.Prelude.{codes, string_bytes};
ghost use Rattle.std.specs.FinSet.{union};
ghost use Rattle.cargo_platform.specs.Holders.{name_fact, pair_fact, only, where_set};

use cargo_platform::{Cfg, Facts};

/// The facts of a target: its system, which is the value of `target_os`, and whether the name `unix` is a fact.
#[derive(Debug, Drop)]
pub struct System {
    pub name: String,
    pub is_unix: bool,
}

impl Facts for System {
    ghost meant = { λ system. union (where_set system.is_unix (only (name_fact (codes "unix"))))
        (only (pair_fact (codes "target_os") (string_bytes system.name))) };

    fn holds(&self, c: &Cfg) -> bool {
        match c {
            Cfg::Name(name) => self.is_unix && name.eq_text("unix"),
            Cfg::KeyPair(key, value) => {
                key.eq_text("target_os") && value.as_str() == self.name.as_str()
            }
        }
    }
}
