//! Evaluates a key that is written in the code.

ghost use Rattle.std.specs.Prelude.{◌≡◌, IfOk, codes, map};
ghost use Rattle.std.specs.FinSet.{contains};
ghost use Rattle.cargo_platform.specs.Trees.{value_of};
ghost use Rattle.cargo_platform.specs.Facts.{fact_set};
ghost use Rattle.cargo_platform.specs.Holders.{name_fact};

use cargo_platform::{Cfg, CfgExpr};
use std::alloc::{AllocError, Global};

/// Returns whether `cfg(unix)` is true: whether the name `unix` is one of the facts.
pub fn is_unix(alloc: Global, facts: &[Cfg]) -> Result<bool, AllocError>
    ensures { IfOk result (λ yes. yes ≡ contains (fact_set (map value_of facts.now)) (name_fact (codes "unix"))) }
{
    CfgExpr::matches_key(alloc, "cfg(unix)", facts)
}
