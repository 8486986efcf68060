//! Decides which dependencies an audit may leave out.

ghost use Rattle.std.specs.Prelude.{◌≡◌, ◌↔◌, IsTrue, Some, false};
ghost use Rattle.cargo_platform.specs.Trees.{tree_of};
ghost use Rattle.cargo_platform.specs.Facts.{FactSet, truth};
ghost use Rattle.partial_facts.specs.Kleene.{kleene};

use cargo_platform::CfgExpr;
use partial_facts::{Knowledge, decide};

/// Returns whether an audit may leave out a dependency under this condition: `decide` says no, so that no target that
/// the audit covers selects it.
pub fn may_leave_out<K: Knowledge>(e: &CfgExpr, covered: &K) -> bool
    ensures exact { IsTrue result ↔ (kleene (K.told covered.now) (tree_of e.now) ≡ Some false) }
    ensures sound { IsTrue result → (s : FactSet) → K.allows covered.now s → truth s (tree_of e.now) ≡ false }
{
    match decide(e, covered) {
        Some(truth) => !truth,
        None => false,
    }
}
