//! Decides conditions by the flags of a command line.

ghost use Rattle.std.specs.Prelude.{◌≡◌, [], IfSome, map};
ghost use Rattle.cargo_platform.specs.Trees.{tree_of, value_of};
ghost use Rattle.cargo_platform.specs.Facts.{FactSet, fact_set, truth};
ghost use Rattle.partial_facts.specs.Kleene.{kleene};
ghost use Rattle.partial_facts.specs.OneValued.{IsOneValued, one_valued_told};

use cargo_platform::{Cfg, CfgExpr};
use partial_facts::{OneValued, decide};

/// Returns the truth of the condition on the targets that have these facts and no other value of a key in `single`, if
/// it is the same on all of them. A flag sets a fact, such as `target_os = "linux"`.
pub fn truth_under_flags(e: &CfgExpr, flags: &[Cfg], single: &[&str]) -> Option<bool>
    ensures exact { result
        ≡ kleene (one_valued_told (map value_of flags.now) [] (map (λ t. t.now) single.now)) (tree_of e.now) }
    ensures sound { (s : FactSet)
        → IsOneValued (fact_set (map value_of flags.now)) [] (map (λ t. t.now) single.now) s
        → IfSome result (λ b. truth s (tree_of e.now) ≡ b) }
{
    let known = OneValued {
        facts: flags,
        complete: &[],
        single,
    };
    decide(e, &known)
}
