//! Evaluates a condition on a target, from the output of `rustc --print cfg` for it.

ghost use Rattle.std.specs.Prelude.{◌≡◌, List, IfOk};
ghost use Rattle.cargo_platform.specs.Trees.{CfgValue, tree_of};
ghost use Rattle.cargo_platform.specs.Lines.{lines_of, line_at};
ghost use Rattle.cargo_platform.specs.Facts.{fact_set, truth};
ghost use Rattle.cargo_platform.specs.FactLines.{SpellFacts, IsFirstNoFact, IfLine};
ghost use Rattle.cargo_platform.specs.Faults.{IsRefused};
ghost use Rattle.cargo_platform.specs.Spelling.{Values};
ghost use Rattle.cargo_platform.specs.Errors.{orig_of, fault_in};

use cargo_platform::{CfgExpr, FactsError, read_facts};
use std::alloc::Global;

/// Returns whether the condition is true over the facts in the printed lines. The error is that of the first line that
/// is not a fact, with the number of that line.
pub fn holds_for(alloc: Global, condition: &CfgExpr, printed: &str) -> Result<bool, FactsError>
    ensures holds { IfOk result (λ yes. (facts : List CfgValue) × SpellFacts (lines_of printed.now) facts
        × (yes ≡ truth (fact_set facts) (tree_of condition.now))) }
    ensures line { IfLine result (λ n _. IsFirstNoFact (lines_of printed.now) n) }
    ensures orig { IfLine result (λ n e. orig_of e ≡ line_at (lines_of printed.now) n) }
    ensures fault { IfLine result (λ n e. IsRefused Values (line_at (lines_of printed.now) n) (fault_in e)) }
{
    let facts = read_facts(alloc, printed)?;
    Ok(condition.matches(&facts))
}
