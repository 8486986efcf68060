//! A plan that is made before all facts are known, and carried out later.

ghost use Rattle.std.specs.Prelude.{◌≡◌, IfOk, map, string_bytes};
ghost use Rattle.cargo_platform.specs.Trees.{Tree, tree_of, value_of};
ghost use Rattle.cargo_platform.specs.Facts.{FactSet, fact_set, truth};
ghost use Rattle.cargo_platform.specs.Spelling.{Expressions, IsTreeText};
ghost use Rattle.cargo_platform.specs.Faults.{IsRefused};
ghost use Rattle.cargo_platform.specs.Print.{print};
ghost use Rattle.cargo_platform.specs.WellFormed.{IsWellFormed};
ghost use Rattle.cargo_platform.specs.Errors.{IfParse, orig_of, fault_in};
ghost use Rattle.partial_facts.specs.Residual.{residual_tree};

use cargo_platform::{Cfg, CfgExpr, ReadError, laws};
use partial_facts::{Knowledge, residual};
use std::alloc::{AllocError, Global};

/// Returns the residual of the condition as a text, which can be stored.
pub fn plan<K: Knowledge>(alloc: Global, e: &CfgExpr, known: &K) -> Result<String, AllocError>
    requires { IsWellFormed (tree_of e.now) }
    ensures stored { IfOk result
        (λ text. string_bytes text ≡ print (residual_tree (K.told known.now) (tree_of e.now))) }
    ensures asks_the_same { IfOk result (λ text. (d : Tree) × IsTreeText (string_bytes text) d
        × ((s : FactSet) → K.allows known.now s → truth s d ≡ truth s (tree_of e.now))) }
{
    laws::print_spells();
    let left = residual(alloc, e, known)?;
    text_of(alloc, &left)
}

/// Evaluates a stored text over the facts of a target, once they are known.
pub fn matches_plan(alloc: Global, text: &str, facts: &[Cfg]) -> Result<bool, ReadError>
    ensures answer { IfOk result (λ yes. (d : Tree) → IsTreeText text.now d
        → yes ≡ truth (fact_set (map value_of facts.now)) d) }
    ensures orig { IfParse result (λ e. orig_of e ≡ text.now) }
    ensures fault { IfParse result (λ e. IsRefused Expressions text.now (fault_in e)) }
    ensures read { IfParse result (λ _. (d : Tree) → IsTreeText text.now d → ⊥) }
{
    laws::one_text();
    match CfgExpr::from_str(alloc, text) {
        Ok(e) => Ok(e.matches(facts)),
        Err(error) => Err(error),
    }
}

fn text_of(alloc: Global, e: &CfgExpr) -> Result<String, AllocError>
    ensures { IfOk result (λ text. string_bytes text ≡ print (tree_of e.now)) }
{
    e.to_string(alloc)
}
