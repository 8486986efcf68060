//! The knowledge of the facts of a target.

ghost use Rattle.std.specs.Prelude.{◌≡◌, ◌↔◌, true, IfOk};
ghost use Rattle.cargo_platform.specs.Trees.{tree_of};
ghost use Rattle.cargo_platform.specs.Facts.{FactSet, truth};
ghost use Rattle.cargo_platform.specs.Spelling.{IsTreeText};
ghost use Rattle.exact_answers.specs.Families.{KeepsFamilyRule};

use cargo_platform::{Cfg, CfgExpr, ReadError};
use std::alloc::{AllocError, Global};

/// The rule by which rustc sets `unix` and `windows`, as the text of an expression: each of them is a fact exactly if
/// its pair of `target_family` is. The Rust reference states it in its chapter on conditional compilation.
/// `family_rule` parses it.
pub const FAMILY_RULE: &str = "all(\
    any(all(unix, target_family = \"unix\"), not(any(unix, target_family = \"unix\"))), \
    any(all(windows, target_family = \"windows\"), not(any(windows, target_family = \"windows\"))))";

/// Returns the rule of `FAMILY_RULE`, for a caller that assumes it.
///
/// Fails only if an allocation fails.
pub fn family_rule(alloc: Global) -> Result<CfgExpr, AllocError>
    // The rule is what the text `FAMILY_RULE` means.
    ensures text { IfOk result (λ rule. IsTreeText FAMILY_RULE.now (tree_of rule)) }
    // It is true over exactly the sets with `unix` if and only if they have `target_family = "unix"`, and so for
    // `windows`.
    ensures sets { IfOk result (λ rule. (s : FactSet)
        → (truth s (tree_of rule) ≡ true) ↔ KeepsFamilyRule s) }
{
    match CfgExpr::from_str(alloc, FAMILY_RULE) {
        Ok(rule) => Ok(rule),
        Err(ReadError::Memory(refused)) => Err(refused),
        Err(ReadError::Parse(_)) => unreachable!(),
    }
}

/// The knowledge of the facts of a target. A set of facts is possible if
///
/// - it has each fact of `facts`;
/// - a name or key in `complete` has no fact in it that is not in `facts`, alone or with a value;
/// - a key in `single` has at most one value in it, unless `facts` lists several, and then has those alone;
/// - `assumed` is true over it: `&CfgExpr::True` assumes nothing.
///
/// Raw marks play no part.
#[derive(Drop)]
pub struct FactConstraints<'a> {
    pub facts: &'a [Cfg],
    pub complete: &'a [&'a str],
    pub single: &'a [&'a str],
    pub assumed: &'a CfgExpr,
}
