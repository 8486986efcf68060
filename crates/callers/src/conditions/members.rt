//! Takes an expression apart, for a tool that goes on with its members one by one.

ghost use Rattle.std.specs.Prelude.{◌≡◌, MatchOption, map};
ghost use Rattle.cargo_platform.specs.Trees.{All, Trees, tree_of, trees_of};

use cargo_platform::{CfgExpr, CfgExprParts};

/// Moves the members out of an `all`. Returns `None` for any other expression.
pub fn members_of_all(expression: CfgExpr) -> Option<Vec<CfgExpr>>
    ensures { MatchOption result
        ((es : Trees) → tree_of expression ≡ All es → ⊥)
        (λ members. tree_of expression ≡ All (trees_of (map tree_of members.items))) }
{
    match expression.into_parts() {
        CfgExprParts::All(members) => Some(members),
        CfgExprParts::Not(_) | CfgExprParts::Any(_) | CfgExprParts::Value(_) => None,
        CfgExprParts::True | CfgExprParts::False => None,
    }
}
