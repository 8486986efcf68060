//! The names and pairs in a condition, from left to right.

ghost use Rattle.std.specs.Prelude.{◌≡◌, ◌+◌, true, IfOk, map};
ghost use Rattle.cargo_platform.specs.Trees.{value_of, tree_of, trees_of, condition_of};
ghost use Rattle.cargo_platform.specs.Warnings.{values, members_values, condition_values};
ghost use Rattle.cargo_platform.specs.ExpressionSizes.{node_count, node_counts};
ghost use Rattle.cargo_platform.specs.Inside.Printing.{is_group};

use crate::Platform;
use crate::cfg::{Cfg, CfgExpr};
use std::alloc::{AllocError, Global};
use std::slice;

/// The names and pairs of a condition, and how deeply it is nested.
#[derive(Drop)]
pub struct ValuesWithLevels<'a> {
    /// The names and pairs, from left to right.
    pub values: Vec<&'a Cfg>,
    /// The greatest number of members, each nested in the next and each with others after it in its group.
    pub levels: usize,
}

/// Returns the names and pairs of a condition, from left to right, and how deeply it is nested. A target name has none.
pub fn values_with_levels<'a>(
    alloc: Global,
    platform: &'a Platform,
) -> Result<ValuesWithLevels<'a>, AllocError>
    // The names and pairs are those of the condition, from left to right.
    ensures { IfOk result (λ met. map (λ c. value_of c.now) met.values.items
        ≡ condition_values (condition_of platform.now)) }
{
    match platform {
        Platform::Name(_) => Ok(ValuesWithLevels {
            values: Vec::new(alloc),
            levels: 0,
        }),
        Platform::Cfg(e) => walk(alloc, e),
    }
}

/// Returns the names and pairs of a condition, from left to right. A target name has none.
pub fn values_of<'a>(alloc: Global, platform: &'a Platform) -> Result<Vec<&'a Cfg>, AllocError>
    // The names and pairs are those of the condition, from left to right.
    ensures { IfOk result (λ found. map (λ c. value_of c.now) found.items
        ≡ condition_values (condition_of platform.now)) }
{
    let met = values_with_levels(alloc, platform)?;
    Ok(met.values)
}

/// Returns the members of a group. The only member of a negation is the negated expression.
fn members_of(e: &CfgExpr) -> &[CfgExpr]
    ensures values { is_group (tree_of e.now) ≡ true
        → values (tree_of e.now) ≡ members_values (trees_of (map tree_of result.now)) }
    ensures size { is_group (tree_of e.now) ≡ true → node_count e.now ≡ node_counts result.now + 1 }
{
    match e {
        CfgExpr::Not(inner) => slice::from_ref(&**inner),
        CfgExpr::All(members) | CfgExpr::Any(members) => members.as_slice(),
        CfgExpr::Value(_) | CfgExpr::True | CfgExpr::False => &[],
    }
}

/// Returns one more level if members are left.
fn with_left(levels: usize, left: &[CfgExpr]) -> usize {
    if left.is_empty() {
        levels
    } else {
        levels.saturating_add(1)
    }
}

/// Returns the names and pairs of an expression, from left to right, and how deeply it is nested.
fn walk<'a>(alloc: Global, e: &'a CfgExpr) -> Result<ValuesWithLevels<'a>, AllocError>
    ensures { IfOk result (λ met. map (λ c. value_of c.now) met.values.items ≡ values (tree_of e.now)) }
{
    let mut found = Vec::new(alloc);
    let mut levels = 0;
    // The members that are left of the group that was opened last, and of the groups around it, each with the levels
    // above it.
    let mut members = slice::from_ref(e);
    let mut above = 0;
    let mut around: Vec<(&'a [CfgExpr], usize)> = Vec::new(alloc);
    'members: loop {
        let Some((first, others)) = members.split_first() else {
            let Some((left, before)) = around.pop() else {
                return Ok(ValuesWithLevels {
                    values: found,
                    levels,
                });
            };
            members = left;
            above = before;
            continue;
        };
        members = others;
        let level = with_left(above, others);
        levels = levels.max(level);
        match first {
            CfgExpr::Value(c) => found.push(c)?,
            CfgExpr::True | CfgExpr::False => {}
            CfgExpr::Not(_) | CfgExpr::All(_) | CfgExpr::Any(_) => {
                around.push((members, above))?;
                members = members_of(first);
                above = level;
            }
        }
    }
}
