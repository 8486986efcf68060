//! Decides an expression, if its truth follows from what is known.

ghost use Rattle.std.specs.Prelude.{◌≡◌, ◌≤◌, Some, map, IfSome, IfOk, MatchResult};
ghost use Rattle.cargo_platform.specs.Trees.{tree_of, trees_of};
ghost use Rattle.cargo_platform.specs.Facts.{FactSet, truth};
ghost use Rattle.cargo_platform.specs.ExpressionSizes.{node_count, node_counts};
ghost use Rattle.partial_facts.specs.Kleene.{kleene};
ghost use Rattle.partial_facts.specs.Inside.Groups.{both, members_known, so_far};

use crate::knowledge::Knowledge;
use cargo_platform::CfgExpr;
use std::mem;

/// Returns the truth of the expression over each possible set of facts, if that follows member by member from what is
/// known of its names and pairs, and `None` otherwise.
///
/// This is Kleene's strong logic: `all` is false if some member is known to be false, whatever the others are, and true
/// if each member is known to be true. It is sound but not complete, since it considers each name or pair by itself: if
/// `loom` is not known, neither is `any(loom, not(loom))`.
pub fn decide<K: Knowledge>(e: &CfgExpr, known: &K) -> Option<bool>
    // The result is the truth in Kleene's strong logic, by what is known.
    ensures exact { result ≡ kleene (K.told known.now) (tree_of e.now) }
    // A result other than `None` is the truth on each possible target, whatever its name if none is given.
    ensures sound { (s : FactSet) → K.allows known.now s → IfSome result (λ b. truth s (tree_of e.now) ≡ b) }
{
    evaluate(e, known)
}

// Follows last members in a loop, so that the recursion is over the members before them. `if_true` and `if_false` are
// the results if the current expression is true or false.
#[cycle(evaluate)]
fn evaluate<K: Knowledge>(e: &CfgExpr, known: &K) -> Option<bool>
    ensures { result ≡ kleene (K.told known.now) (tree_of e.now) }
{
    let mut e = e;
    let mut if_true = Some(true);
    let mut if_false = Some(false);
    'levels: loop {
        let truth = match e {
            CfgExpr::Not(inner) => {
                mem::swap(&mut if_true, &mut if_false);
                e = inner;
                continue;
            }
            CfgExpr::All(members) => match last_member(members, true, known) {
                Ok((last, is_known)) => {
                    if !is_known {
                        if_true = None;
                    }
                    e = last;
                    continue;
                }
                Err(truth) => Some(truth),
            },
            CfgExpr::Any(members) => match last_member(members, false, known) {
                Ok((last, is_known)) => {
                    if !is_known {
                        if_false = None;
                    }
                    e = last;
                    continue;
                }
                Err(truth) => Some(truth),
            },
            CfgExpr::Value(c) => known.tells(c),
            CfgExpr::True => Some(true),
            CfgExpr::False => Some(false),
        };
        return match truth {
            Some(true) => if_true,
            Some(false) => if_false,
            None => None,
        };
    }
}

// Returns the last member of an `all` or `any`, and whether each member before it is known, or the truth of the group
// if that does not depend on the last member. `all` goes on after members that are true, and `any` after false ones:
// `neutral` is that truth.
#[cycle(evaluate)]
#[inline(always)]
fn last_member<'a, K: Knowledge>(
    members: &'a [CfgExpr],
    neutral: bool,
    known: &K,
) -> Result<(&'a CfgExpr, bool), bool>
    ensures truth { MatchResult result
        (λ last. both neutral (so_far neutral last.1) (kleene (K.told known.now) (tree_of last.0.now))
        ≡ members_known neutral (K.told known.now) (trees_of (map tree_of members.now)))
        (λ truth. Some truth ≡ members_known neutral (K.told known.now) (trees_of (map tree_of members.now))) }
    ensures size { IfOk result (λ last. node_count last.0.now ≤ node_counts members.now) }
{
    let Some((first, others)) = members.split_first() else {
        return Err(neutral);
    };
    let mut e = first;
    let mut left = others;
    let mut is_known = true;
    'members: while let Some((next, others)) = left.split_first() {
        match evaluate(e, known) {
            Some(truth) => {
                if truth != neutral {
                    return Err(truth);
                }
            }
            None => is_known = false,
        }
        e = next;
        left = others;
    }
    Ok((e, is_known))
}
