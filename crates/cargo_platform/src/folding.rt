//! Folds an expression in a loop, by what a `Fold` makes of each form.

ghost use Rattle.std.specs.Prelude.{◌≡◌, ◌≤◌, ◌+◌, ◌*◌, [], ◌∷◌, ◌++◌, Bool, List, map, IfOk};
ghost use Rattle.std.specs.Bool.{MatchBool};
ghost use Rattle.std.specs.ControlFlow.{MatchControlFlow};
ghost use Rattle.cargo_platform.specs.Trees.{Tree, Not, Value, True, False, value_of, tree_of};
ghost use Rattle.cargo_platform.specs.ExpressionSizes.{node_count, node_counts};
ghost use Rattle.cargo_platform.specs.Walk.{list_tree};
ghost use Rattle.cargo_platform.specs.Inside.Folding.{stack, Within, Stands, work, left_in, left_of};

mod groups;

use crate::cfg::{Cfg, CfgExpr};
use groups::{EnteredGroup, EnteredGroups, EnteredList};
use std::alloc::{AllocError, Global};
use std::ops::ControlFlow;

/// What to make of an expression from what was made of its parts.
pub trait Fold {
    /// The result of an expression.
    type Part: Drop;

    /// The result of the first members of an `all` or `any`.
    type Members: Drop;

    // The part is a correct result of the tree.
    ghost makes: { Self → Tree → Self.Part → Type 0 };

    // It is a correct result of the first members of a group with this neutral truth.
    ghost gathers: { Self → Bool → List Tree → Self.Members → Type 0 };

    /// Returns the result of a name or a pair.
    fn value(&self, c: &Cfg) -> Result<Self::Part, AllocError>
        ensures { IfOk result (λ part. makes self.now (Value (value_of c.now)) part) };

    /// Returns the result of a literal.
    fn literal(&self, truth: bool) -> Self::Part
        ensures { MatchBool truth (makes self.now True result) (makes self.now False result) };

    /// Returns the result of a negation, from the result of the negated expression.
    fn negation(&self, part: Self::Part) -> Result<Self::Part, AllocError>
        ensures { IfOk result (λ whole. (e : Tree) → makes self.now e part → makes self.now (Not e) whole) };

    /// Returns the result of no members. `neutral` is the truth after which the group goes on: `all` goes on after
    /// members that are true, and `any` after false ones.
    fn no_members(&self, neutral: bool) -> Self::Members
        ensures { gathers self.now neutral [] result };

    /// Adds one more member to the result of some members. Returns the result of the whole group if no further member
    /// matters.
    fn add(
        &self,
        neutral: bool,
        so_far: Self::Members,
        part: Self::Part,
    ) -> Result<ControlFlow<Self::Part, Self::Members>, AllocError>
        ensures { IfOk result (λ r. (es : List Tree) (e : Tree) → gathers self.now neutral es so_far
            → makes self.now e part → MatchControlFlow r
            (λ more. gathers self.now neutral (es ++ e ∷ []) more)
            (λ whole. (others : List Tree) → makes self.now (list_tree neutral (es ++ e ∷ others)) whole)) };

    /// Returns the result of a group, from the result of its members.
    fn group(&self, neutral: bool, members: Self::Members) -> Self::Part
        ensures { (es : List Tree) → gathers self.now neutral es members
            → makes self.now (list_tree neutral es) result };
}

/// The next thing to handle: an expression to fold, or the result of one.
#[derive(Drop)]
pub enum Next<'a, P> {
    Expression(&'a CfgExpr),
    Part(P),
}

/// Folds the expression in one walk, without recursion. Fails if the fold fails, or if an allocation for the groups
/// around a part fails.
pub fn fold_expression<F: Fold>(alloc: Global, e: &CfgExpr, f: &F) -> Result<F::Part, AllocError>
    // The result is a correct one of the whole expression.
    ensures { IfOk result (λ part. F.makes f.now (tree_of e.now) part) }
{
    let mut groups = EnteredGroups::new(alloc);
    let mut next = Next::Expression(e);
    'steps: loop {
        next = match next {
            Next::Expression(e) => enter(e, f, &mut groups)?,
            Next::Part(part) => match groups.pop() {
                None => return Ok(part),
                Some(group) => close(group, part, f, &mut groups)?,
            },
        };
    }
}

/// Opens the expression if it has parts, and else returns its result.
fn enter<'a, F: Fold>(
    e: &'a CfgExpr,
    f: &F,
    groups: &mut EnteredGroups<'a, F::Members>,
) -> Result<Next<'a, F::Part>, AllocError>
    ensures stands { IfOk result (λ next. (whole : Tree)
        → Within (F.gathers f.now) (stack groups.old) (tree_of e.now) whole
        → Stands (F.makes f.now) (F.gathers f.now) (stack groups.new) next whole) }
    ensures less { IfOk result (λ next.
        work (stack groups.new) + left_of next + 1 ≤ work (stack groups.old) + 2 * node_count e.now) }
{
    match e {
        CfgExpr::Not(inner) => {
            groups.push(EnteredGroup::Not)?;
            Ok(Next::Expression(inner))
        }
        CfgExpr::All(members) => go_on(true, f.no_members(true), members, f, groups),
        CfgExpr::Any(members) => go_on(false, f.no_members(false), members, f, groups),
        CfgExpr::Value(c) => Ok(Next::Part(f.value(c)?)),
        CfgExpr::True => Ok(Next::Part(f.literal(true))),
        CfgExpr::False => Ok(Next::Part(f.literal(false))),
    }
}

/// Adds the result of a part to the group around it.
fn close<'a, F: Fold>(
    group: EnteredGroup<'a, F::Members>,
    part: F::Part,
    f: &F,
    groups: &mut EnteredGroups<'a, F::Members>,
) -> Result<Next<'a, F::Part>, AllocError>
    ensures stands { IfOk result (λ next. (e whole : Tree) → F.makes f.now e part
        → Within (F.gathers f.now) (group.entry ∷ stack groups.old) e whole
        → Stands (F.makes f.now) (F.gathers f.now) (stack groups.new) next whole) }
    ensures less { IfOk result (λ next.
        work (stack groups.new) + left_of next ≤ work (stack groups.old) + left_in group.entry) }
{
    match group {
        EnteredGroup::Not => Ok(Next::Part(f.negation(part)?)),
        EnteredGroup::List(list) => {
            let EnteredList {
                neutral,
                so_far,
                members,
            } = list;
            match f.add(neutral, so_far, part)? {
                ControlFlow::Continue(so_far) => go_on(neutral, so_far, members, f, groups),
                ControlFlow::Break(whole) => Ok(Next::Part(whole)),
            }
        }
    }
}

/// Goes on with the next member of a group, or closes it.
fn go_on<'a, F: Fold>(
    neutral: bool,
    so_far: F::Members,
    members: &'a [CfgExpr],
    f: &F,
    groups: &mut EnteredGroups<'a, F::Members>,
) -> Result<Next<'a, F::Part>, AllocError>
    ensures stands { IfOk result (λ next. (es : List Tree) (whole : Tree) → F.gathers f.now neutral es so_far
        → Within (F.gathers f.now) (stack groups.old) (list_tree neutral (es ++ map tree_of members.now)) whole
        → Stands (F.makes f.now) (F.gathers f.now) (stack groups.new) next whole) }
    ensures less { IfOk result (λ next. work (stack groups.new) + left_of next
        ≤ work (stack groups.old) + 2 * node_counts members.now + 1) }
{
    match members.split_first() {
        Some((first, members)) => {
            groups.push(EnteredGroup::List(EnteredList {
                neutral,
                so_far,
                members,
            }))?;
            Ok(Next::Expression(first))
        }
        None => Ok(Next::Part(f.group(neutral, so_far))),
    }
}
