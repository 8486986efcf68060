//! The canonical form of a condition, without using stack for its depth.

ghost use Rattle.std.specs.Prelude.{◌≡◌, ◌≤◌, ◌+◌, ◌*◌, [], ◌∷◌, ◌++◌, IfOk, OnOk, MatchOption, string_bytes};
ghost use Rattle.cargo_platform.specs.Trees.{tree_of, condition_of};
ghost use Rattle.cargo_platform.specs.Print.{print, print_condition};
ghost use Rattle.cargo_platform.specs.ExpressionSizes.{node_count, node_counts};
ghost use Rattle.platform_answers.specs.Printing.{stack, members_from, rest, print_next, work, work_of_next};

use cargo_platform::{CfgExpr, Platform};
use std::alloc::{AllocError, Global};
use std::slice;

/// Appends a condition in canonical form. The groups around a part are kept in memory. Fails only if an allocation
/// fails.
pub fn push_condition(
    alloc: Global,
    platform: &Platform,
    text: &mut String,
) -> Result<(), AllocError>
    ensures { OnOk result
        (string_bytes text.new ≡ string_bytes text.old ++ print_condition (condition_of platform.now)) }
{
    match platform {
        Platform::Name(name) => text.push_str(name),
        Platform::Cfg(e) => {
            text.push_str("cfg(")?;
            push_expression(alloc, e, text)?;
            text.push_str(")")
        }
    }
}

/// Appends an expression in canonical form.
fn push_expression(alloc: Global, e: &CfgExpr, text: &mut String) -> Result<(), AllocError>
    ensures { OnOk result (string_bytes text.new ≡ string_bytes text.old ++ print (tree_of e.now)) }
{
    let mut groups = OpenGroups::new(alloc);
    let mut next = Some(e);
    'steps: loop {
        next = match next {
            Some(e) => begin(e, &mut groups, text)?,
            None => match groups.pop() {
                Some(members) => go_on(", ", members, &mut groups, text)?,
                None => return Ok(()),
            },
        };
    }
}

/// The groups around the current expression. Each has the members after that expression, and the innermost group is the
/// last one.
#[derive(Drop)]
struct OpenGroups<'a> {
    groups: Vec<&'a [CfgExpr]>,
}

impl<'a> OpenGroups<'a> {
    /// Returns no groups.
    fn new(alloc: Global) -> OpenGroups<'a>
        ensures { stack result ≡ [] }
    {
        OpenGroups {
            groups: Vec::new(alloc),
        }
    }

    /// Opens a group inside the others.
    fn push(&mut self, members: &'a [CfgExpr]) -> Result<(), AllocError>
        ensures { OnOk result (stack self.new ≡ members.entry ∷ stack self.old) }
    {
        self.groups.push(members)?;
        Ok(())
    }

    /// Removes and returns the innermost group.
    fn pop(&mut self) -> Option<&'a [CfgExpr]>
        ensures { MatchOption result (stack self.old ≡ []) (λ members. stack self.old ≡ members ∷ stack self.new) }
    {
        self.groups.pop()
    }
}

/// Appends what precedes the first member of a group, and returns that member, or appends the whole of an expression
/// that has no members.
fn begin<'a>(
    e: &'a CfgExpr,
    groups: &mut OpenGroups<'a>,
    text: &mut String,
) -> Result<Option<&'a CfgExpr>, AllocError>
    ensures whole { IfOk result (λ next. string_bytes text.new ++ (print_next next ++ rest (stack groups.new))
        ≡ string_bytes text.old ++ (print (tree_of e.now) ++ rest (stack groups.old))) }
    ensures less { IfOk result (λ next.
        work (stack groups.new) + work_of_next next + 1 ≤ work (stack groups.old) + 2 * node_count e.now) }
{
    match e {
        CfgExpr::Not(inner) => {
            let negated: &CfgExpr = inner;
            text.push_str("not(")?;
            go_on("", slice::from_ref(negated), groups, text)
        }
        CfgExpr::All(members) => {
            text.push_str("all(")?;
            go_on("", members, groups, text)
        }
        CfgExpr::Any(members) => {
            text.push_str("any(")?;
            go_on("", members, groups, text)
        }
        CfgExpr::Value(c) => {
            write!(text, "{c}")?;
            Ok(None)
        }
        CfgExpr::True => {
            text.push_str("true")?;
            Ok(None)
        }
        CfgExpr::False => {
            text.push_str("false")?;
            Ok(None)
        }
    }
}

/// Appends what precedes the next member of a group, and returns that member, or closes the group.
fn go_on<'a>(
    separator: &str,
    members: &'a [CfgExpr],
    groups: &mut OpenGroups<'a>,
    text: &mut String,
) -> Result<Option<&'a CfgExpr>, AllocError>
    ensures whole { IfOk result (λ next. string_bytes text.new ++ (print_next next ++ rest (stack groups.new))
        ≡ string_bytes text.old ++ (members_from separator.now members.now ++ rest (stack groups.old))) }
    ensures less { IfOk result (λ next.
        work (stack groups.new) + work_of_next next ≤ work (stack groups.old) + 2 * node_counts members.now + 1) }
{
    match members.split_first() {
        Some((first, members)) => {
            text.push_str(separator)?;
            groups.push(members)?;
            Ok(Some(first))
        }
        None => {
            text.push_str(")")?;
            Ok(None)
        }
    }
}
