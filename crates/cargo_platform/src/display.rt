//! How conditions and the errors about them are printed. Printing allocates nothing. The contracts are about plain
//! `{}`, not about a width, a fill or an alignment.

use crate::{Cfg, CfgExpr, Ident, Platform};
use std::fmt::Display;
use std::{fmt, slice};

impl fmt::Display for Ident {
    ghost use Rattle.std.specs.Prelude.{Some};
    ghost use Rattle.cargo_platform.specs.Trees.{name_of};
    ghost use Rattle.cargo_platform.specs.Print.{print_name};

    // Prints exactly the bytes that the definition gives.
    ghost output = { λ i. Some (print_name (name_of i)) };

    fn fmt<W: fmt::Write>(&self, f: &mut fmt::Formatter<W>) -> fmt::Result {
        if self.raw {
            f.write_str("r#")?;
        }
        f.write_str(&self.name)
    }
}

impl fmt::Display for Cfg {
    ghost use Rattle.std.specs.Prelude.{Some};
    ghost use Rattle.cargo_platform.specs.Trees.{value_of};
    ghost use Rattle.cargo_platform.specs.Print.{print_value};

    // Prints exactly the bytes that the definition gives.
    ghost output = { λ c. Some (print_value (value_of c)) };

    fn fmt<W: fmt::Write>(&self, f: &mut fmt::Formatter<W>) -> fmt::Result {
        match self {
            Cfg::Name(name) => name.fmt(f),
            Cfg::KeyPair(key, value) => {
                key.fmt(f)?;
                f.write_str(" = \"")?;
                f.write_str(value)?;
                f.write_str("\"")
            }
        }
    }
}

impl fmt::Display for CfgExpr {
    ghost use Rattle.std.specs.Prelude.{Some};
    ghost use Rattle.cargo_platform.specs.Trees.{tree_of};
    ghost use Rattle.cargo_platform.specs.Print.{print};

    // Prints exactly the bytes that the definition gives.
    ghost output = { λ e. Some (print (tree_of e)) };

    fn fmt<W: fmt::Write>(&self, f: &mut fmt::Formatter<W>) -> fmt::Result {
        write_expression(self, f)
    }
}

impl fmt::Debug for CfgExpr {
    ghost use Rattle.std.specs.Prelude.{Some};
    ghost use Rattle.cargo_platform.specs.Trees.{tree_of};
    ghost use Rattle.cargo_platform.specs.Print.{print};

    // Prints exactly the bytes that the definition gives.
    ghost debug_output = { λ e. Some (print (tree_of e)) };

    // Prints as `Display` does, since a derived implementation needs stack for each level.
    fn fmt<W: fmt::Write>(&self, f: &mut fmt::Formatter<W>) -> fmt::Result {
        write_expression(self, f)
    }
}

ghost use Rattle.std.specs.Prelude.{◌≡◌, ◌≢◌, ◌≤◌, ◌+◌, ◌++◌, ◌&&◌, ◌==◌, suc, not, true, false, map, length, codes};
ghost use Rattle.std.specs.Prelude.{OnOk, IfSome, MatchOption};
ghost use Rattle.std.specs.Fmt.{WritesOnOk, IsPlainFormatter};
ghost use Rattle.cargo_platform.specs.Trees.{tree_of, trees_of};
ghost use Rattle.cargo_platform.specs.Print.{print};
ghost use Rattle.cargo_platform.specs.Inside.Printing.{is_group, word, begun, begun_members, between, ending};
ghost use Rattle.cargo_platform.specs.Inside.Printing.{ending_last};
ghost use Rattle.cargo_platform.specs.Inside.Printing.{closed, HasWrittenBut};
ghost use Rattle.cargo_platform.specs.ExpressionSizes.{node_count, node_counts};
ghost use Rattle.cargo_platform.specs.Warnings.{values, members_values};

/// Writes an expression with all that is nested in it. The recursion is over groups that others follow. Last members
/// are followed in loops, and what writes is a function of its own, so that a level of the recursion needs few bytes of
/// stack.
#[cycle(print)]
fn write_expression<W: fmt::Write>(e: &CfgExpr, f: &mut fmt::Formatter<W>) -> fmt::Result
    ensures { WritesOnOk W.write_str_gives f.old result (print (tree_of e.now)) f.new }
{
    let mut left = slice::from_ref(e);
    write_to_group(&mut left, f)?;
    'groups: while let Some((group, others)) = left.split_first() {
        left = others;
        write_expression(group, f)?;
        write_comma(f)?;
        write_to_group(&mut left, f)?;
    }
    write_ends(e, f)
}

/// Writes members up to the first group that others follow, following the last ones inwards. Leaves that group and the
/// members after it in `left`.
#[inline(never)]
fn write_to_group<'a, W: fmt::Write>(
    left: &mut &'a [CfgExpr],
    f: &mut fmt::Formatter<W>,
) -> fmt::Result
    ensures text { IsPlainFormatter f.old
        → OnOk result
        (HasWrittenBut W.write_str_gives f.old (begun_members (trees_of (map tree_of left.old.now)))
        (begun_members (trees_of (map tree_of left.new.now))) f.new) }
    ensures followed { OnOk result (length left.new.now ≢ 1) }
    ensures size { OnOk result (node_counts left.new.now ≤ node_counts left.old.now) }
{
    'members: loop {
        let Some((first, others)) = left.split_first() else {
            return Ok(());
        };
        if is_followed_group(first, others) {
            return Ok(());
        }
        write_word(first, f)?;
        match members_of(first) {
            Some(members) => *left = members,
            None => {
                write_between(others, f)?;
                *left = others;
            }
        }
    }
}

/// Returns whether the expression is a group that others follow.
#[inline(always)]
fn is_followed_group(first: &CfgExpr, others: &[CfgExpr]) -> bool
    ensures { result ≡ (is_group (tree_of first.now) && not (length others.now == 0)) }
{
    members_of(first).is_some() && !others.is_empty()
}

/// Returns the members of a group, or `None` for any other expression. The only member of a negation is the negated
/// expression.
#[inline(always)]
pub(crate) fn members_of(e: &CfgExpr) -> Option<&[CfgExpr]>
    ensures group { MatchOption result (is_group (tree_of e.now) ≡ false) (λ _. is_group (tree_of e.now) ≡ true) }
    ensures begun { IfSome result
        (λ ms. begun (tree_of e.now) ≡ word (tree_of e.now) ++ begun_members (trees_of (map tree_of ms.now))) }
    ensures ending { MatchOption result (ending (tree_of e.now) ≡ 0)
        (λ ms. ending (tree_of e.now) ≡ suc (ending_last (trees_of (map tree_of ms.now)))) }
    ensures size { MatchOption result (node_count e.now ≡ 1) (λ ms. node_count e.now ≡ node_counts ms.now + 1) }
    ensures values { IfSome result (λ ms. values (tree_of e.now) ≡ members_values (trees_of (map tree_of ms.now))) }
{
    match e {
        CfgExpr::Not(inner) => {
            let negated: &CfgExpr = inner;
            Some(slice::from_ref(negated))
        }
        CfgExpr::All(members) | CfgExpr::Any(members) => Some(members),
        CfgExpr::Value(_) | CfgExpr::True | CfgExpr::False => None,
    }
}

/// Writes what is before the members of a group, or a whole expression that is no group.
#[inline(always)]
fn write_word<W: fmt::Write>(e: &CfgExpr, f: &mut fmt::Formatter<W>) -> fmt::Result
    ensures { WritesOnOk W.write_str_gives f.old result (word (tree_of e.now)) f.new }
{
    match e {
        CfgExpr::Not(_) => f.write_str("not("),
        CfgExpr::All(_) => f.write_str("all("),
        CfgExpr::Any(_) => f.write_str("any("),
        CfgExpr::Value(c) => c.fmt(f),
        CfgExpr::True => f.write_str("true"),
        CfgExpr::False => f.write_str("false"),
    }
}

/// Writes what is between a member and the others after it.
#[inline(always)]
fn write_between<W: fmt::Write>(others: &[CfgExpr], f: &mut fmt::Formatter<W>) -> fmt::Result
    ensures { WritesOnOk W.write_str_gives f.old result (between others.now) f.new }
{
    if others.is_empty() {
        Ok(())
    } else {
        f.write_str(", ")
    }
}

/// Writes the comma between two members.
#[inline(never)]
fn write_comma<W: fmt::Write>(f: &mut fmt::Formatter<W>) -> fmt::Result
    ensures { WritesOnOk W.write_str_gives f.old result (codes ", ") f.new }
{
    f.write_str(", ")
}

/// Writes the parentheses that close an expression: its own, and those of its last members.
#[inline(never)]
fn write_ends<W: fmt::Write>(e: &CfgExpr, f: &mut fmt::Formatter<W>) -> fmt::Result
    ensures { WritesOnOk W.write_str_gives f.old result (closed (ending (tree_of e.now))) f.new }
{
    let mut left = slice::from_ref(e);
    'levels: while let Some((last, _)) = left.split_last() {
        let Some(members) = members_of(last) else {
            return Ok(());
        };
        f.write_str(")")?;
        left = members;
    }
    Ok(())
}

impl fmt::Display for Platform {
    ghost use Rattle.std.specs.Prelude.{Some};
    ghost use Rattle.cargo_platform.specs.Trees.{condition_of};
    ghost use Rattle.cargo_platform.specs.Print.{print_condition};

    // Prints exactly the bytes that the definition gives.
    ghost output = { λ p. Some (print_condition (condition_of p)) };

    fn fmt<W: fmt::Write>(&self, f: &mut fmt::Formatter<W>) -> fmt::Result {
        match self {
            Platform::Name(name) => f.write_str(name),
            Platform::Cfg(e) => {
                f.write_str("cfg(")?;
                write_expression(e, f)?;
                f.write_str(")")
            }
        }
    }
}
