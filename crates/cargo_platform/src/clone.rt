//! Clones of names, pairs, expressions and platforms, with their raw marks.

ghost use Rattle.std.specs.Prelude.{◌≡◌, ◌≤◌, ◌+◌, ◌*◌, ◌++◌, map, IfOk, IfSome, OnOk, MatchOption};
ghost use Rattle.cargo_platform.specs.Trees.{Tree, name_of, value_of, tree_of, condition_of};
ghost use Rattle.cargo_platform.specs.ExpressionSizes.{node_count, node_counts};
ghost use Rattle.cargo_platform.specs.Walk.{list_tree};
ghost use Rattle.cargo_platform.specs.Inside.Parsing.{is_all};
ghost use Rattle.cargo_platform.specs.Inside.Copying.{around, whole, left_in, work, MatchNext, ForExpression};

use crate::Platform;
use crate::cfg::{Cfg, CfgExpr, Ident};
use crate::parser::{Listing, close_list, negation, push_member};
use std::alloc::{AllocError, Global};

impl Ident {
    /// Returns a copy with the same name and the same raw mark. Fails only if an allocation fails.
    #[inline(always)]
    pub fn clone(&self, alloc: Global) -> Result<Ident, AllocError>
        // A clone means the same as the original, and has the same raw marks.
        ensures { IfOk result (λ copy. name_of copy ≡ name_of self.now) }
    {
        Ok(Ident {
            name: String::from_str(alloc, &self.name)?,
            raw: self.raw,
        })
    }
}

impl Cfg {
    /// Returns a copy with the same name or key, raw mark and value. Fails only if an allocation fails.
    #[inline(always)]
    pub fn clone(&self, alloc: Global) -> Result<Cfg, AllocError>
        // A clone means the same as the original, and has the same raw marks.
        ensures { IfOk result (λ copy. value_of copy ≡ value_of self.now) }
    {
        match self {
            Cfg::Name(name) => Ok(Cfg::Name(name.clone(alloc)?)),
            Cfg::KeyPair(key, value) => Ok(Cfg::KeyPair(
                key.clone(alloc)?,
                String::from_str(alloc, value)?,
            )),
        }
    }
}

impl CfgExpr {
    /// Returns a copy of the whole tree, with its raw marks. Fails only if an allocation fails.
    #[inline(always)]
    pub fn clone(&self, alloc: Global) -> Result<CfgExpr, AllocError>
        // A clone means the same as the original, and has the same raw marks.
        ensures { IfOk result (λ copy. tree_of copy ≡ tree_of self.now) }
    {
        copy_tree(alloc, self)
    }
}

/// Copies the whole tree.
fn copy_tree(alloc: Global, e: &CfgExpr) -> Result<CfgExpr, AllocError>
    ensures { IfOk result (λ copy. tree_of copy ≡ tree_of e.now) }
{
    let mut groups = CopiedGroups::new(alloc);
    let mut part = e;
    'parts: loop {
        let copy = copy_first(alloc, part, &mut groups)?;
        match put_into_groups(alloc, copy, &mut groups)? {
            Next::Expression(next) => part = next,
            Next::Copy(whole) => return Ok(whole),
        }
    }
}

/// The next thing to handle: an expression to copy, or a finished copy.
#[derive(Drop)]
enum Next<'a> {
    Expression(&'a CfgExpr),
    Copy(CfgExpr),
}

/// A group that is being copied.
#[derive(Drop)]
enum CopiedGroup<'a> {
    Not,
    /// The keyword, the copies of members that are finished, and the members after the one that is being copied.
    List(Listing, Vec<CfgExpr>, &'a [CfgExpr]),
}

/// The groups that are being copied, the innermost last.
#[derive(Drop)]
struct CopiedGroups<'a> {
    groups: Vec<CopiedGroup<'a>>,
}

impl<'a> CopiedGroups<'a> {
    /// Returns an empty list of groups.
    fn new(alloc: Global) -> CopiedGroups<'a>
        ensures whole { (e : Tree) → whole result e ≡ e }
    {
        CopiedGroups {
            groups: Vec::new(alloc),
        }
    }

    /// Adds a group inside the others. Drops it if the allocation fails.
    fn push(&mut self, group: CopiedGroup<'a>) -> Result<(), AllocError>
        ensures whole { OnOk result ((e : Tree) → whole self.new e ≡ whole self.old (around group.entry e)) }
        ensures work { OnOk result (work self.new ≡ work self.old + left_in group.entry) }
    {
        self.groups.push(group)?;
        Ok(())
    }

    /// Removes the innermost group and returns it.
    fn pop(&mut self) -> Option<CopiedGroup<'a>>
        ensures whole { MatchOption result
            ((e : Tree) → whole self.old e ≡ e)
            (λ group. (e : Tree) → whole self.old e ≡ whole self.new (around group e)) }
        ensures work { IfSome result (λ group. work self.old ≡ work self.new + left_in group) }
    {
        self.groups.pop()
    }
}

/// Opens the groups that an expression begins with, and copies the first expression inside them that is not a group.
#[inline(always)]
fn copy_first<'a>(
    alloc: Global,
    e: &'a CfgExpr,
    groups: &mut CopiedGroups<'a>,
) -> Result<CfgExpr, AllocError>
    ensures whole { IfOk result (λ copy. whole groups.new (tree_of copy) ≡ whole groups.old (tree_of e.now)) }
    ensures work { OnOk result (work groups.new + 1 ≤ work groups.old + 2 * node_count e.now) }
{
    let mut part = e;
    'groups: loop {
        let opened = match part {
            CfgExpr::Not(inner) => {
                groups.push(CopiedGroup::Not)?;
                part = inner;
                continue;
            }
            CfgExpr::All(members) => {
                let copies = Vec::with_capacity(alloc, members.len())?;
                copy_members(alloc, Listing::All, copies, members, groups)?
            }
            CfgExpr::Any(members) => {
                let copies = Vec::with_capacity(alloc, members.len())?;
                copy_members(alloc, Listing::Any, copies, members, groups)?
            }
            CfgExpr::Value(c) => return Ok(CfgExpr::Value(c.clone(alloc)?)),
            CfgExpr::True => return Ok(CfgExpr::True),
            CfgExpr::False => return Ok(CfgExpr::False),
        };
        match opened {
            Next::Expression(next) => part = next,
            Next::Copy(list) => return Ok(list),
        }
    }
}

/// Adds a copy to the groups around it, from the innermost outwards, up to a group whose members are not all copied.
/// Returns the next member of that group, or the copy of the whole expression.
#[inline(always)]
fn put_into_groups<'a>(
    alloc: Global,
    copied: CfgExpr,
    groups: &mut CopiedGroups<'a>,
) -> Result<Next<'a>, AllocError>
    ensures whole { IfOk result
        (λ r. MatchNext r
        (λ next. whole groups.new (tree_of next) ≡ whole groups.old (tree_of copied))
        (λ copy. tree_of copy ≡ whole groups.old (tree_of copied))) }
    ensures work { IfOk result
        (λ r. ForExpression r (λ next. work groups.new + 2 * node_count next ≤ work groups.old)) }
{
    let mut copy = copied;
    'groups: loop {
        copy = match groups.pop() {
            None => return Ok(Next::Copy(copy)),
            Some(CopiedGroup::Not) => negation(alloc, copy)?,
            Some(CopiedGroup::List(word, mut copies, left)) => {
                push_member(&mut copies, copy)?;
                match copy_members(alloc, word, copies, left, groups)? {
                    Next::Expression(next) => return Ok(Next::Expression(next)),
                    Next::Copy(list) => list,
                }
            }
        };
    }
}

/// Copies members of a list, up to one that is neither a name nor a pair, and keeps the list open for that one. Returns
/// that member, or the list if there is none.
#[inline(always)]
fn copy_members<'a>(
    alloc: Global,
    word: Listing,
    mut copies: Vec<CfgExpr>,
    members: &'a [CfgExpr],
    groups: &mut CopiedGroups<'a>,
) -> Result<Next<'a>, AllocError>
    ensures whole { IfOk result
        (λ r. MatchNext r
        (λ next. whole groups.new (tree_of next)
        ≡ whole groups.old (list_tree (is_all word) (map tree_of copies.items ++ map tree_of members.now)))
        (λ list. whole groups.new (tree_of list)
        ≡ whole groups.old (list_tree (is_all word) (map tree_of copies.items ++ map tree_of members.now)))) }
    ensures work { IfOk result
        (λ r. MatchNext r
        (λ next. work groups.new + 2 * node_count next ≤ work groups.old + 2 * node_counts members.now + 1)
        (λ _. work groups.new ≡ work groups.old)) }
{
    match copy_values(alloc, members, &mut copies)?.split_first() {
        Some((next, left)) => {
            groups.push(CopiedGroup::List(word, copies, left))?;
            Ok(Next::Expression(next))
        }
        None => Ok(Next::Copy(close_list(word, copies))),
    }
}

// Most members are names and pairs. They are copied in a row, with no group pushed and popped between them.
/// Copies the names and pairs at the beginning of the members, and returns the members after them.
fn copy_values<'a>(
    alloc: Global,
    members: &'a [CfgExpr],
    copies: &mut Vec<CfgExpr>,
) -> Result<&'a [CfgExpr], AllocError>
    ensures copied { IfOk result
        (λ left. map tree_of copies.new.items ++ map tree_of left.now
        ≡ map tree_of copies.old.items ++ map tree_of members.now) }
    ensures size { IfOk result (λ left. node_counts left.now ≤ node_counts members.now) }
{
    let mut left = members;
    'members: while let Some((first, others)) = left.split_first() {
        let CfgExpr::Value(c) = first else {
            return Ok(left);
        };
        push_member(copies, CfgExpr::Value(c.clone(alloc)?))?;
        left = others;
    }
    Ok(left)
}

impl Platform {
    /// Returns a copy of the platform, with the raw marks of its expression. Fails only if an allocation fails.
    #[inline(always)]
    pub fn clone(&self, alloc: Global) -> Result<Platform, AllocError>
        // A clone means the same as the original, and has the same raw marks.
        ensures { IfOk result (λ copy. condition_of copy ≡ condition_of self.now) }
    {
        match self {
            Platform::Name(name) => Ok(Platform::Name(String::from_str(alloc, name)?)),
            Platform::Cfg(e) => Ok(Platform::Cfg(e.clone(alloc)?)),
        }
    }
}
