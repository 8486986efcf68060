//! Parses expressions, in a loop over the groups that are open.

ghost use Rattle.std.specs.Prelude.{◌≡◌, ◌≤◌, ◌<◌, false, true, List, [], ◌∷◌, ◌++◌, length, map, IfOk, IfErr, OnOk};
ghost use Rattle.std.specs.Prelude.{IfSome, IfNone, MatchOption, IsTrue, IsFalse};
ghost use Rattle.cargo_platform.specs.Tokens.{Ident as ident_token, Comma};
ghost use Rattle.cargo_platform.specs.Cut.{Nothing};
ghost use Rattle.cargo_platform.specs.Inside.Ahead.{NextIs, bytes_left};
ghost use Rattle.cargo_platform.specs.Trees.{Tree, name_of, value_of, tree_of, Not, Value};
ghost use Rattle.cargo_platform.specs.Spelling.{Grammar, Values, Expressions, is_group_word, is_literal_word, Spells};
ghost use Rattle.cargo_platform.specs.Walk.{Opening, Negated, Listed, list_tree, Wanting, WithWord, WithTree, start};
ghost use Rattle.cargo_platform.specs.Walk.{kinds, is_lone};
ghost use Rattle.cargo_platform.specs.Inside.Parsing.{LacksPunctuation, opening, stack, IsFresh, is_all, is_list};
ghost use Rattle.cargo_platform.specs.Inside.Parsing.{openings, opening_word, with_last, TakesToken};
ghost use Rattle.cargo_platform.specs.Inside.Parsing.{at_name, at_lone_name, at_done};
ghost use Rattle.cargo_platform.specs.Inside.Parsing.{Reads, IsClear, IsClearAfter, Stops, HasLooked};

use crate::cfg::{Cfg, CfgExpr, Ident};
use crate::reader::{Punctuation, Reader, expect_end, refuse};
use crate::refusal::Refusal;
use std::alloc::{AllocError, Global};
use std::mem;

/// `all` or `any`.
#[derive(Clone, Copy)]
pub(crate) enum Listing {
    All,
    Any,
}

/// A group whose `)` was not reached yet, with its members so far.
#[derive(Drop)]
enum Group {
    Not,
    List(Listing, Vec<CfgExpr>),
}

/// The innermost open group, and the groups around it, from the outermost inwards.
#[derive(Drop)]
struct Opened {
    innermost: Group,
    outer: Vec<Group>,
}

impl Opened {
    /// Appends a member to the innermost group, which is a list.
    #[inline(always)]
    fn add(&mut self, member: CfgExpr) -> Result<(), AllocError>
        requires { is_list (kinds (openings self.old)) ≡ true }
        ensures { OnOk result (openings self.new ≡ with_last (openings self.old) (tree_of member)) }
    {
        let Group::List(_word, members) = &mut self.innermost else {
            unreachable!()
        };
        push_member(members, member)
    }
}

/// The open groups. A single group needs no memory.
#[derive(Drop)]
struct OpenGroups {
    alloc: Global,
    opened: Option<Opened>,
}

impl OpenGroups {
    /// Returns an empty list of groups.
    fn new(alloc: Global) -> OpenGroups
        ensures { stack result ≡ [] }
    {
        OpenGroups {
            alloc,
            opened: None,
        }
    }

    /// Adds a group inside the others. Drops it if the allocation fails.
    fn push(&mut self, group: Group) -> Result<(), AllocError>
        ensures { OnOk result (stack self.new ≡ opening group ∷ stack self.old) }
    {
        let Some(opened) = &mut self.opened else {
            self.opened = Some(Opened {
                innermost: group,
                outer: Vec::new(self.alloc),
            });
            return Ok(());
        };
        opened
            .outer
            .push(mem::replace(&mut opened.innermost, group))?;
        Ok(())
    }

    /// Removes the innermost group and returns it.
    fn pop(&mut self) -> Option<Group>
        ensures { MatchOption result ((stack self.old ≡ []) × (stack self.new ≡ []))
            (λ group. stack self.old ≡ opening group ∷ stack self.new) }
    {
        let Some(
            Opened {
                innermost,
                mut outer,
            },
        ) = mem::replace(&mut self.opened, None)
        else {
            return None;
        };
        if let Some(group) = outer.pop() {
            self.opened = Some(Opened {
                innermost: group,
                outer,
            });
        }
        Some(innermost)
    }

    /// Returns whether the innermost group is a list.
    #[inline(always)]
    fn is_in_list(&self) -> bool
        ensures { result ≡ is_list (kinds (stack self.now)) }
    {
        match &self.opened {
            Some(opened) => matches!(opened.innermost, Group::List(..)),
            None => false,
        }
    }

    /// Appends a member to the innermost group, which is a list.
    #[inline(always)]
    fn add_member(&mut self, member: CfgExpr) -> Result<(), AllocError>
        requires { is_list (kinds (stack self.old)) ≡ true }
        ensures { OnOk result (stack self.new ≡ with_last (stack self.old) (tree_of member)) }
    {
        let Some(opened) = &mut self.opened else {
            unreachable!()
        };
        opened.add(member)
    }
}

/// Returns the group that a name opens, if the name is an unmarked keyword of a group.
#[inline(always)]
fn group_named(alloc: Global, raw: bool, name: &str) -> Option<Group>
    ensures { MatchOption result (IsFalse (is_group_word (record { raw = raw; name = name.now })))
        (λ group. (raw ≡ false) × (name.now ≡ opening_word (opening group)) × IsFresh (opening group)) }
{
    if raw {
        return None;
    }
    match name {
        "not" => Some(Group::Not),
        "all" => Some(Group::List(Listing::All, Vec::new(alloc))),
        "any" => Some(Group::List(Listing::Any, Vec::new(alloc))),
        _ => None,
    }
}

/// Creates the identifier with this name.
#[inline(always)]
fn ident(alloc: Global, raw: bool, name: &str) -> Result<Ident, AllocError>
    ensures { IfOk result (λ i. name_of i ≡ record { raw = raw; name = name.now }) }
{
    Ok(Ident {
        name: String::from_str(alloc, name)?,
        raw,
    })
}

/// Returns the literal that a name is, if the name is an unmarked keyword of a literal.
#[inline(always)]
fn literal_named(raw: bool, name: &str) -> Option<CfgExpr>
    ensures { MatchOption result (IsFalse (is_literal_word (record { raw = raw; name = name.now })))
        (λ e. Spells (tree_of e) (ident_token raw name.now ∷ []) × IsFalse (is_lone (tree_of e))) }
{
    if raw {
        return None;
    }
    match name {
        "true" => Some(CfgExpr::True),
        "false" => Some(CfgExpr::False),
        _ => None,
    }
}

/// Parses what follows the identifier of a name or a pair: nothing, or `=` and a string.
#[inline(always)]
fn read_value<'a>(
    alloc: Global,
    reader: &mut Reader<'a>,
    raw: bool,
    name: &str,
) -> Result<Cfg, Refusal<'a>>
    ensures same_text { reader.new.ahead.text ≡ reader.old.ahead.text }
    ensures value { IfOk result
        (λ c. (g : Grammar) (gs : List Opening)
        → Reads g reader.old.ahead reader.new.ahead (at_lone_name raw name.now gs)
        (WithTree (Value (value_of c)) gs)) }
    ensures clear { IfOk result (λ c. IsClear (Value (value_of c)) reader.new.ahead) }
    ensures refused { IfErr result
        (λ r. (g : Grammar) (gs : List Opening) → Stops g reader.old.ahead (at_lone_name raw name.now gs) r) }
    ensures looked { IfErr result (HasLooked reader.new) }
{
    if !reader.eat(Punctuation::Equals) {
        return Ok(Cfg::Name(ident(alloc, raw, name)?));
    }
    let Some(value) = reader.eat_string() else {
        return Err(refuse(reader, "a string", "a string"));
    };
    let key = ident(alloc, raw, name)?;
    let value = String::from_str(alloc, value)?;
    Ok(Cfg::KeyPair(key, value))
}

/// Parses the `(` after the keyword of a group.
#[inline(always)]
fn open_group<'a>(
    reader: &mut Reader<'a>,
    groups: &mut OpenGroups,
    group: Group,
) -> Result<(), Refusal<'a>>
    ensures same_text { reader.new.ahead.text ≡ reader.old.ahead.text }
    ensures opened { OnOk result
        (Reads Expressions reader.old.ahead reader.new.ahead (WithWord (opening group) (stack groups.old))
        (Wanting (stack groups.new))) }
    ensures refused { IfErr result (Stops Expressions reader.old.ahead (WithWord (opening group) (stack groups.old))) }
    ensures looked { IfErr result (HasLooked reader.new) }
{
    if !reader.eat(Punctuation::LeftParen) {
        return Err(refuse(reader, "`(`", "`(`"));
    }
    groups.push(group)?;
    Ok(())
}

/// Continues after a name: either a group is open then, or an expression has ended.
#[inline(always)]
fn behind_name<'a>(
    alloc: Global,
    reader: &mut Reader<'a>,
    groups: &mut OpenGroups,
    raw: bool,
    name: &str,
) -> Result<Option<CfgExpr>, Refusal<'a>>
    ensures same_text { reader.new.ahead.text ≡ reader.old.ahead.text }
    ensures begun { IfOk result
        (λ done. Reads Expressions reader.old.ahead reader.new.ahead (at_name raw name.now (stack groups.old))
        (at_done (stack groups.new) done)) }
    ensures clear { IfOk result (λ done. IsClearAfter done reader.new.ahead) }
    ensures refused { IfErr result (Stops Expressions reader.old.ahead (at_name raw name.now (stack groups.old))) }
    ensures looked { IfErr result (HasLooked reader.new) }
{
    if let Some(group) = group_named(alloc, raw, name) {
        open_group(reader, groups, group)?;
        return Ok(None);
    }
    if let Some(literal) = literal_named(raw, name) {
        return Ok(Some(literal));
    }
    let value = read_value(alloc, reader, raw, name)?;
    Ok(Some(CfgExpr::Value(value)))
}

/// Parses the `)` of a list that has no members yet, or whose members end with a comma.
fn end_list(reader: &mut Reader<'_>, groups: &mut OpenGroups) -> Option<CfgExpr>
    ensures same_text { reader.new.ahead.text ≡ reader.old.ahead.text }
    ensures closed { IfSome result
        (λ e. Reads Expressions reader.old.ahead reader.new.ahead (Wanting (stack groups.old))
        (WithTree (tree_of e) (stack groups.new))) }
    ensures clear { IfSome result (λ e. IsClear (tree_of e) reader.new.ahead) }
    ensures shorter { IfSome result (λ e. bytes_left reader.new.ahead < bytes_left reader.old.ahead) }
    ensures not_closed { IfNone result
        ((reader.new.ahead ≡ reader.old.ahead)
        × (is_list (kinds (stack groups.old)) ≡ true → LacksPunctuation reader.old.ahead Punctuation.RightParen)) }
{
    match groups.pop() {
        Some(Group::List(word, members)) => {
            if !reader.eat(Punctuation::RightParen) {
                return None;
            }
            Some(close_list(word, members))
        }
        Some(Group::Not) => None,
        None => None,
    }
}

/// Parses a name alone, a pair or the opening of a group, or closes a list that ends here.
#[inline(always)]
fn begin<'a>(
    alloc: Global,
    reader: &mut Reader<'a>,
    groups: &mut OpenGroups,
) -> Result<Option<CfgExpr>, Refusal<'a>>
    ensures same_text { reader.new.ahead.text ≡ reader.old.ahead.text }
    ensures begun { IfOk result
        (λ done. Reads Expressions reader.old.ahead reader.new.ahead (Wanting (stack groups.old))
        (at_done (stack groups.new) done)) }
    ensures clear { IfOk result (λ done. IsClearAfter done reader.new.ahead) }
    ensures refused { IfErr result (Stops Expressions reader.old.ahead (Wanting (stack groups.old))) }
    ensures looked { IfErr result (HasLooked reader.new) }
    ensures shorter { OnOk result (bytes_left reader.new.ahead < bytes_left reader.old.ahead) }
{
    if let Some((raw, name)) = reader.eat_name() {
        return behind_name(alloc, reader, groups, raw, name);
    }
    if let Some(list) = end_list(reader, groups) {
        return Ok(Some(list));
    }
    Err(refuse(reader, "identifier", "start of a cfg expression"))
}

/// Returns the list of these members.
pub(crate) fn close_list(word: Listing, members: Vec<CfgExpr>) -> CfgExpr
    ensures { tree_of result ≡ list_tree (is_all word) (map tree_of members.items) }
{
    match word {
        Listing::All => CfgExpr::All(members),
        Listing::Any => CfgExpr::Any(members),
    }
}

/// Returns the negation of an expression. Drops it if the allocation fails.
pub(crate) fn negation(alloc: Global, negated: CfgExpr) -> Result<CfgExpr, AllocError>
    ensures { IfOk result (λ e. tree_of e ≡ Not (tree_of negated)) }
{
    Ok(CfgExpr::Not(Box::new(alloc, negated)?))
}

/// Appends a member. Drops it if the allocation fails.
pub(crate) fn push_member(members: &mut Vec<CfgExpr>, member: CfgExpr) -> Result<(), AllocError>
    ensures { OnOk result (map tree_of members.new.items ≡ map tree_of members.old.items ++ tree_of member ∷ []) }
{
    members.push(member)?;
    Ok(())
}

/// Returns the members with one more after them.
fn with_member(mut members: Vec<CfgExpr>, member: CfgExpr) -> Result<Vec<CfgExpr>, AllocError>
    ensures { IfOk result (λ more. map tree_of more.items ≡ map tree_of members.items ++ tree_of member ∷ []) }
{
    push_member(&mut members, member)?;
    Ok(members)
}

/// Parses the comma after a member of a list, if there is one. Returns whether there is.
#[inline(always)]
fn eat_comma(reader: &mut Reader<'_>, groups: &OpenGroups) -> bool
    ensures same_text { reader.new.ahead.text ≡ reader.old.ahead.text }
    ensures in_list { IsTrue result → is_list (kinds (stack groups.now)) ≡ true }
    ensures taken { IsTrue result → TakesToken reader.old.ahead reader.new.ahead Comma }
    ensures not_taken { IsFalse result →
        (reader.new.ahead ≡ reader.old.ahead)
        × (is_list (kinds (stack groups.now)) ≡ true → LacksPunctuation reader.old.ahead Punctuation.Comma) }
{
    groups.is_in_list() && reader.eat(Punctuation::Comma)
}

/// Parses the `)` of a group, after its last member.
#[inline(always)]
fn close_group<'a>(
    alloc: Global,
    reader: &mut Reader<'a>,
    group: Group,
    last: CfgExpr,
) -> Result<CfgExpr, Refusal<'a>>
    requires clear { IsClear (tree_of last) reader.old.ahead }
    requires last { is_list (kinds (opening group ∷ [])) ≡ true → LacksPunctuation reader.old.ahead Punctuation.Comma }
    ensures same_text { reader.new.ahead.text ≡ reader.old.ahead.text }
    ensures closed { IfOk result
        (λ e. (gs : List Opening)
        → Reads Expressions reader.old.ahead reader.new.ahead (WithTree (tree_of last) (opening group ∷ gs))
        (WithTree (tree_of e) gs)) }
    ensures clear { IfOk result (λ e. IsClear (tree_of e) reader.new.ahead) }
    ensures refused { IfErr result
        (λ r. (gs : List Opening)
        → Stops Expressions reader.old.ahead (WithTree (tree_of last) (opening group ∷ gs)) r) }
    ensures looked { IfErr result (HasLooked reader.new) }
    ensures shorter { OnOk result (bytes_left reader.new.ahead < bytes_left reader.old.ahead) }
{
    if !reader.eat(Punctuation::RightParen) {
        return Err(refuse(reader, "`)`", "`)`"));
    }
    match group {
        Group::Not => Ok(negation(alloc, last)?),
        Group::List(word, members) => Ok(close_list(word, with_member(members, last)?)),
    }
}

/// Parses the tokens as an expression.
pub(crate) fn read_expression<'a>(
    alloc: Global,
    reader: &mut Reader<'a>,
) -> Result<CfgExpr, Refusal<'a>>
    ensures same_text { reader.new.ahead.text ≡ reader.old.ahead.text }
    ensures tree { IfOk result
        (λ e. Reads Expressions reader.old.ahead reader.new.ahead start (WithTree (tree_of e) [])) }
    ensures ended { OnOk result (NextIs reader.new.ahead Nothing) }
    ensures refused { IfErr result (Stops Expressions reader.old.ahead start) }
    ensures looked { IfErr result (HasLooked reader.new) }
{
    let mut groups = OpenGroups::new(alloc);
    let mut done: Option<CfgExpr> = None;
    'groups: loop {
        let Some(e) = done else {
            done = begin(alloc, reader, &mut groups)?;
            continue;
        };
        if eat_comma(reader, &groups) {
            groups.add_member(e)?;
            done = None;
            continue;
        }
        let Some(group) = groups.pop() else {
            expect_end(reader)?;
            return Ok(e);
        };
        done = Some(close_group(alloc, reader, group, e)?);
    }
}

/// Parses the tokens as a name or a pair.
pub(crate) fn read_cfg<'a>(alloc: Global, reader: &mut Reader<'a>) -> Result<Cfg, Refusal<'a>>
    ensures same_text { reader.new.ahead.text ≡ reader.old.ahead.text }
    ensures value { IfOk result
        (λ c. Reads Values reader.old.ahead reader.new.ahead start (WithTree (Value (value_of c)) [])) }
    ensures ended { OnOk result (NextIs reader.new.ahead Nothing) }
    ensures refused { IfErr result (Stops Values reader.old.ahead start) }
    ensures looked { IfErr result (HasLooked reader.new) }
{
    let Some((raw, name)) = reader.eat_name() else {
        return Err(refuse(reader, "identifier", "identifier"));
    };
    let cfg = read_value(alloc, reader, raw, name)?;
    expect_end(reader)?;
    Ok(cfg)
}
