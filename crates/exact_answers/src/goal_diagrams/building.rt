//! Diagrams of expressions.

ghost use Rattle.std.specs.Prelude.{◌≡◌, ◌<◌, ℕ, Bool, ◌&&◌, not, true, Some, None, map, IfOk, IfSome, length};
ghost use Rattle.std.specs.Prelude.{string_bytes, bytes_eq};
ghost use Rattle.std.specs.Ordering.{eq_by_cmp};
ghost use Rattle.std.specs.FinSet.{contains};
ghost use Rattle.cargo_platform.specs.Trees.{tree_of, value_of};
ghost use Rattle.cargo_platform.specs.Facts.{FactSet, pair_of, pair_cmp, truth};
ghost use Rattle.partial_facts.specs.Partly.{names_of};
ghost use Rattle.exact_answers.specs.Diagrams.{value, nodes_of, places, IsTable, IsMade};
ghost use Rattle.exact_answers.specs.Goals.{true_as_wanted, goals_met, HasOneOpenValue, pairs_of, holds_in};
ghost use Rattle.exact_answers.specs.Goals.{IsAsTold, StandsAt};
ghost use Rattle.exact_answers.specs.Inside.Making.{says, AreTwoValues, AreApart};
ghost use Rattle.exact_answers.specs.Inside.Making.{each_wanted, some_wanted, group_wanted};

use crate::goal_diagrams::table::{DiagramError, FALSE, TRUE, Table, literal};
use cargo_platform::{Cfg, CfgExpr, Ident};
use partial_facts::Knowledge;
use partial_facts::names::is_named;

/// An expression and the truth that is wanted of it.
#[derive(Clone, Copy)]
pub struct Goal<'a> {
    pub e: &'a CfgExpr,
    pub wanted: bool,
}

/// The members of a group, and the truth that is wanted of each member, or else of some member.
#[derive(Clone, Copy)]
struct Group<'a> {
    members: &'a [CfgExpr],
    each: bool,
    wanted: bool,
}

/// The numbers of two pairs.
#[derive(Clone, Copy)]
struct PairNumbers {
    one: usize,
    other: usize,
}

/// The maximal nesting of groups. Each level takes some stack.
const MAX_LEVELS: usize = 500;

/// The query: what is known, and the pairs in the order in which nodes test them.
#[derive(Drop)]
pub struct Query<'a, 'b, K> {
    pub known: &'b K,
    pub pairs: &'b [&'a Cfg],
}

/// Returns whether both are the same pair.
pub fn is_same(c: &Cfg, other: &Cfg) -> bool
    ensures { result ≡ eq_by_cmp pair_cmp (pair_of (value_of c.now)) (pair_of (value_of other.now)) }
{
    c == other
}

/// Returns the number of the pair.
pub fn number_of(pairs: &[&Cfg], c: &Cfg) -> Option<usize>
    ensures { IfSome result (λ n. StandsAt (pairs_of pairs.now) n (pair_of (value_of c.now))) }
{
    let mut number = 0;
    'pairs: while number < pairs.len() {
        if is_same(c, pairs[number]) {
            return Some(number);
        }
        number += 1;
    }
    None
}

/// Returns the pair with this number.
pub fn pair_at<'a>(pairs: &[&'a Cfg], number: usize) -> &'a Cfg
    requires { number < length pairs.now }
    ensures { StandsAt (pairs_of pairs.now) number (pair_of (value_of result.now)) }
{
    pairs[number]
}

/// Returns whether the truth is the wanted one.
pub fn matches_wanted(truth: bool, wanted: bool) -> bool
    ensures { result ≡ true_as_wanted wanted truth }
{
    if wanted { truth } else { !truth }
}

/// Returns whether both texts are equal.
fn is_text(text: &str, other: &str) -> bool
    ensures { result ≡ bytes_eq text.now other.now }
{
    text == other
}

/// Returns whether these are values of the same key, which is one of `single`.
fn are_values(
    key: &Ident,
    value: &str,
    other_key: &Ident,
    other_value: &str,
    single: &[&str],
) -> bool
    ensures { result ≡ true → AreTwoValues (names_of single.now)
        (record { name = string_bytes key.now.name; value = Some value.now })
        (record { name = string_bytes other_key.now.name; value = Some other_value.now }) }
{
    let is_single = is_named(key, single);
    let one_key = is_text(key.as_str(), other_key.as_str());
    let one_value = is_text(value, other_value);
    if is_single {
        if one_key { !one_value } else { false }
    } else {
        false
    }
}

/// Returns whether these are two different values of the same key, which is one of `single`.
fn are_two_values(c: &Cfg, other: &Cfg, single: &[&str]) -> bool
    ensures { result ≡ true
        → AreTwoValues (names_of single.now) (pair_of (value_of c.now)) (pair_of (value_of other.now)) }
{
    match c {
        Cfg::Name(_) => false,
        Cfg::KeyPair(key, value) => match other {
            Cfg::Name(_) => false,
            Cfg::KeyPair(other_key, other_value) => are_values(
                key,
                value.as_str(),
                other_key,
                other_value.as_str(),
                single,
            ),
        },
    }
}

/// Returns the place of the sets over which a name or a pair has the wanted truth.
fn build_value<K: Knowledge>(
    query: &Query<'_, '_, K>,
    table: &mut Table,
    c: &Cfg,
    wanted: bool,
) -> Result<usize, DiagramError>
    requires { IsTable (nodes_of table.old) table.old.joined.items }
    ensures made { IfOk result (IsMade table.old table.new) }
    ensures means { IfOk result (λ place. (s : FactSet) → IsAsTold (K.told query.now.known.now) s
        → says s query.now.pairs.now table.new place
        ≡ true_as_wanted wanted (contains s (pair_of (value_of c.now)))) }
{
    match query.known.tells(c) {
        Some(truth) => Ok(literal(matches_wanted(truth, wanted))),
        None => match number_of(query.pairs, c) {
            Some(number) => table.pair(number, wanted),
            None => Err(DiagramError::TooLarge),
        },
    }
}

/// Returns the place of the sets, among those of a place, over which a name or a pair has the wanted truth.
fn join_value<K: Knowledge>(
    query: &Query<'_, '_, K>,
    table: &mut Table,
    among: usize,
    c: &Cfg,
    wanted: bool,
) -> Result<usize, DiagramError>
    requires table { IsTable (nodes_of table.old) table.old.joined.items }
    requires among { among < places (nodes_of table.old) }
    ensures made { IfOk result (IsMade table.old table.new) }
    ensures means { IfOk result (λ place. (s : FactSet) → IsAsTold (K.told query.now.known.now) s
        → says s query.now.pairs.now table.new place
        ≡ (says s query.now.pairs.now table.old among
        && true_as_wanted wanted (contains s (pair_of (value_of c.now))))) }
{
    let place = build_value(query, table, c, wanted)?;
    table.join(true, among, place)
}

/// Returns the place of the sets, among those of a place, over which the goal is met.
#[cycle(build)]
fn build<K: Knowledge>(
    query: &Query<'_, '_, K>,
    table: &mut Table,
    among: usize,
    goal: Goal<'_>,
    levels: usize,
) -> Result<usize, DiagramError>
    requires table { IsTable (nodes_of table.old) table.old.joined.items }
    requires among { among < places (nodes_of table.old) }
    ensures made { IfOk result (IsMade table.old table.new) }
    ensures means { IfOk result (λ place. (s : FactSet) → IsAsTold (K.told query.now.known.now) s
        → says s query.now.pairs.now table.new place
        ≡ (says s query.now.pairs.now table.old among
        && true_as_wanted goal.entry.wanted (truth s (tree_of goal.entry.e.now)))) }
{
    if levels == 0 {
        return Err(DiagramError::TooLarge);
    }
    let wanted = goal.wanted;
    match goal.e {
        CfgExpr::Not(inner) => {
            let negated = Goal {
                e: inner,
                wanted: !wanted,
            };
            build(query, table, among, negated, levels - 1)
        }
        CfgExpr::All(members) => {
            let group = Group {
                members,
                each: wanted,
                wanted,
            };
            build_group(query, table, among, group, levels - 1)
        }
        CfgExpr::Any(members) => {
            let group = Group {
                members,
                each: !wanted,
                wanted,
            };
            build_group(query, table, among, group, levels - 1)
        }
        CfgExpr::Value(c) => join_value(query, table, among, c, wanted),
        CfgExpr::True => table.join(true, among, literal(wanted)),
        CfgExpr::False => table.join(true, among, literal(!wanted)),
    }
}

/// Returns the place of the sets over which each member has the wanted truth, or else those over which one of them has
/// it.
#[cycle(build)]
fn build_group<K: Knowledge>(
    query: &Query<'_, '_, K>,
    table: &mut Table,
    among: usize,
    group: Group<'_>,
    levels: usize,
) -> Result<usize, DiagramError>
    requires table { IsTable (nodes_of table.old) table.old.joined.items }
    requires among { among < places (nodes_of table.old) }
    ensures made { IfOk result (IsMade table.old table.new) }
    ensures means { IfOk result (λ place. (s : FactSet) → IsAsTold (K.told query.now.known.now) s
        → says s query.now.pairs.now table.new place
        ≡ (says s query.now.pairs.now table.old among
        && group_wanted group.entry.each group.entry.wanted s (map tree_of group.entry.members.now))) }
{
    if group.each {
        build_each(query, table, among, group, levels)
    } else {
        let place = build_some(query, table, group, levels)?;
        table.join(true, among, place)
    }
}

/// Returns the place of the sets over which each member has the wanted truth.
#[cycle(build)]
fn build_each<K: Knowledge>(
    query: &Query<'_, '_, K>,
    table: &mut Table,
    among: usize,
    group: Group<'_>,
    levels: usize,
) -> Result<usize, DiagramError>
    requires table { IsTable (nodes_of table.old) table.old.joined.items }
    requires among { among < places (nodes_of table.old) }
    ensures made { IfOk result (IsMade table.old table.new) }
    ensures means { IfOk result (λ place. (s : FactSet) → IsAsTold (K.told query.now.known.now) s
        → says s query.now.pairs.now table.new place
        ≡ (says s query.now.pairs.now table.old among
        && each_wanted group.entry.wanted s (map tree_of group.entry.members.now))) }
{
    let mut place = among;
    let mut left = group.members;
    'members: while let Some((e, others)) = left.split_first() {
        let member = Goal {
            e,
            wanted: group.wanted,
        };
        let next = build(query, table, place, member, levels)?;
        place = next;
        left = others;
    }
    Ok(place)
}

/// Returns the place of the sets over which some member has the wanted truth.
#[cycle(build)]
fn build_some<K: Knowledge>(
    query: &Query<'_, '_, K>,
    table: &mut Table,
    group: Group<'_>,
    levels: usize,
) -> Result<usize, DiagramError>
    requires { IsTable (nodes_of table.old) table.old.joined.items }
    ensures made { IfOk result (IsMade table.old table.new) }
    ensures means { IfOk result (λ place. (s : FactSet) → IsAsTold (K.told query.now.known.now) s
        → says s query.now.pairs.now table.new place
        ≡ some_wanted group.entry.wanted s (map tree_of group.entry.members.now)) }
{
    let mut place = FALSE;
    let mut left = group.members;
    'members: while let Some((e, others)) = left.split_first() {
        let member = Goal {
            e,
            wanted: group.wanted,
        };
        let next = build(query, table, TRUE, member, levels)?;
        let both = table.join(false, place, next)?;
        place = both;
        left = others;
    }
    Ok(place)
}

/// Returns the place in the table of those sets of facts at the place `among` over which each goal is met.
pub fn build_goals<K: Knowledge>(
    query: &Query<'_, '_, K>,
    table: &mut Table,
    among: usize,
    goals: &[Goal<'_>],
) -> Result<usize, DiagramError>
    requires table { IsTable (nodes_of table.old) table.old.joined.items }
    requires among { among < places (nodes_of table.old) }
    ensures made { IfOk result (IsMade table.old table.new) }
    ensures means { IfOk result (λ place. (s : FactSet) → IsAsTold (K.told query.now.known.now) s
        → says s query.now.pairs.now table.new place
        ≡ (says s query.now.pairs.now table.old among
        && goals_met s goals.now)) }
{
    let mut place = among;
    for goal in goals {
        let next = build(query, table, place, *goal, MAX_LEVELS)?;
        place = next;
    }
    Ok(place)
}

/// Returns whether it is not known if the pair is a fact.
fn is_open<K: Knowledge>(query: &Query<'_, '_, K>, c: &Cfg) -> bool
    ensures { result ≡ true → K.told query.now.known.now (pair_of (value_of c.now)) ≡ None }
{
    match query.known.tells(c) {
        Some(_) => false,
        None => true,
    }
}

/// Returns whether the pairs with these numbers are both open, and two values of a key that has one value.
fn are_apart<K: Knowledge>(query: &Query<'_, '_, K>, single: &[&str], numbers: PairNumbers) -> bool
    requires one { numbers.one < length query.now.pairs.now }
    requires other { numbers.other < length query.now.pairs.now }
    ensures { result ≡ true → (s : FactSet)
        → HasOneOpenValue (K.told query.now.known.now) (names_of single.now) s
        → AreApart (holds_in s (pairs_of query.now.pairs.now)) numbers.one numbers.other }
{
    let first = pair_at(query.pairs, numbers.one);
    let second = pair_at(query.pairs, numbers.other);
    let two = are_two_values(first, second, single);
    if two {
        let first_open = is_open(query, first);
        let second_open = is_open(query, second);
        if first_open { second_open } else { false }
    } else {
        false
    }
}

/// Returns the place of the sets, among those of a place, without the other of two pairs, if both are values of a key
/// that has one value.
fn without_other<K: Knowledge>(
    query: &Query<'_, '_, K>,
    table: &mut Table,
    among: usize,
    single: &[&str],
    numbers: PairNumbers,
) -> Result<usize, DiagramError>
    requires table { IsTable (nodes_of table.old) table.old.joined.items }
    requires among { among < places (nodes_of table.old) }
    requires one { numbers.one < length query.now.pairs.now }
    requires other { numbers.other < length query.now.pairs.now }
    ensures made { IfOk result (IsMade table.old table.new) }
    ensures means { IfOk result (λ place. (s : FactSet)
        → HasOneOpenValue (K.told query.now.known.now) (names_of single.now) s
        → holds_in s (pairs_of query.now.pairs.now) numbers.one ≡ true
        → says s query.now.pairs.now table.new place
        ≡ says s query.now.pairs.now table.old among) }
{
    if are_apart(query, single, numbers) {
        let place = table.pair(numbers.other, false)?;
        table.join(true, among, place)
    } else {
        Ok(among)
    }
}

/// Returns the place of the sets in which no later value of the key of this pair is a fact, if that key has one value.
/// The last values come first, so that each takes one node.
fn no_later_value<K: Knowledge>(
    query: &Query<'_, '_, K>,
    table: &mut Table,
    single: &[&str],
    number: usize,
) -> Result<usize, DiagramError>
    requires table { IsTable (nodes_of table.old) table.old.joined.items }
    requires number { number < length query.now.pairs.now }
    ensures made { IfOk result (IsMade table.old table.new) }
    ensures means { IfOk result (λ place. (s : FactSet)
        → HasOneOpenValue (K.told query.now.known.now) (names_of single.now) s
        → holds_in s (pairs_of query.now.pairs.now) number ≡ true
        → says s query.now.pairs.now table.new place ≡ true) }
{
    let mut place = TRUE;
    let mut other = query.pairs.len();
    'others: while other - 1 > number {
        other -= 1;
        let numbers = PairNumbers { one: number, other };
        let next = without_other(query, table, place, single, numbers)?;
        place = next;
    }
    Ok(place)
}

/// Returns the place of the sets in which the pair with this number is not a fact, or no later value of its key is.
fn one_value<K: Knowledge>(
    query: &Query<'_, '_, K>,
    table: &mut Table,
    single: &[&str],
    number: usize,
) -> Result<usize, DiagramError>
    requires table { IsTable (nodes_of table.old) table.old.joined.items }
    requires number { number < length query.now.pairs.now }
    ensures made { IfOk result (IsMade table.old table.new) }
    ensures means { IfOk result (λ place. (s : FactSet)
        → HasOneOpenValue (K.told query.now.known.now) (names_of single.now) s
        → says s query.now.pairs.now table.new place ≡ true) }
{
    let others = no_later_value(query, table, single, number)?;
    let without = table.pair(number, false)?;
    table.join(false, others, without)
}

/// Returns the place of the sets of facts in which no key in `single` has two open values.
pub fn at_most_one_value<K: Knowledge>(
    query: &Query<'_, '_, K>,
    table: &mut Table,
    single: &[&str],
) -> Result<usize, DiagramError>
    requires { IsTable (nodes_of table.old) table.old.joined.items }
    ensures made { IfOk result (IsMade table.old table.new) }
    ensures means { IfOk result (λ place. (s : FactSet)
        → HasOneOpenValue (K.told query.now.known.now) (names_of single.now) s
        → says s query.now.pairs.now table.new place ≡ true) }
{
    let mut place = TRUE;
    let mut number = query.pairs.len();
    'numbers: while number > 0 {
        number -= 1;
        let next = one_value(query, table, single, number)?;
        let both = table.join(true, place, next)?;
        place = both;
    }
    Ok(place)
}
