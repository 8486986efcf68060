//! Facts, and the truth of an expression over them.

ghost use Rattle.std.specs.Prelude.{◌≡◌, ◌≤◌, ◌-◌, ◌^◌, min, map, length, IfOk, IsTrue, string_bytes};
ghost use Rattle.std.specs.ControlFlow.{MatchControlFlow, ForContinue};
ghost use Rattle.std.proofs.Props.{props};
ghost use Rattle.std.specs.List.{All, list_any};
ghost use Rattle.std.specs.List.Sorted.{IsSorted};
ghost use Rattle.std.specs.Ordering.{eq_by_cmp};
ghost use Rattle.std.specs.FinSet.{contains};
ghost use Rattle.cargo_platform.specs.Key.{value_cmp};
ghost use Rattle.cargo_platform.specs.Places.{hashed_in, hashed_at, hashed_cmp, name_order, HasNameHash};
ghost use Rattle.cargo_platform.specs.Places.{HashedPair, hashed_pair_at, hashed_pair_cmp, pair_order, HasValueHash};
ghost use Rattle.cargo_platform.specs.Trees.{value_of, tree_of, trees_of};
ghost use Rattle.cargo_platform.specs.Facts.{FactSet, pair_of, fact_set, truth, all_true, any_true};
ghost use Rattle.cargo_platform.specs.Asks.{asks, asks_of_all, asks_of_any};
ghost use Rattle.cargo_platform.specs.Inside.Asking.{Counts};
ghost use Rattle.cargo_platform.specs.ExpressionSizes.{node_count, node_counts};

use crate::asking::{Asked, Asks, Tally, Uncounted};
use crate::cfg::{Cfg, CfgExpr, Ident};
use crate::places::{HashedPlace, HashedText, PairPlace};
use crate::search::{Sorted, Sought};
use std::alloc::{AllocError, Global};
use std::cmp::Ordering;
use std::ops::ControlFlow;

/// A set of facts, in any representation.
pub trait Facts {
    // The finite set of pairs that the holder represents.
    ghost meant: { Self → FactSet };

    /// Returns whether the pair of `c`, which is its name or its key and value without the raw mark, is in this set.
    fn holds(&self, c: &Cfg) -> bool
        ensures { result ≡ contains (meant self.now) (pair_of (value_of c.now)) };
}

/// A list of facts, which represents the set of its members' pairs. Their order, repetitions and raw marks play no
/// part.
#[derive(Drop)]
pub struct Listed<'a>(pub &'a [Cfg]);

impl<'a> Facts for Listed<'a> {
    ghost meant = { λ facts. fact_set (map value_of facts.0.now) };

    fn holds(&self, c: &Cfg) -> bool {
        is_listed(self.0, c)
    }
}

/// Returns whether a list contains an equal fact.
#[inline(always)]
fn is_listed(facts: &[Cfg], c: &Cfg) -> bool
    ensures { result ≡ list_any (λ fact. eq_by_cmp value_cmp (value_of fact) (value_of c.now)) facts.now }
{
    for fact in facts {
        if is_same(fact, c) {
            return true;
        }
    }
    false
}

/// Returns whether two facts are equal. Mostly the lengths of their names or keys show that they differ.
#[inline(always)]
#[tactic(auto, using(crate::proofs::NameLengths::unequal_names))]
fn is_same(fact: &Cfg, c: &Cfg) -> bool
    ensures { result ≡ eq_by_cmp value_cmp (value_of fact.now) (value_of c.now) }
{
    name_length(fact) == name_length(c) && are_equal(fact, c)
}

/// Returns the length of the name or the key.
#[inline(always)]
fn name_length(c: &Cfg) -> usize
    ensures { result ≡ length (pair_of (value_of c.now)).name }
{
    match c {
        Cfg::Name(name) | Cfg::KeyPair(name, _) => name.name.len(),
    }
}

// This is a function of its own, so that the search of a list is a loop of a few instructions.
/// Returns whether two facts are equal.
#[cold]
#[inline(never)]
fn are_equal(fact: &Cfg, c: &Cfg) -> bool
    ensures { result ≡ eq_by_cmp value_cmp (value_of fact.now) (value_of c.now) }
{
    fact == c
}

/// A name to search for, among places in `texts`.
#[derive(Clone, Copy)]
struct SoughtName<'a> {
    texts: &'a str,
    name: HashedText<'a>,
}

impl<'a, T: Tally> Sought<HashedPlace, T> for SoughtName<'a> {
    ghost order = { λ sought place. hashed_cmp (hashed_at sought.texts.now place) (hashed_in sought.name) };

    #[inline(always)]
    fn compare(&self, tally: &mut T, place: &HashedPlace) -> Ordering {
        tally.add_one();
        place.compare_with(self.texts, self.name)
    }
}

/// A pair to search for, among places in `texts`.
#[derive(Clone, Copy)]
struct SoughtPair<'a> {
    texts: &'a str,
    key: &'a str,
    value: HashedText<'a>,
}

impl<'a, T: Tally> Sought<PairPlace, T> for SoughtPair<'a> {
    ghost order = { λ sought place. hashed_pair_cmp (hashed_pair_at sought.texts.now place)
        (record { key = sought.key.now; value = hashed_in sought.value }) };

    #[inline(always)]
    fn compare(&self, tally: &mut T, place: &PairPlace) -> Ordering {
        tally.add_one();
        place.compare_with(self.texts, self.key, self.value)
    }
}

/// A sorted set of facts, in which a query compares only a few of them. It represents the set of the pairs of the
/// values that it was made from.
// All texts are in one string, so that an index takes at most three allocations.
#[derive(Drop)]
pub struct FactIndex {
    texts: String,
    names: Sorted<HashedPlace>,
    pairs: Sorted<PairPlace>,
    ghost names_hashed: { All (HasNameHash (string_bytes texts)) names.members.items } by { Prim.hlevel props },
    ghost values_hashed: { All (HasValueHash (string_bytes texts)) pairs.members.items } by { Prim.hlevel props },
    ghost names_sorted: { IsSorted (name_order (string_bytes texts)) names.members.items } by { Prim.hlevel props },
    ghost pairs_sorted: { IsSorted (pair_order (string_bytes texts)) pairs.members.items } by { Prim.hlevel props },
}

impl FactIndex {
    /// Creates an index of copies of the facts in `cfg`. Fails only if an allocation fails.
    pub fn new(alloc: Global, cfg: &[Cfg]) -> Result<FactIndex, AllocError>
        // It represents the set of the facts in `cfg`.
        ensures { IfOk result (λ index. ⟦<FactIndex as Facts>⟧.meant index ≡ fact_set (map value_of cfg.now)) }
    {
        let (name_count, length) = sizes(cfg);
        let mut texts = String::with_capacity(alloc, length)?;
        let mut names = Vec::with_capacity(alloc, name_count)?;
        let mut pairs = Vec::with_capacity(alloc, cfg.len() - name_count)?;
        for fact in cfg {
            match fact {
                Cfg::Name(name) => names.push(HashedPlace::append(&mut texts, &name.name)?)?,
                Cfg::KeyPair(key, value) => {
                    pairs.push(PairPlace::append(&mut texts, &key.name, value)?)?;
                }
            }
        }
        let whole = texts.as_str();
        names.sort_unstable_by(|a: &HashedPlace, b: &HashedPlace| a.compare(whole, *b));
        pairs.sort_unstable_by(|a: &PairPlace, b: &PairPlace| a.compare(whole, *b));
        Ok(FactIndex {
            texts,
            names: Sorted::new(names),
            pairs: Sorted::new(pairs),
        })
    }
}

/// Returns the number of names in a list of facts, and the number of bytes of all its texts.
fn sizes(cfg: &[Cfg]) -> (usize, usize)
    ensures { result.0 ≤ length cfg.now }
{
    let mut names: usize = 0;
    let mut bytes: usize = 0;
    for fact in cfg {
        match fact {
            Cfg::Name(name) => {
                names += 1;
                bytes = bytes.saturating_add(name.name.len());
            }
            Cfg::KeyPair(key, value) => {
                bytes = bytes
                    .saturating_add(key.name.len())
                    .saturating_add(value.len());
            }
        }
    }
    (names, bytes)
}

impl Facts for FactIndex {
    ghost use Rattle.cargo_platform.specs.FactIndexes.{indexed};

    ghost meant = { λ index. fact_set (indexed index) };

    fn holds(&self, c: &Cfg) -> bool {
        let texts = self.texts.as_str();
        match c {
            Cfg::Name(name) => {
                let name = HashedText::new(&name.name);
                let sought = SoughtName { texts, name };
                self.names.has(&sought, &mut Uncounted)
            }
            Cfg::KeyPair(key, value) => {
                let key = key.name.as_str();
                let value = HashedText::new(value);
                let sought = SoughtPair { texts, key, value };
                self.pairs.has(&sought, &mut Uncounted)
            }
        }
    }
}

impl CfgExpr {
    /// Returns whether the expression is true over the facts in `cfg`.
    ///
    /// A name or a pair is true if it is one of the facts, whatever the raw marks of both. `not` is negation, `all`
    /// needs every member to be true and `any` some member, so that `all()` is true and `any()` is false. This is the
    /// conditional compilation of the Rust reference, as Cargo's reference uses it to select dependencies by platform.
    pub fn matches(&self, cfg: &[Cfg]) -> bool
        // Truth depends on the set of facts: their order, repetitions and raw marks play no part.
        ensures { result ≡ truth (fact_set (map value_of cfg.now)) (tree_of self.now) }
    {
        self.matches_in(&Listed(cfg))
    }

    /// Returns whether the expression is true over the set of facts that the holder represents. Makes as many queries
    /// as `matches_counted` returns.
    pub fn matches_in<F: Facts>(&self, facts: &F) -> bool
        // Truth depends on the set of facts: their order, repetitions and raw marks play no part.
        ensures { result ≡ truth (F.meant facts.now) (tree_of self.now) }
    {
        self.is_true_in(facts, &mut Uncounted)
    }

    /// Returns whether the expression is true over the set of facts that the holder represents, as `matches_in` does,
    /// and the number of queries to the holder: at most one for each name and pair, from left to right, and none after
    /// a member that decides its group.
    pub fn matches_counted<F: Facts>(&self, facts: &F) -> (bool, Asks)
        // Truth depends on the set of facts: their order, repetitions and raw marks play no part.
        ensures truth { result.0 ≡ truth (F.meant facts.now) (tree_of self.now) }
        // The holder gets one query for each name and pair, from left to right, and none after a member that decides
        // its group.
        ensures asks { result.1 ≡ min (asks (F.meant facts.now) (tree_of self.now)) (2 ^ 128 - 1) }
    {
        let mut asks = Asks::none();
        let answer = self.is_true_in(facts, &mut asks);
        (answer, asks)
    }

    /// Returns whether the expression is true over the set of facts that the holder represents.
    // Follows last members in a loop, so that the recursion is over groups that others follow. The holder is queried in
    // a function of its own, so that a level of the recursion needs few bytes of stack.
    #[cycle(matches)]
    #[tactic(auto, using(crate::proofs::LastMembers::asked_not))]
    fn is_true_in<F: Asked<T>, T: Tally>(&self, facts: &F, tally: &mut T) -> bool
        ensures truth { result ≡ truth (F.meant facts.now) (tree_of self.now) }
        ensures asks { Counts (asks (F.meant facts.now) (tree_of self.now)) 0 (T.asks tally.old) (T.asks tally.new) }
    {
        let mut e = self;
        let mut is_asked = true;
        'levels: loop {
            let rest = match e {
                CfgExpr::Not(inner) => {
                    is_asked = !is_asked;
                    e = inner;
                    continue;
                }
                CfgExpr::All(members) => CfgExpr::all_but_last(members, facts, tally),
                CfgExpr::Any(members) => CfgExpr::any_but_last(members, facts, tally),
                CfgExpr::Value(c) => ControlFlow::Break(facts.ask(tally, c)),
                CfgExpr::True => ControlFlow::Break(true),
                CfgExpr::False => ControlFlow::Break(false),
            };
            match rest {
                ControlFlow::Continue(last) => e = last,
                ControlFlow::Break(is_true) => return if is_asked { is_true } else { !is_true },
            }
        }
    }

    /// Returns whether a member is true, without recursion if it is a name or a pair.
    #[cycle(matches)]
    #[inline(always)]
    fn is_true_member<F: Asked<T>, T: Tally>(&self, facts: &F, tally: &mut T) -> bool
        ensures truth { result ≡ truth (F.meant facts.now) (tree_of self.now) }
        ensures asks { Counts (asks (F.meant facts.now) (tree_of self.now)) 0 (T.asks tally.old) (T.asks tally.new) }
    {
        match self {
            CfgExpr::Value(c) => facts.ask(tally, c),
            other => other.is_true_in(facts, tally),
        }
    }

    /// Returns whether all members are true, or the last member if the answer depends on it.
    #[cycle(matches)]
    #[inline(always)]
    #[tactic(auto, using(crate::proofs::LastMembers::and_true))]
    fn all_but_last<'a, F: Asked<T>, T: Tally>(
        members: &'a [CfgExpr],
        facts: &F,
        tally: &mut T,
    ) -> ControlFlow<bool, &'a CfgExpr>
        ensures truth { MatchControlFlow result
            (λ last. truth (F.meant facts.now) (tree_of last.now)
            ≡ all_true (F.meant facts.now) (trees_of (map tree_of members.now)))
            (λ is_true. is_true ≡ all_true (F.meant facts.now) (trees_of (map tree_of members.now))) }
        ensures asks { MatchControlFlow result
            (λ last. Counts (asks_of_all (F.meant facts.now) (trees_of (map tree_of members.now)))
            (asks (F.meant facts.now) (tree_of last.now)) (T.asks tally.old) (T.asks tally.new))
            (λ is_true. Counts (asks_of_all (F.meant facts.now) (trees_of (map tree_of members.now))) 0
            (T.asks tally.old) (T.asks tally.new)) }
        ensures size { ForContinue result (λ last. node_count last.now ≤ node_counts members.now) }
    {
        let mut left = members;
        'members: while let Some((first, others)) = left.split_first() {
            if others.is_empty() {
                return ControlFlow::Continue(first);
            }
            if !first.is_true_member(facts, tally) {
                return ControlFlow::Break(false);
            }
            left = others;
        }
        ControlFlow::Break(true)
    }

    /// Returns whether any member is true, or the last member if the answer depends on it.
    #[cycle(matches)]
    #[inline(always)]
    #[tactic(auto, using(crate::proofs::LastMembers::or_false))]
    fn any_but_last<'a, F: Asked<T>, T: Tally>(
        members: &'a [CfgExpr],
        facts: &F,
        tally: &mut T,
    ) -> ControlFlow<bool, &'a CfgExpr>
        ensures truth { MatchControlFlow result
            (λ last. truth (F.meant facts.now) (tree_of last.now)
            ≡ any_true (F.meant facts.now) (trees_of (map tree_of members.now)))
            (λ is_true. is_true ≡ any_true (F.meant facts.now) (trees_of (map tree_of members.now))) }
        ensures asks { MatchControlFlow result
            (λ last. Counts (asks_of_any (F.meant facts.now) (trees_of (map tree_of members.now)))
            (asks (F.meant facts.now) (tree_of last.now)) (T.asks tally.old) (T.asks tally.new))
            (λ is_true. Counts (asks_of_any (F.meant facts.now) (trees_of (map tree_of members.now))) 0
            (T.asks tally.old) (T.asks tally.new)) }
        ensures size { ForContinue result (λ last. node_count last.now ≤ node_counts members.now) }
    {
        let mut left = members;
        'members: while let Some((first, others)) = left.split_first() {
            if others.is_empty() {
                return ControlFlow::Continue(first);
            }
            if first.is_true_member(facts, tally) {
                return ControlFlow::Break(true);
            }
            left = others;
        }
        ControlFlow::Break(false)
    }
}
