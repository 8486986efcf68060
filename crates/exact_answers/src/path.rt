//! The case splits that lead to a part of the possible sets of facts, and what is known there.

ghost use Rattle.std.specs.Prelude.{◌≡◌, ◌<◌, ◌+◌, ◌^◌, ◌++◌, ◌∷◌, [], true, false, Some, None, map, reverse};
ghost use Rattle.std.specs.Prelude.{IfOk, OnOk, string_bytes};
ghost use Rattle.std.specs.Bool.{MatchBool};
ghost use Rattle.std.specs.List.{All};
ghost use Rattle.cargo_platform.specs.Trees.{Trees, name_of, value_of};
ghost use Rattle.cargo_platform.specs.Facts.{pair_of};
ghost use Rattle.exact_answers.specs.Goals.{IsAsTold};
ghost use Rattle.exact_answers.specs.Answers.{IsUnmarked};
ghost use Rattle.exact_answers.specs.Asking.{is_pair, some_asks};
ghost use Rattle.exact_answers.specs.Possible.{has_key, has_value};
ghost use Rattle.exact_answers.specs.Inside.Paths.{takes, refuses, facts_on, rules_out};
ghost use Rattle.exact_answers.specs.Inside.Paths.{base_of, turn_of, turns, turned, taken, set_on, is_refuted};
ghost use Rattle.exact_answers.specs.Inside.Paths.{unmarked};
ghost use Rattle.exact_answers.specs.Inside.Paths.{WereOpen};
ghost use Rattle.exact_answers.specs.Inside.Searches.{AreAsked};
ghost use Rattle.std.specs.FinSet.{contains};

use crate::fact_constraints::FactConstraints;
use cargo_platform::{Cfg, Facts, Ident, Listed};
use partial_facts::Knowledge;
use partial_facts::names::{has_key, has_value, is_named};
use std::alloc::{AllocError, Global};

/// A pair that was open, and whether it is taken as a fact.
#[derive(Clone, Copy)]
pub struct Split<'a> {
    pub fact: &'a Cfg,
    pub holds: bool,
}

/// Returns whether the pair of `c` is taken as a fact.
fn takes(splits: &[Split<'_>], c: &Cfg) -> bool
    ensures { result ≡ takes (is_pair (pair_of (value_of c.now))) (map turn_of splits.now) }
{
    for split in splits {
        if split.holds && c == split.fact {
            return true;
        }
    }
    false
}

/// Returns whether the pair of `c` is taken not to be a fact.
fn refuses(splits: &[Split<'_>], c: &Cfg) -> bool
    ensures { result ≡ refuses (is_pair (pair_of (value_of c.now))) (map turn_of splits.now) }
{
    for split in splits {
        if !split.holds && c == split.fact {
            return true;
        }
    }
    false
}

/// Returns whether the key with some value is taken as a fact.
fn takes_value(splits: &[Split<'_>], key: &Ident) -> bool
    ensures { result ≡ takes (has_key (string_bytes key.now.name)) (map turn_of splits.now) }
{
    for split in splits {
        if split.holds && has_key(split.fact, key) {
            return true;
        }
    }
    false
}

/// The splits, the last one last, over what is known.
#[derive(Drop)]
pub struct Path<'a> {
    known: &'a FactConstraints<'a>,
    splits: Vec<Split<'a>>,
    /// The number of splits that were made, also those that were undone since. Pairs that a diagram chose do not count.
    made: u64,
}

impl<'a> Knowledge for Path<'a> {
    ghost use Rattle.exact_answers.specs.Inside.Paths.{told_by_path, as_told};

    ghost allows = { λ k s. IsAsTold (told_by_path k) s };

    ghost example = { λ k. set_on (base_of k.known.now) (turns k) };

    ghost told = { λ k p. told_by_path k p };

    fn tells(&self, c: &Cfg) -> Option<bool> {
        if self.has_fact(c) {
            Some(true)
        } else if self.refutes(c) {
            Some(false)
        } else {
            None
        }
    }

    ghost possible = { λ k. as_told (base_of k.known.now) (turns k) };

    ghost sound = { λ k s p is. is p };
}

impl<'a> Path<'a> {
    /// Returns a path without splits.
    pub fn new(alloc: Global, known: &'a FactConstraints<'a>) -> Path<'a>
        ensures known { result.known.now ≡ known.now }
        ensures none { turns result ≡ [] }
        ensures none_made { result.made ≡ 0 }
    {
        Path {
            known,
            splits: Vec::new(alloc),
            made: 0,
        }
    }

    /// Returns how many splits were made.
    pub fn split_count(&self) -> u64
        ensures { result ≡ self.now.made }
    {
        self.made
    }

    /// Returns what is known where no pair is split.
    pub fn known(&self) -> &'a FactConstraints<'a>
        ensures { result.now ≡ self.now.known.now }
    {
        self.known
    }

    /// Returns whether the pair of `c` is a fact so far.
    fn has_fact(&self, c: &Cfg) -> bool
        ensures { result ≡ contains (set_on (base_of self.now.known.now) (turns self.now)) (pair_of (value_of c.now)) }
    {
        takes(&self.splits, c) || Listed(self.known.facts).holds(c)
    }

    /// Returns whether the pair of `c`, which is not a fact so far, is taken not to be one or is ruled out.
    fn refutes(&self, c: &Cfg) -> bool
        ensures { result ≡ is_refuted (base_of self.now.known.now) (turns self.now) (pair_of (value_of c.now)) }
    {
        refuses(&self.splits, c) || self.rules_out(c)
    }

    /// Returns whether what is known rules out the pair of `c`, which is not a fact so far: its name or key is
    /// complete, or its key has one value, and has it already.
    fn rules_out(&self, c: &Cfg) -> bool
        ensures { result ≡ rules_out (base_of self.now.known.now)
            (facts_on (base_of self.now.known.now) (turns self.now)) (pair_of (value_of c.now)) }
    {
        match c {
            Cfg::Name(name) => is_named(name, self.known.complete),
            Cfg::KeyPair(key, _) => {
                is_named(key, self.known.complete)
                    || is_named(key, self.known.single) && self.has_value(key)
            }
        }
    }

    /// Returns whether the key with some value is a fact so far.
    fn has_value(&self, key: &Ident) -> bool
        ensures { result ≡ has_value (string_bytes key.now.name)
            (facts_on (base_of self.now.known.now) (turns self.now)) }
    {
        takes_value(&self.splits, key) || has_value(self.known.facts, key)
    }

    /// Takes an open pair as absent: this is one split, and nothing else counts.
    pub fn split(&mut self, fact: &'a Cfg) -> Result<(), AllocError>
        requires { self.old.made + 1 < 2 ^ 64 }
        ensures known { self.new.known.now ≡ self.old.known.now }
        ensures counted { self.new.made ≡ self.old.made + 1 }
        ensures split { OnOk result (turns self.new
            ≡ record { pair = pair_of (value_of fact.now); holds = false } ∷ turns self.old) }
    {
        self.made += 1;
        self.splits.push(Split { fact, holds: false })?;
        Ok(())
    }

    /// Takes an open pair as a fact or as absent, without counting a split. Does nothing if the pair is not open.
    pub fn take(&mut self, fact: &'a Cfg, holds: bool) -> Result<(), AllocError>
        ensures known { self.new.known.now ≡ self.old.known.now }
        ensures open { OnOk result (WereOpen (base_of self.old.known.now) (turns self.old)
            → WereOpen (base_of self.old.known.now) (turns self.new)) }
        ensures asked { OnOk result ((es : Trees) → some_asks es (pair_of (value_of fact.now)) ≡ true
            → AreAsked es (turns self.old) → AreAsked es (turns self.new)) }
    {
        if self.tells(fact).is_none() {
            self.splits.push(Split { fact, holds })?;
        }
        Ok(())
    }

    /// Replaces its splits by those of another path.
    pub fn put_splits_of(&mut self, other: Path<'a>)
        ensures known { self.new.known.now ≡ self.old.known.now }
        ensures counted { self.new.made ≡ self.old.made }
        ensures put { turns self.new ≡ turns other.entry }
    {
        self.splits = other.splits;
    }

    /// Undoes each split.
    pub fn undo_all(&mut self)
        ensures known { self.new.known.now ≡ self.old.known.now }
        ensures counted { self.new.made ≡ self.old.made }
        ensures undone { turns self.new ≡ [] }
    {
        self.splits.clear();
    }

    /// Goes back to the last pair that is taken not to be a fact, and takes it as a fact. Returns `false` if there is
    /// no such pair; then all splits are undone.
    pub fn backtrack(&mut self) -> Result<bool, AllocError>
        ensures known { self.new.known.now ≡ self.old.known.now }
        ensures counted { self.new.made ≡ self.old.made }
        ensures turned { IfOk result (λ is_turned. MatchBool is_turned
            (turned (turns self.old) ≡ Some (turns self.new)) (turned (turns self.old) ≡ None)) }
        ensures undone { IfOk result (λ is_turned. is_turned ≡ false → turns self.new ≡ []) }
    {
        'splits: while let Some(split) = self.splits.pop() {
            if !split.holds {
                self.splits.push(Split {
                    fact: split.fact,
                    holds: true,
                })?;
                return Ok(true);
            }
        }
        Ok(false)
    }

    /// Returns the pairs that are taken as facts, the last one first, and the facts that are listed, all without marks.
    pub fn facts(&self, alloc: Global) -> Result<Vec<Cfg>, AllocError>
        ensures pairs { IfOk result (λ facts. map pair_of (map value_of facts.items)
            ≡ facts_on (base_of self.now.known.now) (turns self.now)) }
        ensures unmarked { IfOk result (λ facts. All IsUnmarked (map value_of facts.items)) }
    {
        let splits = copied(alloc, &self.splits)?;
        let taken = taken_facts(alloc, splits)?;
        with_copies(alloc, taken, self.known.facts)
    }
}

/// Returns a copy of the splits.
fn copied<'a>(alloc: Global, splits: &[Split<'a>]) -> Result<Vec<Split<'a>>, AllocError>
    ensures { IfOk result (λ copy. copy.items ≡ splits.now) }
{
    Vec::from_slice(alloc, splits)
}

/// Returns the pairs that are taken as facts, the last one first, without marks.
#[tactic(auto, using(crate::proofs::OnPath::unmarked_facts))]
fn taken_facts(alloc: Global, splits: Vec<Split<'_>>) -> Result<Vec<Cfg>, AllocError>
    ensures pairs { IfOk result (λ facts. map pair_of (map value_of facts.items)
        ≡ taken (reverse (map turn_of splits.entry.items))) }
    ensures unmarked { IfOk result (λ facts. All IsUnmarked (map value_of facts.items)) }
{
    let mut left = splits;
    let mut facts = Vec::new(alloc);
    'splits: while let Some(split) = left.pop() {
        if split.holds {
            facts.push(unmarked(alloc, split.fact)?)?;
        }
    }
    Ok(facts)
}

/// Appends copies of facts, without their raw marks, to the others.
fn with_copies(alloc: Global, mut facts: Vec<Cfg>, others: &[Cfg]) -> Result<Vec<Cfg>, AllocError>
    ensures { IfOk result (λ all. map value_of all.items
        ≡ map value_of facts.items ++ map unmarked (map value_of others.now)) }
{
    for other in others {
        facts.push(unmarked(alloc, other)?)?;
    }
    Ok(facts)
}

/// Returns the fact without its raw mark.
fn unmarked(alloc: Global, fact: &Cfg) -> Result<Cfg, AllocError>
    ensures { IfOk result (λ r. value_of r ≡ unmarked (value_of fact.now)) }
{
    match fact {
        Cfg::Name(name) => Ok(Cfg::Name(unmarked_name(alloc, name)?)),
        Cfg::KeyPair(key, value) => Ok(Cfg::KeyPair(
            unmarked_name(alloc, key)?,
            String::from_str(alloc, value.as_str())?,
        )),
    }
}

fn unmarked_name(alloc: Global, name: &Ident) -> Result<Ident, AllocError>
    ensures { IfOk result (λ r. name_of r ≡ record { raw = false; name = string_bytes name.now.name }) }
{
    Ok(Ident {
        name: String::from_str(alloc, name.as_str())?,
        raw: false,
    })
}
