//! Answers by the sampled sets of facts, for a search that takes too many case splits.

ghost use Rattle.std.specs.Prelude.{◌≡◌, map, IfOk, IsTrue};
ghost use Rattle.std.specs.List.{list_any};
ghost use Rattle.cargo_platform.specs.Trees.{value_of, condition_of};
ghost use Rattle.cargo_platform.specs.Facts.{fact_set, pair_of};
ghost use Rattle.exact_answers.specs.Possible.{IsAllowed};
ghost use Rattle.partial_facts.specs.Partly.{names_of};
ghost use Rattle.manifest_lints.specs.Truths.{CanBe};
ghost use Rattle.manifest_lints.specs.Doubled.{are_two, has_doubled, pairs_at};

use crate::sample_sets::{find_sample, holds_over, is_of_key};
use cargo_platform::{Cfg, Platform};
use exact_answers::FactConstraints;
use std::alloc::{AllocError, Global};

/// Returns whether a sampled set of facts shows that the condition can have this truth value. Fails if memory is
/// refused.
pub fn is_shown(
    alloc: Global,
    platform: &Platform,
    known: &FactConstraints<'_>,
    truth: bool,
) -> Result<bool, AllocError>
    ensures { IfOk result (λ shown. IsTrue shown → CanBe truth known.now (condition_of platform.now)) }
{
    let facts = find_sample(alloc, platform, truth)?;
    if !are_possible(&facts, known) {
        return Ok(false);
    }
    let holds = holds_over(alloc, platform, &facts)?;
    Ok(is_same(holds, truth))
}

/// Returns whether two truth values are the same.
fn is_same(first: bool, second: bool) -> bool
    ensures { IsTrue result → first ≡ second }
{
    first == second
}

/// Returns whether the facts are shown to be possible. They are not if some facts are listed, or names are complete.
#[tactic(auto, using(crate::proofs::Tried::are_possible))]
fn are_possible(facts: &[Cfg], known: &FactConstraints<'_>) -> bool
    ensures { IsTrue result → IsAllowed known.now (fact_set (map value_of facts.now)) }
{
    if !known.facts.is_empty() {
        return false;
    }
    if !known.complete.is_empty() {
        return false;
    }
    if has_doubled(facts, known.single) {
        return false;
    }
    known.assumed.matches(facts)
}

/// Returns whether one of these keys has two values among the facts.
fn has_doubled(facts: &[Cfg], single: &[&str]) -> bool
    ensures { result ≡ has_doubled (names_of single.now) (pairs_at facts.now) }
{
    'facts: for c in facts {
        if is_of_key(c, single) && is_doubled(c, facts) {
            return true;
        }
    }
    false
}

/// Returns whether one of the facts is another value of the key of `c`.
fn is_doubled(c: &Cfg, facts: &[Cfg]) -> bool
    ensures { result ≡ list_any (are_two (pair_of (value_of c.now))) (pairs_at facts.now) }
{
    'facts: for other in facts {
        if are_two(c, other) {
            return true;
        }
    }
    false
}

/// Returns whether two facts are different values of one key.
fn are_two(c: &Cfg, other: &Cfg) -> bool
    ensures { result ≡ are_two (pair_of (value_of c.now)) (pair_of (value_of other.now)) }
{
    match (c, other) {
        (Cfg::KeyPair(key, value), Cfg::KeyPair(other_key, other_value)) => {
            key.as_str() == other_key.as_str() && value.as_str() != other_value.as_str()
        }
        _ => false,
    }
}
