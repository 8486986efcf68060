//! The sampled sets of facts. Each has the facts of a known target, and some facts that are not rustc's.

ghost use Rattle.std.specs.Prelude.{◌≡◌, ◌<◌, ◌*◌, ◌==◌, ◌&&◌, ◌||◌, ℕ, true, false, [], map, length};
ghost use Rattle.std.specs.Prelude.{IfOk, IfSome, IfNone};
ghost use Rattle.std.specs.FinSet.{contains};
ghost use Rattle.cargo_platform.specs.Trees.{Expression, value_of, tree_of, condition_of};
ghost use Rattle.cargo_platform.specs.Facts.{fact_set, pair_of, truth_of_condition};
ghost use Rattle.partial_facts.specs.OneValued.{is_single, has_key};
ghost use Rattle.partial_facts.specs.Partly.{names_of};
ghost use Rattle.known_targets.specs.Groups.{both};
ghost use Rattle.known_targets.specs.Sets.{is_member};
ghost use Rattle.known_targets.specs.Table.{target_facts};
ghost use Rattle.known_targets.specs.declared.table.TheConstants.{COUNT};
ghost use Rattle.manifest_lints.specs.Samples.{AreBits, AreTruths, is_rustcs, holds, holds_beside, text_of};
ghost use Rattle.manifest_lints.specs.Numbers.{is_unknown_value, same_pair, has_pair, unknown_beside};
ghost use Rattle.manifest_lints.specs.Numbers.{pair_at, truths_with, apart, apart_of, summed, IsNumberOf};
ghost use Rattle.manifest_lints.specs.Samples.{is_set, is_only, mixed, spread, mixed_truths};

use cargo_platform::{Cfg, CfgExpr, FactIndex, Fold, Platform, fold_expression, values_of};
use known_targets::{KnownTarget, TargetSet, names, targets_with_fact};
use partial_facts::ONE_VALUED;
use partial_facts::names::is_among;
use std::alloc::{AllocError, Global};
use std::ops::ControlFlow;

/// The distance between the known targets whose facts are in the sampled sets.
const STRIDE: usize = 5;

/// Returns whether the condition is true over the facts, for a target whose name is empty. Fails if memory is refused.
pub fn holds_over(alloc: Global, platform: &Platform, facts: &[Cfg]) -> Result<bool, AllocError>
    ensures { IfOk result
        (λ b. b ≡ truth_of_condition [] (fact_set (map value_of facts.now)) (condition_of platform.now)) }
{
    match platform {
        Platform::Name(name) => Ok(name.as_str() == ""),
        Platform::Cfg(e) => {
            let index = FactIndex::new(alloc, facts)?;
            Ok(e.matches_in(&index))
        }
    }
}

/// Returns the facts of a sampled set over which the condition has the truth value `wanted`, if there is such a set.
/// Fails if memory is refused.
pub fn find_sample(
    alloc: Global,
    platform: &Platform,
    wanted: bool,
) -> Result<Vec<Cfg>, AllocError> {
    let Platform::Cfg(e) = platform else {
        return Ok(Vec::new(alloc));
    };
    let truths = truths(alloc, e)?;
    let place = if wanted {
        truths.trailing_zeros()
    } else {
        truths.trailing_ones()
    };
    facts_at(alloc, platform, place)
}

/// Returns the facts of the set at an index: those of its target, and those of the condition that are in the set
/// besides.
fn facts_at(alloc: Global, platform: &Platform, place: u32) -> Result<Vec<Cfg>, AllocError> {
    let index = (place as usize).saturating_mul(STRIDE);
    let target = match names().get(index) {
        Some(name) => KnownTarget::by_name(name),
        None => None,
    };
    let mut facts = match target {
        Some(target) => target.facts(alloc)?,
        None => Vec::new(alloc),
    };
    for each in &values_of(alloc, platform)? {
        let c: &Cfg = *each;
        if place < 64 && targets_of(c).is_none() && (mixed_truths(c) >> place) & 1 == 1 {
            facts.push(c.clone(alloc)?)?;
        }
    }
    Ok(facts)
}

/// Returns the truth values of an expression over 64 possible sets of facts, one bit each. Each set has the facts of a
/// known target, and some facts that are not rustc's. Fails if memory is refused.
pub fn truths(alloc: Global, e: &CfgExpr) -> Result<u64, AllocError>
    ensures { IfOk result (AreTruths (holds_beside None) (tree_of e.now)) }
{
    fold_expression(alloc, e, &OverSamples { other: None })
}

/// The 64 sets of facts, each of which has one bit in the result.
#[derive(Clone, Copy, Drop)]
struct OverSamples<'a> {
    /// The pair that replaces, in each set, the pair of its key.
    other: Option<Other<'a>>,
}

/// A key with one value, and the value that replaces that of a known target. With `None`, no pair of the key is a fact.
#[derive(Clone, Copy, Drop)]
struct Other<'a> {
    key: &'a str,
    value: Option<&'a str>,
}

impl<'a> OverSamples<'a> {
    /// Returns the truth values of a name or pair.
    fn truths_at(&self, c: &Cfg) -> u64
        ensures { AreBits (λ l. holds_beside self.now.other l (pair_of (value_of c.now))) result }
    {
        match self.other {
            None => truths_of(c),
            Some(other) => truths_beside(other, c),
        }
    }
}

/// Returns the truth values of a name or pair if a key has another value.
fn truths_beside(other: Other<'_>, c: &Cfg) -> u64
    ensures { AreBits (λ l. holds_beside (Some other.entry) l (pair_of (value_of c.now))) result }
{
    if is_value_of(c, other.key) {
        return everywhere(has_only(c, other.value));
    }
    truths_of(c)
}

/// Returns whether the fact is a value of this key.
fn is_value_of(c: &Cfg, key: &str) -> bool
    ensures { result ≡ has_key key.now (pair_of (value_of c.now)) }
{
    match c {
        Cfg::Name(_) => false,
        Cfg::KeyPair(own, _) => own.as_str() == key,
    }
}

/// Returns whether the fact has this value. Without a value, it has not.
fn has_only(c: &Cfg, only: Option<&str>) -> bool
    ensures { result ≡ is_only (text_of only.entry) (pair_of (value_of c.now)).value }
{
    match c {
        Cfg::Name(_) => false,
        Cfg::KeyPair(_, value) => is_only(only, value.as_str()),
    }
}

/// Returns whether the text is this value. Without a value, it is not.
fn is_only(only: Option<&str>, value: &str) -> bool
    ensures { result ≡ is_only (text_of only.entry) (Some value.now) }
{
    match only {
        Some(only) => value == only,
        None => false,
    }
}

impl<'a> Fold for OverSamples<'a> {
    ghost use Rattle.cargo_platform.specs.Walk.{list_tree};

    type Part = u64;

    /// The truth values of the group so far.
    type Members = u64;

    ghost makes = { λ sets e part. AreTruths (holds_beside sets.other) e part };

    ghost gathers = { λ sets neutral es so_far. AreTruths (holds_beside sets.other) (list_tree neutral es) so_far };

    fn value(&self, c: &Cfg) -> Result<u64, AllocError> {
        Ok(self.truths_at(c))
    }

    fn literal(&self, truth: bool) -> u64 {
        everywhere(truth)
    }

    fn negation(&self, part: u64) -> Result<u64, AllocError> {
        Ok(!part)
    }

    fn no_members(&self, neutral: bool) -> u64 {
        everywhere(neutral)
    }

    fn add(
        &self,
        neutral: bool,
        so_far: u64,
        part: u64,
    ) -> Result<ControlFlow<u64, u64>, AllocError> {
        Ok(ControlFlow::Continue(joined(neutral, so_far, part)))
    }

    fn group(&self, _neutral: bool, members: u64) -> u64 {
        members
    }
}

/// A key that has one value, and its value, as texts.
type Pair<'a> = (&'a str, &'a str);

/// The maximum number of values that no known target has for which the truth values of a condition are computed.
const FEW: usize = 8;

/// Returns whether the fact is a value that no known target has, of a key that has one value.
fn is_unknown(c: &Cfg) -> bool
    ensures { result ≡ is_unknown_value (pair_of (value_of c.now)) }
{
    if is_of_key(c, ONE_VALUED) {
        return targets_with_fact(c).is_empty();
    }
    false
}

/// Returns the key and the value of a fact if no known target has the value, and the key has one value.
fn unknown_value(c: &Cfg) -> Option<Pair<'_>>
    ensures some { IfSome result (λ x. pair_at x ≡ pair_of (value_of c.now)) }
    ensures unknown { IfSome result (λ x. is_unknown_value (pair_of (value_of c.now)) ≡ true) }
    ensures none { IfNone result (is_unknown_value (pair_of (value_of c.now)) ≡ false) }
{
    match c {
        Cfg::Name(_) => None,
        Cfg::KeyPair(key, value) => {
            if is_unknown(c) {
                return Some((key.as_str(), value.as_str()));
            }
            None
        }
    }
}

/// Returns whether the list contains a pair.
fn has_pair(pairs: &[Pair<'_>], pair: Pair<'_>) -> bool
    ensures { result ≡ has_pair (map pair_at pairs.now) (pair_at pair.entry) }
{
    'pairs: for other in pairs {
        if is_pair(pair, *other) {
            return true;
        }
    }
    false
}

/// Returns whether two pairs are the same.
fn is_pair(pair: Pair<'_>, other: Pair<'_>) -> bool
    ensures { result ≡ same_pair (pair_at pair.entry) (pair_at other.entry) }
{
    pair.0 == other.0 && pair.1 == other.1
}

/// Returns the values in a condition that no known target has, of keys that have one value, each once. Returns `None`
/// if there are more than `FEW`.
fn unknown_values<'a>(
    alloc: Global,
    values: &[&'a Cfg],
) -> Result<Option<Vec<Pair<'a>>>, AllocError>
    ensures some { IfOk result (λ o. IfSome o (λ found. map pair_at found.items
        ≡ unknown_beside [] (map pair_of (map (λ c. value_of c.now) values.now)))) }
    ensures none { IfOk result (λ o. IfNone o (FEW
        < length (unknown_beside [] (map pair_of (map (λ c. value_of c.now) values.now))))) }
{
    let mut found: Vec<Pair<'a>> = Vec::new(alloc);
    'values: for each in values {
        if found.len() > FEW {
            return Ok(None);
        }
        let c: &'a Cfg = *each;
        let Some(pair) = unknown_value(c) else {
            continue;
        };
        if has_pair(&found, pair) {
            continue;
        }
        found.push(pair)?;
    }
    if found.len() > FEW {
        return Ok(None);
    }
    Ok(Some(found))
}

/// Returns a number for the truth values of an expression if a key has this value: 0 if they are the same as without
/// the value.
fn apart(alloc: Global, e: &CfgExpr, pair: Pair<'_>) -> Result<u64, AllocError>
    ensures { IfOk result (λ n. n ≡ apart_of (tree_of e.now) (pair_at pair.entry)) }
{
    let (key, value) = pair;
    let without = truths_beside_key(alloc, e, key, None)?;
    let with = truths_beside_key(alloc, e, key, Some(value))?;
    Ok(number_apart(with, without, key, value))
}

/// Returns the truth values of an expression if a key has only this value, or none.
fn truths_beside_key(
    alloc: Global,
    e: &CfgExpr,
    key: &str,
    value: Option<&str>,
) -> Result<u64, AllocError>
    ensures { IfOk result (λ w. w ≡ truths_with key.now (text_of value.entry) (tree_of e.now)) }
{
    let other = Some(Other { key, value });
    let truths = fold_expression(alloc, e, &OverSamples { other })?;
    Ok(truths)
}

/// Returns a number for truth values with a value: 0 if they are the same as those without it.
fn number_apart(with: u64, without: u64, key: &str, value: &str) -> u64
    ensures { result ≡ apart with without (pair_at (key.entry, value.entry)) }
{
    if with == without {
        return 0;
    }
    let number = mixed(spread(with), key);
    spread(mixed(number.wrapping_add(1), value))
}

/// Returns the sum of the numbers of an expression for each of these values.
fn sum_apart(alloc: Global, e: &CfgExpr, pairs: &[Pair<'_>]) -> Result<u64, AllocError>
    ensures { IfOk result (λ n. n ≡ summed (apart_of (tree_of e.now)) 0 (map pair_at pairs.now)) }
{
    let mut sum: u64 = 0;
    'pairs: for pair in pairs {
        sum = sum.wrapping_add(apart(alloc, e, *pair)?);
    }
    Ok(sum)
}

/// Returns a number that is the same for conditions that are equivalent over each possible set of facts. It depends on
/// their truth values over sets in which a key has a value that no known target has. Returns `None` if there are too
/// many of these values. Fails if memory is refused.
pub fn equivalence_fingerprint(
    alloc: Global,
    platform: &Platform,
    e: &CfgExpr,
) -> Result<Option<u64>, AllocError>
    ensures { condition_of platform.now ≡ Expression (tree_of e.now) → IfOk result (IsNumberOf (tree_of e.now)) }
{
    let values = values_of(alloc, platform)?;
    match unknown_values(alloc, &values)? {
        Some(pairs) => Ok(Some(sum_apart(alloc, e, &pairs)?)),
        None => Ok(None),
    }
}

/// Returns the truth values of a group with one more member.
fn joined(neutral: bool, so_far: u64, part: u64) -> u64
    ensures { AreBits (λ l. both neutral (is_set so_far l) (is_set part l)) result }
{
    if neutral {
        so_far & part
    } else {
        so_far | part
    }
}

/// Returns the same truth value for each of the sets.
fn everywhere(truth: bool) -> u64
    ensures { AreBits (λ l. truth) result }
{
    if truth { u64::MAX } else { 0 }
}

/// Returns the truth values of a name or pair.
fn truths_of(c: &Cfg) -> u64
    ensures { AreBits (λ l. holds l (pair_of (value_of c.now))) result }
{
    match targets_of(c) {
        Some(targets) => sampled(targets),
        None => mixed_truths(c),
    }
}

/// Returns, one bit each, whether the targets whose facts are in the sampled sets are in this set of targets.
fn sampled(targets: TargetSet) -> u64
    ensures { AreBits (λ l. is_member targets (l * STRIDE)) result }
{
    let words = targets.words();
    let mut truths = 0;
    'places: for place in 0..64usize {
        let index = place * STRIDE;
        let is_there = (words[index / 64] >> (index % 64)) & 1 == 1;
        truths = with_bit(truths, place, is_there);
    }
    truths
}

/// Returns the word, with the bit at `place` set if `is_there`.
fn with_bit(word: u64, place: usize, is_there: bool) -> u64
    requires { place < 64 }
    ensures { (l : ℕ) → is_set result l ≡ (((l == place) && is_there) || is_set word l) }
{
    if is_there {
        word | (1u64 << place)
    } else {
        word
    }
}

/// Returns the known targets that have a name or pair, if it is one of rustc's: one that some target has, or a value of
/// a key that has one value.
fn targets_of(c: &Cfg) -> Option<TargetSet>
    ensures some { IfSome result (λ targets. is_rustcs (pair_of (value_of c.now)) ≡ true) }
    ensures members { IfSome result (λ targets. (k : ℕ) → k < COUNT
        → is_member targets k ≡ contains (target_facts k) (pair_of (value_of c.now))) }
    ensures none { IfNone result (is_rustcs (pair_of (value_of c.now)) ≡ false) }
{
    let targets = targets_with_fact(c);
    if is_of_key(c, ONE_VALUED) {
        return Some(targets);
    }
    if targets.is_empty() {
        return None;
    }
    Some(targets)
}

/// Returns whether the fact is a value of one of these keys.
pub fn is_of_key(c: &Cfg, keys: &[&str]) -> bool
    ensures { result ≡ is_single (names_of keys.now) (pair_of (value_of c.now)) }
{
    match c {
        Cfg::Name(_) => false,
        Cfg::KeyPair(key, _) => is_among(key.as_str(), keys),
    }
}

/// The initial value for the hash of a name or pair.
const START: u64 = 0xcbf2_9ce4_8422_2325;

/// Returns the truth values of a name or pair that is not rustc's.
fn mixed_truths(c: &Cfg) -> u64
    ensures { result ≡ mixed_truths (pair_of (value_of c.now)) }
{
    match c {
        Cfg::Name(name) => spread(mixed(START, name.as_str())),
        Cfg::KeyPair(key, value) => {
            let number = mixed(START, key.as_str()).wrapping_add(1);
            spread(mixed(number, value.as_str()))
        }
    }
}

/// Returns a hash of the text, which starts with the value `start`.
fn mixed(start: u64, text: &str) -> u64
    ensures { result ≡ mixed start text.now }
{
    let mut mixed = start;
    'bytes: for byte in text.as_bytes() {
        mixed = (mixed ^ u64::from(*byte)).wrapping_mul(0x0100_0000_01b3);
    }
    mixed
}

/// Returns a number in which each bit depends on each bit of this one.
fn spread(number: u64) -> u64
    ensures { result ≡ spread number }
{
    let number = (number ^ (number >> 33)).wrapping_mul(0xff51_afd7_ed55_8ccd);
    let number = (number ^ (number >> 33)).wrapping_mul(0xc4ce_b9fe_1a85_ec53);
    number ^ (number >> 33)
}
