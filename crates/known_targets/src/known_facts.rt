//! The facts of the table, each once.

ghost use Rattle.std.specs.Prelude.{◌≡◌, ◌<◌, ◌++◌, [], ◌∷◌, ℕ, IfOk, OnOk};
ghost use Rattle.std.specs.List.{All, filter};
ghost use Rattle.std.specs.List.Sorted.{IsStrictlySortedBy};
ghost use Rattle.cargo_platform.specs.Trees.{value_of};
ghost use Rattle.cargo_platform.specs.Key.{value_cmp};
ghost use Rattle.cargo_platform.specs.Facts.{fact_set};
ghost use Rattle.cargo_platform.specs.FactLaws.{HasAllFacts};
ghost use Rattle.known_targets.specs.Rows.{keys_of, values_of};
ghost use Rattle.known_targets.specs.Table.{table_keys, target_facts};
ghost use Rattle.known_targets.specs.Listed.{fact_values, IsFactOf, is_had, pairs_of, values_in};

use crate::listing::unmarked;
use crate::rows::{Key, Value, targets_with};
use crate::table::COUNT;
use crate::target_set::TargetSet;
use crate::views::keys;
use cargo_platform::Cfg;
use std::alloc::{AllocError, Global};

/// A fact that some known target has, and the targets that have it.
#[derive(Drop)]
pub struct KnownFact {
    pub fact: Cfg,
    pub targets: TargetSet,
}

/// Returns each fact that some known target has, once, in the order of `Cfg`, with the targets that have it.
///
/// No known target has a fact that is not among them. Fails only if an allocation fails.
pub fn all_facts(alloc: Global) -> Result<Vec<KnownFact>, AllocError>
    // The facts are sorted, and each occurs once.
    ensures sorted { IfOk result (λ facts. IsStrictlySortedBy value_cmp (fact_values facts.items)) }
    // Each fact has exactly the targets that have it, and some do.
    ensures each { IfOk result (λ facts. All (IsFactOf table_keys) facts.items) }
    // The list has each fact of a known target.
    ensures all { IfOk result (λ facts. (k : ℕ) → k < COUNT
        → HasAllFacts (target_facts k) (fact_set (fact_values facts.items))) }
{
    had(alloc, keys())
}

/// Returns the facts of these rows that some target has: the names alone, and after them the pairs.
fn had(alloc: Global, keys: &[Key]) -> Result<Vec<KnownFact>, AllocError>
    ensures values { IfOk result (λ facts. fact_values facts.items
        ≡ filter (is_had (keys_of keys.now)) (values_in (keys_of keys.now))) }
    ensures each { IfOk result (λ facts. All (IsFactOf (keys_of keys.now)) facts.items) }
{
    let mut facts = Vec::new(alloc);
    'names: for i in 0..keys.len() {
        let key = &keys[i];
        add(keys, Cfg::Name(unmarked(alloc, key.0)?), &mut facts)?;
    }
    'keys: for i in 0..keys.len() {
        let key = &keys[i];
        add_pairs(alloc, keys, key.0, key.2, &mut facts)?;
    }
    Ok(facts)
}

/// Appends the pairs of a key that some target has.
fn add_pairs(
    alloc: Global,
    keys: &[Key],
    key: &str,
    values: &[Value],
    facts: &mut Vec<KnownFact>,
) -> Result<(), AllocError>
    ensures values { OnOk result (fact_values facts.new.items ≡ fact_values facts.old.items
        ++ filter (is_had (keys_of keys.now)) (pairs_of key.now (values_of values.now))) }
    ensures each { OnOk result (All (IsFactOf (keys_of keys.now)) facts.old.items
        → All (IsFactOf (keys_of keys.now)) facts.new.items) }
{
    'values: for i in 0..values.len() {
        let value = &values[i];
        let pair = Cfg::KeyPair(unmarked(alloc, key)?, String::from_str(alloc, value.0)?);
        add(keys, pair, facts)?;
    }
    Ok(())
}

/// Appends the fact with its targets, if it has any.
fn add(keys: &[Key], fact: Cfg, facts: &mut Vec<KnownFact>) -> Result<(), AllocError>
    ensures values { OnOk result (fact_values facts.new.items
        ≡ fact_values facts.old.items ++ filter (is_had (keys_of keys.now)) (value_of fact ∷ [])) }
    ensures each { OnOk result (All (IsFactOf (keys_of keys.now)) facts.old.items
        → All (IsFactOf (keys_of keys.now)) facts.new.items) }
{
    let targets = targets_with(keys, &fact);
    if !targets.is_empty() {
        facts.push(KnownFact { fact, targets })?;
    }
    Ok(())
}
