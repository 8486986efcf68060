//! The work that a query on two keys may take.

use cargo_platform::{Platform, values_of};
use std::alloc::{AllocError, Global};

/// The number of case splits that every budget but 0 allows. They take no noticeable time.
const LEAST: u64 = 8;

/// Two keys: their texts and conditions.
#[derive(Clone, Copy)]
pub struct KeyPair<'a> {
    pub first: &'a str,
    pub a: &'a Platform,
    pub second: &'a str,
    pub b: &'a Platform,
}

/// Returns how many facts the keys use, each counted once.
fn count_of_facts(alloc: Global, keys: &KeyPair<'_>) -> Result<u64, AllocError> {
    let mut facts = values_of(alloc, keys.a)?;
    for fact in &values_of(alloc, keys.b)? {
        facts.push(*fact)?;
    }
    facts.sort()?;
    facts.dedup();
    Ok(u64::try_from(facts.len()).unwrap_or(u64::MAX))
}

/// Returns how many steps a case split takes: one for each byte of both keys, which are read whole, and one for each
/// pair of their facts, which are compared.
fn steps_of_split(alloc: Global, keys: &KeyPair<'_>) -> Result<u64, AllocError> {
    let facts = count_of_facts(alloc, keys)?;
    let bytes = keys.first.len().saturating_add(keys.second.len());
    let bytes = u64::try_from(bytes).unwrap_or(u64::MAX);
    Ok(bytes.saturating_add(facts.saturating_mul(facts) / 2))
}

/// Returns how many case splits fit in this number of steps.
pub fn case_split_budget(alloc: Global, keys: &KeyPair<'_>, steps: u64) -> Result<u64, AllocError> {
    if steps == 0 {
        return Ok(0);
    }
    let split = steps_of_split(alloc, keys)?;
    Ok((steps / split.max(1)).max(LEAST))
}
