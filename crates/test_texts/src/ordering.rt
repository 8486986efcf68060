//! Equality, order and hash, and keys of maps.

use crate::asked;
use cargo_platform::{Cfg, CfgExpr};
use std::alloc::{AllocError, Global};
use std::cmp::Ordering;
use std::collections::{BTreeMap, HashMap};
use std::hash::{DefaultHasher, Hash, Hasher};
use test_rows::bars::text_of;
use test_rows::fields::Fields;
use test_rows::forms::{self, word};
use test_rows::{Fault, made_facts, texts};

/// Returns the answer to a row whose words are `fields`. `call` is the part of its kind after the dot.
pub fn answer(alloc: Global, call: &str, fields: &mut Fields<'_>) -> Result<String, Fault> {
    match call {
        "exprs" => of_expressions(alloc, fields),
        "keys" => of_keys(alloc, fields),
        "facts" => of_facts(alloc, fields),
        "names" => of_names(alloc, fields),
        "name-is" => is_name(alloc, fields),
        "in-maps" => in_maps(alloc, fields),
        "found" => found(alloc, fields),
        _ => Err(Fault::Row("there is no such kind")),
    }
}

fn of_expressions(alloc: Global, fields: &mut Fields<'_>) -> Result<String, Fault> {
    let a = asked::expression(alloc, fields)?;
    stands(alloc, &a, &asked::expression(alloc, fields)?)
}

fn of_keys(alloc: Global, fields: &mut Fields<'_>) -> Result<String, Fault> {
    let a = asked::key(alloc, fields)?;
    stands(alloc, &a, &asked::key(alloc, fields)?)
}

fn of_facts(alloc: Global, fields: &mut Fields<'_>) -> Result<String, Fault> {
    let a = made_facts::value(alloc, fields.need()?)?;
    stands(alloc, &a, &made_facts::value(alloc, fields.need()?)?)
}

fn of_names(alloc: Global, fields: &mut Fields<'_>) -> Result<String, Fault> {
    let a = made_facts::name(alloc, fields.need()?)?;
    stands(alloc, &a, &made_facts::name(alloc, fields.need()?)?)
}

/// Returns whether a name is that of a text.
fn is_name(alloc: Global, fields: &mut Fields<'_>) -> Result<String, Fault> {
    let name = made_facts::name(alloc, fields.need()?)?;
    let text = fields.text(alloc)?;
    Ok(forms::yes_or_no(alloc, name.eq_text(&text))?)
}

fn hash_of<T: Hash>(x: &T) -> u64 {
    let mut state = DefaultHasher::new();
    x.hash(&mut state);
    state.finish()
}

/// Returns how the first value compares with the second one, if all comparisons and the hashes agree.
fn stands<T: Ord + Hash>(alloc: Global, a: &T, b: &T) -> Result<String, Fault> {
    let order = a.cmp(b);
    if !is_agreed(a, b, order) {
        return Ok(word(alloc, "the comparisons do not agree")?);
    }
    let order = match order {
        Ordering::Less => "less",
        Ordering::Equal => "equal",
        Ordering::Greater => "greater",
    };
    Ok(word(alloc, order)?)
}

fn is_agreed<T: Ord + Hash>(a: &T, b: &T, order: Ordering) -> bool {
    b.cmp(a) == order.reverse()
        && a.partial_cmp(b) == Some(order)
        && (a == b) == order.is_eq()
        && (hash_of(a) == hash_of(b)) == order.is_eq()
}

/// Returns the values as keys of a map in their order, and the number of keys in a hash map.
fn in_maps(alloc: Global, fields: &mut Fields<'_>) -> Result<String, Fault> {
    let mut sorted: BTreeMap<Cfg, usize> = BTreeMap::new(alloc);
    let mut hashed: HashMap<Cfg, usize> = HashMap::new(alloc);
    for value in made_facts::values(alloc, fields)? {
        insert_hashed(&mut hashed, value.clone(alloc)?, 0)?;
        insert_sorted(&mut sorted, value, 0)?;
    }
    Ok(in_order(alloc, &sorted, hashed.len())?)
}

fn in_order(
    alloc: Global,
    sorted: &BTreeMap<Cfg, usize>,
    count: usize,
) -> Result<String, AllocError> {
    let mut out = String::new(alloc);
    for key in sorted.keys() {
        forms::add_value(&mut out, key)?;
        out.push(' ')?;
    }
    write!(out, "of {count}")?;
    Ok(out)
}

/// Returns the expressions of a list of texts.
fn expressions(alloc: Global, fields: &mut Fields<'_>) -> Result<Vec<CfgExpr>, Fault> {
    let mut all = Vec::new(alloc);
    for word in fields.list(alloc)? {
        all.push(expression(alloc, word)?)
            .map_err(AllocError::from)?;
    }
    Ok(all)
}

fn expression(alloc: Global, word: &str) -> Result<CfgExpr, Fault> {
    texts::expression(alloc, &text_of(alloc, word)?)
}

/// Returns for each expression that is looked up the number of the last one that was inserted under it, in maps of both
/// kinds.
fn found(alloc: Global, fields: &mut Fields<'_>) -> Result<String, Fault> {
    let mut sorted: BTreeMap<CfgExpr, usize> = BTreeMap::new(alloc);
    let mut hashed: HashMap<CfgExpr, usize> = HashMap::new(alloc);
    for (at, key) in expressions(alloc, fields)?.into_iter().enumerate() {
        insert_hashed(&mut hashed, key.clone(alloc)?, at.saturating_add(1))?;
        insert_sorted(&mut sorted, key, at.saturating_add(1))?;
    }
    Ok(numbers(alloc, &sorted, &hashed, &expressions(alloc, fields)?)?)
}

fn numbers(
    alloc: Global,
    sorted: &BTreeMap<CfgExpr, usize>,
    hashed: &HashMap<CfgExpr, usize>,
    asked: &[CfgExpr],
) -> Result<String, AllocError> {
    let mut out = word(alloc, "found:")?;
    for key in asked {
        let number = sorted.get(key).copied();
        if hashed.get(key).copied() != number {
            out.push_str(", by hash otherwise")?;
        }
        match number {
            Some(number) => write!(out, " {number}")?,
            None => out.push_str(" none")?,
        }
    }
    Ok(out)
}

fn insert_sorted<K: Ord + Drop>(
    sorted: &mut BTreeMap<K, usize>,
    key: K,
    number: usize,
) -> Result<(), AllocError> {
    let inserted: Result<_, _> = sorted.insert(key, number);
    let _before = inserted?;
    Ok(())
}

fn insert_hashed<K: Eq + Hash + Drop>(
    hashed: &mut HashMap<K, usize>,
    key: K,
    number: usize,
) -> Result<(), AllocError> {
    let inserted: Result<_, _> = hashed.insert(key, number);
    let _before = inserted?;
    Ok(())
}
