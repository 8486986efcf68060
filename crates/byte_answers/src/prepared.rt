//! Facts that are prepared for matching: their texts, an index with the place of each fact among these texts, and a
//! filter that rules most other facts out.

ghost use Rattle.std.specs.Prelude.{◌≡◌, ◌<◌, ◌^◌, ◌*◌, ◌++◌, ℕ, List, OnOk, IfOk, MatchOption, true, false, length};
ghost use Rattle.std.specs.Prelude.{map, set};
ghost use Rattle.std.specs.Int.{to_le_bytes};
ghost use mir.Syntax.{w64};
ghost use Rattle.cargo_platform.specs.Trees.{value_of};
ghost use Rattle.cargo_platform.specs.Facts.{Pair, FactSet, pair_of, fact_set};
ghost use Rattle.std.specs.FinSet.{contains};
ghost use Rattle.byte_answers.specs.Prepared.{Entry, entry_bytes, fact_texts, value_mark, with_numbers, index_of};
ghost use Rattle.byte_answers.specs.Prepared.{Admits, IsAt, IsEntry, IsFactOf, IsSought, Means, StandFor, entry_of};
ghost use Rattle.byte_answers.specs.Prepared.{hash};

use crate::unflat::{last_bytes, last_number};
use cargo_platform::Cfg;
use std::alloc::{AllocError, Global};

/// The number that ends prepared facts. Another format has another number.
const FORMAT: usize = 0x3273_7463_6166_7067;

/// The bytes of an entry of the index.
const ENTRY: usize = 24;

/// The bytes of the filter.
const FILTER: usize = 256;

/// Prepared facts, in their three parts.
#[derive(Clone, Copy, Drop)]
pub(crate) struct Prepared<'a> {
    pub(crate) texts: &'a [u8],
    pub(crate) index: &'a [u8],
    pub(crate) filter: &'a [u8],
}

/// A fact to look up.
#[derive(Clone, Copy, Drop)]
pub(crate) struct Sought<'a> {
    /// Its name, followed by its value.
    pub(crate) texts: &'a [u8],
    pub(crate) name_size: usize,
    /// 0 for a name alone, and 1 more than the length of the value for a pair.
    pub(crate) value_mark: usize,
}

/// Returns the three parts of prepared facts.
pub(crate) fn open(bytes: &[u8]) -> Option<Prepared<'_>>
    ensures { MatchOption result
        ((texts filter : List ℕ) (es : List Entry) → length filter ≡ 256
        → with_numbers texts (index_of es ++ filter) ≡ bytes.now → ⊥)
        (λ p. (with_numbers p.texts.now (p.index.now ++ p.filter.now) ≡ bytes.now)
        × (length p.filter.now ≡ 256) × ((k : ℕ) × (length p.index.now ≡ 24 * k))) }
{
    let (rest, format) = last_number(bytes)?;
    if format != FORMAT {
        return None;
    }
    let (rest, size) = last_number(rest)?;
    if rest.len() < size {
        return None;
    }
    let (texts, rest) = rest.split_at(size);
    let (index, filter) = last_bytes(rest, FILTER)?;
    if index.len() % ENTRY != 0 {
        return None;
    }
    Some(Prepared {
        texts,
        index,
        filter,
    })
}

/// Returns the hash of the texts of a fact.
fn hash_of(texts: &[u8]) -> usize
    ensures hash { result ≡ hash texts.now }
    ensures small { result < 256 }
{
    match last_number(texts) {
        Some((_front, number)) => number % 251,
        None => 0,
    }
}

/// Returns whether the filter admits a fact with these texts.
fn admits(filter: &[u8], texts: &[u8]) -> bool
    ensures admitted { result ≡ true → Admits filter.now texts.now }
    ensures rejected { result ≡ false → Admits filter.now texts.now → ⊥ }
{
    match filter.get(hash_of(texts)) {
        Some(mark) => *mark == 1,
        None => false,
    }
}

/// Makes the filter admit a fact with these texts.
fn admit(filter: &mut [u8; 256], texts: &[u8])
    ensures { filter.new ≡ set filter.old (hash texts.now) 1 }
{
    filter[hash_of(texts)] = 1;
}

/// An entry of the index, and the entries before it.
#[derive(Clone, Copy, Drop)]
struct LastEntry<'a> {
    before: &'a [u8],
    start: usize,
    name_size: usize,
    value_mark: usize,
}

/// Splits off the last entry.
#[inline(always)]
fn last_entry(index: &[u8]) -> Option<LastEntry<'_>>
    ensures { MatchOption result (length index.now < 24)
        (λ l. (index.now ≡ l.before.now ++ entry_bytes (entry_of l)) × IsEntry (entry_of l)) }
{
    let (before, entry) = index.split_last_chunk::<24>()?;
    let (rest, value_mark) = last_number(entry)?;
    let (rest, name_size) = last_number(rest)?;
    let (_none, start) = last_number(rest)?;
    Some(LastEntry {
        before,
        start,
        name_size,
        value_mark,
    })
}

/// Returns whether the texts continue with `sought` from the byte `start` on.
// Where it is inlined, the loop over the entries reads the start of each.
#[inline(never)]
fn are_at(texts: &[u8], start: usize, sought: &[u8]) -> bool
    ensures found { result ≡ true → IsAt texts.now start sought.now }
    ensures absent { result ≡ false → IsAt texts.now start sought.now → ⊥ }
{
    if texts.len() < start {
        return false;
    }
    let (_front, rest) = texts.split_at(start);
    rest.starts_with(sought)
}

/// Returns whether an entry is that of a fact.
#[inline(always)]
fn is_fact(texts: &[u8], entry: LastEntry<'_>, sought: Sought<'_>) -> bool
    ensures found { (q : Pair) → IsSought sought.entry q → result ≡ true → IsFactOf texts.now (entry_of entry.entry) q }
    ensures absent { (q : Pair) → IsSought sought.entry q → result ≡ false
        → IsFactOf texts.now (entry_of entry.entry) q → ⊥ }
{
    entry.name_size == sought.name_size
        && entry.value_mark == sought.value_mark
        && are_at(texts, entry.start, sought.texts)
}

/// Returns whether a fact is one of the prepared facts.
pub(crate) fn has(facts: Prepared<'_>, sought: Sought<'_>) -> bool
    ensures { (s : FactSet) (q : Pair)
        → Means facts.entry.texts.now facts.entry.index.now facts.entry.filter.now s → IsSought sought.entry q
        → result ≡ contains s q }
{
    if !admits(facts.filter, sought.texts) {
        return false;
    }
    let mut left = facts.index;
    'entries: while let Some(last) = last_entry(left) {
        if is_fact(facts.texts, last, sought) {
            return true;
        }
        left = last.before;
    }
    false
}

/// Appends a number.
fn push_number(out: &mut Vec<u8>, number: usize) -> Result<(), AllocError>
    ensures { OnOk result (out.new.items ≡ out.old.items ++ to_le_bytes w64 number) }
{
    out.extend_from_slice(&number.to_le_bytes())
}

/// Appends the texts of a fact, and its entry.
fn push_fact(texts: &mut Vec<u8>, index: &mut Vec<u8>, fact: &Cfg) -> Result<(), AllocError>
    ensures texts { OnOk result (texts.new.items ≡ texts.old.items ++ fact_texts (pair_of (value_of fact.now))) }
    ensures index { OnOk result (index.new.items ≡ index.old.items ++ entry_bytes (record {
      start = length texts.old.items;
      name_size = length (pair_of (value_of fact.now)).name;
      mark = value_mark (pair_of (value_of fact.now)).value;
    })) }
{
    push_number(index, texts.len())?;
    match fact {
        Cfg::Name(name) => {
            texts.extend_from_slice(name.as_str().as_bytes())?;
            push_number(index, name.as_str().len())?;
            push_number(index, 0)
        }
        Cfg::KeyPair(key, value) => {
            texts.extend_from_slice(key.as_str().as_bytes())?;
            texts.extend_from_slice(value.as_bytes())?;
            push_number(index, key.as_str().len())?;
            push_number(index, value.len() + 1)
        }
    }
}

/// Returns prepared facts.
pub(crate) fn prepare(alloc: Global, facts: &[Cfg]) -> Result<Vec<u8>, AllocError>
    ensures { IfOk result (λ bytes. StandFor bytes.items (fact_set (map value_of facts.now))) }
{
    let mut texts = Vec::with_capacity(alloc, 512)?;
    let mut index = Vec::with_capacity(alloc, 512)?;
    let mut filter = [0; FILTER];
    let mut left = facts;
    'facts: while let Some((fact, others)) = left.split_last() {
        let start = texts.len();
        push_fact(&mut texts, &mut index, fact)?;
        let (_front, own) = texts.split_at(start);
        admit(&mut filter, own);
        left = others;
    }
    let size = texts.len();
    texts.extend_from_slice(&index)?;
    texts.extend_from_slice(&filter)?;
    push_number(&mut texts, size)?;
    push_number(&mut texts, FORMAT)?;
    Ok(texts)
}
