//! Parses conditions and facts from bytes, record by record from the last one on.

ghost use Rattle.std.specs.Prelude.{◌≡◌, ◌≤◌, ◌<◌, ◌^◌, ◌++◌, ℕ, List, [], true, false, IfOk, MatchOption, map};
ghost use Rattle.std.specs.Prelude.{length, reverse};
ghost use Rattle.std.specs.Int.{to_le_bytes};
ghost use Rattle.std.specs.Str.{IsUtf8};
ghost use mir.Syntax.{w64};
ghost use Rattle.cargo_platform.specs.Trees.{CfgValue, Tree, name_of, value_of, tree_of, condition_of};
ghost use Rattle.byte_answers.specs.Flat.{numbers, first_of, second_of, tag_of, flat_value, flat, flat_condition};
ghost use Rattle.byte_answers.specs.Flat.{flat_values};
ghost use Rattle.byte_answers.specs.Flat.{IsValueOfTexts, IsTreeOfTexts, IsFlatForm, AreFlatFacts};
ghost use Rattle.byte_answers.specs.Pieces.{Piece, piece_bytes, piece_tag, first_number, second_number, is_group};
ghost use Rattle.byte_answers.specs.Pieces.{IsPieceOfTexts, Leaves, piece_of, stack_of};

use crate::flat::{ALL, ANY, FALSE, NAME, NOT, PAIR, RAW_NAME, RAW_PAIR, TARGET, TRUE};
use cargo_platform::{Cfg, CfgExpr, Ident, Platform};
use std::alloc::{AllocError, Global};
use std::str;

/// The numbers at the end of bytes, and the bytes before them.
#[derive(Clone, Copy, Drop)]
pub(crate) struct Numbers<'a> {
    pub(crate) before: &'a [u8],
    pub(crate) a: usize,
    pub(crate) b: usize,
    pub(crate) tag: u8,
}

/// Splits off the last number.
pub(crate) fn last_number(bytes: &[u8]) -> Option<(&[u8], usize)>
    ensures { MatchOption result (length bytes.now < 8)
        (λ p. (bytes.now ≡ p.0.now ++ to_le_bytes w64 p.1) × (p.1 < 2 ^ 64)) }
{
    let (before, number) = bytes.split_last_chunk::<8>()?;
    Some((before, usize::from_le_bytes(*number)))
}

/// Splits off the numbers and the tag at the end.
pub(crate) fn last_numbers(bytes: &[u8]) -> Option<Numbers<'_>>
    ensures { MatchOption result (length bytes.now < 17)
        (λ n. (bytes.now ≡ n.before.now ++ numbers n.a n.b n.tag) × (n.a < 2 ^ 64) × (n.b < 2 ^ 64)) }
{
    let (tag, rest) = bytes.split_last()?;
    let (rest, b) = last_number(rest)?;
    let (before, a) = last_number(rest)?;
    Some(Numbers {
        before,
        a,
        b,
        tag: *tag,
    })
}

/// Splits off the last `size` bytes.
pub(crate) fn last_bytes(bytes: &[u8], size: usize) -> Option<(&[u8], &[u8])>
    ensures { MatchOption result (length bytes.now < size)
        (λ p. (bytes.now ≡ p.0.now ++ p.1.now) × (length p.1.now ≡ size)) }
{
    if bytes.len() < size {
        return None;
    }
    Some(bytes.split_at(bytes.len() - size))
}

/// Splits off the text of the last `size` bytes.
fn last_text(bytes: &[u8], size: usize) -> Option<(&[u8], &str)>
    ensures { MatchOption result
        ((front text : List ℕ) → IsUtf8 text → length text ≡ size → bytes.now ≡ front ++ text → ⊥)
        (λ p. (bytes.now ≡ p.0.now ++ p.1.now) × (length p.1.now ≡ size) × IsUtf8 p.1.now) }
{
    let (before, last) = last_bytes(bytes, size)?;
    match str::from_utf8(last) {
        Ok(text) => Some((before, text)),
        Err(_) => None,
    }
}

/// Two texts, and the bytes before them.
#[derive(Clone, Copy, Drop)]
struct Texts<'a> {
    before: &'a [u8],
    first: &'a str,
    second: &'a str,
}

/// Splits off the last two texts, which have these lengths.
fn last_texts(bytes: &[u8], a: usize, b: usize) -> Option<Texts<'_>>
    ensures { MatchOption result
        ((front first second : List ℕ) → IsUtf8 first → IsUtf8 second → length first ≡ a → length second ≡ b
        → bytes.now ≡ front ++ (first ++ second) → ⊥)
        (λ t. (bytes.now ≡ t.before.now ++ (t.first.now ++ t.second.now))
        × (length t.first.now ≡ a) × (length t.second.now ≡ b)) }
{
    let Some((rest, second)) = last_text(bytes, b) else {
        return None;
    };
    let Some((before, first)) = last_text(rest, a) else {
        return None;
    };
    Some(Texts {
        before,
        first,
        second,
    })
}

/// Returns an identifier.
fn ident(alloc: Global, name: &str, raw: bool) -> Result<Ident, AllocError>
    ensures { IfOk result (λ i. name_of i ≡ record { raw = raw; name = name.now }) }
{
    Ok(Ident {
        name: String::from_str(alloc, name)?,
        raw,
    })
}

/// Returns the name or pair of two texts and a tag.
fn value_tagged(
    alloc: Global,
    first: &str,
    second: &str,
    tag: u8,
) -> Result<Option<Cfg>, AllocError>
    ensures { IfOk result (λ o. MatchOption o
        ((c : CfgValue) → second_of c ≡ second.now → tag_of c ≡ tag → ⊥)
        (λ c. (first_of (value_of c) ≡ first.now) × (second_of (value_of c) ≡ second.now)
        × (tag_of (value_of c) ≡ tag))) }
{
    match tag {
        NAME | RAW_NAME => {
            if !second.is_empty() {
                return Ok(None);
            }
            let name = ident(alloc, first, tag == RAW_NAME)?;
            Ok(Some(Cfg::Name(name)))
        }
        PAIR | RAW_PAIR => {
            let key = ident(alloc, first, tag == RAW_PAIR)?;
            let value = String::from_str(alloc, second)?;
            Ok(Some(Cfg::KeyPair(key, value)))
        }
        _ => Ok(None),
    }
}

/// A value, and the bytes before it.
#[derive(Drop)]
struct LastValue<'a> {
    before: &'a [u8],
    value: Cfg,
}

/// Returns the name or pair that these numbers end.
fn last_value<'a>(alloc: Global, ending: Numbers<'a>) -> Result<Option<LastValue<'a>>, AllocError>
    ensures { IfOk result (λ o. MatchOption o
        ((front : List ℕ) (c : CfgValue) → IsValueOfTexts c
        → ending.entry.before.now ++ numbers ending.entry.a ending.entry.b ending.entry.tag
        ≡ front ++ flat_value c → ⊥)
        (λ v. ending.entry.before.now ++ numbers ending.entry.a ending.entry.b ending.entry.tag
        ≡ v.before.now ++ flat_value (value_of v.value))) }
{
    let Some(texts) = last_texts(ending.before, ending.a, ending.b) else {
        return Ok(None);
    };
    match value_tagged(alloc, texts.first, texts.second, ending.tag)? {
        Some(value) => Ok(Some(LastValue {
            before: texts.before,
            value,
        })),
        None => Ok(None),
    }
}

/// A record of a flat expression.
#[derive(Drop)]
enum Record {
    Value(Cfg),
    True,
    False,
    Not,
    All(usize),
    Any(usize),
}

/// Returns the record of these numbers, if it is one without texts.
fn group_of(tag: u8, a: usize, b: usize) -> Option<Record>
    ensures { MatchOption result (is_group tag a b ≡ false)
        (λ r. (piece_bytes (piece_of r) ≡ numbers a b tag) × (first_number (piece_of r) ≡ a)) }
{
    if b != 0 {
        return None;
    }
    match tag {
        TRUE if a == 0 => Some(Record::True),
        FALSE if a == 0 => Some(Record::False),
        NOT if a == 1 => Some(Record::Not),
        ALL => Some(Record::All(a)),
        ANY => Some(Record::Any(a)),
        _ => None,
    }
}

/// A record, and the bytes before it.
#[derive(Drop)]
struct LastRecord<'a> {
    before: &'a [u8],
    found: Record,
}

/// Returns the last record of the bytes.
fn last_record<'a>(alloc: Global, bytes: &'a [u8]) -> Result<Option<LastRecord<'a>>, AllocError>
    ensures { IfOk result (λ o. MatchOption o
        ((front : List ℕ) (p : Piece) → IsPieceOfTexts p → first_number p < 2 ^ 64
        → bytes.now ≡ front ++ piece_bytes p → ⊥)
        (λ r. (bytes.now ≡ r.before.now ++ piece_bytes (piece_of r.found))
        × (first_number (piece_of r.found) < 2 ^ 64))) }
{
    let Some(ending) = last_numbers(bytes) else {
        return Ok(None);
    };
    if ending.tag < TRUE {
        return match last_value(alloc, ending)? {
            Some(last) => Ok(Some(LastRecord {
                before: last.before,
                found: Record::Value(last.value),
            })),
            None => Ok(None),
        };
    }
    match group_of(ending.tag, ending.a, ending.b) {
        Some(found) => Ok(Some(LastRecord {
            before: ending.before,
            found,
        })),
        None => Ok(None),
    }
}

/// Takes `count` expressions off the top of a stack.
fn take_members(
    alloc: Global,
    count: usize,
    built: &mut Vec<CfgExpr>,
) -> Result<Option<Vec<CfgExpr>>, AllocError>
    ensures { IfOk result (λ o. MatchOption o (length built.old.items < count)
        (λ members. (reverse built.old.items ≡ members.items ++ reverse built.new.items)
        × (length members.items ≡ count))) }
{
    if built.len() < count {
        return Ok(None);
    }
    let mut members = Vec::with_capacity(alloc, count)?;
    'members: while members.len() < count {
        let Some(member) = built.pop() else {
            return Ok(None);
        };
        members.push(member)?;
    }
    Ok(Some(members))
}

/// Replaces the members of a record on the stack by the expression that the record begins. Returns whether the stack
/// had these members.
fn put(alloc: Global, found: Record, built: &mut Vec<CfgExpr>) -> Result<bool, AllocError>
    ensures put { IfOk result (λ is_put. is_put ≡ true
        → Leaves (piece_of found) (stack_of built.old.items) (stack_of built.new.items)) }
    ensures refused { IfOk result (λ is_put. is_put ≡ false
        → (new : List Tree) → Leaves (piece_of found) (stack_of built.old.items) new → ⊥) }
{
    match found {
        Record::Value(value) => built.push(CfgExpr::Value(value))?,
        Record::True => built.push(CfgExpr::True)?,
        Record::False => built.push(CfgExpr::False)?,
        Record::Not => {
            let Some(inner) = built.pop() else {
                return Ok(false);
            };
            built.push(CfgExpr::Not(Box::new(alloc, inner)?))?;
        }
        Record::All(count) => {
            let Some(members) = take_members(alloc, count, built)? else {
                return Ok(false);
            };
            built.push(CfgExpr::All(members))?;
        }
        Record::Any(count) => {
            let Some(members) = take_members(alloc, count, built)? else {
                return Ok(false);
            };
            built.push(CfgExpr::Any(members))?;
        }
    }
    Ok(true)
}

/// Returns the expression of these bytes, without using stack for its depth.
fn unflat_expression(alloc: Global, bytes: &[u8]) -> Result<Option<CfgExpr>, AllocError>
    ensures { IfOk result (λ o. MatchOption o
        ((e : Tree) → IsTreeOfTexts e → flat e ≡ bytes.now → ⊥)
        (λ e. flat (tree_of e) ≡ bytes.now)) }
{
    let mut left = bytes;
    let mut built = Vec::new(alloc);
    'records: while !left.is_empty() {
        let Some(last) = last_record(alloc, left)? else {
            return Ok(None);
        };
        if !put(alloc, last.found, &mut built)? {
            return Ok(None);
        }
        left = last.before;
    }
    let Some(whole) = built.pop() else {
        return Ok(None);
    };
    if !built.is_empty() {
        return Ok(None);
    }
    Ok(Some(whole))
}

/// Returns the target name that these numbers end.
fn target_of(alloc: Global, ending: Numbers<'_>) -> Result<Option<Platform>, AllocError>
    ensures { IfOk result (λ o. MatchOption o
        ((name : List ℕ) → IsUtf8 name
        → ending.entry.before.now ++ numbers ending.entry.a ending.entry.b ending.entry.tag
        ≡ name ++ numbers (length name) 0 ending.entry.tag → ⊥)
        (λ p. flat_condition (condition_of p)
        ≡ ending.entry.before.now ++ numbers ending.entry.a ending.entry.b 9)) }
{
    if ending.b != 0 {
        return Ok(None);
    }
    let Some((before, name)) = last_text(ending.before, ending.a) else {
        return Ok(None);
    };
    if !before.is_empty() {
        return Ok(None);
    }
    Ok(Some(Platform::Name(String::from_str(alloc, name)?)))
}

/// Returns the condition of these bytes.
pub(crate) fn unflat(alloc: Global, bytes: &[u8]) -> Result<Option<Platform>, AllocError>
    ensures { IfOk result (λ o. MatchOption o (IsFlatForm bytes.now → ⊥)
        (λ p. flat_condition (condition_of p) ≡ bytes.now)) }
{
    let Some(ending) = last_numbers(bytes) else {
        return Ok(None);
    };
    if ending.tag == TARGET {
        return target_of(alloc, ending);
    }
    match unflat_expression(alloc, bytes)? {
        Some(e) => Ok(Some(Platform::Cfg(e))),
        None => Ok(None),
    }
}

/// Returns the facts of these bytes.
pub(crate) fn unflat_facts(alloc: Global, bytes: &[u8]) -> Result<Option<Vec<Cfg>>, AllocError>
    ensures { IfOk result (λ o. MatchOption o (AreFlatFacts bytes.now → ⊥)
        (λ facts. flat_values (map value_of facts.items) ≡ bytes.now)) }
{
    let mut left = bytes;
    let mut facts = Vec::new(alloc);
    'records: while !left.is_empty() {
        let Some(ending) = last_numbers(left) else {
            return Ok(None);
        };
        let Some(last) = last_value(alloc, ending)? else {
            return Ok(None);
        };
        left = last.before;
        facts.push(last.value)?;
    }
    facts.reverse();
    Ok(Some(facts))
}
