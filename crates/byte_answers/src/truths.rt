//! The truth of flat conditions over prepared facts, which are read as they are.

ghost use Rattle.std.specs.Prelude.{◌≡◌, ◌<◌, ◌+◌, ◌^◌, ◌++◌, ℕ, Bool, List, IfOk, MatchOption};
ghost use Rattle.std.specs.Prelude.{true, false, length, reverse};
ghost use Rattle.std.specs.List.{list_all, list_any};
ghost use Rattle.std.specs.Str.{bytes_eq};
ghost use Rattle.cargo_platform.specs.Trees.{CfgValue, Tree, Condition, Target};
ghost use Rattle.cargo_platform.specs.Facts.{FactSet, pair_of, truth, truth_of_condition};
ghost use Rattle.byte_answers.specs.Flat.{numbers, flat, flat_value, flat_condition, first_of, second_of, tag_of};
ghost use Rattle.byte_answers.specs.Flat.{IsTreeOfTexts, IsFlatForm};
ghost use Rattle.byte_answers.specs.Pieces.{Piece, leaf, piece_bytes, first_number, is_group, Leaves};
ghost use Rattle.byte_answers.specs.Prepared.{Means, value_mark};
ghost use Rattle.byte_answers.specs.Truths.{IsFound, AreTruths};

use crate::flat::{ALL, ANY, FALSE, NOT, PAIR, TARGET, TRUE};
use crate::prepared::{Prepared, Sought, has};
use crate::unflat::{Numbers, last_bytes, last_numbers};
use smallvec::SmallVec;
use std::alloc::{AllocError, Global};

/// Truths of expressions, the last one on top.
type Truths = SmallVec<bool, 64>;

/// A record of a flat expression.
#[derive(Clone, Copy, Drop)]
enum Found<'a> {
    Fact(Sought<'a>),
    True,
    False,
    Not,
    All(usize),
    Any(usize),
}

/// A record, and the bytes before it.
#[derive(Clone, Copy, Drop)]
struct LastFound<'a> {
    before: &'a [u8],
    found: Found<'a>,
}

/// Returns the mark of a value of this length, or of a name alone, by the tag.
fn mark_of(tag: u8, size: usize) -> Option<usize>
    requires { tag < 4 }
    ensures { MatchOption result
        ((c : CfgValue) → tag_of c ≡ tag → length (second_of c) ≡ size → size + 1 < 2 ^ 64 → ⊥)
        (λ mark. (first second : List ℕ) → length second ≡ size → (c : CfgValue) × ((first_of c ≡ first)
        × (second_of c ≡ second) × (tag_of c ≡ tag) × (value_mark (pair_of c).value ≡ mark))) }
{
    if PAIR <= tag {
        return size.checked_add(1);
    }
    if size == 0 { Some(0) } else { None }
}

/// Returns the name or pair that these numbers end.
fn last_fact(ending: Numbers<'_>) -> Option<LastFound<'_>>
    requires { ending.tag < 4 }
    ensures { MatchOption result
        ((front : List ℕ) (c : CfgValue)
        → ending.entry.before.now ++ numbers ending.entry.a ending.entry.b ending.entry.tag
        ≡ front ++ flat_value c → ⊥)
        (λ r. (c : CfgValue) × ((ending.entry.before.now ++ numbers ending.entry.a ending.entry.b ending.entry.tag
        ≡ r.before.now ++ flat_value c) × IsFound r.found (leaf c))) }
{
    let size = ending.a.checked_add(ending.b)?;
    let (before, texts) = last_bytes(ending.before, size)?;
    let value_mark = mark_of(ending.tag, ending.b)?;
    Some(LastFound {
        before,
        found: Found::Fact(Sought {
            texts,
            name_size: ending.a,
            value_mark,
        }),
    })
}

/// Returns the record of these numbers, if it is one without texts.
fn group_of<'a>(tag: u8, a: usize, b: usize) -> Option<Found<'a>>
    ensures { MatchOption result (is_group tag a b ≡ false)
        (λ r. (p : Piece) × ((piece_bytes p ≡ numbers a b tag) × (first_number p ≡ a) × IsFound r p)) }
{
    if b != 0 {
        return None;
    }
    match tag {
        TRUE if a == 0 => Some(Found::True),
        FALSE if a == 0 => Some(Found::False),
        NOT if a == 1 => Some(Found::Not),
        ALL => Some(Found::All(a)),
        ANY => Some(Found::Any(a)),
        _ => None,
    }
}

/// Returns the last record of the bytes.
fn last_found(bytes: &[u8]) -> Option<LastFound<'_>>
    ensures { MatchOption result
        ((front : List ℕ) (p : Piece) → first_number p < 2 ^ 64 → bytes.now ≡ front ++ piece_bytes p → ⊥)
        (λ r. (p : Piece) × ((first_number p < 2 ^ 64)
        × (bytes.now ≡ r.before.now ++ piece_bytes p) × IsFound r.found p)) }
{
    let ending = last_numbers(bytes)?;
    if ending.tag < TRUE {
        return last_fact(ending);
    }
    let found = group_of(ending.tag, ending.a, ending.b)?;
    Some(LastFound {
        before: ending.before,
        found,
    })
}

/// Whether all, and whether any, of the truth values that were taken off a stack are true.
#[derive(Clone, Copy, Drop)]
struct Taken {
    all: bool,
    any: bool,
}

/// Takes `count` truths off the top of a stack.
fn take_truths(count: usize, built: &mut Truths) -> Option<Taken>
    ensures { MatchOption result (length built.old.items < count)
        (λ t. (taken : List Bool) × ((reverse built.old.items ≡ taken ++ reverse built.new.items)
        × (length taken ≡ count) × (t.all ≡ list_all (λ b. b) taken) × (t.any ≡ list_any (λ b. b) taken))) }
{
    if built.len() < count {
        return None;
    }
    let mut taken = Taken {
        all: true,
        any: false,
    };
    let mut left = count;
    'members: while 0 < left {
        let is_true = built.pop()?;
        taken.all = taken.all && is_true;
        taken.any = taken.any || is_true;
        left -= 1;
    }
    Some(taken)
}

/// Replaces the truths of the members of a record on the stack by the truth of the expression that the record begins.
/// Returns whether the stack had these members.
fn put_truth(facts: Prepared<'_>, found: Found<'_>, built: &mut Truths) -> Result<bool, AllocError>
    ensures put { IfOk result (λ is_put. is_put ≡ true → (s : FactSet) (p : Piece) (st : List Tree)
        → Means facts.entry.texts.now facts.entry.index.now facts.entry.filter.now s → IsFound found.entry p
        → AreTruths s st built.old.items
        → (next : List Tree) × (Leaves p st next × AreTruths s next built.new.items)) }
    ensures refused { IfOk result (λ is_put. is_put ≡ false → (p : Piece) (st next : List Tree)
        → IsFound found.entry p → length st ≡ length built.old.items → Leaves p st next → ⊥) }
{
    let is_true = match found {
        Found::Fact(sought) => has(facts, sought),
        Found::True => true,
        Found::False => false,
        Found::Not => {
            let Some(inner) = built.pop() else {
                return Ok(false);
            };
            !inner
        }
        Found::All(count) => {
            let Some(taken) = take_truths(count, built) else {
                return Ok(false);
            };
            taken.all
        }
        Found::Any(count) => {
            let Some(taken) = take_truths(count, built) else {
                return Ok(false);
            };
            taken.any
        }
    };
    match built.push(is_true) {
        Ok(()) => Ok(true),
        Err(_) => Err(AllocError),
    }
}

/// Returns whether the expression of these bytes is true, without using stack for its depth.
fn is_true_expression(
    alloc: Global,
    facts: Prepared<'_>,
    bytes: &[u8],
) -> Result<Option<bool>, AllocError>
    ensures { IfOk result (λ o. (s : FactSet)
        → Means facts.entry.texts.now facts.entry.index.now facts.entry.filter.now s → MatchOption o
        ((e : Tree) → IsTreeOfTexts e → flat e ≡ bytes.now → ⊥)
        (λ holds. (e : Tree) × ((flat e ≡ bytes.now) × (holds ≡ truth s e)))) }
{
    let mut left = bytes;
    let mut built: Truths = SmallVec::new(alloc);
    'records: while !left.is_empty() {
        let Some(last) = last_found(left) else {
            return Ok(None);
        };
        if !put_truth(facts, last.found, &mut built)? {
            return Ok(None);
        }
        left = last.before;
    }
    let Some(whole) = built.pop() else {
        return Ok(None);
    };
    if !built.is_empty() {
        return Ok(None);
    }
    Ok(Some(whole))
}

/// Returns whether these numbers end the target name `name`, if they end a target name.
fn is_target(ending: Numbers<'_>, name: &[u8]) -> Option<bool>
    ensures { MatchOption result
        ((target : List ℕ)
        → ending.entry.before.now ++ numbers ending.entry.a ending.entry.b ending.entry.tag
        ≡ target ++ numbers (length target) 0 ending.entry.tag → ⊥)
        (λ holds. (flat_condition (Target ending.entry.before.now)
        ≡ ending.entry.before.now ++ numbers ending.entry.a ending.entry.b 9)
        × (holds ≡ bytes_eq ending.entry.before.now name.now)) }
{
    if ending.b != 0 || ending.a != ending.before.len() {
        return None;
    }
    Some(ending.before == name)
}

/// Returns whether the condition of these bytes is true for a name and prepared facts.
pub(crate) fn is_true(
    alloc: Global,
    bytes: &[u8],
    name: &[u8],
    facts: Prepared<'_>,
) -> Result<Option<bool>, AllocError>
    ensures { IfOk result (λ o. (s : FactSet)
        → Means facts.entry.texts.now facts.entry.index.now facts.entry.filter.now s → MatchOption o
        (IsFlatForm bytes.now → ⊥)
        (λ holds. (p : Condition) × ((flat_condition p ≡ bytes.now)
        × (holds ≡ truth_of_condition name.now s p)))) }
{
    let Some(ending) = last_numbers(bytes) else {
        return Ok(None);
    };
    if ending.tag == TARGET {
        return Ok(is_target(ending, name));
    }
    is_true_expression(alloc, facts, bytes)
}
