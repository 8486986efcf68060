//! Calls on many keys at once.

ghost use Rattle.std.specs.Prelude.{◌≡◌, ◌≢◌, ◌*◌, ◌<◌, ◌++◌, ℕ, List, IsTrue, IfOk, MatchOption, map};
ghost use Rattle.std.specs.Prelude.{◌||◌, ◌==◌};
ghost use Rattle.std.specs.Str.{IsUtf8};
ghost use Rattle.cargo_platform.specs.Trees.{value_of};
ghost use Rattle.byte_answers.specs.Batches.{AreAnswersAt, AreLengthPrefixed, AreKeyAnswers, IsKeyAnswer};
ghost use Rattle.byte_answers.specs.Batches.{ends_batch_call};
ghost use Rattle.byte_answers.specs.LengthPrefixed.{with_length, with_lengths};
ghost use Rattle.byte_answers.specs.Outcomes.{HasNoAnswer, HasNoSpan, IsSilent};
ghost use Rattle.byte_answers.specs.Refusals.{IsRefusedLine};

use crate::depth::is_too_deep;
use crate::matching::{LINES, refused_facts};
use crate::outcome::{DONE, NO_MEMORY, NOT_FLAT, NOT_UTF8, Outcome, REFUSED, TOO_DEEP, write};
use crate::reading::read_text;
use crate::unflat::last_number;
use cargo_platform::{Cfg, Platform, ReadError, read_facts};
use std::alloc::{AllocError, Global};
use std::str;

/// Returns the first text, which its length precedes, and the bytes after it.
fn first_text(bytes: &[u8]) -> Option<(&[u8], &[u8])>
    ensures { MatchOption result
        ((text rest : List ℕ) → bytes.now ≡ with_length text ++ rest → ⊥)
        (λ p. bytes.now ≡ with_length p.0.now ++ p.1.now) }
{
    let (size, rest) = bytes.split_at_checked(8)?;
    let (_front, length) = last_number(size)?;
    let (text, others) = rest.split_at_checked(length)?;
    Some((text, others))
}

/// Returns the byte for a code of a call on a key.
fn byte_of(code: u32) -> u8
    requires { code < 8 }
    ensures { result ≡ 2 * code }
{
    (2 * code) as u8
}

/// Returns the byte that answers whether a key is true on a target with this name and these facts.
fn answer_on(alloc: Global, key: &[u8], name: &str, facts: &[Cfg]) -> u8
    ensures { IsKeyAnswer name.now (map value_of facts.now) key.now result }
{
    let Ok(key) = str::from_utf8(key) else {
        return byte_of(NOT_UTF8);
    };
    if is_too_deep(key) {
        return byte_of(TOO_DEEP);
    }
    match Platform::matches_str(alloc, key, name, facts) {
        Ok(is_true) => u8::from(is_true),
        Err(ReadError::Parse(_)) => byte_of(REFUSED),
        Err(ReadError::Memory(_)) => byte_of(NO_MEMORY),
    }
}

/// Returns the bytes that answer on these keys, each of which its length precedes.
fn answers_on(
    alloc: Global,
    keys: &[u8],
    name: &str,
    facts: &[Cfg],
) -> Result<Option<Vec<u8>>, AllocError>
    ensures { IfOk result (λ o. MatchOption o (AreLengthPrefixed keys.now → ⊥)
        (λ bytes. (texts : List (List ℕ)) × ((with_lengths texts ≡ keys.now)
        × AreKeyAnswers name.now (map value_of facts.now) texts bytes.items))) }
{
    let mut left = keys;
    let mut answers = Vec::new(alloc);
    'keys: while !left.is_empty() {
        let Some((key, others)) = first_text(left) else {
            return Ok(None);
        };
        answers.push(answer_on(alloc, key, name, facts))?;
        left = others;
    }
    Ok(Some(answers))
}

/// Writes a byte for each of many keys: whether it is true on the target with this name and the facts in these lines.
///
/// Each key has its length before it, in 8 bytes, low byte first. The byte is 0 if the key is false, and 1 if it is
/// true. Else it is twice the code that `matches` returns for the key: `REFUSED`, `NOT_UTF8`, `TOO_DEEP` or
/// `NO_MEMORY`. The lines are as `rustc --print cfg` prints them, one fact per line, and are parsed once.
///
/// Returns `NOT_FLAT` if the keys are not texts with their lengths (`argument` 0), and `REFUSED`, with the message in
/// the buffer, if a line is not a fact (`argument` 2). With `NOT_UTF8`, `argument` is 1 for the name and 2 for the
/// lines.
pub fn match_keys(alloc: Global, keys: &[u8], name: &[u8], lines: &[u8], out: &mut [u8]) -> Outcome
    // `DONE` is returned with a byte for each key: 0 or 1 for whether its condition is true for the name and the facts
    // in the lines, or twice the code of its call if the key has no answer.
    ensures done { result.code ≡ DONE → AreAnswersAt keys.now name.now lines.now result.needed out.old out.new }
    // `NOT_FLAT` is returned only for keys that are not texts, each preceded by its length; `argument` is 0.
    ensures not_length_prefixed { result.code ≡ NOT_FLAT → AreLengthPrefixed keys.now → ⊥ }
    ensures not_counted_keys { result.code ≡ NOT_FLAT → result.argument ≡ 0 }
    // `REFUSED` is returned only for lines of which one is not a fact, with the message and the span of the error in
    // the first such line; `argument` is 2.
    ensures refused { result.code ≡ REFUSED → IsRefusedLine lines.now result out.old out.new }
    ensures refused_lines { result.code ≡ REFUSED → result.argument ≡ 2 }
    // `NOT_UTF8` is returned only for a name that is not UTF-8 (`argument` 1), or for such lines (`argument` 2), and
    // `DONE` only if both are.
    ensures not_utf8 { result.code ≡ NOT_UTF8 → IsTrue (result.argument == 1 || result.argument == 2) }
    ensures not_utf8_name { result.code ≡ NOT_UTF8 → result.argument ≡ 1 → IsUtf8 name.now → ⊥ }
    ensures not_utf8_lines { result.code ≡ NOT_UTF8 → result.argument ≡ 2 → IsUtf8 lines.now → ⊥ }
    ensures utf8 { result.code ≡ DONE → IsUtf8 name.now × IsUtf8 lines.now }
    // Nothing other than the promised texts is written.
    ensures silent { result.code ≢ DONE → result.code ≢ REFUSED → IsSilent result out.old out.new }
    // `holds` and `is_named` are false.
    ensures holds { HasNoAnswer result }
    // Unless the code is `REFUSED`, `start` and `end` are 0.
    ensures span { result.code ≢ REFUSED → HasNoSpan result }
    // The only other code is `NO_MEMORY`.
    ensures codes { IsTrue (ends_batch_call result.code) }
{
    let name = match read_text(1, name) {
        Ok(name) => name,
        Err(outcome) => return outcome,
    };
    let lines = match read_text(LINES, lines) {
        Ok(lines) => lines,
        Err(outcome) => return outcome,
    };
    let facts = match read_facts(alloc, lines) {
        Ok(facts) => facts,
        Err(error) => return refused_facts(alloc, LINES, &error, lines, out),
    };
    match answers_on(alloc, keys, name, &facts) {
        Ok(Some(answers)) => Outcome::done(write(&answers, out)),
        Ok(None) => Outcome::without_answer(NOT_FLAT, 0),
        Err(_) => Outcome::without_answer(NO_MEMORY, 0),
    }
}
