//! Calls on flat conditions.

ghost use Rattle.std.specs.Prelude.{◌≡◌, ◌≢◌, ◌↔◌, ◌≤◌, ◌<◌, false, length, IfOk, IfErr, IsTrue, ◌||◌, ◌==◌};
ghost use Rattle.std.specs.Str.{IsUtf8};
ghost use Rattle.cargo_platform.specs.Trees.{condition_of};
ghost use Rattle.byte_answers.specs.Flat.{flat_condition, IsFlatForm, AreFlatFacts};
ghost use Rattle.byte_answers.specs.Answers.{IsFlatMatch, IsPrint};
ghost use Rattle.byte_answers.specs.Outcomes.{HasNoAnswer, HasNoSpan, IsSilent, ends_flat_call, ends_flat_print};

use crate::depth::MAX_FLAT_BYTES;
use crate::outcome::{DONE, NO_MEMORY, NOT_FLAT, NOT_UTF8, Outcome, TOO_DEEP, write};
use crate::reading::read_text;
use crate::unflat::{unflat, unflat_facts};
use cargo_platform::Platform;
use std::alloc::Global;

/// Returns the condition of flat bytes, or the outcome of a call on bytes that are not a flat condition.
fn read_flat(alloc: Global, flat: &[u8]) -> Result<Platform, Outcome>
    ensures condition { IfOk result (λ p. flat_condition (condition_of p) ≡ flat.now) }
    ensures not_flat { IfErr result (λ o. o.code ≡ NOT_FLAT → IsFlatForm flat.now → ⊥) }
    ensures fits { IfOk result (λ _. length flat.now ≤ MAX_FLAT_BYTES) }
    ensures too_deep { IfErr result (λ o. o.code ≡ TOO_DEEP ↔ MAX_FLAT_BYTES < length flat.now) }
    ensures argument { IfErr result (λ o. o.argument ≡ 0) }
    ensures silent { IfErr result (λ o. o.needed ≡ 0) }
    ensures holds { IfErr result (λ o. HasNoAnswer o) }
    ensures span { IfErr result (λ o. HasNoSpan o) }
    ensures codes { IfErr result
        (λ o. IsTrue (o.code == TOO_DEEP || o.code == NOT_FLAT || o.code == NO_MEMORY)) }
{
    if MAX_FLAT_BYTES < flat.len() {
        return Err(Outcome::without_answer(TOO_DEEP, 0));
    }
    match unflat(alloc, flat) {
        Ok(Some(platform)) => Ok(platform),
        Ok(None) => Err(Outcome::without_answer(NOT_FLAT, 0)),
        Err(_) => Err(Outcome::without_answer(NO_MEMORY, 0)),
    }
}

/// Writes the canonical text of a flat condition.
///
/// Returns `NOT_FLAT` if the bytes are the flat form of no condition, and `TOO_DEEP` if there are more than
/// `MAX_FLAT_BYTES`.
pub fn flat_print(alloc: Global, flat: &[u8], out: &mut [u8]) -> Outcome
    // `DONE` is returned with the canonical text of the condition whose flat form the bytes are.
    ensures done { result.code ≡ DONE → IsPrint flat.now result.needed out.old out.new }
    // `NOT_FLAT` is returned only for bytes that are the flat form of no condition.
    ensures not_flat { result.code ≡ NOT_FLAT → IsFlatForm flat.now → ⊥ }
    // `TOO_DEEP` is returned exactly for a flat condition of more than `MAX_FLAT_BYTES` bytes.
    ensures too_deep { result.code ≡ TOO_DEEP ↔ MAX_FLAT_BYTES < length flat.now }
    // Nothing other than the promised texts is written.
    ensures silent { result.code ≢ DONE → IsSilent result out.old out.new }
    // `holds` and `is_named` are false.
    ensures holds { HasNoAnswer result }
    // `start` and `end` are 0.
    ensures span { HasNoSpan result }
    // The only other code is `NO_MEMORY`, and `argument` is 0.
    ensures argument { result.argument ≡ 0 }
    ensures codes { IsTrue (ends_flat_print result.code) }
{
    match read_flat(alloc, flat) {
        Ok(platform) => match platform.to_string(alloc) {
            Ok(text) => Outcome::done(write(text.as_bytes(), out)),
            Err(_) => Outcome::without_answer(NO_MEMORY, 0),
        },
        Err(outcome) => outcome,
    }
}

/// Decides whether a flat condition is true on a target with this name and these flat facts.
///
/// `holds` is the answer. Returns `NOT_FLAT` if the bytes are the flat form of no condition (`argument` 0) or of no
/// facts (`argument` 2), and `TOO_DEEP` if the condition has more than `MAX_FLAT_BYTES` bytes.
pub fn flat_matches(alloc: Global, flat: &[u8], name: &[u8], flat_facts: &[u8]) -> Outcome
    // `DONE` is returned with whether the condition whose flat form the bytes are is true for the name and the flat
    // facts.
    ensures done { result.code ≡ DONE → IsFlatMatch flat.now name.now flat_facts.now result.holds }
    // `NOT_FLAT` is returned only for bytes that are the flat form of no condition (`argument` 0), or of no facts
    // (`argument` 2).
    ensures not_flat { result.code ≡ NOT_FLAT → result.argument ≡ 0 → IsFlatForm flat.now → ⊥ }
    ensures not_flat_facts { result.code ≡ NOT_FLAT → result.argument ≡ 2 → AreFlatFacts flat_facts.now → ⊥ }
    ensures refused_bytes { result.code ≡ NOT_FLAT → IsTrue (result.argument == 0 || result.argument == 2) }
    // `NOT_UTF8` is returned only for a name that is not UTF-8 (`argument` 1).
    ensures not_utf8 { result.code ≡ NOT_UTF8 → IsUtf8 name.now → ⊥ }
    ensures not_utf8_name { result.code ≡ NOT_UTF8 → result.argument ≡ 1 }
    // `TOO_DEEP` has `argument` 0.
    ensures too_deep_flat { result.code ≡ TOO_DEEP → result.argument ≡ 0 }
    // `needed` is 0.
    ensures silent { result.needed ≡ 0 }
    // `DONE` is returned only for a name that is UTF-8.
    ensures utf8 { result.code ≡ DONE → IsUtf8 name.now }
    // `TOO_DEEP` is returned exactly for a flat condition of more than `MAX_FLAT_BYTES` bytes.
    ensures too_deep { result.code ≡ TOO_DEEP ↔ MAX_FLAT_BYTES < length flat.now }
    // Unless the code is `DONE`, `holds` and `is_named` are false.
    ensures holds { result.code ≢ DONE → HasNoAnswer result }
    // No example has a name.
    ensures named { result.is_named ≡ false }
    // `start` and `end` are 0.
    ensures span { HasNoSpan result }
    // The only other code is `NO_MEMORY`.
    ensures codes { IsTrue (ends_flat_call result.code) }
{
    let platform = match read_flat(alloc, flat) {
        Ok(platform) => platform,
        Err(outcome) => return outcome,
    };
    let name = match read_text(1, name) {
        Ok(name) => name,
        Err(outcome) => return outcome,
    };
    match unflat_facts(alloc, flat_facts) {
        Ok(Some(facts)) => Outcome::answered(platform.matches(name, &facts)),
        Ok(None) => Outcome::without_answer(NOT_FLAT, 2),
        Err(_) => Outcome::without_answer(NO_MEMORY, 0),
    }
}
