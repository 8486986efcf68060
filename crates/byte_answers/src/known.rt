//! Calls on known targets.

ghost use Rattle.std.specs.Prelude.{◌≡◌, ◌↔◌, ◌≢◌, ◌≤◌, ◌<◌, ℕ, IfOk, IsTrue, string_bytes};
ghost use Rattle.std.specs.Str.{IsUtf8};
ghost use Rattle.cargo_platform.specs.Trees.{Condition};
ghost use Rattle.cargo_platform.specs.Platforms.{IsConditionText};
ghost use Rattle.known_targets.specs.Rows.{facts_in};
ghost use Rattle.known_targets.specs.Sets.{place};
ghost use Rattle.known_targets.specs.Table.{target_name, table_keys};
ghost use Rattle.byte_answers.specs.Answers.{AreFactsOf, AreTargets, fact_lines};
ghost use Rattle.byte_answers.specs.Depths.{IsTooDeep};
ghost use Rattle.byte_answers.specs.Outcomes.{HasNoAnswer, HasNoSpan, IsSilent, IsWritten};
ghost use Rattle.byte_answers.specs.Outcomes.{ends_key_call, ends_target_call};
ghost use Rattle.byte_answers.specs.Refusals.{IsRefusal};

use crate::fact_lines::push_fact_lines;
use crate::outcome::{
    DONE, NO_MEMORY, NOT_UTF8, Outcome, REFUSED, TOO_DEEP, UNKNOWN_TARGET, write,
};
use crate::reading::{read_condition, read_text};
use known_targets::{COUNT, KnownTarget, SET_WORDS, matching, names};
use std::alloc::{AllocError, Global};

/// Sets `words` to the known targets on which a key is true: bit `k % 64` of word `k / 64` is the target at index `k`.
///
/// Rejects the same keys as `canonical`, with the same codes, and then leaves the words unchanged.
pub fn matching_targets(
    alloc: Global,
    key: &[u8],
    words: &mut [u64; SET_WORDS],
    out: &mut [u8],
) -> Outcome
    // `DONE` is returned with exactly the known targets on which the key's condition is true.
    ensures done { result.code ≡ DONE → AreTargets key.now words.new }
    // `REFUSED` is returned only for a key that is not a condition, with the message and the span of the error in the
    // key.
    ensures refused { result.code ≡ REFUSED → IsRefusal key.now result out.old out.new }
    ensures spelled { result.code ≡ REFUSED → (p : Condition) → IsConditionText key.now p → ⊥ }
    // `NOT_UTF8` is returned exactly for a key that is not UTF-8, and `TOO_DEEP` exactly for any other key with more
    // than `MAX_OPEN` parentheses open at once.
    ensures not_utf8 { result.code ≡ NOT_UTF8 ↔ (IsUtf8 key.now → ⊥) }
    ensures too_deep { result.code ≡ TOO_DEEP ↔ (IsUtf8 key.now × IsTooDeep key.now) }
    // Nothing other than the promised texts is written.
    ensures silent { result.code ≢ REFUSED → IsSilent result out.old out.new }
    // Unless the code is `DONE`, the words are unchanged.
    ensures words_kept { result.code ≢ DONE → words.new ≡ words.old }
    // `holds` and `is_named` are false.
    ensures holds { HasNoAnswer result }
    // Unless the code is `REFUSED`, `start` and `end` are 0.
    ensures span { result.code ≢ REFUSED → HasNoSpan result }
    // The only other code is `NO_MEMORY`, and `argument` is 0.
    ensures argument { result.argument ≡ 0 }
    ensures codes { IsTrue (ends_key_call result.code) }
{
    match read_condition(alloc, 0, key, out) {
        Ok(platform) => match matching(alloc, &platform) {
            Ok(set) => {
                *words = set.words();
                Outcome::done(0)
            }
            Err(_) => Outcome::without_answer(NO_MEMORY, 0),
        },
        Err(outcome) => outcome,
    }
}

/// Writes the name of the known target at an index. The names are sorted, and there are `COUNT` of them.
///
/// Returns `UNKNOWN_TARGET` if the index is not less than `COUNT`.
pub fn target_name(place: usize, out: &mut [u8]) -> Outcome
    // For each index below `COUNT`, `DONE` is returned with the name of the target there.
    ensures done { result.code ≡ DONE → IsWritten (target_name place) result.needed out.old out.new }
    ensures known { place < COUNT → result.code ≡ DONE }
    // For each other index, `UNKNOWN_TARGET` is returned, and nothing is written.
    ensures unknown { COUNT ≤ place → result.code ≡ UNKNOWN_TARGET }
    ensures silent { COUNT ≤ place → IsSilent result out.old out.new }
    // `holds` and `is_named` are false.
    ensures holds { HasNoAnswer result }
    // `start` and `end` are 0.
    ensures span { HasNoSpan result }
    // `argument` is 0.
    ensures argument { result.argument ≡ 0 }
{
    let names = names();
    if place < names.len() {
        Outcome::done(write(names[place].as_bytes(), out))
    } else {
        Outcome::without_answer(UNKNOWN_TARGET, 0)
    }
}

/// Returns the lines of a target's facts.
fn facts_text(alloc: Global, target: KnownTarget) -> Result<String, AllocError>
    ensures { IfOk result (λ text. string_bytes text ≡ fact_lines (facts_in (place target) table_keys)) }
{
    let facts = target.facts(alloc)?;
    let mut text = String::new(alloc);
    push_fact_lines(alloc, &mut text, &facts)?;
    Ok(text)
}

/// Writes the facts of the known target with this name, one per line, in a form that `matches` reads.
///
/// Returns `UNKNOWN_TARGET` if no known target has the name.
pub fn facts(alloc: Global, name: &[u8], out: &mut [u8]) -> Outcome
    // `DONE` is returned with the facts of the known target with this name, one per line.
    ensures done { result.code ≡ DONE → AreFactsOf name.now result.needed out.old out.new }
    // `UNKNOWN_TARGET` is returned only if no known target has the name.
    ensures unknown { result.code ≡ UNKNOWN_TARGET → (k : ℕ) → k < COUNT → target_name k ≢ name.now }
    // `NOT_UTF8` is returned exactly for a name that is not UTF-8.
    ensures not_utf8 { result.code ≡ NOT_UTF8 ↔ (IsUtf8 name.now → ⊥) }
    // Nothing other than the promised texts is written.
    ensures silent { result.code ≢ DONE → IsSilent result out.old out.new }
    // `holds` and `is_named` are false.
    ensures holds { HasNoAnswer result }
    // `start` and `end` are 0.
    ensures span { HasNoSpan result }
    // The only other code is `NO_MEMORY`, and `argument` is 0.
    ensures argument { result.argument ≡ 0 }
    ensures codes { IsTrue (ends_target_call result.code) }
{
    let name = match read_text(0, name) {
        Ok(name) => name,
        Err(outcome) => return outcome,
    };
    let Some(target) = KnownTarget::by_name(name) else {
        return Outcome::without_answer(UNKNOWN_TARGET, 0);
    };
    match facts_text(alloc, target) {
        Ok(text) => Outcome::done(write(text.as_bytes(), out)),
        Err(_) => Outcome::without_answer(NO_MEMORY, 0),
    }
}
