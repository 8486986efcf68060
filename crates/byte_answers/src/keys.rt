//! Calls on one key.

ghost use Rattle.std.specs.Prelude.{◌≡◌, ◌≢◌, ◌↔◌, ℕ, IsTrue, ◌||◌, ◌==◌};
ghost use Rattle.std.specs.Str.{IsUtf8};
ghost use Rattle.cargo_platform.specs.Trees.{Condition};
ghost use Rattle.cargo_platform.specs.Platforms.{IsConditionText, IsRefusedConditionAt};
ghost use Rattle.cargo_platform.specs.Errors.{orig_of, fault_in, span_in};
ghost use Rattle.byte_answers.specs.Answers.{IsCanonical, IsFlatOf};
ghost use Rattle.byte_answers.specs.Depths.{IsTooDeep};
ghost use Rattle.byte_answers.specs.Outcomes.{HasNoAnswer, HasNoSpan, IsSilent, ends_key_call};
ghost use Rattle.byte_answers.specs.Refusals.{IsRefusal, IsShownRefusal};

use crate::depth::is_too_deep;
use crate::flat::flatten;
use crate::outcome::{DONE, NO_MEMORY, NOT_UTF8, Outcome, REFUSED, TOO_DEEP, write};
use crate::reading::{read_condition, read_text, span_of};
use cargo_platform::{ParseError, Platform, ReadError};
use std::alloc::Global;

/// Writes the canonical text of a key's condition, which is parsed as the same condition.
///
/// Returns `REFUSED` if the key is not a condition, with the message in the buffer and the span of the error in the
/// key, in bytes. Returns `NOT_UTF8` if the key is not UTF-8, and `TOO_DEEP` if more than `MAX_OPEN` parentheses are
/// open at once.
pub fn canonical(alloc: Global, key: &[u8], out: &mut [u8]) -> Outcome
    // `DONE` is returned with the canonical text of the key's condition.
    ensures done { result.code ≡ DONE → IsCanonical key.now result.needed out.old out.new }
    // `REFUSED` is returned only for a key that is not a condition, with the message and the span of the error in the
    // key.
    ensures refused { result.code ≡ REFUSED → IsRefusal key.now result out.old out.new }
    ensures spelled { result.code ≡ REFUSED → (p : Condition) → IsConditionText key.now p → ⊥ }
    // `NOT_UTF8` is returned exactly for a key that is not UTF-8, and `TOO_DEEP` exactly for any other key with more
    // than `MAX_OPEN` parentheses open at once.
    ensures not_utf8 { result.code ≡ NOT_UTF8 ↔ (IsUtf8 key.now → ⊥) }
    ensures too_deep { result.code ≡ TOO_DEEP ↔ (IsUtf8 key.now × IsTooDeep key.now) }
    // Nothing other than the promised texts is written.
    ensures silent { result.code ≢ DONE → result.code ≢ REFUSED → IsSilent result out.old out.new }
    // `holds` and `is_named` are false.
    ensures holds { HasNoAnswer result }
    // Unless the code is `REFUSED`, `start` and `end` are 0.
    ensures span { result.code ≢ REFUSED → HasNoSpan result }
    // The only other code is `NO_MEMORY`, and `argument` is 0.
    ensures argument { result.argument ≡ 0 }
    ensures codes { IsTrue (ends_key_call result.code) }
{
    match read_condition(alloc, 0, key, out) {
        Ok(platform) => match platform.to_string(alloc) {
            Ok(text) => Outcome::done(write(text.as_bytes(), out)),
            Err(_) => Outcome::without_answer(NO_MEMORY, 0),
        },
        Err(outcome) => outcome,
    }
}

/// Writes the flat form of a key's condition: bytes that `flat_print` and `flat_matches` take in place of the key.
///
/// Rejects the same keys as `canonical`, with the same codes.
pub fn flatten_key(alloc: Global, key: &[u8], out: &mut [u8]) -> Outcome
    // `DONE` is returned with the flat form of the key's condition.
    ensures done { result.code ≡ DONE → IsFlatOf key.now result.needed out.old out.new }
    // `REFUSED` is returned only for a key that is not a condition, with the message and the span of the error in the
    // key.
    ensures refused { result.code ≡ REFUSED → IsRefusal key.now result out.old out.new }
    ensures spelled { result.code ≡ REFUSED → (p : Condition) → IsConditionText key.now p → ⊥ }
    // `NOT_UTF8` is returned exactly for a key that is not UTF-8, and `TOO_DEEP` exactly for any other key with more
    // than `MAX_OPEN` parentheses open at once.
    ensures not_utf8 { result.code ≡ NOT_UTF8 ↔ (IsUtf8 key.now → ⊥) }
    ensures too_deep { result.code ≡ TOO_DEEP ↔ (IsUtf8 key.now × IsTooDeep key.now) }
    // Nothing other than the promised texts is written.
    ensures silent { result.code ≢ DONE → result.code ≢ REFUSED → IsSilent result out.old out.new }
    // `holds` and `is_named` are false.
    ensures holds { HasNoAnswer result }
    // Unless the code is `REFUSED`, `start` and `end` are 0.
    ensures span { result.code ≢ REFUSED → HasNoSpan result }
    // The only other code is `NO_MEMORY`, and `argument` is 0.
    ensures argument { result.argument ≡ 0 }
    ensures codes { IsTrue (ends_key_call result.code) }
{
    match read_condition(alloc, 0, key, out) {
        Ok(platform) => match flatten(alloc, &platform) {
            Ok(bytes) => Outcome::done(write(&bytes, out)),
            Err(_) => Outcome::without_answer(NO_MEMORY, 0),
        },
        Err(outcome) => outcome,
    }
}

/// Returns the outcome of a rejected key, with its snippet in the buffer and the span of the error in the key.
fn shown(alloc: Global, error: &ParseError, key: &str, out: &mut [u8]) -> Outcome
    requires { IsRefusedConditionAt key.now (orig_of error.now) (fault_in error.now) (span_in error.now) }
    ensures refused { result.code ≡ REFUSED → IsShownRefusal key.now result out.old out.new }
    ensures silent { result.code ≢ REFUSED → IsSilent result out.old out.new }
    ensures holds { HasNoAnswer result }
    ensures span { result.code ≢ REFUSED → HasNoSpan result }
    ensures argument { result.argument ≡ 0 }
    ensures codes { IsTrue (result.code == REFUSED || result.code == NO_MEMORY) }
{
    let span = span_of(error, key);
    let needed = match error.snippet_in(alloc, key) {
        Ok(Some(snippet)) => write(snippet.as_bytes(), out),
        Ok(None) => write(&[], out),
        Err(_) => return Outcome::without_answer(NO_MEMORY, 0),
    };
    Outcome {
        code: REFUSED,
        argument: 0,
        holds: false,
        is_named: false,
        needed,
        start: span.start,
        end: span.end,
    }
}

/// Shows the error of a rejected key: writes two lines: the key, and carets under the error with the reason.
///
/// Returns `REFUSED` if the key is not a condition, with the span of the error in the key, in bytes, and `DONE` with no
/// bytes if it is one. `canonical` writes the message of the error.
pub fn fault_snippet(alloc: Global, key: &[u8], out: &mut [u8]) -> Outcome
    // `DONE` is returned only for a key that is a condition.
    ensures done { result.code ≡ DONE → (p : Condition) × IsConditionText key.now p }
    // `REFUSED` is returned only for a key that is not a condition, with the snippet and the span of the error in the
    // key.
    ensures refused { result.code ≡ REFUSED → IsShownRefusal key.now result out.old out.new }
    ensures spelled { result.code ≡ REFUSED → (p : Condition) → IsConditionText key.now p → ⊥ }
    // `NOT_UTF8` is returned exactly for a key that is not UTF-8, and `TOO_DEEP` exactly for any other key with more
    // than `MAX_OPEN` parentheses open at once.
    ensures not_utf8 { result.code ≡ NOT_UTF8 ↔ (IsUtf8 key.now → ⊥) }
    ensures too_deep { result.code ≡ TOO_DEEP ↔ (IsUtf8 key.now × IsTooDeep key.now) }
    // Nothing other than the promised texts is written.
    ensures silent { result.code ≢ REFUSED → IsSilent result out.old out.new }
    // `holds` and `is_named` are false.
    ensures holds { HasNoAnswer result }
    // Unless the code is `REFUSED`, `start` and `end` are 0.
    ensures span { result.code ≢ REFUSED → HasNoSpan result }
    // The only other code is `NO_MEMORY`, and `argument` is 0.
    ensures argument { result.argument ≡ 0 }
    ensures codes { IsTrue (ends_key_call result.code) }
{
    let key = match read_text(0, key) {
        Ok(key) => key,
        Err(outcome) => return outcome,
    };
    if is_too_deep(key) {
        return Outcome::without_answer(TOO_DEEP, 0);
    }
    match Platform::from_str(alloc, key) {
        Ok(_) => Outcome::done(0),
        Err(ReadError::Parse(error)) => shown(alloc, &error, key, out),
        Err(ReadError::Memory(_)) => Outcome::without_answer(NO_MEMORY, 0),
    }
}
