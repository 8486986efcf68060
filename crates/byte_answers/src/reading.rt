//! Keys as bytes, and the outcomes of keys that are not conditions.

ghost use Rattle.std.specs.Prelude.{◌≡◌, ◌≢◌, ◌↔◌, ℕ, Option, IfOk, IfErr, IsTrue};
ghost use Rattle.std.specs.Str.{IsUtf8};
ghost use Rattle.std.specs.declared.ops.Range.{Range};
ghost use Rattle.cargo_platform.specs.Trees.{Condition, condition_of};
ghost use Rattle.cargo_platform.specs.Errors.{orig_of, fault_in, span_in};
ghost use Rattle.cargo_platform.specs.KeySpans.{IsSpanInKey};
ghost use Rattle.cargo_platform.specs.Platforms.{IsConditionText, IsRefusedConditionAt};
ghost use Rattle.byte_answers.specs.Depths.{IsTooDeep};
ghost use Rattle.byte_answers.specs.Outcomes.{HasNoAnswer, HasNoSpan, IsSilent, is_failure};
ghost use Rattle.byte_answers.specs.Refusals.{AreEnds, IsRefusal};

use crate::depth::is_too_deep;
use crate::outcome::{NO_MEMORY, NOT_UTF8, Outcome, REFUSED, TOO_DEEP, write};
use cargo_platform::{ParseError, Platform, ReadError};
use std::alloc::Global;
use std::ops::Range;
use std::str;

/// Returns bytes as a text, or the outcome of a call on bytes that are not UTF-8.
pub(crate) fn read_text(argument: u32, bytes: &[u8]) -> Result<&str, Outcome>
    ensures text { IfOk result (λ text. text.now ≡ bytes.now) }
    ensures code { IfErr result (λ o. o.code ≡ NOT_UTF8) }
    ensures argument { IfErr result (λ o. o.argument ≡ argument) }
    ensures not_utf8 { IfErr result (λ _. IsUtf8 bytes.now → ⊥) }
    ensures utf8 { IfOk result (λ _. IsUtf8 bytes.now) }
    ensures silent { IfErr result (λ o. o.needed ≡ 0) }
    ensures holds { IfErr result (λ o. HasNoAnswer o) }
    ensures span { IfErr result (λ o. HasNoSpan o) }
{
    match str::from_utf8(bytes) {
        Ok(text) => Ok(text),
        Err(_) => Err(Outcome::without_answer(NOT_UTF8, argument)),
    }
}

/// Returns the span of an error in the key, or the empty span if it has none.
pub(crate) fn span_of(error: &ParseError, key: &str) -> Range<usize>
    ensures { (at : Option (Range ℕ))
        × IsSpanInKey key.now (orig_of error.now) (fault_in error.now) (span_in error.now) at
        × AreEnds at result.start result.end }
{
    match error.span_in(key) {
        Some(span) => span,
        None => 0..0,
    }
}

/// Returns the outcome of a rejected key, with the message in the buffer and the span of the error in the key.
fn refused(alloc: Global, argument: u32, error: &ParseError, key: &str, out: &mut [u8]) -> Outcome
    requires { IsRefusedConditionAt key.now (orig_of error.now) (fault_in error.now) (span_in error.now) }
    ensures argument { result.argument ≡ argument }
    ensures refused { result.code ≡ REFUSED → IsRefusal key.now result out.old out.new }
    ensures not_utf8 { result.code ≢ NOT_UTF8 }
    ensures too_deep { result.code ≢ TOO_DEEP }
    ensures silent { result.code ≢ REFUSED → IsSilent result out.old out.new }
    ensures holds { HasNoAnswer result }
    ensures span { result.code ≢ REFUSED → HasNoSpan result }
    ensures codes { IsTrue (is_failure result.code) }
{
    let span = span_of(error, key);
    match error.to_string(alloc) {
        Ok(message) => Outcome {
            code: REFUSED,
            argument,
            holds: false,
            is_named: false,
            needed: write(message.as_bytes(), out),
            start: span.start,
            end: span.end,
        },
        Err(_) => Outcome::without_answer(NO_MEMORY, argument),
    }
}

/// Parses a key, or returns the outcome of a call on a key that is not a condition.
pub(crate) fn read_condition(
    alloc: Global,
    argument: u32,
    key: &[u8],
    out: &mut [u8],
) -> Result<Platform, Outcome>
    ensures condition { IfOk result (λ p. IsConditionText key.now (condition_of p)) }
    ensures unwritten { IfOk result (λ _. out.new ≡ out.old) }
    ensures utf8 { IfOk result (λ _. IsUtf8 key.now) }
    ensures shallow { IfOk result (λ _. IsTooDeep key.now → ⊥) }
    ensures argument { IfErr result (λ o. o.argument ≡ argument) }
    ensures refused { IfErr result (λ o. o.code ≡ REFUSED → IsRefusal key.now o out.old out.new) }
    ensures not_utf8 { IfErr result (λ o. o.code ≡ NOT_UTF8 ↔ (IsUtf8 key.now → ⊥)) }
    ensures too_deep { IfErr result
        (λ o. o.code ≡ TOO_DEEP ↔ (IsUtf8 key.now × IsTooDeep key.now)) }
    ensures silent { IfErr result (λ o. o.code ≢ REFUSED → IsSilent o out.old out.new) }
    ensures holds { IfErr result (λ o. HasNoAnswer o) }
    ensures span { IfErr result (λ o. o.code ≢ REFUSED → HasNoSpan o) }
    ensures codes { IfErr result (λ o. IsTrue (is_failure o.code)) }
    ensures spelled { IfErr result (λ o. o.code ≡ REFUSED → (p : Condition) → IsConditionText key.now p → ⊥) }
{
    let key = read_text(argument, key)?;
    if is_too_deep(key) {
        return Err(Outcome::without_answer(TOO_DEEP, argument));
    }
    match Platform::from_str(alloc, key) {
        Ok(platform) => Ok(platform),
        Err(ReadError::Parse(error)) => Err(refused(alloc, argument, &error, key, out)),
        Err(ReadError::Memory(_)) => Err(Outcome::without_answer(NO_MEMORY, argument)),
    }
}
