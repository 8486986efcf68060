//! Calls that decide whether a key is true on a target.

ghost use Rattle.std.specs.Prelude.{◌≡◌, ◌↔◌, ◌≢◌, ℕ, false, List, Option, IsTrue, map, ◌||◌, ◌==◌};
ghost use Rattle.std.specs.declared.ops.Range.{Range};
ghost use Rattle.std.specs.Str.{IsUtf8};
ghost use Rattle.cargo_platform.specs.Trees.{CfgValue, Condition, condition_of};
ghost use Rattle.cargo_platform.specs.Facts.{fact_set, truth_of_condition};
ghost use Rattle.cargo_platform.specs.Lines.{lines_of};
ghost use Rattle.cargo_platform.specs.FactLines.{SpellFacts, IsSpanInFacts};
ghost use Rattle.cargo_platform.specs.Platforms.{IsConditionText};
ghost use Rattle.byte_answers.specs.Answers.{IsMatch};
ghost use Rattle.byte_answers.specs.Depths.{IsTooDeep};
ghost use Rattle.byte_answers.specs.Outcomes.{HasNoAnswer, HasNoSpan, IsSilent, ends_key_call};
ghost use Rattle.byte_answers.specs.Refusals.{AreEnds, IsRefusal, IsRefusedLine, IsErrorOfLines};

use crate::fact_texts::{fact_texts, is_true_on};
use crate::outcome::{DONE, NO_MEMORY, NOT_UTF8, Outcome, REFUSED, TOO_DEEP, write};
use crate::reading::{read_condition, read_text};
use cargo_platform::{FactsError, Platform, read_facts};
use std::alloc::Global;
use std::ops::Range;

/// The index of the lines of facts among the texts of `matches`.
pub(crate) const LINES: u32 = 2;

/// Returns the span of an error in lines of facts, or the empty span if it has none.
fn span_in_lines(error: &FactsError, lines: &str) -> Range<usize>
    ensures { (at : Option (Range ℕ)) × IsSpanInFacts lines.now error.now at × AreEnds at result.start result.end }
{
    match error.span_in(lines) {
        Some(span) => span,
        None => 0..0,
    }
}

/// Returns the outcome of rejected facts, with the message in the buffer and the span of the error in their text.
pub(crate) fn refused_facts(
    alloc: Global,
    argument: u32,
    error: &FactsError,
    lines: &str,
    out: &mut [u8],
) -> Outcome
    requires { IsErrorOfLines lines.now error.now }
    ensures refused { result.code ≡ REFUSED → IsRefusedLine lines.now result out.old out.new }
    ensures silent { result.code ≢ REFUSED → IsSilent result out.old out.new }
    ensures argument { result.argument ≡ argument }
    ensures holds { HasNoAnswer result }
    ensures span { result.code ≢ REFUSED → HasNoSpan result }
    ensures codes { IsTrue (result.code == REFUSED || result.code == NO_MEMORY) }
{
    if let FactsError::Memory(_) = error {
        return Outcome::without_answer(NO_MEMORY, argument);
    }
    let span = span_in_lines(error, lines);
    match error.to_string(alloc) {
        Ok(message) => Outcome {
            code: REFUSED,
            argument,
            holds: false,
            is_named: false,
            needed: write(message.as_bytes(), out),
            start: span.start,
            end: span.end,
        },
        Err(_) => Outcome::without_answer(NO_MEMORY, argument),
    }
}

/// Decides whether a condition is true on a target with this name and the facts in these lines. It copies the facts, and
/// so has the error of a line that is not one.
#[cold]
#[inline(never)]
fn match_copies(
    alloc: Global,
    platform: &Platform,
    name: &str,
    lines: &str,
    out: &mut [u8],
) -> Outcome
    ensures done { result.code ≡ DONE → (facts : List CfgValue) × (SpellFacts (lines_of lines.now) facts
        × (result.holds ≡ truth_of_condition name.now (fact_set facts) (condition_of platform.now))) }
    ensures refused { result.code ≡ REFUSED → IsRefusedLine lines.now result out.old out.new }
    ensures codes { IsTrue (result.code == DONE || result.code == REFUSED || result.code == NO_MEMORY) }
    ensures silent { result.code ≢ REFUSED → IsSilent result out.old out.new }
    ensures argument { result.code ≡ REFUSED → result.argument ≡ LINES }
    ensures holds { result.code ≢ DONE → HasNoAnswer result }
    ensures named { result.is_named ≡ false }
    ensures span { result.code ≢ REFUSED → HasNoSpan result }
    ensures place { IsTrue (result.argument == 0 || result.argument == 1 || result.argument == 2) }
{
    match read_facts(alloc, lines) {
        Ok(facts) => Outcome::answered(platform.matches(name, &facts)),
        Err(error) => refused_facts(alloc, LINES, &error, lines, out),
    }
}

/// Decides whether a condition is true on a target with this name and the facts in these lines.
fn match_lines(
    alloc: Global,
    platform: &Platform,
    name: &str,
    lines: &str,
    out: &mut [u8],
) -> Outcome
    ensures done { result.code ≡ DONE → (facts : List CfgValue) × (SpellFacts (lines_of lines.now) facts
        × (result.holds ≡ truth_of_condition name.now (fact_set facts) (condition_of platform.now))) }
    ensures refused { result.code ≡ REFUSED → IsRefusedLine lines.now result out.old out.new }
    ensures codes { IsTrue (result.code == DONE || result.code == REFUSED || result.code == NO_MEMORY) }
    ensures silent { result.code ≢ REFUSED → IsSilent result out.old out.new }
    ensures argument { result.code ≡ REFUSED → result.argument ≡ LINES }
    ensures holds { result.code ≢ DONE → HasNoAnswer result }
    ensures named { result.is_named ≡ false }
    ensures span { result.code ≢ REFUSED → HasNoSpan result }
    ensures place { IsTrue (result.argument == 0 || result.argument == 1 || result.argument == 2) }
{
    match fact_texts(alloc, lines) {
        Ok(Some(facts)) => Outcome::answered(is_true_on(platform, name, &facts)),
        Ok(None) => match_copies(alloc, platform, name, lines, out),
        Err(_) => Outcome::without_answer(NO_MEMORY, LINES),
    }
}

/// Decides whether a key is true on the target with this name and the facts in these lines.
///
/// The lines are as `rustc --print cfg` prints them, one fact per line. The outcome's `holds` is the answer. Returns
/// `REFUSED`, with the message in the buffer, if the key is not a condition (`argument` 0) or a line is not a fact
/// (`argument` 2). With `NOT_UTF8`, `argument` is the index of the text that is not UTF-8.
pub fn matches(alloc: Global, key: &[u8], name: &[u8], lines: &[u8], out: &mut [u8]) -> Outcome
    // `DONE` is returned with whether the key's condition is true for the name and the facts in the lines.
    ensures done { result.code ≡ DONE → IsMatch key.now name.now lines.now result.holds }
    // `REFUSED` with `argument` 0 is returned only for a key that is not a condition, with the message and the span of
    // the error in the key.
    ensures refused { result.code ≡ REFUSED → result.argument ≡ 0 → IsRefusal key.now result out.old out.new }
    ensures spelled { result.code ≡ REFUSED → result.argument ≡ 0
        → (p : Condition) → IsConditionText key.now p → ⊥ }
    // `REFUSED` with `argument` 2 is returned only for lines of which one is not a fact, with the message and the span
    // of the error in the first such line.
    ensures line { result.code ≡ REFUSED → result.argument ≡ 2 → IsRefusedLine lines.now result out.old out.new }
    // No other text is rejected.
    ensures refused_text { result.code ≡ REFUSED → IsTrue (result.argument == 0 || result.argument == 2) }
    // `NOT_UTF8` is returned only if some text is not UTF-8, and `DONE` only if all texts are.
    ensures not_utf8 { result.code ≡ NOT_UTF8 → IsUtf8 key.now → IsUtf8 name.now → IsUtf8 lines.now → ⊥ }
    ensures utf8 { result.code ≡ DONE → IsUtf8 key.now × IsUtf8 name.now × IsUtf8 lines.now }
    // `argument` is 0, 1 or 2, and with `NOT_UTF8` the index of a text that is not UTF-8.
    ensures argument { IsTrue (result.argument == 0 || result.argument == 1 || result.argument == 2) }
    ensures not_utf8_key { result.code ≡ NOT_UTF8 → result.argument ≡ 0 → IsUtf8 key.now → ⊥ }
    ensures not_utf8_name { result.code ≡ NOT_UTF8 → result.argument ≡ 1 → IsUtf8 name.now → ⊥ }
    ensures not_utf8_lines { result.code ≡ NOT_UTF8 → result.argument ≡ 2 → IsUtf8 lines.now → ⊥ }
    // `TOO_DEEP` is returned exactly for a key that is UTF-8 with more than `MAX_OPEN` parentheses open at once;
    // `argument` is 0.
    ensures too_deep { result.code ≡ TOO_DEEP ↔ (IsUtf8 key.now × IsTooDeep key.now) }
    ensures too_deep_key { result.code ≡ TOO_DEEP → result.argument ≡ 0 }
    // Nothing is written unless a text is rejected.
    ensures silent { result.code ≢ REFUSED → IsSilent result out.old out.new }
    // Unless the code is `DONE`, `holds` and `is_named` are false.
    ensures holds { result.code ≢ DONE → HasNoAnswer result }
    // No example has a name.
    ensures named { result.is_named ≡ false }
    // Unless the code is `REFUSED`, `start` and `end` are 0.
    ensures span { result.code ≢ REFUSED → HasNoSpan result }
    // The only other code is `NO_MEMORY`.
    ensures codes { IsTrue (ends_key_call result.code) }
{
    let platform = match read_condition(alloc, 0, key, out) {
        Ok(platform) => platform,
        Err(outcome) => return outcome,
    };
    let name = match read_text(1, name) {
        Ok(name) => name,
        Err(outcome) => return outcome,
    };
    match read_text(LINES, lines) {
        Ok(lines) => match_lines(alloc, &platform, name, lines, out),
        Err(outcome) => outcome,
    }
}
