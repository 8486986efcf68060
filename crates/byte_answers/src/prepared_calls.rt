//! Calls on prepared facts.

ghost use Rattle.std.specs.Prelude.{◌≡◌, ◌≢◌, ◌↔◌, ℕ, List, false, IsTrue, ◌||◌, ◌==◌};
ghost use Rattle.std.specs.Str.{IsUtf8};
ghost use Rattle.cargo_platform.specs.Facts.{FactSet};
ghost use Rattle.byte_answers.specs.Flat.{IsFlatForm};
ghost use Rattle.byte_answers.specs.Prepared.{ArePrepared, IsPreparedMatch, StandFor};
ghost use Rattle.byte_answers.specs.Outcomes.{HasNoAnswer, HasNoSpan, IsSilent, ends_fact_call, ends_prepared_call};
ghost use Rattle.byte_answers.specs.Refusals.{IsRefusedLine};

use crate::matching::refused_facts;
use crate::outcome::{DONE, NO_MEMORY, NOT_FLAT, NOT_UTF8, Outcome, REFUSED, write};
use crate::prepared::{open, prepare};
use crate::reading::read_text;
use crate::truths::is_true;
use cargo_platform::read_facts;
use std::alloc::Global;

/// Writes the prepared facts of these lines: bytes that the caller can keep to match many flat conditions.
///
/// The lines are as `rustc --print cfg` prints them, one fact per line. Returns `REFUSED`, with the message in the
/// buffer, if a line is not a fact.
pub fn prepare_facts(alloc: Global, lines: &[u8], out: &mut [u8]) -> Outcome
    // `DONE` is returned with bytes that stand for exactly the set of the facts in the lines.
    ensures done { result.code ≡ DONE → ArePrepared lines.now result.needed out.old out.new }
    // `REFUSED` is returned only for lines of which one is not a fact, with the message and the span of the error in
    // the first such line.
    ensures refused { result.code ≡ REFUSED → IsRefusedLine lines.now result out.old out.new }
    // `NOT_UTF8` is returned exactly for lines that are not UTF-8.
    ensures not_utf8 { result.code ≡ NOT_UTF8 ↔ (IsUtf8 lines.now → ⊥) }
    // Nothing other than the promised texts is written.
    ensures silent { result.code ≢ DONE → result.code ≢ REFUSED → IsSilent result out.old out.new }
    // `holds` and `is_named` are false.
    ensures holds { HasNoAnswer result }
    // Unless the code is `REFUSED`, `start` and `end` are 0.
    ensures span { result.code ≢ REFUSED → HasNoSpan result }
    // The only other code is `NO_MEMORY`, and `argument` is 0.
    ensures argument { result.argument ≡ 0 }
    ensures codes { IsTrue (ends_fact_call result.code) }
{
    let text = match read_text(0, lines) {
        Ok(text) => text,
        Err(outcome) => return outcome,
    };
    match read_facts(alloc, text) {
        Ok(facts) => match prepare(alloc, &facts) {
            Ok(bytes) => Outcome::done(write(&bytes, out)),
            Err(_) => Outcome::without_answer(NO_MEMORY, 0),
        },
        Err(error) => refused_facts(alloc, 0, &error, text, out),
    }
}

/// Decides whether a flat condition is true on a target with this name and these prepared facts.
///
/// `holds` is the answer. Returns `NOT_FLAT` if the bytes are the flat form of no condition (`argument` 0) or stand for
/// no facts (`argument` 2). Texts are compared as bytes, and not checked to be UTF-8. Nothing is decoded. The condition
/// is read from its end, and memory is allocated only while more than 64 truths wait for the groups that they are
/// members of: in a group with more than 64 members, or in groups that are nested as deeply and have more members
/// behind them.
pub fn prepared_matches(alloc: Global, flat: &[u8], name: &[u8], prepared: &[u8]) -> Outcome
    // `DONE` is returned with whether the condition whose flat form the bytes are is true for the name and the set of
    // facts for which the prepared bytes stand.
    ensures done { result.code ≡ DONE → IsPreparedMatch flat.now name.now prepared.now result.holds }
    // `NOT_FLAT` is returned only for bytes that are the flat form of no condition (`argument` 0), or that stand for no
    // set of facts (`argument` 2).
    ensures not_flat { result.code ≡ NOT_FLAT → result.argument ≡ 0 → IsFlatForm flat.now → ⊥ }
    ensures not_prepared { result.code ≡ NOT_FLAT → result.argument ≡ 2
        → (s : FactSet) → StandFor prepared.now s → ⊥ }
    ensures refused_bytes { result.code ≡ NOT_FLAT → IsTrue (result.argument == 0 || result.argument == 2) }
    // `needed` is 0.
    ensures silent { result.needed ≡ 0 }
    // Unless the code is `DONE`, `holds` and `is_named` are false.
    ensures holds { result.code ≢ DONE → HasNoAnswer result }
    // No example has a name.
    ensures named { result.is_named ≡ false }
    // `start` and `end` are 0.
    ensures span { HasNoSpan result }
    // The only other code is `NO_MEMORY`.
    ensures codes { IsTrue (ends_prepared_call result.code) }
{
    let Some(facts) = open(prepared) else {
        return Outcome::without_answer(NOT_FLAT, 2);
    };
    match is_true(alloc, flat, name, facts) {
        Ok(Some(holds)) => Outcome::answered(holds),
        Ok(None) => Outcome::without_answer(NOT_FLAT, 0),
        Err(_) => Outcome::without_answer(NO_MEMORY, 0),
    }
}
