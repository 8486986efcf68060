//! The packages of a graph from bytes, written into a buffer of the caller, for callers that are not written in Rattle.
#![tactic(auto)]

ghost use Rattle.std.specs.Prelude.{◌≡◌, ◌≢◌, ◌<◌, ◌↔◌, ℕ, List, [], IsTrue, ◌||◌, ◌==◌, IfOk, IfErr, IfSome};
ghost use Rattle.std.specs.Prelude.{None};
ghost use Rattle.std.specs.Str.{IsUtf8};
ghost use Rattle.known_targets.specs.Sets.{place};
ghost use Rattle.known_targets.specs.Table.{target_name};
ghost use Rattle.byte_answers.specs.Outcomes.{HasNoAnswer, HasNoSpan, IsSilent, IsWritten};
ghost use Rattle.byte_graphs.specs.Documents.{IsGraph, IsDeepGraph, IsUnusable};

mod documents;

use byte_answers::{DONE, NO_MEMORY, NOT_UTF8, Outcome, REFUSED, TOO_DEEP, UNKNOWN_TARGET, write};
use documents::{Answer, answer_for};
use known_targets::{COUNT, KnownTarget};
use std::alloc::Global;
use std::str;

/// Returns the host with this name, or `None` for the empty name: builds then run on the target itself. Fails with a
/// name that no known target has.
fn host_of(name: &str) -> Result<Option<KnownTarget>, &str>
    ensures known { IfOk result (λ _. name.now ≢ [] → (k : ℕ) × ((k < COUNT) × (target_name k ≡ name.now))) }
    ensures unknown { IfErr result (λ _. (k : ℕ) → k < COUNT → target_name k ≢ name.now) }
    ensures empty { IfErr result (λ _. name.now ≢ []) }
    ensures host { IfOk result (λ host. IfSome host (λ target. target_name (place target) ≡ name.now)) }
    ensures none { IfOk result (λ host. (host ≡ None) ↔ (name.now ≡ [])) }
{
    if name.is_empty() {
        return Ok(None);
    }
    match KnownTarget::by_name(name) {
        Some(target) => Ok(Some(target)),
        None => Err(name),
    }
}

/// Writes a line of JSON for each package of a graph, with the known targets on which it is in the build, as
/// `manifest_check graph --json` prints them.
///
/// The document is the output of `cargo metadata --format-version 1`. Builds run on the host, a known target with this
/// name, or on the target itself if the name is empty. Returns `REFUSED` if the document cannot be used, with the
/// reason in the buffer, and `UNKNOWN_TARGET` if no known target has the host's name. With `NOT_UTF8`, `argument` is
/// the index of the text that is not UTF-8. Returns `TOO_DEEP` if a condition has more than `MAX_OPEN` parentheses
/// open at once.
pub fn package_lines(alloc: Global, document: &[u8], host: &[u8], out: &mut [u8]) -> Outcome
    // With `DONE`, the document is a graph, and no condition is too deep.
    ensures done { result.code ≡ DONE → IsGraph document.now }
    // With `REFUSED`, the document is not JSON, or forms no graph, for a reason other than a lack of memory.
    ensures refused { result.code ≡ REFUSED → IsUnusable document.now }
    // With `TOO_DEEP`, the document has what a graph needs, and a condition is too deep.
    ensures too_deep { result.code ≡ TOO_DEEP → IsDeepGraph document.now }
    // With `DONE` and `REFUSED`, a text is written if the buffer is long enough.
    ensures written { IsTrue (result.code == DONE || result.code == REFUSED)
        → (text : List ℕ) × IsWritten text result.needed out.old out.new }
    // With other codes, nothing is written.
    ensures silent { result.code ≢ DONE → result.code ≢ REFUSED → IsSilent result out.old out.new }
    // With `NOT_UTF8`, the text at index `argument` is not UTF-8; with other codes, both texts are.
    ensures not_utf8_document { result.code ≡ NOT_UTF8 → result.argument ≡ 0 → IsUtf8 document.now → ⊥ }
    ensures not_utf8_host { result.code ≡ NOT_UTF8 → result.argument ≡ 1 → IsUtf8 host.now → ⊥ }
    ensures utf8 { result.code ≢ NOT_UTF8 → IsUtf8 document.now × IsUtf8 host.now }
    // With `UNKNOWN_TARGET`, the host has a name, and no known target has it.
    ensures unknown { result.code ≡ UNKNOWN_TARGET → (k : ℕ) → k < COUNT → target_name k ≢ host.now }
    ensures empty { result.code ≡ UNKNOWN_TARGET → host.now ≢ [] }
    ensures host { result.code ≡ UNKNOWN_TARGET → result.argument ≡ 1 }
    // With `DONE` and `REFUSED`, the host is a known target, or has no name.
    ensures known { IsTrue (result.code == DONE || result.code == REFUSED) → host.now ≢ []
        → (k : ℕ) × ((k < COUNT) × (target_name k ≡ host.now)) }
    // `holds` and `is_named` are false.
    ensures holds { HasNoAnswer result }
    // `start` and `end` are 0.
    ensures span { HasNoSpan result }
    // The code is one of these, or `NO_MEMORY`.
    ensures argument { IsTrue (result.argument == 0 || result.argument == 1) }
    ensures codes { IsTrue (result.code == DONE || result.code == REFUSED || result.code == NOT_UTF8
        || result.code == NO_MEMORY || result.code == TOO_DEEP || result.code == UNKNOWN_TARGET) }
{
    let Ok(document) = str::from_utf8(document) else {
        return Outcome::without_answer(NOT_UTF8, 0);
    };
    let Ok(name) = str::from_utf8(host) else {
        return Outcome::without_answer(NOT_UTF8, 1);
    };
    let Ok(host) = host_of(name) else {
        return Outcome::without_answer(UNKNOWN_TARGET, 1);
    };
    match answer_for(alloc, document, host) {
        Ok(Answer::Lines(lines)) => Outcome::done(write(lines.as_bytes(), out)),
        Ok(Answer::Reason(reason)) => Outcome::refused(0, reason.as_str(), out),
        Ok(Answer::TooDeep) => Outcome::without_answer(TOO_DEEP, 0),
        Err(_) => Outcome::without_answer(NO_MEMORY, 0),
    }
}
