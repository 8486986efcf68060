//! The functions for C. Each is a call of `byte_answers`, `byte_graphs` or `byte_commands`, with its clauses.
//!
//! For C, a slice is a pointer and a length, and the allocator is not an argument. `.ci/c-library --header` makes
//! `include/nevgrasi.h` from these signatures and comments.
#![tactic(auto)]

ghost use Rattle.std.specs.Prelude.{◌≡◌, ◌↔◌, ◌≢◌, ◌≤◌, ◌<◌, ℕ, List, [], length, IsTrue, true, false, ◌||◌, ◌==◌};
ghost use Rattle.std.specs.Str.{IsUtf8};
ghost use Rattle.cargo_platform.specs.Trees.{Condition};
ghost use Rattle.cargo_platform.specs.Platforms.{IsConditionText};
ghost use Rattle.cargo_platform.specs.Facts.{FactSet};
ghost use Rattle.known_targets.specs.Table.{target_name};
ghost use Rattle.byte_answers.specs.Answers.{AreFactsOf, AreTargets, IsCanonical, IsFlatMatch, IsFlatOf, IsMatch};
ghost use Rattle.byte_answers.specs.Answers.{IsPrint};
ghost use Rattle.byte_answers.specs.Batches.{AreAnswersAt, AreLengthPrefixed, ends_batch_call};
ghost use Rattle.byte_answers.specs.Comparisons.{AreRelated, AreUndecided, IsPossibleKey, IsUndecided};
ghost use Rattle.byte_answers.specs.Depths.{IsReadable, IsTooDeep};
ghost use Rattle.byte_answers.specs.Flat.{IsFlatForm, AreFlatFacts};
ghost use Rattle.byte_answers.specs.Outcomes.{HasNoAnswer, HasNoSpan, IsSilent, IsWritten, ends_comparison};
ghost use Rattle.byte_answers.specs.Outcomes.{ends_fact_call, ends_flat_call, ends_flat_print, ends_key_call};
ghost use Rattle.byte_answers.specs.Outcomes.{ends_prepared_call, ends_target_call};
ghost use Rattle.byte_answers.specs.Prepared.{ArePrepared, IsPreparedMatch, StandFor};
ghost use Rattle.byte_answers.specs.Refusals.{IsRefusal, IsRefusedLine, IsShownRefusal};
ghost use Rattle.byte_graphs.specs.Documents.{IsGraph, IsDeepGraph, IsUnusable};
ghost use Rattle.byte_commands.specs.Answers.{IsAnswer};

use byte_answers::{
    DONE, MAX_FLAT_BYTES, NO_MEMORY, NOT_FLAT, NOT_UTF8, Outcome, REFUSED, Relation, TOO_DEEP,
    UNDECIDED, UNKNOWN_TARGET, VERSION,
};
use known_targets::{COUNT, SET_WORDS};
use std::alloc::Global;

/// The version of the interface. It rises whenever a caller of an earlier version may break.
pub const ABI: u32 = 2;

/// The first text in the parentheses after the version of `manifest_check`. In an unproved build it is
/// `unproved build, `.
const BUILD: &str = "";

/// Returns the version of the interface. A caller that was compiled with another `NEVGRASI_ABI` should not go on.
#[unsafe(no_mangle)]
pub extern "C" fn nevgrasi_abi() -> u32
    ensures { result ≡ ABI }
{
    ABI
}

/// Writes the version of the library: three numbers with dots between them.
#[unsafe(no_mangle)]
pub extern "C" fn nevgrasi_version(out: &mut [u8], outcome: &mut Outcome) -> u32
    ensures written { IsWritten VERSION.now outcome.new.needed out.old out.new }
    ensures done { result ≡ DONE }
    ensures holds { HasNoAnswer outcome.new }
    ensures span { HasNoSpan outcome.new }
    ensures outcome { outcome.new.code ≡ result }
{
    *outcome = byte_answers::version(out);
    outcome.code
}

/// Writes the canonical text of a key's condition, which is parsed as the same condition.
#[unsafe(no_mangle)]
pub extern "C" fn nevgrasi_canonical(
    alloc: Global,
    key: &[u8],
    out: &mut [u8],
    outcome: &mut Outcome,
) -> u32
    ensures done { result ≡ DONE → IsCanonical key.now outcome.new.needed out.old out.new }
    ensures refused { result ≡ REFUSED → IsRefusal key.now outcome.new out.old out.new }
    ensures spelled { result ≡ REFUSED → (p : Condition) → IsConditionText key.now p → ⊥ }
    ensures not_utf8 { result ≡ NOT_UTF8 ↔ (IsUtf8 key.now → ⊥) }
    ensures too_deep { result ≡ TOO_DEEP ↔ (IsUtf8 key.now × IsTooDeep key.now) }
    ensures silent { result ≢ DONE → result ≢ REFUSED → IsSilent outcome.new out.old out.new }
    ensures argument { outcome.new.argument ≡ 0 }
    ensures codes { IsTrue (ends_key_call result) }
    ensures holds { HasNoAnswer outcome.new }
    ensures span { result ≢ REFUSED → HasNoSpan outcome.new }
    ensures outcome { outcome.new.code ≡ result }
{
    *outcome = byte_answers::canonical(alloc, key, out);
    outcome.code
}

/// Shows the error of a rejected key: with `REFUSED`, writes two lines, the key and carets under the error. Returns
/// `DONE`, with no bytes, if the key is a condition.
#[unsafe(no_mangle)]
pub extern "C" fn nevgrasi_fault(
    alloc: Global,
    key: &[u8],
    out: &mut [u8],
    outcome: &mut Outcome,
) -> u32
    ensures done { result ≡ DONE → (p : Condition) × IsConditionText key.now p }
    ensures refused { result ≡ REFUSED → IsShownRefusal key.now outcome.new out.old out.new }
    ensures spelled { result ≡ REFUSED → (p : Condition) → IsConditionText key.now p → ⊥ }
    ensures not_utf8 { result ≡ NOT_UTF8 ↔ (IsUtf8 key.now → ⊥) }
    ensures too_deep { result ≡ TOO_DEEP ↔ (IsUtf8 key.now × IsTooDeep key.now) }
    ensures silent { result ≢ REFUSED → IsSilent outcome.new out.old out.new }
    ensures argument { outcome.new.argument ≡ 0 }
    ensures codes { IsTrue (ends_key_call result) }
    ensures holds { HasNoAnswer outcome.new }
    ensures span { result ≢ REFUSED → HasNoSpan outcome.new }
    ensures outcome { outcome.new.code ≡ result }
{
    *outcome = byte_answers::fault_snippet(alloc, key, out);
    outcome.code
}

/// Decides whether a key is true on the target with this name and the facts in these lines, which are as `rustc --print
/// cfg` prints them. `holds` is the answer. With `REFUSED`, `argument` 2 means that a line is not a fact.
#[unsafe(no_mangle)]
pub extern "C" fn nevgrasi_matches(
    alloc: Global,
    key: &[u8],
    name: &[u8],
    lines: &[u8],
    out: &mut [u8],
    outcome: &mut Outcome,
) -> u32
    ensures done { result ≡ DONE → IsMatch key.now name.now lines.now outcome.new.holds }
    ensures refused { result ≡ REFUSED → outcome.new.argument ≡ 0 → IsRefusal key.now outcome.new out.old out.new }
    ensures spelled { result ≡ REFUSED → outcome.new.argument ≡ 0
        → (p : Condition) → IsConditionText key.now p → ⊥ }
    ensures line { result ≡ REFUSED → outcome.new.argument ≡ 2
        → IsRefusedLine lines.now outcome.new out.old out.new }
    ensures refused_text { result ≡ REFUSED → IsTrue (outcome.new.argument == 0 || outcome.new.argument == 2) }
    ensures not_utf8 { result ≡ NOT_UTF8 → IsUtf8 key.now → IsUtf8 name.now → IsUtf8 lines.now → ⊥ }
    ensures utf8 { result ≡ DONE → IsUtf8 key.now × IsUtf8 name.now × IsUtf8 lines.now }
    ensures argument { IsTrue (outcome.new.argument == 0 || outcome.new.argument == 1 || outcome.new.argument == 2) }
    ensures not_utf8_key { result ≡ NOT_UTF8 → outcome.new.argument ≡ 0 → IsUtf8 key.now → ⊥ }
    ensures not_utf8_name { result ≡ NOT_UTF8 → outcome.new.argument ≡ 1 → IsUtf8 name.now → ⊥ }
    ensures not_utf8_lines { result ≡ NOT_UTF8 → outcome.new.argument ≡ 2 → IsUtf8 lines.now → ⊥ }
    ensures too_deep { result ≡ TOO_DEEP ↔ (IsUtf8 key.now × IsTooDeep key.now) }
    ensures too_deep_key { result ≡ TOO_DEEP → outcome.new.argument ≡ 0 }
    ensures silent { result ≢ REFUSED → IsSilent outcome.new out.old out.new }
    ensures codes { IsTrue (ends_key_call result) }
    ensures holds { result ≢ DONE → HasNoAnswer outcome.new }
    ensures named { outcome.new.is_named ≡ false }
    ensures span { result ≢ REFUSED → HasNoSpan outcome.new }
    ensures outcome { outcome.new.code ≡ result }
{
    *outcome = byte_answers::matches(alloc, key, name, lines, out);
    outcome.code
}

/// Writes a byte for each of many keys: whether it is true on the target with this name and the facts in these lines,
/// which are as `rustc --print cfg` prints them. Each key has its length before it, in 8 bytes, low byte first. The byte
/// is 0 if the key is false, and 1 if it is true. Else it is twice the code that `nevgrasi_matches` returns for the key:
/// `REFUSED`, `NOT_UTF8`, `TOO_DEEP` or `NO_MEMORY`. The call returns `NOT_FLAT` if the keys do not have this form. With
/// `REFUSED`, a line is not a fact, and `argument` is 2.
#[unsafe(no_mangle)]
pub extern "C" fn nevgrasi_match_keys(
    alloc: Global,
    keys: &[u8],
    name: &[u8],
    lines: &[u8],
    out: &mut [u8],
    outcome: &mut Outcome,
) -> u32
    ensures done { result ≡ DONE → AreAnswersAt keys.now name.now lines.now outcome.new.needed out.old out.new }
    ensures not_length_prefixed { result ≡ NOT_FLAT → AreLengthPrefixed keys.now → ⊥ }
    ensures not_counted_keys { result ≡ NOT_FLAT → outcome.new.argument ≡ 0 }
    ensures refused { result ≡ REFUSED → IsRefusedLine lines.now outcome.new out.old out.new }
    ensures refused_lines { result ≡ REFUSED → outcome.new.argument ≡ 2 }
    ensures not_utf8 { result ≡ NOT_UTF8 → IsTrue (outcome.new.argument == 1 || outcome.new.argument == 2) }
    ensures not_utf8_name { result ≡ NOT_UTF8 → outcome.new.argument ≡ 1 → IsUtf8 name.now → ⊥ }
    ensures not_utf8_lines { result ≡ NOT_UTF8 → outcome.new.argument ≡ 2 → IsUtf8 lines.now → ⊥ }
    ensures utf8 { result ≡ DONE → IsUtf8 name.now × IsUtf8 lines.now }
    ensures silent { result ≢ DONE → result ≢ REFUSED → IsSilent outcome.new out.old out.new }
    ensures holds { HasNoAnswer outcome.new }
    ensures span { result ≢ REFUSED → HasNoSpan outcome.new }
    ensures codes { IsTrue (ends_batch_call result) }
    ensures outcome { outcome.new.code ≡ result }
{
    *outcome = byte_answers::match_keys(alloc, keys, name, lines, out);
    outcome.code
}

/// Sets `words` to the known targets on which a key is true: bit `k % 64` of word `k / 64` is the target at index `k`.
#[unsafe(no_mangle)]
pub extern "C" fn nevgrasi_targets(
    alloc: Global,
    key: &[u8],
    words: &mut [u64; SET_WORDS],
    out: &mut [u8],
    outcome: &mut Outcome,
) -> u32
    ensures done { result ≡ DONE → AreTargets key.now words.new }
    ensures refused { result ≡ REFUSED → IsRefusal key.now outcome.new out.old out.new }
    ensures spelled { result ≡ REFUSED → (p : Condition) → IsConditionText key.now p → ⊥ }
    ensures not_utf8 { result ≡ NOT_UTF8 ↔ (IsUtf8 key.now → ⊥) }
    ensures too_deep { result ≡ TOO_DEEP ↔ (IsUtf8 key.now × IsTooDeep key.now) }
    ensures silent { result ≢ REFUSED → IsSilent outcome.new out.old out.new }
    ensures words_kept { result ≢ DONE → words.new ≡ words.old }
    ensures argument { outcome.new.argument ≡ 0 }
    ensures codes { IsTrue (ends_key_call result) }
    ensures holds { HasNoAnswer outcome.new }
    ensures span { result ≢ REFUSED → HasNoSpan outcome.new }
    ensures outcome { outcome.new.code ≡ result }
{
    *outcome = byte_answers::matching_targets(alloc, key, words, out);
    outcome.code
}

/// Writes the name of the known target at an index, or returns `UNKNOWN_TARGET`. The names are sorted.
#[unsafe(no_mangle)]
pub extern "C" fn nevgrasi_target_name(place: usize, out: &mut [u8], outcome: &mut Outcome) -> u32
    ensures done { result ≡ DONE → IsWritten (target_name place) outcome.new.needed out.old out.new }
    ensures known { place < COUNT → result ≡ DONE }
    ensures unknown { COUNT ≤ place → result ≡ UNKNOWN_TARGET }
    ensures silent { COUNT ≤ place → IsSilent outcome.new out.old out.new }
    ensures argument { outcome.new.argument ≡ 0 }
    ensures holds { HasNoAnswer outcome.new }
    ensures span { HasNoSpan outcome.new }
    ensures outcome { outcome.new.code ≡ result }
{
    *outcome = byte_answers::target_name(place, out);
    outcome.code
}

/// Writes the facts of the known target with this name, one per line, as `nevgrasi_matches` reads them, or returns
/// `UNKNOWN_TARGET`.
#[unsafe(no_mangle)]
pub extern "C" fn nevgrasi_facts(
    alloc: Global,
    name: &[u8],
    out: &mut [u8],
    outcome: &mut Outcome,
) -> u32
    ensures done { result ≡ DONE → AreFactsOf name.now outcome.new.needed out.old out.new }
    ensures unknown { result ≡ UNKNOWN_TARGET → (k : ℕ) → k < COUNT → target_name k ≢ name.now }
    ensures not_utf8 { result ≡ NOT_UTF8 ↔ (IsUtf8 name.now → ⊥) }
    ensures silent { result ≢ DONE → IsSilent outcome.new out.old out.new }
    ensures argument { outcome.new.argument ≡ 0 }
    ensures codes { IsTrue (ends_target_call result) }
    ensures holds { HasNoAnswer outcome.new }
    ensures span { HasNoSpan outcome.new }
    ensures outcome { outcome.new.code ≡ result }
{
    *outcome = byte_answers::facts(alloc, name, out);
    outcome.code
}

/// Decides whether the second key is true wherever the first is, over every set of facts that rustc's rules allow.
/// `holds` is the answer. If it is false, writes a counterexample.
#[unsafe(no_mangle)]
pub extern "C" fn nevgrasi_implies(
    alloc: Global,
    first: &[u8],
    second: &[u8],
    budget: u64,
    out: &mut [u8],
    outcome: &mut Outcome,
) -> u32
    ensures done { result ≡ DONE → AreRelated Relation.Implies first.now second.now outcome.new out.old out.new }
    ensures undecided { result ≡ UNDECIDED → AreUndecided first.now second.now budget }
    ensures spelled { result ≡ REFUSED
        → (p q : Condition) → IsConditionText first.now p → IsConditionText second.now q → ⊥ }
    ensures first { result ≡ REFUSED → outcome.new.argument ≡ 0 → IsRefusal first.now outcome.new out.old out.new }
    ensures second { result ≡ REFUSED → outcome.new.argument ≡ 1 → IsRefusal second.now outcome.new out.old out.new }
    ensures not_utf8 { result ≡ NOT_UTF8 → IsUtf8 first.now → IsUtf8 second.now → ⊥ }
    ensures too_deep { result ≡ TOO_DEEP → (IsTooDeep first.now → ⊥) → IsTooDeep second.now }
    ensures argument { IsTrue (outcome.new.argument == 0 || outcome.new.argument == 1) }
    ensures not_utf8_first { result ≡ NOT_UTF8 → outcome.new.argument ≡ 0 → IsUtf8 first.now → ⊥ }
    ensures not_utf8_second { result ≡ NOT_UTF8 → outcome.new.argument ≡ 1 → IsUtf8 second.now → ⊥ }
    ensures too_deep_first { result ≡ TOO_DEEP → outcome.new.argument ≡ 0 → IsTooDeep first.now }
    ensures too_deep_second { result ≡ TOO_DEEP → outcome.new.argument ≡ 1 → IsTooDeep second.now }
    ensures read { result ≡ DONE → IsReadable first.now × IsReadable second.now }
    ensures read_undecided { result ≡ UNDECIDED → IsReadable first.now × IsReadable second.now }
    ensures silent { result ≢ DONE → result ≢ REFUSED → IsSilent outcome.new out.old out.new }
    ensures silent_yes { result ≡ DONE → outcome.new.holds ≡ true → IsSilent outcome.new out.old out.new }
    ensures codes { IsTrue (ends_comparison result) }
    ensures holds { result ≢ DONE → HasNoAnswer outcome.new }
    ensures named { result ≡ DONE → outcome.new.holds ≡ true → outcome.new.is_named ≡ false }
    ensures span { result ≢ REFUSED → HasNoSpan outcome.new }
    ensures outcome { outcome.new.code ≡ result }
{
    *outcome = byte_answers::relates(alloc, Relation::Implies, first, second, budget, out);
    outcome.code
}

/// Decides whether both keys are true on the same targets, over every set of facts that rustc's rules allow. `holds` is
/// the answer. If it is false, writes a counterexample.
#[unsafe(no_mangle)]
pub extern "C" fn nevgrasi_equivalent(
    alloc: Global,
    first: &[u8],
    second: &[u8],
    budget: u64,
    out: &mut [u8],
    outcome: &mut Outcome,
) -> u32
    ensures done { result ≡ DONE → AreRelated Relation.Equivalent first.now second.now outcome.new out.old out.new }
    ensures undecided { result ≡ UNDECIDED → AreUndecided first.now second.now budget }
    ensures spelled { result ≡ REFUSED
        → (p q : Condition) → IsConditionText first.now p → IsConditionText second.now q → ⊥ }
    ensures first { result ≡ REFUSED → outcome.new.argument ≡ 0 → IsRefusal first.now outcome.new out.old out.new }
    ensures second { result ≡ REFUSED → outcome.new.argument ≡ 1 → IsRefusal second.now outcome.new out.old out.new }
    ensures not_utf8 { result ≡ NOT_UTF8 → IsUtf8 first.now → IsUtf8 second.now → ⊥ }
    ensures too_deep { result ≡ TOO_DEEP → (IsTooDeep first.now → ⊥) → IsTooDeep second.now }
    ensures argument { IsTrue (outcome.new.argument == 0 || outcome.new.argument == 1) }
    ensures not_utf8_first { result ≡ NOT_UTF8 → outcome.new.argument ≡ 0 → IsUtf8 first.now → ⊥ }
    ensures not_utf8_second { result ≡ NOT_UTF8 → outcome.new.argument ≡ 1 → IsUtf8 second.now → ⊥ }
    ensures too_deep_first { result ≡ TOO_DEEP → outcome.new.argument ≡ 0 → IsTooDeep first.now }
    ensures too_deep_second { result ≡ TOO_DEEP → outcome.new.argument ≡ 1 → IsTooDeep second.now }
    ensures read { result ≡ DONE → IsReadable first.now × IsReadable second.now }
    ensures read_undecided { result ≡ UNDECIDED → IsReadable first.now × IsReadable second.now }
    ensures silent { result ≢ DONE → result ≢ REFUSED → IsSilent outcome.new out.old out.new }
    ensures silent_yes { result ≡ DONE → outcome.new.holds ≡ true → IsSilent outcome.new out.old out.new }
    ensures codes { IsTrue (ends_comparison result) }
    ensures holds { result ≢ DONE → HasNoAnswer outcome.new }
    ensures named { result ≡ DONE → outcome.new.holds ≡ true → outcome.new.is_named ≡ false }
    ensures span { result ≢ REFUSED → HasNoSpan outcome.new }
    ensures outcome { outcome.new.code ≡ result }
{
    *outcome = byte_answers::relates(alloc, Relation::Equivalent, first, second, budget, out);
    outcome.code
}

/// Decides whether the keys are true together on no target, over every set of facts that rustc's rules allow. `holds`
/// is the answer. If it is false, writes a counterexample.
#[unsafe(no_mangle)]
pub extern "C" fn nevgrasi_excludes(
    alloc: Global,
    first: &[u8],
    second: &[u8],
    budget: u64,
    out: &mut [u8],
    outcome: &mut Outcome,
) -> u32
    ensures done { result ≡ DONE → AreRelated Relation.Excludes first.now second.now outcome.new out.old out.new }
    ensures undecided { result ≡ UNDECIDED → AreUndecided first.now second.now budget }
    ensures spelled { result ≡ REFUSED
        → (p q : Condition) → IsConditionText first.now p → IsConditionText second.now q → ⊥ }
    ensures first { result ≡ REFUSED → outcome.new.argument ≡ 0 → IsRefusal first.now outcome.new out.old out.new }
    ensures second { result ≡ REFUSED → outcome.new.argument ≡ 1 → IsRefusal second.now outcome.new out.old out.new }
    ensures not_utf8 { result ≡ NOT_UTF8 → IsUtf8 first.now → IsUtf8 second.now → ⊥ }
    ensures too_deep { result ≡ TOO_DEEP → (IsTooDeep first.now → ⊥) → IsTooDeep second.now }
    ensures argument { IsTrue (outcome.new.argument == 0 || outcome.new.argument == 1) }
    ensures not_utf8_first { result ≡ NOT_UTF8 → outcome.new.argument ≡ 0 → IsUtf8 first.now → ⊥ }
    ensures not_utf8_second { result ≡ NOT_UTF8 → outcome.new.argument ≡ 1 → IsUtf8 second.now → ⊥ }
    ensures too_deep_first { result ≡ TOO_DEEP → outcome.new.argument ≡ 0 → IsTooDeep first.now }
    ensures too_deep_second { result ≡ TOO_DEEP → outcome.new.argument ≡ 1 → IsTooDeep second.now }
    ensures read { result ≡ DONE → IsReadable first.now × IsReadable second.now }
    ensures read_undecided { result ≡ UNDECIDED → IsReadable first.now × IsReadable second.now }
    ensures silent { result ≢ DONE → result ≢ REFUSED → IsSilent outcome.new out.old out.new }
    ensures silent_yes { result ≡ DONE → outcome.new.holds ≡ true → IsSilent outcome.new out.old out.new }
    ensures codes { IsTrue (ends_comparison result) }
    ensures holds { result ≢ DONE → HasNoAnswer outcome.new }
    ensures named { result ≡ DONE → outcome.new.holds ≡ true → outcome.new.is_named ≡ false }
    ensures span { result ≢ REFUSED → HasNoSpan outcome.new }
    ensures outcome { outcome.new.code ≡ result }
{
    *outcome = byte_answers::relates(alloc, Relation::Excludes, first, second, budget, out);
    outcome.code
}

/// Decides whether a key can be true, over some set of facts that rustc's rules allow. `holds` is the answer. If it is
/// true, writes an example.
#[unsafe(no_mangle)]
pub extern "C" fn nevgrasi_can_hold(
    alloc: Global,
    key: &[u8],
    budget: u64,
    out: &mut [u8],
    outcome: &mut Outcome,
) -> u32
    ensures done { result ≡ DONE → IsPossibleKey key.now outcome.new out.old out.new }
    ensures undecided { result ≡ UNDECIDED → IsUndecided key.now budget }
    ensures refused { result ≡ REFUSED → IsRefusal key.now outcome.new out.old out.new }
    ensures spelled { result ≡ REFUSED → (p : Condition) → IsConditionText key.now p → ⊥ }
    ensures not_utf8 { result ≡ NOT_UTF8 ↔ (IsUtf8 key.now → ⊥) }
    ensures too_deep { result ≡ TOO_DEEP ↔ (IsUtf8 key.now × IsTooDeep key.now) }
    ensures silent { result ≢ DONE → result ≢ REFUSED → IsSilent outcome.new out.old out.new }
    ensures silent_no { result ≡ DONE → outcome.new.holds ≡ false → IsSilent outcome.new out.old out.new }
    ensures argument { outcome.new.argument ≡ 0 }
    ensures codes { IsTrue (ends_comparison result) }
    ensures holds { result ≢ DONE → HasNoAnswer outcome.new }
    ensures named { result ≡ DONE → outcome.new.holds ≡ false → outcome.new.is_named ≡ false }
    ensures span { result ≢ REFUSED → HasNoSpan outcome.new }
    ensures outcome { outcome.new.code ≡ result }
{
    *outcome = byte_answers::can_hold(alloc, key, budget, out);
    outcome.code
}

/// Writes the flat form of a key's condition: bytes that the caller can keep in place of the key.
#[unsafe(no_mangle)]
pub extern "C" fn nevgrasi_read_key(
    alloc: Global,
    key: &[u8],
    out: &mut [u8],
    outcome: &mut Outcome,
) -> u32
    ensures done { result ≡ DONE → IsFlatOf key.now outcome.new.needed out.old out.new }
    ensures refused { result ≡ REFUSED → IsRefusal key.now outcome.new out.old out.new }
    ensures spelled { result ≡ REFUSED → (p : Condition) → IsConditionText key.now p → ⊥ }
    ensures not_utf8 { result ≡ NOT_UTF8 ↔ (IsUtf8 key.now → ⊥) }
    ensures too_deep { result ≡ TOO_DEEP ↔ (IsUtf8 key.now × IsTooDeep key.now) }
    ensures silent { result ≢ DONE → result ≢ REFUSED → IsSilent outcome.new out.old out.new }
    ensures argument { outcome.new.argument ≡ 0 }
    ensures codes { IsTrue (ends_key_call result) }
    ensures holds { HasNoAnswer outcome.new }
    ensures span { result ≢ REFUSED → HasNoSpan outcome.new }
    ensures outcome { outcome.new.code ≡ result }
{
    *outcome = byte_answers::flatten_key(alloc, key, out);
    outcome.code
}

/// Writes the canonical text of a flat condition.
#[unsafe(no_mangle)]
pub extern "C" fn nevgrasi_flat_print(
    alloc: Global,
    flat: &[u8],
    out: &mut [u8],
    outcome: &mut Outcome,
) -> u32
    ensures done { result ≡ DONE → IsPrint flat.now outcome.new.needed out.old out.new }
    ensures not_flat { result ≡ NOT_FLAT → IsFlatForm flat.now → ⊥ }
    ensures too_deep { result ≡ TOO_DEEP ↔ MAX_FLAT_BYTES < length flat.now }
    ensures silent { result ≢ DONE → IsSilent outcome.new out.old out.new }
    ensures argument { outcome.new.argument ≡ 0 }
    ensures codes { IsTrue (ends_flat_print result) }
    ensures holds { HasNoAnswer outcome.new }
    ensures span { HasNoSpan outcome.new }
    ensures outcome { outcome.new.code ≡ result }
{
    *outcome = byte_answers::flat_print(alloc, flat, out);
    outcome.code
}

/// Decides whether a flat condition is true on the target with this name and these flat facts. `holds` is the answer.
#[unsafe(no_mangle)]
pub extern "C" fn nevgrasi_flat_matches(
    alloc: Global,
    flat: &[u8],
    name: &[u8],
    flat_facts: &[u8],
    outcome: &mut Outcome,
) -> u32
    ensures done { result ≡ DONE → IsFlatMatch flat.now name.now flat_facts.now outcome.new.holds }
    ensures not_flat { result ≡ NOT_FLAT → outcome.new.argument ≡ 0 → IsFlatForm flat.now → ⊥ }
    ensures not_flat_facts { result ≡ NOT_FLAT → outcome.new.argument ≡ 2 → AreFlatFacts flat_facts.now → ⊥ }
    ensures refused_bytes { result ≡ NOT_FLAT → IsTrue (outcome.new.argument == 0 || outcome.new.argument == 2) }
    ensures not_utf8 { result ≡ NOT_UTF8 → IsUtf8 name.now → ⊥ }
    ensures utf8 { result ≡ DONE → IsUtf8 name.now }
    ensures too_deep { result ≡ TOO_DEEP ↔ MAX_FLAT_BYTES < length flat.now }
    ensures not_utf8_name { result ≡ NOT_UTF8 → outcome.new.argument ≡ 1 }
    ensures too_deep_flat { result ≡ TOO_DEEP → outcome.new.argument ≡ 0 }
    ensures silent { outcome.new.needed ≡ 0 }
    ensures codes { IsTrue (ends_flat_call result) }
    ensures holds { result ≢ DONE → HasNoAnswer outcome.new }
    ensures named { outcome.new.is_named ≡ false }
    ensures span { HasNoSpan outcome.new }
    ensures outcome { outcome.new.code ≡ result }
{
    *outcome = byte_answers::flat_matches(alloc, flat, name, flat_facts);
    outcome.code
}

/// Writes prepared facts: the facts in these lines, which are as `rustc --print cfg` prints them, as bytes that the
/// caller can keep to match many flat conditions.
#[unsafe(no_mangle)]
pub extern "C" fn nevgrasi_prepare_facts(
    alloc: Global,
    lines: &[u8],
    out: &mut [u8],
    outcome: &mut Outcome,
) -> u32
    ensures done { result ≡ DONE → ArePrepared lines.now outcome.new.needed out.old out.new }
    ensures refused { result ≡ REFUSED → IsRefusedLine lines.now outcome.new out.old out.new }
    ensures not_utf8 { result ≡ NOT_UTF8 ↔ (IsUtf8 lines.now → ⊥) }
    ensures silent { result ≢ DONE → result ≢ REFUSED → IsSilent outcome.new out.old out.new }
    ensures argument { outcome.new.argument ≡ 0 }
    ensures codes { IsTrue (ends_fact_call result) }
    ensures holds { HasNoAnswer outcome.new }
    ensures span { result ≢ REFUSED → HasNoSpan outcome.new }
    ensures outcome { outcome.new.code ≡ result }
{
    *outcome = byte_answers::prepare_facts(alloc, lines, out);
    outcome.code
}

/// Decides whether a flat condition is true on the target with this name and these prepared facts. `holds` is the
/// answer. Texts are compared as bytes, and not checked to be UTF-8.
#[unsafe(no_mangle)]
pub extern "C" fn nevgrasi_prepared_matches(
    alloc: Global,
    flat: &[u8],
    name: &[u8],
    prepared: &[u8],
    outcome: &mut Outcome,
) -> u32
    ensures done { result ≡ DONE → IsPreparedMatch flat.now name.now prepared.now outcome.new.holds }
    ensures not_flat { result ≡ NOT_FLAT → outcome.new.argument ≡ 0 → IsFlatForm flat.now → ⊥ }
    ensures not_prepared { result ≡ NOT_FLAT → outcome.new.argument ≡ 2
        → (s : FactSet) → StandFor prepared.now s → ⊥ }
    ensures refused_bytes { result ≡ NOT_FLAT → IsTrue (outcome.new.argument == 0 || outcome.new.argument == 2) }
    ensures silent { outcome.new.needed ≡ 0 }
    ensures codes { IsTrue (ends_prepared_call result) }
    ensures holds { result ≢ DONE → HasNoAnswer outcome.new }
    ensures named { outcome.new.is_named ≡ false }
    ensures span { HasNoSpan outcome.new }
    ensures outcome { outcome.new.code ≡ result }
{
    *outcome = byte_answers::prepared_matches(alloc, flat, name, prepared);
    outcome.code
}

/// Writes a line of JSON for each package of a graph, with the known targets on which it is in the build, as the
/// program `manifest_check graph --json` prints them. The document is the output of `cargo metadata --format-version
/// 1`. Builds run on the host, a known target with this name, or on the target itself if the name is empty. With
/// `REFUSED`, writes why the document cannot be used, and sets no span.
#[unsafe(no_mangle)]
pub extern "C" fn nevgrasi_graph(
    alloc: Global,
    document: &[u8],
    host: &[u8],
    out: &mut [u8],
    outcome: &mut Outcome,
) -> u32
    ensures written { IsTrue (result == DONE || result == REFUSED)
        → (text : List ℕ) × IsWritten text outcome.new.needed out.old out.new }
    ensures silent { result ≢ DONE → result ≢ REFUSED → IsSilent outcome.new out.old out.new }
    ensures not_utf8_document { result ≡ NOT_UTF8 → outcome.new.argument ≡ 0 → IsUtf8 document.now → ⊥ }
    ensures not_utf8_host { result ≡ NOT_UTF8 → outcome.new.argument ≡ 1 → IsUtf8 host.now → ⊥ }
    ensures utf8 { result ≢ NOT_UTF8 → IsUtf8 document.now × IsUtf8 host.now }
    ensures unknown { result ≡ UNKNOWN_TARGET → (k : ℕ) → k < COUNT → target_name k ≢ host.now }
    ensures empty { result ≡ UNKNOWN_TARGET → host.now ≢ [] }
    ensures known { IsTrue (result == DONE || result == REFUSED) → host.now ≢ []
        → (k : ℕ) × ((k < COUNT) × (target_name k ≡ host.now)) }
    ensures done { result ≡ DONE → IsGraph document.now }
    ensures refused { result ≡ REFUSED → IsUnusable document.now }
    ensures too_deep { result ≡ TOO_DEEP → IsDeepGraph document.now }
    ensures host { result ≡ UNKNOWN_TARGET → outcome.new.argument ≡ 1 }
    ensures argument { IsTrue (outcome.new.argument == 0 || outcome.new.argument == 1) }
    ensures codes { IsTrue (result == DONE || result == REFUSED || result == NOT_UTF8
        || result == NO_MEMORY || result == TOO_DEEP || result == UNKNOWN_TARGET) }
    ensures holds { HasNoAnswer outcome.new }
    ensures span { HasNoSpan outcome.new }
    ensures outcome { outcome.new.code ≡ result }
{
    *outcome = byte_graphs::package_lines(alloc, document, host, out);
    outcome.code
}

/// Runs a command of the program `manifest_check` on files that the caller hands over, and writes its output, and its
/// errors after it. With `DONE`, `argument` is the exit status, and the errors are from `start` to `end` of what is
/// written. Each argument of the program ends with a NUL. Each file is its name, a NUL, its length in decimal digits, a
/// NUL, and its bytes, and the file `-` is standard input. The current folder is the root, to which a relative name
/// leads, and there are no environment variables. No other file exists, and nothing is written: a call that would write
/// a file fails as on a read-only file system. With `REFUSED`, bytes do not have this form, and the reason is written;
/// `argument` is then 0 for the arguments, and 1 for the files.
#[unsafe(no_mangle)]
pub extern "C" fn nevgrasi_run(
    alloc: Global,
    arguments: &[u8],
    files: &[u8],
    out: &mut [u8],
    outcome: &mut Outcome,
) -> u32
    ensures done { result ≡ DONE → IsAnswer outcome.new out.old out.new }
    ensures status { result ≡ DONE → outcome.new.argument ≤ 2 }
    ensures refused { result ≡ REFUSED → (text : List ℕ) × IsWritten text outcome.new.needed out.old out.new }
    ensures silent { result ≢ DONE → result ≢ REFUSED → IsSilent outcome.new out.old out.new }
    ensures argument { result ≢ DONE → outcome.new.argument ≤ 1 }
    ensures codes { IsTrue (result == DONE || result == REFUSED || result == NOT_UTF8 || result == NO_MEMORY) }
    ensures holds { HasNoAnswer outcome.new }
    ensures span { result ≢ DONE → HasNoSpan outcome.new }
    ensures outcome { outcome.new.code ≡ result }
{
    *outcome = byte_commands::run(alloc, BUILD, arguments, files, out);
    outcome.code
}
