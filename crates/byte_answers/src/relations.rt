//! Relations between two keys, and whether a key can be true, over every set of facts that rustc's rules allow.

ghost use Rattle.std.specs.Prelude.{◌≡◌, ◌≢◌, ◌↔◌, ◌++◌, [], ◌∷◌, ℕ, IfOk, IsTrue, true, false, map, ◌||◌, ◌==◌};
ghost use Rattle.std.specs.Str.{IsUtf8};
ghost use Rattle.cargo_platform.specs.Trees.{Condition, value_of, condition_of};
ghost use Rattle.cargo_platform.specs.Facts.{IsTrueCondition};
ghost use Rattle.cargo_platform.specs.Platforms.{IsConditionText};
ghost use Rattle.exact_answers.specs.Asking.{NeedsMore};
ghost use Rattle.exact_answers.specs.Targets.{SaysValidity, SaysSatisfiability, ForEach, asked_trees};
ghost use Rattle.byte_answers.specs.LengthPrefixed.{facts_with_lengths};
ghost use Rattle.byte_answers.specs.Comparisons.{Stands, Fails, name_with_length, IsWrittenExample, HasExample};
ghost use Rattle.byte_answers.specs.Comparisons.{SaysRelated, AreRelated, SaysPossible, IsPossibleKey};
ghost use Rattle.byte_answers.specs.Comparisons.{NeedsLarger, AreUndecided, IsUndecided};
ghost use Rattle.byte_answers.specs.Depths.{IsReadable, IsTooDeep};
ghost use Rattle.byte_answers.specs.Outcomes.{HasNoAnswer, HasNoSpan, IsSilent, ends_comparison};
ghost use Rattle.byte_answers.specs.Refusals.{IsRefusal};

use crate::length_prefixed::{push_facts, push_with_length};
use crate::outcome::{DONE, NO_MEMORY, NOT_UTF8, Outcome, REFUSED, TOO_DEEP, UNDECIDED, write};
use crate::reading::read_condition;
use cargo_platform::{CfgExpr, Platform};
use exact_answers::{
    FactConstraints, ONE_VALUED, PossibleTarget, Satisfiability, Validity, can_hold_platform,
    equivalent_platform, excludes_platform, family_rule, implies_platform,
};
use std::alloc::{AllocError, Global};

/// A relation between two conditions.
#[derive(Clone, Copy)]
pub enum Relation {
    /// The second is true wherever the first is.
    Implies,
    /// Both are true on the same targets.
    Equivalent,
    /// They are true together on no target.
    Excludes,
}

/// Returns the texts of an example, each preceded by its length: its name, if it has one, and its facts.
fn example_texts(alloc: Global, target: &PossibleTarget) -> Result<Vec<u8>, AllocError>
    ensures { IfOk result (λ texts. texts.items
        ≡ name_with_length target.now.name ++ facts_with_lengths (map value_of target.now.facts.items)) }
{
    let mut texts = Vec::new(alloc);
    if let Some(name) = &target.name {
        push_with_length(&mut texts, name.as_str())?;
    }
    push_facts(alloc, &mut texts, &target.facts)?;
    Ok(texts)
}

/// Returns an answer with an example.
fn with_example(alloc: Global, holds: bool, target: &PossibleTarget, out: &mut [u8]) -> Outcome
    ensures example { result.code ≡ DONE → IsWrittenExample target.now result out.old out.new }
    ensures holds { result.code ≡ DONE → result.holds ≡ holds }
    ensures silent { result.code ≢ DONE → IsSilent result out.old out.new }
    ensures no_answer { result.code ≢ DONE → HasNoAnswer result }
    ensures span { HasNoSpan result }
    ensures argument { result.argument ≡ 0 }
    ensures codes { IsTrue (result.code == DONE || result.code == NO_MEMORY) }
{
    match example_texts(alloc, target) {
        Ok(texts) => Outcome {
            code: DONE,
            argument: 0,
            holds,
            is_named: target.name.is_some(),
            needed: write(&texts, out),
            start: 0,
            end: 0,
        },
        Err(_) => Outcome::without_answer(NO_MEMORY, 0),
    }
}

/// Decides whether the relation holds on each possible target.
fn ask<'a>(
    alloc: Global,
    relation: Relation,
    a: &'a Platform,
    b: &'a Platform,
    known: &'a FactConstraints<'a>,
    budget: u64,
) -> Result<Validity, AllocError>
    ensures { IfOk result (λ r. SaysValidity r known.now (condition_of a.now ∷ condition_of b.now ∷ []) budget
        (λ name s. Fails relation
        (IsTrueCondition name s (condition_of a.now)) (IsTrueCondition name s (condition_of b.now)))
        (λ name s. Stands relation
        (IsTrueCondition name s (condition_of a.now)) (IsTrueCondition name s (condition_of b.now)))) }
{
    match relation {
        Relation::Implies => implies_platform(alloc, a, b, known, budget),
        Relation::Equivalent => equivalent_platform(alloc, a, b, known, budget),
        Relation::Excludes => excludes_platform(alloc, a, b, known, budget),
    }
}

/// Decides whether the relation holds on each target that is possible by what is known.
fn related_by<'a>(
    alloc: Global,
    relation: Relation,
    a: &'a Platform,
    b: &'a Platform,
    known: &'a FactConstraints<'a>,
    budget: u64,
    out: &mut [u8],
) -> Outcome
    ensures yes { result.code ≡ DONE → result.holds ≡ true
        → ForEach known.now (λ name s. Stands relation
        (IsTrueCondition name s (condition_of a.now)) (IsTrueCondition name s (condition_of b.now))) }
    ensures no { result.code ≡ DONE → result.holds ≡ false
        → HasExample known.now (condition_of a.now ∷ condition_of b.now ∷ []) (λ name s. Fails relation
        (IsTrueCondition name s (condition_of a.now)) (IsTrueCondition name s (condition_of b.now)))
        result out.old out.new }
    ensures undecided { result.code ≡ UNDECIDED
        → NeedsMore known.now (asked_trees (condition_of a.now ∷ condition_of b.now ∷ [])) budget }
    ensures argument { result.argument ≡ 0 }
    ensures silent { result.code ≢ DONE → IsSilent result out.old out.new }
    ensures silent_yes { result.code ≡ DONE → result.holds ≡ true → IsSilent result out.old out.new }
    ensures holds { result.code ≢ DONE → HasNoAnswer result }
    ensures named { result.code ≡ DONE → result.holds ≡ true → result.is_named ≡ false }
    ensures span { HasNoSpan result }
    ensures codes { IsTrue (result.code == DONE || result.code == UNDECIDED || result.code == NO_MEMORY) }
{
    match ask(alloc, relation, a, b, known, budget) {
        Ok(Validity::Yes) => Outcome::answered(true),
        Ok(Validity::No(target)) => with_example(alloc, false, &target, out),
        Ok(Validity::Undecided) => Outcome::without_answer(UNDECIDED, 0),
        Err(_) => Outcome::without_answer(NO_MEMORY, 0),
    }
}

/// Decides whether the relation holds between two conditions.
fn related(
    alloc: Global,
    relation: Relation,
    a: &Platform,
    b: &Platform,
    budget: u64,
    out: &mut [u8],
) -> Outcome
    ensures done { result.code ≡ DONE
        → SaysRelated relation (condition_of a.now) (condition_of b.now) result out.old out.new }
    ensures undecided { result.code ≡ UNDECIDED → NeedsLarger (condition_of a.now ∷ condition_of b.now ∷ []) budget }
    ensures argument { result.argument ≡ 0 }
    ensures silent { result.code ≢ DONE → IsSilent result out.old out.new }
    ensures silent_yes { result.code ≡ DONE → result.holds ≡ true → IsSilent result out.old out.new }
    ensures holds { result.code ≢ DONE → HasNoAnswer result }
    ensures named { result.code ≡ DONE → result.holds ≡ true → result.is_named ≡ false }
    ensures span { HasNoSpan result }
    ensures codes { IsTrue (result.code == DONE || result.code == UNDECIDED || result.code == NO_MEMORY) }
{
    let rule = match family_rule(alloc) {
        Ok(rule) => rule,
        Err(_) => return Outcome::without_answer(NO_MEMORY, 0),
    };
    let known = rules_alone(&rule);
    related_by(alloc, relation, a, b, &known, budget, out)
}

/// Returns what is known if only rustc's rules are.
fn rules_alone(rule: &CfgExpr) -> FactConstraints<'_>
    ensures facts { result.facts.now ≡ [] }
    ensures complete { result.complete.now ≡ [] }
    ensures single { map (λ t. t.now) result.single.now ≡ map (λ t. t.now) ONE_VALUED.now }
    ensures assumed { result.assumed.now ≡ rule.now }
{
    FactConstraints {
        facts: &[],
        complete: &[],
        single: ONE_VALUED,
        assumed: rule,
    }
}

/// Decides whether a relation holds between two keys, over every set of facts that rustc's rules allow.
///
/// `holds` is the answer. If it is false, the buffer has a counterexample: texts, each preceded by its length in 8
/// bytes, little-endian. With `is_named`, the first text is the name of the target, and each other text is a fact.
/// Returns `UNDECIDED` if the search takes more case splits than the budget. With `REFUSED`, `NOT_UTF8` and `TOO_DEEP`,
/// `argument` is the index of the key.
pub fn relates(
    alloc: Global,
    relation: Relation,
    a: &[u8],
    b: &[u8],
    budget: u64,
    out: &mut [u8],
) -> Outcome
    // `DONE` is returned with whether the relation holds, over every set of facts that rustc's rules allow. If it does
    // not, there is a counterexample, which is possible.
    ensures done { result.code ≡ DONE → AreRelated relation a.now b.now result out.old out.new }
    // `REFUSED` is returned with the message on the key at index `argument`, and the span of the error in that key.
    ensures first { result.code ≡ REFUSED → result.argument ≡ 0 → IsRefusal a.now result out.old out.new }
    ensures second { result.code ≡ REFUSED → result.argument ≡ 1 → IsRefusal b.now result out.old out.new }
    // `UNDECIDED` is returned only if the budget is too small.
    ensures undecided { result.code ≡ UNDECIDED → AreUndecided a.now b.now budget }
    // `REFUSED`, `NOT_UTF8` and `TOO_DEEP` are returned only if some key is not a condition, is not UTF-8 or is too
    // deep.
    ensures spelled { result.code ≡ REFUSED
        → (p q : Condition) → IsConditionText a.now p → IsConditionText b.now q → ⊥ }
    ensures not_utf8 { result.code ≡ NOT_UTF8 → IsUtf8 a.now → IsUtf8 b.now → ⊥ }
    ensures too_deep { result.code ≡ TOO_DEEP → (IsTooDeep a.now → ⊥) → IsTooDeep b.now }
    // `argument` is 0 or 1, and with `NOT_UTF8` or `TOO_DEEP` the index of such a key.
    ensures argument { IsTrue (result.argument == 0 || result.argument == 1) }
    ensures not_utf8_first { result.code ≡ NOT_UTF8 → result.argument ≡ 0 → IsUtf8 a.now → ⊥ }
    ensures not_utf8_second { result.code ≡ NOT_UTF8 → result.argument ≡ 1 → IsUtf8 b.now → ⊥ }
    ensures too_deep_first { result.code ≡ TOO_DEEP → result.argument ≡ 0 → IsTooDeep a.now }
    ensures too_deep_second { result.code ≡ TOO_DEEP → result.argument ≡ 1 → IsTooDeep b.now }
    // `DONE` and `UNDECIDED` are returned only if both keys are UTF-8 and not too deep.
    ensures read { result.code ≡ DONE → IsReadable a.now × IsReadable b.now }
    ensures read_undecided { result.code ≡ UNDECIDED → IsReadable a.now × IsReadable b.now }
    // Nothing is written unless the relation does not hold, or a key is rejected.
    ensures silent { result.code ≢ DONE → result.code ≢ REFUSED → IsSilent result out.old out.new }
    ensures silent_yes { result.code ≡ DONE → result.holds ≡ true → IsSilent result out.old out.new }
    // Unless the code is `DONE`, `holds` and `is_named` are false.
    ensures holds { result.code ≢ DONE → HasNoAnswer result }
    // Without an example, `is_named` is false.
    ensures named { result.code ≡ DONE → result.holds ≡ true → result.is_named ≡ false }
    // Unless the code is `REFUSED`, `start` and `end` are 0.
    ensures span { result.code ≢ REFUSED → HasNoSpan result }
    // The only other code is `NO_MEMORY`.
    ensures codes { IsTrue (ends_comparison result.code) }
{
    let first = match read_condition(alloc, 0, a, out) {
        Ok(first) => first,
        Err(outcome) => return outcome,
    };
    match read_condition(alloc, 1, b, out) {
        Ok(second) => related(alloc, relation, &first, &second, budget, out),
        Err(outcome) => outcome,
    }
}

/// Decides whether a condition is true on some target that is possible by what is known.
fn possible_by<'a>(
    alloc: Global,
    platform: &'a Platform,
    known: &'a FactConstraints<'a>,
    budget: u64,
    out: &mut [u8],
) -> Outcome
    ensures yes { result.code ≡ DONE → result.holds ≡ true
        → HasExample known.now (condition_of platform.now ∷ [])
        (λ name s. IsTrueCondition name s (condition_of platform.now)) result out.old out.new }
    ensures no { result.code ≡ DONE → result.holds ≡ false
        → ForEach known.now (λ name s. IsTrueCondition name s (condition_of platform.now) → ⊥) }
    ensures undecided { result.code ≡ UNDECIDED
        → NeedsMore known.now (asked_trees (condition_of platform.now ∷ [])) budget }
    ensures silent { result.code ≢ DONE → IsSilent result out.old out.new }
    ensures silent_no { result.code ≡ DONE → result.holds ≡ false → IsSilent result out.old out.new }
    ensures argument { result.argument ≡ 0 }
    ensures holds { result.code ≢ DONE → HasNoAnswer result }
    ensures named { result.code ≡ DONE → result.holds ≡ false → result.is_named ≡ false }
    ensures span { HasNoSpan result }
    ensures codes { IsTrue (result.code == DONE || result.code == UNDECIDED || result.code == NO_MEMORY) }
{
    match can_hold_platform(alloc, platform, known, budget) {
        Ok(Satisfiability::Yes(target)) => with_example(alloc, true, &target, out),
        Ok(Satisfiability::No) => Outcome::answered(false),
        Ok(Satisfiability::Undecided) => Outcome::without_answer(UNDECIDED, 0),
        Err(_) => Outcome::without_answer(NO_MEMORY, 0),
    }
}

/// Decides whether a condition can be true.
fn possible(alloc: Global, platform: &Platform, budget: u64, out: &mut [u8]) -> Outcome
    ensures done { result.code ≡ DONE → SaysPossible (condition_of platform.now) result out.old out.new }
    ensures undecided { result.code ≡ UNDECIDED → NeedsLarger (condition_of platform.now ∷ []) budget }
    ensures silent { result.code ≢ DONE → IsSilent result out.old out.new }
    ensures silent_no { result.code ≡ DONE → result.holds ≡ false → IsSilent result out.old out.new }
    ensures argument { result.argument ≡ 0 }
    ensures holds { result.code ≢ DONE → HasNoAnswer result }
    ensures named { result.code ≡ DONE → result.holds ≡ false → result.is_named ≡ false }
    ensures span { HasNoSpan result }
    ensures codes { IsTrue (result.code == DONE || result.code == UNDECIDED || result.code == NO_MEMORY) }
{
    let rule = match family_rule(alloc) {
        Ok(rule) => rule,
        Err(_) => return Outcome::without_answer(NO_MEMORY, 0),
    };
    let known = rules_alone(&rule);
    possible_by(alloc, platform, &known, budget, out)
}

/// Decides whether a key can be true, over some set of facts that rustc's rules allow.
///
/// `holds` is the answer. If it is true, the buffer has an example: texts, each preceded by its length in 8 bytes,
/// little-endian. With `is_named`, the first text is the name of the target, and each other text is a fact. Returns
/// `UNDECIDED` if the search takes more case splits than the budget. Rejects the same keys as `canonical`, with the
/// same codes.
pub fn can_hold(alloc: Global, key: &[u8], budget: u64, out: &mut [u8]) -> Outcome
    // `DONE` is returned with whether the key is true over some set of facts that rustc's rules allow. If it is, there
    // is an example, which is possible.
    ensures done { result.code ≡ DONE → IsPossibleKey key.now result out.old out.new }
    // `UNDECIDED` is returned only if the budget is too small.
    ensures undecided { result.code ≡ UNDECIDED → IsUndecided key.now budget }
    // `REFUSED` is returned only for a key that is not a condition, with the message and the span of the error in the
    // key.
    ensures refused { result.code ≡ REFUSED → IsRefusal key.now result out.old out.new }
    ensures spelled { result.code ≡ REFUSED → (p : Condition) → IsConditionText key.now p → ⊥ }
    // `NOT_UTF8` is returned exactly for a key that is not UTF-8, and `TOO_DEEP` exactly for any other key with more
    // than `MAX_OPEN` parentheses open at once.
    ensures not_utf8 { result.code ≡ NOT_UTF8 ↔ (IsUtf8 key.now → ⊥) }
    ensures too_deep { result.code ≡ TOO_DEEP ↔ (IsUtf8 key.now × IsTooDeep key.now) }
    // Nothing other than the promised texts is written.
    ensures silent { result.code ≢ DONE → result.code ≢ REFUSED → IsSilent result out.old out.new }
    ensures silent_no { result.code ≡ DONE → result.holds ≡ false → IsSilent result out.old out.new }
    // Unless the code is `DONE`, `holds` and `is_named` are false.
    ensures holds { result.code ≢ DONE → HasNoAnswer result }
    // Without an example, `is_named` is false.
    ensures named { result.code ≡ DONE → result.holds ≡ false → result.is_named ≡ false }
    // Unless the code is `REFUSED`, `start` and `end` are 0.
    ensures span { result.code ≢ REFUSED → HasNoSpan result }
    // The only other code is `NO_MEMORY`, and `argument` is 0.
    ensures argument { result.argument ≡ 0 }
    ensures codes { IsTrue (ends_comparison result.code) }
{
    match read_condition(alloc, 0, key, out) {
        Ok(platform) => possible(alloc, &platform, budget, out),
        Err(outcome) => outcome,
    }
}
