//! A key, with the lints that apply to it: by itself, over sets of facts, and compared with the keys before it.

ghost use Rattle.std.specs.Prelude.{◌≡◌, ◌⊎◌, ◌↔◌, ◌<◌, ◌++◌, ◌∷◌, ◌&&◌, [], List, IsTrue, true, not, length};
ghost use Rattle.std.specs.Prelude.{IfOk, OnOk, IfSome, MatchOption, ℕ, false, ◌||◌};
ghost use Rattle.cargo_platform.specs.Trees.{condition_of};
ghost use Rattle.cargo_platform.specs.Nesting.{IsNestedBeyond};
ghost use Rattle.manifests.specs.Declarations.{declarations_of};
ghost use Rattle.manifests.specs.Entries.{Entry};
ghost use Rattle.manifest_lints_findings.specs.Codes.{is_reported};
ghost use Rattle.manifest_lints_findings.specs.Known.{IsKnown};
ghost use Rattle.manifest_lints_findings.specs.Spells.{IsRead, entry_read};
ghost use Rattle.manifest_lints.specs.Earlier.{noted, Notes, AddsMember, HasEquivalentMember};
ghost use Rattle.manifest_lints.specs.Earlier.{same_place, equivalent_place, is_undecided, PutsUnlike};
ghost use Rattle.manifest_lints.specs.Truths.{budget_of};
ghost use Rattle.manifest_lints.specs.Rustcs.{AllowsRustcs};
ghost use Rattle.manifest_lints.specs.Classes.{AreClassed, TellsNoneEquivalent};
ghost use Rattle.manifest_lints.specs.declared.at_targets.TheConstants.{MAX_OPEN_NAMES};
ghost use Rattle.manifest_lints.specs.declared.deciding.TheConstants.{MAX_NESTING};
ghost use Rattle.manifest_lints.specs.CheckedKeys.{applicable_codes, AnswersFor};
ghost use Rattle.manifest_lints.specs.Missed.{AreCovered};
ghost use Rattle.manifest_lints.specs.Reports.{IsFound, MayBeOpen, AreTooLong, left_open};
ghost use Rattle.manifest_lints.specs.Sames.{AreNoted, AreMembers};

use crate::at_targets::{MAX_OPEN_NAMES, nowhere_and_everywhere};
use crate::deciding::{budget_for, either, may_search, never_and_always};
use crate::earlier::{Earlier, Keys};
use cargo_platform::Platform;
use exact_answers::FactConstraints;
use manifest_lints_findings::KeyLint;
use manifest_lints_findings::known_keys::AnalysedKey;
use manifest_lints_findings::readings::{KeyMeaning, ReadKey};
use manifests::ExpectedCfgs;
use predicate_classes::key_predicates::open_names;
use std::alloc::{AllocError, Global};

/// The settings that are the same for all keys of a manifest.
#[derive(Drop)]
pub struct LintContext<'a> {
    /// The declarations of the manifest.
    pub declared: &'a ExpectedCfgs<'a>,
    /// The knowledge of the facts of each target.
    pub known: &'a FactConstraints<'a>,
    /// Whether the keys so far are too many and too long to be compared.
    pub is_too_much: bool,
}

/// The answers about a key, over sets of facts and compared with the keys before it.
#[derive(Clone, Copy, Drop)]
pub struct Answers {
    /// No set of facts makes it true.
    pub never: bool,
    /// Every set of facts makes it true.
    pub always: bool,
    /// It is true on no known target.
    pub nowhere: bool,
    /// It is true on every known target.
    pub everywhere: bool,
    /// Its relation to the keys before it.
    pub earlier: Earlier,
    /// One of these answers is not known.
    pub is_open: bool,
}

/// A key, with the answers about it.
#[derive(Drop)]
pub struct CheckedKey<'a> {
    /// The properties of the key by itself.
    pub key: AnalysedKey<'a>,
    /// The answers about the key.
    pub answers: Answers,
}

impl<'a> CheckedKey<'a> {
    /// Returns whether a lint applies to the key.
    pub fn holds(&self, code: KeyLint) -> bool
        ensures { result ≡ applicable_codes self.now code }
    {
        match code {
            KeyLint::Never => self.answers.never,
            KeyLint::Nowhere => self.answers.nowhere,
            KeyLint::Same => self.answers.earlier.is_same(),
            KeyLint::Equivalent => self.answers.earlier.is_equivalent(),
            KeyLint::Always => self.answers.always,
            KeyLint::Everywhere => self.answers.everywhere,
            _ => self.key.holds(code),
        }
    }

    /// Returns whether a diagnostic of this lint is reported: the lint applies, and no other lint that applies hides
    /// it. A lint that is hidden for one name only is reported for the other names, and so is not hidden here.
    pub fn is_reported(&self, code: KeyLint) -> bool
        ensures { result ≡ is_reported (applicable_codes self.now) code }
    {
        if !self.holds(code) {
            return false;
        }
        'hiders: for hider in code.row().hidden_by {
            if self.holds(*hider) {
                return false;
            }
        }
        true
    }
}

/// Returns the answers about a condition by itself.
fn answers_alone<'a>(
    alloc: Global,
    context: &LintContext<'a>,
    key: &AnalysedKey<'a>,
    condition: &'a Platform,
) -> Result<Answers, AllocError>
    ensures alone { (IsKnown (declarations_of context.now.declared.now) key.now.read.now key.now)
        → key.now.read.now.spelled ≡ KeyMeaning.Condition condition.now
        → IfOk result (λ a. AnswersFor context.now.known.now (declarations_of context.now.declared.now)
        (condition_of condition.now) a) }
    ensures left_open { (IsKnown (declarations_of context.now.declared.now) key.now.read.now key.now)
        → key.now.read.now.spelled ≡ KeyMeaning.Condition condition.now → (es : List Entry)
        → IfOk result (λ a. IsTrue a.is_open → MayBeOpen context.now.known.now
        (declarations_of context.now.declared.now)
        es key.now.read.now.text.now (condition_of condition.now)) }
{
    let open = open_names(alloc, &key.predicates)?;
    let (nowhere, everywhere) = nowhere_and_everywhere(
        alloc,
        condition,
        &open,
        key.predicates.len(),
    )?;
    let budget = budget_for(key.predicates.len());
    let may_search = may_search(key.levels, key.read.text);
    let (never, always, unknown) = never_and_always(
        alloc,
        condition,
        context.known,
        budget,
        may_search,
    )?;
    Ok(Answers {
        never,
        always,
        nowhere,
        everywhere,
        earlier: Earlier::Unlike,
        is_open: either(unknown, are_many(&open)),
    })
}

/// Returns whether there are more than `MAX_OPEN_NAMES` open names and keys.
fn are_many(open: &[&str]) -> bool
    ensures { IsTrue result ↔ (MAX_OPEN_NAMES < length open.now) }
{
    open.len() > MAX_OPEN_NAMES
}

/// Returns the maximum number of case splits for comparing a key with another one, or `None` if they are not compared.
fn budget_beside(key: &AnalysedKey<'_>, decides: bool, is_too_much: bool) -> Option<u64>
    ensures { MatchOption result
        ((decides ≡ true) ⊎ (IsTrue is_too_much ⊎ IsNestedBeyond key.now.read.now.text.now MAX_NESTING))
        (λ splits. splits ≡ budget_of (length key.now.predicates.items)) }
{
    if decides {
        return None;
    }
    if is_too_much {
        return None;
    }
    if !may_search(key.levels, key.read.text) {
        return None;
    }
    Some(budget_for(key.predicates.len()))
}

/// Returns whether it stays open how a key relates to those before it: this is not known, and nothing hides it.
fn stays_open(earlier: Earlier, decides: bool) -> bool
    ensures { result ≡ (is_undecided earlier && not decides) }
{
    earlier.is_undecided() && !decides
}

/// Returns the answers about a condition, by itself and compared with those before it.
fn answers_of<'a>(
    alloc: Global,
    context: &LintContext<'a>,
    key: &AnalysedKey<'a>,
    condition: &'a Platform,
    before: &mut Keys<'a>,
) -> Result<Answers, AllocError>
    ensures alone { (IsKnown (declarations_of context.now.declared.now) key.now.read.now key.now)
        → key.now.read.now.spelled ≡ KeyMeaning.Condition condition.now
        → IfOk result (λ a. AnswersFor context.now.known.now (declarations_of context.now.declared.now)
        (condition_of condition.now) a) }
    ensures left_open { (IsKnown (declarations_of context.now.declared.now) key.now.read.now key.now)
        → key.now.read.now.spelled ≡ KeyMeaning.Condition condition.now → (es : List Entry) → AreMembers es before.old
        → (IsTrue context.now.is_too_much → AreTooLong es key.now.read.now.text.now)
        → IfOk result (λ a. IsTrue a.is_open → MayBeOpen context.now.known.now
        (declarations_of context.now.declared.now)
        es key.now.read.now.text.now (condition_of condition.now)) }
    ensures same { IfOk result (λ a. same_place a.earlier ≡ noted before.old condition.entry) }
    ensures equivalent { IfOk result (λ a. IfSome (equivalent_place a.earlier)
        (HasEquivalentMember context.now.known.now before.old (condition_of condition.entry.now))) }
    ensures notes { OnOk result (Notes before.old before.new key.now.place condition.entry) }
    ensures members { OnOk result (AddsMember before.old before.new key.now.place condition.entry) }
    ensures unlike { AllowsRustcs context.now.known.now → AreClassed before.old
        → IfOk result (λ a. TellsNoneEquivalent context.now.known.now before.old (condition_of condition.entry.now)
        a.earlier) }
    ensures classed { AreClassed before.old → OnOk result (AreClassed before.new) }
    ensures puts { IfOk result (λ a. PutsUnlike before.old before.new key.now.place condition.entry a.earlier) }
    ensures decided { IfOk result (λ a. a.is_open ≡ false → IsTrue (is_undecided a.earlier)
        → (a.never || a.always) ≡ true) }
{
    let mut answers = answers_alone(alloc, context, key, condition)?;
    let decides = answers.never || answers.always;
    let budget = budget_beside(key, decides, context.is_too_much);
    let known = context.known;
    answers.earlier = before.add(alloc, key.place, condition, known, budget)?;
    let is_open = stays_open(answers.earlier, decides);
    answers.is_open = either(answers.is_open, is_open);
    Ok(answers)
}

/// The answers about a key that is not a condition.
const NONE: Answers = Answers {
    never: false,
    always: false,
    nowhere: false,
    everywhere: false,
    earlier: Earlier::Unlike,
    is_open: false,
};

/// Returns the key at index `place`, with the answers about it, after the keys before it. Fails if memory is refused.
pub fn check_key<'a>(
    alloc: Global,
    context: &LintContext<'a>,
    place: usize,
    read: &'a ReadKey<'a>,
    before: &mut Keys<'a>,
) -> Result<CheckedKey<'a>, AllocError>
    ensures place { IfOk result (λ f. f.key.place ≡ place) }
    ensures known { IfOk result (λ f. IsKnown (declarations_of context.now.declared.now) read.now f.key) }
    ensures checked { IsRead read.now → (es : List Entry) → length es ≡ place → AreNoted es before.old
        → AreMembers es before.old → (IsTrue context.now.is_too_much → AreTooLong es read.now.text.now)
        → (ns : List ℕ) → AreCovered context.now.known.now es ns before.old
        → IfOk result (λ f. IsFound context.now.known.now
        (declarations_of context.now.declared.now) es ns (entry_read read.now) (applicable_codes f) f.answers.earlier
        f.answers.is_open × AreNoted (es ++ entry_read read.now ∷ []) before.new
        × (AreMembers (es ++ entry_read read.now ∷ []) before.new
        × AreCovered context.now.known.now (es ++ entry_read read.now ∷ []) (ns ++ left_open place f.answers.is_open)
        before.new)) }
{
    let key = AnalysedKey::of(alloc, read, place, context.declared)?;
    match &read.spelled {
        KeyMeaning::Condition(condition) => {
            let answers = answers_of(alloc, context, &key, condition, before)?;
            Ok(CheckedKey { key, answers })
        }
        KeyMeaning::ByCargo(_) | KeyMeaning::Refused(_) => Ok(CheckedKey { key, answers: NONE }),
    }
}
