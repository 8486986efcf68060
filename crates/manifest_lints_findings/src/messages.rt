//! The messages of the diagnostics, lint by lint.

ghost use Rattle.std.specs.Prelude.{◌≡◌, ◌++◌, IfOk, codes, string_bytes};
ghost use Rattle.manifest_lints_findings.specs.Messages.{NamesKey, Shows, no_target, every_target, lacking_text};
ghost use Rattle.manifest_lints_findings.specs.Messages.{features_text, only_unstable, unstable_text, IsFaultText};
ghost use Rattle.manifest_lints_findings.specs.Messages.{unmarked_text};
ghost use Rattle.manifest_lints_findings.specs.Texts.{quoted_text};

use crate::chosen::{Choice, chosen};
use crate::codes::KeyLint;
use crate::known_keys::AnalysedKey;
use crate::readings::KeyMeaning;
use crate::wording::{join_non_empty, joined, listed, quoted};
use key_answers::printing::key_reason;
use known_targets::RUSTC_VERSION;
use predicate_classes::classes::Category;
use predicate_classes::key_predicates::KeyPredicate;
use std::alloc::{AllocError, Global};

/// Returns the message of the diagnostic of this lint. `other` is the earlier key that is the same or equivalent. Fails
/// if memory is refused.
pub fn message_of(
    alloc: Global,
    key: &AnalysedKey<'_>,
    other: &str,
    code: KeyLint,
) -> Result<String, AllocError>
    ensures named { IfOk result (λ message. NamesKey code other.now (string_bytes message)) }
    ensures shows { IfOk result (λ message. Shows code key.now (string_bytes message)) }
{
    match code {
        KeyLint::Refused => refused_message(alloc, key),
        KeyLint::NoTable => no_table_message(alloc, key),
        KeyLint::ReadOtherwise => read_otherwise_message(alloc, key),
        KeyLint::Unsupported => unsupported_message(alloc, key),
        KeyLint::Never => String::from_str(alloc, "no set of facts makes the condition true"),
        KeyLint::UnknownTarget => unknown_target_message(alloc),
        KeyLint::UnknownFact => unknown_fact_message(alloc, key),
        KeyLint::Nowhere => nowhere_message(alloc),
        KeyLint::Same => behind_words(alloc, "the same condition as the earlier key ", other),
        KeyLint::Equivalent => behind_words(alloc, "equivalent to the earlier key ", other),
        KeyLint::Always => String::from_str(alloc, "every set of facts makes the condition true"),
        KeyLint::Everywhere => everywhere_message(alloc),
        KeyLint::Custom => custom_message(alloc, key),
        KeyLint::NotCanonical => String::from_str(alloc, "the key is not in canonical form"),
    }
}

/// Returns `words` followed by the text in backquotes.
fn behind_words(alloc: Global, words: &str, text: &str) -> Result<String, AllocError>
    ensures { IfOk result (λ message. string_bytes message ≡ words.now ++ quoted_text text.now) }
{
    let text = quoted(alloc, text)?;
    format!(in alloc; "{words}{text}")
}

/// Returns `no target that rustc .. knows`, with the release.
fn no_target(alloc: Global) -> Result<String, AllocError>
    ensures { IfOk result (λ s. string_bytes s ≡ no_target) }
{
    format!(in alloc; "no target that rustc {RUSTC_VERSION} knows")
}

/// Returns the message for the parts of a key's value that are not tables.
fn no_table_message(alloc: Global, key: &AnalysedKey<'_>) -> Result<String, AllocError>
    ensures { IfOk result (λ s. Shows KeyLint.NoTable key.now (string_bytes s)) }
{
    joined(alloc, &key.non_tables, key.non_tables.len(), ", ")
}

/// Returns the reason why a key is rejected.
fn fault_of(alloc: Global, key: &str, spelled: &KeyMeaning) -> Result<String, AllocError>
    ensures { IfOk result (λ s. IsFaultText key.now spelled.now (string_bytes s)) }
{
    match spelled {
        KeyMeaning::Refused(error) => key_reason(alloc, key, error),
        KeyMeaning::Condition(_) | KeyMeaning::ByCargo(_) => Ok(String::new(alloc)),
    }
}

/// Returns the message for a rejected key.
fn refused_message(alloc: Global, key: &AnalysedKey<'_>) -> Result<String, AllocError>
    ensures { IfOk result (λ s. Shows KeyLint.Refused key.now (string_bytes s)) }
{
    let fault = fault_of(alloc, key.read.text, &key.read.spelled)?;
    format!(in alloc; "invalid key: {fault}")
}

/// Returns the message for a key in which Cargo reads names without their raw marks.
fn unmarked_message(alloc: Global, key: &AnalysedKey<'_>) -> Result<String, AllocError>
    ensures { IfOk result (λ s. string_bytes s ≡ unmarked_text key.now.predicates.items) }
{
    let literals = chosen(alloc, &key.predicates, Choice::Literal)?;
    let names = listed(alloc, &literals)?;
    format!(in alloc; "Cargo reads {names} without the raw mark")
}

/// Returns the message for a key that Cargo reads otherwise: only Cargo accepts it, or Cargo reads names without their
/// raw marks.
fn read_otherwise_message(alloc: Global, key: &AnalysedKey<'_>) -> Result<String, AllocError>
    ensures { IfOk result (λ s. Shows KeyLint.ReadOtherwise key.now (string_bytes s)) }
{
    match &key.read.spelled {
        KeyMeaning::ByCargo(_) => String::from_str(alloc, "Cargo accepts the key with a warning"),
        KeyMeaning::Condition(_) | KeyMeaning::Refused(_) => unmarked_message(alloc, key),
    }
}

/// Returns the message for facts that Cargo does not set when it selects dependencies.
fn unsupported_message(alloc: Global, key: &AnalysedKey<'_>) -> Result<String, AllocError>
    ensures { IfOk result (λ s. Shows KeyLint.Unsupported key.now (string_bytes s)) }
{
    let facts = chosen(
        alloc,
        &key.predicates,
        Choice::OfCategory(Category::Unsupported),
    )?;
    let names = listed(alloc, &facts)?;
    format!(in alloc; "Cargo does not set {names} when it selects dependencies")
}

/// Returns the message for a name that no known target has.
fn unknown_target_message(alloc: Global) -> Result<String, AllocError>
    ensures { IfOk result (λ s. string_bytes s ≡ no_target ++ codes " has this name") }
{
    let unknown = no_target(alloc)?;
    format!(in alloc; "{unknown} has this name")
}

/// Returns the message for facts that no known target has, or the empty text if there are none.
fn lacking_message(alloc: Global, facts: &[KeyPredicate<'_>]) -> Result<String, AllocError>
    ensures { IfOk result (λ s. string_bytes s ≡ lacking_text facts.now) }
{
    if facts.is_empty() {
        return Ok(String::new(alloc));
    }
    let names = listed(alloc, facts)?;
    let unknown = no_target(alloc)?;
    format!(in alloc; "{unknown} has {names}")
}

/// Returns the message for mistaken features, or the empty text if there are none.
fn features_message(alloc: Global, features: &[KeyPredicate<'_>]) -> Result<String, AllocError>
    ensures { IfOk result (λ s. string_bytes s ≡ features_text features.now) }
{
    if features.is_empty() {
        return Ok(String::new(alloc));
    }
    let names = listed(alloc, features)?;
    format!(in alloc; "no architecture that rustc {RUSTC_VERSION} knows has {names}")
}

/// Returns the message for mistaken facts.
fn unknown_fact_message(alloc: Global, key: &AnalysedKey<'_>) -> Result<String, AllocError>
    ensures { IfOk result (λ s. Shows KeyLint.UnknownFact key.now (string_bytes s)) }
{
    let mistakes = chosen(
        alloc,
        &key.predicates,
        Choice::OfCategory(Category::Mistaken),
    )?;
    let facts = chosen(alloc, &mistakes, Choice::NoFeature)?;
    let features = chosen(alloc, &mistakes, Choice::Feature)?;
    let first = lacking_message(alloc, &facts)?;
    let second = features_message(alloc, &features)?;
    join_non_empty(alloc, first, second)
}

/// Returns the message for a condition that is true on no known target.
fn nowhere_message(alloc: Global) -> Result<String, AllocError>
    ensures { IfOk result
        (λ s. string_bytes s ≡ no_target ++ codes " has facts that make the condition true") }
{
    let unknown = no_target(alloc)?;
    format!(in alloc; "{unknown} has facts that make the condition true")
}

/// Returns the message for a condition that is true on every known target.
fn everywhere_message(alloc: Global) -> Result<String, AllocError>
    ensures { IfOk result (λ s. string_bytes s ≡ every_target) }
{
    format!(in alloc; "the condition is true on every target that rustc {RUSTC_VERSION} knows")
}

/// Returns facts, and that only unstable features set them.
fn only_unstable(alloc: Global, facts: &[KeyPredicate<'_>]) -> Result<String, AllocError>
    ensures { IfOk result (λ s. string_bytes s ≡ only_unstable facts.now) }
{
    let names = listed(alloc, facts)?;
    format!(in alloc; "{names} only with unstable features")
}

/// Returns the message for facts that only unstable features set, or the empty text if there are none.
fn unstable_message(alloc: Global, facts: &[KeyPredicate<'_>]) -> Result<String, AllocError>
    ensures { IfOk result (λ s. string_bytes s ≡ unstable_text facts.now) }
{
    if facts.is_empty() {
        return Ok(String::new(alloc));
    }
    let printed = only_unstable(alloc, facts)?;
    format!(in alloc; "rustc {RUSTC_VERSION} prints {printed}")
}

/// Returns the message for facts that only flags set, and for those that only unstable features set.
fn custom_message(alloc: Global, key: &AnalysedKey<'_>) -> Result<String, AllocError>
    ensures { IfOk result (λ s. Shows KeyLint.Custom key.now (string_bytes s)) }
{
    let custom = chosen(alloc, &key.predicates, Choice::OfCategory(Category::Custom))?;
    let flagged = chosen(alloc, &custom, Choice::Stable)?;
    let unstable = chosen(alloc, &custom, Choice::Unstable)?;
    let first = lacking_message(alloc, &flagged)?;
    let second = unstable_message(alloc, &unstable)?;
    join_non_empty(alloc, first, second)
}
