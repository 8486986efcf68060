//! The notes and helps of the diagnostics, lint by lint.

ghost use Rattle.std.specs.Prelude.{◌≡◌, ◌++◌, ◌∷◌, [], IfOk, OnOk, false, string_bytes};
ghost use Rattle.cargo_platform.specs.Errors.{texts};
ghost use Rattle.cargo_platform.specs.Trees.{value_of};
ghost use Rattle.cargo_platform.specs.Warnings.{attribute_warning};
ghost use Rattle.manifest_lints_findings.specs.Chosen.{chosen, is_pair, warnings_on};
ghost use Rattle.manifest_lints_findings.specs.Messages.{meant_shown, noted_texts, help_texts, said};
ghost use Rattle.manifest_lints_findings.specs.Messages.{cargo_words, cargo_noted, unsupported_in};
ghost use Rattle.manifest_lints_findings.specs.Texts.{quoted_text, Mentions};

use crate::chosen::{Choice, chosen};
use crate::codes::KeyLint;
use crate::known_keys::AnalysedKey;
use crate::no_tables::meant_tables;
use crate::readings::{CargoReading, KeyMeaning};
use crate::suggestions::{KnownFacts, instead_of};
use crate::wording::{first_shown, joined, quoted, quoted_fact};
use cargo_platform::{Cfg, CfgExpr, Platform, printable_text};
use predicate_classes::classes::{Category, Class};
use predicate_classes::key_predicates::KeyPredicate;
use std::alloc::{AllocError, Global};

/// The texts that belong to a diagnostic. Each has one line, and no hidden characters.
#[derive(Drop)]
pub struct Children {
    /// Background.
    pub notes: Vec<String>,
    /// What to do. If there is a suggestion, the first help is to use it.
    pub helps: Vec<String>,
}

impl Children {
    /// Returns no texts.
    pub fn none(alloc: Global) -> Children
        ensures notes { result.notes.items ≡ [] }
        ensures helps { result.helps.items ≡ [] }
    {
        Children {
            notes: Vec::new(alloc),
            helps: Vec::new(alloc),
        }
    }

    /// Returns one help, and no note. Fails if memory is refused.
    pub fn of_help(alloc: Global, help: String) -> Result<Children, AllocError>
        ensures notes { IfOk result (λ c. c.notes.items ≡ []) }
        ensures helps { IfOk result (λ c. c.helps.items ≡ help ∷ []) }
    {
        let helps = only(alloc, help)?;
        Ok(Children {
            notes: Vec::new(alloc),
            helps,
        })
    }

    /// Returns one note, and no help. Fails if memory is refused.
    pub fn of_note(alloc: Global, note: String) -> Result<Children, AllocError>
        ensures notes { IfOk result (λ c. c.notes.items ≡ note ∷ []) }
        ensures helps { IfOk result (λ c. c.helps.items ≡ []) }
    {
        let notes = only(alloc, note)?;
        Ok(Children {
            notes,
            helps: Vec::new(alloc),
        })
    }
}

/// Returns a list of this text alone.
fn only(alloc: Global, text: String) -> Result<Vec<String>, AllocError>
    ensures { IfOk result (λ all. all.items ≡ text ∷ []) }
{
    let mut all = Vec::new(alloc);
    all.push(text)?;
    Ok(all)
}

/// Returns a list of this text of the program alone.
fn only_words(alloc: Global, text: &str) -> Result<Vec<String>, AllocError> {
    only(alloc, String::from_str(alloc, text)?)
}

/// Returns the notes and helps of the diagnostic of this lint. `meant` can replace the key. Fails if memory is refused.
pub fn children_of(
    alloc: Global,
    known_facts: &KnownFacts,
    key: &AnalysedKey<'_>,
    meant: &Option<String>,
    code: KeyLint,
) -> Result<Children, AllocError>
    ensures notes { IfOk result (λ c. Mentions (noted_texts code key.now) (said c.notes.items)) }
    ensures helps { IfOk result (λ c. Mentions (help_texts code key.now meant.now) (said c.helps.items)) }
{
    let notes = notes_of(alloc, key, code)?;
    let helps = helps_of(alloc, known_facts, key, meant, code)?;
    Ok(Children { notes, helps })
}

/// Returns the notes of the diagnostic of this lint.
fn notes_of(alloc: Global, key: &AnalysedKey<'_>, code: KeyLint) -> Result<Vec<String>, AllocError>
    ensures { IfOk result (λ notes. Mentions (noted_texts code key.now) (said notes.items)) }
{
    match code {
        KeyLint::ReadOtherwise => notes_on_reading(alloc, &key.read.spelled),
        KeyLint::Unsupported => notes_on_unsupported(alloc, key),
        KeyLint::UnknownTarget => only_words(alloc, OWN),
        KeyLint::UnknownFact => notes_on_mistakes(alloc, &key.predicates),
        KeyLint::Nowhere => only_words(alloc, OWN_FACTS),
        KeyLint::Custom => notes_on_custom(alloc, key),
        _ => Ok(Vec::new(alloc)),
    }
}

/// The note on a name or fact that no known target has.
const OWN: &str = "a custom target specification may have it";

/// The note on a condition that is true on no known target.
const OWN_FACTS: &str = "a custom target specification may have them";

/// The note on a fact that only flags set.
const FLAG_DEPENDENT_KEYS: &str = "only `--cfg` in RUSTFLAGS can set it, not a build script";

/// The note on a fact that depends on a profile.
const OF_PROFILES: &str = "no profile selects dependencies";

/// The note on a value of `panic` that no flag sets.
const PANIC_VALUES: &str = "flags set `panic` to `abort`, `immediate-abort` or `unwind`";

/// Returns the note on a key that only Cargo accepts: Cargo's warnings.
fn by_cargo_note(alloc: Global, marked: &CargoReading) -> Result<String, AllocError>
    ensures { IfOk result (λ s. Mentions (cargo_words marked.now ∷ []) (string_bytes s)) }
{
    let warnings = joined(alloc, &marked.warnings, marked.count, " ")?;
    let text = printable_text(alloc, warnings.as_str())?;
    format!(in alloc; "Cargo warns: {text}")
}

/// Returns the notes on a key that Cargo reads otherwise.
fn notes_on_reading(alloc: Global, spelled: &KeyMeaning) -> Result<Vec<String>, AllocError>
    ensures { IfOk result (λ notes. Mentions (cargo_noted spelled.now) (said notes.items)) }
{
    match spelled {
        KeyMeaning::ByCargo(marked) => {
            let note = by_cargo_note(alloc, marked)?;
            only(alloc, note)
        }
        KeyMeaning::Condition(_) | KeyMeaning::Refused(_) => Ok(Vec::new(alloc)),
    }
}

/// Returns whether a fact is a pair.
fn is_pair(fact: &Cfg) -> bool
    ensures { result ≡ is_pair (value_of fact.now) }
{
    matches!(fact, Cfg::KeyPair(_, _))
}

/// Appends Cargo's warning on a name or pair.
fn warn(alloc: Global, fact: &Cfg, warnings: &mut Vec<String>) -> Result<(), AllocError>
    ensures { OnOk result
        (texts warnings.new ≡ texts warnings.old ++ attribute_warning (value_of fact.now)) }
{
    let fact = fact.clone(alloc)?;
    Platform::Cfg(CfgExpr::Value(fact)).check_cfg_attributes(alloc, warnings)
}

/// Returns Cargo's warnings on names and pairs that do not select dependencies. The warning on `feature` is included
/// once.
fn warnings_on(alloc: Global, facts: &[KeyPredicate<'_>]) -> Result<Vec<String>, AllocError>
    ensures { IfOk result (λ found. texts found ≡ warnings_on false facts.now) }
{
    let mut found = Vec::new(alloc);
    let mut is_said = false;
    'facts: for predicate in facts {
        let is_pair = is_pair(predicate.fact);
        if !(is_pair && is_said) {
            warn(alloc, predicate.fact, &mut found)?;
        }
        is_said = is_said || is_pair;
    }
    Ok(found)
}

/// Returns the note on facts that do not select dependencies: Cargo's warnings, on one line.
fn unsupported_note(alloc: Global, key: &AnalysedKey<'_>) -> Result<String, AllocError>
    ensures { IfOk result (λ s. Mentions
        (unsupported_in (chosen (Choice.OfCategory Category.Unsupported) key.now.predicates.items) ∷ [])
        (string_bytes s)) }
{
    let facts = chosen(
        alloc,
        &key.predicates,
        Choice::OfCategory(Category::Unsupported),
    )?;
    let warnings = warnings_on(alloc, &facts)?;
    let words = joined(alloc, &warnings, warnings.len(), " ")?;
    let text = printable_text(alloc, words.as_str())?;
    format!(in alloc; "Cargo warns: {text}")
}

/// Returns the notes on facts that do not select dependencies.
fn notes_on_unsupported(alloc: Global, key: &AnalysedKey<'_>) -> Result<Vec<String>, AllocError>
    ensures { IfOk result (λ notes. Mentions
        (unsupported_in (chosen (Choice.OfCategory Category.Unsupported) key.now.predicates.items) ∷ [])
        (said notes.items)) }
{
    let note = unsupported_note(alloc, key)?;
    only(alloc, note)
}

/// Returns whether a fact is a pair of `panic`.
fn is_panic(fact: &Cfg) -> bool {
    match fact {
        Cfg::KeyPair(key, _) => key.as_str() == "panic",
        Cfg::Name(_) => false,
    }
}

/// Returns the notes on mistaken facts.
fn notes_on_mistakes(
    alloc: Global,
    predicates: &[KeyPredicate<'_>],
) -> Result<Vec<String>, AllocError> {
    let mistakes = chosen(alloc, predicates, Choice::OfCategory(Category::Mistaken))?;
    let mut notes = Vec::new(alloc);
    if mistakes.iter().any(|it| it.class == Class::OfProfile) {
        notes.push(String::from_str(alloc, OF_PROFILES)?)?;
    }
    if mistakes.iter().any(|it| is_panic(it.fact)) {
        notes.push(String::from_str(alloc, PANIC_VALUES)?)?;
    }
    if !chosen(alloc, &mistakes, Choice::NoFeature)?.is_empty() {
        notes.push(String::from_str(alloc, OWN)?)?;
    }
    Ok(notes)
}

/// Returns the notes on facts that only flags or unstable features set.
fn notes_on_custom(alloc: Global, key: &AnalysedKey<'_>) -> Result<Vec<String>, AllocError> {
    let custom = chosen(alloc, &key.predicates, Choice::OfCategory(Category::Custom))?;
    if chosen(alloc, &custom, Choice::Stable)?.is_empty() {
        return Ok(Vec::new(alloc));
    }
    only_words(alloc, FLAG_DEPENDENT_KEYS)
}

/// Returns the helps of the diagnostic of this lint.
fn helps_of(
    alloc: Global,
    known_facts: &KnownFacts,
    key: &AnalysedKey<'_>,
    meant: &Option<String>,
    code: KeyLint,
) -> Result<Vec<String>, AllocError>
    ensures { IfOk result (λ helps. Mentions (help_texts code key.now meant.now) (said helps.items)) }
{
    match code {
        KeyLint::NotCanonical => to_write(alloc, key.canonical.as_str()),
        _ => helps_with(alloc, known_facts, key, meant, code),
    }
}

/// Returns the help to write a text.
fn to_write(alloc: Global, text: &str) -> Result<Vec<String>, AllocError>
    ensures { IfOk result (λ helps. Mentions (quoted_text text.now ∷ []) (said helps.items)) }
{
    let text = quoted(alloc, text)?;
    let help = format!(in alloc; "write {text}")?;
    only(alloc, help)
}

/// Returns the help that a text may be meant.
fn to_mean(alloc: Global, text: &str) -> Result<Vec<String>, AllocError>
    ensures { IfOk result (λ helps. Mentions (quoted_text text.now ∷ []) (said helps.items)) }
{
    let text = quoted(alloc, text)?;
    let help = format!(in alloc; "did you mean {text}?")?;
    only(alloc, help)
}

/// Returns the help to use what is meant, or else what is known of parts of the key.
fn helps_with(
    alloc: Global,
    known_facts: &KnownFacts,
    key: &AnalysedKey<'_>,
    meant: &Option<String>,
    code: KeyLint,
) -> Result<Vec<String>, AllocError>
    ensures { IfOk result (λ helps. Mentions (meant_shown meant.now) (said helps.items)) }
{
    match meant {
        Some(text) => to_use(alloc, text.as_str(), code),
        None => hints(alloc, known_facts, key, code),
    }
}

/// Returns the help to use a text in place of the key.
fn to_use(alloc: Global, text: &str, code: KeyLint) -> Result<Vec<String>, AllocError>
    ensures { IfOk result (λ helps. Mentions (quoted_text text.now ∷ []) (said helps.items)) }
{
    match code {
        KeyLint::ReadOtherwise => to_write(alloc, text),
        _ => to_mean(alloc, text),
    }
}

/// Returns helps for a key that has no suggestion.
fn hints(
    alloc: Global,
    known_facts: &KnownFacts,
    key: &AnalysedKey<'_>,
    code: KeyLint,
) -> Result<Vec<String>, AllocError> {
    match code {
        KeyLint::Refused => match instead_of_fault(key.read.text) {
            Some(hint) => only_words(alloc, hint),
            None => Ok(Vec::new(alloc)),
        },
        KeyLint::NoTable => match key.read.value {
            Some(value) => meant_tables(alloc, value),
            None => Ok(Vec::new(alloc)),
        },
        KeyLint::UnknownFact => hints_on_mistakes(alloc, known_facts, &key.predicates),
        _ => Ok(Vec::new(alloc)),
    }
}

/// Returns for the first mistaken facts what may be meant, where that is known.
fn hints_on_mistakes(
    alloc: Global,
    known_facts: &KnownFacts,
    predicates: &[KeyPredicate<'_>],
) -> Result<Vec<String>, AllocError> {
    let mistakes = chosen(alloc, predicates, Choice::OfCategory(Category::Mistaken))?;
    let mut helps = Vec::new(alloc);
    for mistake in first_shown(&mistakes) {
        if let Some(other) = instead_of(alloc, known_facts, mistake)? {
            let fact = quoted_fact(alloc, mistake.fact)?;
            let other = quoted(alloc, other.as_str())?;
            helps.push(format!(in alloc; "did you mean {other} in place of {fact}?")?)?;
        }
    }
    Ok(helps)
}

/// The texts that people write in place of the words of a condition, and what to write in place of each.
const INSTEAD: [(&str, &str); 8] = [
    ("||", "use `any(..)` in place of `||`"),
    ("&&", "use `all(..)` in place of `&&`"),
    ("!=", "use `not(.. = \"..\")` in place of `!=`"),
    ("!", "use `not(..)` in place of `!`"),
    ("==", "use `=` in place of `==`"),
    ("'", "put the value in double quotes"),
    ("[", "use `any(..)` in place of `[..]`"),
    (" or ", "use `any(..)` in place of `or`"),
];

/// Returns whether a key contains these words outside of its values.
fn stands_outside(key: &str, words: &str) -> bool {
    for (place, part) in key.split('"').enumerate() {
        if place % 2 == 0 && part.contains(words) {
            return true;
        }
    }
    false
}

/// Returns what to write in place of what people write in a rejected key, if that is known. Texts inside values are
/// ignored.
fn instead_of_fault(key: &str) -> Option<&'static str> {
    for (written, hint) in INSTEAD {
        if stands_outside(key, written) {
            return Some(hint);
        }
    }
    if key.contains("not(") && key.contains(',') {
        return Some("use `not(any(..))` or `not(all(..))`, as `not(..)` takes one condition");
    }
    None
}
