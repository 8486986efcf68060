//! Suggestions for a name, key or value that no known target has, and a key with its mistakes replaced.

ghost use Rattle.std.specs.Prelude.{IsTrue, IfOk, IfSome, string_bytes};
ghost use Rattle.cargo_platform.specs.Trees.{condition_of};
ghost use Rattle.manifest_lints_findings.specs.Shown.{IsRidOf, IsMended};

use crate::codes::KeyLint;
use crate::known_keys::AnalysedKey;
use crate::meant::{if_known, meant_value, near, nearest_target};
use crate::meant_features::feature_instead_of;
use crate::readings::{KeyMeaning, ReadKey};
use crate::repairing::repaired_key;
use cargo_platform::{Cfg, CfgExpr, Platform, ReadError};
use known_targets::{KnownFact, all_facts};
use predicate_classes::classes::{Category, Class, is_value_of};
use predicate_classes::key_predicates::KeyPredicate;
use std::alloc::{AllocError, Global};
use std::cell::OnceCell;
use toml::Value;

/// The facts that known targets have.
#[derive(Drop)]
pub struct KnownFacts {
    alloc: Global,
    // Empty until a value is compared with them: few manifests have a value that no target has.
    facts: OnceCell<Vec<KnownFact>>,
}

impl KnownFacts {
    /// Returns the facts of all known targets. They are listed when a mistake is first compared with them.
    pub fn new(alloc: Global) -> Result<KnownFacts, AllocError> {
        Ok(KnownFacts {
            alloc,
            facts: OnceCell::new(),
        })
    }

    /// Returns the facts, which are listed once.
    fn facts(&self) -> Result<&Vec<KnownFact>, AllocError> {
        let alloc = self.alloc;
        self.facts.get_or_try_init(|| all_facts(alloc))
    }

    /// Returns the value of the key that is one edit away.
    fn near_value(&self, key: &str, text: &str) -> Result<Option<&str>, AllocError> {
        for known in self.facts()? {
            if let Cfg::KeyPair(other, value) = &known.fact {
                if other.as_str() == key && near(text, &[value.as_str()]).is_some() {
                    return Ok(Some(value.as_str()));
                }
            }
        }
        Ok(None)
    }
}

/// Returns the text that can replace a mistaken name or pair. Fails if memory is refused.
pub fn instead_of(
    alloc: Global,
    known_facts: &KnownFacts,
    predicate: &KeyPredicate<'_>,
) -> Result<Option<String>, AllocError> {
    match (predicate.class, predicate.fact) {
        (Class::ValueAsName(key), Cfg::Name(name)) => { fact_of_name(alloc, key, name.as_str()) }
        (Class::OtherValue, Cfg::KeyPair(key, value)) => {
            fact_instead_of(alloc, known_facts, key.as_str(), value.as_str())
        }
        (Class::Shortened, Cfg::KeyPair(key, value)) => {
            long_fact(alloc, known_facts, key.as_str(), value.as_str())
        }
        (Class::OtherWord, Cfg::Name(name)) => by_other_word(alloc, name.as_str()),
        (Class::Near(word), Cfg::Name(_)) => Ok(Some(String::from_str(alloc, word)?)),
        (Class::Near(word), Cfg::KeyPair(_, value)) => {
            near_fact(alloc, known_facts, word, value.as_str())
        }
        _ => Ok(None),
    }
}

/// Returns the pair of a key and a value.
fn with_value(alloc: Global, key: &str, value: &str) -> Result<Option<String>, AllocError> {
    Ok(Some(format!(in alloc; "{key} = \"{value}\"")?))
}

/// Returns the fact that is meant by a value of the key that is used as a name, whatever its case.
fn fact_of_name(alloc: Global, key: &str, name: &str) -> Result<Option<String>, AllocError> {
    let value = name.to_ascii_lowercase(alloc)?;
    if value.as_str() == "unix" || value.as_str() == "windows" {
        return Ok(Some(value));
    }
    with_value(alloc, key, value.as_str())
}

/// Returns the value of the key that may be meant by another one.
fn value_instead_of<'a>(
    alloc: Global,
    known_facts: &'a KnownFacts,
    key: &str,
    value: &str,
) -> Result<Option<&'a str>, AllocError> {
    match meant_value(alloc, key, value)? {
        Some(other) => Ok(Some(other)),
        None => known_facts.near_value(key, value),
    }
}

/// The keys that are searched for a value that its own key does not have.
const OTHER_KEYS: [&str; 6] = [
    "target_os",
    "target_arch",
    "target_vendor",
    "target_env",
    "target_abi",
    "target_family",
];

/// The keys that are searched for a value that is meant by another word for a fact.
const KEYS_OF_WORDS: [&str; 3] = ["target_os", "target_arch", "target_endian"];

/// The word for the architectures `RISCV`.
const RISCV_WORD: &str = "riscv";

/// The condition that is meant by a word for several architectures.
const RISCV: &str = "any(target_arch = \"riscv32\", target_arch = \"riscv64\")";

/// Returns the fact that may be meant by a value of another key.
fn by_value_of_other(alloc: Global, key: &str, value: &str) -> Result<Option<String>, AllocError> {
    if value == "unix" || value == "windows" {
        return Ok(Some(String::from_str(alloc, value)?));
    }
    for other in OTHER_KEYS {
        if other != key && !value.is_empty() && is_value_of(alloc, other, value)? {
            return with_value(alloc, other, value);
        }
    }
    Ok(None)
}

/// Appends a pair at this index of a group.
fn push_pair(
    text: &mut String,
    alloc: Global,
    place: usize,
    key: &str,
    value: &str,
) -> Result<(), AllocError> {
    let comma = if place == 0 { "" } else { ", " };
    let fact = format!(in alloc; "{comma}{key} = \"{value}\"")?;
    text.push_str(fact.as_str())
}

/// Returns the `any(..)` of values that are joined by commas or bars, if each of them is a value of the key.
fn any_of_joined(alloc: Global, key: &str, value: &str) -> Result<Option<String>, AllocError> {
    let mark = if value.contains('|') { '|' } else { ',' };
    if !value.contains(mark) {
        return Ok(None);
    }
    let mut text = String::from_str(alloc, "any(")?;
    for (place, part) in value.split(mark).enumerate() {
        let part = part.trim();
        if !is_value_of(alloc, key, part)? {
            return Ok(None);
        }
        push_pair(&mut text, alloc, place, key, part)?;
    }
    text.push_str(")")?;
    Ok(Some(text))
}

/// Returns the text that can replace a pair whose value no known target has.
fn fact_instead_of(
    alloc: Global,
    known_facts: &KnownFacts,
    key: &str,
    value: &str,
) -> Result<Option<String>, AllocError> {
    if key == "target_feature" {
        return match feature_instead_of(alloc, value)? {
            Some(other) => Ok(Some(other)),
            None => by_value_of_other(alloc, key, value),
        };
    }
    if key == "target_arch" && value == RISCV_WORD {
        return Ok(Some(String::from_str(alloc, RISCV)?));
    }
    if let Some(other) = meant_value(alloc, key, value)? {
        return with_value(alloc, key, other);
    }
    if let Some(other) = by_value_of_other(alloc, key, value)? {
        return Ok(Some(other));
    }
    if let Some(other) = any_of_joined(alloc, key, value)? {
        return Ok(Some(other));
    }
    match known_facts.near_value(key, value)? {
        Some(other) => with_value(alloc, key, other),
        None => Ok(None),
    }
}

/// Returns the pair of a key, which is one edit away from the one that is written, with a value, or with the value that
/// is meant.
fn near_fact(
    alloc: Global,
    known_facts: &KnownFacts,
    key: &str,
    value: &str,
) -> Result<Option<String>, AllocError> {
    if is_value_of(alloc, key, value)? {
        return with_value(alloc, key, value);
    }
    let found = fact_instead_of(alloc, known_facts, key, value)?;
    if found.is_some() {
        return Ok(found);
    }
    with_value(alloc, key, value)
}

/// Returns the full key for a shortened one. `platform` stands for `target_os`.
fn long_key(alloc: Global, key: &str) -> Result<String, AllocError> {
    let key = key.to_ascii_lowercase(alloc)?;
    if key.as_str() == "platform" {
        String::from_str(alloc, "target_os")
    } else {
        format!(in alloc; "target_{key}")
    }
}

/// Returns the pair of a key with a value, or with the value that is meant.
fn fact_of_value(
    alloc: Global,
    known_facts: &KnownFacts,
    key: &str,
    value: &str,
) -> Result<Option<String>, AllocError> {
    if is_value_of(alloc, key, value)? {
        return with_value(alloc, key, value);
    }
    if value == "unix" || value == "windows" {
        return Ok(Some(String::from_str(alloc, value)?));
    }
    if key == "target_arch" && value == RISCV_WORD {
        return Ok(Some(String::from_str(alloc, RISCV)?));
    }
    match value_instead_of(alloc, known_facts, key, value)? {
        Some(other) => with_value(alloc, key, other),
        None => Ok(None),
    }
}

/// Returns the pair with the full key, and with the value that is meant.
fn long_fact(
    alloc: Global,
    known_facts: &KnownFacts,
    key: &str,
    value: &str,
) -> Result<Option<String>, AllocError> {
    let key = long_key(alloc, key)?;
    fact_of_value(alloc, known_facts, key.as_str(), value)
}

/// Returns the fact that is meant by another word for it.
fn by_other_word(alloc: Global, word: &str) -> Result<Option<String>, AllocError> {
    let word = word.to_ascii_lowercase(alloc)?;
    if word.as_str() == RISCV_WORD {
        return Ok(Some(String::from_str(alloc, RISCV)?));
    }
    for key in KEYS_OF_WORDS {
        match meant_value(alloc, key, word.as_str())? {
            Some("windows") => return Ok(Some(String::from_str(alloc, "windows")?)),
            Some(value) => return with_value(alloc, key, value),
            None => {}
        }
    }
    Ok(None)
}

/// Returns `cfg(..)` around a pair.
fn cfg_of(alloc: Global, key: &str, value: &str) -> Result<Option<String>, AllocError> {
    Ok(Some(format!(in alloc; "cfg({key} = \"{value}\")")?))
}

/// Returns `cfg(..)` around a pair whose value is, or is meant by, the name of a target.
fn cfg_instead_of(alloc: Global, key: &str, name: &str) -> Result<Option<String>, AllocError> {
    if is_value_of(alloc, key, name)? {
        return cfg_of(alloc, key, name);
    }
    match meant_value(alloc, key, name)? {
        Some(word) => cfg_of(alloc, key, word),
        None => Ok(None),
    }
}

/// Returns the key that can replace the name of a target that is not known.
fn key_instead_of(alloc: Global, key: &AnalysedKey<'_>) -> Result<Option<String>, AllocError> {
    let name = key.read.text.to_ascii_lowercase(alloc)?;
    let found = cfg_of_name(alloc, name.as_str())?;
    if found.is_some() {
        return Ok(found);
    }
    let whole = dotted_target(alloc, key)?;
    if whole.is_some() {
        return Ok(whole);
    }
    nearest_target(alloc, key.read.text)
}

/// Returns the `cfg(..)` that is meant by a name in lower case, if that is a fact or a value of one of rustc's keys.
fn cfg_of_name(alloc: Global, name: &str) -> Result<Option<String>, AllocError> {
    if name == "windows" || name == "unix" {
        return Ok(Some(format!(in alloc; "cfg({name})")?));
    }
    if name == RISCV_WORD {
        return Ok(Some(format!(in alloc; "cfg({RISCV})")?));
    }
    for word in ["target_os", "target_arch"] {
        let found = cfg_instead_of(alloc, word, name)?;
        if found.is_some() {
            return Ok(found);
        }
    }
    Ok(None)
}

/// Returns the known target whose name TOML splits into two keys, as in `[target.thumbv8m.main-none-eabi]`.
fn dotted_target(alloc: Global, key: &AnalysedKey<'_>) -> Result<Option<String>, AllocError> {
    let Some(Some(table)) = key.read.value.map(|value: &Value| value.as_table()) else {
        return Ok(None);
    };
    let name = key.read.text;
    for (member, _) in table.iter() {
        let whole = if_known(format!(in alloc; "{name}.{member}")?);
        if whole.is_some() {
            return Ok(whole);
        }
    }
    Ok(None)
}

/// Returns the target that a key names by `target = ".."` alone.
fn named_target<'a>(key: &AnalysedKey<'a>) -> Option<&'a str> {
    match &key.read.spelled {
        KeyMeaning::Condition(Platform::Cfg(CfgExpr::Value(Cfg::KeyPair(name, value))))
            if name.as_str() == "target" => { Some(value.as_str()) }
        _ => None,
    }
}

/// Appends the key's text from this byte up to a mistaken fact, and the text that replaces the fact. Returns the byte
/// after the fact, or `None` if nothing can replace it.
fn push_repaired(
    repaired: &mut String,
    alloc: Global,
    known_facts: &KnownFacts,
    rest: (&str, usize),
    predicate: &KeyPredicate<'_>,
) -> Result<Option<usize>, AllocError> {
    let Some(other) = instead_of(alloc, known_facts, predicate)? else {
        return Ok(None);
    };
    let Some(span) = predicate.span else {
        return Ok(None);
    };
    let (text, copied) = rest;
    repaired.push_str(text.get(copied..span.start).unwrap_or(""))?;
    repaired.push_str(other.as_str())?;
    Ok(Some(span.end))
}

/// Returns the key with each mistaken fact replaced, if each can be replaced.
fn with_facts_replaced(
    alloc: Global,
    known_facts: &KnownFacts,
    key: &AnalysedKey<'_>,
) -> Result<Option<String>, AllocError> {
    let text = key.read.text;
    let mut repaired = String::new(alloc);
    let mut copied = 0;
    for predicate in &key.predicates {
        if predicate.class.category().is(Category::Mistaken) {
            match push_repaired(&mut repaired, alloc, known_facts, (text, copied), predicate)? {
                Some(end) => copied = end,
                None => return Ok(None),
            }
        }
    }
    repaired.push_str(text.get(copied..).unwrap_or(""))?;
    Ok(Some(repaired))
}

/// Returns the target that a key alone names, or the key with each mistaken fact replaced.
fn repaired(
    alloc: Global,
    known_facts: &KnownFacts,
    key: &AnalysedKey<'_>,
) -> Result<Option<String>, AllocError> {
    match named_target(key) {
        Some(name) => Ok(Some(String::from_str(alloc, name)?)),
        None => with_facts_replaced(alloc, known_facts, key),
    }
}

/// Returns a suggestion that replaces the whole key, for the diagnostic of this lint. It is a condition on which this
/// lint does not report anything. Fails if memory is refused.
pub fn suggestion_of(
    alloc: Global,
    known_facts: &KnownFacts,
    key: &AnalysedKey<'_>,
    code: KeyLint,
) -> Result<Option<String>, AllocError>
    ensures { IfOk result (λ s. IfSome s (λ text. IsMended code (string_bytes text))) }
{
    match text_instead(alloc, known_facts, key, code)? {
        Some(text) if is_mended(alloc, text.as_str(), code)? => Ok(Some(text)),
        _ => Ok(None),
    }
}

/// Returns whether a text is a condition on which this lint reports nothing.
fn is_mended(alloc: Global, text: &str, code: KeyLint) -> Result<bool, AllocError>
    ensures { IfOk result (λ b. IsTrue b → IsMended code text.now) }
{
    match Platform::from_str(alloc, text) {
        Ok(condition) => is_rid_of(alloc, text, condition, code),
        Err(ReadError::Parse(_)) => Ok(false),
        Err(ReadError::Memory(refused)) => Err(refused),
    }
}

/// Returns whether this lint reports nothing on a text with this condition.
fn is_rid_of(
    alloc: Global,
    text: &str,
    condition: Platform,
    code: KeyLint,
) -> Result<bool, AllocError>
    ensures { IfOk result (λ b. IsTrue b → IsRidOf code text.now (condition_of condition)) }
{
    let read = ReadKey::alone(text, condition);
    let known = AnalysedKey::alone(alloc, &read)?;
    match code {
        KeyLint::Refused
        | KeyLint::ReadOtherwise
        | KeyLint::UnknownTarget
        | KeyLint::UnknownFact
        | KeyLint::NotCanonical => Ok(!known.holds(code)),
        _ => Ok(false),
    }
}

/// Returns a text that may be meant in place of the whole key, for the diagnostic of this lint.
fn text_instead(
    alloc: Global,
    known_facts: &KnownFacts,
    key: &AnalysedKey<'_>,
    code: KeyLint,
) -> Result<Option<String>, AllocError> {
    match (code, &key.read.spelled) {
        (KeyLint::Refused, _) => repaired_key(alloc, key.read.text),
        (KeyLint::ReadOtherwise, KeyMeaning::ByCargo(marked)) => Ok(Some(marked.key.clone()?)),
        (KeyLint::UnknownTarget, _) => key_instead_of(alloc, key),
        (KeyLint::UnknownFact, _) => repaired(alloc, known_facts, key),
        (KeyLint::NotCanonical, _) => Ok(Some(key.canonical.clone()?)),
        _ => Ok(None),
    }
}
