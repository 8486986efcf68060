//! The parts of a manifest that a diagnostic on a key points to.

ghost use Rattle.std.specs.Prelude.{◌≡◌, IfOk, map, string_bytes};
ghost use Rattle.manifest_lints_findings.specs.Pointed.{choice_of, spans_in, spans_of, fields_of};
ghost use Rattle.manifest_lints_findings.specs.Pointed.{PointsTo, PointsToKey, PointsToNothing};
ghost use Rattle.manifest_lints_findings.specs.Spells.{data_at};

use crate::chosen::{Choice, chosen};
use crate::codes::KeyLint;
use crate::known_keys::AnalysedKey;
use crate::no_tables::non_table_fields;
use crate::wording::MAX_SHOWN;
use predicate_classes::classes::Category;
use predicate_classes::key_predicates::KeyPredicate;
use std::alloc::{AllocError, Global};
use toml_spans::Span;

/// The parts of a manifest that a diagnostic on a key points to besides the key.
#[derive(Drop)]
pub struct SecondarySpans {
    /// The spans of the names and pairs at fault, in the key, in bytes.
    pub facts: Vec<Span>,
    /// The names of the fields of the key that are at fault.
    pub fields: Vec<String>,
    /// The earlier key that is the same or equivalent.
    pub earlier: Option<String>,
}

impl SecondarySpans {
    /// Returns no parts.
    pub fn nothing(alloc: Global) -> SecondarySpans
        ensures { PointsToNothing result }
    {
        SecondarySpans {
            facts: Vec::new(alloc),
            fields: Vec::new(alloc),
            earlier: None,
        }
    }
}

/// Returns which names and pairs the diagnostic of this lint is about.
fn choice_of(code: KeyLint) -> Option<Choice>
    ensures { result ≡ choice_of code }
{
    match code {
        KeyLint::UnknownFact => Some(Choice::OfCategory(Category::Mistaken)),
        KeyLint::Unsupported => Some(Choice::OfCategory(Category::Unsupported)),
        KeyLint::Custom => Some(Choice::OfCategory(Category::Custom)),
        KeyLint::ReadOtherwise => Some(Choice::Literal),
        _ => None,
    }
}

/// Returns the spans of these names and pairs, where they are known.
fn spans_in(alloc: Global, predicates: &[KeyPredicate<'_>]) -> Result<Vec<Span>, AllocError>
    ensures { IfOk result (λ spans. spans.items ≡ spans_in predicates.now) }
{
    let mut spans = Vec::new(alloc);
    'predicates: for each in predicates {
        if let Some(span) = each.span {
            spans.push(span)?;
        }
    }
    Ok(spans)
}

/// Returns the spans of the names and pairs that the diagnostic of this lint is about: of the first ones, each where it
/// first occurs.
fn facts_at_fault(
    alloc: Global,
    predicates: &[KeyPredicate<'_>],
    code: KeyLint,
) -> Result<Vec<Span>, AllocError>
    ensures { IfOk result (λ spans. spans.items ≡ spans_of (choice_of code) predicates.now) }
{
    let Some(choice) = choice_of(code) else {
        return Ok(Vec::new(alloc));
    };
    let at_fault = chosen(alloc, predicates, choice)?;
    let mut spans = spans_in(alloc, &at_fault)?;
    spans.truncate(MAX_SHOWN);
    Ok(spans)
}

/// Returns the names of the fields that the diagnostic of this lint is about.
fn fields_at_fault(
    alloc: Global,
    key: &AnalysedKey<'_>,
    code: KeyLint,
) -> Result<Vec<String>, AllocError>
    ensures { IfOk result
        (λ fields. map (λ s. string_bytes s) fields.items ≡ fields_of code (data_at key.now.read.now.value)) }
{
    match (code, key.read.value) {
        (KeyLint::NoTable, Some(value)) => non_table_fields(alloc, value),
        _ => Ok(Vec::new(alloc)),
    }
}

/// Returns the earlier key, if the diagnostic of this lint compares two keys.
fn earlier_of(alloc: Global, other: &str, code: KeyLint) -> Result<Option<String>, AllocError>
    ensures { IfOk result (PointsToKey code other.now) }
{
    match code {
        KeyLint::Same | KeyLint::Equivalent => Ok(Some(String::from_str(alloc, other)?)),
        _ => Ok(None),
    }
}

/// Returns the parts that the diagnostic of this lint points to. `other` is the earlier key that is the same or
/// equivalent. Fails if memory is refused.
pub fn secondary_spans(
    alloc: Global,
    key: &AnalysedKey<'_>,
    other: &str,
    code: KeyLint,
) -> Result<SecondarySpans, AllocError>
    ensures parts { IfOk result (PointsTo code key.now) }
    ensures earlier { IfOk result (λ found. PointsToKey code other.now found.earlier) }
{
    Ok(SecondarySpans {
        facts: facts_at_fault(alloc, &key.predicates, code)?,
        fields: fields_at_fault(alloc, key, code)?,
        earlier: earlier_of(alloc, other, code)?,
    })
}
