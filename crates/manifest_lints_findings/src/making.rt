//! Makes the diagnostic of a lint on a key.

ghost use Rattle.std.specs.Prelude.{◌≡◌, IfOk, IfSome, Some, length, string_bytes};
ghost use Rattle.manifest_lints_findings.specs.Codes.{finding_level};
ghost use Rattle.manifest_lints_findings.specs.Marks.{mark};
ghost use Rattle.manifest_lints_findings.specs.Messages.{Shows, noted_texts, help_texts, said};
ghost use Rattle.manifest_lints_findings.specs.Pointed.{Names, PointsTo};
ghost use Rattle.manifest_lints_findings.specs.Texts.{Mentions};
ghost use Rattle.manifest_lints_findings.specs.Shown.{IsShownOn, IsMended};

use crate::codes::{KeyLint, Level};
use crate::findings::Finding;
use crate::known_keys::AnalysedKey;
use crate::messages::message_of;
use crate::notes_and_helps::children_of;
use crate::pointing::secondary_spans;
use crate::readings::KeyMeaning;
use crate::suggestions::{KnownFacts, suggestion_of};
use std::alloc::{AllocError, Global};

/// Returns the level of a diagnostic of this lint on a condition with `count` names and pairs.
fn level_of(code: KeyLint, count: usize) -> Level
    ensures { result ≡ finding_level code count }
{
    match code {
        KeyLint::Never => {
            if count == 0 {
                Level::Note
            } else {
                Level::Warning
            }
        }
        KeyLint::Always => {
            if count > 0 {
                Level::Warning
            } else {
                Level::Note
            }
        }
        _ => code.row().level,
    }
}

/// Returns the diagnostic of this lint on a key. `other` is the earlier key that is the same or equivalent. Fails if
/// memory is refused.
pub fn finding_on(
    alloc: Global,
    known_facts: &KnownFacts,
    key: &AnalysedKey<'_>,
    other: &str,
    code: KeyLint,
) -> Result<Finding, AllocError>
    ensures mark { IfOk result (λ f. mark f ≡ (Some key.now.place, code)) }
    ensures level { IfOk result (λ f. f.level ≡ finding_level code (length key.now.predicates.items)) }
    ensures named { IfOk result (λ f. Names code other.now f) }
    ensures pointed { IfOk result (λ f. PointsTo code key.now f.pointed) }
    ensures tells { IfOk result (λ f. Shows code key.now (string_bytes f.message)) }
    ensures notes { IfOk result (λ f. Mentions (noted_texts code key.now) (said f.children.notes.items)) }
    ensures helps { IfOk result
        (λ f. Mentions (help_texts code key.now f.suggestion) (said f.children.helps.items)) }
    ensures shown { IfOk result (λ f. IsShownOn code key.now f) }
    ensures suggestion { IfOk result (λ f. IfSome f.suggestion (λ s. IsMended code (string_bytes s))) }
{
    let suggestion = suggestion_of(alloc, known_facts, key, code)?;
    let message = message_of(alloc, key, other, code)?;
    let children = children_of(alloc, known_facts, key, &suggestion, code)?;
    let finding = Finding {
        level: level_of(code, key.predicates.len()),
        code,
        key: Some(key.place),
        message,
        children,
        suggestion,
        span: None,
        snippet: None,
        pointed: secondary_spans(alloc, key, other, code)?,
    };
    match (code, &key.read.spelled) {
        (KeyLint::Refused, KeyMeaning::Refused(error)) => Ok(Finding {
            span: error.span_in(key.read.text),
            snippet: error.snippet_in(alloc, key.read.text)?,
            ..finding
        }),
        _ => Ok(finding),
    }
}
