//! The diagnostics on the keys of a manifest.

ghost use Rattle.std.specs.Prelude.{◌≡◌, ◌<◌, ◌≤◌, ◌+◌, ◌++◌, IfOk, OnOk, IfSome, List, [], map, length, get_or};
ghost use Rattle.std.specs.List.{All};
ghost use Rattle.manifests.specs.Declarations.{DeclaredEntry, IsDeclaredBy, declarations_of};
ghost use Rattle.manifests.specs.Entries.{Entry};
ghost use Rattle.manifest_lints_findings.specs.Spells.{IsRead, entry_read};
ghost use Rattle.manifest_lints.specs.CheckedKeys.{applicable_codes};
ghost use Rattle.manifest_lints.specs.Reports.{told_mark, told_marks, left_open, AddsFindings};
ghost use Rattle.manifest_lints.specs.Sames.{named_place};
ghost use Rattle.toml.specs.View.{table_view};
ghost use Rattle.manifest_lints.specs.Reports.{entry_of, AreFindingsOn, AreFindings, IsReport};
ghost use Rattle.manifests.specs.Tables.{target_of};

use crate::checked_keys::{CheckedKey, LintContext, check_key};
use crate::earlier::{Earlier, Keys, is_too_much};
use exact_answers::{FactConstraints, ONE_VALUED, family_rule};
use manifest_lints_findings::findings::target_is_no_table;
use manifest_lints_findings::making::finding_on;
use manifest_lints_findings::readings::ReadKey;
use manifest_lints_findings::{Finding, KEY_LINTS, KeyLint, KnownFacts, Report};
use manifests::document::Document;
use manifests::{ExpectedCfgs, TargetKey, TargetValue};
use std::alloc::{AllocError, Global};

/// Returns the earlier key that is the same or equivalent, or the empty text if there is none.
fn earlier_key<'a>(read: &'a [ReadKey<'a>], earlier: Earlier) -> &'a str
    ensures { IfSome (named_place earlier) (λ n. n < length read.now → (d : Entry)
        → result.now ≡ (get_or (map entry_read read.now) n d).0) }
{
    match earlier {
        Earlier::Same(first) | Earlier::Equivalent(first) => key_at(read, first),
        Earlier::Unlike | Earlier::Undecided => "",
    }
}

/// Returns the key at an index, or the empty text if there is none.
fn key_at<'a>(read: &'a [ReadKey<'a>], place: usize) -> &'a str
    ensures { place < length read.now → (d : Entry) → result.now ≡ (get_or (map entry_read read.now) place d).0 }
{
    match read.get(place) {
        Some(read) => read.text,
        None => "",
    }
}

/// Appends the diagnostic of this lint on a key, if it is reported.
#[tactic(auto, using(crate::proofs::Reports::one_told, crate::proofs::Reports::none_told))]
fn add_finding(
    alloc: Global,
    known_facts: &KnownFacts,
    checked: &CheckedKey<'_>,
    other: &str,
    code: KeyLint,
    findings: &mut Vec<Finding>,
) -> Result<(), AllocError>
    ensures { OnOk result (AddsFindings (told_mark checked.now.key.place (applicable_codes checked.now) code) other.now
        checked.now.key findings.old.items findings.new.items) }
{
    if !checked.is_reported(code) {
        return Ok(());
    }
    let finding = finding_on(alloc, known_facts, &checked.key, other, code)?;
    findings.push(finding)?;
    Ok(())
}

/// Appends the diagnostics on a key that are reported, in the order of the lints.
fn add_findings(
    alloc: Global,
    known_facts: &KnownFacts,
    checked: &CheckedKey<'_>,
    other: &str,
    findings: &mut Vec<Finding>,
) -> Result<(), AllocError>
    ensures { OnOk result (AddsFindings (told_marks checked.now.key.place (applicable_codes checked.now)) other.now
        checked.now.key findings.old.items findings.new.items) }
{
    'codes: for code in KEY_LINTS {
        add_finding(alloc, known_facts, checked, other, code, findings)?;
    }
    Ok(())
}

/// Appends the index of a key if an answer about it is not known.
fn note_undecided(checked: &CheckedKey<'_>, undecided: &mut Vec<usize>) -> Result<(), AllocError>
    ensures { OnOk result
        (undecided.new.items ≡ undecided.old.items ++ left_open checked.now.key.place checked.now.answers.is_open) }
{
    if checked.answers.is_open {
        undecided.push(checked.key.place)?;
    }
    Ok(())
}

/// Parses the keys.
fn read_keys<'a>(alloc: Global, keys: &[TargetKey<'a>]) -> Result<Vec<ReadKey<'a>>, AllocError>
    ensures keys { IfOk result (λ read. map entry_read read.items ≡ map entry_of keys.now) }
    ensures read { IfOk result (λ read. All IsRead read.items) }
{
    let mut read = Vec::new(alloc);
    'keys: for key in keys {
        read.push(ReadKey::of(alloc, key)?)?;
    }
    Ok(read)
}

/// Returns the number of bytes of some keys and of one more, or the greatest number.
fn bytes_with(bytes: usize, text: &str) -> usize
    ensures { result ≤ bytes + length text.now }
{
    bytes.saturating_add(text.len())
}

/// Returns the diagnostics on the parsed keys, and the indexes of the keys about which an answer is not known.
fn findings_on<'a>(
    alloc: Global,
    known_facts: &KnownFacts,
    context: &LintContext<'a>,
    read: &'a [ReadKey<'a>],
) -> Result<(Vec<Finding>, Vec<usize>), AllocError>
    ensures { All IsRead read.now
        → IfOk result (λ r. AreFindingsOn context.now.known.now (declarations_of context.now.declared.now)
        (map entry_read read.now) r.0.items r.1.items) }
{
    let mut findings = Vec::new(alloc);
    let mut undecided = Vec::new(alloc);
    let mut before = Keys::new(alloc);
    let mut bytes = 0;
    'keys: for (place, key) in read.iter().enumerate() {
        bytes = bytes_with(bytes, key.text);
        let context = LintContext {
            declared: context.declared,
            known: context.known,
            is_too_much: is_too_much(place, bytes),
        };
        let checked = check_key(alloc, &context, place, key, &mut before)?;
        let other = earlier_key(read, checked.answers.earlier);
        note_undecided(&checked, &mut undecided)?;
        add_findings(alloc, known_facts, &checked, other, &mut findings)?;
    }
    Ok((findings, undecided))
}

/// Returns the diagnostics on the keys of a manifest's table.
fn report_on<'a>(
    alloc: Global,
    manifest: &toml::Table,
    keys: &[TargetKey<'a>],
    known_facts: &KnownFacts,
) -> Result<Report<'a>, AllocError>
    ensures keys { IfOk result (λ r. map entry_read r.keys.items ≡ map entry_of keys.now) }
    ensures read { IfOk result (λ r. All IsRead r.keys.items) }
    ensures findings { IfOk result (λ r. (ds : List DeclaredEntry)
        × IsDeclaredBy (table_view manifest.now) ds
        × AreFindings ds (map entry_read r.keys.items) r.findings.items r.undecided.items) }
{
    let rule = family_rule(alloc)?;
    let known = FactConstraints {
        facts: &[],
        complete: &[],
        single: ONE_VALUED,
        assumed: &rule,
    };
    let declared = ExpectedCfgs::of(alloc, manifest)?;
    let context = LintContext {
        declared: &declared,
        known: &known,
        is_too_much: false,
    };
    let read = read_keys(alloc, keys)?;
    let (findings, undecided) = findings_on(alloc, known_facts, &context, &read)?;
    Ok(Report {
        keys: read,
        findings,
        undecided,
    })
}

/// Returns the report with these diagnostics on a manifest without a table `target`.
fn report_of<'a>(alloc: Global, findings: Vec<Finding>) -> Report<'a>
    ensures keys { result.keys.items ≡ [] }
    ensures findings { result.findings.items ≡ findings.items }
    ensures undecided { result.undecided.items ≡ [] }
{
    Report {
        keys: Vec::new(alloc),
        findings,
        undecided: Vec::new(alloc),
    }
}

/// Returns the diagnostics on a manifest: on the keys of `target`, in the order in which they first appear if the
/// document knows it, or on a `target` that is not a table. A name or pair that the manifest declares as expected is
/// not reported as a custom fact. Fails if memory is refused.
pub fn lint<'a>(
    alloc: Global,
    document: &'a Document,
    known_facts: &KnownFacts,
) -> Result<Report<'a>, AllocError>
    ensures { IfOk result
        (λ r. IsReport (table_view document.now.table) (target_of (table_view document.now.table)) r) }
{
    match document.target_keys(alloc)? {
        TargetValue::Keys(keys) => report_on(alloc, &document.table, &keys, known_facts),
        TargetValue::Absent => Ok(report_of(alloc, Vec::new(alloc))),
        TargetValue::NoTable => {
            let mut findings = Vec::new(alloc);
            findings.push(target_is_no_table(alloc)?)?;
            Ok(report_of(alloc, findings))
        }
    }
}
