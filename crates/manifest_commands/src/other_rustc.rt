//! The diagnostics that depend on targets and facts, decided for another rustc.

use crate::declaring::declare;
use cargo_platform::{Platform, values_of};
use former_names::former_target;
use known_targets::KnownTarget;
use manifest_answers::given_targets::GivenTargets;
use manifest_lints::{KeyLint, Report};
use manifest_lints_findings::readings::KeyMeaning;
use manifest_lints_findings::{Children, Finding, SecondarySpans};
use manifests::ExpectedCfgs;
use predicate_classes::key_predicates::{key_predicates, open_names};
use std::alloc::{AllocError, Global};
use toml::Table;

/// The largest number of open names in a condition for which it is decided where the condition is true.
const MANY: usize = 4096;

/// Another rustc, with its targets.
#[derive(Drop)]
pub struct OtherRustc {
    given: GivenTargets,
    /// Its facts that no built-in target has, in the form of `rustc --print cfg`.
    facts: Vec<String>,
    /// The names of its targets that rustc knew only until some release.
    former: Vec<String>,
}

/// The condition of a key, which the other rustc judges.
#[derive(Clone, Copy, Drop)]
struct Judged<'a> {
    /// The index of the key.
    place: usize,
    condition: &'a Platform,
    /// The lints that other diagnostics on the key replace.
    hides: Hiding,
}

impl OtherRustc {
    /// Returns the rustc that knows these targets.
    pub fn of(alloc: Global, given: GivenTargets) -> Result<OtherRustc, AllocError> {
        let facts = given.new_facts(alloc)?;
        let former = formers_among(alloc, &given)?;
        Ok(OtherRustc {
            given,
            facts,
            former,
        })
    }

    /// Returns its targets.
    pub fn targets(&self) -> &GivenTargets {
        &self.given
    }

    /// Replaces the diagnostics of a report that depend on the built-in targets by those for its own targets.
    fn judge(
        &self,
        alloc: Global,
        report: &mut Report<'_>,
        declared: &ExpectedCfgs<'_>,
    ) -> Result<(), AllocError> {
        let named = self.named(alloc, report)?;
        report.findings.retain(|it| stays(it, &named));
        let mut added = Vec::new(alloc);
        let hiding = hiding_of(alloc, report)?;
        for (place, key) in report.keys.iter().enumerate() {
            if let KeyMeaning::Condition(condition) = &key.spelled {
                let hides = hiding.get(place).copied().unwrap_or(Hiding::NOTHING);
                let judged = Judged {
                    place,
                    condition,
                    hides,
                };
                self.add(alloc, &mut added, judged, declared)?;
            }
        }
        for it in added {
            report.findings.push(it)?;
        }
        report.findings.sort_by_key(|it| (it.key, it.code))
    }

    /// Returns for each key of a report whether it is the name of a target.
    fn named(&self, alloc: Global, report: &Report<'_>) -> Result<Vec<bool>, AllocError> {
        let mut named = Vec::new(alloc);
        for key in &report.keys {
            named.push(self.given.has_name(key.text))?;
        }
        Ok(named)
    }

    /// Adds the diagnostics on the condition of a key.
    fn add(
        &self,
        alloc: Global,
        added: &mut Vec<Finding>,
        judged: Judged<'_>,
        declared: &ExpectedCfgs<'_>,
    ) -> Result<(), AllocError> {
        let Judged {
            place,
            condition,
            hides,
        } = judged;
        let is_unknown = self.lacks(condition);
        if let Platform::Name(name) = condition {
            if is_unknown {
                added.push(self.unknown(alloc, place, name.as_str())?)?;
            }
        }
        let (none, each) = self.nowhere_and_everywhere(alloc, condition, declared)?;
        let file = self.given.file.as_str();
        if none && !hides.nowhere && !is_unknown {
            let message = format!(in alloc;
                "no target of {file} has facts that make the condition true"
            )?;
            added.push(finding(alloc, place, KeyLint::Nowhere, message))?;
        }
        if each && !hides.everywhere {
            let message = format!(in alloc; "the condition is true on every target of {file}")?;
            added.push(finding(alloc, place, KeyLint::Everywhere, message))?;
        }
        Ok(())
    }

    /// Returns whether a condition is the name of a built-in target that none of its own targets has.
    fn lacks(&self, condition: &Platform) -> bool {
        match condition {
            Platform::Name(name) => {
                !self.given.has_name(name.as_str()) && KnownTarget::by_name(name.as_str()).is_some()
            }
            Platform::Cfg(_) => false,
        }
    }

    /// Returns the diagnostic that no target has the name of the key at this index.
    fn unknown(&self, alloc: Global, place: usize, name: &str) -> Result<Finding, AllocError> {
        let file = self.given.file.as_str();
        let message = format!(in alloc; "no target of {file} has this name")?;
        let mut finding = finding(alloc, place, KeyLint::UnknownTarget, message);
        if let Some(nearest) = self.given.nearest(alloc, name)? {
            let help = format!(in alloc; "did you mean `{nearest}`?")?;
            finding.children = Children::of_help(alloc, help)?;
            finding.suggestion = Some(String::from_str(alloc, nearest)?);
        }
        Ok(finding)
    }

    /// Returns whether the condition is true on none and on all of its targets, whatever the open names are.
    fn nowhere_and_everywhere(
        &self,
        alloc: Global,
        condition: &Platform,
        declared: &ExpectedCfgs<'_>,
    ) -> Result<(bool, bool), AllocError> {
        let mut predicates = key_predicates(alloc, &values_of(alloc, condition)?, &[], declared)?;
        let facts = predicates.len();
        predicates.retain(|it| !self.given.has(it.fact));
        let open = open_names(alloc, &predicates)?;
        if open.len() > MANY {
            return Ok((false, false));
        }
        self.given
            .nowhere_and_everywhere(alloc, condition, &open, facts)
    }
}

/// Returns the names of these targets that rustc knew only until some release.
fn formers_among(alloc: Global, given: &GivenTargets) -> Result<Vec<String>, AllocError> {
    let mut names = Vec::new(alloc);
    for name in given.names(alloc)? {
        if former_target(name).is_some() {
            names.push(String::from_str(alloc, name)?)?;
        }
    }
    Ok(names)
}

/// Returns the names of targets that rustc knew only until some release and that the other rustc knows, if there is
/// one.
pub fn former_targets(other: Option<&OtherRustc>) -> &[String] {
    match other {
        Some(other) => &other.former,
        None => &[],
    }
}

/// Adds the facts of the other rustc, if there is one, to those that a manifest declares.
pub fn add_declared_facts(
    alloc: Global,
    other: Option<&OtherRustc>,
    manifest: &mut Table,
) -> Result<(), AllocError> {
    match other {
        Some(other) => declare(alloc, manifest, &other.facts),
        None => Ok(()),
    }
}

/// Replaces the diagnostics of a report that depend on the built-in targets by those for the other rustc, if there is
/// one.
pub fn replace_diagnostics(
    alloc: Global,
    other: Option<&OtherRustc>,
    manifest: &Table,
    report: &mut Report<'_>,
) -> Result<(), AllocError> {
    match other {
        Some(other) => other.judge(alloc, report, &ExpectedCfgs::of(alloc, manifest)?),
        None => Ok(()),
    }
}

/// Returns whether a diagnostic stays in the report. `named` says for each key whether it is the name of a target.
fn stays(finding: &Finding, named: &[bool]) -> bool {
    match (finding.code, finding.key) {
        (KeyLint::Nowhere | KeyLint::Everywhere, _) => false,
        (KeyLint::UnknownTarget, Some(place)) => !named.get(place).copied().unwrap_or(false),
        _ => true,
    }
}

/// The lints that the diagnostics on a key hide.
#[derive(Clone, Copy, Drop)]
struct Hiding {
    nowhere: bool,
    everywhere: bool,
}

impl Hiding {
    /// Nothing is hidden, as by a key without diagnostics.
    const NOTHING: Hiding = Hiding {
        nowhere: false,
        everywhere: false,
    };
}

/// Returns for each key of a report which lints its diagnostics hide.
fn hiding_of(alloc: Global, report: &Report<'_>) -> Result<Vec<Hiding>, AllocError> {
    let mut hiding = vec![in alloc; Hiding::NOTHING; report.keys.len()]?;
    for it in &report.findings {
        let Some(place) = it.key else {
            continue;
        };
        if let Some(hides) = hiding.get_mut(place) {
            hides.nowhere |= KeyLint::Nowhere.row().hidden_by.contains(&it.code);
            hides.everywhere |= KeyLint::Everywhere.row().hidden_by.contains(&it.code);
        }
    }
    Ok(hiding)
}

/// Returns a diagnostic on the key at this index, without a suggestion.
fn finding(alloc: Global, place: usize, code: KeyLint, message: String) -> Finding {
    Finding {
        level: code.row().level,
        code,
        key: Some(place),
        message,
        children: Children::none(alloc),
        suggestion: None,
        span: None,
        snippet: None,
        pointed: SecondarySpans::nothing(alloc),
    }
}
