//! The names and pairs in a key outside of a manifest that no known target has.

ghost use Rattle.std.specs.Prelude.{◌≡◌, ◌++◌, IfOk, OnOk, []};
ghost use Rattle.cargo_platform.specs.Trees.{condition_of};
ghost use Rattle.manifest_lints_findings.specs.Known.{holds_alone};
ghost use Rattle.manifest_lints_findings.specs.Marks.{marks};
ghost use Rattle.manifest_lints_findings.specs.Unknown.{mark_where, AreUnknown};

use crate::codes::KeyLint;
use crate::findings::Finding;
use crate::known_keys::AnalysedKey;
use crate::making::finding_on;
use crate::readings::ReadKey;
use crate::suggestions::KnownFacts;
use cargo_platform::Platform;
use std::alloc::{AllocError, Global};

/// Returns the diagnostics on a condition outside a manifest that need no search over sets of facts, in the order of
/// the lints: a name that no known target has, something that is taken for a fact of rustc's, and something that only
/// `--cfg` or unstable features set. Fails if memory is refused.
pub fn lint_condition(
    alloc: Global,
    known_facts: &KnownFacts,
    key: &str,
    condition: Platform,
) -> Result<Vec<Finding>, AllocError>
    ensures { IfOk result (λ fs. AreUnknown (condition_of condition) (marks fs.items)) }
{
    let read = ReadKey::alone(key, condition);
    let known = AnalysedKey::alone(alloc, &read)?;
    let mut findings = Vec::new(alloc);
    add_where(
        alloc,
        known_facts,
        &known,
        KeyLint::UnknownTarget,
        &mut findings,
    )?;
    add_where(
        alloc,
        known_facts,
        &known,
        KeyLint::UnknownFact,
        &mut findings,
    )?;
    add_where(alloc, known_facts, &known, KeyLint::Custom, &mut findings)?;
    Ok(findings)
}

/// Appends the diagnostic of this lint, if the lint applies to the key.
fn add_where(
    alloc: Global,
    known_facts: &KnownFacts,
    key: &AnalysedKey<'_>,
    code: KeyLint,
    findings: &mut Vec<Finding>,
) -> Result<(), AllocError>
    ensures { OnOk result (marks findings.new.items
        ≡ marks findings.old.items ++ mark_where key.now.place (holds_alone key.now code) code) }
{
    if key.holds(code) {
        findings.push(finding_on(alloc, known_facts, key, "", code)?)?;
    }
    Ok(())
}
