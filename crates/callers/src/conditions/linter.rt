//! A linter of keys.

ghost use Rattle.std.specs.Prelude.{◌≡◌, ◌++◌, IfOk, OnOk, map, string_bytes};
ghost use Rattle.cargo_platform.specs.Lines.{ended};
ghost use Rattle.callers.specs.Reports.{IsReport};

use cargo_platform::{Platform, ReadError};
use std::alloc::{AllocError, Global};

/// Appends the texts, one per line.
fn push_lines(report: &mut String, texts: &[String]) -> Result<(), AllocError>
    ensures { OnOk result (string_bytes report.new
        ≡ string_bytes report.old ++ ended (map (λ t. string_bytes t) texts.now)) }
{
    for text in texts {
        report.push_str(text)?;
        report.push_str("\n")?;
    }
    Ok(())
}

/// Returns the report on a key of this manifest: the condition in canonical form and Cargo's warnings about it, one per
/// line, or the line that says why the key is rejected.
pub fn lint(alloc: Global, manifest: &str, key: &str) -> Result<String, AllocError>
    ensures { IfOk result (λ report. IsReport manifest.now key.now (string_bytes report)) }
{
    let platform = match Platform::from_str(alloc, key) {
        Ok(platform) => platform,
        Err(ReadError::Parse(error)) => return format!(in alloc; "{error}\n"),
        Err(ReadError::Memory(error)) => return Err(error),
    };
    let mut warnings = Vec::new(alloc);
    platform.check_cfg_attributes(alloc, &mut warnings)?;
    platform.check_cfg_keywords(alloc, &mut warnings, manifest)?;
    let mut report = format!(in alloc; "{platform}\n")?;
    push_lines(&mut report, &warnings)?;
    Ok(report)
}
