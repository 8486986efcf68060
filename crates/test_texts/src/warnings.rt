//! The warnings on conditions.

use crate::asked;
use cargo_platform::Platform;
use std::alloc::{AllocError, Global};
use test_rows::bars::add_text;
use test_rows::fields::Fields;
use test_rows::forms::word;
use test_rows::{Fault, trees};

const ON_NAME: (&str, &str) = (
    "Found `",
    "` in `target.'cfg(...)'.dependencies`. This value is not supported for selecting dependencies and will not work \
    as expected. To learn more visit \
    https://doc.rust-lang.org/cargo/reference/specifying-dependencies.html#platform-specific-dependencies",
);

const ON_FEATURE: &str =
    "Found `feature = ...` in `target.'cfg(...)'.dependencies`. This key is not supported for selecting \
    dependencies and will not work as expected. Use the [features] section instead: \
    https://doc.rust-lang.org/cargo/reference/features.html";

/// The warning that is in the list before the others.
const BEFORE: &str = "w";

/// Returns the answer to a row whose words are `fields`. `call` is the part of its kind after the dot.
pub fn answer(alloc: Global, call: &str, fields: &mut Fields<'_>) -> Result<String, Fault> {
    match call {
        "attributes" => of_attributes(alloc, fields),
        "target" => of_target(alloc, fields),
        "keywords" => of_keywords(alloc, fields),
        "keywords-read" => of_read_keywords(alloc, fields),
        _ => Err(Fault::Row("there is no such kind")),
    }
}

fn of_attributes(alloc: Global, fields: &mut Fields<'_>) -> Result<String, Fault> {
    let e = asked::expression(alloc, fields)?;
    attributes(alloc, &Platform::Cfg(e))
}

fn of_target(alloc: Global, fields: &mut Fields<'_>) -> Result<String, Fault> {
    let p = Platform::Name(fields.text(alloc)?);
    let mut out = attributes(alloc, &p)?;
    out.push_str(", ")?;
    out.push_str(&keywords(alloc, &p, "-")?)?;
    Ok(out)
}

/// Returns the warnings on a tree that is made by hand.
fn of_keywords(alloc: Global, fields: &mut Fields<'_>) -> Result<String, Fault> {
    let path = fields.text(alloc)?;
    let e = trees::tree(alloc, fields)?;
    keywords(alloc, &Platform::Cfg(e), &path)
}

fn of_read_keywords(alloc: Global, fields: &mut Fields<'_>) -> Result<String, Fault> {
    let e = asked::expression(alloc, fields)?;
    keywords(alloc, &Platform::Cfg(e), "-")
}

/// Returns a list with one warning in it. What is added has to come after it, and nothing is added if memory is
/// lacking.
fn begun(alloc: Global) -> Result<Vec<String>, Fault> {
    let mut found = Vec::new(alloc);
    found.push(word(alloc, BEFORE)?).map_err(AllocError::from)?;
    Ok(found)
}

/// Returns the warnings that were added.
fn added(found: &[String]) -> Result<&[String], Fault> {
    match found {
        [first, rest @ ..] if first.as_str() == BEFORE => Ok(rest),
        _ => Err(Fault::Row("the warning before is gone")),
    }
}

/// Returns the result of a walk that was refused memory.
fn left_behind(found: &[String]) -> Fault {
    match found {
        [only] if only.as_str() == BEFORE => Fault::Memory,
        _ => Fault::Row("the list was left changed"),
    }
}

/// Returns the words of the warnings on attributes.
fn attributes(alloc: Global, p: &Platform) -> Result<String, Fault> {
    let mut found = begun(alloc)?;
    if p.check_cfg_attributes(alloc, &mut found).is_err() {
        return Err(left_behind(&found));
    }
    let mut out = String::new(alloc);
    for warning in added(&found)? {
        space(&mut out)?;
        add_attribute(&mut out, warning)?;
    }
    some(alloc, out)
}

fn space(out: &mut String) -> Result<(), AllocError> {
    if out.is_empty() {
        Ok(())
    } else {
        out.push(' ')
    }
}

fn some(alloc: Global, out: String) -> Result<String, Fault> {
    if out.is_empty() {
        Ok(word(alloc, "none")?)
    } else {
        Ok(out)
    }
}

fn named(warning: &str) -> Option<&str> {
    let (before, behind) = ON_NAME;
    warning.strip_prefix(before)?.strip_suffix(behind)
}

fn add_attribute(out: &mut String, warning: &str) -> Result<(), AllocError> {
    if warning == ON_FEATURE {
        return out.push_str("feature");
    }
    match named(warning) {
        Some(name) => out.push_str(name),
        None => add_text(out, warning),
    }
}

/// Returns the keywords of the warnings, each after what contains it.
fn keywords(alloc: Global, p: &Platform, path: &str) -> Result<String, Fault> {
    let mut found = begun(alloc)?;
    if p.check_cfg_keywords(alloc, &mut found, path).is_err() {
        return Err(left_behind(&found));
    }
    let mut out = String::new(alloc);
    for warning in added(&found)? {
        space(&mut out)?;
        add_keyword(alloc, &mut out, path, warning)?;
    }
    some(alloc, out)
}

fn add_keyword(
    alloc: Global,
    out: &mut String,
    path: &str,
    warning: &str,
) -> Result<(), AllocError> {
    for keyword in ["true", "false"] {
        let before = format!(in alloc; "[{path}] future-incompatibility: `cfg(")?;
        let behind = behind(alloc, keyword)?;
        let stated = warning
            .strip_prefix(before.as_str())
            .and_then(|rest| rest.strip_suffix(behind.as_str()));
        if let Some(printed) = stated {
            add_text(out, printed)?;
            out.push(' ')?;
            return out.push_str(keyword);
        }
    }
    add_text(out, warning)
}

/// Returns the text after the printed form in the warning on a keyword.
fn behind(alloc: Global, keyword: &str) -> Result<String, AllocError> {
    format!(in alloc;
        ")` is deprecated as `{keyword}` is a keyword and not an identifier \
        and should not have have been accepted in this position.\n | this was previously accepted by Cargo but is \
        being phased out; it will become a hard error in a future release!\n |\n | help: use raw-idents instead: \
        `cfg(r#{keyword})`"
    )
}
