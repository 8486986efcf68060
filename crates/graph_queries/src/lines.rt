//! Parts of text output.

use crate::query::GraphQuery;
use cargo_metadata::{Kind, Package as Described};
use cargo_platform::{Platform, printable_excerpt};
use known_targets::TargetSet;
use std::alloc::{AllocError, Global};

/// Appends a part to a text. Unlike `push_str`, this function has no contract, so that its callers are proved in a
/// tenth of the time.
pub fn push(text: &mut String, part: &str) -> Result<(), AllocError> {
    text.push_str(part)
}

/// Appends a comma and a space, unless the part is the first one.
pub fn push_comma(text: &mut String, is_first: bool) -> Result<(), AllocError> {
    if is_first {
        return Ok(());
    }
    push(text, ", ")
}

/// Formats a text of the document for text output, as [`printable_excerpt`] does. The empty text becomes two quotes.
pub fn format_text(alloc: Global, text: &str) -> Result<String, AllocError> {
    if text.is_empty() {
        String::from_str(alloc, "\"\"")
    } else {
        printable_excerpt(alloc, text)
    }
}

/// Formats the name and the version of a package for text output.
pub fn format_package(alloc: Global, described: &Described<'_>) -> Result<String, AllocError> {
    let name = format_text(alloc, described.name)?;
    let version = format_text(alloc, described.version)?;
    format!(in alloc; "{name} {version}")
}

/// Formats targets: `nowhere` if there are none, `all` if these are the selected targets (see `GraphQuery::are_all`),
/// their names if targets were selected by name, and else their number.
pub fn format_targets(
    alloc: Global,
    targets: TargetSet,
    query: &GraphQuery<'_>,
) -> Result<String, AllocError> {
    if targets.is_empty() {
        return String::from_str(alloc, "nowhere");
    }
    if query.are_all(targets) {
        return String::from_str(alloc, "all");
    }
    if query.are_named {
        return joined_names(alloc, targets, query);
    }
    format_target_count(alloc, query.count_of(targets))
}

/// Formats a number of targets.
pub fn format_target_count(alloc: Global, count: usize) -> Result<String, AllocError> {
    if count == 1 {
        String::from_str(alloc, "1 target")
    } else {
        format!(in alloc; "{count} targets")
    }
}

/// Formats the names of targets, separated by commas.
pub fn joined_names(
    alloc: Global,
    targets: TargetSet,
    query: &GraphQuery<'_>,
) -> Result<String, AllocError> {
    let mut text = String::new(alloc);
    for name in query.names(alloc, targets)? {
        let is_first = text.is_empty();
        push_comma(&mut text, is_first)?;
        let name = format_text(alloc, name)?;
        push(&mut text, name.as_str())?;
    }
    Ok(text)
}

/// Returns the name of a dependency kind.
pub fn kind_word(kind: Kind) -> &'static str {
    match kind {
        Kind::Normal => "normal",
        Kind::Build => "build",
        Kind::Dev => "dev",
    }
}

/// Formats the canonical form of a condition for text output.
pub fn format_condition(alloc: Global, condition: &Platform) -> Result<String, AllocError> {
    let text = format!(in alloc; "{condition}")?;
    printable_excerpt(alloc, text.as_str())
}
