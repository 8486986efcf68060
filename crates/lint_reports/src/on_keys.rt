//! The diagnostics for findings on keys, and for what is in a wrong place.

use diagnostics::{Diagnostic, Label, default_level};
use manifest_lints_findings::{Children, Finding, Lint, Report, Site, TableDiagnostic};
use manifests::key_locations::{Location, SourceMap};
use std::alloc::{AllocError, Global};
use toml_spans::Span;

/// The text for the place of the key with which a later one is compared.
const EARLIER: &str = "earlier key";

/// Returns the key that a finding is about, if there is one.
fn key_text(
    alloc: Global,
    report: &Report<'_>,
    finding: &Finding,
) -> Result<Option<String>, AllocError> {
    let Some(place) = finding.key else {
        return Ok(None);
    };
    match report.keys.get(place) {
        Some(key) => Ok(Some(String::from_str(alloc, key.text)?)),
        None => Ok(None),
    }
}

/// Returns the place of a key without its quotes, or with them if it is not known otherwise.
fn whole_key(
    alloc: Global,
    locations: &SourceMap,
    key: &str,
) -> Result<Option<Location>, AllocError> {
    let whole = Span {
        start: 0,
        end: key.len(),
    };
    match locations.location_of_part(alloc, key, whole)? {
        Some(at) => Ok(Some(at)),
        None => locations.location_in_key(alloc, key),
    }
}

/// Adds the places of parts of a key that are known.
fn add_parts(
    alloc: Global,
    locations: &SourceMap,
    key: &str,
    parts: &[Span],
    found: &mut Vec<Location>,
) -> Result<(), AllocError> {
    for part in parts {
        if let Some(at) = locations.location_of_part(alloc, key, *part)? {
            found.push(at)?;
        }
    }
    Ok(())
}

/// Adds the places of fields of a key that are known.
fn add_fields(
    alloc: Global,
    locations: &SourceMap,
    key: &str,
    fields: &[String],
    found: &mut Vec<Location>,
) -> Result<(), AllocError> {
    for field in fields {
        if let Some(at) = locations.location_of_field(alloc, key, field.as_str())? {
            found.push(at)?;
        }
    }
    Ok(())
}

/// Adds the place of a whole key, unless there is a place.
fn add_whole(
    alloc: Global,
    locations: &SourceMap,
    key: &str,
    found: &mut Vec<Location>,
) -> Result<(), AllocError> {
    if !found.is_empty() {
        return Ok(());
    }
    if let Some(at) = whole_key(alloc, locations, key)? {
        found.push(at)?;
    }
    Ok(())
}

/// Adds the place of the error in a rejected key.
fn add_error(
    alloc: Global,
    locations: &SourceMap,
    key: &str,
    finding: &Finding,
    found: &mut Vec<Location>,
) -> Result<(), AllocError> {
    match &finding.span {
        Some(span) => {
            let part = Span {
                start: span.start,
                end: span.end,
            };
            add_parts(alloc, locations, key, &[part], found)
        }
        None => Ok(()),
    }
}

/// Returns the places that a finding on a key points to: names and pairs, fields, or an error, and else the key.
fn places_of(
    alloc: Global,
    locations: &SourceMap,
    key: &str,
    finding: &Finding,
) -> Result<Vec<Location>, AllocError> {
    let mut found = Vec::new(alloc);
    add_parts(alloc, locations, key, &finding.pointed.facts, &mut found)?;
    add_fields(alloc, locations, key, &finding.pointed.fields, &mut found)?;
    add_error(alloc, locations, key, finding, &mut found)?;
    add_whole(alloc, locations, key, &mut found)?;
    found.sort_by_key(|at| at.span.start)?;
    Ok(found)
}

/// Returns the places that a finding points to. One without a key points to `target`.
fn places_in(
    alloc: Global,
    locations: &SourceMap,
    key: &Option<String>,
    finding: &Finding,
) -> Result<Vec<Location>, AllocError> {
    if let Some(key) = key {
        return places_of(alloc, locations, key.as_str(), finding);
    }
    let mut found = Vec::new(alloc);
    if let Some(at) = locations.target {
        found.push(at)?;
    }
    Ok(found)
}

/// Returns the label of the earlier key with which a finding compares the key.
fn label_of(
    alloc: Global,
    locations: &SourceMap,
    finding: &Finding,
) -> Result<Option<Label>, AllocError> {
    let Some(earlier) = &finding.pointed.earlier else {
        return Ok(None);
    };
    match whole_key(alloc, locations, earlier.as_str())? {
        Some(at) => Ok(Some(Label { at, text: EARLIER })),
        None => Ok(None),
    }
}

/// Returns the place of the whole key, with its quotes, if there is one and its place is known.
fn key_at(
    alloc: Global,
    locations: &SourceMap,
    key: &Option<String>,
) -> Result<Option<Location>, AllocError> {
    match key {
        Some(key) => locations.location_in_key(alloc, key.as_str()),
        None => Ok(None),
    }
}

/// Returns the later places of a key, if there is one, and a suggestion for it.
fn key_again(
    alloc: Global,
    locations: &SourceMap,
    key: &Option<String>,
    is_suggested: bool,
) -> Result<Vec<Location>, AllocError> {
    match key {
        Some(key) if is_suggested => locations.later_locations_of_key(alloc, key.as_str()),
        _ => Ok(Vec::new(alloc)),
    }
}

/// Returns a copy of a text, if there is one.
fn copied(text: &Option<String>) -> Result<Option<String>, AllocError> {
    match text {
        Some(text) => Ok(Some(text.clone()?)),
        None => Ok(None),
    }
}

/// Returns a copy of notes and helps.
fn copied_children(children: &Children) -> Result<Children, AllocError> {
    Ok(Children {
        notes: children.notes.clone()?,
        helps: children.helps.clone()?,
    })
}

/// Returns the diagnostic for a finding of a report on a manifest. Fails if memory is refused.
pub fn diagnostic_of(
    alloc: Global,
    locations: &SourceMap,
    report: &Report<'_>,
    finding: &Finding,
) -> Result<Diagnostic, AllocError> {
    let lint = Lint::Key(finding.code);
    let key = key_text(alloc, report, finding)?;
    let primary = places_in(alloc, locations, &key, finding)?;
    let label = label_of(alloc, locations, finding)?;
    let key_at = key_at(alloc, locations, &key)?;
    let also_at = key_again(alloc, locations, &key, finding.suggestion.is_some())?;
    Ok(Diagnostic {
        lint: Some(lint),
        level: default_level(lint, finding.level),
        subject: String::from_str(alloc, "target")?,
        key,
        message: finding.message.clone()?,
        children: copied_children(&finding.children)?,
        primary,
        label,
        key_at,
        also_at,
        suggestion: copied(&finding.suggestion)?,
        span: finding.span.as_ref().map(|span| (span.start, span.end)),
    })
}

/// Returns the place of what is at fault, if it is known. `key` is the key that the diagnostic is about.
fn place_of_site(
    alloc: Global,
    locations: &SourceMap,
    key: &str,
    site: &Site,
) -> Result<Option<Location>, AllocError> {
    match site {
        Site::Named(path) => Ok(locations.location_of_path(path.as_str())),
        Site::Field(key, field) => locations.location_of_field(alloc, key.as_str(), field.as_str()),
        Site::InKey(Some(part)) => locations.location_of_part(alloc, key, *part),
        Site::InKey(None) => Ok(None),
    }
}

/// Returns the places of what is at fault, or else of the key.
fn places_of_wrong(
    alloc: Global,
    locations: &SourceMap,
    wrong: &TableDiagnostic,
) -> Result<Vec<Location>, AllocError> {
    let mut found = Vec::new(alloc);
    let key = match &wrong.key {
        Some(key) => key.as_str(),
        None => "",
    };
    if let Some(at) = place_of_site(alloc, locations, key, &wrong.site)? {
        found.push(at)?;
    }
    if wrong.key.is_some() {
        add_whole(alloc, locations, key, &mut found)?;
    }
    Ok(found)
}

/// Returns the later places of what is at fault, if there are any.
fn site_again(
    alloc: Global,
    locations: &SourceMap,
    site: &Site,
) -> Result<Vec<Location>, AllocError> {
    match site {
        Site::Named(path) => locations.later_locations_of_path(alloc, path.as_str()),
        Site::Field(key, field) => {
            let path = locations.path_of_field(alloc, key.as_str(), field.as_str())?;
            locations.later_locations_of_path(alloc, path.as_str())
        }
        Site::InKey(_) => Ok(Vec::new(alloc)),
    }
}

/// Returns the place of what a suggestion replaces, the key or else the name at fault, and the later places of that.
fn replaced_by(
    alloc: Global,
    locations: &SourceMap,
    wrong: &TableDiagnostic,
) -> Result<(Option<Location>, Vec<Location>), AllocError> {
    let is_suggested = wrong.suggestion.is_some();
    if wrong.key.is_some() || !is_suggested {
        let at = key_at(alloc, locations, &wrong.key)?;
        return Ok((at, key_again(alloc, locations, &wrong.key, is_suggested)?));
    }
    let at = place_of_site(alloc, locations, "", &wrong.site)?;
    Ok((at, site_again(alloc, locations, &wrong.site)?))
}

/// Returns a text of the program as an owned one.
fn owned(alloc: Global, text: Option<&str>) -> Result<Option<String>, AllocError> {
    match text {
        Some(text) => Ok(Some(String::from_str(alloc, text)?)),
        None => Ok(None),
    }
}

/// Returns the diagnostic for a name in a wrong place. Fails if memory is refused.
pub fn diagnostic_of_misplaced(
    alloc: Global,
    locations: &SourceMap,
    wrong: &TableDiagnostic,
) -> Result<Diagnostic, AllocError> {
    let (key_at, also_at) = replaced_by(alloc, locations, wrong)?;
    Ok(Diagnostic {
        lint: Some(wrong.lint),
        level: default_level(wrong.lint, wrong.level),
        subject: wrong.subject.clone()?,
        key: copied(&wrong.key)?,
        message: wrong.message.clone()?,
        children: copied_children(&wrong.children)?,
        primary: places_of_wrong(alloc, locations, wrong)?,
        label: None,
        key_at,
        also_at,
        suggestion: owned(alloc, wrong.suggestion)?,
        span: None,
    })
}
