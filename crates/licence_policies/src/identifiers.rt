//! Messages about identifiers of licences that are not in SPDX's licence list, or are deprecated there.

use cargo_platform::printable_excerpt;
use known_licences::{
    LIST_VERSION, exception, is_deprecated, licence, nearest_exception, nearest_licence,
};
use spdx_expressions::Licence;
use std::alloc::{AllocError, Global};

/// Returns whether an identifier names a licence that a document describes, and not one of a list.
fn is_reference(id: &str) -> bool {
    id.starts_with("LicenseRef-") || id.starts_with("DocumentRef-")
}

/// Returns whether SPDX's licence list has the identifiers of a licence, or a document describes the licence.
pub fn is_listed(of: &Licence) -> bool {
    let id = of.id.as_str();
    if !is_reference(id) && licence(id).is_none() {
        return false;
    }
    match &of.exception {
        Some(name) => exception(name.as_str()).is_some(),
        None => true,
    }
}

/// Returns the message that the list has no such licence or exception, with the one that may be meant.
fn unlisted_message(
    alloc: Global,
    id: &str,
    meant: Option<&'static str>,
) -> Result<String, AllocError> {
    let shown = printable_excerpt(alloc, id)?;
    let help = match meant {
        Some(name) => format!(in alloc; "; did you mean `{name}`?")?,
        None => String::new(alloc),
    };
    format!(in alloc; "`{shown}` is not in SPDX's licence list {LIST_VERSION}{help}")
}

/// Returns a message for the identifier and one for the exception of a licence, of each that is not in SPDX's licence
/// list. Fails if an allocation fails.
pub fn unlisted_messages(alloc: Global, of: &Licence) -> Result<Vec<String>, AllocError> {
    let mut messages = Vec::new(alloc);
    let id = of.id.as_str();
    if !is_reference(id) && licence(id).is_none() {
        let meant = nearest_licence(alloc, id)?;
        messages.push(unlisted_message(alloc, id, meant)?)?;
    }
    let Some(name) = &of.exception else {
        return Ok(messages);
    };
    let name = name.as_str();
    if exception(name).is_none() {
        let meant = nearest_exception(alloc, name)?;
        messages.push(unlisted_message(alloc, name, meant)?)?;
    }
    Ok(messages)
}

/// Returns a message if the identifier of a licence is deprecated, with the current one if that has the same name with
/// `-only` or `-or-later`. Fails if an allocation fails.
pub fn deprecated_message(alloc: Global, of: &Licence) -> Result<Option<String>, AllocError> {
    let id = of.id.as_str();
    if !is_deprecated(id) {
        return Ok(None);
    }
    let form = if of.or_later { "-or-later" } else { "-only" };
    let current = format!(in alloc; "{id}{form}")?;
    let help = match licence(current.as_str()) {
        Some(name) => format!(in alloc; "; use `{name}`")?,
        None => String::new(alloc),
    };
    let shown = printable_excerpt(alloc, id)?;
    let message = format!(in alloc;
        "`{shown}` is deprecated in SPDX's licence list {LIST_VERSION}{help}"
    )?;
    Ok(Some(message))
}
