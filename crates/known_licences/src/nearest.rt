//! Which identifier is meant by a misspelled one.

ghost use Rattle.std.specs.Prelude.{◌≡◌, IfOk, IfSome};
ghost use Rattle.known_licences.specs.Identifiers.{names_of, licences, exceptions};
ghost use Rattle.known_licences.specs.Nearest.{edits, IsNear, IsOffered, IsOneOf};

use crate::identifiers::{exceptions, first_licences, other_licences};
use std::alloc::{AllocError, Global};
use strsim::osa_distance;

/// A listed identifier that is near a text, and how many edits turn the text into it.
#[derive(Clone, Copy, Drop)]
pub struct Near {
    pub name: &'static str,
    pub edits: usize,
}

/// Returns how many edits make `name` of `text`, whatever the case of ASCII letters. An edit inserts, deletes or
/// changes a character, or swaps two adjacent ones.
fn edits(alloc: Global, text: &str, name: &str) -> Result<usize, AllocError>
    ensures { IfOk result (λ count. count ≡ edits text.now name.now) }
{
    let text = text.to_ascii_lowercase(alloc)?;
    let name = name.to_ascii_lowercase(alloc)?;
    osa_distance(alloc, text.as_str(), name.as_str())
}

/// Returns the first of the names that need the fewest edits, if these are at most a third of the bytes of `text`.
fn nearest(alloc: Global, names: &[&'static str], text: &str) -> Result<Option<Near>, AllocError>
    ensures { IfOk result (λ found. IfSome found (IsOffered (names_of names.now) text.now)) }
{
    let mut found = None;
    let mut least = text.len() / 3;
    'names: for name in names {
        let count = edits(alloc, text, name)?;
        if count < least || count == least && found.is_none() {
            least = count;
            found = Some(Near {
                name: *name,
                edits: count,
            });
        }
    }
    Ok(found)
}

/// Returns the one of two that needs fewer edits: the first one if both need as many.
fn nearer(first: Option<Near>, other: Option<Near>) -> Option<Near>
    ensures { IfSome result (λ near. IsOneOf near first other) }
{
    match (first, other) {
        (Some(a), Some(b)) => Some(if b.edits < a.edits { b } else { a }),
        (Some(a), None) => Some(a),
        (None, found) => found,
    }
}

/// Returns the listed licence that is nearest to `text`, if at most a third of its bytes have to change for it.
///
/// # Errors
///
/// Fails if an allocation fails.
pub fn nearest_licence(alloc: Global, text: &str) -> Result<Option<&'static str>, AllocError>
    ensures { IfOk result (λ found. IfSome found (λ name. IsNear licences text.now name.now)) }
{
    let first = nearest(alloc, first_licences(), text)?;
    let other = nearest(alloc, other_licences(), text)?;
    match nearer(first, other) {
        Some(near) => Ok(Some(near.name)),
        None => Ok(None),
    }
}

/// Returns the listed exception that is nearest to `text`, if at most a third of its bytes have to change for it.
///
/// # Errors
///
/// Fails if an allocation fails.
pub fn nearest_exception(alloc: Global, text: &str) -> Result<Option<&'static str>, AllocError>
    ensures { IfOk result (λ found. IfSome found (λ name. IsNear exceptions text.now name.now)) }
{
    match nearest(alloc, exceptions(), text)? {
        Some(near) => Ok(Some(near.name)),
        None => Ok(None),
    }
}
