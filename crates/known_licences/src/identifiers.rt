//! Looks identifiers up in the list.

ghost use Rattle.std.specs.Prelude.{◌≡◌, option_map, is_some};
ghost use Rattle.known_licences.specs.Identifiers.{names_of, listed, first_licences, other_licences};
ghost use Rattle.known_licences.specs.Identifiers.{licences, exceptions, deprecated};

use crate::table::{DEPRECATED, EXCEPTIONS, FIRST_LICENCES, OTHER_LICENCES};

/// Returns the first half of the identifiers of licences.
pub fn first_licences() -> &'static [&'static str]
    ensures { names_of result.now ≡ first_licences }
{
    &FIRST_LICENCES
}

/// Returns the other identifiers of licences.
pub fn other_licences() -> &'static [&'static str]
    ensures { names_of result.now ≡ other_licences }
{
    &OTHER_LICENCES
}

/// Returns the identifiers of all exceptions.
pub fn exceptions() -> &'static [&'static str]
    ensures { names_of result.now ≡ exceptions }
{
    &EXCEPTIONS
}

/// Returns the deprecated identifiers.
fn deprecated() -> &'static [&'static str]
    ensures { names_of result.now ≡ deprecated }
{
    &DEPRECATED
}

/// Returns the first of these names that is `text`, whatever the case of ASCII letters.
fn find(names: &[&'static str], text: &str) -> Option<&'static str>
    ensures { option_map (λ name. name.now) result ≡ listed (names_of names.now) text.now }
{
    'names: for name in names {
        if name.eq_ignore_ascii_case(text) {
            return Some(*name);
        }
    }
    None
}

/// Returns the licence that `id` identifies, as SPDX's licence list spells it, or `None` if the list has none.
///
/// The case of ASCII letters is ignored, as the [SPDX specification](https://spdx.github.io/spdx-spec/v2.3/) says.
pub fn licence(id: &str) -> Option<&'static str>
    ensures { option_map (λ name. name.now) result ≡ listed licences id.now }
{
    match find(first_licences(), id) {
        Some(name) => Some(name),
        None => find(other_licences(), id),
    }
}

/// Returns the exception that `id` identifies, as SPDX's licence list spells it, or `None` if the list has none.
///
/// The case of ASCII letters is ignored.
pub fn exception(id: &str) -> Option<&'static str>
    ensures { option_map (λ name. name.now) result ≡ listed exceptions id.now }
{
    find(exceptions(), id)
}

/// Returns whether SPDX's licence list marks the licence or exception `id` as deprecated. The case of ASCII letters is
/// ignored.
pub fn is_deprecated(id: &str) -> bool
    ensures { result ≡ is_some (listed deprecated id.now) }
{
    find(deprecated(), id).is_some()
}
