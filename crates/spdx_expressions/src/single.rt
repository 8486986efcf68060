//! Parses a single licence, which is an entry of a list of allowed ones.

ghost use Rattle.std.specs.Prelude.{◌≡◌, IfOk, IfErr, string_bytes};
ghost use Rattle.spdx_expressions.specs.Trees.{Term, term_of};
ghost use Rattle.spdx_expressions.specs.Grammar.{IsLicenceText};
ghost use Rattle.spdx_expressions.specs.Faults.{IsFaultOfOne};
ghost use Rattle.spdx_expressions.specs.Errors.{IfParse};
ghost use Rattle.spdx_expressions.specs.Inside.Single.{IsStoppedAtOne};

use crate::Licence;
use crate::error::{Expected, ReadError, Refusal};
use crate::reader::{exception_at, name_in, refuse};
use crate::tokens::token_at;
use std::alloc::Global;

impl Licence {
    /// Parses one licence: its identifier, which may have `+` directly after it, and `WITH` and an exception after
    /// that.
    ///
    /// Returns `ReadError::Parse` for any other text, with its fault, or `ReadError::Memory` if an allocation fails.
    pub fn from_str(alloc: Global, text: &str) -> Result<Licence, ReadError>
        // `Ok` has the licence that the text means.
        ensures licence { IfOk result (λ l. IsLicenceText text.now (term_of l)) }
        // `Parse` is returned only for a text without a meaning.
        ensures refused { IfParse result (λ _. (t : Term) → IsLicenceText text.now t → ⊥) }
        // The error has the text and its fault.
        ensures text { IfParse result (λ e. string_bytes e.text ≡ text.now) }
        ensures fault { IfParse result (λ e. IsFaultOfOne text.now e.expected e.found e.span) }
    {
        match read_one(alloc, text) {
            Ok(licence) => Ok(licence),
            Err(refusal) => Err(refusal.into_error(alloc, text)),
        }
    }
}

/// Reads the licence of a text.
fn read_one(alloc: Global, text: &str) -> Result<Licence, Refusal>
    ensures licence { IfOk result (λ l. IsLicenceText text.now (term_of l)) }
    ensures refused { IfErr result (IsStoppedAtOne text.now) }
{
    let next = token_at(text, 0);
    let Some(first) = next else {
        return Err(refuse(text, Expected::Licence, None));
    };
    let Some((name, or_later)) = name_in(first.token) else {
        return Err(refuse(text, Expected::Licence, Some(first)));
    };
    let found = match exception_at(text, first.end) {
        Ok(found) => found,
        Err(refusal) => return Err(refusal),
    };
    match found {
        Some(exception) => {
            if let Some(surplus) = token_at(text, exception.end) {
                return Err(refuse(text, Expected::End, Some(surplus)));
            }
            let word = String::from_str(alloc, exception.word)?;
            let id = String::from_str(alloc, name)?;
            Ok(Licence {
                id,
                or_later,
                exception: Some(word),
            })
        }
        None => {
            if let Some(surplus) = token_at(text, first.end) {
                return Err(refuse(text, Expected::End, Some(surplus)));
            }
            let id = String::from_str(alloc, name)?;
            Ok(Licence {
                id,
                or_later,
                exception: None,
            })
        }
    }
}
