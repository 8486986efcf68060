//! Judges one licence text.

ghost use Rattle.std.specs.Prelude.{IfOk, map, option_map};
ghost use Rattle.spdx_expressions.specs.Trees.{term_of};
ghost use Rattle.licence_audits.specs.Findings.{HasFinding};

use spdx_expressions::{Licence, LicenceExpression, ParseError, ReadError};
use std::alloc::{AllocError, Global};

/// The reason why the list of allowed licences does not satisfy a package's licence.
#[derive(Debug, Drop)]
pub enum Finding {
    /// The text is an expression that the list does not satisfy.
    NotAllowed(LicenceExpression),
    /// The package has no licence text.
    Missing,
    /// The text is not an expression, because of this fault.
    Refused(ParseError),
}

/// Judges a licence text. Returns `None` exactly if it is an expression that the list satisfies. Fails only if an
/// allocation fails.
pub fn judge(
    alloc: Global,
    license: Option<&str>,
    allowed: &[Licence],
) -> Result<Option<Finding>, AllocError>
    ensures { IfOk result
        (λ found. HasFinding (map term_of allowed.now) (option_map (λ text. text.now) license.entry) found) }
{
    let Some(text) = license else {
        return Ok(Some(Finding::Missing));
    };
    match LicenceExpression::from_str(alloc, text) {
        Ok(expression) => {
            if expression.is_satisfied(allowed) {
                Ok(None)
            } else {
                Ok(Some(Finding::NotAllowed(expression)))
            }
        }
        Err(ReadError::Parse(error)) => Ok(Some(Finding::Refused(error))),
        Err(ReadError::Memory(error)) => Err(error),
    }
}
