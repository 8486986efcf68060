//! A caller of `spdx_expressions`, as its users write it.

ghost use Rattle.std.specs.Prelude.{◌≡◌, IfOk, map};
ghost use Rattle.spdx_expressions.specs.Trees.{Tree, term_of};
ghost use Rattle.spdx_expressions.specs.Grammar.{IsTreeText};
ghost use Rattle.spdx_expressions.specs.Allowed.{is_allowed, truth};

use spdx_expressions::{Licence, LicenceExpression, ReadError};
use std::alloc::Global;

/// Returns whether the licence that a manifest's `license` requires is allowed, or the error of that text.
pub fn may_be_used(alloc: Global, license: &str, allowed: &[Licence]) -> Result<bool, ReadError>
    ensures { IfOk result (λ yes. (t : Tree) × IsTreeText license.now t
        × (yes ≡ truth (is_allowed (map term_of allowed.now)) t)) }
{
    let expression = LicenceExpression::from_str(alloc, license)?;
    Ok(expression.is_satisfied(allowed))
}
