//! Parses expressions.

use crate::Part;
use crate::error::ReadError;
use crate::reader::read_parts;
use std::alloc::Global;
use std::marker::Model;

/// A licence expression: its parts, from left to right.
#[derive(Debug, Drop)]
pub struct LicenceExpression {
    parts: Vec<Part>,
}

impl Model for LicenceExpression {
    ghost use Rattle.std.specs.Prelude.{List};
    ghost use Rattle.spdx_expressions.specs.Trees.{Piece, pieces};

    ghost Value = { List Piece };

    ghost view = { λ e. pieces e.parts.items };
}

impl LicenceExpression {
    ghost use Rattle.std.specs.Prelude.{◌≡◌, IfOk, List, string_bytes};
    ghost use Rattle.spdx_expressions.specs.Trees.{Tree, Piece, pieces};
    ghost use Rattle.spdx_expressions.specs.Grammar.{IsTreeText, Spells, AreWritten, IsWellFormed};
    ghost use Rattle.spdx_expressions.specs.Tokens.{tokens};
    ghost use Rattle.spdx_expressions.specs.Print.{print};
    ghost use Rattle.spdx_expressions.specs.Faults.{IsFault};
    ghost use Rattle.spdx_expressions.specs.Errors.{IfParse};

    /// Parses an expression: licences that are joined by `AND` and `OR`, with brackets around any part. A licence is an
    /// identifier, which may have `+` directly after it, and `WITH` and an exception after that. A `/` is an older
    /// `OR`. The grammar is that of the SPDX specification 2.3, annex "SPDX license expressions".
    ///
    /// Returns `ReadError::Parse` for any other text, with its fault: the first token that can't follow those before
    /// it, or the end if it comes too early. Returns `ReadError::Memory` if an allocation fails, whatever the text.
    pub fn from_str(alloc: Global, text: &str) -> Result<LicenceExpression, ReadError>
        // `Ok` has the parts as they are written in the text, and they mean its tree.
        ensures parts { IfOk result (λ e. AreWritten e (tokens text.now)) }
        ensures tree { IfOk result (λ e. (t : Tree) × IsTreeText text.now t × Spells 0 t e) }
        // `Parse` is returned only for a text without a meaning.
        ensures refused { IfParse result (λ _. (t : Tree) → IsTreeText text.now t → ⊥) }
        // The error has the text and its fault.
        ensures text { IfParse result (λ e. string_bytes e.text ≡ text.now) }
        ensures fault { IfParse result (λ e. IsFault text.now e.expected e.found e.span) }
        // Results are well-formed, and whatever is well-formed is parsed back from its printed text.
        ensures well_formed { IfOk result (λ e. IsWellFormed e) }
        ensures reads_back { (ps : List Piece) → IsWellFormed ps → text.now ≡ print ps
            → IfOk result (λ e. e ≡ ps) × IfParse result (λ _. ⊥) }
    {
        match read_parts(alloc, text) {
            Ok(parts) => Ok(LicenceExpression { parts }),
            Err(refusal) => Err(refusal.into_error(alloc, text)),
        }
    }

    /// Returns the parts, from left to right.
    pub fn parts(&self) -> &[Part]
        // The result has the parts of the expression.
        ensures { pieces result.now ≡ self.now }
    {
        &self.parts
    }
}
