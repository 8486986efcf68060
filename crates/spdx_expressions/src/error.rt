//! Why a text is rejected.

use std::alloc::{AllocError, Global};
use std::ops::Range;

/// The tokens that are allowed at the place of the fault.
#[derive(Clone, Copy, Debug, PartialEq, Eq)]
pub enum Expected {
    /// A licence or `(`.
    Licence,
    /// The identifier of an exception, after `WITH`.
    Exception,
    /// `AND` or `OR`, where no bracket is open.
    Operator,
    /// `AND`, `OR` or `)`, where a bracket is open.
    OperatorOrClose,
    /// The end, where a single licence is parsed.
    End,
}

/// The token at the place of the fault.
#[derive(Clone, Copy, Debug, PartialEq, Eq)]
pub enum Found {
    /// The end of the text.
    End,
    /// `(`.
    Open,
    /// `)`.
    Close,
    /// `/`.
    Slash,
    /// `AND`.
    And,
    /// `OR`.
    Or,
    /// `WITH`.
    With,
    /// A word that names a licence.
    Licence,
    /// Any other word.
    Unknown,
}

/// The fault of a text, at its first token that is not allowed.
#[derive(Debug, Drop)]
pub struct ParseError {
    /// The whole text.
    pub text: String,
    /// The tokens that are allowed there.
    pub expected: Expected,
    /// The token that is there.
    pub found: Found,
    /// The span of the fault, in bytes of the text: the token, or the empty range at the end.
    pub span: Range<usize>,
}

/// The reason why parsing failed.
#[derive(Debug, Drop)]
pub enum ReadError {
    /// The text has a fault.
    Parse(ParseError),
    /// An allocation failed.
    Memory(AllocError),
}

/// Why nothing was parsed, before the text is copied.
#[derive(Drop)]
pub(crate) enum Refusal {
    Unexpected {
        expected: Expected,
        found: Found,
        span: Range<usize>,
    },
    Memory(AllocError),
}

impl From<AllocError> for Refusal {
    ghost use Rattle.std.specs.Prelude.{◌≡◌};
    ghost use Rattle.spdx_expressions.specs.declared.error.Refusal.TheVariants.{Memory};

    ghost from_gives = { λ a e. e ≡ Memory a };

    fn from(e: AllocError) -> Refusal {
        Refusal::Memory(e)
    }
}

impl Refusal {
    ghost use Rattle.spdx_expressions.specs.Inside.Reading.{Becomes};

    /// Creates the error for the rejected text.
    pub(crate) fn into_error(self, alloc: Global, text: &str) -> ReadError
        ensures { Becomes self text.now result }
    {
        let (expected, found, span) = match self {
            Refusal::Unexpected {
                expected,
                found,
                span,
            } => (expected, found, span),
            Refusal::Memory(e) => return ReadError::Memory(e),
        };
        match String::from_str(alloc, text) {
            Ok(text) => ReadError::Parse(ParseError {
                text,
                expected,
                found,
                span,
            }),
            Err(e) => ReadError::Memory(e),
        }
    }
}
