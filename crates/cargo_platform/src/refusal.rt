//! Why a text is rejected, from the point where a reader stops to the error that is returned.

ghost use Rattle.std.specs.Prelude.{◌≡◌};

use crate::Looks;
use crate::error::{ParseError, ParseErrorKind, ReadError};
use crate::tokens::TokenFaultKind;
use std::alloc::{AllocError, Global};
use std::ops::Range;

/// A text that was not looked at. Only this module can read it.
#[derive(Clone, Copy)]
pub(crate) struct Unread<'a> {
    text: &'a str,
}

impl<'a> Unread<'a> {
    /// Wraps the text, so that it can't be read.
    #[inline(always)]
    pub fn new(text: &'a str) -> Unread<'a>
        ensures { result.text.now ≡ text.now }
    {
        Unread { text }
    }
}

/// Why nothing was parsed: the fault and its span, or an allocation failure.
#[derive(Drop)]
pub(crate) enum Refusal<'a> {
    Unexpected {
        expected: &'static str,
        found: &'static str,
        span: Range<usize>,
    },
    Incomplete(&'static str, Range<usize>),
    Lexical(TokenFaultKind, Range<usize>),
    /// A whole expression has ended, and this text is left.
    Unterminated(Unread<'a>, Range<usize>),
    Memory(AllocError),
}

impl<'a> Refusal<'a> {
    ghost use Rattle.cargo_platform.specs.Inside.Refusals.{Becomes};

    /// Creates the error for the rejected text. It takes the looks of a spent source, so that no look can come after
    /// it.
    pub fn into_error(self, alloc: Global, orig: &str, _spent: &Looks) -> ReadError
        ensures { Becomes self.entry orig.now result }
    {
        let (kind, span) = match self {
            Refusal::Unexpected {
                expected,
                found,
                span,
            } => (ParseErrorKind::UnexpectedToken { expected, found }, span),
            Refusal::Incomplete(expected, span) => {
                (ParseErrorKind::IncompleteExpr(expected), span)
            }
            Refusal::Lexical(TokenFaultKind::UnterminatedString, span) => {
                (ParseErrorKind::UnterminatedString, span)
            }
            Refusal::Lexical(TokenFaultKind::UnexpectedChar(c), span) => {
                (ParseErrorKind::UnexpectedChar(c), span)
            }
            Refusal::Lexical(TokenFaultKind::MissingIdentifier, span) => {
                (ParseErrorKind::IncompleteExpr("identifier"), span)
            }
            Refusal::Unterminated(rest, span) => match String::from_str(alloc, rest.text) {
                Ok(rest) => (ParseErrorKind::UnterminatedExpression(rest), span),
                Err(e) => return ReadError::Memory(e),
            },
            Refusal::Memory(e) => return ReadError::Memory(e),
        };
        match ParseError::with_span(alloc, orig, kind, Some(span)) {
            Ok(e) => ReadError::Parse(e),
            Err(e) => ReadError::Memory(e),
        }
    }
}

impl<'a> From<AllocError> for Refusal<'a> {
    ghost use Rattle.cargo_platform.specs.declared.refusal.Refusal.TheVariants.{Memory};

    ghost from_gives = { λ a e. e ≡ Memory a };

    fn from(e: AllocError) -> Refusal<'a> {
        Refusal::Memory(e)
    }
}
