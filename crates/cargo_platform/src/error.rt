//! Why a text is rejected.

ghost use Rattle.std.specs.Prelude.{◌≡◌, IfOk, None};

use std::alloc::{AllocError, Global};
use std::fmt;
use std::ops::Range;

/// The fault of a text. The parser stops at the first fault: it is given by the longest prefix of the text's tokens
/// that some tokens would complete, and by what follows that prefix.
#[derive(Debug, Drop)]
pub enum ParseErrorKind {
    /// A `"` follows that no second `"` closes.
    UnterminatedString,
    /// This character follows, and no token begins with it.
    UnexpectedChar(char),
    /// A token of the class `found` follows where one of the class `expected` is allowed.
    UnexpectedToken {
        /// The class of a token that is allowed there.
        expected: &'static str,
        /// The class of the token that is there.
        found: &'static str,
    },
    /// The text ends where this is expected, or it ends with `r#` where an identifier is expected.
    IncompleteExpr(&'static str),
    /// The prefix is a whole value or expression, and this text is left after it.
    UnterminatedExpression(String),
    /// The text is not a target name, for the reason in this message.
    InvalidTarget(String),
}

/// The error for a rejected text.
#[derive(Drop)]
pub struct ParseError {
    /// Why it is rejected.
    kind: ParseErrorKind,
    /// The rejected text. It is in a box so that a parser's result is no larger than an expression.
    refused: Box<Refused>,
}

/// The rejected text and the place of the fault.
#[derive(Drop)]
struct Refused {
    /// The whole text.
    orig: String,
    /// The bytes of the text at which the fault lies. An error that `new` made has no span.
    span: Option<Range<usize>>,
}

impl ParseError {
    ghost use Rattle.cargo_platform.specs.Errors.{fault_in, fault_meant, orig_of, span_in};

    /// Creates an error for `orig`, of which it keeps a copy, without a span. If the copy can't be allocated, it drops
    /// `kind`.
    pub fn new(alloc: Global, orig: &str, kind: ParseErrorKind) -> Result<ParseError, AllocError>
        // It holds the arguments, and no span.
        ensures of { IfOk result (λ e. orig_of e ≡ orig.now) }
        ensures why { IfOk result (λ e. fault_in e ≡ fault_meant kind) }
        ensures nowhere { IfOk result (λ e. span_in e ≡ None) }
    {
        ParseError::with_span(alloc, orig, kind, None)
    }

    /// Creates the same error with the span of the fault.
    pub(crate) fn with_span(
        alloc: Global,
        orig: &str,
        kind: ParseErrorKind,
        span: Option<Range<usize>>,
    ) -> Result<ParseError, AllocError>
        ensures of { IfOk result (λ e. orig_of e ≡ orig.now) }
        ensures why { IfOk result (λ e. fault_in e ≡ fault_meant kind) }
        ensures place { IfOk result (λ e. span_in e ≡ span) }
    {
        let orig = String::from_str(alloc, orig)?;
        let refused = Box::new(alloc, Refused { orig, span })?;
        Ok(ParseError { kind, refused })
    }

    /// Returns the fault of the text.
    pub fn kind(&self) -> &ParseErrorKind
        // Returns what the error holds.
        ensures { fault_meant result.now ≡ fault_in self.now }
    {
        &self.kind
    }

    /// Returns the whole text that was rejected.
    pub fn orig(&self) -> &str
        // Returns what the error holds.
        ensures { result.now ≡ orig_of self.now }
    {
        &self.refused.orig
    }

    /// Returns the bytes of `orig` at which the fault lies: the token that does not fit; what is left after a whole
    /// value or expression; the character that begins no token, or that no target name may contain; an unterminated
    /// string from its quote on; or the empty range at the end if the text ends too early. An error of a parser has a
    /// span, and one that `new` made has none.
    pub fn span(&self) -> Option<Range<usize>>
        // Returns what the error holds.
        ensures { result ≡ span_in self.now }
    {
        match &self.refused.span {
            Some(span) => Some(span.start..span.end),
            None => None,
        }
    }
}

/// Why parsing failed.
#[derive(Debug, Drop)]
pub enum ReadError {
    /// The text is rejected.
    Parse(ParseError),
    /// An allocation failed.
    Memory(AllocError),
}

impl fmt::Display for ParseErrorKind {
    ghost use Rattle.std.specs.Prelude.{Some};
    ghost use Rattle.cargo_platform.specs.Print.{print_fault};
    ghost use Rattle.cargo_platform.specs.Errors.{fault_meant};

    // Prints exactly the bytes that the definition gives.
    ghost output = { λ k. Some (print_fault (fault_meant k)) };

    fn fmt<W: fmt::Write>(&self, f: &mut fmt::Formatter<W>) -> fmt::Result {
        match self {
            ParseErrorKind::UnterminatedString => f.write_str("unterminated string in cfg"),
            ParseErrorKind::UnexpectedChar(c) => write!(
                f,
                "unexpected character `{c}` in cfg, expected parens, a comma, an identifier, or a string"
            ),
            ParseErrorKind::UnexpectedToken { expected, found } => {
                write!(f, "expected {expected}, found {found}")
            }
            ParseErrorKind::IncompleteExpr(expected) => {
                write!(f, "expected {expected}, but cfg expression ended")
            }
            ParseErrorKind::UnterminatedExpression(s) => {
                write!(f, "unexpected content `{s}` found after cfg expression")
            }
            ParseErrorKind::InvalidTarget(s) => write!(f, "invalid target specifier: {s}"),
        }
    }
}

impl fmt::Debug for ParseError {
    fn fmt<W: fmt::Write>(&self, f: &mut fmt::Formatter<W>) -> fmt::Result {
        f.debug_struct("ParseError")
            .field("kind", &self.kind)
            .field("orig", &self.refused.orig)
            .field("span", &self.refused.span)
            .finish()
    }
}

impl fmt::Display for ParseError {
    ghost use Rattle.std.specs.Prelude.{Some};
    ghost use Rattle.cargo_platform.specs.Print.{print_error};
    ghost use Rattle.cargo_platform.specs.Errors.{fault_in, orig_of};

    // Prints exactly the bytes that the definition gives.
    ghost output = { λ e. Some (print_error (orig_of e) (fault_in e)) };

    fn fmt<W: fmt::Write>(&self, f: &mut fmt::Formatter<W>) -> fmt::Result {
        let orig = &self.refused.orig;
        let kind = &self.kind;
        write!(f, "failed to parse `{orig}` as a cfg expression: {kind}")
    }
}

impl std::error::Error for ParseError {}

impl fmt::Display for ReadError {
    ghost use Rattle.cargo_platform.specs.Errors.{print_refusal};

    // Prints exactly the bytes that the definition gives, except for `Memory`.
    ghost output = { λ e. print_refusal e };

    fn fmt<W: fmt::Write>(&self, f: &mut fmt::Formatter<W>) -> fmt::Result {
        match self {
            ReadError::Parse(error) => write!(f, "{error}"),
            ReadError::Memory(error) => write!(f, "{error}"),
        }
    }
}
