//! Cuts the text of a condition into tokens, with their positions.
//!
//! Between tokens only the space U+0020 is skipped. An identifier is one `_` or ASCII letter and all such characters
//! and ASCII digits that follow it; `r#` directly before it marks it as raw. A string runs from `"` to the next `"`,
//! without escapes. See "Platform specific dependencies" in Cargo's reference, and "Conditional compilation" in the
//! Rust reference.

ghost use Rattle.std.specs.Prelude.{◌≡◌, ◌≢◌, ◌+◌, ◌*◌, ◌≤◌, length, drop, slice_index, IfOk, IfErr, OnOk};
ghost use Rattle.std.specs.Prelude.{MatchOption, true, false};
ghost use Rattle.std.specs.Str.{IsCharBoundary};
ghost use Rattle.cargo_platform.specs.Chars.{is_identifier_start};
ghost use Rattle.cargo_platform.specs.Tokens.{String as string_token, lexeme, called};
ghost use Rattle.cargo_platform.specs.Cut.{AreSpaces};
ghost use Rattle.cargo_platform.specs.Reading.{IsRestFrom, characters_from};
ghost use Rattle.cargo_platform.specs.Inside.Looking.{IsCharAt, Shows, Costs, ShowedBefore, unseen};
ghost use Rattle.cargo_platform.specs.Inside.Scanning.{IsTokenAt, IsCutAt, BeginsNone};

use crate::classes::begins_identifier;
pub use crate::source::Looks;
use crate::source::{Look, Source, character_of};
use std::marker::Model;

/// A token. Names and values borrow the bytes of the text. Equality compares all parts.
#[derive(Clone, Copy, Debug, PartialEq, Eq)]
pub enum Token<'a> {
    /// `(`
    LeftParen,
    /// `)`
    RightParen,
    /// An identifier: whether the raw mark `r#` is before it, and its name without the mark.
    Ident(bool, &'a str),
    /// `,`
    Comma,
    /// `=`
    Equals,
    /// The value between the quotes.
    String(&'a str),
}

impl<'a> Token<'a> {
    /// Returns the class of the token, as faults name it: its character in backquotes, "an identifier" or "a string".
    pub fn classify(&self) -> &'static str
        // The class by which faults name the token.
        ensures { result.now ≡ called (lexeme self.now) }
    {
        match self {
            Token::LeftParen => "`(`",
            Token::RightParen => "`)`",
            Token::Ident(..) => "an identifier",
            Token::Comma => "`,`",
            Token::Equals => "`=`",
            Token::String(..) => "a string",
        }
    }
}

/// A token, and the byte positions at which its written form begins and ends. The written form includes the raw mark
/// and the quotes; `end` is the position after it.
#[derive(Clone, Copy, Debug, PartialEq, Eq)]
pub struct Spanned<'a> {
    /// The token.
    pub token: Token<'a>,
    /// Where its written form begins.
    pub start: usize,
    /// Where its written form ends.
    pub end: usize,
}

/// Why no token begins at a position.
#[derive(Clone, Copy, Debug, PartialEq, Eq)]
pub enum TokenFaultKind {
    /// A `"` that no second `"` closes.
    UnterminatedString,
    /// A character that no token begins with, or one after `r#` that no identifier begins with.
    UnexpectedChar(char),
    /// `r#` at the end of the text.
    MissingIdentifier,
}

/// A fault, and the byte position at which the faulty piece begins: the `r` of a mark, or the first quote.
#[derive(Clone, Copy, Debug, PartialEq, Eq)]
pub struct TokenFault {
    /// Why no token begins there.
    pub kind: TokenFaultKind,
    /// Where the faulty piece begins.
    pub at: usize,
}

/// An iterator over the tokens of a text in order. If text is left then, the next item is its fault. After that it
/// returns only `None`.
#[derive(Drop)]
pub struct Tokenizer<'a> {
    pub(crate) source: Source<'a>,
    pub(crate) place: usize,
    /// What is at the position, if it was looked at.
    seen: Option<Look>,
    failed: bool,
}

impl<'a> Model for Tokenizer<'a> {
    ghost use Rattle.cargo_platform.specs.Reading.{Progress};

    ghost Value = { Progress };

    ghost use Rattle.cargo_platform.specs.Inside.Looking.{IsStanding};

    ghost view = { λ t. record {
      text = t.source.text.now;
      place = t.place;
      failed = t.failed;
      looks = t.source.looks;
    } };

    ghost invariant = { λ t. IsStanding t.source.text.now t.place t.seen t.failed t.source.looks };
}

impl<'a> Tokenizer<'a> {
    /// Creates a tokenizer at the start of the text.
    pub fn new(text: &'a str) -> Tokenizer<'a>
        ensures { result ≡ record { text = text.now; place = 0; failed = false; looks = 0 } }
    {
        Tokenizer {
            source: Source::new(text),
            place: 0,
            seen: None,
            failed: false,
        }
    }
}

impl<'a> Iterator for Tokenizer<'a> {
    ghost use Rattle.std.specs.Iterator.{at_most};
    ghost use Rattle.cargo_platform.specs.Reading.{NextCall, results_left};

    type Item = Result<Spanned<'a>, TokenFault>;

    // Each call is a step of the cut (`gives`): it returns the next token with its span, the tail's fault once, or
    // nothing. Spans begin and end between characters (`begins`, `reached`), and name and value are bytes inside. Until
    // a fault, the `n` characters before the position took `n + 1` to `9n + 1` looks (`at_least`, `at_most`). One call
    // takes at most `9n + 1` looks, with `n` characters left (`at_most_ever`, `call`, `call_ever`).
    ghost next_gives = { NextCall };

    // The calls come to an end.
    ghost remaining = { λ t. at_most (results_left t) };

    #[inline(always)]
    fn next(&mut self) -> Option<Result<Spanned<'a>, TokenFault>> {
        if self.failed {
            return None;
        }
        let (start, seen) = first_after_spaces(&mut self.source, self.place, self.seen);
        let Some(first) = character_of(seen) else {
            self.place = start;
            self.seen = Some(seen);
            return None;
        };
        match token_at(&mut self.source, start, first) {
            Ok(Cut { token, end, seen }) => {
                self.place = end;
                self.seen = Some(seen);
                Some(Ok(Spanned { token, start, end }))
            }
            Err(kind) => {
                self.place = start;
                self.seen = None;
                self.failed = true;
                Some(Err(TokenFault { kind, at: start }))
            }
        }
    }
}

/// Returns the first position from `from` on that has no space, and what is there. `seen` is what is at `from`, if that
/// was looked at.
#[inline(always)]
fn first_after_spaces(source: &mut Source<'_>, from: usize, seen: Option<Look>) -> (usize, Look)
    requires begin { IsCharBoundary source.old.text.now from }
    requires seen { ShowedBefore source.old.text.now from seen }
    ensures same { source.new.text ≡ source.old.text }
    ensures boundary { IsCharBoundary source.old.text.now result.0 }
    ensures spaces { AreSpaces source.old.text.now from result.0 }
    ensures sees { Shows source.old.text.now result.0 result.1 }
    ensures past { slice_index source.old.text.now result.0 ≢ 0x20 }
    ensures cost { Costs source.old.text.now from result.0 (unseen seen) (unseen seen)
        source.old.looks source.new.looks }
{
    let first = seen_or_look(source, from, seen);
    source.past_spaces(from, first)
}

/// Returns what is at a position: what was seen there before, or what a look finds.
#[inline(always)]
fn seen_or_look(source: &mut Source<'_>, at: usize, seen: Option<Look>) -> Look
    requires boundary { IsCharBoundary source.old.text.now at }
    requires seen { ShowedBefore source.old.text.now at seen }
    ensures same { source.new.text ≡ source.old.text }
    ensures sees { Shows source.old.text.now at result }
    ensures cost { Costs source.old.text.now at at (unseen seen) (unseen seen) source.old.looks source.new.looks }
{
    match seen {
        Some(look) => look,
        None => source.look(at),
    }
}

/// A token, the position where it ends, and what is there.
#[derive(Clone, Copy)]
pub(crate) struct Cut<'a> {
    pub token: Token<'a>,
    pub end: usize,
    pub seen: Look,
}

/// Cuts off the token that begins with this character at a position.
#[inline(always)]
pub(crate) fn token_at<'a>(
    source: &mut Source<'a>,
    start: usize,
    first: char,
) -> Result<Cut<'a>, TokenFaultKind>
    requires begin { IsCharBoundary source.old.text.now start }
    requires there { IsCharAt source.old.text.now start first }
    requires past { first ≢ 0x20 }
    ensures same { source.new.text ≡ source.old.text }
    ensures token { IfOk result (λ cut. IsCutAt source.old.text.now start cut) }
    ensures fault { IfErr result
        (λ kind. BeginsNone source.old.text.now start 1 0 kind source.old.looks source.new.looks) }
    ensures cost { IfOk result (λ cut.
        Costs source.old.text.now (start + 1) cut.end 9 1 source.old.looks source.new.looks) }
    ensures one { OnOk result
        (characters_from source.old.text.now start ≡ characters_from source.old.text.now (start + 1) + 1) }
{
    match first {
        '(' => Ok(mark_at(source, start, Token::LeftParen)),
        ')' => Ok(mark_at(source, start, Token::RightParen)),
        ',' => Ok(mark_at(source, start, Token::Comma)),
        '=' => Ok(mark_at(source, start, Token::Equals)),
        '"' => string_at(source, start),
        'r' => match source.look(start + 1) {
            Look::Ascii(b'#') => marked_at(source, start),
            second => Ok(identifier_at(source, start, second)),
        },
        c if begins_identifier(c) => {
            let second = source.look(start + 1);
            Ok(identifier_at(source, start, second))
        }
        c => Err(TokenFaultKind::UnexpectedChar(c)),
    }
}

/// Cuts off the token of one character at a position.
#[inline(always)]
fn mark_at<'a>(source: &mut Source<'a>, start: usize, token: Token<'a>) -> Cut<'a>
    requires stands { IsTokenAt source.old.text.now (lexeme token) start (start + 1) }
    requires boundary { IsCharBoundary source.old.text.now (start + 1) }
    ensures same { source.new.text ≡ source.old.text }
    ensures token { IsCutAt source.old.text.now start result }
    ensures cost { Costs source.old.text.now (start + 1) result.end 1 1 source.old.looks source.new.looks }
{
    let seen = source.look(start + 1);
    Cut {
        token,
        end: start + 1,
        seen,
    }
}

/// Cuts off the string whose first quote is at a position.
#[inline(always)]
fn string_at<'a>(source: &mut Source<'a>, start: usize) -> Result<Cut<'a>, TokenFaultKind>
    requires begin { IsCharBoundary source.old.text.now start }
    requires there { IsCharAt source.old.text.now start 0x22 }
    ensures same { source.new.text ≡ source.old.text }
    ensures token { IfOk result (λ cut. IsCutAt source.old.text.now start cut) }
    ensures fault { IfErr result
        (λ kind. BeginsNone source.old.text.now start 1 0 kind source.old.looks source.new.looks) }
    ensures cost { IfOk result (λ cut.
        Costs source.old.text.now (start + 1) cut.end 9 1 source.old.looks source.new.looks) }
{
    match source.value(start + 1) {
        Some((value, quote)) => Ok(string_between(source, start, value, quote)),
        None => Err(TokenFaultKind::UnterminatedString),
    }
}

/// Cuts off the string between the quotes at two positions.
#[inline(always)]
fn string_between<'a>(
    source: &mut Source<'a>,
    start: usize,
    value: &'a str,
    quote: usize,
) -> Cut<'a>
    requires stands { IsTokenAt source.old.text.now (string_token value.now) start (quote + 1) }
    requires boundary { IsCharBoundary source.old.text.now (quote + 1) }
    ensures same { source.new.text ≡ source.old.text }
    ensures token { IsCutAt source.old.text.now start result }
    ensures cost { Costs source.old.text.now (quote + 1) result.end 1 1 source.old.looks source.new.looks }
{
    let seen = source.look(quote + 1);
    Cut {
        token: Token::String(value),
        end: quote + 1,
        seen,
    }
}

/// Cuts off the unmarked identifier that begins at a position. `second` is what is after its first character.
#[inline(always)]
fn identifier_at<'a>(source: &mut Source<'a>, start: usize, second: Look) -> Cut<'a>
    requires begin { IsCharBoundary source.old.text.now start }
    requires there { IsCharAt source.old.text.now start (slice_index source.old.text.now start) }
    requires first { is_identifier_start (slice_index source.old.text.now start) ≡ true }
    requires seen { Shows source.old.text.now (start + 1) second }
    requires plain { slice_index source.old.text.now start ≡ 0x72 → slice_index source.old.text.now (start + 1) ≢ 0x23 }
    ensures same { source.new.text ≡ source.old.text }
    ensures token { IsCutAt source.old.text.now start result }
    ensures cost { Costs source.old.text.now (start + 1) result.end 8 0 source.old.looks source.new.looks }
{
    let (name, end, seen) = source.name(start, second);
    Cut {
        token: Token::Ident(false, name),
        end,
        seen,
    }
}

/// Cuts off the raw identifier whose `r#` is at a position.
#[inline(always)]
fn marked_at<'a>(source: &mut Source<'a>, start: usize) -> Result<Cut<'a>, TokenFaultKind>
    requires begin { IsCharBoundary source.old.text.now start }
    requires there { IsCharAt source.old.text.now start 0x72 }
    requires number_sign { IsCharAt source.old.text.now (start + 1) 0x23 }
    ensures same { source.new.text ≡ source.old.text }
    ensures token { IfOk result (λ cut. IsCutAt source.old.text.now start cut) }
    ensures fault { IfErr result
        (λ kind. BeginsNone source.old.text.now start 2 1 kind source.old.looks source.new.looks) }
    ensures cost { IfOk result (λ cut.
        Costs source.old.text.now (start + 2) cut.end 10 1 source.old.looks source.new.looks) }
{
    let third = source.look(start + 2);
    match third {
        Look::Ascii(b) if begins_identifier(b as char) => {
            let fourth = source.look(start + 3);
            let (name, end, seen) = source.name(start + 2, fourth);
            Ok(Cut {
                token: Token::Ident(true, name),
                end,
                seen,
            })
        }
        Look::Ascii(b) => Err(TokenFaultKind::UnexpectedChar(b as char)),
        Look::Wide(c) => Err(TokenFaultKind::UnexpectedChar(c)),
        Look::End => Err(TokenFaultKind::MissingIdentifier),
    }
}
