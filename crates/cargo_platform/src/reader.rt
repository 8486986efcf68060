//! Gives the parsers the tokens of a text, each cut off when it is needed.

ghost use Rattle.std.specs.Prelude.{◌≡◌, ◌≤◌, ◌+◌, ◌*◌, length, [], ◌∷◌, IsTrue, IsFalse, IfSome, IfNone, IfErr, OnOk};
ghost use Rattle.std.specs.Prelude.{MatchOption, false, Some as some};
ghost use Rattle.cargo_platform.specs.declared.source.Look.TheVariants.{Ascii};
ghost use Rattle.cargo_platform.specs.Tokens.{Ident as ident_token, String as string_token, Placed, called};
ghost use Rattle.cargo_platform.specs.Tokens.{lexeme, written};
ghost use Rattle.cargo_platform.specs.Reading.{characters_from};
ghost use Rattle.cargo_platform.specs.Cut.{AreSpaces, Nothing};
ghost use Rattle.cargo_platform.specs.Faults.{UnexpectedToken, from_to, span_of};
ghost use Rattle.cargo_platform.specs.Cut as cut;
ghost use Rattle.cargo_platform.specs.Inside.Refusals.{refused_at};
ghost use Rattle.cargo_platform.specs.Inside.Ahead.{Ahead, NextIs, IsSeenTo};
ghost use Rattle.cargo_platform.specs.Inside.Parsing.{IsIdentifier, SeesRest, Takes, TakesToken, LacksPunctuation};
ghost use Rattle.cargo_platform.specs.Inside.Parsing.{LacksName, LacksString, lexeme_of, RefusesNext, RefusesMore};
ghost use Rattle.cargo_platform.specs.Inside.Parsing.{SeesTaken, HasLooked};

use crate::Looks;
use crate::classes::begins_identifier;
use crate::refusal::{Refusal, Unread};
use crate::source::{Look, Source, character_of};
use crate::tokens::{Spanned, Token, TokenFaultKind, token_at};
use std::marker::Model;
use std::ops::Range;

/// A text, the position that was reached in it, and what is there, which is no space. A token is cut off when it is
/// taken: its first character shows which token it may be.
#[derive(Drop)]
pub(crate) struct Reader<'a> {
    source: Source<'a>,
    place: usize,
    seen: Look,
    /// The number of bytes in the text, for spans.
    length: usize,
    /// Why no token begins at the position, if that is known.
    fault: Option<TokenFaultKind>,
}

impl<'a> Model for Reader<'a> {
    ghost use Rattle.cargo_platform.specs.Inside.Ahead.{Standing};
    ghost use Rattle.cargo_platform.specs.Inside.Looking.{IsReadingAt};

    ghost Value = { Standing };

    ghost view = { λ r. record {
      ahead = record { text = r.source.text.now; place = r.place };
      looks = r.source.looks;
    } };

    ghost invariant = { λ r. IsReadingAt r.source.text.now r.place r.seen r.fault r.source.looks r.length };
}

impl<'a> Reader<'a> {
    /// Creates a reader at the first item of the text.
    #[inline(always)]
    pub fn new(text: &'a str) -> Reader<'a>
        ensures text { result.ahead.text ≡ text.now }
        ensures first { AreSpaces text.now 0 result.ahead.place }
    {
        let mut source = Source::new(text);
        let first = source.look(0);
        let (place, seen) = source.past_spaces(0, first);
        Reader {
            source,
            place,
            seen,
            length: text.len(),
            fault: None,
        }
    }

    /// Takes the next token if it is this character. Returns whether it is.
    #[inline(always)]
    pub fn eat(&mut self, wanted: Punctuation) -> bool
        ensures same_text { self.new.ahead.text ≡ self.old.ahead.text }
        ensures taken { IsTrue result → TakesToken self.old.ahead self.new.ahead (lexeme_of wanted) }
        ensures not_taken { IsFalse result →
            (self.new.ahead ≡ self.old.ahead) × LacksPunctuation self.old.ahead wanted }
    {
        if !is_byte(self.seen, byte_of(wanted)) {
            return false;
        }
        let behind = self.source.look(self.place + 1);
        (self.place, self.seen) = self.source.past_spaces(self.place + 1, behind);
        true
    }

    /// Takes the next token if it is an identifier.
    #[inline(always)]
    pub fn eat_name(&mut self) -> Option<(bool, &'a str)>
        ensures same_text { self.new.ahead.text ≡ self.old.ahead.text }
        ensures taken { IfSome result (λ r. TakesToken self.old.ahead self.new.ahead (ident_token r.0 r.1.now)) }
        ensures not_taken { IfNone result ((self.new.ahead ≡ self.old.ahead) × LacksName self.old.ahead) }
    {
        let Look::Ascii(first) = self.seen else {
            return None;
        };
        if first == b'r' {
            return self.eat_name_with_r();
        }
        if !begins_identifier(first as char) {
            return None;
        }
        let second = self.source.look(self.place + 1);
        let (name, end, behind) = self.source.name(self.place, second);
        (self.place, self.seen) = self.source.past_spaces(end, behind);
        Some((false, name))
    }

    /// Takes the next token if it is an identifier, where the next character is an `r`, which may begin a raw mark.
    fn eat_name_with_r(&mut self) -> Option<(bool, &'a str)>
        requires { (t : Placed) → NextIs self.old.ahead (cut.Token t) → IsIdentifier t.token }
        ensures same_text { self.new.ahead.text ≡ self.old.ahead.text }
        ensures taken { IfSome result (λ r. TakesToken self.old.ahead self.new.ahead (ident_token r.0 r.1.now)) }
        ensures not_taken { IfNone result ((self.new.ahead ≡ self.old.ahead) × LacksName self.old.ahead) }
    {
        match self.take()? {
            Ok(taken) => name_of(taken.token),
            Err(_kind) => None,
        }
    }

    /// Takes the next token if it is a string.
    #[inline(always)]
    pub fn eat_string(&mut self) -> Option<&'a str>
        ensures same_text { self.new.ahead.text ≡ self.old.ahead.text }
        ensures taken { IfSome result (λ v. TakesToken self.old.ahead self.new.ahead (string_token v.now)) }
        ensures not_taken { IfNone result ((self.new.ahead ≡ self.old.ahead) × LacksString self.old.ahead) }
    {
        if !is_byte(self.seen, b'"') {
            return None;
        }
        if let Some(_kind) = self.fault {
            return None;
        }
        let Some((value, quote)) = self.source.value(self.place + 1) else {
            self.fault = Some(TokenFaultKind::UnterminatedString);
            return None;
        };
        let behind = self.source.look(quote + 1);
        (self.place, self.seen) = self.source.past_spaces(quote + 1, behind);
        Some(value)
    }

    /// Takes the next token, whatever it is, with its span. If no token begins here, it returns the fault, or nothing
    /// at the end of the text.
    #[inline(never)]
    fn take(&mut self) -> Option<Result<Spanned<'a>, TokenFaultKind>>
        ensures same_text { self.new.ahead.text ≡ self.old.ahead.text }
        ensures taken { Takes self.old.ahead self.new.ahead result }
        ensures seen { SeesTaken self.new result }
    {
        if let Some(kind) = self.fault {
            return Some(Err(kind));
        }
        let Some(first) = character_of(self.seen) else {
            return None;
        };
        match token_at(&mut self.source, self.place, first) {
            Ok(cut) => {
                let start = self.place;
                (self.place, self.seen) = self.source.past_spaces(cut.end, cut.seen);
                Some(Ok(Spanned {
                    token: cut.token,
                    start,
                    end: cut.end,
                }))
            }
            Err(kind) => {
                self.fault = Some(kind);
                Some(Err(kind))
            }
        }
    }

    /// Returns the text from the next token on and its span, or nothing at the end.
    #[inline(always)]
    pub fn rest(&self) -> Option<Rest<'a>>
        ensures rest { SeesRest self.now.ahead result }
        ensures seen { IfSome result (λ rest. IsSeenTo self.now rest.span.start) }
    {
        match character_of(self.seen) {
            Some(_first) => Some(Rest {
                text: self.source.rest_from(self.place),
                span: self.place..self.length,
            }),
            None => None,
        }
    }

    /// Returns the empty span at the end of the text.
    fn end_span(&self) -> Range<usize>
        ensures { result ≡ from_to (length self.now.ahead.text) (length self.now.ahead.text) }
    {
        let end = self.length;
        end..end
    }

    /// Returns the span of the lexical fault that begins here.
    fn fault_span(&self, kind: TokenFaultKind) -> Range<usize>
        requires { NextIs self.now.ahead (cut.Lexical kind self.now.ahead.place) }
        ensures { result ≡ span_of self.now.ahead.text false (cut.Lexical kind self.now.ahead.place) }
    {
        let end = self.length;
        match kind {
            TokenFaultKind::UnterminatedString => self.place..end,
            TokenFaultKind::UnexpectedChar(c) => {
                if is_byte(self.seen, b'r') {
                    let start = self.place + 2;
                    return start..start + c.len_utf8();
                }
                self.place..self.place + c.len_utf8()
            }
            TokenFaultKind::MissingIdentifier => end..end,
        }
    }

    /// Returns the refusal of what was taken last, if nothing has ended there.
    #[inline(always)]
    fn refusal_of(
        &self,
        taken: Option<Result<Spanned<'a>, TokenFaultKind>>,
        expected: &'static str,
        at_end: &'static str,
    ) -> Refusal<'a>
        requires taken { (old : Ahead) × Takes old self.now.ahead taken }
        requires seen { SeesTaken self.now taken }
        ensures refused { (old : Ahead) → Takes old self.now.ahead taken.entry
            → RefusesNext old expected.now at_end.now result }
        ensures looked { HasLooked self.now result }
    {
        match taken {
            Some(Ok(taken)) => unexpected(expected, taken),
            Some(Err(kind)) => Refusal::Lexical(kind, self.fault_span(kind)),
            None => Refusal::Incomplete(at_end, self.end_span()),
        }
    }

    /// Returns the looks that were made.
    #[inline(always)]
    pub fn spend(self) -> Looks
        ensures looks { result ≡ self.entry.looks }
        ensures at_most { result ≤ 9 * characters_from self.entry.ahead.text 0 + 1 }
        ensures whole { NextIs self.entry.ahead Nothing → characters_from self.entry.ahead.text 0 + 1 ≤ result }
    {
        let Reader {
            source,
            place: _,
            seen: _,
            length: _,
            fault: _,
        } = self;
        source.spend()
    }
}

/// What is left of a text after a whole value or expression, and its span.
pub(crate) struct Rest<'a> {
    pub text: Unread<'a>,
    pub span: Range<usize>,
}

/// Returns the raw mark and the name of an identifier.
fn name_of<'a>(token: Token<'a>) -> Option<(bool, &'a str)>
    ensures { MatchOption result (IsIdentifier (lexeme token.entry) → ⊥)
        (λ r. lexeme token.entry ≡ ident_token r.0 r.1.now) }
{
    match token {
        Token::Ident(raw, name) => Some((raw, name)),
        Token::LeftParen | Token::RightParen | Token::Comma | Token::Equals | Token::String(_) =>
            None,
    }
}

/// Returns whether a look found this byte.
#[inline(always)]
fn is_byte(look: Look, byte: u8) -> bool
    ensures yes { IsTrue result → look ≡ Ascii byte }
    ensures no { IsFalse result → look ≡ Ascii byte → ⊥ }
{
    match look {
        Look::Ascii(seen) => seen == byte,
        Look::End | Look::Wide(_) => false,
    }
}

/// A token that consists of one character.
#[derive(Clone, Copy)]
pub(crate) enum Punctuation {
    LeftParen,
    RightParen,
    Comma,
    Equals,
}

/// Returns the byte of the token.
#[inline(always)]
fn byte_of(wanted: Punctuation) -> u8
    ensures { written (lexeme_of wanted) ≡ result ∷ [] }
{
    match wanted {
        Punctuation::LeftParen => b'(',
        Punctuation::RightParen => b')',
        Punctuation::Comma => b',',
        Punctuation::Equals => b'=',
    }
}

/// Returns the refusal of a token that is not allowed here.
#[inline(always)]
fn unexpected<'a>(expected: &'static str, taken: Spanned<'a>) -> Refusal<'a>
    ensures { refused_at result ≡ some (record {
      fault = UnexpectedToken expected.now (called (lexeme taken.entry.token));
      span = from_to taken.entry.start taken.entry.end;
    }) }
{
    Refusal::Unexpected {
        expected,
        found: taken.token.classify(),
        span: taken.start..taken.end,
    }
}

/// Returns the refusal of the next token, if nothing has ended there. The reader goes on after it.
#[cold]
#[inline(never)]
pub(crate) fn refuse<'a>(
    reader: &mut Reader<'a>,
    expected: &'static str,
    at_end: &'static str,
) -> Refusal<'a>
    ensures same_text { reader.new.ahead.text ≡ reader.old.ahead.text }
    ensures refused { RefusesNext reader.old.ahead expected.now at_end.now result }
    ensures looked { HasLooked reader.new result }
{
    let taken = reader.take();
    reader.refusal_of(taken, expected, at_end)
}

/// Rejects text that is left after a whole value or expression.
#[inline(always)]
pub(crate) fn expect_end<'a>(reader: &Reader<'a>) -> Result<(), Refusal<'a>>
    ensures end { OnOk result (NextIs reader.now.ahead Nothing) }
    ensures more { IfErr result (RefusesMore reader.now.ahead) }
    ensures looked { IfErr result (HasLooked reader.now) }
{
    match reader.rest() {
        Some(Rest { text, span }) => Err(Refusal::Unterminated(text, span)),
        None => Ok(()),
    }
}
