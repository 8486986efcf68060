//! Reads one token after another, and counts the brackets that are open.

ghost use Rattle.std.specs.Prelude.{◌≡◌, ◌<◌, ◌≤◌, ◌∷◌, ◌++◌, ◌+◌, ◌≢◌, [], ℕ, List, true, false, length, None, Some};
ghost use Rattle.std.specs.Prelude.{OnOk, IfOk, IfErr, IsTrue};
ghost use Rattle.std.specs.Prelude.{MatchOption, IsFalse, IfSome, ◌↔◌, codes};
ghost use Rattle.std.specs.Str.{IsCharBoundary};
ghost use Rattle.spdx_expressions.specs.Tokens.{Placed, placed, lexeme, Word, LeftBracket, RightBracket};
ghost use Rattle.spdx_expressions.specs.Trees.{Term, Piece, Named, text_of, piece_of, pieces};
ghost use Rattle.spdx_expressions.specs.Words.{is_identifier};
ghost use Rattle.spdx_expressions.specs.Faults.{found_in, expected_behind};
ghost use Rattle.spdx_expressions.specs.Inside.Reading.{IsOf, IsNext, IsStopped, IsReading, left, whole, excepts};
ghost use Rattle.spdx_expressions.specs.Inside.Reading.{at, behind, operand, Wants, Licensed, IsReached};
ghost use Rattle.spdx_expressions.specs.Inside.Reading.{IsRead, IsNoOperator, LacksWith, IsExcepted, LacksException};

use crate::error::{Expected, Found, Refusal};
use crate::tokens::{Spanned, Token, token_at};
use crate::words::{is_identifier, licence_name};
use crate::{Licence, Part};
use std::alloc::{AllocError, Global};

/// A text, the position that was reached in it, and the parts before it.
#[derive(Drop)]
pub(crate) struct Reader<'a> {
    text: &'a str,
    place: usize,
    /// The number of open brackets.
    depth: usize,
    /// Whether an operand has to follow. Otherwise an operand has just ended.
    wanted: bool,
    parts: Vec<Part>,
}

/// Returns how errors name a token.
fn found_of(token: Token<'_>) -> Found
    ensures { result ≡ found_in (lexeme token.entry) }
{
    match token {
        Token::LeftBracket => Found::Open,
        Token::RightBracket => Found::Close,
        Token::Slash => Found::Slash,
        Token::Word(word) => found_word(word),
    }
}

/// Returns how errors name a word.
fn found_word(word: &str) -> Found
    ensures { result ≡ found_in (Word word.now) }
{
    if word == "AND" {
        Found::And
    } else if word == "OR" {
        Found::Or
    } else if word == "WITH" {
        Found::With
    } else if licence_name(word).is_some() {
        Found::Licence
    } else {
        Found::Unknown
    }
}

/// Returns the refusal of the next token.
pub(crate) fn refuse(text: &str, expected: Expected, next: Option<Spanned<'_>>) -> Refusal
    ensures { (after : List Placed) → IsNext next.entry after → IsOf text.now after expected result }
{
    match next {
        Some(token) => Refusal::Unexpected {
            expected,
            found: found_of(token.token),
            span: token.start..token.end,
        },
        None => Refusal::Unexpected {
            expected,
            found: Found::End,
            span: text.len()..text.len(),
        },
    }
}

/// Appends a part. Drops it if the allocation fails.
fn push(parts: &mut Vec<Part>, part: Part) -> Result<(), AllocError>
    ensures { OnOk result (pieces parts.new.items ≡ pieces parts.old.items ++ piece_of part ∷ []) }
{
    parts.push(part)?;
    Ok(())
}

/// An exception, and the position where it ends.
#[derive(Clone, Copy)]
pub(crate) struct Exception<'a> {
    pub word: &'a str,
    pub end: usize,
}

/// Reads the exception after a licence: the identifier after `WITH`, and the position where it ends.
pub(crate) fn exception_at<'a>(text: &'a str, from: usize) -> Result<Option<Exception<'a>>, Refusal>
    requires { IsCharBoundary text.now from }
    ensures found { IfOk result (λ r. MatchOption r
        (LacksWith (left text.now from))
        (λ e. IsExcepted (left text.now from) e.word.now (left text.now e.end))) }
    ensures boundary { IfOk result (λ r. IfSome r (λ e. IsCharBoundary text.now e.end)) }
    ensures order { IfOk result (λ r. IfSome r (λ e. from < e.end)) }
    ensures refused { IfErr result (LacksException text.now (left text.now from)) }
{
    let Some(with) = token_at(text, from) else {
        return Ok(None);
    };
    if !is_with(with.token) {
        return Ok(None);
    }
    let next = token_at(text, with.end);
    let Some(name) = next else {
        return Err(refuse(text, Expected::Exception, None));
    };
    match identifier_in(name.token) {
        Some(word) => Ok(Some(Exception {
            word,
            end: name.end,
        })),
        None => Err(refuse(text, Expected::Exception, Some(name))),
    }
}

/// Returns whether a token is `WITH`.
fn is_with(token: Token<'_>) -> bool
    ensures { IsTrue result ↔ (lexeme token.entry ≡ Word (codes "WITH")) }
{
    match token {
        Token::Word(word) => word == "WITH",
        Token::LeftBracket | Token::RightBracket | Token::Slash => false,
    }
}

/// Returns the identifier, if the token is one.
fn identifier_in<'a>(token: Token<'a>) -> Option<&'a str>
    ensures { MatchOption result
        ((t : Term) (n : ℕ) (ps : List Piece) → excepts t n ps (lexeme token.entry) ≡ None)
        (λ w. (lexeme token.entry ≡ Word w.now) × (is_identifier w.now ≡ true)) }
{
    match token {
        Token::Word(word) => {
            if is_identifier(word) {
                Some(word)
            } else {
                None
            }
        }
        Token::LeftBracket | Token::RightBracket | Token::Slash => None,
    }
}

/// Returns the operator, if the token is one.
fn operator_in(token: Token<'_>) -> Option<Part>
    ensures { MatchOption result
        (IsNoOperator (lexeme token.entry))
        (λ p. (n : ℕ) (ps : List Piece) → behind n ps (lexeme token.entry) ≡ at Wants n (ps ++ piece_of p ∷ [])) }
{
    match token {
        Token::Slash => Some(Part::Or),
        Token::Word(word) => {
            if word == "AND" {
                Some(Part::And)
            } else if word == "OR" {
                Some(Part::Or)
            } else {
                None
            }
        }
        Token::LeftBracket | Token::RightBracket => None,
    }
}

/// Returns the name of a licence, if the token is one, and whether `+` follows it.
pub(crate) fn name_in<'a>(token: Token<'a>) -> Option<(&'a str, bool)>
    ensures { MatchOption result
        (lexeme token.entry ≢ LeftBracket → (n : ℕ) (ps : List Piece) → operand n ps (lexeme token.entry) ≡ None)
        (λ r. (n : ℕ) (ps : List Piece) → operand n ps (lexeme token.entry)
        ≡ at (Licensed (record { name = r.0.now; or_later = r.1; exception = None })) n ps) }
{
    match token {
        Token::Word(word) => licence_name(word),
        Token::LeftBracket | Token::RightBracket | Token::Slash => None,
    }
}

/// Returns whether a token is `(`.
fn is_open(token: Token<'_>) -> bool
    ensures { IsTrue result ↔ (lexeme token.entry ≡ LeftBracket) }
{
    matches!(token, Token::LeftBracket)
}

/// Returns whether a token is `)`.
fn is_close(token: Token<'_>) -> bool
    ensures { IsTrue result ↔ (lexeme token.entry ≡ RightBracket) }
{
    matches!(token, Token::RightBracket)
}

impl<'a> Reader<'a> {
    /// Appends a licence, and continues after it.
    fn add(
        &mut self,
        alloc: Global,
        name: &str,
        or_later: bool,
        exception: Option<String>,
        end: usize,
    ) -> Result<(), AllocError>
        ensures same { self.new.text ≡ self.old.text }
        ensures place { OnOk result (self.new.place ≡ end) }
        ensures depth { OnOk result (self.new.depth ≡ self.old.depth) }
        ensures wanted { OnOk result (self.new.wanted ≡ false) }
        ensures parts { OnOk result (pieces self.new.parts.items ≡ pieces self.old.parts.items
            ++ Named (record { name = name.now; or_later = or_later; exception = text_of exception }) ∷ []) }
    {
        let id = String::from_str(alloc, name)?;
        push(
            &mut self.parts,
            Part::Licence(Licence {
                id,
                or_later,
                exception,
            }),
        )?;
        self.wanted = false;
        self.place = end;
        Ok(())
    }

    /// Reads a licence, whose name ends at `end`, and the exception that may follow it.
    fn licence(
        &mut self,
        alloc: Global,
        name: &str,
        or_later: bool,
        end: usize,
    ) -> Result<(), Refusal>
        requires boundary { IsCharBoundary self.old.text.now end }
        requires order { self.old.place < end }
        requires depth { self.old.depth ≤ self.old.place }
        requires reached { IsReached self.old.text.now (left self.old.text.now end) (record {
          mode = Licensed (record { name = name.now; or_later = or_later; exception = None });
          depth = self.old.depth;
          parts = pieces self.old.parts.items;
        }) }
        ensures same { self.new.text ≡ self.old.text }
        ensures reading { OnOk result (IsReading self.new) }
        ensures further { OnOk result (self.old.place < self.new.place) }
        ensures refused { IfErr result (IsStopped self.old.text.now) }
    {
        let found = match exception_at(self.text, end) {
            Ok(found) => found,
            Err(refusal) => return Err(refusal),
        };
        match found {
            Some(exception) => {
                let text = String::from_str(alloc, exception.word)?;
                self.add(alloc, name, or_later, Some(text), exception.end)?;
                Ok(())
            }
            None => {
                self.add(alloc, name, or_later, None, end)?;
                Ok(())
            }
        }
    }

    /// Reads `(` or a licence.
    fn operand(&mut self, alloc: Global) -> Result<(), Refusal>
        requires reading { IsReading self.old }
        requires wanted { self.old.wanted ≡ true }
        ensures same { self.new.text ≡ self.old.text }
        ensures reading { OnOk result (IsReading self.new) }
        ensures further { OnOk result (self.old.place < self.new.place) }
        ensures refused { IfErr result (IsStopped self.old.text.now) }
    {
        let next = token_at(self.text, self.place);
        let Some(token) = next else {
            return Err(refuse(self.text, Expected::Licence, None));
        };
        if is_open(token.token) {
            push(&mut self.parts, Part::Open)?;
            self.depth += 1;
            self.place = token.end;
            return Ok(());
        }
        match name_in(token.token) {
            Some((name, or_later)) => self.licence(alloc, name, or_later, token.end),
            None => Err(refuse(self.text, Expected::Licence, Some(token))),
        }
    }

    /// Reads an operator or `)`. Returns `false` if the expression ends instead.
    fn behind(&mut self) -> Result<bool, Refusal>
        requires reading { IsReading self.old }
        requires wanted { self.old.wanted ≡ false }
        ensures same { self.new.text ≡ self.old.text }
        ensures reading { IfOk result (λ more. IsTrue more → IsReading self.new) }
        ensures further { IfOk result (λ more. IsTrue more → self.old.place < self.new.place) }
        ensures ended { IfOk result
            (λ more. IsFalse more → IsRead self.old.text.now (pieces self.new.parts.items)) }
        ensures refused { IfErr result (IsStopped self.old.text.now) }
    {
        let next = token_at(self.text, self.place);
        let Some(token) = next else {
            if self.depth == 0 {
                return Ok(false);
            }
            return Err(refuse(self.text, Expected::OperatorOrClose, None));
        };
        if let Some(part) = operator_in(token.token) {
            push(&mut self.parts, part)?;
            self.wanted = true;
            self.place = token.end;
            return Ok(true);
        }
        if self.depth == 0 {
            return Err(refuse(self.text, Expected::Operator, Some(token)));
        }
        if !is_close(token.token) {
            return Err(refuse(self.text, Expected::OperatorOrClose, Some(token)));
        }
        push(&mut self.parts, Part::Close)?;
        self.depth -= 1;
        self.place = token.end;
        Ok(true)
    }
}

/// Reads the parts of a text.
pub(crate) fn read_parts(alloc: Global, text: &str) -> Result<Vec<Part>, Refusal>
    ensures read { IfOk result (λ ps. IsRead text.now (pieces ps.items)) }
    ensures refused { IfErr result (IsStopped text.now) }
{
    let mut reader = Reader {
        text,
        place: 0,
        depth: 0,
        wanted: true,
        parts: Vec::new(alloc),
    };
    'tokens: loop {
        if reader.wanted {
            reader.operand(alloc)?;
        } else if !reader.behind()? {
            return Ok(reader.parts);
        }
    }
}
