//! Names of keys, as a document spells them.

ghost use Rattle.std.specs.Prelude.{◌≡◌, [], IfOk, IfSome, IsTrue};
ghost use Rattle.toml_parser.specs.Reading.{key_view};
ghost use Rattle.toml_spans.specs.Spans.{LiesIn, IsWithin, at_span};
ghost use Rattle.toml_spans.specs.Names.{Spells, SpellsBetween, quote_in};

use crate::spans::Span;
use std::alloc::{AllocError, Global};
use toml_parser::bytes::is_bare;
use toml_parser::text::first;
use toml_parser::{ErrorKind, Key, ParseError, dotted_key, quoted, starts_string};

/// Returns whether a key consists of this one name.
fn is_name(key: &Key, name: &str) -> bool
    ensures { IsTrue result → key_view key.now ≡ ([], name.now) }
{
    if !key.path.is_empty() {
        return false;
    }
    key.last.as_str() == name
}

/// Returns whether a text is a key that consists of this one name. Fails if an allocation fails.
#[tactic(auto, using(crate::proofs::Views::nothing))]
pub fn spells(alloc: Global, text: &str, name: &str) -> Result<bool, AllocError>
    // A text that is said to spell a name spells it.
    ensures { IfOk result (λ b. IsTrue b → Spells text.now name.now) }
{
    match dotted_key(alloc, text) {
        Ok((key, rest)) => {
            if !rest.is_empty() {
                return Ok(false);
            }
            Ok(is_name(&key, name))
        }
        Err(ParseError::OutOfMemory) => Err(AllocError),
        Err(ParseError::At(_, _, _)) => Ok(false),
    }
}

/// Returns the number of bytes at the front of a text of which an unquoted name may consist.
fn bare_len(text: &str) -> usize {
    text.bytes().take_while(|byte| is_bare(*byte)).count()
}

/// Reads the name at the front of a text: a string, or an unquoted name. Returns it with the text after it. Fails if
/// there is no name, or an allocation fails.
pub fn name_at_front(alloc: Global, text: &str) -> Result<(String, &str), ParseError> {
    if starts_string(text) {
        return quoted(alloc, text);
    }
    let length = bare_len(text);
    match (text.get(..length), text.get(length..)) {
        (Some(name), Some(rest)) if length > 0 => Ok((String::from_str(alloc, name)?, rest)),
        _ => Err(ParseError::at(ErrorKind::Key, text)),
    }
}

/// The state of a reader of the text between the quotes of a basic string.
#[derive(Clone, Copy, Drop)]
enum Reading {
    /// No escape is open.
    Plain,
    /// The last character was a backslash.
    Escape,
    /// This number of hexadecimal digits is left of an escape with this value so far.
    Digits(u32, u32),
}

/// A reader of the text between the quotes of a basic string.
#[derive(Clone, Copy, Drop)]
struct Escapes {
    reading: Reading,
    /// The number of bytes of the name that the text before spells.
    spelled: usize,
}

impl Escapes {
    /// Adds a number of bytes to those that were spelled.
    fn spell(self, bytes: usize) -> Escapes {
        Escapes {
            reading: Reading::Plain,
            spelled: self.spelled.saturating_add(bytes),
        }
    }

    /// Returns the reader with another state.
    fn with(self, reading: Reading) -> Escapes {
        Escapes {
            reading,
            spelled: self.spelled,
        }
    }

    /// Returns the reader after the character behind a backslash.
    fn after_backslash(self, c: char) -> Escapes {
        match c {
            'x' => self.with(Reading::Digits(2, 0)),
            'u' => self.with(Reading::Digits(4, 0)),
            'U' => self.with(Reading::Digits(8, 0)),
            _ => self.spell(1),
        }
    }

    /// Returns the reader after a hexadecimal digit, of which `left` were left.
    fn after_digit(self, c: char, left: u32, value: u32) -> Escapes {
        let digit = c.to_digit(16).unwrap_or(0);
        let value = value.saturating_mul(16).saturating_add(digit);
        if left > 1 {
            return self.with(Reading::Digits(left - 1, value));
        }
        let character = char::from_u32(value).unwrap_or(char::REPLACEMENT_CHARACTER);
        self.spell(character.len_utf8())
    }

    /// Returns the reader after a character.
    fn after(self, c: char) -> Escapes {
        match self.reading {
            Reading::Plain if c == '\\' => self.with(Reading::Escape),
            Reading::Plain => self.spell(c.len_utf8()),
            Reading::Escape => self.after_backslash(c),
            Reading::Digits(left, value) => self.after_digit(c, left, value),
        }
    }

    /// Returns whether the text before spells the first `count` bytes of the name.
    fn has_spelled(self, count: usize) -> bool {
        matches!(self.reading, Reading::Plain) && self.spelled >= count
    }
}

/// Returns the number of bytes of a text that spell the first `count` bytes of its name. `text` is what is between the
/// quotes of a basic string, with what follows.
fn spelled_by(text: &str, count: usize) -> usize {
    let mut escapes = Escapes {
        reading: Reading::Plain,
        spelled: 0,
    };
    for (place, c) in text.char_indices() {
        if escapes.has_spelled(count) {
            return place;
        }
        escapes = escapes.after(c);
    }
    text.len()
}

/// Returns the span that spells the bytes `part` of a name, where the name's own span is `name`.
fn span_of_part(text: &str, name: Span, part: Span) -> Span {
    let inside = name.start.saturating_add(1);
    match name.text_in(text) {
        Some(spelled) if first(spelled) == b'"' => {
            let behind_quote = spelled.get(1..).unwrap_or("");
            Span {
                start: inside.saturating_add(spelled_by(behind_quote, part.start)),
                end: inside.saturating_add(spelled_by(behind_quote, part.end)),
            }
        }
        Some(spelled) if first(spelled) == b'\'' => Span {
            start: inside.saturating_add(part.start),
            end: inside.saturating_add(part.end),
        },
        _ => Span {
            start: name.start.saturating_add(part.start),
            end: name.start.saturating_add(part.end),
        },
    }
}

/// Returns the quote of a name that is a literal string, and else that of a basic string.
fn quote_of(spelled: &str) -> &'static str
    ensures { result.now ≡ quote_in spelled.now }
{
    if first(spelled) == b'\'' { "'" } else { "\"" }
}

/// Returns whether a text spells a name between two such quotes.
fn spells_between(alloc: Global, quote: &str, text: &str, name: &str) -> Result<bool, AllocError>
    ensures { IfOk result (λ b. IsTrue b → SpellsBetween quote.now text.now name.now) }
{
    let mut key = String::from_str(alloc, quote)?;
    key.push_str(text)?;
    key.push_str(quote)?;
    spells(alloc, key.as_str(), name)
}

/// Returns the span in `text` that spells a part of a name. It never begins or ends within an escape. `span` is where
/// the text spells `name`, and `part` has the bytes of the part in the name. Returns `None` if no span spells exactly
/// the part. Fails if an allocation fails.
pub fn part_of_name(
    alloc: Global,
    text: &str,
    span: Span,
    name: &str,
    part: Span,
) -> Result<Option<Span>, AllocError>
    // The span lies in the text.
    ensures lies { IfOk result (λ found. IfSome found (λ s. LiesIn text.now s)) }
    // The span lies within that of the name.
    ensures within { IfOk result (λ found. IfSome found (λ s. IsWithin s span)) }
    // Between quotes, the text of the span spells the part of the name.
    ensures spells { IfOk result (λ found. IfSome found
        (λ s. SpellsBetween (quote_in (at_span text.now span)) (at_span text.now s) (at_span name.now part))) }
{
    let Some(spelled) = span.text_in(text) else {
        return Ok(None);
    };
    let found = span_of_part(text, span, part);
    match (found.text_in(text), part.text_in(name)) {
        (Some(source), Some(wanted)) => {
            let is_spelled = spells_between(alloc, quote_of(spelled), source, wanted)?;
            if is_spelled && found.is_within(span) {
                return Ok(Some(found));
            }
            Ok(None)
        }
        _ => Ok(None),
    }
}
