//! A rejected key with its mistakes corrected, each by a fixed rule.

use known_targets::KnownTarget;
use predicate_classes::rustc_names::KEYS_WITH_VALUES;
use std::alloc::{AllocError, Global};

/// A piece of a rejected key.
#[derive(Clone, Copy, Drop)]
enum Piece<'a> {
    /// A name, which may contain dashes and a raw mark.
    Word(&'a str),
    /// The text between two quotes.
    Text(&'a str),
    /// `=`, `==` or `:`.
    Equals,
    /// `(`, `)`, `[`, `]` or `,`.
    Mark(char),
    /// Anything else.
    Other,
}

/// Returns the quote that ends a text which begins with this one, or `None` if the character is no quote. Word
/// processors write other quotes than Cargo reads.
fn closing_quote(first: char) -> Option<char> {
    match first {
        '"' | '\'' | '”' | '’' => Some(first),
        '“' => Some('”'),
        '‘' => Some('’'),
        '„' => Some('“'),
        _ => None,
    }
}

/// Returns whether a name may contain the character.
fn is_in_word(c: char) -> bool {
    c.is_ascii_alphanumeric()
        || matches!(c, '_' | '-' | '#' | '.')
        || !c.is_ascii() && closing_quote(c).is_none()
}

/// Returns the number of bytes before the first character that a name cannot contain.
fn word_length(text: &str) -> usize {
    for (at, c) in text.char_indices() {
        if !is_in_word(c) {
            return at;
        }
    }
    text.len()
}

/// Returns the text up to the next `quote`, and the rest after it.
fn text_at_front(rest: &str, quote: char) -> (Piece<'_>, &str) {
    match rest.split_once(quote) {
        Some((text, rest)) => (Piece::Text(text), rest),
        None => (Piece::Other, ""),
    }
}

/// Returns the piece that begins with the character `first`, and the rest after it. `text` begins with `first`, and
/// `rest` is the text after it.
fn piece_at_front<'a>(text: &'a str, first: char, rest: &'a str) -> (Piece<'a>, &'a str) {
    if let Some(quote) = closing_quote(first) {
        return text_at_front(rest, quote);
    }
    match first {
        '=' => (Piece::Equals, rest.strip_prefix("=").unwrap_or(rest)),
        ':' => (Piece::Equals, rest),
        '(' | ')' | '[' | ']' | ',' => (Piece::Mark(first), rest),
        _ if is_in_word(first) => {
            let end = word_length(text);
            let word = text.get(..end).unwrap_or("");
            (Piece::Word(word), text.get(end..).unwrap_or(""))
        }
        _ => (Piece::Other, rest),
    }
}

/// Returns the pieces of a text.
fn pieces_of(alloc: Global, text: &str) -> Result<Vec<Piece<'_>>, AllocError> {
    let mut pieces = Vec::new(alloc);
    let mut left = text.trim_start();
    for _ in 0..text.len() {
        let Some(first) = left.chars().next() else {
            break;
        };
        let rest = left.get(first.len_utf8()..).unwrap_or("");
        let (piece, rest) = piece_at_front(left, first, rest);
        pieces.push(piece)?;
        left = rest.trim_start();
    }
    Ok(pieces)
}

/// A group of conditions that is open.
#[derive(Clone, Copy, Drop)]
struct Group {
    /// True if the group is `all`, `any` or `not`, and false if its parentheses are left out.
    is_kept: bool,
    /// The number of its conditions so far.
    members: usize,
}

/// A rejected key that is being corrected.
#[derive(Drop)]
struct Repair<'a> {
    pieces: Vec<Piece<'a>>,
    text: String,
    /// The group that is open.
    group: Group,
    /// The groups around it.
    around: Vec<Group>,
}

/// Returns `all`, `any` or `not` for a word that is one of them in any case.
fn group_word(word: &str) -> Option<&'static str> {
    for group in ["all", "any", "not"] {
        if word.eq_ignore_ascii_case(group) {
            return Some(group);
        }
    }
    None
}

/// Returns whether a word is `cfg` in any case.
fn is_cfg(word: &str) -> bool {
    word.eq_ignore_ascii_case("cfg")
}

/// Returns whether a word joins conditions in other languages, or opens a group.
fn is_join(word: &str) -> bool {
    group_word(word).is_some()
        || is_cfg(word)
        || matches!(word, "or" | "OR" | "and" | "AND" | "in" | "is" | "if")
}

impl<'a> Repair<'a> {
    /// Returns the piece at an index.
    fn piece(&self, at: usize) -> Piece<'a> {
        match self.pieces.get(at) {
            Some(piece) => *piece,
            None => Piece::Other,
        }
    }

    /// Begins a condition in the open group, and adds the comma before it. Returns false if the group takes no more
    /// conditions, since its parentheses are left out.
    fn begin(&mut self) -> Result<bool, AllocError> {
        let Group { is_kept, members } = self.group;
        self.group.members = members.saturating_add(1);
        if members > 0 {
            self.text.push_str(", ")?;
        }
        Ok(is_kept || members == 0)
    }

    /// Opens a group.
    fn open(&mut self, is_kept: bool) -> Result<(), AllocError> {
        self.around.push(self.group)?;
        self.group = Group {
            is_kept,
            members: 0,
        };
        Ok(())
    }

    /// Closes the open group. A parenthesis that closes no group is left out.
    fn close(&mut self) -> Result<(), AllocError> {
        if let Some(group) = self.around.pop() {
            if self.group.is_kept {
                self.text.push_str(")")?;
            }
            self.group = group;
        }
        Ok(())
    }

    /// Adds a name, with underscores in place of dashes.
    fn add_name(&mut self, name: &str) -> Result<(), AllocError> {
        for c in name.chars() {
            self.text.push(if c == '-' { '_' } else { c })?;
        }
        Ok(())
    }

    /// Adds the pair of a key and a value.
    fn add_pair(&mut self, key: &str, value: &str) -> Result<(), AllocError> {
        self.add_name(key)?;
        self.text.push_str(" = \"")?;
        self.text.push_str(value)?;
        self.text.push_str("\"")
    }

    /// Adds `any(..)` with a pair for each text of a list that begins at an index. Returns the index after the list, or
    /// `None` if there is anything else in it.
    fn add_list(&mut self, key: &str, first: usize) -> Result<Option<usize>, AllocError> {
        self.text.push_str("any(")?;
        let mut comma = "";
        for at in first..self.pieces.len() {
            match self.piece(at) {
                Piece::Text(value) => {
                    self.text.push_str(comma)?;
                    comma = ", ";
                    self.add_pair(key, value)?;
                }
                Piece::Mark(',') => {}
                Piece::Mark(']' | ')') => {
                    self.text.push_str(")")?;
                    return Ok(Some(at.saturating_add(1)));
                }
                _ => return Ok(None),
            }
        }
        Ok(None)
    }

    /// Adds a key with the value, or the list of values, at an index. Returns the index after it, or `None` if there is
    /// neither.
    fn add_values(&mut self, key: &str, at: usize) -> Result<Option<usize>, AllocError> {
        let next = at.saturating_add(1);
        match self.piece(at) {
            Piece::Text(value) | Piece::Word(value) => {
                self.add_pair(key, value)?;
                Ok(Some(next))
            }
            Piece::Mark('[' | '(') => self.add_list(key, next),
            _ => Ok(None),
        }
    }

    /// Opens the group of this word, `cfg` among them, whose parentheses are left out. Returns the index `next` after
    /// the parenthesis, or `None` if the word is that of no group.
    fn add_group(&mut self, word: &str, next: usize) -> Result<Option<usize>, AllocError> {
        if is_cfg(word) {
            self.open(false)?;
            return Ok(Some(next));
        }
        match group_word(word) {
            Some(group) => {
                self.text.push_str(group)?;
                self.text.push_str("(")?;
                self.open(true)?;
                Ok(Some(next))
            }
            None => Ok(None),
        }
    }

    /// Adds a name that is followed by the piece at index `next`. Returns this index, or `None` if a word for another
    /// use, or a value in place of the next condition, is meant.
    fn add_alone(&mut self, word: &str, next: usize) -> Result<Option<usize>, AllocError> {
        let is_followed = match self.piece(next) {
            Piece::Word(_) => true,
            _ => false,
        };
        if is_join(word) || is_followed && KEYS_WITH_VALUES.contains(&word) {
            return Ok(None);
        }
        self.add_name(word)?;
        Ok(Some(next))
    }

    /// Adds the name, the pair or the beginning of the group at an index, which begins with a word. Returns the index
    /// after it, or `None` if no rule corrects it.
    fn add_word(&mut self, word: &str, at: usize) -> Result<Option<usize>, AllocError> {
        let next = at.saturating_add(1);
        let behind = next.saturating_add(1);
        match self.piece(next) {
            Piece::Mark('(') => self.add_group(word, behind),
            Piece::Equals | Piece::Word("in") => self.add_values(word, behind),
            Piece::Text(_) => self.add_values(word, next),
            _ => self.add_alone(word, next),
        }
    }

    /// Adds what begins at an index. Returns the index after it, or `None` if no rule corrects it.
    fn add(&mut self, at: usize) -> Result<Option<usize>, AllocError> {
        let next = at.saturating_add(1);
        match self.piece(at) {
            Piece::Mark(',') => Ok(Some(next)),
            Piece::Mark(')') => {
                self.close()?;
                Ok(Some(next))
            }
            Piece::Mark('(') if self.begin()? => {
                self.open(false)?;
                Ok(Some(next))
            }
            Piece::Word(word) if self.begin()? => self.add_word(word, at),
            _ => Ok(None),
        }
    }
}

/// Returns a text without the double quotes around it, if there are any.
fn without_quotes(text: &str) -> &str {
    match text.strip_prefix("\"") {
        Some(inside) => inside.strip_suffix("\"").unwrap_or(text),
        None => text,
    }
}

/// Returns a key without spaces and quotes around it, and without the words of an attribute or a macro.
fn without_marks(key: &str) -> &str {
    let text = without_quotes(key.trim());
    for mark in ["#![", "#[", "["] {
        if let Some(inside) = text.strip_prefix(mark) {
            return inside.strip_suffix("]").unwrap_or(inside);
        }
    }
    text.strip_prefix("cfg!").unwrap_or(text)
}

/// Returns the corrected key of these pieces, or `None` if no rule corrects one of them.
fn repaired_of(alloc: Global, pieces: Vec<Piece<'_>>) -> Result<Option<String>, AllocError> {
    let count = pieces.len();
    let mut repair = Repair {
        pieces,
        text: String::from_str(alloc, "cfg(")?,
        group: Group {
            is_kept: false,
            members: 0,
        },
        around: Vec::new(alloc),
    };
    let mut at = 0;
    for _ in 0..count {
        if at < count {
            match repair.add(at)? {
                Some(next) => at = next,
                None => return Ok(None),
            }
        }
    }
    for _ in 0..repair.around.len() {
        repair.close()?;
    }
    repair.text.push_str(")")?;
    Ok(Some(repair.text))
}

/// Returns the key that may be meant by a rejected one. It may be rejected too. Fails if memory is refused.
///
/// These rules correct a mistake each: spaces, double quotes and brackets around the key, `#[cfg(..)]`, and `cfg!(..)`
/// are left out; `cfg(..)` is around the whole key, and nowhere else; parentheses at the end, and commas, are added or
/// left out; lists of values become `any(..)`; values are in double quotes; `=` is in place of `:` and `==`; names have
/// underscores; and `cfg`, `all`, `any` and `not` are in lower case.
pub fn repaired_key(alloc: Global, key: &str) -> Result<Option<String>, AllocError> {
    let text = without_marks(key);
    if KnownTarget::by_name(text).is_some() {
        return Ok(Some(String::from_str(alloc, text)?));
    }
    let pieces = pieces_of(alloc, text)?;
    if pieces.len() < 2 {
        return Ok(None);
    }
    repaired_of(alloc, pieces)
}
