//! Cuts the tokens off a text, each when it is needed.

ghost use Rattle.std.specs.Prelude.{◌≡◌, ◌<◌, ◌≤◌, ◌↔◌, ℕ, [], ◌∷◌, true, false, drop, length, slice_index, IfSome};
ghost use Rattle.std.specs.Prelude.{MatchOption};
ghost use Rattle.std.specs.Str.{IsCharBoundary};
ghost use Rattle.spdx_expressions.specs.Tokens.{is_space, is_mark, is_word_byte, tokens_from, placed, lexeme, mark};

/// A token.
#[derive(Clone, Copy)]
pub(crate) enum Token<'a> {
    LeftBracket,
    RightBracket,
    Slash,
    /// Consecutive bytes that are neither spaces nor marks.
    Word(&'a str),
}

/// A token, and the positions in the text at which it begins and ends.
#[derive(Clone, Copy)]
pub(crate) struct Spanned<'a> {
    pub token: Token<'a>,
    pub start: usize,
    pub end: usize,
}

/// Returns the next token from a position on, if there is one.
pub(crate) fn token_at<'a>(text: &'a str, from: usize) -> Option<Spanned<'a>>
    requires { IsCharBoundary text.now from }
    ensures next { MatchOption result
        (tokens_from from (drop from text.now) ≡ [])
        (λ s. tokens_from from (drop from text.now) ≡ placed s ∷ tokens_from s.end (drop s.end text.now)) }
    ensures boundary { IfSome result (λ s. IsCharBoundary text.now s.end) }
    ensures order { IfSome result (λ s. from < s.end) }
    ensures within { IfSome result (λ s. s.end ≤ length text.now) }
{
    let start = spaces_end(text, from);
    let bytes = text.as_bytes();
    if start == bytes.len() {
        return None;
    }
    let Some(token) = mark_of(bytes[start]) else {
        return Some(word_at(text, start));
    };
    Some(Spanned {
        token,
        start,
        end: start + 1,
    })
}

/// Returns the token of a byte, if the byte is a mark.
fn mark_of<'a>(byte: u8) -> Option<Token<'a>>
    ensures { MatchOption result (is_mark byte ≡ false) (λ t. (is_mark byte ≡ true) × (lexeme t ≡ mark byte)) }
{
    if byte == b'(' {
        Some(Token::LeftBracket)
    } else if byte == b')' {
        Some(Token::RightBracket)
    } else if byte == b'/' {
        Some(Token::Slash)
    } else {
        None
    }
}

/// Returns whether a byte is white space between tokens.
fn is_space(byte: u8) -> bool
    ensures { result ≡ is_space byte }
{
    byte == b' ' || byte == b'\t'
}

/// Returns whether a byte belongs to a word.
fn is_word_byte(byte: u8) -> bool
    ensures { result ≡ is_word_byte byte }
{
    !(is_space(byte) || byte == b'(' || byte == b')' || byte == b'/')
}

/// Returns the word that begins at a position.
fn word_at<'a>(text: &'a str, start: usize) -> Spanned<'a>
    requires boundary { IsCharBoundary text.now start }
    requires within { start < length text.now }
    requires begins { is_word_byte (slice_index text.now start) ≡ true }
    ensures next { tokens_from start (drop start text.now)
        ≡ placed result ∷ tokens_from result.end (drop result.end text.now) }
    ensures boundary { IsCharBoundary text.now result.end }
    ensures order { start < result.end }
    ensures within { result.end ≤ length text.now }
{
    let end = word_end(text, start + 1);
    Spanned {
        token: Token::Word(&text[start..end]),
        start,
        end,
    }
}

/// Returns the first position from `from` on that has no space.
fn spaces_end(text: &str, from: usize) -> usize
    requires { IsCharBoundary text.now from }
    ensures order { from ≤ result }
    ensures within { result ≤ length text.now }
    ensures boundary { IsCharBoundary text.now result }
    ensures same { tokens_from from (drop from text.now) ≡ tokens_from result (drop result text.now) }
    ensures past { result < length text.now → is_space (slice_index text.now result) ≡ false }
{
    let bytes = text.as_bytes();
    let mut at = from;
    'spaces: while at < bytes.len() && is_space(bytes[at]) {
        at += 1;
    }
    at
}

/// Returns the first position from `from` on that has no byte of a word.
fn word_end(text: &str, from: usize) -> usize
    requires { from ≤ length text.now }
    ensures order { from ≤ result }
    ensures within { result ≤ length text.now }
    ensures word { (i : ℕ) → from ≤ i → i < result → is_word_byte (slice_index text.now i) ≡ true }
    ensures past { result < length text.now → is_word_byte (slice_index text.now result) ≡ false }
{
    let bytes = text.as_bytes();
    let mut at = from;
    'word: while at < bytes.len() && is_word_byte(bytes[at]) {
        at += 1;
    }
    at
}
