//! Measures how deeply the groups of a text are nested.

ghost use Rattle.std.specs.Prelude.{◌≡◌, ◌<◌, ◌^◌, IfSome, IfNone};
ghost use Rattle.cargo_platform.specs.Tokens.{lexeme};
ghost use Rattle.cargo_platform.specs.Nesting.{open_after, IsNesting, IsNestedWithin, IsPassedAt};
ghost use Rattle.cargo_platform.specs.Nesting.{IsNestedBeyond, IsDeepAsTree};

use crate::tokens::{Token, Tokenizer};

/// Returns how deeply the groups of a text are nested: the greatest number of parentheses that are open at once. Only
/// parentheses that are tokens count: none within quotes, and none after a lexical fault. A `)` that closes none is
/// ignored. The parenthesis of a key's `cfg(` counts too.
pub fn nesting(text: &str) -> usize
    // The greatest number of parentheses that are open at once, over the cut.
    ensures nesting { IsNesting text.now result }
    // For an expression, the number of groups on the longest path down its tree.
    ensures tree { IsDeepAsTree text.now result }
{
    let mut unclosed: usize = 0;
    let mut most: usize = 0;
    'tokens: for item in Tokenizer::new(text) {
        match item {
            Ok(spanned) => {
                unclosed = open_after(unclosed, &spanned.token);
                most = most.max(unclosed);
            }
            Err(_) => return most,
        }
    }
    most
}

/// Returns the byte position of the first `(` with which more than `most` parentheses are open, or `None` if a text is
/// nested no deeper than that.
pub fn nesting_beyond(text: &str, most: usize) -> Option<usize>
    // The first `(` with which more than `most` parentheses are open, or nothing if there is none.
    ensures passed { IfSome result (λ at. IsPassedAt text.now most at) }
    ensures beyond { IfSome result (λ _. IsNestedBeyond text.now most) }
    ensures within { IfNone result (IsNestedWithin text.now most) }
{
    // A text has no more parentheses than bytes.
    if text.len() <= most {
        return None;
    }
    let mut unclosed: usize = 0;
    'tokens: for item in Tokenizer::new(text) {
        match item {
            Ok(spanned) => {
                unclosed = open_after(unclosed, &spanned.token);
                if most < unclosed {
                    return Some(spanned.start);
                }
            }
            Err(_) => return None,
        }
    }
    None
}

/// Returns how many parentheses are open after a token, if `before` are open before it.
#[inline(always)]
fn open_after(before: usize, token: &Token<'_>) -> usize
    requires room { before < 2 ^ 63 }
    ensures { result ≡ open_after before (lexeme token.now) }
{
    match token {
        Token::LeftParen => before + 1,
        Token::RightParen => before.saturating_sub(1),
        Token::Ident(..) | Token::Comma | Token::Equals | Token::String(_) => before,
    }
}
