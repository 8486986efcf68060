//! The spans of the names and pairs in the text of a key.

use cargo_platform::{Token, Tokenizer, inside_cfg};
use std::alloc::{AllocError, Global};
use toml_spans::Span;

/// The text before the expression of a key.
const OPENED: &str = "cfg(";

/// Converts a span of the expression to one of the key.
fn in_key(start: usize, end: usize) -> Span {
    Span {
        start: start.saturating_add(OPENED.len()),
        end: end.saturating_add(OPENED.len()),
    }
}

/// Returns the spans of the names and pairs in a key that is an expression, from left to right. Fails if memory is
/// refused.
pub fn spans_of(alloc: Global, key: &str) -> Result<Vec<Span>, AllocError> {
    let mut spans = Vec::new(alloc);
    let text = inside_cfg(key).unwrap_or("");
    // The span of the last name or key of a pair, with that of its value if it was read.
    let mut begun: Option<Span> = None;
    let mut tokens = Tokenizer::new(text);
    'tokens: for _ in 0..text.len() {
        let Some(Ok(token)) = tokens.next() else {
            break;
        };
        match token.token {
            Token::Ident(false, "true" | "false") | Token::Equals => {}
            Token::Ident(_, _) => begun = Some(in_key(token.start, token.end)),
            Token::LeftParen => begun = None,
            Token::String(_) => {
                begun = begun.map(|span| Span {
                    start: span.start,
                    end: in_key(0, token.end).end,
                });
            }
            Token::Comma | Token::RightParen => {
                if let Some(span) = begun {
                    spans.push(span)?;
                }
                begun = None;
            }
        }
    }
    if let Some(span) = begun {
        spans.push(span)?;
    }
    Ok(spans)
}
