//! The tokens of texts.

use cargo_platform::{
    Spanned, Token, TokenFault, TokenFaultKind, Tokenizer, nesting, nesting_beyond,
};
use std::alloc::{AllocError, Global};
use test_rows::Fault;
use test_rows::bars::{add_text, barred};
use test_rows::fields::Fields;
use test_rows::forms::{add_text_of, word};

/// Returns the answer to a row whose words are `fields`. `call` is the part of its kind after the dot.
pub fn answer(alloc: Global, call: &str, fields: &mut Fields<'_>) -> Result<String, Fault> {
    let text = fields.text(alloc)?;
    match call {
        "tokens" => tokens(alloc, &text, false),
        "names" => tokens(alloc, &text, true),
        "left" => left(alloc, &text, fields.number()?),
        "nesting" => Ok(nesting_of(alloc, &text)?),
        "beyond" => beyond(alloc, &text, fields.number()?),
        _ => Err(Fault::Row("there is no such kind")),
    }
}

/// Returns the tokens of a text with their spans, or their names, and the error after them. The rest of the text has to
/// begin with each token, and there have to be as many tokens as the iterator counts.
fn tokens(alloc: Global, text: &str, is_called: bool) -> Result<String, Fault> {
    let mut out = String::new(alloc);
    let mut tokens = Tokenizer::new(text);
    let mut count = 0usize;
    for _ in 0..=text.len() {
        let left = tokens.rest();
        let Some(next) = tokens.next() else {
            if left.is_some() {
                add_surplus(&mut out, left)?;
            }
            break;
        };
        count = count.saturating_add(1);
        if !out.is_empty() {
            out.push(' ')?;
        }
        add_item(&mut out, next, is_called)?;
        if left != text.get(place_of(next)..) {
            add_surplus(&mut out, left)?;
        }
        if next.is_err() {
            break;
        }
    }
    if tokens.next().is_some() || tokens.next().is_some() {
        out.push_str(", but goes on")?;
    }
    if Tokenizer::new(text).count() != count {
        out.push_str(", but counts otherwise")?;
    }
    if out.is_empty() {
        Ok(word(alloc, "nothing")?)
    } else {
        Ok(out)
    }
}

/// Appends what is said to remain, if that is wrong.
fn add_surplus(out: &mut String, left: Option<&str>) -> Result<(), AllocError> {
    match left {
        Some(left) => add_text_of(out, ", but left is ", left),
        None => out.push_str(", but left is nothing"),
    }
}

fn place_of(item: Result<Spanned<'_>, TokenFault>) -> usize {
    match item {
        Ok(spanned) => spanned.start,
        Err(fault) => fault.at,
    }
}

fn add_item(
    out: &mut String,
    item: Result<Spanned<'_>, TokenFault>,
    is_called: bool,
) -> Result<(), AllocError> {
    match item {
        Ok(spanned) if is_called => out.push_str(spanned.token.classify()),
        Ok(spanned) => add_token(out, spanned),
        Err(fault) => add_fault(out, fault),
    }
}

fn add_token(out: &mut String, spanned: Spanned<'_>) -> Result<(), AllocError> {
    match spanned.token {
        Token::LeftParen => out.push('('),
        Token::RightParen => out.push(')'),
        Token::Comma => out.push(','),
        Token::Equals => out.push('='),
        Token::String(text) => add_text(out, text),
        Token::Ident(raw, name) => {
            if raw {
                out.push_str("r#")?;
            }
            out.push_str(name)
        }
    }?;
    let start = spanned.start;
    let end = spanned.end;
    write!(out, "@{start}..{end}")
}

fn add_fault(out: &mut String, fault: TokenFault) -> Result<(), AllocError> {
    match fault.kind {
        TokenFaultKind::UnterminatedString => out.push_str("unterminated")?,
        TokenFaultKind::MissingIdentifier => out.push_str("unnamed")?,
        TokenFaultKind::UnexpectedChar(c) => {
            let mut buffer = [0u8; 4];
            out.push_str("unexpected ")?;
            add_text(out, c.encode_utf8(&mut buffer))?;
        }
    }
    let at = fault.at;
    write!(out, "@{at}")
}

/// Returns the rest of a text after `count` items, which is queried twice.
fn left(alloc: Global, text: &str, count: u64) -> Result<String, Fault> {
    let mut tokens = Tokenizer::new(text);
    for _ in 0..count {
        let _ = tokens.next();
    }
    if tokens.rest() != tokens.rest() {
        return Ok(word(alloc, "this, and then that")?);
    }
    match tokens.rest() {
        Some(rest) => Ok(barred(alloc, rest)?),
        None => Ok(word(alloc, "nothing")?),
    }
}

/// Returns the nesting depth of a text.
fn nesting_of(alloc: Global, text: &str) -> Result<String, AllocError> {
    let nested = nesting(text);
    format!(in alloc; "{nested}")
}

/// Returns where a text is nested deeper than `most`.
fn beyond(alloc: Global, text: &str, most: u64) -> Result<String, Fault> {
    match nesting_beyond(text, most as usize) {
        Some(at) => Ok(format!(in alloc; "@{at}")?),
        None => Ok(word(alloc, "nowhere")?),
    }
}
