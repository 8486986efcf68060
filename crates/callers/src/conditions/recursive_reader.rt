//! A second parser of expressions, by recursive descent over the library's tokens. It is written from the grammar in
//! the library's GRAMMAR page and calls nothing of the library but `Tokenizer`. Tests compare it with the library's own
//! parser, which keeps a stack of open groups.

use cargo_platform::{Cfg, CfgExpr, Ident, Token, Tokenizer};
use std::alloc::Global;
use std::process::Abort;

/// Returns the tree of an expression, or `None` if the text is rejected.
pub fn read(rt: &impl Abort, alloc: Global, text: &str) -> Option<CfgExpr> {
    let mut tokens = Vec::new(alloc);
    for item in Tokenizer::new(text) {
        match item {
            Ok(spanned) => tokens.push(spanned.token).expect(rt, "memory"),
            Err(_) => return None,
        }
    }
    let depth = tokens.len().saturating_add(1);
    match expression(rt, alloc, &tokens, depth) {
        Some((tree, rest)) if rest.is_empty() => Some(tree),
        _ => None,
    }
}

/// Parses an expression at the front of the tokens, and returns it with the tokens after it. `depth` is more than the
/// number of tokens, since each level of the recursion begins with a token.
#[cycle(reader)]
fn expression<'t, 'a>(
    rt: &impl Abort,
    alloc: Global,
    tokens: &'t [Token<'a>],
    depth: usize,
) -> Option<(CfgExpr, &'t [Token<'a>])> {
    let depth = depth
        .checked_sub(1)
        .expect(rt, "a depth above the number of tokens");
    let [Token::Ident(raw, name), rest @ ..] = tokens else {
        return None;
    };
    match (*raw, *name) {
        (false, "true") => Some((CfgExpr::True, rest)),
        (false, "false") => Some((CfgExpr::False, rest)),
        (false, "not") => negation(rt, alloc, rest, depth),
        (false, "all") => {
            let (members, rest) = members(rt, alloc, rest, depth)?;
            Some((CfgExpr::All(members), rest))
        }
        (false, "any") => {
            let (members, rest) = members(rt, alloc, rest, depth)?;
            Some((CfgExpr::Any(members), rest))
        }
        _ => value(rt, alloc, *raw, name, rest),
    }
}

/// Parses what follows the word `not`.
#[cycle(reader)]
fn negation<'t, 'a>(
    rt: &impl Abort,
    alloc: Global,
    tokens: &'t [Token<'a>],
    depth: usize,
) -> Option<(CfgExpr, &'t [Token<'a>])> {
    let inside = after(Token::LeftParen, tokens)?;
    let (inner, rest) = expression(rt, alloc, inside, depth)?;
    let rest = after(Token::RightParen, rest)?;
    let inner = Box::new(alloc, inner).ok().expect(rt, "memory");
    Some((CfgExpr::Not(inner), rest))
}

/// Parses the members of a group, with both parentheses.
#[cycle(reader)]
fn members<'t, 'a>(
    rt: &impl Abort,
    alloc: Global,
    tokens: &'t [Token<'a>],
    depth: usize,
) -> Option<(Vec<CfgExpr>, &'t [Token<'a>])> {
    let mut members = Vec::new(alloc);
    let mut rest = after(Token::LeftParen, tokens)?;
    for _ in 0..tokens.len() {
        if let Some(outside) = after(Token::RightParen, rest) {
            return Some((members, outside));
        }
        let (member, behind) = expression(rt, alloc, rest, depth)?;
        members.push(member).ok().expect(rt, "memory");
        match after(Token::Comma, behind) {
            Some(next) => rest = next,
            None => return Some((members, after(Token::RightParen, behind)?)),
        }
    }
    panic!(rt; "more members than tokens")
}

/// Parses what follows the identifier of a name or a pair.
fn value<'t, 'a>(
    rt: &impl Abort,
    alloc: Global,
    raw: bool,
    name: &str,
    tokens: &'t [Token<'a>],
) -> Option<(CfgExpr, &'t [Token<'a>])> {
    let name = String::from_str(alloc, name).expect(rt, "memory");
    let name = Ident { name, raw };
    match tokens {
        [Token::Equals, Token::String(value), rest @ ..] => {
            let value = String::from_str(alloc, value).expect(rt, "memory");
            Some((CfgExpr::Value(Cfg::KeyPair(name, value)), rest))
        }
        [Token::Equals, ..] => None,
        _ => Some((CfgExpr::Value(Cfg::Name(name)), tokens)),
    }
}

/// Returns the tokens after the first one, if the first one is `wanted`.
fn after<'t, 'a>(wanted: Token<'a>, tokens: &'t [Token<'a>]) -> Option<&'t [Token<'a>]> {
    match tokens {
        [first, rest @ ..] if *first == wanted => Some(rest),
        _ => None,
    }
}
