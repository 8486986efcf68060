//! The names and pairs that a manifest declares as expected: in `[lints.rust]`, under `unexpected_cfgs`, the texts of
//! `check-cfg` (see the [rustc book](https://doc.rust-lang.org/rustc/check-cfg/cargo-specifics.html)).

ghost use Rattle.std.specs.Prelude.{◌≡◌, ◌++◌, ◌∷◌, [], IfOk, true, false, cond, OnOk, map, codes, Some};
ghost use Rattle.std.specs.Prelude.{option_map, option_and_then, unwrap_or};
ghost use Rattle.cargo_platform.specs.Trees.{value_of};
ghost use Rattle.cargo_platform.specs.Tokens.{lexeme, Ident, LeftParen, RightParen};
ghost use Rattle.partial_facts.specs.Partly.{names_of};
ghost use Rattle.manifests.specs.Declarations.{declares_entry, entry_in, values_in, is_declared};
ghost use Rattle.manifests.specs.Declarations.{declarations_of};
ghost use Rattle.manifests.specs.Declarations.{IsDeclaredBy, Declares, HasTokens, lexemes_in, check_cfg_of};
ghost use Rattle.manifests.specs.Declarations.{AddsBy, is_paren, is_close, is_cfg, is_left, declared_values};
ghost use Rattle.manifests.specs.Declarations.{values_from, names_from, declaration};
ghost use Rattle.manifests.specs.Steps.{Steps, Turns};
ghost use Rattle.toml.specs.Data.{as_array, as_str, get, get_member, no_items};
ghost use Rattle.toml.specs.View.{view, table_view, items_view};

use cargo_platform::{Cfg, Token, Tokenizer};
use partial_facts::names::is_among;
use std::alloc::{AllocError, Global};
use toml::{Table, Value};

/// The values that are declared for some names.
#[derive(Drop)]
enum Values<'a> {
    /// Any value, and none.
    Any,
    /// These values and, if the flag is set, none.
    Listed(Vec<&'a str>, bool),
}

/// Names, with the values that each may have.
#[derive(Drop)]
struct Entry<'a> {
    names: Vec<&'a str>,
    values: Values<'a>,
}

/// The names and pairs that a manifest declares as expected.
#[derive(Drop)]
pub struct ExpectedCfgs<'a> {
    entries: Vec<Entry<'a>>,
}

impl<'a> ExpectedCfgs<'a> {
    /// Returns no declarations, as for a manifest without any.
    pub fn none(alloc: Global) -> ExpectedCfgs<'a>
        ensures { declarations_of result ≡ [] }
    {
        ExpectedCfgs {
            entries: Vec::new(alloc),
        }
    }

    /// Returns the declarations of a manifest: texts of the forms `cfg(NAME, ..)` and `cfg(NAME, .., values(..))` with
    /// texts, `any()` and `none()` between the parentheses. Texts of other forms declare nothing. Fails if an
    /// allocation fails.
    pub fn of(alloc: Global, manifest: &'a Table) -> Result<ExpectedCfgs<'a>, AllocError>
        ensures { IfOk result (λ d. IsDeclaredBy (table_view manifest.now) (declarations_of d)) }
    {
        let mut entries = Vec::new(alloc);
        'values: for value in items_of(check_cfg(manifest)) {
            add_value(alloc, value, &mut entries)?;
        }
        Ok(ExpectedCfgs { entries })
    }

    /// Returns whether a name or pair is declared.
    pub fn declares(&self, c: &Cfg) -> bool
        ensures { result ≡ is_declared (declarations_of self.now) (value_of c.now) }
    {
        'entries: for entry in &self.entries {
            if declares(entry, c) {
                return true;
            }
        }
        false
    }
}

/// Returns the value of `lints` in a manifest.
fn lints(manifest: &Table) -> Option<&Value>
    ensures { option_map (λ v. view v.now) result ≡ get_member (codes "lints") (table_view manifest.now) }
{
    manifest.get("lints")
}

/// Returns the value at a key of a value, if there is one.
fn under<'a>(value: Option<&'a Value>, key: &str) -> Option<&'a Value>
    ensures { option_map (λ v. view v.now) result
        ≡ option_and_then (get key.now) (option_map (λ v. view v.now) value.entry) }
{
    match value {
        Some(value) => value.get(key),
        None => None,
    }
}

/// Returns the value of `lints.rust.unexpected_cfgs.check-cfg`.
fn check_cfg(manifest: &Table) -> Option<&Value>
    ensures { option_map (λ v. view v.now) result ≡ check_cfg_of (table_view manifest.now) }
{
    let rust = under(lints(manifest), "rust");
    under(under(rust, "unexpected_cfgs"), "check-cfg")
}

/// Returns the items of an array, and none for any other value.
fn items_of(value: Option<&Value>) -> &[Value]
    ensures { items_view result.now
        ≡ unwrap_or (option_and_then as_array (option_map (λ v. view v.now) value.entry)) no_items }
{
    match value {
        Some(Value::Array(items)) => items.as_slice(),
        Some(
            Value::String(_)
            | Value::Integer(_)
            | Value::Float(_)
            | Value::Boolean(_)
            | Value::Datetime(_)
            | Value::Table(_),
        ) => &[],
        None => &[],
    }
}

/// Appends the declaration in a text, if there is one.
fn add_text<'a>(
    alloc: Global,
    text: &'a str,
    entries: &mut Vec<Entry<'a>>,
) -> Result<(), AllocError>
    ensures { OnOk result
        (AddsBy (Some text.now) (map entry_in entries.old.items) (map entry_in entries.new.items)) }
{
    if let Some(entry) = entry_of(alloc, text)? {
        entries.push(entry)?;
    }
    Ok(())
}

/// Appends the declaration in a value, if the value is a text with one.
fn add_value<'a>(
    alloc: Global,
    value: &'a Value,
    entries: &mut Vec<Entry<'a>>,
) -> Result<(), AllocError>
    ensures { OnOk result
        (AddsBy (as_str (view value.now)) (map entry_in entries.old.items) (map entry_in entries.new.items)) }
{
    match value {
        Value::String(text) => add_text(alloc, text.as_str(), entries),
        Value::Integer(_)
        | Value::Float(_)
        | Value::Boolean(_)
        | Value::Datetime(_)
        | Value::Array(_)
        | Value::Table(_) => Ok(()),
    }
}

/// Returns whether an entry declares a name or pair.
fn declares(entry: &Entry<'_>, c: &Cfg) -> bool
    ensures { result ≡ declares_entry (value_of c.now) (entry_in entry.now) }
{
    match c {
        Cfg::Name(name) => {
            is_among(name.as_str(), &entry.names)
                && match &entry.values {
                    Values::Any => true,
                    Values::Listed(_, none) => *none,
                }
        }
        Cfg::KeyPair(key, value) => {
            is_among(key.as_str(), &entry.names)
                && match &entry.values {
                    Values::Any => true,
                    Values::Listed(values, _) => is_among(value.as_str(), values),
                }
        }
    }
}

/// Returns the tokens of a text, or `None` if something in it is not a token.
fn tokens_of<'a>(alloc: Global, text: &'a str) -> Result<Option<Vec<Token<'a>>>, AllocError>
    ensures { IfOk result (λ tokens. HasTokens text.now (option_map (λ v. lexemes_in v.items) tokens)) }
{
    let mut tokens = Vec::new(alloc);
    'tokens: for item in Tokenizer::new(text) {
        match item {
            Ok(spanned) => tokens.push(spanned.token)?,
            Err(_) => return Ok(None),
        }
    }
    Ok(Some(tokens))
}

/// Returns whether the only remaining token is a closing parenthesis.
fn is_paren(tokens: &[Token<'_>]) -> bool
    ensures { result ≡ is_paren (lexemes_in tokens.now) }
{
    match tokens.split_first() {
        Some((Token::RightParen, left)) => left.is_empty(),
        Some((_, _)) | None => false,
    }
}

/// Returns whether the only remaining tokens are a closing parenthesis, and perhaps a comma before it.
fn is_close(tokens: &[Token<'_>]) -> bool
    ensures { result ≡ is_close (lexemes_in tokens.now) }
{
    match tokens.split_first() {
        Some((Token::Comma, left)) => is_paren(left),
        Some((_, _)) | None => is_paren(tokens),
    }
}

/// Returns the values that were read, if the remaining tokens end the declaration.
fn closed<'a>(left: &[Token<'_>], texts: Vec<&'a str>, any: bool, none: bool) -> Option<Values<'a>>
    ensures { option_map values_in result
        ≡ cond (is_close (lexemes_in left.now)) (Some (declared_values (names_of texts.entry.items) any none)) None }
{
    if !is_close(left) {
        return None;
    }
    if any {
        Some(Values::Any)
    } else {
        Some(Values::Listed(texts, none))
    }
}

/// The part that is expected next between the parentheses of `values`.
#[derive(Clone, Copy, Drop)]
enum Stage<'a> {
    /// A value.
    Value,
    /// The parentheses after a word.
    Parens(&'a str),
    /// The closing parenthesis after a word.
    Paren(&'a str),
    /// A comma, or the closing parenthesis of the values.
    Behind,
}

/// The effect of a token between the parentheses of `values`.
#[derive(Clone, Copy, Drop)]
enum Step<'a> {
    /// It changes what is expected next.
    To(Stage<'a>),
    /// It is a value.
    Text(&'a str),
    /// It ends `any()` or another word.
    Word(&'a str),
    /// It closes the values.
    Close,
    /// It is not allowed there.
    Fault,
}

/// Returns the effect of a token.
fn step_of<'a>(stage: Stage<'a>, token: &Token<'a>) -> Step<'a>
    ensures { Steps stage.entry (lexeme token.now) result }
{
    match stage {
        Stage::Value => match token {
            Token::RightParen => Step::Close,
            Token::String(text) => Step::Text(*text),
            Token::Ident(raw, word) => {
                if *raw {
                    Step::Fault
                } else {
                    Step::To(Stage::Parens(*word))
                }
            }
            Token::LeftParen | Token::Comma | Token::Equals => Step::Fault,
        },
        Stage::Parens(word) => match token {
            Token::LeftParen => Step::To(Stage::Paren(word)),
            Token::RightParen
            | Token::Ident(_, _)
            | Token::Comma
            | Token::Equals
            | Token::String(_) => Step::Fault,
        },
        Stage::Paren(word) => match token {
            Token::RightParen => Step::Word(word),
            Token::LeftParen
            | Token::Ident(_, _)
            | Token::Comma
            | Token::Equals
            | Token::String(_) => Step::Fault,
        },
        Stage::Behind => match token {
            Token::RightParen => Step::Close,
            Token::Comma => Step::To(Stage::Value),
            Token::LeftParen | Token::Ident(_, _) | Token::Equals | Token::String(_) => Step::Fault,
        },
    }
}

/// Parses the tokens after the opening parenthesis of `values`, up to the end of the declaration. Returns `None` if
/// they are invalid.
fn values_in<'a>(alloc: Global, tokens: &[Token<'a>]) -> Result<Option<Values<'a>>, AllocError>
    ensures { IfOk result
        (λ found. option_map values_in found ≡ values_from true [] false false (lexemes_in tokens.now)) }
{
    let mut texts = Vec::new(alloc);
    let mut any = false;
    let mut none = false;
    let mut stage = Stage::Value;
    'values: for (at, token) in tokens.iter().enumerate() {
        match step_of(stage, token) {
            Step::To(next) => stage = next,
            Step::Text(text) => {
                texts.push(text)?;
                stage = Stage::Behind;
            }
            Step::Word(word) => {
                if word == "any" {
                    any = true;
                } else if word == "none" {
                    none = true;
                } else {
                    return Ok(None);
                }
                stage = Stage::Behind;
            }
            Step::Close => return Ok(closed(&tokens[at + 1..], texts, any, none)),
            Step::Fault => return Ok(None),
        }
    }
    Ok(None)
}

/// The effect of a token among the names.
#[derive(Clone, Copy, Drop)]
enum Turn<'a> {
    /// It is a name, or the word before values.
    Word(bool, &'a str),
    /// It ends a name, and another one follows.
    Next(&'a str),
    /// It ends the last name.
    Last(&'a str),
    /// Values follow.
    Values(bool, &'a str),
    /// It is not allowed there.
    Fault,
}

/// Returns the effect of a token after a word, if there is one.
fn turn_of<'a>(word: Option<(bool, &'a str)>, token: &Token<'a>) -> Turn<'a>
    ensures { Turns word.entry (lexeme token.now) result }
{
    match word {
        None => match token {
            Token::Ident(raw, name) => Turn::Word(*raw, *name),
            Token::LeftParen
            | Token::RightParen
            | Token::Comma
            | Token::Equals
            | Token::String(_) => Turn::Fault,
        },
        Some((raw, name)) => match token {
            Token::Comma => Turn::Next(name),
            Token::RightParen => Turn::Last(name),
            Token::LeftParen => Turn::Values(raw, name),
            Token::Ident(_, _) | Token::Equals | Token::String(_) => Turn::Fault,
        },
    }
}

/// Parses the tokens after the first parenthesis: the names and their values.
fn names_in<'a>(alloc: Global, tokens: &[Token<'a>]) -> Result<Option<Entry<'a>>, AllocError>
    ensures { IfOk result (λ e. option_map entry_in e ≡ names_from [] (lexemes_in tokens.now)) }
{
    let mut names = Vec::new(alloc);
    let mut before: Option<(bool, &'a str)> = None;
    'names: for (at, token) in tokens.iter().enumerate() {
        match turn_of(before, token) {
            Turn::Word(raw, name) => before = Some((raw, name)),
            Turn::Next(name) => {
                names.push(name)?;
                before = None;
            }
            Turn::Last(name) => return last(alloc, names, name, &tokens[at + 1..]),
            Turn::Values(raw, name) => return with_values(
                alloc,
                names,
                raw,
                name,
                &tokens[at + 1..],
            ),
            Turn::Fault => return Ok(None),
        }
    }
    Ok(None)
}

/// Returns the entry whose last name is `name`, if no tokens remain.
fn last<'a>(
    alloc: Global,
    mut names: Vec<&'a str>,
    name: &'a str,
    left: &[Token<'a>],
) -> Result<Option<Entry<'a>>, AllocError>
    ensures { IfOk result (λ e. option_map entry_in e ≡ names_from (names_of names.entry.items)
        (Ident false name.now ∷ RightParen ∷ lexemes_in left.now)) }
{
    if !left.is_empty() {
        return Ok(None);
    }
    names.push(name)?;
    let values = Values::Listed(Vec::new(alloc), true);
    Ok(Some(Entry { names, values }))
}

/// Returns the entry with the values that follow, if the word before these is `values`.
fn with_values<'a>(
    alloc: Global,
    names: Vec<&'a str>,
    raw: bool,
    name: &str,
    left: &[Token<'a>],
) -> Result<Option<Entry<'a>>, AllocError>
    ensures { IfOk result (λ e. option_map entry_in e ≡ names_from (names_of names.entry.items)
        (Ident raw name.now ∷ LeftParen ∷ lexemes_in left.now)) }
{
    if raw || name != "values" || names.is_empty() {
        return Ok(None);
    }
    match values_in(alloc, left)? {
        Some(values) => Ok(Some(Entry { names, values })),
        None => Ok(None),
    }
}

/// Returns whether a token is the word `cfg`.
fn is_cfg(token: &Token<'_>) -> bool
    ensures { result ≡ is_cfg (lexeme token.now) }
{
    match token {
        Token::Ident(raw, word) => !*raw && *word == "cfg",
        Token::LeftParen | Token::RightParen | Token::Comma | Token::Equals | Token::String(_) =>
            false,
    }
}

/// Returns whether a token is an opening parenthesis.
fn is_left(token: &Token<'_>) -> bool
    ensures { result ≡ is_left (lexeme token.now) }
{
    match token {
        Token::LeftParen => true,
        Token::RightParen | Token::Ident(_, _) | Token::Comma | Token::Equals | Token::String(_) =>
            false,
    }
}

/// Parses the tokens of a declaration. Returns `None` if they are invalid.
fn declaration<'a>(alloc: Global, tokens: &[Token<'a>]) -> Result<Option<Entry<'a>>, AllocError>
    ensures { IfOk result (λ e. option_map entry_in e ≡ declaration (lexemes_in tokens.now)) }
{
    let Some((first, others)) = tokens.split_first() else {
        return Ok(None);
    };
    let Some((second, behind)) = others.split_first() else {
        return Ok(None);
    };
    if !is_cfg(first) || !is_left(second) {
        return Ok(None);
    }
    names_in(alloc, behind)
}

/// Parses the text of a declaration. Returns `None` if it is invalid.
fn entry_of<'a>(alloc: Global, text: &'a str) -> Result<Option<Entry<'a>>, AllocError>
    ensures { IfOk result (λ e. Declares text.now (option_map entry_in e)) }
{
    match tokens_of(alloc, text)? {
        Some(tokens) => declaration(alloc, &tokens),
        None => Ok(None),
    }
}
