//! Facts that borrow their texts from lines, so that a match copies none of them.

ghost use Rattle.std.specs.Prelude.{◌≡◌, ◌≢◌, ◌==◌, IfSome, IfOk, [], map};
ghost use Rattle.std.specs.List.{list_any, slice_split};
ghost use Rattle.std.specs.Ordering.{eq_by_cmp};
ghost use Rattle.cargo_platform.specs.Trees.{value_of, condition_of};
ghost use Rattle.cargo_platform.specs.Spelling.{IsValueText};
ghost use Rattle.cargo_platform.specs.Key.{value_cmp};
ghost use Rattle.cargo_platform.specs.Lines.{lines_of};
ghost use Rattle.cargo_platform.specs.FactLines.{SpellFacts};
ghost use Rattle.cargo_platform.specs.Facts.{fact_set, truth_of_condition};
ghost use Rattle.byte_answers.specs.FactTexts.{text_value, EndsIn};

use cargo_platform::{Cfg, Facts, Platform, Spanned, Token, Tokenizer};
use std::alloc::{AllocError, Global};

/// The number of facts for which a list has room at first. Most targets have fewer.
const ROOM: usize = 24;

/// A fact that borrows its texts. The flag is the raw mark of its name or key.
#[derive(Clone, Copy, Drop)]
pub(crate) enum FactText<'a> {
    Name(bool, &'a str),
    Pair(bool, &'a str, &'a str),
}

/// Returns whether a name or a pair is this fact.
#[inline(always)]
fn is_same(fact: &FactText<'_>, c: &Cfg) -> bool
    ensures { result ≡ eq_by_cmp value_cmp (text_value fact.now) (value_of c.now) }
{
    match c {
        Cfg::Name(name) => match fact {
            FactText::Name(_, own) => *own == name.as_str(),
            FactText::Pair(..) => false,
        },
        Cfg::KeyPair(key, value) => match fact {
            FactText::Name(..) => false,
            FactText::Pair(_, own, with) => *own == key.as_str() && *with == value.as_str(),
        },
    }
}

/// Returns whether a name or a pair is one of these facts.
fn is_among(facts: &[FactText<'_>], c: &Cfg) -> bool
    ensures { result ≡ list_any (λ fact. eq_by_cmp value_cmp (text_value fact) (value_of c.now)) facts.now }
{
    for fact in facts {
        if is_same(fact, c) {
            return true;
        }
    }
    false
}

/// Facts that borrow their texts. They represent the set of their pairs.
#[derive(Drop)]
pub(crate) struct FactTexts<'a> {
    pub(crate) facts: Vec<FactText<'a>>,
}

impl<'a> Facts for FactTexts<'a> {
    ghost meant = { λ texts. fact_set (map text_value texts.facts.items) };

    fn holds(&self, c: &Cfg) -> bool {
        is_among(&self.facts, c)
    }
}

/// Returns the value of the string that is the only token left.
fn last_value<'a>(tokens: &mut Tokenizer<'a>) -> Option<&'a str>
    ensures { IfSome result (λ value. EndsIn tokens.old value.now) }
{
    let Some(
        Ok(
            Spanned {
                token: Token::String(value),
                start: _,
                end: _,
            },
        ),
    ) = tokens.next()
    else {
        return None;
    };
    match tokens.next() {
        None => Some(value),
        Some(_) => None,
    }
}

/// Returns the fact that a line is, or `None` if it is not a fact.
fn fact_in(line: &str) -> Option<FactText<'_>>
    ensures { IfSome result (λ fact. IsValueText line.now (text_value fact)) }
{
    let mut tokens = Tokenizer::new(line);
    let Some(
        Ok(
            Spanned {
                token: Token::Ident(raw, name),
                start: _,
                end: _,
            },
        ),
    ) = tokens.next()
    else {
        return None;
    };
    match tokens.next() {
        None => Some(FactText::Name(raw, name)),
        Some(
            Ok(
                Spanned {
                    token: Token::Equals,
                    start: _,
                    end: _,
                },
            ),
        ) => {
            let value = last_value(&mut tokens)?;
            Some(FactText::Pair(raw, name, value))
        }
        Some(_) => None,
    }
}

/// Returns the facts in lines, or `None` if a line is not a fact. Fails only if an allocation fails.
pub(crate) fn fact_texts<'a>(
    alloc: Global,
    lines: &'a str,
) -> Result<Option<FactTexts<'a>>, AllocError>
    ensures { IfOk result (λ found. IfSome found (λ texts.
        SpellFacts (lines_of lines.now) (map text_value texts.facts.items))) }
{
    let mut facts = Vec::with_capacity(alloc, ROOM)?;
    if lines.is_empty() {
        return Ok(Some(FactTexts { facts }));
    }
    for line in lines.strip_suffix('\n').unwrap_or(lines).split('\n') {
        match fact_in(line) {
            Some(fact) => facts.push(fact)?,
            None => return Ok(None),
        }
    }
    Ok(Some(FactTexts { facts }))
}

/// Returns whether a condition is true on a target with this name and these facts.
pub(crate) fn is_true_on(platform: &Platform, name: &str, texts: &FactTexts<'_>) -> bool
    ensures { result ≡ truth_of_condition name.now (fact_set (map text_value texts.now.facts.items))
        (condition_of platform.now) }
{
    match platform {
        Platform::Name(target) => target.as_str() == name,
        Platform::Cfg(expression) => expression.matches_in(texts),
    }
}
