//! Trees that are made by hand, from the words of a row.

use crate::Fault;
use crate::fields::Fields;
use crate::made_facts::value;
use cargo_platform::CfgExpr;
use std::alloc::{AllocError, Global};

/// Returns the tree of a list of words. Each form precedes its parts, and groups have the number of their members:
/// `any(not(foo), bar)` is `any2 not foo bar`. A name that is the word of a form is written after `name:`.
pub fn tree(alloc: Global, fields: &mut Fields<'_>) -> Result<CfgExpr, Fault> {
    let words = fields.list(alloc)?;
    let mut made: Vec<CfgExpr> = Vec::new(alloc);
    for word in words.iter().rev() {
        let e = with_parts(alloc, word, &mut made)?;
        made.push(e).map_err(AllocError::from)?;
    }
    last(&mut made)
}

fn last(made: &mut Vec<CfgExpr>) -> Result<CfgExpr, Fault> {
    match made.pop() {
        Some(e) => Ok(e),
        None => Err(Fault::Row("a part of the tree is lacking")),
    }
}

/// Returns the number of members, if the word is that of a group.
fn group(word: &str, form: &str) -> Option<usize> {
    word.strip_prefix(form)?.parse::<usize>().ok()
}

/// Returns the expression of a word, whose parts are the last ones that were made.
fn with_parts(alloc: Global, word: &str, made: &mut Vec<CfgExpr>) -> Result<CfgExpr, Fault> {
    if let Some(count) = group(word, "all") {
        return Ok(CfgExpr::All(members(alloc, made, count)?));
    }
    if let Some(count) = group(word, "any") {
        return Ok(CfgExpr::Any(members(alloc, made, count)?));
    }
    if let Some(name) = word.strip_prefix("name:") {
        return Ok(CfgExpr::Value(value(alloc, name)?));
    }
    match word {
        "true" => Ok(CfgExpr::True),
        "false" => Ok(CfgExpr::False),
        "not" => {
            let inner = last(made)?;
            Ok(CfgExpr::Not(Box::new(alloc, inner).map_err(AllocError::from)?))
        }
        _ => Ok(CfgExpr::Value(value(alloc, word)?)),
    }
}

fn members(alloc: Global, made: &mut Vec<CfgExpr>, count: usize) -> Result<Vec<CfgExpr>, Fault> {
    let mut all = Vec::new(alloc);
    for _ in 0..count {
        all.push(last(made)?).map_err(AllocError::from)?;
    }
    Ok(all)
}
