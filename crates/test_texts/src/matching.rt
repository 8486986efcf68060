//! Truth values over facts, by each kind of holder, and the numbers of queries.

use crate::asked;
use cargo_platform::{Cfg, CfgExpr, FactIndex, Facts, Listed, Platform};
use std::alloc::Global;
use test_rows::fields::Fields;
use test_rows::forms::{word, yes_or_no};
use test_rows::texts::{accepted, expression, platform};
use test_rows::{Fault, made_facts};

/// Returns the answer to a row whose words are `fields`. `call` is the part of its kind after the dot.
pub fn answer(alloc: Global, call: &str, fields: &mut Fields<'_>) -> Result<String, Fault> {
    match call {
        "expr" => over_each(alloc, fields),
        "asks" => asks(alloc, fields),
        "index" => by_index(alloc, fields),
        "target" => at_target(alloc, fields),
        "key" => by_key(alloc, fields),
        "fact" => has(alloc, fields),
        _ => Err(Fault::Row("there is no such kind")),
    }
}

fn in_holder<F: Facts>(e: &CfgExpr, facts: &F) -> bool {
    e.matches_in(facts)
}

fn counted<F: Facts>(e: &CfgExpr, facts: &F) -> (bool, u128) {
    let (answer, asks) = e.matches_counted(facts);
    (answer, asks.count())
}

fn has_fact<F: Facts>(facts: &F, fact: &Cfg) -> bool {
    facts.holds(fact)
}

/// Returns whether an expression is true over facts, if all holders and its text agree.
fn over_each(alloc: Global, fields: &mut Fields<'_>) -> Result<String, Fault> {
    let text = fields.text(alloc)?;
    let e = expression(alloc, &text)?;
    let facts = made_facts::values(alloc, fields)?;
    let answer = e.matches(&facts);
    if accepted(CfgExpr::matches_str(alloc, &text, &facts))? != answer {
        return Ok(word(alloc, "the text is evaluated otherwise")?);
    }
    let index = FactIndex::new(alloc, &facts)?;
    agreed(alloc, answer, is_same(&e, &facts, &index, answer))
}

fn is_same(e: &CfgExpr, facts: &[Cfg], index: &FactIndex, answer: bool) -> bool {
    let listed = Listed(facts);
    in_holder(e, &listed) == answer
        && in_holder(e, index) == answer
        && counted(e, &listed).0 == answer
        && counted(e, index).0 == answer
}

fn agreed(alloc: Global, answer: bool, is_same: bool) -> Result<String, Fault> {
    if is_same {
        return Ok(yes_or_no(alloc, answer)?);
    }
    Ok(word(alloc, "one holder says yes, another no")?)
}

/// Returns whether an expression is true over listed facts, and the number of queries of the list.
fn asks(alloc: Global, fields: &mut Fields<'_>) -> Result<String, Fault> {
    let e = asked::expression(alloc, fields)?;
    let facts = made_facts::values(alloc, fields)?;
    let (answer, count) = counted(&e, &Listed(&facts));
    told(alloc, answer, count)
}

/// Returns whether an expression is true over an index of facts, and the number of queries of the index.
fn by_index(alloc: Global, fields: &mut Fields<'_>) -> Result<String, Fault> {
    let e = asked::expression(alloc, fields)?;
    let index = FactIndex::new(alloc, &made_facts::values(alloc, fields)?)?;
    let (answer, count) = counted(&e, &index);
    told(alloc, answer, count)
}

fn told(alloc: Global, answer: bool, count: u128) -> Result<String, Fault> {
    let word = if answer { "yes" } else { "no" };
    Ok(format!(in alloc; "{word}, {count} asks")?)
}

/// Returns whether a condition selects a target, and the number of queries of its facts.
fn at_target(alloc: Global, fields: &mut Fields<'_>) -> Result<String, Fault> {
    let text = fields.text(alloc)?;
    let p = platform(alloc, &text)?;
    let name = fields.text(alloc)?;
    let facts = made_facts::values(alloc, fields)?;
    let (answer, asks) = p.matches_counted(&name, &Listed(&facts));
    if accepted(Platform::matches_str(alloc, &text, &name, &facts))? != answer {
        return Ok(word(alloc, "the text is evaluated otherwise")?);
    }
    if answer != p.matches(&name, &facts) {
        return Ok(word(alloc, "counted otherwise than not")?);
    }
    told(alloc, answer, asks.count())
}

/// Returns whether the text of a condition is true over facts.
fn by_key(alloc: Global, fields: &mut Fields<'_>) -> Result<String, Fault> {
    let key = fields.text(alloc)?;
    let facts = made_facts::values(alloc, fields)?;
    Ok(yes_or_no(alloc, CfgExpr::matches_key(alloc, &key, &facts)?)?)
}

/// Returns whether a name or pair is one of the facts.
fn has(alloc: Global, fields: &mut Fields<'_>) -> Result<String, Fault> {
    let fact = made_facts::value(alloc, fields.need()?)?;
    let facts = made_facts::values(alloc, fields)?;
    let index = FactIndex::new(alloc, &facts)?;
    let answer = has_fact(&Listed(&facts), &fact);
    agreed(alloc, answer, has_fact(&index, &fact) == answer)
}
