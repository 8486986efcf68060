//! Texts that are parsed several times. `.ci/refusals` takes from it how many allocations a parse makes.

use cargo_platform::{Cfg, CfgExpr, FactsError, Platform, ReadError, read_facts};
use std::alloc::Global;
use test_rows::Fault;
use test_rows::fields::Fields;
use test_rows::forms::word;

/// Parses a text as often as the row says, and returns whether it is accepted. Each time, the result before is dropped.
pub fn answer(alloc: Global, call: &str, fields: &mut Fields<'_>) -> Result<String, Fault> {
    let times = fields.number()?;
    let text = fields.text(alloc)?;
    let mut is_read = false;
    for _ in 0..times {
        is_read = once(alloc, call, &text)?;
    }
    Ok(word(alloc, if is_read { "read" } else { "refused" })?)
}

fn once(alloc: Global, call: &str, text: &str) -> Result<bool, Fault> {
    match call {
        "expr" => was_read(CfgExpr::from_str(alloc, text)),
        "fact" => was_read(Cfg::from_str(alloc, text)),
        "key" => was_read(Platform::from_str(alloc, text)),
        "facts" => were_read(alloc, text),
        "matches" => was_read(Platform::matches_str(alloc, text, "a", &[])),
        _ => Err(Fault::Row("there is no such kind")),
    }
}

fn was_read<T: Drop>(read: Result<T, ReadError>) -> Result<bool, Fault> {
    match read {
        Ok(_) => Ok(true),
        Err(ReadError::Parse(_)) => Ok(false),
        Err(ReadError::Memory(_)) => Err(Fault::Memory),
    }
}

fn were_read(alloc: Global, lines: &str) -> Result<bool, Fault> {
    match read_facts(alloc, lines) {
        Ok(_) => Ok(true),
        Err(FactsError::Line { .. }) => Ok(false),
        Err(FactsError::Memory(_)) => Err(Fault::Memory),
    }
}
