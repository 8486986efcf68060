//! The facts of a row: names and pairs made by hand, and those of the targets that rustc knows.

use cargo_platform::Cfg;
use known_targets::KnownTarget;
use std::alloc::{AllocError, Global};
use test_rows::Fault;
use test_rows::fields::Fields;
use test_rows::made_facts::value;

/// Returns the values of a list. The name of a target after `@` stands for its facts, if nothing is set under that
/// name.
pub fn values(alloc: Global, fields: &mut Fields<'_>) -> Result<Vec<Cfg>, Fault> {
    let mut all = Vec::new(alloc);
    for word in fields.list(alloc)? {
        match word.strip_prefix('@') {
            Some(target) => add_facts(alloc, target, &mut all)?,
            None => all.push(value(alloc, word)?).map_err(AllocError::from)?,
        }
    }
    Ok(all)
}

fn add_facts(alloc: Global, name: &str, all: &mut Vec<Cfg>) -> Result<(), Fault> {
    let Some(target) = KnownTarget::by_name(name) else {
        return Err(Fault::Row("nothing is set under this name, and no target has it"));
    };
    for fact in target.facts(alloc)? {
        all.push(fact).map_err(AllocError::from)?;
    }
    Ok(())
}
