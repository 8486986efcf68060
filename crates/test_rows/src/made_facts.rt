//! Names and pairs that are made by hand, from the words of a row.

use crate::Fault;
use crate::bars::text_of;
use crate::fields::Fields;
use cargo_platform::{Cfg, Ident};
use std::alloc::{AllocError, Global};

/// Returns the name of a word: `foo`, or `r#foo` for a marked name.
pub fn name(alloc: Global, word: &str) -> Result<Ident, AllocError> {
    let (raw, text) = match word.strip_prefix("r#") {
        Some(marked) => (true, marked),
        None => (false, word),
    };
    Ok(Ident {
        name: String::from_str(alloc, text)?,
        raw,
    })
}

/// Returns the value of a word: a name as above, or a key, `=` and a value between bars.
pub fn value(alloc: Global, word: &str) -> Result<Cfg, Fault> {
    match word.split_once('=') {
        Some((key, value)) => Ok(Cfg::KeyPair(name(alloc, key)?, text_of(alloc, value)?)),
        None => Ok(Cfg::Name(name(alloc, word)?)),
    }
}

/// Returns the values of a list.
pub fn values(alloc: Global, fields: &mut Fields<'_>) -> Result<Vec<Cfg>, Fault> {
    let mut all = Vec::new(alloc);
    for word in fields.list(alloc)? {
        if word.starts_with('@') {
            return Err(Fault::Row("nothing is set under this name"));
        }
        all.push(value(alloc, word)?).map_err(AllocError::from)?;
    }
    Ok(all)
}
