//! Parts of messages.

ghost use Rattle.std.specs.Prelude.{◌≡◌, ◌++◌, IfOk, codes, length, string_bytes, take};
ghost use Rattle.std.specs.List.{join_by};
ghost use Rattle.cargo_platform.specs.Trees.{value_of};
ghost use Rattle.manifest_lints_findings.specs.Chosen.{fact_text, quoted_value};
ghost use Rattle.manifest_lints_findings.specs.Texts.{quoted_text, and_more, joined_first, both_texts};
ghost use Rattle.manifest_lints_findings.specs.declared.wording.TheConstants.{MAX_SHOWN};

use cargo_platform::{Cfg, printable_excerpt};
use predicate_classes::key_predicates::KeyPredicate;
use std::alloc::{AllocError, Global};

/// The maximum number of items of a list that are printed.
pub const MAX_SHOWN: usize = 3;

/// Returns the text in backquotes, escaped and shortened. Fails if memory is refused.
pub fn quoted(alloc: Global, text: &str) -> Result<String, AllocError>
    ensures { IfOk result (λ s. string_bytes s ≡ quoted_text text.now) }
{
    let shown = printable_excerpt(alloc, text)?;
    format!(in alloc; "`{shown}`")
}

/// Returns the fact in backquotes, escaped and shortened. Fails if memory is refused.
pub fn quoted_fact(alloc: Global, c: &Cfg) -> Result<String, AllocError>
    ensures { IfOk result (λ s. string_bytes s ≡ quoted_value (value_of c.now)) }
{
    let text = format!(in alloc; "{c}")?;
    quoted(alloc, text.as_str())
}

/// Returns the first items, at most `MAX_SHOWN`.
pub fn first_shown<T>(all: &[T]) -> &[T]
    ensures { result.now ≡ take MAX_SHOWN all.now }
{
    if all.len() > MAX_SHOWN {
        &all[..MAX_SHOWN]
    } else {
        all
    }
}

/// Returns ` and .. more` with the number of items beyond the first ones, or the empty text if all are printed. Fails
/// if memory is refused.
pub fn and_more(alloc: Global, all: usize) -> Result<String, AllocError>
    ensures { IfOk result (λ s. string_bytes s ≡ and_more all) }
{
    if all <= MAX_SHOWN {
        return Ok(String::new(alloc));
    }
    let more = all - MAX_SHOWN;
    format!(in alloc; " and {more} more")
}

/// Returns the first texts, with `separator` between them.
fn first_joined(alloc: Global, texts: &[String], separator: &str) -> Result<String, AllocError>
    ensures { IfOk result (λ s. string_bytes s
        ≡ join_by (λ t. string_bytes t) separator.now (take MAX_SHOWN texts.now)) }
{
    let mut joined = String::new(alloc);
    let Some((first, others)) = first_shown(texts).split_first() else {
        return Ok(joined);
    };
    joined.push_str(first.as_str())?;
    'others: for text in others {
        joined.push_str(separator)?;
        joined.push_str(text.as_str())?;
    }
    Ok(joined)
}

/// Returns the first of `all` texts, with `separator` between them, and the number of the others. Fails if memory is
/// refused.
pub fn joined(
    alloc: Global,
    texts: &[String],
    all: usize,
    separator: &str,
) -> Result<String, AllocError>
    ensures { IfOk result (λ s. string_bytes s
        ≡ join_by (λ t. string_bytes t) separator.now (take MAX_SHOWN texts.now) ++ and_more all) }
{
    let mut joined = first_joined(alloc, texts, separator)?;
    let more = and_more(alloc, all)?;
    joined.push_str(more.as_str())?;
    Ok(joined)
}

/// Returns the first facts, and the number of the others. Fails if memory is refused.
pub fn listed(alloc: Global, facts: &[KeyPredicate<'_>]) -> Result<String, AllocError>
    ensures { IfOk result (λ s. string_bytes s ≡ joined_first fact_text (codes ", ") facts.now) }
{
    let mut texts = Vec::new(alloc);
    'shown: for predicate in first_shown(facts) {
        texts.push(quoted_fact(alloc, predicate.fact)?)?;
    }
    joined(alloc, &texts, facts.len(), ", ")
}

/// Returns both texts with a semicolon between them, or the only one that is not empty. Fails if memory is refused.
pub fn join_non_empty(alloc: Global, first: String, second: String) -> Result<String, AllocError>
    ensures { IfOk result (λ s. string_bytes s ≡ both_texts (string_bytes first) (string_bytes second)) }
{
    if first.is_empty() {
        return Ok(second);
    }
    if second.is_empty() {
        return Ok(first);
    }
    format!(in alloc; "{first}; {second}")
}
