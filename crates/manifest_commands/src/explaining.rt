//! The options `--list-codes` and `--explain` of `lint`.

use diagnostics::level_word;
use key_answers::answer::{Answer, QueryError, Status, argument_error};
use lint_reports::codes::{all_explained, unknown_lint};
use std::alloc::{AllocError, Global};

/// Lists the lints, each with its level and a summary, one per line.
pub fn listed_codes(alloc: Global) -> Result<Answer, AllocError> {
    let mut text = String::new(alloc);
    for explained in &all_explained(alloc)? {
        let level = level_word(explained.level);
        let word = explained.lint.word();
        let short = explained.short;
        let line = format!(in alloc; "{word} ({level}): {short}\n")?;
        text.push_str(line.as_str())?;
    }
    Ok(Answer::of(alloc, text, Status::Fine))
}

/// Explains the lint of this name. Fails if there is no such lint.
pub fn explained_code(alloc: Global, word: &str) -> Result<Answer, QueryError> {
    for explained in &all_explained(alloc)? {
        if explained.lint.word() == word {
            let level = level_word(explained.level);
            let text = explained.text;
            let text = format!(in alloc; "{word} ({level})\n\n{text}\n")?;
            return Ok(Answer::of(alloc, text, Status::Fine));
        }
    }
    let message = unknown_lint(alloc, word)?.line(alloc)?;
    Err(argument_error(alloc, message.as_str()))
}
