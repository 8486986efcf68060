//! The text forms of facts, examples and errors.

ghost use Rattle.std.specs.Prelude.{◌≡◌, ◌++◌, ◌==◌, IfOk, OnOk, flat_map, map, string_bytes};
ghost use Rattle.std.specs.List.{list_any};
ghost use Rattle.cargo_platform.specs.FaultLaws.{IsSpanIn};
ghost use Rattle.cargo_platform.specs.Trees.{value_of};
ghost use Rattle.key_answers.specs.Printing.{fact_line, key_too_deep_message, is_unclosed, is_unopened, error_text};
ghost use Rattle.key_answers.specs.Printing.{unopened_text};
ghost use Rattle.key_answers.specs.Printing.{IsKeyReason};

use cargo_platform::{Cfg, ParseError, printable_excerpt};
use exact_answers::PossibleTarget;
use input_limits::too_deep_message;
use std::alloc::{AllocError, Global};
use std::ops::Range;

/// Appends the fact as `rustc --print cfg` prints it, and a line end.
pub(crate) fn push_fact_line(text: &mut String, fact: &Cfg) -> Result<(), AllocError>
    ensures { OnOk result (string_bytes text.new ≡ string_bytes text.old ++ fact_line (value_of fact.now)) }
{
    match fact {
        Cfg::Name(name) => {
            text.push_str(name.as_str())?;
            text.push_str("\n")
        }
        Cfg::KeyPair(key, value) => {
            text.push_str(key.as_str())?;
            text.push_str("=\"")?;
            text.push_str(value.as_str())?;
            text.push_str("\"\n")
        }
    }
}

/// Returns the facts, one a line.
pub fn fact_lines(alloc: Global, facts: &[Cfg]) -> Result<String, AllocError>
    ensures { IfOk result (λ t. string_bytes t ≡ flat_map fact_line (map value_of facts.now)) }
{
    let mut text = String::new(alloc);
    for fact in facts {
        push_fact_line(&mut text, fact)?;
    }
    Ok(text)
}

/// Formats a fact as `Cfg` prints it, cut and without hidden characters (see [`printable_excerpt`]).
pub(crate) fn format_fact(alloc: Global, fact: &Cfg) -> Result<String, AllocError> {
    let text = format!(in alloc; "{fact}")?;
    printable_excerpt(alloc, text.as_str())
}

/// Formats facts, joined by commas.
pub(crate) fn format_facts(alloc: Global, facts: &[Cfg]) -> Result<String, AllocError> {
    if facts.is_empty() {
        return String::from_str(alloc, "no facts");
    }
    let mut text = String::new(alloc);
    for fact in facts {
        if !text.is_empty() {
            text.push_str(", ")?;
        }
        let shown = format_fact(alloc, fact)?;
        text.push_str(shown.as_str())?;
    }
    Ok(text)
}

/// Formats a name for messages, as [`printable_excerpt`] does. The empty name becomes two quotes.
pub fn format_name(alloc: Global, name: &str) -> Result<String, AllocError> {
    if name.is_empty() {
        String::from_str(alloc, "\"\"")
    } else {
        printable_excerpt(alloc, name)
    }
}

/// Returns the target of an example: `over FACTS`, after `at NAME` if the name matters.
pub(crate) fn format_example(
    alloc: Global,
    example: &PossibleTarget,
) -> Result<String, AllocError> {
    let facts = format_facts(alloc, &example.facts)?;
    match &example.name {
        Some(name) => {
            let name = format_name(alloc, name.as_str())?;
            format!(in alloc; "at {name} over {facts}")
        }
        None => format!(in alloc; "over {facts}"),
    }
}

/// Appends the lines of the text, each indented by four spaces.
pub(crate) fn push_indented(text: &mut String, lines: &str) -> Result<(), AllocError> {
    for line in lines.lines() {
        text.push_str("    ")?;
        text.push_str(line)?;
        text.push_str("\n")?;
    }
    Ok(())
}

/// Appends the span and the reason of an error, indented.
fn push_fault(
    text: &mut String,
    alloc: Global,
    error: &ParseError,
    snippet: Option<String>,
) -> Result<(), AllocError> {
    match snippet {
        Some(snippet) => push_indented(text, snippet.as_str()),
        None => {
            let whole = format!(in alloc; "{error}")?;
            let shown = printable_excerpt(alloc, whole.as_str())?;
            push_indented(text, shown.as_str())
        }
    }
}

/// Returns whether a key begins with `cfg(` and does not end with `)`.
fn is_unclosed(key: &str) -> bool
    ensures { result ≡ is_unclosed key.now }
{
    key.as_bytes().starts_with(b"cfg(") && !key.as_bytes().ends_with(b")")
}

/// Returns whether a key contains `(`.
fn has_parenthesis(key: &str) -> bool
    ensures { result ≡ list_any (λ c. c == 0x28) key.now }
{
    key.bytes().any(|byte| byte == b'(')
}

/// Returns whether a key contains `(` and does not begin with `cfg(`.
fn is_unopened(key: &str) -> bool
    ensures { result ≡ is_unopened key.now }
{
    has_parenthesis(key) && !key.as_bytes().starts_with(b"cfg(")
}

/// Returns why a text is rejected, escaped and shortened.
fn error_text(alloc: Global, error: &ParseError) -> Result<String, AllocError>
    ensures { IfOk result (λ s. string_bytes s ≡ error_text error.now) }
{
    let kind = error.kind();
    let text = format!(in alloc; "{kind}")?;
    printable_excerpt(alloc, text.as_str())
}

/// Returns why a key is rejected that contains `(` and does not begin with `cfg(`. The text names the character at this
/// span.
fn unopened_text(alloc: Global, key: &str, span: Range<usize>) -> Result<String, AllocError>
    ensures { IfOk result (λ s. IsSpanIn key.now span → string_bytes s ≡ unopened_text key.now span) }
{
    let refused = key.get(span.start..span.end).unwrap_or("");
    let shown = printable_excerpt(alloc, refused)?;
    format!(in alloc;
        "invalid target specifier: unexpected `{shown}` character, cfg expressions must start with `cfg(`"
    )
}

/// Returns why a key is rejected, on one line: the error or, if `cfg(` or `)` is missing, that fact. A character that
/// the text names is the one at the span of the error. Fails if memory is refused.
pub fn key_reason(alloc: Global, key: &str, error: &ParseError) -> Result<String, AllocError>
    ensures { IfOk result (λ s. IsKeyReason key.now error.now (string_bytes s)) }
{
    if is_unclosed(key) {
        return String::from_str(alloc, "it begins with `cfg(` and does not end with `)`");
    }
    if !is_unopened(key) {
        return error_text(alloc, error);
    }
    match error.span() {
        Some(span) => unopened_text(alloc, key, span),
        None => error_text(alloc, error),
    }
}

/// Returns the two lines that show where a key is rejected, with the reason after the carets, if its place is known.
fn key_snippet(alloc: Global, key: &str, error: &ParseError) -> Result<Option<String>, AllocError> {
    let Some(lines) = error.snippet_in(alloc, key)? else {
        return Ok(None);
    };
    let fault = error_text(alloc, error)?;
    match lines.as_str().strip_suffix(fault.as_str()) {
        Some(carets) => {
            let reason = key_reason(alloc, key, error)?;
            Ok(Some(format!(in alloc; "{carets}{reason}")?))
        }
        None => Ok(Some(lines.clone()?)),
    }
}

/// Returns the message for an invalid key.
pub fn invalid_key_message(
    alloc: Global,
    key: &str,
    error: &ParseError,
) -> Result<String, AllocError> {
    let mut text = String::from_str(alloc, "error: invalid key\n")?;
    let snippet = key_snippet(alloc, key, error)?;
    push_fault(&mut text, alloc, error, snippet)?;
    Ok(text)
}

/// Returns the message for a key that is nested too deep from this byte on.
pub(crate) fn key_too_deep_message(alloc: Global, at: usize) -> Result<String, AllocError>
    ensures { IfOk result (λ text. string_bytes text ≡ key_too_deep_message at) }
{
    let reason = too_deep_message(alloc, at)?;
    format!(in alloc; "error: the key is {reason}\n")
}

/// Returns the message for a line that is not a fact.
pub fn invalid_fact_message(
    alloc: Global,
    number: usize,
    error: &ParseError,
) -> Result<String, AllocError> {
    let mut text = format!(in alloc; "error: line {number} of the facts is not a fact\n")?;
    let snippet = error.snippet(alloc)?;
    push_fault(&mut text, alloc, error, snippet)?;
    Ok(text)
}

/// Returns the message for an argument that is not a fact.
pub fn invalid_cfg_message(alloc: Global, error: &ParseError) -> Result<String, AllocError> {
    let mut text = String::from_str(alloc, "error: the value of --cfg is not a fact\n")?;
    let snippet = error.snippet(alloc)?;
    push_fault(&mut text, alloc, error, snippet)?;
    Ok(text)
}
