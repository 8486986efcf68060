//! The output as a function of the bytes of the input.
ghost use Rattle.std.specs.Prelude.{◌≡◌, ◌++◌, ◌-◌, ℕ, List, IfOk, IfErr, OnOk, codes, drop, flat_map, map};
ghost use Rattle.std.specs.Prelude.{string_bytes};
ghost use Rattle.cargo_platform.specs.Trees.{value_of, condition_of};
ghost use Rattle.cargo_platform.specs.Platforms.{IsConditionText, IsRefusedCondition};
ghost use Rattle.cargo_platform.specs.FactLines.{IsFirstNoFact};
ghost use Rattle.cargo_platform.specs.Errors.{orig_of, fault_in, texts};
ghost use Rattle.cargo_platform.specs.Print.{print_condition};
ghost use Rattle.platform_answers.specs.Reading.{IsGathered};
ghost use Rattle.platform_answers.specs.Lines.{line, lines_of, line_at};
ghost use Rattle.platform_answers.specs.Answering.{SpellsNoCondition, SpellFacts, IsQuery};
ghost use Rattle.platform_answers.specs.Answering.{IsLeast, IsFactFault, IsRefusedLine, IsLineFault, is_match};
ghost use Rattle.platform_answers.specs.Answering.{match_word, match_outcome, warnings, warning_line, IsAnswerToQuery};
ghost use Rattle.platform_answers.specs.Answering.{IsAnswerToLines, IsRefusedAs, IsAnswer, IfLine, refused_line};

use crate::Outcome;
use crate::evaluation::is_true;
use crate::printing::push_condition;
use crate::reading::{MAX_BYTES, ReadOutcome};
use cargo_platform::{Cfg, FactIndex, FactsError, ParseError, Platform, ReadError, read_facts};
use std::alloc::{AllocError, Global};

/// The text to write, and the outcome of the run then.
#[derive(Drop)]
pub struct Answer {
    pub text: String,
    pub outcome: Outcome,
}

/// A query: whether the condition is true on a target with this name and these facts.
#[derive(Drop)]
struct Query<'a> {
    platform: Platform,
    target: &'a str,
    facts: Vec<Cfg>,
}

/// The reason why the lines are not a query.
#[derive(Drop)]
enum Refusal {
    /// The line with this number is rejected, with this error.
    Line(usize, ParseError),
    Memory(AllocError),
}

/// The text that stands for the manifest in the warnings on keywords.
const MANIFEST: &str = "-";

/// Returns the first line of a text, without its line end, and the text after it.
fn split_line(text: &str) -> (&str, &str)
    ensures line { result.0.now ≡ line_at (lines_of text.now) 1 }
    ensures after { lines_of result.1.now ≡ drop 1 (lines_of text.now) }
{
    match text.split_once('\n') {
        Some(parts) => parts,
        None => (text, ""),
    }
}

/// Parses line 1 as a condition.
fn read_condition(alloc: Global, text: &str) -> Result<Platform, Refusal>
    ensures condition { IfOk result (λ p. IsConditionText text.now (condition_of p)) }
    ensures refused { IfErr result
        (λ r. IfLine r
        (λ n orig fault. (n ≡ 1) × SpellsNoCondition text.now × IsRefusedCondition text.now orig fault)) }
{
    match Platform::from_str(alloc, text) {
        Ok(platform) => Ok(platform),
        Err(ReadError::Parse(error)) => Err(Refusal::Line(1, error)),
        Err(ReadError::Memory(e)) => Err(Refusal::Memory(e)),
    }
}

/// Parses each line of the text as a fact. The number of a rejected line is the one in the input, which has two lines
/// before the text.
fn read_fact_lines(alloc: Global, text: &str) -> Result<Vec<Cfg>, Refusal>
    ensures facts { IfOk result (λ facts. SpellFacts (lines_of text.now) (map value_of facts.items)) }
    ensures refused { IfErr result
        (λ r. IfLine r
        (λ n orig fault. IsFirstNoFact (lines_of text.now) (n - 2)
        × IsFactFault (line_at (lines_of text.now) (n - 2)) orig fault)) }
{
    match read_facts(alloc, text) {
        Ok(facts) => Ok(facts),
        Err(FactsError::Line { number, error }) => Err(Refusal::Line(number + 2, error)),
        Err(FactsError::Memory(e)) => Err(Refusal::Memory(e)),
    }
}

/// Parses the lines of the text as a query.
fn read_query(alloc: Global, text: &str) -> Result<Query<'_>, Refusal>
    ensures query { IfOk result
        (λ q. IsQuery (lines_of text.now) (condition_of q.platform) (map value_of q.facts.items)) }
    ensures target { IfOk result (λ q. q.target.now ≡ line_at (lines_of text.now) 2) }
    ensures refused { IfErr result
        (λ r. IfLine r
        (λ n orig fault. IsLeast (IsRefusedLine (lines_of text.now)) n
        × IsLineFault (lines_of text.now) n orig fault)) }
{
    let (first, others) = split_line(text);
    let (target, fact_lines) = split_line(others);
    let platform = read_condition(alloc, first)?;
    let facts = read_fact_lines(alloc, fact_lines)?;
    Ok(Query {
        platform,
        target,
        facts,
    })
}

/// Returns the answer that consists of this one line, for an input that is not a query.
fn refuse(alloc: Global, text: &str) -> Result<Answer, AllocError>
    ensures { IfOk result (λ a. IsRefusedAs text.now (string_bytes a.text) a.outcome) }
{
    Ok(Answer {
        text: format!(in alloc; "{text}\n")?,
        outcome: Outcome::Refused,
    })
}

/// Returns the answer to lines of which this one is the first that is rejected.
fn refuse_line(alloc: Global, number: usize, error: &ParseError) -> Result<Answer, AllocError>
    ensures { IfOk result
        (λ a. IsRefusedAs (refused_line number (orig_of error.now) (fault_in error.now))
        (string_bytes a.text) a.outcome) }
{
    Ok(Answer {
        text: format!(in alloc; "line {number}: {error}\n")?,
        outcome: Outcome::Refused,
    })
}

/// Returns whether the condition is true on the target with this name.
fn is_match(alloc: Global, query: &Query<'_>, name: &str) -> Result<bool, AllocError>
    ensures { IfOk result
        (λ b. b ≡ is_match name.now (map value_of query.now.facts.items) (condition_of query.now.platform)) }
{
    match &query.platform {
        Platform::Cfg(expression) => {
            let index = FactIndex::new(alloc, &query.facts)?;
            is_true(alloc, expression, &index)
        }
        Platform::Name(target) => Ok(target.as_str() == name),
    }
}

/// Returns the word that says whether a condition is true, and the outcome of the run then.
fn verdict(is_met: bool) -> (&'static str, Outcome)
    ensures word { result.0.now ≡ match_word is_met }
    ensures outcome { result.1 ≡ match_outcome is_met }
{
    if is_met {
        ("yes", Outcome::Match)
    } else {
        ("no", Outcome::NoMatch)
    }
}

/// Returns the lines with a condition in canonical form, and with whether it is true.
fn met_lines(alloc: Global, platform: &Platform, word: &str) -> Result<String, AllocError>
    ensures ok { IfOk result
        (λ t. string_bytes t ≡ line (codes "condition: " ++ print_condition (condition_of platform.now)) ++ line
        (codes "match: " ++ word.now)) }
{
    let mut text = String::from_str(alloc, "condition: ")?;
    push_condition(alloc, platform, &mut text)?;
    write!(text, "\nmatch: {word}\n")?;
    Ok(text)
}

/// Returns the warnings on a condition, those on attributes first.
fn warnings_on(alloc: Global, platform: &Platform) -> Result<Vec<String>, AllocError>
    ensures { IfOk result (λ v. texts v ≡ warnings (condition_of platform.now)) }
{
    let mut warnings = Vec::new(alloc);
    platform.check_cfg_attributes(alloc, &mut warnings)?;
    platform.check_cfg_keywords(alloc, &mut warnings, MANIFEST)?;
    Ok(warnings)
}

/// Appends a line for each warning.
fn push_warnings(text: &mut String, warnings: &[String]) -> Result<(), AllocError>
    ensures { OnOk result
        (string_bytes text.new ≡ string_bytes text.old ++ flat_map warning_line
        (map (λ w. string_bytes w) warnings.now)) }
{
    for warning in warnings {
        text.push_str("warning: ")?;
        text.push_str(warning)?;
        text.push_str("\n")?;
    }
    Ok(())
}

/// Returns the answer to a query about the target with this name.
fn answer_query(alloc: Global, query: &Query<'_>, name: &str) -> Result<Answer, AllocError>
    ensures { IfOk result
        (λ a. IsAnswerToQuery name.now (condition_of query.now.platform) (map value_of query.now.facts.items)
        (string_bytes a.text) a.outcome) }
{
    let (word, outcome) = verdict(is_match(alloc, query, name)?);
    let mut text = met_lines(alloc, &query.platform, word)?;
    let warnings = warnings_on(alloc, &query.platform)?;
    push_warnings(&mut text, &warnings)?;
    Ok(Answer { text, outcome })
}

/// Returns the answer to the lines of a text.
fn answer_lines(alloc: Global, text: &str) -> Result<Answer, AllocError>
    ensures { IfOk result (λ a. IsAnswerToLines (lines_of text.now) (string_bytes a.text) a.outcome) }
{
    match read_query(alloc, text) {
        Ok(query) => answer_query(alloc, &query, query.target),
        Err(Refusal::Line(number, error)) => refuse_line(alloc, number, &error),
        Err(Refusal::Memory(e)) => Err(e),
    }
}

/// Returns the answer to an input that is too long.
fn too_long(alloc: Global) -> Result<Answer, AllocError>
    ensures { IfOk result
        (λ a. IsRefusedAs (codes "input is longer than 1048576 bytes") (string_bytes a.text) a.outcome) }
{
    refuse(alloc, "input is longer than 1048576 bytes")
}

/// Returns the answer to an input of these bytes.
fn answer_bytes(alloc: Global, bytes: &[u8]) -> Result<Answer, AllocError>
    ensures { IfOk result (λ a. IsAnswer bytes.now (string_bytes a.text) a.outcome) }
{
    if bytes.len() > MAX_BYTES {
        return too_long(alloc);
    }
    let Ok(text) = str::from_utf8(bytes) else {
        return refuse(alloc, "input is not UTF-8");
    };
    answer_lines(alloc, text)
}

/// Returns the answer to the input that was read. Fails if an allocation fails.
pub fn answer_to(alloc: Global, gathered: ReadOutcome) -> Result<Answer, AllocError>
    ensures { IfOk result (λ a. (bs : List ℕ) → IsGathered gathered bs → IsAnswer bs (string_bytes a.text) a.outcome) }
{
    match gathered {
        ReadOutcome::Whole(bytes) => answer_bytes(alloc, &bytes),
        ReadOutcome::TooLong => too_long(alloc),
    }
}
