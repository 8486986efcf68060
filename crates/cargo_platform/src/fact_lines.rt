//! Parses the facts of a target from a text.

ghost use Rattle.std.specs.Prelude.{◌≡◌, ◌≢◌, ◌==◌, ◌<◌, ◌+◌, ℕ, List, [], map, length, IfOk, MatchOption};
ghost use Rattle.std.specs.List.{AllByRecursion, slice_split};
ghost use Rattle.cargo_platform.specs.Trees.{CfgValue, value_of};
ghost use Rattle.cargo_platform.specs.Spelling.{Values, IsValueText};
ghost use Rattle.cargo_platform.specs.Faults.{IsRefused, IsRefusedAt};
ghost use Rattle.cargo_platform.specs.WellFormed.{IsWellFormedValue};
ghost use Rattle.cargo_platform.specs.Print.{print_value};
ghost use Rattle.cargo_platform.specs.Errors.{orig_of, fault_in, span_in};
ghost use Rattle.cargo_platform.specs.Lines.{lines_of, line_at, IsUnbroken, ended};
ghost use Rattle.cargo_platform.specs.FactLines.{SpellFacts, IsFirstNoFact, IfLine, SpellsNoFact};
ghost use Rattle.cargo_platform.specs.FactLines.{BeginsLine, IsSpanInFacts};
ghost use Rattle.cargo_platform.specs.Inside.LineStarts.{IsBehind, IsFirstLine, HoldsLine};

use crate::cfg::Cfg;
use crate::error::{ParseError, ReadError};
use crate::in_key::further;
use std::alloc::{AllocError, Global};
use std::fmt;
use std::ops::Range;

/// Why a text of facts is rejected.
#[derive(Debug, Drop)]
pub enum FactsError {
    /// This line is not a fact.
    Line {
        /// The number of the line, counted from 1.
        number: usize,
        /// The fault of the line.
        error: ParseError,
    },
    /// An allocation failed.
    Memory(AllocError),
}

/// Returns the text without the newline that ends its last line. Its lines are the parts between the remaining
/// newlines.
fn without_last_end(text: &str) -> &str
    ensures { text.now ≢ [] → slice_split (λ b. b == 10) result.now ≡ lines_of text.now }
{
    text.strip_suffix('\n').unwrap_or(text)
}

/// Parses the line with this number as a fact.
fn read_line(alloc: Global, number: usize, line: &str) -> Result<Cfg, FactsError>
    ensures fact { IfOk result (λ c. IsValueText line.now (value_of c)) }
    ensures well_formed { IfOk result (λ c. IsWellFormedValue (value_of c)) }
    ensures numbered { IfLine result (λ n e. n ≡ number) }
    ensures refused { IfLine result (λ n e. SpellsNoFact line.now) }
    ensures orig { IfLine result (λ n e. orig_of e ≡ line.now) }
    ensures fault { IfLine result (λ n e. IsRefused Values line.now (fault_in e)) }
    ensures span { IfLine result (λ n e. IsRefusedAt Values line.now (fault_in e) (span_in e)) }
{
    match Cfg::from_str(alloc, line) {
        Ok(fact) => Ok(fact),
        Err(ReadError::Parse(error)) => Err(FactsError::Line { number, error }),
        Err(ReadError::Memory(error)) => Err(FactsError::Memory(error)),
    }
}

/// Parses a list of facts, one on each line, as `rustc --print cfg` prints them. Each line is parsed as by
/// `Cfg::from_str`.
///
/// A line ends with `\n` and with nothing else. After the last `\n` there is a line only if a character follows. So the
/// empty text has no facts, and a line that is empty or ends with `\r` is rejected.
///
/// Returns `FactsError::Line` for the first line that is not a fact, or `FactsError::Memory` if an allocation fails,
/// whatever the text.
pub fn read_facts(alloc: Global, text: &str) -> Result<Vec<Cfg>, FactsError>
    // The result has exactly the facts that the lines mean, one from each line.
    ensures facts { IfOk result (λ v. SpellFacts (lines_of text.now) (map value_of v.items)) }
    // The error is that of the first line that is not a fact, with its fault and span.
    ensures refused { IfLine result (λ n e. IsFirstNoFact (lines_of text.now) n) }
    ensures orig { IfLine result (λ n e. orig_of e ≡ line_at (lines_of text.now) n) }
    ensures fault { IfLine result (λ n e. IsRefused Values (line_at (lines_of text.now) n) (fault_in e)) }
    ensures span { IfLine result
        (λ n e. IsRefusedAt Values (line_at (lines_of text.now) n) (fault_in e) (span_in e)) }
    // Results are well-formed. Well-formed facts that are printed one on each line are parsed back.
    ensures well_formed { IfOk result (λ v. AllByRecursion IsWellFormedValue (map value_of v.items)) }
    ensures reads_back { (cs : List CfgValue) → AllByRecursion IsWellFormedValue cs
        → AllByRecursion IsUnbroken (map print_value cs) → text.now ≡ ended (map print_value cs)
        → IfOk result (λ v. map value_of v.items ≡ cs) × IfLine result (λ n e. ⊥) }
{
    let mut facts = Vec::new(alloc);
    if text.is_empty() {
        return Ok(facts);
    }
    for line in without_last_end(text).split('\n') {
        let fact = read_line(alloc, facts.len() + 1, line)?;
        if facts.push(fact).is_err() {
            return Err(FactsError::Memory(AllocError));
        }
    }
    Ok(facts)
}

impl FactsError {
    /// Returns the bytes of the whole text of facts at which the fault lies. Returns `None` if the error is about
    /// memory, or if `text` does not have this line at this number.
    pub fn span_in(&self, text: &str) -> Option<Range<usize>>
        // The fault's place in the whole text.
        ensures { IsSpanInFacts text.now self.now result }
    {
        let FactsError::Line { number, error } = self else {
            return None;
        };
        let span = error.span()?;
        let place = line_place(text, *number, error.orig())?;
        further(span, place)
    }
}

/// Returns the byte at which the line with this number begins, if it is this line.
fn line_place(text: &str, number: usize, line: &str) -> Option<usize>
    ensures { MatchOption result
        ((place : ℕ) → BeginsLine text.now number line.now place → ⊥)
        (λ place. HoldsLine text.now number line.now place) }
{
    let size = text.len();
    let rest = behind_lines(text, number.checked_sub(1)?)?;
    let first = first_line(rest)?;
    if first == line {
        Some(size - rest.len())
    } else {
        None
    }
}

/// Returns the text after the first `many` lines and their ends, if it has so many.
fn behind_lines(text: &str, many: usize) -> Option<&str>
    ensures { MatchOption result (length (lines_of text.now) < many + 1) (λ rest. IsBehind text.now many rest.now) }
{
    let mut rest = text;
    let mut left = many;
    'lines: while 0 < left {
        let (_line, behind) = rest.split_once('\n')?;
        rest = behind;
        left -= 1;
    }
    Some(rest)
}

/// Returns the first line of a text.
fn first_line(text: &str) -> Option<&str>
    ensures { MatchOption result (text.now ≡ []) (λ line. IsFirstLine text.now line.now) }
{
    if text.is_empty() {
        return None;
    }
    match text.split_once('\n') {
        Some((line, _behind)) => Some(line),
        None => Some(text),
    }
}

impl fmt::Display for FactsError {
    ghost use Rattle.cargo_platform.specs.FactLines.{print_facts_error};

    // Prints exactly the bytes that the definition gives, except for `Memory`.
    ghost output = { λ e. print_facts_error e };

    fn fmt<W: fmt::Write>(&self, f: &mut fmt::Formatter<W>) -> fmt::Result {
        match self {
            FactsError::Line { number, error } => write!(f, "line {number}: {error}"),
            FactsError::Memory(error) => write!(f, "{error}"),
        }
    }
}

impl std::error::Error for FactsError {}
