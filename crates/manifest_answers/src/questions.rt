//! The answers of the commands `facts`, `targets` and `match`, which query a single target or key.

ghost use Rattle.std.specs.Prelude.{◌↔◌, IsTrue, IfOk, map};
ghost use Rattle.cargo_platform.specs.Trees.{value_of, condition_of};
ghost use Rattle.cargo_platform.specs.Facts.{fact_set, IsTrueCondition};

use crate::given_targets::{FactsFrom, GivenTargets, non_blank_line};
use cargo_platform::{
    Cfg, FactIndex, FactsError, Platform, ReadError, printable_excerpt, read_facts, values_of,
};
use input_limits::strip_byte_order_mark;
use key_answers::answer::{Answer, QueryError, Status};
use key_answers::conditions::read_key;
use key_answers::json_lines;
use key_answers::printing::{fact_lines, format_name, invalid_cfg_message, invalid_fact_message};
use key_answers::targets::names_of;
use known_targets::{COUNT, KnownTarget, RUSTC_VERSION, TargetSet, matching, targets_with_fact};
use manifest_lints_findings::{Finding, KeyLint, KnownFacts, lint_condition, nearest_target};
use serde::Serialize;
use std::alloc::{AllocError, Global};

/// Returns the message for a name that no known target has, with the nearest name of a target.
pub(crate) fn unknown_name(alloc: Global, name: &str) -> Result<String, AllocError> {
    let shown = format_name(alloc, name)?;
    match nearest_target(alloc, name)? {
        Some(nearest) => format!(in alloc;
            "error: no target that rustc {RUSTC_VERSION} knows is named {shown}; did you mean {nearest}?\n"
        ),
        None => {
            format!(in alloc;
                "error: no target that rustc {RUSTC_VERSION} knows is named {shown}\n"
            )
        }
    }
}

/// Returns the name that Cargo gives to the target of a specification in this file: the file name without its
/// extension.
fn name_of_specification(file: &str) -> Option<&str> {
    let name = match file.rsplit_once('/') {
        Some((_, name)) => name,
        None => file,
    };
    name.strip_suffix(".json")
}

/// Returns the message for a target whose facts are neither known nor given. For the file of a specification, it says
/// how to name it.
fn without_facts(alloc: Global, name: &str) -> Result<String, AllocError> {
    let Some(own) = name_of_specification(name) else {
        return unknown_name(alloc, name);
    };
    let file = printable_excerpt(alloc, name)?;
    let own = format_name(alloc, own)?;
    let command = format!(in alloc; "rustc -Z unstable-options --print cfg --target {file}")?;
    format!(in alloc;
        "error: {file} is not a known target; ask for --target {own} with --facts FILE, or --facts -: {command}\n"
    )
}

/// Returns whether `match` reports a finding of this lint: not what only `--cfg` sets, if facts are given.
fn is_reported(code: KeyLint, has_facts: bool) -> bool {
    code != KeyLint::Custom || !has_facts
}

/// Appends the lines of a finding: its message, and what belongs to it.
fn push_finding(text: &mut String, alloc: Global, finding: &Finding) -> Result<(), AllocError> {
    let level = finding.level.word();
    let code = finding.code.word();
    let message = finding.message.as_str();
    let line = format!(in alloc; "{level}[{code}]: {message}\n")?;
    text.push_str(line.as_str())?;
    for help in &finding.children.helps {
        text.push_str(format!(in alloc; "  = help: {help}\n")?.as_str())?;
    }
    for note in &finding.children.notes {
        text.push_str(format!(in alloc; "  = note: {note}\n")?.as_str())?;
    }
    Ok(())
}

/// Returns the warnings for names and facts in a key that no known target has.
fn unknown_lines(
    alloc: Global,
    key: &str,
    condition: Platform,
    has_facts: bool,
) -> Result<String, AllocError> {
    let known_facts = KnownFacts::new(alloc)?;
    let mut text = String::new(alloc);
    for finding in &lint_condition(alloc, &known_facts, key, condition)? {
        if is_reported(finding.code, has_facts) {
            push_finding(&mut text, alloc, finding)?;
        }
    }
    Ok(text)
}

/// Returns the warnings for names and values in a key that rustc sets on no known target, and for an unknown target
/// name, each with its helps and notes. There is none for what only `--cfg` sets, or for an empty key.
pub fn unknown_name_warnings(alloc: Global, key: &str) -> Result<String, QueryError> {
    if key.is_empty() {
        return Ok(String::new(alloc));
    }
    let condition = read_key(alloc, key)?;
    Ok(unknown_lines(alloc, key, condition, true)?)
}

/// Returns whether the key uses a fact that a target of the file has, and no known target.
fn asks_for_new(
    alloc: Global,
    condition: &Platform,
    given: &GivenTargets,
) -> Result<bool, AllocError> {
    for fact in &values_of(alloc, condition)? {
        if targets_with_fact(fact).is_empty() && given.has(fact) {
            return Ok(true);
        }
    }
    Ok(false)
}

/// Returns the warnings for a key whose target name is not in the file, or whose facts no target has.
fn unknown_in_file(
    alloc: Global,
    key: &str,
    condition: Platform,
    given: &GivenTargets,
) -> Result<String, AllocError> {
    if let Platform::Name(name) = &condition {
        if given.has_name(name.as_str()) {
            return Ok(String::new(alloc));
        }
        let word = KeyLint::UnknownTarget.word();
        let message = given.unknown_message(alloc, name.as_str())?;
        return format!(in alloc; "warning[{word}]: {message}\n");
    }
    if asks_for_new(alloc, &condition, given)? {
        return Ok(String::new(alloc));
    }
    unknown_lines(alloc, key, condition, true)
}

/// Returns the answer of `facts`: the facts of the known target with this name, one a line.
pub fn known_target_facts(alloc: Global, name: &str) -> Result<Answer, AllocError> {
    match KnownTarget::by_name(name) {
        Some(target) => {
            let facts = target.facts(alloc)?;
            let text = fact_lines(alloc, &facts)?;
            Ok(Answer::of(alloc, text, Status::Fine))
        }
        None => Ok(Answer::unusable(alloc, unknown_name(alloc, name)?)),
    }
}

/// Returns the answer of `facts` for a file of targets: the facts of its target with this name, one a line.
pub fn given_target_facts(
    alloc: Global,
    name: &str,
    given: &GivenTargets,
) -> Result<Answer, QueryError> {
    let row = given.named(alloc, name)?;
    let text = fact_lines(alloc, row.facts())?;
    Ok(Answer::of(alloc, text, Status::Fine))
}

/// Returns the names, one a line.
fn name_lines(alloc: Global, names: &[&str]) -> Result<String, AllocError> {
    let mut text = String::new(alloc);
    for name in names {
        text.push_str(name)?;
        text.push_str("\n")?;
    }
    Ok(text)
}

/// The line of `targets --json`: the names of targets.
#[derive(Drop, Serialize)]
struct TargetNames<'a>(&'a [&'a str]);

/// Returns the names as a JSON array.
fn name_array<'a>(alloc: Global, names: &'a [&'a str]) -> Result<String, AllocError> {
    let mut text = String::new(alloc);
    json_lines::push_line(&mut text, alloc, &TargetNames(names))?;
    Ok(text)
}

/// Returns the answer with these targets, as an array or as lines, and with a message on standard error.
fn named(alloc: Global, names: &[&str], errors: String, json: bool) -> Result<Answer, AllocError> {
    if json {
        return Ok(Answer::of(alloc, name_array(alloc, names)?, Status::Fine));
    }
    Ok(Answer {
        output: name_lines(alloc, names)?,
        errors,
        status: Status::Fine,
    })
}

/// Returns the key `cfg(NAME)`, if it is true on a known target.
fn within_cfg(alloc: Global, name: &str) -> Result<Option<String>, AllocError> {
    let key = format!(in alloc; "cfg({name})")?;
    match read_key(alloc, key.as_str()) {
        Ok(condition) => {
            let targets = matching(alloc, &condition)?;
            Ok(if targets.is_empty() { None } else { Some(key) })
        }
        Err(QueryError::Memory(refused)) => Err(refused),
        Err(QueryError::Unusable(_)) => Ok(None),
    }
}

/// Returns the key that `lint` suggests in place of a name which no known target has.
fn suggested_key(alloc: Global, name: &str) -> Result<Option<String>, AllocError> {
    let condition = Platform::Name(String::from_str(alloc, name)?);
    let known_facts = KnownFacts::new(alloc)?;
    for finding in &lint_condition(alloc, &known_facts, name, condition)? {
        if let Some(key) = &finding.suggestion {
            return Ok(Some(key.clone()?));
        }
    }
    Ok(None)
}

/// Returns the message for a key that is an unknown target name, with the key that may be meant.
fn unknown_key(alloc: Global, name: &str) -> Result<String, AllocError> {
    let meant = match within_cfg(alloc, name)? {
        Some(key) => Some(key),
        None => suggested_key(alloc, name)?,
    };
    let name = format_name(alloc, name)?;
    match meant {
        Some(meant) => format!(in alloc;
            "note: no target that rustc {RUSTC_VERSION} knows is named {name}; did you mean {meant}?\n"
        ),
        None => {
            format!(in alloc; "note: no target that rustc {RUSTC_VERSION} knows is named {name}\n")
        }
    }
}

/// Returns the message beside the names: how many there are, and whether the key is an unknown target name.
fn counted(alloc: Global, condition: &Platform, targets: TargetSet) -> Result<String, AllocError> {
    let count = targets.len();
    let mut errors = format!(in alloc; "{count} of {COUNT} known targets\n")?;
    if let Platform::Name(name) = condition {
        if KnownTarget::by_name(name.as_str()).is_none() {
            let note = unknown_key(alloc, name.as_str())?;
            errors.push_str(note.as_str())?;
        }
    }
    Ok(errors)
}

/// Returns the answer of `targets`: the names of the known targets on which the key is true, one a line or, with
/// `json`, as an array.
pub fn known_targets_matching(alloc: Global, key: &str, json: bool) -> Result<Answer, QueryError> {
    let condition = read_key(alloc, key)?;
    let targets = matching(alloc, &condition)?;
    let errors = counted(alloc, &condition, targets)?;
    let names = names_of(alloc, targets)?;
    Ok(named(alloc, &names, errors, json)?)
}

/// Returns the message beside names of a file: how many there are, and whether the key is the name of none.
fn counted_in(
    alloc: Global,
    condition: &Platform,
    count: usize,
    given: &GivenTargets,
) -> Result<String, AllocError> {
    let whole = given.count();
    let file = given.file.as_str();
    let mut errors = format!(in alloc; "{count} of {whole} targets of {file}\n")?;
    if let Platform::Name(name) = condition {
        if !given.has_name(name.as_str()) {
            let message = given.unknown_message(alloc, name.as_str())?;
            let note = format!(in alloc; "note: {message}\n")?;
            errors.push_str(note.as_str())?;
        }
    }
    Ok(errors)
}

/// Returns the answer of `targets` for a file of targets: the names of those on which the key is true, one a line or,
/// with `json`, as an array.
pub fn given_targets_matching(
    alloc: Global,
    key: &str,
    given: &GivenTargets,
    json: bool,
) -> Result<Answer, QueryError> {
    let condition = read_key(alloc, key)?;
    let names = given.matching(alloc, &condition)?;
    let errors = counted_in(alloc, &condition, names.len(), given)?;
    Ok(named(alloc, &names, errors, json)?)
}

/// Returns the lines of a file of facts without what editors add: a byte order mark, carriage returns at the ends of
/// lines, and blank lines.
fn fact_lines_of(alloc: Global, text: &str) -> Result<String, AllocError> {
    let mut lines = String::new(alloc);
    for line in strip_byte_order_mark(text).split('\n') {
        if let Some(fact) = non_blank_line(line) {
            lines.push_str(fact)?;
            lines.push_str("\n")?;
        }
    }
    Ok(lines)
}

/// Returns the number of the line of the last one of the first `facts` facts in a text.
fn line_of_fact(text: &str, facts: usize) -> usize {
    let mut left = facts;
    let mut number: usize = 0;
    for line in strip_byte_order_mark(text).split('\n') {
        if left == 0 {
            return number;
        }
        number = number.saturating_add(1);
        if non_blank_line(line).is_some() {
            left = left.saturating_sub(1);
        }
    }
    number
}

/// Parses the facts in the lines of a file.
pub(crate) fn facts_of_lines(alloc: Global, text: &str) -> Result<Vec<Cfg>, QueryError> {
    match read_facts(alloc, fact_lines_of(alloc, text)?.as_str()) {
        Ok(facts) => Ok(facts),
        Err(FactsError::Memory(refused)) => Err(QueryError::Memory(refused)),
        Err(FactsError::Line { number, error }) => {
            let line = line_of_fact(text, number);
            Err(QueryError::Unusable(invalid_fact_message(alloc, line, &error)?))
        }
    }
}

/// Returns a copy of these facts.
pub fn copied(alloc: Global, facts: &[Cfg]) -> Result<Vec<Cfg>, AllocError> {
    let mut copies = Vec::new(alloc);
    for fact in facts {
        copies.push(fact.clone(alloc)?).map_err(AllocError::from)?;
    }
    Ok(copies)
}

/// Returns the facts of the target of this name.
pub fn facts_from(alloc: Global, name: &str, from: FactsFrom<'_>) -> Result<Vec<Cfg>, QueryError> {
    match from {
        FactsFrom::Lines(text) => facts_of_lines(alloc, text),
        FactsFrom::File(given) => {
            let row = given.named(alloc, name)?;
            Ok(copied(alloc, row.facts())?)
        }
        FactsFrom::Known => match KnownTarget::by_name(name) {
            Some(target) => Ok(target.facts(alloc)?),
            None => Err(QueryError::Unusable(without_facts(alloc, name)?)),
        },
    }
}

/// Parses the fact of an argument.
fn added_fact(alloc: Global, text: &str) -> Result<Cfg, QueryError> {
    match Cfg::from_str(alloc, text) {
        Ok(fact) => Ok(fact),
        Err(ReadError::Memory(refused)) => Err(QueryError::Memory(refused)),
        Err(ReadError::Parse(error)) => Err(QueryError::Unusable(invalid_cfg_message(
            alloc, &error,
        )?)),
    }
}

/// Parses the facts of arguments.
pub(crate) fn added_facts(alloc: Global, texts: &[&str]) -> Result<Vec<Cfg>, QueryError> {
    let mut facts = Vec::new(alloc);
    for text in texts {
        let fact = added_fact(alloc, text)?;
        facts.push(fact).map_err(AllocError::from)?;
    }
    Ok(facts)
}

/// Returns whether the condition is true on a target with this name and these facts.
fn holds(alloc: Global, platform: &Platform, name: &str, facts: &[Cfg]) -> Result<bool, AllocError>
    ensures { IfOk result (λ b. IsTrue b
        ↔ IsTrueCondition name.now (fact_set (map value_of facts.now)) (condition_of platform.now)) }
{
    match platform {
        Platform::Cfg(expression) => {
            let index = FactIndex::new(alloc, facts)?;
            Ok(expression.matches_in(&index))
        }
        Platform::Name(_) => Ok(platform.matches(name, &[])),
    }
}

/// Returns the facts of a target with those that are added.
fn all_facts(
    alloc: Global,
    name: &str,
    from: FactsFrom<'_>,
    added: &[&str],
) -> Result<Vec<Cfg>, QueryError> {
    let mut facts = facts_from(alloc, name, from)?;
    for fact in added_facts(alloc, added)? {
        facts.push(fact).map_err(AllocError::from)?;
    }
    Ok(facts)
}

/// Appends the word for whether a key applies, after the name of the target if it is one of several.
fn push_verdict(
    text: &mut String,
    alloc: Global,
    name: Option<&str>,
    applies: bool,
) -> Result<(), AllocError> {
    if let Some(name) = name {
        text.push_str(printable_excerpt(alloc, name)?.as_str())?;
        text.push_str(": ")?;
    }
    text.push_str(if applies { "yes\n" } else { "no\n" })
}

/// Returns whether a condition is true on the target with this name, whose facts come from `from`.
fn holds_on(
    alloc: Global,
    condition: &Platform,
    name: &str,
    from: FactsFrom<'_>,
    added: &[&str],
) -> Result<bool, QueryError> {
    let facts = all_facts(alloc, name, from, added)?;
    Ok(holds(alloc, condition, name, &facts)?)
}

/// Returns the warnings for a key whose names and facts the targets do not have.
fn unknown_beside(
    alloc: Global,
    key: &str,
    condition: Platform,
    from: FactsFrom<'_>,
    is_added_to: bool,
) -> Result<String, AllocError> {
    match from {
        FactsFrom::File(given) => unknown_in_file(alloc, key, condition, given),
        FactsFrom::Known => unknown_lines(alloc, key, condition, is_added_to),
        FactsFrom::Lines(_) => unknown_lines(alloc, key, condition, true),
    }
}

/// Returns the answer with the verdict for each target. Its status is the worst of theirs.
fn verdicts(
    alloc: Global,
    condition: &Platform,
    names: &[String],
    from: FactsFrom<'_>,
    added: &[&str],
) -> Result<Answer, QueryError> {
    let mut answer = Answer::of(alloc, String::new(alloc), Status::Fine);
    for name in names {
        let name = name.as_str();
        let applies = holds_on(alloc, condition, name, from, added)?;
        let shown = if names.len() > 1 { Some(name) } else { None };
        push_verdict(&mut answer.output, alloc, shown, applies)?;
        if !applies {
            answer.raise(Status::Found);
        }
    }
    Ok(answer)
}

/// Returns the answer of `match`: for each of the targets with these names, a line with `yes` if the key is true on it,
/// and with `no` otherwise. The facts of the targets come from `from`, and those of `added` are added. If there are
/// several targets, each line begins with the name.
pub fn match_each_target(
    alloc: Global,
    key: &str,
    names: &[String],
    from: FactsFrom<'_>,
    added: &[&str],
) -> Result<Answer, QueryError> {
    let condition = read_key(alloc, key)?;
    let mut answer = verdicts(alloc, &condition, names, from, added)?;
    let errors = unknown_beside(alloc, key, condition, from, !added.is_empty())?;
    answer.errors.push_str(errors.as_str())?;
    Ok(answer)
}

/// Returns whether the key is true on the target with this name, whose facts come from `from`, with `added` added.
pub fn applies(
    alloc: Global,
    key: &str,
    name: &str,
    from: FactsFrom<'_>,
    added: &[&str],
) -> Result<bool, QueryError> {
    let condition = read_key(alloc, key)?;
    holds_on(alloc, &condition, name, from, added)
}
