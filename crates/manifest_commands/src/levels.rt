//! The options of `lint` that set the levels of lints, and the one that sets when the run fails.

use clap::ArgMatches;
use diagnostics::{DiagnosticLevel, LintLevel, Rule, Subject};
use key_answers::answer::{QueryError, argument_error};
use lint_reports::codes::unknown_subject;
use std::alloc::{AllocError, Global};

/// The options that set levels.
const OPTIONS: [LintLevel; 3] = [LintLevel::Allow, LintLevel::Warn, LintLevel::Deny];

/// Returns the least level of diagnostics that make `lint` fail, or `None` if none does.
pub fn fails_from(matches: &ArgMatches<'_>) -> Option<DiagnosticLevel> {
    if matches.get_flag("exit-zero") {
        return None;
    }
    match matches.get_str("fail-on") {
        Some("error") => Some(DiagnosticLevel::Error),
        Some("note") => Some(DiagnosticLevel::Note),
        _ => Some(DiagnosticLevel::Warning),
    }
}

/// A rule of the command line, with the index of its argument.
#[derive(Drop)]
struct Placed {
    place: usize,
    rule: Rule,
}

/// Returns the rule of an option with this value. Fails if no lint has the name.
fn rule_of(alloc: Global, setting: LintLevel, word: &str) -> Result<Rule, QueryError> {
    match Subject::of(word) {
        Some(subject) => Ok(Rule {
            setting,
            subject,
            key: None,
            entry: None,
        }),
        None => {
            let message = unknown_subject(alloc, word)?.line(alloc)?;
            Err(argument_error(alloc, message.as_str()))
        }
    }
}

/// Adds a rule with the index of its argument.
fn add(placed: &mut Vec<Placed>, place: usize, rule: Rule) -> Result<(), AllocError> {
    placed.push(Placed { place, rule })?;
    Ok(())
}

/// Returns the rules in the order of their arguments.
fn in_order(alloc: Global, mut placed: Vec<Placed>) -> Result<Vec<Rule>, AllocError> {
    placed.sort_by_key(|it| it.place)?;
    let mut rules = Vec::new(alloc);
    for Placed { place: _, rule } in placed {
        rules.push(rule)?;
    }
    Ok(rules)
}

/// Returns the rules of the command line, in the order of its arguments. Fails if a value is not the name of a lint.
pub fn command_rules(alloc: Global, matches: &ArgMatches<'_>) -> Result<Vec<Rule>, QueryError> {
    let mut placed: Vec<Placed> = Vec::new(alloc);
    for setting in OPTIONS {
        let words = matches.get_strs(setting.word()).unwrap_or(&[]);
        let places = matches.indices_of(setting.word()).unwrap_or(&[]);
        for (word, place) in words.iter().zip(places) {
            let rule = rule_of(alloc, setting, word)?;
            add(&mut placed, *place, rule)?;
        }
    }
    Ok(in_order(alloc, placed)?)
}
