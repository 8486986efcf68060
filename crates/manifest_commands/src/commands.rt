//! The subcommands, each run with the arguments that `clap` parsed.

use crate::explaining::{explained_code, listed_codes};
use crate::graphs::graph_answer;
use crate::levels::{command_rules, fails_from};
use crate::limits::{bare_message, limit_of, read_input_text};
use crate::linting::{LintOptions, lint_each};
use crate::manifest_paths::{SelectedManifests, find_manifests};
use crate::other_rustc::OtherRustc;
use crate::styles::{OutputContext, style_of};
use crate::target_names::{ALL_TARGETS, TargetsWithFlags, named_targets, targets_with_flags};
use crate::target_specs::with_custom_targets;
use cargo_platform::printable_text;
use clap::ArgMatches;
use input_limits::{InputError, STDIN_PATH};
use key_answers::answer::{Answer, QueryError, Status, answer_or_error};
use key_answers::comparing::compare;
use lint_fixes::FixOptions;
use manifest_answers::faults::ErrorReporter;
use manifest_answers::given_targets::{FactsFrom, GivenTargets};
use manifest_answers::questions;
use manifest_answers::selecting::{SelectOptions, select_each};
use std::alloc::{AllocError, Global};
use std::rt::{Env, Files};
use workspaces::ManifestCache;

/// Returns the value of a required argument.
fn word<'a>(matches: &ArgMatches<'a>, id: &str) -> &'a str {
    matches.get_str(id).unwrap_or("")
}

/// Reads the file that `--facts` names, or standard input, if the option is given.
fn facts_file<R: Files + Input + AllocGlobal>(
    rt: &R,
    matches: &ArgMatches<'_>,
) -> Result<Option<String>, QueryError> {
    match matches.get_str("facts") {
        Some(path) => Ok(Some(read_input_text(rt, path, limit_of(matches))?)),
        None => Ok(None),
    }
}

/// Reads the targets in the file that `--facts-of` names, or on standard input, if the option is given.
fn targets_of_file<R: Files + Input + AllocGlobal>(
    rt: &R,
    matches: &ArgMatches<'_>,
) -> Result<Option<GivenTargets>, QueryError> {
    let Some(path) = matches.get_str("facts-of") else {
        return Ok(None);
    };
    let alloc = rt.alloc();
    let text = read_input_text(rt, path, limit_of(matches))?;
    let file = printable_text(alloc, path)?;
    Ok(Some(GivenTargets::of(alloc, file, text.as_str())?))
}

/// Reads the targets that replace the known ones, by the options `--facts-of` and `--target-spec`, if one is given.
pub fn given_targets<R: Files + Input + AllocGlobal>(
    rt: &R,
    matches: &ArgMatches<'_>,
) -> Result<Option<GivenTargets>, QueryError> {
    let given = targets_of_file(rt, matches)?;
    let values = matches.get_strs("target-spec").unwrap_or(&[]);
    with_custom_targets(rt, given, values, limit_of(matches))
}

/// Returns the source of the facts of targets, by the options `--facts`, `--facts-of` and `--target-spec`.
fn facts_from<'a>(lines: &'a Option<String>, given: &'a Option<GivenTargets>) -> FactsFrom<'a> {
    match (lines, given) {
        (_, Some(given)) => FactsFrom::File(given),
        (Some(lines), None) => FactsFrom::Lines(lines.as_str()),
        (None, None) => FactsFrom::Known,
    }
}

/// Runs `match`.
fn match_answer<R: Files + Input + AllocGlobal>(
    rt: &R,
    matches: &ArgMatches<'_>,
) -> Result<Answer, QueryError> {
    let lines = facts_file(rt, matches)?;
    let given = given_targets(rt, matches)?;
    let from = facts_from(&lines, &given);
    let names = named_targets(rt.alloc(), matches, from)?;
    let added = matches.get_strs("cfg").unwrap_or(&[]);
    questions::match_each_target(rt.alloc(), word(matches, "key"), &names, from, added)
}

/// Returns the target of `select`, if it is the only one, and the output format.
fn selection_errors<'a>(matches: &ArgMatches<'a>) -> ErrorReporter<'a> {
    let names = matches.get_strs("target").unwrap_or(&[]);
    let is_one = names.len() == 1 && word(matches, "target") != ALL_TARGETS;
    ErrorReporter {
        target: if is_one {
            matches.get_str("target")
        } else {
            None
        },
        json: matches.get_flag("json"),
    }
}

/// Selects dependencies from the selected manifests.
fn selected_by<R: Files + Input + Env + AllocGlobal + Clone + Drop>(
    rt: &R,
    matches: &ArgMatches<'_>,
    from: FactsFrom<'_>,
    flagged: &TargetsWithFlags,
) -> Result<Answer, QueryError> {
    let alloc = rt.alloc();
    let errors = selection_errors(matches);
    let selection = SelectOptions {
        errors,
        open: matches.get_strs("open").unwrap_or(&[]),
        facts_from: from,
        host: matches.get_str("host"),
    };
    let mut documents = ManifestCache::new(alloc, limit_of(matches));
    let SelectedManifests {
        paths,
        unusable,
        warnings,
    } = find_manifests(rt, &mut documents, matches)?;
    let mut answer = errors.report_each(alloc, &unusable)?;
    answer.errors.push_str(warnings.as_str())?;
    answer.errors.push_str(flagged.notes.as_str())?;
    let paths: Vec<&str> = paths.iter().map(|path| path.as_str()).collect(alloc)?;
    let selected = select_each(rt, &mut documents, &paths, &flagged.targets, &selection)?;
    answer.append(selected)?;
    Ok(answer)
}

/// Runs `select`. Fails if an argument or a file that it names is invalid.
fn select_answer<R: Files + Input + Env + AllocGlobal + Clone + Drop>(
    rt: &R,
    matches: &ArgMatches<'_>,
) -> Result<Answer, QueryError> {
    let lines = facts_file(rt, matches)?;
    let given = given_targets(rt, matches)?;
    let from = facts_from(&lines, &given);
    let names = named_targets(rt.alloc(), matches, from)?;
    let flagged = targets_with_flags(rt, matches, &names, from)?;
    selected_by(rt, matches, from, &flagged)
}

/// Runs `select`, and reports an invalid argument in the output format that is selected.
fn select_or_report<R: Files + Input + Env + AllocGlobal + Clone + Drop>(
    rt: &R,
    matches: &ArgMatches<'_>,
) -> Result<Answer, AllocError> {
    match select_answer(rt, matches) {
        Ok(answer) => Ok(answer),
        Err(QueryError::Unusable(lines)) => selection_errors(matches).report_arguments(
            rt.alloc(),
            lines.as_str(),
        ),
        Err(QueryError::Memory(refused)) => Err(refused),
    }
}

/// Returns the rustc whose targets count instead of the built-in ones, if `--facts-of` or `--target-spec` is given.
fn other_rustc<R: Files + Input + AllocGlobal>(
    rt: &R,
    matches: &ArgMatches<'_>,
) -> Result<Option<OtherRustc>, QueryError> {
    match given_targets(rt, matches)? {
        Some(given) => Ok(Some(OtherRustc::of(rt.alloc(), given)?)),
        None => Ok(None),
    }
}

/// Returns a message on a value of `--target-spec`, which names no file first, or on the file that `--facts-of` names,
/// or on its targets, as something that can't be used.
fn unusable_targets(
    alloc: Global,
    matches: &ArgMatches<'_>,
    message: &str,
) -> Result<InputError, AllocError> {
    if message.starts_with("error: ") {
        return Ok(InputError {
            reason: String::from_str(alloc, bare_message(message, ""))?,
            file: None,
        });
    }
    let file = printable_text(alloc, word(matches, "facts-of"))?;
    let reason = bare_message(message, file.as_str());
    Ok(InputError {
        reason: format!(in alloc; "cannot read the targets of `--facts-of`: {reason}")?,
        file: Some(file),
    })
}

/// Returns how suggestions are applied, if `--fix` is given.
fn fixing_of(matches: &ArgMatches<'_>) -> Option<FixOptions> {
    if !matches.get_flag("fix") {
        return None;
    }
    Some(FixOptions {
        is_dry: matches.get_flag("dry-run"),
        is_unsafe: matches.get_flag("unsafe-fixes"),
        is_quiet: matches.get_flag("quiet"),
    })
}

/// Returns whether the text on standard input is to be fixed, which can't be written.
fn fixes_input(matches: &ArgMatches<'_>, paths: &[String]) -> bool {
    if !matches.get_flag("fix") {
        return false;
    }
    for path in paths {
        if path.as_str() == STDIN_PATH {
            return true;
        }
    }
    matches.contains_id("stdin-filename")
}

/// Runs `lint`.
fn lint_answer<R: Files + Input + Env + AllocGlobal + Clone + Drop>(
    rt: &R,
    matches: &ArgMatches<'_>,
    shown: &OutputContext<'_>,
) -> Result<Answer, QueryError> {
    let alloc = rt.alloc();
    if matches.get_flag("list-codes") {
        return Ok(listed_codes(alloc)?);
    }
    if let Some(word) = matches.get_str("explain") {
        return explained_code(alloc, word);
    }
    let mut options = LintOptions {
        style: style_of(rt, matches, shown.on_terminal),
        version: String::from_str(alloc, shown.version)?,
        rules: command_rules(alloc, matches)?,
        is_verbose: matches.get_flag("verbose"),
        is_quiet: matches.get_flag("quiet"),
        fails_from: fails_from(matches),
        is_whole: !matches.contains_id("package") && !matches.contains_id("exclude"),
        other: None,
        fixing: fixing_of(matches),
    };
    let mut documents = ManifestCache::new(alloc, limit_of(matches));
    match other_rustc(rt, matches) {
        Ok(other) => options.other = other,
        Err(QueryError::Unusable(line)) => {
            let unusable = [unusable_targets(alloc, matches, line.as_str())?];
            return Ok(lint_each(rt, &[], &unusable, &options, documents)?);
        }
        Err(QueryError::Memory(refused)) => return Err(refused.into()),
    }
    let SelectedManifests {
        paths,
        unusable,
        warnings,
    } = find_manifests(rt, &mut documents, matches)?;
    if fixes_input(matches, &paths) {
        let line = String::from_str(alloc, "error: `--fix` can't change standard input\n")?;
        return Ok(Answer::unusable(alloc, line));
    }
    let mut answer = Answer::of(alloc, String::new(alloc), Status::Fine);
    answer.errors.push_str(warnings.as_str())?;
    let paths: Vec<&str> = paths.iter().map(|path| path.as_str()).collect(alloc)?;
    answer.append(lint_each(rt, &paths, &unusable, &options, documents)?)?;
    Ok(answer)
}

/// Runs `compare`.
fn compare_answer(alloc: Global, matches: &ArgMatches<'_>) -> Result<Answer, QueryError> {
    let first = word(matches, "first");
    let second = word(matches, "second");
    let budget = matches.get_one::<u64>("budget").unwrap_or(0);
    let mut answer = compare(alloc, first, second, budget, matches.get_flag("json"))?;
    let hints = questions::unknown_name_warnings(alloc, first)?;
    answer.errors.push_str(hints.as_str())?;
    if second != first {
        let hints = questions::unknown_name_warnings(alloc, second)?;
        answer.errors.push_str(hints.as_str())?;
    }
    Ok(answer)
}

/// Runs `targets`.
fn targets_answer<R: Files + Input + AllocGlobal>(
    rt: &R,
    matches: &ArgMatches<'_>,
) -> Result<Answer, QueryError> {
    let key = word(matches, "key");
    let json = matches.get_flag("json");
    match given_targets(rt, matches)? {
        Some(given) => questions::given_targets_matching(rt.alloc(), key, &given, json),
        None => questions::known_targets_matching(rt.alloc(), key, json),
    }
}

/// Runs `facts`.
fn facts_answer<R: Files + Input + AllocGlobal>(
    rt: &R,
    matches: &ArgMatches<'_>,
) -> Result<Answer, QueryError> {
    let name = word(matches, "name");
    match given_targets(rt, matches)? {
        Some(given) => questions::given_target_facts(rt.alloc(), name, &given),
        None => Ok(questions::known_target_facts(rt.alloc(), name)?),
    }
}

/// Runs `targets`, `facts` or `compare`.
fn question_answer<R: Files + Input + AllocGlobal>(
    rt: &R,
    matches: &ArgMatches<'_>,
) -> Result<Answer, AllocError> {
    let alloc = rt.alloc();
    if let Some(m) = matches.subcommand_matches("targets") {
        return answer_or_error(alloc, targets_answer(rt, m));
    }
    if let Some(m) = matches.subcommand_matches("facts") {
        return answer_or_error(alloc, facts_answer(rt, m));
    }
    if let Some(m) = matches.subcommand_matches("compare") {
        return answer_or_error(alloc, compare_answer(alloc, m));
    }
    let text = String::from_str(alloc, "error: no such subcommand\n")?;
    Ok(Answer::unusable(alloc, text))
}

/// Runs the subcommand of the command line, and returns its output and exit status.
pub fn answer_to<R: Files + Input + Env + AllocGlobal + Clone + Drop>(
    rt: &R,
    matches: &ArgMatches<'_>,
    shown: &OutputContext<'_>,
) -> Result<Answer, AllocError> {
    if let Some(m) = matches.subcommand_matches("lint") {
        return answer_or_error(rt.alloc(), lint_answer(rt, m, shown));
    }
    if let Some(m) = matches.subcommand_matches("select") {
        return select_or_report(rt, m);
    }
    if let Some(m) = matches.subcommand_matches("graph") {
        return graph_answer(rt, m);
    }
    if let Some(m) = matches.subcommand_matches("match") {
        return answer_or_error(rt.alloc(), match_answer(rt, m));
    }
    question_answer(rt, matches)
}
