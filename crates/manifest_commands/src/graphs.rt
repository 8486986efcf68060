//! `graph`: which packages are in a build, and on which targets.

use crate::commands::given_targets;
use crate::limits::{limit_of, read_file_text, read_input_text};
use crate::locks::{NamedLock, bill_of, lock_of};
use crate::reports::{Report, report_on};
use crate::words::command_given;
use cargo_platform::printable_text;
use clap::ArgMatches;
use graph_queries::query::{FeatureArguments, GraphArguments, Provenance};
use input_limits::STDIN_PATH;
use key_answers::answer::{Answer, QueryError, answer_or_error};
use manifest_answers::given_targets::GivenTargets;
use std::alloc::{AllocError, Global};
use std::rt::{Env, Files};
use std::{env, fs, io};

/// Returns the error for a file that can't be written.
fn file_error(alloc: Global, file: &str, error: &io::Error) -> Result<Answer, AllocError> {
    let file = printable_text(alloc, file)?;
    let text = format!(in alloc; "{file}: error: {error}\n")?;
    Ok(Answer::unusable(alloc, text))
}

/// A file that an option names: its name and its text.
type OptionFile<'a> = Option<(&'a str, String)>;

/// The files that options name, beside the document.
#[derive(Drop)]
struct OptionFiles<'a> {
    /// An older output of `cargo metadata`.
    against: OptionFile<'a>,
    /// A list of allowed licences.
    allow_file: OptionFile<'a>,
    policy: OptionFile<'a>,
}

/// Returns the name and the text of a file.
fn name_and_text<'f>(file: &'f OptionFile<'f>) -> Option<(&'f str, &'f str)> {
    match file {
        Some((name, text)) => Some((name, text.as_str())),
        None => None,
    }
}

/// Runs `graph`.
pub fn graph_answer<R: Files + Input + Env + AllocGlobal>(
    rt: &R,
    matches: &ArgMatches<'_>,
) -> Result<Answer, AllocError> {
    match files_of(rt, matches) {
        Ok(files) => answer_of(rt, matches, &files),
        Err(refusal) => Ok(answer_or_error(rt.alloc(), Err(refusal))?),
    }
}

/// Reads the files that options name.
fn files_of<'a, R: Files + AllocGlobal>(
    rt: &R,
    matches: &ArgMatches<'a>,
) -> Result<OptionFiles<'a>, QueryError> {
    Ok(OptionFiles {
        against: file_of(rt, matches, "against")?,
        allow_file: file_of(rt, matches, "allow-file")?,
        policy: file_of(rt, matches, "policy")?,
    })
}

/// Reads the file that an option names, if the option is given.
fn file_of<'a, R: Files + AllocGlobal>(
    rt: &R,
    matches: &ArgMatches<'a>,
    option: &str,
) -> Result<OptionFile<'a>, QueryError> {
    match matches.get_str(option) {
        Some(name) => Ok(Some((name, read_file_text(rt, name, limit_of(matches))?))),
        None => Ok(None),
    }
}

/// Runs `graph` with the files that options name.
fn answer_of<R: Files + Input + Env + AllocGlobal>(
    rt: &R,
    matches: &ArgMatches<'_>,
    files: &OptionFiles<'_>,
) -> Result<Answer, AllocError> {
    match given_targets(rt, matches) {
        Ok(None) => answer_locked(rt, matches, files, None),
        Ok(Some(given)) => answer_locked(rt, matches, files, Some(&given)),
        Err(refusal) => Ok(answer_or_error(rt.alloc(), Err(refusal))?),
    }
}

/// Runs `graph` with the files that options name and the given targets, and reads the lock file.
fn answer_locked<R: Files + Input + Env + AllocGlobal>(
    rt: &R,
    matches: &ArgMatches<'_>,
    files: &OptionFiles<'_>,
    given: Option<&GivenTargets>,
) -> Result<Answer, AllocError> {
    match lock_of(rt, matches) {
        Ok(None) => answer_with(rt, matches, files, given, None),
        Ok(Some(lock)) => answer_with(rt, matches, files, given, Some(&lock)),
        Err(refusal) => Ok(answer_or_error(rt.alloc(), Err(refusal))?),
    }
}

/// Returns the time of the page or of the bill of materials in seconds since 1970, which `SOURCE_DATE_EPOCH` sets, if
/// one is requested.
fn seconds_of<R: Env + AllocGlobal>(
    rt: &R,
    matches: &ArgMatches<'_>,
) -> Result<Option<u64>, QueryError> {
    if matches.get_str("html").is_none() && matches.get_str("format").is_none() {
        return Ok(None);
    }
    let seconds = match env::var(rt, "SOURCE_DATE_EPOCH") {
        Ok(text) => text.parse::<u64>().ok(),
        Err(env::VarError::NotPresent) => return Ok(None),
        Err(_) => None,
    };
    match seconds {
        Some(seconds) => Ok(Some(seconds)),
        None => {
            let text = "error: SOURCE_DATE_EPOCH is not a number of seconds\n";
            Err(QueryError::Unusable(String::from_str(rt.alloc(), text)?))
        }
    }
}

/// Runs `graph` with the files that options name, and with the given targets.
fn answer_with<R: Files + Input + Env + AllocGlobal>(
    rt: &R,
    matches: &ArgMatches<'_>,
    files: &OptionFiles<'_>,
    given: Option<&GivenTargets>,
    lock: Option<&NamedLock>,
) -> Result<Answer, AllocError> {
    let file = matches.get_str("metadata").unwrap_or(STDIN_PATH);
    let alloc = rt.alloc();
    let command = match matches.get_str("html") {
        Some(_) => command_given(rt)?,
        None => String::new(alloc),
    };
    let seconds = match seconds_of(rt, matches) {
        Ok(seconds) => seconds,
        Err(refusal) => return Ok(answer_or_error(alloc, Err(refusal))?),
    };
    let facts_of = match given {
        Some(given) => Some((given.file.as_str(), given.table(alloc)?)),
        None => None,
    };
    let html = match matches.get_str("html") {
        Some(_) => Some(Provenance {
            command: command.as_str(),
            seconds,
        }),
        None => None,
    };
    let arguments = GraphArguments {
        targets: matches.get_strs("target").unwrap_or(&[]),
        edges: matches.get_str("edges"),
        side: matches.get_str("side"),
        host: matches.get_str("host"),
        facts_of,
        packages: matches.get_strs("package").unwrap_or(&[]),
        show: matches.get_str("show"),
        of: matches.get_str("of"),
        allow: matches.get_str("allow"),
        allow_file: name_and_text(&files.allow_file),
        except_private: matches.get_flag("except-private"),
        policy: name_and_text(&files.policy),
        against: name_and_text(&files.against),
        fail_on: matches.get_str("fail-on"),
        markdown: matches.get_flag("markdown"),
        except: matches.get_strs("except").unwrap_or(&[]),
        requested: FeatureArguments {
            resolver: matches.get_str("resolver"),
            features: matches.get_strs("features").unwrap_or(&[]),
            no_default: matches.get_flag("no-default-features"),
            all_features: matches.get_flag("all-features"),
        },
        json: matches.get_flag("json"),
        html,
    };
    match read_input_text(rt, file, limit_of(matches)) {
        Ok(text) => {
            let bill = bill_of(matches, seconds, lock);
            let report = report_on(alloc, file, text.as_str(), &arguments, bill)?;
            written(rt, report, matches.get_str("html"))
        }
        Err(refusal) => Ok(answer_or_error(alloc, Err(refusal))?),
    }
}

/// Writes the page of a report, if it has one, and returns the output.
fn written<R: Files + AllocGlobal>(
    rt: &R,
    report: Report,
    file: Option<&str>,
) -> Result<Answer, AllocError> {
    let Report { answer, page } = report;
    if let (Some(page), Some(file)) = (&page, file) {
        if let Err(error) = fs::write(rt, file, page.as_str()) {
            return file_error(rt.alloc(), file, &error);
        }
    }
    Ok(answer)
}
