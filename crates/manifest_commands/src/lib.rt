//! The commands of the program `manifest_check`, for any runtime: the one of a process, or one that has its files in
//! memory.
#![tactic(auto)]

mod commands;
mod declaring;
mod explaining;
mod graphs;
mod levels;
mod limits;
mod linting;
mod locks;
mod manifest_paths;
mod other_rustc;
mod project_targets;
mod reports;
mod roots;
mod styles;
mod target_names;
mod target_specs;
mod words;

use clap::Error;
use clap::error::ErrorKind;
use command_line::arguments::{command, without_cargo_name};
use commands::answer_to;
use key_answers::answer::{Answer, Status};
use known_targets::RUSTC_VERSION;
use std::alloc::{AllocError, Global};
use std::rt::{Env, Files};
use styles::OutputContext;
use words::words_given;

/// The version of the program.
pub const VERSION: &str = "0.1.0";

/// Returns the version, with the build and the version of the table of known targets.
fn version(alloc: Global, build: &str) -> Result<String, AllocError> {
    format!(in alloc; "{VERSION} ({build}targets and facts of rustc {RUSTC_VERSION})")
}

/// Returns the answer to arguments that are not a command: an error, or the help or the version that they request.
fn not_a_command(alloc: Global, error: &Error) -> Result<Answer, AllocError> {
    if error.kind() == ErrorKind::OutOfMemory {
        return Err(AllocError);
    }
    let text = format!(in alloc; "{error}")?;
    if error.use_stderr() {
        return Ok(Answer::unusable(alloc, text));
    }
    Ok(Answer::of(alloc, text, Status::Fine))
}

/// Runs the command that the arguments of the runtime name, and returns its output, its errors and its exit status.
///
/// `build` is put before the other texts in the parentheses after the version. With `on_terminal`, output is coloured
/// unless an argument or a variable of the environment says otherwise. Invalid arguments, files and keys are reported
/// in the answer; the call fails only if memory is refused.
pub fn run<R: Input + Env + Files + AllocGlobal + Clone + Drop>(
    rt: &R,
    build: &str,
    on_terminal: bool,
) -> Result<Answer, AllocError> {
    let alloc = rt.alloc();
    let mut words = words_given(rt)?;
    without_cargo_name(alloc, &mut words)?;
    let version = version(alloc, build)?;
    let command = command(alloc, version.as_str())?;
    let matches = match command.try_get_matches_from(words.as_slice()) {
        Ok(matches) => matches,
        Err(error) => return not_a_command(alloc, &error),
    };
    let shown = OutputContext {
        on_terminal,
        version: version.as_str(),
    };
    answer_to(rt, &matches, &shown)
}
