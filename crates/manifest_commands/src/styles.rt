//! The format and the colours of diagnostics, by the command line and the environment.

use clap::ArgMatches;
use lint_reports::{Format, Style};
use std::env;
use std::rt::Env;

/// The kind of standard output, and the version of the program.
#[derive(Clone, Copy, Drop)]
pub struct OutputContext<'a> {
    /// True if standard output is a terminal.
    pub on_terminal: bool,
    pub version: &'a str,
}

/// Returns whether an environment variable has a value that is not empty.
fn is_set<R: Env + AllocGlobal>(rt: &R, name: &str) -> bool {
    match env::var(rt, name) {
        Ok(value) => !value.is_empty(),
        Err(env::VarError::NotPresent) => false,
        Err(_) => true,
    }
}

/// Returns whether an environment variable has this value.
fn has_value<R: Env + AllocGlobal>(rt: &R, name: &str, wanted: &str) -> bool {
    match env::var(rt, name) {
        Ok(value) => value.as_str() == wanted,
        Err(_) => false,
    }
}

/// Returns whether output is coloured: by `--color`, else by `NO_COLOR` and `CARGO_TERM_COLOR`, and else if standard
/// output is a terminal, unless `TERM` is `dumb`.
fn has_colours<R: Env + AllocGlobal>(rt: &R, matches: &ArgMatches<'_>, on_terminal: bool) -> bool {
    match matches.get_str("color") {
        Some("always") => return true,
        Some("never") => return false,
        _ => {}
    }
    if is_set(rt, "NO_COLOR") || has_value(rt, "CARGO_TERM_COLOR", "never") {
        return false;
    }
    if has_value(rt, "CARGO_TERM_COLOR", "always") {
        return true;
    }
    on_terminal && !has_value(rt, "TERM", "dumb")
}

/// Returns the format and the colours of diagnostics.
pub fn style_of<R: Env + AllocGlobal>(
    rt: &R,
    matches: &ArgMatches<'_>,
    on_terminal: bool,
) -> Style {
    let format = match matches.get_str("message-format") {
        Some(name) => Format::by_name(name),
        None => None,
    };
    let without = if matches.get_flag("json") {
        Format::Json
    } else {
        Format::Human
    };
    Style {
        format: format.unwrap_or(without),
        colours: has_colours(rt, matches, on_terminal),
    }
}
