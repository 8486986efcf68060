//! The lock file of `graph --format cyclonedx`.

use crate::VERSION;
use crate::limits::{limit_of, read_file_text};
use cargo_platform::printable_text;
use clap::ArgMatches;
use cyclonedx::{LockFile, LockFileError, LockFileFault, parse_lock_file};
use diagnostics::{Diagnostic, DiagnosticLevel, EmittedDiagnostic, diagnostic_of_failure};
use graph_answers::cyclonedx_report::BomContext;
use input_limits::strip_byte_order_mark;
use key_answers::answer::QueryError;
use lint_reports::{Format, Printer, Style};
use manifests::key_locations::Location;
use std::alloc::{AllocError, Global};
use std::rt::Files;
use toml_spans::{Position, Span};

/// A lock file with its name.
#[derive(Drop)]
pub struct NamedLock {
    /// The name as it is displayed.
    name: String,
    lock: LockFile,
}

/// Returns the place of an error in a lock file.
fn location_of(text: &str, (start, end): (usize, usize)) -> Location {
    let position = Position::START.after(text.get(..start).unwrap_or(""));
    Location {
        span: Span { start, end },
        line: position.line,
        column: position.column,
    }
}

/// Returns an error of a lock file as it is printed.
fn lines_of<'x>(
    alloc: Global,
    name: &'x str,
    text: &'x str,
    diagnostic: &'x Diagnostic,
) -> Result<String, AllocError> {
    let reported = EmittedDiagnostic {
        diagnostic,
        level: DiagnosticLevel::Error,
        path: name,
        text,
    };
    let style = Style {
        format: Format::Human,
        colours: false,
    };
    let mut output = String::new(alloc);
    Printer::new(alloc, style).push(&mut output, alloc, &reported)?;
    Ok(output)
}

/// Returns an error of a lock file as a diagnostic, as it is printed.
fn rendered(
    alloc: Global,
    name: &str,
    text: &str,
    fault: LockFileFault,
) -> Result<String, AllocError> {
    let LockFileFault { message, span } = fault;
    let at = match span {
        Some(span) => Some(location_of(text, span)),
        None => None,
    };
    let diagnostic = diagnostic_of_failure(alloc, message, at)?;
    lines_of(alloc, &*name, &*text, &diagnostic)
}

/// Reads the lock file that `--lock` names, if it is given. Fails if it cannot be read, or is no lock file.
pub fn lock_of<R: Files + AllocGlobal>(
    rt: &R,
    matches: &ArgMatches<'_>,
) -> Result<Option<NamedLock>, QueryError> {
    let alloc = rt.alloc();
    let Some(file) = matches.get_str("lock") else {
        return Ok(None);
    };
    let read = read_file_text(rt, file, limit_of(matches))?;
    let text = strip_byte_order_mark(read.as_str());
    let name = printable_text(alloc, file)?;
    match parse_lock_file(alloc, text) {
        Ok(lock) => Ok(Some(NamedLock { name, lock })),
        Err(LockFileError::Fault(fault)) => {
            let lines = rendered(alloc, name.as_str(), text, fault)?;
            Err(QueryError::Unusable(lines))
        }
        Err(LockFileError::Memory(refused)) => Err(QueryError::Memory(refused)),
    }
}

/// Returns what a bill of materials says besides the packages, if `--format` requests one.
pub fn bill_of<'a>(
    matches: &ArgMatches<'_>,
    seconds: Option<u64>,
    lock: Option<&'a NamedLock>,
) -> Option<BomContext<'a>> {
    matches.get_str("format")?;
    Some(BomContext {
        version: VERSION,
        seconds,
        lock: match lock {
            Some(named) => Some((named.name.as_str(), &named.lock)),
            None => None,
        },
    })
}
