//! The errors that `lint` reports for files that can't be used. They have no lint, and the exit status is 2.

use super::{LintRun, Source};
use diagnostics::{
    Diagnostic, DiagnosticLevel, EmittedDiagnostic, diagnostic_of_failure, diagnostic_of_key,
    diagnostic_of_syntax,
};
use key_answers::answer::Status;
use manifest_answers::cargo_refuses::Rejected;
use manifest_answers::deep::{DeepKey, first_too_deep_key};
use manifest_answers::normalizing::{NormalizedManifest, manifest_at, read_normalized};
use manifests::reading::{Manifest, ReadError};
use std::alloc::{AllocError, Global};
use std::rt::{Env, Files};

impl<'a> LintRun<'a> {
    /// Prints an error because of which the exit status is 2, beside a diff on standard error. The path and the text of
    /// the source are empty if no file is at fault.
    fn report_failure(
        &mut self,
        alloc: Global,
        source: &Source<'_>,
        diagnostic: &Diagnostic,
    ) -> Result<(), AllocError> {
        let reported = EmittedDiagnostic {
            diagnostic,
            level: DiagnosticLevel::Error,
            path: source.path,
            text: source.text,
        };
        if self.options.prints() {
            self.printed
                .push(&mut self.answer.output, alloc, &reported)?;
        } else {
            self.printed
                .push(&mut self.answer.errors, alloc, &reported)?;
        }
        self.counts.add(DiagnosticLevel::Error);
        self.answer.raise(Status::Unusable);
        Ok(())
    }
}

/// Reports that a key of a manifest is nested too deep.
fn report_deep(
    alloc: Global,
    manifest: &Manifest,
    deep: DeepKey,
    run: &mut LintRun<'_>,
) -> Result<(), AllocError> {
    let locations = &manifest.document.locations;
    let key = deep.key.as_str();
    let message = deep.message.clone()?;
    let diagnostic = diagnostic_of_key(alloc, locations, key, deep.byte, message)?;
    let source = Source {
        path: manifest.path.as_str(),
        text: locations.text.as_str(),
    };
    run.report_failure(alloc, &source, &diagnostic)
}

/// Returns a manifest, unless a key is nested too deep, which is reported.
fn usable(
    alloc: Global,
    manifest: Manifest,
    run: &mut LintRun<'_>,
) -> Result<Option<Manifest>, AllocError> {
    match first_too_deep_key(alloc, &manifest)? {
        Some(deep) => {
            report_deep(alloc, &manifest, deep, run)?;
            Ok(None)
        }
        None => Ok(Some(manifest)),
    }
}

/// Reports something that can't be used, with no place in a text.
pub fn report_without_place(
    alloc: Global,
    file: &Option<String>,
    message: String,
    run: &mut LintRun<'_>,
) -> Result<(), AllocError> {
    let path = match file {
        Some(file) => file.as_str(),
        None => "",
    };
    let diagnostic = diagnostic_of_failure(alloc, message, None)?;
    run.report_failure(alloc, &Source { path, text: "" }, &diagnostic)
}

/// Reports that a manifest can't be read, or is not TOML.
fn report_unusable(
    alloc: Global,
    error: ReadError,
    run: &mut LintRun<'_>,
) -> Result<(), AllocError> {
    match error {
        ReadError::Input(unusable) => {
            let reason = unusable.reason.as_str();
            let message = format!(in alloc; "cannot read the file: {reason}")?;
            report_without_place(alloc, &unusable.file, message, run)
        }
        ReadError::Syntax(error) => {
            let diagnostic = diagnostic_of_syntax(alloc, &error)?;
            let source = Source {
                path: error.path.as_str(),
                text: error.text.as_str(),
            };
            run.report_failure(alloc, &source, &diagnostic)
        }
        ReadError::Memory(refused) => Err(refused),
    }
}

/// Returns the configuration at a path. If it can't be used, this is reported and `None` returned.
pub fn load_configuration<R: Files + Input + AllocGlobal>(
    rt: &R,
    path: &str,
    run: &mut LintRun<'_>,
) -> Result<Option<Manifest>, AllocError> {
    let alloc = rt.alloc();
    match manifest_at(rt, &mut run.documents, path, true) {
        Ok(manifest) => usable(alloc, manifest, run),
        Err(error) => {
            report_unusable(alloc, error, run)?;
            Ok(None)
        }
    }
}

/// Reports what Cargo rejects in a manifest, unless a lint reports it.
fn report_rejected(
    alloc: Global,
    manifest: &Manifest,
    rejected: &Option<Rejected>,
    run: &mut LintRun<'_>,
) -> Result<(), AllocError> {
    let Some(rejected) = rejected else {
        return Ok(());
    };
    if rejected.is_lint {
        return Ok(());
    }
    let message = rejected.reason.clone()?;
    let diagnostic = diagnostic_of_failure(alloc, message, rejected.at)?;
    let source = Source {
        path: manifest.path.as_str(),
        text: manifest.document.locations.text.as_str(),
    };
    run.report_failure(alloc, &source, &diagnostic)
}

/// Returns the manifest at a path, with what it inherits from the root of its workspace in its place. What Cargo
/// rejects in it is reported, and so is a manifest that can't be used, for which `None` is returned.
pub fn load_manifest<R: Files + Input + Env + AllocGlobal>(
    rt: &R,
    path: &str,
    run: &mut LintRun<'_>,
) -> Result<Option<Manifest>, AllocError> {
    let alloc = rt.alloc();
    match read_normalized(rt, &mut run.documents, path, true) {
        Ok(NormalizedManifest { manifest, rejected }) => {
            report_rejected(alloc, &manifest, &rejected, run)?;
            usable(alloc, manifest, run)
        }
        Err(error) => {
            report_unusable(alloc, error, run)?;
            Ok(None)
        }
    }
}
