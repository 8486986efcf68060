//! A caller of `manifest_lints`, as its users write it.

use manifest_lints::{Document, KnownFacts, Report, lint};
use std::alloc::{AllocError, Global};

/// Returns the diagnostics on the keys of a manifest, in the order in which they appear in its text, or the one on a
/// `target` that is not a table.
pub fn report_on(alloc: Global, manifest: &Document) -> Result<Report<'_>, AllocError> {
    let known_facts = KnownFacts::new(alloc)?;
    lint(alloc, manifest, &known_facts)
}
