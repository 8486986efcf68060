//! The diagnostics on the keys of a manifest.

ghost use Rattle.std.specs.Prelude.{◌≡◌, IfOk, None};
ghost use Rattle.manifest_lints_findings.specs.Marks.{mark};
ghost use Rattle.manifest_lints_findings.specs.Pointed.{IsOnTarget};

use crate::codes::{KeyLint, Level};
use crate::notes_and_helps::Children;
use crate::pointing::SecondarySpans;
use crate::readings::ReadKey;
use std::alloc::{AllocError, Global};
use std::ops::Range;

/// A diagnostic on a key.
#[derive(Drop)]
pub struct Finding {
    /// The level.
    pub level: Level,
    /// The lint.
    pub code: KeyLint,
    /// The index of the key among those of the report, or `None` for `target` itself.
    pub key: Option<usize>,
    /// What is wrong, in a phrase. It has one line, and no hidden characters.
    pub message: String,
    /// The notes and helps.
    pub children: Children,
    /// A text that can replace the whole key.
    pub suggestion: Option<String>,
    /// The span of the error in a rejected key, in bytes.
    pub span: Option<Range<usize>>,
    /// The two lines that show the error in a rejected key.
    pub snippet: Option<String>,
    /// What it points to besides the key.
    pub pointed: SecondarySpans,
}

/// The keys of a manifest, the diagnostics on them, and the keys about which an answer is not known.
#[derive(Drop)]
pub struct Report<'a> {
    /// The parsed keys, in the order in which they first appear if the document knows it, and else in the order of
    /// their bytes.
    pub keys: Vec<ReadKey<'a>>,
    /// The diagnostics, by key, and for one key in the order of the lints.
    pub findings: Vec<Finding>,
    /// The indexes of the keys about which an answer is not known: there are too few case splits, too many nested
    /// parentheses, too many open names and keys, or too many keys before it.
    pub undecided: Vec<usize>,
}

/// Returns the diagnostic on a `target` that is not a table. Fails if memory is refused.
pub fn target_is_no_table(alloc: Global) -> Result<Finding, AllocError>
    ensures mark { IfOk result (λ f. mark f ≡ (None, KeyLint.NoTable)) }
    ensures parts { IfOk result IsOnTarget }
{
    Ok(Finding {
        level: KeyLint::NoTable.row().level,
        code: KeyLint::NoTable,
        key: None,
        message: String::from_str(alloc, "`target` is not a table")?,
        children: Children::none(alloc),
        suggestion: None,
        span: None,
        snippet: None,
        pointed: SecondarySpans::nothing(alloc),
    })
}
