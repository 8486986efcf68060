//! The lints, in one table.

ghost use Rattle.manifest_lints_findings.specs.Codes.{hiders, code_word, code_level, level_word};
ghost use Rattle.std.specs.Prelude.{◌≡◌};

/// How severe a finding is. The rules of a manifest or a command line may give its diagnostic another level, a
/// `DiagnosticLevel`.
#[derive(Clone, Copy, Debug, PartialEq, Eq, Drop)]
pub enum Level {
    /// Cargo rejects the manifest, or leaves something out.
    Error,
    /// Something does not select what its author may expect.
    Warning,
    /// Something that may be intended.
    Note,
}

/// A lint on a key of `target`.
#[derive(Clone, Copy, Debug, PartialEq, Eq, PartialOrd, Ord, Drop)]
pub enum KeyLint {
    /// The key is not a condition.
    Refused,
    /// A value is not a table.
    NoTable,
    /// Current Cargo reads the key otherwise.
    ReadOtherwise,
    /// Cargo warns of names and pairs that are not supported.
    Unsupported,
    /// The condition is true over no set of facts.
    Never,
    /// No known target has the name.
    UnknownTarget,
    /// The condition contains something that people take for a fact of rustc's.
    UnknownFact,
    /// The condition is true on no known target.
    Nowhere,
    /// The condition is the same as that of an earlier key.
    Same,
    /// The condition is equivalent to that of an earlier key.
    Equivalent,
    /// The condition is true over every set of facts.
    Always,
    /// The condition is true on every known target.
    Everywhere,
    /// The condition contains something that only flags or unstable features of rustc set.
    Custom,
    /// The canonical form is another text.
    NotCanonical,
}

/// The lints in the order in which they are reported for one key.
pub const KEY_LINTS: [KeyLint; 14] = [
    KeyLint::Refused,
    KeyLint::NoTable,
    KeyLint::ReadOtherwise,
    KeyLint::Unsupported,
    KeyLint::Never,
    KeyLint::UnknownTarget,
    KeyLint::UnknownFact,
    KeyLint::Nowhere,
    KeyLint::Same,
    KeyLint::Equivalent,
    KeyLint::Always,
    KeyLint::Everywhere,
    KeyLint::Custom,
    KeyLint::NotCanonical,
];

impl Level {
    /// Returns the name of the level.
    pub fn word(self) -> &'static str
        ensures { result.now ≡ level_word self }
    {
        match self {
            Level::Error => "error",
            Level::Warning => "warning",
            Level::Note => "note",
        }
    }
}

/// The row of a lint in the table.
#[derive(Clone, Copy, Drop)]
pub struct Row {
    /// The name of the lint.
    pub word: &'static str,
    /// The level of its diagnostics. `never` is a note on a key without names and pairs, and `always` is a warning on
    /// one with names and pairs.
    pub level: Level,
    /// The lints that hide it on the same key, whatever names they report.
    pub hidden_by: &'static [KeyLint],
}

/// The lints that hide `nowhere`.
const NOWHERE_HIDERS: [KeyLint; 3] = [KeyLint::UnknownTarget, KeyLint::UnknownFact, KeyLint::Never];

/// The lints that hide `equivalent`.
const EQUIVALENT_HIDERS: [KeyLint; 3] = [KeyLint::Never, KeyLint::Always, KeyLint::Same];

/// The lints that hide `everywhere`.
const EVERYWHERE_HIDERS: [KeyLint; 1] = [KeyLint::Always];

/// The lints that hide `not-canonical`: those that change the key.
const NOT_CANONICAL_HIDERS: [KeyLint; 3] = [
    KeyLint::ReadOtherwise,
    KeyLint::UnknownTarget,
    KeyLint::UnknownFact,
];

impl Row {
    const fn of(word: &'static str, level: Level, hidden_by: &'static [KeyLint]) -> Row
        ensures word { result.word.now ≡ word.now }
        ensures level { result.level ≡ level }
        ensures hidden_by { result.hidden_by.now ≡ hidden_by.now }
    {
        Row {
            word,
            level,
            hidden_by,
        }
    }
}

impl KeyLint {
    /// Returns the row of the lint.
    pub fn row(self) -> Row
        ensures word { result.word.now ≡ code_word self }
        ensures level { result.level ≡ code_level self }
        ensures hidden_by { result.hidden_by.now ≡ hiders self }
    {
        match self {
            KeyLint::Refused => Row::of("refused", Level::Error, &[]),
            KeyLint::NoTable => Row::of("no-table", Level::Error, &[]),
            KeyLint::ReadOtherwise => Row::of("read-otherwise", Level::Warning, &[]),
            KeyLint::Unsupported => Row::of("unsupported", Level::Warning, &[]),
            KeyLint::Never => Row::of("never", Level::Warning, &[]),
            KeyLint::UnknownTarget => Row::of("unknown-target", Level::Warning, &[]),
            KeyLint::UnknownFact => Row::of("unknown-fact", Level::Warning, &[]),
            KeyLint::Nowhere => Row::of("nowhere", Level::Warning, &NOWHERE_HIDERS),
            KeyLint::Same => Row::of("same", Level::Warning, &[]),
            KeyLint::Equivalent => Row::of("equivalent", Level::Warning, &EQUIVALENT_HIDERS),
            KeyLint::Always => Row::of("always", Level::Note, &[]),
            KeyLint::Everywhere => Row::of("everywhere", Level::Note, &EVERYWHERE_HIDERS),
            KeyLint::Custom => Row::of("custom", Level::Note, &[]),
            KeyLint::NotCanonical => Row::of("not-canonical", Level::Note, &NOT_CANONICAL_HIDERS),
        }
    }

    /// Returns the name of the lint.
    pub fn word(self) -> &'static str
        ensures { result.now ≡ code_word self }
    {
        self.row().word
    }
}
