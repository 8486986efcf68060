//! All lints: those on keys, and those on other parts of a manifest or configuration.

ghost use Rattle.std.specs.Prelude.{◌≡◌, IfSome};
ghost use Rattle.manifest_lints_findings.specs.Codes.{lint_word};

use crate::codes::{KEY_LINTS, KeyLint, Level};

/// A lint, on a key or on another part of a manifest.
#[derive(Clone, Copy, Debug, PartialEq, Eq, PartialOrd, Ord, Drop)]
pub enum Lint {
    /// A lint on a key of `target`, or on `target` itself.
    Key(KeyLint),
    /// A name or value that rustc knew only until some release.
    Former,
    /// A table for targets that is defined where Cargo does not read it.
    Misplaced,
    /// A table with an underscore in its name.
    Underscored,
    /// A field that Cargo does not read under a key of its own configuration.
    UnreadField,
    /// An invalid entry in a table of rules.
    Settings,
    /// A rule that allows nothing that is found.
    UnneededAllow,
}

/// The lints that are not on keys.
pub const LINTS_NOT_ON_KEYS: [Lint; 6] = [
    Lint::Former,
    Lint::Misplaced,
    Lint::Underscored,
    Lint::UnreadField,
    Lint::Settings,
    Lint::UnneededAllow,
];

impl Lint {
    /// Returns the lint of this name, if there is one.
    pub fn by_name(name: &str) -> Option<Lint>
        ensures { IfSome result (λ lint. lint_word lint ≡ name.now) }
    {
        for code in &KEY_LINTS {
            let lint = Lint::Key(*code);
            if lint.word() == name {
                return Some(lint);
            }
        }
        for lint in &LINTS_NOT_ON_KEYS {
            if lint.word() == name {
                return Some(*lint);
            }
        }
        None
    }

    /// Returns the name of the lint.
    pub fn word(self) -> &'static str
        ensures { result.now ≡ lint_word self }
    {
        match self {
            Lint::Key(code) => code.word(),
            Lint::Former => "former",
            Lint::Misplaced => "misplaced",
            Lint::Underscored => "underscored",
            Lint::UnreadField => "unread-field",
            Lint::Settings => "settings",
            Lint::UnneededAllow => "unneeded-allow",
        }
    }

    /// Returns the level of the lint if no rule applies.
    pub fn level(self) -> Level {
        match self {
            Lint::Key(code) => code.row().level,
            Lint::Former | Lint::UnneededAllow => Level::Note,
            Lint::Misplaced | Lint::Underscored | Lint::UnreadField | Lint::Settings => {
                Level::Warning
            }
        }
    }
}
