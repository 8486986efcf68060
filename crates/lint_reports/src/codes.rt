//! The explanations of the lints, for people.

use cargo_platform::printable_excerpt;
use diagnostics::{DiagnosticLevel, default_level};
use manifest_lints_findings::{KEY_LINTS, KeyLint, LINTS_NOT_ON_KEYS, Lint, near};
use std::alloc::{AllocError, Global};

/// The explanation of a lint.
#[derive(Clone, Copy, Drop)]
pub struct Explained {
    pub lint: Lint,
    /// The level of the lint if no rule applies.
    pub level: DiagnosticLevel,
    /// A summary of one line.
    pub short: &'static str,
    /// A paragraph, and an example.
    pub text: &'static str,
}

/// The explanation of a lint, without its level.
#[derive(Clone, Copy, Drop)]
struct Said {
    /// A summary of one line.
    short: &'static str,
    /// A paragraph, and an example.
    text: &'static str,
}

const REFUSED: Said = Said {
    short: "a key that is neither the name of a target nor a valid `cfg(..)` expression",
    text: "The key is neither the name of a target nor a valid `cfg(..)` expression, so Cargo rejects the whole \
           manifest. In its own configuration, Cargo ignores the key. The carets below the line show the \
           position of the error.\n\n\
           Example: [target.'cfg(all(unix windows))'.dependencies]\nWrite a comma between the two names.",
};

const NO_TABLE: Said = Said {
    short: "a value that is not a table where Cargo expects one",
    text: "`target`, a key below it, or a member of such a key is not a table where Cargo expects one. Cargo rejects \
           the manifest, or ignores the value.\n\n\
           Example: [target]\n         'cfg(unix)' = \"1\"\nWrite `[target.'cfg(unix)'.dependencies]`.",
};

const READ_OTHERWISE: Said = Said {
    short: "a key that current Cargo reads differently from how it is spelled",
    text: "Current Cargo drops the `r#` of `r#true` and `r#false`, and takes `true` and `false` for the key of a \
           pair. By the newer rules, `true` and `false` are literals. The key will then mean something else, or Cargo \
           will reject it.\n\n\
           Example: [target.'cfg(true = \"x\")'.dependencies]\nUse another name.",
};

const UNSUPPORTED: Said = Said {
    short: "a name or pair that never selects a dependency, as Cargo warns",
    text: "Cargo knows the name or pair, but never sets it when it selects dependencies: features, profiles and tests \
           are chosen later. The dependency is never selected, or always selected if the name or pair is in a \
           `not(..)`.\n\n\
           Example: [target.'cfg(feature = \"std\")'.dependencies]\nMake the dependency optional, and enable it by \
           the feature.",
};

const NEVER: Said = Said {
    short: "a condition that no set of facts makes true",
    text: "The condition contradicts itself, so the dependencies are never selected. This is a note if the condition \
           contains no name and no pair, such as `cfg(false)`, since that may be intended.\n\n\
           Example: [target.'cfg(all(unix, not(unix)))'.dependencies]",
};

const UNKNOWN_TARGET: Said = Said {
    short: "the name of a target that rustc does not know",
    text: "The key is the name of a target that rustc does not know. A custom target specification may have this \
           name. If no target has it, Cargo never selects the dependencies, and does not warn.\n\n\
           Example: [target.x86_64-apple-macos.dependencies]\nWrite `x86_64-apple-darwin`.",
};

const UNKNOWN_FACT: Said = Said {
    short: "a name or pair that looks like one of rustc's, and that no known target sets",
    text: "The condition contains a name or pair that looks like one of rustc's, but no known target has it. The name \
           or pair is false on all known targets, and Cargo does not warn.\n\n\
           Example: [target.'cfg(target_os = \"darwin\")'.dependencies]\nWrite `target_os = \"macos\"`.",
};

const NOWHERE: Said = Said {
    short: "a condition that is true on no known target",
    text: "Some set of facts makes the condition true, but no target that rustc knows has these facts. A custom \
           target specification may have them.\n\n\
           Example: [target.'cfg(all(target_os = \"windows\", target_arch = \"s390x\"))'.dependencies]",
};

const SAME: Said = Said {
    short: "a condition that is the same as that of an earlier key",
    text: "Two keys contain the same condition with different spaces, commas or raw marks. The dependencies of both \
           tables are selected together, so one table is enough.\n\n\
           Example: [target.'cfg( unix )'.dependencies]\nafter [target.'cfg(unix)'.dependencies]",
};

const EQUIVALENT: Said = Said {
    short: "a condition that is equivalent to that of an earlier key",
    text: "Two conditions are true for the same sets of facts, although they are spelled differently. One table is \
           enough for the dependencies of both.\n\n\
           Example: [target.'cfg(target_family = \"unix\")'.dependencies]\nafter [target.'cfg(unix)'.dependencies]",
};

const ALWAYS: Said = Said {
    short: "a condition that every set of facts makes true",
    text: "The condition can't be false, so the table means the same as `dependencies` without a condition.\n\n\
           Example: [target.'cfg(any(not(unix), unix))'.dependencies]",
};

const EVERYWHERE: Said = Said {
    short: "a condition that is true on every known target",
    text: "The condition is true on each target that rustc knows. A custom target specification may make it \
           false.\n\n\
           Example: [target.'cfg(any(target_endian = \"little\", target_endian = \"big\"))'.dependencies]",
};

const CUSTOM: Said = Said {
    short: "a name or pair that only `--cfg` or an unstable feature sets, and that is not declared",
    text: "The condition contains a name or pair that no known target sets. When Cargo selects dependencies, only \
           `--cfg` in RUSTFLAGS can set it. The output of a build script comes too late. rustc sets some names, such \
           as `overflow_checks`, only with an unstable feature. A name in `lints.rust.unexpected_cfgs.check-cfg` of \
           the manifest is declared, and not reported.\n\n\
           Example: [target.'cfg(loom)'.dependencies]",
};

const NOT_CANONICAL: Said = Said {
    short: "a condition that is not in canonical form; allowed by default",
    text: "The key is not in the canonical form that all commands print. This is reported only with `--warn \
           not-canonical` or a rule in the metadata, and never together with a diagnostic that changes the key.\n\n\
           Example: [target.'cfg( unix )'.dependencies]\nWrite `cfg(unix)`.",
};

const FORMER: Said = Said {
    short: "a name or value that rustc knew only until some release",
    text: "The key is the name of a target, or its condition contains a value, that rustc knew until some \
           release. Cargo selects the dependencies only with older compilers. This is a warning if \
           `rust-version`, or `rustc` in the table `manifest-check` of the metadata, is a release that does not \
           know the name. It is not reported if that `rustc` knows the name.\n\n\
           Example: [target.wasm32-wasi.dependencies]\nrustc knew this target until 1.83.0.",
};

const MISPLACED: Said = Said {
    short: "a table for targets that is defined where Cargo does not read it",
    text: "A key of `target` is defined at the top of the manifest, in `workspace.target` or `package.target`, or in \
           a table whose name is one edit away from `target`, where Cargo ignores it. In a table of dependencies, \
           Cargo takes the key or `target` for the name of a package and rejects the manifest.\n\n\
           Example: [targets.'cfg(unix)'.dependencies]\nWrite `[target.'cfg(unix)'.dependencies]`.",
};

const UNDERSCORED: Said = Said {
    short: "a table named `dev_dependencies` or `build_dependencies`",
    text: "Cargo warns about these names, and rejects them in packages of edition 2024.\n\n\
           Example: [target.'cfg(unix)'.dev_dependencies]\nWrite `dev-dependencies`.",
};

const UNREAD_FIELD: Said = Said {
    short: "a field in Cargo's configuration that Cargo does not read, similar to one that it reads",
    text: "In `.cargo/config.toml`, Cargo reads `linker`, `runner` and `rustflags` below each key of `target`, and \
           `rustdocflags` and tables for `links` only below the name of a target. Cargo warns about any other field, \
           or rejects the file when it builds for that target. A field is reported if its name is one edit away from \
           one that Cargo reads there, or if it is a table of dependencies.\n\n\
           Example: [target.'cfg(unix)']\n         linkr = \"clang\"\nWrite `linker`.",
};

const SETTINGS: Said = Said {
    short: "an invalid setting of `manifest-check` in the metadata",
    text: "The table `manifest-check` in `package.metadata` or `workspace.metadata` contains an unknown setting, an \
           unknown lint, another value in place of a list, an entry of `known-facts` that is not a fact, an entry \
           of `known-targets` that is not the name of a target, or one whose file of facts cannot be used. The \
           rest of the table is used. A table `manifest_check` is not used at all.\n\n\
           Example: [package.metadata.manifest-check]\n         allow = [\"nowere\"]\nWrite `nowhere`.",
};

const UNNEEDED_ALLOW: Said = Said {
    short: "an `allow` in the metadata for a lint that would not be reported",
    text: "A rule in the metadata allows a lint, and nothing would be reported without the rule: the manifest was \
           corrected, or a newer rustc knows the name. Delete the rule, since it would hide the next mistake.\n\n\
           Example: [package.metadata.manifest-check]\n         allow = [\"custom\"]\nThe entry is unneeded if no \
           condition contains a name or value of the project's own.",
};

/// Returns the explanation of a lint on keys.
fn said_of(code: KeyLint) -> Said {
    match code {
        KeyLint::Refused => REFUSED,
        KeyLint::NoTable => NO_TABLE,
        KeyLint::ReadOtherwise => READ_OTHERWISE,
        KeyLint::Unsupported => UNSUPPORTED,
        KeyLint::Never => NEVER,
        KeyLint::UnknownTarget => UNKNOWN_TARGET,
        KeyLint::UnknownFact => UNKNOWN_FACT,
        KeyLint::Nowhere => NOWHERE,
        KeyLint::Same => SAME,
        KeyLint::Equivalent => EQUIVALENT,
        KeyLint::Always => ALWAYS,
        KeyLint::Everywhere => EVERYWHERE,
        KeyLint::Custom => CUSTOM,
        KeyLint::NotCanonical => NOT_CANONICAL,
    }
}

/// Returns the explanation of a lint, without its level.
fn said_beside(lint: Lint) -> Said {
    match lint {
        Lint::Key(code) => said_of(code),
        Lint::Former => FORMER,
        Lint::Misplaced => MISPLACED,
        Lint::Underscored => UNDERSCORED,
        Lint::UnreadField => UNREAD_FIELD,
        Lint::Settings => SETTINGS,
        Lint::UnneededAllow => UNNEEDED_ALLOW,
    }
}

/// Returns the explanation of a lint, with its level.
pub(crate) fn explanation_of(lint: Lint) -> Explained {
    let Said { short, text } = said_beside(lint);
    Explained {
        lint,
        level: default_level(lint, lint.level()),
        short,
        text,
    }
}

/// Returns the explanations of all lints: first those on keys, in the order in which they are reported for a key, and
/// then the others. Fails if memory is refused.
pub fn all_explained(alloc: Global) -> Result<Vec<Explained>, AllocError> {
    let mut all = Vec::new(alloc);
    for code in &KEY_LINTS {
        all.push(explanation_of(Lint::Key(*code)))?;
    }
    for lint in &LINTS_NOT_ON_KEYS {
        all.push(explanation_of(*lint))?;
    }
    Ok(all)
}

/// Returns the names of all lints. Fails if memory is refused.
fn words(alloc: Global) -> Result<Vec<&'static str>, AllocError> {
    let mut words = Vec::new(alloc);
    for explained in &all_explained(alloc)? {
        words.push(explained.lint.word())?;
    }
    Ok(words)
}

/// The message about a name that is no lint's, and the help.
#[derive(Drop)]
pub struct UnknownLint {
    pub message: String,
    pub help: String,
}

impl UnknownLint {
    /// Returns that no lint has a name. `meant` is the name that may be meant, if there is one.
    fn of(alloc: Global, name: &str, meant: Option<&str>) -> Result<UnknownLint, AllocError> {
        let shown = printable_excerpt(alloc, name)?;
        Ok(UnknownLint {
            message: format!(in alloc; "unknown lint: `{shown}`")?,
            help: match meant {
                Some(meant) => format!(in alloc; "did you mean `{meant}`?")?,
                None => String::from_str(alloc, "`lint --list-codes` lists all lints")?,
            },
        })
    }

    /// Returns the message and the help as one line. Fails if memory is refused.
    pub fn line(&self, alloc: Global) -> Result<String, AllocError> {
        let message = self.message.as_str();
        let help = self.help.as_str();
        format!(in alloc; "{message}; {help}")
    }
}

/// Returns what is wrong with a subject of a rule that is neither the name of a lint, nor `warnings` or `notes`, and
/// which of these is one edit away. Fails if memory is refused.
pub fn unknown_subject(alloc: Global, name: &str) -> Result<UnknownLint, AllocError> {
    match near(name, &["warnings", "notes"]) {
        Some(subject) => UnknownLint::of(alloc, name, Some(subject)),
        None => unknown_lint(alloc, name),
    }
}

/// Returns what is wrong with a name that no lint has, and which lint's name is one edit away. Fails if memory is
/// refused.
pub fn unknown_lint(alloc: Global, name: &str) -> Result<UnknownLint, AllocError> {
    UnknownLint::of(alloc, name, near(name, &words(alloc)?))
}
