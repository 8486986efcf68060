//! The program's command: its subcommands, with their arguments and their help.

use clap::{Arg, ArgAction, Command, value_parser};
use std::alloc::{AllocError, Global};

/// The default of `--budget`: the steps that each line of `compare` may take. All lines together take less than two
/// seconds.
const BUDGET: &str = "75000000";

/// The default of `--limit`: 64 MiB.
const LIMIT_BYTES: &str = "67108864";

/// The first argument that Cargo passes for `cargo manifest-check ..`.
const CARGO_NAME: &str = "manifest-check";

/// The kind of an argument, with the name of its value for the help.
#[derive(Clone, Copy)]
enum Given {
    /// A flag.
    Flag,
    /// A flag with a short form.
    ShortFlag(char),
    /// A flag that needs the first option, and conflicts with the others.
    FlagOf(&'static str, &'static [&'static str]),
    /// An option with any value.
    Value(&'static str),
    /// An option with any value, which conflicts with the option of the second name.
    ValueWithout(&'static str, &'static str),
    /// An option with any value, which needs the option of the second name.
    ValueWith(&'static str, &'static str),
    /// An option with one of these values.
    OneOf(&'static str, &'static [&'static str]),
    /// An option with a number, and its default.
    Number(&'static str, &'static str),
    /// An option with a number that is not 0, and its default.
    Positive(&'static str, &'static str),
    /// An option that can be repeated.
    Values(&'static str),
    /// An option that can be repeated, which conflicts with the option of the second name.
    ValuesWithout(&'static str, &'static str),
    /// An option that can be repeated, with values that may be joined by commas.
    Lists(&'static str),
    /// An option that can be repeated, with a short form.
    ShortValues(char, &'static str),
    /// A required positional argument.
    Place(&'static str),
    /// Any number of positional arguments.
    Places(&'static str),
    /// A required option that can be repeated.
    Needed(&'static str),
}

/// An argument of a subcommand.
struct Argument {
    name: &'static str,
    given: Given,
    help: &'static str,
}

/// A subcommand. Its help begins with `about` and ends with `end`.
struct Subcommand {
    name: &'static str,
    about: &'static str,
    end: &'static str,
    arguments: &'static [Argument],
}

const JSON: Argument = Argument {
    name: "json",
    given: Given::Flag,
    help: "Print JSON",
};

const TARGET: Argument = Argument {
    name: "target",
    given: Given::Needed("NAME"),
    help: "Select this target: a known target, all for all known targets, or with --facts or --target-spec \
           a custom target specification, written without .json",
};

const FACTS: Argument = Argument {
    name: "facts",
    given: Given::Value("FILE"),
    help: "Read the facts of the target from FILE or -, as `rustc --print cfg` prints them",
};

/// The help of `--facts-of`.
const TABLE: &str =
    "Use the targets and facts of another rustc, from FILE or -. To write FILE: for t in $(rustc --print \
     target-list); do echo $t; rustc --print cfg --target $t; echo; done > FILE";

const FACTS_OF: Argument = Argument {
    name: "facts-of",
    given: Given::Value("FILE"),
    help: TABLE,
};

const FACTS_OF_ALONE: Argument = Argument {
    name: "facts-of",
    given: Given::ValueWithout("FILE", "facts"),
    help: TABLE,
};

/// The help of `--target-spec`.
const CUSTOM_TARGET: &str =
    "Add the custom target NAME to the known targets, or to those of --facts-of, with the facts in FILE or -, as \
     `rustc -Z unstable-options --print cfg --target NAME.json` prints them";

const TARGET_SPEC: Argument = Argument {
    name: "target-spec",
    given: Given::Values("NAME=FILE"),
    help: CUSTOM_TARGET,
};

const TARGET_SPEC_ALONE: Argument = Argument {
    name: "target-spec",
    given: Given::ValuesWithout("NAME=FILE", "facts"),
    help: CUSTOM_TARGET,
};

const ADDED_FACTS: Argument = Argument {
    name: "cfg",
    given: Given::Values("FACT"),
    help: "Add a fact to those of the target: unix or key=\"value\"",
};

const MANIFEST_PATH: Argument = Argument {
    name: "manifest-path",
    given: Given::Values("PATH"),
    help: "Use this manifest too, as if it were a MANIFEST",
};

const PACKAGE: Argument = Argument {
    name: "package",
    given: Given::ShortValues('p', "SPEC"),
    help: "Use only these packages of the workspace: NAME, NAME@VERSION, or a glob in place of NAME",
};

const EXCLUDE: Argument = Argument {
    name: "exclude",
    given: Given::Values("SPEC|PATH"),
    help: "Leave out these packages, or the manifests at or below this path; PATH may be a glob, as in .gitignore",
};

const NO_WORKSPACE: Argument = Argument {
    name: "no-workspace",
    given: Given::Flag,
    help: "Use only the manifests that you name, without the members of their workspaces",
};

const STDIN_FILENAME: Argument = Argument {
    name: "stdin-filename",
    given: Given::Value("PATH"),
    help: "Read standard input in place of the manifest at PATH, such as a text that an editor has not saved yet",
};

const WORKSPACE: Argument = Argument {
    name: "workspace",
    given: Given::Flag,
    help: "Use all members of the workspace, even if the manifest is that of a member",
};

const LIMIT: Argument = Argument {
    name: "limit",
    given: Given::Positive("N", LIMIT_BYTES),
    help: "Reject inputs of more than N bytes, by default 64 MiB",
};

const MANIFESTS: Argument = Argument {
    name: "manifest",
    given: Given::Places("MANIFEST"),
    help: "A manifest, a folder that contains Cargo.toml, or - for standard input; by default the Cargo.toml in \
           the current folder or in the nearest folder above",
};

/// The help of a key.
const KEY: &str = "The key of a table under `target`: the name of a target, or cfg(..)";

const LINT: Subcommand = Subcommand {
    name: "lint",
    about: "Check the target conditions of Cargo manifests",
    end: "Example: manifest_check lint Cargo.toml\n\n\
          If the manifest is the root of a workspace, its members are checked too. The metadata of the package and of \
          the workspace can contain a table `manifest-check` with the lists `allow`, `warn` and `deny`. The options \
          override these lists.\n\n\
          Exit status: 0 if there is no error or warning, 1 if there is one, 2 if an argument is invalid or a \
          manifest cannot be read. A manifest that cannot be read is reported in every format. A key with more than \
          100,000 nested groups is invalid.",
    arguments: &[
        JSON,
        Argument {
            name: "message-format",
            given: Given::OneOf("FORMAT", &["human", "short", "json", "github", "sarif"]),
            help: "Print diagnostics in this format, by default human",
        },
        Argument {
            name: "color",
            given: Given::OneOf("WHEN", &["auto", "always", "never"]),
            help: "Print levels in colour; auto, the default, prints colours only on a terminal",
        },
        Argument {
            name: "allow",
            given: Given::Lists("LINTS"),
            help: "Do not report these lints, joined by commas; warnings and notes stand for all lints of this level; \
                   the last option that matches a lint applies",
        },
        Argument {
            name: "warn",
            given: Given::Lists("LINTS"),
            help: "Report these lints as warnings",
        },
        Argument {
            name: "deny",
            given: Given::Lists("LINTS"),
            help: "Report these lints as errors",
        },
        Argument {
            name: "fail-on",
            given: Given::OneOf("LEVEL", &["error", "warning", "note"]),
            help: "Exit with status 1 if there is a diagnostic of this level or a more severe one; by default warning",
        },
        Argument {
            name: "exit-zero",
            given: Given::Flag,
            help: "Exit with status 0 whatever is reported; for invalid arguments and manifests, the status is still \
                   2",
        },
        Argument {
            name: "fix",
            given: Given::Flag,
            help: "Apply the suggestions that keep the meaning of a manifest, and report what remains",
        },
        Argument {
            name: "unsafe-fixes",
            given: Given::FlagOf("fix", &[]),
            help: "With --fix, also apply suggestions that may change the meaning",
        },
        Argument {
            name: "dry-run",
            given: Given::FlagOf("fix", &["json", "message-format"]),
            help: "With --fix, print a unified diff and write nothing",
        },
        Argument {
            name: "list-codes",
            given: Given::Flag,
            help: "List the names of all lints",
        },
        Argument {
            name: "explain",
            given: Given::Value("LINT"),
            help: "Explain this lint, with an example",
        },
        Argument {
            name: "quiet",
            given: Given::ShortFlag('q'),
            help: "Do not print the summary line",
        },
        Argument {
            name: "verbose",
            given: Given::ShortFlag('v'),
            help: "Name each manifest that has no key under `target`",
        },
        FACTS_OF,
        TARGET_SPEC,
        MANIFEST_PATH,
        PACKAGE,
        EXCLUDE,
        WORKSPACE,
        NO_WORKSPACE,
        STDIN_FILENAME,
        LIMIT,
        MANIFESTS,
    ],
};

const SELECT: Subcommand = Subcommand {
    name: "select",
    about: "List the dependencies of manifests, and whether a target selects them",
    end: "Example: manifest_check select --target x86_64-pc-windows-msvc Cargo.toml\n\n\
          If the manifest is the root of a workspace, the manifests of its members are read too. Features are not \
          resolved: an optional dependency is reported as optional. A key with more than 100,000 nested groups is \
          invalid.",
    arguments: &[
        TARGET,
        Argument {
            name: "host",
            given: Given::Value("NAME"),
            help: "Evaluate the keys of build-dependencies on this target; without it, build-dependencies under a key \
                   are open",
        },
        FACTS,
        FACTS_OF_ALONE,
        TARGET_SPEC_ALONE,
        ADDED_FACTS,
        Argument {
            name: "open",
            given: Given::Values("NAME"),
            help: "Treat each fact with this name or key as open: it may be set or not",
        },
        Argument {
            name: "no-config",
            given: Given::Flag,
            help: "Ignore flags in the environment, such as RUSTFLAGS, and in Cargo's configuration",
        },
        JSON,
        MANIFEST_PATH,
        PACKAGE,
        EXCLUDE,
        WORKSPACE,
        NO_WORKSPACE,
        STDIN_FILENAME,
        LIMIT,
        MANIFESTS,
    ],
};

const MATCH: Subcommand = Subcommand {
    name: "match",
    about: "Check whether a key is true on a target",
    end: "Example: manifest_check match 'cfg(unix)' --target x86_64-unknown-linux-gnu\n\n\
          Exit status: 0 if the key is true on the target, 1 if it is not, 2 if an argument is invalid. A key with \
          more than 100,000 nested groups is invalid.",
    arguments: &[
        Argument {
            name: "key",
            given: Given::Place("KEY"),
            help: KEY,
        },
        TARGET,
        FACTS,
        FACTS_OF_ALONE,
        TARGET_SPEC_ALONE,
        ADDED_FACTS,
        LIMIT,
    ],
};

const TARGETS: Subcommand = Subcommand {
    name: "targets",
    about: "List the known targets on which a key is true",
    end: "Example: manifest_check targets 'cfg(all(unix, target_pointer_width = \"16\"))'\n\n\
          A key with more than 100,000 nested groups is invalid.",
    arguments: &[
        JSON,
        FACTS_OF,
        TARGET_SPEC,
        LIMIT,
        Argument {
            name: "key",
            given: Given::Place("KEY"),
            help: KEY,
        },
    ],
};

const FACTS_OF_TARGET: Subcommand = Subcommand {
    name: "facts",
    about: "Print the facts of a known target, as `rustc --print cfg` does",
    end: "Example: manifest_check facts x86_64-unknown-linux-gnu",
    arguments: &[
        FACTS_OF,
        TARGET_SPEC,
        LIMIT,
        Argument {
            name: "name",
            given: Given::Place("NAME"),
            help: "The name of a known target",
        },
    ],
};

const COMPARE: Subcommand = Subcommand {
    name: "compare",
    about: "Compare two keys on the known targets, and on every target that a custom specification can define",
    end: "Example: manifest_check compare 'cfg(target_os = \"linux\")' 'cfg(unix)'\n\n\
          A key with more than 100,000 nested groups is invalid.",
    arguments: &[
        JSON,
        Argument {
            name: "budget",
            given: Given::Number("N", BUDGET),
            help: "Answer undecided for a line that takes more steps than this",
        },
        Argument {
            name: "first",
            given: Given::Place("KEY"),
            help: KEY,
        },
        Argument {
            name: "second",
            given: Given::Place("KEY"),
            help: KEY,
        },
    ],
};

const GRAPH: Subcommand = Subcommand {
    name: "graph",
    about: "List the packages of a build, the targets on which they are in the build, and why",
    end: "Example: cargo metadata --format-version 1 | manifest_check graph --show why --of libc\n\n\
          A file is rejected if it lacks dependencies because it was made with --no-deps, --filter-platform or fewer \
          features than you select. By default, the features that `cargo metadata` enabled are enabled. To resolve \
          features, pass --host, and --resolver or any other option about features.\n\n\
          Exit status: 0 if --allow, --allow-file or --policy report no package and there is no change that --fail-on \
          names, 1 otherwise, 2 if an argument, the policy or the document is invalid. A condition with more than \
          100,000 nested groups is invalid.",
    arguments: &[
        Argument {
            name: "metadata",
            given: Given::Value("FILE"),
            help: "Read the output of `cargo metadata --format-version 1` from FILE; by default from standard input",
        },
        Argument {
            name: "target",
            given: Given::Values("NAME"),
            help: "Select only this target; by default all known targets",
        },
        Argument {
            name: "edges",
            given: Given::Value("KINDS"),
            help: "Follow only these dependency kinds, joined by commas: normal,build,dev",
        },
        Argument {
            name: "host",
            given: Given::Value("NAME"),
            help: "Evaluate the conditions of what build scripts and procedural macros need on this target",
        },
        Argument {
            name: "side",
            given: Given::OneOf("SIDE", &["target", "host"]),
            help: "Select only what is built for this side: the target, on which the shipped program runs, or the \
                   host, on which build scripts run",
        },
        FACTS_OF,
        TARGET_SPEC,
        Argument {
            name: "package",
            given: Given::Values("NAME"),
            help: "Start from the members of this name; by default from all members",
        },
        Argument {
            name: "show",
            given: Given::OneOf(
                "WHAT",
                &[
                    "packages", "edges", "targets", "why", "features", "unified", "all",
                ],
            ),
            help: "Choose what to print; by default packages",
        },
        Argument {
            name: "resolver",
            given: Given::OneOf("WHICH", &["1", "2", "3", "edition"]),
            help: "Resolve features as this resolver of Cargo does; edition means the resolver of the root package's \
                   edition",
        },
        Argument {
            name: "features",
            given: Given::Values("NAMES"),
            help: "Enable these features of the roots, joined by commas",
        },
        Argument {
            name: "no-default-features",
            given: Given::Flag,
            help: "Do not enable the feature `default` of the roots",
        },
        Argument {
            name: "all-features",
            given: Given::Flag,
            help: "Enable all features of the roots",
        },
        Argument {
            name: "of",
            given: Given::Value("NAME"),
            help: "With --show why, explain the packages of this name",
        },
        Argument {
            name: "allow",
            given: Given::Value("LIST"),
            help: "Report packages whose licence this list does not satisfy, for example MIT,ISC",
        },
        Argument {
            name: "allow-file",
            given: Given::Value("FILE"),
            help: "Read allowed licences from this file, one per line",
        },
        Argument {
            name: "except",
            given: Given::Values("PACKAGE"),
            help: "Do not report these packages: NAME, NAME@VERSION or NAME@RANGE; with :LICENCES at the end, allow \
                   these licences for them too",
        },
        Argument {
            name: "except-private",
            given: Given::Flag,
            help: "Do not report packages with `publish = false`",
        },
        Argument {
            name: "policy",
            given: Given::Value("FILE"),
            help: "Audit licences by this policy, a `deny.toml` of cargo-deny",
        },
        Argument {
            name: "against",
            given: Given::Value("FILE"),
            help: "Print what has changed since FILE, an older output of `cargo metadata`",
        },
        Argument {
            name: "fail-on",
            given: Given::Value("CHANGES"),
            help: "With --against, exit with status 1 if there is one of CHANGES, joined by commas: added, removed, \
                   updated, targets, licence, source, features",
        },
        Argument {
            name: "markdown",
            given: Given::Flag,
            help: "With --against, print a Markdown table",
        },
        Argument {
            name: "html",
            given: Given::Value("FILE"),
            help: "Also write an HTML page of the packages to FILE",
        },
        Argument {
            name: "format",
            given: Given::OneOf("FORMAT", &["cyclonedx"]),
            help: "Print a software bill of materials: a CycloneDX document in JSON",
        },
        Argument {
            name: "lock",
            given: Given::ValueWith("FILE", "format"),
            help: "With --format, read the checksums of packages from FILE, a Cargo.lock",
        },
        LIMIT,
        JSON,
    ],
};

/// The subcommands on manifests, keys and graphs, in the order of the help.
const ON_MANIFESTS: &[Subcommand] = &[LINT, SELECT];

const ON_KEYS: &[Subcommand] = &[MATCH, TARGETS, FACTS_OF_TARGET, COMPARE];

const ON_GRAPHS: &[Subcommand] = &[GRAPH];

/// The name of the program in lines of usage, if Cargo has started it.
const CARGO_COMMAND: &str = "cargo manifest-check";

/// Removes the argument that Cargo puts before those of the user, and sets the program's name to what the user typed,
/// for lines of usage. Leaves the arguments of a direct call as they are.
pub fn without_cargo_name(alloc: Global, words: &mut Vec<String>) -> Result<(), AllocError> {
    if words.len() > 1 && words[1].as_str() == CARGO_NAME {
        let _name = words.remove(1);
        words[0] = String::from_str(alloc, CARGO_COMMAND)?;
    }
    Ok(())
}

/// Returns the program's command, with this version.
pub fn command<'a>(alloc: Global, version: &'a str) -> Result<Command<'a>, AllocError> {
    let made = Command::new(alloc, "manifest_check")
        .about("Check and query the target conditions of Cargo manifests")
        .version(version)
        .subcommand_required(true)
        .arg_required_else_help(true);
    let made = on_manifests(alloc, made)?;
    let made = on_keys(alloc, made)?;
    on_graphs(alloc, made)
}

// The prover goes through a table wherever it is named, so that each table is named in a function of its own.

fn on_manifests<'a>(alloc: Global, command: Command<'a>) -> Result<Command<'a>, AllocError> {
    with_subcommands(alloc, command, ON_MANIFESTS)
}

fn on_keys<'a>(alloc: Global, command: Command<'a>) -> Result<Command<'a>, AllocError> {
    with_subcommands(alloc, command, ON_KEYS)
}

fn on_graphs<'a>(alloc: Global, command: Command<'a>) -> Result<Command<'a>, AllocError> {
    with_subcommands(alloc, command, ON_GRAPHS)
}

/// Returns the command with these subcommands.
fn with_subcommands<'a>(
    alloc: Global,
    command: Command<'a>,
    told: &[Subcommand],
) -> Result<Command<'a>, AllocError> {
    let mut made = command;
    for it in told {
        made = made.subcommand(to_subcommand(alloc, it)?)?;
    }
    Ok(made)
}

fn to_subcommand<'a>(alloc: Global, told: &Subcommand) -> Result<Command<'a>, AllocError> {
    let mut made = Command::new(alloc, told.name)
        .about(told.about)
        .after_help(told.end);
    for it in told.arguments {
        made = made.arg(to_argument(alloc, it)?)?;
    }
    Ok(made)
}

fn to_argument<'a>(alloc: Global, told: &Argument) -> Result<Arg<'a>, AllocError> {
    let made = Arg::new(alloc, told.name).help(told.help);
    match told.given {
        Given::ValueWithout(_, other) | Given::ValuesWithout(_, other) => {
            given_to(made, told).conflicts_with(other)
        }
        Given::ValueWith(_, needed) => given_to(made, told).requires_arg(needed),
        Given::FlagOf(needed, others) => given_to(made, told)
            .requires_arg(needed)?
            .conflicts_with_all(others),
        _ => Ok(given_to(made, told)),
    }
}

/// Returns the argument with its kind.
fn given_to<'a>(made: Arg<'a>, told: &Argument) -> Arg<'a> {
    match told.given {
        Given::Flag | Given::FlagOf(_, _) => made.long(told.name).action(ArgAction::SetTrue),
        Given::ShortFlag(letter) => made
            .long(told.name)
            .short(letter)
            .action(ArgAction::SetTrue),
        Given::Value(value) | Given::ValueWithout(value, _) | Given::ValueWith(value, _) => {
            option(made, told.name, value).action(ArgAction::Set)
        }
        Given::Needed(value) => option(made, told.name, value)
            .required(true)
            .action(ArgAction::Append),
        Given::Values(value) | Given::ValuesWithout(value, _) => {
            option(made, told.name, value).action(ArgAction::Append)
        }
        Given::Lists(value) => option(made, told.name, value)
            .action(ArgAction::Append)
            .value_delimiter(','),
        Given::ShortValues(letter, value) => option(made, told.name, value)
            .short(letter)
            .action(ArgAction::Append),
        Given::OneOf(value, words) => option(made, told.name, value)
            .action(ArgAction::Set)
            .value_parser(words),
        Given::Number(value, without) => option(made, told.name, value)
            .action(ArgAction::Set)
            .value_parser(value_parser!(u64))
            .default_value(without),
        Given::Positive(value, without) => option(made, told.name, value)
            .action(ArgAction::Set)
            .value_parser(value_parser!(u64).range(1..))
            .default_value(without),
        Given::Place(value) => made.value_name(value).required(true).action(ArgAction::Set),
        Given::Places(value) => made
            .value_name(value)
            .num_args(1..)
            .action(ArgAction::Append),
    }
}

fn option<'a>(made: Arg<'a>, name: &'static str, value: &'static str) -> Arg<'a> {
    made.long(name).value_name(value)
}
