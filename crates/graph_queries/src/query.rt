//! The arguments of `graph`: as they are given, and as a checked query.

use key_answers::answer::QueryError;
pub use key_answers::answer::argument_error;
use key_answers::printing::format_name;
use key_answers::targets::{AllTargets, TargetList, names_of};
use known_targets::{COUNT, KnownTarget, RUSTC_VERSION, TargetSet};
use package_graphs::{Kinds, Side};
use selected_targets::{Groups, Selection};
use std::alloc::{AllocError, Global};
use target_tables::TargetTable;

/// The output that `--show` selects.
#[derive(Clone, Copy, Debug, PartialEq, Eq, Drop)]
pub enum Show {
    Packages,
    Edges,
    Targets,
    Why,
    Features,
    Unified,
    All,
}

/// The arguments of the feature resolution.
#[derive(Clone, Copy, Drop)]
pub struct FeatureArguments<'a> {
    /// The feature resolver: `1`, `2`, `3`, or `edition` for the default of the root package's edition.
    pub resolver: Option<&'a str>,
    /// The features that are requested of the roots, separated by commas or spaces.
    pub features: &'a [&'a str],
    /// True if the `default` feature of the roots is not requested.
    pub no_default: bool,
    /// True if all features of the roots are requested.
    pub all_features: bool,
}

/// The arguments of the command line, as they are given.
#[derive(Clone, Copy, Drop)]
pub struct GraphArguments<'a> {
    /// The names of the selected targets. If there are none, all targets are selected.
    pub targets: &'a [&'a str],
    /// The dependency kinds to follow, separated by commas. `None` follows all kinds.
    pub edges: Option<&'a str>,
    /// The side whose packages, edges and features are printed, `target` or `host`. `None` prints both.
    pub side: Option<&'a str>,
    pub host: Option<&'a str>,
    /// The targets of `--facts-of` and `--target-spec`, which replace the known ones, and what messages call them.
    pub facts_of: Option<(&'a str, &'a TargetTable)>,
    /// The names of the workspace members that are roots. If there are none, all members are roots.
    pub packages: &'a [&'a str],
    pub show: Option<&'a str>,
    /// The name of the packages whose dependency paths are printed (`--of`).
    pub of: Option<&'a str>,
    /// The allowed licences, separated by commas.
    pub allow: Option<&'a str>,
    /// A file of allowed licences, one per line: its name and its text.
    pub allow_file: Option<(&'a str, &'a str)>,
    /// The packages that the audit skips, each as `NAME@VERSION`.
    pub except: &'a [&'a str],
    /// True if the audit skips packages that can't be published.
    pub except_private: bool,
    /// A policy, a `deny.toml`: its name and its text.
    pub policy: Option<(&'a str, &'a str)>,
    /// An older output of `cargo metadata`: its name and its text.
    pub against: Option<(&'a str, &'a str)>,
    /// The kinds of changes that make the run fail, separated by commas.
    pub fail_on: Option<&'a str>,
    /// True if changes are printed as a Markdown table.
    pub markdown: bool,
    pub requested: FeatureArguments<'a>,
    pub json: bool,
    /// The command and the date that the HTML page states, if a page is requested too.
    pub html: Option<Provenance<'a>>,
}

/// The command and the date that the HTML page states.
#[derive(Clone, Copy, Drop)]
pub struct Provenance<'a> {
    /// The command, as a shell reads it.
    pub command: &'a str,
    /// The date, in seconds since 1970. Without it the page has none.
    pub seconds: Option<u64>,
}

/// A query of a graph: the arguments after they are checked.
#[derive(Clone, Copy, Drop)]
pub struct GraphQuery<'a> {
    /// The selected targets.
    pub targets: TargetSet,
    /// The number of selected targets.
    pub count: usize,
    /// True if the targets were selected by name.
    pub are_named: bool,
    pub kinds: Kinds,
    /// The side whose packages, edges and features are selected, or `None` for both.
    pub side: Option<Side>,
    pub host: Option<KnownTarget>,
    /// The targets that replace the known ones, if there are any. Each known target then represents a group of them.
    pub groups: Option<&'a Groups<'a>>,
    pub packages: &'a [&'a str],
    pub show: Show,
    pub of: &'a str,
    pub json: bool,
    /// The command and the date that the HTML page states, if a page is requested too.
    pub html: Option<Provenance<'a>>,
    pub markdown: bool,
    pub requested: FeatureArguments<'a>,
}

/// Follows all dependency kinds.
const ALL_KINDS: Kinds = Kinds {
    normal: true,
    build: true,
    dev: true,
};

/// Returns the message for a name that no known target has.
fn no_target(alloc: Global, name: &str) -> Result<String, AllocError> {
    let shown = format_name(alloc, name)?;
    let hint = if name.ends_with(".json") {
        "; `graph` takes the name of a custom target, and --target-spec its facts"
    } else {
        ""
    };
    format!(in alloc; "no target that rustc {RUSTC_VERSION} knows is named {shown}{hint}")
}

/// Returns the known target with this name, or refuses a name that no known target has.
fn target_of(alloc: Global, name: &str) -> Result<KnownTarget, QueryError> {
    match KnownTarget::by_name(name) {
        Some(target) => Ok(target),
        None => {
            let text = no_target(alloc, name)?;
            Err(argument_error(alloc, text.as_str()))
        }
    }
}

/// Returns the known targets with the given names, or all of them if no name or a file is given. Targets of a file are
/// looked up later.
fn targets_of(alloc: Global, arguments: &GraphArguments<'_>) -> Result<TargetSet, QueryError> {
    let names = arguments.targets;
    if names.is_empty() || arguments.facts_of.is_some() {
        return Ok(TargetSet::all());
    }
    let mut targets = TargetSet::none();
    for name in names {
        let target = target_of(alloc, name)?;
        targets = targets.union(TargetSet::only(target));
    }
    Ok(targets)
}

/// Returns the message for a word that names no dependency kind.
fn no_kind(alloc: Global, word: &str) -> Result<String, AllocError> {
    let shown = format_name(alloc, word)?;
    format!(in alloc; "--edges names normal, build and dev, joined by commas, and not {shown}")
}

/// Parses the dependency kinds of `--edges`. Without that option, all kinds are followed.
fn kinds_of(alloc: Global, words: Option<&str>) -> Result<Kinds, QueryError> {
    let Some(words) = words else {
        return Ok(ALL_KINDS);
    };
    let mut kinds = Kinds {
        normal: false,
        build: false,
        dev: false,
    };
    for word in words.split(',') {
        match word {
            "normal" => kinds.normal = true,
            "build" => kinds.build = true,
            "dev" => kinds.dev = true,
            _ => {
                let text = no_kind(alloc, word)?;
                return Err(argument_error(alloc, text.as_str()));
            }
        }
    }
    Ok(kinds)
}

/// Parses the side of `--side`. Without that option, both sides are selected.
fn side_of(alloc: Global, word: Option<&str>) -> Result<Option<Side>, QueryError> {
    match word {
        None => Ok(None),
        Some("target") => Ok(Some(Side::Target)),
        Some("host") => Ok(Some(Side::Host)),
        Some(_) => Err(argument_error(alloc, "--side names target or host")),
    }
}

/// Returns the known target that `--host` names, if any. A host in a file is looked up later.
fn host_of(
    alloc: Global,
    arguments: &GraphArguments<'_>,
) -> Result<Option<KnownTarget>, QueryError> {
    match arguments.host {
        Some(name) if arguments.facts_of.is_none() => Ok(Some(target_of(alloc, name)?)),
        _ => Ok(None),
    }
}

/// Parses the argument of `--show`. Returns `None` if it is not one of the words that are allowed.
fn show_of(word: Option<&str>) -> Option<Show> {
    match word {
        None | Some("packages") => Some(Show::Packages),
        Some("edges") => Some(Show::Edges),
        Some("targets") => Some(Show::Targets),
        Some("why") => Some(Show::Why),
        Some("features") => Some(Show::Features),
        Some("unified") => Some(Show::Unified),
        Some("all") => Some(Show::All),
        Some(_) => None,
    }
}

/// Returns the message for options that do not go together, if there are any: some need `--against`, and others exclude
/// it.
fn misplaced(arguments: &GraphArguments<'_>) -> Option<&'static str> {
    let is_audit = arguments.allow.is_some()
        || arguments.allow_file.is_some()
        || arguments.policy.is_some();
    if arguments.against.is_none() {
        let is_alone = arguments.markdown || arguments.fail_on.is_some();
        return if is_alone {
            Some("--markdown and --fail-on need --against")
        } else {
            None
        };
    }
    if arguments.facts_of.is_some() {
        return Some("--against excludes --facts-of and --target-spec");
    }
    if arguments.markdown && arguments.json {
        return Some("--markdown and --json exclude each other");
    }
    if arguments.show.is_some() || is_audit || arguments.html.is_some() {
        return Some("--against excludes --show, --allow, --allow-file, --policy and --html");
    }
    None
}

impl<'a> GraphQuery<'a> {
    /// Returns the query for all packages, as lines of JSON, on all known targets, in builds on `host`.
    pub fn for_all_packages(host: Option<KnownTarget>) -> GraphQuery<'a> {
        GraphQuery {
            targets: TargetSet::all(),
            count: COUNT,
            are_named: false,
            kinds: ALL_KINDS,
            side: None,
            host,
            groups: None,
            packages: &[],
            show: Show::Packages,
            of: "",
            json: true,
            html: None,
            markdown: false,
            requested: FeatureArguments {
                resolver: None,
                features: &[],
                no_default: false,
                all_features: false,
            },
        }
    }

    /// Returns the query that the arguments describe.
    ///
    /// # Errors
    ///
    /// Refuses an unknown word of `--show`, one of `--show why` and `--of` without the other, options that `--against`
    /// needs or excludes, and the name of an unknown target, host, side or dependency kind; targets and hosts of a file
    /// are not checked here. Fails if memory is refused.
    pub fn of(alloc: Global, arguments: &GraphArguments<'a>) -> Result<GraphQuery<'a>, QueryError> {
        let Some(show) = show_of(arguments.show) else {
            let text = "--show names packages, edges, targets, why, features, unified or all";
            return Err(argument_error(alloc, text));
        };
        if arguments.of.is_some() != (show == Show::Why) {
            let text = "`--show why` and `--of NAME` go together";
            return Err(argument_error(alloc, text));
        }
        if let Some(text) = misplaced(arguments) {
            return Err(argument_error(alloc, text));
        }
        let targets = targets_of(alloc, arguments)?;
        let kinds = kinds_of(alloc, arguments.edges)?;
        let side = side_of(alloc, arguments.side)?;
        let host = host_of(alloc, arguments)?;
        let are_named = !arguments.targets.is_empty();
        Ok(GraphQuery {
            targets,
            count: if are_named { targets.len() } else { COUNT },
            are_named,
            kinds,
            side,
            host,
            groups: None,
            packages: arguments.packages,
            show,
            of: arguments.of.unwrap_or(""),
            json: arguments.json,
            html: arguments.html,
            markdown: arguments.markdown,
            requested: arguments.requested,
        })
    }

    /// Returns the same query for the targets of a file, which these groups represent.
    pub fn in_groups(self, groups: &'a Groups<'a>) -> GraphQuery<'a> {
        let mut query = self;
        query.targets = groups.targets();
        query.count = groups.count_of(query.targets);
        query.host = groups.host();
        query.groups = Some(groups);
        query
    }

    /// Returns the selected targets.
    pub fn selection(&self) -> Selection<'a> {
        Selection {
            targets: self.targets,
            are_named: self.are_named,
            groups: self.groups,
        }
    }

    /// Returns the number of targets in a set. If the targets are those of a file, its targets are counted, not their
    /// groups.
    pub fn count_of(&self, targets: TargetSet) -> usize {
        match self.groups {
            Some(groups) => groups.count_of(targets),
            None => targets.len(),
        }
    }

    /// Returns whether text output prints these targets as `all`. It does if they are the selected targets, unless only
    /// one target is selected, by its name.
    pub fn are_all(&self, targets: TargetSet) -> bool {
        targets.equals(self.targets) && !(self.are_named && self.count == 1)
    }

    /// Returns the targets of a set for a line of JSON: `all` if these are the selected targets, and else their names.
    pub fn targets_for_json(
        &self,
        alloc: Global,
        targets: TargetSet,
    ) -> Result<TargetList<'a>, AllocError> {
        if targets.equals(self.targets) {
            return Ok(TargetList::All(AllTargets::All));
        }
        Ok(TargetList::Names(self.names(alloc, targets)?))
    }

    /// Returns the names of targets, in the order of the known ones or of the file. Fails if memory is refused.
    pub fn names(&self, alloc: Global, targets: TargetSet) -> Result<Vec<&'a str>, AllocError> {
        Ok(match self.groups {
            Some(groups) => groups.names(alloc, targets)?,
            None => names_of(alloc, targets)?,
        })
    }
}
