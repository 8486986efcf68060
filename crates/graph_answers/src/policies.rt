//! `--policy`: the arguments that a policy stands for, and its table of licences.

use crate::query::{FeatureArguments, GraphArguments};
use cargo_platform::{printable_excerpt, printable_text};
use diagnostics::DiagnosticLevel;
use key_answers::answer::QueryError;
use known_targets::{KnownTarget, RUSTC_VERSION};
use licence_audits::PackageSpec;
use licence_policies::{GraphTable, LicenceTable, Policy, PolicySource};
use manifest_lints_findings::nearest_target;
use std::alloc::{AllocError, Global};
use std::mem;

/// The licences of a policy, and the packages that it excludes.
#[derive(Drop)]
pub struct AuditPolicy {
    pub table: LicenceTable,
    pub source: PolicySource,
    /// The packages that are not in the graph.
    pub excluded: Vec<PackageSpec>,
    /// The warnings and notes on the policy.
    pub messages: String,
}

/// A policy of the arguments.
#[derive(Drop)]
pub struct GivenPolicy {
    pub graph: GraphTable,
    pub audit: AuditPolicy,
}

/// Returns the diagnostics on the targets of a policy that rustc does not know.
fn unknown_targets(
    alloc: Global,
    graph: &GraphTable,
    source: &PolicySource,
) -> Result<String, AllocError> {
    let mut text = String::new(alloc);
    for (name, at) in &graph.targets {
        if KnownTarget::by_name(name.as_str()).is_none() {
            let shown = printable_excerpt(alloc, name.as_str())?;
            let meant = match nearest_target(alloc, name.as_str())? {
                Some(meant) => format!(in alloc; "; did you mean `{meant}`?")?,
                None => String::new(alloc),
            };
            let message = format!(in alloc;
                "no target that rustc {RUSTC_VERSION} knows is named `{shown}`{meant}"
            )?;
            let rendered = source.render(alloc, DiagnosticLevel::Error, *at, message)?;
            text.push_str(rendered.as_str())?;
        }
    }
    Ok(text)
}

/// Reads the policy of the arguments, if there is one. Refuses one with an error, and a target that rustc does not know
/// if the targets of the policy are used.
pub fn policy_of(
    alloc: Global,
    arguments: &GraphArguments<'_>,
) -> Result<Option<GivenPolicy>, QueryError> {
    let Some((file, text)) = arguments.policy else {
        return Ok(None);
    };
    let file = printable_text(alloc, file)?;
    let policy = Policy::read(alloc, file.as_str(), text)?;
    let messages = policy.rendered(alloc)?;
    if !policy.is_valid() {
        return Err(QueryError::Unusable(messages));
    }
    let Policy {
        graph,
        licences,
        source,
        diagnostics: _,
    } = policy;
    if arguments.targets.is_empty() && arguments.facts_of.is_none() {
        let unknown = unknown_targets(alloc, &graph, &source)?;
        if !unknown.is_empty() {
            return Err(QueryError::Unusable(unknown));
        }
    }
    let mut graph = graph;
    let excluded = mem::replace(&mut graph.excluded, Vec::new(alloc));
    let audit = AuditPolicy {
        table: licences,
        source,
        excluded,
        messages,
    };
    Ok(Some(GivenPolicy { graph, audit }))
}

/// The names in the table `[graph]` of a policy.
#[derive(Drop)]
pub struct GraphNames<'p> {
    pub targets: Vec<&'p str>,
    pub features: Vec<&'p str>,
}

impl<'p> GraphNames<'p> {
    /// Returns the names in a table.
    pub fn of(alloc: Global, graph: &'p GraphTable) -> Result<GraphNames<'p>, AllocError> {
        let mut targets = Vec::new(alloc);
        for (name, _) in &graph.targets {
            targets.push(name.as_str())?;
        }
        let mut features = Vec::new(alloc);
        for name in &graph.features {
            features.push(name.as_str())?;
        }
        Ok(GraphNames { targets, features })
    }
}

/// Returns the arguments, with the targets, dependency kinds and features of the policy where the command line sets
/// none.
pub fn arguments_by_policy<'p>(
    arguments: &GraphArguments<'p>,
    targets: &'p [&'p str],
    features: &'p [&'p str],
    graph: &GraphTable,
    includes_dev: bool,
) -> GraphArguments<'p> {
    let targets = if arguments.targets.is_empty() {
        targets
    } else {
        arguments.targets
    };
    let has_dev = includes_dev && !graph.excludes_dev;
    let edges = arguments.edges.unwrap_or(if has_dev {
        "normal,build,dev"
    } else {
        "normal,build"
    });
    let given = arguments.requested;
    let requested = if given.features.is_empty() && !given.no_default && !given.all_features {
        FeatureArguments {
            resolver: given.resolver,
            features,
            no_default: graph.no_default_features,
            all_features: graph.all_features,
        }
    } else {
        given
    };
    GraphArguments {
        targets,
        edges: Some(edges),
        requested,
        ..*arguments
    }
}
