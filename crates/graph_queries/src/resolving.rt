//! Feature resolution: the resolver, the features that are requested, and what they turn on.

use crate::incomplete::lacking_reason;
use crate::origins::dependency_targets_from;
use crate::query::{GraphQuery, Show};
use crate::reading::{GraphDocument, Rejected};
use crate::requested::{current_node, reject_unknown, split_by_root, split_features};
use cargo_features::{BuildOptions, Claim, Resolved, resolve};
use cargo_metadata::fields::text_at;
use declared_features::{Declarations, RequestedFeatures, ResolverInput, resolver_input};
use key_answers::answer::{QueryError, argument_error};
use key_answers::printing::format_name;
use known_targets::{KnownTarget, TargetSet};
use package_graphs::{Kinds, Side};
use serde_json::Value;
use std::alloc::Global;

/// The resolved features of a graph.
#[derive(Drop)]
pub struct ResolvedFeatures<'a> {
    pub declarations: Declarations<'a>,
    pub resolution: Resolution,
}

/// The result of the feature resolver for a graph.
#[derive(Drop)]
pub struct Resolution {
    /// For each package, and each of its dependencies in `resolved`, the index among the dependencies of the linked
    /// package.
    edges: Vec<Vec<usize>>,
    pub resolved: Resolved,
}

impl Resolution {
    /// Returns the targets on which a dependency is used, and leads to a package that is built for the side `to`.
    /// `place` is its index among those of the linked package.
    pub fn dependency_targets_to(&self, index: usize, place: usize, to: Side) -> TargetSet {
        let mut targets = TargetSet::none();
        let Some(edges) = self.edges.get(index) else {
            return targets;
        };
        for i in 0..edges.len() {
            if edges[i] == place {
                targets = targets.union(self.resolved.dependency_targets_to(index, i, to));
            }
        }
        targets
    }

    /// Returns the targets on which a package that is built for the side `from` uses a dependency. `place` is its index
    /// among those of the linked package.
    pub fn dependency_targets_from(&self, index: usize, place: usize, from: Side) -> TargetSet {
        let mut targets = TargetSet::none();
        let Some(unit) = self.resolved.packages().get(index) else {
            return targets;
        };
        let Some(edges) = self.edges.get(index) else {
            return targets;
        };
        for i in 0..edges.len() {
            if edges[i] != place {
                continue;
            }
            if let Some(dependency) = unit.dependencies.get(i) {
                targets = targets.union(dependency_targets_from(
                    &self.resolved,
                    index,
                    i,
                    dependency,
                    from,
                ));
            }
        }
        targets
    }

    /// Returns the targets on which the build uses a package for a side, with a feature that is on.
    pub fn targets_with_feature(&self, index: usize, side: Side, feature: usize) -> TargetSet {
        self.resolved.targets_with_feature(index, side, feature)
    }

    /// Returns the targets on which the build uses a package for a side.
    pub fn used_on(&self, index: usize, side: Side) -> TargetSet {
        self.resolved.at(Claim::Used(index, side))
    }
}

/// Returns whether features have to be resolved.
fn is_requested(query: &GraphQuery<'_>) -> bool {
    let requested = &query.requested;
    let is_shown = matches!(query.show, Show::Features | Show::Unified | Show::All);
    let is_requested = requested.resolver.is_some() || !requested.features.is_empty();
    is_shown || is_requested || requested.no_default || requested.all_features
}

/// The feature resolver.
#[derive(Clone, Copy, Debug, PartialEq, Eq, Drop)]
enum Resolver {
    One,
    /// Resolver 2, or 3, which keeps features apart in the same way.
    Two,
}

/// Returns whether a path is that of the manifest in a folder, with `/` or `\` between them.
fn is_manifest_in(path: &str, folder: &str) -> bool {
    match path.strip_prefix(folder) {
        Some(rest) => rest == "/Cargo.toml" || rest == "\\Cargo.toml",
        None => false,
    }
}

/// Returns the root package: the one whose manifest is that of the workspace.
fn root_package<'a>(document: &'a Value) -> Option<&'a Value> {
    let root = text_at(document, "workspace_root")?;
    for package in document.get("packages")?.as_array()? {
        if let Some(path) = text_at(package, "manifest_path") {
            if is_manifest_in(path, root) {
                return Some(package);
            }
        }
    }
    None
}

/// Why the resolver is not known.
const NO_ROOT: &str =
    "the workspace has no root package, whose edition tells the resolver: say --resolver 1, 2 or 3";

/// Returns the default resolver of the root package's edition, as in Cargo's [resolver
/// versions](https://doc.rust-lang.org/cargo/reference/resolver.html#resolver-versions).
fn resolver_by_edition(alloc: Global, root: Option<&Value>) -> Result<Resolver, Rejected> {
    let edition = match root {
        Some(package) => text_at(package, "edition"),
        None => None,
    };
    match edition {
        Some("2015" | "2018") => Ok(Resolver::One),
        Some("2021" | "2024") => Ok(Resolver::Two),
        Some(edition) => {
            let edition = format_name(alloc, edition)?;
            Err(Rejected::Document(format!(in alloc;
                "no resolver is known of edition {edition}: say --resolver 1, 2 or 3"
            )?))
        }
        None => Err(Rejected::Document(String::from_str(alloc, NO_ROOT)?)),
    }
}

/// Returns the resolver that `--resolver` selects.
fn resolver_of(
    alloc: Global,
    word: Option<&str>,
    root: Option<&Value>,
) -> Result<Resolver, Rejected> {
    match word {
        Some("1") => Ok(Resolver::One),
        Some("2" | "3") => Ok(Resolver::Two),
        None | Some("edition") => resolver_by_edition(alloc, root),
        Some(_) => {
            let text = "--resolver names 1, 2, 3 or edition";
            Err(Rejected::Refused(argument_error(alloc, text)))
        }
    }
}

/// Returns the build of a resolver.
fn build_of(resolver: Resolver, kinds: Kinds, host: KnownTarget) -> BuildOptions {
    match resolver {
        Resolver::One => BuildOptions::by_resolver_1(kinds, host),
        Resolver::Two => BuildOptions::by_resolver_2(kinds, host),
    }
}

/// Returns the host for which features are resolved. Refuses a query without a host, and `--show why`.
fn host_of(alloc: Global, query: &GraphQuery<'_>) -> Result<KnownTarget, QueryError> {
    let Some(host) = query.host else {
        let text = "features are resolved for a host: say --host NAME";
        return Err(argument_error(alloc, text));
    };
    if query.show == Show::Why {
        let text =
            "`--show why` knows no features: leave out --resolver and what is asked of features";
        return Err(argument_error(alloc, text));
    }
    Ok(host)
}

/// Resolves the requested features of a graph.
fn resolved_of<'a>(
    alloc: Global,
    input: &GraphDocument<'a>,
    features: &RequestedFeatures<'a>,
    build: BuildOptions,
) -> Result<Resolution, Rejected> {
    let graph = input.with_declarations(alloc)?;
    reject_unknown(alloc, &graph, features)?;
    let ResolverInput { packages, edges } = resolver_input(alloc, &graph, features)?;
    let resolved = resolve(alloc, packages, build)?;
    match lacking_reason(alloc, &graph, &resolved, features)? {
        Some(reason) => Err(Rejected::Document(reason)),
        None => Ok(Resolution { edges, resolved }),
    }
}

/// Resolves the features of a graph, if that is requested.
///
/// # Errors
///
/// Refuses a query without a host, one for dependency paths, an unknown resolver, a feature that no package has, and a
/// document that does not say what its packages declare, or that was made with fewer features. Fails if memory is
/// refused.
pub fn resolution_of<'a>(
    alloc: Global,
    input: &GraphDocument<'a>,
    query: &GraphQuery<'_>,
) -> Result<Option<Resolution>, Rejected> {
    if !is_requested(query) {
        return Ok(None);
    }
    let host = host_of(alloc, query)?;
    let graph = input.with_declarations(alloc)?;
    let root = root_package(input.document);
    let resolver = resolver_of(alloc, query.requested.resolver, root)?;
    let current = if resolver == Resolver::One && root.is_some() {
        Some(current_node(alloc, &graph)?)
    } else {
        None
    };
    let names = split_features(alloc, query.requested.features)?;
    let (names, of_others) = split_by_root(alloc, names, current, &graph)?;
    let features = RequestedFeatures {
        names: &names,
        default: !query.requested.no_default,
        all: query.requested.all_features,
        current,
        of_others: &of_others,
    };
    let build = build_of(resolver, query.kinds, host);
    Ok(Some(resolved_of(alloc, &*input, &features, build)?))
}
