//! The dependency kinds through which each package of a graph is reached, and the number of packages in the build.

use crate::graph::Graph;
use crate::lines::{push, push_comma};
use crate::query::GraphQuery;
use cargo_metadata::Package as Described;
use package_graphs::Kind;
use std::alloc::{AllocError, Global};

/// The dependency kinds through which a package is reached on the selected targets.
#[derive(Clone, Copy, Drop)]
pub struct ReachingKinds {
    normal: bool,
    build: bool,
    dev: bool,
}

impl ReachingKinds {
    /// Returns the names of the kinds. Fails if memory is refused.
    pub fn kinds(self, alloc: Global) -> Result<Vec<&'static str>, AllocError> {
        let mut kinds = Vec::new(alloc);
        if self.normal {
            kinds.push("normal")?;
        }
        if self.build {
            kinds.push("build")?;
        }
        if self.dev {
            kinds.push("dev")?;
        }
        Ok(kinds)
    }

    /// Returns the names of the kinds, separated by commas. Fails if memory is refused.
    pub fn words(self, alloc: Global) -> Result<String, AllocError> {
        let mut text = String::new(alloc);
        for word in self.kinds(alloc)? {
            let is_first = text.is_empty();
            push_comma(&mut text, is_first)?;
            push(&mut text, word)?;
        }
        Ok(text)
    }
}

/// Returns for each package the dependency kinds through which it is reached on the selected targets.
pub fn kinds_reached(
    alloc: Global,
    graph: &Graph<'_>,
    query: &GraphQuery<'_>,
) -> Result<Vec<ReachingKinds>, AllocError> {
    let none = ReachingKinds {
        normal: false,
        build: false,
        dev: false,
    };
    let packages = &graph.linked.packages;
    let mut reached = vec![in alloc; none; packages.len()]?;
    for i in 0..packages.len() {
        for j in 0..packages[i].dependencies.len() {
            let dependency = packages[i].dependencies[j];
            let Some(to) = reached.get_mut(dependency.to) else {
                continue;
            };
            if graph.followed(i, j, query).targets().is_empty() {
                continue;
            }
            match dependency.kind {
                Kind::Normal => to.normal = true,
                Kind::Build => to.build = true,
                Kind::Dev => to.dev = true,
            }
        }
    }
    Ok(reached)
}

/// Returns the number of packages that are in the build on a selected target.
pub fn count_present(graph: &Graph<'_>, query: &GraphQuery<'_>) -> usize {
    let mut count: usize = 0;
    for i in &graph.order {
        if !graph.targets_in(*i, query).is_empty() {
            count = count.saturating_add(1);
        }
    }
    count
}

/// Returns the name and the version of a package, without escaping.
pub fn name_and_version(alloc: Global, described: &Described<'_>) -> Result<String, AllocError> {
    let name = described.name;
    let version = described.version;
    format!(in alloc; "{name} {version}")
}
