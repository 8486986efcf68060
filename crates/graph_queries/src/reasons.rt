//! The rules of the feature resolver that leave out packages to which dependencies lead.

use crate::graph::Graph;
use crate::query::GraphQuery;
use crate::resolving::ResolvedFeatures;
use cargo_features::{BuildOptions, Dependency, FeatureValue, Package, used_packages};
use known_targets::TargetSet;
use std::alloc::{AllocError, Global};

/// A reason why packages are left out.
#[derive(Clone, Copy, Drop)]
pub struct Reason {
    pub word: &'static str,
    pub text: &'static str,
}

const WEAK: Reason = Reason {
    word: "weak",
    text: "only a weak feature enables it",
};

const TARGET: Reason = Reason {
    word: "target",
    text: "a feature of another target enables it",
};

const SIDE: Reason = Reason {
    word: "side",
    text: "a feature of the other side, target or host, enables it",
};

const DEV: Reason = Reason {
    word: "dev",
    text: "only dev-dependencies enable it",
};

const SEVERAL: Reason = Reason {
    word: "several",
    text: "several of weak, target, side and dev together",
};

const UNASKED: Reason = Reason {
    word: "unasked",
    text: "a feature that is not requested enables it",
};

/// For each reason, in order, and for each package, the targets on which the package is left out for that reason.
#[derive(Drop)]
pub struct Reasons {
    reasons: Vec<(Reason, Vec<TargetSet>)>,
}

/// Copies a list of members, with each weak member made strong.
fn strong_members(
    alloc: Global,
    members: &[FeatureValue],
) -> Result<Vec<FeatureValue>, AllocError> {
    let mut strong = Vec::new(alloc);
    for member in members {
        strong.push(match *member {
            FeatureValue::Weak(dependency, feature) => FeatureValue::Strong(dependency, feature),
            other => other,
        })?;
    }
    Ok(strong)
}

/// Copies packages, with each weak member of a feature made strong.
fn strong_packages(alloc: Global, packages: &[Package]) -> Result<Vec<Package>, AllocError> {
    let mut strong = Vec::new(alloc);
    for unit in packages {
        let mut dependencies = Vec::new(alloc);
        for it in &unit.dependencies {
            dependencies.push(Dependency {
                to: it.to,
                kind: it.kind,
                is_optional: it.is_optional,
                holds: it.holds,
                features: it.features.clone()?,
                named: it.named,
            })?;
        }
        let mut features = Vec::new(alloc);
        for members in &unit.features {
            features.push(strong_members(alloc, members)?)?;
        }
        strong.push(Package {
            is_root: unit.is_root,
            is_macro: unit.is_macro,
            dependencies,
            features,
            requested: unit.requested.clone()?,
        })?;
    }
    Ok(strong)
}

/// Removes from `left` the targets on which a build uses each package, and returns them.
fn taken(
    alloc: Global,
    packages: &[Package],
    build: BuildOptions,
    left: &mut Vec<TargetSet>,
) -> Result<Vec<TargetSet>, AllocError> {
    let used = used_packages(alloc, packages, build)?;
    let mut taken = Vec::new(alloc);
    for i in 0..left.len() {
        let targets = match used.get(i) {
            Some(set) => set.intersection(left[i]),
            None => TargetSet::none(),
        };
        left[i] = left[i].intersection(targets.complement());
        taken.push(targets)?;
    }
    Ok(taken)
}

/// Returns for each package the targets on which dependencies lead to it but the build does not use it.
fn left_out(
    alloc: Global,
    graph: &Graph<'_>,
    features: &ResolvedFeatures<'_>,
) -> Result<Vec<TargetSet>, AllocError> {
    let mut left = Vec::new(alloc);
    for i in 0..graph.linked.packages.len() {
        let used = features.resolution.resolved.used(i);
        left.push(
            graph
                .targets_before_features(i)
                .intersection(used.complement()),
        )?;
    }
    Ok(left)
}

impl Reasons {
    /// Returns the reasons why packages of a graph are left out, if features are resolved.
    pub fn of(alloc: Global, graph: &Graph<'_>) -> Result<Option<Reasons>, AllocError> {
        let Some(features) = &graph.features else {
            return Ok(None);
        };
        let packages = features.resolution.resolved.packages();
        let mut left = left_out(alloc, graph, features)?;
        let strong = strong_packages(alloc, packages)?;
        let mut reasons = Vec::new(alloc);
        let mut build = features.resolution.resolved.build();
        reasons.push((WEAK, taken(alloc, &strong, build, &mut left)?))?;
        build.by_target = false;
        reasons.push((TARGET, taken(alloc, packages, build, &mut left)?))?;
        build = features.resolution.resolved.build();
        build.by_side = false;
        reasons.push((SIDE, taken(alloc, packages, build, &mut left)?))?;
        build = features.resolution.resolved.build();
        build.with_dev = true;
        reasons.push((DEV, taken(alloc, packages, build, &mut left)?))?;
        build.by_target = false;
        build.by_side = false;
        reasons.push((SEVERAL, taken(alloc, &strong, build, &mut left)?))?;
        reasons.push((UNASKED, left))?;
        Ok(Some(Reasons { reasons }))
    }

    /// Returns the reasons why a package is left out, each with the selected targets on which it is left out for that
    /// reason. Fails if memory is refused.
    pub fn at(
        &self,
        alloc: Global,
        index: usize,
        query: &GraphQuery<'_>,
    ) -> Result<Vec<(Reason, TargetSet)>, AllocError> {
        let mut found = Vec::new(alloc);
        for (reason, sets) in &self.reasons {
            if let Some(set) = sets.get(index) {
                let targets = set.intersection(query.targets);
                if !targets.is_empty() {
                    found.push((*reason, targets))?;
                }
            }
        }
        Ok(found)
    }
}
