//! A graph of packages, with the targets on which each package is in the build.

use crate::lines::{format_package, format_text};
use crate::query::GraphQuery;
use crate::resolving::ResolvedFeatures;
use crate::sides::{BySide, is_selected};
use cargo_metadata::graphs::Linked;
use cargo_metadata::{Metadata, Package as Described};
use known_targets::TargetSet;
use package_graphs::{Dependency, PackageQuery, PackageTargets, Side, package_targets};
use std::alloc::{AllocError, Global};

/// A dependency graph, with the targets on which each package is in the build.
#[derive(Drop)]
pub struct Graph<'a> {
    pub metadata: Metadata<'a>,
    pub linked: Linked<'a>,
    /// The folder of the workspace, if the document names it.
    pub workspace: Option<&'a str>,
    pub sets: PackageTargets,
    /// The selected side, or `None` for both.
    pub side: Option<Side>,
    /// The indexes of the packages, sorted by name, version and id.
    pub order: Vec<usize>,
    /// For each package, whether another one has the same name and version.
    pub twins: Vec<bool>,
    /// The resolved features, if feature resolution is requested.
    pub features: Option<ResolvedFeatures<'a>>,
}

impl<'a> Graph<'a> {
    /// Returns a graph without resolved features, with the targets of its packages for a query. Fails if memory is
    /// refused.
    pub fn of(
        alloc: Global,
        metadata: Metadata<'a>,
        linked: Linked<'a>,
        query: &GraphQuery<'_>,
    ) -> Result<Graph<'a>, AllocError> {
        let sets = package_targets(alloc, &linked.packages, query.kinds, query.host)?;
        let order = in_order(alloc, &linked.described)?;
        let twins = twins_of(alloc, &linked.described, &order)?;
        Ok(Graph {
            metadata,
            linked,
            workspace: None,
            sets,
            side: query.side,
            order,
            twins,
            features: None,
        })
    }

    /// Returns the targets of a query on which a package is in the build for some selected side. These are the ones of
    /// `targets_of` that the query selects.
    pub fn targets_in(&self, index: usize, query: &GraphQuery<'_>) -> TargetSet {
        self.built(index, query).targets()
    }

    /// Returns the targets on which a package is in the build for some selected side, also those that a query does not
    /// select.
    pub fn targets_of(&self, index: usize) -> TargetSet {
        let target = self.targets_on_side(index, Side::Target);
        target.union(self.targets_on_side(index, Side::Host))
    }

    /// Returns, for each selected side, the targets of a query on which a package is in the build for that side.
    pub fn built(&self, index: usize, query: &GraphQuery<'_>) -> BySide {
        let built = BySide {
            target: self.targets_on_side(index, Side::Target),
            host: self.targets_on_side(index, Side::Host),
        };
        built.within(query.targets)
    }

    /// Returns the targets on which a package is in the build for this side. There are none if it is not selected.
    fn targets_on_side(&self, index: usize, side: Side) -> TargetSet {
        if !is_selected(self.side, side) {
            return TargetSet::none();
        }
        match &self.features {
            Some(features) => features.resolution.used_on(index, side),
            None => self.sets.on_side(index, side),
        }
    }

    /// Returns the targets on which dependencies lead to a package for some selected side, also those on which features
    /// leave it out.
    pub fn targets_before_features(&self, index: usize) -> TargetSet {
        match self.side {
            Some(side) => self.sets.on_side(index, side),
            None => self.sets.on_any_side(index),
        }
    }

    /// Returns, for each selected side, the targets of a query on which a dependency is followed to that side. `place`
    /// is its index among the dependencies of the package.
    pub fn followed(&self, index: usize, place: usize, query: &GraphQuery<'_>) -> BySide {
        let followed = BySide {
            target: self.followed_to(index, place, Side::Target, query),
            host: self.followed_to(index, place, Side::Host, query),
        };
        followed.within(query.targets)
    }

    /// Returns the targets on which a dependency is followed to a package that is built for this side. There are none
    /// if it is not selected.
    fn followed_to(
        &self,
        index: usize,
        place: usize,
        side: Side,
        query: &GraphQuery<'_>,
    ) -> TargetSet {
        if !is_selected(self.side, side) {
            return TargetSet::none();
        }
        if let Some(features) = &self.features {
            return features
                .resolution
                .dependency_targets_to(index, place, side);
        }
        let followed = PackageQuery {
            packages: &self.linked.packages,
            kinds: query.kinds,
            host: query.host,
        };
        match self.dependency(index, place) {
            Some(dependency) => self.sets.followed_to(followed, index, &dependency, side),
            None => TargetSet::none(),
        }
    }

    /// Returns the dependency at an index among those of a package.
    pub fn dependency(&self, index: usize, place: usize) -> Option<Dependency> {
        self.linked
            .packages
            .get(index)?
            .dependencies
            .get(place)
            .copied()
    }

    /// Returns whether the package at an index is a procedural macro.
    pub fn is_macro(&self, index: usize) -> bool {
        match self.linked.packages.get(index) {
            Some(unit) => unit.is_macro,
            None => false,
        }
    }

    /// Formats the name and the version of the package at an index for text output, with its source if another package
    /// has the same name and version. Fails if memory is refused.
    pub fn format_package(&self, alloc: Global, index: usize) -> Result<String, AllocError> {
        let Some(described) = self.described(index) else {
            return Ok(String::new(alloc));
        };
        let package = format_package(alloc, described)?;
        match self.source(index) {
            Some(source) => {
                let source = format_text(alloc, source)?;
                format!(in alloc; "{package} ({source})")
            }
            None => Ok(package),
        }
    }

    /// Returns the source of a package, if another package has the same name and version.
    pub fn source(&self, index: usize) -> Option<&'a str> {
        if self.twins.get(index).copied() != Some(true) {
            return None;
        }
        Some(source_of(self.described(index)?.id))
    }

    /// Returns the names of a package's features that are enabled on a selected target for a selected side. There are
    /// none if features are not resolved. Fails if memory is refused.
    pub fn features_on(
        &self,
        alloc: Global,
        index: usize,
        query: &GraphQuery<'_>,
    ) -> Result<Vec<&'a str>, AllocError> {
        let mut names = Vec::new(alloc);
        let Some(features) = &self.features else {
            return Ok(names);
        };
        let Some(manifest) = features.declarations.package_of(index) else {
            return Ok(names);
        };
        for i in 0..manifest.features.len() {
            let target = self.feature_on(index, Side::Target, i);
            let targets = target.union(self.feature_on(index, Side::Host, i));
            if !targets.intersection(query.targets).is_empty() {
                names.push(manifest.features[i].name)?;
            }
        }
        Ok(names)
    }

    /// Returns the targets on which a feature of a package is on for this side. There are none if it is not selected.
    fn feature_on(&self, index: usize, side: Side, feature: usize) -> TargetSet {
        match &self.features {
            Some(features) if is_selected(self.side, side) => {
                features
                    .resolution
                    .targets_with_feature(index, side, feature)
            }
            _ => TargetSet::none(),
        }
    }

    /// Returns the description of the package at an index.
    pub fn described(&self, index: usize) -> Option<&Described<'a>> {
        self.linked.described.get(index)
    }
}

/// Returns the indexes of the packages, sorted by name, version and id.
fn in_order(alloc: Global, described: &[Described<'_>]) -> Result<Vec<usize>, AllocError> {
    let mut keys = Vec::new(alloc);
    for i in 0..described.len() {
        let it = &described[i];
        keys.push(((it.name, it.version), (it.id, i)))?;
    }
    keys.sort()?;
    let mut order = Vec::new(alloc);
    for (_, (_, i)) in &keys {
        order.push(*i)?;
    }
    Ok(order)
}

/// Returns for each package whether the one before or after it in order has its name and version.
fn twins_of(
    alloc: Global,
    described: &[Described<'_>],
    order: &[usize],
) -> Result<Vec<bool>, AllocError> {
    let mut twins = vec![in alloc; false; described.len()]?;
    let mut last = described.len();
    for place in order {
        let (first, second) = (last, *place);
        last = second;
        let (Some(one), Some(other)) = (described.get(first), described.get(second)) else {
            continue;
        };
        if one.name == other.name && one.version == other.version {
            if let Some(twin) = twins.get_mut(first) {
                *twin = true;
            }
            if let Some(twin) = twins.get_mut(second) {
                *twin = true;
            }
        }
    }
    Ok(twins)
}

/// Returns the source in a package id, `SOURCE#NAME@VERSION` or `NAME VERSION (SOURCE)`, or the whole id if it has
/// neither form.
pub fn source_of<'a>(id: &'a str) -> &'a str {
    if let Some((source, _)) = id.split_once('#') {
        return source;
    }
    match id.split_once('(') {
        Some((_, source)) => source.strip_suffix(")").unwrap_or(source),
        None => id,
    }
}
