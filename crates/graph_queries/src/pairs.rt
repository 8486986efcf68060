//! The packages of two answers, each with its counterpart in the other one.

use crate::graph::Graph;
use crate::query::GraphQuery;
use std::alloc::{AllocError, Global};
use std::collections::BTreeMap;

/// A package that is in an old answer, in a new one, or in both.
#[derive(Clone, Copy, Drop)]
pub struct MatchedPackage<'d> {
    pub name: &'d str,
    /// The index of the package in the graph of the old answer.
    pub old: Option<usize>,
    /// The index of the package in the graph of the new answer.
    pub new: Option<usize>,
}

/// The name and the version of a package, and its number among those with the same name and version.
type Key<'d> = ((&'d str, &'d str), usize);

/// Returns the packages that are in the build on a selected target, by their keys.
fn packages_of<'d>(
    alloc: Global,
    graph: &Graph<'d>,
    query: &GraphQuery<'_>,
) -> Result<BTreeMap<Key<'d>, usize>, AllocError> {
    let mut found = BTreeMap::new(alloc);
    let mut last = ("", "");
    let mut number: usize = 0;
    for index in &graph.order {
        let Some(described) = graph.described(*index) else {
            continue;
        };
        if graph.targets_in(*index, query).is_empty() {
            continue;
        }
        let package = (described.name, described.version);
        number = if package == last {
            number.saturating_add(1)
        } else {
            0
        };
        last = package;
        let _before = found.insert((package, number), *index)?;
    }
    Ok(found)
}

/// Returns the places of the pairs that only one answer has, by their names. A name with several has none.
fn places_alone<'d>(
    alloc: Global,
    pairs: &[MatchedPackage<'d>],
    are_new: bool,
) -> Result<BTreeMap<&'d str, Option<usize>>, AllocError> {
    let mut places: BTreeMap<&'d str, Option<usize>> = BTreeMap::new(alloc);
    for i in 0..pairs.len() {
        let pair = &pairs[i];
        let is_alone = if are_new {
            pair.old.is_none()
        } else {
            pair.new.is_none()
        };
        if is_alone {
            let place = if places.contains_key(pair.name) {
                None
            } else {
                Some(i)
            };
            let _before = places.insert(pair.name, place)?;
        }
    }
    Ok(places)
}

/// Joins pairs of one name: if exactly one package of a name is in the old answer alone, and exactly one in the new
/// answer alone, the first was updated to the second.
fn join_updates(alloc: Global, pairs: &mut Vec<MatchedPackage<'_>>) -> Result<(), AllocError> {
    let gone = places_alone(alloc, pairs, false)?;
    let added = places_alone(alloc, pairs, true)?;
    for (name, place) in &gone {
        let Some(Some(to)) = added.get(name).copied() else {
            continue;
        };
        let Some(from) = *place else {
            continue;
        };
        let old = match pairs.get_mut(from) {
            Some(pair) => pair.old.take(),
            None => None,
        };
        if let Some(pair) = pairs.get_mut(to) {
            pair.old = old;
        }
    }
    pairs.retain(|pair| pair.old.is_some() || pair.new.is_some());
    Ok(())
}

/// Returns the packages of both answers as pairs, sorted by name and version. Packages of the same name and version are
/// a pair, and so are the only two of a name that have no counterpart: the package was updated.
pub fn matched_packages<'d>(
    alloc: Global,
    old: &Graph<'d>,
    new: &Graph<'d>,
    query: &GraphQuery<'_>,
) -> Result<Vec<MatchedPackage<'d>>, AllocError> {
    let before = packages_of(alloc, old, query)?;
    let after = packages_of(alloc, new, query)?;
    let mut keys = Vec::new(alloc);
    for (key, _) in &before {
        keys.push(*key)?;
    }
    for (key, _) in &after {
        if !before.contains_key(key) {
            keys.push(*key)?;
        }
    }
    keys.sort()?;
    let mut pairs = Vec::new(alloc);
    for key in &keys {
        let ((name, _), _) = *key;
        pairs.push(MatchedPackage {
            name,
            old: before.get(key).copied(),
            new: after.get(key).copied(),
        })?;
    }
    join_updates(alloc, &mut pairs)?;
    Ok(pairs)
}
