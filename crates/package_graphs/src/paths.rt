//! Shortest dependency paths from a root to a package.

ghost use Rattle.std.specs.Prelude.{◌≡◌, ◌<◌, ◌≤◌, IsTrue, IfOk, IfSome, IfNone, length, None, Some};
ghost use Rattle.known_targets.specs.Sets.{place};
ghost use Rattle.package_graphs.specs.Packages.{Sided, StartsOn, dependencies};
ghost use Rattle.package_graphs.specs.Paths.{Steps, IsShortest, IsShortestOn, IsShortestTo};
ghost use Rattle.package_graphs.specs.Paths.{IsUnreached, AreShortestOf};
ghost use Rattle.package_graphs.specs.Inside.Numbered.{IsTraversalQuery};
ghost use Rattle.package_graphs.specs.Inside.Searching.{LeadsAlong, IsStepOf, IsPathOf, Leads, distance, IsWithin};
ghost use Rattle.package_graphs.specs.Inside.Searching.{IsNear, AreNear, IsFarAway};

use crate::following::is_root;
use crate::packages::{Dependency, Kinds, Package};
use crate::sides::Side;
use crate::two_sided_graph::{TraversalQuery, node_of};
use known_targets::KnownTarget;
use std::alloc::{AllocError, Global};

/// A step from a package along one of its dependencies, both given by their indexes.
#[derive(Clone, Copy, Debug, PartialEq, Eq, Drop)]
pub struct Step {
    pub from: usize,
    pub dependency: usize,
}

/// A package by its index, and the side for which it is built.
type Place = (usize, Side);

/// The distance of a place that was not reached.
const FAR: usize = usize::MAX;

/// The distance of each package from the roots, on both sides, and the step by which it was reached first.
#[derive(Drop)]
struct Spread {
    distances: Vec<usize>,
    reached_by: Vec<Option<(usize, Step)>>,
    /// The places that were reached, in their order.
    places: Vec<Place>,
}

/// A search among packages on one target.
#[derive(Clone, Copy)]
struct Search<'a> {
    traversal: TraversalQuery,
    packages: &'a [Package],
    at: KnownTarget,
}

/// Returns the steps of a shortest path from a root to the package at index `to`, each along a dependency whose
/// condition is true on the target. For a root there are no steps. Returns `None` if no path leads to the package, or
/// `to` is past the end. `packages`, `kinds` and `host` are those of `package_targets`. Fails only if an allocation
/// fails.
pub fn shortest_path(
    alloc: Global,
    packages: &[Package],
    kinds: Kinds,
    host: Option<KnownTarget>,
    at: KnownTarget,
    to: usize,
) -> Result<Option<Vec<Step>>, AllocError>
    // The steps lead from a root to the package on the target, and no fewer steps do.
    ensures shortest { IfOk result (λ found. IfSome found
        (λ steps. IsShortest packages.now kinds host (place at) steps.items to)) }
    // Without steps, no path leads from a root to the package on the target.
    ensures none { IfOk result (λ found. IfNone found
        (to < length packages.now → IsUnreached packages.now kinds host (place at) None to)) }
{
    let search = Search {
        traversal: TraversalQuery::new(kinds, host),
        packages,
        at,
    };
    let spread = search.spread(alloc)?;
    if !search.are_all_near(&spread.distances) {
        return Err(AllocError);
    }
    search.path_to(alloc, &spread, None, to)
}

/// Returns the steps of a shortest path from a root to a package that is built for a side, as `shortest_path` does.
/// `to` is the index of the package and the side. Fails only if an allocation fails.
pub fn shortest_path_on(
    alloc: Global,
    packages: &[Package],
    kinds: Kinds,
    host: Option<KnownTarget>,
    at: KnownTarget,
    to: (usize, Side),
) -> Result<Option<Vec<Step>>, AllocError>
    // The steps lead from a root to the package on this side, on the target, and no fewer steps do.
    ensures shortest { IfOk result (λ found. IfSome found
        (λ steps. IsShortestOn packages.now kinds host (place at) steps.items to)) }
    // Without steps, no path leads from a root to the package on this side, on the target.
    ensures none { IfOk result (λ found. IfNone found
        (to.0 < length packages.now → IsUnreached packages.now kinds host (place at) (Some to.1) to.0)) }
{
    let search = Search {
        traversal: TraversalQuery::new(kinds, host),
        packages,
        at,
    };
    let spread = search.spread(alloc)?;
    if !search.are_all_near(&spread.distances) {
        return Err(AllocError);
    }
    let (index, side) = to;
    search.path_to(alloc, &spread, Some(side), index)
}

/// A search for paths, which follows the dependencies of these kinds whose conditions are true on a target.
#[derive(Clone, Copy, Drop)]
pub struct PathQuery {
    pub kinds: Kinds,
    pub host: Option<KnownTarget>,
    pub at: KnownTarget,
    /// The side for which the packages at the ends of the paths are built, or `None` for either side.
    pub side: Option<Side>,
}

/// The steps of a path from a root to a package.
#[derive(Drop)]
pub struct PathTo {
    /// The index of the package.
    pub to: usize,
    pub steps: Vec<Step>,
}

/// Returns a shortest path from a root to each of the packages at these indexes to which one leads, in their order, as
/// `shortest_path` and `shortest_path_on` do. All are found by one search. Fails only if an allocation fails.
pub fn shortest_paths(
    alloc: Global,
    packages: &[Package],
    query: PathQuery,
    to: &[usize],
) -> Result<Vec<PathTo>, AllocError>
    // The steps of each path lead from a root to its package on the target, for the side if one is given, and no
    // fewer steps do. Each package of `to` has its path, in order, except for those to which no path leads.
    ensures { IfOk result (λ paths. AreShortestOf packages.now query to.now paths.items) }
{
    let search = Search {
        traversal: TraversalQuery::new(query.kinds, query.host),
        packages,
        at: query.at,
    };
    let spread = search.spread(alloc)?;
    let mut paths = Vec::new(alloc);
    if !search.are_all_near(&spread.distances) {
        return Err(AllocError);
    }
    'packages: for index in to {
        let found = search.path_to(alloc, &spread, query.side, *index)?;
        if let Some(steps) = found {
            paths.push(PathTo { to: *index, steps })?;
        }
    }
    Ok(paths)
}

impl Spread {
    /// Returns the distance of a node.
    fn distance(&self, node: usize) -> usize {
        self.distances.get(node).copied().unwrap_or(FAR)
    }

    /// Returns the side on which a package is nearest to the roots. If it is as near on both sides, that is the
    /// target's with a host, and otherwise the one on which it was reached first.
    fn nearest_side(&self, index: usize, host: Option<KnownTarget>) -> Side {
        let mut nearest = Side::Target;
        let mut least = FAR;
        for (reached, side) in &self.places {
            if *reached != index {
                continue;
            }
            let distance = distance_at(&self.distances, (index, *side));
            let is_preferred = host.is_some() && matches!(side, Side::Target);
            if distance < least || is_preferred && distance == least {
                nearest = *side;
                least = distance;
            }
        }
        nearest
    }

    /// Returns the steps by which a place was reached, or some other steps if it was not reached.
    fn steps_to(&self, alloc: Global, to: Place) -> Result<Vec<Step>, AllocError> {
        let (index, side) = to;
        let mut steps = Vec::new(alloc);
        if index > self.distances.len() / 2 {
            return Ok(steps);
        }
        let mut node = node_of(index, side);
        for _ in 0..self.distances.len() {
            let Some(Some((before, step))) = self.reached_by.get(node).copied() else {
                break;
            };
            steps.push(step)?;
            node = before;
        }
        steps.reverse();
        Ok(steps)
    }
}

impl<'a> Search<'a> {
    /// Returns where a dependency leads, or `None` if it is not followed, its condition is false, or it leads to no
    /// package.
    fn step_along(&self, from: Place, dependency: &Dependency) -> Option<Place>
        requires { IsTraversalQuery self.now.traversal }
        ensures leads { IfSome result (λ n. LeadsAlong self.now dependency.now from n) }
        ensures none { IfNone result ((n : Sided) → n.0 < length self.now.packages.now
            → LeadsAlong self.now dependency.now from n → ⊥) }
        ensures only { IfSome result (λ n. (other : Sided) → LeadsAlong self.now dependency.now from other
            → other ≡ n) }
        ensures inside { IfSome result (λ n. n.0 < length self.now.packages.now) }
    {
        let (index, side) = from;
        if dependency.to >= self.packages.len() {
            return None;
        }
        let traversal = &self.traversal;
        if !traversal
            .kinds
            .follows(is_root(self.packages, index), dependency.kind)
        {
            return None;
        }
        if !traversal
            .condition_targets(side, dependency)
            .contains(self.at)
        {
            return None;
        }
        let is_macro = self.packages[dependency.to].is_macro;
        Some((dependency.to, side.after(dependency.kind, is_macro)))
    }

    /// Returns the place of a root, or `None` for a package that is not a root.
    fn start(&self, index: usize) -> Option<Place>
        ensures { IfSome result (λ n. (n.0 ≡ index) × StartsOn self.now.packages.now n) }
    {
        if index >= self.packages.len() || !self.packages[index].is_root {
            return None;
        }
        Some((index, Side::new(self.packages[index].is_macro)))
    }

    /// Visits all places that are reached from the roots, nearest first.
    fn spread(&self, alloc: Global) -> Result<Spread, AllocError>
        requires { IsTraversalQuery self.now.traversal }
    {
        let count = self.packages.len();
        let mut spread = Spread {
            distances: Vec::new(alloc),
            reached_by: Vec::new(alloc),
            places: Vec::new(alloc),
        };
        for _ in 0..count {
            for _ in 0..2u8 {
                spread.distances.push(FAR)?;
                spread.reached_by.push(None)?;
            }
        }
        for index in 0..count {
            if let Some(place) = self.start(index) {
                reach(&mut spread, place, 0, None)?;
            }
        }
        for turn in 0..spread.distances.len() {
            let Some(place) = spread.places.get(turn).copied() else {
                break;
            };
            self.go_on(place, &mut spread)?;
        }
        Ok(spread)
    }

    /// Visits the places that the dependencies of a package lead to.
    fn go_on(&self, place: Place, spread: &mut Spread) -> Result<(), AllocError>
        requires { IsTraversalQuery self.now.traversal }
    {
        let (index, side) = place;
        if index >= self.packages.len() {
            return Ok(());
        }
        let node = node_of(index, side);
        let distance = spread.distance(node).saturating_add(1);
        let dependencies = dependencies_of(self.packages, index);
        'dependencies: for i in 0..dependencies.len() {
            let step = Step {
                from: index,
                dependency: i,
            };
            if let Some(next) = self.step_along(place, &dependencies[i]) {
                reach(spread, next, distance, Some((node, step)))?;
            }
        }
        Ok(())
    }

    /// Returns the steps of a shortest path to the package at an index, on this side, or without one on either side.
    /// Returns `None` if no path leads there, or the index is past the end. Fails if an allocation fails, or if the
    /// distances or steps are not those of a search, which is never the case.
    #[tactic(auto, using(crate::proofs::Distances::none_lead))]
    fn path_to(
        &self,
        alloc: Global,
        spread: &Spread,
        side: Option<Side>,
        to: usize,
    ) -> Result<Option<Vec<Step>>, AllocError>
        requires traversal { IsTraversalQuery self.now.traversal }
        requires near { AreNear self.now spread.now.distances.items }
        ensures shortest { IfOk result (λ found. IfSome found (λ steps. IsShortestTo self.now.packages.now
            self.now.traversal.kinds self.now.traversal.host (place self.now.at) side steps.items to)) }
        ensures none { IfOk result (λ found. IfNone found (to < length self.now.packages.now
            → IsUnreached self.now.packages.now self.now.traversal.kinds self.now.traversal.host (place self.now.at)
            side to)) }
    {
        if to >= self.packages.len() {
            return Ok(None);
        }
        if is_unreached(&spread.distances, side, to) {
            return Ok(None);
        }
        match side {
            Some(side) => {
                let steps = spread.steps_to(alloc, (to, side))?;
                if !self.is_shortest_on(&spread.distances, &steps, (to, side)) {
                    return Err(AllocError);
                }
                Ok(Some(steps))
            }
            None => {
                let nearest = spread.nearest_side(to, self.traversal.host);
                let steps = spread.steps_to(alloc, (to, nearest))?;
                if !self.is_shortest(&spread.distances, &steps, to) {
                    return Err(AllocError);
                }
                Ok(Some(steps))
            }
        }
    }

    /// Returns whether the steps lead from a root to the package, and no fewer steps do.
    fn is_shortest(&self, distances: &[usize], steps: &[Step], to: usize) -> bool
        requires traversal { IsTraversalQuery self.now.traversal }
        requires near { AreNear self.now distances.now }
        ensures path { IsTrue result → Leads self.now steps.now to }
        ensures shortest { IsTrue result → (others : Steps) → Leads self.now others to
            → length steps.now ≤ length others }
    {
        self.leads_to(steps, to) && self.is_no_nearer(distances, steps.len(), to)
    }

    /// Returns whether the steps lead from a root to the package on this side, and no fewer steps do.
    fn is_shortest_on(&self, distances: &[usize], steps: &[Step], to: Place) -> bool
        requires traversal { IsTraversalQuery self.now.traversal }
        requires near { AreNear self.now distances.now }
        ensures path { IsTrue result → IsPathOf self.now steps.now to }
        ensures shortest { IsTrue result → (others : Steps) → IsPathOf self.now others to
            → length steps.now ≤ length others }
    {
        self.leads_on(steps, to) && self.is_no_nearer_on(distances, steps.len(), to)
    }

    /// Returns whether the steps lead from a root to the package.
    fn leads_to(&self, steps: &[Step], to: usize) -> bool
        requires { IsTraversalQuery self.now.traversal }
        ensures { IsTrue result → Leads self.now steps.now to }
    {
        match self.end_of(steps, to) {
            Some((index, _)) => index == to,
            None => false,
        }
    }

    /// Returns whether the steps lead from a root to the package on this side.
    fn leads_on(&self, steps: &[Step], to: Place) -> bool
        requires { IsTraversalQuery self.now.traversal }
        ensures { IsTrue result → IsPathOf self.now steps.now to }
    {
        let (index, side) = to;
        match self.end_of(steps, index) {
            Some((end, on)) => end == index && on.is_same(side),
            None => false,
        }
    }

    /// Returns where the steps lead from a root. Without steps, the package at index `to` has to be a root.
    fn end_of(&self, steps: &[Step], to: usize) -> Option<Place>
        requires { IsTraversalQuery self.now.traversal }
        ensures { IfSome result (λ n. IsPathOf self.now steps.now n) }
    {
        let first = match steps.first() {
            Some(step) => step.from,
            None => to,
        };
        let mut place = self.start(first)?;
        'steps: for step in steps {
            place = self.go(place, *step)?;
        }
        Some(place)
    }

    /// Returns where a step from a place leads.
    fn go(&self, place: Place, step: Step) -> Option<Place>
        requires { IsTraversalQuery self.now.traversal }
        ensures { IfSome result (λ n. IsStepOf self.now step place n) }
    {
        let (index, _) = place;
        if step.from != index {
            return None;
        }
        let dependencies = dependencies_of(self.packages, index);
        if step.dependency >= dependencies.len() {
            return None;
        }
        self.step_along(place, &dependencies[step.dependency])
    }

    /// Returns whether the distances show that no fewer steps lead to the package.
    fn is_no_nearer(&self, distances: &[usize], steps: usize, to: usize) -> bool
        requires { AreNear self.now distances.now }
        ensures { IsTrue result → (others : Steps) → Leads self.now others to → steps ≤ length others }
    {
        if to >= self.packages.len() {
            return false;
        }
        if steps > distance_at(distances, (to, Side::Target)) {
            return false;
        }
        steps <= distance_at(distances, (to, Side::Host))
    }

    /// Returns whether the distances show that no fewer steps lead to the package on this side.
    fn is_no_nearer_on(&self, distances: &[usize], steps: usize, to: Place) -> bool
        requires { AreNear self.now distances.now }
        ensures { IsTrue result → (others : Steps) → IsPathOf self.now others to → steps ≤ length others }
    {
        let (index, _) = to;
        if index >= self.packages.len() {
            return false;
        }
        steps <= distance_at(distances, to)
    }

    /// Returns whether each place is at most one step farther than those before it.
    fn are_all_near(&self, distances: &[usize]) -> bool
        requires { IsTraversalQuery self.now.traversal }
        ensures { IsTrue result → AreNear self.now distances.now }
    {
        'packages: for i in 0..self.packages.len() {
            if !self.are_near(distances, (i, Side::Target)) {
                return false;
            }
            if !self.are_near(distances, (i, Side::Host)) {
                return false;
            }
        }
        true
    }

    /// Returns whether the place has the distance 0 if it is a root, and each place that its dependencies lead to is at
    /// most one step farther, and reached if the place is.
    fn are_near(&self, distances: &[usize], place: Place) -> bool
        requires { IsTraversalQuery self.now.traversal }
        ensures { IsTrue result → IsNear self.now distances.now place }
    {
        let (index, side) = place;
        let distance = distance_at(distances, place);
        if distance != 0 && self.is_start(index, side) {
            return false;
        }
        if distance == FAR - 1 {
            return false;
        }
        let most = distance.saturating_add(1);
        let dependencies = dependencies_of(self.packages, index);
        'dependencies: for i in 0..dependencies.len() {
            if !self.is_within(distances, place, &dependencies[i], most) {
                return false;
            }
        }
        true
    }

    /// Returns whether the place that a dependency leads to has at most this distance.
    fn is_within(
        &self,
        distances: &[usize],
        place: Place,
        dependency: &Dependency,
        most: usize,
    ) -> bool
        requires { IsTraversalQuery self.now.traversal }
        ensures { IsTrue result → IsWithin self.now distances.now place most dependency.now }
    {
        match self.step_along(place, dependency) {
            Some(next) => distance_at(distances, next) <= most,
            None => true,
        }
    }

    /// Returns whether the package is a root that is built for this side.
    fn is_start(&self, index: usize, side: Side) -> bool
        ensures { StartsOn self.now.packages.now (index, side) → IsTrue result }
    {
        if index >= self.packages.len() || !self.packages[index].is_root {
            return false;
        }
        Side::new(self.packages[index].is_macro).is_same(side)
    }
}

/// Returns the dependencies of the package at an index. There are none past the end.
fn dependencies_of(packages: &[Package], index: usize) -> &[Dependency]
    ensures { result.now ≡ dependencies packages.now index }
{
    match packages.get(index) {
        Some(found) => found.dependencies.as_slice(),
        None => &[],
    }
}

/// Returns the distance of a place, or 0 past the end.
fn distance_at(distances: &[usize], place: Place) -> usize
    ensures { result ≡ distance distances.now place }
{
    let (index, side) = place;
    if index > distances.len() / 2 {
        return 0;
    }
    match distances.get(node_of(index, side)) {
        Some(distance) => *distance,
        None => 0,
    }
}

/// Returns whether the package at an index was not reached on this side, or without one on either side.
fn is_unreached(distances: &[usize], side: Option<Side>, to: usize) -> bool
    ensures { IsTrue result → IsFarAway distances.now side to }
{
    match side {
        Some(side) => distance_at(distances, (to, side)) == FAR,
        None => {
            distance_at(distances, (to, Side::Target)) == FAR
                && distance_at(distances, (to, Side::Host)) == FAR
        }
    }
}

/// Records how a place was reached, unless it was reached before.
fn reach(
    spread: &mut Spread,
    place: Place,
    distance: usize,
    by: Option<(usize, Step)>,
) -> Result<(), AllocError> {
    let (index, side) = place;
    if index > spread.distances.len() / 2 {
        return Ok(());
    }
    let node = node_of(index, side);
    if node >= spread.distances.len() || node >= spread.reached_by.len() {
        return Ok(());
    }
    if spread.distances[node] != FAR {
        return Ok(());
    }
    spread.distances[node] = distance;
    spread.reached_by[node] = by;
    spread.places.push(place)?;
    Ok(())
}
