//! The targets on which each claim holds.

ghost use Rattle.std.specs.Prelude.{◌≡◌, ◌<◌, ◌↔◌, ◌++◌, ◌&&◌, ℕ, true, IsTrue, IfOk, OnOk, List, length, vec_len};
ghost use Rattle.known_targets.specs.Sets.{is_member};
ghost use Rattle.known_targets.specs.declared.table.TheConstants.{COUNT};
ghost use Rattle.package_graphs.specs.Graphs.{is_in};
ghost use Rattle.cargo_features.specs.Holding.{is_known, Holds, IsUsed};
ghost use Rattle.cargo_features.specs.Steps.{all_steps, steps_on_both};
ghost use Rattle.cargo_features.specs.Inside.Numbered.{AreNumbers, IsNumbered, AreNumbered};
ghost use Rattle.cargo_features.specs.Inside.Exact.{has, is_used, IsExact};
ghost use Rattle.cargo_features.specs.Destinations.{destination};
ghost use Rattle.cargo_features.specs.Resolved.{holds_in, is_built_with, is_using, IsResolved, IsUsing, IsUsingAny};
ghost use Rattle.package_graphs.specs.Packages.{is_same};
ghost use Rattle.cargo_features.specs.declared.claims.Claim.{Claim};
ghost use Rattle.cargo_features.specs.declared.claims.Step.{Step};

use crate::build::BuildOptions;
use crate::claims::{Claim, PackageOnSide, Step};
use crate::derivation::derive_targets;
use crate::numbers::Numbers;
use crate::packages::{Dependency, Package};
use crate::rules::Rule;
use known_targets::TargetSet;
use package_graphs::Side;
use std::alloc::{AllocError, Global};

/// The targets on which each claim holds, by the number of the claim.
#[derive(Drop)]
pub struct TargetsByClaim {
    numbers: Numbers,
    sets: Vec<TargetSet>,
}

/// Returns the rule of a step.
fn rule_of(numbers: &Numbers, packages: &[Package], build: BuildOptions, step: Step) -> Rule
    requires { AreNumbers packages.now numbers.now }
    ensures { IsNumbered packages.now build.host step result }
{
    Rule {
        first: numbers.of(packages, step.first),
        second: numbers.of(packages, step.second),
        to: numbers.of(packages, step.to),
        holds: step.condition.targets(build.host),
    }
}

/// Appends the rules of steps.
fn add_rules(
    numbers: &Numbers,
    packages: &[Package],
    build: BuildOptions,
    steps: &[Step],
    rules: &mut Vec<Rule>,
) -> Result<(), AllocError>
    requires { AreNumbers packages.now numbers.now }
    ensures { OnOk result ((before : List Step) → AreNumbered packages.now build.host before rules.old.items
        → AreNumbered packages.now build.host (before ++ steps.now) rules.new.items) }
{
    'steps: for step in steps {
        rules.push(rule_of(numbers, packages, build, *step))?;
    }
    Ok(())
}

/// Returns the rules of all steps.
fn all_rules(
    alloc: Global,
    numbers: &Numbers,
    packages: &[Package],
    build: BuildOptions,
) -> Result<Vec<Rule>, AllocError>
    requires { AreNumbers packages.now numbers.now }
    ensures { IfOk result (λ rules. AreNumbered packages.now build.host (all_steps build packages.now) rules.items) }
{
    let mut rules = Vec::new(alloc);
    'packages: for i in 0..packages.len() {
        let steps = steps_on_both(alloc, packages, build, i, &packages[i])?;
        add_rules(numbers, packages, build, &steps, &mut rules)?;
    }
    Ok(rules)
}

/// Returns the steps of the claims about a package.
fn steps_on_both(
    alloc: Global,
    packages: &[Package],
    build: BuildOptions,
    index: usize,
    unit: &Package,
) -> Result<Vec<Step>, AllocError>
    ensures { IfOk result (λ steps. steps.items ≡ steps_on_both build packages.now index unit.now) }
{
    let mut steps = Vec::new(alloc);
    let target = PackageOnSide {
        index,
        side: Side::Target,
    };
    build.add_steps_of(packages, target, unit, &mut steps)?;
    let host = PackageOnSide {
        index,
        side: Side::Host,
    };
    build.add_steps_of(packages, host, unit, &mut steps)?;
    Ok(steps)
}

/// Returns the targets on which each claim about the packages holds.
fn exact_sets(
    alloc: Global,
    packages: &[Package],
    build: BuildOptions,
) -> Result<TargetsByClaim, AllocError>
    ensures { IfOk result (λ found. IsExact build packages.now found) }
{
    let numbers = Numbers::new(alloc, packages)?;
    let rules = all_rules(alloc, &numbers, packages, build)?;
    let mut given = vec![in alloc; TargetSet::none(); numbers.count()]?;
    given[0] = TargetSet::all();
    let sets = derive_targets(alloc, given, &rules)?;
    Ok(TargetsByClaim { numbers, sets })
}

impl TargetsByClaim {
    /// Returns the targets on which a claim about the packages holds.
    fn at(&self, packages: &[Package], claim: Claim) -> TargetSet
        ensures { AreNumbers packages.now self.now.numbers
            → (k : ℕ) → k < COUNT → is_member result k ≡ has packages.now self.now claim k }
    {
        let number = self.numbers.of(packages, claim);
        if number >= self.sets.len() {
            return TargetSet::none();
        }
        self.sets[number]
    }

    /// Returns the targets on which the build uses a package, for either side.
    fn used(&self, packages: &[Package], index: usize) -> TargetSet
        ensures { AreNumbers packages.now self.now.numbers → (k : ℕ) → k < COUNT
            → is_member result k ≡ is_used packages.now self.now index k }
    {
        let target = self.at(packages, Claim::Used(index, Side::Target));
        target.union(self.at(packages, Claim::Used(index, Side::Host)))
    }
}

/// Returns for each package the targets on which a build uses it, for the target or for the host. Whatever names no
/// package, feature or dependency is ignored. Fails if an allocation fails, or if there are too many claims to number.
pub fn used_packages(
    alloc: Global,
    packages: &[Package],
    build: BuildOptions,
) -> Result<Vec<TargetSet>, AllocError>
    // Each package has a set.
    ensures count { IfOk result (λ sets. vec_len sets ≡ length packages.now) }
    // A target is in the set exactly if the package is used there, on one side or the other.
    ensures exact { IfOk result (λ sets. (p k : ℕ) → p < length packages.now → k < COUNT
        → IsTrue (is_in sets.items p k) ↔ IsUsed build packages.now k p) }
{
    let found = exact_sets(alloc, packages, build)?;
    let mut sets = Vec::new(alloc);
    'packages: for i in 0..packages.len() {
        sets.push(found.used(packages, i))?;
    }
    Ok(sets)
}

/// A build of some packages, with the targets on which each claim about them holds.
#[derive(Drop)]
pub struct Resolved {
    packages: Vec<Package>,
    build: BuildOptions,
    found: TargetsByClaim,
}

/// Returns the targets on which each claim about the packages holds. Whatever names no package, feature or dependency
/// is ignored. Fails if an allocation fails, or if there are too many claims to number.
pub fn resolve(
    alloc: Global,
    packages: Vec<Package>,
    build: BuildOptions,
) -> Result<Resolved, AllocError>
    // The result has these packages and this build.
    ensures same { IfOk result (λ resolved. IsResolved packages.items build resolved) }
    // A target is in the set of a claim exactly if steps from the request for the build lead there.
    ensures exact { IfOk result (λ resolved. (c : Claim) (k : ℕ) → is_known packages.items c ≡ true → k < COUNT
        → IsTrue (holds_in resolved c k) ↔ Holds build packages.items k c) }
{
    let found = exact_sets(alloc, &packages, build)?;
    Ok(Resolved {
        packages,
        build,
        found,
    })
}

impl Resolved {
    /// Returns the packages, in their order.
    pub fn packages(&self) -> &[Package]
        ensures { result.now ≡ self.now.packages.items }
    {
        &self.packages
    }

    /// Returns the build.
    pub fn build(&self) -> BuildOptions
        ensures { result ≡ self.now.build }
    {
        self.build
    }

    /// Returns the targets on which a claim holds.
    pub fn at(&self, claim: Claim) -> TargetSet
        // The result is the set of the claim.
        ensures { AreNumbers self.now.packages.items self.now.found.numbers
            → (k : ℕ) → k < COUNT → is_member result k ≡ holds_in self.now claim k }
    {
        self.found.at(&self.packages, claim)
    }

    /// Returns the targets on which the build uses a package, for either side.
    pub fn used(&self, index: usize) -> TargetSet
        // A target is in the set exactly if the package is used there, on one side or the other.
        ensures { AreNumbers self.now.packages.items self.now.found.numbers → (k : ℕ) → k < COUNT
            → is_member result k ≡ is_used self.now.packages.items self.now.found index k }
    {
        self.found.used(&self.packages, index)
    }

    /// Returns the targets on which a package that is used on a side is built with one of its features.
    pub fn targets_with_feature(&self, index: usize, side: Side, feature: usize) -> TargetSet
        // A target is in the set exactly if the package is used there on the side, and its feature is on.
        ensures { AreNumbers self.now.packages.items self.now.found.numbers → (k : ℕ) → k < COUNT
            → is_member result k ≡ is_built_with self.now index side feature k }
    {
        let on = Claim::Feature(index, self.build.feature_side(side), feature);
        let used = self.at(Claim::Used(index, side));
        used.intersection(self.at(on))
    }

    /// Returns the targets on which a package that is used on the side `from` uses one of its dependencies.
    fn dependency_targets_from(
        &self,
        index: usize,
        from: Side,
        place: usize,
        dependency: &Dependency,
    ) -> TargetSet
        ensures { AreNumbers self.now.packages.items self.now.found.numbers → (k : ℕ) → k < COUNT
            → is_member result k ≡ is_using self.now index from place dependency.now k }
    {
        let used = Claim::Used(index, from);
        let resolved = PackageOnSide {
            index,
            side: self.build.feature_side(from),
        };
        let end = self.build.destination(&self.packages, from, dependency);
        let targets = end.condition.targets(self.build.host);
        let on = self.at(resolved.required_claim(place, dependency, used));
        self.at(used).intersection(on.intersection(targets))
    }

    /// Returns the same targets if the dependency leads to a package that is built for the side `to`, and otherwise
    /// none.
    fn dependency_targets_along(
        &self,
        index: usize,
        from: Side,
        place: usize,
        dependency: &Dependency,
        to: Side,
    ) -> TargetSet
        ensures { AreNumbers self.now.packages.items self.now.found.numbers → (k : ℕ) → k < COUNT
            → is_member result k ≡ (is_same (destination self.now.packages.items from dependency.now).side to
            && is_using self.now index from place dependency.now k) }
    {
        let end = self.build.destination(&self.packages, from, dependency);
        if end.side.is_same(to) {
            self.dependency_targets_from(index, from, place, dependency)
        } else {
            TargetSet::none()
        }
    }

    /// Returns the targets on which the package at `index` uses its dependency at `place` that is built for the side
    /// `to`.
    pub fn dependency_targets_to(&self, index: usize, place: usize, to: Side) -> TargetSet
        // A target is in the set exactly if the package is used there on a side, and from there the dependency is
        // followed, is on if it is optional, has a true condition, and leads to a package for the side `to`.
        ensures { AreNumbers self.now.packages.items self.now.found.numbers → (k : ℕ) → k < COUNT
            → IsTrue (is_member result k) ↔ IsUsing self.now index place to k }
    {
        let Some(unit) = self.packages.get(index) else {
            return TargetSet::none();
        };
        let Some(dependency) = unit.dependencies.get(place) else {
            return TargetSet::none();
        };
        if !self.build.kinds.follows(unit.is_root, dependency.kind) {
            return TargetSet::none();
        }
        let target = self.dependency_targets_along(index, Side::Target, place, dependency, to);
        target.union(self.dependency_targets_along(index, Side::Host, place, dependency, to))
    }

    /// Returns the targets on which a package uses the dependency at an index, whichever side it leads to.
    pub fn dependency_targets(&self, index: usize, place: usize) -> TargetSet
        // A target is in the set exactly if the dependency is used there, and leads to one side or the other.
        ensures { AreNumbers self.now.packages.items self.now.found.numbers → (k : ℕ) → k < COUNT
            → IsTrue (is_member result k) ↔ IsUsingAny self.now index place k }
    {
        let target = self.dependency_targets_to(index, place, Side::Target);
        target.union(self.dependency_targets_to(index, place, Side::Host))
    }
}
