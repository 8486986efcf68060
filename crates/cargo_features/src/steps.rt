//! The steps from claim to claim, by Cargo's rules for
//! [features](https://doc.rust-lang.org/cargo/reference/features.html).

ghost use Rattle.std.specs.Prelude.{◌≡◌, ◌++◌, OnOk, Some};
ghost use Rattle.cargo_features.specs.Steps.{required_claim, is_first_side, root_steps, active_steps, used_steps};
ghost use Rattle.cargo_features.specs.Steps.{strong_steps, weak_steps, member_steps, dependency_steps, feature_steps};
ghost use Rattle.cargo_features.specs.Steps.{turns_on, all_features, steps_of, strong_at, weak_at, named_steps};

use crate::build::BuildOptions;
use crate::claims::{Claim, Origin, PackageOnSide, Step, StepTargets, add_features, add_step_if};
use crate::packages::{Dependency, FeatureValue, Package};
use package_graphs::Side;
use std::alloc::AllocError;

/// A package on a side, and all packages.
#[derive(Clone, Copy, Drop)]
struct Unit<'a> {
    packages: &'a [Package],
    at: PackageOnSide,
    package: &'a Package,
}

/// An entry `d/g` or `d?/g` in the list of a feature.
#[derive(Clone, Copy, Drop)]
struct FeatureEntry {
    /// The claim that the feature is on.
    from: Claim,
    /// The index of the dependency `d`.
    place: usize,
    /// The index of the feature `g` of the dependency's package.
    feature: usize,
}

impl PackageOnSide {
    /// Returns the claim that has to hold for a dependency to be followed, besides the claim that follows it: an
    /// optional dependency has to be on.
    pub fn required_claim(self, place: usize, dependency: &Dependency, otherwise: Claim) -> Claim
        ensures { result ≡ required_claim self place dependency.now otherwise }
    {
        if dependency.is_optional {
            Claim::Dependency(self.index, self.side, place)
        } else {
            otherwise
        }
    }
}

/// Returns whether a package is a root that is built for this side.
fn is_first_side(side: Side, unit: &Package) -> bool
    ensures { result ≡ is_first_side side unit.now }
{
    match side {
        Side::Target => unit.is_root && !unit.is_macro,
        Side::Host => unit.is_root && unit.is_macro,
    }
}

/// Appends a step to the feature of a dependency's name, if there is one.
fn add_named(
    steps: &mut Vec<Step>,
    origin: Origin,
    at: PackageOnSide,
    named: Option<usize>,
) -> Result<(), AllocError>
    ensures { OnOk result (steps.new.items
        ≡ steps.old.items ++ named_steps origin.is_there at origin.from origin.condition named) }
{
    match named {
        Some(named) => {
            let own = Claim::Feature(at.index, at.side, named);
            add_step_if(
                steps,
                origin.is_there,
                Step::from_one(origin.from, own, origin.condition),
            )
        }
        None => Ok(()),
    }
}

impl BuildOptions {
    /// Appends the steps of a root: it is active, with the features that are requested of it, and it is used.
    fn root(
        self,
        at: PackageOnSide,
        unit: &Package,
        steps: &mut Vec<Step>,
    ) -> Result<(), AllocError>
        ensures { OnOk result (steps.new.items ≡ steps.old.items ++ root_steps self at unit.now) }
    {
        let begins = self.begins_on(at.side, unit);
        let active = Claim::Active(at.index, at.side);
        add_step_if(
            steps,
            begins,
            Step::from_one(Claim::Requested, active, StepTargets::Always),
        )?;
        let origin = Origin {
            is_there: begins,
            from: Claim::Requested,
            condition: StepTargets::Always,
        };
        add_features(steps, origin, at, &unit.requested)?;
        let used = Claim::Used(at.index, at.side);
        let step = Step::from_one(Claim::Requested, used, StepTargets::Always);
        add_step_if(steps, is_first_side(at.side, unit), step)?;
        Ok(())
    }

    /// Appends the steps by which an active package makes the package of a dependency active, with the features that
    /// this requests.
    fn active(
        self,
        unit: Unit<'_>,
        place: usize,
        dependency: &Dependency,
        steps: &mut Vec<Step>,
    ) -> Result<(), AllocError>
        ensures { OnOk result (steps.new.items
            ≡ steps.old.items ++ active_steps self unit.entry.packages.now unit.entry.at unit.entry.package.now place
            dependency.now) }
    {
        let counts = self.considers(unit.package, dependency);
        let from = unit.at.required_claim(
            place,
            dependency,
            Claim::Active(unit.at.index, unit.at.side),
        );
        let end = self.feature_destination(unit.packages, unit.at.side, dependency);
        let active = Claim::Active(dependency.to, end.side);
        add_step_if(steps, counts, Step::from_one(from, active, end.condition))?;
        let on = PackageOnSide {
            index: dependency.to,
            side: end.side,
        };
        let origin = Origin {
            is_there: counts,
            from,
            condition: end.condition,
        };
        add_features(steps, origin, on, &dependency.features)?;
        Ok(())
    }

    /// Appends the step by which a package that is used uses the package of a dependency.
    fn used(
        self,
        unit: Unit<'_>,
        place: usize,
        dependency: &Dependency,
        steps: &mut Vec<Step>,
    ) -> Result<(), AllocError>
        ensures { OnOk result (steps.new.items
            ≡ steps.old.items ++ used_steps self unit.entry.packages.now unit.entry.at unit.entry.package.now place
            dependency.now) }
    {
        let is_followed = self.kinds.follows(unit.package.is_root, dependency.kind);
        let used = Claim::Used(unit.at.index, unit.at.side);
        let resolved = PackageOnSide {
            index: unit.at.index,
            side: self.feature_side(unit.at.side),
        };
        let end = self.destination(unit.packages, unit.at.side, dependency);
        let step = Step {
            first: used,
            second: resolved.required_claim(place, dependency, used),
            to: Claim::Used(dependency.to, end.side),
            condition: end.condition,
        };
        add_step_if(steps, is_followed, step)
    }

    /// Returns whether a dependency can be turned on.
    fn turns_on(self, unit: &Package, dependency: &Dependency) -> bool
        ensures { result ≡ turns_on self unit.now dependency.now }
    {
        self.considers(unit, dependency) && dependency.is_optional
    }

    /// Appends the steps of `d/g` in the list of a feature. It turns on the feature `g` of the dependency's package
    /// and, if the dependency is optional, the dependency itself with the feature of its name.
    fn strong_at(
        self,
        unit: Unit<'_>,
        entry: FeatureEntry,
        dependency: &Dependency,
        steps: &mut Vec<Step>,
    ) -> Result<(), AllocError>
        ensures { OnOk result (steps.new.items ≡ steps.old.items
            ++ strong_at self unit.entry.packages.now unit.entry.at unit.entry.package.now entry.from entry.place
            entry.feature (Some dependency.now)) }
    {
        let counts = self.considers(unit.package, dependency);
        let end = self.feature_destination(unit.packages, unit.at.side, dependency);
        let theirs = Claim::Feature(dependency.to, end.side, entry.feature);
        add_step_if(
            steps,
            counts,
            Step::from_one(entry.from, theirs, end.condition),
        )?;
        let turns_on = self.turns_on(unit.package, dependency);
        let on = Claim::Dependency(unit.at.index, unit.at.side, entry.place);
        let origin = Origin {
            is_there: turns_on,
            from: entry.from,
            condition: end.condition,
        };
        add_step_if(
            steps,
            turns_on,
            Step::from_one(entry.from, on, end.condition),
        )?;
        add_named(steps, origin, unit.at, dependency.named)?;
        Ok(())
    }

    /// Appends the steps of `d/g` for the dependency at an index, or none if there is no such dependency.
    fn strong(
        self,
        unit: Unit<'_>,
        entry: FeatureEntry,
        steps: &mut Vec<Step>,
    ) -> Result<(), AllocError>
        ensures { OnOk result (steps.new.items
            ≡ steps.old.items ++ strong_steps self unit.entry.packages.now unit.entry.at unit.entry.package.now
            entry.from entry.place entry.feature) }
    {
        if entry.place >= unit.package.dependencies.len() {
            return Ok(());
        }
        let dependency = &unit.package.dependencies[entry.place];
        self.strong_at(unit, entry, dependency, steps)?;
        Ok(())
    }

    /// Appends the step of `d?/g` in the list of a feature. It turns on the feature `g` of the dependency's package if
    /// an optional dependency is on.
    fn weak_at(
        self,
        unit: Unit<'_>,
        entry: FeatureEntry,
        dependency: &Dependency,
        steps: &mut Vec<Step>,
    ) -> Result<(), AllocError>
        ensures { OnOk result (steps.new.items ≡ steps.old.items
            ++ weak_at self unit.entry.packages.now unit.entry.at unit.entry.package.now entry.from entry.place
            entry.feature (Some dependency.now)) }
    {
        let counts = self.considers(unit.package, dependency);
        let end = self.feature_destination(unit.packages, unit.at.side, dependency);
        let step = Step {
            first: entry.from,
            second: unit.at.required_claim(entry.place, dependency, entry.from),
            to: Claim::Feature(dependency.to, end.side, entry.feature),
            condition: end.condition,
        };
        add_step_if(steps, counts, step)?;
        Ok(())
    }

    /// Appends the step of `d?/g` for the dependency at an index, or none if there is no such dependency.
    fn weak(
        self,
        unit: Unit<'_>,
        entry: FeatureEntry,
        steps: &mut Vec<Step>,
    ) -> Result<(), AllocError>
        ensures { OnOk result (steps.new.items
            ≡ steps.old.items ++ weak_steps self unit.entry.packages.now unit.entry.at unit.entry.package.now
            entry.from entry.place entry.feature) }
    {
        if entry.place >= unit.package.dependencies.len() {
            return Ok(());
        }
        let dependency = &unit.package.dependencies[entry.place];
        self.weak_at(unit, entry, dependency, steps)?;
        Ok(())
    }

    /// Appends the steps by which a feature that is on turns on an entry of its list.
    fn member(
        self,
        unit: Unit<'_>,
        from: Claim,
        member: FeatureValue,
        steps: &mut Vec<Step>,
    ) -> Result<(), AllocError>
        ensures { OnOk result (steps.new.items
            ≡ steps.old.items ++ member_steps self unit.entry.packages.now unit.entry.at unit.entry.package.now from
            member) }
    {
        match member {
            FeatureValue::Feature(feature) => {
                let to = Claim::Feature(unit.at.index, unit.at.side, feature);
                add_step_if(steps, true, Step::from_one(from, to, StepTargets::Always))
            }
            FeatureValue::Dependency(place) => {
                let to = Claim::Dependency(unit.at.index, unit.at.side, place);
                add_step_if(steps, true, Step::from_one(from, to, StepTargets::Always))
            }
            FeatureValue::Strong(place, feature) => {
                let entry = FeatureEntry {
                    from,
                    place,
                    feature,
                };
                self.strong(unit, entry, steps)
            }
            FeatureValue::Weak(place, feature) => {
                let entry = FeatureEntry {
                    from,
                    place,
                    feature,
                };
                self.weak(unit, entry, steps)
            }
        }
    }

    /// Appends the steps of a package's dependencies.
    fn dependencies(self, unit: Unit<'_>, steps: &mut Vec<Step>) -> Result<(), AllocError>
        ensures { OnOk result (steps.new.items ≡ steps.old.items ++ dependency_steps self unit.entry.packages.now
            unit.entry.at unit.entry.package.now) }
    {
        'dependencies: for i in 0..unit.package.dependencies.len() {
            let dependency = &unit.package.dependencies[i];
            self.active(unit, i, dependency, steps)?;
            self.used(unit, i, dependency, steps)?;
        }
        Ok(())
    }

    /// Appends the steps of one feature, which is given by its index and its list.
    fn feature(
        self,
        unit: Unit<'_>,
        place: usize,
        members: &[FeatureValue],
        steps: &mut Vec<Step>,
    ) -> Result<(), AllocError>
        ensures { OnOk result (steps.new.items
            ≡ steps.old.items ++ feature_steps self unit.entry.packages.now unit.entry.at unit.entry.package.now place
            members.now) }
    {
        let from = Claim::Feature(unit.at.index, unit.at.side, place);
        'members: for member in members {
            self.member(unit, from, *member, steps)?;
        }
        Ok(())
    }

    /// Appends the steps of all features of a package.
    fn features(self, unit: Unit<'_>, steps: &mut Vec<Step>) -> Result<(), AllocError>
        ensures { OnOk result (steps.new.items ≡ steps.old.items ++ all_features self unit.entry.packages.now
            unit.entry.at unit.entry.package.now) }
    {
        'features: for i in 0..unit.package.features.len() {
            let members = &unit.package.features[i];
            self.feature(unit, i, members, steps)?;
        }
        Ok(())
    }

    /// Appends all steps of the claims about a package on a side.
    pub fn add_steps_of(
        self,
        packages: &[Package],
        at: PackageOnSide,
        unit: &Package,
        steps: &mut Vec<Step>,
    ) -> Result<(), AllocError>
        ensures { OnOk result (steps.new.items ≡ steps.old.items ++ steps_of self packages.now at unit.now) }
    {
        self.root(at, unit, steps)?;
        let unit = Unit {
            packages,
            at,
            package: unit,
        };
        self.dependencies(unit, steps)?;
        self.features(unit, steps)?;
        Ok(())
    }
}
