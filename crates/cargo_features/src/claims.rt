//! Claims about packages, and the steps from claims to other claims.

ghost use Rattle.std.specs.Prelude.{◌≡◌, ◌<◌, ◌++◌, ℕ, OnOk, flat_map};
ghost use Rattle.known_targets.specs.Sets.{is_member};
ghost use Rattle.known_targets.specs.declared.table.TheConstants.{COUNT};
ghost use Rattle.cargo_features.specs.Claims.{holds_at};
ghost use Rattle.cargo_features.specs.Steps.{one, when, to_feature};

use known_targets::{KnownTarget, TargetSet};
use package_graphs::Side;
use std::alloc::AllocError;

/// A claim about a package, which is given by its index, on a side.
#[derive(Clone, Copy, Drop)]
pub enum Claim {
    /// The build is requested.
    Requested,
    /// The package is active: the feature resolver reaches it.
    Active(usize, Side),
    /// The build uses the package.
    Used(usize, Side),
    /// The package's feature at this index is on.
    Feature(usize, Side, usize),
    /// The package's optional dependency at this index is on.
    Dependency(usize, Side, usize),
}

/// A package by its index, on a side.
#[derive(Clone, Copy, Drop)]
pub struct PackageOnSide {
    pub index: usize,
    pub side: Side,
}

/// The targets on which a step applies.
#[derive(Clone, Copy, Drop)]
pub enum StepTargets {
    Always,
    /// On the targets of the set.
    OfTarget(TargetSet),
    /// On every target if the host is in the set, and otherwise on none.
    OfHost(TargetSet),
}

/// A step from two claims to another one, under a condition. A step from one claim names it twice.
#[derive(Clone, Copy, Drop)]
pub struct Step {
    pub first: Claim,
    pub second: Claim,
    pub to: Claim,
    pub condition: StepTargets,
}

/// The claim and the condition from which steps start. If `is_there` is false, there are no steps.
#[derive(Clone, Copy, Drop)]
pub struct Origin {
    pub is_there: bool,
    pub from: Claim,
    pub condition: StepTargets,
}

impl Step {
    /// Returns a step from one claim.
    pub fn from_one(first: Claim, to: Claim, condition: StepTargets) -> Step
        ensures { result ≡ one first to condition }
    {
        Step {
            first,
            second: first,
            to,
            condition,
        }
    }
}

impl StepTargets {
    /// Returns the targets on which a step with this condition applies.
    pub fn targets(self, host: KnownTarget) -> TargetSet
        ensures { (k : ℕ) → k < COUNT → is_member result k ≡ holds_at host k self }
    {
        match self {
            StepTargets::Always => TargetSet::all(),
            StepTargets::OfTarget(set) => set,
            StepTargets::OfHost(set) => {
                if set.contains(host) {
                    TargetSet::all()
                } else {
                    TargetSet::none()
                }
            }
        }
    }
}

/// Appends a step if `is_there`.
pub fn add_step_if(steps: &mut Vec<Step>, is_there: bool, step: Step) -> Result<(), AllocError>
    ensures { OnOk result (steps.new.items ≡ steps.old.items ++ when is_there step) }
{
    if is_there {
        steps.push(step)?;
    }
    Ok(())
}

/// Appends steps to each of some features of a package.
pub fn add_features(
    steps: &mut Vec<Step>,
    origin: Origin,
    on: PackageOnSide,
    features: &[usize],
) -> Result<(), AllocError>
    ensures { OnOk result (steps.new.items
        ≡ steps.old.items ++ flat_map (to_feature origin.is_there origin.from on origin.condition) features.now) }
{
    'features: for feature in features {
        let to = Claim::Feature(on.index, on.side, *feature);
        add_step_if(
            steps,
            origin.is_there,
            Step::from_one(origin.from, to, origin.condition),
        )?;
    }
    Ok(())
}
