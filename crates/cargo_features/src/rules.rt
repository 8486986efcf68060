//! Rules over facts, which are numbers from 0 on.

use known_targets::TargetSet;

/// A rule: on its targets, a fact follows from two others. A rule with one premise names it twice.
#[derive(Clone, Copy, Drop)]
pub struct Rule {
    pub first: usize,
    pub second: usize,
    /// The fact that follows.
    pub to: usize,
    /// The targets on which the rule applies.
    pub holds: TargetSet,
}
