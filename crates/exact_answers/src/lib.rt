//! Exact answers on conditions over a target that is known only in part: whether an expression can be true, must be
//! true, implies another one, is equivalent to it, or excludes it.
//!
//! `partial_facts` takes each name and pair by itself, so that `any(loom, not(loom))` stays unknown. Here the answers
//! are exact: where three-valued logic does not decide, an open pair is taken as a fact, and then as not one. The worst
//! case takes `2^n - 1` such splits for `n` open names and pairs; a budget bounds them. A query that takes many splits
//! is also tried by a decision diagram.
#![tactic(auto)]

mod assuming;
mod diagram;
mod expressions;
mod fact_constraints;
pub mod goal_diagrams;
pub mod laws;
mod opening;
mod outlook;
mod path;
mod platforms;
mod search;

pub use expressions::{
    CanHold, MustHold, always, can_hold, equivalent, excludes, has_possible_facts, implies,
};
pub use fact_constraints::{FAMILY_RULE, FactConstraints, family_rule};
pub use partial_facts::ONE_VALUED;
pub use platforms::{
    PossibleTarget, Satisfiability, Validity, always_platform, can_hold_platform,
    equivalent_platform, excludes_platform, implies_platform,
};
