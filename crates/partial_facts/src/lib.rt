//! Evaluates conditions for a target of which only some facts are known: what is decided already, and what remains to
//! be decided.
//!
//! A licence audit covers many targets at once, and a build planner evaluates conditions before features or custom cfgs
//! are known. A `Knowledge` says what is known of the facts of a target. `decide` returns the truth of an expression if
//! that follows from it, in Kleene's strong three-valued logic. `residual` returns the expression without what is
//! known: its partial evaluation.
#![tactic(auto)]

mod knowledge;
pub mod laws;
pub mod names;
mod one_valued;
mod platforms;
mod residuals;
mod three_valued;

pub use knowledge::{Complete, Knowledge, Partial};
pub use one_valued::{ONE_VALUED, OneValued};
pub use platforms::{decide_platform, residual_platform};
pub use residuals::residual;
pub use three_valued::decide;
