//! Conditions that are true on exactly the targets of a set.

mod checked;
mod one_fact;
mod several_facts;

pub use one_fact::SingleFactConditions;
pub use several_facts::covering;
