//! The calls of the library on bytes, with buffers of the caller, for callers that are not written in Rattle.
//!
//! Keys, names and lines of facts are passed as bytes. A call returns an `Outcome`, and writes a result that has a
//! length of its own to the beginning of a buffer, if it fits. Calls leave nothing to be released.
#![tactic(auto)]

mod batches;
mod depth;
mod fact_lines;
mod fact_texts;
mod flat;
mod keys;
mod known;
pub mod laws;
mod length_prefixed;
mod matching;
mod outcome;
mod prepared;
mod prepared_calls;
mod reading;
mod relations;
mod release;
mod trees;
mod truths;
mod unflat;

pub use batches::match_keys;
pub use depth::{MAX_FLAT_BYTES, MAX_OPEN, is_too_deep};
pub use keys::{canonical, fault_snippet, flatten_key};
pub use known::{facts, matching_targets, target_name};
pub use matching::matches;
pub use outcome::{
    DONE, NO_MEMORY, NOT_FLAT, NOT_UTF8, Outcome, REFUSED, TOO_DEEP, UNDECIDED, UNKNOWN_TARGET,
    write,
};
pub use prepared_calls::{prepare_facts, prepared_matches};
pub use relations::{Relation, can_hold, relates};
pub use release::{VERSION, version};
pub use trees::{flat_matches, flat_print};
