//! Writes HTML pages from fixed markup and arbitrary texts.
//!
//! No text begins a tag or an entity, or ends the value of an attribute: each character that could is written as an
//! entity. Markup is a `&'static str`, so that no text that was read can be passed for it. A function that allocates
//! takes the allocator first and returns a `Result`.
#![tactic(auto)]

mod escaping;
pub mod laws;
mod page;

pub use escaping::escaped;
pub use page::Page;
