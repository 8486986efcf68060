//! The identifiers of licences and exceptions in SPDX's licence list.
//!
//! [`licence`] and [`exception`] look an identifier up, [`is_deprecated`] says whether the list marks it as deprecated,
//! and [`nearest_licence`] and [`nearest_exception`] say which one may be meant by a misspelled one. The version of the
//! list is [`LIST_VERSION`]. `LicenseRef-..` and `DocumentRef-..` name licences outside of the list.
//!
//! A function that allocates takes the allocator first and returns a `Result`.
#![tactic(auto)]

mod identifiers;
mod nearest;
mod table;

pub use identifiers::{exception, is_deprecated, licence};
pub use nearest::{nearest_exception, nearest_licence};
pub use table::LIST_VERSION;
