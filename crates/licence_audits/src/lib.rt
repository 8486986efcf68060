//! Audits the licences of packages over a list of allowed licences. An audit reports the packages whose licence the
//! list does not satisfy, those that have no licence text, and those whose text is not a licence expression.
//!
//! A function that allocates takes the allocator first and returns a `Result`.
#![tactic(auto)]

mod additions;
mod audits;
mod findings;
mod subjects;
mod uses;

pub use audits::{PackageFinding, audit};
pub use findings::{Finding, judge};
pub use subjects::{Exception, PackageSpec, Subject};
pub use uses::{is_unused_entry, is_unused_exception};
