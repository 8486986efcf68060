//! The reports of `graph` on a whole graph: audits of licences, what changed since an older answer, bills of
//! materials, and an HTML page.
#![tactic(auto)]

mod against;
mod components;
pub mod cyclonedx_report;
mod dates;
mod dependency_paths;
mod excluded;
mod faults;
mod identifiers;
mod licence_audit;
mod licence_lines;
mod licence_report;
mod page;
mod policies;
mod unused;

pub use against::{failing_changes, show_changes};
pub use excluded::exclude;
use graph_queries::{graph, lines, packages, query};
pub use licence_audit::{Audit, findings_in, show_licences};
pub use page::page_of;
pub use policies::{AuditPolicy, GivenPolicy, GraphNames, arguments_by_policy, policy_of};
