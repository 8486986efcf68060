//! Helpers of the tests of several modules.

use cargo_platform::CfgExpr;
use known_targets::KnownTarget;
use std::alloc::Global;
use std::process::Abort;

/// Parses a text as an expression.
pub fn expression(rt: &impl Abort, alloc: Global, text: &str) -> CfgExpr {
    CfgExpr::from_str(alloc, text).expect(rt, text)
}

/// Returns the target with this name.
pub fn target(rt: &impl Abort, name: &str) -> KnownTarget {
    KnownTarget::by_name(name).expect(rt, name)
}
