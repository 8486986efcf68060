//! The conditions that the next words of a row name.

use cargo_platform::{CfgExpr, Platform};
use std::alloc::Global;
use test_rows::Fault;
use test_rows::fields::Fields;
use test_rows::texts::{self, platform};

/// Parses the next text as an expression.
pub fn expression(alloc: Global, fields: &mut Fields<'_>) -> Result<CfgExpr, Fault> {
    texts::expression(alloc, &fields.text(alloc)?)
}

/// Parses the next text as a condition or the name of a target.
pub fn key(alloc: Global, fields: &mut Fields<'_>) -> Result<Platform, Fault> {
    platform(alloc, &fields.text(alloc)?)
}
