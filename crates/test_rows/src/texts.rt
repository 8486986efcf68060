//! Texts of rows that are known to be accepted.

use crate::Fault;
use cargo_platform::{CfgExpr, Platform, ReadError};
use std::alloc::Global;

/// Parses a text that is known to be an expression.
pub fn expression(alloc: Global, text: &str) -> Result<CfgExpr, Fault> {
    accepted(CfgExpr::from_str(alloc, text))
}

/// Parses a text that is known to be a condition or the name of a target.
pub fn platform(alloc: Global, text: &str) -> Result<Platform, Fault> {
    accepted(Platform::from_str(alloc, text))
}

/// Returns what was read from a text that is known to be accepted.
pub fn accepted<T: Drop>(read: Result<T, ReadError>) -> Result<T, Fault> {
    match read {
        Ok(value) => Ok(value),
        Err(ReadError::Parse(_)) => Err(Fault::Row("the text is refused")),
        Err(ReadError::Memory(_)) => Err(Fault::Memory),
    }
}
