//! Parses and prints SPDX licence expressions, such as the field `license` of a Cargo manifest has, and decides whether
//! a list of allowed licences satisfies them.
//!
//! The grammar is that of the annex "SPDX license expressions" of the SPDX specification 2.3, to which Cargo's
//! reference refers for the field, together with the older `/` for `OR`. An expression keeps its parts in one list,
//! from left to right, so that no call needs stack for the depth or the length of a text. A function that allocates
//! takes the allocator first and returns a `Result`.
#![tactic(auto)]

mod allowed;
mod display;
mod error;
mod expression;
pub mod laws;
mod reader;
mod single;
mod tokens;
mod words;

pub use error::{Expected, Found, ParseError, ReadError};
pub use expression::LicenceExpression;

/// One licence of an expression.
#[derive(Debug, Drop)]
pub struct Licence {
    /// The identifier of the licence as it was written, without `+`: one of the SPDX list, any other name,
    /// `LicenseRef-..` or `DocumentRef-..:LicenseRef-..`.
    pub id: String,
    /// Whether `+` follows it: this version or any later one.
    pub or_later: bool,
    /// The identifier of the exception after `WITH`.
    pub exception: Option<String>,
}

/// A part of an expression.
#[derive(Debug, Drop)]
pub enum Part {
    /// A licence.
    Licence(Licence),
    /// `AND`.
    And,
    /// `OR`.
    Or,
    /// `(`.
    Open,
    /// `)`.
    Close,
}
