//! Parses, prints, evaluates, compares and checks the target conditions of Cargo manifests.
//!
//! The key of a `[target.KEY.dependencies]` table is the name of a target, such as `x86_64-apple-darwin`, or `cfg(..)`
//! around an expression over facts, such as `cfg(all(unix, target_os = "linux"))` (Cargo's reference, "Platform
//! specific dependencies"). The facts of a target are what `rustc --print cfg` prints. A function that allocates takes
//! the allocator first and returns a `Result`.
#![tactic(auto)]

mod asking;
pub mod cfg;
mod classes;
mod clone;
mod condition_values;
mod display;
pub mod error;
mod fact_lines;
mod facts;
mod folding;
mod in_key;
mod json;
pub mod laws;
mod matching;
mod order;
mod parentheses;
mod parser;
mod places;
mod platforms;
mod reader;
mod refusal;
mod search;
mod snippet;
mod source;
pub mod tokens;
mod warnings;

pub use asking::Asks;
pub use cfg::{Cfg, CfgExpr, CfgExprParts, FactIndex, Facts, Ident, Listed};
pub use condition_values::{ValuesWithLevels, values_of, values_with_levels};
pub use error::{ParseError, ParseErrorKind, ReadError};
pub use fact_lines::{FactsError, read_facts};
pub use folding::{Fold, fold_expression};
pub use json::JsonError;
pub use parentheses::{nesting, nesting_beyond};
pub use platforms::inside_cfg;
pub use snippet::{printable_excerpt, printable_text};
pub use tokens::{Looks, Spanned, Token, TokenFault, TokenFaultKind, Tokenizer};

/// The condition of a dependency.
#[derive(Debug, Drop)]
pub enum Platform {
    /// The name of a target, such as `x86_64-apple-darwin`.
    Name(String),
    /// An expression, written between `cfg(` and `)`.
    Cfg(CfgExpr),
}
