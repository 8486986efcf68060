//! Errors that are made by hand, and the parts of an expression.

use cargo_platform::{CfgExpr, CfgExprParts, ParseError, ParseErrorKind};
use std::alloc::{AllocError, Global};
use test_rows::Fault;
use test_rows::fields::Fields;
use test_rows::forms::{self, add_error, add_tree, tree, word};
use test_rows::texts::expression;

/// Returns the answer to a row whose words are `fields`. `call` is the part of its kind after the dot.
pub fn answer(alloc: Global, call: &str, fields: &mut Fields<'_>) -> Result<String, Fault> {
    let text = fields.text(alloc)?;
    match call {
        "error" => made(alloc, &text, ParseErrorKind::UnterminatedString),
        "error-left" => {
            let left = fields.text(alloc)?;
            made(alloc, &text, ParseErrorKind::UnterminatedExpression(left))
        }
        "parts" => Ok(parts(alloc, expression(alloc, &text)?)?),
        _ => Err(Fault::Row("there is no such kind")),
    }
}

/// Returns what an error that is made by hand says.
fn made(alloc: Global, text: &str, kind: ParseErrorKind) -> Result<String, Fault> {
    let error = ParseError::new(alloc, text, kind)?;
    let mut out = word(alloc, "made")?;
    add_error(alloc, &mut out, &error, text)?;
    Ok(out)
}

/// Returns the trees into which an expression is taken apart.
fn parts(alloc: Global, e: CfgExpr) -> Result<String, AllocError> {
    match e.into_parts() {
        CfgExprParts::Not(negated) => tree(alloc, &Box::into_inner(negated)),
        CfgExprParts::All(members) | CfgExprParts::Any(members) => {
            let mut out = word(alloc, "members")?;
            for member in &members {
                out.push(' ')?;
                add_tree(&mut out, member)?;
            }
            Ok(out)
        }
        CfgExprParts::Value(value) => forms::values(alloc, &[value]),
        CfgExprParts::True | CfgExprParts::False => word(alloc, "none"),
    }
}
