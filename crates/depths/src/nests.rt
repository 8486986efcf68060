//! Conditions of many levels, and their texts.

use cargo_platform::{Cfg, CfgExpr, Ident, Platform};
use std::alloc::{AllocError, Global};

/// The position of each level in the one around it.
#[derive(Clone, Copy)]
pub enum Form {
    Not,
    Last,
    First,
}

impl Form {
    /// Returns two levels of the form, as text.
    pub fn pattern(self) -> &'static str {
        match self {
            Form::Not => "not(not(..))",
            Form::Last => "all(true, all(true, ..))",
            Form::First => "all(all(.., true), true)",
        }
    }

    fn opening(self) -> &'static str {
        match self {
            Form::Not => "not(",
            Form::Last => "all(true, ",
            Form::First => "all(",
        }
    }

    fn closing(self) -> &'static str {
        match self {
            Form::Not | Form::Last => ")",
            Form::First => ", true)",
        }
    }

    /// Returns one level around an expression.
    fn around(self, alloc: Global, inner: CfgExpr) -> Result<CfgExpr, AllocError> {
        match self {
            Form::Not => Ok(CfgExpr::Not(Box::new(alloc, inner).map_err(AllocError::from)?)),
            Form::Last => Ok(CfgExpr::All(vec![in alloc; CfgExpr::True, inner]?)),
            Form::First => Ok(CfgExpr::All(vec![in alloc; inner, CfgExpr::True]?)),
        }
    }

    /// Returns the expression in the outermost level.
    fn inside(self, e: &CfgExpr) -> Option<&CfgExpr> {
        match (e, self) {
            (CfgExpr::Not(inner), Form::Not) => Some(inner),
            (CfgExpr::All(members), Form::Last) => members.last(),
            (CfgExpr::All(members), Form::First) => members.first(),
            _ => None,
        }
    }
}

/// Returns a name without a mark.
pub fn name(alloc: Global, name: &str) -> Result<Cfg, AllocError> {
    Ok(Cfg::Name(Ident {
        name: String::from_str(alloc, name)?,
        raw: false,
    }))
}

/// Returns `levels` levels around a name.
pub fn condition(
    alloc: Global,
    form: Form,
    levels: u32,
    leaf: &str,
) -> Result<Platform, AllocError> {
    let mut expression = CfgExpr::Value(name(alloc, leaf)?);
    for _ in 0..levels {
        expression = form.around(alloc, expression)?;
    }
    Ok(Platform::Cfg(expression))
}

/// Returns whether the condition is `levels` levels around a name, without a call of the library except for the name.
pub fn is_condition(platform: &Platform, form: Form, levels: u32, leaf: &str) -> bool {
    let Platform::Cfg(expression) = platform else {
        return false;
    };
    let mut part = expression;
    for _ in 0..levels {
        let Some(inner) = form.inside(part) else {
            return false;
        };
        part = inner;
    }
    match part {
        CfgExpr::Value(Cfg::Name(found)) => found.eq_text(leaf),
        _ => false,
    }
}

/// Returns the text of `levels` levels around a name, after `cfg(` and without its last parenthesis.
pub fn open_text(alloc: Global, form: Form, levels: u32, leaf: &str) -> Result<String, AllocError> {
    let mut text = String::from_str(alloc, "cfg(")?;
    for _ in 0..levels {
        text.push_str(form.opening())?;
    }
    text.push_str(leaf)?;
    for _ in 0..levels {
        text.push_str(form.closing())?;
    }
    Ok(text)
}
