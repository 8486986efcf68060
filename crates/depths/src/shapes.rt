//! Shapes of nests: how the levels are nested.

use crate::nests::name;
use cargo_platform::{CfgExpr, Platform};
use std::alloc::{AllocError, Global};

/// A level: a negation, or a group with a name before and after its content, or without these names.
#[derive(Clone, Copy)]
enum Level {
    Not,
    All(bool, bool),
    Any(bool, bool),
}

/// The levels of each shape, which repeat from the innermost one on.
pub const SHAPES: &[Shape] = &[
    Shape(&[Level::Not]),
    Shape(&[Level::All(false, false)]),
    Shape(&[Level::Any(false, false)]),
    Shape(&[Level::All(true, false)]),
    Shape(&[Level::Any(true, false)]),
    Shape(&[Level::All(false, true)]),
    Shape(&[Level::Any(false, true)]),
    Shape(&[Level::All(true, true)]),
    Shape(&[Level::Any(true, true)]),
    Shape(&[Level::All(false, true), Level::Not]),
    Shape(&[Level::Any(true, false), Level::All(false, true)]),
    Shape(&[
        Level::Any(false, false),
        Level::All(true, true),
        Level::Not,
        Level::Any(true, false),
        Level::All(false, true),
    ]),
];

/// The name before and after the content of a level.
const BESIDE: &str = "a";

/// The innermost name.
const LEAF: &str = "unix";

/// A shape of nests: levels that are repeated, from the innermost one on.
#[derive(Clone, Copy)]
pub struct Shape(&'static [Level]);

impl Level {
    fn opening(self) -> &'static str {
        match self {
            Level::Not => "not(",
            Level::All(false, _) => "all(",
            Level::All(true, _) => "all(a, ",
            Level::Any(false, _) => "any(",
            Level::Any(true, _) => "any(a, ",
        }
    }

    fn closing(self) -> &'static str {
        match self {
            Level::Not | Level::All(_, false) | Level::Any(_, false) => ")",
            Level::All(_, true) | Level::Any(_, true) => ", a)",
        }
    }

    /// Returns the level around an expression.
    fn around(self, alloc: Global, inner: CfgExpr) -> Result<CfgExpr, AllocError> {
        match self {
            Level::Not => Ok(CfgExpr::Not(Box::new(alloc, inner)?)),
            Level::All(before, after) => Ok(CfgExpr::All(members(alloc, before, inner, after)?)),
            Level::Any(before, after) => Ok(CfgExpr::Any(members(alloc, before, inner, after)?)),
        }
    }
}

/// Returns the members of a group, with a name before and after the inner one if that is requested.
fn members(
    alloc: Global,
    before: bool,
    inner: CfgExpr,
    after: bool,
) -> Result<Vec<CfgExpr>, AllocError> {
    let mut members = Vec::with_capacity(alloc, 3)?;
    if before {
        members.push(CfgExpr::Value(name(alloc, BESIDE)?))?;
    }
    members.push(inner)?;
    if after {
        members.push(CfgExpr::Value(name(alloc, BESIDE)?))?;
    }
    Ok(members)
}

impl Shape {
    /// Returns the level at this height above the innermost one, if the shape has levels.
    fn level(self, height: usize) -> Option<Level> {
        if self.0.is_empty() {
            return None;
        }
        Some(self.0[height % self.0.len()])
    }

    /// Returns the levels, the outermost first, with `..` for the content of the innermost one.
    pub fn pattern(self, alloc: Global) -> Result<String, AllocError> {
        self.text(alloc, self.0.len(), "..")
    }

    /// Builds a condition of `levels` levels by hand.
    pub fn build(self, alloc: Global, levels: usize) -> Result<Platform, AllocError> {
        let mut expression = CfgExpr::Value(name(alloc, LEAF)?);
        for height in 0..levels {
            if let Some(level) = self.level(height) {
                expression = level.around(alloc, expression)?;
            }
        }
        Ok(Platform::Cfg(expression))
    }

    /// Returns the key, in `cfg(..)`, of a condition with this number of levels.
    pub fn key(self, alloc: Global, levels: usize) -> Result<String, AllocError> {
        let mut text = String::from_str(alloc, "cfg(")?;
        text.push_str(&self.text(alloc, levels, LEAF)?)?;
        text.push_str(")")?;
        Ok(text)
    }

    /// Returns the text of `levels` levels around another text.
    fn text(self, alloc: Global, levels: usize, inside: &str) -> Result<String, AllocError> {
        let mut text = String::new(alloc);
        for height in (0..levels).rev() {
            if let Some(level) = self.level(height) {
                text.push_str(level.opening())?;
            }
        }
        text.push_str(inside)?;
        for height in 0..levels {
            if let Some(level) = self.level(height) {
                text.push_str(level.closing())?;
            }
        }
        Ok(text)
    }
}
