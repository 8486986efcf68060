//! The places at which conditions are dropped.

use crate::shapes::Shape;
use cargo_platform::{CfgExpr, Platform, ReadError};
use std::alloc::{AllocError, Global};
use std::collections::BTreeMap;

/// A place at which a condition is dropped.
#[derive(Clone, Copy)]
pub enum Place {
    Scope,
    Assignment,
    List,
    Map,
    QuestionMark,
    Error,
}

/// All places.
pub const PLACES: &[Place] = &[
    Place::Scope,
    Place::Assignment,
    Place::List,
    Place::Map,
    Place::QuestionMark,
    Place::Error,
];

/// The reason why something was not done, with the condition that it was not done to.
#[derive(Drop)]
enum Undone {
    Kept(Platform),
    Memory(AllocError),
}

impl From<AllocError> for Undone {
    fn from(error: AllocError) -> Undone {
        Undone::Memory(error)
    }
}

/// The same reason without a condition, for a caller that does not need it.
#[derive(Drop)]
enum Told {
    Kept,
    Memory(AllocError),
}

impl From<Undone> for Told {
    fn from(undone: Undone) -> Told {
        match undone {
            Undone::Kept(_) => Told::Kept,
            Undone::Memory(error) => Told::Memory(error),
        }
    }
}

impl Place {
    /// Returns how the output names the place.
    pub fn name(self) -> &'static str {
        match self {
            Place::Scope => "at the end of a scope",
            Place::Assignment => "by an assignment",
            Place::List => "in a list",
            Place::Map => "in a map",
            Place::QuestionMark => "by a question mark",
            Place::Error => "in an error",
        }
    }

    /// Drops two conditions at the place. Returns whether what is seen of that is right.
    pub fn drop_both(self, alloc: Global, a: Platform, b: Platform) -> Result<bool, AllocError> {
        match self {
            Place::Scope => {
                let held = a;
                Ok(is_group(&held) && is_group(&b))
            }
            Place::Assignment => {
                let mut held = a;
                let first = is_group(&held);
                held = b;
                let second = is_group(&held);
                held = Platform::Cfg(CfgExpr::True);
                Ok(first && second && !is_group(&held))
            }
            Place::List => {
                let mut list = Vec::new(alloc);
                list.push(a)?;
                list.push(b)?;
                list.clear();
                Ok(list.is_empty())
            }
            Place::Map => {
                let mut map = BTreeMap::new(alloc);
                map.insert(1u8, a)?;
                let replaced = map.insert(1u8, b)?;
                Ok(replaced.is_some() && map.len() == 1)
            }
            Place::QuestionMark => match passed_on(a, b) {
                Ok(_) => Ok(false),
                Err(_) => Ok(true),
            },
            Place::Error => match tell(alloc, a, b) {
                Ok(()) => Ok(false),
                Err(Told::Kept) => Ok(true),
                Err(Told::Memory(error)) => Err(error),
            },
        }
    }
}

/// Returns whether the condition is a group or a negation.
fn is_group(platform: &Platform) -> bool {
    match platform {
        Platform::Cfg(CfgExpr::Not(_) | CfgExpr::All(_) | CfgExpr::Any(_)) => true,
        Platform::Cfg(_) | Platform::Name(_) => false,
    }
}

/// Passes on an allocation failure with `?`, while two conditions are held.
fn passed_on(a: Platform, b: Platform) -> Result<(Platform, Platform), AllocError> {
    let held = a;
    refused()?;
    Ok((held, b))
}

fn refused() -> Result<(), AllocError> {
    Err(AllocError)
}

/// Returns an error with a condition, which `?` converts to one without.
fn tell(alloc: Global, a: Platform, b: Platform) -> Result<(), Told> {
    let _held = b;
    kept(alloc, a)?;
    Ok(())
}

fn kept(alloc: Global, a: Platform) -> Result<(), Undone> {
    let _room = Box::new(alloc, 0u8).map_err(AllocError::from)?;
    Err(Undone::Kept(a))
}

/// Parses the condition of `levels` levels. Returns `None` if the text is rejected.
fn read(alloc: Global, shape: Shape, levels: usize) -> Result<Option<Platform>, AllocError> {
    match Platform::from_str(alloc, &shape.key(alloc, levels)?) {
        Ok(platform) => Ok(Some(platform)),
        Err(ReadError::Parse(_)) => Ok(None),
        Err(ReadError::Memory(error)) => Err(error),
    }
}

/// Makes a condition by hand, parses the same one from text, and drops both at this place. Returns whether the text is
/// accepted and what is seen of the drops is right.
pub fn drop_made_and_parsed(
    alloc: Global,
    shape: Shape,
    levels: usize,
    place: Place,
) -> Result<bool, AllocError> {
    let made = shape.build(alloc, levels)?;
    match read(alloc, shape, levels)? {
        Some(read) => place.drop_both(alloc, made, read),
        None => Ok(false),
    }
}

/// Copies a condition until an allocation fails, and drops the copies, including the part of one that was made by then.
/// Returns the number of complete copies.
pub fn copies(alloc: Global, shape: Shape, levels: usize) -> Result<usize, AllocError> {
    let original = shape.build(alloc, levels)?;
    let mut copies = Vec::with_capacity(alloc, 1_000)?;
    for _ in 0..1_000 {
        match original.clone(alloc) {
            Ok(copy) => copies.push(copy)?,
            Err(_) => return Ok(copies.len()),
        }
    }
    Ok(copies.len())
}
