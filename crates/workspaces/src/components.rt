//! The components of a glob, between its slashes, and what they match.

ghost use Rattle.std.specs.Prelude.{◌≡◌, ◌↔◌, IsTrue, IfOk};
ghost use Rattle.workspaces.specs.Globs.{is_any, IsOne, is_folders, IsNamedBy, IsWithin, IsInWhere};

use crate::glob_matching::{Piece, matches_pieces};
use std::alloc::{AllocError, Global};

/// The characters from one to another, inclusive.
#[derive(Clone, Copy, Drop)]
pub struct CharacterRange {
    pub first: char,
    pub last: char,
}

/// A kind of characters: those of the ranges, or all but those.
#[derive(Drop)]
pub struct Characters {
    pub ranges: Vec<CharacterRange>,
    pub are_excluded: bool,
}

impl Characters {
    /// Returns whether the character is one of these.
    pub fn contains(&self, c: char) -> bool
        ensures { IsTrue result ↔ IsInWhere self.now.are_excluded self.now.ranges.items c }
    {
        let is_within = is_within(&self.ranges, c);
        if self.are_excluded {
            !is_within
        } else {
            is_within
        }
    }
}

/// Returns whether one of the ranges contains the character.
fn is_within(ranges: &[CharacterRange], c: char) -> bool
    ensures { IsTrue result ↔ IsWithin ranges.now c }
{
    ranges
        .iter()
        .any(|range| range.first <= c && c <= range.last)
}

/// A part of a component.
#[derive(Drop)]
pub enum Part {
    /// `*`: any number of characters, also none.
    Any,
    /// One character of a kind.
    One(Characters),
}

impl Piece<char> for Part {
    ghost is_many = { is_any };

    ghost matches = { IsOne };

    fn is_many(&self) -> bool {
        match self {
            Part::Any => true,
            Part::One(_) => false,
        }
    }

    fn matches(&self, _alloc: Global, item: &char) -> Result<bool, AllocError> {
        match self {
            Part::Any => Ok(false),
            Part::One(characters) => Ok(characters.contains(*item)),
        }
    }
}

/// The name of a folder, as its characters.
pub type FolderName = Vec<char>;

/// A component of a glob.
#[derive(Drop)]
pub enum Component {
    /// `**`: any number of folders, also none.
    Folders,
    /// A folder with a name of these parts.
    Named(Vec<Part>),
}

impl Piece<Vec<char>> for Component {
    ghost is_many = { is_folders };

    ghost matches = { λ component name. IsNamedBy component name.items };

    fn is_many(&self) -> bool {
        match self {
            Component::Folders => true,
            Component::Named(_) => false,
        }
    }

    fn matches(&self, alloc: Global, item: &Vec<char>) -> Result<bool, AllocError> {
        match self {
            Component::Folders => Ok(false),
            Component::Named(parts) => matches_pieces(alloc, parts, item),
        }
    }
}
