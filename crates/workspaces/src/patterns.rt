//! Globs over the paths of folders, and their parser.

ghost use Rattle.std.specs.Prelude.{◌↔◌, IsTrue, IfOk};
ghost use Rattle.workspaces.specs.Members.{IsMatchedBy, IsMatchedBySome};

use crate::components::{CharacterRange, Characters, Component, FolderName, Part};
use crate::glob_matching::matches_pieces;
use std::alloc::{AllocError, Global};

/// A glob over the path of a folder, from the root of its workspace on.
#[derive(Drop)]
pub struct Pattern {
    pub components: Vec<Component>,
}

/// The reason why a text is not a glob.
#[derive(Clone, Copy, Debug, PartialEq, Eq, Drop)]
pub enum GlobError {
    /// Two or more `*` are adjacent, and are not `**` as a whole component.
    Stars,
    /// A `[` without its `]`.
    Bracket,
}

/// The reason why a text has no pattern.
#[derive(Drop)]
pub enum PatternError {
    GlobError(GlobError),
    Memory(AllocError),
}

impl From<AllocError> for PatternError {
    fn from(refused: AllocError) -> PatternError {
        PatternError::Memory(refused)
    }
}

/// Returns whether a text contains a wildcard of globs: `*`, `?` or `[`.
pub fn is_glob(text: &str) -> bool {
    text.contains('*') || text.contains('?') || text.contains('[')
}

/// Returns the components of a path without redundant ones: `.`, empty ones, and `..` with the one before it.
pub fn plain_components<'a>(alloc: Global, path: &'a str) -> Result<Vec<&'a str>, AllocError> {
    let mut components: Vec<&'a str> = Vec::new(alloc);
    for component in path.split('/') {
        if component.is_empty() || component == "." {
            continue;
        }
        let goes_back = match components.last() {
            Some(last) => component == ".." && *last != ".." && *last != "**",
            None => false,
        };
        if goes_back {
            let _left = components.pop();
        } else {
            components.push(component)?;
        }
    }
    Ok(components)
}

/// Returns the names of the folders in a path, without redundant components.
pub fn folder_names(alloc: Global, path: &str) -> Result<Vec<FolderName>, AllocError> {
    let mut names = Vec::new(alloc);
    for component in &plain_components(alloc, path)? {
        names.push(component.chars().collect(alloc)?)?;
    }
    Ok(names)
}

/// Returns the part that matches only this character.
fn one(alloc: Global, c: char) -> Result<Part, AllocError> {
    let mut ranges = Vec::new(alloc);
    ranges.push(CharacterRange { first: c, last: c })?;
    Ok(Part::One(Characters {
        ranges,
        are_excluded: false,
    }))
}

/// Returns the component that matches only this name.
fn named(alloc: Global, name: &str) -> Result<Component, AllocError> {
    let mut parts = Vec::new(alloc);
    for c in name.chars() {
        parts.push(one(alloc, c)?)?;
    }
    Ok(Component::Named(parts))
}

/// Returns the ranges between brackets: `a-z`, or a single character.
fn ranges_of(alloc: Global, text: &[char]) -> Result<Vec<CharacterRange>, AllocError> {
    let mut ranges = Vec::new(alloc);
    let mut next: usize = 0;
    for (at, first) in text.iter().enumerate() {
        if at < next {
            continue;
        }
        let end = at.saturating_add(2);
        let last = match (text.get(at.saturating_add(1)), text.get(end)) {
            (Some('-'), Some(last)) => Some(*last),
            _ => None,
        };
        if last.is_some() {
            next = end.saturating_add(1);
        }
        let last = last.unwrap_or(*first);
        ranges.push(CharacterRange {
            first: *first,
            last,
        })?;
    }
    Ok(ranges)
}

/// A kind of characters, and how many characters of the glob spell it.
#[derive(Drop)]
struct Bracketed {
    characters: Characters,
    length: usize,
}

/// Parses the bracket at the beginning of a text. A `]` directly after the bracket, or after `[!`, is an
/// ordinary character.
fn read_bracket(alloc: Global, text: &[char]) -> Result<Bracketed, PatternError> {
    let are_excluded = text.get(1) == Some(&'!');
    let begin: usize = if are_excluded { 2 } else { 1 };
    for (at, c) in text.iter().enumerate() {
        if *c == ']' && at > begin {
            let between = text.get(begin..at).unwrap_or(&[]);
            return Ok(Bracketed {
                characters: Characters {
                    ranges: ranges_of(alloc, between)?,
                    are_excluded,
                },
                length: at.saturating_add(1),
            });
        }
    }
    Err(PatternError::GlobError(GlobError::Bracket))
}

/// Parses a component of a glob.
fn component_of(alloc: Global, text: &str) -> Result<Component, PatternError> {
    if text == "**" {
        return Ok(Component::Folders);
    }
    if text.contains("**") {
        return Err(PatternError::GlobError(GlobError::Stars));
    }
    let text: Vec<char> = text.chars().collect(alloc)?;
    let mut parts = Vec::new(alloc);
    let mut next: usize = 0;
    for (at, c) in text.iter().enumerate() {
        if at < next {
            continue;
        }
        let part = match *c {
            '*' => Part::Any,
            '?' => Part::One(Characters {
                ranges: Vec::new(alloc),
                are_excluded: true,
            }),
            '[' => {
                let found = read_bracket(alloc, text.get(at..).unwrap_or(&[]))?;
                next = at.saturating_add(found.length);
                Part::One(found.characters)
            }
            c => one(alloc, c)?,
        };
        parts.push(part).map_err(AllocError::from)?;
    }
    Ok(Component::Named(parts))
}

impl Pattern {
    /// Parses a glob. `*` matches any characters of a name, `?` matches one, `[a-z]` matches one of some characters,
    /// and `[!a-z]` matches one of the others. `**` as a whole component matches any number of folders, and at the end
    /// at least one. Fails if the text is not a glob.
    pub fn from_str(alloc: Global, text: &str) -> Result<Pattern, PatternError> {
        let mut components = Vec::new(alloc);
        for component in &plain_components(alloc, text)? {
            components
                .push(component_of(alloc, component)?)
                .map_err(AllocError::from)?;
        }
        if let Some(Component::Folders) = components.last() {
            let mut parts = Vec::new(alloc);
            parts.push(Part::Any).map_err(AllocError::from)?;
            components
                .push(Component::Named(parts))
                .map_err(AllocError::from)?;
        }
        Ok(Pattern { components })
    }

    /// Returns the pattern that matches a folder and all folders below it. No character of the folder's path is a
    /// wildcard.
    pub fn below(alloc: Global, path: &str) -> Result<Pattern, AllocError> {
        let mut components = Vec::new(alloc);
        for component in &plain_components(alloc, path)? {
            components.push(named(alloc, component)?)?;
        }
        components.push(Component::Folders)?;
        Ok(Pattern { components })
    }

    /// Returns whether the pattern matches the path. Fails only if an allocation fails.
    pub fn matches(&self, alloc: Global, path: &[Vec<char>]) -> Result<bool, AllocError>
        ensures { IfOk result (λ b. IsTrue b ↔ IsMatchedBy self.now path.now) }
    {
        matches_pieces(alloc, &self.components, path)
    }
}

/// Returns whether one of the patterns matches the path. Fails only if an allocation fails.
pub fn some_matches(
    alloc: Global,
    patterns: &[Pattern],
    path: &[Vec<char>],
) -> Result<bool, AllocError>
    ensures { IfOk result (λ b. IsTrue b ↔ IsMatchedBySome patterns.now path.now) }
{
    for pattern in patterns {
        if pattern.matches(alloc, path)? {
            return Ok(true);
        }
    }
    Ok(false)
}
