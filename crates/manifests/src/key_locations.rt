//! The places at which the text of a manifest spells names: the keys of `target`, and the other names on which `lint`
//! reports.
//!
//! The manifest is already parsed. This pass goes through the text once more with the toolchain's readers of names and
//! values, which skip strings, comments and numbers. It stops at anything unexpected, and the names that it has not
//! reached have no place.

use crate::parts::{DocumentPart, child_path, path_of_key};
use std::alloc::{AllocError, AllocFailed, Global};
use std::collections::BTreeMap;
use std::mem;
use std::ops::ControlFlow;
use toml_parser::text::{first, skip, skip_blank, skip_ws};
use toml_parser::{ParseError, quoted, starts_string, unquoted};
use toml_spans::{Cursor, Position, Span, name_at_front};

/// The place at which a text spells a name.
#[derive(Clone, Copy, Debug, PartialEq, Eq, Drop)]
pub struct Location {
    /// The bytes that spell the name, with its quotes.
    pub span: Span,
    /// The line, counted from 1.
    pub line: usize,
    /// The column of the first character, counted in characters from 1.
    pub column: usize,
}

/// The position at which a key of `target` first appears.
#[derive(Clone, Copy, Debug, PartialEq, Eq, Drop)]
pub struct FirstOccurrence {
    /// The number of keys that appear before it.
    pub place: usize,
    /// The place at which the text spells the key.
    pub at: Location,
}

/// The text of a manifest, and the places at which it first spells names.
#[derive(Drop)]
pub struct SourceMap {
    /// The text, or the empty text if it was not gone through.
    pub text: String,
    /// The place of `target` itself.
    pub target: Option<Location>,
    keys: BTreeMap<String, FirstOccurrence>,
    /// The places of other names, by their paths.
    others: BTreeMap<String, Location>,
    /// The later places of keys that the text spells more than once, by the keys.
    keys_again: BTreeMap<String, Vec<Location>>,
    /// The later places of such other names, by their paths.
    others_again: BTreeMap<String, Vec<Location>>,
}

/// An open array or inline table.
#[derive(Drop)]
enum OpenValue {
    /// An array, with the number of elements before the next one.
    Array(DocumentPart, usize),
    Inline(DocumentPart),
}

/// A pass through a text, with the places that were found so far.
#[derive(Drop)]
struct Walk<'a> {
    alloc: Global,
    cursor: Cursor<'a>,
    locations: SourceMap,
    open: Vec<OpenValue>,
    /// The table of the last header.
    within: DocumentPart,
    /// True if the document is no manifest, and each name and each element is recorded.
    records_all: bool,
}

/// The value that a key has, and the place of the last name of the key.
#[derive(Drop)]
struct Named {
    within: DocumentPart,
    last: Location,
}

/// The reason why a pass stops before the text ends.
#[derive(Drop)]
enum Stop {
    Unexpected,
    Memory,
}

impl From<AllocError> for Stop {
    fn from(_: AllocError) -> Stop {
        Stop::Memory
    }
}

impl From<AllocFailed<OpenValue>> for Stop {
    fn from(_: AllocFailed<OpenValue>) -> Stop {
        Stop::Memory
    }
}

impl From<ParseError> for Stop {
    fn from(error: ParseError) -> Stop {
        match error {
            ParseError::OutOfMemory => Stop::Memory,
            ParseError::At(_, _, _) => Stop::Unexpected,
        }
    }
}

/// Returns the whole document: one that is no manifest, if each name is recorded.
fn top_of(alloc: Global, records_all: bool) -> DocumentPart {
    if records_all {
        DocumentPart::foreign(alloc)
    } else {
        DocumentPart::top(alloc)
    }
}

/// Returns a copy of places, if there are any.
fn copied(alloc: Global, locations: Option<&Vec<Location>>) -> Result<Vec<Location>, AllocError> {
    match locations {
        Some(locations) => locations.clone(),
        None => Ok(Vec::new(alloc)),
    }
}

/// Adds a later place of a name.
fn note_again(
    again: &mut BTreeMap<String, Vec<Location>>,
    alloc: Global,
    name: &str,
    at: Location,
) -> Result<(), AllocError> {
    if let Some(locations) = again.get_mut(name) {
        locations.push(at)?;
        return Ok(());
    }
    let mut locations = Vec::new(alloc);
    locations.push(at)?;
    let _none = again.insert(String::from_str(alloc, name)?, locations)?;
    Ok(())
}

impl SourceMap {
    /// Returns the places in the text of a manifest. Fails if an allocation fails.
    pub fn of(alloc: Global, text: &str) -> Result<SourceMap, AllocError> {
        SourceMap::walked(alloc, text, false)
    }

    /// Returns the places of all names in the text of a document that is no manifest, such as a policy, and of elements
    /// of its arrays. `location_of_path` has them all: a text has its own place, and a table after `[[..]]` that of
    /// its header. Fails if an allocation fails.
    pub fn of_all(alloc: Global, text: &str) -> Result<SourceMap, AllocError> {
        SourceMap::walked(alloc, text, true)
    }

    /// Returns the places in a text: of all names, or of those on which `lint` reports.
    fn walked(alloc: Global, text: &str, records_all: bool) -> Result<SourceMap, AllocError> {
        let mut walk = Walk {
            alloc,
            cursor: Cursor::new(text),
            locations: SourceMap::none(alloc),
            open: Vec::new(alloc),
            within: top_of(alloc, records_all),
            records_all,
        };
        'steps: for _ in 0..text.len() {
            match walk.step() {
                Ok(ControlFlow::Continue(())) => {}
                Ok(ControlFlow::Break(())) | Err(Stop::Unexpected) => break,
                Err(Stop::Memory) => return Err(AllocError),
            }
        }
        let mut locations = walk.locations;
        locations.text = String::from_str(alloc, text)?;
        Ok(locations)
    }

    /// Returns an empty text, and no places.
    pub fn none(alloc: Global) -> SourceMap {
        SourceMap {
            text: String::new(alloc),
            target: None,
            keys: BTreeMap::new(alloc),
            others: BTreeMap::new(alloc),
            keys_again: BTreeMap::new(alloc),
            others_again: BTreeMap::new(alloc),
        }
    }

    /// Returns the position at which a key of `target` first appears, if it is known.
    pub fn appearance_of(&self, key: &str) -> Option<FirstOccurrence> {
        self.keys.get(key).copied()
    }

    /// Returns the place of a key of `target`, if it is known. `location_in_key` also checks it against the text.
    pub fn location_of_key(&self, key: &str) -> Option<Location> {
        match self.appearance_of(key) {
            Some(appearance) => Some(appearance.at),
            None => None,
        }
    }

    /// Returns the number of keys of `target` that appear before this one, or `usize::MAX` if the key has no place.
    pub fn ordinal_of(&self, key: &str) -> usize {
        match self.appearance_of(key) {
            Some(appearance) => appearance.place,
            None => usize::MAX,
        }
    }

    /// Returns the place of the name at a path, as `key_path` writes it, if it is recorded. These names are recorded:
    ///
    /// - at the top, those that begin with `cfg(`, names of known targets, `dev_dependencies` and `build_dependencies`,
    ///   and others of 5 to 7 bytes;
    /// - `workspace.target` and `package.target`;
    /// - in the dependency tables of the package and in `workspace.dependencies`, `target` and those that begin with
    ///   `cfg(`;
    /// - the table `manifest-check` of the metadata, and its fields; and a table `manifest_check` there.
    ///
    /// An entry of such a field has its index as the last part of its path. The place of an entry that is a table is
    /// that of its `code`.
    pub fn location_of_path(&self, path: &str) -> Option<Location> {
        self.others.get(path).copied()
    }

    /// Returns the later places of a key of `target`, in the order of the text. Fails if an allocation fails.
    pub fn later_locations_of_key(
        &self,
        alloc: Global,
        key: &str,
    ) -> Result<Vec<Location>, AllocError> {
        copied(alloc, self.keys_again.get(key))
    }

    /// Returns the later places of the name at a path, in the order of the text, if they are recorded. Fails if an
    /// allocation fails.
    pub fn later_locations_of_path(
        &self,
        alloc: Global,
        path: &str,
    ) -> Result<Vec<Location>, AllocError> {
        copied(alloc, self.others_again.get(path))
    }

    /// Returns the number of later places of the name at a path.
    fn count_again(&self, path: &str) -> usize {
        match self.others_again.get(path) {
            Some(locations) => locations.len(),
            None => 0,
        }
    }

    /// Returns the path of a field of a key of `target`. Fails if an allocation fails.
    pub fn path_of_field(
        &self,
        alloc: Global,
        key: &str,
        field: &str,
    ) -> Result<String, AllocError> {
        let path = path_of_key(alloc, self.ordinal_of(key))?;
        child_path(alloc, path.as_str(), field)
    }

    /// Returns the place of a field of a key of `target`, if it is known. Fails if an allocation fails.
    pub fn location_of_field(
        &self,
        alloc: Global,
        key: &str,
        field: &str,
    ) -> Result<Option<Location>, AllocError> {
        let path = self.path_of_field(alloc, key, field)?;
        Ok(self.location_of_path(path.as_str()))
    }

    /// Records a place of a key of `target`.
    fn note_key(&mut self, alloc: Global, key: &str, at: Location) -> Result<(), AllocError> {
        if self.keys.get(key).is_some() {
            return note_again(&mut self.keys_again, alloc, key, at);
        }
        let place = self.keys.len();
        let key = String::from_str(alloc, key)?;
        let _none = self.keys.insert(key, FirstOccurrence { place, at })?;
        Ok(())
    }

    /// Records a place of another name, unless it is the first one that is recorded.
    fn note_other(&mut self, alloc: Global, path: &str, at: Location) -> Result<(), AllocError> {
        match self.location_of_path(path) {
            Some(first) if first == at => Ok(()),
            Some(_) => note_again(&mut self.others_again, alloc, path, at),
            None => {
                let path = String::from_str(alloc, path)?;
                let _none = self.others.insert(path, at)?;
                Ok(())
            }
        }
    }

    /// Records the place of a name in a table, if it is one of those on which `lint` reports. `inside` is its value,
    /// which is given its path if it is a key of `target`.
    fn note(
        &mut self,
        alloc: Global,
        within: &DocumentPart,
        name: &str,
        inside: &mut DocumentPart,
        at: Location,
    ) -> Result<(), AllocError> {
        if within.is_target() {
            self.note_key(alloc, name, at)?;
            inside.path = path_of_key(alloc, self.ordinal_of(name))?;
            return Ok(());
        }
        if within.is_top() && name == "target" {
            if self.target.is_none() {
                self.target = Some(at);
            }
            return Ok(());
        }
        if within.records(name) {
            self.note_other(alloc, inside.path.as_str(), at)?;
        }
        Ok(())
    }
}

impl<'a> Walk<'a> {
    /// Consumes one ASCII character, which has to come next.
    fn take(&mut self, byte: u8) -> Result<(), Stop> {
        if byte == 0 || byte >= 128 || first(self.cursor.rest) != byte {
            return Err(Stop::Unexpected);
        }
        let rest = skip(self.cursor.rest, 1);
        self.cursor.go_to(rest);
        Ok(())
    }

    /// Consumes spaces and tabs.
    fn skip_spaces(&mut self) {
        let rest = skip_ws(self.cursor.rest);
        self.cursor.go_to(rest);
    }

    /// Returns the place from a position to where the pass is.
    fn from(&self, start: Position) -> Location {
        Location {
            span: self.cursor.span_from(start),
            line: start.line,
            column: start.column,
        }
    }

    /// Reads one header, one key with the beginning of its value, or one value. Returns `Break` at the end of the text.
    fn step(&mut self) -> Result<ControlFlow<()>, Stop> {
        let rest = skip_blank(self.cursor.rest, true);
        self.cursor.go_to(rest);
        match self.open.pop() {
            None if self.cursor.rest.is_empty() => return Ok(ControlFlow::Break(())),
            None => self.line_of_top()?,
            Some(OpenValue::Array(within, count)) => self.part_of_array(within, count)?,
            Some(OpenValue::Inline(within)) => self.part_of_table(within)?,
        }
        Ok(ControlFlow::Continue(()))
    }

    /// Reads one name of a key in a table, and the spaces after it.
    fn name(&mut self, within: &DocumentPart) -> Result<Named, Stop> {
        let start = self.cursor.position;
        let (name, rest) = name_at_front(self.alloc, self.cursor.rest)?;
        self.cursor.go_to(rest);
        let last = self.from(start);
        let mut inside = within.member(self.alloc, name.as_str())?;
        self.locations
            .note(self.alloc, within, name.as_str(), &mut inside, last)?;
        self.skip_spaces();
        Ok(Named {
            within: inside,
            last,
        })
    }

    /// Reads a key in a table: names with dots between them.
    fn names(&mut self, within: &DocumentPart) -> Result<Named, Stop> {
        let mut named = self.name(within)?;
        for _ in 0..self.cursor.rest.len() {
            if first(self.cursor.rest) != b'.' {
                break;
            }
            self.take(b'.')?;
            self.skip_spaces();
            named = self.name(&named.within)?;
        }
        Ok(named)
    }

    /// Reads a header, or a key outside of arrays and inline tables.
    fn line_of_top(&mut self) -> Result<(), Stop> {
        if first(self.cursor.rest) == b'[' {
            return self.header();
        }
        let within = mem::replace(&mut self.within, DocumentPart::other(self.alloc));
        let named = self.names(&within)?;
        self.within = within;
        self.assigned(named)
    }

    /// Reads a header.
    fn header(&mut self) -> Result<(), Stop> {
        self.take(b'[')?;
        let is_array = first(self.cursor.rest) == b'[';
        if is_array {
            self.take(b'[')?;
        }
        self.skip_spaces();
        let named = self.names(&top_of(self.alloc, self.records_all))?;
        self.take(b']')?;
        if is_array {
            self.take(b']')?;
        }
        self.within = if is_array {
            self.table_of_array(&named)?
        } else {
            named.within
        };
        Ok(())
    }

    /// Returns the table behind a header with two brackets, whose place is recorded in a document that is no manifest.
    /// Its index is the number of such headers before it.
    fn table_of_array(&mut self, named: &Named) -> Result<DocumentPart, Stop> {
        if !named.within.is_foreign() {
            return Ok(DocumentPart::other(self.alloc));
        }
        let index = self.locations.count_again(named.within.path.as_str());
        let table = named.within.element(self.alloc, index)?;
        self.locations
            .note_other(self.alloc, table.path.as_str(), named.last)?;
        Ok(table)
    }

    /// Reads `=` after a key, and the beginning of its value.
    fn assigned(&mut self, named: Named) -> Result<(), Stop> {
        self.take(b'=')?;
        self.skip_spaces();
        let Named { within, last } = named;
        if within.is_field() && first(self.cursor.rest) != b'{' {
            self.locations
                .note_other(self.alloc, within.path.as_str(), last)?;
        }
        self.value(within)
    }

    /// Reads a value, or the beginning of one.
    fn value(&mut self, within: DocumentPart) -> Result<(), Stop> {
        if first(self.cursor.rest) == b'[' {
            self.take(b'[')?;
            self.open.push(OpenValue::Array(within, 0))?;
            return Ok(());
        }
        if first(self.cursor.rest) == b'{' {
            self.take(b'{')?;
            self.open.push(OpenValue::Inline(within))?;
            return Ok(());
        }
        self.scalar(&within)
    }

    /// Reads a string, a number, a boolean or a date.
    fn scalar(&mut self, within: &DocumentPart) -> Result<(), Stop> {
        let start = self.cursor.position;
        let is_text = starts_string(self.cursor.rest);
        if is_text {
            let (_text, rest) = quoted(self.alloc, self.cursor.rest)?;
            self.cursor.go_to(rest);
        } else {
            let (_scalar, rest) = unquoted(self.alloc, self.cursor.rest)?;
            self.cursor.go_to(rest);
        }
        if within.records_value() && (is_text || !within.is_foreign()) {
            let at = self.from(start);
            self.locations
                .note_other(self.alloc, within.path.as_str(), at)?;
        }
        Ok(())
    }

    /// Reads the next part of an array: its end, a comma, or an element. `count` is the number of commas before it.
    fn part_of_array(&mut self, within: DocumentPart, count: usize) -> Result<(), Stop> {
        if first(self.cursor.rest) == b']' {
            return self.take(b']');
        }
        if first(self.cursor.rest) == b',' {
            self.take(b',')?;
            self.open
                .push(OpenValue::Array(within, count.saturating_add(1)))?;
            return Ok(());
        }
        let element = within.element(self.alloc, count)?;
        self.open.push(OpenValue::Array(within, count))?;
        self.value(element)
    }

    /// Reads the next part of an inline table: its end, a comma, or a member.
    fn part_of_table(&mut self, within: DocumentPart) -> Result<(), Stop> {
        if first(self.cursor.rest) == b'}' {
            return self.take(b'}');
        }
        if first(self.cursor.rest) == b',' {
            self.take(b',')?;
            self.open.push(OpenValue::Inline(within))?;
            return Ok(());
        }
        let named = self.names(&within)?;
        self.open.push(OpenValue::Inline(within))?;
        self.assigned(named)
    }
}

/// Returns a path as one text, which differs from that of every other path. Fails if an allocation fails.
pub fn key_path(alloc: Global, names: &[&str]) -> Result<String, AllocError> {
    let mut path = String::new(alloc);
    for name in names {
        path = child_path(alloc, path.as_str(), name)?;
    }
    Ok(path)
}
