//! The place of a manifest at which a path of keys first appears.
//!
//! The text is one that parses. This pass goes through it with the toolchain's readers of keys and values. It ends at
//! the path, or at anything unexpected, and then the place is not known.

use crate::key_locations::Location;
use crate::reading::location_of;
use std::alloc::{AllocError, AllocFailed, Global};
use std::ops::ControlFlow;
use toml_parser::text::{first, skip, skip_blank, skip_ws};
use toml_parser::{Key, ParseError, dotted_key, quoted, starts_string, unquoted};
use toml_spans::Span;

/// A position beside the path that is searched: how many of its keys lead to a table, or `None` if others do.
type Depth = Option<usize>;

/// An open array or inline table.
#[derive(Clone, Copy, Drop)]
enum OpenValue {
    Array,
    Inline(Depth),
}

/// The reason why a pass stops before the text ends.
#[derive(Drop)]
enum Stop {
    /// The path was found.
    Found,
    Unexpected,
    Memory,
}

impl From<AllocError> for Stop {
    fn from(_: AllocError) -> Stop {
        Stop::Memory
    }
}

impl From<AllocFailed<OpenValue>> for Stop {
    fn from(_: AllocFailed<OpenValue>) -> Stop {
        Stop::Memory
    }
}

impl From<ParseError> for Stop {
    fn from(error: ParseError) -> Stop {
        match error {
            ParseError::OutOfMemory => Stop::Memory,
            ParseError::At(_, _, _) => Stop::Unexpected,
        }
    }
}

/// A pass through a text.
#[derive(Drop)]
struct Search<'a> {
    alloc: Global,
    rest: &'a str,
    path: &'a [String],
    open: Vec<OpenValue>,
    /// The table of the last header.
    table: Depth,
}

/// Returns the place of the dotted key at the front of the rest of a text.
fn key_at_front(alloc: Global, text: &str, rest: &str) -> Result<Option<Location>, AllocError> {
    match dotted_key(alloc, rest) {
        Ok((_key, behind)) => {
            let start = text.len().saturating_sub(rest.len());
            let length = rest.len().saturating_sub(behind.len());
            let key = rest.get(..length).unwrap_or("").trim_end();
            let span = Span {
                start,
                end: start.saturating_add(key.len()),
            };
            Ok(Some(location_of(text, span)))
        }
        Err(ParseError::OutOfMemory) => Err(AllocError),
        Err(ParseError::At(_, _, _)) => Ok(None),
    }
}

/// Returns the place of the dotted key with which a path of keys first appears in the text of a manifest: in a header,
/// before `=`, or in an inline table. Returns `None` if it does not appear, or if an array of tables is above it.
///
/// Fails only if an allocation fails.
pub fn find_dotted_key(
    alloc: Global,
    text: &str,
    path: &[String],
) -> Result<Option<Location>, AllocError> {
    let mut search = Search {
        alloc,
        rest: text,
        path,
        open: Vec::new(alloc),
        table: Some(0),
    };
    'steps: for _ in 0..text.len() {
        match search.step() {
            Ok(ControlFlow::Continue(())) => {}
            Ok(ControlFlow::Break(())) | Err(Stop::Unexpected) => return Ok(None),
            Err(Stop::Found) => return key_at_front(alloc, text, search.rest),
            Err(Stop::Memory) => return Err(AllocError),
        }
    }
    Ok(None)
}

impl<'a> Search<'a> {
    /// Consumes one ASCII character, which has to come next.
    fn take(&mut self, byte: u8) -> Result<(), Stop> {
        if byte == 0 || byte >= 128 || first(self.rest) != byte {
            return Err(Stop::Unexpected);
        }
        self.rest = skip(self.rest, 1);
        Ok(())
    }

    /// Returns the depth below a key of a table at this depth. Stops if the path ends there.
    fn below(&self, depth: Depth, key: &str) -> Result<Depth, Stop> {
        let Some(depth) = depth else {
            return Ok(None);
        };
        let Some(wanted) = self.path.get(depth) else {
            return Ok(None);
        };
        if wanted.as_str() != key {
            return Ok(None);
        }
        let depth = depth.saturating_add(1);
        if depth == self.path.len() {
            return Err(Stop::Found);
        }
        Ok(Some(depth))
    }

    /// Returns the depth below a dotted key of a table at this depth. Stops if the path ends there.
    fn below_each(&self, depth: Depth, key: &Key) -> Result<Depth, Stop> {
        let mut depth = depth;
        for part in &key.path {
            depth = self.below(depth, part.as_str())?;
        }
        self.below(depth, key.last.as_str())
    }

    /// Reads one header, one key with the beginning of its value, or one value. Returns `Break` at the end of the text.
    fn step(&mut self) -> Result<ControlFlow<()>, Stop> {
        self.rest = skip_blank(self.rest, true);
        match self.open.pop() {
            None if self.rest.is_empty() => return Ok(ControlFlow::Break(())),
            None => self.line_of_top()?,
            Some(open) => self.part(open)?,
        }
        Ok(ControlFlow::Continue(()))
    }

    /// Reads a header, or a key outside of arrays and inline tables.
    fn line_of_top(&mut self) -> Result<(), Stop> {
        if first(self.rest) != b'[' {
            return self.key(self.table);
        }
        self.take(b'[')?;
        let is_array = first(self.rest) == b'[';
        if is_array {
            self.take(b'[')?;
        }
        self.rest = skip_ws(self.rest);
        let (key, rest) = dotted_key(self.alloc, self.rest)?;
        let table = self.below_each(Some(0), &key)?;
        self.rest = rest;
        self.take(b']')?;
        if is_array {
            self.take(b']')?;
        }
        self.table = if is_array { None } else { table };
        Ok(())
    }

    /// Reads a key, `=` and the beginning of the value.
    fn key(&mut self, table: Depth) -> Result<(), Stop> {
        let (key, rest) = dotted_key(self.alloc, self.rest)?;
        let inside = self.below_each(table, &key)?;
        self.rest = rest;
        self.take(b'=')?;
        self.rest = skip_ws(self.rest);
        self.value(inside)
    }

    /// Reads a value, or the beginning of one.
    fn value(&mut self, inside: Depth) -> Result<(), Stop> {
        if first(self.rest) == b'[' {
            self.take(b'[')?;
            self.open.push(OpenValue::Array)?;
        } else if first(self.rest) == b'{' {
            self.take(b'{')?;
            self.open.push(OpenValue::Inline(inside))?;
        } else if starts_string(self.rest) {
            let (_text, rest) = quoted(self.alloc, self.rest)?;
            self.rest = rest;
        } else {
            let (_scalar, rest) = unquoted(self.alloc, self.rest)?;
            self.rest = rest;
        }
        Ok(())
    }

    /// Reads the next part of an array or an inline table: its end, a comma, or a member.
    fn part(&mut self, open: OpenValue) -> Result<(), Stop> {
        let end = match open {
            OpenValue::Array => b']',
            OpenValue::Inline(_) => b'}',
        };
        if first(self.rest) == end {
            return self.take(end);
        }
        self.open.push(open)?;
        if first(self.rest) == b',' {
            return self.take(b',');
        }
        match open {
            OpenValue::Array => self.value(None),
            OpenValue::Inline(table) => self.key(table),
        }
    }
}
