//! Positions in a text.

ghost use Rattle.std.specs.Prelude.{◌≡◌, length};

use crate::spans::Span;

/// A position in a text.
#[derive(Clone, Copy, Debug, PartialEq, Eq, Drop)]
pub struct Position {
    /// The number of bytes before it.
    pub byte: usize,
    /// The line, counted from 1.
    pub line: usize,
    /// The column: the number of characters before it on the line, plus 1.
    pub column: usize,
}

impl Position {
    /// The position at the front of a text.
    pub const START: Position = Position {
        byte: 0,
        line: 1,
        column: 1,
    };

    /// Returns the position after a byte.
    fn after_byte(self, byte: u8) -> Position {
        let place = self.byte.saturating_add(1);
        match byte {
            b'\n' => Position {
                byte: place,
                line: self.line.saturating_add(1),
                column: 1,
            },
            // A byte of a character that is not its first one.
            0x80..=0xBF => Position {
                byte: place,
                ..self
            },
            _ => Position {
                byte: place,
                line: self.line,
                column: self.column.saturating_add(1),
            },
        }
    }

    /// Returns the position after a text that begins here.
    pub fn after(self, text: &str) -> Position {
        let mut position = self;
        for byte in text.bytes() {
            position = position.after_byte(byte);
        }
        position
    }
}

/// A reader of a text, with its position.
#[derive(Clone, Copy, Drop)]
pub struct Cursor<'a> {
    /// The text that is left.
    pub rest: &'a str,
    pub position: Position,
}

impl<'a> Cursor<'a> {
    /// Returns a reader at the front of a text.
    pub fn new(text: &'a str) -> Cursor<'a> {
        Cursor {
            rest: text,
            position: Position::START,
        }
    }

    /// Moves on to `rest`, which is the end of the text that was left.
    pub fn go_to(&mut self, rest: &'a str) {
        let read = self.rest.len().saturating_sub(rest.len());
        let text = self.rest.get(0..read).unwrap_or("");
        self.position = self.position.after(text);
        self.rest = rest;
    }

    /// Returns the span from a position to where the reader is.
    pub fn span_from(&self, start: Position) -> Span {
        Span {
            start: start.byte,
            end: self.position.byte,
        }
    }
}
