//! The reason why a text is not a table.

use cargo_platform::ParseError;
use std::alloc::AllocError;

/// The reason why a text is not a table.
#[derive(Debug, Drop)]
pub enum TableError {
    /// This line is not a fact, and a line of a target comes before it.
    Line {
        /// The number of the line in the whole text, counted from 1.
        number: usize,
        /// The error in it.
        error: ParseError,
    },
    /// This line names a target that an earlier line names.
    Twice {
        /// The number of the line in the whole text, counted from 1.
        number: usize,
    },
    /// An allocation failed.
    Memory(AllocError),
}

impl From<AllocError> for TableError {
    ghost use Rattle.std.specs.Prelude.{◌≡◌};
    ghost use Rattle.target_tables.specs.declared.error.TableError.TheVariants.{Memory};

    ghost from_gives = { λ a e. e ≡ Memory a };

    fn from(error: AllocError) -> TableError {
        TableError::Memory(error)
    }
}
