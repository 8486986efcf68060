//! The version of the library.

ghost use Rattle.std.specs.Prelude.{◌≡◌};
ghost use Rattle.byte_answers.specs.Outcomes.{HasNoAnswer, HasNoSpan, IsWritten};

use crate::outcome::{DONE, Outcome, write};

/// The version, which all crates and programs of this repository share.
pub const VERSION: &str = "0.1.0";

/// Writes the version of the library: three numbers with dots between them.
pub fn version(out: &mut [u8]) -> Outcome
    // `DONE` is always returned, with the version.
    ensures written { IsWritten VERSION.now result.needed out.old out.new }
    ensures done { result.code ≡ DONE }
    // `holds` and `is_named` are false.
    ensures holds { HasNoAnswer result }
    // `start` and `end` are 0.
    ensures span { HasNoSpan result }
{
    Outcome::done(write(VERSION.as_bytes(), out))
}
