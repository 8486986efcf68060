//! Returns what is left of a tokenizer's text: the one call that returns text that was not looked at.
// This is a module below the source, since no other module can take the text out of it.

ghost use Rattle.std.specs.Prelude.{length, MatchOption};
ghost use Rattle.std.specs.Str.{IsCharBoundary};
ghost use Rattle.cargo_platform.specs.Cut.{AreSpaces};
ghost use Rattle.cargo_platform.specs.Reading.{IsRestFrom};

use super::{Source, spaces_end};
use crate::tokens::Tokenizer;

impl<'a> Tokenizer<'a> {
    /// Returns the text from the first character that is no space, from the current position on, or `None` if only
    /// spaces are left. After a fault it begins at the fault's position.
    pub fn rest(&self) -> Option<&'a str>
        // The text from the next character that is no space.
        ensures { MatchOption result
            (AreSpaces self.now.text self.now.place (length self.now.text))
            (λ rest. IsRestFrom self.now.text self.now.place rest.now) }
    {
        rest_from(&self.source, self.place)
    }
}

/// Returns the text from the first character that is no space, from a byte position on.
fn rest_from<'a>(source: &Source<'a>, at: usize) -> Option<&'a str>
    requires { IsCharBoundary source.now.text.now at }
    ensures { MatchOption result
        (AreSpaces source.now.text.now at (length source.now.text.now))
        (λ rest. IsRestFrom source.now.text.now at rest.now) }
{
    let text: &'a str = source.text;
    let start = spaces_end(text, at);
    if start == text.len() {
        return None;
    }
    Some(&text[start..])
}
