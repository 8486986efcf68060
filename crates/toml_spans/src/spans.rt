//! Ranges of bytes in a text.

ghost use Rattle.std.specs.Prelude.{◌≡◌, IfSome, IfNone, length, IsTrue, ◌↔◌};
ghost use Rattle.toml_spans.specs.Spans.{LiesIn, IsWithin, at_span};

/// A range of bytes in a text.
#[derive(Clone, Copy, Debug, PartialEq, Eq, PartialOrd, Ord, Drop)]
pub struct Span {
    /// The first byte.
    pub start: usize,
    /// The byte after the last one.
    pub end: usize,
}

impl Span {
    /// Returns the text of the span, or `None` if the span does not lie in the text.
    pub fn text_in(self, text: &str) -> Option<&str>
        // A span has a text if it lies in the whole text.
        ensures lies { IfSome result (λ part. LiesIn text.now self) }
        // It is the bytes of the span.
        ensures part { IfSome result (λ part. part.now ≡ at_span text.now self) }
        // A span that lies in the text has one.
        ensures none { IfNone result (LiesIn text.now self → ⊥) }
    {
        if self.start > self.end {
            return None;
        }
        if !text.is_char_boundary(self.start) || !text.is_char_boundary(self.end) {
            return None;
        }
        Some(&text[self.start..self.end])
    }

    /// Returns whether the span lies within another one.
    pub fn is_within(self, outer: Span) -> bool
        ensures { IsTrue result ↔ IsWithin self outer }
    {
        outer.start <= self.start && self.end <= outer.end
    }
}
