//! The blocks of a text: lines that are not empty, up to an empty one.

ghost use Rattle.std.specs.Prelude.{◌≡◌, ◌≢◌, ◌<◌, ◌≤◌, ◌+◌, ◌∷◌, [], ℕ, length, IfOk, IsUtf8, string_bytes};
ghost use Rattle.cargo_platform.specs.Lines.{lines_of, IsUnbroken};
ghost use Rattle.target_tables.specs.Blocks.{IsBehindEmpty, IsFilledFront};

use std::alloc::{AllocError, Global};

/// Returns the first line of a text, and the text after its end.
pub fn first_line(text: &str) -> (&str, &str)
    ensures lines { text.now ≢ [] → lines_of text.now ≡ result.0.now ∷ lines_of result.1.now }
    ensures unbroken { IsUnbroken result.0.now }
    ensures ended { text.now ≢ [] → length result.1.now < length text.now }
    ensures utf8 { IsUtf8 result.1.now }
{
    match text.split_once('\n') {
        Some((line, behind)) => (line, behind),
        None => (text, ""),
    }
}

/// Returns the text after the empty lines at its beginning, and the number of these lines.
pub fn skip_blank_lines(text: &str) -> (&str, usize)
    ensures lines { IsBehindEmpty (lines_of text.now) result.1 (lines_of result.0.now) }
    ensures length { result.1 + length result.0.now ≤ length text.now }
    ensures utf8 { IsUtf8 result.0.now }
{
    let size = text.len();
    let mut rest = text;
    let mut many: usize = 0;
    'lines: while let Some(behind) = rest.strip_prefix('\n') {
        rest = behind;
        many += 1;
    }
    (rest, many)
}

/// Returns the lines at the beginning of a text, up to an empty one, each with its end, and the text after them.
pub fn take_block(alloc: Global, text: &str) -> Result<(String, &str), AllocError>
    ensures lines { IfOk result
        (λ r. IsFilledFront (lines_of text.now) (string_bytes r.0) (lines_of r.1.now)) }
    ensures length { IfOk result (λ r. length (lines_of (string_bytes r.0)) + length r.1.now ≤ length text.now) }
    ensures utf8 { IfOk result (λ r. IsUtf8 r.1.now) }
{
    let mut front = String::new(alloc);
    let mut rest = text;
    'lines: while !rest.is_empty() {
        let (line, behind) = first_line(rest);
        if line.is_empty() {
            return Ok((front, rest));
        }
        front.push_str(line)?;
        front.push_str("\n")?;
        rest = behind;
    }
    Ok((front, rest))
}
