//! Lines of JSON: one value a line, of any type that derives `Serialize`. No text in it can end or disguise the line.

ghost use Rattle.std.specs.Prelude.{◌≡◌, true, IfOk, OnOk, string_bytes};
ghost use Rattle.std.specs.List.{list_all};
ghost use Rattle.key_answers.specs.JsonLines.{is_printable, IsShownText, AppendsShown, AppendsLine};

use crate::line_writer::JsonLine;
use cargo_platform::printable_text;
use serde::Serialize;
use std::alloc::{AllocError, Global};

/// Appends 16 bits of a character as `\u` and four hexadecimal digits.
fn push_unit(text: &mut String, alloc: Global, unit: u32) -> Result<(), AllocError> {
    let unit = format!(in alloc; "\\u{unit:04x}")?;
    text.push_str(unit.as_str())
}

/// Appends the escape of a character: its number, or its two surrogates if it lies above U+FFFF.
fn push_escape(text: &mut String, alloc: Global, c: char) -> Result<(), AllocError> {
    let code = u32::from(c);
    if code <= 0xffff {
        return push_unit(text, alloc, code);
    }
    let above = code.wrapping_sub(0x1_0000);
    push_unit(text, alloc, 0xd800 | (above >> 10) & 0x3ff)?;
    push_unit(text, alloc, 0xdc00 | above & 0x3ff)
}

/// Returns the JSON with an escape for each character that differs from the one that is shown for it. Such characters
/// occur within the strings of printed JSON alone.
fn escaped(alloc: Global, json: &str, shown: &str) -> Result<String, AllocError> {
    let mut text = String::new(alloc);
    for (c, shown) in json.chars().zip(shown.chars()) {
        if c == shown {
            text.push(c)?;
        } else {
            push_escape(&mut text, alloc, c)?;
        }
    }
    Ok(text)
}

/// Returns printed JSON with an escape for each character that [`printable_text`] replaces. `printable_text` does not
/// change the result, so nothing in it is hidden.
fn with_escapes(alloc: Global, json: &str) -> Result<String, AllocError>
    ensures { IfOk result (λ s. IsShownText (string_bytes s)) }
{
    let shown = printable_text(alloc, json)?;
    if shown.as_str() == json {
        return Ok(shown);
    }
    let escaped = escaped(alloc, json, shown.as_str())?;
    printable_text(alloc, escaped.as_str())
}

/// Returns whether a byte is a printable ASCII character.
fn is_printable(byte: u8) -> bool
    ensures { result ≡ is_printable byte }
{
    0x20 <= byte && byte < 0x7f
}

/// Returns whether each byte is a printable ASCII character.
fn are_printable(bytes: &[u8]) -> bool
    ensures { result ≡ list_all is_printable bytes.now }
{
    bytes.iter().all(|byte| is_printable(*byte))
}

/// Appends printable ASCII.
fn push_printable(text: &mut String, json: &str) -> Result<(), AllocError>
    requires { list_all is_printable json.now ≡ true }
    ensures { OnOk result (AppendsShown (string_bytes text.old) (string_bytes text.new)) }
{
    text.push_str(json)
}

/// Appends what [`printable_text`] returned.
fn push_shown_text(text: &mut String, shown: &str) -> Result<(), AllocError>
    requires { IsShownText shown.now }
    ensures { OnOk result (AppendsShown (string_bytes text.old) (string_bytes text.new)) }
{
    text.push_str(shown)
}

/// Appends printed JSON, with an escape for each character that is hidden where texts are shown.
fn push_shown(text: &mut String, alloc: Global, json: &str) -> Result<(), AllocError>
    ensures { OnOk result (AppendsShown (string_bytes text.old) (string_bytes text.new)) }
{
    if are_printable(json.as_bytes()) {
        return push_printable(text, json);
    }
    let shown = with_escapes(alloc, json)?;
    push_shown_text(text, shown.as_str())
}

/// Appends printed JSON as a line.
fn push_json(text: &mut String, alloc: Global, json: &str) -> Result<(), AllocError>
    ensures { OnOk result (AppendsLine (string_bytes text.old) (string_bytes text.new)) }
{
    push_shown(text, alloc, json)?;
    text.push_str("\n")
}

/// Appends a value as a line of JSON, without spaces between its tokens.
pub fn push_line<T: Serialize>(
    text: &mut String,
    alloc: Global,
    value: &T,
) -> Result<(), AllocError>
    // Each character of the line is shown.
    ensures { OnOk result (AppendsLine (string_bytes text.old) (string_bytes text.new)) }
{
    let json = JsonLine::new(alloc, false).json_of(value)?;
    push_json(text, alloc, json.as_str())
}

/// Appends a value as a line of JSON, with a space after each comma and each colon.
pub fn push_spaced_line<T: Serialize>(
    text: &mut String,
    alloc: Global,
    value: &T,
) -> Result<(), AllocError>
    // Each character of the line is shown.
    ensures { OnOk result (AppendsLine (string_bytes text.old) (string_bytes text.new)) }
{
    let json = JsonLine::new(alloc, true).json_of(value)?;
    push_json(text, alloc, json.as_str())
}
