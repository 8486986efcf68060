//! Escaped texts of GitHub's workflow commands and of SARIF, and paths as URIs.
//!
//! As in the toolkit of GitHub's actions, a command has `%`, carriage returns and line feeds as `%` and two hexadecimal
//! digits, and a property has `:` and `,` in that form too.

use std::alloc::{AllocError, Global};

/// Returns the escape of a character, if the character has to be escaped.
fn escape(c: char, in_property: bool) -> Option<&'static str> {
    match c {
        '%' => Some("%25"),
        '\r' => Some("%0D"),
        '\n' => Some("%0A"),
        ':' if in_property => Some("%3A"),
        ',' if in_property => Some("%2C"),
        _ => None,
    }
}

/// Escapes the text of a workflow command or, if `in_property`, of a property of one. Fails if memory is refused.
pub fn escaped(alloc: Global, text: &str, in_property: bool) -> Result<String, AllocError> {
    let mut escaped = String::new(alloc);
    for c in text.chars() {
        match escape(c, in_property) {
            Some(other) => escaped.push_str(other)?,
            None => escaped.push(c)?,
        }
    }
    Ok(escaped)
}

/// Returns a path as a URI reference ([RFC 3986](https://www.rfc-editor.org/rfc/rfc3986)): ASCII letters, digits, `/`,
/// `.`, `-`, `_` and `~` are kept, and each other byte becomes `%` and two hexadecimal digits. Fails if memory is
/// refused.
pub fn uri_of(alloc: Global, path: &str) -> Result<String, AllocError> {
    let mut uri = String::new(alloc);
    for byte in path.bytes() {
        match byte {
            b'a'..=b'z' | b'A'..=b'Z' | b'0'..=b'9' | b'/' | b'.' | b'-' | b'_' | b'~' => {
                uri.push(char::from(byte))?;
            }
            _ => {
                let escaped = format!(in alloc; "%{byte:02X}")?;
                uri.push_str(escaped.as_str())?;
            }
        }
    }
    Ok(uri)
}

/// Returns a text with its braces doubled, as a message of SARIF has to have it, where `{0}` stands for an argument.
/// Fails if memory is refused.
pub fn braced(alloc: Global, text: &str) -> Result<String, AllocError> {
    let mut message = String::new(alloc);
    for c in text.chars() {
        if c == '{' || c == '}' {
            message.push(c)?;
        }
        message.push(c)?;
    }
    Ok(message)
}
