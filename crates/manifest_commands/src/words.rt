//! The arguments of the command line.

use command_line::arguments::without_cargo_name;
use std::alloc::AllocError;
use std::env::FillError;
use std::rt::Env;

/// The size of the buffer for an argument, in bytes. A longer one is read again.
const SHORT: usize = 256;

/// Returns the argument at an index, if there is one. Bytes that are not UTF-8 become U+FFFD, so that the argument
/// names nothing.
fn word_at<R: Env + AllocGlobal>(rt: &R, place: usize) -> Result<Option<String>, AllocError> {
    let alloc = rt.alloc();
    let mut size = SHORT;
    for _ in 0..usize::BITS {
        let mut bytes = vec![in alloc; 0u8; size]?;
        match rt.arg(place, &mut bytes) {
            Ok(length) => {
                let word = bytes.get(..length).unwrap_or(&[]);
                return Ok(Some(String::from_utf8_lossy(alloc, word)?));
            }
            Err(FillError::NotPresent) => return Ok(None),
            Err(FillError::TooLong) => size = size.saturating_add(size),
        }
    }
    Err(AllocError)
}

/// Returns the arguments of the command line, the name of the program first.
pub fn words_given<R: Env + AllocGlobal>(rt: &R) -> Result<Vec<String>, AllocError> {
    let mut words = Vec::new(rt.alloc());
    for place in 0..usize::MAX {
        match word_at(rt, place)? {
            Some(word) => words.push(word)?,
            None => break,
        }
    }
    Ok(words)
}

/// Returns whether a shell reads a word as it is.
fn is_plain(word: &str) -> bool {
    for c in word.chars() {
        if !c.is_ascii_alphanumeric()
            && !matches!(c, '_' | '-' | '.' | '/' | ':' | '=' | ',' | '@' | '+' | '%')
        {
            return false;
        }
    }
    !word.is_empty()
}

/// Appends a space and a word, quoted if a shell does not read it as it is.
fn push_word(text: &mut String, word: &str) -> Result<(), AllocError> {
    if is_plain(word) {
        text.push_str(" ")?;
        return text.push_str(word);
    }
    text.push_str(" '")?;
    for c in word.chars() {
        if c == '\'' {
            text.push_str("'\\''")?;
        } else {
            text.push(c)?;
        }
    }
    text.push_str("'")
}

/// Returns the command line as a shell reads it, with the name of the program for the path that was given.
pub fn command_given<R: Env + AllocGlobal>(rt: &R) -> Result<String, AllocError> {
    let alloc = rt.alloc();
    let mut words = words_given(rt)?;
    without_cargo_name(alloc, &mut words)?;
    let mut text = String::from_str(alloc, "manifest_check")?;
    for i in 1..words.len() {
        push_word(&mut text, words[i].as_str())?;
    }
    Ok(text)
}
