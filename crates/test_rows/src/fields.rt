//! The fields of a row: words, texts between bars, and lists that a `;` ends.

use crate::Fault;
use crate::bars::text_of;
use std::alloc::{AllocError, Global};

/// Words under a name, which a row includes by `@name`.
#[derive(Drop)]
pub struct Setting {
    name: String,
    words: String,
}

impl Setting {
    /// Returns the setting of a name and the words after it.
    pub fn new(alloc: Global, text: &str) -> Result<Setting, AllocError> {
        let (name, words) = text.split_once(' ').unwrap_or((text, ""));
        Ok(Setting {
            name: String::from_str(alloc, name)?,
            words: String::from_str(alloc, words)?,
        })
    }
}

/// The rest of a row.
#[derive(Drop)]
pub struct Fields<'a> {
    left: &'a str,
    settings: &'a [Setting],
}

/// Returns the end of the first word of a text: a space that is not between bars, or the end of the text.
fn end_of_word(text: &str) -> usize {
    let mut in_bars = false;
    let mut is_escaped = false;
    for (at, c) in text.char_indices() {
        if c == ' ' && !in_bars {
            return at;
        }
        if c == '|' && !is_escaped {
            in_bars = !in_bars;
        }
        is_escaped = c == '\\' && !is_escaped;
    }
    text.len()
}

impl<'a> Fields<'a> {
    /// Returns the fields of a row, which may include these settings.
    pub fn new(row: &'a str, settings: &'a [Setting]) -> Fields<'a> {
        Fields {
            left: row,
            settings,
        }
    }

    /// Returns the words that are set under a name.
    pub fn set(&self, name: &str) -> Option<Fields<'a>> {
        for setting in self.settings {
            if setting.name.as_str() == name {
                return Some(Fields::new(setting.words.as_str(), self.settings));
            }
        }
        None
    }

    /// Returns the next word, or `None` at the end and before the expected answer.
    pub fn word(&mut self) -> Option<&'a str> {
        let left = self.left.trim_start();
        if left.is_empty() || left == "=>" || left.starts_with("=> ") {
            return None;
        }
        let end = end_of_word(left);
        self.left = left.get(end..).unwrap_or("");
        left.get(..end)
    }

    /// Returns the next word. Fails if there is none.
    pub fn need(&mut self) -> Result<&'a str, Fault> {
        match self.word() {
            Some(word) => Ok(word),
            None => Err(Fault::Row("a word is lacking")),
        }
    }

    /// Returns the next word, which is between bars, as a text.
    pub fn text(&mut self, alloc: Global) -> Result<String, Fault> {
        text_of(alloc, self.need()?)
    }

    /// Returns the next word as a number.
    pub fn number(&mut self) -> Result<u64, Fault> {
        match self.need()?.parse::<u64>() {
            Ok(number) => Ok(number),
            Err(_) => Err(Fault::Row("a number is lacking")),
        }
    }

    /// Returns the next word of a list, if there is one.
    pub fn item(&mut self) -> Option<&'a str> {
        match self.word() {
            Some(";") => None,
            word => word,
        }
    }

    /// Returns the words up to a `;` or the end. `@name` stands for the words of its setting.
    pub fn list(&mut self, alloc: Global) -> Result<Vec<&'a str>, Fault> {
        let mut words = Vec::new(alloc);
        for _ in 0..=self.left.len() {
            let Some(word) = self.item() else {
                break;
            };
            let set = word.strip_prefix('@').and_then(|name| self.set(name));
            let mut meant = set.unwrap_or(Fields::new(word, self.settings));
            for _ in 0..=meant.left.len() {
                let Some(word) = meant.item() else {
                    break;
                };
                words.push(word).map_err(AllocError::from)?;
            }
        }
        Ok(words)
    }

    /// Returns the expected answer after `=>`, if the row has one.
    pub fn expected(&self) -> Result<Option<&'a str>, Fault> {
        let left = self.left.trim_start();
        if left.is_empty() {
            return Ok(None);
        }
        match left.strip_prefix("=> ") {
            Some(stated) => Ok(Some(stated)),
            None => Err(Fault::Row("the kind takes fewer words")),
        }
    }
}
