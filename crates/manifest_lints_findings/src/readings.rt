//! Keys as they are parsed here, and by current Cargo.

ghost use Rattle.std.specs.Prelude.{◌≡◌, IfOk};
ghost use Rattle.manifests.specs.Entries.{entry_of};
ghost use Rattle.manifest_lints_findings.specs.Spells.{IsSpelledAs, IsRead, entry_read};

use crate::wording::MAX_SHOWN;
use cargo_platform::{Cfg, CfgExpr, ParseError, Platform, ReadError, Token, Tokenizer, inside_cfg};
use manifests::TargetKey;
use predicate_classes::rustc_names::pair;
use std::alloc::{AllocError, Global};
use std::collections::BTreeSet;
use toml::Value;

/// A key that is rejected here, as current Cargo reads it.
#[derive(Drop)]
pub struct CargoReading {
    /// Cargo's first warnings, each on one line.
    pub warnings: Vec<String>,
    /// The number of different warnings.
    pub count: usize,
    /// The key with raw marks, which means the same here and to Cargo.
    pub key: String,
}

/// The meaning of a key.
#[derive(Drop)]
pub enum KeyMeaning {
    /// The key is this condition.
    Condition(Platform),
    /// The key is rejected here, but current Cargo accepts it.
    ByCargo(CargoReading),
    /// The key is rejected with this error.
    Refused(ParseError),
}

/// A parsed key.
#[derive(Drop)]
pub struct ReadKey<'a> {
    /// The text of the key, after its escapes are resolved.
    pub text: &'a str,
    /// The value of the key, if the key is in a manifest.
    pub value: Option<&'a Value>,
    /// The meaning of the key.
    pub spelled: KeyMeaning,
}

impl<'a> ReadKey<'a> {
    /// Parses a key of a manifest. Fails if memory is refused; a key that is not a condition is no failure.
    pub fn of(alloc: Global, key: &TargetKey<'a>) -> Result<ReadKey<'a>, AllocError>
        ensures entry { IfOk result (λ read. entry_read read ≡ entry_of key.now) }
        ensures read { IfOk result IsRead }
    {
        Ok(ReadKey {
            text: key.key,
            value: Some(key.value),
            spelled: read_key(alloc, key.key)?,
        })
    }

    /// Returns a key that is in no manifest, and has this condition.
    pub fn alone(text: &'a str, condition: Platform) -> ReadKey<'a>
        ensures spelled { result.spelled ≡ KeyMeaning.Condition condition }
        ensures text { result.text.now ≡ text.now }
    {
        ReadKey {
            text,
            value: None,
            spelled: KeyMeaning::Condition(condition),
        }
    }
}

/// Parses a key.
fn read_key(alloc: Global, key: &str) -> Result<KeyMeaning, AllocError>
    ensures { IfOk result (IsSpelledAs key.now) }
{
    let error = match Platform::from_str(alloc, key) {
        Ok(platform) => return Ok(KeyMeaning::Condition(platform)),
        Err(ReadError::Memory(refused)) => return Err(refused),
        Err(ReadError::Parse(error)) => error,
    };
    match read_by_cargo(alloc, key)? {
        Some(marked) => Ok(KeyMeaning::ByCargo(marked)),
        None => Ok(KeyMeaning::Refused(error)),
    }
}

/// The last token of a text that is being read.
#[derive(Clone, Copy, Drop)]
enum Last<'a> {
    /// `true` or `false`, with its first byte. It is a key if `=` comes next.
    Word(&'a str, usize),
    /// `=` after such a key.
    Key(&'a str),
    Other,
}

/// An expression that is being copied, with a raw mark added before each `true` and `false` that is the key of a pair.
#[derive(Drop)]
struct Marking<'a> {
    text: &'a str,
    copied: usize,
    marked: String,
    /// The pairs whose keys were marked.
    pairs: BTreeSet<Cfg>,
    warnings: Vec<String>,
}

impl<'a> Marking<'a> {
    /// Copies the text before a byte, and adds a raw mark.
    fn mark(&mut self, start: usize) -> Result<(), AllocError> {
        let before = self.text.get(self.copied..start).unwrap_or("");
        self.marked.push_str(before)?;
        self.marked.push_str("r#")?;
        self.copied = start;
        Ok(())
    }

    /// Records a pair, with Cargo's warning on it if it is one of the first.
    fn note(&mut self, alloc: Global, key: &str, value: &str) -> Result<(), AllocError> {
        let is_new = self.pairs.insert(pair(alloc, key, value)?)?;
        if is_new && self.pairs.len() <= MAX_SHOWN {
            self.warnings.push(warning_on(alloc, key, value)?)?;
        }
        Ok(())
    }

    /// Takes one token, which begins at byte `start`.
    fn step(
        &mut self,
        alloc: Global,
        last: Last<'a>,
        token: Token<'a>,
        start: usize,
    ) -> Result<Last<'a>, AllocError> {
        match (last, token) {
            (_, Token::Ident(false, word)) if word == "true" || word == "false" => {
                Ok(Last::Word(word, start))
            }
            (Last::Word(word, start), Token::Equals) => {
                self.mark(start)?;
                Ok(Last::Key(word))
            }
            (Last::Key(key), Token::String(value)) => {
                self.note(alloc, key, value)?;
                Ok(Last::Other)
            }
            _ => Ok(Last::Other),
        }
    }
}

/// Reads a key that is rejected here as Cargo does, which takes `true` and `false` without a raw mark as the keys of
/// pairs.
fn read_by_cargo(alloc: Global, key: &str) -> Result<Option<CargoReading>, AllocError> {
    let Some(text) = inside_cfg(key) else {
        return Ok(None);
    };
    let mut marking = Marking {
        text,
        copied: 0,
        marked: String::from_str(alloc, "cfg(")?,
        pairs: BTreeSet::new(alloc),
        warnings: Vec::new(alloc),
    };
    let mut last = Last::Other;
    let mut tokens = Tokenizer::new(text);
    'tokens: for _ in 0..text.len() {
        let Some(Ok(spanned)) = tokens.next() else {
            break;
        };
        last = marking.step(alloc, last, spanned.token, spanned.start)?;
    }
    if marking.warnings.is_empty() {
        return Ok(None);
    }
    accepted(alloc, marking)
}

/// Returns the key with raw marks, if that is a condition.
fn accepted(alloc: Global, marking: Marking<'_>) -> Result<Option<CargoReading>, AllocError> {
    let Marking {
        text,
        copied,
        marked: mut key,
        pairs,
        warnings,
    } = marking;
    key.push_str(text.get(copied..).unwrap_or(""))?;
    key.push_str(")")?;
    match Platform::from_str(alloc, key.as_str()) {
        Ok(_platform) => Ok(Some(CargoReading {
            warnings,
            count: pairs.len(),
            key,
        })),
        Err(ReadError::Parse(_error)) => Ok(None),
        Err(ReadError::Memory(refused)) => Err(refused),
    }
}

/// Returns Cargo's warning on a pair, on one line.
fn warning_on(alloc: Global, key: &str, value: &str) -> Result<String, AllocError> {
    let condition = Platform::Cfg(CfgExpr::Value(pair(alloc, key, value)?));
    let mut warnings = Vec::new(alloc);
    condition.check_cfg_keywords(alloc, &mut warnings, "")?;
    let mut line = String::new(alloc);
    for warning in &warnings {
        push_lines(&mut line, warning.as_str())?;
    }
    Ok(line)
}

/// Appends the lines of a warning, without its path and without line ends.
fn push_lines(line: &mut String, warning: &str) -> Result<(), AllocError> {
    for part in warning.strip_prefix("[] ").unwrap_or(warning).lines() {
        line.push_str(part)?;
    }
    Ok(())
}
