//! Writes a value of a type that derives `Serialize` as JSON on one line, in one pass.

use serde::{Case, NameKind, Serialize, Serializer};
use std::alloc::{AllocError, Global};

/// JSON on one line that is being written.
#[derive(Drop)]
pub struct JsonLine {
    alloc: Global,
    json: String,
    /// True if a space follows each comma and each colon.
    is_spaced: bool,
    /// True if the next element or key follows another one.
    follows: bool,
}

/// Returns whether a byte of a string is written unchanged: printable ASCII that JSON does not escape.
fn is_plain(byte: u8) -> bool {
    0x20 <= byte && byte < 0x7f && byte != b'"' && byte != b'\\'
}

/// Returns whether all bytes of a string are written unchanged. The loop has no exit, so that it takes many bytes at a
/// time.
fn are_plain(bytes: &[u8]) -> bool {
    bytes.iter().fold(true, |all, byte| all & is_plain(*byte))
}

impl JsonLine {
    /// Returns a writer of an empty text.
    pub fn new(alloc: Global, is_spaced: bool) -> JsonLine {
        JsonLine {
            alloc,
            json: String::new(alloc),
            is_spaced,
            follows: false,
        }
    }

    /// Writes a value and returns the JSON.
    pub fn json_of<T: Serialize>(self, value: &T) -> Result<String, AllocError> {
        let mut writer = self;
        value.serialize(&mut writer)?;
        let JsonLine { json, .. } = writer;
        Ok(json)
    }

    /// Appends a character. The call has no clause, so that its callers are proved sooner.
    #[inline(always)]
    fn push(&mut self, c: char) -> Result<(), AllocError> {
        self.json.push(c)
    }

    /// Appends a text.
    fn push_text(&mut self, text: &str) -> Result<(), AllocError> {
        self.json.push_str(text)
    }

    /// Appends a comma or a colon.
    #[inline(always)]
    fn separate(&mut self, separator: char) -> Result<(), AllocError> {
        self.push(separator)?;
        if self.is_spaced {
            self.push(' ')?;
        }
        Ok(())
    }

    /// Appends the comma before an element or a key that follows another one.
    fn begin(&mut self) -> Result<(), AllocError> {
        if self.follows {
            self.separate(',')?;
        }
        self.follows = true;
        Ok(())
    }

    /// Appends an element that is not a list, object or string.
    fn element(&mut self, text: &str) -> Result<(), AllocError> {
        self.begin()?;
        self.push_text(text)
    }

    /// Appends a string in quotes, with its escapes.
    fn string(&mut self, text: &str) -> Result<(), AllocError> {
        self.begin()?;
        if are_plain(text.as_bytes()) {
            self.push('"')?;
            self.push_text(text)?;
            return self.push('"');
        }
        match serde_json::to_string(self.alloc, &text) {
            Ok(quoted) => self.push_text(quoted.as_str()),
            Err(_) => Err(AllocError),
        }
    }

    /// Appends a name in a case, as a string.
    fn name(&mut self, name: &str, case: Case, kind: NameKind) -> Result<(), AllocError> {
        if case == Case::AsIs {
            return self.string(name);
        }
        let mut cased = String::new(self.alloc);
        case.append(kind, name, &mut cased)?;
        self.string(cased.as_str())
    }

    /// Appends a key.
    fn key_of(&mut self, name: &str, case: Case, kind: NameKind) -> Result<(), AllocError> {
        self.name(name, case, kind)?;
        self.end_of_key()
    }

    /// Appends the colon after a key.
    fn end_of_key(&mut self) -> Result<(), AllocError> {
        self.follows = false;
        self.separate(':')
    }

    /// Appends a bracket before elements or keys.
    fn open(&mut self, bracket: char) -> Result<(), AllocError> {
        self.begin()?;
        self.follows = false;
        self.push(bracket)
    }

    /// Appends a bracket after elements or keys.
    fn close(&mut self, bracket: char) -> Result<(), AllocError> {
        self.follows = true;
        self.push(bracket)
    }
}

/// A value whose type derives `Serialize` has no floats, bytes or maps here; these are refused.
impl Serializer for JsonLine {
    type Error = AllocError;

    fn bool(&mut self, v: bool) -> Result<(), AllocError> {
        self.element(if v { "true" } else { "false" })
    }

    fn i64(&mut self, v: i64) -> Result<(), AllocError> {
        let text = format!(in self.alloc; "{v}")?;
        self.element(text.as_str())
    }

    fn u64(&mut self, v: u64) -> Result<(), AllocError> {
        let text = format!(in self.alloc; "{v}")?;
        self.element(text.as_str())
    }

    fn i128(&mut self, v: i128) -> Result<(), AllocError> {
        let text = format!(in self.alloc; "{v}")?;
        self.element(text.as_str())
    }

    fn u128(&mut self, v: u128) -> Result<(), AllocError> {
        let text = format!(in self.alloc; "{v}")?;
        self.element(text.as_str())
    }

    fn f32(&mut self, _v: f32) -> Result<(), AllocError> {
        Err(AllocError)
    }

    fn f64(&mut self, _v: f64) -> Result<(), AllocError> {
        Err(AllocError)
    }

    fn char(&mut self, v: char) -> Result<(), AllocError> {
        let mut text = String::new(self.alloc);
        text.push(v)?;
        self.string(text.as_str())
    }

    fn str(&mut self, v: &str) -> Result<(), AllocError> {
        self.string(v)
    }

    fn bytes(&mut self, _v: &[u8]) -> Result<(), AllocError> {
        Err(AllocError)
    }

    fn unit(&mut self) -> Result<(), AllocError> {
        self.element("null")
    }

    fn str_cased(&mut self, name: &str, case: Case) -> Result<(), AllocError> {
        self.name(name, case, NameKind::Variant)
    }

    fn begin_seq(&mut self, _len: Option<usize>) -> Result<(), AllocError> {
        self.open('[')
    }

    fn end_seq(&mut self) -> Result<(), AllocError> {
        self.close(']')
    }

    fn begin_map(&mut self, _len: Option<usize>) -> Result<(), AllocError> {
        self.open('{')
    }

    fn end_map(&mut self) -> Result<(), AllocError> {
        self.close('}')
    }

    fn key_cased(&mut self, name: &str, case: Case) -> Result<(), AllocError> {
        self.key_of(name, case, NameKind::Field)
    }

    fn variant_key(&mut self, name: &str, case: Case) -> Result<(), AllocError> {
        self.key_of(name, case, NameKind::Variant)
    }

    fn begin_key(&mut self) -> Result<(), AllocError> {
        Err(AllocError)
    }

    fn end_key(&mut self) -> Result<(), AllocError> {
        Err(AllocError)
    }

    fn flatten_next(&mut self) -> Result<(), AllocError> {
        Err(AllocError)
    }

    fn custom(&self, _message: &str) -> AllocError {
        AllocError
    }
}
