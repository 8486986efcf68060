//! Texts in one string, and their places there.

ghost use Rattle.std.specs.Prelude.{◌≡◌, IfOk, OnOk, string_bytes, slice_index};
ghost use Rattle.cargo_platform.specs.Places.{is_boundary, is_place, text_at, text_hash, hashed_in, hashed_at};
ghost use Rattle.cargo_platform.specs.Places.{hashed_cmp, name_order, HashedPair, hashed_pair_at, hashed_pair_cmp};
ghost use Rattle.cargo_platform.specs.Places.{pair_order, HasText, HasHashed, HasPair, KeepsTexts};

use std::alloc::AllocError;
use std::cmp::Ordering;

/// The place of a text in a string of texts.
#[derive(Clone, Copy)]
pub(crate) struct Place {
    start: usize,
    end: usize,
}

impl Place {
    /// Appends a text to `texts`, and returns its place. Fails only if an allocation fails.
    #[inline(always)]
    fn append(texts: &mut String, text: &str) -> Result<Place, AllocError>
        ensures text { IfOk result (λ place. HasText (string_bytes texts.new) place text.now) }
        ensures others { OnOk result (KeepsTexts (string_bytes texts.old) (string_bytes texts.new)) }
    {
        let start = texts.len();
        texts.push_str(text)?;
        Ok(Place {
            start,
            end: texts.len(),
        })
    }

    /// Returns the text, or an empty one if no text of `texts` can be there.
    #[inline(always)]
    #[tactic(auto, unfolding(crate::specs::Places::is_place, crate::specs::Places::text_at))]
    fn text(self, texts: &str) -> &str
        ensures { result.now ≡ text_at texts.now self }
    {
        if self.is_in(texts) {
            &texts[self.start..self.end]
        } else {
            ""
        }
    }

    /// Returns whether a text can be at this place.
    #[inline(always)]
    #[tactic(auto, unfolding(crate::specs::Places::is_place))]
    fn is_in(self, texts: &str) -> bool
        ensures { result ≡ is_place texts.now self }
    {
        self.start <= self.end && is_boundary(texts, self.start) && is_boundary(texts, self.end)
    }
}

/// Returns whether a character of the text begins at the position, or the text ends there.
#[inline(always)]
fn is_boundary(text: &str, at: usize) -> bool
    ensures { result ≡ is_boundary text.now at }
{
    text.is_char_boundary(at)
}

/// A text, and its hash.
#[derive(Clone, Copy)]
pub(crate) struct HashedText<'a> {
    hash: u32,
    text: &'a str,
}

impl<'a> HashedText<'a> {
    /// Returns a text with its hash.
    #[inline(always)]
    pub fn new(text: &'a str) -> HashedText<'a>
        ensures hash { result.hash ≡ text_hash text.now }
        ensures text { result.text.now ≡ text.now }
    {
        HashedText {
            hash: text_hash(text),
            text,
        }
    }
}

/// The place of a text in a string of texts, and the hash of that text.
#[derive(Clone, Copy)]
pub(crate) struct HashedPlace {
    hash: u32,
    place: Place,
}

impl HashedPlace {
    /// Appends a text to `texts`, and returns its place. Fails only if an allocation fails.
    #[inline(always)]
    pub fn append(texts: &mut String, text: &str) -> Result<HashedPlace, AllocError>
        ensures text { IfOk result (λ place. HasHashed (string_bytes texts.new) place text.now) }
        ensures others { OnOk result (KeepsTexts (string_bytes texts.old) (string_bytes texts.new)) }
    {
        let place = Place::append(texts, text)?;
        Ok(HashedPlace {
            hash: text_hash(text),
            place,
        })
    }

    /// Orders two texts of `texts`: by their hashes, which mostly differ, and then by their bytes.
    #[inline(always)]
    pub fn compare(self, texts: &str, other: HashedPlace) -> Ordering
        ensures { result ≡ name_order texts.now self other }
    {
        if self.hash == other.hash {
            return self.place.text(texts).cmp(other.place.text(texts));
        }
        self.hash.cmp(&other.hash)
    }

    /// Orders a text of `texts` and another text in the same way.
    #[inline(always)]
    pub fn compare_with(self, texts: &str, other: HashedText<'_>) -> Ordering
        ensures { result ≡ hashed_cmp (hashed_at texts.now self) (hashed_in other.entry) }
    {
        if self.hash == other.hash {
            return self.place.text(texts).cmp(other.text);
        }
        self.hash.cmp(&other.hash)
    }
}

/// Returns a hash of a text: its length, up to 255, and its first three bytes.
#[inline(always)]
#[tactic(auto, unfolding(crate::specs::Places::text_hash))]
fn text_hash(text: &str) -> u32
    ensures { result ≡ text_hash text.now }
{
    let bytes = text.as_bytes();
    let length = bytes.len().min(255) as u8;
    u32::from_be_bytes([
        length,
        byte_at(bytes, 0),
        byte_at(bytes, 1),
        byte_at(bytes, 2),
    ])
}

/// Returns the byte at an index, or 0 past the end.
#[inline(always)]
fn byte_at(bytes: &[u8], index: usize) -> u8
    ensures { result ≡ slice_index bytes.now index }
{
    if index < bytes.len() { bytes[index] } else { 0 }
}

/// The places of a key and of its value in a string of texts.
#[derive(Clone, Copy)]
pub(crate) struct PairPlace {
    value: HashedPlace,
    key: Place,
}

impl PairPlace {
    /// Appends a key and its value to `texts`, and returns their places. Fails only if an allocation fails.
    #[inline(always)]
    pub fn append(texts: &mut String, key: &str, value: &str) -> Result<PairPlace, AllocError>
        ensures pair { IfOk result (λ place. HasPair (string_bytes texts.new) place key.now value.now) }
        ensures others { OnOk result (KeepsTexts (string_bytes texts.old) (string_bytes texts.new)) }
    {
        let key = Place::append(texts, key)?;
        let value = HashedPlace::append(texts, value)?;
        Ok(PairPlace { value, key })
    }

    /// Orders two pairs of `texts`: by their values, which mostly differ, and then by their keys.
    #[inline(always)]
    pub fn compare(self, texts: &str, other: PairPlace) -> Ordering
        ensures { result ≡ pair_order texts.now self other }
    {
        match self.value.compare(texts, other.value) {
            Ordering::Equal => self.key.text(texts).cmp(other.key.text(texts)),
            unequal => unequal,
        }
    }

    /// Orders a pair of `texts` and another pair in the same way.
    #[inline(always)]
    pub fn compare_with(self, texts: &str, key: &str, value: HashedText<'_>) -> Ordering
        ensures { result ≡ hashed_pair_cmp (hashed_pair_at texts.now self)
            (record { key = key.now; value = hashed_in value.entry }) }
    {
        match self.value.compare_with(texts, value) {
            Ordering::Equal => self.key.text(texts).cmp(key),
            unequal => unequal,
        }
    }
}
