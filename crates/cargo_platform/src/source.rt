//! The characters of a text, which can be seen by counted looks alone.
//!
//! `Source` keeps its text private, and counts what is examined. A look asks what is at one position, a character or
//! the end of the text, and counts one. A scan counts each byte that it compares: all lanes of a block of bytes that
//! are compared at once, and one for any other byte or the end. `spend` returns the count. A call also returns what
//! ended it, so that nobody has to look there again. A name or a value is returned by the scan that went over it. The
//! only other text is returned by `rest_from`: nobody has looked at it, and it can't be read before the source is
//! spent. `Tokenizer::rest` is the only call that reads without counting, since it returns what was not looked at.

ghost use Rattle.std.specs.Prelude.{◌≡◌, ◌≢◌, ℕ, ◌+◌, ◌-◌, ◌^◌, ◌<◌, ◌≤◌, true, false, length, drop, slice_index};
ghost use Rattle.std.specs.Prelude.{slice_range, IfSome, IfNone, MatchOption};
ghost use Rattle.std.specs.Str.{IsUtf8, IsCharBoundary};
ghost use Rattle.cargo_platform.specs.Chars.{is_identifier_start, is_identifier_rest};
ghost use Rattle.cargo_platform.specs.Cut.{AreSpaces};
ghost use Rattle.cargo_platform.specs.Reading.{characters_from};
ghost use Rattle.cargo_platform.specs.Inside.Looking.{IsCharAt, Shows, AreBetween, Costs, Compares, IsRun};
ghost use Rattle.cargo_platform.specs.Inside.Looking.{Adds, Scans, character_of, is_no_quote};

mod rest;

use crate::classes::{LANES, continues_identifier, identifier_run};
use crate::refusal::Unread;
use std::marker::Model;
use std::simd::prelude::*;

/// The number of looks at a source. Only spending a source creates one.
#[derive(Drop)]
pub struct Looks {
    count: usize,
}

impl Model for Looks {
    ghost use Rattle.std.specs.Prelude.{ℕ};

    ghost Value = { ℕ };

    ghost view = { λ looks. looks.count };
}

impl Looks {
    /// Returns the number of looks.
    pub fn count(&self) -> u128
        ensures { result ≡ self.now }
    {
        self.count as u128
    }
}

/// What a look finds: the end of the text, or a character.
#[derive(Clone, Copy)]
pub(crate) enum Look {
    End,
    /// A character below 128.
    Ascii(u8),
    /// Any other character.
    Wide(char),
}

/// Returns the character that a look found, unless it found the end.
#[inline(always)]
pub(crate) fn character_of(look: Look) -> Option<char>
    ensures { result ≡ character_of look }
{
    match look {
        Look::End => None,
        Look::Ascii(byte) => Some(byte as char),
        Look::Wide(c) => Some(c),
    }
}

/// A text, and how often it was looked at.
#[derive(Drop)]
pub(crate) struct Source<'a> {
    text: &'a str,
    looks: usize,
}

impl<'a> Source<'a> {
    /// Wraps a text that was not looked at yet.
    pub fn new(text: &'a str) -> Source<'a>
        ensures text { result.text.now ≡ text.now }
        ensures looks { result.looks ≡ 0 }
    {
        Source { text, looks: 0 }
    }

    /// Returns what is at a byte position. Counts one look.
    #[inline(always)]
    pub fn look(&mut self, at: usize) -> Look
        requires { IsCharBoundary self.old.text.now at }
        ensures same { self.new.text ≡ self.old.text }
        ensures sees { Shows self.old.text.now at result }
        ensures cost { Costs self.old.text.now at at 1 1 self.old.looks self.new.looks }
        ensures counted { Adds 1 self.old.looks self.new.looks }
    {
        self.add_looks(1);
        character_at(self.text, at)
    }

    /// Returns the first position from `from` on that has no space, and what is there. `first` is what a look at `from`
    /// found. If there is a space, the bytes that the scan compares are counted, and a look at the position.
    #[inline(always)]
    pub fn past_spaces(&mut self, from: usize, first: Look) -> (usize, Look)
        requires begin { IsCharBoundary self.old.text.now from }
        requires seen { Shows self.old.text.now from first }
        ensures same { self.new.text ≡ self.old.text }
        ensures boundary { IsCharBoundary self.old.text.now result.0 }
        ensures spaces { AreSpaces self.old.text.now from result.0 }
        ensures sees { Shows self.old.text.now result.0 result.1 }
        ensures past { slice_index self.old.text.now result.0 ≢ 0x20 }
        ensures cost { Costs self.old.text.now from result.0 0 0 self.old.looks self.new.looks }
        ensures counted { slice_index self.old.text.now from ≡ 0x20
            → Adds (result.0 - from + 1) self.old.looks self.new.looks }
    {
        let Look::Ascii(byte) = first else {
            return (from, first);
        };
        if byte != b' ' {
            return (from, first);
        }
        let end = spaces_end(self.text, from + 1);
        self.add_looks(end - from);
        let seen = self.look(end);
        (end, seen)
    }

    /// Returns the name that begins at `start`, the position where it ends, and what is there. `second` is what a look
    /// after its first character found. If the name goes on there, the bytes that the scan of its further characters
    /// compares are counted, and a look at its end.
    #[inline(always)]
    pub fn name(&mut self, start: usize, second: Look) -> (&'a str, usize, Look)
        requires begin { IsCharBoundary self.old.text.now start }
        requires first { is_identifier_start (slice_index self.old.text.now start) ≡ true }
        requires behind { IsCharBoundary self.old.text.now (start + 1) }
        requires seen { Shows self.old.text.now (start + 1) second }
        ensures same { self.new.text ≡ self.old.text }
        ensures name { result.0.now ≡ slice_range self.old.text.now start result.1 }
        ensures order { start + 1 ≤ result.1 }
        ensures boundary { IsCharBoundary self.old.text.now result.1 }
        ensures rest { (i : ℕ) → start + 1 ≤ i → i < result.1
            → is_identifier_rest (slice_index self.old.text.now i) ≡ true }
        ensures end { is_identifier_rest (slice_index self.old.text.now result.1) ≡ false }
        ensures sees { Shows self.old.text.now result.1 result.2 }
        ensures cost { Costs self.old.text.now (start + 1) result.1 8 0 self.old.looks self.new.looks }
        ensures counted { is_identifier_rest (slice_index self.old.text.now (start + 1)) ≡ true
            → Scans self.old.text.now (start + 2) result.1 1 self.old.looks self.new.looks }
    {
        let (end, seen) = self.past_identifier(start + 1, second);
        let text: &'a str = self.text;
        (&text[start..end], end, seen)
    }

    /// Returns the first position from `from` on that has no character of an identifier, and what is there. `first` is
    /// what a look at `from` found.
    #[inline(always)]
    fn past_identifier(&mut self, from: usize, first: Look) -> (usize, Look)
        requires begin { IsCharBoundary self.old.text.now from }
        requires seen { Shows self.old.text.now from first }
        ensures same { self.new.text ≡ self.old.text }
        ensures order { from ≤ result.0 }
        ensures boundary { IsCharBoundary self.old.text.now result.0 }
        ensures rest { (i : ℕ) → from ≤ i → i < result.0 → is_identifier_rest (slice_index self.old.text.now i) ≡ true }
        ensures end { is_identifier_rest (slice_index self.old.text.now result.0) ≡ false }
        ensures sees { Shows self.old.text.now result.0 result.1 }
        ensures cost { Costs self.old.text.now from result.0 8 0 self.old.looks self.new.looks }
        ensures counted { is_identifier_rest (slice_index self.old.text.now from) ≡ true
            → Scans self.old.text.now (from + 1) result.0 1 self.old.looks self.new.looks }
    {
        let Look::Ascii(byte) = first else {
            return (from, first);
        };
        if !continues_identifier(byte) {
            return (from, first);
        }
        let (end, compared) = identifier_end(self.text, from + 1);
        self.add_looks(compared);
        let seen = self.look(end);
        (end, seen)
    }

    /// Returns the text from `from` up to the first quote, and the position of the quote. The bytes that the scan
    /// compares are counted, up to the quote or the end of the text.
    #[inline(always)]
    pub fn value(&mut self, from: usize) -> Option<(&'a str, usize)>
        requires { IsCharBoundary self.old.text.now from }
        ensures same { self.new.text ≡ self.old.text }
        ensures value { IfSome result (λ r. r.0.now ≡ slice_range self.old.text.now from r.1) }
        ensures utf8 { IfSome result (λ r. IsUtf8 r.0.now) }
        ensures order { IfSome result (λ r. from ≤ r.1) }
        ensures at_quote { IfSome result (λ r. IsCharAt self.old.text.now r.1 0x22) }
        ensures inside { IfSome result (λ r.
            (i : ℕ) → from ≤ i → i < r.1 → slice_index self.old.text.now i ≢ 0x22) }
        ensures none { IfNone result ((i : ℕ) → from ≤ i → slice_index self.old.text.now i ≢ 0x22) }
        ensures cost { IfSome result (λ r. Costs self.old.text.now from r.1 16 1 self.old.looks self.new.looks) }
        ensures cost_to_end { IfNone result
            (Costs self.old.text.now from (length self.old.text.now) 1 1 self.old.looks self.new.looks) }
        ensures counted { MatchOption result
            (Scans self.old.text.now from (length self.old.text.now) 0 self.old.looks self.new.looks)
            (λ r. Scans self.old.text.now from r.1 0 self.old.looks self.new.looks) }
    {
        let text: &'a str = self.text;
        let (end, compared) = value_end(text, from);
        self.add_looks(compared);
        if end < text.len() {
            Some((&text[from..end], end))
        } else {
            None
        }
    }

    /// Returns the text from a byte position on, in a form that can't be read.
    #[inline(always)]
    pub fn rest_from(&self, at: usize) -> Unread<'a>
        requires { IsCharBoundary self.now.text.now at }
        ensures { result.text.now ≡ drop at self.now.text.now }
    {
        let text: &'a str = self.text;
        Unread::new(&text[at..])
    }

    /// Returns the looks that were made.
    pub fn spend(self) -> Looks
        ensures { result ≡ self.entry.looks }
    {
        let Source { text: _, looks } = self;
        Looks { count: looks }
    }

    /// Adds looks, up to the greatest count.
    #[inline(always)]
    fn add_looks(&mut self, looks: usize)
        ensures same { self.new.text ≡ self.old.text }
        ensures grows { self.old.looks ≤ self.new.looks }
        ensures at_most { self.new.looks ≤ self.old.looks + looks }
        ensures at_least { self.new.looks < 2 ^ 64 - 1 → self.old.looks + looks ≤ self.new.looks }
        ensures counted { Adds looks self.old.looks self.new.looks }
    {
        self.looks = self.looks.saturating_add(looks);
    }
}

/// Returns what is at a byte position.
#[inline(always)]
fn character_at(text: &str, at: usize) -> Look
    requires { IsCharBoundary text.now at }
    ensures { Shows text.now at result }
{
    let bytes = text.as_bytes();
    if at >= bytes.len() {
        return Look::End;
    }
    let byte = bytes[at];
    if byte < 0x80 {
        return Look::Ascii(byte);
    }
    Look::Wide(wide_char_at(text, at))
}

/// Decodes the character at a byte position.
#[cold]
#[inline(never)]
fn wide_char_at(text: &str, at: usize) -> char
    requires begin { IsCharBoundary text.now at }
    requires some { at < length text.now }
    ensures { IsCharAt text.now at result }
{
    let Some(c) = text[at..].chars().next() else {
        unreachable!()
    };
    c
}

/// Returns the first position from `from` on that has no space. Compares each byte up to that position, and the one
/// there.
#[inline(always)]
fn spaces_end(text: &str, from: usize) -> usize
    requires { IsCharBoundary text.now from }
    ensures order { from ≤ result }
    ensures boundary { IsCharBoundary text.now result }
    ensures spaces { (i : ℕ) → from ≤ i → i < result → slice_index text.now i ≡ 0x20 }
    ensures past { slice_index text.now result ≢ 0x20 }
    ensures characters { characters_from text.now from ≡ characters_from text.now result + (result - from) }
{
    let bytes = text.as_bytes();
    let mut at = from;
    'spaces: while at < bytes.len() && bytes[at] == b' ' {
        at += 1;
    }
    at
}

/// Returns the first position from `from` on that has no character of an identifier, and the number of bytes compared.
#[inline(always)]
fn identifier_end(text: &str, from: usize) -> (usize, usize)
    requires { IsCharBoundary text.now from }
    ensures order { from ≤ result.0 }
    ensures boundary { IsCharBoundary text.now result.0 }
    ensures rest { (i : ℕ) → from ≤ i → i < result.0 → is_identifier_rest (slice_index text.now i) ≡ true }
    ensures end { is_identifier_rest (slice_index text.now result.0) ≡ false }
    ensures characters { characters_from text.now from ≡ characters_from text.now result.0 + (result.0 - from) }
    ensures compared { Compares (length text.now - from) (result.0 - from) result.1 }
{
    let bytes = text.as_bytes();
    let mut at = from;
    'by_block: while LANES <= bytes.len() - at {
        let run = identifier_run(bytes, at);
        if run < LANES {
            return (at + run, at - from + LANES);
        }
        at += LANES;
    }
    'rest: while at < bytes.len() && continues_identifier(bytes[at]) {
        at += 1;
    }
    (at, at - from + 1)
}

/// Returns the position of the first quote from `from` on, or else the end, and the number of bytes compared.
#[inline(always)]
fn value_end(text: &str, from: usize) -> (usize, usize)
    requires { IsCharBoundary text.now from }
    ensures order { from ≤ result.0 }
    ensures within { result.0 ≤ length text.now }
    ensures value { (i : ℕ) → from ≤ i → i < result.0 → slice_index text.now i ≢ 0x22 }
    ensures quote { result.0 < length text.now → IsCharAt text.now result.0 0x22 }
    ensures between { AreBetween text.now from result.0 }
    ensures compared { Compares (length text.now - from) (result.0 - from) result.1 }
{
    quote_from(text.as_bytes(), from)
}

/// Returns the position of the first quote from `from` on, or else the end, and the number of bytes compared.
#[inline(always)]
fn quote_from(bytes: &[u8], from: usize) -> (usize, usize)
    requires { from ≤ length bytes.now }
    ensures order { from ≤ result.0 }
    ensures within { result.0 ≤ length bytes.now }
    ensures value { (i : ℕ) → from ≤ i → i < result.0 → slice_index bytes.now i ≢ 0x22 }
    ensures quote { result.0 < length bytes.now → slice_index bytes.now result.0 ≡ 0x22 }
    ensures compared { Compares (length bytes.now - from) (result.0 - from) result.1 }
{
    let mut at = from;
    'by_block: while LANES <= bytes.len() - at {
        if let Some(before) = quote_in_block(bytes, at) {
            return (at + before, at - from + LANES);
        }
        at += LANES;
    }
    'value: while at < bytes.len() && bytes[at] != b'"' {
        at += 1;
    }
    (at, at - from + 1)
}

/// Returns how many of the next `LANES` bytes come before the first quote, if there is a quote among them.
#[inline(always)]
fn quote_in_block(bytes: &[u8], at: usize) -> Option<usize>
    requires { at + LANES ≤ length bytes.now }
    ensures none { IfNone result (IsRun is_no_quote bytes.now at LANES LANES) }
    ensures some { IfSome result (λ run. IsRun is_no_quote bytes.now at LANES run) }
    ensures among { IfSome result (λ run. run < LANES) }
{
    let lanes = u8x16::from_slice(&bytes[at..]);
    let quotes = lanes.simd_eq(u8x16::splat(b'"')).to_bitmask();
    if quotes == 0 {
        return None;
    }
    Some(quotes.trailing_zeros() as usize)
}
