//! Parses the condition of a dependency, and evaluates it for a target.
//!
//! A condition is the name of a target or a `cfg(..)` expression. See "Platform specific dependencies" in the chapter
//! "Specifying dependencies" of Cargo's reference, and "Configuration predicates" in the Rust reference's chapter on
//! conditional compilation.

ghost use Rattle.std.specs.Prelude.{◌≡◌, ◌↔◌, ◌≤◌, ◌<◌, ◌+◌, ◌-◌, ◌^◌, ℕ, List, true, false, IsTrue, IfOk, map};
ghost use Rattle.std.specs.Prelude.{length, string_bytes, slice_index, Some, min, MatchOption};
ghost use Rattle.std.specs.declared.ops.Range.{Range};
ghost use Rattle.unicode.specs.GeneralCategory.{general_category};
ghost use Rattle.cargo_platform.specs.Trees.{Tree, Condition, Expression, value_of, condition_of};
ghost use Rattle.cargo_platform.specs.Facts.{fact_set, truth, IsTrueCondition, truth_of_condition};
ghost use Rattle.cargo_platform.specs.Asks.{asks_of_condition};
ghost use Rattle.cargo_platform.specs.Faults.{InvalidTarget};
ghost use Rattle.cargo_platform.specs.Platforms.{is_number_category, is_target_char, is_plain_byte, IsTargetName};
ghost use Rattle.cargo_platform.specs.Platforms.{IsFirstRefused, IsTargetMessage, IsTargetSpan, IsCfgOf, IsBare};
ghost use Rattle.cargo_platform.specs.Platforms.{IsConditionText, IsRefusedCondition, IsRefusedConditionAt};
ghost use Rattle.cargo_platform.specs.Errors.{IfParse, orig_of, fault_in, span_in};
ghost use Rattle.cargo_platform.specs.WellFormed.{IsWellFormedCondition};
ghost use Rattle.cargo_platform.specs.Print.{print_condition};

use crate::classes::{LANES, continues_identifier};
use crate::{Asks, Cfg, CfgExpr, Facts, ParseError, ParseErrorKind, Platform, ReadError};
use std::alloc::{AllocError, Global};
use std::ops::Range;
use std::simd::prelude::*;
use unicode::properties::{GeneralCategory, is_alphabetic};

impl Platform {
    /// Parses a condition.
    ///
    /// A text that begins with `cfg(` and ends with `)` is the expression between the two. If that is rejected, the
    /// error is about the text between them. Every other text is the name of a target, which consists of alphabetic
    /// characters, numbers, `_`, `-` and `.`. Nothing is trimmed, and the empty text is a name too. Alphabetic
    /// characters are those with that property of Unicode, and numbers are those of the general categories Nd, Nl and
    /// No.
    ///
    /// Returns `ReadError::Parse` with `InvalidTarget` if a name has any other character. Its message names `(` if the
    /// text has one anywhere, and else the first such character. Returns `ReadError::Memory` if an allocation fails.
    pub fn from_str(alloc: Global, s: &str) -> Result<Platform, ReadError>
        // `Ok` holds only what the text means under the grammar.
        ensures condition { IfOk result (λ p. IsConditionText s.now (condition_of p)) }
        // The error is that of the text between `cfg(` and `)`, or else that of the whole key.
        ensures fault { IfParse result (λ e. IsRefusedCondition s.now (orig_of e) (fault_in e)) }
        ensures span { IfParse result (λ e. IsRefusedConditionAt s.now (orig_of e) (fault_in e) (span_in e)) }
        // Results are well-formed.
        ensures well_formed { IfOk result (λ p. IsWellFormedCondition (condition_of p)) }
        // `Parse` is returned only for a text without a meaning. So every text that has a meaning is parsed if memory
        // suffices.
        ensures refused { IfParse result (λ _. (c : Condition) → IsConditionText s.now c → ⊥) }
        // Whatever is well-formed is parsed back, unchanged, from its printed text.
        ensures reads_back { (c : Condition) → IsWellFormedCondition c → s.now ≡ print_condition c
            → IfOk result (λ p. condition_of p ≡ c) × IfParse result (λ _. ⊥) }
    {
        if !is_plain(s) {
            if let Some(inner) = inside_cfg(s) {
                return match CfgExpr::from_str(alloc, inner) {
                    Ok(expression) => Ok(Platform::Cfg(expression)),
                    Err(error) => Err(error),
                };
            }
            if let Some(refused) = first_refused(s) {
                return match target_error(alloc, s, refused) {
                    Ok(error) => Err(ReadError::Parse(error)),
                    Err(error) => Err(ReadError::Memory(error)),
                };
            }
        }
        match String::from_str(alloc, s) {
            Ok(name) => Ok(Platform::Name(name)),
            Err(error) => Err(ReadError::Memory(error)),
        }
    }

    /// Returns whether the condition is true for a target with this name and these facts. A name is true if it is the
    /// target's name, and an expression if it is true over the facts, whatever the name.
    pub fn matches(&self, name: &str, cfg: &[Cfg]) -> bool
        // Truth depends on the set of facts: their order, repetitions and raw marks play no part.
        ensures truth { result
            ≡ truth_of_condition name.now (fact_set (map value_of cfg.now)) (condition_of self.now) }
        ensures applies { IsTrue result
            ↔ IsTrueCondition name.now (fact_set (map value_of cfg.now)) (condition_of self.now) }
    {
        match self {
            Platform::Name(target) => target.as_str() == name,
            Platform::Cfg(expression) => expression.matches(cfg),
        }
    }

    /// Returns whether the condition of a key is true for a target with this name and these facts, as `from_str` and
    /// `matches` do. The condition is evaluated while it is parsed, and is not created. An expression takes memory as
    /// `CfgExpr::matches_str` says, and the name of a target takes none.
    ///
    /// Returns `ReadError::Parse` for a key that `from_str` rejects, with the same error. Returns `ReadError::Memory`
    /// if an allocation fails.
    pub fn matches_str(alloc: Global, key: &str, name: &str, cfg: &[Cfg]) -> Result<bool, ReadError>
        // The answer is the truth of the condition that the key means.
        ensures truth { IfOk result (λ answer. (c : Condition) × IsConditionText key.now c
            × (answer ≡ truth_of_condition name.now (fact_set (map value_of cfg.now)) c)) }
        // The error is that of the text between `cfg(` and `)`, or else that of the whole key.
        ensures fault { IfParse result (λ e. IsRefusedCondition key.now (orig_of e) (fault_in e)) }
        ensures span { IfParse result (λ e. IsRefusedConditionAt key.now (orig_of e) (fault_in e) (span_in e)) }
        // `Parse` is returned only for a text without a meaning. So every text that has a meaning is evaluated if
        // memory suffices.
        ensures refused { IfParse result (λ _. (c : Condition) → IsConditionText key.now c → ⊥) }
    {
        if !is_plain(key) {
            if let Some(inner) = inside_cfg(key) {
                return match CfgExpr::matches_str(alloc, inner, cfg) {
                    Ok(is_true) => Ok(is_true),
                    Err(error) => Err(error),
                };
            }
            if let Some(refused) = first_refused(key) {
                return match target_error(alloc, key, refused) {
                    Ok(error) => Err(ReadError::Parse(error)),
                    Err(error) => Err(ReadError::Memory(error)),
                };
            }
        }
        Ok(key == name)
    }

    /// Returns whether the condition is true for a target with this name and the facts of the holder, as `matches`
    /// does, and the number of queries to the holder: none for a name, and for an expression as
    /// `CfgExpr::matches_counted` says.
    pub fn matches_counted<F: Facts>(&self, name: &str, facts: &F) -> (bool, Asks)
        // Truth depends on the set of facts: their order, repetitions and raw marks play no part.
        ensures truth { result.0 ≡ truth_of_condition name.now (F.meant facts.now) (condition_of self.now) }
        // The holder gets one query for each name and pair, from left to right, and none after a member that decides
        // its group.
        ensures asks { result.1 ≡ min (asks_of_condition (F.meant facts.now) (condition_of self.now)) (2 ^ 128 - 1) }
    {
        match self {
            Platform::Name(target) => (target.as_str() == name, Asks::none()),
            Platform::Cfg(expression) => expression.matches_counted(facts),
        }
    }
}

impl CfgExpr {
    /// Returns whether `key` is a `cfg(..)` condition whose expression is true over the facts in `cfg`. It is false for
    /// every other key: an expression that is not true, the name of a target, and a text that is rejected. The only
    /// error is that an allocation failed, which never counts as false.
    pub fn matches_key(alloc: Global, key: &str, cfg: &[Cfg]) -> Result<bool, AllocError>
        // `true` is returned only if the key means an expression that is true over the facts.
        ensures yes { IfOk result
            (λ answer. IsTrue answer
            → (e : Tree) × IsConditionText key.now (Expression e)
            × IsTrue (truth (fact_set (map value_of cfg.now)) e)) }
        // `false` is returned only if the key means no such expression.
        ensures otherwise { IfOk result
            (λ answer. answer ≡ false → (e : Tree) → IsConditionText key.now (Expression e)
            → truth (fact_set (map value_of cfg.now)) e ≡ false) }
    {
        let Some(inner) = inside_cfg(key) else {
            return Ok(false);
        };
        match CfgExpr::matches_str(alloc, inner, cfg) {
            Ok(is_true) => Ok(is_true),
            Err(ReadError::Parse(_)) => Ok(false),
            Err(ReadError::Memory(error)) => Err(error),
        }
    }
}

/// Returns the text between `cfg(` and `)`, if the text begins and ends with these. It need not be an expression.
/// Spaces outside of them are not skipped.
pub fn inside_cfg(text: &str) -> Option<&str>
    // The text between `cfg(` and `)`, or nothing if the text does not begin and end so.
    ensures { MatchOption result (IsBare text.now) (λ inner. IsCfgOf text.now inner.now) }
{
    text.strip_prefix("cfg(")?.strip_suffix(")")
}

/// Returns the first character that no target name may contain.
fn first_refused(name: &str) -> Option<char>
    ensures { MatchOption result (IsTargetName name.now) (λ c. IsFirstRefused name.now c) }
{
    name.chars().find(|c| !is_target_char(*c))
}

/// Returns whether all bytes of the name are plain, as those of every built-in target's name are. Such a name is not
/// `cfg(..)`, and none of its characters has to be looked up.
fn is_plain(name: &str) -> bool
    ensures { IsTrue result → IsTargetName name.now }
{
    let bytes = name.as_bytes();
    let mut at = 0;
    'by_block: while LANES <= bytes.len() - at {
        if !are_plain(bytes, at) {
            return false;
        }
        at += LANES;
    }
    'rest: while at < bytes.len() {
        if !is_plain_byte(bytes[at]) {
            return false;
        }
        at += 1;
    }
    true
}

/// Returns whether the next `LANES` bytes are plain.
#[inline(always)]
fn are_plain(bytes: &[u8], at: usize) -> bool
    requires { at + LANES ≤ length bytes.now }
    ensures { IsTrue result → (i : ℕ) → at ≤ i → i < at + LANES → is_plain_byte (slice_index bytes.now i) ≡ true }
{
    let lanes = u8x16::from_slice(&bytes[at..]);
    let letters = (lanes | u8x16::splat(0x20)) - u8x16::splat(b'a');
    let digits = lanes - u8x16::splat(b'0');
    let dash_or_point = lanes - u8x16::splat(b'-');
    let others = letters.simd_ge(u8x16::splat(26))
        & digits.simd_ge(u8x16::splat(10))
        & dash_or_point.simd_ge(u8x16::splat(2))
        & lanes.simd_ne(u8x16::splat(b'_'));
    others.to_bitmask() == 0
}

/// Returns whether the byte is `_`, `-`, `.`, an ASCII letter or an ASCII digit.
#[inline(always)]
fn is_plain_byte(byte: u8) -> bool
    ensures { result ≡ is_plain_byte byte }
{
    continues_identifier(byte) || byte == b'-' || byte == b'.'
}

/// Returns whether a target name may contain the character.
fn is_target_char(c: char) -> bool
    ensures { result ≡ is_target_char c }
{
    is_alphabetic(c) || is_number(c) || c == '_' || c == '-' || c == '.'
}

/// Returns whether the character is a number of any kind: a decimal digit, a letter number, or another.
fn is_number(c: char) -> bool
    ensures { result ≡ is_number_category (general_category c) }
{
    matches!(
        GeneralCategory::for_char(c),
        GeneralCategory::DecimalNumber
            | GeneralCategory::LetterNumber
            | GeneralCategory::OtherNumber
    )
}

/// Creates the error for a target name with this first rejected character.
#[cold]
#[inline(never)]
fn target_error(alloc: Global, name: &str, refused: char) -> Result<ParseError, AllocError>
    requires { IsFirstRefused name.now refused }
    ensures of { IfOk result (λ e. orig_of e ≡ name.now) }
    ensures why { IfOk result
        (λ e. (message : List ℕ) × IsTargetMessage name.now message × (fault_in e ≡ InvalidTarget message)) }
    ensures place { IfOk result (λ e. (at : Range ℕ) × IsTargetSpan name.now at × (span_in e ≡ Some at)) }
{
    let message = target_message(alloc, name, refused)?;
    let span = target_span(name, refused);
    let kind = ParseErrorKind::InvalidTarget(message);
    ParseError::with_span(alloc, name, kind, Some(span))
}

/// Returns the span of the fault in a target name with this first rejected character: the end if the name begins with
/// `cfg(`, and else that character.
fn target_span(name: &str, refused: char) -> Range<usize>
    requires { IsFirstRefused name.now refused }
    ensures { IsTargetSpan name.now result }
{
    if name.starts_with("cfg(") {
        return name.len()..name.len();
    }
    let Some(start) = name.find(refused) else {
        unreachable!()
    };
    start..start + refused.len_utf8()
}

/// Creates the message about a target name with this first rejected character.
fn target_message(alloc: Global, name: &str, refused: char) -> Result<String, AllocError>
    requires { IsFirstRefused name.now refused }
    ensures { IfOk result (λ message. IsTargetMessage name.now (string_bytes message)) }
{
    if name.contains('(') {
        return String::from_str(
            alloc,
            "unexpected `(` character, cfg expressions must start with `cfg(`",
        );
    }
    format!(in alloc; "unexpected character {refused} in target name")
}
