//! The class of a name or pair in a condition: a fact of rustc's, a mistake, or a custom fact.

ghost use Rattle.std.specs.Prelude.{◌≡◌, ◌↔◌, IfOk, IfSome, IsTrue, is_some};
ghost use Rattle.std.specs.List.{list_any};
ghost use Rattle.std.specs.Str.{str_eq_ignore_ascii_case};
ghost use Rattle.cargo_platform.specs.Trees.{Alone, KeyPair, value_of, condition_of};
ghost use Rattle.cargo_platform.specs.Warnings.{is_unsupported_name};
ghost use Rattle.known_targets.specs.Listed.{is_had};
ghost use Rattle.partial_facts.specs.Partly.{names_of};
ghost use Rattle.known_targets.specs.Rows.{plain};
ghost use Rattle.known_targets.specs.Table.{table_keys};
ghost use Rattle.predicate_classes.specs.Classes.{has_as_value, is_near_one, is_one_edit_from, category_of};
ghost use Rattle.predicate_classes.specs.Classes.{category_in, category_of_feature, category_of_panic, category_of_pair};
ghost use Rattle.predicate_classes.specs.Classes.{category_of_other, with_declaration, is_category, is_open_category};
ghost use Rattle.predicate_classes.specs.Classes.{is_word_for_rustcs, starts_like_key};
ghost use Rattle.predicate_classes.specs.Classes.{IsUnknownTarget};

use crate::rustc_names::{
    FLAG_DEPENDENT_KEYS, KEYS_WITH_VALUES, KEYS_WITHOUT_PREFIX, NAMES_WITHOUT_VALUE, OTHER_WORDS,
    PANIC_VALUES, PROFILE_WORDS, UNSTABLE_KEYS, UNSTABLE_NAMES, is_target_feature, pair,
};
use cargo_platform::{Cfg, Platform};
use known_targets::{KnownTarget, is_known_value, targets_with_fact};
use partial_facts::names::is_among;
use std::alloc::{AllocError, Global};
use strsim::osa_distance;

/// The keys with one value, and `target_family`, in the order in which their values are searched for a name.
const NAMED_BY_VALUE: [&str; 9] = [
    "target_os",
    "target_arch",
    "target_family",
    "target_env",
    "target_vendor",
    "target_abi",
    "target_endian",
    "target_pointer_width",
    "panic",
];

/// The length of the shortest name that is similar to another one, in bytes.
const SHORTEST: usize = 4;

/// What is known of a name or pair in a condition, in detail. A `Category` says it in fewer words.
#[derive(Clone, Copy, Debug, PartialEq, Eq, Drop)]
pub enum Class {
    /// rustc sets it for a known target, or may set it, depending on flags.
    Rustc,
    /// Cargo warns that it does not select dependencies.
    Unsupported,
    /// A value of this key that is used as a name.
    ValueAsName(&'static str),
    /// A key that has a value, used without one.
    NoValue,
    /// A name that has no value, used with one.
    WithValue,
    /// A value of the key that no known target has, or a feature that rustc has for no architecture.
    OtherValue,
    /// A value of the key `target`.
    TargetKey,
    /// One of rustc's keys without `target_`.
    Shortened,
    /// A setting of a profile.
    OfProfile,
    /// Another word for a fact of rustc's.
    OtherWord,
    /// A name or key that is one edit away from this one of rustc's, or differs only in the case of ASCII letters.
    Near(&'static str),
    /// Another name or key that begins with `target_`, as rustc's keys do.
    LikeKey,
    /// Only unstable features of rustc set it.
    Unstable,
    /// Only `--cfg` sets it.
    Custom,
    /// The manifest declares it: `--cfg` sets it, or a custom rustc.
    Declared,
}

/// What is known of a name or pair, in few words. Each `Class` belongs to one category.
#[derive(Clone, Copy, Debug, PartialEq, Eq, Drop)]
pub enum Category {
    /// rustc sets it for a known target, or may set it, depending on flags.
    Rustcs,
    /// Cargo warns about it.
    Unsupported,
    /// It is taken for a fact of rustc's, and is none, and the manifest does not declare it.
    Mistaken,
    /// Only `--cfg` or an unstable feature sets it, and the manifest does not declare it.
    Custom,
    /// No known target has it, and the manifest declares it.
    Declared,
}

impl Class {
    /// Returns the category of the class.
    pub fn category(self) -> Category
        ensures { result ≡ category_in self }
    {
        match self {
            Class::Rustc => Category::Rustcs,
            Class::Unsupported => Category::Unsupported,
            Class::ValueAsName(_)
            | Class::NoValue
            | Class::WithValue
            | Class::OtherValue
            | Class::TargetKey
            | Class::Shortened
            | Class::OfProfile
            | Class::OtherWord
            | Class::Near(_)
            | Class::LikeKey => Category::Mistaken,
            Class::Unstable => Category::Custom,
            Class::Custom => Category::Custom,
            Class::Declared => Category::Declared,
        }
    }

    /// Returns the class of the name or pair, given whether the manifest declares it.
    pub fn with_declaration(self, is_declared: bool) -> Class
        ensures { category_in result ≡ with_declaration is_declared (category_in self) }
    {
        match self {
            Class::Unstable if is_declared => Class::Declared,
            Class::Custom if is_declared => Class::Declared,
            _ if is_declared && self.category().is(Category::Mistaken) => Class::Declared,
            _ => self,
        }
    }
}

impl Category {
    /// Returns whether both categories are the same.
    pub fn is(self, other: Category) -> bool
        ensures { result ≡ is_category self other }
    {
        matches!(
            (self, other),
            (Category::Rustcs, Category::Rustcs)
                | (Category::Unsupported, Category::Unsupported)
                | (Category::Mistaken, Category::Mistaken)
                | (Category::Custom, Category::Custom)
                | (Category::Declared, Category::Declared)
        )
    }

    /// Returns whether facts of this category are open.
    pub fn is_open(self) -> bool
        ensures { result ≡ is_open_category self }
    {
        matches!(
            self,
            Category::Unsupported | Category::Custom | Category::Declared
        )
    }
}

/// Returns whether some known target has the fact. Raw marks are ignored.
fn is_had(c: &Cfg) -> bool
    ensures { result ≡ is_had table_keys (value_of c.now) }
{
    !targets_with_fact(c).is_empty()
}

/// Returns whether some known target has this value of the key. Fails if memory is refused.
pub fn is_value_of(alloc: Global, key: &str, value: &str) -> Result<bool, AllocError>
    ensures { IfOk result (λ has. has ≡ is_had table_keys (KeyPair (plain key.now) value.now)) }
{
    let pair = pair(alloc, key, value)?;
    Ok(is_had(&pair))
}

/// Returns the first of the keys for which a known target has this value, in lower case.
fn key_of_value(
    alloc: Global,
    value: &str,
    keys: &[&'static str],
) -> Result<Option<&'static str>, AllocError>
    ensures { IfOk result (λ key. is_some key ≡ list_any (has_as_value value.now) (names_of keys.now)) }
{
    let lower = value.to_ascii_lowercase(alloc)?;
    if !is_known_value(lower.as_str()) {
        return Ok(None);
    }
    'keys: for key in keys {
        if is_value_of(alloc, key, lower.as_str())? {
            return Ok(Some(*key));
        }
    }
    Ok(None)
}

/// Returns whether both are the same except for the case of ASCII letters.
fn is_same_but_case(text: &str, word: &str) -> bool
    ensures { result ≡ str_eq_ignore_ascii_case text.now word.now }
{
    text.as_bytes().eq_ignore_ascii_case(word.as_bytes())
}

/// Returns whether one edit changes a text into a word: a character is inserted, deleted or changed, two adjacent ones
/// are swapped, or the case of ASCII letters is changed.
fn is_one_edit(alloc: Global, text: &str, word: &str) -> Result<bool, AllocError>
    ensures { IfOk result (λ b. b ≡ is_one_edit_from text.now word.now) }
{
    if is_same_but_case(text, word) {
        return Ok(true);
    }
    Ok(word.len().abs_diff(text.len()) <= 1 && osa_distance(alloc, text, word)? == 1)
}

/// Returns the first of the words that is one edit away.
fn near(
    alloc: Global,
    text: &str,
    words: &[&'static str],
) -> Result<Option<&'static str>, AllocError>
    ensures { IfOk result (λ word. is_some word ≡ list_any (is_one_edit_from text.now) (names_of words.now)) }
{
    'words: for word in words {
        if is_one_edit(alloc, text, word)? {
            return Ok(Some(*word));
        }
    }
    Ok(None)
}

/// Returns the first of rustc's names and keys that is one edit away.
fn near_one(alloc: Global, text: &str) -> Result<Option<&'static str>, AllocError>
    ensures { IfOk result (λ word. is_some word ≡ is_near_one text.now) }
{
    if let Some(word) = near(alloc, text, &NAMES_WITHOUT_VALUE)? {
        return Ok(Some(word));
    }
    if let Some(word) = near(alloc, text, &FLAG_DEPENDENT_KEYS)? {
        return Ok(Some(word));
    }
    near(alloc, text, &KEYS_WITH_VALUES)
}

/// Returns the class of a name or key in lower case that people take for one of rustc's, whether or not one is similar
/// to it.
fn taken_for_rustcs(name: &str) -> Option<Class>
    ensures is_one { is_some result ≡ is_word_for_rustcs name.now }
    ensures mistaken { IfSome result (λ s. category_in s ≡ Category.Mistaken) }
{
    if is_among(name, &KEYS_WITHOUT_PREFIX) {
        return Some(Class::Shortened);
    }
    if is_among(name, &PROFILE_WORDS) {
        return Some(Class::OfProfile);
    }
    if is_among(name, &OTHER_WORDS) {
        return Some(Class::OtherWord);
    }
    None
}

/// Returns whether a name in lower case begins as rustc's keys do.
fn is_like_key(name: &str) -> bool
    ensures { result ≡ starts_like_key name.now }
{
    name.as_bytes().starts_with(b"target_")
}

/// Returns the class of a name or key that rustc does not have.
#[tactic(auto, unfolding(crate::specs::Classes::is_near))]
fn other(alloc: Global, name: &str) -> Result<Class, AllocError>
    ensures { IfOk result (λ s. category_in s ≡ category_of_other name.now) }
{
    let lower = name.to_ascii_lowercase(alloc)?;
    if let Some(class) = taken_for_rustcs(lower.as_str()) {
        return Ok(class);
    }
    if name.len() < SHORTEST {
        return Ok(Class::Custom);
    }
    match near_one(alloc, name)? {
        Some(word) => Ok(Class::Near(word)),
        None if is_like_key(lower.as_str()) => Ok(Class::LikeKey),
        None => Ok(Class::Custom),
    }
}

/// Returns whether Cargo warns that the name does not select dependencies.
fn is_unsupported(name: &str) -> bool
    ensures { result ≡ is_unsupported_name (plain name.now) }
{
    matches!(name, "test" | "debug_assertions" | "proc_macro")
}

/// Returns the class of a name without a value.
fn class_of_name(alloc: Global, name: &str) -> Result<Class, AllocError>
    ensures { IfOk result (λ s. category_in s ≡ category_of (Alone (plain name.now))) }
{
    if is_unsupported(name) {
        return Ok(Class::Unsupported);
    }
    if is_among(name, &NAMES_WITHOUT_VALUE) {
        return Ok(Class::Rustc);
    }
    if is_among(name, &UNSTABLE_NAMES) {
        return Ok(Class::Unstable);
    }
    if is_among(name, &KEYS_WITH_VALUES) {
        return Ok(Class::NoValue);
    }
    if is_among(name, &FLAG_DEPENDENT_KEYS) {
        return Ok(Class::Custom);
    }
    match key_of_value(alloc, name, &NAMED_BY_VALUE)? {
        Some(key) => Ok(Class::ValueAsName(key)),
        None => other(alloc, name),
    }
}

/// Returns the class of a value of `target_feature`.
fn class_of_feature(value: &str) -> Class
    ensures { category_in result ≡ category_of_feature value.now }
{
    if is_target_feature(value) {
        Class::Rustc
    } else {
        Class::OtherValue
    }
}

/// Returns the class of a value of `panic`.
fn class_of_panic(value: &str) -> Class
    ensures { category_in result ≡ category_of_panic value.now }
{
    if is_among(value, &PANIC_VALUES) {
        Class::Rustc
    } else {
        Class::OtherValue
    }
}

/// Returns the class of a pair with this key and value.
fn class_of_pair(alloc: Global, c: &Cfg, key: &str, value: &str) -> Result<Class, AllocError>
    ensures { IfOk result (λ s. category_in s ≡ category_of_pair key.now value.now
        (is_had table_keys (value_of c.now))) }
{
    if key == "feature" {
        return Ok(Class::Unsupported);
    }
    if key == "target_feature" {
        return Ok(class_of_feature(value));
    }
    if is_among(key, &FLAG_DEPENDENT_KEYS) {
        return Ok(class_of_panic(value));
    }
    if is_among(key, &KEYS_WITH_VALUES) {
        if is_had(c) {
            return Ok(Class::Rustc);
        }
        return Ok(Class::OtherValue);
    }
    if is_among(key, &NAMES_WITHOUT_VALUE) {
        return Ok(Class::WithValue);
    }
    if key == "target" {
        return Ok(Class::TargetKey);
    }
    if is_among(key, &UNSTABLE_KEYS) {
        return Ok(Class::Unstable);
    }
    other(alloc, key)
}

/// Returns the class of a name or pair. Raw marks are ignored. Fails if memory is refused.
pub fn class_of(alloc: Global, c: &Cfg) -> Result<Class, AllocError>
    ensures { IfOk result (λ s. category_in s ≡ category_of (value_of c.now)) }
{
    match c {
        Cfg::Name(name) => class_of_name(alloc, name.as_str()),
        Cfg::KeyPair(key, value) => class_of_pair(alloc, c, key.as_str(), value.as_str()),
    }
}

/// Returns whether a condition is the name of a target that is not known.
pub fn is_unknown_target(platform: &Platform) -> bool
    ensures { IsTrue result ↔ IsUnknownTarget (condition_of platform.now) }
{
    match platform {
        Platform::Name(name) => KnownTarget::by_name(name.as_str()).is_none(),
        Platform::Cfg(_) => false,
    }
}
