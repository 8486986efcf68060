//! The values and target names of rustc that people mean by other words, found by fixed rules, or one edit away.

use known_targets::{KnownTarget, names};
use predicate_classes::classes::is_value_of;
use std::alloc::{AllocError, Global};

/// The length of the shortest text, in bytes, that is similar to a word.
const SHORTEST: usize = 3;

/// Returns the number of bytes that are the same at the beginning.
fn common_front(text: &[u8], word: &[u8]) -> usize {
    text.iter()
        .zip(word)
        .take_while(|pair| *pair.0 == *pair.1)
        .count()
}

/// Returns the number of bytes that are the same at the end.
fn common_back(text: &[u8], word: &[u8]) -> usize {
    text.iter()
        .rev()
        .zip(word.iter().rev())
        .take_while(|pair| *pair.0 == *pair.1)
        .count()
}

/// Returns whether both are the same except for the case of ASCII letters.
fn is_same_but_case(text: &[u8], word: &[u8]) -> bool {
    text.len() == word.len()
        && text
            .iter()
            .zip(word)
            .all(|pair| pair.0.eq_ignore_ascii_case(pair.1))
}

/// Returns whether one edit changes a text into a word: one byte is changed, inserted or deleted, or two adjacent bytes
/// are swapped. A difference in ASCII case only is one edit too. Returns `false` for a text of fewer than 3 bytes.
pub fn is_one_edit(text: &str, word: &str) -> bool {
    if text.len() < SHORTEST || text.len().abs_diff(word.len()) > 1 {
        return false;
    }
    let text = text.as_bytes();
    let word = word.as_bytes();
    if is_same_but_case(text, word) {
        return true;
    }
    let front = common_front(text, word);
    let text = text.get(front..).unwrap_or(&[]);
    let word = word.get(front..).unwrap_or(&[]);
    let back = common_back(text, word);
    match (
        text.len().saturating_sub(back),
        word.len().saturating_sub(back),
    ) {
        (0, 1) | (1, 0) | (1, 1) => true,
        (2, 2) => text.first() == word.get(1) && text.get(1) == word.first(),
        _ => false,
    }
}

/// Returns the first of the words that is one edit away from a text.
pub fn near<'a>(text: &str, words: &[&'a str]) -> Option<&'a str> {
    for word in words {
        if is_one_edit(text, word) {
            return Some(*word);
        }
    }
    None
}

/// Values, and other words that people use for them.
const OTHER_WORDS: &[(&str, &[&str])] = &[
    ("macos", &["darwin", "mac", "macosx", "osx"]),
    ("windows", &["win", "win32", "win64"]),
    ("dragonfly", &["dragonflybsd"]),
    ("x86_64", &["amd64", "x64", "x86-64"]),
    ("x86", &["i386", "i486", "i586", "i686"]),
    ("aarch64", &["arm64"]),
    ("arm", &["armv5", "armv6", "armv7"]),
    ("wasm32", &["wasm"]),
    (
        "gnu",
        &[
            "glibc",
            "mingw",
            "mingw32",
            "mingw64",
            "gnueabi",
            "gnueabihf",
        ],
    ),
    ("musl", &["musleabi", "musleabihf"]),
    (
        "little",
        &["le", "little-endian", "little_endian", "littleendian"],
    ),
    ("big", &["be", "big-endian", "big_endian", "bigendian"]),
    ("16", &["16bit", "16-bit"]),
    ("32", &["32bit", "32-bit"]),
    ("64", &["64bit", "64-bit"]),
];

/// Returns the value that people mean by another word.
fn other_word(word: &str) -> Option<&'static str> {
    for (value, words) in OTHER_WORDS {
        if words.contains(&word) {
            return Some(*value);
        }
    }
    None
}

/// Returns the value of the key that is meant by another word, by a fixed rule. Fails if memory is refused.
pub fn meant_value(
    alloc: Global,
    key: &str,
    word: &str,
) -> Result<Option<&'static str>, AllocError> {
    match other_word(word) {
        Some(meant) => {
            if is_value_of(alloc, key, meant)? {
                Ok(Some(meant))
            } else {
                Ok(None)
            }
        }
        None => Ok(None),
    }
}

/// Returns the name if a known target has it.
pub fn if_known(name: String) -> Option<String> {
    if KnownTarget::by_name(name.as_str()).is_some() {
        Some(name)
    } else {
        None
    }
}

/// Returns what is meant by the first part of a target's name, by a fixed rule.
fn first_by_rule(first: &str) -> &str {
    match first {
        "i386" => "i686",
        "riscv64" => "riscv64gc",
        _ => other_word(first).unwrap_or(first),
    }
}

/// Returns the rest of a target's name without a vendor.
fn without_vendor(rest: &str) -> &str {
    for vendor in ["unknown-", "pc-", "apple-", "w64-"] {
        if let Some(system) = rest.strip_prefix(vendor) {
            return system;
        }
    }
    rest
}

/// Returns what is meant by the rest of a target's name after its first part, by a fixed rule. A system without an
/// environment has the one of rustup's hosts.
fn rest_by_rule(rest: &str) -> &str {
    match without_vendor(rest) {
        "macos" | "macosx" | "osx" | "darwin" | "mac" => "apple-darwin",
        "linux" => "unknown-linux-gnu",
        "windows" | "win32" | "win64" | "win" => "pc-windows-msvc",
        "mingw32" | "mingw64" => "pc-windows-gnu",
        "android" => "linux-android",
        system => system,
    }
}

/// Returns the name of the known target that is meant by its first part and the rest, by a fixed rule: the vendor is
/// missing or another one, or other words stand for the last parts.
fn target_by_rule(alloc: Global, first: &str, rest: &str) -> Result<Option<String>, AllocError> {
    let rest = rest_by_rule(rest);
    for vendor in ["", "unknown-", "pc-", "apple-"] {
        let name = if_known(format!(in alloc; "{first}-{vendor}{rest}")?);
        if name.is_some() {
            return Ok(name);
        }
    }
    Ok(None)
}

/// Returns the name of the known target that is meant by these parts, where the first part is taken as it is, or as
/// another word.
fn target_of_parts(alloc: Global, first: &str, rest: &str) -> Result<Option<String>, AllocError> {
    let name = target_by_rule(alloc, first, rest)?;
    if name.is_some() {
        return Ok(name);
    }
    target_by_rule(alloc, first_by_rule(first), rest)
}

/// Returns the name of the known target that is meant by a text whose first or last part is the architecture.
fn target_in_order(alloc: Global, text: &str) -> Result<Option<String>, AllocError> {
    if let Some((first, rest)) = text.split_once('-') {
        let name = target_of_parts(alloc, first, rest)?;
        if name.is_some() {
            return Ok(name);
        }
    }
    match text.rsplit_once('-') {
        Some((rest, first)) => target_of_parts(alloc, first, rest),
        None => Ok(None),
    }
}

/// Returns whether a byte separates the parts of a name.
fn is_separator(byte: u8) -> bool {
    matches!(byte, b'-' | b'_' | b'.')
}

/// Returns whether both are the same except for ASCII case and separators.
pub fn is_same_but_separators(text: &str, word: &str) -> bool {
    let mut others = word.bytes().filter(|byte| !is_separator(*byte));
    for byte in text.bytes().filter(|byte| !is_separator(*byte)) {
        match others.next() {
            Some(other) if other.eq_ignore_ascii_case(&byte) => {}
            _ => return false,
        }
    }
    others.next().is_none()
}

/// Returns whether a name has this part.
fn has_part(name: &str, part: &str) -> bool {
    for other in name.split('-') {
        if other == part {
            return true;
        }
    }
    false
}

/// Returns whether each part of a text is a part of the name, which has at most one part more, and not the last one.
fn has_parts(name: &str, text: &str) -> bool {
    match name.rsplit_once('-') {
        Some((_, last)) if has_part(text, last) => {}
        _ => return false,
    }
    let mut left: usize = 1;
    for part in text.split('-') {
        if part.is_empty() || !has_part(name, part) {
            return false;
        }
        left = left.saturating_add(1);
    }
    for _part in name.split('-') {
        if left == 0 {
            return false;
        }
        left = left.saturating_sub(1);
    }
    true
}

/// Returns the name of the only known target that has all parts of a text, in any order, and at most one part more.
fn target_with_parts(text: &str) -> Option<&'static str> {
    let mut found = None;
    if !text.contains('-') {
        return None;
    }
    for name in names() {
        if has_parts(name, text) {
            if found.is_some() {
                return None;
            }
            found = Some(*name);
        }
    }
    found
}

/// Returns the name of the known target that a text is except for ASCII case and separators, or that is one edit away,
/// or has the same parts.
fn similar_target(text: &str) -> Option<&'static str> {
    for name in names() {
        if is_same_but_separators(text, name) {
            return Some(*name);
        }
    }
    match near(text, names()) {
        Some(name) => Some(name),
        None => target_with_parts(text),
    }
}

/// Returns the name of the known target that is meant by a text: by a fixed rule, or because it is one edit away. Fails
/// if memory is refused.
pub fn nearest_target(alloc: Global, text: &str) -> Result<Option<String>, AllocError> {
    if text == "wasm32-wasi" {
        return Ok(Some(String::from_str(alloc, "wasm32-wasip1")?));
    }
    let name = target_in_order(alloc, text)?;
    if name.is_some() {
        return Ok(name);
    }
    match similar_target(text) {
        Some(name) => Ok(Some(String::from_str(alloc, name)?)),
        None => Ok(None),
    }
}
