//! The features that people mean by values of `target_feature` that rustc has for no architecture.

use crate::meant::{is_one_edit, is_same_but_separators};
use predicate_classes::rustc_names::target_features;
use std::alloc::{AllocError, Global};

/// Returns the feature that is one edit away, if there is only one.
fn one_near(text: &str) -> Option<&'static str> {
    let mut found = None;
    for feature in target_features() {
        if is_one_edit(text, feature) {
            if found.is_some() {
                return None;
            }
            found = Some(*feature);
        }
    }
    found
}

/// Returns the feature that is meant by a text: one that differs only in ASCII case and separators, or that is one edit
/// away. `sse4` is `sse4.2`, as for compilers of C.
fn meant_feature(text: &str) -> Option<&'static str> {
    if text == "sse4" {
        return Some("sse4.2");
    }
    for feature in target_features() {
        if is_same_but_separators(text, feature) {
            return Some(*feature);
        }
    }
    one_near(text)
}

/// Returns the condition that may be meant by a value of `target_feature` that rustc has for no architecture. `+` and
/// `-` before the value are those of rustc's flag, which turn a feature on and off. Fails if memory is refused.
pub fn feature_instead_of(alloc: Global, value: &str) -> Result<Option<String>, AllocError> {
    if let Some(feature) = value.strip_prefix("-").and_then(meant_feature) {
        return Ok(Some(format!(in alloc; "not(target_feature = \"{feature}\")")?));
    }
    match meant_feature(value.strip_prefix("+").unwrap_or(value)) {
        Some(feature) => Ok(Some(format!(in alloc; "target_feature = \"{feature}\"")?)),
        None => Ok(None),
    }
}
