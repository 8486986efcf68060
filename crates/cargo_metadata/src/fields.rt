//! Reads fields of the objects in a document of `cargo metadata`.

ghost use Rattle.std.specs.Prelude.{◌≡◌, map, option_map, MatchResult, Some, codes};
ghost use Rattle.std.specs.Option.{option_copied};
ghost use Rattle.serde_json.specs.View.{view};
ghost use Rattle.cargo_metadata.specs.Fields.{field_at, text_at, list_at, flag_at, IsWrong, IsAt};
ghost use Rattle.cargo_metadata.specs.Nodes.{kind_at, condition_at};

use crate::nodes::Kind;
use crate::refusals::{ExpectedValue, FieldError};
use serde_json::Value;

/// Returns the value of a field, or `None` if there is none.
pub fn field_at<'a>(value: &'a Value, field: &str) -> Option<&'a Value>
    ensures { option_map (λ v. view v.now) result ≡ field_at field.now (view value.now) }
{
    value.get(field)
}

/// Returns the text in a field, or `None` if it contains none.
pub fn text_at<'a>(value: &'a Value, field: &str) -> Option<&'a str>
    ensures { option_map (λ s. s.now) result ≡ text_at field.now (view value.now) }
{
    match field_at(value, field) {
        Some(found) => found.as_str(),
        None => None,
    }
}

/// Returns the list in a field, or `None` if it contains none.
pub fn list_at<'a>(value: &'a Value, field: &str) -> Option<&'a [Value]>
    ensures { option_map (λ vs. map view vs.now) result ≡ list_at field.now (view value.now) }
{
    match field_at(value, field) {
        Some(found) => match found.as_array() {
            Some(items) => Some(items.as_slice()),
            None => None,
        },
        None => None,
    }
}

/// Returns the text in a field. Fails if it contains none.
pub fn require_text<'a>(value: &'a Value, field: &'static str) -> Result<&'a str, FieldError>
    ensures { MatchResult result (λ s. text_at field.now (view value.now) ≡ Some s.now)
        (λ wrong. IsWrong (view value.now) wrong × IsAt field.now ExpectedValue.Text wrong) }
{
    match text_at(value, field) {
        Some(text) => Ok(text),
        None => Err(FieldError {
            field,
            expected: ExpectedValue::Text,
        }),
    }
}

/// Returns the list in a field. Fails if it contains none.
pub fn require_list<'a>(value: &'a Value, field: &'static str) -> Result<&'a [Value], FieldError>
    ensures { MatchResult result (λ vs. list_at field.now (view value.now) ≡ Some (map view vs.now))
        (λ wrong. IsWrong (view value.now) wrong × IsAt field.now ExpectedValue.List wrong) }
{
    match list_at(value, field) {
        Some(items) => Ok(items),
        None => Err(FieldError {
            field,
            expected: ExpectedValue::List,
        }),
    }
}

/// Returns the boolean in a field. Fails if it contains none.
pub fn require_flag(value: &Value, field: &'static str) -> Result<bool, FieldError>
    // The result is the boolean in the field. Fails only if it contains none.
    ensures { MatchResult result (λ b. flag_at field.now (view value.now) ≡ Some b)
        (λ wrong. IsWrong (view value.now) wrong × IsAt field.now ExpectedValue.Flag wrong) }
{
    let wrong = FieldError {
        field,
        expected: ExpectedValue::Flag,
    };
    let found = match field_at(value, field) {
        Some(found) => found,
        None => return Err(wrong),
    };
    match found.as_bool() {
        Some(flag) => Ok(flag),
        None => Err(wrong),
    }
}

/// Returns the kind of a dependency: normal if the field is missing or null. Fails if it contains anything other than
/// `build` or `dev`.
pub fn kind_of(value: &Value) -> Result<Kind, FieldError>
    ensures { MatchResult result (λ kind. kind_at (view value.now) ≡ Some kind)
        (λ wrong. IsWrong (view value.now) wrong × IsAt (codes "kind") ExpectedValue.Kind wrong) }
{
    let wrong = FieldError {
        field: "kind",
        expected: ExpectedValue::Kind,
    };
    let found = match field_at(value, "kind") {
        None => return Ok(Kind::Normal),
        Some(found) => found,
    };
    if found.is_null() {
        return Ok(Kind::Normal);
    }
    match found.as_str() {
        None => Err(wrong),
        Some("build") => Ok(Kind::Build),
        Some("dev") => Ok(Kind::Dev),
        Some(_) => Err(wrong),
    }
}

/// Returns the condition of a dependency: `None` if the field is missing or null. Fails if it contains anything other
/// than a text.
pub fn condition_of<'a>(value: &'a Value) -> Result<Option<&'a str>, FieldError>
    ensures { MatchResult result (λ text. condition_at (view value.now) ≡ Some (option_copied text))
        (λ wrong. IsWrong (view value.now) wrong × IsAt (codes "target") ExpectedValue.Condition wrong) }
{
    let found = match field_at(value, "target") {
        None => return Ok(None),
        Some(found) => found,
    };
    if found.is_null() {
        return Ok(None);
    }
    match found.as_str() {
        Some(text) => Ok(Some(text)),
        None => Err(FieldError {
            field: "target",
            expected: ExpectedValue::Condition,
        }),
    }
}
