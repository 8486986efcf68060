//! Converts conditions to JSON and back: a condition is a string, which holds what it prints.

ghost use Rattle.std.specs.Prelude.{◌≡◌, ◌↔◌, ℕ, List, IfOk, IsErrOf};
ghost use Rattle.serde_json.specs.Data as json;
ghost use Rattle.serde_json.specs.View.{view};
ghost use Rattle.cargo_platform.specs.declared.json.JsonError.TheVariants.{NotText};
ghost use Rattle.cargo_platform.specs.Trees.{Condition, condition_of};
ghost use Rattle.cargo_platform.specs.Platforms.{IsConditionText, IsRefusedCondition, IsRefusedConditionAt};
ghost use Rattle.cargo_platform.specs.WellFormed.{IsWellFormedCondition};
ghost use Rattle.cargo_platform.specs.Print.{print_condition};
ghost use Rattle.cargo_platform.specs.Errors.{orig_of, fault_in, span_in};
ghost use Rattle.cargo_platform.specs.Json.{IfJsonParse, IsText};

use crate::{ParseError, Platform, ReadError};
use serde_json::Value;
use std::alloc::{AllocError, Global};

/// Why a JSON value is not a condition.
#[derive(Debug, Drop)]
pub enum JsonError {
    /// The value is not a string.
    NotText,
    /// The text is rejected.
    Parse(ParseError),
    /// An allocation failed.
    Memory(AllocError),
}

impl Platform {
    /// Returns the printed condition as a JSON string. Fails only if an allocation fails.
    pub fn to_json(&self, alloc: Global) -> Result<Value, AllocError>
        // The printed condition, as a JSON string.
        ensures { IfOk result (λ v. view v ≡ json.string (print_condition (condition_of self.now))) }
    {
        Ok(Value::String(format!(in alloc; "{self}")?))
    }

    /// Parses the condition in a JSON string, as `Platform::from_str` does.
    ///
    /// Returns `NotText` for null, a boolean, a number, an array or an object, and for nothing else. Rejects a string
    /// as `from_str` does, with the same error.
    pub fn from_json(alloc: Global, value: &Value) -> Result<Platform, JsonError>
        // `NotText` is returned exactly for what is not a string.
        ensures not_text { IsErrOf result NotText ↔ (IsText (view value.now) → ⊥) }
        // A string is parsed as `from_str` promises.
        ensures condition { (text : List ℕ) → view value.now ≡ json.string text
            → IfOk result (λ p. IsConditionText text (condition_of p)) }
        ensures fault { (text : List ℕ) → view value.now ≡ json.string text
            → IfJsonParse result (λ e. IsRefusedCondition text (orig_of e) (fault_in e)) }
        ensures span { (text : List ℕ) → view value.now ≡ json.string text
            → IfJsonParse result (λ e. IsRefusedConditionAt text (orig_of e) (fault_in e) (span_in e)) }
        ensures well_formed { IfOk result (λ p. IsWellFormedCondition (condition_of p)) }
        ensures refused { (text : List ℕ) → view value.now ≡ json.string text
            → IfJsonParse result (λ _. (c : Condition) → IsConditionText text c → ⊥) }
        ensures reads_back { (c : Condition) → IsWellFormedCondition c
            → view value.now ≡ json.string (print_condition c)
            → IfOk result (λ p. condition_of p ≡ c) × IfJsonParse result (λ _. ⊥) }
    {
        let Some(text) = value.as_str() else {
            return Err(JsonError::NotText);
        };
        match Platform::from_str(alloc, text) {
            Ok(platform) => Ok(platform),
            Err(ReadError::Parse(error)) => Err(JsonError::Parse(error)),
            Err(ReadError::Memory(error)) => Err(JsonError::Memory(error)),
        }
    }
}
