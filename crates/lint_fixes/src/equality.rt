//! Whether two values of TOML are the same.

ghost use Rattle.std.specs.Prelude.{◌≡◌, ◌↔◌, true, IsTrue};
ghost use Rattle.toml.specs.View.{view, items_view, table_view};

use std::num::f64_to_bits_with_nan;
use toml::value::Datetime;
use toml::{Table, Value};

/// Returns whether two floats are the same, which a NaN is to a NaN, and 0.0 is not to -0.0.
fn is_same_float(a: f64, b: f64) -> bool
    ensures { IsTrue result ↔ (a ≡ b) }
{
    f64_to_bits_with_nan(a) == f64_to_bits_with_nan(b)
}

/// Returns whether two date-times are the same.
fn is_same_datetime(a: Datetime, b: Datetime) -> bool
    ensures { result ≡ true → a ≡ b }
{
    a == b
}

/// Returns whether two values have the same data. A NaN is the same as a NaN, and 0.0 is not the same as -0.0.
#[cycle(is_same_value)]
pub fn is_same_value(a: &Value, b: &Value) -> bool
    ensures { result ≡ true → view a.now ≡ view b.now }
{
    match (a, b) {
        (Value::String(a), Value::String(b)) => a == b,
        (Value::Integer(a), Value::Integer(b)) => a == b,
        (Value::Float(a), Value::Float(b)) => is_same_float(*a, *b),
        (Value::Boolean(a), Value::Boolean(b)) => a == b,
        (Value::Datetime(a), Value::Datetime(b)) => is_same_datetime(*a, *b),
        (Value::Array(a), Value::Array(b)) => are_same_items(a, b),
        (Value::Table(a), Value::Table(b)) => are_same_members(a, b),
        _ => false,
    }
}

/// Returns whether two arrays have the same items, in the same order.
#[cycle(is_same_value)]
fn are_same_items(a: &[Value], b: &[Value]) -> bool
    ensures { result ≡ true → items_view a.now ≡ items_view b.now }
{
    if a.len() != b.len() {
        return false;
    }
    for i in 0..a.len() {
        if !is_same_value(&a[i], &b[i]) {
            return false;
        }
    }
    true
}

/// Returns whether two tables have the same members.
#[cycle(is_same_value)]
fn are_same_members(a: &Table, b: &Table) -> bool
    ensures { result ≡ true → table_view a.now ≡ table_view b.now }
{
    let mut others = b.iter();
    for (name, member) in a.iter() {
        match others.next() {
            Some((other_name, other)) if name == other_name && is_same_value(member, other) => {}
            _ => return false,
        }
    }
    others.next().is_none()
}
