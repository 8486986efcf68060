//! Tests of errors that are made by hand: what they contain and print.

use cargo_platform::{Cfg, CfgExpr, Ident, ParseError, ParseErrorKind, Platform, ReadError};
use std::alloc::Global;
use std::error::Error;
use std::fmt::Display;
use std::process::Abort;

fn owned(rt: &impl Abort, alloc: Global, text: &str) -> String {
    String::from_str(alloc, text).expect(rt, "memory")
}

/// Asserts the text that a value prints.
fn assert_prints<T: Display>(rt: &impl Abort, alloc: Global, value: &T, wanted: &str) {
    let printed = value.to_string(alloc).expect(rt, "memory");
    assert!(rt; printed.as_str() == wanted, "{wanted}");
}

/// Asserts the text that an error of any type prints.
fn assert_error_prints<E: Error>(rt: &impl Abort, alloc: Global, error: &E, wanted: &str) {
    assert_prints(rt, alloc, error, wanted);
}

/// Returns a kind of error that contains a text.
fn surplus(rt: &impl Abort, alloc: Global, left: &str) -> ParseErrorKind {
    ParseErrorKind::UnterminatedExpression(owned(rt, alloc, left))
}

#[test]
fn kinds_print(rt: HostRuntime) {
    let alloc = rt.alloc();
    let unexpected = ParseErrorKind::UnexpectedToken {
        expected: "`)`",
        found: "an identifier",
    };
    let invalid = owned(&rt, alloc, "unexpected character € in target name");
    for (kind, wanted) in [
        (
            ParseErrorKind::UnterminatedString,
            "unterminated string in cfg",
        ),
        (
            ParseErrorKind::UnexpectedChar('€'),
            "unexpected character `€` in cfg, expected parens, a comma, an identifier, or a string",
        ),
        (unexpected, "expected `)`, found an identifier"),
        (
            ParseErrorKind::IncompleteExpr("a string"),
            "expected a string, but cfg expression ended",
        ),
        (
            surplus(&rt, alloc, "b \""),
            "unexpected content `b \"` found after cfg expression",
        ),
        (
            ParseErrorKind::InvalidTarget(invalid),
            "invalid target specifier: unexpected character € in target name",
        ),
    ] {
        assert_prints(&rt, alloc, &kind, wanted);
    }
}

/// Asserts what an error that is made of a text and the rest of it contains and prints, also as a `ReadError`.
fn assert_made(rt: &impl Abort, alloc: Global, text: &str, left: &str) {
    let error = ParseError::new(alloc, text, surplus(rt, alloc, left)).expect(rt, "memory");
    assert!(rt; error.orig() == text);
    match error.kind() {
        ParseErrorKind::UnterminatedExpression(held) => assert!(rt; held.as_str() == left),
        _ => panic!(rt; "another kind"),
    }
    let wanted = format!(in alloc;
        "failed to parse `{text}` as a cfg expression: unexpected content `{left}` found after cfg expression"
    ).expect(rt, "memory");
    assert_error_prints(rt, alloc, &error, &wanted);
    assert_prints(rt, alloc, &ReadError::Parse(error), &wanted);
}

#[test]
fn errors_hold_what_they_are_made_of(rt: HostRuntime) {
    let alloc = rt.alloc();
    assert_made(&rt, alloc, "a b", "b");
    for size in [
        1, 2, 3, 63, 64, 65, 1023, 1024, 1025, 131071, 131072, 131073,
    ] {
        let text = "b_c".repeat(alloc, size).expect(&rt, "memory");
        let left = "é".repeat(alloc, size).expect(&rt, "memory");
        assert_made(&rt, alloc, &text, &left);
    }
}

/// A name of no character prints as nothing, and a row has no word for it.
#[test]
fn a_nameless_value_prints_nothing(rt: HostRuntime) {
    let alloc = rt.alloc();
    let name = Ident {
        name: String::new(alloc),
        raw: false,
    };
    assert_prints(&rt, alloc, &name, "");
    assert_prints(&rt, alloc, &CfgExpr::Value(Cfg::Name(name)), "");
}

/// A fact that is named `true` prints as the literal does, and is true where it is a fact.
#[test]
fn a_value_named_true_is_a_fact(rt: HostRuntime) {
    let alloc = rt.alloc();
    let named = |raw| {
        Cfg::Name(Ident {
            name: owned(&rt, alloc, "true"),
            raw,
        })
    };
    let e = CfgExpr::Value(named(false));
    assert_prints(&rt, alloc, &e, "true");
    assert!(rt; e.matches(&[named(true)]) && !e.matches(&[]));
}

/// Asserts that a value prints the same with a fill, an alignment, a width and a precision as without.
fn assert_unpadded<T: Display>(rt: &impl Abort, alloc: Global, value: &T) {
    let plain = value.to_string(alloc).expect(rt, "memory");
    let padded = format!(in alloc; "{value:*^99.2}").expect(rt, "memory");
    assert!(rt; padded.as_str() == plain.as_str(), "{plain}");
}

/// The Rust crate pads and cuts the name of a target, and nothing else.
#[test]
fn widths_change_nothing(rt: HostRuntime) {
    let alloc = rt.alloc();
    let named = Platform::Name(owned(&rt, alloc, "x86_64-apple-darwin"));
    assert_unpadded(&rt, alloc, &named);
    let name = Cfg::from_str(alloc, "r#unix").expect(&rt, "a name");
    assert_unpadded(&rt, alloc, &name);
    let pair = CfgExpr::from_str(alloc, "k = \"value\"").expect(&rt, "a pair");
    assert_unpadded(&rt, alloc, &pair);
    assert_unpadded(&rt, alloc, &Platform::Cfg(pair));
    let error = ParseError::new(alloc, "a b", surplus(&rt, alloc, "b")).expect(&rt, "memory");
    assert_unpadded(&rt, alloc, error.kind());
    assert_unpadded(&rt, alloc, &error);
    assert_unpadded(&rt, alloc, &ReadError::Parse(error));
}
