//! Spans of names and of their parts, by hand.

use std::alloc::Global;
use toml_spans::{Cursor, Position, Span, name_at_front, part_of_name, spells};

/// Returns the span of the first occurrence of a part in a text.
fn span_of(text: &str, part: &str) -> Span {
    let start = text.find(part).unwrap_or(usize::MAX);
    Span {
        start,
        end: start.saturating_add(part.len()),
    }
}

/// Returns the text that spells a part of a name, in the text that spells the name.
fn spelled_part<'a>(alloc: Global, text: &'a str, name: &str, part: &str) -> Option<&'a str> {
    let whole = Span {
        start: 0,
        end: text.len(),
    };
    match part_of_name(alloc, text, whole, name, span_of(name, part)) {
        Ok(Some(span)) => span.text_in(text),
        _ => None,
    }
}

#[test]
fn parts_of_names(rt: HostRuntime) {
    for (text, name, part, wanted) in [
        ("unix", "unix", "ni", "ni"),
        ("'cfg(a, b)'", "cfg(a, b)", "b", "b"),
        ("'a\\b'", "a\\b", "b", "b"),
        (
            "\"cfg(a = \\\"b\\\")\"",
            "cfg(a = \"b\")",
            "a = \"b\"",
            "a = \\\"b\\\"",
        ),
        ("\"\\u0061\\U00000062c\"", "abc", "b", "\\U00000062"),
        ("\"\\x61\\tb\"", "a\tb", "\tb", "\\tb"),
        ("\"\\u00e9x\"", "éx", "x", "x"),
        ("\"éx\"", "éx", "x", "x"),
    ] {
        let found = spelled_part(rt.alloc(), text, name, part);
        assert!(rt; found == Some(wanted), "{text}");
    }
}

#[test]
fn a_part_that_cuts_an_escape_is_none(rt: HostRuntime) {
    let text = "\"\\u00e9\"";
    let span = Span {
        start: 0,
        end: text.len(),
    };
    let part = Span { start: 1, end: 2 };
    let found = part_of_name(rt.alloc(), text, span, "é", part);
    assert!(rt; matches!(found, Ok(None)));
}

#[test]
fn names_at_the_front(rt: HostRuntime) {
    for (text, wanted, rest) in [
        ("a-b_1.c", "a-b_1", ".c"),
        ("'a.b' = 1", "a.b", " = 1"),
        ("\"a\\\"b\"]", "a\"b", "]"),
        ("\"\" = 1", "", " = 1"),
    ] {
        match name_at_front(rt.alloc(), text) {
            Ok((name, left)) => {
                assert!(rt; name.as_str() == wanted && left == rest, "{text}");
            }
            Err(_) => assert!(rt; false, "{text}"),
        }
    }
    assert!(rt; name_at_front(rt.alloc(), "=").is_err());
}

#[test]
fn what_a_text_spells(rt: HostRuntime) {
    for (text, name, wanted) in [
        ("a", "a", true),
        ("\"\\u0061\"", "a", true),
        ("'a'", "a", true),
        ("a.b", "b", false),
        ("a ", "a", true),
        ("a=", "a", false),
        ("b", "a", false),
    ] {
        let found = spells(rt.alloc(), text, name);
        assert!(rt; matches!(found, Ok(is) if is == wanted), "{text}");
    }
}

#[test]
fn positions(rt: HostRuntime) {
    let text = "é\r\n\tab";
    let mut cursor = Cursor::new(text);
    let start = cursor.position;
    cursor.go_to("\r\n\tab");
    assert!(rt;
        cursor.position
            == Position {
                byte: 2,
                line: 1,
                column: 2
            }
    );
    assert!(rt; cursor.span_from(start) == Span { start: 0, end: 2 });
    cursor.go_to("b");
    assert!(rt;
        cursor.position
            == Position {
                byte: 6,
                line: 2,
                column: 3
            }
    );
}
