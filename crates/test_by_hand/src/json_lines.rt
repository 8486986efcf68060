//! Lines of JSON with characters that could end or disguise them.

use key_answers::json_lines::{push_line, push_spaced_line};
use key_answers::targets::{AllTargets, TargetList};
use serde::Serialize;
use std::alloc::{AllocError, Global};
use std::test::Fail;

#[derive(Drop, Serialize)]
struct Line<'a> {
    text: &'a str,
    at: TargetList<'a>,
    span: Option<(usize, usize)>,
}

/// Returns both lines of a text.
fn lines_of(alloc: Global, text: &str) -> Result<String, AllocError> {
    let line = Line {
        text,
        at: TargetList::All(AllTargets::All),
        span: None,
    };
    let mut lines = String::new(alloc);
    push_line(&mut lines, alloc, &line)?;
    push_spaced_line(&mut lines, alloc, &line)?;
    Ok(lines)
}

/// Returns whether the lines of a text have this spelling of it.
fn is_spelled(alloc: Global, text: &str, spelling: &str) -> Result<bool, AllocError> {
    let line = format!(in alloc; "{{\"text\":\"{spelling}\",\"at\":\"all\",\"span\":null}}\n")?;
    let spaced = format!(in alloc;
        "{{\"text\": \"{spelling}\", \"at\": \"all\", \"span\": null}}\n"
    )?;
    let wanted = format!(in alloc; "{line}{spaced}")?;
    let lines = lines_of(alloc, text)?;
    Ok(lines.as_str() == wanted.as_str())
}

#[test]
fn texts_are_spelled(rt: HostRuntime) -> Result<(), Fail> {
    let alloc = rt.alloc();
    for (text, spelling) in [
        ("", ""),
        ("a, b: {c} [d] ..", "a, b: {c} [d] .."),
        ("  \"\\", "  \\\"\\\\"),
        ("\u{202e}", "\\u202e"),
        ("a\u{2028}b\u{2029}", "a\\u2028b\\u2029"),
        ("\u{85}", "\\u0085"),
        ("\u{200e}\u{200f}", "\\u200e\\u200f"),
        ("\n\t\r", "\\n\\t\\r"),
        ("\0\u{1b}[31m\u{7f}", "\\u0000\\u001b[31m\\u007f"),
        ("\u{e0001}", "\\udb40\\udc01"),
        ("\u{10fffd}", "\\udbff\\udffd"),
        ("\u{e000}\u{a0}", "\\ue000\\u00a0"),
        ("e\u{301}", "e\\u0301"),
        (
            "\u{e9}\u{4e16}\u{1f980}\u{fffd}",
            "\u{e9}\u{4e16}\u{1f980}\u{fffd}",
        ),
    ] {
        assert!(rt; is_spelled(alloc, text, spelling)?, "{spelling}");
    }
    Ok(())
}

#[test]
fn arrays_are_written(rt: HostRuntime) -> Result<(), Fail> {
    let alloc = rt.alloc();
    let line = Line {
        text: "a,",
        at: TargetList::Names(vec![in alloc; "b,", "c"]?),
        span: Some((1, 20)),
    };
    let mut lines = String::new(alloc);
    push_line(&mut lines, alloc, &line)?;
    assert_eq!(rt;
        lines.as_str(),
        "{\"text\":\"a,\",\"at\":[\"b,\",\"c\"],\"span\":[1,20]}\n"
    );
    lines.clear();
    push_spaced_line(&mut lines, alloc, &line)?;
    assert_eq!(rt;
        lines.as_str(),
        "{\"text\": \"a,\", \"at\": [\"b,\", \"c\"], \"span\": [1, 20]}\n"
    );
    lines.clear();
    let none: &[&str] = &[];
    push_line(&mut lines, alloc, &none)?;
    push_spaced_line(&mut lines, alloc, &none)?;
    assert_eq!(rt; lines.as_str(), "[]\n[]\n");
    Ok(())
}
