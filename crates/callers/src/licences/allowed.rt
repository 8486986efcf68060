//! Tests which expressions a list satisfies, by the truth tables of `AND` and `OR` and the rules of README.

use super::support::is_satisfied;

/// Expressions, each with one allowed entry that satisfies it.
const SATISFIED: [(&str, &str); 9] = [
    ("MIT OR Apache-2.0", "Apache-2.0"),
    ("mit/ISC", "MIT"),
    ("a AND b OR c", "c"),
    ("a OR (b OR c) AND a", "a"),
    ("GPL-2.0+", "GPL-2.0-only"),
    ("GPL-2.0-or-later", "gpl-2.0+"),
    ("GPL-2.0", "GPL-2.0-only"),
    (
        "Apache-2.0 WITH LLVM-exception",
        "apache-2.0 WITH llvm-exception",
    ),
    ("(((MIT)))", "MIT"),
];

/// Expressions, each with one allowed entry that does not satisfy it.
const UNSATISFIED: [(&str, &str); 8] = [
    ("MIT AND Apache-2.0", "MIT"),
    ("a AND (b OR c)", "c"),
    ("(a OR b) AND c", "a"),
    ("a AND b OR a AND c", "a"),
    ("GPL-2.0-only", "GPL-2.0-or-later"),
    ("Apache-2.0 WITH LLVM-exception", "Apache-2.0"),
    ("Apache-2.0", "Apache-2.0 WITH LLVM-exception"),
    ("GPL-3.0", "GPL-2.0+"),
];

#[test]
fn tells_what_is_satisfied(rt: HostRuntime) {
    let alloc = rt.alloc();
    for (text, entry) in &SATISFIED {
        let entries = [*entry];
        assert!(rt; is_satisfied(&rt, alloc, text, &entries), "{text}");
    }
}

#[test]
fn tells_what_is_not(rt: HostRuntime) {
    let alloc = rt.alloc();
    for (text, entry) in &UNSATISFIED {
        let entries = [*entry];
        assert!(rt; !is_satisfied(&rt, alloc, text, &entries), "{text}");
    }
}

#[test]
fn each_entry_counts(rt: HostRuntime) {
    let alloc = rt.alloc();
    assert!(rt; is_satisfied(&rt, alloc, "MIT AND ISC", &["ISC", "MIT"]));
    assert!(rt; !is_satisfied(&rt, alloc, "MIT", &[]));
}
