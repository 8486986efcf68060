//! Tests which texts are accepted, how they print, and where the others are rejected.

use super::support::{assert_expression, assert_licence};

/// The field `license` of packages of crates.io, as `cargo metadata` printed it for the builds of two programs. By
/// Cargo's reference a slash prints as `OR`, and the spaces are by the annex.
const REAL: [(&str, &str); 9] = [
    ("MIT", "MIT"),
    ("MIT OR Apache-2.0", "MIT OR Apache-2.0"),
    ("MIT/Apache-2.0", "MIT OR Apache-2.0"),
    ("Unlicense/MIT", "Unlicense OR MIT"),
    (
        "Apache-2.0 WITH LLVM-exception OR Apache-2.0 OR MIT",
        "Apache-2.0 WITH LLVM-exception OR Apache-2.0 OR MIT",
    ),
    (
        "(MIT OR Apache-2.0) AND Unicode-DFS-2016",
        "(MIT OR Apache-2.0) AND Unicode-DFS-2016",
    ),
    (
        "CC0-1.0 OR Apache-2.0 OR Apache-2.0 WITH LLVM-exception",
        "CC0-1.0 OR Apache-2.0 OR Apache-2.0 WITH LLVM-exception",
    ),
    (
        "CC0-1.0 OR MIT-0 OR Apache-2.0",
        "CC0-1.0 OR MIT-0 OR Apache-2.0",
    ),
    ("MIT OR Apache-2.0 OR Zlib", "MIT OR Apache-2.0 OR Zlib"),
];

/// Texts of the grammar of the annex, each form once.
const FORMS: [(&str, &str); 7] = [
    ("GPL-2.0+", "GPL-2.0+"),
    ("LicenseRef-house.rules-1", "LicenseRef-house.rules-1"),
    (
        "DocumentRef-bill-7:LicenseRef-house",
        "DocumentRef-bill-7:LicenseRef-house",
    ),
    (
        "GPL-2.0+ WITH Bison-exception-2.2",
        "GPL-2.0+ WITH Bison-exception-2.2",
    ),
    ("  (MIT)\tAND(ISC)", "(MIT) AND (ISC)"),
    ("and", "and"),
    ("a AND b OR c AND(d OR e)", "a AND b OR c AND (d OR e)"),
];

/// Texts that are not expressions, each with the first token that does not fit, by the grammar of the annex.
const FAULTS: [(&str, &str); 16] = [
    ("", "0..0: expected a licence or `(`, found the end"),
    ("  ", "2..2: expected a licence or `(`, found the end"),
    ("MIT OR", "6..6: expected a licence or `(`, found the end"),
    ("()", "1..2: expected a licence or `(`, found `)`"),
    ("AND MIT", "0..3: expected a licence or `(`, found `AND`"),
    (
        "MIT Apache-2.0",
        "4..14: expected `AND` or `OR`, found a licence",
    ),
    (
        "MIT and ISC",
        "4..7: expected `AND` or `OR`, found a licence",
    ),
    ("MIT)", "3..4: expected `AND` or `OR`, found `)`"),
    ("(MIT", "4..4: expected `AND`, `OR` or `)`, found the end"),
    ("(MIT (", "5..6: expected `AND`, `OR` or `)`, found `(`"),
    (
        "MIT +",
        "4..5: expected `AND` or `OR`, found a word that names no licence",
    ),
    (
        "MIT++",
        "0..5: expected a licence or `(`, found a word that names no licence",
    ),
    (
        "LicenseRef-a+",
        "0..13: expected a licence or `(`, found a word that names no licence",
    ),
    (
        "Apache-2.0 WITH (",
        "16..17: expected an exception, found `(`",
    ),
    (
        "(MIT) WITH x",
        "6..10: expected `AND` or `OR`, found `WITH`",
    ),
    (
        "ISC OR Lizenz-für",
        "7..18: expected a licence or `(`, found a word that names no licence",
    ),
];

/// Entries of a list of allowed licences.
const ENTRIES: [(&str, &str); 6] = [
    (" MIT ", "MIT"),
    (
        "Apache-2.0 WITH LLVM-exception",
        "Apache-2.0 WITH LLVM-exception",
    ),
    ("(MIT)", "0..1: expected a licence or `(`, found `(`"),
    ("MIT OR ISC", "4..6: expected the end, found `OR`"),
    ("MIT WITH", "8..8: expected an exception, found the end"),
    (
        "MIT WITH x WITH y",
        "11..15: expected the end, found `WITH`",
    ),
];

#[test]
fn reads_what_packages_have(rt: HostRuntime) {
    let alloc = rt.alloc();
    for (text, wanted) in &REAL {
        assert_expression(&rt, alloc, text, wanted);
    }
}

#[test]
fn reads_each_form(rt: HostRuntime) {
    let alloc = rt.alloc();
    for (text, wanted) in &FORMS {
        assert_expression(&rt, alloc, text, wanted);
    }
}

#[test]
fn tells_the_fault_and_its_place(rt: HostRuntime) {
    let alloc = rt.alloc();
    for (text, wanted) in &FAULTS {
        assert_expression(&rt, alloc, text, wanted);
    }
}

#[test]
fn reads_one_licence(rt: HostRuntime) {
    let alloc = rt.alloc();
    for (text, wanted) in &ENTRIES {
        assert_licence(&rt, alloc, text, wanted);
    }
}
