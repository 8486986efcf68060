//! Tests of the callers, on a small manifest.

use super::reporting::report_on;
use super::selecting::{may_leave_out, selected_names};
use crate::support::target;
use cargo_platform::Platform;
use manifest_lints::Document;
use partial_facts::Complete;
use std::alloc::Global;
use std::process::Abort;
use toml::Table;

const MANIFEST: &str = r#"
[dependencies]
always = "1"
[target.'cfg(unix)'.dependencies]
libc = "0.2"
[target.'cfg(windows)'.build-dependencies]
cc = "1"
[target.'cfg(macos)'.dependencies]
never = "1"
"#;

fn manifest(rt: &impl Abort, alloc: Global) -> Table {
    toml::table_from_str(alloc, MANIFEST).expect(rt, "the manifest")
}

#[test]
fn conditions_are_left_out(rt: HostRuntime) {
    let linux = target(&rt, "x86_64-unknown-linux-gnu");
    for (key, left_out) in [("cfg(windows)", true), ("cfg(unix)", false)] {
        let platform = Platform::from_str(rt.alloc(), key).expect(&rt, key);
        let found = may_leave_out(rt.alloc(), &platform, linux.name(), &Complete(&linux));
        assert!(rt; found.expect(&rt, key) == left_out, "{key}");
    }
}

#[test]
fn names_are_selected(rt: HostRuntime) {
    let manifest = manifest(&rt, rt.alloc());
    for (name, wanted) in [
        ("x86_64-unknown-linux-gnu", ["always", "libc"]),
        ("x86_64-pc-windows-msvc", ["always", "cc"]),
    ] {
        match selected_names(rt.alloc(), &manifest, target(&rt, name)) {
            Ok(names) => assert!(rt; names.as_slice() == wanted.as_slice(), "{name}"),
            Err(_) => assert!(rt; false, "{name}"),
        }
    }
}

#[test]
fn a_mistake_is_found(rt: HostRuntime) {
    let table = manifest(&rt, rt.alloc());
    let manifest = Document::of(rt.alloc(), table, MANIFEST).expect(&rt, "a document");
    let report = report_on(rt.alloc(), &manifest).expect(&rt, "a report");
    assert!(rt; report.findings.len() == 1);
    assert!(rt; report.findings[0].code.word() == "unknown-fact");
    assert!(rt; report.undecided.is_empty());
}

#[test]
fn a_target_that_is_no_table_is_told(rt: HostRuntime) {
    let table = toml::table_from_str(rt.alloc(), "target = 1").expect(&rt, "the manifest");
    let manifest = Document::of_table(rt.alloc(), table);
    let report = report_on(rt.alloc(), &manifest).expect(&rt, "a report");
    assert!(rt; report.findings.len() == 1);
    assert!(rt; report.findings[0].code.word() == "no-table");
    assert!(rt; report.findings[0].key.is_none());
}
