//! Tests of the callers where `loom` is open.

use super::callers::{holds_nowhere, under_any_flags};
use crate::support::{expression, target};
use cargo_platform::Platform;
use std::alloc::Global;
use std::process::Abort;

fn assert_nowhere(rt: &impl Abort, alloc: Global, text: &str, wanted: bool) {
    let platform = Platform::from_str(alloc, text).expect(rt, text);
    let nowhere = holds_nowhere(alloc, &platform, &["loom"]).expect(rt, "memory");
    assert!(rt; nowhere == wanted, "{text}");
}

#[test]
fn a_linter_says_what_holds_nowhere(rt: HostRuntime) {
    assert_nowhere(&rt, rt.alloc(), "cfg(all(unix, windows))", true);
    assert_nowhere(&rt, rt.alloc(), "cfg(all(unix, loom))", false);
    assert_nowhere(&rt, rt.alloc(), "x86_64-unknown-linux-gnu2", true);
}

fn assert_under(rt: &impl Abort, alloc: Global, text: &str, wanted: Option<bool>) {
    let target = target(rt, "wasm32-wasip1");
    let e = expression(rt, alloc, text);
    let decided = under_any_flags(&e, target, &["loom"]);
    assert!(rt; decided == wanted, "{text}");
}

#[test]
fn flags_leave_some_of_it_open(rt: HostRuntime) {
    assert_under(&rt, rt.alloc(), "target_os = \"wasi\"", Some(true));
    assert_under(&rt, rt.alloc(), "all(unix, loom)", Some(false));
    assert_under(&rt, rt.alloc(), "not(loom)", None);
}
