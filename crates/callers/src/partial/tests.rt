//! Tests of the callers on a 64-bit Linux, on several targets, and on a few flags.

use super::audit::may_leave_out;
use super::flags::truth_under_flags;
use super::planner::{matches_plan, plan};
use super::steps::residual_in_two_steps;
use super::targets::{OneOf, for_all};
use crate::support::expression;
use cargo_platform::{Cfg, CfgExpr, Platform};
use partial_facts::{ONE_VALUED, Partial};
use std::alloc::Global;
use std::process::Abort;

/// Facts of a 64-bit Linux.
const LINUX: &str = "unix\ntarget_os = \"linux\"\ntarget_pointer_width = \"64\"";

/// Returns the knowledge that these facts are set, and no others with the name or key `target_os`, `unix` or `windows`.
/// Features and custom cfgs stay open.
fn listed(facts: &[Cfg]) -> Partial<'_> {
    Partial {
        facts,
        complete: &["target_os", "unix", "windows"],
    }
}

/// Returns the facts in the lines of a text.
fn facts(rt: &impl Abort, alloc: Global, lines: &str) -> Vec<Cfg> {
    let mut facts = Vec::new(alloc);
    for line in lines.lines() {
        let fact = Cfg::from_str(alloc, line).expect(rt, line);
        facts.push(fact).expect(rt, "memory");
    }
    facts
}

/// Asserts what is decided for a text.
fn assert_decision(rt: &impl Abort, text: &str, decided: Option<bool>, wanted: Option<bool>) {
    assert!(rt; decided == wanted, "{text}");
}

/// Asserts the answer of a plan's text over these facts.
fn assert_matches(rt: &impl Abort, alloc: Global, plan: &str, lines: &str, wanted: bool) {
    let facts = facts(rt, alloc, lines);
    let matched = matches_plan(alloc, plan, &facts).expect(rt, plan);
    assert_decision(rt, lines, Some(matched), Some(wanted));
}

#[test]
fn a_plan_is_matched_later(rt: HostRuntime) {
    let alloc = rt.alloc();
    let facts = facts(&rt, alloc, LINUX);
    let condition = "all(unix, any(loom, not(feature = \"std\")))";
    let e = CfgExpr::from_str(alloc, condition).expect(&rt, condition);
    let plan = plan(alloc, &e, &listed(&facts)).expect(&rt, "memory");
    assert_matches(&rt, alloc, &plan, "unix\nloom", true);
    assert_matches(&rt, alloc, &plan, "unix\nfeature = \"std\"", false);
    assert_matches(&rt, alloc, &plan, "unix\nfeature = \"alloc\"", true);
}

/// Asserts whether an audit of 64-bit Linux leaves out a dependency under the condition.
fn assert_left_out(rt: &impl Abort, alloc: Global, text: &str, wanted: bool) {
    let facts = facts(rt, alloc, LINUX);
    let e = expression(rt, alloc, text);
    let is_left_out = may_leave_out(&e, &listed(&facts));
    assert_decision(rt, text, Some(is_left_out), Some(wanted));
}

#[test]
fn an_audit_leaves_out_what_no_target_selects(rt: HostRuntime) {
    assert_left_out(&rt, rt.alloc(), "windows", true);
    assert_left_out(&rt, rt.alloc(), "all(loom, windows)", true);
    assert_left_out(&rt, rt.alloc(), "unix", false);
    assert_left_out(&rt, rt.alloc(), "loom", false);
}

/// Asserts the truth value of an expression on a 64-bit Linux and a macOS.
fn assert_for_both(rt: &impl Abort, alloc: Global, text: &str, wanted: Option<bool>) {
    let linux = facts(rt, alloc, LINUX);
    let macos = facts(rt, alloc, "unix\ntarget_os = \"macos\"");
    let others: [&[Cfg]; 1] = [&macos];
    let targets = OneOf {
        first: &linux,
        others: &others,
    };
    let e = expression(rt, alloc, text);
    assert_decision(rt, text, for_all(&e, &targets), wanted);
}

#[test]
fn what_several_targets_have_in_common(rt: HostRuntime) {
    let alloc = rt.alloc();
    assert_for_both(&rt, alloc, "unix", Some(true));
    assert_for_both(&rt, alloc, "target_os = \"linux\"", None);
    assert_for_both(&rt, alloc, "target_os = \"macos\"", None);
    assert_for_both(&rt, alloc, "target_os = \"windows\"", Some(false));
    assert_for_both(&rt, alloc, "any(target_os = \"linux\", unix)", Some(true));
}

/// Asserts the residual of a condition for WASI's first target, where only the second step knows about `windows`.
fn assert_left(rt: &impl Abort, alloc: Global, text: &str, wanted: &str) {
    let facts = facts(rt, alloc, "target_os = \"wasi\"");
    let platform = Platform::from_str(alloc, text).expect(rt, text);
    let left = residual_in_two_steps(alloc, &platform, "wasm32-wasip1", &facts, &["windows"]);
    let left = left.expect(rt, "memory");
    let printed = left.to_string(alloc).expect(rt, "memory");
    assert!(rt; printed.as_str() == wanted, "{text}");
}

#[test]
fn what_is_left_in_two_steps(rt: HostRuntime) {
    let alloc = rt.alloc();
    assert_left(&rt, alloc, "wasm32-wasip1", "cfg(true)");
    assert_left(&rt, alloc, "wasm32-wasip2", "cfg(false)");
    let of_wasi = "cfg(any(windows, all(target_os = \"wasi\", loom)))";
    assert_left(&rt, alloc, of_wasi, "cfg(loom)");
    assert_left(&rt, alloc, "cfg(not(windows))", "cfg(true)");
}

/// Asserts what the flag of an architecture decides, if each key of rustc has one value or none has.
fn assert_by_flag(
    rt: &impl Abort,
    alloc: Global,
    text: &str,
    one_valued: Option<bool>,
    any_valued: Option<bool>,
) {
    let flags = facts(rt, alloc, "target_arch = \"arm\"");
    let e = expression(rt, alloc, text);
    assert_decision(
        rt,
        text,
        truth_under_flags(&e, &flags, ONE_VALUED),
        one_valued,
    );
    assert_decision(rt, text, truth_under_flags(&e, &flags, &[]), any_valued);
}

#[test]
fn flags_decide(rt: HostRuntime) {
    let alloc = rt.alloc();
    let arm = "not(target_arch = \"arm\")";
    assert_by_flag(&rt, alloc, arm, Some(false), Some(false));
    assert_by_flag(&rt, alloc, "target_arch = \"x86\"", Some(false), None);
    assert_by_flag(&rt, alloc, "loom", None, None);
}
