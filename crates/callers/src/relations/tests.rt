//! Tests of a linter and an audit without any knowledge of facts, and of a move from key to key.

use super::audit::{Cover, is_covered};
use super::keys::{Move, may_move};
use super::linter::never_holds;
use crate::support::expression;
use cargo_platform::{CfgExpr, Platform};
use exact_answers::FactConstraints;
use std::alloc::Global;
use std::process::Abort;

fn known_by(assumed: &CfgExpr) -> FactConstraints<'_> {
    FactConstraints {
        facts: &[],
        complete: &[],
        single: &[],
        assumed,
    }
}

fn assert_never(rt: &impl Abort, alloc: Global, text: &str, wanted: bool) {
    let anything = CfgExpr::True;
    let e = expression(rt, alloc, text);
    let never = never_holds(alloc, &e, &known_by(&anything)).expect(rt, "memory");
    assert!(rt; never == wanted, "{text}");
}

#[test]
fn a_linter_says_what_never_holds(rt: HostRuntime) {
    assert_never(&rt, rt.alloc(), "all(loom, not(loom))", true);
    assert_never(&rt, rt.alloc(), "any(loom, not(loom))", false);
}

/// Asserts whether `unix` covers the text, by the result of the audit: covered, the number of facts that are missed, or
/// unclear.
fn assert_cover(rt: &impl Abort, alloc: Global, text: &str, budget: u64, wanted: Option<usize>) {
    let anything = CfgExpr::True;
    let e = expression(rt, alloc, text);
    let unix = expression(rt, alloc, "unix");
    let cover = is_covered(alloc, &e, &unix, &known_by(&anything), budget).expect(rt, "memory");
    let said = match cover {
        Cover::Covered => Some(0),
        Cover::Missed(facts) => Some(facts.len()),
        Cover::Unclear => None,
    };
    assert!(rt; said == wanted, "{text}");
}

#[test]
fn an_audit_says_what_is_covered(rt: HostRuntime) {
    assert_cover(&rt, rt.alloc(), "all(unix, loom)", 9, Some(0));
    assert_cover(&rt, rt.alloc(), "windows", 9, Some(1));
    assert_cover(&rt, rt.alloc(), "any(loom, not(loom))", 0, None);
}

/// Asserts the result of moving a dependency from one key to the other: `safe`, `unclear`, or the name of the target
/// that loses it, or `any`, and the number of its facts.
fn assert_move(
    rt: &impl Abort,
    alloc: Global,
    keys: [&str; 2],
    known: &FactConstraints<'_>,
    budget: u64,
    wanted: &str,
) {
    let from = Platform::from_str(alloc, keys[0]).expect(rt, "a key");
    let to = Platform::from_str(alloc, keys[1]).expect(rt, "a key");
    let said = match may_move(alloc, &from, &to, known, budget).expect(rt, "memory") {
        Move::Safe => String::from_str(alloc, "safe"),
        Move::Loses(target) => {
            let name = target.name.as_deref().unwrap_or("any");
            format!(in alloc; "{name}: {}", target.facts.len())
        }
        Move::Unclear => String::from_str(alloc, "unclear"),
    };
    let said = said.expect(rt, "memory");
    assert!(rt; said.as_str() == wanted, "{said}, not {wanted}");
}

const BOTH: &str = "cfg(all(unix, loom))";

const EITHER: &str = "cfg(any(loom, not(loom)))";

const NAME: &str = "wasm32-wasip1";

#[test]
fn a_dependency_may_move_to_a_wider_key(rt: HostRuntime) {
    let anything = CfgExpr::True;
    let known = known_by(&anything);
    assert_move(&rt, rt.alloc(), [BOTH, "cfg(unix)"], &known, 9, "safe");
    assert_move(&rt, rt.alloc(), ["cfg(unix)", BOTH], &known, 9, "any: 1");
    assert_move(&rt, rt.alloc(), [EITHER, "cfg(unix)"], &known, 0, "unclear");
}

#[test]
fn a_name_says_nothing_of_facts(rt: HostRuntime) {
    let anything = CfgExpr::True;
    let known = known_by(&anything);
    assert_move(&rt, rt.alloc(), [NAME, NAME], &known, 9, "safe");
    assert_move(
        &rt,
        rt.alloc(),
        [NAME, "cfg(unix)"],
        &known,
        9,
        "wasm32-wasip1: 0",
    );
    assert_move(&rt, rt.alloc(), ["cfg(unix)", NAME], &known, 9, "any: 1");
}

#[test]
fn a_move_may_be_safe_by_what_is_assumed(rt: HostRuntime) {
    let keys = ["cfg(unix)", "cfg(not(windows))"];
    let anything = CfgExpr::True;
    assert_move(&rt, rt.alloc(), keys, &known_by(&anything), 9, "any: 2");
    let one = expression(&rt, rt.alloc(), "not(all(unix, windows))");
    assert_move(&rt, rt.alloc(), keys, &known_by(&one), 9, "safe");
}
