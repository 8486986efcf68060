//! Tests of truth values over holders of facts that users write.

ghost use Rattle.std.specs.FinSet.{union};
ghost use Rattle.std.specs.Prelude.{map, codes};
ghost use Rattle.cargo_platform.specs.Facts.{fact_set};
ghost use Rattle.cargo_platform.specs.Holders.{name_fact, pair_fact, only, where_set};
ghost use Rattle.cargo_platform.specs.Trees.{value_of};

use cargo_platform::CfgExpr;
use cargo_platform::cfg::{Cfg, Facts, Listed};
use std::alloc::Global;
use std::cell::Cell;
use std::process::Abort;
use test_rows::fields::Fields;
use test_rows::made_facts;

/// Two lists of facts as one set, such as those of a target and those of a build.
#[derive(Drop)]
struct Joined<'a> {
    target: &'a [Cfg],
    build: &'a [Cfg],
}

impl<'a> Facts for Joined<'a> {
    ghost meant = { λ facts. union (fact_set (map value_of facts.target.now))
        (fact_set (map value_of facts.build.now)) };

    fn holds(&self, c: &Cfg) -> bool {
        Listed(self.target).holds(c) || Listed(self.build).holds(c)
    }
}

/// Facts that are not kept in a list: `unix` and `target_os = "linux"`, each if its flag is set. The answer is a
/// function of the name, or of the key and its value.
#[derive(Drop)]
struct Flags {
    unix: bool,
    linux: bool,
}

impl Facts for Flags {
    ghost meant = { λ flags. union (where_set flags.unix (only (name_fact (codes "unix"))))
        (where_set flags.linux (only (pair_fact (codes "target_os") (codes "linux")))) };

    fn holds(&self, c: &Cfg) -> bool {
        match c {
            Cfg::Name(name) => self.unix && name.eq_text("unix"),
            Cfg::KeyPair(key, value) => {
                self.linux && key.eq_text("target_os") && value.as_str() == "linux"
            }
        }
    }
}

/// A list that counts its queries, and records whether it was asked for these values in turn.
#[derive(Drop)]
struct Counting<'a> {
    facts: &'a [Cfg],
    turns: &'a [Cfg],
    calls: Cell<usize>,
    is_in_turn: Cell<bool>,
}

impl<'a> Facts for Counting<'a> {
    ghost meant = { λ counting. fact_set (map value_of counting.facts.now) };

    fn holds(&self, c: &Cfg) -> bool {
        let calls = self.calls.get();
        match self.turns.get(calls) {
            Some(turn) if turn == c => {}
            _ => self.is_in_turn.set(false),
        }
        self.calls.set(calls.saturating_add(1));
        Listed(self.facts).holds(c)
    }
}

/// Returns the facts that words stand for.
fn facts_of(rt: &impl Abort, alloc: Global, words: &str) -> Vec<Cfg> {
    made_facts::values(alloc, &mut Fields::new(words, &[]))
        .ok()
        .expect(rt, words)
}

fn read(rt: &impl Abort, alloc: Global, text: &str) -> CfgExpr {
    CfgExpr::from_str(alloc, text).expect(rt, text)
}

/// Returns whether an expression is true over a holder, if it is the same when queries are counted.
fn over<F: Facts>(rt: &impl Abort, e: &CfgExpr, holder: &F) -> bool {
    let answer = e.matches_in(holder);
    assert_eq!(rt; e.matches_counted(holder).0, answer);
    answer
}

/// Expressions, each with whether it is true with both flags, and with `unix` alone.
const FLAG_DEPENDENT_KEYS: &[(&str, bool, bool)] = &[
    ("unix", true, true),
    ("r#unix", true, true),
    ("unix = \"\"", false, false),
    ("target_os = \"linux\"", true, false),
    ("r#target_os = \"linux\"", true, false),
    ("target_os = \"unix\"", false, false),
    ("target_os", false, false),
    (
        "any(linux, target_os = \"\", unix = \"linux\")",
        false,
        false,
    ),
    ("all(r#unix, not(target_os = \"linux\"))", false, true),
];

#[test]
fn flags_are_asked(rt: HostRuntime) {
    for (text, with_both, with_unix) in FLAG_DEPENDENT_KEYS {
        let e = read(&rt, rt.alloc(), text);
        for (linux, wanted) in [(true, *with_both), (false, *with_unix)] {
            let flags = Flags { unix: true, linux };
            assert!(rt; over(&rt, &e, &flags) == wanted, "{text}, {linux}");
        }
    }
}

#[test]
fn two_lists_are_asked(rt: HostRuntime) {
    let target = facts_of(&rt, rt.alloc(), "r#unix");
    let build = facts_of(&rt, rt.alloc(), "target_os=|linux|");
    for (text, with_both, with_unix) in FLAG_DEPENDENT_KEYS {
        let e = read(&rt, rt.alloc(), text);
        for (first, second, wanted) in [
            (target.as_slice(), build.as_slice(), *with_both),
            (build.as_slice(), target.as_slice(), *with_both),
            (target.as_slice(), &[], *with_unix),
        ] {
            let joined = Joined {
                target: first,
                build: second,
            };
            assert!(rt; over(&rt, &e, &joined) == wanted, "{text}");
        }
    }
}

/// Expressions, each with the facts, and the values that are queried in turn.
const ASKED: &[(&str, &str, &str)] = &[
    ("true", "", ""),
    ("all(a, b, c)", "a", "a b"),
    ("any(a, b, c)", "", "a b c"),
    ("any(all(a, b), not(c), d)", "d", "a c"),
    ("all(any(a, b), any(c, d), e)", "b d e", "a b c d e"),
];

/// The holder is queried from left to right, and its own count is the one that is reported.
#[test]
fn the_holder_is_asked_in_turn(rt: HostRuntime) {
    for (text, words, wanted) in ASKED {
        let e = read(&rt, rt.alloc(), text);
        let facts = facts_of(&rt, rt.alloc(), words);
        let turns = facts_of(&rt, rt.alloc(), wanted);
        let counting = Counting {
            facts: &facts,
            turns: &turns,
            calls: Cell::new(0),
            is_in_turn: Cell::new(true),
        };
        let answer = e.matches_in(&counting);
        assert!(rt; answer == e.matches(&facts), "{text}");
        assert!(rt; counting.calls.get() == turns.len(), "{text}");
        counting.calls.set(0);
        let (again, asks) = e.matches_counted(&counting);
        assert!(rt; again == answer, "{text}");
        assert!(rt; asks.count() == turns.len() as u128, "{text}");
        assert!(rt; counting.calls.get() == turns.len(), "{text}, counted");
        assert!(rt; counting.is_in_turn.get(), "{text}");
    }
}
