//! Tests that the library's parser of expressions and the recursive one agree, on all short texts and on longer ones.

use super::recursive_reader;
use cargo_platform::{Cfg, CfgExpr, Ident, ReadError};
use std::alloc::{AllocError, Global};
use std::process::Abort;

/// The numbers of texts that both parsers accept, and that both reject.
#[derive(Debug, Clone, Copy, PartialEq, Eq)]
struct Answers {
    accepted: usize,
    refused: usize,
}

impl Answers {
    const NONE: Answers = Answers {
        accepted: 0,
        refused: 0,
    };

    /// Asserts that both parsers agree on a text, and counts the result.
    fn add(&mut self, rt: &impl Abort, alloc: Global, text: &str) {
        let plain = recursive_reader::read(rt, alloc, text);
        match CfgExpr::from_str(alloc, text) {
            Ok(tree) => {
                let plain = plain.expect(rt, text);
                assert!(rt; is_same(&tree, &plain), "{text}: {tree}, not {plain}");
                self.accepted = self.accepted.saturating_add(1);
            }
            Err(ReadError::Parse(_)) => {
                assert!(rt; plain.is_none(), "{text}");
                self.refused = self.refused.saturating_add(1);
            }
            Err(ReadError::Memory(_)) => panic!(rt; "memory"),
        }
    }

    /// Asserts how many texts were accepted and rejected.
    fn assert(self, rt: &impl Abort, accepted: usize, refused: usize) {
        assert_eq!(rt; self, Answers { accepted, refused });
    }
}

/// Returns whether two trees are the same in all parts, including raw marks, which their equality ignores.
#[cycle(same)]
fn is_same(a: &CfgExpr, b: &CfgExpr) -> bool {
    match (a, b) {
        (CfgExpr::True, CfgExpr::True) | (CfgExpr::False, CfgExpr::False) => true,
        (CfgExpr::Value(a), CfgExpr::Value(b)) => is_same_value(a, b),
        (CfgExpr::Not(a), CfgExpr::Not(b)) => is_same(a, b),
        (CfgExpr::All(a), CfgExpr::All(b)) => are_same(a, b),
        (CfgExpr::Any(a), CfgExpr::Any(b)) => are_same(a, b),
        _ => false,
    }
}

#[cycle(same)]
fn are_same(a: &[CfgExpr], b: &[CfgExpr]) -> bool {
    if a.len() != b.len() {
        return false;
    }
    for (a, b) in a.iter().zip(b) {
        if !is_same(a, b) {
            return false;
        }
    }
    true
}

fn is_same_value(a: &Cfg, b: &Cfg) -> bool {
    match (a, b) {
        (Cfg::Name(a), Cfg::Name(b)) => is_same_name(a, b),
        (Cfg::KeyPair(a, x), Cfg::KeyPair(b, y)) => is_same_name(a, b) && x == y,
        _ => false,
    }
}

fn is_same_name(a: &Ident, b: &Ident) -> bool {
    a.raw == b.raw && a.name == b.name
}

/// Pairs of texts whose trees are equal except for marks, or differ in one part.
const DIFFERENT: [[&str; 2]; 10] = [
    ["a", "r#a"],
    ["k = \"v\"", "r#k = \"v\""],
    ["k = \"v\"", "k = \"w\""],
    ["k", "k = \"\""],
    ["true", "r#true"],
    ["true", "false"],
    ["all()", "any()"],
    ["all(a)", "not(a)"],
    ["all(a)", "all(a, a)"],
    ["any(all(a, b), c)", "any(all(a, r#b), c)"],
];

/// The comparison of trees sees each part, so that the tests below can fail.
#[test]
fn marks_and_forms_are_compared(rt: HostRuntime) {
    let alloc = rt.alloc();
    for [one, other] in &DIFFERENT {
        let one = CfgExpr::from_str(alloc, one).expect(&rt, one);
        let other = CfgExpr::from_str(alloc, other).expect(&rt, other);
        assert!(rt; is_same(&one, &one) && !is_same(&one, &other));
    }
}

/// A piece of each kind of token, the words that open groups, a literal, and a marked word.
const PIECES: [&str; 11] = [
    "a", "all", "any", "not", "true", "r#true", "=", "\"v\"", "(", ")", ",",
];

/// The number of texts of each number of pieces, from 0 on.
const COUNTS: [usize; 6] = [1, 11, 121, 1_331, 14_641, 161_051];

/// Writes a text of `length` pieces, each with a space after it: the digits of `number`, from the lowest on.
fn write_pieces(text: &mut String, length: usize, number: usize) -> Result<(), AllocError> {
    text.clear();
    let mut digits = number;
    for _ in 0..length {
        text.push_str(PIECES[digits % 11])?;
        text.push(' ')?;
        digits /= 11;
    }
    Ok(())
}

/// The counts are those of `.ci/second-reader --counts`, which has a grammar of its own, over the same texts.
#[test]
fn all_short_texts_are_read_alike(rt: HostRuntime) -> Result<(), AllocError> {
    let mut answers = Answers::NONE;
    let mut text = String::new(rt.alloc());
    for (length, count) in COUNTS.iter().enumerate() {
        for number in 0..*count {
            write_pieces(&mut text, length, number)?;
            answers.add(&rt, rt.alloc(), &text);
        }
    }
    answers.assert(&rt, 22, 177_134);
    Ok(())
}

const OPENINGS: [&str; 3] = ["all(", "any(", "not("];

const LEAVES: [&str; 6] = ["a", "r#true", "true", "false", "r#all = \"v\"", "k=\"(,\""];

/// The maximum number of pieces of a random text, before its groups are closed.
const MAX_PIECES: usize = 60;

/// A random text, made by a linear congruential generator of which the upper bits are used.
#[derive(Drop)]
struct Drawn {
    state: u64,
    text: String,
    /// The number of open groups.
    open: usize,
    /// True if a member comes next, and false if what follows a member does.
    is_member_next: bool,
}

impl Drawn {
    /// Returns the next number of the generator.
    fn number(&mut self) -> usize {
        self.state = self
            .state
            .wrapping_mul(6_364_136_223_846_793_005)
            .wrapping_add(1_442_695_040_888_963_407);
        (self.state >> 33) as usize
    }

    /// Returns a random next piece. It mostly continues a text that is accepted, and in one of 32 cases it is any
    /// piece.
    fn piece(&mut self) -> &'static str {
        match (self.number() % 32, self.is_member_next) {
            (0, _) => PIECES[self.number() % 11],
            (1..=11, true) => {
                self.open = self.open.saturating_add(1);
                OPENINGS[self.number() % 3]
            }
            (31, true) | (1..=15, false) => {
                self.open = self.open.saturating_sub(1);
                self.is_member_next = false;
                ")"
            }
            (_, true) => {
                self.is_member_next = false;
                LEAVES[self.number() % 6]
            }
            (_, false) => {
                self.is_member_next = true;
                ","
            }
        }
    }

    /// Appends random pieces, each followed by up to two spaces, until no group is open or there are enough. Returns
    /// whether no group is open.
    fn add_pieces(&mut self) -> Result<bool, AllocError> {
        for _ in 0..MAX_PIECES {
            let piece = self.piece();
            self.text.push_str(piece)?;
            for _ in 0..self.number() % 3 {
                self.text.push(' ')?;
            }
            if self.open == 0 {
                return Ok(true);
            }
        }
        Ok(false)
    }

    /// Makes a random text.
    fn draw(&mut self) -> Result<(), AllocError> {
        self.text.clear();
        let opening = OPENINGS[self.number() % 3];
        self.text.push_str(opening)?;
        self.open = 1;
        self.is_member_next = true;
        if self.add_pieces()? {
            return Ok(());
        }
        if self.is_member_next {
            self.text.push('a')?;
        }
        for _ in 0..self.open {
            self.text.push(')')?;
        }
        Ok(())
    }
}

/// The counts are those of `.ci/second-reader --counts`, which has a grammar of its own, over the same texts.
#[test]
fn drawn_texts_are_read_alike(rt: HostRuntime) -> Result<(), AllocError> {
    let mut answers = Answers::NONE;
    let mut drawn = Drawn {
        state: 1,
        text: String::new(rt.alloc()),
        open: 0,
        is_member_next: true,
    };
    for _ in 0..5_000 {
        drawn.draw()?;
        answers.add(&rt, rt.alloc(), &drawn.text);
    }
    answers.assert(&rt, 2_840, 2_160);
    Ok(())
}
