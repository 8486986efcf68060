//! Names, pairs and expressions, and how they are parsed.
//!
//! A fact, which `rustc --print cfg` prints on a line of its own, is a name (`unix`) or a key and its value
//! (`target_os = "linux"`). An expression combines such names and pairs by `all(..)`, `any(..)` and `not(..)`, and has
//! the literals `true` and `false`. The grammar is that of configuration predicates in the Rust reference's chapter on
//! conditional compilation, as Cargo uses it for `[target.'cfg(..)'.dependencies]` (Cargo's reference, "Platform
//! specific dependencies"). The members of `all` and `any` may end with one comma.

use crate::error::ReadError;
pub use crate::facts::{FactIndex, Facts, Listed};
use crate::reader::Reader;
use crate::{Looks, parser};
use std::alloc::Global;
use std::mem;

/// An identifier. The name of an identifier that was parsed begins with `_` or an ASCII letter, and goes on with these
/// and ASCII digits. Equality, order and hash use the name alone. Printing and cloning keep the raw mark.
#[derive(Debug, Drop)]
pub struct Ident {
    /// The name, without the raw mark.
    pub name: String,
    /// Whether the identifier is marked as raw: written `r#name`.
    pub raw: bool,
}

/// A fact, or what an expression tests for: a name, or a key and its value.
#[derive(Debug, Drop)]
pub enum Cfg {
    /// A name without a value, such as `unix`.
    Name(Ident),
    /// A key and the value between its quotes, such as `target_os = "linux"`.
    KeyPair(Ident, String),
}

/// An expression over facts. It is dropped without recursion, whatever its depth; a test drops two million levels.
/// Since it implements `Drop`, a pattern can't move its parts out; use `into_parts`.
pub enum CfgExpr {
    /// True if the expression inside is false.
    Not(Box<CfgExpr>),
    /// True if every member is true. `all()` is true.
    All(Vec<CfgExpr>),
    /// True if some member is true. `any()` is false.
    Any(Vec<CfgExpr>),
    /// True if the name or the pair is a fact.
    Value(Cfg),
    /// The literal `true`.
    True,
    /// The literal `false`.
    False,
}

/// The parts of an expression, one level down.
#[derive(Debug, Drop)]
pub enum CfgExprParts {
    /// The negated expression.
    Not(Box<CfgExpr>),
    /// The members of an `all`.
    All(Vec<CfgExpr>),
    /// The members of an `any`.
    Any(Vec<CfgExpr>),
    /// A name or a pair.
    Value(Cfg),
    /// The literal `true`, which has no parts.
    True,
    /// The literal `false`, which has no parts.
    False,
}

impl Ident {
    ghost use Rattle.std.specs.Prelude.{◌≡◌, ◌↔◌, IsTrue, string_bytes};

    /// Returns the name, without the raw mark.
    pub fn as_str(&self) -> &str
        // A name is its text, without the raw mark.
        ensures { result.now ≡ string_bytes self.now.name }
    {
        &self.name
    }

    /// Returns whether the name equals `text`. The raw mark plays no part.
    pub fn eq_text(&self, text: &str) -> bool
        // A name is its text, without the raw mark.
        ensures { IsTrue result ↔ (string_bytes self.now.name ≡ text.now) }
    {
        self.as_str() == text
    }
}

impl Cfg {
    ghost use Rattle.std.specs.Prelude.{◌≡◌, IfOk};
    ghost use Rattle.cargo_platform.specs.Trees.{CfgValue, value_of};
    ghost use Rattle.cargo_platform.specs.Spelling.{Values, IsValueText};
    ghost use Rattle.cargo_platform.specs.WellFormed.{IsWellFormedValue};
    ghost use Rattle.cargo_platform.specs.Faults.{IsRefused, IsRefusedAt};
    ghost use Rattle.cargo_platform.specs.Print.{print_value};
    ghost use Rattle.cargo_platform.specs.Errors.{IfParse, orig_of, fault_in, span_in};

    /// Parses a name, or a key, `=` and a string. Spaces may be before, between and after them. Here `all`, `any`,
    /// `not`, `true` and `false` are ordinary names.
    ///
    /// Returns `ReadError::Parse` for any other text, with its first fault: what can't follow the longest prefix of its
    /// tokens that some tokens would complete. Returns `ReadError::Memory` if an allocation fails, whatever the text.
    pub fn from_str(alloc: Global, s: &str) -> Result<Cfg, ReadError>
        // `Ok` holds only what the text means under the grammar.
        ensures value { IfOk result (λ c. IsValueText s.now (value_of c)) }
        // The error holds the text, and the fault and span that its fault prefix and what follows it determine.
        ensures orig { IfParse result (λ e. orig_of e ≡ s.now) }
        ensures fault { IfParse result (λ e. IsRefused Values s.now (fault_in e)) }
        ensures span { IfParse result (λ e. IsRefusedAt Values s.now (fault_in e) (span_in e)) }
        // Results are well-formed.
        ensures well_formed { IfOk result (λ c. IsWellFormedValue (value_of c)) }
        // `Parse` is returned only for a text without a meaning. So every text that has a meaning is parsed if memory
        // suffices.
        ensures refused { IfParse result (λ _. (c : CfgValue) → IsValueText s.now c → ⊥) }
        // Whatever is well-formed is parsed back, unchanged, from its printed text.
        ensures reads_back { (c : CfgValue) → IsWellFormedValue c → s.now ≡ print_value c
            → IfOk result (λ d. value_of d ≡ c) × IfParse result (λ _. ⊥) }
    {
        let mut reader = Reader::new(s);
        match parser::read_cfg(alloc, &mut reader) {
            Ok(cfg) => Ok(cfg),
            Err(refusal) => Err(refusal.into_error(alloc, s, &reader.spend())),
        }
    }
}

impl Drop for CfgExpr {
    /// Drops the expression without recursion and without allocating.
    // Most expressions are names and pairs: these need no call.
    #[inline(always)]
    fn drop(self) {
        match self {
            CfgExpr::Value(_value) => {}
            CfgExpr::True | CfgExpr::False => {}
            CfgExpr::Not(negated) => CfgExpr::drop_negated(Box::into_inner(negated)),
            CfgExpr::All(members) | CfgExpr::Any(members) => CfgExpr::drop_members(members),
        }
    }
}

impl CfgExpr {
    ghost use Rattle.std.specs.Prelude.{◌≡◌, ◌<◌, ◌+◌, IsTrue, false};
    ghost use Rattle.cargo_platform.specs.Trees.{tree_of};
    ghost use Rattle.cargo_platform.specs.ExpressionSizes.{node_count, node_counts};
    ghost use Rattle.cargo_platform.specs.Inside.Printing.{is_group};

    /// Drops the expression inside a negation.
    #[inline(never)]
    fn drop_negated(mut self) {
        'levels: loop {
            match self {
                CfgExpr::Not(negated) => self = Box::into_inner(negated),
                CfgExpr::All(members) | CfgExpr::Any(members) => return CfgExpr::drop_members(
                    members,
                ),
                CfgExpr::Value(_value) => return,
                CfgExpr::True | CfgExpr::False => return,
            }
        }
    }

    /// Drops the members of a list in a loop, from the last to the first.
    #[inline(never)]
    fn drop_members(mut left: Vec<CfgExpr>) {
        while let Some(last) = left.last() {
            if last.has_no_members() {
                if let Some(leaf) = left.pop() {
                    leaf.drop_leaf();
                }
            } else if let Some(group) = left.pop() {
                left = group.drop_to_members(left);
            }
        }
        left.destroy_empty();
    }

    /// Drops the groups that are nested in one another at the end of a list. Returns what is still to be dropped.
    ///
    /// One list and one expression are held at a time. If the expression has members, the first of these is taken out,
    /// the held list is put into its place, and these members become the held list. No list is dropped before it is
    /// empty.
    fn drop_to_members(self, mut left: Vec<CfgExpr>) -> Vec<CfgExpr>
        // The result has fewer expressions than the arguments.
        ensures fewer { node_counts result.items < node_count self + node_counts left.items }
    {
        let mut e = self;
        'levels: loop {
            let mut members = match e.into_parts() {
                CfgExprParts::Not(negated) => {
                    e = Box::into_inner(negated);
                    continue;
                }
                CfgExprParts::All(members) | CfgExprParts::Any(members) => members,
                CfgExprParts::Value(_value) => return left,
                CfgExprParts::True | CfgExprParts::False => return left,
            };
            if members.is_empty() {
                members.destroy_empty();
                return left;
            }
            if left.is_empty() {
                left.destroy_empty();
                return members;
            }
            e = mem::replace(&mut members[0], CfgExpr::All(left));
            left = members;
        }
    }

    /// Returns whether the expression is a name, a pair or a literal.
    fn has_no_members(&self) -> bool
        ensures { IsTrue result → is_group (tree_of self.now) ≡ false }
    {
        matches!(self, CfgExpr::Value(_) | CfgExpr::True | CfgExpr::False)
    }

    /// Drops a name, a pair or a literal.
    fn drop_leaf(self)
        requires { is_group (tree_of self) ≡ false }
    {
        match self.into_parts() {
            CfgExprParts::Value(_value) => {}
            CfgExprParts::True | CfgExprParts::False => {}
            CfgExprParts::Not(_) | CfgExprParts::All(_) | CfgExprParts::Any(_) => unreachable!(),
        }
    }
}

impl CfgExpr {
    ghost use Rattle.std.specs.Prelude.{◌≡◌, ◌≤◌, ◌+◌, ◌*◌, length, IfOk, OnOk, IfSome};
    ghost use Rattle.std.specs.Str.{chars};
    ghost use Rattle.cargo_platform.specs.Trees.{Tree, tree_of};
    ghost use Rattle.cargo_platform.specs.Spelling.{Expressions, IsTreeText};
    ghost use Rattle.cargo_platform.specs.WellFormed.{IsWellFormed};
    ghost use Rattle.cargo_platform.specs.Faults.{IsRefused, IsRefusedAt, looked_to};
    ghost use Rattle.cargo_platform.specs.Reading.{IsLookedTo};
    ghost use Rattle.cargo_platform.specs.Print.{print};
    ghost use Rattle.cargo_platform.specs.Errors.{IfParse, orig_of, fault_in, span_in};
    ghost use Rattle.cargo_platform.specs.Parts.{joined};

    /// Parses an expression: a name, a pair, a literal, or `all(..)`, `any(..)` or `not(..)` of expressions, nested to
    /// any depth. Unmarked, `all`, `any`, `not`, `true` and `false` are keywords, and neither names nor keys. With a
    /// raw mark each is an ordinary name: `r#true` is a name, and `r#all = "x"` a pair.
    ///
    /// Returns `ReadError::Parse` for any other text, with its first fault: what can't follow the longest prefix of its
    /// tokens that some tokens would complete. Returns `ReadError::Memory` if an allocation fails, whatever the text.
    pub fn from_str(alloc: Global, s: &str) -> Result<CfgExpr, ReadError>
        // `Ok` holds only what the text means under the grammar.
        ensures tree { IfOk result (λ e. IsTreeText s.now (tree_of e)) }
        // The error holds the text, and the fault and span that its fault prefix and what follows it determine.
        ensures orig { IfParse result (λ e. orig_of e ≡ s.now) }
        ensures fault { IfParse result (λ e. IsRefused Expressions s.now (fault_in e)) }
        ensures span { IfParse result (λ e. IsRefusedAt Expressions s.now (fault_in e) (span_in e)) }
        // Results are well-formed.
        ensures well_formed { IfOk result (λ e. IsWellFormed (tree_of e)) }
        // `Parse` is returned only for a text without a meaning. So every text that has a meaning is parsed if memory
        // suffices.
        ensures refused { IfParse result (λ _. (t : Tree) → IsTreeText s.now t → ⊥) }
        // Whatever is well-formed is parsed back, unchanged, from its printed text.
        ensures reads_back { (t : Tree) → IsWellFormed t → s.now ≡ print t
            → IfOk result (λ e. tree_of e ≡ t) × IfParse result (λ _. ⊥) }
    {
        CfgExpr::from_str_counted(alloc, s).0
    }

    /// Parses an expression as `from_str` does, and also returns the number of looks that the reader made at the text.
    /// A look reads the character at a position, or finds that the text ends there, and counts one. A scan of spaces, a
    /// name or a value counts each byte that it compares, and sixteen for a block of sixteen that are compared at once.
    ///
    /// Whatever the result, the reader makes at most `9n + 1` looks at a text of `n` characters. If it returns an
    /// expression, it makes at least `n + 1`. If it rejects the text, it makes at least as many looks as there are
    /// characters before the end of the fault's span or, if text is left after a whole expression, before that text.
    pub fn from_str_counted(alloc: Global, s: &str) -> (Result<CfgExpr, ReadError>, Looks)
        // The first part of the result satisfies the clauses of `from_str`.
        ensures tree { IfOk result.0 (λ e. IsTreeText s.now (tree_of e)) }
        ensures orig { IfParse result.0 (λ e. orig_of e ≡ s.now) }
        ensures fault { IfParse result.0 (λ e. IsRefused Expressions s.now (fault_in e)) }
        ensures span { IfParse result.0 (λ e. IsRefusedAt Expressions s.now (fault_in e) (span_in e)) }
        ensures well_formed { IfOk result.0 (λ e. IsWellFormed (tree_of e)) }
        ensures refused { IfParse result.0 (λ _. (t : Tree) → IsTreeText s.now t → ⊥) }
        ensures reads_back { (t : Tree) → IsWellFormed t → s.now ≡ print t
            → IfOk result.0 (λ e. tree_of e ≡ t) × IfParse result.0 (λ _. ⊥) }
        // Parsing `n` characters takes at most `9n + 1` looks.
        ensures at_most { result.1 ≤ 12 * (length (chars s.now) + 1) }
        ensures at_most_nine { result.1 ≤ 9 * length (chars s.now) + 1 }
        // Parsing `n` characters takes at least `n + 1` looks if it returns an expression.
        ensures with_tree { OnOk result.0 (length (chars s.now) + 1 ≤ result.1) }
        // Rejecting a text takes at least as many looks as there are characters before the end of the fault's span, or
        // before what is left after an expression.
        ensures at_least { IfParse result.0
            (λ e. IfSome (span_in e) (λ span. IsLookedTo s.now (looked_to (fault_in e) span) result.1)) }
    {
        let mut reader = Reader::new(s);
        match parser::read_expression(alloc, &mut reader) {
            Ok(expression) => (Ok(expression), reader.spend()),
            Err(refusal) => {
                let looks = reader.spend();
                (Err(refusal.into_error(alloc, s, &looks)), looks)
            }
        }
    }

    /// Takes the expression apart, one level down, and returns its parts unchanged. It allocates nothing and can't
    /// fail.
    #[inline(always)]
    pub fn into_parts(self) -> CfgExprParts
        // The parts can be joined to the expression again.
        ensures { joined result ≡ self }
    {
        match self {
            CfgExpr::Not(negated) => CfgExprParts::Not(negated),
            CfgExpr::All(members) => CfgExprParts::All(members),
            CfgExpr::Any(members) => CfgExprParts::Any(members),
            CfgExpr::Value(value) => CfgExprParts::Value(value),
            CfgExpr::True => CfgExprParts::True,
            CfgExpr::False => CfgExprParts::False,
        }
    }
}
