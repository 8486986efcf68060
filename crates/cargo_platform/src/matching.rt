//! Evaluates an expression while it is parsed, without creating it.
//!
//! Each open group needs three bits, so that groups nested up to 21 levels deep need no memory.

ghost use Rattle.std.specs.Prelude.{◌≡◌, ◌≤◌, ◌<◌, List, [], ◌∷◌, ◌++◌, Bool, map, IfOk, IfErr, IfSome, OnOk, MatchOption};
ghost use Rattle.std.specs.Prelude.{◌%◌, IfNone, false, true, IsFalse};
ghost use Rattle.std.specs.List.{list_any};
ghost use Rattle.std.specs.FinSet.{contains};
ghost use Rattle.std.specs.Ordering.{eq_by_cmp};
ghost use Rattle.cargo_platform.specs.Tokens.{Ident as ident_token, RightParen};
ghost use Rattle.cargo_platform.specs.Trees.{Tree, Not, Alone, KeyPair, value_of};
ghost use Rattle.cargo_platform.specs.Key.{value_cmp};
ghost use Rattle.cargo_platform.specs.Facts.{FactSet, fact_set, truth};
ghost use Rattle.cargo_platform.specs.Faults.{IsRefused, IsRefusedAt};
ghost use Rattle.cargo_platform.specs.Errors.{IfParse, orig_of, fault_in, span_in};
ghost use Rattle.cargo_platform.specs.Holders.{name_fact, pair_fact};
ghost use Rattle.cargo_platform.specs.Spelling.{Expressions, Grammar, Spells, IsTreeText, is_group_word};
ghost use Rattle.cargo_platform.specs.Spelling.{is_literal_word};
ghost use Rattle.cargo_platform.specs.Walk.{Opening, Negated, Listed as OpenList, list_tree, Position, WithWord, WithTree};
ghost use Rattle.cargo_platform.specs.Walk.{kinds, start};
ghost use Rattle.cargo_platform.specs.Inside.Ahead.{Ahead, bytes_left};
ghost use Rattle.cargo_platform.specs.Inside.Parsing.{is_all, is_list, opening_word, at_name, at_lone_name, Stops};
ghost use Rattle.cargo_platform.specs.Inside.Parsing.{IsClear, LacksPunctuation, TakesToken};
ghost use Rattle.cargo_platform.specs.Inside.Matching.{fresh, IsIn, is_settled, IsAnswer, code_of, words, Hold};
ghost use Rattle.cargo_platform.specs.Inside.Matching.{Wants, Ends, Named, Begins, Answers, GoesOn, literal, ReadsValue};

use crate::cfg::{Cfg, CfgExpr, Listed};
use crate::error::ReadError;
use crate::parser::Listing;
use crate::reader::{Punctuation, Reader, expect_end, refuse};
use crate::refusal::Refusal;
use std::alloc::{AllocError, Global};

/// A set of facts that is queried by texts, so that a query needs no `Cfg`.
pub(crate) trait TextFacts {
    // The finite set of pairs that the holder represents.
    ghost meant: { Self → FactSet };

    /// Returns whether the name is in this set.
    fn has_name(&self, name: &str) -> bool
        ensures { result ≡ contains (meant self.now) (name_fact name.now) };

    /// Returns whether the key with this value is in this set.
    fn has_pair(&self, key: &str, value: &str) -> bool
        ensures { result ≡ contains (meant self.now) (pair_fact key.now value.now) };
}

impl<'a> TextFacts for Listed<'a> {
    ghost meant = { λ facts. fact_set (map value_of facts.0.now) };

    #[inline(never)]
    fn has_name(&self, name: &str) -> bool {
        lists_name(self.0, name)
    }

    #[inline(never)]
    fn has_pair(&self, key: &str, value: &str) -> bool {
        lists_pair(self.0, key, value)
    }
}

/// Returns whether a list contains the name.
#[inline(always)]
fn lists_name(facts: &[Cfg], name: &str) -> bool
    ensures { result ≡ list_any (λ fact. eq_by_cmp value_cmp (value_of fact)
        (Alone (record { raw = false; name = name.now }))) facts.now }
{
    for fact in facts {
        if is_name(fact, name) {
            return true;
        }
    }
    false
}

/// Returns whether a list contains the key with this value.
#[inline(always)]
fn lists_pair(facts: &[Cfg], key: &str, value: &str) -> bool
    ensures { result ≡ list_any (λ fact. eq_by_cmp value_cmp (value_of fact)
        (KeyPair (record { raw = false; name = key.now }) value.now)) facts.now }
{
    for fact in facts {
        if is_pair(fact, key, value) {
            return true;
        }
    }
    false
}

/// Returns whether a fact is this name.
#[inline(always)]
fn is_name(fact: &Cfg, name: &str) -> bool
    ensures { result ≡ eq_by_cmp value_cmp (value_of fact.now) (Alone (record { raw = false; name = name.now })) }
{
    match fact {
        Cfg::Name(other) => other.name.as_str() == name,
        Cfg::KeyPair(..) => false,
    }
}

/// Returns whether a fact is this key with this value.
#[inline(always)]
fn is_pair(fact: &Cfg, key: &str, value: &str) -> bool
    ensures { result
        ≡ eq_by_cmp value_cmp (value_of fact.now) (KeyPair (record { raw = false; name = key.now }) value.now) }
{
    match fact {
        Cfg::Name(_) => false,
        Cfg::KeyPair(other, with) => other.name.as_str() == key && with.as_str() == value,
    }
}

/// A kind of group.
#[derive(Clone, Copy)]
enum Kind {
    Not,
    List(Listing),
}

/// The bit of a group that is set if a member decides it or a group around it.
const SETTLED: u64 = 4;

/// With this word or a greater one, 21 groups are in the word.
const FULL: u64 = 0x1000_0000_0000_0000;

/// Returns the bits for a group of this kind.
#[inline(always)]
fn code_of(kind: Kind) -> u64
    ensures { result ≡ code_of (fresh kind) }
{
    match kind {
        Kind::Not => 1,
        Kind::List(Listing::All) => 2,
        Kind::List(Listing::Any) => 3,
    }
}

/// The open groups, of which each has three bits: those of its kind, and `SETTLED`. Members are not kept.
#[derive(Drop)]
struct Levels {
    /// The innermost groups, of which the innermost has the lowest bits.
    bits: u64,
    /// Full words with the groups around these, from the outermost inwards.
    outer: Vec<u64>,
}

impl Levels {
    /// Returns an empty list of groups.
    #[inline(always)]
    fn new(alloc: Global) -> Levels
        ensures { (fs : FactSet) → Hold fs (words result) [] }
    {
        Levels {
            bits: 0,
            outer: Vec::new(alloc),
        }
    }

    /// Returns the kind of the innermost group.
    #[inline(always)]
    fn innermost(&self) -> Option<Kind>
        ensures { MatchOption result
            ((fs : FactSet) (gs : List Opening) → Hold fs (words self.now) gs → gs ≡ [])
            (λ kind. (fs : FactSet) (gs : List Opening) → Hold fs (words self.now) gs
            → IsIn kind gs) }
    {
        match self.bits % 4 {
            1 => Some(Kind::Not),
            2 => Some(Kind::List(Listing::All)),
            3 => Some(Kind::List(Listing::Any)),
            _ => None,
        }
    }

    /// Returns whether a member decides one of the groups.
    #[inline(always)]
    fn is_settled(&self) -> bool
        ensures settled { (fs : FactSet) (gs : List Opening) → Hold fs (words self.now) gs
            → result ≡ is_settled fs gs }
        ensures room { IsFalse result → self.now.bits % 8 < 4 }
    {
        self.bits % 8 >= SETTLED
    }

    /// Adds a group inside the others. Fails only if 21 groups are open at least, and the allocation fails.
    #[inline(always)]
    fn push(&mut self, kind: Kind) -> Result<(), AllocError>
        ensures { OnOk result ((fs : FactSet) (gs : List Opening) → Hold fs (words self.old) gs
            → Hold fs (words self.new) (fresh kind ∷ gs)) }
    {
        let mut level = code_of(kind);
        if self.is_settled() {
            level += SETTLED;
        }
        if self.bits >= FULL {
            return self.push_word(level);
        }
        self.bits = self.bits * 8 + level;
        Ok(())
    }

    /// Adds a group with these bits in a new word.
    #[cold]
    #[inline(never)]
    fn push_word(&mut self, level: u64) -> Result<(), AllocError>
        ensures bits { OnOk result ((words self.new).inner ≡ level) }
        ensures outer { OnOk result ((words self.new).outer ≡ (words self.old).inner ∷ (words self.old).outer) }
    {
        self.outer.push(self.bits)?;
        self.bits = level;
        Ok(())
    }

    /// Removes the innermost group.
    #[inline(always)]
    fn pop(&mut self)
        ensures { (fs : FactSet) (g : Opening) (gs : List Opening) → Hold fs (words self.old) (g ∷ gs)
            → Hold fs (words self.new) gs }
    {
        self.bits /= 8;
        if self.bits == 0 {
            if let Some(bits) = self.outer.pop() {
                self.bits = bits;
            }
        }
    }

    /// Adds a member to the innermost group, which is a list of this kind.
    #[inline(always)]
    fn add_member(&mut self, word: Listing, is_true: bool)
        ensures { (fs : FactSet) (es : List Tree) (gs : List Opening) (e : Tree)
            → Hold fs (words self.old) (OpenList (is_all word) es ∷ gs)
            → IsAnswer fs (OpenList (is_all word) es ∷ gs) is_true e
            → Hold fs (words self.new) (OpenList (is_all word) (es ++ e ∷ []) ∷ gs) }
    {
        let decides = match word {
            Listing::All => !is_true,
            Listing::Any => is_true,
        };
        if decides && !self.is_settled() {
            self.bits += SETTLED;
        }
    }

    /// Removes the innermost group, which is a negation with this member, and returns whether it is true.
    #[inline(always)]
    fn close_not(&mut self, is_true: bool) -> bool
        ensures { (fs : FactSet) (gs : List Opening) (e : Tree) → Hold fs (words self.old) (Negated ∷ gs)
            → IsAnswer fs (Negated ∷ gs) is_true e
            → Hold fs (words self.new) gs × IsAnswer fs gs result (Not e) }
    {
        self.pop();
        !is_true
    }

    /// Removes the innermost group, which is a list of this kind, and returns whether it is true.
    #[inline(always)]
    fn close_list(&mut self, word: Listing) -> bool
        ensures { (fs : FactSet) (es : List Tree) (gs : List Opening)
            → Hold fs (words self.old) (OpenList (is_all word) es ∷ gs)
            → Hold fs (words self.new) gs × IsAnswer fs gs result (list_tree (is_all word) es) }
    {
        let is_settled = self.is_settled();
        self.pop();
        match word {
            Listing::All => !is_settled,
            Listing::Any => is_settled,
        }
    }
}

/// Returns the kind of group that a name opens, if the name is an unmarked keyword of a group.
#[inline(always)]
fn kind_named(raw: bool, name: &str) -> Option<Kind>
    ensures { MatchOption result (IsFalse (is_group_word (record { raw = raw; name = name.now })))
        (λ kind. (raw ≡ false) × (name.now ≡ opening_word (fresh kind))) }
{
    if raw {
        return None;
    }
    match name {
        "not" => Some(Kind::Not),
        "all" => Some(Kind::List(Listing::All)),
        "any" => Some(Kind::List(Listing::Any)),
        _ => None,
    }
}

/// Returns whether a name is the literal `true` or `false`, if it is an unmarked keyword of a literal.
#[inline(always)]
fn literal_named(raw: bool, name: &str) -> Option<bool>
    ensures { MatchOption result (IsFalse (is_literal_word (record { raw = raw; name = name.now })))
        (λ answer. Spells (literal answer) (ident_token raw name.now ∷ [])) }
{
    if raw {
        return None;
    }
    match name {
        "true" => Some(true),
        "false" => Some(false),
        _ => None,
    }
}

/// Parses what follows the identifier of a name or a pair: nothing, or `=` and a string. Returns whether the name or
/// the pair is a fact, if that is asked for.
#[inline(always)]
fn read_value<'a, F: TextFacts>(
    reader: &mut Reader<'a>,
    facts: &F,
    is_asked: bool,
    name: &str,
) -> Result<bool, Refusal<'a>>
    ensures value { IfOk result (λ answer. (raw : Bool)
        → ReadsValue (F.meant facts.now) reader.old.ahead reader.new.ahead raw name.now is_asked answer) }
    ensures refused { IfErr result (λ r. (g : Grammar) (raw : Bool) (gs : List Opening)
        → Stops g reader.old.ahead (at_lone_name raw name.now gs) r) }
    ensures shorter { OnOk result (bytes_left reader.new.ahead ≤ bytes_left reader.old.ahead) }
{
    if !reader.eat(Punctuation::Equals) {
        return Ok(is_asked && facts.has_name(name));
    }
    let Some(value) = reader.eat_string() else {
        return Err(refuse(reader, "a string", "a string"));
    };
    Ok(is_asked && facts.has_pair(name, value))
}

/// Parses the `(` after the keyword of a group.
#[inline(always)]
fn open_group<'a>(
    reader: &mut Reader<'a>,
    levels: &mut Levels,
    kind: Kind,
) -> Result<(), Refusal<'a>>
    ensures opened { OnOk result ((fs : FactSet) (old : Ahead) (from : Position)
        → Named fs old reader.old.ahead from (words levels.old) (WithWord (fresh kind))
        → Wants fs old reader.new.ahead from (words levels.new)) }
    ensures refused { IfErr result (λ r. (gs : List Opening)
        → Stops Expressions reader.old.ahead (WithWord (fresh kind) gs) r) }
    ensures shorter { OnOk result (bytes_left reader.new.ahead ≤ bytes_left reader.old.ahead) }
{
    if !reader.eat(Punctuation::LeftParen) {
        return Err(refuse(reader, "`(`", "`(`"));
    }
    levels.push(kind)?;
    Ok(())
}

/// Continues after a name: either a group is open then, or an expression has ended.
#[inline(always)]
fn behind_name<'a, F: TextFacts>(
    reader: &mut Reader<'a>,
    levels: &mut Levels,
    facts: &F,
    raw: bool,
    name: &str,
) -> Result<Option<bool>, Refusal<'a>>
    ensures begun { IfOk result (λ done. (old : Ahead) (from : Position)
        → Named (F.meant facts.now) old reader.old.ahead from (words levels.old) (at_name raw name.now)
        → Begins (F.meant facts.now) old reader.new.ahead from (words levels.new) done) }
    ensures refused { IfErr result (λ r. (gs : List Opening)
        → Stops Expressions reader.old.ahead (at_name raw name.now gs) r) }
    ensures shorter { OnOk result (bytes_left reader.new.ahead ≤ bytes_left reader.old.ahead) }
{
    if let Some(kind) = kind_named(raw, name) {
        open_group(reader, levels, kind)?;
        return Ok(None);
    }
    if let Some(answer) = literal_named(raw, name) {
        return Ok(Some(answer));
    }
    let is_asked = !levels.is_settled();
    let answer = read_value(reader, facts, is_asked, name)?;
    Ok(Some(answer))
}

/// Parses the `)` of a list that has no members yet, or whose members end with a comma. Returns whether the list is
/// true.
#[inline(always)]
fn end_list(reader: &mut Reader<'_>, levels: &mut Levels) -> Option<bool>
    ensures closed { IfSome result (λ answer. (fs : FactSet) (old : Ahead) (from : Position)
        → Wants fs old reader.old.ahead from (words levels.old)
        → Ends fs old reader.new.ahead from (words levels.new) answer) }
    ensures shorter { IfSome result (λ _. bytes_left reader.new.ahead < bytes_left reader.old.ahead) }
    ensures same { IfNone result (reader.new.ahead ≡ reader.old.ahead) }
    ensures not_closed { IfNone result ((fs : FactSet) (gs : List Opening) → Hold fs (words levels.old) gs
        → is_list (kinds gs) ≡ true → LacksPunctuation reader.old.ahead Punctuation.RightParen) }
{
    match levels.innermost() {
        Some(Kind::List(word)) => {
            if !reader.eat(Punctuation::RightParen) {
                return None;
            }
            Some(levels.close_list(word))
        }
        Some(Kind::Not) => None,
        None => None,
    }
}

/// Parses a name alone, a pair or the opening of a group, or closes a list that ends here.
#[inline(always)]
fn begin<'a, F: TextFacts>(
    reader: &mut Reader<'a>,
    levels: &mut Levels,
    facts: &F,
) -> Result<Option<bool>, Refusal<'a>>
    ensures begun { IfOk result (λ done. (old : Ahead) (from : Position)
        → Wants (F.meant facts.now) old reader.old.ahead from (words levels.old)
        → Begins (F.meant facts.now) old reader.new.ahead from (words levels.new) done) }
    ensures refused { IfErr result (λ r. (fs : FactSet) (old : Ahead) (from : Position)
        → Wants fs old reader.old.ahead from (words levels.old) → Stops Expressions old from r) }
    ensures shorter { OnOk result (bytes_left reader.new.ahead < bytes_left reader.old.ahead) }
{
    if let Some((raw, name)) = reader.eat_name() {
        return behind_name(reader, levels, facts, raw, name);
    }
    if let Some(is_true) = end_list(reader, levels) {
        return Ok(Some(is_true));
    }
    Err(refuse(reader, "identifier", "start of a cfg expression"))
}

/// Parses the `)` of a group after its last member.
#[inline(always)]
fn close<'a>(reader: &mut Reader<'a>) -> Result<(), Refusal<'a>>
    ensures taken { OnOk result (TakesToken reader.old.ahead reader.new.ahead RightParen) }
    ensures refused { IfErr result (λ r. (g : Opening) (gs : List Opening) (e : Tree)
        → (is_list (kinds (g ∷ [])) ≡ true → LacksPunctuation reader.old.ahead Punctuation.Comma)
        → IsClear e reader.old.ahead → Stops Expressions reader.old.ahead (WithTree e (g ∷ gs)) r) }
{
    if !reader.eat(Punctuation::RightParen) {
        return Err(refuse(reader, "`)`", "`)`"));
    }
    Ok(())
}

/// Continues after a member of a group of this kind: parses a comma, or the `)` of the group. Returns whether the group
/// is true if it has ended.
#[inline(always)]
fn end_member<'a>(
    reader: &mut Reader<'a>,
    levels: &mut Levels,
    kind: Kind,
    is_true: bool,
) -> Result<Option<bool>, Refusal<'a>>
    ensures ended { IfOk result (λ done. (fs : FactSet) (old : Ahead) (from : Position)
        → (ends : Ends fs old reader.old.ahead from (words levels.old) is_true) → IsIn kind ends.gs
        → Begins fs old reader.new.ahead from (words levels.new) done) }
    ensures refused { IfErr result (λ r. (fs : FactSet) (old : Ahead) (from : Position)
        → (ends : Ends fs old reader.old.ahead from (words levels.old) is_true) → IsIn kind ends.gs
        → Stops Expressions old from r) }
    ensures shorter { OnOk result (bytes_left reader.new.ahead < bytes_left reader.old.ahead) }
{
    match kind {
        Kind::Not => {
            close(reader)?;
            Ok(Some(levels.close_not(is_true)))
        }
        Kind::List(word) => {
            levels.add_member(word, is_true);
            if reader.eat(Punctuation::Comma) {
                return Ok(None);
            }
            close(reader)?;
            Ok(Some(levels.close_list(word)))
        }
    }
}

/// Continues after an expression: closes groups up to a comma, or up to the end of the whole expression, of which it
/// returns whether it is true.
#[inline(always)]
fn end<'a>(
    reader: &mut Reader<'a>,
    levels: &mut Levels,
    ended: bool,
) -> Result<Option<bool>, Refusal<'a>>
    ensures ended { IfOk result (λ done. (fs : FactSet) (old : Ahead) (from : Position)
        → Ends fs old reader.old.ahead from (words levels.old) ended
        → GoesOn fs old reader.new.ahead from (words levels.new) done) }
    ensures refused { IfErr result (λ r. (fs : FactSet) (old : Ahead) (from : Position)
        → Ends fs old reader.old.ahead from (words levels.old) ended → Stops Expressions old from r) }
    ensures shorter { OnOk result (bytes_left reader.new.ahead ≤ bytes_left reader.old.ahead) }
{
    let mut is_true = ended;
    'groups: while let Some(kind) = levels.innermost() {
        let Some(closed) = end_member(reader, levels, kind, is_true)? else {
            return Ok(None);
        };
        is_true = closed;
    }
    expect_end(reader)?;
    Ok(Some(is_true))
}

/// Parses the tokens as an expression, and returns whether it is true over the facts.
pub(crate) fn evaluate<'a, F: TextFacts>(
    alloc: Global,
    reader: &mut Reader<'a>,
    facts: &F,
) -> Result<bool, Refusal<'a>>
    ensures answer { IfOk result (Answers (F.meant facts.now) reader.old.ahead reader.new.ahead start) }
    ensures refused { IfErr result (Stops Expressions reader.old.ahead start) }
{
    let mut levels = Levels::new(alloc);
    'members: loop {
        if let Some(is_true) = begin(reader, &mut levels, facts)? {
            if let Some(answer) = end(reader, &mut levels, is_true)? {
                return Ok(answer);
            }
        }
    }
}

/// Returns whether the expression in a text is true over the facts.
#[inline(always)]
fn text_is_true<F: TextFacts>(alloc: Global, text: &str, facts: &F) -> Result<bool, ReadError>
    ensures truth { IfOk result (λ answer. (e : Tree) × IsTreeText text.now e
        × (answer ≡ truth (F.meant facts.now) e)) }
    ensures orig { IfParse result (λ e. orig_of e ≡ text.now) }
    ensures fault { IfParse result (λ e. IsRefused Expressions text.now (fault_in e)) }
    ensures span { IfParse result (λ e. IsRefusedAt Expressions text.now (fault_in e) (span_in e)) }
    ensures refused { IfParse result (λ _. (e : Tree) → IsTreeText text.now e → ⊥) }
{
    let mut reader = Reader::new(text);
    match evaluate(alloc, &mut reader, facts) {
        Ok(is_true) => Ok(is_true),
        Err(refusal) => Err(refusal.into_error(alloc, text, &reader.spend())),
    }
}

impl CfgExpr {
    /// Returns whether the expression in a text is true over the facts in `cfg`, as `from_str` and `matches` do. The
    /// expression is evaluated while it is parsed, and is not created.
    ///
    /// An expression takes memory only if its groups are nested more than 21 levels deep. Once a member decides a
    /// group, no further member is looked up, but the text is parsed to its end.
    ///
    /// Returns `ReadError::Parse` for a text that `from_str` rejects, with the same error. Returns `ReadError::Memory`
    /// if an allocation fails.
    pub fn matches_str(alloc: Global, s: &str, cfg: &[Cfg]) -> Result<bool, ReadError>
        // The answer is the truth of the expression that the text means.
        ensures truth { IfOk result (λ answer. (e : Tree) × IsTreeText s.now e
            × (answer ≡ truth (fact_set (map value_of cfg.now)) e)) }
        // The error holds the text, and the fault and span that its fault prefix and what follows it determine.
        ensures orig { IfParse result (λ e. orig_of e ≡ s.now) }
        ensures fault { IfParse result (λ e. IsRefused Expressions s.now (fault_in e)) }
        ensures span { IfParse result (λ e. IsRefusedAt Expressions s.now (fault_in e) (span_in e)) }
        // `Parse` is returned only for a text without a meaning. So every text that has a meaning is evaluated if
        // memory suffices.
        ensures refused { IfParse result (λ _. (e : Tree) → IsTreeText s.now e → ⊥) }
    {
        text_is_true(alloc, s, &Listed(cfg))
    }
}
