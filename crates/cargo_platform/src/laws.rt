//! Laws: statements about the definitions. The functions have empty bodies, and each contract is a law.

ghost use Rattle.std.specs.Prelude.{◌≡◌, ◌≤◌, true, false, ℕ, List, [], length, Option, IsUtf8, Box, Vec};
ghost use Rattle.std.specs.declared.alloc.Global.{Global};
ghost use Rattle.std.specs.declared.ops.Range.{Range};
ghost use Rattle.cargo_platform.specs.declared.cfg.Cfg.{Cfg};
ghost use Rattle.cargo_platform.specs.declared.cfg.CfgExpr.{CfgExpr};
ghost use Rattle.cargo_platform.specs.Tokens.{Lexeme, Placed};
ghost use Rattle.cargo_platform.specs.Reading.{Progress};
ghost use Rattle.cargo_platform.specs.Trees.{Name, CfgValue, Tree, All, Any, Trees, none, Condition};
ghost use Rattle.cargo_platform.specs.Spelling.{Grammar, Values, Expressions, IsValueText, IsTreeText};
ghost use Rattle.cargo_platform.specs.Faults.{IsCompletable, IsRefused, IsPlacedRefusal, Fault};
ghost use Rattle.cargo_platform.specs.CutLaws.{HasOneCut, CutsAreRead, IsReadAlike, EndsForGood, FailsOnce};
ghost use Rattle.cargo_platform.specs.GrammarLaws.{HasOneTree, HasOneValue, SpellsWellFormed};
ghost use Rattle.cargo_platform.specs.TextLaws.{AtMostOne, SpellsOrIsRefused, RefusedSpellsNothing, SpellsOnly};
ghost use Rattle.cargo_platform.specs.TextLaws.{PrintSpells, PrintsApart};
ghost use Rattle.cargo_platform.specs.FaultLaws.{PrefixesAreCompletable, IsCompletedShortly, IsWalkedIffCompletable};
ghost use Rattle.cargo_platform.specs.FaultLaws.{IsKeptByWalk, IsPrefixCompletable, IsStoppedByNext};
ghost use Rattle.cargo_platform.specs.FaultLaws.{IsExpectedToFollow, NamesWhatCanFollow, IsPlacedWithin};
ghost use Rattle.cargo_platform.specs.FaultLaws.{IsSurplusAt, IsBehindPrefix};
ghost use Rattle.cargo_platform.specs.WellFormed.{IsWellFormedValue, IsWellFormed, IsWellFormedCondition};
ghost use Rattle.cargo_platform.specs.Print.{print_value, print, print_condition};
ghost use Rattle.cargo_platform.specs.Platforms.{IsConditionText, IsConditionRefusal, IsPlacedConditionRefusal};
ghost use Rattle.cargo_platform.specs.Platforms.{IsConditionPlacedWithin, IsBehindName};
ghost use Rattle.cargo_platform.specs.KeySpans.{IsFoundInKey};
ghost use Rattle.cargo_platform.specs.SpanLaws.{IsCutBefore, IsFoundInFacts};
ghost use Rattle.cargo_platform.specs.declared.fact_lines.FactsError.{FactsError};
ghost use Rattle.cargo_platform.specs.ChangeLaws.{SpelledReleased, IsAcceptedAsReleased, IsRefusedAsReleased};
ghost use Rattle.cargo_platform.specs.ChangeLaws.{IsTreeTextAsReleased, KeepsTree, IsConditionTextAsReleased};
ghost use Rattle.cargo_platform.specs.ChangeLaws.{KeepsCondition, SpelledTransitional, IsRefusedForLiteralKeys};
ghost use Rattle.cargo_platform.specs.ChangeLaws.{WasWellFormedWithoutMarkedLiterals, IsWellFormedWithoutLiteralKeys};
ghost use Rattle.cargo_platform.specs.ChangeLaws.{GivesNoKeyword, IsConditionRefusedAsReleased, SpelledReleasedText};
ghost use Rattle.cargo_platform.specs.ChangeLaws.{IsTextRefusedForLiteralKeys, KeepsFault, ComesNoLater};
ghost use Rattle.cargo_platform.specs.ChangeLaws.{WasThereOrIsAtKey, CameLaterAtKey, IsAtKeyWhereRead};
ghost use Rattle.cargo_platform.specs.ViewLaws.{IsNotOf, IsAllOf, IsAnyOf, IsValueOf, AreLiterals};
ghost use Rattle.cargo_platform.specs.Sizes.{size, depth};
ghost use Rattle.cargo_platform.specs.Facts.{Pair, pair_cmp, FactSet, fact_set, truth};
ghost use Rattle.cargo_platform.specs.Asks.{asks};
ghost use Rattle.cargo_platform.specs.Warnings.{values};
ghost use Rattle.cargo_platform.specs.FactLaws.{IsInWhereListed, HaveSamePairs, HaveSameFacts, IsMonotone};
ghost use Rattle.cargo_platform.specs.FactLaws.{IsNotAllAnyNot, IsOrderOfKeys, IsTruthOfCondition};
ghost use Rattle.cargo_platform.specs.Lines.{lines_of, AreLines};
ghost use Rattle.cargo_platform.specs.Key.{name_key, value_key, key, condition_key, name_cmp, value_cmp, tree_cmp};
ghost use Rattle.cargo_platform.specs.Key.{condition_cmp};
ghost use Rattle.cargo_platform.specs.Hashing.{name_hash, value_hash, tree_hash, condition_hash};

/// Every text has exactly one cut.
pub fn one_cut()
    ensures { (text : List ℕ) → IsUtf8 text → HasOneCut text }
{}

/// From the start of a text, calls of `next` return the tokens of its cut, and then its tail.
pub fn cuts_are_read()
    ensures { (text : List ℕ) → CutsAreRead text }
{}

/// From the start of a text, calls of `next` return no tokens other than those of its cut.
pub fn read_alike()
    ensures { (text : List ℕ) → IsReadAlike text }
{}

/// After `None`, every call returns `None`.
pub fn ends_for_good()
    ensures { (old new : Progress) → EndsForGood old new }
{}

/// After a fault, `next` returns `None`.
pub fn fails_once()
    ensures { (old new : Progress) → FailsOnce old new }
{}

/// Tokens mean at most one name or pair.
pub fn one_value()
    ensures { (ts : List Lexeme) → HasOneValue ts }
{}

/// Tokens mean at most one expression.
pub fn one_tree()
    ensures { (ts : List Lexeme) → HasOneTree ts }
{}

/// A text means at most one name or pair, one expression, and one condition.
pub fn one_text()
    ensures values { (text : List ℕ) → AtMostOne IsValueText text }
    ensures expressions { (text : List ℕ) → AtMostOne IsTreeText text }
    ensures conditions { (text : List ℕ) → AtMostOne IsConditionText text }
{}

/// Tokens that are written well mean only well-formed values and trees.
pub fn well_formed()
    ensures { (ts : List Lexeme) → SpellsWellFormed ts }
{}

/// Whatever a text means is well-formed.
pub fn well_formed_text()
    ensures values { (text : List ℕ) → SpellsOnly IsValueText IsWellFormedValue text }
    ensures expressions { (text : List ℕ) → SpellsOnly IsTreeText IsWellFormed text }
    ensures conditions { (text : List ℕ) → SpellsOnly IsConditionText IsWellFormedCondition text }
{}

/// Every prefix of tokens that can be completed can be completed too, and so can the empty list of tokens.
pub fn prefixes_completable()
    ensures prefixes { (g : Grammar) (prefix after : List Lexeme) → PrefixesAreCompletable g prefix after }
    ensures none { (g : Grammar) → IsCompletable g [] }
{}

/// Tokens that can be completed to an expression need at most three tokens more than they have `(`.
pub fn completed_shortly()
    ensures { (ts : List Lexeme) → IsCompletedShortly ts }
{}

/// The groups that are open and the last token decide whether tokens can be completed.
pub fn walked_iff_completable()
    ensures { (g : Grammar) (ts : List Lexeme) → IsWalkedIffCompletable g ts }
{}

/// The groups that are open and the last token decide after which next tokens they can still be completed.
pub fn kept_by_walk()
    ensures { (g : Grammar) (ts : List Lexeme) (t : Lexeme) → IsKeptByWalk g ts t }
{}

/// At the place of a text's fault, the tokens before it can be completed, with the next one they can't, and what the
/// fault names as expected is allowed.
pub fn fault_prefix()
    ensures completable { (g : Grammar) (ts prefix after : List Placed) → IsPrefixCompletable g ts prefix after }
    ensures stopped { (g : Grammar) (ts prefix after : List Placed) → IsStoppedByNext g ts prefix after }
    ensures expected { (g : Grammar) (ts prefix after : List Placed) → IsExpectedToFollow g ts prefix after }
{}

/// What the fault of a text names as expected is allowed at the place of the fault.
pub fn named_can_follow()
    ensures { (g : Grammar) (text : List ℕ) (fault : Fault) → NamesWhatCanFollow g text fault }
{}

/// A text has at most one fault as a name or a pair, one as an expression, and one as a condition. The fault as a
/// condition is about exactly one text.
pub fn one_fault()
    ensures texts { (g : Grammar) (text : List ℕ) → AtMostOne (IsRefused g) text }
    ensures conditions { (text : List ℕ) → AtMostOne IsConditionRefusal text }
{}

/// The fault of a text has exactly one place.
pub fn one_place()
    ensures texts { (g : Grammar) (text : List ℕ) → AtMostOne (IsPlacedRefusal g) text }
    ensures conditions { (text : List ℕ) → AtMostOne IsPlacedConditionRefusal text }
{}

/// The place of a fault is within the text, and begins and ends between characters.
pub fn faults_are_placed()
    ensures texts { (g : Grammar) (text : List ℕ) (fault : Fault) (span : Range ℕ) → IsUtf8 text
        → IsPlacedWithin g text fault span }
    ensures conditions { (text orig : List ℕ) (fault : Fault) (span : Range ℕ) → IsUtf8 text
        → IsConditionPlacedWithin text orig fault span }
{}

/// The span of what is left after a whole value or expression is the span of that text. The text before the span of any
/// fault is cut into the tokens of the fault prefix, and nothing of it is left except the mark `r#` of a lexical fault.
/// The next token begins where the span begins. The text before the span of a rejected target name is a target name
/// itself, unless it begins with `cfg(`.
pub fn around_spans()
    ensures surplus { (g : Grammar) (text rest : List ℕ) → IsSurplusAt g text rest }
    ensures prefix { (g : Grammar) (text : List ℕ) (fault : Fault) (r : IsRefused g text fault) → IsBehindPrefix r }
    ensures before { (g : Grammar) (text : List ℕ) (fault : Fault) (r : IsRefused g text fault) → IsCutBefore r }
    ensures name { (text : List ℕ) (span : Range ℕ) → IsBehindName text span }
{}

/// If a key is rejected as a condition, the range that `ParseError::span_in` returns is within the key, its start is
/// not after its end, and it begins and ends between characters.
pub fn faults_are_in_keys()
    ensures { (key text : List ℕ) (fault : Fault) (span : Range ℕ) (found : Option (Range ℕ)) → IsUtf8 key
        → IsFoundInKey key text fault span found }
{}

/// If a text of facts is rejected, the range that `FactsError::span_in` returns is within the whole text, its start is
/// not after its end, and it begins and ends between characters.
pub fn faults_are_in_facts()
    ensures { (text : List ℕ) (error : FactsError) (found : Option (Range ℕ)) → IsUtf8 text
        → IsFoundInFacts text error found }
{}

/// Every text either means a name or a pair or has a fault as one. The same is true of expressions and of conditions.
pub fn spelled_or_refused()
    ensures values { (text : List ℕ) → IsUtf8 text → SpellsOrIsRefused IsValueText (IsRefused Values) text }
    ensures expressions { (text : List ℕ) → IsUtf8 text → SpellsOrIsRefused IsTreeText (IsRefused Expressions) text }
    ensures conditions { (text : List ℕ) → IsUtf8 text → SpellsOrIsRefused IsConditionText IsConditionRefusal text }
{}

/// No text has both a meaning and a fault.
pub fn refused_spells_nothing()
    ensures values { (text : List ℕ) → RefusedSpellsNothing IsValueText (IsRefused Values) text }
    ensures expressions { (text : List ℕ) → RefusedSpellsNothing IsTreeText (IsRefused Expressions) text }
    ensures conditions { (text : List ℕ) → RefusedSpellsNothing IsConditionText IsConditionRefusal text }
{}

/// The printed text of whatever is well-formed means it.
pub fn print_spells()
    ensures values { (c : CfgValue) → PrintSpells IsValueText IsWellFormedValue print_value c }
    ensures expressions { (e : Tree) → PrintSpells IsTreeText IsWellFormed print e }
    ensures conditions { (p : Condition) → PrintSpells IsConditionText IsWellFormedCondition print_condition p }
{}

/// Two well-formed values, expressions or conditions are printed alike only if they are the same.
pub fn prints_apart()
    ensures values { (c d : CfgValue) → PrintsApart IsWellFormedValue print_value c d }
    ensures expressions { (d e : Tree) → PrintsApart IsWellFormed print d e }
    ensures conditions { (p q : Condition) → PrintsApart IsWellFormedCondition print_condition p q }
{}

/// Marked `true` and `false` alone are names. In the Rust crate they are literals. What tokens mean there is determined
/// by what they mean here: the same lists of tokens are accepted, and the same texts are rejected with the same faults.
/// The transitional grammar is that of the Rust crate with this change alone.
pub fn marked_literals_are_names()
    ensures spelled { (ts : List Lexeme) → SpelledReleased ts }
    ensures accepted { (ts : List Lexeme) → IsAcceptedAsReleased ts }
    ensures refused { (text : List ℕ) (fault : Fault) → IsRefusedAsReleased text fault }
{}

/// Whether marked `true` and `false` alone are names or literals, the same texts are accepted as expressions, and they
/// mean the same expression if it contains none of the two.
pub fn expressions_as_released()
    ensures accepted { (text : List ℕ) → IsTreeTextAsReleased text }
    ensures kept { (text : List ℕ) → KeepsTree text }
{}

/// Whether marked `true` and `false` alone are names or literals, the same texts are accepted as conditions, and they
/// mean the same condition if it contains none of the two. The other texts have the same faults.
pub fn conditions_as_released()
    ensures accepted { (text : List ℕ) → IsConditionTextAsReleased text }
    ensures kept { (text : List ℕ) → KeepsCondition text }
    ensures refused { (text orig : List ℕ) (fault : Fault) → IsConditionRefusedAsReleased text orig fault }
{}

/// Unmarked `true` and `false` can't be keys in an expression. In the transitional grammar they can. Whatever tokens
/// mean here they mean there, and what tokens mean there is rejected here exactly if one of the two is a key in it.
pub fn literals_are_no_keys()
    ensures spelled { (ts : List Lexeme) → SpelledTransitional ts }
    ensures refused { (ts : List Lexeme) → IsRefusedForLiteralKeys ts }
{}

/// Compares the Rust crate's grammar of expressions with today's. What a text means there is determined by what it
/// means now. A text that has a meaning there has none now exactly if an unmarked `true` or `false` is a key in it. A
/// text that is rejected there is rejected now, at the same token or an earlier one, and with the same fault if what is
/// before that fault can still be completed. Today's fault is either the fault there or at the `=` right after an
/// unmarked `true` or `false`. In the second case, the Rust crate takes that word as a key and goes on: its fault comes
/// later, or it accepts the text.
pub fn texts_as_released()
    ensures spelled { (text : List ℕ) → SpelledReleasedText text }
    ensures refused { (text : List ℕ) → IsTextRefusedForLiteralKeys text }
    ensures fault { (text : List ℕ) (fault : Fault) → KeepsFault text fault }
    ensures no_later { (text : List ℕ) (before now : Fault) → ComesNoLater text before now }
    ensures there_or_key { (text : List ℕ) (fault : Fault) → WasThereOrIsAtKey text fault }
    ensures later_at_key { (text : List ℕ) (before now : Fault) → CameLaterAtKey text before now }
    ensures read_at_key { (text : List ℕ) (now : Fault) → IsAtKeyWhereRead text now }
{}

/// Compares which trees are well-formed in the Rust crate's grammar, in the transitional one, and today: the Rust
/// crate's excludes marked literals alone, and today's excludes unmarked ones as keys.
pub fn well_formed_as_before()
    ensures released { (e : Tree) → WasWellFormedWithoutMarkedLiterals e }
    ensures today { (e : Tree) → IsWellFormedWithoutLiteralKeys e }
{}

/// No text that is accepted leads to a warning about a keyword. Only trees that are built by hand do.
pub fn no_keyword_is_read()
    ensures { (text : List ℕ) → GivesNoKeyword text }
{}

/// The fact set of a list has exactly the pairs of its members, so that order, repetitions and raw marks play no part.
pub fn facts_are_pairs_of_members()
    ensures { (cs : List CfgValue) (p : Pair) → IsInWhereListed cs p }
{}

/// Truth depends only on the set of facts.
pub fn truth_is_of_facts()
    ensures sets { (s t : FactSet) (e : Tree) → HaveSameFacts s t → truth s e ≡ truth t e }
    ensures lists { (cs ds : List CfgValue) (e : Tree) → HaveSamePairs cs ds
        → truth (fact_set cs) e ≡ truth (fact_set ds) e }
{}

/// The function that gives the truth of a condition, by which `Platform::matches` answers, agrees with the relation
/// that says which conditions are true.
pub fn truth_of_conditions()
    ensures { (target : List ℕ) (facts : FactSet) (p : Condition) → IsTruthOfCondition target facts p }
{}

/// The number of queries to a holder is at most the number of names and pairs in the tree.
pub fn asks_within_values()
    ensures { (facts : FactSet) (e : Tree) → asks facts e ≤ length (values e) }
{}

/// In a tree without `Not`, more facts never turn truth into falsehood.
pub fn truth_is_monotone()
    ensures { (fewer more : FactSet) (e : Tree) → IsMonotone fewer more e }
{}

/// `not(all(..))` has the same truth as `any(..)` of the negated members.
pub fn not_all_is_any_not()
    ensures { (facts : FactSet) (es : Trees) → IsNotAllAnyNot facts es }
{}

/// `all()` is true, and `any()` is false.
pub fn groups_of_none()
    ensures all { (facts : FactSet) → truth facts (All none) ≡ true }
    ensures any { (facts : FactSet) → truth facts (Any none) ≡ false }
{}

/// Keys are totally ordered, and `Equal` means that the keys are equal.
pub fn keys_are_ordered()
    ensures names { IsOrderOfKeys name_key name_cmp }
    ensures values { IsOrderOfKeys value_key value_cmp }
    ensures trees { IsOrderOfKeys key tree_cmp }
    ensures conditions { IsOrderOfKeys condition_key condition_cmp }
{}

/// A value and its key feed a hasher the same input.
pub fn hashes_are_of_keys()
    ensures names { (n : Name) → name_hash (name_key n) ≡ name_hash n }
    ensures values { (c : CfgValue) → value_hash (value_key c) ≡ value_hash c }
    ensures trees { (e : Tree) → tree_hash (key e) ≡ tree_hash e }
    ensures conditions { (p : Condition) → condition_hash (condition_key p) ≡ condition_hash p }
{}

/// A text has its lines, and no others.
pub fn lines_are()
    ensures are { (text : List ℕ) → AreLines text (lines_of text) }
    ensures only { (text : List ℕ) (ls : List (List ℕ)) → AreLines text ls → ls ≡ lines_of text }
{}

/// The tree of an expression is determined form by form.
pub fn views_by_form()
    ensures negations { (e : Box CfgExpr Global) → IsNotOf e }
    ensures all { (es : Vec CfgExpr Global) → IsAllOf es }
    ensures any { (es : Vec CfgExpr Global) → IsAnyOf es }
    ensures values { (c : Cfg) → IsValueOf c }
    ensures literals { AreLiterals }
{}

/// The order in which a set of facts is kept is total, and only equal pairs tie.
pub fn pairs_are_ordered()
    ensures { IsOrderOfKeys (λ (p : Pair). p) pair_cmp }
{}

/// The depth of a tree is at most its size.
pub fn depth_within_size()
    ensures { (e : Tree) → depth e ≤ size e }
{}
