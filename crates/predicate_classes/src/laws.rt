//! Laws about the definitions. The functions do nothing: the contract of each is a law.

ghost use Rattle.std.specs.Prelude.{Bool};
ghost use Rattle.cargo_platform.specs.Trees.{CfgValue};
ghost use Rattle.predicate_classes.specs.declared.classes.Category.{Category};
ghost use Rattle.predicate_classes.specs.Rules.{HasCategoryOfRules, IsNoMistake, IsSettled};
ghost use Rattle.predicate_classes.specs.Rules.{StaysOrIsDeclared, StaysRustcsOrCargos};
ghost use Rattle.predicate_classes.specs.Laws.{AreValued, AreFlagged, ArePlain, AreNamedByValue};
ghost use Rattle.predicate_classes.specs.Laws.{AreOfFlags, IsShortest, AreUnstableNames, AreUnstableKeys};

/// The constants that other contracts cite have these values.
pub fn constants()
    ensures valued { AreValued }
    ensures flagged { AreFlagged }
    ensures plain { ArePlain }
    ensures unstable_names { AreUnstableNames }
    ensures unstable_keys { AreUnstableKeys }
    ensures named_by_value { AreNamedByValue }
    ensures flags { AreOfFlags }
    ensures shortest { IsShortest }
{}

/// A name or pair is of a category exactly if a rule says so, and no rule takes precedence over another.
pub fn one_category()
    ensures { (c : CfgValue) (s : Category) → HasCategoryOfRules c s }
{}

/// A fact that some known target has is in the category of rustc's facts, or Cargo warns of it: it is never mistaken
/// and never custom.
pub fn what_targets_have_is_no_mistake()
    ensures { (c : CfgValue) → IsNoMistake c }
{}

/// A declaration turns a mistaken or custom fact into a declared one, and changes nothing else.
pub fn with_declarations()
    ensures settled { (s : Category) → IsSettled s }
    ensures stays { (declared : Bool) (s : Category) → StaysOrIsDeclared declared s }
    ensures of_others { (declared : Bool) → StaysRustcsOrCargos declared }
{}
