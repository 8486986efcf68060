//! Laws: statements about the definitions. The functions have empty bodies, and each contract is a law.

ghost use Rattle.std.specs.Prelude.{◌≡◌, ℕ, List, Bool, Option, Some, None};
ghost use Rattle.std.specs.FinSet.{contains};
ghost use Rattle.cargo_platform.specs.Trees.{CfgValue, Tree, Condition};
ghost use Rattle.cargo_platform.specs.Facts.{Pair, FactSet, fact_set, pair_of, truth};
ghost use Rattle.partial_facts.specs.Kleene.{kleene};
ghost use Rattle.partial_facts.specs.KleeneLaws.{TellsMore, LearnsName};
ghost use Rattle.partial_facts.specs.Conditions.{kleene_condition, residual_condition};
ghost use Rattle.partial_facts.specs.Residual.{residual_tree};
ghost use Rattle.partial_facts.specs.Partly.{partly_told, IsPartlyKnown, KeepsNames, IsAllowedByTold, IsLeftOpen};
ghost use Rattle.partial_facts.specs.OneValued.{one_valued_told, IsOneValued, IsOpenOneValued};

use crate::knowledge::Knowledge;

/// If each pair is known, each expression is decided, and its truth is the result.
pub fn all_known_decides()
    ensures { (s : FactSet) (e : Tree) → kleene (λ p. Some (contains s p)) e ≡ Some (truth s e) }
{}

/// Whatever is decided stays decided, with the same truth, as more becomes known.
pub fn stays_decided()
    ensures { (told more : Pair → Option Bool) (e : Tree) (b : Bool) → TellsMore told more
        → kleene told e ≡ Some b → kleene more e ≡ Some b }
{}

/// The residual of a residual, as more becomes known, is the residual in one step.
pub fn left_in_steps()
    ensures { (told more : Pair → Option Bool) (e : Tree) → TellsMore told more
        → residual_tree more (residual_tree told e) ≡ residual_tree more e }
{}

/// A condition that is decided stays decided, with the same truth, as more becomes known of the facts or the target's
/// name.
pub fn conditions_stay_decided()
    ensures { (name more_name : Option (List ℕ)) (told more : Pair → Option Bool) (p : Condition) (b : Bool)
        → LearnsName name more_name → TellsMore told more → kleene_condition name told p ≡ Some b
        → kleene_condition more_name more p ≡ Some b }
{}

/// The residual of a condition's residual, as more becomes known, is the residual in one step.
pub fn conditions_left_in_steps()
    ensures { (name more_name : Option (List ℕ)) (told more : Pair → Option Bool) (p : Condition)
        → LearnsName name more_name → TellsMore told more
        → residual_condition more_name more (residual_condition name told p) ≡ residual_condition more_name more p }
{}

/// A `Partial` decides more if more names are complete, and if its list of facts was possible before: for example a
/// list with one more fact, of a name that is not complete.
pub fn partial_tells_more()
    ensures { (listed more : FactSet) (complete names : List (List ℕ)) → IsPartlyKnown listed complete more
        → KeepsNames complete names → TellsMore (partly_told listed complete) (partly_told more names) }
{}

/// `Complete` over a possible set decides more.
pub fn complete_tells_more<K: Knowledge>(known: &K)
    ensures { (s : FactSet) → K.allows known.now s → TellsMore (K.told known.now) (λ p. Some (contains s p)) }
{}

/// A `Partial` rules out no set without reason: it allows each set that agrees with what it decides, and a pair that it
/// does not decide is in one allowed set and not in another.
pub fn partial_is_tight()
    ensures allowed { (listed : FactSet) (complete : List (List ℕ)) (s : FactSet) → IsAllowedByTold listed complete s }
    ensures open { (cs : List CfgValue) (complete : List (List ℕ)) (c : CfgValue)
        → partly_told (fact_set cs) complete (pair_of c) ≡ None → IsLeftOpen cs complete c }
{
    cargo_platform::laws::facts_are_pairs_of_members();
}

/// A `OneValued` decides more if more names are complete, if more keys have one value, and if its list was possible
/// before. So does a `OneValued` over a list that was possible to a `Partial`.
pub fn one_valued_tells_more()
    ensures kept { (cs ds : List CfgValue) (complete names single keys : List (List ℕ))
        → IsOneValued (fact_set cs) complete single (fact_set ds) → KeepsNames complete names → KeepsNames single keys
        → TellsMore (one_valued_told cs complete single) (one_valued_told ds names keys) }
    ensures beside_partial { (cs ds : List CfgValue) (complete names single : List (List ℕ))
        → IsPartlyKnown (fact_set cs) complete (fact_set ds) → KeepsNames complete names
        → TellsMore (partly_told (fact_set cs) complete) (one_valued_told ds names single) }
{}

/// What a `OneValued` does not decide is open: such a pair is in one allowed set and not in another.
pub fn one_valued_is_tight()
    ensures { (cs : List CfgValue) (complete single : List (List ℕ)) (c : CfgValue)
        → one_valued_told cs complete single (pair_of c) ≡ None → IsOpenOneValued cs complete single c }
{}
