//! Laws over the definitions. The functions do nothing: each contract is a law.

ghost use Rattle.std.specs.Prelude.{◌≡◌, ◌↔◌, ℕ, List, None, IfSome};
ghost use Rattle.std.specs.FinSet.{contains};
ghost use Rattle.cargo_platform.specs.Facts.{Pair, FactSet};
ghost use Rattle.known_targets.specs.Open.{open_told, IsSameButOpen, IsLeftOpen};

/// A `PartialTarget` rules out no set of facts without reason: it allows exactly the sets that agree with what it
/// decides, and a pair that it does not decide is in one set that it allows and not in another.
pub fn partial_target_is_tight()
    ensures allowed { (facts : FactSet) (open_keys : List (List ℕ)) (s : FactSet) → IsSameButOpen facts open_keys s
        ↔ ((p : Pair) → IfSome (open_told facts open_keys p) (λ b. contains s p ≡ b)) }
    ensures open { (facts : FactSet) (open_keys : List (List ℕ)) (p : Pair)
        → open_told facts open_keys p ≡ None → IsLeftOpen facts open_keys p }
{}
