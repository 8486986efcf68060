//! Laws about the definitions. The functions do nothing: the contract of each is a law.

ghost use Rattle.std.specs.Prelude.{ℕ, Bool, IsTrue, ◌↔◌, length};
ghost use Rattle.package_graphs.specs.Graphs.{is_in};
ghost use Rattle.cargo_features.specs.Derivations.{Sets, Rules, IsDerived, Applies, ArePartOf, HaveAll};

/// States that the target sets of the facts are the least sets that contain what is given and are closed under the
/// rules: they are such sets, and they are subsets of any other such sets.
pub fn derivation_is_least()
    ensures given { (given : Sets) (rules : Rules) (k n : ℕ) → IsTrue (is_in given n k) → IsDerived given rules k n }
    ensures rules { (given : Sets) (rules : Rules) (k a b n : ℕ) → IsDerived given rules k a
        → IsDerived given rules k b → Applies (length given) rules k a b n → IsDerived given rules k n }
    ensures least { (given : Sets) (rules : Rules) (at : ℕ → ℕ → Bool)
        → ((n k : ℕ) → IsTrue (is_in given n k) → IsTrue (at n k))
        → ((a b n k : ℕ) → IsTrue (at a k) → IsTrue (at b k) → Applies (length given) rules k a b n → IsTrue (at n k))
        → (n k : ℕ) → IsDerived given rules k n → IsTrue (at n k) }
{}

/// States that additional rules or given targets remove no target from a fact.
pub fn more_keeps_targets()
    ensures { (given more : Sets) (rules others : Rules) (k n : ℕ) → HaveAll given more → ArePartOf rules others
        → IsDerived given rules k n → IsDerived more others k n }
{}

/// States that the order of the rules does not matter, nor how often a rule occurs.
pub fn order_does_not_count()
    ensures { (given : Sets) (rules others : Rules) (k n : ℕ) → ArePartOf rules others → ArePartOf others rules
        → IsDerived given rules k n ↔ IsDerived given others k n }
{}
