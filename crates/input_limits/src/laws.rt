//! Laws: statements about the definitions. The function has an empty body, and its contract is the laws.

ghost use Rattle.std.specs.Prelude.{ℕ, List, IsUtf8};
ghost use Rattle.input_limits.specs.Laws.{HasDepth, IsNotBoth, HasOnePlace};

/// A key is nested too deeply from exactly one position on, or from none.
pub fn one_depth()
    ensures either { (key : List ℕ) → IsUtf8 key → HasDepth key }
    ensures not_both { (key : List ℕ) (at : ℕ) → IsNotBoth key at }
    ensures place { (key : List ℕ) (at other : ℕ) → IsUtf8 key → HasOnePlace key at other }
{}
