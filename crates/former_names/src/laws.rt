//! Laws: statements about the definitions. The functions have empty bodies, and each contract is a law.

ghost use Rattle.former_names.specs.Laws.{IsTotal, IsTransitive, IsAntisymmetric, HasOneVerdict};

/// Releases are totally ordered.
pub fn releases_are_ordered()
    ensures total { IsTotal }
    ensures transitive { IsTransitive }
    ensures antisymmetric { IsAntisymmetric }
{}

/// A project has exactly one verdict.
pub fn one_verdict()
    ensures { HasOneVerdict }
{}
