//! Laws about the definitions. The functions do nothing: the contract of each is a law.

ghost use Rattle.diagnostics.specs.LevelLaws.{MakesOne, IsKept, LastDecides};

/// States that rules turn a level into exactly one level.
pub fn one_level()
    ensures { MakesOne }
{}

/// States that a diagnostic keeps its level if no rule applies to it.
pub fn rules_that_do_not_apply_do_nothing()
    ensures { IsKept }
{}

/// States that a rule decides if it applies to a diagnostic of any level and no rule after it applies.
pub fn the_last_decides()
    ensures { LastDecides }
{}
