//! Laws over the definitions. The function does nothing: its contract is the laws.

ghost use Rattle.manifest_lints.specs.Laws.{AreOneValued, AreMany, AreLevels, AreCompared, AreFewAt, AreSplits};

/// The constants that the contract of `lint` cites have these values.
pub fn constants()
    ensures one_valued { AreOneValued }
    ensures many { AreMany }
    ensures levels { AreLevels }
    ensures compared { AreCompared }
    ensures few_at { AreFewAt }
    ensures splits { AreSplits }
{}
