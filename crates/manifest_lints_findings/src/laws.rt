//! Laws about the definitions. The functions do nothing: their contracts are the laws.

ghost use Rattle.manifest_lints_findings.specs.Laws.{AreAllCodes, IsMostShown};

/// `KEY_LINTS` contains all lints, each once, in the order in which they are reported.
pub fn codes()
    ensures { AreAllCodes }
{}

/// At most three items of a list are printed.
pub fn most_shown()
    ensures { IsMostShown }
{}
