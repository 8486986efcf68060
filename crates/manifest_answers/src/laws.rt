//! Laws over the definitions. The function does nothing: its contract is the laws.

ghost use Rattle.manifest_answers.specs.Laws.{AreFewFacts, AreSplits};

/// The constants of answers on the targets of a file have these values.
pub fn constants()
    ensures few_facts { AreFewFacts }
    ensures splits { AreSplits }
{}
