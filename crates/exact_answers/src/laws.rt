//! Laws over the definitions. The function does nothing: its contract is the laws.

ghost use Rattle.exact_answers.specs.Laws.{AreSplits, AreFewSplits};

/// The constants of searches have these values.
pub fn constants()
    ensures splits { AreSplits }
    ensures few_splits { AreFewSplits }
{}
