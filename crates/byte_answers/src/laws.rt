//! Laws over the definitions. The function does nothing: its contract is the laws.

ghost use Rattle.byte_answers.specs.Laws.{AreCodes, IsMostOpen, IsMostFlatBytes};

/// The constants that callers of other languages know have these values.
pub fn constants()
    // The codes of outcomes are numbered from 0 to 7.
    ensures codes { AreCodes }
    // At most 10,000 parentheses are open at once, and a flat condition has at most 680,000 bytes.
    ensures most_open { IsMostOpen }
    ensures most_flat_bytes { IsMostFlatBytes }
{}
