//! Laws of the definitions, each proved as the contract of a function that does nothing.

ghost use Rattle.text_edits.specs.Laws.{HasOneResult, IsKeptWithoutEdits, IsKeptByItsOwnTexts};

/// A text and edits have one result.
pub fn one_result()
    ensures { HasOneResult }
{}

/// Without edits, a text stays as it is.
pub fn kept_without_edits()
    ensures { IsKeptWithoutEdits }
{}

/// Edits that replace parts of a text by the same texts keep it.
pub fn kept_by_its_own_texts()
    ensures { IsKeptByItsOwnTexts }
{}
