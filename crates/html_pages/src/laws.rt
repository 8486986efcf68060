//! Laws: statements about the definitions. The functions have empty bodies, and each contract is a law.

ghost use Rattle.html_pages.specs.Laws.{HasNoMark, HasOneMeaning};

/// An escaped text has no `<`, `>`, `"` and `'`.
pub fn no_marks()
    ensures { HasNoMark }
{}

/// An escaped text stands for exactly one text.
pub fn one_meaning()
    ensures { HasOneMeaning }
{}
