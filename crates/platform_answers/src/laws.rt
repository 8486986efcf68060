//! Laws about the definitions. The functions do nothing: the contract of each is a law.

ghost use Rattle.std.specs.Prelude.{ℕ, List};
ghost use Rattle.platform_answers.specs.Laws.{HasAnswer, HasOneAnswer};
ghost use Rattle.platform_answers.specs.Laws.{ShowsWhole, ShowsFew, ShowsStart, ShowsShortSpan, ShowsLongSpan};

/// The output depends only on the input: each input has exactly one output, and exactly one outcome.
pub fn one_answer()
    ensures some { (bs : List ℕ) → HasAnswer bs }
    ensures only { (bs : List ℕ) → HasOneAnswer bs }
{}

/// A snippet shows all of a text of at most 100 characters, and otherwise at most 100 characters, with the first 40 of
/// the span.
pub fn snippet_excerpt()
    ensures whole { (size before inside : ℕ) → ShowsWhole size before inside }
    ensures few { (size before inside : ℕ) → ShowsFew size before inside }
    ensures start { (size before : ℕ) → ShowsStart size before }
    ensures short_span { (size before inside : ℕ) → ShowsShortSpan size before inside }
    ensures long_span { (size before inside : ℕ) → ShowsLongSpan size before inside }
{}
