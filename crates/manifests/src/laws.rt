//! Laws about the definitions. The function does nothing: its contract is the laws.

ghost use Rattle.std.specs.Prelude.{ℕ, List};
ghost use Rattle.cargo_platform.specs.Tokens.{Lexeme};
ghost use Rattle.manifests.specs.Declarations.{DeclaredEntry};
ghost use Rattle.manifests.specs.Laws.{DeclareWhatIsWritten, DeclaresWhatIsWritten};

/// Tokens declare an entry exactly if the entry can be written with them, and so does a text that consists of such
/// tokens.
pub fn what_is_written_is_declared()
    ensures tokens { (tokens : List Lexeme) (e : DeclaredEntry) → DeclareWhatIsWritten tokens e }
    ensures text { (text : List ℕ) (e : DeclaredEntry) → DeclaresWhatIsWritten text e }
{}
