//! The sources of flags of rustc, of which Cargo uses one.

ghost use Rattle.std.specs.Prelude.{◌≡◌, ◌↔◌, IsTrue};

/// A source of flags, by Cargo's reference ("Configuration": `build.rustflags`), which has these four in this order.
#[derive(Clone, Copy, Debug, PartialEq, Eq)]
pub enum Source {
    /// The variable `CARGO_ENCODED_RUSTFLAGS`.
    EncodedVariable,
    /// The variable `RUSTFLAGS`.
    Variable,
    /// `rustflags` of the keys of `target` that match, and `CARGO_TARGET_<triple>_RUSTFLAGS`.
    Target,
    /// `build.rustflags`, and `CARGO_BUILD_RUSTFLAGS`.
    Build,
}

/// Returns the source that Cargo uses: the first in their order that is present, and else `build`.
pub fn used_source(has_encoded: bool, has_variable: bool, has_target: bool) -> Source
    ensures encoded { IsTrue has_encoded → result ≡ Source.EncodedVariable }
    ensures variable { (IsTrue has_encoded → ⊥) → IsTrue has_variable → result ≡ Source.Variable }
    ensures target { (IsTrue has_encoded → ⊥) → (IsTrue has_variable → ⊥) → IsTrue has_target →
        result ≡ Source.Target }
    ensures build { (IsTrue has_encoded → ⊥) → (IsTrue has_variable → ⊥) → (IsTrue has_target → ⊥) →
        result ≡ Source.Build }
{
    match (has_encoded, has_variable, has_target) {
        (true, _, _) => Source::EncodedVariable,
        (false, true, _) => Source::Variable,
        (false, false, true) => Source::Target,
        (false, false, false) => Source::Build,
    }
}

/// Returns whether flags of a configuration file count beside those at the same field of a file with precedence, by
/// Cargo's reference ("Configuration": "Hierarchical structure"): arrays are joined, and a string counts alone.
pub fn are_joined(nearer_is_string: bool, is_string: bool) -> bool
    ensures { IsTrue result ↔ (IsTrue nearer_is_string → ⊥) × (IsTrue is_string → ⊥) }
{
    !nearer_is_string && !is_string
}
