//! Selects which of the names and pairs in a key are reported.

ghost use Rattle.std.specs.Prelude.{◌≡◌, IfOk};
ghost use Rattle.cargo_platform.specs.Trees.{value_of};
ghost use Rattle.manifest_lints_findings.specs.Chosen.{is_unstable, is_feature, is_chosen, chosen};
ghost use Rattle.manifest_lints_findings.specs.Known.{is_marked_literal};

use cargo_platform::Cfg;
use predicate_classes::classes::{Category, Class};
use predicate_classes::key_predicates::KeyPredicate;
use std::alloc::{AllocError, Global};

/// A selection of names and pairs.
#[derive(Clone, Copy, Drop)]
pub enum Choice {
    /// Those of a category, each once.
    OfCategory(Category),
    /// The names `r#true` and `r#false`, each once.
    Literal,
    /// Those that only unstable features of rustc set.
    Unstable,
    /// Those that do not depend on unstable features of rustc.
    Stable,
    /// The pairs of `target_feature`, which a custom target specification cannot have either.
    Feature,
    /// Those that are not pairs of `target_feature`.
    NoFeature,
}

/// Returns whether only unstable features of rustc set the name or pair.
fn is_unstable(class: Class) -> bool
    ensures { result ≡ is_unstable class }
{
    matches!(class, Class::Unstable)
}

/// Returns whether a fact is a pair of `target_feature`.
fn is_feature(fact: &Cfg) -> bool
    ensures { result ≡ is_feature (value_of fact.now) }
{
    match fact {
        Cfg::KeyPair(key, _) => key.as_str() == "target_feature",
        Cfg::Name(_) => false,
    }
}

/// Returns whether a fact is the name `r#true` or `r#false`, which Cargo reads as a literal.
pub fn is_marked_literal(fact: &Cfg) -> bool
    ensures { result ≡ is_marked_literal (value_of fact.now) }
{
    match fact {
        Cfg::Name(name) => name.raw && (name.as_str() == "true" || name.as_str() == "false"),
        Cfg::KeyPair(_, _) => false,
    }
}

/// Returns whether the selection includes a name or pair.
fn is_chosen(choice: Choice, predicate: &KeyPredicate<'_>) -> bool
    ensures { result ≡ is_chosen choice predicate.now }
{
    match choice {
        Choice::OfCategory(category) => predicate.is_first
            && predicate.class.category().is(category),
        Choice::Literal => predicate.is_first && is_marked_literal(predicate.fact),
        Choice::Unstable => is_unstable(predicate.class),
        Choice::Stable => !is_unstable(predicate.class),
        Choice::Feature => is_feature(predicate.fact),
        Choice::NoFeature => !is_feature(predicate.fact),
    }
}

/// Returns the selected names and pairs, in their order. Fails if memory is refused.
pub fn chosen<'a>(
    alloc: Global,
    predicates: &[KeyPredicate<'a>],
    choice: Choice,
) -> Result<Vec<KeyPredicate<'a>>, AllocError>
    ensures { IfOk result (λ found. found.items ≡ chosen choice predicates.now) }
{
    let mut found = Vec::new(alloc);
    'predicates: for each in predicates {
        if is_chosen(choice, each) {
            found.push(*each)?;
        }
    }
    Ok(found)
}
