//! Finds names and keys among texts and facts, for implementations of `Knowledge`.

ghost use Rattle.std.specs.Prelude.{◌≡◌, map, string_bytes};
ghost use Rattle.cargo_platform.specs.Trees.{value_of};
ghost use Rattle.cargo_platform.specs.Facts.{pair_of};
ghost use Rattle.partial_facts.specs.Partly.{is_named, names_of};
ghost use Rattle.partial_facts.specs.OneValued.{has_key, has_value};

use cargo_platform::{Cfg, Ident};

/// Returns whether `texts` contains `text`.
pub fn is_among(text: &str, texts: &[&str]) -> bool
    // It is true exactly if the text is one of them.
    ensures { result ≡ is_named text.now (names_of texts.now) }
{
    for other in texts {
        if text == *other {
            return true;
        }
    }
    false
}

/// Returns whether `texts` contains the name or key. Its raw mark plays no part.
pub fn is_named(name: &Ident, texts: &[&str]) -> bool
    // It is true exactly if the name, without its mark, is one of the texts.
    ensures { result ≡ is_named (string_bytes name.now.name) (names_of texts.now) }
{
    is_among(name.as_str(), texts)
}

/// Returns whether the fact is a pair with this key. Raw marks play no part.
pub fn has_key(fact: &Cfg, key: &Ident) -> bool
    // It is true exactly if the fact is a pair with this key.
    ensures { result ≡ has_key (string_bytes key.now.name) (pair_of (value_of fact.now)) }
{
    match fact {
        Cfg::Name(_) => false,
        Cfg::KeyPair(other, _) => other.as_str() == key.as_str(),
    }
}

/// Returns whether some fact is a pair with this key. Raw marks play no part.
pub fn has_value(facts: &[Cfg], key: &Ident) -> bool
    // It is true exactly if some fact is a pair with this key.
    ensures { result ≡ has_value (string_bytes key.now.name) (map pair_of (map value_of facts.now)) }
{
    for fact in facts {
        if has_key(fact, key) {
            return true;
        }
    }
    false
}
