//! Entries in the lists of features.

ghost use Rattle.declared_features.specs.Entries.{IsEntry};

/// An entry in the list of a feature (see [dependency
/// features](https://doc.rust-lang.org/cargo/reference/features.html#dependency-features)).
#[derive(Clone, Copy, Debug, PartialEq, Eq, Drop)]
pub enum FeatureEntry<'a> {
    /// `f`: the feature of this name.
    Feature(&'a str),
    /// `dep:d`: the dependencies of this name.
    Dependency(&'a str),
    /// `d/g`: the feature `g` of the dependencies `d`, which it turns on.
    Strong(&'a str, &'a str),
    /// `d?/g`: the feature `g` of the dependencies `d`, where they are on.
    Weak(&'a str, &'a str),
}

/// Returns the entry that a text in the list of a feature spells. Each text spells one.
pub fn entry_of<'a>(text: &'a str) -> FeatureEntry<'a>
    // The text spells the entry: `f`, `dep:d`, `d/g` or `d?/g`. The first `/` divides it.
    ensures { IsEntry text.now result }
{
    let Some((name, feature)) = text.split_once('/') else {
        return match text.strip_prefix("dep:") {
            Some(name) => FeatureEntry::Dependency(name),
            None => FeatureEntry::Feature(text),
        };
    };
    match name.strip_suffix('?') {
        Some(name) => FeatureEntry::Weak(name, feature),
        None => FeatureEntry::Strong(name, feature),
    }
}
