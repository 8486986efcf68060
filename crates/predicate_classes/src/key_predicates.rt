//! The names and pairs in a key, each with its span and its class.

ghost use Rattle.std.specs.Prelude.{◌≡◌, ◌++◌, IfOk, OnOk, map, flat_map};
ghost use Rattle.std.specs.List.{list_any};
ghost use Rattle.cargo_platform.specs.Trees.{value_of};
ghost use Rattle.partial_facts.specs.Partly.{names_of};
ghost use Rattle.manifests.specs.Declarations.{declarations_of};
ghost use Rattle.predicate_classes.specs.Classes.{Classified, classified_of, classified_by, classified_with_declarations, has_category};
ghost use Rattle.predicate_classes.specs.Classes.{flag_names, opened_by, is_category, category_in};

use crate::classes::{Category, Class, class_of};
use crate::rustc_names::name_in;
use cargo_platform::Cfg;
use manifests::ExpectedCfgs;
use std::alloc::{AllocError, Global};
use std::collections::BTreeSet;
use toml_spans::Span;

/// The names and keys whose facts depend on flags, profiles and Cargo.
const OPEN: [&str; 3] = ["debug_assertions", "panic", "target_feature"];

/// A name or pair in a key.
#[derive(Clone, Copy, Drop)]
pub struct KeyPredicate<'a> {
    pub fact: &'a Cfg,
    /// The span in the key.
    pub span: Option<Span>,
    /// The class, given the declarations of the manifest.
    pub class: Class,
    /// True if no earlier name or pair in the key is the same.
    pub is_first: bool,
}

/// Returns the names and pairs of a condition with their classes. `spans` are their spans in the key. Fails if memory
/// is refused.
pub fn key_predicates<'a>(
    alloc: Global,
    values: &[&'a Cfg],
    spans: &[Span],
    declared: &ExpectedCfgs<'_>,
) -> Result<Vec<KeyPredicate<'a>>, AllocError>
    ensures { IfOk result (λ predicates. classified_by predicates.items
        ≡ map (λ c. classified_with_declarations (declarations_of declared.now) (value_of c.now)) values.now) }
{
    let mut predicates = Vec::new(alloc);
    let mut seen: BTreeSet<&'a Cfg> = BTreeSet::new(alloc);
    'values: for (index, each) in values.iter().enumerate() {
        let fact: &'a Cfg = *each;
        let is_first = seen.insert(fact)?;
        let span = spans.get(index).copied();
        let fact = key_predicate(alloc, fact, span, is_first, declared)?;
        predicates.push(fact)?;
    }
    Ok(predicates)
}

/// Returns a name or pair of a key with its class.
fn key_predicate<'a>(
    alloc: Global,
    fact: &'a Cfg,
    span: Option<Span>,
    is_first: bool,
    declared: &ExpectedCfgs<'_>,
) -> Result<KeyPredicate<'a>, AllocError>
    ensures { IfOk result (λ f. classified_of f ≡ classified_with_declarations (declarations_of declared.now)
        (value_of fact.now)) }
{
    let class = class_of(alloc, fact)?.with_declaration(declared.declares(fact));
    Ok(KeyPredicate {
        fact,
        span,
        class,
        is_first,
    })
}

/// Returns whether one of the names and pairs is of this category.
pub fn has_category(predicates: &[KeyPredicate<'_>], category: Category) -> bool
    ensures { result ≡ has_category category (classified_by predicates.now) }
{
    'predicates: for each in predicates {
        if each.class.category().is(category) {
            return true;
        }
    }
    false
}

/// Returns the names and keys whose facts are open, each as often as it occurs: those that depend on flags, and those
/// whose facts only Cargo or `--cfg` set. Fails if memory is refused.
pub fn open_names<'a>(
    alloc: Global,
    predicates: &[KeyPredicate<'a>],
) -> Result<Vec<&'a str>, AllocError>
    ensures { IfOk result (λ names. names_of names.items ≡ flag_names ++ flat_map opened_by
        (classified_by predicates.now)) }
{
    let mut open = open_flags(alloc)?;
    'predicates: for each in predicates {
        push_open(&mut open, each)?;
    }
    Ok(open)
}

/// Returns the names and keys whose facts depend on flags, profiles and Cargo.
fn open_flags<'a>(alloc: Global) -> Result<Vec<&'a str>, AllocError>
    ensures { IfOk result (λ names. names_of names.items ≡ flag_names) }
{
    let mut open = Vec::new(alloc);
    'names: for name in &OPEN {
        open.push(*name)?;
    }
    Ok(open)
}

/// Appends the name or key of a fact that is open.
fn push_open<'a>(names: &mut Vec<&'a str>, predicate: &KeyPredicate<'a>) -> Result<(), AllocError>
    ensures { OnOk result (names_of names.new.items ≡ names_of names.old.items ++ opened_by
        (classified_of predicate.now)) }
{
    if predicate.class.category().is_open() {
        names.push(name_in(predicate.fact))?;
    }
    Ok(())
}
