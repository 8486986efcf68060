//! The properties of a key by itself: from its text, one walk of its tree, and the declarations of the manifest.

ghost use Rattle.std.specs.Prelude.{◌≡◌, [], IfOk, not, string_bytes};
ghost use Rattle.cargo_platform.specs.Trees.{value_of, condition_of};
ghost use Rattle.cargo_platform.specs.Print.{print_condition};
ghost use Rattle.manifests.specs.Declarations.{declarations_of};
ghost use Rattle.predicate_classes.specs.Classes.{classified_by};
ghost use Rattle.manifest_lints_findings.specs.NoTables.{is_empty_list, is_no_table};
ghost use Rattle.manifest_lints_findings.specs.Spells.{entry_read};
ghost use Rattle.manifest_lints_findings.specs.Known.{IsKnown, holds_alone, has_marked_literal};

use crate::chosen::is_marked_literal;
use crate::codes::KeyLint;
use crate::no_tables::non_tables;
use crate::readings::{KeyMeaning, ReadKey};
use cargo_platform::{Platform, values_with_levels};
use manifests::ExpectedCfgs;
use predicate_classes::classes::{Category, is_unknown_target};
use predicate_classes::key_predicates::{KeyPredicate, has_category, key_predicates};
use predicate_classes::key_spans::spans_of;
use std::alloc::{AllocError, Global};

/// The properties of a key. A key that is not a condition contains no names and pairs.
#[derive(Drop)]
pub struct AnalysedKey<'a> {
    /// The key as it was parsed: its text, its value, and what it spells.
    pub read: &'a ReadKey<'a>,
    /// The index of the key among those of the manifest.
    pub place: usize,
    /// The parts of the value that are not dependency tables, with a text for each.
    pub non_tables: Vec<String>,
    /// The names and pairs in the key, from left to right.
    pub predicates: Vec<KeyPredicate<'a>>,
    /// The maximum number of members, nested in one another, that others follow in their group.
    pub levels: usize,
    /// The canonical form of its condition.
    pub canonical: String,
    /// True if the key is the name of a target that is not known.
    pub is_unknown_target: bool,
}

impl<'a> AnalysedKey<'a> {
    /// Returns the properties of the parsed key at index `place`. Fails if memory is refused.
    pub fn of(
        alloc: Global,
        read: &'a ReadKey<'a>,
        place: usize,
        declared: &ExpectedCfgs<'_>,
    ) -> Result<AnalysedKey<'a>, AllocError>
        ensures place { IfOk result (λ k. k.place ≡ place) }
        ensures known { IfOk result (λ k. IsKnown (declarations_of declared.now) read.now k) }
    {
        let non_tables = non_tables_under(alloc, read)?;
        match &read.spelled {
            KeyMeaning::Condition(condition) => {
                known_condition(alloc, read, place, non_tables, condition, declared)
            }
            KeyMeaning::ByCargo(_) | KeyMeaning::Refused(_) => Ok(AnalysedKey {
                read,
                place,
                non_tables,
                predicates: Vec::new(alloc),
                levels: 0,
                canonical: String::new(alloc),
                is_unknown_target: false,
            }),
        }
    }

    /// Returns the properties of a key that is in no manifest.
    pub(crate) fn alone(alloc: Global, read: &'a ReadKey<'a>) -> Result<AnalysedKey<'a>, AllocError>
        ensures place { IfOk result (λ k. k.place ≡ 0) }
        ensures known { IfOk result (λ k. IsKnown [] read.now k) }
    {
        AnalysedKey::of(alloc, read, 0, &ExpectedCfgs::none(alloc))
    }

    /// Returns whether a lint applies to the key. For lints that are decided over sets of facts, or by comparing keys,
    /// this is `false`.
    pub fn holds(&self, code: KeyLint) -> bool
        ensures { result ≡ holds_alone self.now code }
    {
        match code {
            KeyLint::Refused => matches!(self.read.spelled, KeyMeaning::Refused(_)),
            KeyLint::NoTable => !self.non_tables.is_empty(),
            KeyLint::ReadOtherwise => {
                matches!(self.read.spelled, KeyMeaning::ByCargo(_))
                    || has_marked_literal(&self.predicates)
            }
            KeyLint::Unsupported => has_category(&self.predicates, Category::Unsupported),
            KeyLint::UnknownTarget => self.is_unknown_target,
            KeyLint::UnknownFact => has_category(&self.predicates, Category::Mistaken),
            KeyLint::Custom => has_category(&self.predicates, Category::Custom),
            KeyLint::NotCanonical => {
                matches!(self.read.spelled, KeyMeaning::Condition(_))
                    && self.canonical.as_str() != self.read.text
            }
            _ => false,
        }
    }
}

/// Returns the parts of a key's value that are not dependency tables, with a text for each.
fn non_tables_under(alloc: Global, read: &ReadKey<'_>) -> Result<Vec<String>, AllocError>
    ensures { IfOk result (λ found. is_empty_list found.items ≡ not (is_no_table (entry_read read.now).1)) }
{
    match read.value {
        Some(value) => non_tables(alloc, value),
        None => Ok(Vec::new(alloc)),
    }
}

/// Returns the properties of a key with this condition.
fn known_condition<'a>(
    alloc: Global,
    read: &'a ReadKey<'a>,
    place: usize,
    non_tables: Vec<String>,
    condition: &'a Platform,
    declared: &ExpectedCfgs<'_>,
) -> Result<AnalysedKey<'a>, AllocError>
    ensures place { IfOk result (λ k. k.place ≡ place) }
    ensures known { read.now.spelled ≡ KeyMeaning.Condition condition.now
        → is_empty_list non_tables.items ≡ not (is_no_table (entry_read read.now).1)
        → IfOk result (λ k. IsKnown (declarations_of declared.now) read.now k) }
{
    let met = values_with_levels(alloc, condition)?;
    let spans = spans_of(alloc, read.text)?;
    Ok(AnalysedKey {
        read,
        place,
        non_tables,
        predicates: key_predicates(alloc, &met.values, &spans, declared)?,
        levels: met.levels,
        canonical: canonical(alloc, condition)?,
        is_unknown_target: is_unknown_target(condition),
    })
}

/// Returns the canonical form of a condition.
fn canonical(alloc: Global, condition: &Platform) -> Result<String, AllocError>
    ensures { IfOk result (λ s. string_bytes s ≡ print_condition (condition_of condition.now)) }
{
    format!(in alloc; "{condition}")
}

/// Returns whether one of the facts is the name `r#true` or `r#false`, which Cargo reads as a literal.
fn has_marked_literal(predicates: &[KeyPredicate<'_>]) -> bool
    ensures { result ≡ has_marked_literal (classified_by predicates.now) }
{
    'predicates: for each in predicates {
        if is_marked_literal(each.fact) {
            return true;
        }
    }
    false
}
