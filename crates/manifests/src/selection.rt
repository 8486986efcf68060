//! The dependencies of a manifest that a target selects (see the [Cargo
//! book](https://doc.rust-lang.org/cargo/reference/specifying-dependencies.html#platform-specific-dependencies)).

ghost use Rattle.std.specs.Prelude.{◌≡◌, ◌↔◌, ◌++◌, IfOk, IfErr, OnOk, Some, None, map};
ghost use Rattle.toml.specs.View.{table_view};
ghost use Rattle.cargo_platform.specs.Trees.{condition_of};
ghost use Rattle.cargo_platform.specs.Facts.{FactSet, IsTrueCondition};
ghost use Rattle.partial_facts.specs.Conditions.{kleene_condition, residual_condition};
ghost use Rattle.manifests.specs.Choosing.{decided_truth, IfOpen};
ghost use Rattle.manifests.specs.Entries.{entry_of};
ghost use Rattle.manifests.specs.Tables.{row_of, rows_of, target_of};
ghost use Rattle.manifests.specs.Selecting.{question_of, question_in, IsHostDecision, IsDecisionFor};
ghost use Rattle.manifests.specs.Selecting.{chosen_of, selected, AreChosen, AreRowsOfKey, AreRowsOfKeys, AreRows, Adds};
ghost use Rattle.manifests.specs.Selecting.{IsErrorOn, IsErrorUnder};

use crate::{Dependency, Kind, TargetKey, TargetValue, dependencies, target_keys};
use cargo_platform::{Cfg, Facts, Listed, ParseError, Platform, ReadError};
use known_targets::KnownTarget;
use partial_facts::names::is_named;
use partial_facts::{Complete, Knowledge, decide_platform, residual_platform};
use std::alloc::{AllocError, Global};
use toml::Table;

/// The facts of a target, as far as they are known. A fact in `added` is set. Other facts are open if their name or key
/// is in `open`, and otherwise they are set exactly if they are in `facts`. Raw marks are ignored.
#[derive(Drop)]
pub struct TargetFacts<'a> {
    /// The facts of the target.
    pub facts: &'a [Cfg],
    /// Additional facts, which take precedence over `open`.
    pub added: &'a [Cfg],
    /// The names and keys whose facts are open.
    pub open: &'a [&'a str],
}

/// The selection of a dependency.
#[derive(Drop)]
pub enum Decision {
    /// The condition is true.
    Selected,
    /// The condition is false.
    LeftOut,
    /// The truth value of the condition is not known. This is the residual of the condition.
    Open(Platform),
}

/// A dependency, and its selection.
#[derive(Drop)]
pub struct DependencyDecision<'a> {
    /// The dependency.
    pub dependency: Dependency<'a>,
    /// The selection of the dependency.
    pub decision: Decision,
}

/// The reason why a selection fails.
#[derive(Drop)]
pub enum SelectError<'a> {
    /// An allocation failed.
    Memory(AllocError),
    /// `target` is not a table.
    TargetIsNoTable,
    /// The value of this key is not a table.
    KeyIsNoTable(&'a str),
    /// This key is not a condition.
    Refused(&'a str, ParseError),
}

impl<'a> From<AllocError> for SelectError<'a> {
    ghost use Rattle.manifests.specs.declared.selection.SelectError.TheVariants.{Memory};

    ghost from_gives = { λ a e. e ≡ Memory a };

    fn from(error: AllocError) -> SelectError<'a> {
        SelectError::Memory(error)
    }
}

/// Decides a condition for a target with this name and these known facts. Returns its residual if the truth value is
/// not known. Fails if an allocation fails.
pub fn decide_condition<K: Knowledge>(
    alloc: Global,
    platform: &Platform,
    name: &str,
    known: &K,
) -> Result<Decision, AllocError>
    ensures truth { IfOk result (λ decision. decided_truth decision
        ≡ kleene_condition (Some name.now) (K.told known.now) (condition_of platform.now)) }
    ensures left { IfOk result (λ decision. IfOpen decision (λ rest. rest
        ≡ residual_condition (Some name.now) (K.told known.now) (condition_of platform.now))) }
    ensures as_true { (s : FactSet) → K.allows known.now s → IfOk result (λ decision. IfOpen decision (λ rest.
        IsTrueCondition name.now s rest ↔ IsTrueCondition name.now s (condition_of platform.now))) }
{
    match decide_platform(platform, Some(name), known) {
        Some(true) => Ok(Decision::Selected),
        Some(false) => Ok(Decision::LeftOut),
        None => {
            let left = residual_platform(alloc, platform, Some(name), known)?;
            Ok(Decision::Open(left))
        }
    }
}

impl<'a> Knowledge for TargetFacts<'a> {
    ghost use Rattle.std.specs.Prelude.{map};
    ghost use Rattle.cargo_platform.specs.Trees.{value_of};
    ghost use Rattle.cargo_platform.specs.Facts.{fact_set};
    ghost use Rattle.manifests.specs.TargetFacts.{HasTargetFacts};
    ghost use Rattle.manifests.specs.TargetFacts.{facts_told, facts_example, facts_possible, facts_sound};

    ghost allows = { λ k s. HasTargetFacts (fact_set (map value_of k.facts.now)) (fact_set (map value_of k.added.now))
        (map (λ t. t.now) k.open.now) s };

    ghost example = { λ k. facts_example (map value_of k.facts.now) (map value_of k.added.now) };

    ghost told = { λ k p. facts_told (fact_set (map value_of k.facts.now)) (fact_set (map value_of k.added.now))
        (map (λ t. t.now) k.open.now) p };

    fn tells(&self, c: &Cfg) -> Option<bool> {
        if Listed(self.added).holds(c) {
            return Some(true);
        }
        match c {
            Cfg::Name(name) | Cfg::KeyPair(name, _) => {
                if is_named(name, self.open) {
                    return None;
                }
            }
        }
        Some(Listed(self.facts).holds(c))
    }

    ghost possible = { λ k. facts_possible (map value_of k.facts.now) (map value_of k.added.now)
        (map (λ t. t.now) k.open.now) };

    ghost sound = { λ k s p is. facts_sound (fact_set (map value_of k.facts.now)) (fact_set (map value_of k.added.now))
        (map (λ t. t.now) k.open.now) s p is };
}

/// A target by its name and the known facts, and the host, if it is known.
#[derive(Clone, Copy, Drop)]
struct Query<'q, 'f> {
    target: &'q str,
    known: &'q TargetFacts<'f>,
    host: Option<KnownTarget>,
}

/// Decides a condition for the host. Without a host, the condition stays open as it is.
fn decide_for_host(
    alloc: Global,
    platform: &Platform,
    host: Option<KnownTarget>,
) -> Result<Decision, AllocError>
    ensures { IfOk result (IsHostDecision host (condition_of platform.now)) }
{
    match host {
        Some(host) => decide_condition(alloc, platform, host.name(), &Complete(&host)),
        None => Ok(Decision::Open(platform.clone(alloc)?)),
    }
}

/// Decides a condition for what the dependencies of this kind are built for: the host for build-dependencies, and
/// otherwise the target.
fn decide_for_kind(
    alloc: Global,
    platform: &Platform,
    kind: Kind,
    query: Query<'_, '_>,
) -> Result<Decision, AllocError>
    ensures { IfOk result (IsDecisionFor (question_in query.entry) kind (condition_of platform.now)) }
{
    match kind {
        Kind::Normal | Kind::Development => decide_condition(
            alloc,
            platform,
            query.target,
            query.known,
        ),
        Kind::Build => decide_for_host(alloc, platform, query.host),
    }
}

/// Returns the dependencies of a manifest with their selection for a target of this name: those of the tables outside
/// `target`, which are selected, and then those of each key. The conditions are decided for the target, except those of
/// build-dependencies, which are decided for the host.
///
/// # Errors
///
/// Fails if `target` or the value of a key is not a table, if a key is not a condition, or if an allocation fails.
pub fn select<'a>(
    alloc: Global,
    manifest: &'a Table,
    target: &str,
    known: &TargetFacts<'_>,
    host: Option<KnownTarget>,
) -> Result<Vec<DependencyDecision<'a>>, SelectError<'a>>
    ensures rows { IfOk result (λ rows. AreRows (question_of target.now known.now host) (table_view manifest.now)
        (map chosen_of rows.items)) }
    ensures error { IfErr result (IsErrorUnder (target_of (table_view manifest.now))) }
{
    let mut rows = outside(alloc, manifest)?;
    match target_keys(alloc, manifest)? {
        TargetValue::Absent => Ok(rows),
        TargetValue::NoTable => Err(SelectError::TargetIsNoTable),
        TargetValue::Keys(keys) => {
            let query = Query {
                target,
                known,
                host,
            };
            add_keys(alloc, &keys, query, &mut rows)?;
            Ok(rows)
        }
    }
}

/// Returns the rows of the tables outside `target`.
fn outside<'a>(
    alloc: Global,
    manifest: &'a Table,
) -> Result<Vec<DependencyDecision<'a>>, AllocError>
    ensures { IfOk result (λ rows. map chosen_of rows.items
        ≡ map selected (rows_of None (table_view manifest.now))) }
{
    let mut rows = Vec::new(alloc);
    let dependencies = dependencies(alloc, manifest, None)?;
    'dependencies: for dependency in &dependencies {
        rows.push(DependencyDecision {
            dependency: *dependency,
            decision: Decision::Selected,
        })?;
    }
    Ok(rows)
}

/// Appends the rows of each key, up to the first key that is not a condition or has no table.
fn add_keys<'a>(
    alloc: Global,
    keys: &[TargetKey<'a>],
    query: Query<'_, '_>,
    rows: &mut Vec<DependencyDecision<'a>>,
) -> Result<(), SelectError<'a>>
    ensures rows { OnOk result (Adds (AreRowsOfKeys (question_in query.entry) (map entry_of keys.now))
        rows.old.items rows.new.items) }
    ensures error { IfErr result (IsErrorUnder (Some (Some (map entry_of keys.now)))) }
{
    'keys: for key in keys {
        add_rows(alloc, *key, query, rows)?;
    }
    Ok(())
}

/// Appends the rows of a key.
fn add_rows<'a>(
    alloc: Global,
    key: TargetKey<'a>,
    query: Query<'_, '_>,
    rows: &mut Vec<DependencyDecision<'a>>,
) -> Result<(), SelectError<'a>>
    ensures rows { OnOk result (Adds (AreRowsOfKey (question_in query.entry) (entry_of key.entry))
        rows.old.items rows.new.items) }
    ensures error { IfErr result (IsErrorOn (entry_of key.entry)) }
{
    let condition = match Platform::from_str(alloc, key.key) {
        Ok(condition) => condition,
        Err(ReadError::Parse(error)) => return Err(SelectError::Refused(key.key, error)),
        Err(ReadError::Memory(error)) => return Err(SelectError::Memory(error)),
    };
    let Some(table) = key.value.as_table() else {
        return Err(SelectError::KeyIsNoTable(key.key));
    };
    let dependencies = dependencies(alloc, table, Some(key.key))?;
    add_chosen(alloc, &condition, &dependencies, query, rows)?;
    Ok(())
}

/// Appends the rows of the dependencies under a condition.
fn add_chosen<'a>(
    alloc: Global,
    condition: &Platform,
    dependencies: &[Dependency<'a>],
    query: Query<'_, '_>,
    rows: &mut Vec<DependencyDecision<'a>>,
) -> Result<(), AllocError>
    ensures { OnOk result (Adds (AreChosen (question_in query.entry) (condition_of condition.now)
        (map row_of dependencies.now)) rows.old.items rows.new.items) }
{
    'dependencies: for dependency in dependencies {
        let decision = decide_for_kind(alloc, condition, dependency.kind, query)?;
        rows.push(DependencyDecision {
            dependency: *dependency,
            decision,
        })?;
    }
    Ok(())
}
