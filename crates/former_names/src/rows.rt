//! Looks names up in the table.

ghost use Rattle.std.specs.Prelude.{◌≡◌, ℕ, List, IfSome, IfNone};
ghost use Rattle.cargo_platform.specs.Trees.{value_of};
ghost use Rattle.former_names.specs.Rows.{target_rows, fact_rows, renamed_rows, targets_of, facts_of, renamed_of};
ghost use Rattle.former_names.specs.Rows.{numbers_of, HasTarget, HasPair, HasFact, IsRenamed};

use crate::releases::Release;
use crate::table::{FACTS, RENAMED, TARGETS};
use cargo_platform::Cfg;

/// The numbers of a release: major, minor and patch.
pub type Numbers = (u64, u64, u64);

/// A target's name, the last release known to have it, and the first known to lack it.
pub type TargetRow = (&'static str, Numbers, Numbers);

/// A fact's key and value, the last release known to have it, and the first known to lack it.
pub type FactRow = (&'static str, &'static str, Numbers, Numbers);

/// The former name of a target, and its name now.
pub type RenamedRow = (&'static str, &'static str);

/// The releases between which a name was removed.
#[derive(Clone, Copy, Debug, PartialEq, Eq, Drop)]
pub struct RemovalReleases {
    /// The last release that is known to have it.
    pub last: Release,
    /// The first release that is known to lack it.
    pub gone: Release,
}

/// Returns the rows of targets.
fn targets() -> &'static [TargetRow]
    ensures { targets_of result.now ≡ target_rows }
{
    &TARGETS
}

/// Returns the rows of facts.
fn facts() -> &'static [FactRow]
    ensures { facts_of result.now ≡ fact_rows }
{
    &FACTS
}

/// Returns the rows of renamed targets.
fn renamed() -> &'static [RenamedRow]
    ensures { renamed_of result.now ≡ renamed_rows }
{
    &RENAMED
}

/// Returns the release with these numbers.
fn release(numbers: Numbers) -> Release
    ensures { numbers_of result ≡ numbers }
{
    let (major, minor, patch) = numbers;
    Release {
        major,
        minor,
        patch,
    }
}

/// Returns the releases in the row of a target with this name.
fn find_target(rows: &[TargetRow], name: &str) -> Option<RemovalReleases>
    ensures found { IfSome result (λ b. HasTarget (targets_of rows.now) name.now b) }
    ensures none { IfNone result ((b : RemovalReleases) → HasTarget (targets_of rows.now) name.now b → ⊥) }
{
    'rows: for row in rows {
        let (listed, last, gone) = row;
        if *listed == name {
            return Some(RemovalReleases {
                last: release(*last),
                gone: release(*gone),
            });
        }
    }
    None
}

/// Returns the releases in the row of a fact with this key and value.
fn find_fact(rows: &[FactRow], key: &str, value: &str) -> Option<RemovalReleases>
    ensures found { IfSome result (λ b. HasPair (facts_of rows.now) key.now value.now b) }
    ensures none { IfNone result ((b : RemovalReleases) → HasPair (facts_of rows.now) key.now value.now b → ⊥) }
{
    'rows: for row in rows {
        let (listed, with, last, gone) = row;
        if *listed == key && *with == value {
            return Some(RemovalReleases {
                last: release(*last),
                gone: release(*gone),
            });
        }
    }
    None
}

/// Returns the current name of a target that had this name.
fn find_renamed(rows: &[RenamedRow], name: &str) -> Option<&'static str>
    ensures found { IfSome result (λ now. IsRenamed (renamed_of rows.now) name.now now.now) }
    ensures none { IfNone result ((now : List ℕ) → IsRenamed (renamed_of rows.now) name.now now → ⊥) }
{
    'rows: for row in rows {
        let (before, now) = row;
        if *before == name {
            return Some(*now);
        }
    }
    None
}

/// Returns the releases between which the target with this name was removed, or `None` if the table does not have it.
pub fn former_target(name: &str) -> Option<RemovalReleases>
    ensures found { IfSome result (λ b. HasTarget target_rows name.now b) }
    ensures none { IfNone result ((b : RemovalReleases) → HasTarget target_rows name.now b → ⊥) }
{
    find_target(targets(), name)
}

/// Returns the releases between which the pair of this key and value was removed, or `None` if the table does not have
/// it.
fn former_pair(key: &str, value: &str) -> Option<RemovalReleases>
    ensures found { IfSome result (λ b. HasPair fact_rows key.now value.now b) }
    ensures none { IfNone result ((b : RemovalReleases) → HasPair fact_rows key.now value.now b → ⊥) }
{
    find_fact(facts(), key, value)
}

/// Returns the releases between which a fact was removed, or `None` if the table does not have it. Its raw mark plays
/// no part.
pub fn former_fact(c: &Cfg) -> Option<RemovalReleases>
    ensures found { IfSome result (λ b. HasFact (value_of c.now) b) }
    ensures none { IfNone result ((b : RemovalReleases) → HasFact (value_of c.now) b → ⊥) }
{
    match c {
        Cfg::Name(_) => None,
        Cfg::KeyPair(key, value) => former_pair(key.as_str(), value.as_str()),
    }
}

/// Returns whether a text contains, anywhere, the value of a fact that was removed. If it does not, a condition with
/// this text tests for no such fact.
pub fn has_former_value(text: &str) -> bool {
    for row in facts() {
        let (_, value, _, _) = row;
        if text.contains(*value) {
            return true;
        }
    }
    false
}

/// Returns the current name of the target that had this name, if the release notes give one, or `None`.
pub fn current_name(name: &str) -> Option<&'static str>
    ensures found { IfSome result (λ now. IsRenamed renamed_rows name.now now.now) }
    ensures none { IfNone result ((now : List ℕ) → IsRenamed renamed_rows name.now now → ⊥) }
{
    find_renamed(renamed(), name)
}
