//! The targets on which a condition is true, and those at which it may.

ghost use Rattle.std.specs.Prelude.{◌≡◌, ◌<◌, ◌↔◌, ℕ, [], Some, true, false, IsTrue, IfOk, length, bytes_eq};
ghost use Rattle.std.specs.List.{slice_index_or};
ghost use Rattle.std.specs.FinSet.{contains};
ghost use Rattle.cargo_platform.specs.Trees.{Name, KeyPair, value_of, condition_of};
ghost use Rattle.cargo_platform.specs.Facts.{FactSet, pair_of, IsTrueCondition};
ghost use Rattle.partial_facts.specs.Conditions.{kleene_condition};
ghost use Rattle.partial_facts.specs.Partly.{names_of};
ghost use Rattle.known_targets.specs.Open.{open_told, taken_as, IsSameButOpen};
ghost use Rattle.known_targets.specs.Sets.{is_member};
ghost use Rattle.known_targets.specs.Listed.{is_had};
ghost use Rattle.known_targets.specs.Table.{target_name, target_facts, table_keys};

use crate::rows::{lists_value, targets_with};
use crate::table::COUNT;
use crate::target_set::TargetSet;
use crate::views::{keys, names};
use crate::walk::true_at;
use cargo_platform::{Cfg, Platform};
use std::alloc::{AllocError, Global};

/// Returns the known targets on which the condition is true, by their names and facts.
///
/// It goes over the expression once, with a set of targets for each part, and without recursion. Fails only if an
/// allocation fails. A condition that is true on no known target may be true on a target that rustc does not know.
pub fn matching(alloc: Global, platform: &Platform) -> Result<TargetSet, AllocError>
    // A target is in the set exactly if the condition is true on it.
    ensures { IfOk result (λ set. (k : ℕ) → k < COUNT → IsTrue (is_member set k)
        ↔ IsTrueCondition (target_name k) (target_facts k) (condition_of platform.now)) }
{
    let open_keys: [&str; 0] = [];
    taken_at(alloc, platform, &open_keys, false)
}

/// Returns the known targets on which the condition is true, whatever the facts of these names and keys are.
///
/// A name in `open_keys` leaves open whether the name alone is a fact, and each of its values if it is a key. With
/// `loom` in it, neither `cfg(loom)` nor `cfg(not(loom))` is certain on any target. The raw marks of names and keys
/// play no part. The truth is that of Kleene's strong logic, which considers each fact by itself:
/// `any(loom, not(loom))` is not certain either. Fails only if an allocation fails.
pub fn certainly_matching(
    alloc: Global,
    platform: &Platform,
    open_keys: &[&str],
) -> Result<TargetSet, AllocError>
    // A target is in the set exactly if the condition is true by the facts that are not open, in Kleene's logic.
    ensures exact { IfOk result (λ set. (k : ℕ) → k < COUNT → IsTrue (is_member set k)
        ↔ (kleene_condition (Some (target_name k)) (open_told (target_facts k) (names_of open_keys.now))
        (condition_of platform.now) ≡ Some true)) }
    // On a target in the set, the condition is true over each set of facts that differs from the target's only in open
    // facts.
    ensures sound { IfOk result (λ set. (k : ℕ) (s : FactSet) → k < COUNT → IsTrue (is_member set k)
        → IsSameButOpen (target_facts k) (names_of open_keys.now) s
        → IsTrueCondition (target_name k) s (condition_of platform.now)) }
{
    taken_at(alloc, platform, open_keys, false)
}

/// Returns the targets on which the condition may be true, as the facts of these names and keys are.
///
/// At a target that is not in the set the condition does not hold, whatever those facts are. `open_keys` is as for
/// `certainly_matching`. Fails only if an allocation fails.
pub fn possibly_matching(
    alloc: Global,
    platform: &Platform,
    open_keys: &[&str],
) -> Result<TargetSet, AllocError>
    // A target is not in the set exactly if the condition is false by the facts that are not open, in Kleene's logic.
    ensures exact { IfOk result (λ set. (k : ℕ) → k < COUNT → (is_member set k ≡ false)
        ↔ (kleene_condition (Some (target_name k)) (open_told (target_facts k) (names_of open_keys.now))
        (condition_of platform.now) ≡ Some false)) }
    // A target is in the set if the condition is true over some set of facts that differs from the target's only in
    // open facts.
    ensures sound { IfOk result (λ set. (k : ℕ) (s : FactSet) → k < COUNT
        → IsSameButOpen (target_facts k) (names_of open_keys.now) s
        → IsTrueCondition (target_name k) s (condition_of platform.now) → IsTrue (is_member set k)) }
{
    taken_at(alloc, platform, open_keys, true)
}

/// Returns the targets on which the condition is true where what is not known is taken as `unknown`.
fn taken_at(
    alloc: Global,
    platform: &Platform,
    open_keys: &[&str],
    unknown: bool,
) -> Result<TargetSet, AllocError>
    ensures { IfOk result (λ set. (k : ℕ) → k < COUNT → is_member set k
        ≡ taken_as unknown
        (kleene_condition (Some (target_name k)) (open_told (target_facts k) (names_of open_keys.now))
        (condition_of platform.now))) }
{
    match platform {
        Platform::Name(name) => Ok(named(names(), name.as_str())),
        Platform::Cfg(e) => true_at(alloc, keys(), open_keys, unknown, e),
    }
}

/// Returns the targets that have the fact, whatever its raw mark.
pub fn targets_with_fact(c: &Cfg) -> TargetSet
    // A target is in the set exactly if it has the fact.
    ensures { (k : ℕ) → k < COUNT → is_member result k ≡ contains (target_facts k) (pair_of (value_of c.now)) }
{
    targets_with(keys(), c)
}

/// Returns whether the table lists this text as a value of some key.
pub fn is_known_value(text: &str) -> bool
    // With `false`, no known target has a key with this value.
    ensures { result ≡ false → (key : Name) → is_had table_keys (KeyPair key text.now) ≡ false }
{
    lists_value(keys(), text)
}

/// Returns the targets with this name.
fn named(names: &[&'static str], name: &str) -> TargetSet
    requires { length names.now ≡ COUNT }
    ensures { (k : ℕ) → k < COUNT
        → is_member result k ≡ bytes_eq (slice_index_or (names_of names.now) k []) name.now }
{
    let mut set = TargetSet::none();
    'names: for i in 0..names.len() {
        set = set.with(i, names[i] == name);
    }
    set
}
