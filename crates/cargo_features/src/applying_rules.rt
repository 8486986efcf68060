//! Applies rules to the target sets of facts.

ghost use Rattle.std.specs.Prelude.{◌≡◌, ◌<◌, ◌+◌, ◌*◌, ◌≤◌, ◌⊎◌, ℕ, true, ◌&&◌, ◌||◌, ◌==◌, OnOk, Contains, All};
ghost use Rattle.std.specs.Prelude.{length, vec_len, List};
ghost use Rattle.std.specs.VecDeque.{deque_len};
ghost use Rattle.known_targets.specs.Sets.{is_member};
ghost use Rattle.known_targets.specs.declared.table.TheConstants.{COUNT};
ghost use Rattle.known_targets.specs.declared.target_set.TargetSet.{TargetSet};
ghost use Rattle.package_graphs.specs.Graphs.{is_in};
ghost use Rattle.package_graphs.specs.Inside.Spreading.{missing};
ghost use Rattle.cargo_features.specs.Inside.Working.{IsAsBefore, AreSound, AreApplied};

use crate::rules::Rule;
use known_targets::TargetSet;
use std::alloc::AllocError;
use std::collections::VecDeque;

/// Adds targets to the set of a fact. If the set grows, the fact is queued.
fn add(
    sets: &mut Vec<TargetSet>,
    waiting: &mut VecDeque<usize>,
    fact: usize,
    more: TargetSet,
) -> Result<(), AllocError>
    requires known { fact < vec_len sets.old }
    ensures count { vec_len sets.new ≡ vec_len sets.old }
    ensures sets { OnOk result ((n k : ℕ) → k < COUNT
        → is_in sets.new.items n k ≡ (is_in sets.old.items n k || ((n == fact) && is_member more k))) }
    ensures known { OnOk result ((count : ℕ) → fact < count → All (λ n. n < count) waiting.old.items
        → All (λ n. n < count) waiting.new.items) }
    ensures kept { OnOk result ((n : ℕ) → Contains waiting.old.items n → Contains waiting.new.items n) }
    ensures waits { OnOk result ((n : ℕ)
        → Contains waiting.new.items n ⊎ IsAsBefore sets.old.items sets.new.items n) }
    ensures work { OnOk result (2 * missing sets.new.items + deque_len waiting.new
        ≤ 2 * missing sets.old.items + deque_len waiting.old) }
{
    let old = sets[fact];
    let all = old.union(more);
    if !all.equals(old) {
        sets[fact] = all;
        waiting.push_back(fact)?;
    }
    Ok(())
}

/// Applies the rules at these indexes to the sets in `done`, and adds what follows to `sets`.
pub fn apply(
    rules: &[Rule],
    places: &[usize],
    done: &Vec<TargetSet>,
    sets: &mut Vec<TargetSet>,
    waiting: &mut VecDeque<usize>,
) -> Result<(), AllocError>
    requires { vec_len done.now ≡ vec_len sets.old }
    ensures count { vec_len sets.new ≡ vec_len sets.old }
    ensures grown { OnOk result ((n k : ℕ) → k < COUNT
        → is_in sets.old.items n k ≡ true → is_in sets.new.items n k ≡ true) }
    ensures known { OnOk result (All (λ n. n < vec_len sets.old) waiting.old.items
        → All (λ n. n < vec_len sets.old) waiting.new.items) }
    ensures kept { OnOk result ((n : ℕ) → Contains waiting.old.items n → Contains waiting.new.items n) }
    ensures waits { OnOk result ((n : ℕ)
        → Contains waiting.new.items n ⊎ IsAsBefore sets.old.items sets.new.items n) }
    ensures applied { OnOk result (AreApplied rules.now done.now.items sets.new.items places.now (length places.now)) }
    ensures sound { OnOk result ((given : List TargetSet) → length given ≡ vec_len sets.old
        → AreSound given rules.now done.now.items → AreSound given rules.now sets.old.items
        → AreSound given rules.now sets.new.items) }
    ensures work { OnOk result (2 * missing sets.new.items + deque_len waiting.new
        ≤ 2 * missing sets.old.items + deque_len waiting.old) }
{
    'places: for place in places {
        let Some(rule) = rules.get(*place) else {
            continue;
        };
        let count = sets.len();
        if rule.first >= count || rule.second >= count || rule.to >= count {
            continue;
        }
        let both = done[rule.first].intersection(done[rule.second]);
        add(sets, waiting, rule.to, both.intersection(rule.holds))?;
    }
    Ok(())
}
