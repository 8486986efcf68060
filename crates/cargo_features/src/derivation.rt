//! The targets on which each fact follows.

ghost use Rattle.std.specs.Prelude.{◌≡◌, ◌<◌, ◌↔◌, ℕ, IsTrue, IfOk, vec_len, All, Contains};
ghost use Rattle.known_targets.specs.declared.table.TheConstants.{COUNT};
ghost use Rattle.package_graphs.specs.Graphs.{is_in};
ghost use Rattle.cargo_features.specs.Derivations.{IsDerived};

use crate::applying_rules::apply;
use crate::rules::Rule;
use crate::rules_by_premise::Premises;
use known_targets::TargetSet;
use std::alloc::{AllocError, Global};
use std::collections::VecDeque;

/// Returns the targets on which each fact follows from the given ones by the rules. A fact follows on a target if it is
/// given there, or if a rule that applies there leads to it from facts that follow there.
///
/// Facts are indexes of `given`. A rule with an index past its end leads to no fact. Fails only if an allocation fails.
pub fn derive_targets(
    alloc: Global,
    given: Vec<TargetSet>,
    rules: &[Rule],
) -> Result<Vec<TargetSet>, AllocError>
    // There is a set for each fact.
    ensures count { IfOk result (λ sets. vec_len sets ≡ vec_len given) }
    // A target is in a fact's set exactly if a finite tree of rules leads there from what is given.
    ensures exact { IfOk result (λ sets. (n k : ℕ) → n < vec_len given → k < COUNT
        → IsTrue (is_in sets.items n k) ↔ IsDerived given.items rules.now k n) }
{
    let count = given.len();
    let premises = Premises::of(alloc, count, rules)?;
    let mut sets = given;
    let mut done = vec![in alloc; TargetSet::none(); count]?;
    let mut waiting = all_facts(alloc, count)?;
    'facts: while let Some(fact) = waiting.pop_front() {
        if done[fact].equals(sets[fact]) {
            continue;
        }
        done[fact] = sets[fact];
        apply(rules, premises.at(fact), &done, &mut sets, &mut waiting)?;
    }
    Ok(sets)
}

/// Returns a queue of `count` facts.
fn all_facts(alloc: Global, count: usize) -> Result<VecDeque<usize>, AllocError>
    ensures known { IfOk result (λ facts. All (λ n. n < count) facts.items) }
    ensures all { IfOk result (λ facts. (n : ℕ) → n < count → Contains facts.items n) }
{
    let mut facts = VecDeque::new(alloc);
    'facts: for fact in 0..count {
        facts.push_back(fact)?;
    }
    Ok(facts)
}
