//! Callers of `manifests`, as its users write them.

ghost use Rattle.std.specs.Prelude.{◌≡◌, ◌↔◌, IsTrue, IfOk, Some, false};
ghost use Rattle.cargo_platform.specs.Trees.{condition_of};
ghost use Rattle.partial_facts.specs.Conditions.{kleene_condition};

use cargo_platform::Platform;
use known_targets::KnownTarget;
use manifests::{Decision, SelectError, TargetFacts, decide_condition, select};
use partial_facts::Knowledge;
use std::alloc::{AllocError, Global};
use toml::Table;

/// Returns whether an audit may leave out what is under a condition: the target does not select it, whichever open
/// facts are set.
pub fn may_leave_out<K: Knowledge>(
    alloc: Global,
    platform: &Platform,
    target: &str,
    known: &K,
) -> Result<bool, AllocError>
    ensures { IfOk result (λ left. IsTrue left
        ↔ (kleene_condition (Some target.now) (K.told known.now) (condition_of platform.now) ≡ Some false)) }
{
    match decide_condition(alloc, platform, target, known)? {
        Decision::LeftOut => Ok(true),
        Decision::Selected | Decision::Open(_) => Ok(false),
    }
}

/// Returns the names of the dependencies that a known target selects, built on a host of the same kind.
pub fn selected_names<'a>(
    alloc: Global,
    manifest: &'a Table,
    target: KnownTarget,
) -> Result<Vec<&'a str>, SelectError<'a>> {
    let facts = target.facts(alloc)?;
    let known = TargetFacts {
        facts: &facts,
        added: &[],
        open: &[],
    };
    let mut names = Vec::new(alloc);
    for row in &select(alloc, manifest, target.name(), &known, Some(target))? {
        if let Decision::Selected = row.decision {
            names.push(row.dependency.name).map_err(AllocError::from)?;
        }
    }
    Ok(names)
}
