//! Conditions of one fact, or of a target's name, that are true on the targets of a set.

ghost use Rattle.std.specs.Prelude.{IfOk, IfSome};
ghost use Rattle.cargo_platform.specs.Trees.{condition_of};
ghost use Rattle.known_targets.specs.Exact.{HoldsExactly};

use super::checked::exactly;
use crate::{KnownFact, KnownTarget, TargetSet, all_facts};
use cargo_platform::{Cfg, CfgExpr, Platform};
use std::alloc::{AllocError, Global};

/// The names and keys of the facts that are tried, in this order. No flag and no profile changes one of these facts.
const TRIED: [&str; 10] = [
    "unix",
    "windows",
    "target_family",
    "target_os",
    "target_env",
    "target_vendor",
    "target_arch",
    "target_abi",
    "target_endian",
    "target_pointer_width",
];

/// The facts that conditions are made of, in the order in which they are tried.
#[derive(Drop)]
pub struct SingleFactConditions {
    facts: Vec<KnownFact>,
}

impl SingleFactConditions {
    /// Returns the facts of rustc's table under the names `unix` and `windows`, and then under the keys
    /// `target_family`, `target_os`, `target_env`, `target_vendor`, `target_arch`, `target_abi`, `target_endian` and
    /// `target_pointer_width`. Fails only if an allocation fails.
    pub fn new(alloc: Global) -> Result<SingleFactConditions, AllocError> {
        let known = all_facts(alloc)?;
        let mut facts = Vec::new(alloc);
        for key in &TRIED {
            for known in &known {
                if name_of(&known.fact) == *key {
                    facts.push(KnownFact {
                        fact: known.fact.clone(alloc)?,
                        targets: known.targets,
                    })?;
                }
            }
        }
        Ok(SingleFactConditions { facts })
    }

    /// Returns these facts, each with its targets.
    pub fn facts(&self) -> &[KnownFact] {
        &self.facts
    }

    /// Returns the first condition that is true on exactly the targets of the set: one of the facts, `not(..)` of one,
    /// or the name of the only target. Fails only if an allocation fails.
    pub fn condition(&self, alloc: Global, set: TargetSet) -> Result<Option<Platform>, AllocError>
        // A condition that is returned is true on each target of the set, and on no other known target.
        ensures { IfOk result (λ p. IfSome p (λ p. HoldsExactly set (condition_of p))) }
    {
        if let Some(found) = self.first_at(set) {
            let fact = CfgExpr::Value(found.fact.clone(alloc)?);
            return exactly(alloc, Platform::Cfg(fact), set);
        }
        if let Some(found) = self.first_at(set.complement()) {
            let fact = CfgExpr::Value(found.fact.clone(alloc)?);
            let negated = CfgExpr::Not(Box::new(alloc, fact)?);
            return exactly(alloc, Platform::Cfg(negated), set);
        }
        match only_target(set) {
            Some(target) => {
                let name = String::from_str(alloc, target.name())?;
                exactly(alloc, Platform::Name(name), set)
            }
            None => Ok(None),
        }
    }

    /// Returns the first fact that exactly these targets have.
    fn first_at(&self, set: TargetSet) -> Option<&KnownFact> {
        for known in &self.facts {
            if known.targets.equals(set) {
                return Some(known);
            }
        }
        None
    }
}

/// Returns the name or key of a fact.
fn name_of<'a>(fact: &'a Cfg) -> &'a str {
    match fact {
        Cfg::Name(name) => name.as_str(),
        Cfg::KeyPair(key, _) => key.as_str(),
    }
}

/// Returns the target of a set of one.
fn only_target(set: TargetSet) -> Option<KnownTarget> {
    let mut targets = set.iter();
    let first = targets.next()?;
    if targets.next().is_some() {
        return None;
    }
    Some(first)
}
