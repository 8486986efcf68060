//! Answers found by trying all sets of facts, one by one, with which decisions and exact answers are compared.

use cargo_platform::{Cfg, CfgExpr, Facts, Listed, Platform};
use exact_answers::FactConstraints;
use std::alloc::{AllocError, Global};
use test_rows::Fault;

/// The maximum number of facts that are tried.
const MOST: usize = 8;

/// The name of a target that is in no row.
const OTHER: &str = "another";

/// Returns the facts, and those of `others` whose bit is set.
fn with_bits(alloc: Global, facts: &[Cfg], others: &[Cfg], bits: u32) -> Result<Vec<Cfg>, Fault> {
    let mut set = Vec::new(alloc);
    for fact in facts {
        set.push(fact.clone(alloc)?).map_err(AllocError::from)?;
    }
    let mut left = bits;
    for fact in others {
        if left % 2 == 1 {
            set.push(fact.clone(alloc)?).map_err(AllocError::from)?;
        }
        left /= 2;
    }
    Ok(set)
}

/// Returns the number of sets of `count` facts.
fn sets_of(count: usize) -> Result<u32, Fault> {
    if count > MOST {
        return Err(Fault::Row("there are too many facts to try all sets"));
    }
    let mut sets = 1u32;
    for _ in 0..count {
        sets = sets.saturating_mul(2);
    }
    Ok(sets)
}

/// Returns the facts except those with a name or key that one of the others has.
pub fn without(alloc: Global, facts: &[Cfg], others: &[Cfg]) -> Result<Vec<Cfg>, Fault> {
    let mut left = Vec::new(alloc);
    for fact in facts {
        if !others.iter().any(|other| name_of(other) == name_of(fact)) {
            left.push(fact.clone(alloc)?).map_err(AllocError::from)?;
        }
    }
    Ok(left)
}

/// Returns the truth value of an expression over every completion, if it is the same over all of them.
pub fn over_completions(
    alloc: Global,
    e: &CfgExpr,
    facts: &[Cfg],
    unknown: &[Cfg],
) -> Result<Option<bool>, Fault> {
    let mut is_true = false;
    let mut is_false = false;
    for bits in 0..sets_of(unknown.len())? {
        let set = with_bits(alloc, facts, unknown, bits)?;
        if e.matches(&set) {
            is_true = true;
        } else {
            is_false = true;
        }
    }
    Ok(if is_true && is_false {
        None
    } else {
        Some(is_true)
    })
}

/// Appends the names and pairs of an expression that are not in the list. Its levels take no stack.
fn collect(alloc: Global, e: &CfgExpr, pairs: &mut Vec<Cfg>) -> Result<(), Fault> {
    let mut left: Vec<&CfgExpr> = Vec::new(alloc);
    left.push(e).map_err(AllocError::from)?;
    for _ in 0..u64::MAX {
        let Some(e) = left.pop() else {
            break;
        };
        match e {
            CfgExpr::Not(inner) => left.push(inner).map_err(AllocError::from)?,
            CfgExpr::All(members) | CfgExpr::Any(members) => {
                for member in members {
                    left.push(member).map_err(AllocError::from)?;
                }
            }
            CfgExpr::Value(c) => add(alloc, c, pairs)?,
            CfgExpr::True | CfgExpr::False => {}
        }
    }
    Ok(())
}

/// Appends a pair that is not in the list.
fn add(alloc: Global, c: &Cfg, pairs: &mut Vec<Cfg>) -> Result<(), Fault> {
    for pair in &*pairs {
        if pair == c {
            return Ok(());
        }
    }
    pairs.push(c.clone(alloc)?).map_err(AllocError::from)?;
    Ok(())
}

fn name_of(c: &Cfg) -> &str {
    match c {
        Cfg::Name(name) | Cfg::KeyPair(name, _) => name.as_str(),
    }
}

fn is_among(name: &str, names: &[&str]) -> bool {
    for n in names {
        if *n == name {
            return true;
        }
    }
    false
}

fn has(facts: &[Cfg], fact: &Cfg) -> bool {
    Listed(facts).holds(fact)
}

/// Returns whether two facts are different values of one key.
fn are_rivals(a: &Cfg, b: &Cfg) -> bool {
    match (a, b) {
        (Cfg::KeyPair(key, value), Cfg::KeyPair(other, with)) => {
            key.as_str() == other.as_str() && value.as_str() != with.as_str()
        }
        _ => false,
    }
}

/// Returns whether a fact may be in a set with the others of the set.
fn may_stand(known: &FactConstraints<'_>, fact: &Cfg, set: &[Cfg]) -> bool {
    let is_listed = has(known.facts, fact);
    if is_among(name_of(fact), known.complete) && !is_listed {
        return false;
    }
    if !is_among(name_of(fact), known.single) {
        return true;
    }
    for other in set {
        if are_rivals(fact, other) && !(is_listed && has(known.facts, other)) {
            return false;
        }
    }
    true
}

/// Returns whether the set is possible, by the definition on the pages.
fn is_possible(known: &FactConstraints<'_>, set: &[Cfg]) -> bool {
    for fact in known.facts {
        if !has(set, fact) {
            return false;
        }
    }
    for fact in set {
        if !may_stand(known, fact, set) {
            return false;
        }
    }
    known.assumed.matches(set)
}

/// A question about one condition or two.
#[derive(Drop)]
pub struct Question<'a> {
    pub kind: &'a str,
    pub first: Platform,
    pub second: Platform,
}

impl<'a> Question<'a> {
    /// Returns whether a target is an example for `can` and `met`, or a counterexample for the other questions.
    fn is_sought(&self, name: &str, set: &[Cfg]) -> bool {
        let first = self.first.matches(name, set);
        let second = self.second.matches(name, set);
        match self.kind {
            "can" | "met" => first,
            "always" => !first,
            "implies" => first && !second,
            "exclude" => first && second,
            _ => first != second,
        }
    }

    /// Returns whether a target with these facts and this name, or without a name one that is in neither condition, is
    /// possible and is an example of the question.
    pub fn is_found(&self, known: &FactConstraints<'_>, name: Option<&str>, set: &[Cfg]) -> bool {
        is_possible(known, set) && self.is_sought(name.unwrap_or(OTHER), set)
    }

    /// Returns whether a target with these facts is such an example, with some name.
    fn is_sought_by_name(&self, set: &[Cfg]) -> bool {
        for condition in [&self.first, &self.second] {
            if let Platform::Name(name) = condition
                && self.is_sought(name, set)
            {
                return true;
            }
        }
        self.is_sought(OTHER, set)
    }

    /// Returns the listed facts, and the pairs of the conditions and of the assumption.
    fn pairs(&self, alloc: Global, known: &FactConstraints<'_>) -> Result<Vec<Cfg>, Fault> {
        let mut pairs = Vec::new(alloc);
        for fact in known.facts {
            add(alloc, fact, &mut pairs)?;
        }
        collect(alloc, known.assumed, &mut pairs)?;
        for condition in [&self.first, &self.second] {
            if let Platform::Cfg(e) = condition {
                collect(alloc, e, &mut pairs)?;
            }
        }
        Ok(pairs)
    }

    /// Returns whether some possible target is an example of the question.
    pub fn is_met(&self, alloc: Global, known: &FactConstraints<'_>) -> Result<bool, Fault> {
        let pairs = self.pairs(alloc, known)?;
        for bits in 0..sets_of(pairs.len())? {
            let set = with_bits(alloc, &[], &pairs, bits)?;
            if is_possible(known, &set) && self.is_sought_by_name(&set) {
                return Ok(true);
            }
        }
        Ok(false)
    }
}
