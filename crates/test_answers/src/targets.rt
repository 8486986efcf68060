//! The targets that rustc knows, each also by itself.

use crate::row_facts;
use cargo_platform::{Cfg, CfgExpr, FactIndex, Facts, Platform};
use known_targets::{
    COUNT, KnownFact, KnownTarget, PartialTarget, RUSTC_VERSION, TargetSet, all_facts,
    certainly_matching, matching, partition_targets, possibly_matching, targets_with_fact,
};
use partial_facts::decide_platform;
use std::alloc::{AllocError, Global};
use test_rows::Fault;
use test_rows::bars::text_of;
use test_rows::fields::Fields;
use test_rows::forms::{self, word};
use test_rows::texts::{expression, platform};

/// Returns the answer to a row whose words are `fields`. `call` is the part of its kind after the dot.
pub fn answer(alloc: Global, call: &str, fields: &mut Fields<'_>) -> Result<String, Fault> {
    match call {
        "targets" | "set" | "names" | "open" | "bounds" => of_key(alloc, call, fields),
        "having" => had(alloc, fields.need()?),
        "match" => over_facts(alloc, fields),
        "facts" => facts_of(alloc, fields.need()?),
        "only" => only(alloc, fields),
        "classes" => sizes_of_classes(alloc, fields),
        "values" => values_of(alloc, fields.need()?),
        "named" => named(alloc, fields),
        "each" => each(alloc, fields.need()?),
        _ => Err(Fault::Row("there is no such kind")),
    }
}

/// Returns the targets on which a key is true. For `targets` and `open`, each target is asked by itself too.
fn of_key(alloc: Global, call: &str, fields: &mut Fields<'_>) -> Result<String, Fault> {
    let p = platform(alloc, &fields.text(alloc)?)?;
    match call {
        "targets" | "set" => counted(alloc, &p, call == "targets"),
        "names" => names(alloc, matching(alloc, &p)?),
        _ => open(alloc, &p, &fields.list(alloc)?, call == "open"),
    }
}

/// Returns whether an expression is true over the facts of a target, if a list, an index and the target itself agree.
fn over_facts(alloc: Global, fields: &mut Fields<'_>) -> Result<String, Fault> {
    let e = expression(alloc, &fields.text(alloc)?)?;
    let Some(target) = KnownTarget::by_name(fields.need()?) else {
        return Ok(word(alloc, "no target")?);
    };
    let by_facts = by_facts(alloc, &e, target)?;
    let answer = target.matches(&Platform::Cfg(e));
    if by_facts == Some(answer) {
        return Ok(forms::yes_or_no(alloc, answer)?);
    }
    Ok(word(alloc, "the facts say one thing, the target another")?)
}

/// Returns whether an expression is true over the facts of a target, if a list and an index agree.
fn by_facts(alloc: Global, e: &CfgExpr, target: KnownTarget) -> Result<Option<bool>, AllocError> {
    let facts = target.facts(alloc)?;
    let index = FactIndex::new(alloc, &facts)?;
    let answer = e.matches(&facts);
    if e.matches_in(&index) == answer {
        return Ok(Some(answer));
    }
    Ok(None)
}

/// Returns the number of targets in each class that the keys distinguish, the smallest first.
fn sizes_of_classes(alloc: Global, fields: &mut Fields<'_>) -> Result<String, Fault> {
    let sets = sets_of(alloc, &fields.list(alloc)?)?;
    let mut sizes = Vec::new(alloc);
    for class in &partition_targets(alloc, &sets)? {
        sizes.push(class.len()).map_err(AllocError::from)?;
    }
    sizes.sort()?;
    Ok(listed(alloc, &sizes)?)
}

/// Returns the targets of each key.
fn sets_of(alloc: Global, keys: &[&str]) -> Result<Vec<TargetSet>, Fault> {
    let mut sets = Vec::new(alloc);
    for key in keys {
        sets.push(set_of(alloc, key)?).map_err(AllocError::from)?;
    }
    Ok(sets)
}

fn set_of(alloc: Global, key: &str) -> Result<TargetSet, Fault> {
    let p = platform(alloc, &text_of(alloc, key)?)?;
    Ok(matching(alloc, &p)?)
}

fn listed(alloc: Global, sizes: &[usize]) -> Result<String, AllocError> {
    let mut out = String::new(alloc);
    for size in sizes {
        space(&mut out)?;
        write!(out, "{size}")?;
    }
    Ok(out)
}

/// Appends a space, unless nothing was written before.
fn space(out: &mut String) -> Result<(), AllocError> {
    if out.is_empty() {
        return Ok(());
    }
    out.push(' ')
}

fn named(alloc: Global, fields: &mut Fields<'_>) -> Result<String, Fault> {
    let name = fields.text(alloc)?;
    Ok(word(alloc, name_of(KnownTarget::by_name(&name)))?)
}

/// Returns the name of the target, or `-` if there is none.
fn name_of(target: Option<KnownTarget>) -> &'static str {
    match target {
        Some(target) => target.name(),
        None => "-",
    }
}

/// Returns the number of targets in a set, counted in each way.
fn count(set: TargetSet) -> Result<usize, Fault> {
    let count = set.len();
    if set.iter().count() == count && set.is_empty() == (count == 0) {
        return Ok(count);
    }
    Err(Fault::Row("the counts of a set differ"))
}

/// Returns whether each target by itself agrees with the set.
fn is_of_each(p: &Platform, set: TargetSet) -> bool {
    for target in TargetSet::all().iter() {
        if target.matches(p) != set.contains(target) {
            return false;
        }
    }
    true
}

/// Returns the number of targets, and the first and the last one. If `each`, each target is asked by itself too.
fn counted(alloc: Global, p: &Platform, each: bool) -> Result<String, Fault> {
    let set = matching(alloc, p)?;
    if each && !is_of_each(p, set) {
        return Ok(word(alloc, "a target by itself says otherwise")?);
    }
    let count = count(set)?;
    let first = name_of(set.iter().next());
    let last = name_of(set.iter().last());
    Ok(format!(in alloc; "{count} {first} {last}")?)
}

/// Returns the names of the targets in a set.
pub fn names(alloc: Global, set: TargetSet) -> Result<String, Fault> {
    if set.is_empty() {
        return Ok(word(alloc, "none")?);
    }
    let mut out = String::new(alloc);
    for target in set.iter() {
        space(&mut out)?;
        out.push_str(target.name())?;
    }
    Ok(out)
}

/// Returns the decision for a target by itself, if names and keys are open.
fn decided(p: &Platform, keys: &[&str], target: KnownTarget) -> Option<bool> {
    let known = PartialTarget {
        target,
        open_keys: &*keys,
    };
    decide_platform(p, Some(target.name()), &known)
}

/// Returns whether the decisions for each target by itself agree with the sets.
fn is_decided(p: &Platform, keys: &[&str], certain: TargetSet, possible: TargetSet) -> bool {
    for target in TargetSet::all().iter() {
        let decided = decided(p, keys, target);
        if (decided == Some(true)) != certain.contains(target)
            || (decided == Some(false)) == possible.contains(target)
        {
            return false;
        }
    }
    true
}

/// Returns the number of targets on which a condition is certainly true, and of those on which it may be, if names and
/// keys are open. If `each`, each target is asked by itself too.
fn open(alloc: Global, p: &Platform, keys: &[&str], each: bool) -> Result<String, Fault> {
    let certain = certainly_matching(alloc, p, keys)?;
    let possible = possibly_matching(alloc, p, keys)?;
    if each && !is_decided(p, keys, certain, possible) {
        return Ok(word(alloc, "a target by itself says otherwise")?);
    }
    let least = count(certain)?;
    let most = count(possible)?;
    Ok(format!(in alloc; "{least} {most}")?)
}

/// Returns how many of the facts are this one.
fn times(facts: &[KnownFact], fact: &Cfg) -> usize {
    facts.iter().filter(|known| known.fact == *fact).count()
}

/// Returns the number of targets that have a fact, which the list of all facts has once or not at all.
fn had(alloc: Global, word_of_fact: &str) -> Result<String, Fault> {
    let fact = test_rows::made_facts::value(alloc, word_of_fact)?;
    let count = count(targets_with_fact(&fact))?;
    if times(&all_facts(alloc)?, &fact) != usize::from(count > 0) {
        return Ok(word(alloc, "the list of all facts says otherwise")?);
    }
    Ok(format!(in alloc; "{count}")?)
}

/// Returns the facts of a target. The target has each of them, and is also among those that have the fact.
fn facts_of(alloc: Global, name: &str) -> Result<String, Fault> {
    let Some(target) = KnownTarget::by_name(name) else {
        return Ok(word(alloc, "no target")?);
    };
    let facts = target.facts(alloc)?;
    for fact in &facts {
        if !target.holds(fact) || !targets_with_fact(fact).contains(target) {
            return Ok(word(alloc, "one of its facts is none of it")?);
        }
    }
    Ok(forms::values(alloc, &facts)?)
}

/// Returns the targets with these names in their order, after which no others come.
fn only(alloc: Global, fields: &mut Fields<'_>) -> Result<String, Fault> {
    let mut set = TargetSet::none();
    for name in &fields.list(alloc)? {
        let Some(target) = KnownTarget::by_name(name) else {
            return Ok(word(alloc, "no target")?);
        };
        set = TargetSet::only(target).union(set);
    }
    let mut targets = set.iter();
    for _ in 0..count(set)? {
        targets.next();
    }
    if targets.next().is_some() || targets.next().is_some() {
        return Ok(word(alloc, "more targets come")?);
    }
    names(alloc, set)
}

/// Returns the minimum and the maximum number of values of a key that a target has.
fn values_of(alloc: Global, key: &str) -> Result<String, Fault> {
    let mut least = usize::MAX;
    let mut most = 0;
    for target in TargetSet::all().iter() {
        let facts = target.facts(alloc)?;
        let count = facts.iter().filter(|fact| is_of(fact, key)).count();
        least = least.min(count);
        most = most.max(count);
    }
    Ok(format!(in alloc; "{least} {most}")?)
}

fn is_of(fact: &Cfg, key: &str) -> bool {
    match fact {
        Cfg::Name(_) => false,
        Cfg::KeyPair(name, _) => name.as_str() == key,
    }
}

/// Returns the number of names, facts or sets of one target, if each of them is right.
fn each(alloc: Global, of: &str) -> Result<String, Fault> {
    match of {
        "name" => each_name(alloc),
        "fact" => each_fact(alloc),
        "set" => each_set(alloc),
        _ => Err(Fault::Row("there is no such kind")),
    }
}

/// Checks that each name is found, but neither with one more character nor without its last one.
fn each_name(alloc: Global) -> Result<String, Fault> {
    for name in known_targets::names() {
        if !is_found_alone(alloc, name)? {
            return Ok(format!(in alloc; "otherwise at {name}")?);
        }
    }
    let count = known_targets::names().len();
    Ok(format!(in alloc; "{count} of {COUNT}, rustc {RUSTC_VERSION}")?)
}

fn is_found_alone(alloc: Global, name: &str) -> Result<bool, AllocError> {
    let longer = format!(in alloc; "{name}0")?;
    let shorter = name.get(..name.len().saturating_sub(1)).unwrap_or("");
    Ok(
        name_of(KnownTarget::by_name(name)) == name
            && KnownTarget::by_name(&longer).is_none()
            && KnownTarget::by_name(shorter).is_none(),
    )
}

/// Checks that each fact is listed once, with the targets that have it, of which there is at least one.
fn each_fact(alloc: Global) -> Result<String, Fault> {
    let facts = all_facts(alloc)?;
    for known in &facts {
        let set = targets_with_fact(&known.fact);
        if times(&facts, &known.fact) != 1 || !known.targets.equals(set) || set.is_empty() {
            return Ok(word(alloc, "otherwise at a fact")?);
        }
    }
    let count = facts.len();
    Ok(format!(in alloc; "{count}")?)
}

/// Returns whether the sets of a target and of the others are right.
fn is_parted(target: KnownTarget) -> Result<bool, Fault> {
    let one = TargetSet::only(target);
    let others = one.complement();
    let all = count(TargetSet::all())?;
    Ok(
        count(one)? == 1
            && count(others)?.saturating_add(1) == all
            && one.contains(target)
            && !others.contains(target)
            && one.union(others).equals(TargetSet::all())
            && one.intersection(others).equals(TargetSet::none())
            && !one.equals(others)
            && !one.equals(TargetSet::none()),
    )
}

fn each_set(alloc: Global) -> Result<String, Fault> {
    for target in TargetSet::all().iter() {
        if !is_parted(target)? {
            let name = target.name();
            return Ok(format!(in alloc; "otherwise at {name}")?);
        }
    }
    let all = count(TargetSet::all())?;
    let none = count(TargetSet::none())?;
    Ok(format!(in alloc; "{all} {none}")?)
}
