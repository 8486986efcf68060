//! Conditions that are true on exactly some of the selected targets. They are built from the facts of these targets
//! alone, as `known_targets::conditions` builds conditions from the facts of all known targets, so that no part of them
//! tells apart what was not selected.

use crate::groups::{Groups, flag_at};
use cargo_platform::{Cfg, CfgExpr, Platform};
use known_targets::conditions::SingleFactConditions;
use known_targets::{KnownTarget, TargetSet, targets_with_fact};
use std::alloc::{AllocError, Global};
use target_tables::TargetRow;

/// The names and keys of the candidate facts, in the order in which they are tried. No flag and no profile changes one
/// of these facts.
const TRIED: [&str; 10] = [
    "unix",
    "windows",
    "target_family",
    "target_os",
    "target_env",
    "target_vendor",
    "target_arch",
    "target_abi",
    "target_endian",
    "target_pointer_width",
];

/// A target that conditions have to tell apart from the others.
#[derive(Clone, Copy, Drop)]
struct Target<'a> {
    name: &'a str,
    /// The known target that represents it, or that it is.
    place: KnownTarget,
    /// The target in a file, if it is one of a file.
    row: Option<&'a TargetRow>,
}

/// The targets that a query selects.
#[derive(Clone, Copy, Drop)]
pub struct Selection<'a> {
    pub targets: TargetSet,
    /// True if the targets were selected by name.
    pub are_named: bool,
    /// The groups that the known targets in `targets` represent, if the query is about the targets of a file.
    pub groups: Option<&'a Groups<'a>>,
}

/// The targets that conditions have to tell apart: the selected ones, and the host if conditions are evaluated on it
/// too.
#[derive(Drop)]
pub struct TargetsToTellApart<'a> {
    targets: Vec<Target<'a>>,
    /// True if the targets were selected by name.
    are_named: bool,
}

/// Returns the selected targets of a file, and the host if `with_host` is true.
fn targets_of_file<'a>(
    alloc: Global,
    groups: &Groups<'a>,
    with_host: bool,
) -> Result<Vec<Target<'a>>, AllocError> {
    let rows = groups.rows();
    let mut targets = Vec::new(alloc);
    for i in 0..rows.len() {
        if let Some(place) = groups.representative_of(i, with_host) {
            targets.push(Target {
                name: rows[i].name(),
                place,
                row: Some(&rows[i]),
            })?;
        }
    }
    Ok(targets)
}

/// Returns the known targets of a set.
fn known_targets<'a>(alloc: Global, set: TargetSet) -> Result<Vec<Target<'a>>, AllocError> {
    let mut targets = Vec::new(alloc);
    for place in set.iter() {
        targets.push(Target {
            name: place.name(),
            place,
            row: None,
        })?;
    }
    Ok(targets)
}

impl<'a> TargetsToTellApart<'a> {
    /// Returns the selected targets, and the host if there is one.
    pub fn of(
        alloc: Global,
        selection: Selection<'a>,
        host: Option<KnownTarget>,
    ) -> Result<TargetsToTellApart<'a>, AllocError> {
        let hosts = match host {
            Some(host) => TargetSet::only(host),
            None => TargetSet::none(),
        };
        let targets = match selection.groups {
            Some(groups) => targets_of_file(alloc, groups, host.is_some())?,
            None => known_targets(alloc, selection.targets.union(hosts))?,
        };
        Ok(TargetsToTellApart {
            targets,
            are_named: selection.are_named,
        })
    }

    /// Returns for each target whether it is in a set.
    fn members(&self, alloc: Global, set: TargetSet) -> Result<Vec<bool>, AllocError> {
        let mut members = Vec::new(alloc);
        for target in &self.targets {
            members.push(set.contains(target.place))?;
        }
        Ok(members)
    }

    /// Returns the name of the only target whose flag is true, if there is one.
    fn only_name(&self, at: &[bool]) -> Option<&'a str> {
        let mut only = None;
        for i in 0..self.targets.len() {
            if !flag_at(at, i) {
                continue;
            }
            if only.is_some() {
                return None;
            }
            only = Some(self.targets[i].name);
        }
        only
    }
}

/// A fact, and for each target whether the target has it.
#[derive(Drop)]
pub struct Fact {
    fact: Cfg,
    at: Vec<bool>,
}

impl Fact {
    /// Returns a fact with the targets that have it.
    pub fn of(
        alloc: Global,
        selected: &TargetsToTellApart<'_>,
        fact: Cfg,
    ) -> Result<Fact, AllocError> {
        let copy = fact.clone(alloc)?;
        let condition = Platform::Cfg(CfgExpr::Value(copy));
        let known = targets_with_fact(&fact);
        let mut at = Vec::new(alloc);
        for target in &selected.targets {
            at.push(match target.row {
                Some(row) => row.matches(&condition),
                None => known.contains(target.place),
            })?;
        }
        Ok(Fact { fact, at })
    }
}

/// Returns the name or the key of a fact.
fn name_of<'a>(fact: &'a Cfg) -> &'a str {
    match fact {
        Cfg::Name(name) => name.as_str(),
        Cfg::KeyPair(key, _) => key.as_str(),
    }
}

/// Returns the index of the name or key of a fact in `TRIED`.
fn rank_of(fact: &Cfg) -> Option<usize> {
    let name = name_of(fact);
    for i in 0..TRIED.len() {
        if TRIED[i] == name {
            return Some(i);
        }
    }
    None
}

/// A candidate fact after the index of its name or key in `TRIED`, and the index of a target that has it.
type Had<'a> = ((usize, &'a Cfg), usize);

/// Returns the candidate facts of each target of a file, sorted in the order in which they are tried.
fn had_facts<'a>(
    alloc: Global,
    selected: &TargetsToTellApart<'a>,
) -> Result<Vec<Had<'a>>, AllocError> {
    let mut had = Vec::new(alloc);
    for i in 0..selected.targets.len() {
        let Some(row) = selected.targets[i].row else {
            continue;
        };
        for fact in row.facts() {
            if let Some(rank) = rank_of(fact) {
                had.push(((rank, fact), i))?;
            }
        }
    }
    had.sort()?;
    Ok(had)
}

/// Returns whether a fact is the last one of a list.
fn is_last(facts: &[Fact], fact: &Cfg) -> bool {
    match facts.last() {
        Some(last) => last.fact == *fact,
        None => false,
    }
}

/// Returns the candidate facts of the targets of a file, in the order in which they are tried.
fn facts_of_file(
    alloc: Global,
    selected: &TargetsToTellApart<'_>,
) -> Result<Vec<Fact>, AllocError> {
    let count = selected.targets.len();
    let mut facts: Vec<Fact> = Vec::new(alloc);
    for ((_, fact), place) in &had_facts(alloc, selected)? {
        let fact: &Cfg = *fact;
        if !is_last(&facts, fact) {
            let fact = fact.clone(alloc)?;
            let at = vec![in alloc; false; count]?;
            facts.push(Fact { fact, at })?;
        }
        if let Some(last) = facts.last_mut() {
            mark(&mut last.at, *place);
        }
    }
    Ok(facts)
}

/// Returns the candidate facts of known targets, in the order in which they are tried.
fn known_facts(alloc: Global, selected: &TargetsToTellApart<'_>) -> Result<Vec<Fact>, AllocError> {
    let mut facts = Vec::new(alloc);
    for known in SingleFactConditions::new(alloc)?.facts() {
        let fact = known.fact.clone(alloc)?;
        let at = selected.members(alloc, known.targets)?;
        facts.push(Fact { fact, at })?;
    }
    Ok(facts)
}

/// Returns the candidate facts, in the order in which they are tried.
pub fn candidate_facts(
    alloc: Global,
    selected: &TargetsToTellApart<'_>,
) -> Result<Vec<Fact>, AllocError> {
    match selected.targets.first() {
        Some(first) if first.row.is_some() => facts_of_file(alloc, selected),
        _ => known_facts(alloc, selected),
    }
}

/// Sets the flag at an index, if there is one.
fn mark(at: &mut Vec<bool>, place: usize) {
    if let Some(slot) = at.get_mut(place) {
        *slot = true;
    }
}

/// Returns the first condition that is true on exactly the targets of the set, if there is one: a fact, `not(..)` of a
/// fact, or the name of the only target. If targets were selected by name, it is `all()` for all of them, and `any()`
/// for none.
pub fn simple_condition(
    alloc: Global,
    selected: &TargetsToTellApart<'_>,
    facts: &[Fact],
    set: TargetSet,
) -> Result<Option<Platform>, AllocError> {
    let at = selected.members(alloc, set)?;
    if selected.are_named && !at.contains(&false) {
        return Ok(Some(Platform::Cfg(CfgExpr::All(Vec::new(alloc)))));
    }
    if selected.are_named && !at.contains(&true) {
        return Ok(Some(Platform::Cfg(CfgExpr::Any(Vec::new(alloc)))));
    }
    if let Some(fact) = first_at(facts, &at, true) {
        let fact = CfgExpr::Value(fact.clone(alloc)?);
        return Ok(Some(Platform::Cfg(fact)));
    }
    if let Some(fact) = first_at(facts, &at, false) {
        let fact = CfgExpr::Value(fact.clone(alloc)?);
        let negated = CfgExpr::Not(Box::new(alloc, fact)?);
        return Ok(Some(Platform::Cfg(negated)));
    }
    match selected.only_name(&at) {
        Some(name) => Ok(Some(Platform::Name(String::from_str(alloc, name)?))),
        None => Ok(None),
    }
}

/// Returns the first fact that exactly these targets have or, if `has` is false, exactly these lack.
fn first_at<'a>(facts: &'a [Fact], at: &[bool], has: bool) -> Option<&'a Cfg> {
    for known in facts {
        let mut is_same = true;
        for i in 0..at.len() {
            if flag_at(&known.at, i) != (at[i] == has) {
                is_same = false;
                break;
            }
        }
        if is_same {
            return Some(&known.fact);
        }
    }
    None
}

// ---- conditions of several facts

/// A fact by its index, or `not(..)` of that fact.
#[derive(Clone, Copy, Drop)]
struct Literal {
    place: usize,
    is_negated: bool,
}

impl Literal {
    /// Returns whether the literal is true on a target.
    fn is_at(self, facts: &[Fact], target: usize) -> bool {
        match facts.get(self.place) {
            Some(known) => flag_at(&known.at, target) != self.is_negated,
            None => false,
        }
    }

    /// Returns the literal as an expression.
    fn expression(self, alloc: Global, facts: &[Fact]) -> Result<CfgExpr, AllocError> {
        let Some(known) = facts.get(self.place) else {
            return Ok(CfgExpr::False);
        };
        let fact = CfgExpr::Value(known.fact.clone(alloc)?);
        if self.is_negated {
            Ok(CfgExpr::Not(Box::new(alloc, fact)?))
        } else {
            Ok(fact)
        }
    }
}

/// Returns whether all of the literals are true on a target.
fn all_at(facts: &[Fact], literals: &[Literal], target: usize) -> bool {
    for literal in literals {
        if !literal.is_at(facts, target) {
            return false;
        }
    }
    true
}

/// Returns a condition of these facts that is true on exactly the targets of the set, if one is found: an `any(..)` of
/// parts, each an `all(..)` of facts and negated facts.
pub fn covering(
    alloc: Global,
    selected: &TargetsToTellApart<'_>,
    facts: &[Fact],
    set: TargetSet,
) -> Result<Option<Platform>, AllocError> {
    let at = selected.members(alloc, set)?;
    let mut left = selected.members(alloc, set)?;
    let mut parts = Vec::new(alloc);
    for _ in 0..at.len() {
        if !left.contains(&true) {
            break;
        }
        let Some(literals) = part_for(alloc, facts, &at, &left)? else {
            return Ok(None);
        };
        take_out(&mut left, facts, &literals);
        parts.push(part_of(alloc, facts, &literals)?)?;
    }
    if left.contains(&true) {
        return Ok(None);
    }
    Ok(Some(Platform::Cfg(joined(parts))))
}

/// Removes the targets on which all of the literals are true.
fn take_out(left: &mut Vec<bool>, facts: &[Fact], literals: &[Literal]) {
    for i in 0..left.len() {
        if all_at(facts, literals, i) {
            left[i] = false;
        }
    }
}

/// Returns the only part, or the `any(..)` of the parts.
fn joined(parts: Vec<CfgExpr>) -> CfgExpr {
    let mut parts = parts;
    if parts.len() == 1 {
        if let Some(part) = parts.pop() {
            return part;
        }
    }
    CfgExpr::Any(parts)
}

/// Returns the only literal, or the `all(..)` of the literals.
fn part_of(alloc: Global, facts: &[Fact], literals: &[Literal]) -> Result<CfgExpr, AllocError> {
    if literals.len() == 1 {
        if let Some(literal) = literals.first() {
            return literal.expression(alloc, facts);
        }
    }
    let mut members = Vec::new(alloc);
    for literal in literals {
        members.push(literal.expression(alloc, facts)?)?;
    }
    Ok(CfgExpr::All(members))
}

/// Returns literals that are all true on some of the remaining targets, and on no target outside the set.
fn part_for(
    alloc: Global,
    facts: &[Fact],
    at: &[bool],
    left: &[bool],
) -> Result<Option<Vec<Literal>>, AllocError> {
    let mut literals = Vec::new(alloc);
    for _ in 0..facts.len() {
        if is_inside(facts, &literals, at) {
            break;
        }
        let Some(best) = best_literal(alloc, facts, &literals, at, left)? else {
            return Ok(None);
        };
        literals.push(best)?;
    }
    if !is_inside(facts, &literals, at) {
        return Ok(None);
    }
    Ok(Some(without_needless(alloc, facts, literals, at)?))
}

/// Returns whether the set contains each target on which all of the literals are true.
fn is_inside(facts: &[Fact], literals: &[Literal], at: &[bool]) -> bool {
    for i in 0..at.len() {
        if !at[i] && all_at(facts, literals, i) {
            return false;
        }
    }
    true
}

/// Returns the literal with the highest score (see `score_of`) for the targets on which `literals` are true: the
/// remaining ones, and those outside the set. Returns `None` if each score is 0.
fn best_literal(
    alloc: Global,
    facts: &[Fact],
    literals: &[Literal],
    at: &[bool],
    left: &[bool],
) -> Result<Option<Literal>, AllocError> {
    let mut kept = Vec::new(alloc);
    let mut others = Vec::new(alloc);
    for i in 0..at.len() {
        if all_at(facts, literals, i) {
            if flag_at(left, i) {
                kept.push(i)?;
            } else if !at[i] {
                others.push(i)?;
            }
        }
    }
    let mut best = None;
    let mut most: usize = 0;
    for place in 0..facts.len() {
        for is_negated in [false, true] {
            let literal = Literal { place, is_negated };
            let score = score_of(literal, facts, &kept, &others);
            if score > most {
                most = score;
                best = Some(literal);
            }
        }
    }
    Ok(best)
}

/// Returns the number of `kept` targets on which a literal is true, times the number of `others` on which it is false.
fn score_of(literal: Literal, facts: &[Fact], kept: &[usize], others: &[usize]) -> usize {
    let mut keeps: usize = 0;
    for target in kept {
        if literal.is_at(facts, *target) {
            keeps = keeps.saturating_add(1);
        }
    }
    let mut leaves_out: usize = 0;
    for target in others {
        if !literal.is_at(facts, *target) {
            leaves_out = leaves_out.saturating_add(1);
        }
    }
    keeps.saturating_mul(leaves_out)
}

/// Removes, from the first one on, the literals that are not needed to exclude the targets outside the set.
fn without_needless(
    alloc: Global,
    facts: &[Fact],
    literals: Vec<Literal>,
    at: &[bool],
) -> Result<Vec<Literal>, AllocError> {
    let mut needed: Vec<Literal> = Vec::new(alloc);
    for i in 0..literals.len() {
        if is_needed(facts, &needed, &literals[i + 1..], at) {
            needed.push(literals[i])?;
        }
    }
    Ok(needed)
}

/// Returns whether the first and the last literals are all true on a target outside the set.
fn is_needed(facts: &[Fact], first: &[Literal], last: &[Literal], at: &[bool]) -> bool {
    for i in 0..at.len() {
        if !at[i] && all_at(facts, first, i) && all_at(facts, last, i) {
            return true;
        }
    }
    false
}
