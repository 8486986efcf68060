//! The search for conditions that are true on exactly some targets: of all known ones, or of those that are selected.

use crate::selected::{
    Fact, Selection, TargetsToTellApart, candidate_facts, covering as covering_of, simple_condition,
};
use cargo_platform::{Cfg, Platform};
use known_targets::conditions::{SingleFactConditions, covering};
use known_targets::{KnownFact, KnownTarget, TargetSet, targets_with_fact};
use std::alloc::{AllocError, Global};

/// The facts that conditions are built from: the candidate facts, and the facts that occur in the conditions of the
/// graph.
#[derive(Drop)]
pub enum ConditionSearch<'a> {
    Known(SingleFactConditions, Vec<KnownFact>),
    Selected(TargetsToTellApart<'a>, Vec<Fact>, Vec<Fact>),
}

/// Pairs each fact with the known targets that have it.
fn known_facts(alloc: Global, values: Vec<Cfg>) -> Result<Vec<KnownFact>, AllocError> {
    let mut facts = Vec::new(alloc);
    for fact in values {
        let targets = targets_with_fact(&fact);
        facts.push(KnownFact { fact, targets })?;
    }
    Ok(facts)
}

/// Pairs each fact with the selected targets that have it.
fn selected_facts(
    alloc: Global,
    selected: &TargetsToTellApart<'_>,
    values: Vec<Cfg>,
) -> Result<Vec<Fact>, AllocError> {
    let mut facts = Vec::new(alloc);
    for fact in values {
        facts.push(Fact::of(alloc, selected, fact)?)?;
    }
    Ok(facts)
}

impl<'a> ConditionSearch<'a> {
    /// Returns a finder for sets of the selected targets. `host` is the host if conditions are evaluated on it too, and
    /// `values` are the facts that occur in the conditions of the graph. Fails if memory is refused.
    pub fn of(
        alloc: Global,
        selection: Selection<'a>,
        host: Option<KnownTarget>,
        values: Vec<Cfg>,
    ) -> Result<ConditionSearch<'a>, AllocError> {
        if !selection.are_named && selection.groups.is_none() {
            return Ok(ConditionSearch::Known(
                SingleFactConditions::new(alloc)?,
                known_facts(alloc, values)?,
            ));
        }
        let selected = TargetsToTellApart::of(alloc, selection, host)?;
        let tried = candidate_facts(alloc, &selected)?;
        let facts = selected_facts(alloc, &selected, values)?;
        Ok(ConditionSearch::Selected(selected, tried, facts))
    }

    /// Returns a condition that is true on exactly the targets of the set, if a fact, `not(..)` of a fact or the name
    /// of a target is one.
    pub fn simple(&self, alloc: Global, set: TargetSet) -> Result<Option<Platform>, AllocError> {
        match self {
            ConditionSearch::Known(simple, _) => simple.condition(alloc, set),
            ConditionSearch::Selected(selected, tried, _) => simple_condition(
                alloc, selected, tried, set,
            ),
        }
    }

    /// Returns a condition that is true on exactly these targets, if one is found. Simple conditions are tried first,
    /// then the facts in the conditions of the graph, and then all candidate facts.
    pub fn condition(&self, alloc: Global, set: TargetSet) -> Result<Option<Platform>, AllocError> {
        if let Some(found) = self.simple(alloc, set)? {
            return Ok(Some(found));
        }
        if let Some(found) = self.of_asked_facts(alloc, set)? {
            return Ok(Some(found));
        }
        self.of_candidate_facts(alloc, set)
    }

    /// Returns a condition made of the facts that occur in the conditions of the graph.
    fn of_asked_facts(
        &self,
        alloc: Global,
        set: TargetSet,
    ) -> Result<Option<Platform>, AllocError> {
        match self {
            ConditionSearch::Known(_, facts) => covering(alloc, facts, set),
            ConditionSearch::Selected(selected, _, facts) => covering_of(
                alloc, selected, facts, set,
            ),
        }
    }

    /// Returns a condition made of the candidate facts.
    fn of_candidate_facts(
        &self,
        alloc: Global,
        set: TargetSet,
    ) -> Result<Option<Platform>, AllocError> {
        match self {
            ConditionSearch::Known(simple, _) => covering(alloc, simple.facts(), set),
            ConditionSearch::Selected(selected, tried, _) => covering_of(
                alloc, selected, tried, set,
            ),
        }
    }
}
