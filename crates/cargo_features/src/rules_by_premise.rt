//! The rules in which each fact is a premise.

ghost use Rattle.std.specs.Prelude.{◌≡◌, ◌<◌, ℕ, [], IfOk, OnOk, length};
ghost use Rattle.std.specs.List.{slice_index_or};
ghost use Rattle.cargo_features.specs.Inside.Listing.{place_lists, IsListed, AreListed};

use crate::rules::Rule;
use std::alloc::{AllocError, Global};

/// For each fact, the indexes of the rules in which it is a premise.
#[derive(Drop)]
pub struct Premises {
    lists: Vec<Vec<usize>>,
}

impl Premises {
    /// Returns the premises of rules over `count` facts. Fails only if an allocation fails.
    pub fn of(alloc: Global, count: usize, rules: &[Rule]) -> Result<Premises, AllocError>
        ensures count { IfOk result (λ premises. length (place_lists premises) ≡ count) }
        ensures all { IfOk result (λ premises. AreListed rules.now (place_lists premises)) }
    {
        let mut lists = Vec::new(alloc);
        'facts: for _ in 0..count {
            lists.push(Vec::new(alloc))?;
        }
        let mut premises = Premises { lists };
        'rules: for i in 0..rules.len() {
            premises.add(rules[i].first, i)?;
            premises.add(rules[i].second, i)?;
        }
        Ok(premises)
    }

    /// Lists a rule for a fact. A number past the end is ignored.
    fn add(&mut self, fact: usize, rule: usize) -> Result<(), AllocError>
        ensures count { length (place_lists self.new) ≡ length (place_lists self.old) }
        ensures listed { OnOk result (IsListed (place_lists self.new) fact rule) }
        ensures kept { OnOk result ((n i : ℕ) → IsListed (place_lists self.old) n i
            → IsListed (place_lists self.new) n i) }
    {
        if fact < self.lists.len() {
            self.lists[fact].push(rule)?;
        }
        Ok(())
    }

    /// Returns the indexes of the rules in which a fact is a premise.
    pub fn at(&self, fact: usize) -> &[usize]
        requires { fact < length (place_lists self.now) }
        ensures { result.now ≡ slice_index_or (place_lists self.now) fact [] }
    {
        &self.lists[fact]
    }
}
