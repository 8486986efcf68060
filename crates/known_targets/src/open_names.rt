//! The names and keys whose facts are open.

ghost use Rattle.std.specs.Prelude.{◌≡◌, IfOk};
ghost use Rattle.std.specs.Option.{ForSome};
ghost use Rattle.cargo_platform.specs.Trees.{value_of};
ghost use Rattle.cargo_platform.specs.Facts.{pair_of};
ghost use Rattle.partial_facts.specs.Partly.{is_named, names_of};
ghost use Rattle.known_targets.specs.Open.{HasNames};

use crate::walk::is_open;
use cargo_platform::Cfg;
use std::alloc::{AllocError, Global};
use std::collections::BTreeSet;

/// The maximum number of names that are compared one by one.
const FEW: usize = 16;

/// Names and keys whose facts are open. If they are more than `FEW`, they are in a set too.
#[derive(Drop)]
pub struct OpenNames<'a> {
    pub names: &'a [&'a str],
    set: Option<BTreeSet<&'a str>>,
    ghost has_names: { ForSome set (HasNames (names_of names.now)) },
}

impl<'a> OpenNames<'a> {
    /// Returns these names. Fails only if an allocation fails.
    pub fn new(alloc: Global, names: &'a [&'a str]) -> Result<OpenNames<'a>, AllocError>
        ensures { IfOk result (λ it. it.names.now ≡ names.now) }
    {
        if names.len() <= FEW {
            return Ok(OpenNames { names, set: None });
        }
        let set = set_of(alloc, names)?;
        Ok(OpenNames {
            names,
            set: Some(set),
        })
    }

    /// Returns whether the name or key of a fact is among these.
    pub fn has(&self, c: &Cfg) -> bool
        ensures { result ≡ is_named (pair_of (value_of c.now)).name (names_of self.now.names.now) }
    {
        match (&self.set, c) {
            (Some(set), Cfg::Name(name) | Cfg::KeyPair(name, _)) => set.contains(name.as_str()),
            (None, _) => is_open(self.names, c),
        }
    }
}

/// Returns the set of these names.
fn set_of<'a>(alloc: Global, names: &'a [&'a str]) -> Result<BTreeSet<&'a str>, AllocError>
    ensures { IfOk result (HasNames (names_of names.now)) }
{
    names.iter().copied().collect(alloc)
}
