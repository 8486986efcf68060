//! The groups around an expression during a fold.

ghost use Rattle.std.specs.Prelude.{◌≡◌, [], ◌∷◌, OnOk, MatchOption};
ghost use Rattle.cargo_platform.specs.Inside.Folding.{stack};

use crate::cfg::CfgExpr;
use std::alloc::{AllocError, Global};

/// An `all` or `any` whose members are being folded.
#[derive(Drop)]
pub struct EnteredList<'a, M> {
    /// The truth after which the group goes on: `all` after members that are true, and `any` after false ones.
    pub neutral: bool,
    /// The result of the members before the current one.
    pub so_far: M,
    /// The members after the current one.
    pub members: &'a [CfgExpr],
}

/// A group around the current expression.
#[derive(Drop)]
pub enum EnteredGroup<'a, M> {
    Not,
    List(EnteredList<'a, M>),
}

/// The groups around the current expression, the innermost last.
#[derive(Drop)]
pub struct EnteredGroups<'a, M> {
    groups: Vec<EnteredGroup<'a, M>>,
}

impl<'a, M: Drop> EnteredGroups<'a, M> {
    /// Returns an empty list of groups.
    pub fn new(alloc: Global) -> EnteredGroups<'a, M>
        ensures { stack result ≡ [] }
    {
        EnteredGroups {
            groups: Vec::new(alloc),
        }
    }

    /// Adds a group inside the others. Drops it if the allocation fails.
    pub fn push(&mut self, group: EnteredGroup<'a, M>) -> Result<(), AllocError>
        ensures { OnOk result (stack self.new ≡ group.entry ∷ stack self.old) }
    {
        self.groups.push(group)?;
        Ok(())
    }

    /// Removes the innermost group and returns it.
    pub fn pop(&mut self) -> Option<EnteredGroup<'a, M>>
        ensures { MatchOption result (stack self.old ≡ []) (λ group. stack self.old ≡ group ∷ stack self.new) }
    {
        self.groups.pop()
    }
}
