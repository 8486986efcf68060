//! The rules by which a manifest selects the members of its workspace.

ghost use Rattle.std.specs.Prelude.{◌↔◌, IsTrue, IfOk};
ghost use Rattle.workspaces.specs.Members.{IsExcluded, IsMember};

use crate::patterns::{Pattern, some_matches};
use std::alloc::{AllocError, Global};

/// The rules by which a manifest selects the members of its workspace.
#[derive(Drop)]
pub struct MemberRules {
    /// The globs of `members`.
    pub members: Vec<Pattern>,
    /// For each path of `exclude`, the pattern that matches its folder and all folders below it.
    pub excluded: Vec<Pattern>,
    /// For each text of `members`, read as a path and not as a glob, the pattern of this folder and those below it.
    /// `exclude` does not apply to these folders.
    pub named: Vec<Pattern>,
}

/// Returns whether the first is true and the second is not.
fn holds_without(first: bool, second: bool) -> bool
    ensures { IsTrue result ↔ IsTrue first × (IsTrue second → ⊥) }
{
    first && !second
}

impl MemberRules {
    /// Returns whether the folder is excluded. Fails only if an allocation fails.
    pub fn excludes(&self, alloc: Global, path: &[Vec<char>]) -> Result<bool, AllocError>
        ensures { IfOk result (λ b. IsTrue b ↔ IsExcluded self.now path.now) }
    {
        let is_below = some_matches(alloc, &self.excluded, path)?;
        if !is_below {
            return Ok(false);
        }
        let is_named = some_matches(alloc, &self.named, path)?;
        Ok(holds_without(is_below, is_named))
    }

    /// Returns whether the folder is a member by the globs. Fails only if an allocation fails.
    pub fn contains(&self, alloc: Global, path: &[Vec<char>]) -> Result<bool, AllocError>
        ensures { IfOk result (λ b. IsTrue b ↔ IsMember self.now path.now) }
    {
        let is_taken = some_matches(alloc, &self.members, path)?;
        let is_excluded = self.excludes(alloc, path)?;
        Ok(holds_without(is_taken, is_excluded))
    }
}
