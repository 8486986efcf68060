//! Callers of `package_graphs`, as its users write them.

ghost use Rattle.std.specs.Prelude.{◌<◌, ℕ, Some, IsTrue, IfOk, length};
ghost use Rattle.known_targets.specs.declared.table.TheConstants.{COUNT};
ghost use Rattle.package_graphs.specs.Packages.{IsThereOn, BuiltFor};
ghost use Rattle.callers.specs.Shipped.{built};

use known_targets::KnownTarget;
use package_graphs::{Kinds, Package, package_targets};
use std::alloc::{AllocError, Global};

/// Returns whether an auditor may skip a package: no build on this host needs it, for any known target.
pub fn is_never_built(
    alloc: Global,
    packages: &[Package],
    host: KnownTarget,
    index: usize,
) -> Result<bool, AllocError>
    requires { index < length packages.now }
    ensures { IfOk result (λ never. IsTrue never → (side : BuiltFor) (k : ℕ) → k < COUNT
        → IsThereOn packages.now built (Some host) k (index, side) → ⊥) }
{
    let kinds = Kinds {
        normal: true,
        build: true,
        dev: false,
    };
    let sets = package_targets(alloc, packages, kinds, Some(host))?;
    Ok(sets.on_any_side(index).is_empty())
}
