//! Helpers of several tests.

use cargo_platform::Platform;
use known_targets::{TargetSet, matching};
use package_graphs::{Dependency, Kind, Kinds, Package};
use std::alloc::Global;
use std::process::Abort;

/// Returns the targets on which the condition of a text is true.
pub fn targets(rt: &impl Abort, alloc: Global, text: &str) -> TargetSet {
    let platform = Platform::from_str(alloc, text).expect(rt, text);
    matching(alloc, &platform).expect(rt, text)
}

/// Asserts that a set has exactly the targets on which the condition is true.
pub fn assert_at(rt: &impl Abort, alloc: Global, set: TargetSet, text: &str) {
    let wanted = targets(rt, alloc, text);
    assert!(rt; set.equals(wanted), "{text}");
}

/// Returns all dependency kinds.
pub fn all_kinds() -> Kinds {
    Kinds {
        normal: true,
        build: true,
        dev: true,
    }
}

/// Returns a package without dependencies.
pub fn package(alloc: Global, is_root: bool, is_macro: bool) -> Package {
    Package {
        is_root,
        is_macro,
        dependencies: Vec::new(alloc),
    }
}

/// Adds a dependency to a package.
pub fn depend(rt: &impl Abort, from: &mut Package, to: usize, kind: Kind, holds: TargetSet) {
    let added = from.dependencies.push(Dependency { to, kind, holds });
    assert!(rt; added.is_ok());
}
