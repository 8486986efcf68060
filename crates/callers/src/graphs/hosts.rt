//! Tests that what build scripts and procedural macros need is decided for the host.

use super::support::{all_kinds, assert_at, depend, package, targets};
use crate::support::target;
use known_targets::KnownTarget;
use package_graphs::{Kind, Package, PackageTargets, package_targets};
use std::alloc::Global;
use std::process::Abort;

/// Returns a root with a macro on Windows and a build script on Unix; the macro needs the last package on Unix.
fn packages(rt: &impl Abort, alloc: Global) -> [Package; 4] {
    let mut root = package(alloc, true, false);
    depend(
        rt,
        &mut root,
        1,
        Kind::Normal,
        targets(rt, alloc, "cfg(windows)"),
    );
    depend(
        rt,
        &mut root,
        2,
        Kind::Build,
        targets(rt, alloc, "cfg(unix)"),
    );
    let mut derive = package(alloc, false, true);
    depend(
        rt,
        &mut derive,
        3,
        Kind::Normal,
        targets(rt, alloc, "cfg(unix)"),
    );
    depend(
        rt,
        &mut derive,
        2,
        Kind::Dev,
        targets(rt, alloc, "cfg(all())"),
    );
    [
        root,
        derive,
        package(alloc, false, false),
        package(alloc, false, false),
    ]
}

fn sets(rt: &impl Abort, alloc: Global, host: Option<KnownTarget>) -> PackageTargets {
    let packages = packages(rt, alloc);
    package_targets(alloc, &packages, all_kinds(), host).expect(rt, "memory")
}

#[test]
fn without_a_host_the_target_decides(rt: HostRuntime) {
    let alloc = rt.alloc();
    let sets = sets(&rt, alloc, None);
    assert_at(&rt, alloc, sets.on_any_side(0), "cfg(all())");
    assert_at(&rt, alloc, sets.on_any_side(1), "cfg(windows)");
    assert_at(&rt, alloc, sets.on_any_side(2), "cfg(unix)");
    assert_at(&rt, alloc, sets.on_any_side(3), "cfg(any())");
}

#[test]
fn a_host_is_asked_for_its_own(rt: HostRuntime) {
    let alloc = rt.alloc();
    let linux = Some(target(&rt, "x86_64-unknown-linux-gnu"));
    let sets = sets(&rt, alloc, linux);
    assert_at(&rt, alloc, sets.on_any_side(1), "cfg(windows)");
    assert_at(&rt, alloc, sets.on_any_side(2), "cfg(all())");
    assert_at(&rt, alloc, sets.on_any_side(3), "cfg(windows)");
}

#[test]
fn another_host_needs_less(rt: HostRuntime) {
    let alloc = rt.alloc();
    let windows = Some(target(&rt, "x86_64-pc-windows-msvc"));
    let sets = sets(&rt, alloc, windows);
    assert_at(&rt, alloc, sets.on_any_side(1), "cfg(windows)");
    assert_at(&rt, alloc, sets.on_any_side(2), "cfg(any())");
    assert_at(&rt, alloc, sets.on_any_side(3), "cfg(any())");
}
