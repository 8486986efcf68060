//! Tests of a document that is accepted.

use super::support::{document, equals_text};
use cargo_metadata::{Kind, Metadata, read};
use std::process::Abort;

/// Two packages, one of them a procedural macro; the other depends on it in two ways. There are unknown fields between.
const DOCUMENT: &str = r#"{"version": 1, "extra": {"deep": [[]]}, "workspace_members": ["a 1"],
    "packages": [
        {"id": "a 1", "name": "a", "version": "1.0.0", "license": null, "targets": [{"kind": ["lib"]}]},
        {"id": "m 2", "name": "m", "version": "2.0.0", "license": "MIT",
            "targets": [{"kind": ["custom-build"]}, {"kind": ["proc-macro"]}]}],
    "resolve": {"root": null, "nodes": [
        {"id": "a 1", "deps": [{"name": "m", "pkg": "m 2", "dep_kinds": [
            {"kind": null, "target": "cfg(unix)"}, {"kind": "build", "target": null}]}]},
        {"id": "m 2", "deps": []}]}}"#;

/// Asserts the packages that were read.
fn assert_packages(rt: &impl Abort, metadata: &Metadata) {
    let first = metadata.packages.get(0).expect(rt, "a package");
    assert!(rt; first.name == "a" && !first.is_macro && first.license.is_none());
    let second = metadata.packages.get(1).expect(rt, "a package");
    assert!(rt; second.id == "m 2" && second.version == "2.0.0" && second.is_macro);
    assert!(rt; equals_text(second.license, "MIT"));
}

/// Asserts the nodes that were read.
fn assert_nodes(rt: &impl Abort, metadata: &Metadata) {
    let node = metadata.nodes.get(0).expect(rt, "a node");
    let dependency = node.dependencies.get(0).expect(rt, "a dependency");
    assert!(rt; node.id == "a 1" && dependency.on == "m 2");
    let normal = dependency.kinds.get(0).expect(rt, "a kind");
    assert!(rt; normal.kind == Kind::Normal && equals_text(normal.condition, "cfg(unix)"));
    let build = dependency.kinds.get(1).expect(rt, "a kind");
    assert!(rt; build.kind == Kind::Build && build.condition.is_none());
}

#[test]
fn reads_what_stands_there(rt: HostRuntime) {
    let alloc = rt.alloc();
    let value = document(&rt, alloc, DOCUMENT);
    let metadata = read(alloc, &value).expect(&rt, "a document");
    assert!(rt; metadata.packages.len() == 2 && metadata.nodes.len() == 2);
    assert!(rt; equals_text(metadata.members.get(0).copied(), "a 1"));
    assert_packages(&rt, &metadata);
    assert_nodes(&rt, &metadata);
}
