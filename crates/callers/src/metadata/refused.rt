//! Tests of documents that are rejected, and of the messages.

use super::support::{assert_graph_refused, assert_refused};

/// Documents, each with its message.
const DOCUMENTS: [(&str, &str); 8] = [
    ("[]", "version: expected 1"),
    (r#"{"version": 2}"#, "version: expected 1"),
    (r#"{"version": 1}"#, "packages: expected an array"),
    (
        r#"{"version": 1, "packages": [{"id": "a", "name": "a", "version": "1"}, {"id": 5}]}"#,
        "packages[1].id: expected a string",
    ),
    (
        r#"{"version": 1, "packages": [{"id": "a", "version": "1"}]}"#,
        "packages[0].name: expected a string",
    ),
    (
        r#"{"version": 1, "packages": []}"#,
        "workspace_members: expected an array",
    ),
    (
        r#"{"version": 1, "packages": [], "workspace_members": ["a", null]}"#,
        "workspace_members[1]: expected a string",
    ),
    (
        r#"{"version": 1, "packages": [], "workspace_members": [], "resolve": null}"#,
        "resolve: expected an object; `--no-deps` leaves it out",
    ),
];

/// Values of `resolve`, each with its message.
const GRAPHS: [(&str, &str); 6] = [
    ("{}", ".nodes: expected an array"),
    (r#"{"nodes": [{}]}"#, ".nodes[0].id: expected a string"),
    (
        r#"{"nodes": [{"id": "a"}]}"#,
        ".nodes[0].deps: expected an array",
    ),
    (
        r#"{"nodes": [{"id": "a", "deps": [{"pkg": "b"}]}]}"#,
        ".nodes[0].deps[0].dep_kinds: expected an array",
    ),
    (
        r#"{"nodes": [{"id": "a", "deps": [{"pkg": "b", "dep_kinds": [{"kind": "run"}]}]}]}"#,
        r#".nodes[0].deps[0].dep_kinds[0].kind: expected null, "build" or "dev""#,
    ),
    (
        r#"{"nodes": [{"id": "a", "deps": [{"pkg": "b", "dep_kinds": [{}, {"target": []}]}]}]}"#,
        ".nodes[0].deps[0].dep_kinds[1].target: expected a string or null",
    ),
];

#[test]
fn tells_the_first_that_is_wrong(rt: HostRuntime) {
    let alloc = rt.alloc();
    for (text, wanted) in &DOCUMENTS {
        assert_refused(&rt, alloc, text, wanted);
    }
}

#[test]
fn tells_where_in_the_graph(rt: HostRuntime) {
    let alloc = rt.alloc();
    for (resolve, wanted) in &GRAPHS {
        assert_graph_refused(&rt, alloc, resolve, wanted);
    }
}
