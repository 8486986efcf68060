//! Helpers of several tests.

use cargo_metadata::read;
use serde_json::Value;
use std::alloc::Global;
use std::process::Abort;

/// Parses a text as JSON.
pub fn document(rt: &impl Abort, alloc: Global, text: &str) -> Value {
    Value::from_str(alloc, text).expect(rt, text)
}

/// Asserts that a document is rejected with this message.
pub fn assert_refused(rt: &impl Abort, alloc: Global, text: &str, wanted: &str) {
    let value = document(rt, alloc, text);
    let shown = match read(alloc, &value) {
        Ok(_) => format!(in alloc; "accepted"),
        Err(refusal) => format!(in alloc; "{refusal}"),
    };
    let shown = shown.expect(rt, "memory");
    assert!(rt; shown.as_str() == wanted, "{text}: {shown}");
}

/// Asserts that a document with this value of `resolve` is rejected with this message.
pub fn assert_graph_refused(rt: &impl Abort, alloc: Global, resolve: &str, wanted: &str) {
    let text = format!(in alloc;
        "{{\"version\": 1, \"packages\": [], \"workspace_members\": [], \"resolve\": {resolve}}}"
    );
    let text = text.expect(rt, "memory");
    let wanted = format!(in alloc; "resolve{wanted}").expect(rt, "memory");
    assert_refused(rt, alloc, text.as_str(), wanted.as_str());
}

/// Returns whether there is a text, and it is `wanted`.
pub fn equals_text(found: Option<&str>, wanted: &str) -> bool {
    match found {
        Some(text) => text == wanted,
        None => false,
    }
}
