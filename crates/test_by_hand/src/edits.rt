//! Edits and diffs, by hand.

use std::alloc::{AllocError, Global};
use text_edits::{Edit, apply, unified_diff};

/// Returns the edits with these spans and texts.
fn edits_of(alloc: Global, parts: &[(usize, usize, &str)]) -> Result<Vec<Edit>, AllocError> {
    let mut edits = Vec::new(alloc);
    for (start, end, text) in parts {
        edits.push(Edit {
            start: *start,
            end: *end,
            text: String::from_str(alloc, text)?,
        })?;
    }
    Ok(edits)
}

/// Returns whether edits make this of a text, and so many are left out.
fn makes(
    alloc: Global,
    text: &str,
    parts: &[(usize, usize, &str)],
    wanted: &str,
    left: usize,
) -> Result<bool, AllocError> {
    let edits = edits_of(alloc, parts)?;
    let applied = apply(alloc, text, &edits)?;
    Ok(applied.text.as_str() == wanted && applied.left == left)
}

/// Returns whether this is the diff between a text and the text after edits.
fn differs(
    alloc: Global,
    text: &str,
    parts: &[(usize, usize, &str)],
    wanted: &str,
) -> Result<bool, AllocError> {
    let edits = edits_of(alloc, parts)?;
    let applied = apply(alloc, text, &edits)?;
    let diff = unified_diff(alloc, "p", text, applied.text.as_str(), &edits)?;
    Ok(diff.as_str() == wanted)
}

#[test]
fn edits(rt: HostRuntime) {
    let alloc = rt.alloc();
    assert!(rt; matches!(makes(alloc, "abc", &[], "abc", 0), Ok(true)));
    assert!(rt; matches!(makes(alloc, "abc", &[(1, 2, "xy")], "axyc", 0), Ok(true)));
    assert!(rt;
        matches!(
            makes(
                alloc,
                "abc",
                &[(0, 1, ""), (1, 1, "-"), (3, 3, "d")],
                "-bcd",
                0
            ),
            Ok(true)
        )
    );
    // The second edit overlaps the first, and the third does not.
    assert!(rt;
        matches!(
            makes(
                alloc,
                "abc",
                &[(0, 2, "x"), (1, 2, "y"), (2, 3, "z")],
                "xz",
                1
            ),
            Ok(true)
        )
    );
    // An edit before the last one, one that ends before it begins, one behind the text, and one within a character.
    assert!(rt;
        matches!(
            makes(alloc, "aé", &[(1, 3, "b"), (0, 0, "c")], "ab", 1),
            Ok(true)
        )
    );
    assert!(rt;
        matches!(
            makes(
                alloc,
                "aé",
                &[(1, 0, "b"), (4, 4, "c"), (2, 3, "d")],
                "aé",
                3
            ),
            Ok(true)
        )
    );
}

#[test]
fn diffs(rt: HostRuntime) {
    let alloc = rt.alloc();
    assert!(rt; matches!(differs(alloc, "a\nb\n", &[], ""), Ok(true)));
    assert!(rt;
        matches!(
            differs(
                alloc,
                "a\nb\nc\n",
                &[(2, 3, "x")],
                "--- a/p\n+++ b/p\n@@ -1,3 +1,3 @@\n a\n-b\n+x\n c\n"
            ),
            Ok(true)
        )
    );
    // Three lines of context, and no newline at the end.
    assert!(rt;
        matches!(
            differs(
                alloc,
                "1\n2\n3\n4\n5\n6\n7\n8\n9",
                &[(8, 9, "x"), (16, 17, "y")],
                "--- a/p\n+++ b/p\n@@ -2,8 +2,8 @@\n 2\n 3\n 4\n-5\n+x\n 6\n 7\n 8\n-9\n\\ No newline at end of file\n\
         +y\n\\ No newline at end of file\n"
            ),
            Ok(true)
        )
    );
    // A line that is removed, and one that is added.
    assert!(rt;
        matches!(
            differs(
                alloc,
                "a\nb\n",
                &[(0, 2, ""), (4, 4, "c\n")],
                "--- a/p\n+++ b/p\n@@ -1,2 +1,2 @@\n-a\n b\n+c\n"
            ),
            Ok(true)
        )
    );
}

#[test]
fn hunks(rt: HostRuntime) {
    let alloc = rt.alloc();
    // Six lines between two changes are context of one hunk, and seven are not.
    let changes = [(0, 1, "x"), (14, 15, "y")];
    assert!(rt;
        matches!(
            differs(
                alloc,
                "a\n1\n2\n3\n4\n5\n6\nb\n",
                &changes,
                "--- a/p\n+++ b/p\n@@ -1,8 +1,8 @@\n-a\n+x\n 1\n 2\n 3\n 4\n 5\n 6\n-b\n+y\n"
            ),
            Ok(true)
        )
    );
    let changes = [(0, 1, "x\nx"), (16, 17, "y")];
    assert!(rt;
        matches!(
            differs(
                alloc,
                "a\n1\n2\n3\n4\n5\n6\n7\nb\n",
                &changes,
                "--- a/p\n+++ b/p\n@@ -1,4 +1,5 @@\n-a\n+x\n+x\n 1\n 2\n 3\n@@ -6,4 +7,4 @@\n 5\n 6\n 7\n-b\n+y\n"
            ),
            Ok(true)
        )
    );
}
