//! Tests of texts with many brackets and operators.

use super::support::is_satisfied;
use std::alloc::{AllocError, Global};

/// The number of each.
const COUNT: usize = 1_000_000;

/// Returns a text between `COUNT` copies of `before` and `COUNT` copies of `behind`.
fn repeated(alloc: Global, before: &str, text: &str, behind: &str) -> Result<String, AllocError> {
    let mut whole = String::new(alloc);
    for _ in 0..COUNT {
        whole.push_str(before)?;
    }
    whole.push_str(text)?;
    for _ in 0..COUNT {
        whole.push_str(behind)?;
    }
    Ok(whole)
}

#[test]
fn a_million_brackets(rt: HostRuntime) -> Result<(), AllocError> {
    let text = repeated(rt.alloc(), "(", "MIT", ")")?;
    assert!(rt; is_satisfied(&rt, rt.alloc(), &text, &["MIT"]));
    Ok(())
}

#[test]
fn a_chain_of_a_million(rt: HostRuntime) -> Result<(), AllocError> {
    let text = repeated(rt.alloc(), "ISC OR ", "MIT", "/X")?;
    assert!(rt; is_satisfied(&rt, rt.alloc(), &text, &["X"]));
    Ok(())
}

#[test]
fn a_million_levels_to_each_side(rt: HostRuntime) -> Result<(), AllocError> {
    let left = repeated(rt.alloc(), "(", "MIT", " OR a) AND b")?;
    assert!(rt; is_satisfied(&rt, rt.alloc(), &left, &["a", "b"]));
    let right = repeated(rt.alloc(), "a AND (b OR ", "MIT", ")")?;
    assert!(rt; !is_satisfied(&rt, rt.alloc(), &right, &["MIT"]));
    Ok(())
}
