//! Tests that an error that is made by hand has no span.

use cargo_platform::{ParseError, ParseErrorKind};

#[test]
fn an_error_made_by_hand_has_no_span(rt: HostRuntime) {
    let error = ParseError::new(rt.alloc(), "a", ParseErrorKind::UnterminatedString);
    let error = error.expect(&rt, "memory");
    assert!(rt; error.span().is_none() && error.span_in("cfg(a)").is_none());
    assert!(rt; error.snippet(rt.alloc()).expect(&rt, "memory").is_none());
}
