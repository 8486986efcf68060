//! Tests of the equality of tokens, of their positions and of texts that are not tokens.

use cargo_platform::{Spanned, Token, TokenFault, TokenFaultKind};

#[test]
fn tokens_are_equal_in_all_parts(rt: HostRuntime) {
    let marked = Token::Ident(true, "a");
    let plain = Token::Ident(false, "a");
    assert!(rt; marked == Token::Ident(true, "a"));
    assert!(rt; marked != plain && plain != Token::String("a"));
    let at = |token| Spanned {
        token,
        start: 0,
        end: 3,
    };
    assert!(rt; at(marked) == at(marked) && at(marked) != at(plain));
    let shorter = Spanned {
        token: marked,
        start: 0,
        end: 2,
    };
    assert!(rt; at(marked) != shorter);
    let fault = |kind, at| TokenFault { kind, at };
    let missing = TokenFaultKind::MissingIdentifier;
    assert!(rt; fault(missing, 4) == fault(missing, 4) && fault(missing, 4) != fault(missing, 3));
    assert!(rt; TokenFaultKind::UnexpectedChar('a') != TokenFaultKind::UnexpectedChar('b'));
}
