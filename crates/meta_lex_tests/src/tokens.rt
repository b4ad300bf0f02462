//! Texts and their tokens, as the rules for tokens give them.
use bumpalo::Bump;
use meta_lex::lex::{LexError, tokens};
use meta_lex::token::{Token, TokenKind};
use std::process::Abort;
use std::test::Fail;

fn expect_tokens(rt: &impl Abort, list: &[Token<'_>], expected: &[(TokenKind, &[u8], u32)]) {
    assert_eq!(rt; list.len(), expected.len());
    for (token, (kind, bytes, offset)) in list.iter().zip(expected) {
        assert_eq!(rt; token.kind, *kind);
        assert_eq!(rt; token.bytes, *bytes);
        assert_eq!(rt; token.offset, *offset);
    }
}

#[test]
fn reads_each_kind(rt: HostRuntime) -> Result<(), Fail> {
    let arena = Bump::new(rt.alloc());
    let read = tokens(rt.alloc(), &arena, b" bind \"x\"\tto -07,[[\r\nand-2 _]] ")?;
    let expected: [(TokenKind, &[u8], u32); 9] = [
        (TokenKind::Word, b"bind", 1),
        (TokenKind::Quoted, b"\"x\"", 6),
        (TokenKind::Word, b"to", 10),
        (TokenKind::Number, b"-07", 13),
        (TokenKind::Symbol, b",", 16),
        (TokenKind::Symbol, b"[[", 17),
        (TokenKind::Word, b"and-2", 21),
        (TokenKind::Symbol, b"_", 27),
        (TokenKind::Symbol, b"]]", 28),
    ];
    expect_tokens(&rt, read.list, &expected);
    Ok(())
}

#[test]
fn reads_an_empty_text(rt: HostRuntime) -> Result<(), Fail> {
    let arena = Bump::new(rt.alloc());
    let read = tokens(rt.alloc(), &arena, b" \n")?;
    assert_eq!(rt; read.list.len(), 0);
    Ok(())
}

#[test]
fn refuses_the_first_bad_byte(rt: HostRuntime) {
    let arena = Bump::new(rt.alloc());
    let bad: [(&[u8], u32); 6] = [
        (b"send ?", 5),
        (b"1 --2", 2),
        (b"bind \"\" to", 5),
        (b"\"a b\"", 0),
        (b"\"a", 0),
        (b"a [b]", 2),
    ];
    for (text, offset) in bad {
        let refused = tokens(rt.alloc(), &arena, text).err();
        assert_eq!(rt; refused, Some(LexError::BadByte { offset }));
    }
}
