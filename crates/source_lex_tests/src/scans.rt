//! Sources and their lexemes.
use bumpalo::Bump;
use gram_form::{Grammar, Part, Production};
use source_lex::{LexKind, Lexemes, ScanError, scan};
use std::alloc::Global;
use std::test::Fail;

// The lexemes of a source, by a grammar of fewer than 100 literals.
fn scanned<'a>(
    alloc: Global,
    arena: &'a Bump,
    grammar: &Grammar<'_>,
    source: &[u8],
) -> Result<Lexemes<'a>, ScanError> {
    if grammar.literals.len() >= 100 || source.len() >= 10000 {
        return Err(ScanError::Memory);
    }
    scan(alloc, arena, grammar, source)
}

fn is(lexemes: &Lexemes<'_>, at: usize, kind: LexKind, bytes: &[u8], offset: u32) -> bool {
    match lexemes.list.get(at) {
        None => false,
        Some(lexeme) => lexeme.kind == kind && lexeme.bytes == bytes && lexeme.offset == offset,
    }
}

#[test]
fn takes_literals_numerals_and_identifiers(rt: HostRuntime) -> Result<(), Fail> {
    let alloc = rt.alloc();
    let arena = Bump::new(alloc);
    let list = [Production {
        name: b"S",
        alternatives: &[&[Part::Literal(b"+")], &[Part::Numeral]],
    }];
    let grammar = Grammar::build(alloc, &arena, &list)?;
    let lexemes = scanned(alloc, &arena, &grammar, b"1+2")?;
    assert_eq!(rt; lexemes.list.len(), 3);
    assert!(rt; is(&lexemes, 0, LexKind::Numeral, b"1", 0));
    assert!(rt; is(&lexemes, 1, LexKind::Literal(0), b"+", 1));
    assert!(rt; is(&lexemes, 2, LexKind::Numeral, b"2", 2));
    let lexemes = scanned(alloc, &arena, &grammar, b"\t01 \r\n+ a_B9 ")?;
    assert_eq!(rt; lexemes.list.len(), 3);
    assert!(rt; is(&lexemes, 0, LexKind::Numeral, b"01", 1));
    assert!(rt; is(&lexemes, 1, LexKind::Literal(0), b"+", 6));
    assert!(rt; is(&lexemes, 2, LexKind::Identifier, b"a_B9", 8));
    Ok(())
}

#[test]
fn no_bytes_and_blanks_are_no_lexemes(rt: HostRuntime) -> Result<(), Fail> {
    let alloc = rt.alloc();
    let arena = Bump::new(alloc);
    let list = [Production {
        name: b"S",
        alternatives: &[&[Part::Literal(b"+")], &[Part::Numeral]],
    }];
    let grammar = Grammar::build(alloc, &arena, &list)?;
    assert_eq!(rt; scanned(alloc, &arena, &grammar, b"")?.list.len(), 0);
    assert_eq!(rt; scanned(alloc, &arena, &grammar, b" \t\r\n")?.list.len(), 0);
    Ok(())
}

#[test]
fn longest_is_taken_and_a_literal_wins_a_tie(rt: HostRuntime) -> Result<(), Fail> {
    let alloc = rt.alloc();
    let arena = Bump::new(alloc);
    let literals = [
        Part::Literal(b"out"),
        Part::Literal(b"<"),
        Part::Literal(b"<="),
        Part::Literal(b"1"),
    ];
    let list = [Production {
        name: b"S",
        alternatives: &[&literals, &[Part::Numeral]],
    }];
    let grammar = Grammar::build(alloc, &arena, &list)?;
    let lexemes = scanned(alloc, &arena, &grammar, b"out outer ou <=< 1 12")?;
    assert_eq!(rt; lexemes.list.len(), 7);
    assert!(rt; is(&lexemes, 0, LexKind::Literal(0), b"out", 0));
    assert!(rt; is(&lexemes, 1, LexKind::Identifier, b"outer", 4));
    assert!(rt; is(&lexemes, 2, LexKind::Identifier, b"ou", 10));
    assert!(rt; is(&lexemes, 3, LexKind::Literal(2), b"<=", 13));
    assert!(rt; is(&lexemes, 4, LexKind::Literal(1), b"<", 15));
    assert!(rt; is(&lexemes, 5, LexKind::Literal(3), b"1", 17));
    assert!(rt; is(&lexemes, 6, LexKind::Numeral, b"12", 19));
    Ok(())
}

#[test]
fn names_the_first_bad_byte(rt: HostRuntime) -> Result<(), Fail> {
    let alloc = rt.alloc();
    let arena = Bump::new(alloc);
    let list = [Production {
        name: b"S",
        alternatives: &[&[Part::Literal(b"+"), Part::Literal(b"")], &[Part::Numeral]],
    }];
    let grammar = Grammar::build(alloc, &arena, &list)?;
    let bad = scanned(alloc, &arena, &grammar, b"1+?").err();
    assert_eq!(rt; bad, Some(ScanError::BadByte { offset: 2 }));
    let bad = scanned(alloc, &arena, &grammar, b"a_1-2?").err();
    assert_eq!(rt; bad, Some(ScanError::BadByte { offset: 3 }));
    Ok(())
}

#[test]
fn counts_to_4096(rt: HostRuntime) -> Result<(), Fail> {
    let alloc = rt.alloc();
    let arena = Bump::new(alloc);
    let list = [Production {
        name: b"S",
        alternatives: &[&[Part::Literal(b";")], &[Part::Numeral]],
    }];
    let grammar = Grammar::build(alloc, &arena, &list)?;
    let semicolons = [b';'; 4098];
    let lexemes = scanned(alloc, &arena, &grammar, &semicolons[..4096])?;
    assert_eq!(rt; lexemes.list.len(), 4096);
    let many = scanned(alloc, &arena, &grammar, &semicolons[..4097]).err();
    assert_eq!(rt; many, Some(ScanError::Count));
    let mut bad = semicolons;
    bad[4097] = b'?';
    let first = scanned(alloc, &arena, &grammar, &bad).err();
    assert_eq!(rt; first, Some(ScanError::BadByte { offset: 4097 }));
    Ok(())
}
