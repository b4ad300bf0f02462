//! Picks of sources with as many lexemes as there may be.
use crate::sources::{answer, has_too_many, is_tree};
use bumpalo::Bump;
use gram_form::{Part, Production};
use std::alloc::Global;
use std::test::Fail;

// So many times `x`, with blanks between.
fn source_of(alloc: Global, count: u32) -> Result<Vec<u8>, Fail> {
    let mut source = Vec::new(alloc);
    for _ in 0..count {
        source.push(b'x')?;
        source.push(b' ')?;
    }
    Ok(source)
}

#[test]
fn a_list_of_4096_has_a_tree_and_one_of_4097_no_lexemes(rt: HostRuntime) -> Result<(), Fail> {
    let alloc = rt.alloc();
    let arena = Bump::new(alloc);
    let list = [Production {
        name: b"L",
        alternatives: &[&[], &[Part::Nonterm(b"L"), Part::Literal(b"x")]],
    }];
    let source = source_of(alloc, 4096)?;
    assert!(rt; is_tree(&answer(alloc, &arena, &list, &source)?, 0, 1, 4096));
    let source = source_of(alloc, 4097)?;
    assert!(rt; has_too_many(alloc, &arena, &list, &source)?);
    Ok(())
}
