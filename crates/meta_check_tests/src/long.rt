//! Descriptions of a megabyte.
use crate::verdicts::{Verdict, verdict_on};
use std::alloc::{AllocError, Global};
use std::test::Fail;

// A description of so many nonterminals, each with a function of its own and two equations.
fn long_description(alloc: Global, count: u32) -> Result<Vec<u8>, AllocError> {
    let mut text = Vec::new(alloc);
    text.extend_from_slice(b"grammar\n")?;
    for n in 0..count {
        let line = format!(in alloc; "N{n} = [[ \"({n}\" N{n} \")\" ]] | [[ numeral ]] .\n")?;
        text.extend_from_slice(line.as_bytes())?;
    }
    text.extend_from_slice(b"semantics\n")?;
    for n in 0..count {
        let line = format!(in alloc; "f{n} _ : N{n} .\n")?;
        text.extend_from_slice(line.as_bytes())?;
    }
    for n in 0..count {
        let line = format!(in alloc; "f{n} [[ \"({n}\" X:N{n} \")\" ]] = f{n} X .\n")?;
        text.extend_from_slice(line.as_bytes())?;
        let line = format!(in alloc; "f{n} [[ V:numeral ]] = give value of V .\n")?;
        text.extend_from_slice(line.as_bytes())?;
    }
    text.extend_from_slice(b"end .\n")?;
    Ok(text)
}

// A description of one nonterminal with so many alternatives, and an equation for each.
fn wide_description(alloc: Global, count: u32) -> Result<Vec<u8>, AllocError> {
    let mut text = Vec::new(alloc);
    text.extend_from_slice(b"grammar\nP = [[ numeral ]]\n")?;
    for n in 0..count {
        let line = format!(in alloc; "| [[ \"w{n}\" P \"and\" identifier ]]\n")?;
        text.extend_from_slice(line.as_bytes())?;
    }
    text.extend_from_slice(b".\nsemantics\nf _ : P .\n")?;
    for n in 0..count {
        let line = format!(in alloc; "f [[ \"w{n}\" X:P \"and\" I:identifier ]] = f X .\n")?;
        text.extend_from_slice(line.as_bytes())?;
    }
    text.extend_from_slice(b"end .\n")?;
    Ok(text)
}

#[test]
fn a_wide_description_meets_the_rules(rt: HostRuntime) -> Result<(), Fail> {
    let alloc = rt.alloc();
    let text = wide_description(alloc, 14000)?;
    assert!(rt; text.len() > 1000000);
    let verdict = verdict_on(alloc, text.as_slice());
    assert_eq!(rt; verdict, Verdict::Holds(1, 1, 14000));
    Ok(())
}

#[test]
fn a_long_description_meets_the_rules(rt: HostRuntime) -> Result<(), Fail> {
    let alloc = rt.alloc();
    let text = long_description(alloc, 8400)?;
    assert!(rt; text.len() > 1000000);
    let verdict = verdict_on(alloc, text.as_slice());
    assert_eq!(rt; verdict, Verdict::Holds(8400, 8400, 16800));
    Ok(())
}
