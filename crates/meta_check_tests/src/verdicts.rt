//! What becomes of a text that is to be a description.
use bumpalo::Bump;
use meta_check::{MetaError, check};
use meta_lex::lex::{LexError, tokens};
use meta_reader::reader::{ReadError, read};
use std::alloc::Global;

/// What tokens, items and the rules say of a text.
#[derive(Clone, Copy, Debug, PartialEq, Eq)]
pub enum Verdict {
    /// No memory was left, or the text is too long for numbers of 32 bits.
    Neither,
    /// No token begins at the byte.
    Byte(u32),
    /// The run is none of a description.
    Run(u32),
    /// The rule is broken at the item.
    Breaks(u8, u32),
    /// The numbers of productions, functions and equations.
    Holds(usize, usize, usize),
}

/// The verdict on a text.
pub fn verdict_on(alloc: Global, text: &[u8]) -> Verdict {
    if text.len() >= 4294967295 {
        return Verdict::Neither;
    }
    let arena = Bump::new(alloc);
    let list = match tokens(alloc, &arena, text) {
        Ok(list) => list,
        Err(LexError::BadByte { offset }) => return Verdict::Byte(offset),
        Err(LexError::Memory) => return Verdict::Neither,
    };
    let items = match read(alloc, &arena, &list) {
        Ok(items) => items,
        Err(ReadError::BadItem { index }) => return Verdict::Run(index),
        Err(ReadError::Memory) => return Verdict::Neither,
    };
    match check(alloc, &arena, items) {
        Ok(found) => Verdict::Holds(
            found.grammar.productions.len(),
            found.functions.len(),
            found.equations.len(),
        ),
        Err(MetaError::Rule { rule, item }) => Verdict::Breaks(rule, item),
        Err(MetaError::Memory) => Verdict::Neither,
    }
}
