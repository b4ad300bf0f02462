//! What a chart is of.
use source_lex::{LexKind, Symbol};

/// A grammar with numbers, and the kinds of the lexemes of a source.
#[derive(Clone, Copy)]
pub struct Source<'a> {
    /// The alternatives of each nonterminal, by its number.
    pub nonterminals: &'a [&'a [&'a [Symbol]]],
    /// The kind of each lexeme.
    pub kinds: &'a [LexKind],
}
