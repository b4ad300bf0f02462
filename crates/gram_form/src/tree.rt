//! Trees of phrases, in an arena.

/// A phrase: an alternative of a production, over a span of lexemes.
#[cycle(tree)]
#[derive(Clone, Copy)]
pub struct Tree<'a> {
    /// The number of the production, from 0.
    pub production: u32,
    /// The number of the alternative within the production, from 0.
    pub alternative: u32,
    /// What stands for each part of the alternative.
    pub parts: &'a [TreePart<'a>],
    /// How many lexemes stand before the phrase.
    pub start: u32,
    /// How many lexemes stand before what follows the phrase.
    pub end: u32,
}

/// What stands for a part of an alternative.
#[cycle(tree)]
#[derive(Clone, Copy)]
pub enum TreePart<'a> {
    /// The lexeme with this number, from 0.
    Word(u32),
    /// A phrase.
    Sub(&'a Tree<'a>),
}
