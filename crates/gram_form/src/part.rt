//! The parts of a grammar.

/// A part of an alternative.
#[derive(Clone, Copy, Debug, PartialEq, Eq, PartialOrd, Ord)]
pub enum Part<'a> {
    /// A text that stands in sources as it is.
    Literal(&'a [u8]),
    /// A phrase of the production with this name.
    Nonterm(&'a [u8]),
    /// An identifier of the source.
    Identifier,
    /// A numeral of the source.
    Numeral,
}

/// A nonterminal, with its alternatives.
#[derive(Clone, Copy, Debug)]
pub struct Production<'a> {
    /// The name of the nonterminal.
    pub name: &'a [u8],
    /// The alternatives, each a list of parts.
    pub alternatives: &'a [&'a [Part<'a>]],
}
