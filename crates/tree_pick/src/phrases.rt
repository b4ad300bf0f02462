//! Phrases of a source, and what is chosen at them.

/// A phrase: the lexemes from the start to before the end, as the nonterminal.
#[derive(Clone, Copy, Debug, PartialEq, Eq, Hash)]
pub struct Span {
    pub nonterm: u32,
    pub start: u32,
    pub end: u32,
}

/// An alternative that is taken, and where it ends.
#[derive(Clone, Copy, Debug, PartialEq, Eq)]
pub struct Taken {
    pub production: u32,
    pub alternative: u32,
    pub end: u32,
}

/// A choice that can be made, and whether it is the only one.
#[derive(Clone, Copy, Debug)]
pub struct Choice<T> {
    pub first: T,
    pub only: bool,
}

/// What an alternative begins with.
#[derive(Clone, Copy, Debug)]
pub enum Corner {
    /// No phrase: it is empty, or begins with the lexeme at the place.
    Leaf { start: u32 },
    /// A phrase of the nonterminal that ends at the place.
    Branch { from: u32, at: u32 },
}
