//! Data and bindings, in an arena.

/// A datum.
#[cycle(datum)]
#[derive(Clone, Copy)]
pub enum Datum<'a> {
    /// An integer.
    Number(i64),
    /// A truth-value.
    Truth(bool),
    /// A cell, by its number from 0.
    Cell(usize),
    /// A closure.
    Closure {
        /// The root of its body.
        body: u32,
        /// The bindings where it was made, tokens ascending.
        bound: &'a [Binding<'a>],
        /// The token that is bound to the closure itself, if any.
        own: Option<&'a [u8]>,
    },
}

/// A token and what it is bound to.
#[cycle(datum)]
#[derive(Clone, Copy)]
pub struct Binding<'a> {
    /// The bytes of the token.
    pub token: &'a [u8],
    /// What it is bound to.
    pub datum: Datum<'a>,
}
