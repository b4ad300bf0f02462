//! Parts of a marked table: those of a table, or a clash.
use crate::set::Set;

/// A tuple in a marked table.
#[derive(Clone, Copy, Debug, PartialEq, Eq)]
pub enum MarkedTuple<'a> {
    /// No tuple comes there.
    Unreached,
    /// The set of each place.
    List(&'a [Set<'a>]),
    /// Tuples of different lengths, or of more than 64 places, come there.
    Clash,
}

/// A token and what may be bound to it.
pub type BoundSet<'a> = (&'a [u8], Set<'a>);

/// Bindings in a marked table.
#[derive(Clone, Copy, Debug, PartialEq, Eq)]
pub enum MarkedBinds<'a> {
    /// No bindings come there.
    Unreached,
    /// The set of each token, tokens ascending.
    Map(&'a [BoundSet<'a>]),
    /// Bindings of different domains, or of more than 64 tokens, come there, or a union whose
    /// domains meet.
    Clash,
}

/// The most components of a part.
pub const MOST_COMPONENTS: usize = 64;
