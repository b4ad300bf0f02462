//! The places of nodes in the frames of their procedures.

/// Where a node keeps its data, its bindings and its record: offsets in words of 8 bytes from the
/// first word of the frame of its procedure. Each list is as long as its part of the node's row,
/// empty where that is unreached, and its offsets are consecutive and ascending.
#[derive(Clone, Copy, Debug, PartialEq, Eq)]
pub struct NodePlaces<'a> {
    /// The number of the action node, from 0.
    pub node: u32,
    /// The data that it is given.
    pub g: &'a [u32],
    /// The bindings that it receives, a word for each token of its row, tokens ascending.
    pub h: &'a [u32],
    /// The data that it completes with.
    pub o: &'a [u32],
    /// The bindings that it completes with, tokens ascending.
    pub p: &'a [u32],
    /// The data that it escapes with.
    pub e: &'a [u32],
    /// The first of 8 words for the record of an alternative or of a trap.
    pub keep: u32,
}

/// The frame of a procedure: of the action itself, or of the body of a closure or of an
/// `unfolding`.
#[derive(Clone, Copy, Debug, PartialEq, Eq)]
pub struct Procedure<'a> {
    /// The number of the action node that is its root.
    pub root: u32,
    /// The words of its frame.
    pub words: u32,
    /// The places of its nodes, in the order of their numbers.
    pub places: &'a [NodePlaces<'a>],
}

/// The frames of the procedures of an action, in the order of their roots: that of the action
/// itself is the first.
#[derive(Clone, Copy, Debug, PartialEq, Eq)]
pub struct Layout<'a> {
    /// One for each procedure.
    pub procedures: &'a [Procedure<'a>],
}
