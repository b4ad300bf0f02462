//! What a step of a part does, before it is done.

use crate::ends::End;
use crate::part::Frame;
use action_values::{Binding, Datum};

/// What a node receives.
#[derive(Clone, Copy)]
pub struct Received<'a> {
    /// The data that it is given.
    pub given: &'a [Datum<'a>],
    /// The bindings, tokens ascending.
    pub bound: &'a [Binding<'a>],
}

/// The storage, and the integers of the input that are left.
#[derive(Clone, Copy)]
pub struct Outside<'b, 'a> {
    /// What each cell holds, by its number: nothing where it is unset.
    pub cells: &'b [Option<Datum<'a>>],
    /// The integers that are left.
    pub input: &'b [i64],
}

/// What stands in the place of a part after its step.
#[derive(Clone, Copy)]
pub enum Next<'a> {
    /// It has ended so.
    Ended(End<'a>),
    /// A node is to be performed.
    Run {
        /// The node.
        node: u32,
        /// What it receives.
        received: Received<'a>,
    },
    /// A node is to be performed within one more frame.
    Within {
        /// The frame.
        frame: Frame<'a>,
        /// The node.
        node: u32,
        /// What it receives.
        received: Received<'a>,
    },
    /// The two parts of `and` or `moreover` are to be performed.
    Fork {
        /// The node of the two.
        node: u32,
        /// The left part.
        left: u32,
        /// The right part.
        right: u32,
        /// What both receive.
        received: Received<'a>,
    },
}

/// What a step does beside the tree.
#[derive(Clone, Copy)]
pub enum Change<'a> {
    /// Nothing.
    Silent,
    /// It commits.
    Commits,
    /// A cell is allocated, and it commits.
    Allocates,
    /// An integer is taken from the input, and it commits.
    Takes,
    /// No integer was left.
    Misses,
    /// A cell holds a datum, and it commits.
    Puts {
        /// The number of the cell.
        cell: usize,
        /// The datum.
        datum: Datum<'a>,
    },
    /// A message is sent, and it commits.
    Sends(i64),
}

/// A step of a part.
#[derive(Clone, Copy)]
pub struct Move<'a> {
    /// What it does beside the tree.
    pub change: Change<'a>,
    /// What stands there after it.
    pub next: Next<'a>,
}
