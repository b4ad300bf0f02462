//! What an inference stands on, and what a visit of a node finds.
use action_terms::Graph;
use bumpalo::Bump;
use sort_rules::demands::Demand;
use sort_rules::named::Named;
use std::alloc::Global;

/// What an inference stands on.
#[derive(Clone, Copy)]
pub struct Task<'t, 'a> {
    /// For what isn't in the arena.
    pub alloc: Global,
    /// For the parts of the table.
    pub arena: &'a Bump,
    /// The graph of the action.
    pub graph: &'t Graph<'a>,
    /// Its `allocate` nodes, and the bodies of its closures.
    pub named: &'t Named,
}

/// What the last visit of a node found.
#[derive(Drop)]
pub struct Found<'a> {
    /// The nodes that the node gives data to. What these end with, it reads.
    pub given: Vec<u32>,
    /// The demands that weren't met.
    pub raised: Vec<Demand<'a>>,
}

impl<'a> Found<'a> {
    /// Nothing yet.
    pub fn new(alloc: Global) -> Found<'a> {
        Found {
            given: Vec::new(alloc),
            raised: Vec::new(alloc),
        }
    }
}
