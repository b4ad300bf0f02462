//! A node that runs, and what its operands yield.
ghost use Rattle.std.specs.Prelude.{◌≡◌, IfOk, option_map};
ghost use Rattle.action_terms.specs.Forms.{yielder_at, items_at, IsDatum};
ghost use Rattle.action_values.specs.Values.{meant, data_of};
ghost use Rattle.action_sos.specs.Running.{IsContext, IsYielded, AreYielded};

use crate::moves::{Outside, Received};
use acg_base::Memory;
use action_terms::Graph;
use action_values::Datum;
use action_values::yielding::{self, Context};
use bumpalo::Bump;
use std::alloc::Global;

/// A node that runs, and what it meets.
#[derive(Clone, Copy)]
pub struct Running<'b, 'a> {
    /// Where new data and bindings are placed.
    pub arena: &'a Bump,
    /// The graph of the node.
    pub graph: &'b Graph<'a>,
    /// The number of the node.
    pub number: u32,
    /// What it receives.
    pub received: Received<'a>,
    /// What is outside.
    pub outside: Outside<'b, 'a>,
}

impl<'b, 'a> Running<'b, 'a> {
    // what the yielders of the node are evaluated with
    fn context(&self) -> Context<'a, 'b>
        ensures { IsContext self.now result }
    {
        Context {
            graph: self.graph,
            given: self.received.given,
            bound: self.received.bound,
            cells: self.outside.cells,
        }
    }

    /// The datum that the yielder of this number yields.
    pub fn yielded(&self, alloc: Global, yielder: u32) -> Result<Option<Datum<'a>>, Memory>
        requires { IsDatum self.now.graph.now.yielders yielder }
        ensures { IfOk result (λ x. IsYielded self.now
            (yielder_at self.now.graph.now.yielders yielder) (option_map meant x)) }
    {
        yielding::yielded(alloc, &self.context(), yielder)
    }

    /// The data that the items of these numbers yield.
    pub fn yielded_items(
        &self,
        alloc: Global,
        items: &[u32],
    ) -> Result<Option<&'a [Datum<'a>]>, Memory>
        ensures { IfOk result (λ d. AreYielded self.now
            (items_at self.now.graph.now.yielders items.now)
            (option_map (λ x. data_of x.now) d)) }
    {
        yielding::yielded_items(alloc, self.arena, &self.context(), items)
    }
}
