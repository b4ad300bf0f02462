//! Which nodes have code.

ghost use Rattle.std.specs.Prelude.{◌≡◌, ℕ, ◌<◌, [], ◌∷◌, length, slice_get, IfOk};
ghost use Rattle.action_terms.specs.Actions.{Simple, node_at};
ghost use Rattle.action_terms.specs.Forms.{AreItems, HasPrimitiveOperands, item_at, items_at, primitive_viewed};
ghost use Rattle.action_terms.specs.Meaning.{action_of};
ghost use Rattle.rv_yield.specs.Registers.{AreNeeds};
ghost use Rattle.rv_codegen.specs.Built.{are_built, is_built_node, unbuilt};

use acg_base::Memory;
use action_terms::{Graph, NodeView, PrimitiveView, YielderView};
use rv_yield::{registers_needed, registers_of};
use std::alloc::Global;

// whether there is code for an item of data
fn is_built_item(graph: &Graph<'_>, needs: &[usize], item: u32) -> bool
    requires within { item < length graph.now.yielders }
    requires needs { AreNeeds graph.now.yielders needs.now }
    ensures { result ≡ are_built (item_at graph.now.yielders item ∷ []) }
{
    match graph.yielder_view(item as usize) {
        YielderView::Them => true,
        _ => registers_of(graph, needs, item).is_some(),
    }
}

// whether there is code for data
fn are_built(graph: &Graph<'_>, needs: &[usize], items: &[u32]) -> bool
    requires items { AreItems graph.now.yielders items.now }
    requires needs { AreNeeds graph.now.yielders needs.now }
    ensures { result ≡ are_built (items_at graph.now.yielders items.now) }
{
    for item in items {
        if !is_built_item(graph, needs, *item) {
            return false;
        }
    }
    true
}

// whether there is code for a node that is done in one step
fn is_built_primitive(graph: &Graph<'_>, needs: &[usize], primitive: PrimitiveView<'_>) -> bool
    requires operands { HasPrimitiveOperands graph.now.yielders primitive }
    requires needs { AreNeeds graph.now.yielders needs.now }
    ensures { result
        ≡ is_built_node (Simple (primitive_viewed graph.now.yielders primitive.entry)) }
{
    match primitive {
        PrimitiveView::Complete
        | PrimitiveView::Commit
        | PrimitiveView::Allocate
        | PrimitiveView::Receive
        | PrimitiveView::Regive
        | PrimitiveView::Failing
        | PrimitiveView::Escape => true,
        PrimitiveView::Give { items } | PrimitiveView::EscapeWith { items } => {
            are_built(graph, needs, items)
        }
        PrimitiveView::Check { yielder } | PrimitiveView::Send { yielder } => {
            registers_of(graph, needs, yielder).is_some()
        }
        PrimitiveView::Store { datum, cell } => {
            registers_of(graph, needs, datum).is_some()
                && registers_of(graph, needs, cell).is_some()
        }
        _ => false,
    }
}

// whether there is code for node number k
fn is_built(graph: &Graph<'_>, needs: &[usize], k: usize) -> bool
    requires node { k < length graph.now.nodes }
    requires needs { AreNeeds graph.now.yielders needs.now }
    ensures { result ≡ is_built_node (node_at (action_of graph.now) k) }
{
    match graph.view(k) {
        NodeView::Simple(primitive) => is_built_primitive(graph, needs, primitive),
        NodeView::Both { .. }
        | NodeView::Phases { .. }
        | NodeView::Either { .. }
        | NodeView::Trapping { .. }
        | NodeView::Unfolding { .. }
        | NodeView::Unfold { .. } => true,
        _ => false,
    }
}

/// The first node whose code can't be generated, by its number from 0. An `Err` says want of
/// memory.
pub fn first_unbuilt(alloc: Global, graph: &Graph<'_>) -> Result<Option<u32>, Memory>
    ensures { IfOk result (λ first. first ≡ slice_get (unbuilt (action_of graph.now)) 0) }
{
    let needs = registers_needed(alloc, graph)?;
    for k in 0..graph.nodes().len() {
        if !is_built(graph, &needs, k) {
            return Ok(Some(k as u32));
        }
    }
    Ok(None)
}
