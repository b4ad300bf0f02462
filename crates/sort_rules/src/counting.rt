//! How many yielders nodes have.
ghost use Rattle.std.specs.Prelude.{◌≡◌, ◌<◌, ◌≤◌, [], ◌∷◌, length, IfOk};
ghost use Rattle.action_terms.specs.Forms.{IsDatum, AreItems, HasOperands, HasPrimitiveOperands, item_at, items_at, node_viewed, primitive_viewed, yielder_at};
ghost use Rattle.action_terms.specs.Meaning.{action_of};
ghost use Rattle.action_terms.specs.Need.{yielder_count, items_yielder_count, primitive_yielder_count, node_yielder_count, most_yielders};

use crate::postorder::listed;
use acg_base::Memory;
use action_terms::{Graph, NodeView, PrimitiveView, YielderView};
use std::alloc::Global;

// how many yielders are in a yielder of one datum, itself among them
fn count_datum(alloc: Global, graph: &Graph<'_>, number: u32) -> Result<usize, Memory>
    requires { IsDatum graph.now.yielders number }
    ensures { IfOk result (λ count. count ≡ yielder_count (yielder_at graph.now.yielders number)) }
{
    Ok(listed(alloc, graph, number)?.len())
}

// how many are in an item
fn count_item(alloc: Global, graph: &Graph<'_>, number: u32) -> Result<usize, Memory>
    requires { number < length graph.now.yielders }
    ensures { IfOk result (λ count. count
        ≡ items_yielder_count (item_at graph.now.yielders number ∷ [])) }
{
    match graph.yielder_view(number as usize) {
        YielderView::Them => Ok(1),
        _ => count_datum(alloc, graph, number),
    }
}

// how many are in data
fn count_data(alloc: Global, graph: &Graph<'_>, numbers: &[u32]) -> Result<usize, Memory>
    requires items { AreItems graph.now.yielders numbers.now }
    requires few { items_yielder_count (items_at graph.now.yielders numbers.now) < 65536 }
    ensures { IfOk result (λ count. count
        ≡ items_yielder_count (items_at graph.now.yielders numbers.now)) }
{
    let mut count = 0;
    for i in (0..numbers.len()).rev() {
        count += count_item(alloc, graph, numbers[i])?;
    }
    Ok(count)
}

// how many a primitive has
fn count_in_primitive(
    alloc: Global,
    graph: &Graph<'_>,
    primitive: PrimitiveView<'_>,
) -> Result<usize, Memory>
    requires operands { HasPrimitiveOperands graph.now.yielders primitive }
    requires few { primitive_yielder_count
        (primitive_viewed graph.now.yielders primitive) < 65536 }
    ensures { IfOk result (λ count. count
        ≡ primitive_yielder_count (primitive_viewed graph.now.yielders primitive.entry)) }
{
    match primitive {
        PrimitiveView::Give { items } => count_data(alloc, graph, items),
        PrimitiveView::EscapeWith { items } => count_data(alloc, graph, items),
        PrimitiveView::Check { yielder } => count_datum(alloc, graph, yielder),
        PrimitiveView::Bind { yielder, .. } => count_datum(alloc, graph, yielder),
        PrimitiveView::BindRec { .. } => Ok(1),
        PrimitiveView::Store { datum, cell } => {
            Ok(count_datum(alloc, graph, datum)? + count_datum(alloc, graph, cell)?)
        }
        PrimitiveView::Send { yielder } => count_datum(alloc, graph, yielder),
        _ => Ok(0),
    }
}

// how many a node has
fn count_in_node(alloc: Global, graph: &Graph<'_>, view: NodeView<'_>) -> Result<usize, Memory>
    requires operands { HasOperands graph.now.yielders view }
    requires few { node_yielder_count (node_viewed graph.now.yielders view) < 65536 }
    ensures { IfOk result (λ count. count
        ≡ node_yielder_count (node_viewed graph.now.yielders view.entry)) }
{
    match view {
        NodeView::Simple(primitive) => count_in_primitive(alloc, graph, primitive),
        NodeView::Enact { yielder } => count_datum(alloc, graph, yielder),
        NodeView::Apply { yielder, items } => {
            Ok(count_datum(alloc, graph, yielder)? + count_data(alloc, graph, items)?)
        }
        NodeView::Branch { yielder, .. } => count_datum(alloc, graph, yielder),
        _ => Ok(0),
    }
}

/// The greatest number of yielders of one action node; those in the body of a closure are the
/// body's. An `Err` says want of memory.
pub fn most_yielders(alloc: Global, graph: &Graph<'_>) -> Result<u32, Memory>
    ensures most { IfOk result (λ most. most ≡ most_yielders (action_of graph.now)) }
    ensures few { IfOk result (λ most. most < 65536) }
{
    let mut most: usize = 0;
    for k in (0..graph.nodes().len()).rev() {
        most = most.max(count_in_node(alloc, graph, graph.view(k))?);
    }
    Ok(most as u32)
}
