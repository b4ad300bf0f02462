//! The `allocate` nodes of an action, and the bodies of its closures.
ghost use Rattle.std.specs.Prelude.{◌≡◌, ◌<◌, ◌++◌, ◌∷◌, [], List, length, OnOk, IfOk, reverse, if◌then◌else◌};
ghost use Rattle.action_terms.specs.Numbering.{ListedYielder};
ghost use Rattle.action_terms.specs.Forms.{IsDatum, AreItems, HasOperands, HasPrimitiveOperands, item_at, node_viewed, primitive_viewed, yielder_at, items_at as listed_items};
ghost use Rattle.action_terms.specs.Meaning.{action_of};
ghost use Rattle.action_terms.specs.Steps.{closures_in, closures_in_items, closures_of};
ghost use Rattle.sort_rules.specs.Demands.{allocate_nodes, closures_at, closure_bodies, is_allocate};

use crate::judging::push_closures;
use crate::node_list::NodeList;
use crate::postorder::listed;
use acg_base::Memory;
use action_terms::{Graph, NodeView, PrimitiveView, YielderView};
use std::alloc::Global;

/// What `store` and `enact` may speak of.
#[derive(Drop)]
pub struct Named {
    /// The `allocate` nodes of the action, ascending.
    pub cells: NodeList,
    /// The bodies of its closures.
    pub bodies: NodeList,
}

// puts the closures in a yielder behind a list, the last one first
fn push_closures_in(
    alloc: Global,
    graph: &Graph<'_>,
    number: u32,
    bodies: &mut Vec<u32>,
) -> Result<(), Memory>
    requires { IsDatum graph.now.yielders number }
    ensures { OnOk result (bodies.new.items ≡ bodies.old.items
        ++ reverse (closures_in (yielder_at graph.now.yielders number))) }
{
    let views = listed(alloc, graph, number)?;
    push_closures(bodies, views.as_slice())?;
    Ok(())
}

// puts the closures in an item behind a list, the last one first
fn push_closures_in_item(
    alloc: Global,
    graph: &Graph<'_>,
    number: u32,
    bodies: &mut Vec<u32>,
) -> Result<(), Memory>
    requires { number < length graph.now.yielders }
    ensures { OnOk result (bodies.new.items ≡ bodies.old.items
        ++ reverse (closures_in_items (item_at graph.now.yielders number ∷ []))) }
{
    match graph.yielder_view(number as usize) {
        YielderView::Them => Ok(()),
        _ => push_closures_in(alloc, graph, number, bodies),
    }
}

// puts the closures in data behind a list, the last one first
fn push_closures_in_data(
    alloc: Global,
    graph: &Graph<'_>,
    numbers: &[u32],
    bodies: &mut Vec<u32>,
) -> Result<(), Memory>
    requires { AreItems graph.now.yielders numbers.now }
    ensures { OnOk result (bodies.new.items ≡ bodies.old.items
        ++ reverse (closures_in_items (listed_items graph.now.yielders numbers.now))) }
{
    for i in (0..numbers.len()).rev() {
        push_closures_in_item(alloc, graph, numbers[i], bodies)?;
    }
    Ok(())
}

// puts the closures that a primitive makes behind a list, the last one first
fn push_primitive_closures(
    alloc: Global,
    graph: &Graph<'_>,
    primitive: PrimitiveView<'_>,
    bodies: &mut Vec<u32>,
) -> Result<(), Memory>
    requires { HasPrimitiveOperands graph.now.yielders primitive }
    ensures { OnOk result (bodies.new.items ≡ bodies.old.items
        ++ reverse (closures_of (primitive_viewed graph.now.yielders primitive.entry))) }
{
    match primitive {
        PrimitiveView::Give { items } => push_closures_in_data(alloc, graph, items, bodies),
        PrimitiveView::EscapeWith { items } => push_closures_in_data(alloc, graph, items, bodies),
        PrimitiveView::Check { yielder } => push_closures_in(alloc, graph, yielder, bodies),
        PrimitiveView::Bind { yielder, .. } => push_closures_in(alloc, graph, yielder, bodies),
        PrimitiveView::BindRec { body, .. } => {
            bodies.push(body)?;
            Ok(())
        }
        PrimitiveView::Store { datum, cell } => {
            push_closures_in(alloc, graph, cell, bodies)?;
            push_closures_in(alloc, graph, datum, bodies)
        }
        PrimitiveView::Send { yielder } => push_closures_in(alloc, graph, yielder, bodies),
        _ => Ok(()),
    }
}

/// Puts the bodies of the closures that a node makes behind a list, the last one first.
pub fn push_node_closures(
    alloc: Global,
    graph: &Graph<'_>,
    view: NodeView<'_>,
    bodies: &mut Vec<u32>,
) -> Result<(), Memory>
    requires { HasOperands graph.now.yielders view }
    ensures { OnOk result (bodies.new.items ≡ bodies.old.items
        ++ reverse (closures_at (node_viewed graph.now.yielders view.entry))) }
{
    match view {
        NodeView::Simple(primitive) => push_primitive_closures(alloc, graph, primitive, bodies),
        NodeView::Enact { yielder } => push_closures_in(alloc, graph, yielder, bodies),
        NodeView::Apply { yielder, items } => {
            push_closures_in_data(alloc, graph, items, bodies)?;
            push_closures_in(alloc, graph, yielder, bodies)
        }
        NodeView::Branch { yielder, .. } => push_closures_in(alloc, graph, yielder, bodies),
        _ => Ok(()),
    }
}

// the bodies of the closures of an action
fn bodies_of(alloc: Global, graph: &Graph<'_>) -> Result<Vec<u32>, Memory>
    ensures { IfOk result (λ bodies. bodies.items ≡ closure_bodies (action_of graph.now)) }
{
    let mut bodies = Vec::new(alloc);
    for node in (0..graph.nodes().len()).rev() {
        push_node_closures(alloc, graph, graph.view(node), &mut bodies)?;
    }
    bodies.reverse();
    Ok(bodies)
}

// whether the node allocates a cell
fn is_allocate(view: NodeView<'_>) -> bool
    ensures { (ls : List ListedYielder) → result ≡ is_allocate (node_viewed ls view.entry) }
{
    matches!(view, NodeView::Simple(PrimitiveView::Allocate))
}

// puts a node behind a list, if it allocates a cell
fn push_cell(node: u32, view: NodeView<'_>, cells: &mut Vec<u32>) -> Result<(), Memory>
    ensures { OnOk result ((ls : List ListedYielder) → cells.new.items ≡ cells.old.items
        ++ (if is_allocate (node_viewed ls view.entry) then node ∷ [] else [])) }
{
    if is_allocate(view) {
        cells.push(node)?;
    }
    Ok(())
}

// the `allocate` nodes of an action, ascending
fn cells_of(alloc: Global, graph: &Graph<'_>) -> Result<Vec<u32>, Memory>
    ensures { IfOk result (λ cells. cells.items ≡ allocate_nodes (action_of graph.now)) }
{
    let mut cells = Vec::new(alloc);
    for node in 0..graph.nodes().len() {
        push_cell(node as u32, graph.view(node), &mut cells)?;
    }
    Ok(cells)
}

/// What `store` and `enact` of an action may speak of.
pub fn named_of(alloc: Global, graph: &Graph<'_>) -> Result<Named, Memory>
    ensures cells { IfOk result (λ named. named.cells ≡ allocate_nodes (action_of graph.now)) }
    ensures bodies { IfOk result (λ named. named.bodies ≡ closure_bodies (action_of graph.now)) }
{
    let count = graph.nodes().len();
    let cells = cells_of(alloc, graph)?;
    let bodies = bodies_of(alloc, graph)?;
    Ok(Named {
        cells: NodeList::make(alloc, cells, count)?,
        bodies: NodeList::make(alloc, bodies, count)?,
    })
}
