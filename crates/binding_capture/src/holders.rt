//! The node under which each node stands, as a part or as the root of a body.
ghost use Rattle.std.specs.Prelude.{◌≡◌, ◌<◌, ◌++◌, ℕ, List, Option, Some, None, All, length, map, reverse, IfOk, OnOk};
ghost use Rattle.action_terms.specs.Forms.{HasOperands, NamesNodes, node_viewed};
ghost use Rattle.action_terms.specs.Meaning.{action_of};
ghost use Rattle.action_terms.specs.Numbering.{ListedYielder};
ghost use Rattle.sort_rules.specs.Demands.{closures_at};
ghost use Rattle.sort_rules.specs.Procedures.{parts_at};
ghost use Rattle.binding_capture.specs.Captures.{AreAbove};
ghost use Rattle.binding_capture.specs.Holders.{own_body, with_holder};

use acg_base::Memory;
use action_terms::{Graph, NodeView};
use sort_rules::named::push_node_closures;
use std::alloc::Global;

// puts the parts of a node, or the body of an `unfolding`, behind a list
fn push_parts(parts: &mut Vec<u32>, view: NodeView<'_>) -> Result<(), Memory>
    ensures { OnOk result ((ls : List ListedYielder) → parts.new.items ≡ parts.old.items
        ++ (parts_at (node_viewed ls view.entry) ++ own_body (node_viewed ls view.entry))) }
{
    match view {
        NodeView::Unfolding { body } => parts.push(body)?,
        NodeView::Furthermore { part } => parts.push(part)?,
        NodeView::Both { left, right, .. }
        | NodeView::Phases { left, right, .. }
        | NodeView::Either { left, right }
        | NodeView::Trapping { left, right }
        | NodeView::Branch { left, right, .. } => {
            parts.push(left)?;
            parts.push(right)?;
        }
        _ => {}
    }
    Ok(())
}

// the nodes that stand under a node
fn under(alloc: Global, graph: &Graph<'_>, view: NodeView<'_>) -> Result<Vec<u32>, Memory>
    requires { HasOperands graph.now.yielders view }
    ensures { let node = node_viewed graph.now.yielders view.entry in IfOk result (λ nodes. nodes.items
        ≡ reverse (closures_at node) ++ (parts_at node ++ own_body node)) }
{
    let mut nodes = Vec::new(alloc);
    push_node_closures(alloc, graph, view, &mut nodes)?;
    push_parts(&mut nodes, view)?;
    Ok(nodes)
}

// writes a node down for those that stand under it
fn set_holder(holders: &mut Vec<Option<u32>>, nodes: &[u32], holder: u32)
    requires { All (λ k. k < length holders.old.items) nodes.now }
    ensures { holders.new.items ≡ with_holder holder nodes.now holders.old.items }
{
    for i in 0..nodes.len() {
        holders[nodes[i] as usize] = Some(holder);
    }
}

/// The node under which each node stands, by the number of the node; the root stands under none.
pub(crate) fn holders(alloc: Global, graph: &Graph<'_>) -> Result<Vec<Option<u32>>, Memory>
    ensures { IfOk result (λ holders. AreAbove (action_of graph.now) holders.items) }
{
    let count = graph.nodes().len();
    let mut holders: Vec<Option<u32>> = vec![in alloc; None; count]?;
    for node in (0..count).rev() {
        let nodes = under(alloc, graph, graph.view(node))?;
        set_holder(&mut holders, nodes.as_slice(), node as u32);
    }
    Ok(holders)
}
