//! The procedures of an action: which node is the root of each node's.
ghost use Rattle.std.specs.Prelude.{ℕ, ◌≡◌, ◌<◌, ◌≤◌, List, length, slice_index, IfOk};
ghost use Rattle.action_terms.specs.Forms.{NamesNodes, node_viewed};
ghost use Rattle.action_terms.specs.Meaning.{action_of};
ghost use Rattle.action_terms.specs.Numbering.{ListedYielder};
ghost use Rattle.sort_rules.specs.Procedures.{parts_at, procedure_of};
ghost use Rattle.sort_rules.specs.Filling.{with_whole, AreWholes};

use acg_base::Memory;
use action_terms::{Graph, NodeView};
use std::alloc::Global;

// the numbers of so many nodes
fn own_numbers(alloc: Global, count: usize) -> Result<Vec<u32>, Memory>
    requires { count ≤ 65536 }
    ensures long { IfOk result (λ numbers. length numbers.items ≡ count) }
    ensures own { IfOk result (λ numbers. (k : ℕ) → k < count → slice_index numbers.items k ≡ k) }
{
    let mut numbers = Vec::new(alloc);
    for k in 0..count {
        numbers.push(k as u32)?;
    }
    Ok(numbers)
}

// writes node k down for its parts
fn set_whole(wholes: &mut Vec<u32>, view: NodeView<'_>, k: u32)
    requires parts { NamesNodes k (length wholes.old.items) view }
    ensures wholes { (ls : List ListedYielder) → wholes.new.items
        ≡ with_whole k (parts_at (node_viewed ls view.entry)) wholes.old.items }
{
    match view {
        NodeView::Furthermore { part } => wholes[part as usize] = k,
        NodeView::Both { left, right, .. }
        | NodeView::Phases { left, right, .. }
        | NodeView::Either { left, right }
        | NodeView::Trapping { left, right }
        | NodeView::Branch { left, right, .. } => {
            wholes[left as usize] = k;
            wholes[right as usize] = k;
        }
        _ => {}
    }
}

// of each node, the node that it is a part of, or the node itself
fn wholes(alloc: Global, graph: &Graph<'_>) -> Result<Vec<u32>, Memory>
    ensures { IfOk result (λ wholes. AreWholes (action_of graph.now) 0 wholes.items) }
{
    let count = graph.nodes().len();
    let mut wholes = own_numbers(alloc, count)?;
    for k in (0..count).rev() {
        set_whole(&mut wholes, graph.view(k), k as u32);
    }
    Ok(wholes)
}

/// The root of each node's procedure, by the node's number. An `Err` says want of memory.
pub fn procedure_roots(alloc: Global, graph: &Graph<'_>) -> Result<Vec<u32>, Memory>
    ensures long { IfOk result (λ roots. length roots.items ≡ length (action_of graph.now)) }
    ensures roots { IfOk result (λ roots. (k : ℕ) → k < length (action_of graph.now)
        → slice_index roots.items k ≡ procedure_of (action_of graph.now) k) }
    ensures before { IfOk result (λ roots. (k : ℕ) → k < length (action_of graph.now)
        → slice_index roots.items k ≤ k) }
{
    let mut roots = wholes(alloc, graph)?;
    for k in 0..roots.len() {
        roots[k] = roots[roots[k] as usize];
    }
    Ok(roots)
}
