//! The procedure of each node, and the nodes of each procedure.
ghost use Rattle.std.specs.Prelude.{◌≡◌, ℕ, ◌<◌, ◌≤◌, IfOk, length, vec_len, slice_index};
ghost use Rattle.action_terms.specs.Actions.{node_at};
ghost use Rattle.action_terms.specs.Meaning.{action_of};
ghost use Rattle.action_terms.specs.Numbering.{IsGraph};
ghost use Rattle.sort_rules.specs.Procedures.{parts_at};
ghost use Rattle.frame_layout.specs.Roots.{AreMembers, AreRoots, handed_down};

use acg_base::Memory;
use action_terms::{Graph, NodeView};
use std::alloc::Global;

// gives the parts of a node the root that the node has
fn hand_down(roots: &mut Vec<u32>, graph: &Graph<'_>, node: usize)
    requires node { node < length graph.now.nodes }
    requires len { vec_len roots.old ≡ length graph.now.nodes }
    ensures roots { roots.new.items ≡ handed_down (parts_at (node_at (action_of graph.now) node))
        (slice_index roots.old.items node) roots.old.items }
    ensures len { vec_len roots.new ≡ vec_len roots.old }
{
    let root = roots[node];
    match graph.view(node) {
        NodeView::Furthermore { part } => roots[part as usize] = root,
        NodeView::Both { left, right, .. }
        | NodeView::Phases { left, right, .. }
        | NodeView::Either { left, right }
        | NodeView::Trapping { left, right }
        | NodeView::Branch { left, right, .. } => {
            roots[left as usize] = root;
            roots[right as usize] = root;
        }
        _ => {}
    }
}

/// The root of the procedure of each node, by the number of the node.
pub(crate) fn procedure_roots(alloc: Global, graph: &Graph<'_>) -> Result<Vec<u32>, Memory>
    ensures roots { IfOk result (λ roots. AreRoots (action_of graph.now) roots.items) }
    ensures of_an_action { IsGraph graph.now }
{
    let count = graph.nodes().len();
    let mut roots = Vec::with_capacity(alloc, count)?;
    for node in 0..count {
        roots.push(node as u32)?;
    }
    for node in 0..count {
        hand_down(&mut roots, graph, node);
    }
    Ok(roots)
}

/// The nodes of each procedure, ascending, by the number of its root. Where a node is no root there
/// are none.
pub(crate) fn members(alloc: Global, roots: &[u32]) -> Result<Vec<Vec<u32>>, Memory>
    requires few { length roots.now ≤ 65536 }
    requires within { (k : ℕ) → k < length roots.now → slice_index roots.now k < length roots.now }
    ensures { IfOk result (λ groups. AreMembers roots.now groups.items) }
{
    let mut groups = Vec::with_capacity(alloc, roots.len())?;
    for _ in 0..roots.len() {
        groups.push(Vec::new(alloc))?;
    }
    for node in 0..roots.len() {
        groups[roots[node] as usize].push(node as u32)?;
    }
    Ok(groups)
}
