//! Where nodes go on once they have completed.

ghost use Rattle.std.specs.Prelude.{◌≡◌, ℕ, ◌+◌, ◌*◌, ◌<◌, ◌≤◌, IfOk, length, vec_len};
ghost use Rattle.action_terms.specs.Actions.{node_at};
ghost use Rattle.action_terms.specs.Meaning.{action_of};
ghost use Rattle.rv_codegen.specs.Blocks.{first_label, front_of, with_exits, exits_of};

use crate::labels::NodeLabels;
use acg_base::Memory;
use action_terms::{Graph, NodeView};
use rv_asm::Label;
use std::alloc::Global;

/// Has the first part of node k go on at the front of the second, or at the stop of an alternative
/// or of a trap,
/// and the second where the node does.
fn set_exits(exits: &mut Vec<Label>, labels: NodeLabels<'_>, graph: &Graph<'_>, k: usize)
    requires node { k < length graph.now.nodes }
    requires len { vec_len exits.old ≡ length graph.now.nodes }
    requires labels { 4 * length graph.now.nodes + 3 < length labels.row.now }
    ensures exits { exits.new.items
        ≡ with_exits (node_at (action_of graph.now) k) k exits.old.items }
    ensures len { vec_len exits.new ≡ vec_len exits.old }
{
    match graph.view(k) {
        NodeView::Both {
            join: _,
            left,
            right,
        }
        | NodeView::Phases {
            chain: _,
            left,
            right,
        } => {
            let exit = exits[k];
            exits[left as usize] = labels.front(right as usize);
            exits[right as usize] = exit;
        }
        NodeView::Either { left, right } | NodeView::Trapping { left, right } => {
            let behind = exits[k];
            exits[left as usize] = labels.stop(k);
            exits[right as usize] = behind;
        }
        _ => {}
    }
}

/// The label where each node goes on, by the number of the node. The root goes on behind the last
/// node, and the bodies of other procedures at the way back.
pub(crate) fn make_exits(
    alloc: Global,
    graph: &Graph<'_>,
    labels: NodeLabels<'_>,
) -> Result<Vec<Label>, Memory>
    requires { 4 * length graph.now.nodes + 3 < length labels.row.now }
    ensures len { IfOk result (λ exits. vec_len exits ≡ length graph.now.nodes) }
    ensures exits { IfOk result (λ exits. exits.items ≡ exits_of (action_of graph.now)) }
{
    let count = graph.nodes().len();
    let mut exits = vec![in alloc; labels.stop(count); count]?;
    exits[0] = labels.front(count);
    for k in 0..count {
        set_exits(&mut exits, labels, graph, k);
    }
    Ok(exits)
}
