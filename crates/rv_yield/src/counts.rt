//! How many yielders each yielder has in it, itself among them.

ghost use Rattle.std.specs.Prelude.{◌≡◌, ℕ, ◌<◌, ◌≤◌, ◌+◌, ◌^◌, length, slice_index, IfOk};
ghost use Rattle.action_terms.specs.Forms.{yielder_at};
ghost use Rattle.action_terms.specs.Need.{yielder_count};
ghost use Rattle.rv_yield.specs.Counts.{AreCounts, capped};

use acg_base::{LIMIT_NODES, Memory};
use action_terms::{Graph, YielderView};
use std::alloc::Global;

/// The most nodes of a graph.
const LIMIT: usize = LIMIT_NODES as usize;

/// How many yielders are in yielder k, by how many are in those behind it.
fn count_at(graph: &Graph<'_>, counts: &[usize], k: usize) -> usize
    requires within { k < length graph.now.yielders }
    requires size { length counts.now ≡ length graph.now.yielders }
    requires behind { (j : ℕ) → k < j → j < length graph.now.yielders → slice_index counts.now
        j ≡ capped (yielder_count (yielder_at graph.now.yielders j)) }
    ensures { result ≡ capped (yielder_count (yielder_at graph.now.yielders k)) }
{
    let inside = match graph.yielder_view(k) {
        YielderView::OnTwo { first, second, .. } => {
            counts[first as usize] + counts[second as usize]
        }
        YielderView::OnOne { argument, .. } => counts[argument as usize],
        YielderView::StoredIn { cell, .. } => counts[cell as usize],
        _ => 0,
    };
    (inside + 1).min(LIMIT)
}

/// How many yielders are in each yielder, itself among them, by the yielder's number: `LIMIT_NODES`
/// where they are more. An `Err` says want of memory.
pub fn yielder_counts(alloc: Global, graph: &Graph<'_>) -> Result<Vec<usize>, Memory>
    ensures { IfOk result (λ counts. AreCounts graph.now.yielders counts.items) }
{
    let count = graph.yielders().len();
    let mut counts = vec![in alloc; 0; count]?;
    for k in (0..count).rev() {
        counts[k] = count_at(graph, &counts, k);
    }
    Ok(counts)
}
