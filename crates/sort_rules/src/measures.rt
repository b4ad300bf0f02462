//! The measures of an action by a table: the slots of its procedures, and its factor.
ghost use Rattle.std.specs.Prelude.{ℕ, ◌≡◌, ◌<◌, ◌≤◌, length, slice_index, IfOk};
ghost use Rattle.action_terms.specs.Meaning.{action_of};
ghost use Rattle.action_terms.specs.Need.{most_yielders, factor};
ghost use Rattle.sort_rules.specs.Filling.{AreSums};
ghost use Rattle.sort_rules.specs.Measures.{slots, width};
ghost use Rattle.sort_rules.specs.Procedures.{procedure_of};
ghost use Rattle.sort_rules.specs.Rows.{IsSortRow, IsTableOf, row_words, unmarked};
ghost use Rattle.sort_rules.specs.Views.{row_of};

use crate::counting::most_yielders;
use crate::roots::procedure_roots;
use crate::table::{Row, Table, binds_length, tuple_length};
use acg_base::Memory;
use action_terms::Graph;
use std::alloc::Global;

// the words that a row takes
fn row_words(row: Row<'_>) -> u64
    requires { IsSortRow (row_of row) }
    ensures words { result ≡ row_words (row_of row.entry) }
    ensures few { result ≤ 328 }
{
    let data = tuple_length(row.g) + tuple_length(row.o) + tuple_length(row.e);
    8 + (data + binds_length(row.h) + binds_length(row.p)) as u64
}

// of each node, the words of the rows of the procedure of which it is the root
fn row_sums(
    alloc: Global,
    graph: &Graph<'_>,
    table: &Table<'_>,
    roots: &[u32],
) -> Result<Vec<u64>, Memory>
    requires table { IsTableOf (action_of graph.now) table.now }
    requires long { length roots.now ≡ length (action_of graph.now) }
    requires roots { (k : ℕ) → k < length (action_of graph.now)
        → slice_index roots.now k ≡ procedure_of (action_of graph.now) k }
    requires before { (k : ℕ) → k < length (action_of graph.now) → slice_index roots.now k ≤ k }
    ensures sums { IfOk result (λ sums. AreSums (action_of graph.now) (unmarked table.now)
        0 sums.items) }
    ensures few { IfOk result (λ sums. (c : ℕ) → c < length sums.items
        → slice_index sums.items c ≤ 21495808) }
{
    let count = graph.nodes().len();
    let mut sums: Vec<u64> = vec![in alloc; 0; count]?;
    for k in (0..count).rev() {
        sums[roots[k] as usize] += row_words(table.row(k as u32));
    }
    Ok(sums)
}

/// The slots of each procedure, in words of 8 bytes, by the number of its root; 0 for a node that
/// is the root of none. An `Err` says want of memory.
pub fn slots(alloc: Global, graph: &Graph<'_>, table: &Table<'_>) -> Result<Vec<u64>, Memory>
    requires { IsTableOf (action_of graph.now) table.now }
    ensures long { IfOk result (λ words. length words.items ≡ length (action_of graph.now)) }
    ensures slots { IfOk result (λ words. (c : ℕ) → c < length (action_of graph.now)
        → slice_index words.items c ≡ slots (action_of graph.now) (unmarked table.now) c) }
{
    let roots = procedure_roots(alloc, graph)?;
    let mut slots = row_sums(alloc, graph, table, &roots)?;
    for c in 0..slots.len() {
        slots[c] = if roots[c] as usize == c {
            32 + slots[c]
        } else {
            0
        };
    }
    Ok(slots)
}

/// The factor: how many instructions a compiled action takes at most for a step, where the table has
/// a row for each of its nodes. An `Err` says want of memory.
pub fn factor(alloc: Global, graph: &Graph<'_>, table: &Table<'_>) -> Result<u64, Memory>
    requires rows { length table.now.rows ≡ length (action_of graph.now) }
    ensures { IfOk result (λ instructions. instructions
        ≡ factor (width (length (action_of graph.now)) (unmarked table.now))
        (most_yielders (action_of graph.now))) }
{
    let most = most_yielders(alloc, graph)?;
    Ok(400 + 24 * (u64::from(table.width()) + 1) * (u64::from(most) + 1))
}
