//! A table raised until the demands of all nodes hold.
ghost use Rattle.std.specs.Prelude.{◌≡◌, ◌<◌, false, length, All, IfOk, OnOk};
ghost use Rattle.action_terms.specs.Meaning.{action_of};
ghost use Rattle.action_terms.specs.Proper.{IsProper};
ghost use Rattle.sort_rules.specs.Admissible.{Holds};
ghost use Rattle.sort_rules.specs.Demands.{allocate_nodes, closure_bodies};
ghost use Rattle.sort_rules.specs.MarkedRows.{marked_table};
ghost use Rattle.sort_rules.specs.Parts.{Unreached};
ghost use Rattle.sort_rules.specs.Raising.{first_table};
ghost use Rattle.sort_rules.specs.Tables.{Entry};
ghost use Rattle.sort_rules.specs.Values.{nothing};
ghost use Rattle.sort_infer.specs.Raised.{Grows, IsGiven, IsProperTable, Settles};

use crate::raising::visit;
use crate::task::{Found, Task};
use crate::tour::{all_nodes, tour};
use crate::worklist::Worklist;
use acg_base::Memory;
use sort_rules::rows::MarkedRow;
use sort_rules::values::Value;
use sort_rules::{MarkedBinds, MarkedTuple};
use std::alloc::Global;

// the row of a node that nothing reaches
fn unreached_row<'a>() -> MarkedRow<'a>
    ensures { IsGiven result Unreached Unreached }
{
    MarkedRow {
        g: MarkedTuple::Unreached,
        h: MarkedBinds::Unreached,
        o: MarkedTuple::Unreached,
        p: MarkedBinds::Unreached,
        e: MarkedTuple::Unreached,
        contents: Value::Unreached,
        fits: true,
    }
}

// the row of the root, that is given nothing and receives nothing
fn root_row<'a>() -> MarkedRow<'a>
    ensures { IsGiven result nothing nothing }
{
    MarkedRow {
        g: MarkedTuple::List(&[]),
        h: MarkedBinds::Map(&[]),
        ..unreached_row()
    }
}

/// The table with nothing but the root's demand, of so many nodes.
pub fn first_rows<'a>(alloc: Global, count: usize) -> Result<Vec<MarkedRow<'a>>, Memory>
    requires { 0 < count }
    ensures length { IfOk result (λ rows. length rows.items ≡ count) }
    ensures table { IfOk result (λ rows. (x : Entry) → marked_table rows.items x
        ≡ first_table x) }
{
    let mut rows = Vec::with_capacity(alloc, count)?;
    rows.push(root_row())?;
    for _node in 1..count {
        rows.push(unreached_row())?;
    }
    Ok(rows)
}

// visits nodes of the tour as long as one of which a row that it reads was raised is to be visited
fn drain<'a>(
    task: &Task<'_, 'a>,
    tour: &[u32],
    work: &mut Worklist,
    rows: &mut Vec<MarkedRow<'a>>,
) -> Result<bool, Memory>
    requires order { All (λ k. k < length task.now.graph.now.nodes) tour.now }
    requires cells { task.now.named.now.cells ≡ allocate_nodes (action_of task.now.graph.now) }
    requires bodies { task.now.named.now.bodies ≡ closure_bodies (action_of task.now.graph.now) }
    requires action { IsProper (action_of task.now.graph.now) }
    requires table { IsProperTable (action_of task.now.graph.now) rows.now.items }
    ensures { IfOk result (λ grew. Grows (action_of task.now.graph.now) grew
        rows.old.items rows.new.items) }
{
    let mut found = Found::new(task.alloc);
    let mut grew = false;
    for _visit in 0..u64::MAX {
        let Some(place) = work.next(tour) else {
            break;
        };
        let Some(node) = tour.get(place) else {
            break;
        };
        let raised = visit(task, *node, rows, &mut found)?;
        work.note(*node, &found)?;
        grew = grew || raised;
    }
    Ok(grew)
}

// visits the nodes in order; answers whether the table grew
fn round<'a>(
    task: &Task<'_, 'a>,
    order: &[u32],
    work: &mut Worklist,
    rows: &mut Vec<MarkedRow<'a>>,
) -> Result<bool, Memory>
    requires order { All (λ k. k < length task.now.graph.now.nodes) order.now }
    requires cells { task.now.named.now.cells ≡ allocate_nodes (action_of task.now.graph.now) }
    requires bodies { task.now.named.now.bodies ≡ closure_bodies (action_of task.now.graph.now) }
    requires action { IsProper (action_of task.now.graph.now) }
    requires table { IsProperTable (action_of task.now.graph.now) rows.now.items }
    ensures grows { IfOk result (λ grew. Grows (action_of task.now.graph.now) grew
        rows.old.items rows.new.items) }
    ensures hold { IfOk result (λ grew. grew ≡ false
        → All (λ k. Holds (action_of task.now.graph.now) (marked_table rows.old.items) k)
        order.now) }
{
    let mut found = Found::new(task.alloc);
    let mut grew = false;
    for node in order {
        let raised = visit(task, *node, rows, &mut found)?;
        work.note(*node, &found)?;
        grew = grew || raised;
    }
    Ok(grew)
}

/// Raises the table until the demands of all nodes hold. A node is visited again where a row that
/// it reads was raised; that nothing is left, a visit of all nodes tells which raises none.
pub fn settle<'a>(task: &Task<'_, 'a>, rows: &mut Vec<MarkedRow<'a>>) -> Result<(), Memory>
    requires cells { task.now.named.now.cells ≡ allocate_nodes (action_of task.now.graph.now) }
    requires bodies { task.now.named.now.bodies ≡ closure_bodies (action_of task.now.graph.now) }
    requires action { IsProper (action_of task.now.graph.now) }
    requires table { IsProperTable (action_of task.now.graph.now) rows.now.items }
    ensures { OnOk result (Settles (action_of task.now.graph.now) rows.old.items rows.new.items) }
{
    let tour = tour(task.alloc, task.graph)?;
    let nodes = all_nodes(task.alloc, task.graph)?;
    let mut work = Worklist::new(task.alloc, task.graph, tour.as_slice())?;
    let mut grew = true;
    while grew {
        drain(task, tour.as_slice(), &mut work, rows)?;
        grew = round(task, nodes.as_slice(), &mut work, rows)?;
    }
    Ok(())
}
