//! One entry of a marked table raised by a demand, and all demands of a node.
ghost use Rattle.std.specs.Prelude.{◌≡◌, ◌<◌, not, false, true, length, IfOk, OnOk};
ghost use Rattle.action_terms.specs.Meaning.{action_of};
ghost use Rattle.action_terms.specs.Proper.{IsProper};
ghost use Rattle.sort_rules.specs.Admissible.{Holds};
ghost use Rattle.sort_rules.specs.Tables.{node_of};
ghost use Rattle.sort_rules.specs.Demands.{allocate_nodes, closure_bodies, demands};
ghost use Rattle.sort_rules.specs.Reached.{AskTheSame};
ghost use Rattle.sort_rules.specs.Tests.{is_met};
ghost use Rattle.sort_rules.specs.MarkedRows.{marked_table};
ghost use Rattle.sort_rules.specs.DemandViews.{demand_of, demands_of as listed};
ghost use Rattle.sort_infer.specs.Raised.{Grows, IsProperTable, RaisesBy, RaisesRow, entry_of};

use crate::task::{Found, Task};
use acg_base::Memory;
use bumpalo::Bump;
use sort_rules::demands::{Demand, are_met, is_met};
use sort_rules::judging::joined;
use sort_rules::nodes::demands_at;
use sort_rules::rows::MarkedRow;
use sort_rules::site::Site;
use sort_rules::{maps, tuples};

// the node of the entry that a demand is about
fn node_of(demand: Demand<'_>) -> u32
    ensures { result ≡ node_of (entry_of (demand_of demand.entry)) }
{
    match demand {
        Demand::DataIn(k, _) => k,
        Demand::BindsIn(k, _) => k,
        Demand::DataOut(k, _) => k,
        Demand::BindsOut(k, _) => k,
        Demand::Escaped(k, _) => k,
        Demand::Contents(k, _) => k,
        Demand::Mark(k, _) => k,
    }
}

// the row of the demand's node, with the demand's entry joined with its part
fn raised_row<'a>(
    arena: &'a Bump,
    row: MarkedRow<'a>,
    demand: Demand<'a>,
) -> Result<MarkedRow<'a>, Memory>
    ensures { IfOk result (λ r. RaisesRow (demand_of demand.entry) row.entry r) }
{
    let mut raised = row;
    match demand {
        Demand::DataIn(_, x) => raised.g = tuples::join(arena, row.g, x)?,
        Demand::BindsIn(_, x) => raised.h = maps::join(arena, row.h, x)?,
        Demand::DataOut(_, x) => raised.o = tuples::join(arena, row.o, x)?,
        Demand::BindsOut(_, x) => raised.p = maps::join(arena, row.p, x)?,
        Demand::Escaped(_, x) => raised.e = tuples::join(arena, row.e, x)?,
        Demand::Contents(_, v) => raised.contents = joined(arena, row.contents, v)?,
        Demand::Mark(_, fits) => raised.fits = row.fits && fits,
    }
    Ok(raised)
}

/// Joins the entry of a demand with its part. The entry's node is one of the table.
pub fn raise<'a>(
    arena: &'a Bump,
    rows: &mut Vec<MarkedRow<'a>>,
    demand: Demand<'a>,
) -> Result<(), Memory>
    requires { node_of (entry_of (demand_of demand)) < length rows.now.items }
    ensures joined { OnOk result (RaisesBy (demand_of demand.entry)
        (marked_table rows.old.items) (marked_table rows.new.items)) }
    ensures length { length rows.new.items ≡ length rows.old.items }
{
    let node = node_of(demand) as usize;
    let row = raised_row(arena, rows[node], demand)?;
    rows[node] = row;
    Ok(())
}

// raises the table by a demand, unless it is met, and notes that; answers whether it wasn't
fn raise_unmet<'a>(
    arena: &'a Bump,
    rows: &mut Vec<MarkedRow<'a>>,
    demand: Demand<'a>,
    raised: &mut Vec<Demand<'a>>,
) -> Result<bool, Memory>
    requires { is_met (marked_table rows.now.items) (demand_of demand) ≡ false
        → node_of (entry_of (demand_of demand)) < length rows.now.items }
    ensures met { IfOk result (λ grew. not grew
        ≡ is_met (marked_table rows.old.items) (demand_of demand.entry)) }
    ensures same { IfOk result (λ grew. grew ≡ false → rows.new.items ≡ rows.old.items) }
    ensures joined { IfOk result (λ grew. grew ≡ true → RaisesBy (demand_of demand.entry)
        (marked_table rows.old.items) (marked_table rows.new.items)) }
    ensures length { length rows.new.items ≡ length rows.old.items }
{
    if is_met(rows.as_slice(), demand) {
        return Ok(false);
    }
    raise(arena, rows, demand)?;
    raised.push(demand)?;
    Ok(true)
}

// raises the table by the demands of a node that aren't met, and notes these; answers whether one
// wasn't
fn raise_all<'a>(
    task: &Task<'_, 'a>,
    node: u32,
    rows: &mut Vec<MarkedRow<'a>>,
    raised: &mut Vec<Demand<'a>>,
) -> Result<bool, Memory>
    requires node { node < length task.now.graph.now.nodes }
    requires cells { task.now.named.now.cells ≡ allocate_nodes (action_of task.now.graph.now) }
    requires bodies { task.now.named.now.bodies ≡ closure_bodies (action_of task.now.graph.now) }
    requires action { IsProper (action_of task.now.graph.now) }
    requires table { IsProperTable (action_of task.now.graph.now) rows.now.items }
    ensures grows { IfOk result (λ grew. Grows (action_of task.now.graph.now) grew
        rows.old.items rows.new.items) }
    ensures holds { IfOk result (λ grew. grew ≡ false
        → Holds (action_of task.now.graph.now) (marked_table rows.old.items) node) }
{
    let demands = demands_of(task, node, rows.as_slice())?;
    let mut grew = false;
    for demand in &demands {
        let unmet = raise_unmet(task.arena, rows, *demand, raised)?;
        grew = grew || unmet;
    }
    Ok(grew)
}

// the demands of a node
fn demands_of<'a>(
    task: &Task<'_, 'a>,
    node: u32,
    rows: &[MarkedRow<'a>],
) -> Result<Vec<Demand<'a>>, Memory>
    requires node { node < length task.now.graph.now.nodes }
    requires cells { task.now.named.now.cells ≡ allocate_nodes (action_of task.now.graph.now) }
    requires bodies { task.now.named.now.bodies ≡ closure_bodies (action_of task.now.graph.now) }
    ensures { IfOk result (λ ds. AskTheSame (listed ds.items)
        (demands (action_of task.now.graph.now) (marked_table rows.now) node)) }
{
    let site = Site {
        alloc: task.alloc,
        arena: task.arena,
        rows,
        cells: &task.named.cells,
        bodies: &task.named.bodies,
        node,
    };
    demands_at(task.graph, &site)
}

// puts the nodes that are given data behind a list
fn push_given(demands: &[Demand<'_>], given: &mut Vec<u32>) -> Result<(), Memory> {
    for demand in demands {
        if let Demand::DataIn(node, _) = *demand {
            given.push(node)?;
        }
    }
    Ok(())
}

// whether the demands of a node hold, and which nodes it gives data to; what is found for the test
// isn't kept, so that the arena of the table gets parts only where a node raises it
fn holds(
    task: &Task<'_, '_>,
    node: u32,
    rows: &[MarkedRow<'_>],
    given: &mut Vec<u32>,
) -> Result<bool, Memory>
    requires node { node < length task.now.graph.now.nodes }
    requires cells { task.now.named.now.cells ≡ allocate_nodes (action_of task.now.graph.now) }
    requires bodies { task.now.named.now.bodies ≡ closure_bodies (action_of task.now.graph.now) }
    ensures { IfOk result (λ b. b ≡ true
        → Holds (action_of task.now.graph.now) (marked_table rows.now) node) }
{
    let scratch = Bump::new(task.alloc);
    let site = Site {
        alloc: task.alloc,
        arena: &scratch,
        rows,
        cells: &task.named.cells,
        bodies: &task.named.bodies,
        node,
    };
    let demands = demands_at(task.graph, &site)?;
    push_given(demands.as_slice(), given)?;
    Ok(are_met(rows, demands.as_slice()))
}

/// Raises the table by the demands of a node that aren't met, and leaves word of what was found.
/// Answers whether one wasn't.
pub fn visit<'a>(
    task: &Task<'_, 'a>,
    node: u32,
    rows: &mut Vec<MarkedRow<'a>>,
    found: &mut Found<'a>,
) -> Result<bool, Memory>
    requires node { node < length task.now.graph.now.nodes }
    requires cells { task.now.named.now.cells ≡ allocate_nodes (action_of task.now.graph.now) }
    requires bodies { task.now.named.now.bodies ≡ closure_bodies (action_of task.now.graph.now) }
    requires action { IsProper (action_of task.now.graph.now) }
    requires table { IsProperTable (action_of task.now.graph.now) rows.now.items }
    ensures grows { IfOk result (λ grew. Grows (action_of task.now.graph.now) grew
        rows.old.items rows.new.items) }
    ensures holds { IfOk result (λ grew. grew ≡ false
        → Holds (action_of task.now.graph.now) (marked_table rows.old.items) node) }
{
    found.given.clear();
    found.raised.clear();
    let met = holds(task, node, rows.as_slice(), &mut found.given)?;
    if met {
        return Ok(false);
    }
    raise_all(task, node, rows, &mut found.raised)
}
